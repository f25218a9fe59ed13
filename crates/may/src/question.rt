//! A question, and its answer.

ghost use Rattle.std.specs.Prelude.{◌≡◌, ◌++◌, OnOk};
ghost use Rattle.suite_script.specs.Readings.{Gives};
ghost use Rattle.may.specs.Answers.{answer_line, verdict};
ghost use Rattle.may.specs.Questions.{question_in};

use crate::words::{read_list, read_wanted};
use acl_core::{Acl, Caller, Check, Perms};
use acl_text::{append_decider, permission_text};
use script_text::Words;
use std::alloc::{AllocError, Global};
use suite_script::{LineError, at_end, next_word, read_caller, read_id};

/// Whether a caller is granted what it wants, of a file of this owner and group with this list.
#[derive(Drop)]
pub(crate) struct Question {
    owner: u32,
    group: u32,
    caller: Caller,
    wanted: Perms,
    list: Acl,
}

/// The question that a line asks.
pub(crate) fn read_question(alloc: Global, line: &[u8]) -> Result<Question, LineError>
    ensures { Gives result (question_in line.now) }
{
    let mut words = Words::new(line);
    let owner = read_id(next_word(&mut words)?)?;
    let group = read_id(next_word(&mut words)?)?;
    let uid = read_id(next_word(&mut words)?)?;
    let caller = read_caller(uid, next_word(&mut words)?)?;
    let wanted = read_wanted(next_word(&mut words)?)?;
    let text = next_word(&mut words)?;
    at_end(&mut words)?;
    let list = read_list(alloc, text)?;
    Ok(Question {
        owner,
        group,
        caller,
        wanted,
        list,
    })
}

/// The answer of the access check.
fn verdict(question: &Question) -> Check
    ensures { result ≡ verdict question.now }
{
    let list = &question.list;
    list.check(
        question.owner,
        question.group,
        &question.caller,
        question.wanted,
    )
}

/// Adds the answer to a question, as a line.
pub(crate) fn push_answer(text: &mut Vec<u8>, question: &Question) -> Result<(), AllocError>
    ensures { OnOk result (text.new.items ≡ text.old.items ++ answer_line question.now) }
{
    match verdict(question) {
        Check::Granted => text.extend_from_slice(b"granted\n"),
        Check::Denied(decider) => {
            text.extend_from_slice(b"denied ")?;
            text.extend_from_slice(&permission_text(question.wanted))?;
            text.extend_from_slice(b" by ")?;
            append_decider(text, decider)?;
            text.extend_from_slice(b"\n")
        }
    }
}
