//! How the ends of jobs and the denials of a server are printed.

ghost use Rattle.std.specs.Prelude.{◌≡◌, ◌++◌, OnOk};
ghost use Rattle.suite_play.specs.Texts.{cause_text, ending_text, item_line, outcome_line};

use file_ops::AuditItem;
use run_core::EndedJob;
use script_text::push_number;
use std::alloc::{AllocError, Global};
use suite_script::{push_answered, push_denial, push_refused};
use txn_core::{Cause, Ending};

/// The line of a job that has ended.
pub(crate) fn push_outcome(
    alloc: Global,
    text: &mut Vec<u8>,
    outcome: &EndedJob,
) -> Result<(), AllocError>
    ensures { OnOk result (text.new.items ≡ text.old.items ++ outcome_line outcome.now) }
{
    push_number(text, u64::from(outcome.agent))?;
    text.extend_from_slice(b".")?;
    push_number(text, outcome.count)?;
    text.extend_from_slice(b" ")?;
    push_number(text, outcome.steps)?;
    text.extend_from_slice(b" ")?;
    push_ending(alloc, text, &outcome.ending)?;
    text.extend_from_slice(b"\n")
}

/// How a job has ended, as a command's line tells it.
pub fn push_ending(alloc: Global, text: &mut Vec<u8>, ending: &Ending) -> Result<(), AllocError>
    ensures { OnOk result (text.new.items ≡ text.old.items ++ ending_text ending.now) }
{
    match ending {
        Ending::Answered(answers) => push_answered(alloc, text, answers.as_slice()),
        Ending::Refused(refusal) => push_refused(text, *refusal),
        Ending::Swept {
            broken,
            finished,
            left,
        } => {
            text.extend_from_slice(b"swept ")?;
            push_number(text, *broken)?;
            text.extend_from_slice(b" ")?;
            push_number(text, *finished)?;
            text.extend_from_slice(b" ")?;
            push_number(text, *left)
        }
        Ending::Undecided(cause) => {
            text.extend_from_slice(b"undecided ")?;
            push_cause(text, *cause)
        }
    }
}

fn push_cause(text: &mut Vec<u8>, cause: Cause) -> Result<(), AllocError>
    ensures { OnOk result (text.new.items ≡ text.old.items ++ cause_text cause) }
{
    match cause {
        Cause::Unavailable { suite, got, needed } => {
            text.extend_from_slice(b"U1 suite ")?;
            push_number(text, suite)?;
            text.extend_from_slice(b" got ")?;
            push_number(text, u64::from(got))?;
            text.extend_from_slice(b" of ")?;
            push_number(text, u64::from(needed))
        }
        Cause::Busy { server, holder } => {
            text.extend_from_slice(b"U2 server ")?;
            push_number(text, u64::from(server))?;
            text.extend_from_slice(b" holder ")?;
            push_number(text, holder)
        }
        Cause::Lost { server } => {
            text.extend_from_slice(b"U3 server ")?;
            push_number(text, u64::from(server))
        }
        Cause::Overruled => text.extend_from_slice(b"U4"),
        Cause::HomeDown => text.extend_from_slice(b"U5"),
        Cause::Full { server } => {
            text.extend_from_slice(b"U6 server ")?;
            push_number(text, u64::from(server))
        }
        Cause::Memory => text.extend_from_slice(b"U7"),
    }
}

/// The line of a denial that a server keeps.
pub(crate) fn push_item(text: &mut Vec<u8>, item: &AuditItem) -> Result<(), AllocError>
    ensures { OnOk result (text.new.items ≡ text.old.items ++ item_line item.now) }
{
    text.extend_from_slice(b"t ")?;
    push_number(text, item.t)?;
    text.extend_from_slice(b" uid ")?;
    push_number(text, u64::from(item.uid))?;
    text.extend_from_slice(b" ")?;
    push_denial(text, item.op, item.denial)?;
    text.extend_from_slice(b"\n")
}
