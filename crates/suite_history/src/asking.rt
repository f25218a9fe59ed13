//! Who asks for what, as words.

ghost use Rattle.std.specs.Prelude.{◌≡◌};
ghost use Rattle.suite_history.specs.code.Readings.{GivesRequest};
ghost use Rattle.suite_history.specs.Asking.{asked_in, is_test, operations_in, perms_in, request_in, test_in};
ghost use Rattle.suite_script.specs.Readings.{Gives};

use acl_core::{Caller, Perms};
use acl_text::Names;
use file_ops::PathText;
use history_judge::{CallOps, CallRequest};
use script_text::Words;
use std::alloc::Global;
use suite_script::{
    LineError, LineFault, at_end, next_word, read_caller, read_id, read_operations,
};

/// A caller, and what it asks for.
pub(crate) fn read_request(
    alloc: Global,
    mut words: Words<'_>,
) -> Result<(Caller, CallRequest), LineError>
    ensures { GivesRequest result (request_in words.entry) }
{
    let uid = read_id(next_word(&mut words)?)?;
    let caller = read_caller(uid, next_word(&mut words)?)?;
    let asked = read_asked(alloc, words)?;
    Ok((caller, asked))
}

/// A test, or operations.
fn read_asked(alloc: Global, words: Words<'_>) -> Result<CallRequest, LineError>
    ensures { Gives result (asked_in words.entry) }
{
    let mut rest = Words::new(words.rest());
    match rest.next() {
        Some(first) if is_test(first) => read_test(alloc, rest),
        _ => read_ops(alloc, words),
    }
}

fn is_test(word: &[u8]) -> bool
    ensures { result ≡ is_test word.now }
{
    word == b"test".as_slice()
}

fn read_ops(alloc: Global, words: Words<'_>) -> Result<CallRequest, LineError>
    ensures { Gives result (operations_in words.entry) }
{
    let names = Names::new(alloc);
    let ops = read_operations(alloc, &names, words)?;
    Ok(CallRequest::Ops(CallOps::from_vec(ops)?))
}

/// A path, and what is wanted there.
fn read_test(alloc: Global, mut words: Words<'_>) -> Result<CallRequest, LineError>
    ensures { Gives result (test_in words.entry) }
{
    let path = next_word(&mut words)?;
    let wanted = perms_of(next_word(&mut words)?).ok_or(LineFault::Form)?;
    at_end(&mut words)?;
    Ok(CallRequest::Test(PathText::new(alloc, path)?, wanted))
}

/// The permissions that a word spells.
fn perms_of(word: &[u8]) -> Option<Perms>
    ensures { result ≡ perms_in word.now }
{
    match word {
        b"r" => Some(Perms::READ),
        b"w" => Some(Perms::WRITE),
        b"x" => Some(Perms::EXEC),
        b"rw" => Some(Perms::from_digit(6)),
        b"rx" => Some(Perms::from_digit(5)),
        b"wx" => Some(Perms::from_digit(3)),
        b"rwx" => Some(Perms::from_digit(7)),
        _ => None,
    }
}
