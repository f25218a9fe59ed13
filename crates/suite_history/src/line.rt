//! The lines of a history.

ghost use Rattle.std.specs.Prelude.{◌≡◌};
ghost use Rattle.file_ops.specs.Steps.{found_or};
ghost use Rattle.script_text.specs.Numbers.{number_up_to};
ghost use Rattle.suite_history.specs.Lines.{call_in, do_in, is_call, is_do, is_ret, is_root, line_in, ret_in, told_in};
ghost use Rattle.suite_script.specs.Forms.{max_number};
ghost use Rattle.suite_script.specs.Readings.{Gives};

use crate::asking::read_request;
use crate::told::read_seen;
use acl_core::Caller;
use acl_text::Names;
use history_judge::{CallRequest, Seen};
use script_text::{WordParts, Words, read_number};
use std::alloc::Global;
use suite_script::{Language, LineError, LineFault, next_word};

/// What a line says.
#[derive(Drop)]
pub(crate) enum Said {
    /// That this is the history's root folder.
    Root,
    /// That this was called for, and answered at once.
    Do(Caller, CallRequest),
    /// That a client called for this, by the client's own name of the call.
    Call(u64, Caller, CallRequest),
    /// What the client of this call was told.
    Ret(u64, Seen),
}

/// A history's first line is read as that of a script. The lines below it are read here.
#[derive(Clone, Copy)]
pub(crate) struct HistoryLines;

impl Language for HistoryLines {
    ghost use Rattle.std.specs.Prelude.{Err, false};
    ghost use Rattle.suite_history.specs.Lines.{is_known};
    ghost use Rattle.suite_script.specs.declared.fault.LineFault.TheVariants as fault;

    type Own = ();

    ghost is_known = { is_known };

    ghost begins = { λ _. false };

    ghost own = { λ _ _ _ _. Err fault.Form };

    fn is_known(word: &[u8]) -> bool {
        is_root(word) || is_do(word) || is_call(word) || is_ret(word)
    }

    fn begins(_word: &[u8]) -> bool {
        false
    }

    fn read(
        &self,
        _alloc: Global,
        _names: &Names,
        _first: &[u8],
        _words: Words<'_>,
    ) -> Result<(), LineError> {
        Err(LineError::Faulty(LineFault::Form))
    }
}

fn is_root(word: &[u8]) -> bool
    ensures { result ≡ is_root word.now }
{
    word == b"root".as_slice()
}

fn is_do(word: &[u8]) -> bool
    ensures { result ≡ is_do word.now }
{
    word == b"do".as_slice()
}

fn is_call(word: &[u8]) -> bool
    ensures { result ≡ is_call word.now }
{
    word == b"call".as_slice()
}

fn is_ret(word: &[u8]) -> bool
    ensures { result ≡ is_ret word.now }
{
    word == b"ret".as_slice()
}

/// What a line says.
pub(crate) fn read_line(alloc: Global, line: &[u8]) -> Result<Said, LineError>
    ensures { Gives result (line_in line.now) }
{
    let mut words = Words::new(line);
    let first = next_word(&mut words)?;
    if is_root(first) {
        Ok(Said::Root)
    } else if is_do(first) {
        read_do(alloc, words)
    } else if is_call(first) {
        read_call(alloc, words)
    } else if is_ret(first) {
        read_ret(alloc, WordParts::new(line, b';'))
    } else {
        Err(LineError::Faulty(LineFault::Form))
    }
}

/// What was asked for and answered at once.
fn read_do(alloc: Global, words: Words<'_>) -> Result<Said, LineError>
    ensures { Gives result (do_in words.entry) }
{
    let (caller, asked) = read_request(alloc, words)?;
    Ok(Said::Do(caller, asked))
}

/// A call's name, and what it asks for.
fn read_call(alloc: Global, mut words: Words<'_>) -> Result<Said, LineError>
    ensures { Gives result (call_in words.entry) }
{
    let name = read_name(next_word(&mut words)?)?;
    let (caller, asked) = read_request(alloc, words)?;
    Ok(Said::Call(name, caller, asked))
}

fn read_name(word: &[u8]) -> Result<u64, LineFault>
    ensures { result ≡ found_or (number_up_to max_number word.now) LineFault.Form }
{
    read_number(word, u64::MAX).ok_or(LineFault::Form)
}

/// What was told, from a line's parts between semicolons.
fn read_ret(alloc: Global, mut parts: WordParts<'_>) -> Result<Said, LineError>
    ensures { Gives result (ret_in parts.entry) }
{
    let Some(first) = parts.next() else {
        return Err(LineError::Faulty(LineFault::Form));
    };
    let mut words = Words::new(first);
    let _ret = next_word(&mut words)?;
    read_told(alloc, words, parts)
}

/// A call's name, and what was told.
fn read_told(alloc: Global, mut words: Words<'_>, more: WordParts<'_>) -> Result<Said, LineError>
    ensures { Gives result (told_in words.entry more.entry) }
{
    let name = read_name(next_word(&mut words)?)?;
    let seen = read_seen(alloc, words, more)?;
    Ok(Said::Ret(name, seen))
}
