//! What a client was told of its call, as words.

ghost use Rattle.std.specs.Prelude.{◌≡◌, ◌∷◌, []};
ghost use Rattle.file_ops.specs.Steps.{ok_map};
ghost use Rattle.suite_history.specs.Told.{answered_in, granted_in, is_granted, refusal_in, refused_in, replies_in, seen_in, these_in, why_in};
ghost use Rattle.suite_history.specs.code.Readings.{AddsReplies};
ghost use Rattle.suite_script.specs.Readings.{Gives};

use crate::reply::{read_reply, reply_of};
use file_ops::{Answer, Answers, Refusal, Why};
use history_judge::Seen;
use script_text::{WordParts, Words, read_number};
use std::alloc::Global;
use suite_script::{LineError, LineFault, at_end, next_word};

/// What was told: the words of the first part, and the parts after its semicolon.
pub(crate) fn read_seen(
    alloc: Global,
    mut words: Words<'_>,
    more: WordParts<'_>,
) -> Result<Seen, LineError>
    ensures { Gives result (seen_in words.entry more.entry) }
{
    let kind = next_word(&mut words)?;
    if kind == b"answered".as_slice() {
        read_answered(alloc, words, more)
    } else {
        read_refusal(kind, &mut words, more)
    }
}

/// Some replies; that a test was granted; or these replies.
fn read_answered(
    alloc: Global,
    mut words: Words<'_>,
    more: WordParts<'_>,
) -> Result<Seen, LineError>
    ensures { Gives result (answered_in words.entry more.entry) }
{
    match words.next() {
        None => some_answers(more),
        Some(verb) if is_granted(verb) => read_granted(alloc, words, more),
        Some(verb) => read_these(alloc, verb, words, more),
    }
}

fn is_granted(word: &[u8]) -> bool
    ensures { result ≡ is_granted word.now }
{
    word == b"granted".as_slice()
}

/// That a test was granted: no more words, and no more parts.
fn read_granted(
    alloc: Global,
    mut words: Words<'_>,
    mut more: WordParts<'_>,
) -> Result<Seen, LineError>
    ensures { Gives result (granted_in words.entry more.entry) }
{
    match (words.next(), more.next()) {
        (None, None) => Ok(Seen::Answered(Answers::from_vec(Vec::new(alloc))?)),
        _ => Err(LineError::Faulty(LineFault::Form)),
    }
}

/// These replies.
fn read_these(
    alloc: Global,
    verb: &[u8],
    mut words: Words<'_>,
    more: WordParts<'_>,
) -> Result<Seen, LineError>
    ensures { Gives result (these_in verb.now words.entry more.entry) }
{
    let first = reply_of(alloc, verb, &mut words)?;
    Ok(Seen::Answered(all_replies(alloc, first, more)?))
}

/// Replies that were not kept: no words.
fn some_answers(mut more: WordParts<'_>) -> Result<Seen, LineError>
    ensures { Gives result (answered_in [] more.entry) }
{
    match more.next() {
        None => Ok(Seen::SomeAnswers),
        Some(_) => Err(LineError::Faulty(LineFault::Form)),
    }
}

/// A reply, and those of the parts after it.
fn all_replies(alloc: Global, first: Answer, parts: WordParts<'_>) -> Result<Answers, LineError>
    ensures { Gives result (ok_map (λ later. first ∷ later) (replies_in parts.entry)) }
{
    let mut replies = Vec::with_capacity(alloc, 1)?;
    replies.push(first)?;
    push_replies(alloc, &mut replies, parts)?;
    Ok(Answers::from_vec(replies)?)
}

/// Adds the replies of some parts.
fn push_replies(
    alloc: Global,
    replies: &mut Vec<Answer>,
    mut parts: WordParts<'_>,
) -> Result<(), LineError>
    ensures { AddsReplies result replies.old.items replies.new.items (replies_in parts.entry) }
{
    while let Some(part) = parts.next() {
        let reply = read_reply(alloc, Words::new(part))?;
        replies.push(reply)?;
    }
    Ok(())
}

/// A denial or another refusal, which is told in one part.
fn read_refusal(
    kind: &[u8],
    words: &mut Words<'_>,
    mut more: WordParts<'_>,
) -> Result<Seen, LineError>
    ensures { Gives result (refusal_in kind.now words.old more.entry) }
{
    if more.next().is_some() {
        return Err(LineError::Faulty(LineFault::Form));
    }
    if kind == b"denied".as_slice() {
        at_end(words)?;
        Ok(Seen::Denied)
    } else if kind == b"refused".as_slice() {
        read_refused(words)
    } else {
        Err(LineError::Faulty(LineFault::Form))
    }
}

/// A code, the word `op`, and the operation's number.
fn read_refused(words: &mut Words<'_>) -> Result<Seen, LineError>
    ensures { Gives result (refused_in words.old) }
{
    let why = why_of(next_word(words)?).ok_or(LineFault::Form)?;
    let op = next_word(words)?;
    let number = read_number(next_word(words)?, 255).ok_or(LineFault::Form)?;
    at_end(words)?;
    if op != b"op".as_slice() {
        return Err(LineError::Faulty(LineFault::Form));
    }
    Ok(Seen::Refused(Refusal {
        op: number as u8,
        why,
    }))
}

/// The refusal of a code.
fn why_of(code: &[u8]) -> Option<Why>
    ensures { result ≡ why_in code.now }
{
    match code {
        b"F1" => Some(Why::BadPath),
        b"F2" => Some(Why::NotFolder),
        b"F4" => Some(Why::NoName),
        b"F5" => Some(Why::Exists),
        b"F6" => Some(Why::IsFolder),
        b"F7" => Some(Why::NotEmpty),
        b"F8" => Some(Why::TooLong),
        b"F9" => Some(Why::FolderFull),
        b"F10" => Some(Why::OpCount),
        b"F11" => Some(Why::UnknownServer),
        b"F12" => Some(Why::DefaultOnFile),
        _ => None,
    }
}
