//! Requests in words.

use crate::words::{mode_word, push_pair};
use rep_core::{Decision, Part, Request, Take, Verdict};
use std::alloc::AllocError;
use suite_content::Content;

/// What a server is asked, and for which transaction.
pub(crate) fn push_request(text: &mut Vec<u8>, request: &Request) -> Result<(), AllocError> {
    match request {
        Request::Poll { t, suite, mode } => {
            push_about(text, *t, b" poll suite ", *suite)?;
            text.extend_from_slice(mode_word(*mode))
        }
        Request::Upgrade { t, suite } => push_about(text, *t, b" upgrade suite ", *suite),
        Request::Fetch { t, suite } => push_about(text, *t, b" fetch suite ", *suite),
        Request::Break { t, suite } => push_about(text, *t, b" break suite ", *suite),
        Request::Prepare { t, parts } => {
            push_pair(text, b"t ", *t)?;
            text.extend_from_slice(b" prepare")?;
            push_parts(text, parts.as_slice())
        }
        Request::Decide { t, decision } => {
            push_pair(text, b"t ", *t)?;
            text.extend_from_slice(decision_words(decision))
        }
        Request::Resolve { t } => {
            push_pair(text, b"t ", *t)?;
            text.extend_from_slice(b" resolve")
        }
        Request::Finish { t, verdict } => {
            push_pair(text, b"t ", *t)?;
            text.extend_from_slice(b" finish ")?;
            text.extend_from_slice(verdict_word(verdict))
        }
        Request::Locks => text.extend_from_slice(b"locks"),
        Request::Crash => text.extend_from_slice(b"crash"),
        Request::Return => text.extend_from_slice(b"return"),
    }
}

/// A transaction, what it asks, and of which suite.
fn push_about(text: &mut Vec<u8>, t: u64, what: &[u8], suite: u64) -> Result<(), AllocError> {
    push_pair(text, b"t ", t)?;
    push_pair(text, what, suite)
}

fn push_parts(text: &mut Vec<u8>, parts: &[Part]) -> Result<(), AllocError> {
    for (place, part) in parts.iter().enumerate() {
        if place > 0 {
            text.push(b';')?;
        }
        push_pair(text, b" suite ", part.suite)?;
        text.extend_from_slice(mode_word(part.mode))?;
        push_take(text, &part.take)?;
    }
    Ok(())
}

/// What is left of a suite, once the transaction is decided.
fn push_take(text: &mut Vec<u8>, take: &Take) -> Result<(), AllocError> {
    match take {
        Take::Keep => text.extend_from_slice(b" keep"),
        Take::Prefix(prefix) => push_pair(text, b" takes prefix ", prefix.pver),
        Take::Whole(replica) => {
            push_pair(text, b" takes prefix ", replica.prefix.pver)?;
            push_pair(text, b" content ", replica.dver)?;
            push_content(text, &replica.content)
        }
    }
}

/// How many bytes a file has; the names of a folder, each with the number of its suite.
pub(crate) fn push_content(text: &mut Vec<u8>, content: &Content) -> Result<(), AllocError> {
    match content {
        Content::Bytes(bytes) => { push_pair(text, b" bytes ", bytes.len() as u64) }
        Content::Names(names) => {
            text.extend_from_slice(b" names")?;
            for (name, suite) in names.as_slice() {
                text.push(b' ')?;
                text.extend_from_slice(name.as_bytes())?;
                push_pair(text, b"=", *suite)?;
            }
            Ok(())
        }
    }
}

fn decision_words(decision: &Decision) -> &'static [u8] {
    match decision {
        Decision::Answered(_) => b" decide answered",
        Decision::Refused { .. } => b" decide refused",
    }
}

/// How a transaction ended, in a word.
pub(crate) fn verdict_word(verdict: &Verdict) -> &'static [u8] {
    match verdict {
        Verdict::Answered(_) => b"answered",
        Verdict::Refused(_) => b"refused",
        Verdict::Aborted => b"aborted",
    }
}
