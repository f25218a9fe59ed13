//! What happens, and replies in words.

use crate::asked::{push_content, push_request, verdict_word};
use crate::words::{mode_word, push_pair};
use rep_core::{Lock, Reply};
use run_core::Served;
use std::alloc::AllocError;

/// The most that stands between a request and its reply: the reply stands in one place, behind one space at least.
const SPACE: &[u8] = b"                                                 : ";

/// The most bytes of a line for which the reply stands there.
const LAST: usize = 47;

/// Tells that an event does nothing, since an agent has a job, or none.
pub(crate) fn push_nothing(text: &mut Vec<u8>, agent: u8, why: &[u8]) -> Result<(), AllocError> {
    push_pair(text, b"  nothing happens: agent ", u64::from(agent))?;
    text.extend_from_slice(why)
}

/// Tells a request of an agent, and the reply.
pub(crate) fn push_served(
    text: &mut Vec<u8>,
    agent: u8,
    served: &Served,
) -> Result<(), AllocError> {
    let begun = text.len();
    push_way(text, agent, served.server)?;
    push_request(text, &served.request.value)?;
    push_space(text, begun)?;
    push_reply(text, &served.reply.value)?;
    text.push(b'\n')?;
    Ok(())
}

/// Tells that a server had no room for what an agent asked of it, and served nothing.
pub(crate) fn push_full(text: &mut Vec<u8>, agent: u8, server: u8) -> Result<(), AllocError> {
    let begun = text.len();
    push_way(text, agent, server)?;
    text.extend_from_slice(b"asks for more than there is room for")?;
    push_space(text, begun)?;
    text.extend_from_slice(b"full\n")
}

/// Which agent asks which server.
fn push_way(text: &mut Vec<u8>, agent: u8, server: u8) -> Result<(), AllocError> {
    push_pair(text, b"  ", u64::from(agent))?;
    push_pair(text, b" -> s", u64::from(server))?;
    text.extend_from_slice(b"  ")
}

/// What is between a request, whose line began there, and its reply.
fn push_space(text: &mut Vec<u8>, begun: usize) -> Result<(), AllocError> {
    let written = text.len().saturating_sub(begun).min(LAST);
    text.extend_from_slice(&SPACE[written..])
}

/// What a server answers.
fn push_reply(text: &mut Vec<u8>, reply: &Reply) -> Result<(), AllocError> {
    match reply {
        Reply::Held { prefix, dver } => {
            push_pair(text, b"held, prefix ", prefix.pver)?;
            push_pair(text, b" content ", *dver)
        }
        Reply::Busy { holder, prepared } => {
            push_pair(text, b"busy, t ", *holder)?;
            text.extend_from_slice(prepared_word(*prepared))
        }
        Reply::Lost => text.extend_from_slice(b"lost"),
        Reply::Given { dver, content } => {
            push_pair(text, b"given, content ", *dver)?;
            push_content(text, content)
        }
        Reply::Prepared => text.extend_from_slice(b"prepared"),
        Reply::Verdict(verdict) => {
            text.extend_from_slice(b"verdict ")?;
            text.extend_from_slice(verdict_word(verdict))
        }
        Reply::Done => text.extend_from_slice(b"done"),
        Reply::Locked(locks) => push_locks(text, locks.as_slice()),
        Reply::Down => text.extend_from_slice(b"down"),
    }
}

/// The locks of a server.
fn push_locks(text: &mut Vec<u8>, locks: &[Lock]) -> Result<(), AllocError> {
    if locks.is_empty() {
        return text.extend_from_slice(b"no locks");
    }
    for (place, lock) in locks.iter().enumerate() {
        text.extend_from_slice(if place == 0 { b"locks " } else { b"; " })?;
        push_lock(text, *lock)?;
    }
    Ok(())
}

/// A lock: whose, on which suite, in which mode, and whether it is prepared.
pub(crate) fn push_lock(text: &mut Vec<u8>, lock: Lock) -> Result<(), AllocError> {
    push_pair(text, b"t ", lock.t)?;
    push_pair(text, b" suite ", lock.suite)?;
    text.extend_from_slice(mode_word(lock.mode))?;
    text.extend_from_slice(prepared_word(lock.prepared))
}

fn prepared_word(prepared: bool) -> &'static [u8] {
    if prepared { b" prepared" } else { b"" }
}
