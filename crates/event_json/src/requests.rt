//! Requests.

ghost use Rattle.std.specs.Prelude.{◌≡◌, ◌++◌, OnOk, codes};
ghost use Rattle.std.specs.List.{flat_map};
ghost use Rattle.event_json.specs.Requests.{about_text, asked_word, decide_text, finish_text, left_prefix, left_text, left_whole, of_text, part_text, parts_text, poll_text, prepare_text, request_text, t_text, take_text, take_word};
ghost use Rattle.event_json.specs.Strings.{listed};

use crate::copies::{push_prefix, push_replica};
use crate::locks::mode_word;
use crate::replies::{push_decision, push_verdict};
use crate::strings::push_member;
use rep_core::{Decision, Part, Request, Take, Verdict};
use std::alloc::{AllocError, Global};
use suite_prefix::{LockMode, Prefix, Replica};

/// What is asked, in a word.
pub fn asked_word(request: &Request) -> &'static [u8]
    ensures { result.now ≡ asked_word request.now }
{
    match request {
        Request::Poll { .. } => b"poll",
        Request::Upgrade { .. } => b"upgrade",
        Request::Fetch { .. } => b"fetch",
        Request::Prepare { .. } => b"prepare",
        Request::Decide { .. } => b"decide",
        Request::Resolve { .. } => b"resolve",
        Request::Finish { .. } => b"finish",
        Request::Break { .. } => b"break",
        Request::Locks => b"locks",
        Request::Crash => b"crash",
        Request::Return => b"return",
    }
}

/// What a server is asked.
pub fn push_request(alloc: Global, text: &mut Vec<u8>, request: &Request) -> Result<(), AllocError>
    ensures { OnOk result (text.new.items ≡ text.old.items ++ request_text request.now) }
{
    text.extend_from_slice(b"{\"asks\":\"")?;
    text.extend_from_slice(asked_word(request))?;
    text.extend_from_slice(b"\"")?;
    push_about(alloc, text, request)?;
    text.extend_from_slice(b"}")
}

/// What stands behind the word.
fn push_about(alloc: Global, text: &mut Vec<u8>, request: &Request) -> Result<(), AllocError>
    ensures { OnOk result (text.new.items ≡ text.old.items ++ about_text request.now) }
{
    match request {
        Request::Poll { t, suite, mode } => push_poll(text, *t, *suite, *mode),
        Request::Upgrade { t, suite } => push_of(text, *t, *suite),
        Request::Fetch { t, suite } => push_of(text, *t, *suite),
        Request::Break { t, suite } => push_of(text, *t, *suite),
        Request::Prepare { t, parts } => push_prepare(alloc, text, *t, parts.as_slice()),
        Request::Decide { t, decision } => push_decide(alloc, text, *t, decision),
        Request::Resolve { t } => push_t(text, *t),
        Request::Finish { t, verdict } => push_finish(alloc, text, *t, verdict),
        Request::Locks => Ok(()),
        Request::Crash => Ok(()),
        Request::Return => Ok(()),
    }
}

/// By which transaction.
fn push_t(text: &mut Vec<u8>, t: u64) -> Result<(), AllocError>
    ensures { OnOk result (text.new.items ≡ text.old.items ++ t_text t) }
{
    push_member(text, b",\"t\":", t)
}

/// By which transaction, and of which suite.
fn push_of(text: &mut Vec<u8>, t: u64, suite: u64) -> Result<(), AllocError>
    ensures { OnOk result (text.new.items ≡ text.old.items ++ of_text t suite) }
{
    push_t(text, t)?;
    push_member(text, b",\"suite\":", suite)
}

fn push_poll(text: &mut Vec<u8>, t: u64, suite: u64, mode: LockMode) -> Result<(), AllocError>
    ensures { OnOk result (text.new.items ≡ text.old.items ++ poll_text t suite mode) }
{
    push_of(text, t, suite)?;
    text.extend_from_slice(mode_word(mode))
}

fn push_prepare(alloc: Global, text: &mut Vec<u8>, t: u64, parts: &[Part]) -> Result<(), AllocError>
    ensures { OnOk result (text.new.items ≡ text.old.items ++ prepare_text t parts.now) }
{
    push_t(text, t)?;
    push_part_list(alloc, text, parts)
}

fn push_decide(
    alloc: Global,
    text: &mut Vec<u8>,
    t: u64,
    decision: &Decision,
) -> Result<(), AllocError>
    ensures { OnOk result (text.new.items ≡ text.old.items ++ decide_text t decision.now) }
{
    push_t(text, t)?;
    text.extend_from_slice(b",\"decision\":")?;
    push_decision(alloc, text, decision)
}

fn push_finish(
    alloc: Global,
    text: &mut Vec<u8>,
    t: u64,
    verdict: &Verdict,
) -> Result<(), AllocError>
    ensures { OnOk result (text.new.items ≡ text.old.items ++ finish_text t verdict.now) }
{
    push_t(text, t)?;
    text.extend_from_slice(b",\"verdict\":")?;
    push_verdict(alloc, text, verdict)
}

fn push_part_list(alloc: Global, text: &mut Vec<u8>, parts: &[Part]) -> Result<(), AllocError>
    ensures { OnOk result (text.new.items ≡ text.old.items ++ parts_text parts.now) }
{
    text.extend_from_slice(b",\"parts\":[")?;
    push_parts(alloc, text, parts)?;
    text.extend_from_slice(b"]")
}

fn push_parts(alloc: Global, text: &mut Vec<u8>, parts: &[Part]) -> Result<(), AllocError>
    ensures { OnOk result (text.new.items ≡ text.old.items ++ listed part_text parts.now) }
{
    let [first, more @ ..] = parts else {
        return Ok(());
    };
    push_part(alloc, text, first)?;
    push_more_parts(alloc, text, more)
}

fn push_more_parts(alloc: Global, text: &mut Vec<u8>, parts: &[Part]) -> Result<(), AllocError>
    ensures { OnOk result (text.new.items ≡ text.old.items ++ flat_map (λ next. codes "," ++ part_text next) parts.now) }
{
    for part in parts {
        text.extend_from_slice(b",")?;
        push_part(alloc, text, part)?;
    }
    Ok(())
}

/// A suite, the lock on it, and what is left of it.
fn push_part(alloc: Global, text: &mut Vec<u8>, part: &Part) -> Result<(), AllocError>
    ensures { OnOk result (text.new.items ≡ text.old.items ++ part_text part.now) }
{
    push_member(text, b"{\"suite\":", part.suite)?;
    text.extend_from_slice(mode_word(part.mode))?;
    push_take(alloc, text, &part.take)?;
    text.extend_from_slice(b"}")
}

fn push_take(alloc: Global, text: &mut Vec<u8>, take: &Take) -> Result<(), AllocError>
    ensures { OnOk result (text.new.items ≡ text.old.items ++ take_text take.now) }
{
    text.extend_from_slice(b",\"takes\":\"")?;
    text.extend_from_slice(take_word(take))?;
    text.extend_from_slice(b"\"")?;
    push_left(alloc, text, take)
}

/// What is left of a suite, in a word.
fn take_word(take: &Take) -> &'static [u8]
    ensures { result.now ≡ take_word take.now }
{
    match take {
        Take::Keep => b"nothing",
        Take::Prefix(_) => b"prefix",
        Take::Whole(_) => b"whole",
    }
}

/// A prefix, or a copy, that is left.
fn push_left(alloc: Global, text: &mut Vec<u8>, take: &Take) -> Result<(), AllocError>
    ensures { OnOk result (text.new.items ≡ text.old.items ++ left_text take.now) }
{
    match take {
        Take::Keep => Ok(()),
        Take::Prefix(prefix) => push_left_prefix(text, prefix),
        Take::Whole(replica) => push_left_whole(alloc, text, replica),
    }
}

fn push_left_prefix(text: &mut Vec<u8>, prefix: &Prefix) -> Result<(), AllocError>
    ensures { OnOk result (text.new.items ≡ text.old.items ++ left_prefix prefix.now) }
{
    text.extend_from_slice(b",")?;
    push_prefix(text, prefix)
}

fn push_left_whole(alloc: Global, text: &mut Vec<u8>, replica: &Replica) -> Result<(), AllocError>
    ensures { OnOk result (text.new.items ≡ text.old.items ++ left_whole replica.now) }
{
    text.extend_from_slice(b",")?;
    push_replica(alloc, text, replica)
}
