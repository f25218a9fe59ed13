//! Replies, and how transactions end.

ghost use Rattle.std.specs.Prelude.{◌≡◌, ◌++◌, OnOk};
ghost use Rattle.event_json.specs.Replies.{busy_text, decided_text, decision_text, ended_text, held_text, locked_text, reply_text, said_text, said_word, told_text, verdict_text};

use crate::copies::{push_prefix, push_version};
use crate::locks::push_locks;
use crate::strings::{push_member, truth};
use rep_core::{Decision, Lock, Reply, Verdict};
use std::alloc::{AllocError, Global};
use suite_prefix::Prefix;
use suite_script::{push_answered, push_refused};

/// What a server answers.
pub fn push_reply(alloc: Global, text: &mut Vec<u8>, reply: &Reply) -> Result<(), AllocError>
    ensures { OnOk result (text.new.items ≡ text.old.items ++ reply_text reply.now) }
{
    text.extend_from_slice(b"{\"says\":\"")?;
    text.extend_from_slice(said_word(reply))?;
    text.extend_from_slice(b"\"")?;
    push_said(alloc, text, reply)?;
    text.extend_from_slice(b"}")
}

/// What a server answers, in a word.
fn said_word(reply: &Reply) -> &'static [u8]
    ensures { result.now ≡ said_word reply.now }
{
    match reply {
        Reply::Held { .. } => b"held",
        Reply::Busy { .. } => b"busy",
        Reply::Given { .. } => b"given",
        Reply::Verdict(_) => b"verdict",
        Reply::Locked(_) => b"locked",
        Reply::Lost => b"lost",
        Reply::Prepared => b"prepared",
        Reply::Done => b"done",
        Reply::Down => b"down",
    }
}

/// What stands behind the word.
fn push_said(alloc: Global, text: &mut Vec<u8>, reply: &Reply) -> Result<(), AllocError>
    ensures { OnOk result (text.new.items ≡ text.old.items ++ said_text reply.now) }
{
    match reply {
        Reply::Held { prefix, dver } => push_held(text, prefix, *dver),
        Reply::Busy { holder, prepared } => push_busy(text, *holder, *prepared),
        Reply::Given { dver, content } => push_version(alloc, text, *dver, content),
        Reply::Verdict(verdict) => push_told(alloc, text, verdict),
        Reply::Locked(locks) => push_locked(text, locks.as_slice()),
        Reply::Lost => Ok(()),
        Reply::Prepared => Ok(()),
        Reply::Done => Ok(()),
        Reply::Down => Ok(()),
    }
}

fn push_held(text: &mut Vec<u8>, prefix: &Prefix, dver: u64) -> Result<(), AllocError>
    ensures { OnOk result (text.new.items ≡ text.old.items ++ held_text prefix.now dver) }
{
    text.extend_from_slice(b",")?;
    push_prefix(text, prefix)?;
    push_member(text, b",\"content\":", dver)
}

fn push_busy(text: &mut Vec<u8>, holder: u64, prepared: bool) -> Result<(), AllocError>
    ensures { OnOk result (text.new.items ≡ text.old.items ++ busy_text holder prepared) }
{
    push_member(text, b",\"holder\":", holder)?;
    text.extend_from_slice(b",\"prepared\":")?;
    text.extend_from_slice(truth(prepared))
}

fn push_told(alloc: Global, text: &mut Vec<u8>, verdict: &Verdict) -> Result<(), AllocError>
    ensures { OnOk result (text.new.items ≡ text.old.items ++ told_text verdict.now) }
{
    text.extend_from_slice(b",\"verdict\":")?;
    push_verdict(alloc, text, verdict)
}

fn push_locked(text: &mut Vec<u8>, locks: &[Lock]) -> Result<(), AllocError>
    ensures { OnOk result (text.new.items ≡ text.old.items ++ locked_text locks.now) }
{
    text.extend_from_slice(b",\"locks\":")?;
    push_locks(text, locks)
}

/// How a transaction ended, as `play` tells it.
pub fn push_verdict(alloc: Global, text: &mut Vec<u8>, verdict: &Verdict) -> Result<(), AllocError>
    ensures { OnOk result (text.new.items ≡ text.old.items ++ verdict_text verdict.now) }
{
    text.extend_from_slice(b"\"")?;
    push_ended(alloc, text, verdict)?;
    text.extend_from_slice(b"\"")
}

fn push_ended(alloc: Global, text: &mut Vec<u8>, verdict: &Verdict) -> Result<(), AllocError>
    ensures { OnOk result (text.new.items ≡ text.old.items ++ ended_text verdict.now) }
{
    match verdict {
        Verdict::Answered(answers) => push_answered(alloc, text, answers.as_slice()),
        Verdict::Refused(refusal) => push_refused(text, *refusal),
        Verdict::Aborted => text.extend_from_slice(b"aborted"),
    }
}

/// How a transaction is to be decided, as `play` tells it.
pub(crate) fn push_decision(
    alloc: Global,
    text: &mut Vec<u8>,
    decision: &Decision,
) -> Result<(), AllocError>
    ensures { OnOk result (text.new.items ≡ text.old.items ++ decision_text decision.now) }
{
    text.extend_from_slice(b"\"")?;
    push_decided(alloc, text, decision)?;
    text.extend_from_slice(b"\"")
}

fn push_decided(alloc: Global, text: &mut Vec<u8>, decision: &Decision) -> Result<(), AllocError>
    ensures { OnOk result (text.new.items ≡ text.old.items ++ decided_text decision.now) }
{
    match decision {
        Decision::Answered(answers) => push_answered(alloc, text, answers.as_slice()),
        Decision::Refused { uid: _, refusal } => push_refused(text, *refusal),
    }
}
