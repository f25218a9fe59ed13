//! How outcomes are printed.

ghost use Rattle.std.specs.Prelude.{◌≡◌, ◌++◌, OnOk, codes};
ghost use Rattle.std.specs.List.{flat_map};
ghost use Rattle.suite_script.specs.Texts.{answered_text, bytes_text, denial_text, names_text, refusal_text, refused_text, replies_text, reply_text, why_text};

use crate::votes::push_votes;
use acl_text::{append_decider, append_short, permission_text};
use file_ops::{Answer, Denial, Refusal, Why};
use script_text::push_number;
use std::alloc::{AllocError, Global};
use suite_content::{FileBytes, NameList};

/// A transaction that was answered.
pub fn push_answered(
    alloc: Global,
    text: &mut Vec<u8>,
    replies: &[Answer],
) -> Result<(), AllocError>
    ensures { OnOk result (text.new.items ≡ text.old.items ++ answered_text replies.now) }
{
    text.extend_from_slice(b"answered ")?;
    push_replies(alloc, text, replies)
}

/// A transaction that was refused.
pub fn push_refused(text: &mut Vec<u8>, refusal: Refusal) -> Result<(), AllocError>
    ensures { OnOk result (text.new.items ≡ text.old.items ++ refusal_text refusal) }
{
    push_why(text, refusal.op, refusal.why)
}

fn push_replies(alloc: Global, text: &mut Vec<u8>, replies: &[Answer]) -> Result<(), AllocError>
    ensures { OnOk result (text.new.items ≡ text.old.items ++ replies_text replies.now) }
{
    let [first, more @ ..] = replies else {
        return Ok(());
    };
    push_reply(alloc, text, first)?;
    push_more_replies(alloc, text, more)
}

fn push_more_replies(
    alloc: Global,
    text: &mut Vec<u8>,
    replies: &[Answer],
) -> Result<(), AllocError>
    ensures { OnOk result (text.new.items
        ≡ text.old.items ++ flat_map (λ next. codes "; " ++ reply_text next) replies.now) }
{
    for reply in replies {
        text.extend_from_slice(b"; ")?;
        push_reply(alloc, text, reply)?;
    }
    Ok(())
}

fn push_reply(alloc: Global, text: &mut Vec<u8>, reply: &Answer) -> Result<(), AllocError>
    ensures { OnOk result (text.new.items ≡ text.old.items ++ reply_text reply.now) }
{
    match reply {
        Answer::Read(bytes) => {
            text.extend_from_slice(b"read ")?;
            push_bytes(alloc, text, bytes)
        }
        Answer::Wrote => text.extend_from_slice(b"wrote"),
        Answer::List(names) => {
            text.extend_from_slice(b"list ")?;
            push_names(text, names)
        }
        Answer::Made(suite) => {
            text.extend_from_slice(b"made ")?;
            push_number(text, *suite)
        }
        Answer::Dropped => text.extend_from_slice(b"dropped"),
        Answer::Acl(lists) => {
            text.extend_from_slice(b"acl ")?;
            append_short(text, lists)
        }
        Answer::Votes(votes) => {
            text.extend_from_slice(b"votes ")?;
            push_votes(text, votes)
        }
        Answer::Set => text.extend_from_slice(b"set"),
    }
}

/// Bytes in hexadecimal digits; a hyphen stands for none.
pub fn push_bytes(alloc: Global, text: &mut Vec<u8>, bytes: &FileBytes) -> Result<(), AllocError>
    ensures { OnOk result (text.new.items ≡ text.old.items ++ bytes_text bytes.now) }
{
    let bytes = bytes.as_slice();
    if bytes.is_empty() {
        return text.extend_from_slice(b"-");
    }
    let digits = hex::encode(alloc, bytes)?;
    text.extend_from_slice(digits.as_bytes())
}

fn push_names(text: &mut Vec<u8>, names: &NameList) -> Result<(), AllocError>
    ensures { OnOk result (text.new.items ≡ text.old.items ++ names_text names.now) }
{
    if names.is_empty() {
        return text.extend_from_slice(b"-");
    }
    names.append(text)
}

fn push_why(text: &mut Vec<u8>, op: u8, why: Why) -> Result<(), AllocError>
    ensures { OnOk result (text.new.items ≡ text.old.items ++ why_text op why) }
{
    match why {
        Why::BadPath => push_code(text, op, b"F1"),
        Why::NotFolder => push_code(text, op, b"F2"),
        Why::Denied(denial) => {
            text.extend_from_slice(b"denied ")?;
            push_denial(text, op, denial)
        }
        Why::NoName => push_code(text, op, b"F4"),
        Why::Exists => push_code(text, op, b"F5"),
        Why::IsFolder => push_code(text, op, b"F6"),
        Why::NotEmpty => push_code(text, op, b"F7"),
        Why::TooLong => push_code(text, op, b"F8"),
        Why::FolderFull => push_code(text, op, b"F9"),
        Why::OpCount => push_code(text, op, b"F10"),
        Why::UnknownServer => push_code(text, op, b"F11"),
        Why::DefaultOnFile => push_code(text, op, b"F12"),
    }
}

fn push_code(text: &mut Vec<u8>, op: u8, code: &[u8]) -> Result<(), AllocError>
    ensures { OnOk result (text.new.items ≡ text.old.items ++ refused_text op code.now) }
{
    text.extend_from_slice(b"refused ")?;
    text.extend_from_slice(code)?;
    text.extend_from_slice(b" op ")?;
    push_number(text, u64::from(op))
}

/// What an operation was denied.
pub fn push_denial(text: &mut Vec<u8>, op: u8, denial: Denial) -> Result<(), AllocError>
    ensures { OnOk result (text.new.items ≡ text.old.items ++ denial_text op denial) }
{
    text.extend_from_slice(b"op ")?;
    push_number(text, u64::from(op))?;
    text.extend_from_slice(b" suite ")?;
    push_number(text, denial.suite)?;
    text.extend_from_slice(b" wants ")?;
    text.extend_from_slice(&permission_text(denial.wanted))?;
    text.extend_from_slice(b" by ")?;
    append_decider(text, denial.decider)
}
