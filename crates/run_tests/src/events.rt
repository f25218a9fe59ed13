//! Jobs and events as lines of text.

use crate::fixtures::{lists, push, small};
use acl_core::{Caller, Mode};
use file_ops::{Action, Init, Op, PathText};
use rep_core::Lack;
use run_core::Event;
use std::process::Abort;
use suite_content::{FileBytes, Kind};
use txn_core::{Job, Ops, SharedCaller};

/// How what is made begins.
fn mode(rt: &impl Abort, bits: u16) -> Init {
    Init::Mode(Mode::new(bits).expect(rt, "a mode"))
}

fn file_bytes(rt: &(impl Abort + AllocGlobal), text: &str) -> FileBytes {
    again!(rt, FileBytes::from_slice(rt.alloc(), text.as_bytes()))
}

fn path_text(rt: &(impl Abort + AllocGlobal), text: &str) -> PathText {
    again!(rt, PathText::new(rt.alloc(), text.as_bytes()))
}

/// What an operation does, by its word; a write has its bytes.
fn action(rt: &(impl Abort + AllocGlobal), word: &str, bytes: &str) -> Action {
    match word {
        "file" => Action::Make(Kind::File, mode(rt, 0o644), None),
        "folder" => Action::Make(Kind::Folder, mode(rt, 0o755), None),
        "close" => Action::SetAcl(lists(rt, 0o044)),
        "write" => Action::Write(file_bytes(rt, bytes)),
        "list" => Action::List,
        _ => Action::Read,
    }
}

/// An operation: a word, a path, and the rest.
fn op(rt: &(impl Abort + AllocGlobal), text: &str) -> Op {
    let (word, rest) = text.trim().split_once(' ').expect(rt, "a path");
    let (path, bytes) = rest.split_once(' ').unwrap_or((rest, ""));
    Op {
        path: path_text(rt, path),
        action: action(rt, word, bytes),
    }
}

fn op_list(rt: &(impl Abort + AllocGlobal), text: &str) -> Vec<Op> {
    let mut ops = Vec::new(rt.alloc());
    for part in text.split(';') {
        push(rt, &mut ops, op(rt, part));
    }
    ops
}

fn ops(rt: &(impl Abort + AllocGlobal), text: &str) -> Ops {
    again!(rt, Ops::from_vec(op_list(rt, text)))
}

/// The owner's job of these operations, with the cache of site 0.
fn transaction(rt: &(impl Abort + AllocGlobal), text: &str) -> Job {
    let caller = Caller::new(1000, 100, &[]).ok().expect(rt, "a caller");
    Job::Transaction {
        caller: again!(rt, SharedCaller::new(rt.alloc(), caller)),
        site: 0,
        ops: ops(rt, text),
    }
}

/// A job by its words: `sweep S`, or operations, as `file /a; write /a hi`.
pub(crate) fn job(rt: &(impl Abort + AllocGlobal), text: &str) -> Job {
    match text.split_once(' ') {
        Some(("sweep", server)) => Job::Sweep {
            server: small(rt, server),
        },
        _ => transaction(rt, text),
    }
}

/// An event by its words: `begin A JOB`, `step A`, `crash S`, `return S`, `forget A SITE`, `full A`, and `lack A`, which
/// is told that memory ran out.
pub(crate) fn event(rt: &(impl Abort + AllocGlobal), line: &str) -> Event {
    let (word, rest) = line.split_once(' ').expect(rt, "an event");
    let (at, rest) = rest.split_once(' ').unwrap_or((rest, ""));
    let at = small(rt, at);
    match word {
        "begin" => Event::Begin {
            agent: at,
            job: job(rt, rest),
        },
        "step" => Event::Step { agent: at },
        "crash" => Event::Crash { server: at },
        "return" => Event::Return { server: at },
        "forget" => Event::Forget {
            agent: at,
            site: small(rt, rest),
        },
        "full" => Event::Lack {
            agent: at,
            lack: Lack::Full,
        },
        _ => Event::Lack {
            agent: at,
            lack: Lack::Memory,
        },
    }
}

/// The events of a text, with commas between them.
pub(crate) fn events(rt: &(impl Abort + AllocGlobal), text: &str) -> Vec<Event> {
    let mut events = Vec::new(rt.alloc());
    for line in text.split(',') {
        push(rt, &mut events, event(rt, line));
    }
    events
}
