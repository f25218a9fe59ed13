//! Servers under locks that have started, and what is asked of them.
//!
//! What memory was refused to is called again, so that each allocation can be refused in turn.

use file_ops::{Refusal, Why};
use rep_core::{Decision, Lack, Request};
use server_lock::{CloseFault, Gate, Histories, Miss, Pass, ServerAnswer, Servers};
use std::alloc::AllocError;
use std::process::Abort;
use std::sync::Wait;
use suite_prefix::{LockMode, Settings};

/// Servers of these settings, and a pass for each agent and for the operator.
pub(crate) fn started(
    rt: &(impl Abort + AllocGlobal),
    settings: &Settings,
) -> (Servers, Vec<Pass>) {
    again!(rt, start(rt, settings))
}

fn start(rt: &impl AllocGlobal, settings: &Settings) -> Result<(Servers, Vec<Pass>), AllocError> {
    Servers::start(rt.alloc(), settings)
}

/// The histories of servers, once all passes are back.
pub(crate) fn close(servers: Servers, passes: Vec<Pass>) -> Result<Histories, CloseFault> {
    servers.close(passes)
}

/// Takes the pass of an agent, or of the operator, out.
pub(crate) fn take(rt: &impl Abort, passes: &mut Vec<Pass>, agent: Option<u8>) -> Pass {
    let place = place_of(passes, agent);
    assert!(rt; place < passes.len(), "a pass");
    passes.swap_remove(place)
}

/// The first place of a pass of an agent, or of the operator.
fn place_of(passes: &[Pass], agent: Option<u8>) -> usize {
    for (place, pass) in passes.iter().enumerate() {
        if pass.agent() == agent {
            return place;
        }
    }
    passes.len()
}

/// A request, in a word.
#[derive(Clone, Copy)]
pub(crate) enum Ask {
    Shared(u64),
    Exclusive(u64),
    Locks,
    Refused(u64),
    Resolve(u64),
    Crash,
}

fn poll(t: u64, mode: LockMode) -> Request {
    Request::Poll { t, suite: 0, mode }
}

/// The first operation of a transaction was refused.
fn refused(t: u64) -> Request {
    let refusal = Refusal {
        op: 1,
        why: Why::BadPath,
    };
    let decision = Decision::Refused { uid: 1000, refusal };
    Request::Decide { t, decision }
}

fn request(ask: Ask) -> Request {
    match ask {
        Ask::Shared(t) => poll(t, LockMode::Shared),
        Ask::Exclusive(t) => poll(t, LockMode::Exclusive),
        Ask::Locks => Request::Locks,
        Ask::Refused(t) => refused(t),
        Ask::Resolve(t) => Request::Resolve { t },
        Ask::Crash => Request::Crash,
    }
}

/// What is asked, and of which server.
#[derive(Clone, Copy)]
pub(crate) struct Question {
    pub(crate) server: u8,
    pub(crate) ask: Ask,
}

/// Asks a server, which has to be there. The answer names it, and has the request that it was asked.
pub(crate) fn ask_once<R: Abort + Wait, G: Gate>(
    rt: &R,
    gate: &G,
    servers: &Servers,
    pass: Pass,
    question: Question,
) -> (Pass, ServerAnswer) {
    assert!(rt; usize::from(question.server) < servers.settings().servers());
    let told = servers.ask(rt, gate, pass, question.server, request(question.ask));
    assert!(rt; told.1.server() == question.server);
    assert!(rt; told.1.request().value == request(question.ask));
    told
}

/// Asks, and once more where memory was refused.
pub(crate) fn asked<R: Abort + Wait, G: Gate>(
    rt: &R,
    gate: &G,
    servers: &Servers,
    pass: Pass,
    question: Question,
) -> (Pass, ServerAnswer) {
    let told = ask_once(rt, gate, servers, pass, question);
    if lacks_memory(&told.1) {
        return ask_once(rt, gate, servers, told.0, question);
    }
    told
}

fn lacks_memory(answer: &ServerAnswer) -> bool {
    matches!(answer.reply(), Err(Miss::Lack(Lack::Memory)))
}
