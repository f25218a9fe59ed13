//! Servers under locks as their users meet them.
//!
//! What memory was refused to is called again, so that each allocation can be refused in turn.

use crate::asking::{Ask, Question, asked, close, started, take};
use crate::fixtures::{push, same, settings};
use rep_core::{Reply, Stamped};
use server_lock::{Gate, History, OpenGate, Pass, ServerAnswer, Servers};
use std::alloc::AllocError;
use std::process::Abort;
use std::sync::Wait;
use std::sync::atomic::{AtomicU64, Ordering};
use std::thread::{Threads, map_vec};

/// A reply, in words; of a lock that is held the content's version.
fn reply_words(rt: &impl AllocGlobal, reply: &Stamped<Reply>) -> Result<String, AllocError> {
    let stamp = reply.stamp;
    match &reply.value {
        Reply::Held { dver, .. } => format!(in rt.alloc(); "{stamp}: Held {dver}"),
        other => format!(in rt.alloc(); "{stamp}: {other:?}"),
    }
}

/// What is answered, in words.
fn answer_words(rt: &impl AllocGlobal, answer: &ServerAnswer) -> Result<String, AllocError> {
    match answer.reply() {
        Ok(reply) => reply_words(rt, reply),
        Err(miss) => format!(in rt.alloc(); "{miss:?}"),
    }
}

fn words(rt: &(impl Abort + AllocGlobal), answer: &ServerAnswer) -> String {
    again!(rt, answer_words(rt, answer))
}

/// What is answered is this, of the server that was asked.
fn answered(rt: &(impl Abort + AllocGlobal), answer: &ServerAnswer, server: u8, want: &str) {
    same(rt, &words(rt, answer), want, want);
    assert!(rt; answer.server() == server);
}

/// Asks, where no gate holds anybody, and compares what is answered.
fn told<R: Abort + AllocGlobal + Wait>(
    rt: &R,
    servers: &Servers,
    pass: Pass,
    question: Question,
    want: &str,
) -> Pass {
    let told = asked(rt, &OpenGate, servers, pass, question);
    answered(rt, &told.1, question.server, want);
    told.0
}

/// Asks, and compares what is answered; an item more is the pass's.
fn expect_at<R: Abort + AllocGlobal + Wait>(
    rt: &R,
    servers: &Servers,
    passes: &mut Vec<Pass>,
    step: &Step,
) {
    let Step(agent, server, ask, want) = step;
    let (server, ask) = (*server, *ask);
    let pass = take(rt, passes, *agent);
    let count = pass.count();
    let pass = told(rt, servers, pass, Question { server, ask }, want);
    assert!(rt; pass.count() == count.wrapping_add(1));
    push(rt, passes, pass);
}

/// Whose pass, which server, what is asked, and what is answered.
struct Step(Option<u8>, u8, Ask, &'static str);

const RUN: [Step; 7] = [
    Step(Some(0), 0, Ask::Shared(0), "1: Held 1"),
    Step(Some(0), 1, Ask::Locks, "2: Locked(LockList { locks: [] })"),
    Step(
        Some(1),
        0,
        Ask::Exclusive(1),
        "2: Busy { holder: 0, prepared: false }",
    ),
    Step(None, 0, Ask::Crash, "3: Done"),
    Step(Some(1), 0, Ask::Locks, "4: Down"),
    Step(
        Some(0),
        1,
        Ask::Refused(0),
        "3: Verdict(Refused(Refusal { op: 1, why: BadPath }))",
    ),
    Step(
        Some(0),
        1,
        Ask::Resolve(0),
        "4: Verdict(Refused(Refusal { op: 1, why: BadPath }))",
    ),
];

fn run<R: Abort + AllocGlobal + Wait>(rt: &R, servers: &Servers, passes: &mut Vec<Pass>) {
    for step in &RUN {
        expect_at(rt, servers, passes, step);
    }
}

fn length_is(rt: &impl Abort, history: &History, length: usize) {
    let found = history.as_slice().len();
    assert!(rt; found == length, "{length} items: {found}");
}

fn lengths_are(rt: &impl Abort, histories: &[History], lengths: &[usize]) {
    assert!(rt; histories.len() == lengths.len());
    for (history, length) in histories.iter().zip(lengths) {
        length_is(rt, history, *length);
    }
}

/// The histories of servers have these lengths, once all passes are back.
fn closes(rt: &impl Abort, servers: Servers, passes: Vec<Pass>, lengths: &[usize]) {
    let histories = close(servers, passes).ok().expect(rt, "closed");
    lengths_are(rt, histories.as_slice(), lengths);
}

/// How many items the pass of an agent, or of the operator, has of that run.
fn count_of(agent: Option<u8>) -> u64 {
    match agent {
        None => 1,
        Some(0) => 4,
        Some(_) => 2,
    }
}

fn count_is(rt: &impl Abort, pass: &Pass, want: u64) {
    assert_eq!(rt; pass.count(), want);
}

#[test]
fn the_replies_are_the_servers(rt: HostRuntime) {
    let (servers, mut passes) = started(&rt, &settings(&rt, 2));
    run(&rt, &servers, &mut passes);
    for pass in &passes {
        count_is(&rt, pass, count_of(pass.agent()));
    }
    closes(&rt, servers, passes, &[4, 3, 0]);
}

/// What a server is asked for its locks.
fn locks_of(server: u8) -> Question {
    Question {
        server,
        ask: Ask::Locks,
    }
}

fn ask_for_locks<R: Abort + Wait, G: Gate>(
    rt: &R,
    gate: &G,
    servers: &Servers,
    pass: Pass,
    server: u8,
) -> Pass {
    asked(rt, gate, servers, pass, locks_of(server)).0
}

/// Asks each of three servers for its locks.
fn ask_each<R: Abort + Wait, G: Gate>(rt: &R, gate: &G, servers: &Servers, pass: Pass) -> Pass {
    let pass = ask_for_locks(rt, gate, servers, pass, 0);
    let pass = ask_for_locks(rt, gate, servers, pass, 1);
    ask_for_locks(rt, gate, servers, pass, 2)
}

/// Does so a hundred times.
fn ask_often<R: Abort + Wait, G: Gate>(rt: &R, gate: &G, servers: &Servers, pass: Pass) -> Pass {
    let mut pass = pass;
    for _ in 0..100u8 {
        pass = ask_each(rt, gate, servers, pass);
    }
    pass
}

/// Each pass asks in a thread of its own.
fn in_threads<R: Abort + Wait + Threads + Sync, G: Gate + Sync>(
    rt: &R,
    gate: &G,
    servers: &Servers,
    passes: Vec<Pass>,
) -> Vec<Pass> {
    let done = map_vec(rt, passes, &|pass| ask_often(rt, gate, servers, pass));
    done.ok().expect(rt, "threads")
}

/// A gate that counts who was inside, and who was after.
#[derive(Drop)]
struct Counting {
    inside: AtomicU64,
    after: AtomicU64,
}

impl Gate for Counting {
    fn begun(&self, _agent: u8, _job: u64) {}

    fn inside(&self, _server: u8, _agent: Option<u8>) {
        self.inside.fetch_add(1, Ordering::SeqCst);
    }

    fn after(&self, _server: u8, _agent: Option<u8>) {
        self.after.fetch_add(1, Ordering::SeqCst);
    }
}

fn counted(rt: &impl Abort, many: &AtomicU64, want: u64) {
    assert_eq!(rt; many.load(Ordering::SeqCst), want);
}

#[test]
fn eight_threads_ask(rt: HostRuntime) {
    let (servers, mut passes) = started(&rt, &settings(&rt, 8));
    let operator = take(&rt, &mut passes, None);
    let gate = Counting {
        inside: AtomicU64::new(0),
        after: AtomicU64::new(0),
    };
    let mut passes = in_threads(&rt, &gate, &servers, passes);
    counted(&rt, &gate.inside, 2400);
    counted(&rt, &gate.after, 2400);
    for pass in &passes {
        count_is(&rt, pass, 300);
    }
    push(&rt, &mut passes, operator);
    closes(&rt, servers, passes, &[800, 800, 800]);
}
