//! How jobs end, in words, and a job that cannot be done.

use crate::asking::{Ask, Question, ask_once, started, take};
use crate::crew::{Crew, jobs, opened, others, work};
use crate::fixtures::{had, push, same, settings};
use agent_pool::{JobOutcome, Player, Pool, PoolFault, ended};
use server_lock::{OpenGate, Pass, Servers};
use std::process::Abort;
use std::sync::Wait;
use std::thread::Threads;
use suite_prefix::Settings;

/// A job's number, its steps, and how it ended.
fn outcome_words(rt: &(impl Abort + AllocGlobal), pool: &Pool, outcome: &JobOutcome) -> String {
    let told = ended(&pool.agents, outcome).expect(rt, "an end");
    let (job, steps) = (outcome.job, told.steps);
    had(
        rt,
        format!(in rt.alloc(); "{job} {steps} {:?}", told.ending),
    )
}

/// Compares how the jobs ended, in their order: a line of a text each, but for the first.
pub(crate) fn ended_so(rt: &(impl Abort + AllocGlobal), pool: &Pool, text: &str) {
    assert!(rt; pool.outcomes.len() == text.lines().skip(1).count());
    for (outcome, want) in pool.outcomes.iter().zip(text.lines().skip(1)) {
        same(rt, &outcome_words(rt, pool, outcome), want, want);
    }
}

/// The pass of agent 0 of another start, with which it asked once, and had a reply.
fn foreign(rt: &(impl Abort + AllocGlobal + Wait), settings: &Settings) -> Pass {
    let (servers, mut passes) = started(rt, settings);
    let pass = take(rt, &mut passes, Some(0));
    let (server, ask) = (0, Ask::Locks);
    let (pass, answer) = ask_once(rt, &OpenGate, &servers, pass, Question { server, ask });
    assert!(rt; answer.reply().is_ok());
    assert!(rt; pass.agent() == Some(0));
    pass
}

/// Has a list of the root carried out.
fn list<R: Abort + AllocGlobal + Threads + Wait + Sync>(
    rt: &R,
    servers: &Servers,
    crew: (Vec<Player>, Vec<Pass>),
) -> Result<Pool, PoolFault> {
    work(rt, &OpenGate, servers, &jobs(rt, 0, "list /"), crew)
}

/// Why agent 0 cannot list the root with these passes.
fn fault<R: Abort + AllocGlobal + Threads + Wait + Sync>(
    rt: &R,
    settings: &Settings,
    passes: Vec<Pass>,
) -> Option<PoolFault> {
    let Crew {
        servers,
        mut agents,
        ..
    } = opened(rt, settings);
    let _others = others(rt, &mut agents);
    list(rt, &servers, (agents, passes)).err()
}

#[test]
fn a_pass_of_another_start_is_of_no_use(rt: HostRuntime) {
    let settings = settings(&rt, 2);
    let mut own = Vec::new(rt.alloc());
    push(&rt, &mut own, foreign(&rt, &settings));
    assert!(&rt; fault(&rt, &settings, own) == Some(PoolFault::Missing(0)));
}
