//! What tests begin with, and what stops them.
//!
//! What memory was refused to is called again, so that each allocation can be refused in turn. What a test itself
//! lacks stops it.

use acl_core::{Acl, Lists, Mode};
use run_certify::{KeptEnd, KeptJob};
use run_core::{Done, EndedJob, Event, World};
use std::alloc::{AllocError, Global};
use std::process::Abort;
use suite_prefix::Settings;
use txn_core::Job;
use vote_core::{ServerSet, Votes};

/// Stops the test where two texts differ.
pub(crate) fn same(rt: &impl Abort, got: &str, want: &str, about: &str) {
    assert!(rt; got == want, "{about}: {got}");
}

/// What was made, where memory sufficed for it.
pub(crate) fn had<T: Drop, E: Drop>(rt: &impl Abort, made: Result<T, E>) -> T {
    made.ok().expect(rt, "memory")
}

/// Appends to a vector.
pub(crate) fn push<T: Drop>(rt: &impl Abort, list: &mut Vec<T>, item: T) {
    again!(rt, list.reserve(1));
    assert!(rt; list.push(item).is_ok());
}

/// A job as transcripts keep it.
pub(crate) fn kept_job(rt: &(impl Abort + AllocGlobal), job: &Job) -> KeptJob {
    again!(rt, keep(rt.alloc(), job))
}

fn keep(alloc: Global, job: &Job) -> Result<KeptJob, AllocError> {
    KeptJob::new(alloc, job.clone()?)
}

/// How a job ended, as transcripts keep it.
pub(crate) fn kept_end(rt: &(impl Abort + AllocGlobal), outcome: EndedJob) -> KeptEnd {
    had(rt, KeptEnd::new(rt.alloc(), outcome))
}

/// A number of a test's text.
pub(crate) fn number(rt: &impl Abort, digits: &str) -> u64 {
    digits.parse::<u64>().ok().expect(rt, "a number")
}

/// A number below 256.
pub(crate) fn small(rt: &impl Abort, digits: &str) -> u8 {
    digits.parse::<u8>().ok().expect(rt, "a number")
}

// ---- settings

/// The list of a mode.
pub(crate) fn lists(rt: &(impl Abort + AllocGlobal), bits: u16) -> Lists {
    let mode = Mode::new(bits).expect(rt, "a mode");
    Lists::from(again!(rt, acl(rt, mode)))
}

fn acl(rt: &impl AllocGlobal, mode: Mode) -> Result<Acl, AllocError> {
    Acl::from_mode(rt.alloc(), mode)
}

/// These votes, of which so many are wanted to read, and to write.
pub(crate) fn votes(rt: &impl Abort, servers: usize, reps: &[(u8, u8)], r: u16, w: u16) -> Votes {
    Votes::new(servers, reps, r, w).ok().expect(rt, "votes")
}

/// Three servers with a vote each, two of them a quorum; so many agents, without room for caches.
pub(crate) fn settings(rt: &(impl Abort + AllocGlobal), agents: usize) -> Settings {
    let votes = votes(rt, 3, &[(0, 1), (1, 1), (2, 1)], 2, 2);
    let (root, none) = (lists(rt, 0o777), ServerSet::empty());
    Settings::new(3, agents, votes, 1000, 100, root, 0, 0, 0, none)
        .ok()
        .expect(rt, "settings")
}

// ---- worlds

/// A world in which nothing happened.
pub(crate) fn opening(rt: &(impl Abort + AllocGlobal), settings: &Settings) -> World {
    again!(rt, opened(rt, settings))
}

fn opened(rt: &impl AllocGlobal, settings: &Settings) -> Result<World, AllocError> {
    World::opening(rt.alloc(), settings)
}

/// What comes of an event.
pub(crate) fn step(rt: &impl Abort, world: &mut World, event: &Event) -> Done {
    again!(rt, stepped(world, event))
}

fn stepped(world: &mut World, event: &Event) -> Result<Done, AllocError> {
    world.step(event)
}

/// How a job ended, in words: its agent, its number, its steps, and the end.
pub(crate) fn words(rt: &(impl Abort + AllocGlobal), outcome: &EndedJob) -> String {
    let (agent, count, steps) = (outcome.agent, outcome.count, outcome.steps);
    let made = format!(in rt.alloc(); "{agent}.{count} {steps} {:?}", outcome.ending);
    had(rt, made)
}

/// How a job ended, in words; none, if none did.
pub(crate) fn ending(rt: &(impl Abort + AllocGlobal), outcome: &Option<EndedJob>) -> String {
    match outcome {
        Some(outcome) => words(rt, outcome),
        None => String::new(rt.alloc()),
    }
}

/// How a job ended by an event, in words.
pub(crate) fn ended_by(
    rt: &(impl Abort + AllocGlobal),
    world: &mut World,
    event: &Event,
) -> String {
    ending(rt, &step(rt, world, event).outcome)
}
