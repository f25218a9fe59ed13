//! A service that opened, jobs for its agents, and what comes of them.
//!
//! What memory was refused to is called again, so that each allocation can be refused in turn. After a fault of a pool
//! nothing comes back, so there a row is run again.

use crate::asking::{close, started};
use crate::certified::certified;
use crate::events::job;
use crate::fixtures::{kept_job, push};
use agent_pool::{
    NamedJob, Player, Pool, PoolFault, Transcripts, are_ready, first_players, run_pool,
};
use server_lock::{Gate, Histories, Pass, Servers};
use std::alloc::AllocError;
use std::process::Abort;
use std::sync::Wait;
use std::thread::Threads;
use suite_prefix::Settings;

/// Servers, and all agents with their passes.
#[derive(Drop)]
pub(crate) struct Crew {
    pub(crate) servers: Servers,
    pub(crate) agents: Vec<Player>,
    pub(crate) passes: Vec<Pass>,
}

fn players(rt: &impl AllocGlobal, settings: &Settings) -> Result<Vec<Player>, AllocError> {
    first_players(rt.alloc(), settings)
}

pub(crate) fn opened(rt: &(impl Abort + AllocGlobal), settings: &Settings) -> Crew {
    let (servers, passes) = started(rt, settings);
    Crew {
        servers,
        agents: again!(rt, players(rt, settings)),
        passes,
    }
}

/// Takes away all agents but the first.
pub(crate) fn others(rt: &(impl Abort + AllocGlobal), agents: &mut Vec<Player>) -> Vec<Player> {
    assert!(rt; !agents.is_empty());
    agents.split_off(1).ok().expect(rt, "memory")
}

/// These jobs, numbered from this number on.
pub(crate) fn jobs(rt: &(impl Abort + AllocGlobal), first: u64, words: &str) -> Vec<NamedJob> {
    let mut all = Vec::new(rt.alloc());
    let mut number = first;
    for word in words.split(',') {
        let job = kept_job(rt, &job(rt, word));
        push(rt, &mut all, NamedJob { number, job });
        number = number.wrapping_add(1);
    }
    all
}

/// Has jobs carried out by agents who can; or the fault.
pub(crate) fn work<R: Abort + AllocGlobal + Threads + Wait + Sync, G: Gate + Sync>(
    rt: &R,
    gate: &G,
    servers: &Servers,
    jobs: &[NamedJob],
    crew: (Vec<Player>, Vec<Pass>),
) -> Result<Pool, PoolFault> {
    let (agents, passes) = crew;
    assert!(rt; !agents.is_empty());
    assert!(rt; are_ready(&agents, &passes));
    run_pool(rt, rt.alloc(), gate, servers, jobs, agents, passes)
}

/// The histories of the servers once they are closed, and what the agents did.
pub(crate) fn closed(
    rt: &(impl Abort + AllocGlobal),
    servers: Servers,
    pool: Pool,
) -> (Histories, Transcripts) {
    let Pool { agents, passes, .. } = pool;
    let histories = close(servers, passes).ok().expect(rt, "histories");
    (histories, transcripts(rt, agents))
}

fn transcripts(rt: &(impl Abort + AllocGlobal), agents: Vec<Player>) -> Transcripts {
    let mut transcripts = Vec::new(rt.alloc());
    for player in agents {
        push(rt, &mut transcripts, player.into_transcript());
    }
    Transcripts::from_vec(transcripts)
}

/// What is certified of a run that went so far: so many items, and so many decisions.
pub(crate) fn comes_to(
    rt: &(impl Abort + AllocGlobal),
    settings: &Settings,
    told: &(Histories, Transcripts),
    count: usize,
    decisions: usize,
) {
    let (histories, transcripts) = told;
    let found = items(histories);
    assert!(rt; found == count, "{count} items: {found}");
    assert!(rt; certified(rt, settings, histories, transcripts) == Some(decisions));
}

/// How many items there are.
fn items(histories: &Histories) -> usize {
    let mut items = 0usize;
    for history in histories.as_slice() {
        items = items.saturating_add(history.as_slice().len());
    }
    items
}
