//! A run that one thread makes event by event: what servers serve in it, and what agents put down.
//!
//! What memory was refused to is called again, so that each allocation can be refused in turn.

use crate::certified::{histories, transcripts, verdict};
use crate::events::event;
use crate::fixtures::{kept_end, kept_job, opening, push, small, step};
use rep_core::{Lack, Stamped};
use run_certify::{AgentEntry, Transcripts};
use run_core::{Done, EndedJob, Event, Served, World};
use server_lock::{Histories, Item};
use std::process::Abort;
use suite_prefix::Settings;

/// A world, the items of each of its servers, and the entries of each of its agents.
#[derive(Drop)]
pub(crate) struct TestCluster {
    pub(crate) world: World,
    pub(crate) items: Vec<Vec<Item>>,
    pub(crate) entries: Vec<Vec<AgentEntry>>,
}

/// As many empty lists.
fn lists<T: Drop>(rt: &(impl Abort + AllocGlobal), count: usize) -> Vec<Vec<T>> {
    let mut lists = Vec::new(rt.alloc());
    for _ in 0..count {
        push(rt, &mut lists, Vec::new(rt.alloc()));
    }
    lists
}

/// A test cluster in which nothing happened.
pub(crate) fn opened(rt: &(impl Abort + AllocGlobal), settings: &Settings) -> TestCluster {
    TestCluster {
        world: opening(rt, settings),
        items: lists(rt, 3),
        entries: lists(rt, settings.agents()),
    }
}

/// Plays lines: events, and `run A`, which is steps until the agent has no job, and `both A B`, which is a step of each
/// in turn until neither has one.
pub(crate) fn play(rt: &(impl Abort + AllocGlobal), test_cluster: &mut TestCluster, lines: &str) {
    for line in lines.split(',') {
        match line.split_once(' ') {
            Some(("run", agent)) => take_turns(rt, test_cluster, agent, agent),
            Some(("both", agents)) => both(rt, test_cluster, agents),
            _ => happens(rt, test_cluster, event(rt, line)),
        }
    }
}

fn both(rt: &(impl Abort + AllocGlobal), test_cluster: &mut TestCluster, agents: &str) {
    let (first, second) = agents.split_once(' ').expect(rt, "two agents");
    take_turns(rt, test_cluster, first, second);
}

fn take_turns(
    rt: &(impl Abort + AllocGlobal),
    test_cluster: &mut TestCluster,
    first: &str,
    second: &str,
) {
    let (first, second) = (small(rt, first), small(rt, second));
    for turn in 0..200u8 {
        let agent = if turn % 2 == 0 { first } else { second };
        if !test_cluster.world.idle(agent) {
            happens(rt, test_cluster, Event::Step { agent });
        }
    }
}

/// Plays an event, and puts down what was served, and what its agent did.
fn happens(rt: &(impl Abort + AllocGlobal), test_cluster: &mut TestCluster, event: Event) {
    let agent = agent_of(&event);
    let server = asked_by(test_cluster, agent);
    let Done { served, outcome } = step(rt, &mut test_cluster.world, &event);
    let told = stamp_of(&served);
    keep(rt, test_cluster, agent, served);
    put_down(rt, test_cluster, agent, entry_of(rt, &event, server, told));
    put_down(rt, test_cluster, agent, end_of(rt, outcome));
}

/// The server that an agent asks next.
fn asked_by(test_cluster: &TestCluster, agent: Option<u8>) -> u8 {
    let server = match agent {
        Some(number) => test_cluster.world.asked(number),
        None => None,
    };
    server.unwrap_or(255)
}

fn stamp_of(served: &Option<Served>) -> Option<u64> {
    match served {
        Some(what) => Some(what.reply.stamp),
        None => None,
    }
}

/// The agent of an event, where it has one.
fn agent_of(event: &Event) -> Option<u8> {
    match event {
        Event::Begin { agent, .. }
        | Event::Step { agent }
        | Event::Forget { agent, .. }
        | Event::Lack { agent, .. } => Some(*agent),
        Event::Crash { .. } | Event::Return { .. } => None,
    }
}

/// Puts down what was served, if anything was.
fn keep(
    rt: &impl Abort,
    test_cluster: &mut TestCluster,
    agent: Option<u8>,
    served: Option<Served>,
) {
    if let Some(what) = served {
        let list = test_cluster.items.get_mut(usize::from(what.server));
        push(rt, list.expect(rt, "a server"), item_of(agent, what));
    }
}

fn item_of(agent: Option<u8>, what: Served) -> Item {
    let Served { request, reply, .. } = what;
    let Stamped { stamp, value } = reply;
    Item {
        stamp,
        agent,
        request,
        reply: value,
    }
}

/// What its agent puts down of an event, where that asks this server next and was told this stamp.
fn entry_of(
    rt: &(impl Abort + AllocGlobal),
    event: &Event,
    server: u8,
    told: Option<u64>,
) -> Option<AgentEntry> {
    match event {
        Event::Begin { job, .. } => Some(AgentEntry::Begun(kept_job(rt, job))),
        Event::Step { .. } => Some(asked(server, told)),
        Event::Lack { lack, .. } => Some(AgentEntry::Lacked {
            server,
            lack: *lack,
        }),
        Event::Forget { site, .. } => Some(AgentEntry::Forgot { site: *site }),
        Event::Crash { .. } | Event::Return { .. } => None,
    }
}

fn asked(server: u8, told: Option<u64>) -> AgentEntry {
    match told {
        Some(stamp) => AgentEntry::Asked { server, stamp },
        None => AgentEntry::Lacked {
            server,
            lack: Lack::Full,
        },
    }
}

fn end_of(rt: &(impl Abort + AllocGlobal), outcome: Option<EndedJob>) -> Option<AgentEntry> {
    match outcome {
        Some(outcome) => Some(AgentEntry::Ended(kept_end(rt, outcome))),
        None => None,
    }
}

/// Puts down what an agent did, where there is one and it did something.
fn put_down(
    rt: &impl Abort,
    test_cluster: &mut TestCluster,
    agent: Option<u8>,
    entry: Option<AgentEntry>,
) {
    if let Some(entry) = entry {
        adds(rt, test_cluster, agent.expect(rt, "an agent"), entry);
    }
}

/// Puts an entry at the end of an agent's transcript.
fn adds(rt: &impl Abort, test_cluster: &mut TestCluster, agent: u8, entry: AgentEntry) {
    let list = test_cluster.entries.get_mut(usize::from(agent));
    push(rt, list.expect(rt, "an agent"), entry);
}

// ---- what is certified

/// How many items there are.
pub(crate) fn count(test_cluster: &TestCluster) -> usize {
    let mut count = 0usize;
    for list in &test_cluster.items {
        count = count.saturating_add(list.len());
    }
    count
}

/// The histories of its servers, and the transcripts of its agents.
fn put_together(
    rt: &(impl Abort + AllocGlobal),
    test_cluster: TestCluster,
) -> (Histories, Transcripts) {
    let TestCluster { items, entries, .. } = test_cluster;
    (histories(rt, items), transcripts(rt, entries))
}

/// What is certified, in words.
pub(crate) fn judged(
    rt: &(impl Abort + AllocGlobal),
    settings: &Settings,
    test_cluster: TestCluster,
) -> String {
    let (histories, transcripts) = put_together(rt, test_cluster);
    verdict(rt, settings, &histories, &transcripts)
}
