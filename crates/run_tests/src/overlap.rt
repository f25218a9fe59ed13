//! Two agents that overlap: a list, and a sweep of server 1.

use crate::certified::certified;
use crate::crew::{Crew, closed, comes_to, jobs, opened, work};
use crate::ends::ended_so;
use crate::fixtures::settings;
use agent_pool::{Pool, PoolFault};
use server_lock::{Gate, OpenGate, Servers};
use std::process::Abort;
use std::sync::Wait;
use std::sync::atomic::{AtomicU64, Ordering};
use std::thread;
use std::thread::Threads;
use suite_prefix::Settings;

/// A gate that holds each agent until both have begun, then whoever has job 1 until server 0 is being asked, and the first
/// call there until server 1 has answered.
#[derive(Drop)]
struct Meeting {
    begun: AtomicU64,
    taken: AtomicU64,
    answered: AtomicU64,
    late: AtomicU64,
}

impl Meeting {
    /// Holds until there are so many; at most a thousand million turns.
    fn hold(&self, what: &AtomicU64, least: u64) {
        for _ in 0..1_000_000_000u64 {
            if what.load(Ordering::SeqCst) >= least {
                return;
            }
            thread::yield_now();
        }
        self.late.store(1, Ordering::SeqCst);
    }
}

impl Gate for Meeting {
    fn begun(&self, _agent: u8, job: u64) {
        self.begun.fetch_add(1, Ordering::SeqCst);
        self.hold(&self.begun, 2);
        if job == 1 {
            self.hold(&self.taken, 1);
        }
    }

    fn inside(&self, server: u8, _agent: Option<u8>) {
        if server == 0 && self.taken.fetch_add(1, Ordering::SeqCst) == 0 {
            self.hold(&self.answered, 1);
        }
    }

    fn after(&self, server: u8, _agent: Option<u8>) {
        if server == 1 {
            self.answered.fetch_add(1, Ordering::SeqCst);
        }
    }
}

/// What comes of both jobs; nothing, where memory was refused to the pool. It has no other fault.
fn listed_and_swept<R: Abort + AllocGlobal + Threads + Wait + Sync, G: Gate + Sync>(
    rt: &R,
    gate: &G,
    settings: &Settings,
) -> Option<(Servers, Pool)> {
    let Crew {
        servers,
        agents,
        passes,
    } = opened(rt, settings);
    let both = jobs(rt, 0, "list /,sweep 1");
    match work(rt, gate, &servers, &both, (agents, passes)) {
        Ok(pool) => Some((servers, pool)),
        Err(fault) => {
            assert!(rt; fault == PoolFault::Memory);
            None
        }
    }
}

/// Both meet at the gate.
fn meet<R: Abort + AllocGlobal + Threads + Wait + Sync>(
    rt: &R,
    settings: &Settings,
) -> (Servers, Pool) {
    let gate = Meeting {
        begun: AtomicU64::new(0),
        taken: AtomicU64::new(0),
        answered: AtomicU64::new(0),
        late: AtomicU64::new(0),
    };
    let run = listed_and_swept(rt, &gate, settings);
    assert!(rt; gate.late.load(Ordering::SeqCst) == 0);
    run.expect(rt, "a run")
}

static ENDS: &str = "
0 8 Answered(Answers { replies: [List(NameList { folder: [] })] })
1 1 Swept { broken: 0, finished: 0, left: 0 }";

#[test]
fn a_list_overlaps_a_sweep(rt: HostRuntime) {
    let settings = settings(&rt, 2);
    let (servers, pool) = meet(&rt, &settings);
    ended_so(&rt, &pool, ENDS);
    comes_to(&rt, &settings, &closed(&rt, servers, pool), 9, 1);
}

/// Both as it comes; once more, where memory was refused.
fn as_it_comes<R: Abort + AllocGlobal + Threads + Wait + Sync>(
    rt: &R,
    settings: &Settings,
) -> (Servers, Pool) {
    match listed_and_swept(rt, &OpenGate, settings) {
        Some(run) => run,
        None => listed_and_swept(rt, &OpenGate, settings).expect(rt, "a run"),
    }
}

/// Whoever comes first, and wherever memory is refused once: what comes back is a run, the second time at the latest.
#[test]
fn an_open_gate_gives_a_run(rt: HostRuntime) {
    let settings = settings(&rt, 2);
    let (servers, pool) = as_it_comes(&rt, &settings);
    let (histories, transcripts) = closed(&rt, servers, pool);
    assert!(&rt; certified(&rt, &settings, &histories, &transcripts).is_some());
}
