//! Files that agent 0 makes, and that all agents write and list.

use crate::crew::{Crew, closed, comes_to, jobs, opened, others, work};
use crate::ends::ended_so;
use crate::fixtures::{push, settings};
use agent_pool::{Player, Pool, Transcripts};
use server_lock::{Histories, OpenGate, Pass, Servers};
use std::process::Abort;
use std::sync::Wait;
use std::thread::Threads;
use suite_prefix::Settings;

/// Jobs with the number of the first, and how each is to end, a line each but for the first line.
struct Round {
    first: u64,
    jobs: &'static str,
    ends: &'static str,
}

static MAKING: Round = Round {
    first: 0,
    jobs: "file /f0,file /f1,file /f2,file /f3,file /f4,file /f5,file /f6,file /f7",
    ends: "
0 10 Answered(Answers { replies: [Made(1)] })
1 10 Answered(Answers { replies: [Made(513)] })
2 10 Answered(Answers { replies: [Made(1025)] })
3 10 Answered(Answers { replies: [Made(1537)] })
4 10 Answered(Answers { replies: [Made(2049)] })
5 10 Answered(Answers { replies: [Made(2561)] })
6 10 Answered(Answers { replies: [Made(3073)] })
7 10 Answered(Answers { replies: [Made(3585)] })",
};

static USING: Round = Round {
    first: 8,
    jobs: "write /f0 hi,write /f1 hi,write /f2 hi,write /f3 hi,write /f4 hi,write /f5 hi,write /f6 hi,write /f7 hi,list /,list /,list /,list /",
    ends: "
8 10 Answered(Answers { replies: [Wrote] })
9 10 Answered(Answers { replies: [Wrote] })
10 10 Answered(Answers { replies: [Wrote] })
11 10 Answered(Answers { replies: [Wrote] })
12 10 Answered(Answers { replies: [Wrote] })
13 10 Answered(Answers { replies: [Wrote] })
14 10 Answered(Answers { replies: [Wrote] })
15 10 Answered(Answers { replies: [Wrote] })
16 8 Answered(Answers { replies: [List(NameList { folder: [(f0, 1), (f1, 513), (f2, 1025), (f3, 1537), (f4, 2049), (f5, 2561), (f6, 3073), (f7, 3585)] })] })
17 8 Answered(Answers { replies: [List(NameList { folder: [(f0, 1), (f1, 513), (f2, 1025), (f3, 1537), (f4, 2049), (f5, 2561), (f6, 3073), (f7, 3585)] })] })
18 8 Answered(Answers { replies: [List(NameList { folder: [(f0, 1), (f1, 513), (f2, 1025), (f3, 1537), (f4, 2049), (f5, 2561), (f6, 3073), (f7, 3585)] })] })
19 8 Answered(Answers { replies: [List(NameList { folder: [(f0, 1), (f1, 513), (f2, 1025), (f3, 1537), (f4, 2049), (f5, 2561), (f6, 3073), (f7, 3585)] })] })",
};

/// Has jobs carried out, and compares how they ended.
fn carried_out<R: Abort + AllocGlobal + Threads + Wait + Sync>(
    rt: &R,
    servers: &Servers,
    round: &Round,
    crew: (Vec<Player>, Vec<Pass>),
) -> Pool {
    let jobs = jobs(rt, round.first, round.jobs);
    let pool = work(rt, &OpenGate, servers, &jobs, crew).ok();
    let pool = pool.expect(rt, "a pool");
    ended_so(rt, &pool, round.ends);
    pool
}

/// The agents of a pool, and others.
fn joined(rt: &impl Abort, pool: Pool, others: Vec<Player>) -> (Vec<Player>, Vec<Pass>) {
    let Pool {
        mut agents,
        passes,
        ..
    } = pool;
    for player in others {
        push(rt, &mut agents, player);
    }
    (agents, passes)
}

/// What servers and agents have done of it.
fn files<R: Abort + AllocGlobal + Threads + Wait + Sync>(
    rt: &R,
    settings: &Settings,
) -> (Histories, Transcripts) {
    let Crew {
        servers,
        mut agents,
        passes,
    } = opened(rt, settings);
    let others = others(rt, &mut agents);
    let made = carried_out(rt, &servers, &MAKING, (agents, passes));
    let used = carried_out(rt, &servers, &USING, joined(rt, made, others));
    closed(rt, servers, used)
}

#[test]
fn files_are_written_by_all(rt: HostRuntime) {
    let settings = settings(&rt, 4);
    for _ in 0..5u8 {
        comes_to(&rt, &settings, &files(&rt, &settings), 192, 20);
    }
}
