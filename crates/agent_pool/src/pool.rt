//! Jobs that agents carry out in threads.

ghost use Rattle.std.specs.Prelude.{◌≡◌, ◌<◌, IfErr, IfOk};
ghost use Rattle.std.specs.Vec.{vec_len};
ghost use Rattle.std.specs.List.{AllZip};
ghost use Rattle.crossbeam_channel.specs.Claims.{view, IsSeatAt};
ghost use Rattle.crossbeam_channel.specs.Ends.{sends_on, receives_on};
ghost use Rattle.agent_pool.specs.Line.{feeder};
ghost use Rattle.agent_pool.specs.Taken.{AreTaken, GathersOrLacks};
ghost use Rattle.agent_pool.specs.Pools.{IsFaultOf, IsPoolOf};
ghost use Rattle.agent_pool.specs.code.Filled.{AreIdle};
ghost use Rattle.agent_pool.specs.Seats.{AreReady};
ghost use Rattle.agent_pool.specs.code.Starts.{IsWorkOf};

use crate::fault::PoolFault;
use crate::gather::{Room, gather};
use crate::line::{EachOnce, Hand, PoolItem, Taking, feed};
use crate::outcome::JobOutcome;
use crate::passes::seats;
use crate::player::Player;
use crate::pool_context::{NamedJob, PoolContext};
use crate::start::{Giver, Start, begin_thread, join_all};
use crate::work::{SeatedAgent, Worked};
use crossbeam_channel::bounded_with;
use server_lock::{Gate, Pass, Servers};
use std::alloc::{AllocError, Global};
use std::sync::Wait;
use std::thread;
use std::thread::{Scope, Threads};

/// How many jobs wait at most to be taken, beside one for each agent. Where more are handed in, each that is taken wakes the
/// thread that hands them out; so with room for one an agent threads were switched once for each job.
const MAX_WAITING: usize = 65_536;

/// What a pool did: the agents with their transcripts, in the order in which they were handed in, the passes, and
/// an outcome for each job, in the jobs' order.
#[derive(Drop)]
pub struct Pool {
    pub agents: Vec<Player>,
    pub passes: Vec<Pass>,
    pub outcomes: Vec<JobOutcome>,
}

/// Has jobs carried out by agents, each in a thread of its own, over servers. The jobs' numbers are distinct, and there
/// may be none; where two are the same, each still has its outcome. All that comes back on success can be handed in
/// again.
///
/// Memory is answered before another fault: where a growth was refused to an agent, or before the first began, and
/// where no thread could be started. A job that its agent could not begin is Missing, and one that could not go on:
/// its agent would ask a server that is not there, or its pass is of other servers. After a fault nothing comes back.
pub fn run_pool<R: Threads + Wait + Sync, G: Gate + Sync>(
    rt: &R,
    alloc: Global,
    gate: &G,
    servers: &Servers,
    jobs: &[NamedJob],
    agents: Vec<Player>,
    passes: Vec<Pass>,
) -> Result<Pool, PoolFault>
    requires some { 0 < vec_len agents }
    requires ready { AreReady passes.items agents.items }
    ensures pool { IfOk result (λ pool. IsPoolOf jobs.now agents.items passes.items pool) }
    ensures fault { IfErr result (IsFaultOf jobs.now) }
    ensures gathers { GathersOrLacks servers.now.servers jobs.now agents.items passes.items result }
{
    let mut passes = passes;
    let room = Room::new(alloc, jobs.len(), agents.len())?;
    let seats = seats(alloc, agents, &mut passes)?;
    let count = seats.len();
    passes.reserve(count)?;
    let waiting = count + jobs.len().min(MAX_WAITING);
    let (sender, receiver, ticket) = bounded_with::<PoolItem, Hand, EachOnce, Global>(
        alloc, waiting,
    )?;
    let context = PoolContext {
        alloc,
        gate,
        servers,
        jobs,
        receiver: &receiver,
    };
    let giver = Giver { sender, ticket };
    let worked = work_in_threads(rt, &context, giver, seats)?;
    gather(jobs, worked, passes, room)
}

/// What the agents did, in threads that have ended. Where none could be started, that is an error.
fn work_in_threads<R: Threads + Wait + Sync, G: Gate + Sync>(
    rt: &R,
    context: &PoolContext<'_, G>,
    giver: Giver,
    seats: Vec<SeatedAgent>,
) -> Result<Vec<Worked>, AllocError>
    requires seat { IsSeatAt (sends_on giver.sender) giver.ticket × (view giver.ticket ≡ feeder 0 0 0) }
    requires same { receives_on context.now.receiver.now ≡ sends_on giver.sender }
    requires idle { AreIdle seats.items }
    ensures work { IfOk result (λ worked. AllZip (IsWorkOf context.now.jobs.now) seats.items worked.items) }
    ensures taken { IfOk result (λ worked. AreTaken context.now.servers.now.servers context.now.jobs.now worked.items) }
{
    let (alloc, gate, servers) = (context.alloc, context.gate, context.servers);
    let (jobs, receiver) = (context.jobs, context.receiver);
    let Giver { sender, ticket } = giver;
    thread::scope(
        thread::scope_env(),
        rt,
        |scope| -> Result<Vec<Worked>, AllocError>
            requires seat { IsSeatAt (sends_on sender) ticket × (view ticket ≡ feeder 0 0 0) }
            requires same { receives_on receiver.now ≡ sends_on sender }
            requires idle { AreIdle seats.items }
            ensures { IfOk result (λ worked. AllZip (IsWorkOf jobs.entry.now) seats.items worked.items
                × AreTaken servers.entry.now.servers jobs.entry.now worked.items) }
        {
            let context = PoolContext {
                alloc,
                gate,
                servers,
                jobs,
                receiver,
            };
            in_scope(rt, scope, &context, Giver { sender, ticket }, seats)
        },
    )
}

/// The same, in a scope. All jobs are put, and an end mark for each thread that was started, before the threads are joined:
/// so each of them ends.
fn in_scope<'s, E, R: Threads + Wait + Sync, G: Gate + Sync>(
    rt: &'s R,
    scope: &Scope<'s, E>,
    context: &PoolContext<'s, G>,
    giver: Giver,
    seats: Vec<SeatedAgent>,
) -> Result<Vec<Worked>, AllocError>
    requires seat { IsSeatAt (sends_on giver.sender) giver.ticket × (view giver.ticket ≡ feeder 0 0 0) }
    requires same { receives_on context.now.receiver.now ≡ sends_on giver.sender }
    requires idle { AreIdle seats.items }
    ensures work { IfOk result (λ worked. AllZip (IsWorkOf context.now.jobs.now) seats.items worked.items) }
    ensures taken { IfOk result (λ worked. AreTaken context.now.servers.now.servers context.now.jobs.now worked.items) }
{
    let Giver { sender, mut ticket } = giver;
    let mut starts = Vec::with_capacity(context.alloc, seats.len())?;
    let room = Vec::with_capacity(context.alloc, seats.len())?;
    let mut started = 0;
    for seat in seats {
        let taker = sender.another::<Taking>(&mut ticket);
        let start = begin_thread(rt, scope, context, taker, seat);
        if let Start::Started(_) = &start {
            started += 1;
        }
        starts.push_reserved(start);
    }
    if started == 0 {
        return Err(AllocError);
    }
    feed(rt, &sender, &mut ticket, context.jobs.len(), started);
    join_all(rt, context, Giver { sender, ticket }, starts, room)
}
