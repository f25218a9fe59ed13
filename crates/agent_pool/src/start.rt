//! Threads of agents.

ghost use Rattle.std.specs.Prelude.{◌≡◌, ◌≤◌, ℕ, [], All, IfOk, length};
ghost use Rattle.std.specs.Vec.{vec_len, vec_capacity};
ghost use Rattle.std.specs.List.{AllZip};
ghost use Rattle.crossbeam_channel.specs.Claims.{view, IsSeatAt};
ghost use Rattle.crossbeam_channel.specs.Ends.{receives_on, sends_on};
ghost use Rattle.agent_pool.specs.Line.{feeder, taker};
ghost use Rattle.agent_pool.specs.Taken.{AreTaken};
ghost use Rattle.agent_pool.specs.code.Back.{IsBack, IsBackAt, IsOf};
ghost use Rattle.agent_pool.specs.code.Starts.{Comes, IsStart, IsWorkOf};
ghost use Rattle.agent_pool.specs.Transcripts.{IsIdle};
ghost use Rattle.agent_pool.specs.code.Working.{IsWorked};

use crate::line::{Counts, Receiver, Returning, Sender, Ticket};
use crate::pool_context::{NamedJob, PoolContext};
use crate::work::{Returned, SeatedAgent, Worked, work};
use crossbeam_channel::bounded;
use server_lock::{Gate, Servers};
use std::alloc::{AllocError, Global};
use std::snapshot::Snapshot;
use std::sync::Wait;
use std::thread::{Promise, PromisedHandle, Scope, Threads};

/// That an agent went on from where it was, and did what it took of these jobs, or got stuck.
#[derive(Drop)]
pub(crate) struct Works<'a> {
    pub(crate) servers: &'a Servers,
    pub(crate) jobs: &'a [NamedJob],
    pub(crate) receiver: &'a Receiver,
    pub(crate) was: Snapshot<SeatedAgent>,
}

impl<'a> Promise<Returned> for Works<'a> {
    ghost use Rattle.crossbeam_channel.specs.Claims.{IsSeatAt};
    ghost use Rattle.crossbeam_channel.specs.Ends.{receives_on};
    ghost use Rattle.agent_pool.specs.code.Back.{IsBack};
    ghost use Rattle.agent_pool.specs.code.Starts.{IsWorkOf};

    ghost kept_by = { λ p r. IsWorkOf p.jobs.now p.was.value r.worked × IsSeatAt (receives_on p.receiver.now) r.ticket
        × IsBack p.servers.now.servers p.jobs.now r };
}

/// An agent's thread, or the agent where none could be started.
#[derive(Drop)]
pub(crate) enum Start<'a> {
    Started(PromisedHandle<Returned, Works<'a>>),
    Rested(Returned),
}

/// Starts the thread of an agent, which waits to be told that it has started. Where none can be started the agent comes
/// back as it was: its closure, which is called here, then finds that nobody is left to tell it.
pub(crate) fn begin_thread<'s, E, R: Threads + Wait + Sync, G: Gate + Sync>(
    rt: &'s R,
    scope: &Scope<'s, E>,
    context: &PoolContext<'s, G>,
    ticket: Ticket,
    seat: SeatedAgent,
) -> Start<'s>
    requires ticket { IsSeatAt (receives_on context.now.receiver.now) ticket × (view ticket ≡ taker) }
    requires idle { IsIdle seat.player }
    ensures start { IsStart context.now.jobs.now seat result }
    ensures of { IsOf context.now.receiver.now context.now.servers.now.servers context.now.jobs.now result }
{
    let (alloc, gate, servers) = (context.alloc, context.gate, context.servers);
    let (jobs, receiver) = (context.jobs, context.receiver);
    let Ok((starter, started)) = bounded::<(), Global>(alloc, 1) else {
        return Start::Rested(Returned::new(alloc, seat, ticket));
    };
    let works = Works {
        servers,
        jobs,
        receiver,
        was: Snapshot::of(&seat),
    };
    let SeatedAgent { player, pass } = seat;
    let spawned = scope.spawn_with(
        works,
        move || -> Returned
            requires { IsSeatAt (receives_on receiver.now) ticket × (view ticket ≡ taker) × IsIdle player }
            ensures { IsWorked jobs.entry.now player pass result.worked × IsSeatAt (receives_on receiver.entry.now) result.ticket
                × IsBack servers.entry.now.servers jobs.entry.now result }
        {
            let seat = SeatedAgent { player, pass };
            if started.recv(rt).is_err() {
                return Returned::new(alloc, seat, ticket);
            }
            let context = PoolContext {
                alloc,
                gate,
                servers,
                jobs,
                receiver,
            };
            work(rt, &context, ticket, seat)
        },
    );
    match spawned {
        Ok(handle) => {
            let _told = starter.send(rt, ());
            Start::Started(handle)
        }
        Err(back) => {
            drop(starter);
            Start::Rested((back.value)())
        }
    }
}

/// The end of the channel into which jobs go, with the pass of the one that puts.
#[derive(Drop)]
pub(crate) struct Giver {
    pub(crate) sender: Sender,
    pub(crate) ticket: Ticket,
}

/// The agents' work, once they have ended it, put into this room; and what they took is what was put. An error, where none
/// took an end mark: no thread ran.
pub(crate) fn join_all<'s, R: Threads, G: Gate>(
    rt: &R,
    context: &PoolContext<'_, G>,
    giver: Giver,
    starts: Vec<Start<'s>>,
    mut room: Vec<Worked>,
) -> Result<Vec<Worked>, AllocError>
    requires none { room.items ≡ [] }
    requires room { vec_len starts ≤ vec_capacity room }
    requires same { receives_on context.now.receiver.now ≡ sends_on giver.sender }
    requires seat { IsSeatAt (sends_on giver.sender) giver.ticket }
    requires fed { (ends : ℕ) × (view giver.ticket ≡ feeder (length context.now.jobs.now) ends (vec_len starts)) }
    requires of { All (IsOf context.now.receiver.now context.now.servers.now.servers context.now.jobs.now) starts.items }
    ensures comes { IfOk result (λ worked. AllZip Comes starts.entry.items worked.items) }
    ensures taken { IfOk result (λ worked. AreTaken context.now.servers.now.servers context.now.jobs.now worked.items) }
{
    let Giver { sender, mut ticket } = giver;
    let mut has_ended = false;
    for start in starts {
        let returned = join_one(rt, context, start);
        if returned.ended {
            has_ended = true;
        }
        sender.absorb::<Returning>(&mut ticket, returned.ticket);
        room.push_reserved(returned.worked);
    }
    if !has_ended {
        return Err(AllocError);
    }
    sender.learn_as::<Counts>(&mut ticket);
    Ok(room)
}

/// What a thread hands back, once its agent has ended its work.
fn join_one<'s, R: Threads, G: Gate>(
    rt: &R,
    _context: &PoolContext<'_, G>,
    start: Start<'s>,
) -> Returned
    ensures comes { Comes start.entry result.worked }
    ensures back { IsOf _context.now.receiver.now _context.now.servers.now.servers _context.now.jobs.now start.entry
        → IsBackAt _context.now.receiver.now _context.now.servers.now.servers _context.now.jobs.now result }
{
    match start {
        Start::Started(handle) => handle.join(rt),
        Start::Rested(returned) => returned,
    }
}
