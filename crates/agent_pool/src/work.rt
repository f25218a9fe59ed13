//! What a thread does: it takes jobs, and has its agent carry them out.

ghost use Rattle.std.specs.Prelude.{◌≡◌, ◌≢◌, ◌+◌, ◌++◌, ◌∷◌, [], List, ℕ, length, None, Some};
ghost use Rattle.crossbeam_channel.specs.Claims.{view, IsSeatAt};
ghost use Rattle.crossbeam_channel.specs.Ends.{receives_on};
ghost use Rattle.agent_pool.specs.Line.{taker};
ghost use Rattle.agent_pool.specs.Taken.{Took};
ghost use Rattle.agent_pool.specs.code.Back.{IsBack};
ghost use Rattle.agent_pool.specs.code.Starts.{IsWorkOf};
ghost use Rattle.agent_pool.specs.code.Steps.{DidJob, DidMore};
ghost use Rattle.agent_pool.specs.code.Working.{RiseInPlace};
ghost use Rattle.agent_pool.specs.Transcripts.{IsIdle};
ghost use Rattle.agent_pool.specs.declared.asking.Came.TheVariants.{On};

use crate::asking::{Came, Ran};
use crate::line::{PoolItem, Ticket, take};
use crate::player::Player;
use crate::pool_context::{NamedJob, PoolContext};
use server_lock::{Gate, Pass};
use std::alloc::Global;
use std::snapshot::Snapshot;
use std::sync::Wait;

/// A job that was done: its place among those that were handed in, and where it ended.
#[derive(Clone, Copy)]
pub struct JobDone {
    pub place: usize,
    pub ran: Ran,
}

/// Why an agent runs nothing more.
#[derive(Clone, Copy)]
pub enum Halt {
    /// Memory was refused to it.
    Lacked,
    /// The job of this number could not be begun, or could not go on.
    Stuck(u64),
    /// What it took names a place at which no job was handed in.
    Strange(usize),
}

/// An agent with its pass.
#[derive(Drop)]
pub struct SeatedAgent {
    pub player: Player,
    pub pass: Pass,
}

/// An agent that has ended its work, with its pass, the jobs that it did, and why it ran no more.
#[derive(Drop)]
pub struct Worked {
    pub player: Player,
    pub pass: Pass,
    pub done: Vec<JobDone>,
    pub halt: Option<Halt>,
}

/// What a thread hands back: what its agent did, what it knows of the channel, and whether it took an end mark.
#[derive(Drop)]
pub(crate) struct Returned {
    pub(crate) worked: Worked,
    pub(crate) ticket: Ticket,
    pub(crate) ended: bool,
}

impl Returned {
    /// Nothing was taken, and nothing done.
    pub(crate) fn new(alloc: Global, seat: SeatedAgent, ticket: Ticket) -> Returned
        requires idle { IsIdle seat.player }
        requires ticket { view ticket ≡ taker }
        ensures work { (jobs : List NamedJob) → IsWorkOf jobs seat result.worked }
        ensures none { result.worked.done.items ≡ [] }
        ensures ticket { result.ticket ≡ ticket }
        ensures back { (servers : ℕ) (jobs : List NamedJob) → IsBack servers jobs result }
    {
        Returned {
            worked: Worked::new(alloc, seat),
            ticket,
            ended: false,
        }
    }
}

impl Worked {
    /// It did nothing yet, whatever jobs there are.
    fn new(alloc: Global, seat: SeatedAgent) -> Worked
        requires { IsIdle seat.player }
        ensures work { (jobs : List NamedJob) → IsWorkOf jobs seat result }
        ensures none { result.done.items ≡ [] }
        ensures runs { result.halt ≡ None }
    {
        let SeatedAgent { player, pass } = seat;
        Worked {
            player,
            pass,
            done: Vec::new(alloc),
            halt: None,
        }
    }

    /// The same, but that its agent runs nothing more.
    fn halted(self, halt: Halt) -> Worked
        ensures player { result.player ≡ self.player }
        ensures pass { result.pass ≡ self.pass }
        ensures done { result.done.items ≡ self.done.items }
        ensures halt { result.halt ≡ Some halt }
    {
        let Worked {
            player,
            pass,
            done,
            ..
        } = self;
        Worked {
            player,
            pass,
            done,
            halt: Some(halt),
        }
    }

    /// Carries out a job that was handed in at this place, behind all that it did; nothing, once it halted.
    fn carry_out<R: Wait, G: Gate>(
        mut self,
        rt: &R,
        context: &PoolContext<'_, G>,
        place: usize,
        was: &Snapshot<SeatedAgent>,
    ) -> Worked
        requires work { IsWorkOf context.now.jobs.now was.now.value self }
        requires behind { RiseInPlace 0 self.done.items place }
        ensures work { IsWorkOf context.now.jobs.now was.now.value result }
        ensures order { RiseInPlace 0 result.done.items (place + 1) }
        ensures took { (taken : List ℕ) → Took context.now.servers.now.servers context.now.jobs.now self taken
            → Took context.now.servers.now.servers context.now.jobs.now result (taken ++ place ∷ []) }
    {
        if self.halt.is_some() {
            return self;
        }
        let Some(named) = context.jobs.get(place) else {
            return self.halted(Halt::Strange(place));
        };
        if self.done.reserve(1).is_err() {
            return self.halted(Halt::Lacked);
        }
        let Worked {
            mut player,
            pass,
            mut done,
            ..
        } = self;
        let (pass, came) = run(rt, context, &mut player, pass, named);
        let halt = match came {
            Came::Ended(ran) => {
                done.push_reserved(JobDone { place, ran });
                return Worked {
                    player,
                    pass,
                    done,
                    halt: None,
                };
            }
            Came::Lacked => Halt::Lacked,
            Came::Stuck => Halt::Stuck(named.number),
            Came::On => unreachable!(),
        };
        Worked {
            player,
            pass,
            done,
            halt: Some(halt),
        }
    }
}

/// An agent carries out a job, from its begin to its end.
fn run<R: Wait, G: Gate>(
    rt: &R,
    context: &PoolContext<'_, G>,
    player: &mut Player,
    pass: Pass,
    named: &NamedJob,
) -> (Pass, Came)
    ensures over { result.1 ≢ On }
    ensures did { DidJob context.now.servers.now.servers named.now.job player.old player.new pass result.0 result.1 }
{
    match player.begin(&named.job) {
        Ok(true) => {}
        Ok(false) => return (pass, Came::Stuck),
        Err(_) => return (pass, Came::Lacked),
    }
    context.gate.begun(player.number(), named.number);
    go_on(rt, context, player, pass)
}

/// It asks until its job is at its end, or cannot go on.
fn go_on<R: Wait, G: Gate>(
    rt: &R,
    context: &PoolContext<'_, G>,
    player: &mut Player,
    pass: Pass,
) -> (Pass, Came)
    ensures over { result.1 ≢ On }
    ensures did { DidMore context.now.servers.now.servers (length player.old.entries) player.old player.new pass result.0 result.1 }
{
    let begun = player.entries().len();
    let mut current = pass;
    for _ in rt.forever() {
        let (next, came) = player.step(rt, context, current, begun);
        current = next;
        match came {
            Came::On => {}
            _ => return (current, came),
        }
    }
    unreachable!()
}

/// Takes jobs until an end mark comes.
pub(crate) fn work<R: Wait, G: Gate>(
    rt: &R,
    context: &PoolContext<'_, G>,
    ticket: Ticket,
    seat: SeatedAgent,
) -> Returned
    requires ticket { IsSeatAt (receives_on context.now.receiver.now) ticket × (view ticket ≡ taker) }
    requires idle { IsIdle seat.player }
    ensures work { IsWorkOf context.now.jobs.now seat result.worked }
    ensures seat { IsSeatAt (receives_on context.now.receiver.now) result.ticket }
    ensures back { IsBack context.now.servers.now.servers context.now.jobs.now result }
{
    let was = Snapshot::of(&seat);
    let Returned {
        mut worked,
        mut ticket,
        ..
    } = Returned::new(context.alloc, seat, ticket);
    for _ in rt.forever() {
        match take(rt, context.receiver, &mut ticket) {
            PoolItem::Job(place) => worked = worked.carry_out(rt, context, place, &was),
            PoolItem::End => {
                return Returned {
                    worked,
                    ticket,
                    ended: true,
                };
            }
        }
    }
    unreachable!()
}
