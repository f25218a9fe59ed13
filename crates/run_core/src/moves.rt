//! What an agent of a world does in an event.

ghost use Rattle.std.specs.Prelude.{◌≡◌, IfOk, IfErr, OnOk, OnErr, slice_get};
ghost use Rattle.txn_core.specs.Agents as agents;
ghost use Rattle.txn_core.specs.Doing.{Fixed};
ghost use Rattle.run_core.specs.Telling.{IsFittingIf};
ghost use Rattle.run_core.specs.code.Moves as moved;
ghost use Rattle.run_core.specs.code.Seats.{AreOf, Becomes, changed};

use crate::done::{EndedJob, Served};
use crate::exchange::exchange;
use crate::host::Host;
use crate::seat::WorldAgent;
use rep_core::Lack;
use std::alloc::AllocError;
use txn_core::Job;

/// The agent of this number begins a job.
pub(crate) fn begin(seats: &mut Vec<WorldAgent>, number: u8, job: &Job) -> Result<(), AllocError>
    ensures ok { OnOk result (moved.IsBegun seats.old.items seats.new.items number job.now) }
    ensures err { OnErr result (seats.new.items ≡ seats.old.items) }
    ensures memory { IfErr result (λ _. moved.BeginWants seats.old.items number job.now) }
{
    match seats.get_mut(usize::from(number)) {
        Some(seat) => seat.agent.begin(job),
        None => Ok(()),
    }
}

/// The agent of this number forgets what its cache keeps for a site.
pub(crate) fn forget(seats: &mut Vec<WorldAgent>, number: u8, site: u8)
    ensures { Becomes (slice_get seats.old.items number) (λ seat. changed seat (agents.forget seat.actor.agent site)) number seats.old.items seats.new.items }
{
    if let Some(seat) = seats.get_mut(usize::from(number)) {
        seat.agent.forget(site);
    }
}

/// The agent of this number asks a server, and takes the reply: it tells whether it was served. What was asked, and the
/// reply, are put into a place of the caller's; so is how its job ended, in a place which else keeps what it has.
#[inline(always)]
pub(crate) fn ask(
    servers: &mut Vec<Host>,
    seats: &mut Vec<WorldAgent>,
    number: u8,
    asked: &mut Served,
    ended: &mut Option<EndedJob>,
) -> Result<bool, AllocError>
    ensures of { (fixed : Fixed) → AreOf fixed seats.old.items → AreOf fixed seats.new.items }
    ensures ok { IfOk result (moved.IsAsked servers.old.items servers.new.items seats.old.items seats.new.items number asked.new ended.old ended.new) }
    ensures fits { IfOk result (λ is_served. IsFittingIf is_served asked.new) }
    ensures err { OnErr result ((servers.new.items ≡ servers.old.items) × (seats.new.items ≡ seats.old.items) × (ended.new ≡ ended.old)) }
    ensures memory { IfErr result (λ _. moved.StepWants servers.old.items seats.old.items number) }
{
    let Some(seat) = seats.get_mut(usize::from(number)) else {
        return Ok(false);
    };
    asked.request.stamp = seat.stamp();
    let Some(server) = seat.agent().next(&mut asked.request.value)? else {
        return Ok(false);
    };
    asked.server = server;
    let Some(host) = servers.get_mut(usize::from(server)) else {
        return Ok(false);
    };
    exchange(host, seat, number, asked, ended)
}

/// The agent of this number is told that its request is not served, which takes no memory. How its job ended is put
/// into a place of the caller's, which else keeps what it has.
pub(crate) fn lack(
    seats: &mut Vec<WorldAgent>,
    number: u8,
    lack: Lack,
    ended: &mut Option<EndedJob>,
)
    ensures of { (fixed : Fixed) → AreOf fixed seats.old.items → AreOf fixed seats.new.items }
    ensures told { moved.IsLacked seats.old.items seats.new.items number lack ended.old ended.new }
{
    let Some(seat) = seats.get_mut(usize::from(number)) else {
        return;
    };
    let Some(_server) = seat.agent().asked() else {
        return;
    };
    seat.lack(number, lack, ended);
}
