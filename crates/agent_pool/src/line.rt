//! The channel through which jobs go, and its rule.

ghost use Rattle.std.specs.Prelude.{◌≡◌, ◌≤◌};
ghost use Rattle.crossbeam_channel.specs.Claims.{view, IsSeatAt};
ghost use Rattle.crossbeam_channel.specs.Ends.{sends_on, receives_on};
ghost use Rattle.agent_pool.specs.Line.{IsFirst, IsTaker, MayPut, TakesItem, after_put};

use crossbeam_channel::protocol::{Join, Lesson, Outcome, Protocol, Split};
use crossbeam_channel::{Pass, RuledReceiver, RuledSender};
use std::collections::LinkedList;
use std::sync::Wait;

/// What is put: an end mark, or a job, named by its place among those that were handed in.
#[derive(Clone, Copy)]
pub enum PoolItem {
    End,
    Job(usize),
}

/// What a thread knows of the channel: whether it puts or takes, how many jobs and how many end marks it put, how many
/// threads may take and how many of these are back, the least place at which it may take a job, whether it took an end
/// mark, and the places of the jobs that it took. No value of it is made.
pub struct Hand {
    pub puts: bool,
    pub takes: bool,
    pub put: usize,
    pub ends: usize,
    pub takers: usize,
    pub back: usize,
    pub low: usize,
    pub ended: bool,
    pub taken: LinkedList<usize>,
}

/// The rule: each item is an end mark or names its job, no job is put twice, and after the jobs no more end marks are
/// put than threads may take. Each thread takes jobs in their order, and what all took is what was put and is gone.
pub struct EachOnce;

impl Protocol<PoolItem, Hand> for EachOnce {
    ghost use Rattle.agent_pool.specs.Line.{feeder, IsEachOnce};

    ghost holds = { IsEachOnce };

    ghost first = { feeder 0 0 0 };
}

/// One thread puts, and another takes.
pub(crate) struct Taking;

impl Split<Hand> for Taking {
    ghost use Rattle.agent_pool.specs.Line.{taker, with_taker};

    ghost left = { with_taker };

    ghost right = { λ v. taker };
}

/// What a thread took goes to the one that puts.
pub(crate) struct Returning;

impl Join<Hand> for Returning {
    ghost use Rattle.agent_pool.specs.Line as line;

    ghost both = { line.with_taken };

    ghost spent = { line.spent };
}

/// Whether all that was put was taken.
pub(crate) struct Counts;

impl Lesson<PoolItem, Hand> for Counts {
    ghost use Rattle.agent_pool.specs.Line.{TookAll};

    ghost fact = { λ v items. TookAll v };
}

/// An item was put.
pub(crate) struct Puts;

impl Outcome<PoolItem, Hand> for Puts {
    ghost use Rattle.std.specs.Prelude.{◌≡◌};
    ghost use Rattle.agent_pool.specs.Line.{after_put};

    ghost then = { λ v x w. w ≡ after_put v x };
}

impl Lesson<PoolItem, Hand> for Puts {
    ghost use Rattle.std.specs.Prelude.{⊤};

    ghost fact = { λ v items. ⊤ };
}

/// An item was taken.
pub(crate) struct Takes;

impl Outcome<PoolItem, Hand> for Takes {
    ghost use Rattle.agent_pool.specs.Line.{TakesItem};

    ghost then = { TakesItem };
}

impl Lesson<PoolItem, Hand> for Takes {
    ghost use Rattle.std.specs.Prelude.{⊤};

    ghost fact = { λ v items. ⊤ };
}

pub(crate) type Sender = RuledSender<PoolItem, Hand, EachOnce>;

pub(crate) type Receiver = RuledReceiver<PoolItem, Hand, EachOnce>;

pub(crate) type Ticket = Pass<PoolItem, Hand>;

/// Puts so many jobs, one after the other, and then so many end marks, no more than threads may take.
pub(crate) fn feed<R: Wait>(rt: &R, sender: &Sender, ticket: &mut Ticket, jobs: usize, ends: usize)
    requires seat { IsSeatAt (sends_on sender.now) ticket.old }
    requires first { IsFirst (view ticket.old) }
    requires few { ends ≤ (view ticket.old).takers }
    ensures seat { IsSeatAt (sends_on sender.now) ticket.new }
    ensures fed { view ticket.new ≡ record (view ticket.old) { put = jobs; ends = ends } }
{
    for place in 0..jobs {
        put(rt, sender, ticket, PoolItem::Job(place));
    }
    for _ in 0..ends {
        put(rt, sender, ticket, PoolItem::End);
    }
}

/// Puts an item. The end at which threads take is there as long as this call, so nothing is refused; what were, would be
/// put again.
fn put<R: Wait>(rt: &R, sender: &Sender, ticket: &mut Ticket, item: PoolItem)
    requires seat { IsSeatAt (sends_on sender.now) ticket.old }
    requires may { MayPut (view ticket.old) item }
    ensures seat { IsSeatAt (sends_on sender.now) ticket.new }
    ensures put { view ticket.new ≡ after_put (view ticket.old) item }
{
    for _ in rt.forever() {
        if sender.send_as::<Puts, R>(rt, ticket, item).is_ok() {
            return;
        }
    }
    unreachable!()
}

/// Takes an item: a job stands behind all that were taken so. The end at which jobs are put is there as long as this call,
/// so there is one to come; where none did, it would be waited for again.
pub(crate) fn take<R: Wait>(rt: &R, receiver: &Receiver, ticket: &mut Ticket) -> PoolItem
    requires { IsSeatAt (receives_on receiver.now) ticket.old × IsTaker (view ticket.old) }
    ensures seat { IsSeatAt (receives_on receiver.now) ticket.new × IsTaker (view ticket.new) }
    ensures taken { TakesItem (view ticket.old) result (view ticket.new) }
{
    for _ in rt.forever() {
        if let Ok(item) = receiver.recv_as::<Takes, R>(rt, ticket) {
            return item;
        }
    }
    unreachable!()
}
