//! A sweep's run: for each transaction that has a lock at a server, what its home says is told there,
//! or, where it has prepared nothing, its locks are broken.

ghost use Rattle.std.specs.Prelude.{◌≡◌, ◌==◌, ◌<◌, ◌≤◌, ◌^◌, ◌%◌, ◌+◌, ◌/◌, ◌||◌, length, take, drop, IfOk, IfErr, OnErr, OnSome, IsTrue, option_map, None, Some, IfSome, IfNone, [], true};
ghost use Rattle.std.specs.List.{list_any};
ghost use Rattle.rep_core.specs.Wanting.{by_request};
ghost use Rattle.txn_core.specs.Doing as doing;
ghost use Rattle.txn_core.specs.code.Goings.{ending_of};
ghost use Rattle.txn_core.specs.declared.ending.Flow.TheVariants.{Ended};
ghost use Rattle.txn_core.specs.declared.ending.Cause.TheVariants.{Lost};
ghost use Rattle.txn_core.specs.code.Sorting.{in_order};
ghost use Rattle.txn_core.specs.Stages.{sweep_stage};
ghost use Rattle.txn_core.specs.Sweeps as sweeping;
ghost use Rattle.txn_core.specs.Transactions as txn_run;
ghost use Rattle.txn_core.specs.Wanting as wanting;
ghost use Rattle.txn_core.specs.code.SweepRunFields.{sweeping_of, with_counts, total, left_in, first_of, Comes};

use crate::ending::{Cause, Ending, Flow};
use crate::fixed_parts::FixedParts;
use crate::home::home_of;
use crate::sameness::{same_lock, same_verdict};
use crate::sorting::rising;
use crate::stage::Stage;
use rep_core::{Lack, Lock, Reply, Request, Verdict};
use std::alloc::{AllocError, Global};
use std::collections::VecDeque;
use std::marker::Model;
use vote_core::MAX_SERVERS;

/// What a sweep asks.
#[derive(Drop)]
enum Asking {
    /// To list the locks.
    Locks,
    /// How a transaction ended.
    Resolve(u64),
    /// To let a transaction go, as it ended.
    Finish(u64, Verdict),
    /// To let a lock go.
    Break(Lock),
}

/// What a sweep counts.
#[derive(Clone, Copy)]
struct Counts {
    broken: u64,
    finished: u64,
    left: u64,
}

/// How far a sweep of a server has come.
#[derive(Drop)]
pub(crate) struct SweepRun {
    server: u8,
    counts: Counts,
    asking: Asking,
    /// The locks that are left, in their order.
    locks: VecDeque<Lock>,
}

impl Model for SweepRun {
    ghost use Rattle.txn_core.specs.Doing as doing;
    ghost use Rattle.txn_core.specs.code.SweepRunFields.{round_of, IsKept};

    ghost Value = { doing.SweepRun };

    ghost view = { round_of };

    ghost invariant = { IsKept };
}

impl SweepRun {
    /// A sweep that asked nothing yet.
    pub(crate) fn new(alloc: Global, server: u8) -> SweepRun
        ensures { result ≡ record { server = server; broken = 0; finished = 0; left = 0; now = doing.Listing } }
    {
        SweepRun {
            server,
            counts: Counts {
                broken: 0,
                finished: 0,
                left: 0,
            },
            asking: Asking::Locks,
            locks: VecDeque::new(alloc),
        }
    }

    /// The same.
    pub(crate) fn copy(&self) -> Result<SweepRun, AllocError>
        ensures { IfOk result (λ copy. copy ≡ self.now) }
    {
        let asking = match &self.asking {
            Asking::Locks => Asking::Locks,
            Asking::Resolve(t) => Asking::Resolve(*t),
            Asking::Finish(t, verdict) => Asking::Finish(*t, verdict.clone()?),
            Asking::Break(lock) => Asking::Break(*lock),
        };
        let locks = copied(&self.locks)?;
        Ok(SweepRun {
            server: self.server,
            counts: self.counts,
            asking,
            locks,
        })
    }

    /// Of which server is asked next, and what, which is put into its place. Only to tell answers again it
    /// may run out of memory.
    pub(crate) fn ask(
        &self,
        fixed_parts: &FixedParts,
        request: &mut Request,
    ) -> Result<u8, AllocError>
        requires { (0 < fixed_parts.now.servers) × (fixed_parts.now.servers ≤ MAX_SERVERS) }
        ensures ok { IfOk result (λ server. (server, request.new) ≡ sweeping.asked_now fixed_parts.now self.now self.now.now) }
        ensures err { OnErr result (request.new ≡ request.old) }
        ensures memory { IfErr result (λ _. IsTrue (by_request (sweeping.asked_now fixed_parts.now self.now self.now.now).1)) }
    {
        *request = match &self.asking {
            Asking::Locks => Request::Locks,
            Asking::Resolve(t) => Request::Resolve { t: *t },
            Asking::Finish(t, verdict) => {
                let verdict = verdict.clone()?;
                Request::Finish { t: *t, verdict }
            }
            Asking::Break(lock) => Request::Break {
                t: lock.t,
                suite: lock.suite,
            },
        };
        Ok(self.asked(fixed_parts))
    }

    /// Whether another is the same. Where it is told, it is so.
    pub(crate) fn same(&self, other: &SweepRun) -> bool
        ensures { IsTrue result → self.now ≡ other.now }
    {
        self.server == other.server
            && self.counts.same(other.counts)
            && self.asking.same(&other.asking)
            && same_locks(&self.locks, &other.locks)
    }

    /// How far it is.
    pub(crate) fn stage(&self) -> Stage
        ensures { result ≡ sweep_stage self.now.now }
    {
        match &self.asking {
            Asking::Locks => Stage::Listing,
            Asking::Resolve(_) => Stage::Resolving,
            Asking::Finish(..) => Stage::Telling,
            Asking::Break(_) => Stage::Breaking,
        }
    }

    /// The server that is asked next.
    pub(crate) fn asked(&self, fixed_parts: &FixedParts) -> u8
        requires { (0 < fixed_parts.now.servers) × (fixed_parts.now.servers ≤ MAX_SERVERS) }
        ensures { result ≡ (sweeping.asked_now fixed_parts.now self.now self.now.now).0 }
    {
        match &self.asking {
            Asking::Resolve(t) => home_of(fixed_parts, *t),
            _ => self.server,
        }
    }

    /// What was asked next was not served: the run is at its end.
    pub(crate) fn on_lack(&self, fixed_parts: &FixedParts, lack: Lack) -> Flow
        requires { (0 < fixed_parts.now.servers) × (fixed_parts.now.servers ≤ MAX_SERVERS) }
        ensures { result ≡ Ended (Ending.Undecided (txn_run.lack_cause (sweeping.asked_now fixed_parts.now self.now self.now.now).0 lack)) }
    {
        let cause = Cause::of_lack(self.asked(fixed_parts), lack);
        Flow::Ended(Ending::Undecided(cause))
    }

    /// The server that was asked next replied. A list of locks and answers may run out of memory. Where it is refused,
    /// the run is as it was.
    pub(crate) fn on_reply(
        &mut self,
        alloc: Global,
        fixed_parts: &FixedParts,
        said: &Reply,
    ) -> Result<Flow, AllocError>
        requires { (0 < fixed_parts.now.servers) × (fixed_parts.now.servers ≤ MAX_SERVERS) }
        ensures ok { IfOk result (λ flow. Comes (sweeping.after_answer fixed_parts.now self.old self.old.now said.now) (ending_of flow) self.new) }
        ensures err { OnErr result (self.new ≡ self.old) }
        ensures memory { IfErr result (λ _. IsTrue (wanting.by_reply (sweeping.asked_now fixed_parts.now self.old self.old.now).1 said.now)) }
    {
        match (&self.asking, said) {
            (Asking::Locks, Reply::Locked(locks)) => self.on_locks(alloc, locks.as_slice()),
            (Asking::Resolve(t), Reply::Verdict(verdict)) => {
                let (t, verdict) = (*t, verdict.clone()?);
                self.asking = Asking::Finish(t, verdict);
                Ok(Flow::On)
            }
            (Asking::Resolve(t), _) if home_of(fixed_parts, *t) != self.server => {
                let mut counts = self.counts;
                counts.left += 1;
                Ok(self.go_on(counts))
            }
            (Asking::Finish(..), Reply::Done) => {
                let mut counts = self.counts;
                counts.finished += 1;
                Ok(self.go_on(counts))
            }
            (Asking::Break(_), Reply::Done) => {
                let mut counts = self.counts;
                counts.broken += 1;
                Ok(self.go_on(counts))
            }
            _ => Ok(self.lost()),
        }
    }

    /// The server that is swept is down.
    fn lost(&self) -> Flow
        ensures { result ≡ Ended (Ending.Undecided (Lost self.now.server)) }
    {
        let server = self.server;
        Flow::Ended(Ending::Undecided(Cause::Lost { server }))
    }

    /// The locks were told.
    fn on_locks(&mut self, alloc: Global, told: &[Lock]) -> Result<Flow, AllocError>
        requires { self.old.now ≡ doing.Listing }
        ensures ok { IfOk result (λ flow. Comes (sweeping.sweep_on self.old (sweeping.rising told.now)) (ending_of flow) self.new) }
        ensures err { OnErr result (self.new ≡ self.old) }
    {
        let mut locks = rising(alloc, told)?;
        let Some(asking) = first_of(&mut locks) else {
            return Ok(Flow::Ended(self.counts.swept()));
        };
        self.asking = asking;
        self.locks = locks;
        Ok(Flow::On)
    }

    /// Goes on to the locks that are left.
    fn go_on(&mut self, counts: Counts) -> Flow
        requires { total counts + length (left_in self.old.now) < 2 ^ 64 }
        ensures { Comes (sweeping.sweep_on (with_counts counts self.old) (left_in self.old.now)) (ending_of result) self.new }
    {
        let Some(asking) = first_of(&mut self.locks) else {
            return Flow::Ended(counts.swept());
        };
        self.asking = asking;
        self.counts = counts;
        Flow::On
    }
}

impl Asking {
    /// Whether another is the same.
    fn same(&self, other: &Asking) -> bool
        ensures { IsTrue result → self.now ≡ other.now }
    {
        match (self, other) {
            (Asking::Locks, Asking::Locks) => true,
            (Asking::Resolve(own), Asking::Resolve(theirs)) => own == theirs,
            (Asking::Finish(own, verdict), Asking::Finish(theirs, other_verdict)) => {
                own == theirs && same_verdict(verdict, other_verdict)
            }
            (Asking::Break(own), Asking::Break(theirs)) => same_lock(own, theirs),
            _ => false,
        }
    }
}

impl Counts {
    /// Whether another is the same.
    fn same(self, other: Counts) -> bool
        ensures { IsTrue result → self ≡ other }
    {
        self.broken == other.broken && self.finished == other.finished && self.left == other.left
    }

    /// The ending of a sweep's run that is through.
    fn swept(&self) -> Ending
        ensures { result ≡ Ending.Swept self.now.broken self.now.finished self.now.left }
    {
        let Counts {
            broken,
            finished,
            left,
        } = *self;
        Ending::Swept {
            broken,
            finished,
            left,
        }
    }
}

/// The same locks.
fn copied(locks: &VecDeque<Lock>) -> Result<VecDeque<Lock>, AllocError>
    ensures { IfOk result (λ copy. copy.items ≡ locks.now.items) }
{
    let copy = locks.clone()?;
    Ok(copy)
}

/// What is asked of the first of some locks, which are in their order. With it go the other locks of its
/// transaction, where one is prepared: they stand behind it, side by side.
fn first_of(locks: &mut VecDeque<Lock>) -> Option<Asking>
    requires { IsTrue (in_order locks.old.items) }
    ensures value { option_map (λ asking. sweeping_of asking locks.new.items) result ≡ first_of locks.old.items }
    ensures fewer { OnSome result (length locks.new.items + 1 ≤ length locks.old.items) }
    ensures none { IfNone result (locks.new.items ≡ []) }
    ensures order { IsTrue (in_order locks.new.items) }
{
    let lock = locks.pop_front()?;
    let own = locks.partition_point(|other| other.t <= lock.t);
    if !is_prepared(&lock, locks, own) {
        return Some(Asking::Break(lock));
    }
    let_go(locks, own);
    Some(Asking::Resolve(lock.t))
}

/// Lets the first locks go, so many of them.
fn let_go(locks: &mut VecDeque<Lock>, own: usize)
    requires { own ≤ length locks.old.items }
    ensures { locks.new.items ≡ drop own locks.old.items }
{
    locks.drain(..own);
}

/// Whether a lock is prepared, or one of the first of the others, so many of them.
fn is_prepared(lock: &Lock, others: &VecDeque<Lock>, own: usize) -> bool
    requires { own ≤ length others.now.items }
    ensures { result ≡ (lock.now.prepared || list_any (λ other. other.prepared) (take own others.now.items)) }
{
    lock.prepared || has_prepared(others, own)
}

fn has_prepared(others: &VecDeque<Lock>, own: usize) -> bool
    requires { own ≤ length others.now.items }
    ensures { result ≡ list_any (λ other. other.prepared) (take own others.now.items) }
{
    others.range(..own).any(|other| other.prepared)
}

/// Whether two lists of locks are the same.
fn same_locks(own: &VecDeque<Lock>, theirs: &VecDeque<Lock>) -> bool
    ensures { IsTrue result → own.now.items ≡ theirs.now.items }
{
    if own.len() != theirs.len() {
        return false;
    }
    for i in 0..own.len() {
        if !same_lock(&own[i], &theirs[i]) {
            return false;
        }
    }
    true
}
