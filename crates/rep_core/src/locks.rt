//! The locks of a server. What it is asked of them, and what it does with them, it asks of their table.

ghost use Rattle.std.specs.Prelude.{◌≡◌, ◌≢◌, ◌≤◌, ◌<◌, ◌+◌, ◌-◌, ◌++◌, [], None, length, IsTrue, IfOk, OnOk};
ghost use Rattle.std.specs.List.{list_all};
ghost use Rattle.std.specs.Vec.{vec_len, vec_capacity};
ghost use Rattle.rep_core.specs.Locks as locking;
ghost use Rattle.rep_core.specs.code.Keyed as keyed;

use crate::few_locks as few;
use crate::lock::Lock;
use crate::many_locks::ManyLocks;
use crate::request::Part;
use crate::sameness::same_locks;
use std::alloc::{AllocError, Global};
use std::marker::Model;
use suite_prefix::LockMode;

/// So many locks at most stand in a vector.
const FEW: usize = 64;

/// The locks of a server by transaction, and in one transaction by suite; an exclusive one stands alone on its suite.
/// While they are few they stand in a vector; from then on all stand in blocks, until none is left. It shows how many
/// new ones it takes without memory.
#[derive(Drop)]
pub(crate) struct LockTable {
    few: Vec<Lock>,
    many: ManyLocks,
}

impl Model for LockTable {
    ghost use Rattle.std.specs.Prelude.{◌-◌, ◌++◌};
    ghost use Rattle.std.specs.Vec.{vec_len, vec_capacity};
    ghost use Rattle.rep_core.specs.code.Holding.{Locking};
    ghost use Rattle.rep_core.specs.code.Keyed.{AreTabled, room_in};

    ghost Value = { Locking };

    ghost view = { λ table. record {
      locks = table.few.items ++ table.many.locks;
      room = room_in table.few.items (vec_capacity table.few - vec_len table.few) table.many.locks table.many.room;
    } };

    ghost invariant = { λ table. AreTabled table.few.items table.many.locks };
}

impl LockTable {
    /// No locks.
    pub(crate) fn new(alloc: Global) -> LockTable
        ensures { result.locks ≡ [] }
    {
        LockTable {
            few: Vec::new(alloc),
            many: ManyLocks::new(alloc),
        }
    }

    /// An equal table, but for its room.
    pub(crate) fn copy(&self, alloc: Global) -> Result<LockTable, AllocError>
        ensures { IfOk result (λ table. table.locks ≡ self.now.locks) }
    {
        let few = Vec::from_slice(alloc, &self.few)?;
        let many = self.many.copy(alloc)?;
        Ok(LockTable { few, many })
    }

    /// The locks in their order.
    pub(crate) fn listed(&self, alloc: Global) -> Result<Vec<Lock>, AllocError>
        ensures { IfOk result (λ listed. listed.items ≡ self.now.locks) }
    {
        let mut listed = Vec::from_slice(alloc, &self.few)?;
        self.many.append_to(alloc, &mut listed)?;
        Ok(listed)
    }

    /// Whether another table has the same. Where it is told, it is so; where they are many, it is not told.
    pub(crate) fn same(&self, other: &LockTable) -> bool
        ensures { IsTrue result → self.now.locks ≡ other.now.locks }
    {
        self.many.is_empty() && other.many.is_empty() && same_locks(&self.few, &other.few)
    }

    /// Makes room for a new lock.
    pub(crate) fn make_room(&mut self) -> Result<(), AllocError>
        ensures ok { OnOk result (0 < self.new.room) }
        ensures locks { self.new.locks ≡ self.old.locks }
    {
        if are_few(&self.few, &self.many) {
            self.few.reserve(1)
        } else {
            self.many.make_room(self.few.len() + 1)
        }
    }

    /// The lock of the least transaction that stands in the way of a lock in this mode.
    pub(crate) fn in_the_way(&self, t: u64, suite: u64, mode: LockMode) -> Option<Lock>
        ensures { result ≡ locking.in_the_way t suite mode self.now.locks }
    {
        if self.many.is_empty() {
            few::first_in_the_way(&self.few, t, suite, mode)
        } else {
            self.many.in_the_way(t, suite, mode)
        }
    }

    /// Whether a transaction has a lock on a suite.
    pub(crate) fn has_lock(&self, t: u64, suite: u64) -> bool
        ensures { result ≡ locking.has_lock t suite self.now.locks }
    {
        self.lock_at(t, suite).is_some()
    }

    /// The transaction's lock on a suite.
    fn lock_at(&self, t: u64, suite: u64) -> Option<Lock>
        ensures lock { result ≡ locking.lock_at t suite self.now.locks }
        ensures rising { IsTrue (locking.rise self.now.locks) }
    {
        if self.many.is_empty() {
            few::lock_at(&self.few, t, suite)
        } else {
            self.many.lock_at(t, suite)
        }
    }

    /// Whether a transaction has a prepared lock.
    pub(crate) fn has_prepared(&self, t: u64) -> bool
        ensures { result ≡ locking.has_prepared t self.now.locks }
    {
        if self.many.is_empty() {
            few::has_prepared(&self.few, t)
        } else {
            self.many.has_prepared(t)
        }
    }

    /// Whether a transaction has the lock of each part.
    pub(crate) fn has_locks_for(&self, t: u64, parts: &[Part]) -> bool
        ensures { result ≡ list_all (locking.has_lock_for t self.now.locks) parts.now }
    {
        parts.iter().all(|part| self.has_lock_for(t, part))
    }

    /// Whether a transaction has a lock on a part's suite, in the part's mode or a stronger one.
    fn has_lock_for(&self, t: u64, part: &Part) -> bool
        ensures { result ≡ locking.has_lock_for t self.now.locks part.now }
    {
        match self.lock_at(t, part.suite) {
            Some(lock) => lock.mode.serves(part.mode),
            None => false,
        }
    }

    /// Sets a lock, for which there is room and nothing in the way, or makes the transaction's own one stronger.
    #[inline(always)]
    pub(crate) fn set(&mut self, t: u64, suite: u64, mode: LockMode)
        requires room { 0 < self.old.room }
        requires free { locking.in_the_way t suite mode self.old.locks ≡ None }
        ensures { self.new.locks ≡ locking.locked t suite mode self.old.locks }
    {
        if are_few(&self.few, &self.many) {
            few::set_lock(&mut self.few, t, suite, mode);
        } else {
            move_all(&mut self.few, &mut self.many);
            self.many.set(t, suite, mode);
        }
    }

    /// Makes the transaction's locks on the parts' suites prepared.
    #[inline(always)]
    pub(crate) fn prepare(&mut self, t: u64, parts: &[Part])
        ensures { self.new.locks ≡ locking.with_prepared t parts.now self.old.locks }
    {
        if self.many.is_empty() {
            few::prepare(&mut self.few, t, parts);
        } else {
            self.many.prepare(t, parts);
        }
    }

    /// Lets go all but the prepared locks.
    pub(crate) fn keep_prepared(&mut self)
        ensures { self.new.locks ≡ locking.prepared_locks self.old.locks }
    {
        if self.many.is_empty() {
            self.few.retain(|lock| lock.prepared);
        } else {
            self.many.keep_prepared();
        }
    }

    /// Lets a transaction's locks go.
    #[inline(always)]
    pub(crate) fn release(&mut self, t: u64)
        ensures { self.new.locks ≡ locking.released t self.old.locks }
    {
        if self.many.is_empty() {
            self.few.retain(|lock| lock.t != t);
        } else {
            self.many.release(t);
        }
    }

    /// Lets a lock go that is not prepared.
    pub(crate) fn break_lock(&mut self, t: u64, suite: u64)
        ensures { self.new.locks ≡ locking.broken t suite self.old.locks }
    {
        if self.many.is_empty() {
            few::break_lock(&mut self.few, t, suite);
        } else {
            self.many.break_lock(t, suite);
        }
    }
}

/// Whether the locks stand in the vector, and one more may.
fn are_few(few: &Vec<Lock>, many: &ManyLocks) -> bool
    ensures { result ≡ keyed.are_few few.now.items many.now.locks }
{
    many.is_empty() && few.len() < FEW
}

/// Moves the locks of a vector into blocks, for which there is room.
fn move_all(few: &mut Vec<Lock>, many: &mut ManyLocks)
    requires room { length few.old.items ≤ many.old.room }
    requires rising { IsTrue (locking.rise (few.old.items ++ many.old.locks)) }
    ensures few { few.new.items ≡ [] }
    ensures many { many.new.locks ≡ few.old.items ++ many.old.locks }
    ensures room { many.old.room ≤ many.new.room + length few.old.items }
{
    while let Some(lock) = few.pop() {
        many.put(lock.t, lock.suite, lock.mode, lock.prepared);
    }
}
