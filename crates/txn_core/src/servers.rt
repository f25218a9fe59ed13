//! Servers that are asked one after the other.

ghost use Rattle.std.specs.FinSet.{contains};
ghost use Rattle.std.specs.Prelude.{◌≡◌, ℕ, drop, slice_get, IfOk, IsTrue};
ghost use Rattle.txn_core.specs.Suites as gathering;
ghost use Rattle.txn_core.specs.Transactions as txn_run;

use crate::suites::GatheredSuite;
use arrayvec::ArrayVec;
use std::alloc::AllocError;
use std::marker::Model;
use vote_core::{MAX_SERVERS, ServerSet};

/// The servers that are left to be asked, in their order.
#[derive(Drop)]
pub(crate) struct Servers {
    all: ArrayVec<u8, MAX_SERVERS>,
    asked: usize,
}

impl Model for Servers {
    ghost use Rattle.std.specs.Prelude.{◌≤◌, ℕ, List, drop, length};

    ghost Value = { List ℕ };

    ghost view = { λ left. drop left.asked left.all.items };

    ghost invariant = { λ left. left.asked ≤ length left.all.items };
}

impl Servers {
    /// Takes out the first server, where any is left.
    pub(crate) fn take_first(&mut self) -> Option<u8>
        ensures first { result ≡ slice_get self.old 0 }
        ensures left { self.new ≡ drop 1 self.old }
    {
        let first = self.first();
        self.pass();
        first
    }

    /// The server to be asked now.
    pub(crate) fn first(&self) -> Option<u8>
        ensures { result ≡ slice_get self.now 0 }
    {
        self.as_slice().first().copied()
    }

    /// Whether the same are left. Where it is told, it is so.
    pub(crate) fn same(&self, other: &Servers) -> bool
        ensures { IsTrue result → self.now ≡ other.now }
    {
        self.as_slice() == other.as_slice()
    }

    /// Those that are left.
    fn as_slice(&self) -> &[u8]
        ensures { result.now ≡ self.now }
    {
        &self.all.as_slice()[self.asked..]
    }

    /// The same.
    pub(crate) fn copy(&self) -> Result<Servers, AllocError>
        ensures { IfOk result (λ copy. copy ≡ self.now) }
    {
        let all = copied(&self.all)?;
        Ok(Servers {
            all,
            asked: self.asked,
        })
    }

    /// That one was asked.
    pub(crate) fn pass(&mut self)
        ensures { self.new ≡ drop 1 self.old }
    {
        if self.asked < self.all.len() {
            self.asked += 1;
        }
    }
}

/// The same numbers.
fn copied(all: &ArrayVec<u8, MAX_SERVERS>) -> Result<ArrayVec<u8, MAX_SERVERS>, AllocError>
    ensures { IfOk result (λ copy. copy.items ≡ all.now.items) }
{
    let copy = all.clone()?;
    Ok(copy)
}

/// The servers that answered that they hold a lock, which rise.
pub(crate) fn locked_at(suites: &[(u64, GatheredSuite)]) -> Servers
    ensures { result ≡ txn_run.locked_at suites.now }
{
    let holders = holders_of(suites);
    let mut all = ArrayVec::new();
    for server in 0..MAX_SERVERS as u8 {
        if holders.contains(server) {
            all.push(server);
        }
    }
    Servers { all, asked: 0 }
}

/// The servers that hold a lock on any suite.
fn holders_of(suites: &[(u64, GatheredSuite)]) -> ServerSet
    ensures { (server : ℕ) → contains result server ≡ gathering.has_locks suites.now server }
{
    let mut holders = ServerSet::empty();
    for (_, suite) in suites {
        holders.unite(&suite.lock_holders());
    }
    holders
}
