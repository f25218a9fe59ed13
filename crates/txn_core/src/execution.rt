//! A transaction on what it gathered: all that it comes to is set, or nothing.

ghost use Rattle.std.specs.Prelude.{◌≡◌, ◌<◌, IfOk, IsSome, OnOk, OnErr};
ghost use Rattle.std.specs.Ordering.{nat_cmp};
ghost use Rattle.sorted_map.specs.SortedMap.{IsOrdered};
ghost use Rattle.txn_core.specs.code.Learning.{Fits, learned};
ghost use Rattle.txn_core.specs.code.Planning.{IsPlanBy, IsReachedAfter, executes, follows};
ghost use Rattle.txn_core.specs.code.Reaching.{IsReachedIn};
ghost use Rattle.txn_core.specs.code.Unused.{HasUnused};

use crate::cache_after::CacheAfter;
use crate::fixed_parts::FixedParts;
use crate::learned::Learned;
use crate::next_phase::NextPhase;
use crate::plan::Plan;
use crate::suites::GatheredSuite;
use crate::suites_after::SuitesAfter;
use crate::task::Task;
use file_exec::Progress;
use sorted_map::RoomyMap;
use std::alloc::{AllocError, Global};
use weak_cache::WeakCache;

/// What is executed: a transaction of a service.
#[derive(Clone, Copy)]
pub(crate) struct Execution<'a> {
    pub(crate) alloc: Global,
    pub(crate) fixed_parts: &'a FixedParts,
    pub(crate) task: &'a Task,
}

impl<'a> Execution<'a> {
    /// Executes the transaction on what it gathered and what it learned, from where it came when less was
    /// known. All that may fail comes first: an error leaves all as it was, but for what was reached.
    pub(crate) fn execute(
        self,
        suites: &mut RoomyMap<u64, GatheredSuite>,
        cache: &mut WeakCache,
        progress: &mut Progress,
        just_learned: Learned,
    ) -> Result<NextPhase, AllocError>
        requires reached { IsReachedIn self.fixed_parts.now self.task.now suites.old.pairs progress.old }
        requires hints { HasUnused cache.old.entries }
        requires fits { Fits just_learned }
        ensures ok { IfOk result (λ next. follows self.entry cache.new suites.new.pairs next ≡ executes self.entry cache.old just_learned suites.old.pairs) }
        ensures limits { cache.new.limits ≡ cache.old.limits }
        ensures unused { HasUnused cache.new.entries }
        ensures reached { IfOk result (λ _. IsReachedIn self.entry.fixed_parts.now self.entry.task.now suites.new.pairs progress.new) }
        ensures err { OnErr result ((suites.new.pairs ≡ suites.old.pairs) × (cache.new ≡ cache.old)) }
    {
        let plan = self.prepare(suites, cache, progress, &just_learned)?;
        just_learned.set(suites, cache)?;
        Ok(plan.carry_out(self.task, suites, cache))
    }

    /// The plan of an execution, and room for what it sets.
    fn prepare(
        self,
        suites: &mut RoomyMap<u64, GatheredSuite>,
        cache: &WeakCache,
        progress: &mut Progress,
        just_learned: &Learned,
    ) -> Result<Plan, AllocError>
        requires unused { HasUnused (learned just_learned.now cache.now suites.old.pairs).cache }
        requires reached { IsReachedIn self.fixed_parts.now self.task.now suites.old.pairs progress.old }
        ensures plan { IfOk result (λ plan. IsPlanBy self.entry cache.now just_learned.now suites.old.pairs plan) }
        ensures reached { IfOk result (λ plan. IsReachedAfter self.entry cache.now just_learned.now suites.old.pairs plan progress.new) }
        ensures ordered { OnOk result (IsOrdered nat_cmp suites.old.pairs) }
        ensures room { IfOk result (λ plan. IsSome plan.new → 0 < suites.new.room) }
        ensures pairs { suites.new.pairs ≡ suites.old.pairs }
    {
        let plan = self.plan(
            SuitesAfter {
                suites,
                just_learned,
            },
            CacheAfter {
                cache,
                fetched: just_learned.fetched(),
            },
            progress,
        )?;
        plan.make_room(suites)?;
        Ok(plan)
    }
}
