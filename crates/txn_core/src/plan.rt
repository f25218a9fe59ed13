//! What an execution sets, found before anything is set.

ghost use Rattle.std.specs.Prelude.{◌≡◌, IfOk, OnOk, option_map};
ghost use Rattle.std.specs.Option.{option_copied};
ghost use Rattle.std.specs.Ordering.{nat_cmp};
ghost use Rattle.sorted_map.specs.SortedMap.{IsOrdered};
ghost use Rattle.txn_core.specs.code.Planning.{IsPlanFor, IsPlayedFor, IsReachedWith, all_seen, answer_of, fixed_at, new_at};
ghost use Rattle.txn_core.specs.code.Plans as spec;
ghost use Rattle.txn_core.specs.Suites.{suite_of};
ghost use Rattle.txn_core.specs.Transactions.{free_content, start_from};
ghost use Rattle.txn_core.specs.code.Reaching.{IsReachedIn, IsReachedOn};
ghost use Rattle.txn_core.specs.code.Seeing.{seen_in};
ghost use Rattle.txn_core.specs.code.Unused.{HasUnused};

use crate::cache_after::CacheAfter;
use crate::execution::Execution;
use crate::knowing::known_of;
use crate::suites::GatheredSuite;
use crate::suites_after::SuitesAfter;
use file_exec::{Known, Need, Outcome, Progress, exec};
use std::alloc::AllocError;
use suite_collect::ReadPoint;
use suite_content::Content;
use suite_prefix::SharedPrefix;

/// What an execution sets, found before anything is set.
#[derive(Drop)]
pub(crate) struct Plan {
    /// The contents that are to be had without asking, in the order in which they are needed.
    pub(crate) opened: Vec<(u64, Content)>,
    /// What the transaction comes to with them.
    pub(crate) outcome: Outcome,
    /// The suite that is needed then, where it was not asked for yet.
    pub(crate) new: Option<GatheredSuite>,
}

impl<'a> Execution<'a> {
    /// The plan of an execution, which goes on from where the transaction came. Nothing else is changed.
    pub(crate) fn plan(
        self,
        after: SuitesAfter<'_>,
        cache_after: CacheAfter<'_>,
        progress: &mut Progress,
    ) -> Result<Plan, AllocError>
        requires unused { HasUnused (spec.entries_on cache_after) }
        requires reached { IsReachedIn self.fixed_parts.now self.task.now after.suites.now.pairs progress.old }
        ensures ordered { OnOk result (IsOrdered nat_cmp after.entry.suites.now.pairs) }
        ensures plan { IfOk result (λ plan. IsPlanFor self.entry cache_after.entry after.entry plan) }
        ensures reached { IfOk result (λ plan. IsReachedWith self.entry cache_after.entry after.entry plan.opened.items progress.new) }
    {
        let (opened, outcome) = self.execute_opening(after, cache_after, progress)?;
        let new = self.new_for(after, cache_after, &outcome)?;
        Ok(Plan {
            opened,
            outcome,
            new,
        })
    }

    /// Executes the transaction, opens what it needs and is to be had without asking, and goes on.
    fn execute_opening(
        self,
        after: SuitesAfter<'_>,
        cache_after: CacheAfter<'_>,
        progress: &mut Progress,
    ) -> Result<(Vec<(u64, Content)>, Outcome), AllocError>
        requires { IsReachedIn self.fixed_parts.now self.task.now after.suites.now.pairs progress.old }
        ensures reached { IfOk result (λ played. IsReachedWith self.entry cache_after.entry after.entry played.0.items progress.new) }
        ensures ordered { OnOk result (IsOrdered nat_cmp after.entry.suites.now.pairs) }
        ensures played { IfOk result (λ played. IsPlayedFor self.entry cache_after.entry after.entry played.0.items played.1) }
    {
        let mut known = known_of(self.alloc, self.fixed_parts, after)?;
        if !after.just_learned.adds_to(after.suites) {
            *progress = Progress::new(self.alloc);
        }
        let mut opened = Vec::new(self.alloc);
        for _ in 0..after.len() {
            let outcome = self.answer_on(&known, progress)?;
            let Some((number, content)) = self.to_open(after, cache_after, &outcome) else {
                return Ok((opened, outcome));
            };
            // With a content that it takes more is known of a suite; with any other something else.
            if !known.takes(number, content) {
                *progress = Progress::new(self.alloc);
            }
            known.open(number, content);
            opened.push((number, content.clone()?))?;
        }
        let outcome = self.answer_on(&known, progress)?;
        Ok((opened, outcome))
    }

    /// What the executor answers on what is known, from where it came.
    fn answer_on(self, known: &Known<'_>, progress: &mut Progress) -> Result<Outcome, AllocError>
        requires { IsReachedOn known.now self.task.now progress.old }
        ensures answer { IfOk result (λ outcome. outcome ≡ answer_of self.entry.task.now known.now) }
        ensures reached { IsReachedOn known.now self.entry.task.now progress.new }
    {
        let task = self.task;
        task.facts();
        exec(known, task.t, &task.caller, task.ops.as_slice(), progress)
    }

    /// The content that is needed, where it is to be had without asking.
    fn to_open(
        self,
        after: SuitesAfter<'_>,
        cache_after: CacheAfter<'a>,
        outcome: &Outcome,
    ) -> Option<(u64, &'a Content)>
        ensures { option_map (λ one. (one.0, one.1.now)) result ≡ spec.to_open self.entry.task.now (all_seen cache_after.entry after.entry) outcome.now }
    {
        let Outcome::Need(Need::Know(number)) = outcome else {
            return None;
        };
        let content = self.free_of(after, cache_after, *number)?;
        Some((*number, content))
    }

    /// The content of a suite, where it is to be had without asking.
    fn free_of(
        self,
        after: SuitesAfter<'_>,
        cache_after: CacheAfter<'a>,
        number: u64,
    ) -> Option<&'a Content>
        ensures { option_copied result ≡ spec.free_of self.entry.task.now (spec.entries_on cache_after.entry) number (suite_of (seen_in after.entry) number) }
    {
        let first = after.first(number)?;
        self.free_content(cache_after, number, first)
    }

    /// An empty content of version 0, or one of the cache.
    fn free_content(
        self,
        cache_after: CacheAfter<'a>,
        number: u64,
        first: &ReadPoint,
    ) -> Option<&'a Content>
        ensures { option_copied result ≡ free_content self.entry.task.now (spec.entries_on cache_after.entry) number first.now }
    {
        if first.dver == 0 {
            let empty = self.fixed_parts.empty();
            return Some(empty.content(first.prefix.kind.held()));
        }
        let task = self.task;
        cache_after.content(task.site, number, first.dver)
    }

    /// The suite that is needed, where it was not asked for yet.
    fn new_for(
        self,
        after: SuitesAfter<'_>,
        cache_after: CacheAfter<'_>,
        outcome: &Outcome,
    ) -> Result<Option<GatheredSuite>, AllocError>
        requires { HasUnused (spec.entries_on cache_after) }
        ensures { IfOk result (λ new. new ≡ new_at self.entry cache_after.entry after.entry outcome.now) }
    {
        let Outcome::Need(Need::Hold(number, mode)) = outcome else {
            return Ok(None);
        };
        if after.contains(*number) {
            return Ok(None);
        }
        let task = self.task;
        let start = self.start_of(cache_after, *number).clone()?;
        let suite = GatheredSuite::new(self.alloc, task.t, *number, *mode, start)?;
        Ok(Some(suite))
    }

    /// From which prefix a suite is gathered: the site's hint, or that of what was never made.
    fn start_of(self, cache_after: CacheAfter<'a>, number: u64) -> &'a SharedPrefix
        ensures { result.now ≡ start_from (fixed_at self.entry cache_after.entry) self.entry.task.now (spec.entries_on cache_after.entry) number }
    {
        let task = self.task;
        match cache_after.hint(task.site, number) {
            Some(prefix) => prefix,
            None => self.fixed_parts.absent(),
        }
    }
}
