//! The entries of a cache, the newest first, as its calls see them. Nothing else knows how they are kept.

ghost use Rattle.std.specs.Prelude.{◌≡◌, ◌↔◌, ◌==◌, ◌&&◌, ◌≤◌, ◌<◌, ◌+◌, ◌^◌, ◌∷◌, [], length, IfOk, OnOk, OnErr, IsOk, IsSome, IsTrue, slice_get, is_some, false};
ghost use Rattle.std.specs.Option.{option_copied};
ghost use Rattle.recency.specs.Order.{last_of};
ghost use Rattle.weak_cache.specs.Entries.{Cache, size_of, sum_of, list_of, forgotten, entry_of, without, keys_of};
ghost use Rattle.weak_cache.specs.Cache.{content_at, searched, within_quota, within_budget};
ghost use Rattle.weak_cache.specs.code.Beside.{room_after, stays};
ghost use Rattle.weak_cache.specs.code.Shelved.{HaveSame};

use crate::entry::SizedEntry;
use crate::kept::Kept;
use recency::{Shelf, Slot};
use std::alloc::{AllocError, Global};
use std::marker::Model;

/// For how many entries there is room at first.
const FIRST_ROOM: usize = 16;

/// The sites and suites of a cache's entries that are still to come, the newest first.
#[derive(Drop)]
pub struct Entries<'a> {
    shelf: &'a Shelf<SizedEntry>,
    first: Option<Slot>,
}

impl<'a> Model for Entries<'a> {
    ghost use Rattle.std.specs.Prelude.{ℕ, List};
    ghost use Rattle.recency.specs.Shelf.{IsValid};
    ghost use Rattle.weak_cache.specs.Entries.{keys_of};
    ghost use Rattle.weak_cache.specs.code.Shelved.{from_on, values};

    ghost Value = { List (ℕ × ℕ) };

    ghost view = { λ entries. keys_of (values (from_on entries.first entries.shelf.now.entries)) };

    ghost invariant = { λ entries. IsValid entries.shelf.now };
}

impl<'a> Iterator for Entries<'a> {
    type Item = (u8, u64);

    ghost use Rattle.std.specs.Iterator.{YieldsFirst, item_count};

    ghost next_gives = { YieldsFirst (λ entries. entries) };

    ghost remaining = { item_count (λ entries. entries) };

    fn next(&mut self) -> Option<(u8, u64)> {
        let slot = self.first?;
        let entry = self.shelf.get(slot)?;
        self.first = self.shelf.older(slot);
        Some(entry.key())
    }
}

/// What a put of an entry leaves to the others: of which site and suite it is, and how much room there is
/// beside it.
#[derive(Clone, Copy)]
pub(crate) struct Beside {
    pub(crate) site: u8,
    pub(crate) suite: u64,
    pub(crate) quota: usize,
    pub(crate) budget: usize,
    pub(crate) slots: usize,
}

/// The entries of a cache, the newest first.
#[derive(Drop)]
pub(crate) struct Stock {
    kept: Kept,
}

impl Model for Stock {
    ghost use Rattle.weak_cache.specs.Entries.{Cache};
    ghost use Rattle.weak_cache.specs.code.Shelved.{IsKept, values};

    ghost Value = { Cache };

    ghost view = { λ stock. values stock.kept.shelf.entries };

    ghost invariant = { λ stock. IsKept stock.kept };
}

impl Stock {
    /// No entries, with room for the first of so many, and one that is put before another goes for it.
    pub(crate) fn new(alloc: Global, slots: usize) -> Result<Stock, AllocError>
        ensures { IfOk result (λ stock. stock ≡ []) }
    {
        let kept = Kept::new(alloc, slots.min(FIRST_ROOM) + 1)?;
        Ok(Stock { kept })
    }

    /// The same entries in the same order, where their contents take so many bytes at most.
    pub(crate) fn copy(&self, budget: usize) -> Result<Stock, AllocError>
        requires { sum_of self.now ≤ budget }
        ensures { IfOk result (λ copy. copy ≡ self.now) }
    {
        let kept = self.kept.copy()?;
        Ok(Stock { kept })
    }

    /// The sites and suites of the entries.
    pub(crate) fn keys(&self) -> Entries<'_>
        ensures { result ≡ keys_of self.now }
    {
        let shelf = &self.kept.shelf;
        shelf.is_valid();
        Entries {
            shelf,
            first: shelf.newest(),
        }
    }

    /// What a site keeps of a suite.
    pub(crate) fn find(&self, site: u8, suite: u64) -> Option<&SizedEntry>
        ensures { option_copied result ≡ entry_of self.now site suite }
    {
        self.kept.shelf.is_valid();
        let slot = self.kept.slot_of(site, suite)?;
        self.kept.shelf.get(slot)
    }

    /// What a site would keep of a suite beside an entry of another key that is put, where there is at most one slot
    /// too few. Where all have room in bytes, no more than the oldest goes.
    pub(crate) fn find_beside(&self, new: Beside, site: u8, suite: u64) -> Option<&SizedEntry>
        requires other { ((new.site == site) && (new.suite == suite)) ≡ false }
        requires few { length self.now ≤ new.slots + 1 }
        ensures { option_copied result ≡ entry_of (stays new.site new.suite new.quota new.budget new.slots self.now) site suite }
    {
        let found = self.find(site, suite)?;
        if !self.all_have_bytes(new) {
            return self.search_beside(new, site, suite);
        }
        let is_full = self.kept.tally.count > new.slots;
        if is_full
            && self.find(new.site, new.suite).is_none()
            && self.oldest()?.is_of(site, suite)
        {
            return None;
        }
        Some(found)
    }

    /// Whether all entries together have this room in bytes, and those of the site.
    fn all_have_bytes(&self, new: Beside) -> bool
        ensures { IsTrue result ↔ ((sum_of self.now ≤ new.budget) × (sum_of (list_of new.site self.now) ≤ new.quota)) }
    {
        self.kept.tally.sum <= new.budget as u128 && self.kept.sum_at(new.site) <= new.quota as u128
    }

    /// What a site would keep of a suite beside an entry that is put: the entries are gone through, and what
    /// room each leaves.
    fn search_beside(&self, new: Beside, site: u8, suite: u64) -> Option<&SizedEntry>
        ensures { option_copied result ≡ entry_of (stays new.site new.suite new.quota new.budget new.slots self.now) site suite }
    {
        let shelf = &self.kept.shelf;
        shelf.is_valid();
        let mut quota = Some(new.quota);
        let mut budget = new.budget;
        let mut slots = new.slots;
        let mut next = shelf.newest();
        while let Some(slot) = next {
            let Some(entry) = shelf.get(slot) else {
                return None;
            };
            next = shelf.older(slot);
            if entry.is_of(new.site, new.suite) {
                continue;
            }
            if entry.is_at(new.site) {
                quota = quota_after(quota, entry.size());
                if quota.is_none() {
                    continue;
                }
            }
            if slots == 0 || budget < entry.size() {
                return None;
            }
            if entry.is_of(site, suite) {
                return Some(entry);
            }
            slots -= 1;
            budget -= entry.size();
        }
        None
    }

    /// Looks for a content of a site and suite at a version, and makes what was found the newest.
    pub(crate) fn search(&mut self, site: u8, suite: u64, dver: u64) -> bool
        ensures found { result ≡ is_some (content_at self.old site suite dver) }
        ensures entries { self.new ≡ searched site suite dver self.old }
    {
        self.kept.shelf.is_valid();
        let Some(slot) = self.kept.slot_of(site, suite) else {
            return false;
        };
        let Some(entry) = self.kept.shelf.get(slot) else {
            unreachable!();
        };
        if !entry.is_at_version(dver) {
            return false;
        }
        self.kept.shelf.touch(slot)
    }

    /// Whether another has the same entries in the same order. Where it is told, it is so.
    pub(crate) fn same(&self, other: &Stock) -> bool
        ensures { IsTrue result → self.now ≡ other.now }
    {
        let own = &self.kept.shelf;
        let theirs = &other.kept.shelf;
        own.is_valid();
        theirs.is_valid();
        let mut own_next = own.newest();
        let mut their_next = theirs.newest();
        while let Some(slot) = own_next {
            let Some(place) = their_next else {
                return false;
            };
            if !same_at(own, slot, theirs, place) {
                return false;
            }
            own_next = own.older(slot);
            their_next = theirs.older(place);
        }
        their_next.is_none()
    }

    /// The newest entry.
    pub(crate) fn newest(&self) -> Option<&SizedEntry>
        ensures { option_copied result ≡ slice_get self.now 0 }
    {
        self.kept.shelf.is_valid();
        let slot = self.kept.shelf.newest()?;
        self.kept.shelf.get(slot)
    }

    /// The oldest entry.
    fn oldest(&self) -> Option<&SizedEntry>
        ensures { option_copied result ≡ last_of self.now }
    {
        self.kept.shelf.is_valid();
        let slot = self.kept.shelf.oldest()?;
        self.kept.shelf.get(slot)
    }

    /// Lets go what a site keeps of a suite.
    pub(crate) fn remove(&mut self, site: u8, suite: u64)
        ensures { self.new ≡ without site suite self.old }
    {
        self.kept.remove(site, suite);
    }

    /// Lets go what a site keeps.
    pub(crate) fn forget(&mut self, site: u8)
        ensures { self.new ≡ forgotten site self.old }
    {
        self.kept.forget(site);
    }

    /// Makes an entry the newest, in place of what its site kept of its suite. Then its site's oldest go until
    /// they are within the quota, and the oldest of all until they are within the budget and the slots.
    pub(crate) fn put(
        &mut self,
        entry: SizedEntry,
        quota: usize,
        budget: usize,
        slots: usize,
    ) -> Result<(), AllocError>
        requires site { entry.site < 16 }
        requires sum { sum_of self.old + size_of entry.content < 2 ^ 128 }
        ensures ok { OnOk result (self.new ≡ within_budget budget slots (within_quota entry.site quota (entry ∷ without entry.site entry.suite self.old))) }
        ensures err { OnErr result (self.new ≡ self.old) }
        ensures kept { IsSome (entry_of self.old entry.site entry.suite) → IsOk result }
    {
        let site = entry.site();
        self.kept.put(entry)?;
        self.kept.keep_in_quota(site, quota);
        self.kept.keep_in_budget(budget, slots);
        Ok(())
    }
}

/// Whether the same entry stands at these slots.
fn same_at(own: &Shelf<SizedEntry>, slot: Slot, theirs: &Shelf<SizedEntry>, place: Slot) -> bool
    ensures { IsTrue result → HaveSame own.now.entries slot theirs.now.entries place }
{
    match (own.get(slot), theirs.get(place)) {
        (Some(own), Some(theirs)) => own.same(theirs),
        _ => false,
    }
}

/// What so many bytes leave of a room, if there is still one and they have room there.
const fn quota_after(room: Option<usize>, size: usize) -> Option<usize>
    ensures { result ≡ room_after room size }
{
    match room {
        Some(room) => room.checked_sub(size),
        None => None,
    }
}
