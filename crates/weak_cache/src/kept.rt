//! The entries of a cache on a shelf, the index of their slots, and what is counted of them.

ghost use Rattle.std.specs.Prelude.{◌≡◌, ◌<◌, ◌≤◌, ◌+◌, ◌^◌, ◌⊎◌, ◌∷◌, [], length, None, IfOk, OnOk, OnErr, IsOk, IsSome, true, false};
ghost use Rattle.indexmap.specs.IndexMap.{spare};
ghost use Rattle.recency.specs.Shelf.{value_of, without as without_slot};
ghost use Rattle.weak_cache.specs.Entries.{size_of, sum_of, list_of, forgotten, entry_of, without};
ghost use Rattle.weak_cache.specs.Cache.{within_quota, within_budget};
ghost use Rattle.weak_cache.specs.code.Shelved.{IsKept, slot_in, values};

use crate::cache::MAX_SITES;
use crate::entry::SizedEntry;
use crate::tally::Sums;
use indexmap::IndexMap;
use recency::{Shelf, Slot};
use std::alloc::{AllocError, Global};

/// Entries on a shelf of so many slots, with the slots of their sites and suites, and their counts.
#[derive(Drop)]
pub(crate) struct Kept {
    pub(crate) alloc: Global,
    pub(crate) shelf: Shelf<SizedEntry>,
    pub(crate) slots: usize,
    pub(crate) index: IndexMap<(u8, u64), Slot>,
    pub(crate) tally: Sums,
}

impl Kept {
    /// No entries, and so many slots.
    pub(crate) fn new(alloc: Global, slots: usize) -> Result<Kept, AllocError>
        ensures kept { IfOk result (λ kept. IsKept kept × (kept.shelf.entries ≡ [])) }
        ensures room { IfOk result (λ kept. (kept.slots ≡ slots) × (slots ≤ spare kept.index)) }
    {
        let shelf = Shelf::new(alloc, slots)?;
        let index = IndexMap::with_capacity(alloc, slots)?;
        Ok(Kept {
            alloc,
            shelf,
            slots,
            index,
            tally: Sums::new(),
        })
    }

    /// An equal one: the same entries in the same order, on a shelf of as many slots.
    pub(crate) fn copy(&self) -> Result<Kept, AllocError>
        requires kept { IsKept self.now }
        requires sum { sum_of (values self.now.shelf.entries) < 2 ^ 128 }
        ensures kept { IfOk result IsKept }
        ensures entries { IfOk result (λ copy. values copy.shelf.entries ≡ values self.now.shelf.entries) }
    {
        self.shelf.is_valid();
        let mut left = self.copies()?;
        let mut copy = Kept::new(self.alloc, self.slots)?;
        while let Some(entry) = left.pop() {
            copy.add(entry)?;
        }
        Ok(copy)
    }

    /// Copies of the entries, the newest first.
    fn copies(&self) -> Result<Vec<SizedEntry>, AllocError>
        ensures { IfOk result (λ copies. copies.items ≡ values self.now.shelf.entries) }
    {
        self.shelf.is_valid();
        let mut copies = Vec::new(self.alloc);
        let mut next = self.shelf.newest();
        while let Some(slot) = next {
            let Some(entry) = self.shelf.get(slot) else {
                return Err(AllocError);
            };
            next = self.shelf.older(slot);
            copies.push(entry.clone()?)?;
        }
        Ok(copies)
    }

    /// The slot of what a site keeps of a suite.
    pub(crate) fn slot_of(&self, site: u8, suite: u64) -> Option<Slot>
        requires { IsKept self.now }
        ensures { result ≡ slot_in site suite self.now.shelf.entries }
    {
        self.index.get(&(site, suite)).copied()
    }

    /// How many bytes the contents of a site take.
    pub(crate) fn sum_at(&self, site: u8) -> u128
        requires { IsKept self.now }
        ensures { result ≡ sum_of (list_of site (values self.now.shelf.entries)) }
    {
        self.shelf.is_valid();
        if site >= MAX_SITES {
            return 0;
        }
        self.tally.sum_at(site)
    }

    /// Takes an entry out of its slot.
    fn let_go(&mut self, slot: Slot)
        requires kept { IsKept self.old }
        requires there { IsSome (value_of slot self.old.shelf.entries) }
        ensures kept { IsKept self.new }
        ensures gone { self.new.shelf.entries ≡ without_slot slot self.old.shelf.entries }
    {
        self.shelf.is_valid();
        let Some(entry) = self.shelf.take(slot) else {
            unreachable!();
        };
        self.index.swap_remove(&entry.key());
        self.tally.sub(entry.site(), entry.size());
    }

    /// Lets go what a site keeps of a suite.
    pub(crate) fn remove(&mut self, site: u8, suite: u64)
        requires { IsKept self.old }
        ensures kept { IsKept self.new }
        ensures entries { values self.new.shelf.entries ≡ without site suite (values self.old.shelf.entries) }
    {
        self.shelf.is_valid();
        if let Some(slot) = self.slot_of(site, suite) {
            self.let_go(slot);
        }
    }

    /// Lets go what a site keeps.
    pub(crate) fn forget(&mut self, site: u8)
        requires { IsKept self.old }
        ensures kept { IsKept self.new }
        ensures entries { values self.new.shelf.entries ≡ forgotten site (values self.old.shelf.entries) }
    {
        self.shelf.is_valid();
        if site >= MAX_SITES {
            return;
        }
        while let Some(oldest) = self.shelf.oldest_of(site) {
            self.shelf.is_valid();
            self.let_go(oldest);
        }
    }

    /// Lets a site's oldest entries go until its others have this room together.
    pub(crate) fn keep_in_quota(&mut self, site: u8, room: usize)
        requires kept { IsKept self.old }
        requires site { site < 16 }
        ensures kept { IsKept self.new }
        ensures entries { values self.new.shelf.entries ≡ within_quota site room (values self.old.shelf.entries) }
    {
        while self.tally.sum_at(site) > room as u128 {
            let Some(oldest) = self.shelf.oldest_of(site) else {
                return;
            };
            self.shelf.is_valid();
            self.let_go(oldest);
        }
    }

    /// Lets the oldest entries go until the others have this room together, and these slots.
    pub(crate) fn keep_in_budget(&mut self, room: usize, slots: usize)
        requires { IsKept self.old }
        ensures kept { IsKept self.new }
        ensures entries { values self.new.shelf.entries ≡ within_budget room slots (values self.old.shelf.entries) }
    {
        while is_too_much(self.tally.sum, room, self.tally.count, slots) {
            let Some(oldest) = self.shelf.oldest() else {
                return;
            };
            self.shelf.is_valid();
            self.let_go(oldest);
        }
    }

    /// Makes an entry the newest, in place of what its site kept of its suite. Memory is taken only where
    /// nothing was kept. An error leaves the entries as they were.
    pub(crate) fn put(&mut self, entry: SizedEntry) -> Result<(), AllocError>
        requires kept { IsKept self.old }
        requires site { entry.site < 16 }
        requires sum { sum_of (values self.old.shelf.entries) + size_of entry.content < 2 ^ 128 }
        ensures kept { IsKept self.new }
        ensures ok { OnOk result (values self.new.shelf.entries ≡ entry ∷ without entry.site entry.suite (values self.old.shelf.entries)) }
        ensures err { OnErr result (values self.new.shelf.entries ≡ values self.old.shelf.entries) }
        ensures replaced { IsSome (entry_of (values self.old.shelf.entries) entry.site entry.suite) → IsOk result }
    {
        self.shelf.is_valid();
        if let Some(slot) = self.slot_of(entry.site(), entry.suite()) {
            self.replace(slot, entry);
            return Ok(());
        }
        self.make_room()?;
        self.add(entry)
    }

    /// Puts an entry in place of one of its site and suite.
    fn replace(&mut self, slot: Slot, entry: SizedEntry)
        requires kept { IsKept self.old }
        requires there { slot_in entry.site entry.suite self.old.shelf.entries ≡ Some slot }
        requires sum { sum_of (values self.old.shelf.entries) + size_of entry.content < 2 ^ 128 }
        requires site { entry.site < 16 }
        ensures kept { IsKept self.new }
        ensures entries { values self.new.shelf.entries ≡ entry ∷ without entry.site entry.suite (values self.old.shelf.entries) }
    {
        self.shelf.is_valid();
        let Some(old) = self.shelf.take(slot) else {
            unreachable!();
        };
        self.tally.sub(old.site(), old.size());
        self.tally.add(entry.site(), entry.size());
        let key = entry.key();
        let Ok(place) = self.shelf.put(entry.site(), entry) else {
            unreachable!();
        };
        let Ok(_) = self.index.insert(key, place) else {
            unreachable!();
        };
    }

    /// Adds an entry of a site and suite that has none, where a slot is free.
    fn add(&mut self, entry: SizedEntry) -> Result<(), AllocError>
        requires kept { IsKept self.old }
        requires none { entry_of (values self.old.shelf.entries) entry.site entry.suite ≡ None }
        requires room { length self.old.shelf.entries < self.old.slots }
        requires sum { sum_of (values self.old.shelf.entries) + size_of entry.content < 2 ^ 128 }
        requires site { entry.site < 16 }
        ensures kept { IsKept self.new }
        ensures ok { OnOk result (values self.new.shelf.entries ≡ entry ∷ values self.old.shelf.entries) }
        ensures err { OnErr result (values self.new.shelf.entries ≡ values self.old.shelf.entries) }
        ensures succeeds { 0 < spare self.old.index → IsOk result }
        ensures spare { spare self.old.index ≤ spare self.new.index + 1 }
        ensures slots { self.new.slots ≡ self.old.slots }
    {
        let key = entry.key();
        let site = entry.site();
        let size = entry.size();
        self.shelf.is_valid();
        let Ok(slot) = self.shelf.put(site, entry) else {
            unreachable!();
        };
        self.shelf.is_valid();
        let Ok(_) = self.index.insert(key, slot) else {
            self.shelf.take(slot);
            return Err(AllocError);
        };
        self.tally.add(site, size);
        Ok(())
    }

    /// Makes room for an entry more. An error leaves the entries as they were.
    fn make_room(&mut self) -> Result<(), AllocError>
        requires kept { IsKept self.old }
        requires sum { sum_of (values self.old.shelf.entries) < 2 ^ 128 }
        ensures kept { IsKept self.new }
        ensures entries { values self.new.shelf.entries ≡ values self.old.shelf.entries }
        ensures room { OnOk result (length self.new.shelf.entries < self.new.slots) }
    {
        if self.tally.count < self.slots {
            return Ok(());
        }
        self.widen()
    }

    /// All entries move to a shelf of twice as many slots. An error leaves them as they were.
    fn widen(&mut self) -> Result<(), AllocError>
        requires kept { IsKept self.old }
        requires sum { sum_of (values self.old.shelf.entries) < 2 ^ 128 }
        ensures kept { IsKept self.new }
        ensures entries { values self.new.shelf.entries ≡ values self.old.shelf.entries }
        ensures room { OnOk result (length self.new.shelf.entries < self.new.slots) }
    {
        self.shelf.is_valid();
        let Some(twice) = self.slots.checked_mul(2) else {
            return Err(AllocError);
        };
        let mut wider = Kept::new(self.alloc, twice.max(1))?;
        while let Some(oldest) = self.shelf.oldest() {
            self.shelf.is_valid();
            let Some(entry) = self.shelf.take(oldest) else {
                unreachable!();
            };
            let Ok(()) = wider.add(entry) else {
                unreachable!();
            };
        }
        *self = wider;
        Ok(())
    }
}

/// Whether so many bytes or so many entries are more than there may be.
const fn is_too_much(sum: u128, room: usize, count: usize, slots: usize) -> bool
    ensures above { result ≡ true → (room < sum) ⊎ (slots < count) }
    ensures within { result ≡ false → (sum ≤ room) × (count ≤ slots) }
{
    sum > room as u128 || count > slots
}
