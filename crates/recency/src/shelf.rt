//! The shelf.

ghost use Rattle.std.specs.Prelude.{◌≡◌, ◌<◌, is_some, slice_index_or, None};

use crate::rings::Rings;
use std::alloc::{AllocError, Global};
use std::marker::Model;
use std::mem;

/// The number of a slot, below the shelf's slots.
pub type Slot = usize;

/// How many sites there are: their numbers are below it.
const SITES: usize = 16;

/// Values of sites, from the newest to the oldest.
#[derive(Drop)]
pub struct Shelf<V> {
    rings: Rings,
    values: Vec<Option<V>>,
    counts: [usize; SITES],
}

impl<V> Model for Shelf<V> {
    ghost use Rattle.recency.specs.Shelf.{Shelf, shelf_in};
    ghost use Rattle.recency.specs.Held.{IsHeld};

    ghost Value = { Shelf V };

    ghost view = { λ shelf. shelf_in shelf.rings shelf.values.items };

    ghost invariant = { λ shelf. IsHeld shelf.rings shelf.values.items shelf.counts };
}

/// Whether a slot holds a value.
fn holds<V>(values: &Vec<Option<V>>, slot: Slot) -> bool
    ensures { result ≡ is_some (slice_index_or values.now.items slot None) }
{
    slot < values.len() && values[slot].is_some()
}

impl<V> Shelf<V> {
    ghost use Rattle.std.specs.Prelude.{◌≡◌, ◌<◌, ◌∷◌, [], length, IfOk, IfErr, is_some, option_map};
    ghost use Rattle.std.specs.Option.{option_copied};
    ghost use Rattle.recency.specs.Shelf.{Shelf as Entries, Entry, IsValid, entry_of, value_of, older_than, without, touched, of_site, max_sites};
    ghost use Rattle.recency.specs.Order.{first_of, last_of};

    /// An empty shelf of so many slots. It takes all the memory that the shelf ever takes.
    pub fn new(alloc: Global, slots: usize) -> Result<Shelf<V>, AllocError>
    where
        V: Drop,
        ensures { IfOk result (λ shelf. shelf ≡ record { slots = slots; entries = [] }) }
    {
        let rings = Rings::new(alloc, slots)?;
        let mut values = Vec::with_capacity(alloc, slots)?;
        for _ in 0..slots {
            values.push_reserved(None);
        }
        Ok(Shelf {
            rings,
            values,
            counts: [0; SITES],
        })
    }

    /// A law: each slot holds one value at most, slots and sites are below their numbers. It does nothing.
    pub fn is_valid(&self)
        ensures { IsValid self.now }
    {
        let _ = &self.values;
    }

    /// Puts a value for a site, as the newest, into a free slot. Where there is none it comes back.
    pub fn put(&mut self, site: u8, value: V) -> Result<Slot, V>
    where
        V: Drop,
        requires { site < max_sites }
        ensures ok { IfOk result (λ slot. self.new ≡ record self.old { entries = record { slot = slot; site = site; value = value } ∷ self.old.entries }) }
        ensures room { IfOk result (λ slot. length self.old.entries < self.old.slots) }
        ensures full { IfErr result (λ back. (back ≡ value) × (self.new ≡ self.old) × (length self.old.entries ≡ self.old.slots)) }
    {
        let Some(slot) = self.rings.put(site as usize) else {
            return Err(value);
        };
        let _none = mem::replace(&mut self.values[slot], Some(value));
        self.counts[site as usize] += 1;
        Ok(slot)
    }

    /// Makes the value in a slot the newest, and returns whether there is one.
    pub fn touch(&mut self, slot: Slot) -> bool
        ensures value { result ≡ is_some (entry_of slot self.old.entries) }
        ensures entries { self.new ≡ record self.old { entries = touched slot self.old.entries } }
    {
        if !holds(&self.values, slot) {
            return false;
        }
        self.rings.touch(slot);
        true
    }

    /// Takes the value out of a slot, which is then free.
    pub fn take(&mut self, slot: Slot) -> Option<V>
        ensures value { result ≡ value_of slot self.old.entries }
        ensures entries { self.new ≡ record self.old { entries = without slot self.old.entries } }
    {
        if !holds(&self.values, slot) {
            return None;
        }
        let site = self.rings.take(slot);
        self.counts[site] -= 1;
        self.values[slot].take()
    }

    /// The value in a slot.
    pub fn get(&self, slot: Slot) -> Option<&V>
        ensures { option_copied result ≡ value_of slot self.now.entries }
    {
        self.values.get(slot)?.as_ref()
    }

    /// The slot of the newest value.
    pub fn newest(&self) -> Option<Slot>
        ensures { result ≡ option_map (λ entry. entry.slot) (first_of self.now.entries) }
    {
        self.rings.newest()
    }

    /// The slot of the next older value than that in a slot.
    pub fn older(&self, slot: Slot) -> Option<Slot>
        ensures { result ≡ option_map (λ entry. entry.slot) (older_than slot self.now.entries) }
    {
        if !holds(&self.values, slot) {
            return None;
        }
        self.rings.older(slot)
    }

    /// The slot of the oldest value.
    pub fn oldest(&self) -> Option<Slot>
        ensures { result ≡ option_map (λ entry. entry.slot) (last_of self.now.entries) }
    {
        self.rings.oldest()
    }

    /// The slot of a site's oldest value.
    pub fn oldest_of(&self, site: u8) -> Option<Slot>
        requires { site < max_sites }
        ensures { result ≡ option_map (λ entry. entry.slot) (last_of (of_site site self.now.entries)) }
    {
        self.rings.oldest_of(site as usize)
    }

    /// How many values a site has.
    pub fn len_of(&self, site: u8) -> usize
        requires { site < max_sites }
        ensures { result ≡ length (of_site site self.now.entries) }
    {
        self.counts[site as usize]
    }
}
