//! The cache of an agent's sites.

ghost use Rattle.std.specs.Prelude.{◌≡◌, ◌<◌, ◌≤◌, IfOk, OnOk, OnErr, IsOk, IsSome, IsTrue, None, [], false};
ghost use Rattle.std.specs.Option.{option_copied, SomeIff};
ghost use Rattle.std.specs.Borrow.{sem};
ghost use Rattle.weak_cache.specs.Entries.{is_of};
ghost use Rattle.weak_cache.specs.NewEntry.{new_entry};

use crate::entry::{SizedEntry, size_within};
use crate::stock::{Beside, Entries, Stock};
use std::alloc::{AllocError, Global};
use std::marker::Model;
use suite_content::Content;
use suite_prefix::SharedPrefix;

/// How many sites an agent has at most: their numbers are below it.
pub const MAX_SITES: u8 = 16;

/// What an agent's sites keep of suites: for each a prefix that it had, and the content that it had at a
/// version. What was used last is let go last.
#[derive(Drop)]
pub struct WeakCache {
    budget: usize,
    quota: usize,
    slots: usize,
    entries: Stock,
}

/// An entry that may be put: of which site and suite, with which prefix, and a content at its version.
#[derive(Clone, Copy)]
pub struct NewEntry<'a> {
    pub site: u8,
    pub suite: u64,
    pub prefix: &'a SharedPrefix,
    pub dver: u64,
    pub content: &'a Content,
}

impl Model for WeakCache {
    ghost use Rattle.weak_cache.specs.Cache.{Limited, IsWithin};
    ghost use Rattle.weak_cache.specs.code.CacheView.{limited_in};

    ghost Value = { Limited };

    ghost view = { limited_in };

    ghost invariant = { λ fields. IsWithin (limited_in fields) };
}

impl WeakCache {
    ghost use Rattle.weak_cache.specs.Cache.{IsWithin, hint, version, has_room, put, searched, content_at};
    ghost use Rattle.weak_cache.specs.Entries.{size_of, keys_of, forgotten, keeps, entry_of, entry_with, max_sites};
    ghost use Rattle.weak_cache.specs.Loans.{EndsWith};
    ghost use Rattle.weak_cache.specs.code.Beside.{room_beside};

    /// A cache without entries. All sites together may keep as many bytes as the budget says, each site
    /// as many as the quota, and there may be as many entries as there are slots.
    pub fn new(
        alloc: Global,
        budget: usize,
        quota: usize,
        slots: usize,
    ) -> Result<WeakCache, AllocError>
        ensures { IfOk result (λ cache. cache ≡ record { limits = record { budget = budget; quota = quota; slots = slots }; entries = [] }) }
    {
        let entries = Stock::new(alloc, slots)?;
        Ok(WeakCache {
            budget,
            quota,
            slots,
            entries,
        })
    }

    /// An equal cache: the same entries in the same order, within the same limits. It takes memory of its own, so
    /// what is asked of one of them says nothing of the other; bytes, names and prefixes are shared.
    pub fn copy(&self) -> Result<WeakCache, AllocError>
        ensures { IfOk result (λ copy. copy ≡ self.now) }
    {
        let entries = self.entries.copy(self.budget)?;
        Ok(WeakCache {
            budget: self.budget,
            quota: self.quota,
            slots: self.slots,
            entries,
        })
    }

    /// A law: a cache is within its budget, each site within the quota, and each suite is kept once at a
    /// site. It does nothing.
    pub fn is_within(&self)
        ensures { IsWithin self.now }
    {
        let _ = &self.entries;
    }

    /// Of which sites and suites there are entries, the newest first.
    pub fn entries(&self) -> Entries<'_>
        ensures { result ≡ keys_of self.now.entries }
    {
        self.entries.keys()
    }

    /// Whether another has the same entries in the same order. Where it is told, it is so.
    pub fn same_entries(&self, other: &WeakCache) -> bool
        ensures { IsTrue result → self.now.entries ≡ other.now.entries }
    {
        self.entries.same(&other.entries)
    }

    /// The prefix that a site keeps of a suite.
    pub fn hint(&self, site: u8, suite: u64) -> Option<&SharedPrefix>
        ensures { option_copied result ≡ hint self.now.entries site suite }
    {
        self.entries.find(site, suite).map(|entry| entry.prefix())
    }

    /// The version of the content that a site keeps of a suite.
    pub fn version(&self, site: u8, suite: u64) -> Option<u64>
        ensures { result ≡ version self.now.entries site suite }
    {
        self.entries.find(site, suite).map(|entry| entry.dver())
    }

    /// The content that a site keeps of a suite, if it is of this version. It is the newest then.
    pub fn content_at(&mut self, site: u8, suite: u64, dver: u64) -> Option<&Content>
        ensures* after { sem 𝓛 (EndsWith self.entry (searched site suite dver self.old.entries)) }
        ensures value { option_copied result ≡ content_at self.old.entries site suite dver }
    {
        if !self.entries.search(site, suite, dver) {
            return None;
        }
        Some(self.entries.newest()?.content())
    }

    /// The content that a site keeps of a suite, if it is of this version. Nothing moves.
    pub fn content(&self, site: u8, suite: u64, dver: u64) -> Option<&Content>
        ensures { option_copied result ≡ content_at self.now.entries site suite dver }
    {
        self.entries.find(site, suite)?.content_at(dver)
    }

    /// The content that would be found once an entry was put, of a site and suite at this version. It
    /// changes nothing and takes no memory.
    pub fn content_beside<'a>(
        &'a self,
        new: NewEntry<'a>,
        site: u8,
        suite: u64,
        dver: u64,
    ) -> Option<&'a Content>
        ensures { option_copied result ≡ content_at (put self.now.limits (new_entry new.entry) self.now.entries) site suite dver }
    {
        if !new.is_of(site, suite) {
            return self.other_beside(new, site, suite)?.content_at(dver);
        }
        self.size_in_room(new.content)?;
        (new.dver == dver).then_some(new.content)
    }

    /// The prefix that would be found once an entry was put, of a site and suite. It changes nothing and
    /// takes no memory.
    pub fn hint_beside<'a>(
        &'a self,
        new: NewEntry<'a>,
        site: u8,
        suite: u64,
    ) -> Option<&'a SharedPrefix>
        ensures { option_copied result ≡ hint (put self.now.limits (new_entry new.entry) self.now.entries) site suite }
    {
        if !new.is_of(site, suite) {
            return Some(self.other_beside(new, site, suite)?.prefix());
        }
        self.size_in_room(new.content)?;
        Some(new.prefix)
    }

    /// What another site, or the same of another suite, would keep once an entry was put.
    fn other_beside(&self, new: NewEntry<'_>, site: u8, suite: u64) -> Option<&SizedEntry>
        requires { is_of site suite (new_entry new) ≡ false }
        ensures { option_copied result ≡ entry_of (put self.now.limits (new_entry new.entry) self.now.entries) site suite }
    {
        let Some(size) = self.size_in_room(new.content) else {
            return self.entries.find(site, suite);
        };
        let beside = self.beside(new.site, new.suite, size);
        self.entries.find_beside(beside, site, suite)
    }

    /// Keeps a prefix and a content for a site, as the newest, in place of what it kept of the suite; if
    /// they are too large for that, nothing of the suite is kept. What has no room beside them is let go,
    /// the oldest first. Memory is taken only where the site kept nothing of the suite: for a slot more, and for
    /// the index, which may want it even where an old entry goes for the new one. An error leaves the cache as it
    /// was.
    pub fn put(
        &mut self,
        site: u8,
        suite: u64,
        prefix: SharedPrefix,
        dver: u64,
        content: Content,
    ) -> Result<(), AllocError>
        requires { site < max_sites }
        ensures ok { OnOk result (self.new ≡ record self.old { entries = put self.old.limits (entry_with site suite prefix dver content) self.old.entries }) }
        ensures err { OnErr result (self.new ≡ self.old) }
        ensures too_large { has_room self.old.limits content ≡ false → IsOk result }
        ensures memory { OnErr result (IsTrue (has_room self.old.limits content) × (entry_of self.old.entries site suite ≡ None)) }
        ensures kept { IsSome (entry_of self.old.entries site suite) → IsOk result }
    {
        let Some(size) = self.size_in_room(&content) else {
            self.entries.remove(site, suite);
            return Ok(());
        };
        let entry = SizedEntry {
            site,
            suite,
            prefix,
            dver,
            content,
            size,
        };
        self.entries.put(entry, self.quota, self.budget, self.slots)
    }

    /// The room beside an entry of this size that is put.
    fn beside(&self, site: u8, suite: u64, size: usize) -> Beside
        requires room { (size ≤ self.now.limits.budget) × (size ≤ self.now.limits.quota) }
        requires slot { 0 < self.now.limits.slots }
        ensures { result ≡ room_beside self.now.limits site suite size }
    {
        Beside {
            site,
            suite,
            quota: self.quota - size,
            budget: self.budget - size,
            slots: self.slots - 1,
        }
    }

    /// The size of a content that has room at all.
    fn size_in_room(&self, content: &Content) -> Option<usize>
        ensures { SomeIff result (IsTrue (has_room self.now.limits content.now)) (size_of content.now) }
    {
        if self.slots == 0 {
            return None;
        }
        size_within(content, self.budget.min(self.quota))
    }

    /// Whether a site keeps anything.
    pub fn keeps(&self, site: u8) -> bool
        ensures { result ≡ keeps site self.now.entries }
    {
        self.entries().any(|(own, _)| own == site)
    }

    /// Lets go what a site keeps.
    pub fn forget(&mut self, site: u8)
        ensures { self.new ≡ record self.old { entries = forgotten site self.old.entries } }
    {
        self.entries.forget(site);
    }
}

impl<'a> NewEntry<'a> {
    /// Whether it is of this site and this suite.
    fn is_of(self, site: u8, suite: u64) -> bool
        ensures { result ≡ is_of site suite (new_entry self.entry) }
    {
        self.site == site && self.suite == suite
    }
}
