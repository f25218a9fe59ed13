//! What holds of every cache, whatever was asked of it.

ghost use Rattle.weak_cache.specs.Laws.{FoundWasPut, EntriesComeFromPuts, SearchKeepsAll};
ghost use Rattle.weak_cache.specs.LettingGo.{OldestGo};
ghost use Rattle.weak_cache.specs.SiteLists.{SiteLists};

/// A law: what is found in a cache that began without entries was put for that site and suite, a content
/// at that version, and since then nothing else was put for them and the site was not forgotten. It does
/// nothing.
pub fn found_was_put()
    ensures { FoundWasPut }
{}

/// A law: what a put of what has room at all leaves is what is there once the site's oldest went while
/// its sum was above the quota, and then the oldest of all while the whole sum was above the budget or
/// the count above the slots. It does nothing.
pub fn oldest_go()
    ensures { OldestGo }
{}

/// A law: what a call finds at a site, and what it leaves of the site's list, comes from that list alone,
/// but for what the budget evicts; and that is the oldest of all, no more than must go. It does nothing.
pub fn site_lists()
    ensures { SiteLists }
{}

/// A law: whatever was looked for, every look-up finds what it found before. It does nothing.
pub fn a_search_keeps_all()
    ensures { SearchKeepsAll }
{}

/// A law: an entry comes into a cache by a put alone; none of a site is left once it is forgotten; and a
/// hint is that of an entry that is there. It does nothing.
pub fn entries_come_from_puts()
    ensures { EntriesComeFromPuts }
{}
