//! What a cache keeps, and which of it went and came.

ghost use Rattle.std.specs.Prelude.{◌≡◌, ◌++◌, ◌∷◌, IfOk, IfSome, IsTrue, OnOk, codes};
ghost use Rattle.std.specs.List.{flat_map};
ghost use Rattle.std.specs.Option.{option_copied, option_map};
ghost use Rattle.weak_cache.specs.Cache.{hint, version};
ghost use Rattle.weak_cache.specs.Entries.{keys_of};
ghost use Rattle.event_json.specs.Changes.{IsEndChange};
ghost use Rattle.event_json.specs.Entries.{cache_text, dropped_entry_text, dropped_text, TellsCacheChange, entry_text, put_text, hint_text, kept_in, kept_of, kept_text, pver_of};
ghost use Rattle.event_json.specs.Strings.{listed};
ghost use Rattle.event_json.specs.code.Going.{Meets};

use crate::strings::push_member;
use std::alloc::{AllocError, Global};
use suite_prefix::SharedPrefix;
use weak_cache::WeakCache;

/// What a site keeps of a suite: the version of a prefix, and that of a content.
#[derive(Clone, Copy)]
pub struct Kept {
    pub site: u8,
    pub suite: u64,
    pub prefix: Option<u64>,
    pub content: Option<u64>,
}

/// What a cache keeps, the newest first.
pub fn kept_in(alloc: Global, cache: &WeakCache) -> Result<Vec<Kept>, AllocError>
    ensures { IfOk result (λ all. all.items ≡ kept_in cache.now.entries) }
{
    let mut all = Vec::new(alloc);
    for (site, suite) in cache.entries() {
        all.push(kept_of(cache, site, suite))?;
    }
    Ok(all)
}

/// What a site keeps of a suite.
fn kept_of(cache: &WeakCache, site: u8, suite: u64) -> Kept
    ensures { result ≡ kept_of cache.now.entries (site, suite) }
{
    Kept {
        site,
        suite,
        prefix: version_of(cache.hint(site, suite)),
        content: cache.version(site, suite),
    }
}

fn version_of(prefix: Option<&SharedPrefix>) -> Option<u64>
    ensures { result ≡ pver_of (option_copied prefix.entry) }
{
    match prefix {
        Some(prefix) => Some(prefix.pver),
        None => None,
    }
}

/// A list of what a cache keeps.
pub fn push_cache(text: &mut Vec<u8>, all: &[Kept]) -> Result<(), AllocError>
    ensures { OnOk result (text.new.items ≡ text.old.items ++ cache_text all.now) }
{
    text.extend_from_slice(b"[")?;
    push_entries(text, all)?;
    text.extend_from_slice(b"]")
}

fn push_entries(text: &mut Vec<u8>, all: &[Kept]) -> Result<(), AllocError>
    ensures { OnOk result (text.new.items ≡ text.old.items ++ listed entry_text all.now) }
{
    let [first, more @ ..] = all else {
        return Ok(());
    };
    push_entry(text, *first)?;
    push_more_entries(text, more)
}

fn push_more_entries(text: &mut Vec<u8>, all: &[Kept]) -> Result<(), AllocError>
    ensures { OnOk result (text.new.items ≡ text.old.items ++ flat_map (λ next. codes "," ++ entry_text next) all.now) }
{
    for kept in all {
        text.extend_from_slice(b",")?;
        push_entry(text, *kept)?;
    }
    Ok(())
}

fn push_entry(text: &mut Vec<u8>, kept: Kept) -> Result<(), AllocError>
    ensures { OnOk result (text.new.items ≡ text.old.items ++ entry_text kept) }
{
    push_member(text, b"{\"site\":", u64::from(kept.site))?;
    push_member(text, b",\"suite\":", kept.suite)?;
    push_prefix_version(text, kept.prefix)?;
    push_content_version(text, kept.content)?;
    text.extend_from_slice(b"}")
}

/// The version of a prefix, where there is one.
fn push_prefix_version(text: &mut Vec<u8>, pver: Option<u64>) -> Result<(), AllocError>
    ensures { OnOk result (text.new.items ≡ text.old.items ++ hint_text pver) }
{
    match pver {
        Some(pver) => push_member(text, b",\"prefix\":", pver),
        None => Ok(()),
    }
}

/// The version of a content, where there is one.
fn push_content_version(text: &mut Vec<u8>, dver: Option<u64>) -> Result<(), AllocError>
    ensures { OnOk result (text.new.items ≡ text.old.items ++ kept_text dver) }
{
    match dver {
        Some(dver) => push_member(text, b",\"content\":", dver),
        None => Ok(()),
    }
}

// ---- what changed

/// Which entries went: each that is no more, or stands elsewhere or is otherwise; and which came in front.
#[derive(Drop)]
struct EntryChange<'a> {
    gone: Vec<Kept>,
    came: &'a [Kept],
}

/// What changed from what a cache kept to what it keeps, the oldest first in both. What stayed is as long a part in front of
/// what it keeps as that can be.
fn entry_change<'a>(
    alloc: Global,
    old: &[Kept],
    new: &'a [Kept],
) -> Result<EntryChange<'a>, AllocError>
    ensures { IfOk result (λ change. IsEndChange old.now new.now change.gone.items change.came.now) }
{
    let mut gone = Vec::new(alloc);
    let mut came = new;
    for kept in old {
        came = meet(came, *kept, &mut gone)?;
    }
    Ok(EntryChange { gone, came })
}

/// What is left of what a cache keeps once an entry of the old list is met: the first is the same, or that entry went.
fn meet<'a>(rest: &'a [Kept], kept: Kept, gone: &mut Vec<Kept>) -> Result<&'a [Kept], AllocError>
    ensures { IfOk result (λ later. Meets rest.now kept later.now gone.old.items gone.new.items) }
{
    match behind(rest, kept) {
        Some(more) => Ok(more),
        None => {
            gone.push(kept)?;
            Ok(rest)
        }
    }
}

/// What stands behind an entry, where that is the first.
fn behind<'a>(all: &'a [Kept], kept: Kept) -> Option<&'a [Kept]>
    ensures { IfSome result (λ more. all.now ≡ kept ∷ more.now) }
{
    match all {
        [first, more @ ..] if same(*first, kept) => Some(more),
        _ => None,
    }
}

/// Whether they are the same.
fn same(kept: Kept, other: Kept) -> bool
    ensures { IsTrue result → kept ≡ other }
{
    kept.site == other.site
        && kept.suite == other.suite
        && kept.prefix == other.prefix
        && kept.content == other.content
}

/// The members of what changed in a cache, the oldest first in both: what it dropped, and what was put in front, one after
/// another.
pub fn push_cache_change(
    alloc: Global,
    text: &mut Vec<u8>,
    old: &[Kept],
    new: &[Kept],
) -> Result<(), AllocError>
    ensures { OnOk result (TellsCacheChange old.now new.now text.old.items text.new.items) }
{
    let change = entry_change(alloc, old, new)?;
    push_dropped(text, change.gone.as_slice())?;
    push_put(text, change.came)
}

fn push_put(text: &mut Vec<u8>, all: &[Kept]) -> Result<(), AllocError>
    ensures { OnOk result (text.new.items ≡ text.old.items ++ put_text all.now) }
{
    if all.is_empty() {
        return Ok(());
    }
    text.extend_from_slice(b",\"put\":")?;
    push_cache(text, all)
}

fn push_dropped(text: &mut Vec<u8>, all: &[Kept]) -> Result<(), AllocError>
    ensures { OnOk result (text.new.items ≡ text.old.items ++ dropped_text all.now) }
{
    if all.is_empty() {
        return Ok(());
    }
    text.extend_from_slice(b",\"dropped\":[")?;
    push_dropped_entries(text, all)?;
    text.extend_from_slice(b"]")
}

fn push_dropped_entries(text: &mut Vec<u8>, all: &[Kept]) -> Result<(), AllocError>
    ensures { OnOk result (text.new.items ≡ text.old.items ++ listed dropped_entry_text all.now) }
{
    let [first, more @ ..] = all else {
        return Ok(());
    };
    push_dropped_entry(text, *first)?;
    push_more_dropped(text, more)
}

fn push_more_dropped(text: &mut Vec<u8>, all: &[Kept]) -> Result<(), AllocError>
    ensures { OnOk result (text.new.items ≡ text.old.items ++ flat_map (λ next. codes "," ++ dropped_entry_text next) all.now) }
{
    for kept in all {
        text.extend_from_slice(b",")?;
        push_dropped_entry(text, *kept)?;
    }
    Ok(())
}

fn push_dropped_entry(text: &mut Vec<u8>, kept: Kept) -> Result<(), AllocError>
    ensures { OnOk result (text.new.items ≡ text.old.items ++ dropped_entry_text kept) }
{
    push_member(text, b"{\"site\":", u64::from(kept.site))?;
    push_member(text, b",\"suite\":", kept.suite)?;
    text.extend_from_slice(b"}")
}
