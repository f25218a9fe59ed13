//! The way to a file or a folder, and what a caller may do there.

ghost use Rattle.std.specs.Prelude.{◌≡◌};
ghost use Rattle.std.specs.Option.{option_copied};
ghost use Rattle.std.specs.Ordering.{nat_cmp};
ghost use Rattle.sorted_map.specs.SortedMap.{get};
ghost use Rattle.file_ops.specs.Steps.{ok_map};
ghost use Rattle.file_ops.specs.code.Stored.{plain};
ghost use Rattle.file_ops.specs.Rows.{root};
ghost use Rattle.file_ops.specs.Walks.{place_of, permit, permit_others, owner_only, step, walk, reach, shown, owned};
ghost use Rattle.file_ops.specs.Operations.{last_name, parent_of, plain_named};
ghost use Rattle.file_ops.specs.code.Found.{plain_place, plain_parent};

use crate::guarded::{Guarded, to_change};
use crate::refusal::Why;
use crate::stored::{StoredRow, StoredRows};
use acl_core::{Caller, Perms};
use sorted_map::RoomyMap;
use suite_content::Name;

/// The number of the root folder.
pub const ROOT: u64 = 0;

/// A suite with its row.
#[derive(Clone, Copy)]
pub(crate) struct Object<'a> {
    pub(crate) suite: u64,
    pub(crate) row: &'a StoredRow,
}

/// A folder in which a name is to be put or dropped, with its names.
#[derive(Clone, Copy)]
pub(crate) struct Parent<'a> {
    pub(crate) place: Object<'a>,
    pub(crate) names: &'a RoomyMap<Name, u64>,
}

/// The row of a suite. The first row is looked at before the others are searched: it is the root folder's, from
/// which each walk goes out.
fn row_at(rows: &StoredRows, suite: u64) -> Option<&StoredRow>
    ensures { option_copied result ≡ get nat_cmp rows.now suite }
{
    match rows.as_slice().first() {
        Some((first, row)) if *first == suite => Some(row),
        _ => rows.get(&suite),
    }
}

/// A suite with its row.
fn place_of(rows: &StoredRows, suite: u64) -> Result<Object<'_>, Why>
    ensures { ok_map plain_place result ≡ place_of (plain rows.now) suite }
{
    match row_at(rows, suite) {
        Some(row) => Ok(Object { suite, row }),
        None => Err(Why::NoName),
    }
}

/// What the rules of permission look at.
fn guarded(place: Object<'_>) -> Guarded<'_>
    ensures suite { result.suite ≡ (plain_place place.entry).suite }
    ensures owner { result.owner ≡ (plain_place place.entry).row.owner }
    ensures group { result.group ≡ (plain_place place.entry).row.group }
    ensures acl { result.acl.now ≡ (plain_place place.entry).row.acl.access }
{
    Guarded {
        suite: place.suite,
        owner: place.row.owner,
        group: place.row.group,
        acl: &place.row.acl.access,
    }
}

/// Whether the caller has what it wants of a file or a folder.
pub(crate) fn permit(caller: &Caller, place: Object<'_>, wanted: Perms) -> Result<(), Why>
    ensures { result ≡ permit caller.now (plain_place place.entry) wanted }
{
    guarded(place).permit(caller, wanted)
}

/// The same, of whoever does not own it.
fn permit_others(caller: &Caller, place: Object<'_>, wanted: Perms) -> Result<(), Why>
    ensures { result ≡ permit_others caller.now (plain_place place.entry) wanted }
{
    guarded(place).permit_others(caller, wanted)
}

/// Whether the caller owns a file or a folder.
fn owner_only(caller: &Caller, place: Object<'_>) -> Result<(), Why>
    ensures { result ≡ owner_only caller.now (plain_place place.entry) }
{
    guarded(place).owner_only(caller)
}

/// One step of a walk: the suite of a name in a folder, which the caller must be let search.
fn step(rows: &StoredRows, caller: &Caller, suite: u64, name: &Name) -> Result<u64, Why>
    ensures { result ≡ step (plain rows.now) caller.now suite name.now }
{
    let folder = place_of(rows, suite)?;
    let names = folder.row.content.names()?;
    permit(caller, folder, Perms::EXEC)?;
    names.get(name).copied().ok_or(Why::NoName)
}

/// The suite that names lead to from the root folder.
fn walk(rows: &StoredRows, caller: &Caller, names: &[Name]) -> Result<u64, Why>
    ensures { result ≡ walk (plain rows.now) caller.now root names.now }
{
    let mut suite = ROOT;
    for name in names {
        suite = step(rows, caller, suite, name)?;
    }
    Ok(suite)
}

/// The file or folder that names lead to from the root folder.
pub(crate) fn reach<'a>(
    rows: &'a StoredRows,
    caller: &Caller,
    names: &[Name],
) -> Result<Object<'a>, Why>
    ensures { ok_map plain_place result ≡ reach (plain rows.now) caller.now names.now }
{
    let suite = walk(rows, caller, names)?;
    place_of(rows, suite)
}

/// The file or folder whose list and votes the caller may see.
pub(crate) fn shown<'a>(
    rows: &'a StoredRows,
    caller: &Caller,
    names: &[Name],
) -> Result<Object<'a>, Why>
    ensures { ok_map plain_place result ≡ shown (plain rows.now) caller.now names.now }
{
    let place = reach(rows, caller, names)?;
    permit_others(caller, place, Perms::READ)?;
    Ok(place)
}

/// The file or folder whose list and votes the caller may change.
pub(crate) fn owned<'a>(
    rows: &'a StoredRows,
    caller: &Caller,
    names: &[Name],
) -> Result<Object<'a>, Why>
    ensures { ok_map plain_place result ≡ owned (plain rows.now) caller.now names.now }
{
    let place = reach(rows, caller, names)?;
    owner_only(caller, place)?;
    Ok(place)
}

/// The last name of a path, and the names before it; `/` has none.
pub fn last_name(names: &[Name]) -> Result<(&Name, &[Name]), Why>
    ensures { ok_map plain_named result ≡ last_name names.now }
{
    names.split_last().ok_or(Why::BadPath)
}

/// The folder that names lead to, which the caller must be let write and search.
pub(crate) fn parent_of<'a>(
    rows: &'a StoredRows,
    caller: &Caller,
    folders: &[Name],
) -> Result<Parent<'a>, Why>
    ensures { ok_map plain_parent result ≡ parent_of (plain rows.now) caller.now folders.now }
{
    let place = reach(rows, caller, folders)?;
    let names = place.row.content.names()?;
    permit(caller, place, to_change())?;
    Ok(Parent { place, names })
}
