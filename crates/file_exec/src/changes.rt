//! What a transaction has set, suite by suite.

ghost use Rattle.std.specs.Prelude.{◌≡◌, IfOk};
ghost use Rattle.std.specs.Option.{option_copied};
ghost use Rattle.std.specs.Ordering.{nat_cmp};
ghost use Rattle.sorted_map.specs.SortedMap.{IsOrdered};
ghost use Rattle.file_exec.specs.Changes.{changes_at, change_of};

use crate::edit_log::{Edit, EditLog, makes, seen, sets_acl, sets_content, sets_votes};
use crate::known::Known;
use crate::row::KnownRow;
use sorted_map::SortedMap;
use std::alloc::{AllocError, Global};
use std::marker::Model;

/// What a transaction has set of a suite, also where it set an equal value: its lists, its votes, its
/// content, or all of it, where it was made; and the row after it.
#[derive(Drop)]
pub struct Change {
    pub made: bool,
    pub acl: bool,
    pub votes: bool,
    pub content: bool,
    pub row: KnownRow,
}

impl Clone for Change {
    ghost is_clone = { λ change copy. copy ≡ change };

    fn clone(&self) -> Result<Change, AllocError> {
        let row = self.row.clone()?;
        Ok(Change {
            made: self.made,
            acl: self.acl,
            votes: self.votes,
            content: self.content,
            row,
        })
    }
}

/// What a transaction has set of each suite, the suites rising.
#[derive(Drop)]
pub struct Changes {
    changes: SortedMap<u64, Change>,
}

impl Model for Changes {
    ghost use Rattle.std.specs.Prelude.{ℕ, List};
    ghost use Rattle.file_exec.specs.declared.changes.Change.{Change};

    ghost Value = { List (ℕ × Change) };

    ghost view = { λ changes. changes.changes };
}

impl Changes {
    ghost use Rattle.std.specs.Ordering.{nat_cmp};
    ghost use Rattle.sorted_map.specs.SortedMap.{get, IsOrdered};
    ghost use Rattle.file_exec.specs.Changes.{changes_of};

    /// The changes that a log comes to.
    pub(crate) fn of(alloc: Global, known: &Known<'_>, log: &EditLog) -> Result<Changes, AllocError>
        ensures { IfOk result (λ changes. changes ≡ changes_of known.now.suites log.now) }
    {
        let changes = gather(alloc, known, log, log.as_slice())?;
        Ok(Changes { changes })
    }

    /// The same changes.
    pub fn copy(&self, alloc: Global) -> Result<Changes, AllocError>
        ensures { IfOk result (λ copy. copy ≡ self.now) }
    {
        let changes = copied(alloc, self.changes.as_slice())?;
        Ok(Changes { changes })
    }

    /// What was set of a suite.
    pub fn get(&self, suite: u64) -> Option<&Change>
        ensures { option_copied result ≡ get nat_cmp self.now suite }
    {
        self.changes.get(&suite)
    }

    /// What was set, with the suites' numbers, which rise.
    pub fn as_slice(&self) -> &[(u64, Change)]
        ensures value { result.now ≡ self.now }
        ensures ordered { IsOrdered nat_cmp self.now }
    {
        self.changes.as_slice()
    }
}

/// The map of these changes.
fn copied(alloc: Global, changes: &[(u64, Change)]) -> Result<SortedMap<u64, Change>, AllocError>
    requires { IsOrdered nat_cmp changes.now }
    ensures { IfOk result (λ copy. copy ≡ changes.now) }
{
    let mut copy = SortedMap::new(alloc);
    for (suite, change) in changes {
        copy.insert(*suite, change.clone()?)?;
    }
    Ok(copy)
}

/// The changes of the suites that these edits of the log are of.
fn gather(
    alloc: Global,
    known: &Known<'_>,
    log: &EditLog,
    edits: &[(u64, Edit)],
) -> Result<SortedMap<u64, Change>, AllocError>
    ensures { IfOk result (λ changes. changes ≡ changes_at (change_of known.now.suites log.now) edits.now) }
{
    let Some(((suite, _), before)) = edits.split_first() else {
        return Ok(SortedMap::new(alloc));
    };
    let mut changes = gather(alloc, known, log, before)?;
    let change = change_of(alloc, known, log, *suite)?;
    if let Some(change) = change {
        changes.insert(*suite, change)?;
    }
    Ok(changes)
}

/// What was set of a suite, where it has a row.
fn change_of(
    alloc: Global,
    known: &Known<'_>,
    log: &EditLog,
    suite: u64,
) -> Result<Option<Change>, AllocError>
    ensures { IfOk result (λ change. change ≡ change_of known.now.suites log.now suite) }
{
    let edits = log.as_slice();
    let Some(row) = seen(edits, suite, known.row(suite)) else {
        return Ok(None);
    };
    let row = row.own(alloc)?;
    Ok(Some(Change {
        made: makes(edits, suite),
        acl: sets_acl(edits, suite),
        votes: sets_votes(edits, suite),
        content: sets_content(edits, suite),
        row,
    }))
}
