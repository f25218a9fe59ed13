//! Edits of stored rows in place.

ghost use Rattle.std.specs.Prelude.{◌≡◌, ℕ, None, Some, IfOk, OnOk, OnErr};
ghost use Rattle.std.specs.Option.{option_map};
ghost use Rattle.std.specs.Ordering.{nat_cmp};
ghost use Rattle.sorted_map.specs.SortedMap.{IsOrdered, get};
ghost use Rattle.file_ops.specs.code.Capacity.{KeepsCapacity, HasRoom};
ghost use Rattle.file_ops.specs.Rows.{Row, row_of};
ghost use Rattle.file_ops.specs.code.Stored.{listed_in, plain, exchanged, restored_row, with_stored_content, with_stored_acl, with_stored_votes};
ghost use Rattle.file_ops.specs.code.Edits.{edited, number_at, put_name, drop_name};
ghost use Rattle.file_ops.specs.code.Restored.{Restores, Makes};

use crate::stored::{StoredContent, StoredRow, StoredRows};
use acl_core::Lists;
use std::alloc::{AllocError, Global};
use std::mem;
use suite_content::{FolderNames, Name, NameList};
use vote_core::Votes;

/// Gives a suite other content, where it has a row, and answers the content before.
pub(crate) fn exchange_content(
    rows: &mut StoredRows,
    suite: u64,
    content: StoredContent,
) -> Option<StoredContent>
    ensures before { result ≡ option_map (λ row. row.content) (get nat_cmp rows.old suite) }
    ensures after { rows.new ≡ exchanged rows.old suite (with_stored_content content) }
    ensures ordered { IsOrdered nat_cmp rows.old }
{
    let row = rows.get_mut(&suite)?;
    Some(mem::replace(&mut row.content, content))
}

/// Gives a suite other lists, where it has a row, and answers those before.
pub(crate) fn exchange_acl(rows: &mut StoredRows, suite: u64, acl: Lists) -> Option<Lists>
    ensures before { result ≡ option_map (λ row. row.acl) (get nat_cmp rows.old suite) }
    ensures after { rows.new ≡ exchanged rows.old suite (with_stored_acl acl) }
    ensures ordered { IsOrdered nat_cmp rows.old }
{
    let row = rows.get_mut(&suite)?;
    Some(mem::replace(&mut row.acl, acl))
}

/// Gives a suite other votes, where it has a row, and answers the votes before.
pub(crate) fn exchange_votes(rows: &mut StoredRows, suite: u64, votes: Votes) -> Option<Votes>
    ensures before { result ≡ option_map (λ row. row.votes) (get nat_cmp rows.old suite) }
    ensures after { rows.new ≡ exchanged rows.old suite (with_stored_votes votes) }
    ensures ordered { IsOrdered nat_cmp rows.old }
{
    let row = rows.get_mut(&suite)?;
    Some(mem::replace(&mut row.votes, votes))
}

/// Gives a suite the row that it had before, where it has one now, or none.
pub(crate) fn restore_row(rows: &mut StoredRows, suite: u64, before: Option<StoredRow>)
    ensures rows { rows.new ≡ restored_row rows.old suite before }
    ensures ordered { IsOrdered nat_cmp rows.old }
{
    match before {
        None => {
            let _ = rows.remove(&suite);
        }
        Some(other) => {
            if let Some(row) = rows.get_mut(&suite) {
                *row = other;
            }
        }
    }
}

/// Puts a name in a folder that lacks it, for a new row, and then the row, and answers the row of its
/// number before.
pub(crate) fn put_made(
    rows: &mut StoredRows,
    folder: u64,
    name: &Name,
    number: u64,
    row: StoredRow,
) -> Result<Option<StoredRow>, AllocError>
    requires { number_at (plain rows.old) folder name.now ≡ None }
    ensures ok { IfOk result (λ before. Makes rows.old rows.new folder name.now number row before) }
    ensures err { OnErr result (Restores rows.old rows.new) }
{
    put_name(rows, folder, *name, number)?;
    match rows.insert(number, row) {
        Ok(before) => Ok(before),
        Err(refused) => {
            drop_name(rows, folder, name);
            Err(AllocError::from(refused))
        }
    }
}

/// Puts a name in a folder.
fn put_name(rows: &mut StoredRows, folder: u64, name: Name, number: u64) -> Result<(), AllocError>
    ensures ok { OnOk result (plain rows.new ≡ edited (plain rows.old) folder (put_name name number)) }
    ensures err { OnErr result (plain rows.new ≡ plain rows.old) }
    ensures capacity { KeepsCapacity rows.old rows.new }
    ensures was_ordered { IsOrdered nat_cmp rows.old }
{
    match rows.get_mut(&folder) {
        Some(row) => row.content.put_name(name, number),
        None => Ok(()),
    }
}

/// The names of a folder as a reply.
pub(crate) fn list_names(
    rows: &mut StoredRows,
    alloc: Global,
    folder: u64,
) -> Result<NameList, AllocError>
    ensures list { IfOk result (λ list. (row : Row) → row_of (plain rows.old) folder ≡ Some row → list ≡ listed_in row.content) }
    ensures same { rows.new ≡ rows.old }
{
    match rows.get_mut(&folder) {
        Some(row) => row.content.list(alloc),
        None => Ok(NameList::from(FolderNames::new(alloc))),
    }
}

/// Puts a name back in a folder out of which it was taken.
pub(crate) fn put_back_name(rows: &mut StoredRows, folder: u64, name: Name, number: u64)
    requires { HasRoom rows.old folder name }
    ensures rows { plain rows.new ≡ edited (plain rows.old) folder (put_name name number) }
    ensures capacity { KeepsCapacity rows.old rows.new }
{
    if let Some(row) = rows.get_mut(&folder) {
        row.content.put_back_name(name, number);
    }
}

/// Takes a name out of a folder.
pub(crate) fn drop_name(rows: &mut StoredRows, folder: u64, name: &Name)
    ensures rows { plain rows.new ≡ edited (plain rows.old) folder (drop_name name.now) }
    ensures capacity { KeepsCapacity rows.old rows.new }

    // It can be put back.
    ensures back { (number : ℕ) → number_at (plain rows.old) folder name.now ≡ Some number →
        edited (plain rows.new) folder (put_name name.now number) ≡ plain rows.old }
{
    if let Some(row) = rows.get_mut(&folder) {
        row.content.drop_name(name);
    }
}
