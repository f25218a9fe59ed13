//! What an operation changes, with how that is undone.
//!
//! A list of operations is taken back at its first refusal, undo by undo, the last one first. No
//! undo may run out of memory: contents, lists, votes and rows are exchanged back, a name
//! that was put is taken out, and a name that was taken out finds its place in the folder still free.

ghost use Rattle.std.specs.Prelude.{◌≡◌, None, Some, IfOk, OnOk, OnErr};
ghost use Rattle.file_ops.specs.code.Edits.{edited, number_at, put_acl, put_votes, put_content, put_name, drop_name};
ghost use Rattle.file_ops.specs.code.Restored.{Restores};
ghost use Rattle.file_ops.specs.code.Stored.{plain, plain_content, plain_row};
ghost use Rattle.file_ops.specs.code.Stored.{StoredRows as Stored};
ghost use Rattle.file_ops.specs.Rows.{with_row};
ghost use Rattle.file_ops.specs.code.Undo.{TakesBack};

use crate::edit::{
    drop_name, exchange_acl, exchange_content, exchange_votes, put_back_name, put_made, restore_row,
};
use crate::stored::{StoredContent, StoredRow, StoredRows};
use acl_core::Lists;
use std::alloc::AllocError;
use suite_content::Name;
use vote_core::Votes;

/// How what an operation changed is undone.
#[derive(Drop)]
pub(crate) enum Undo {
    Nothing,
    /// What a suite held before.
    Held {
        suite: u64,
        before: StoredContent,
    },
    /// The lists of a suite before.
    Listed {
        suite: u64,
        before: Lists,
    },
    /// The votes of a suite before.
    Voted {
        suite: u64,
        before: Votes,
    },
    /// A name that was put in a folder, the number it was given, and the row of that number before.
    Made {
        folder: u64,
        name: Name,
        number: u64,
        before: Option<StoredRow>,
    },
    /// A name that was taken out of a folder, and its number.
    Dropped {
        folder: u64,
        name: Name,
        number: u64,
    },
}

impl Undo {
    /// Takes the change back.
    pub(crate) fn take_back(self, rows: &mut StoredRows)
        requires { (before : Stored) × TakesBack self before rows.old }
        ensures { (before : Stored) → TakesBack self before rows.old → Restores before rows.new }
    {
        match self {
            Undo::Nothing => {}
            Undo::Held { suite, before } => {
                let _ = exchange_content(rows, suite, before);
            }
            Undo::Listed { suite, before } => {
                let _ = exchange_acl(rows, suite, before);
            }
            Undo::Voted { suite, before } => {
                let _ = exchange_votes(rows, suite, before);
            }
            Undo::Made {
                folder,
                name,
                number,
                before,
            } => {
                restore_row(rows, number, before);
                drop_name(rows, folder, &name);
            }
            Undo::Dropped {
                folder,
                name,
                number,
            } => put_back_name(rows, folder, name, number),
        }
    }
}

/// Gives a suite other content.
pub(crate) fn replace_content(rows: &mut StoredRows, suite: u64, content: StoredContent) -> Undo
    ensures rows { plain rows.new ≡ edited (plain rows.old) suite (put_content (plain_content content)) }
    ensures back { TakesBack result rows.old rows.new }
{
    match exchange_content(rows, suite, content) {
        Some(before) => Undo::Held { suite, before },
        None => Undo::Nothing,
    }
}

/// Gives a suite other lists.
pub(crate) fn replace_acl(rows: &mut StoredRows, suite: u64, acl: Lists) -> Undo
    ensures rows { plain rows.new ≡ edited (plain rows.old) suite (put_acl acl) }
    ensures back { TakesBack result rows.old rows.new }
{
    match exchange_acl(rows, suite, acl) {
        Some(before) => Undo::Listed { suite, before },
        None => Undo::Nothing,
    }
}

/// Gives a suite other votes.
pub(crate) fn replace_votes(rows: &mut StoredRows, suite: u64, votes: Votes) -> Undo
    ensures rows { plain rows.new ≡ edited (plain rows.old) suite (put_votes votes) }
    ensures back { TakesBack result rows.old rows.new }
{
    match exchange_votes(rows, suite, votes) {
        Some(before) => Undo::Voted { suite, before },
        None => Undo::Nothing,
    }
}

/// Puts a name in a folder that lacks it, for a row of this number, and then the row.
pub(crate) fn make_row(
    rows: &mut StoredRows,
    folder: u64,
    name: &Name,
    number: u64,
    row: StoredRow,
) -> Result<Undo, AllocError>
    requires { number_at (plain rows.old) folder name.now ≡ None }
    ensures rows { OnOk result (plain rows.new ≡ with_row (edited (plain rows.old) folder (put_name name.now number)) number (plain_row row)) }
    ensures back { IfOk result (λ undo. TakesBack undo rows.old rows.new) }
    ensures err { OnErr result (Restores rows.old rows.new) }
{
    let before = put_made(rows, folder, name, number, row)?;
    Ok(Undo::Made {
        folder,
        name: *name,
        number,
        before,
    })
}

/// Takes a name of this number out of a folder.
pub(crate) fn take_out_name(rows: &mut StoredRows, folder: u64, name: &Name, number: u64) -> Undo
    requires { number_at (plain rows.old) folder name.now ≡ Some number }
    ensures rows { plain rows.new ≡ edited (plain rows.old) folder (drop_name name.now) }
    ensures back { TakesBack result rows.old rows.new }
{
    drop_name(rows, folder, name);
    Undo::Dropped {
        folder,
        name: *name,
        number,
    }
}
