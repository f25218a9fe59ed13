//! A folder's names alone.

ghost use Rattle.std.specs.Prelude.{◌≡◌, ◌++◌, ◌↔◌, [], length, IsTrue, OnOk};
ghost use Rattle.std.specs.List.{list_all, zip};
ghost use Rattle.std.specs.Str.{bytes_eq};
ghost use Rattle.suite_content.specs.Written.{with_commas};

use crate::folder_names::FolderNames;
use crate::gathering::append_behind_commas;
use crate::name::Name;
use std::alloc::AllocError;
use std::marker::Model;

/// The names of a folder, in byte order, as listing it answers them. They are the folder's own, and
/// a clone shares them too.
#[derive(Debug, Drop)]
pub struct NameList {
    folder: FolderNames,
}

impl Model for NameList {
    ghost use Rattle.std.specs.Prelude.{ℕ, List};
    ghost use Rattle.suite_content.specs.Folders.{names_in};

    ghost Value = { List (List ℕ) };

    ghost view = { λ list. names_in list.folder };
}

impl From<FolderNames> for NameList {
    ghost use Rattle.std.specs.Prelude.{◌≡◌};
    ghost use Rattle.suite_content.specs.Folders.{names_in};

    ghost from_gives = { λ folder list. list ≡ names_in folder };

    fn from(folder: FolderNames) -> NameList {
        NameList { folder }
    }
}

impl Clone for NameList {
    ghost is_clone = { λ list copy. copy ≡ list };

    fn clone(&self) -> Result<NameList, AllocError> {
        let folder = self.folder.clone()?;
        Ok(NameList { folder })
    }
}

impl PartialEq for NameList {
    ghost use Rattle.suite_content.specs.Folders.{same_names};
    ghost use Rattle.suite_content.specs.code.Equality.{same_names_partial_laws};

    ghost eq = { same_names };

    ghost laws = { same_names_partial_laws };

    fn eq(&self, other: &NameList) -> bool {
        let (own, theirs) = (self.folder.as_slice(), other.folder.as_slice());
        own.len() == theirs.len() && same_one_by_one(own, theirs)
    }
}

impl Eq for NameList {
    ghost use Rattle.suite_content.specs.code.Equality.{same_names_laws};

    ghost laws = { same_names_laws };
}

impl NameList {
    /// How many names there are.
    pub fn len(&self) -> usize
        ensures { result ≡ length self.now }
    {
        self.folder.len()
    }

    /// Whether there is no name.
    pub fn is_empty(&self) -> bool
        ensures { IsTrue result ↔ (self.now ≡ []) }
    {
        self.folder.is_empty()
    }

    /// Writes the names, with a comma between each two.
    pub fn append(&self, out: &mut Vec<u8>) -> Result<(), AllocError>
        ensures { OnOk result (out.new.items ≡ out.old.items ++ with_commas self.now) }
    {
        let [first, more @ ..] = self.folder.as_slice() else {
            return Ok(());
        };
        first.0.append(out)?;
        append_behind_commas(more, out)
    }

    /// The names one by one, in byte order.
    pub fn iter(&self) -> NameIter<'_>
        ensures { result ≡ self.now }
    {
        NameIter {
            entries: self.folder.as_slice(),
        }
    }
}

/// Whether the names of two folders are the same as far as both go.
fn same_one_by_one(own: &[(Name, u64)], theirs: &[(Name, u64)]) -> bool
    ensures { result ≡ list_all (λ pair. bytes_eq pair.0.0 pair.1.0) (zip own.now theirs.now) }
{
    own.iter()
        .zip(theirs)
        .all(|(left, right)| left.0 == right.0)
}

/// The names of a list that are still to come.
#[derive(Drop)]
pub struct NameIter<'a> {
    entries: &'a [(Name, u64)],
}

impl<'a> Model for NameIter<'a> {
    ghost use Rattle.std.specs.Prelude.{ℕ, List};
    ghost use Rattle.suite_content.specs.Folders.{names_in};

    ghost Value = { List (List ℕ) };

    ghost view = { λ names. names_in names.entries.now };
}

impl<'a> Iterator for NameIter<'a> {
    type Item = &'a Name;

    ghost use Rattle.std.specs.Iterator.{YieldsFirstRef, item_count};

    ghost next_gives = { YieldsFirstRef (λ names. names) };

    ghost remaining = { item_count (λ names. names) };

    fn next(&mut self) -> Option<&'a Name> {
        let (first, rest) = self.entries.split_first()?;
        self.entries = rest;
        Some(&first.0)
    }
}
