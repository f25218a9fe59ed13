//! The names of a folder as the table stores them.

ghost use Rattle.std.specs.Prelude.{◌≡◌, ◌+◌, ◌<◌, ◌≤◌, [], None, IfOk, OnErr, OnOk, if◌then◌else◌, is_some};
ghost use Rattle.sorted_map.specs.SortedMap.{IsOrdered, get, insert, remove};
ghost use Rattle.std.specs.Cmp.Lexicographic.{slice_cmp};
ghost use Rattle.std.specs.Ordering.{nat_cmp};
ghost use Rattle.suite_content.specs.Folders.{names_in};

use sorted_map::RoomyMap;
use std::alloc::{AllocError, Global};
use std::marker::Model;
use suite_content::{FolderNames, Name, NameList};

/// The names of a folder with their suites' numbers, and the reply that listed them last, as long as they stay.
#[derive(Drop)]
pub(crate) struct StoredNames {
    names: RoomyMap<Name, u64>,
    listed: Option<NameList>,
}

impl Model for StoredNames {
    ghost use Rattle.std.specs.Prelude.{◌≡◌, ℕ, IfSome, List};
    ghost use Rattle.sorted_map.specs.Roomy.{Roomy};
    ghost use Rattle.suite_content.specs.Folders.{names_in};

    ghost Value = { Roomy (List ℕ) ℕ };

    ghost view = { λ folder. folder.names };

    ghost invariant = { λ folder. IfSome folder.listed (λ list. list ≡ names_in folder.names.pairs) };
}

impl StoredNames {
    /// No names.
    pub(crate) fn new(alloc: Global) -> StoredNames
        ensures { result.pairs ≡ [] }
    {
        StoredNames {
            names: RoomyMap::new(alloc),
            listed: None,
        }
    }

    /// The names of a map.
    pub(crate) fn from_map(names: RoomyMap<Name, u64>) -> StoredNames
        ensures { result ≡ names }
    {
        StoredNames {
            names,
            listed: None,
        }
    }

    /// The names as a map.
    pub(crate) fn map(&self) -> &RoomyMap<Name, u64>
        ensures { result.now ≡ self.now }
    {
        &self.names
    }

    /// The names as a reply. It is kept, so that the next one shares it.
    pub(crate) fn list(&mut self, alloc: Global) -> Result<NameList, AllocError>
        ensures list { IfOk result (λ list. list ≡ names_in self.old.pairs) }
        ensures same { self.new ≡ self.old }
    {
        if let Some(list) = &self.listed {
            return list.clone();
        }
        let names = self.names.clone()?;
        let folder = FolderNames::from_map(alloc, names)?;
        let list = NameList::from(folder);
        let kept = list.clone()?;
        self.listed = Some(kept);
        Ok(list)
    }

    /// Puts a name in, or gives it another number, and answers the number before. An error leaves the names.
    pub(crate) fn insert(&mut self, name: Name, number: u64) -> Result<Option<u64>, AllocError>
        ensures before { IfOk result (λ before. before ≡ get (slice_cmp nat_cmp) self.old.pairs name) }
        ensures ok { OnOk result (self.new.pairs ≡ insert (slice_cmp nat_cmp) self.old.pairs name number) }
        ensures room { IfOk result (λ before. self.old.room ≤ self.new.room + (if is_some before then 0 else 1)) }
        ensures was_ordered { IsOrdered (slice_cmp nat_cmp) self.old.pairs }
        ensures full { OnErr result (self.old.room ≡ 0) }
        ensures err { OnErr result (self.new.pairs ≡ self.old.pairs) }
    {
        self.listed = None;
        Ok(self.names.insert(name, number)?)
    }

    /// Puts a name in, or gives it another number, and answers the number before. Where the name is new, there
    /// is room for it.
    pub(crate) fn insert_in_room(&mut self, name: Name, number: u64) -> Option<u64>
        requires { get (slice_cmp nat_cmp) self.old.pairs name ≡ None → 0 < self.old.room }
        ensures before { result ≡ get (slice_cmp nat_cmp) self.old.pairs name }
        ensures pairs { self.new.pairs ≡ insert (slice_cmp nat_cmp) self.old.pairs name number }
        ensures room { self.old.room ≤ self.new.room + (if is_some result then 0 else 1) }
        ensures was_ordered { IsOrdered (slice_cmp nat_cmp) self.old.pairs }
    {
        self.listed = None;
        self.names.insert_in_room(name, number)
    }

    /// Takes a name out, and answers its number. Its place stays as room.
    pub(crate) fn remove(&mut self, name: &Name) -> Option<u64>
        ensures before { result ≡ get (slice_cmp nat_cmp) self.old.pairs name.now }
        ensures pairs { self.new.pairs ≡ remove (slice_cmp nat_cmp) self.old.pairs name.now }
        ensures room { self.new.room ≡ self.old.room + (if is_some result then 1 else 0) }
        ensures was_ordered { IsOrdered (slice_cmp nat_cmp) self.old.pairs }
    {
        self.listed = None;
        self.names.remove(name)
    }
}
