//! What a folder holds.

ghost use Rattle.std.specs.Prelude.{◌≡◌, ◌≤◌, ◌++◌, ◌↔◌, [], length, None, IsOk, OnOk, OnErr, IfOk, IsTrue};
ghost use Rattle.std.specs.Arc.{arc_value};
ghost use Rattle.std.specs.List.{flat_map};
ghost use Rattle.suite_content.specs.Limits.{max_names};
ghost use Rattle.suite_content.specs.Folders.{IsFolder, number_of, with_name, without_name, names_in};
ghost use Rattle.suite_content.specs.Written.{numbered_bytes};

use crate::gathering::append_numbered;
use crate::name::Name;
use crate::name_list::NameList;
use sorted_map::RoomyMap;
use std::alloc::{AllocError, Global};
use std::fmt;
use std::marker::Model;
use std::sync::Arc;

/// The most names of a folder.
pub const MAX_NAMES: usize = 1024;

/// A folder's names, each with the number of its suite, in byte order. A clone shares them, and so
/// does a list of the names. Names are put in and taken out in place where nothing shares them, and
/// else in a copy. Where there are none, they take no memory.
#[derive(Drop)]
pub struct FolderNames {
    alloc: Global,
    shared: Option<Arc<RoomyMap<Name, u64>>>,
}

impl Model for FolderNames {
    ghost use Rattle.std.specs.Prelude.{ℕ, List};
    ghost use Rattle.suite_content.specs.Folders.{IsFolder};
    ghost use Rattle.suite_content.specs.code.Shared.{names_of};

    ghost Value = { List (List ℕ × ℕ) };

    ghost view = { λ folder. names_of folder.shared };

    ghost invariant = { λ folder. IsFolder (names_of folder.shared) };
}

impl Clone for FolderNames {
    ghost is_clone = { λ folder copy. copy ≡ folder };

    fn clone(&self) -> Result<FolderNames, AllocError> {
        match &self.shared {
            None => Ok(FolderNames::new(self.alloc)),
            Some(names) => {
                let names = names.clone()?;
                Ok(FolderNames {
                    alloc: self.alloc,
                    shared: Some(names),
                })
            }
        }
    }
}

impl PartialEq for FolderNames {
    ghost use Rattle.suite_content.specs.Folders.{same_folder};
    ghost use Rattle.suite_content.specs.code.Equality.{same_folder_partial_laws};

    ghost eq = { same_folder };

    ghost laws = { same_folder_partial_laws };

    fn eq(&self, other: &FolderNames) -> bool {
        self.as_slice() == other.as_slice()
    }
}

impl Eq for FolderNames {
    ghost use Rattle.suite_content.specs.code.Equality.{same_folder_laws};

    ghost laws = { same_folder_laws };
}

impl fmt::Debug for FolderNames {
    fn fmt<W: fmt::Write>(&self, f: &mut fmt::Formatter<W>) -> fmt::Result {
        f.debug_list().slice(self.as_slice()).finish()
    }
}

impl FolderNames {
    /// A folder without names.
    pub fn new(alloc: Global) -> FolderNames
        ensures { result ≡ [] }
    {
        FolderNames {
            alloc,
            shared: None,
        }
    }

    /// The names of a map, which are not copied.
    pub fn from_map(alloc: Global, names: RoomyMap<Name, u64>) -> Result<FolderNames, AllocError>
        ensures value { IfOk result (λ folder. folder ≡ names.pairs) }
        ensures nothing { names.pairs ≡ [] → IsOk result }
    {
        if names.is_empty() {
            return Ok(FolderNames::new(alloc));
        }
        let names = Arc::new(alloc, names)?;
        Ok(FolderNames {
            alloc,
            shared: Some(names),
        })
    }

    /// The names with their numbers, in byte order of the names.
    pub fn as_slice(&self) -> &[(Name, u64)]
        ensures value { result.now ≡ self.now }
        ensures folder { IsFolder self.now }
    {
        match &self.shared {
            None => &[],
            Some(names) => names.as_slice(),
        }
    }

    /// How many names there are.
    pub fn len(&self) -> usize
        ensures { result ≡ length self.now }
    {
        self.as_slice().len()
    }

    /// Whether there is no name.
    pub fn is_empty(&self) -> bool
        ensures { IsTrue result ↔ (self.now ≡ []) }
    {
        self.as_slice().is_empty()
    }

    /// Whether there are as many names as a folder may have.
    pub fn is_full(&self) -> bool
        ensures { IsTrue result ↔ (max_names ≤ length self.now) }
    {
        self.len() >= MAX_NAMES
    }

    /// The number of a name's suite.
    pub fn get(&self, name: &Name) -> Option<u64>
        ensures value { result ≡ number_of self.now name.now }
        ensures folder { IsFolder self.now }
    {
        match &self.shared {
            None => None,
            Some(names) => names.get(name).copied(),
        }
    }

    /// Puts a name in, or gives it another number, and answers the number before. The name takes its
    /// place in the order. An error leaves the folder as it was.
    pub fn insert(&mut self, name: Name, number: u64) -> Result<Option<u64>, AllocError>
        ensures before { IfOk result (λ before. before ≡ number_of self.old name) }
        ensures ok { OnOk result (self.new ≡ with_name self.old name number) }
        ensures err { OnErr result (self.new ≡ self.old) }
        ensures was_folder { IsFolder self.old }
        ensures folder { IsFolder self.new }
    {
        match &mut self.shared {
            None => {
                let names = first_name(self.alloc, name, number)?;
                self.shared = Some(names);
                Ok(None)
            }
            Some(names) => put_name(names, name, number),
        }
    }

    /// Takes a name out, and answers its number. An error leaves the folder as it was, and never
    /// comes where the folder lacks the name.
    pub fn remove(&mut self, name: &Name) -> Result<Option<u64>, AllocError>
        ensures before { IfOk result (λ before. before ≡ number_of self.old name.now) }
        ensures ok { OnOk result (self.new ≡ without_name self.old name.now) }
        ensures err { OnErr result (self.new ≡ self.old) }
        ensures absent { number_of self.old name.now ≡ None → IsOk result }
        ensures was_folder { IsFolder self.old }
        ensures folder { IsFolder self.new }
    {
        match &mut self.shared {
            None => Ok(None),
            Some(names) => take_name(names, name),
        }
    }

    /// Writes the names, each with its length before it, and behind it its number, whose highest byte comes first.
    pub fn append(&self, out: &mut Vec<u8>) -> Result<(), AllocError>
        ensures { OnOk result (out.new.items ≡ out.old.items ++ flat_map numbered_bytes self.now) }
    {
        append_numbered(self.as_slice(), out)
    }

    /// The names alone, which the list shares.
    pub fn names(&self) -> Result<NameList, AllocError>
        ensures { IfOk result (λ list. list ≡ names_in self.now) }
    {
        let folder = self.clone()?;
        Ok(NameList::from(folder))
    }
}

/// A first name.
fn first_name(
    alloc: Global,
    name: Name,
    number: u64,
) -> Result<Arc<RoomyMap<Name, u64>>, AllocError>
    ensures value { IfOk result (λ names. (arc_value names).pairs ≡ with_name [] name number) }
    ensures folder { IfOk result (λ names. IsFolder (arc_value names).pairs) }
{
    let mut names = RoomyMap::new(alloc);
    names.insert(name, number)?;
    Ok(Arc::new(alloc, names)?)
}

/// Puts a name in, in a copy where others share the names.
fn put_name(
    names: &mut Arc<RoomyMap<Name, u64>>,
    name: Name,
    number: u64,
) -> Result<Option<u64>, AllocError>
    ensures before { IfOk result (λ before. before ≡ number_of (arc_value names.old).pairs name) }
    ensures ok { OnOk result ((arc_value names.new).pairs ≡ with_name (arc_value names.old).pairs name number) }
    ensures err { OnErr result ((arc_value names.new).pairs ≡ (arc_value names.old).pairs) }
    ensures folder { OnOk result (IsFolder (arc_value names.new).pairs) }
{
    let own = Arc::make_mut(names)?;
    Ok(own.insert(name, number)?)
}

/// Takes a name out, in a copy where others share the names.
fn take_name(names: &mut Arc<RoomyMap<Name, u64>>, name: &Name) -> Result<Option<u64>, AllocError>
    requires { IsFolder (arc_value names.old).pairs }
    ensures before { IfOk result (λ before. before ≡ number_of (arc_value names.old).pairs name.now) }
    ensures ok { OnOk result ((arc_value names.new).pairs ≡ without_name (arc_value names.old).pairs name.now) }
    ensures err { OnErr result ((arc_value names.new).pairs ≡ (arc_value names.old).pairs) }
    ensures absent { number_of (arc_value names.old).pairs name.now ≡ None → IsOk result }
    ensures folder { OnOk result (IsFolder (arc_value names.new).pairs) }
{
    if !names.contains_key(name) {
        return Ok(None);
    }
    let own = Arc::make_mut(names)?;
    Ok(own.remove(name))
}
