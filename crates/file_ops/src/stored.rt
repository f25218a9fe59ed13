//! Rows as the table stores them.

ghost use Rattle.std.specs.Prelude.{◌≡◌, ℕ, ◌≤◌, Some, IfOk, OnOk, OnErr};
ghost use Rattle.suite_content.specs.Contents.{empty_content, kind_of};
ghost use Rattle.suite_content.specs.Folders.{with_name, without_name};
ghost use Rattle.file_ops.specs.Steps.{ok_map};
ghost use Rattle.file_ops.specs.code.Stored.{listed_in, plain_content};
ghost use Rattle.file_ops.specs.Walks.{bytes_in, names_in};
ghost use Rattle.file_ops.specs.Operations.{is_used};
ghost use Rattle.file_ops.specs.code.Edits.{in_names, number_in};
ghost use Rattle.file_ops.specs.code.Capacity.{capacity_in, has_room_for};

use crate::refusal::Why;
use crate::stored_names::StoredNames;
use acl_core::Lists;
use sorted_map::{RoomyMap, SortedMap};
use std::alloc::{AllocError, Global};
use suite_content::{FileBytes, FolderNames, Kind, Name, NameList};
use vote_core::Votes;

/// The rows with their suites' numbers, which rise.
pub(crate) type StoredRows = SortedMap<u64, StoredRow>;

/// A file or a folder.
#[derive(Drop)]
pub(crate) struct StoredRow {
    pub(crate) owner: u32,
    pub(crate) group: u32,
    pub(crate) acl: Lists,
    pub(crate) votes: Votes,
    pub(crate) content: StoredContent,
}

/// What it holds. A folder's names are its own, so that they can be put in and taken out in place.
#[derive(Drop)]
pub(crate) enum StoredContent {
    Bytes(FileBytes),
    Names(StoredNames),
}

impl StoredContent {
    /// What a new file or folder holds.
    pub(crate) fn empty(alloc: Global, kind: Kind) -> StoredContent
        ensures { plain_content result ≡ empty_content kind }
    {
        match kind {
            Kind::File => StoredContent::Bytes(FileBytes::empty()),
            Kind::Folder => StoredContent::Names(StoredNames::new(alloc)),
        }
    }

    /// Whether it is a file's or a folder's.
    pub(crate) fn kind(&self) -> Kind
        ensures { result ≡ kind_of (plain_content self.now) }
    {
        match self {
            StoredContent::Bytes(_) => Kind::File,
            StoredContent::Names(_) => Kind::Folder,
        }
    }

    /// The bytes of a file.
    pub(crate) fn bytes(&self) -> Result<&FileBytes, Why>
        ensures { ok_map (λ bytes. bytes.now) result ≡ bytes_in (plain_content self.now) }
    {
        match self {
            StoredContent::Bytes(bytes) => Ok(bytes),
            StoredContent::Names(_) => Err(Why::IsFolder),
        }
    }

    /// Whether it is a folder's names, and there are any.
    pub(crate) fn has_names(&self) -> bool
        ensures { result ≡ is_used (plain_content self.now) }
    {
        match self {
            StoredContent::Names(names) => !names.map().is_empty(),
            StoredContent::Bytes(_) => false,
        }
    }

    /// The names of a folder.
    pub(crate) fn names(&self) -> Result<&RoomyMap<Name, u64>, Why>
        ensures { ok_map (λ names. names.now.pairs) result ≡ names_in (plain_content self.now) }
    {
        match self {
            StoredContent::Names(names) => Ok(names.map()),
            StoredContent::Bytes(_) => Err(Why::NotFolder),
        }
    }

    /// The names of a folder as a reply; of a file, none.
    pub(crate) fn list(&mut self, alloc: Global) -> Result<NameList, AllocError>
        ensures list { IfOk result (λ list. list ≡ listed_in (plain_content self.old)) }
        ensures same { self.new ≡ self.old }
    {
        match self {
            StoredContent::Names(names) => names.list(alloc),
            StoredContent::Bytes(_) => Ok(NameList::from(FolderNames::new(alloc))),
        }
    }

    /// Puts a name in a folder, or gives it another number.
    pub(crate) fn put_name(&mut self, name: Name, number: u64) -> Result<(), AllocError>
        ensures ok { OnOk result (plain_content self.new ≡ in_names (λ names. with_name names name number) (plain_content self.old)) }
        ensures err { OnErr result (plain_content self.new ≡ plain_content self.old) }
        ensures capacity { capacity_in self.old ≤ capacity_in self.new }
    {
        if let StoredContent::Names(names) = self {
            names.insert(name, number)?;
        }
        Ok(())
    }

    /// Puts a name in a folder that has room for it.
    pub(crate) fn put_back_name(&mut self, name: Name, number: u64)
        requires { has_room_for self.old name }
        ensures names { plain_content self.new ≡ in_names (λ names. with_name names name number) (plain_content self.old) }
        ensures capacity { capacity_in self.old ≤ capacity_in self.new }
    {
        if let StoredContent::Names(names) = self {
            let _ = names.insert_in_room(name, number);
        }
    }

    /// Takes a name out of a folder.
    pub(crate) fn drop_name(&mut self, name: &Name)
        ensures names { plain_content self.new ≡ in_names (λ names. without_name names name.now) (plain_content self.old) }
        ensures capacity { capacity_in self.old ≤ capacity_in self.new }

        // It can be put back.
        ensures back { (number : ℕ) → number_in (plain_content self.old) name.now ≡ Some number →
            in_names (λ names. with_name names name.now number) (plain_content self.new) ≡ plain_content self.old }
    {
        if let StoredContent::Names(names) = self {
            let _ = names.remove(name);
        }
    }
}
