//! Names of users and groups, each with its number.

ghost use Rattle.std.specs.Prelude.{◌≡◌, ◌↔◌, [], ◌∷◌, ◌++◌, IsTrue, OnOk, OnErr};
ghost use Rattle.acl_text.specs.Tables.{Tables, is_name, number_in, name_fault, fault_in};
ghost use Rattle.acl_text.specs.declared.names.NameError.TheVariants.{Memory};

use crate::keys::HashKeys;
use crate::qualifier::{is_number, is_qualifier};
use indexmap::IndexMap;
use std::alloc::{AllocError, AllocFailed, Global};
use std::marker::Model;
use thiserror::Error;

/// The most bytes of a name.
pub const MAX_NAME: usize = 64;

/// Why a name was not taken.
#[derive(Clone, Copy, PartialEq, Eq, Debug, Error)]
pub enum NameError {
    /// The name is empty, too long, all digits, or has a byte that no name has.
    #[error("this is no name")]
    BadName,
    /// The name has a number already.
    #[error("the name has a number already")]
    NameTwice,
    /// Memory ran out.
    #[error("out of memory")]
    Memory,
}

impl<T: Drop> From<AllocFailed<T>> for NameError {
    ghost from_gives = { λ _ e. e ≡ Memory };

    fn from(_error: AllocFailed<T>) -> NameError {
        NameError::Memory
    }
}

impl From<AllocError> for NameError {
    ghost from_gives = { λ _ e. e ≡ Memory };

    fn from(_error: AllocError) -> NameError {
        NameError::Memory
    }
}

fn is_name(name: &[u8]) -> bool
    ensures { result ≡ is_name name.now }
{
    !name.is_empty() && name.len() <= MAX_NAME && is_qualifier(name) && !is_number(name)
}

/// Names, each with its number.
#[derive(Drop)]
pub(crate) struct NameTable {
    numbers: IndexMap<Vec<u8>, u32, HashKeys>,
}

impl Model for NameTable {
    ghost use Rattle.std.specs.Prelude.{List, ℕ, map};

    ghost Value = { List (List ℕ × ℕ) };

    ghost view = { λ table. map (λ e. (e.0.items, e.1)) table.numbers.entries };
}

impl NameTable {
    fn new(alloc: Global, keys: HashKeys) -> NameTable
        ensures { result ≡ [] }
    {
        NameTable {
            numbers: IndexMap::with_hasher(alloc, keys),
        }
    }

    fn is_empty(&self) -> bool
        ensures { IsTrue result ↔ (self.now ≡ []) }
    {
        self.numbers.is_empty()
    }

    /// The number of a name.
    pub(crate) fn number_of(&self, name: &[u8]) -> Option<u32>
        ensures { result ≡ number_in self.now name.now }
    {
        self.numbers.get(name).copied()
    }

    /// Why a name would not be taken.
    fn fault_of(&self, name: &[u8]) -> Option<NameError>
        ensures { result ≡ name_fault self.now name.now }
    {
        if !is_name(name) {
            Some(NameError::BadName)
        } else if self.number_of(name).is_some() {
            Some(NameError::NameTwice)
        } else {
            None
        }
    }

    fn add(&mut self, alloc: Global, name: &[u8], id: u32) -> Result<(), NameError>
        ensures refused { fault_in result ≡ name_fault self.old name.now }
        ensures added { OnOk result (self.new ≡ self.old ++ (name.now, id) ∷ []) }
        ensures unchanged { OnErr result (self.new ≡ self.old) }
    {
        if let Some(fault) = self.fault_of(name) {
            return Err(fault);
        }
        let name = Vec::from_slice(alloc, name)?;
        self.numbers.insert(name, id)?;
        Ok(())
    }
}

/// The numbers of users and of groups by their names. A user and a group may have one name.
#[derive(Drop)]
pub struct Names {
    users: NameTable,
    groups: NameTable,
    alloc: Global,
}

impl Model for Names {
    ghost use Rattle.acl_text.specs.Tables.{Tables};

    ghost Value = { Tables };

    ghost view = { λ names. record { users = names.users; groups = names.groups } };
}

impl Names {
    /// No names. Those that come are found by hashes with fixed keys: whoever picks them can make them collide, and
    /// then a name costs as much as there are names.
    pub fn new(alloc: Global) -> Names
        ensures { result ≡ record { users = []; groups = [] } }
    {
        Names::with_keys(alloc, HashKeys::fixed())
    }

    /// No names. Those that come are found by hashes whose keys are a digest of a text. Where that is all that the
    /// names are taken from, nobody fits names to the keys one by one: with each the keys are others.
    pub fn keyed_by(alloc: Global, text: &[u8]) -> Names
        ensures { result ≡ record { users = []; groups = [] } }
    {
        Names::with_keys(alloc, HashKeys::of_text(text))
    }

    /// The same, where the names are taken from words.
    pub fn keyed_by_words(alloc: Global, words: &[&str]) -> Names
        ensures { result ≡ record { users = []; groups = [] } }
    {
        Names::with_keys(alloc, HashKeys::of_words(words))
    }

    fn with_keys(alloc: Global, keys: HashKeys) -> Names
        ensures { result ≡ record { users = []; groups = [] } }
    {
        Names {
            users: NameTable::new(alloc, keys),
            groups: NameTable::new(alloc, keys),
            alloc,
        }
    }

    /// Where no name stands yet, those that come are found as after [`Names::keyed_by`]; else nothing changes.
    pub fn key_by(&mut self, text: &[u8])
        ensures { self.new ≡ self.old }
    {
        if self.users.is_empty() && self.groups.is_empty() {
            *self = Names::keyed_by(self.alloc, text);
        }
    }

    /// Why a user's name would not be taken, whatever its number; memory apart.
    pub fn user_fault(&self, name: &[u8]) -> Option<NameError>
        ensures { result ≡ name_fault self.now.users name.now }
    {
        self.users.fault_of(name)
    }

    /// Why a group's name would not be taken, whatever its number; memory apart.
    pub fn group_fault(&self, name: &[u8]) -> Option<NameError>
        ensures { result ≡ name_fault self.now.groups name.now }
    {
        self.groups.fault_of(name)
    }

    /// Gives a user's name a number.
    pub fn add_user(&mut self, name: &[u8], id: u32) -> Result<(), NameError>
        ensures refused { fault_in result ≡ name_fault self.old.users name.now }
        ensures added { OnOk result (self.new ≡ record self.old { users = self.old.users ++ (name.now, id) ∷ [] }) }
        ensures unchanged { OnErr result (self.new ≡ self.old) }
    {
        self.users.add(self.alloc, name, id)
    }

    /// Gives a group's name a number.
    pub fn add_group(&mut self, name: &[u8], id: u32) -> Result<(), NameError>
        ensures refused { fault_in result ≡ name_fault self.old.groups name.now }
        ensures added { OnOk result (self.new ≡ record self.old { groups = self.old.groups ++ (name.now, id) ∷ [] }) }
        ensures unchanged { OnErr result (self.new ≡ self.old) }
    {
        self.groups.add(self.alloc, name, id)
    }

    /// The users.
    pub(crate) fn users(&self) -> &NameTable
        ensures { result.now ≡ self.now.users }
    {
        &self.users
    }

    /// The groups.
    pub(crate) fn groups(&self) -> &NameTable
        ensures { result.now ≡ self.now.groups }
    {
        &self.groups
    }
}
