//! Entries taken one at a time, of which no more is kept than tells the list or its first fault.
//!
//! A list may come with a million entries. What is kept of them is the first entries, one more than a list may
//! have, whether each entry that can stand only once came once or more often, and the users and groups that were named.

ghost use Rattle.std.specs.Prelude.{◌≡◌, ◌==◌, ◌+◌, ◌≤◌, nat_lt, not, ◌&&◌, ◌||◌, ◌⊎◌, IsTrue, List, [], ◌∷◌, ◌++◌, None, Some, IfOk, IsPermutation, OnErr, OnOk, drop, length};
ghost use Rattle.std.specs.List.{list_any, zip};
ghost use Rattle.std.specs.Result.{result_err};
ghost use Rattle.acl_core.specs.AccessLists.{IsAccepted, fault_in, first_fault, max_entries};
ghost use Rattle.acl_core.specs.InOrder.{in_order};
ghost use Rattle.acl_core.specs.Tags.{is_group, is_user};
ghost use Rattle.acl_core.specs.Tallies.{IsTallyOf, is_doubled, up_to_two};
ghost use Rattle.acl_core.specs.declared.entry.Entry.{Entry};

use crate::acl::{Acl, MAX_ENTRIES};
use crate::entry::{Entry, Tag};
use crate::fault::{AclError, AclFault};
use std::alloc::{AllocError, Global};
use std::marker::Model;

/// What is kept of entries that are taken one at a time.
#[derive(Drop)]
pub struct Tally {
    user_objs: u8,
    group_objs: u8,
    masks: u8,
    others: u8,
    users: Vec<u32>,
    groups: Vec<u32>,
    kept: Vec<Entry>,
}

impl Model for Tally {
    ghost use Rattle.acl_core.specs.Tallies.{Tallied, IsWhole};

    ghost Value = { Tallied };

    ghost use Rattle.acl_core.specs.code.TallyFields.{tallied};

    ghost view = { tallied };

    ghost invariant = { λ fields. IsWhole (tallied fields) };
}

/// One more, where two are as good as any more.
fn counted(count: u8) -> u8
    ensures { result ≡ up_to_two (count + 1) }
{
    if count < 2 { count + 1 } else { 2 }
}

impl Tally {
    /// No entry yet.
    pub fn new(alloc: Global) -> Tally
        ensures { IsTallyOf result [] }
    {
        Tally {
            user_objs: 0,
            group_objs: 0,
            masks: 0,
            others: 0,
            users: Vec::new(alloc),
            groups: Vec::new(alloc),
            kept: Vec::new(alloc),
        }
    }

    /// Takes an entry. Memory is asked for only where a user or a group comes, or as long as no more
    /// entries are kept than a list may have; where it is refused, the tally stays as it was.
    pub fn take(&mut self, entry: Entry) -> Result<(), AllocError>
        ensures taken { OnOk result ((entries : List Entry) → IsTallyOf self.old entries → IsTallyOf self.new (entries ++ entry ∷ [])) }
        ensures unchanged { OnErr result (self.new ≡ self.old) }
        ensures room { OnErr result (IsTrue (is_user entry.tag || is_group entry.tag) ⊎ (length self.old.kept ≤ max_entries)) }
    {
        let is_kept = self.kept.len() <= MAX_ENTRIES;
        if is_kept {
            self.kept.reserve(1)?;
        }
        match entry.tag {
            Tag::UserObj => self.user_objs = counted(self.user_objs),
            Tag::User(id) => self.users.push(id)?,
            Tag::GroupObj => self.group_objs = counted(self.group_objs),
            Tag::Group(id) => self.groups.push(id)?,
            Tag::Mask => self.masks = counted(self.masks),
            Tag::Other => self.others = counted(self.others),
        }
        if is_kept {
            self.kept.push(entry)?;
        }
        Ok(())
    }

    /// Whether no entry was taken.
    pub fn is_empty(&self) -> bool
        ensures { (entries : List Entry) → IsTallyOf self.now entries → result ≡ (length entries == 0) }
    {
        self.kept.is_empty()
    }

    /// The list of the entries that were taken, or the first thing that is wrong with them, which is told
    /// also where memory would not have sufficed.
    pub fn finish(self) -> Result<Acl, AclError>
        ensures fault { (entries : List Entry) → IsTallyOf self entries → fault_in result ≡ first_fault entries }
        ensures value { IfOk result (λ acl. (entries : List Entry) → IsTallyOf self entries → acl ≡ in_order entries) }
        ensures same_entries { IfOk result (λ acl. (entries : List Entry) → IsTallyOf self entries → IsPermutation entries acl) }
    {
        let kept = self.checked()?;
        let acl = Acl::from_accepted(kept)?;
        Ok(acl)
    }

    /// The entries that were kept, where they are all that were taken and make a list; or the first fault of
    /// those that were taken.
    fn checked(self) -> Result<Vec<Entry>, AclFault>
        ensures fault { (entries : List Entry) → IsTallyOf self entries → first_fault entries ≡ result_err result }
        ensures kept { IfOk result (λ kept. kept.items ≡ self.kept) }
        ensures accepted { IfOk result (λ kept. IsAccepted kept.items) }
    {
        let has_twice = self.has_single_twice();
        let lacks_mask = self.lacks_mask();
        let (mut users, mut groups) = (self.users, self.groups);
        if self.user_objs == 0 {
            Err(AclFault::NoUserObj)
        } else if self.group_objs == 0 {
            Err(AclFault::NoGroupObj)
        } else if self.others == 0 {
            Err(AclFault::NoOther)
        } else if has_twice {
            Err(AclFault::TwiceSingle)
        } else if has_doubled(&mut users) {
            Err(AclFault::UserTwice)
        } else if has_doubled(&mut groups) {
            Err(AclFault::GroupTwice)
        } else if lacks_mask {
            Err(AclFault::MaskMissing)
        } else if self.kept.len() > MAX_ENTRIES {
            Err(AclFault::TooMany)
        } else {
            Ok(self.kept)
        }
    }

    /// Whether an entry that can stand only once came more often.
    fn has_single_twice(&self) -> bool
        ensures { result ≡ list_any (λ count. nat_lt 1 count) (self.now.user_objs ∷ self.now.group_objs ∷ self.now.masks ∷ self.now.others ∷ []) }
    {
        self.user_objs > 1 || self.group_objs > 1 || self.masks > 1 || self.others > 1
    }

    /// Whether a user or a group came, and no mask.
    fn lacks_mask(&self) -> bool
        ensures { result ≡ ((not (length self.now.users == 0) || not (length self.now.groups == 0)) && (self.now.masks == 0)) }
    {
        (!self.users.is_empty() || !self.groups.is_empty()) && self.masks == 0
    }
}

/// Whether a number stands twice. The numbers are sorted where they stand.
fn has_doubled(numbers: &mut [u32]) -> bool
    ensures { result ≡ is_doubled numbers.old }
{
    numbers.sort_unstable();
    has_neighbours(numbers)
}

/// Whether two neighbours are the same.
fn has_neighbours(sorted: &[u32]) -> bool
    ensures { result ≡ list_any (λ pair. pair.0 == pair.1) (zip sorted.now (drop 1 sorted.now)) }
{
    sorted
        .iter()
        .zip(sorted.iter().skip(1))
        .any(|(number, next)| *number == *next)
}
