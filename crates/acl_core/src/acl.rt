//! Valid lists.

ghost use Rattle.std.specs.Prelude.{◌≡◌, ◌<◌, ◌==◌, IfOk, IfSome, IsPermutation, ◌↔◌, None, map};
ghost use Rattle.acl_core.specs.AccessLists.{IsAcl, first_fault, fault_in, IsAccepted};
ghost use Rattle.acl_core.specs.InOrder.{in_order};
ghost use Rattle.acl_core.specs.Modes.{minimal_list};
ghost use Rattle.acl_core.specs.Creation.{cut_to, inherited, limit_of};

use crate::check::mask_of;
use crate::entry::{Entry, Tag};
use crate::fault::AclError;
use crate::mode::Mode;
use crate::search::{first_fault_of, into_sorted};
use std::alloc::{AllocError, Global};
use std::marker::Model;
use std::sync::ArcSlice;

/// The most entries of a list.
pub const MAX_ENTRIES: usize = 128;

/// A valid list of at most [`MAX_ENTRIES`] entries, in canonical order. A clone shares the entries.
#[derive(Debug, Drop)]
pub struct Acl {
    entries: ArcSlice<Entry>,
}

impl Model for Acl {
    ghost use Rattle.std.specs.Prelude.{List};
    ghost use Rattle.std.specs.Arc.{arc_slice_items};
    ghost use Rattle.acl_core.specs.declared.entry.Entry.{Entry};
    ghost use Rattle.acl_core.specs.AccessLists.{IsAcl};

    ghost Value = { List Entry };

    ghost view = { λ acl. arc_slice_items acl.entries };

    ghost invariant = { λ acl. IsAcl (arc_slice_items acl.entries) };
}

impl Clone for Acl {
    ghost is_clone = { λ acl copy. copy ≡ acl };

    fn clone(&self) -> Result<Acl, AllocError> {
        let entries = self.entries.clone()?;
        Ok(Acl { entries })
    }
}

impl PartialEq for Acl {
    ghost use Rattle.std.specs.Cmp.Lexicographic.{pointwise};
    ghost use Rattle.acl_core.specs.Tags.{same_entry};
    ghost use Rattle.acl_core.specs.code.EntryLaws.{same_list_partial_laws};

    ghost eq = { λ a b. pointwise same_entry a b };

    ghost laws = { same_list_partial_laws };

    fn eq(&self, other: &Acl) -> bool {
        self.entries == other.entries
    }
}

impl Eq for Acl {
    ghost use Rattle.acl_core.specs.code.EntryLaws.{same_list_laws};

    ghost laws = { same_list_laws };
}

impl Acl {
    /// The list of these entries, which may come in any order. What is wrong with them is answered by
    /// the first of its names, also where memory would not have sufficed.
    pub fn from_entries(alloc: Global, entries: &[Entry]) -> Result<Acl, AclError>
        ensures fault { fault_in result ≡ first_fault entries.now }
        ensures accepted { (first_fault entries.now ≡ None) ↔ IsAccepted entries.now }
        ensures value { IfOk result (λ acl. acl ≡ in_order entries.now) }
        ensures same_entries { IfOk result (IsPermutation entries.now) }
        ensures acl { IfOk result IsAcl }
    {
        let Ok(copy) = Vec::from_slice(alloc, entries) else {
            return Err(match first_fault_of(entries, None) {
                Some(fault) => AclError::Invalid(fault),
                None => AclError::Memory,
            });
        };
        Acl::from_vec(copy)
    }

    /// The list of these entries, which may come in any order and are sorted where they stand. What is
    /// wrong with them is answered by the first of its names, also where memory would not have sufficed.
    pub fn from_vec(entries: Vec<Entry>) -> Result<Acl, AclError>
        ensures fault { fault_in result ≡ first_fault entries.items }
        ensures accepted { (first_fault entries.items ≡ None) ↔ IsAccepted entries.items }
        ensures value { IfOk result (λ acl. acl ≡ in_order entries.items) }
        ensures same_entries { IfOk result (IsPermutation entries.items) }
        ensures acl { IfOk result IsAcl }
    {
        let sorted = into_sorted(entries);
        if let Some(fault) = first_fault_of(&sorted, Some(&sorted)) {
            return Err(AclError::Invalid(fault));
        }
        let entries = ArcSlice::from_vec(sorted)?;
        Ok(Acl { entries })
    }

    /// The list of these entries, which make one. They are sorted where they stand.
    pub(crate) fn from_accepted(entries: Vec<Entry>) -> Result<Acl, AllocError>
        requires { IsAccepted entries.items }
        ensures value { IfOk result (λ acl. acl ≡ in_order entries.items) }
        ensures same_entries { IfOk result (IsPermutation entries.items) }
    {
        let sorted = into_sorted(entries);
        let entries = ArcSlice::from_vec(sorted)?;
        Ok(Acl { entries })
    }

    /// The list of these entries, which are those of one in their order. They are not looked at.
    pub fn from_canonical(entries: Vec<Entry>) -> Result<Acl, AllocError>
        requires { IsAcl entries.items }
        ensures { IfOk result (λ acl. acl ≡ entries.items) }
    {
        let entries = ArcSlice::from_vec(entries)?;
        Ok(Acl { entries })
    }

    /// The list of a mode: the owner's, the group's and the others' permissions.
    pub fn from_mode(alloc: Global, mode: Mode) -> Result<Acl, AllocError>
        ensures list { IfOk result (λ acl. acl ≡ minimal_list mode) }
        ensures acl { IfOk result IsAcl }
    {
        let [owner, group, others] = mode.digits();
        let entries = vec![in alloc;
            Entry::from_digit(Tag::UserObj, owner),
            Entry::from_digit(Tag::GroupObj, group),
            Entry::from_digit(Tag::Other, others),
        ]?;
        let entries = ArcSlice::from_vec(entries)?;
        Ok(Acl { entries })
    }

    /// The list of what is made with a mode in a folder whose default list this is: the same entries, of
    /// which the owner's, the mask (the file's group where there is no mask) and the others' keep only what
    /// the mode grants the owner, the group and the others.
    pub fn inherit(&self, alloc: Global, mode: Mode) -> Result<Acl, AllocError>
        ensures list { IfOk result (λ acl. acl ≡ inherited self.now mode) }
        ensures acl { IfOk result IsAcl }
    {
        let masked = mask_of(&self.entries).is_some();
        let entries = all_cut(alloc, &self.entries, masked, mode)?;
        let entries = ArcSlice::from_vec(entries)?;
        Ok(Acl { entries })
    }

    /// The entries, in canonical order.
    pub fn entries(&self) -> &[Entry]
        ensures value { result.now ≡ self.now }
        ensures acl { IsAcl self.now }
    {
        &self.entries
    }
}

/// The digit of a mode that limits an entry, if one does, in a list with or without a mask.
fn limit_of(tag: Tag, masked: bool, mode: Mode) -> Option<u8>
    ensures value { result ≡ limit_of masked mode tag }
    ensures small { IfSome result (λ digit. digit < 8) }
{
    let [owner, group, others] = mode.digits();
    match tag {
        Tag::UserObj => Some(owner),
        Tag::GroupObj if masked => None,
        Tag::GroupObj | Tag::Mask => Some(group),
        Tag::Other => Some(others),
        Tag::User(_) | Tag::Group(_) => None,
    }
}

/// An entry with no more than the mode grants.
fn cut(entry: Entry, masked: bool, mode: Mode) -> Entry
    ensures { result ≡ cut_to (limit_of masked mode entry.tag) entry }
{
    match limit_of(entry.tag, masked, mode) {
        Some(digit) => Entry::from_digit(entry.tag, entry.perms.common_digit(digit)),
        None => entry,
    }
}

/// Entries, each with no more than the mode grants.
fn all_cut(
    alloc: Global,
    entries: &[Entry],
    masked: bool,
    mode: Mode,
) -> Result<Vec<Entry>, AllocError>
    ensures { IfOk result (λ all. all.items ≡ map (λ e. cut_to (limit_of masked mode e.tag) e) entries.now) }
{
    entries
        .iter()
        .map(|entry| cut(*entry, masked, mode))
        .collect(alloc)
}
