//! The entries of a list as they stand in its bytes, borrowed from them.

ghost use Rattle.std.specs.Prelude.{◌≡◌, ◌<◌, ◌↔◌, [], All, IfOk, IsOk, IsTrue, map};
ghost use Rattle.acl_core.specs.AccessLists.{IsAcl};
ghost use Rattle.suite_prefix.specs.Reading.{Reads, default_at, entries_in, entry_at, entry_from, list_at, many_at};

use crate::faults::CopyFault;
use crate::forms::Form;
use crate::reading::{byte_at, entry_at};
use acl_core::{Acl, Entry};
use std::alloc::{AllocError, Global};
use std::marker::Model;

/// Entries: how many there are, and the bytes that begin with them.
#[derive(Drop)]
pub(crate) struct Entries<'a> {
    count: u8,
    bytes: &'a [u8],
}

impl<'a> Model for Entries<'a> {
    ghost use Rattle.std.specs.Prelude.{List, IsOk};
    ghost use Rattle.suite_prefix.specs.declared.shapes.EntryShape.{EntryShape};
    ghost use Rattle.suite_prefix.specs.Reading.{entries_in, entry_at, many_at};

    ghost Value = { List EntryShape };

    ghost view = { λ entries. entries_in entries.count entries.bytes.now };

    ghost invariant = { λ entries. IsOk (many_at entry_at entries.count entries.bytes.now) };
}

impl<'a> Entries<'a> {
    /// The entries of a list, and the bytes after it.
    #[tactic(auto, unfolding(crate::specs::Reading::list_at))]
    pub(crate) fn at(bytes: &'a [u8]) -> Result<(Entries<'a>, &'a [u8]), CopyFault>
        ensures { Reads (λ x. (x.0, x.1.now)) result (list_at bytes.now) }
    {
        let (count, bytes) = byte_at(bytes)?;
        let rest = after_entries(count, bytes)?;
        Ok((Entries { count, bytes }, rest))
    }

    /// The entries of the default list, and the bytes after them. Form 1 has none.
    #[tactic(auto, unfolding(crate::specs::Reading::many_at))]
    pub(crate) fn default_at(
        form: Form,
        bytes: &'a [u8],
    ) -> Result<(Entries<'a>, &'a [u8]), CopyFault>
        ensures { Reads (λ x. (x.0, x.1.now)) result (default_at form bytes.now) }
    {
        match form {
            Form::One => Ok((Entries { count: 0, bytes }, bytes)),
            Form::Two => Entries::at(bytes),
        }
    }

    /// Whether there are none.
    pub(crate) fn is_empty(&self) -> bool
        ensures { IsTrue result ↔ (self.now ≡ []) }
    {
        self.count == 0
    }

    /// The list that they make, which is not judged again.
    pub(crate) fn list(&self, alloc: Global) -> Result<Acl, AllocError>
        requires known { All (λ entry. entry.permissions < 8) self.now }
        requires acl { IsAcl (map entry_from self.now) }
        ensures { IfOk result (λ acl. acl ≡ map entry_from self.now) }
    {
        let entries = entries_in(alloc, self.count, self.bytes)?;
        Acl::from_canonical(entries)
    }
}

/// The bytes after so many entries.
fn after_entries(count: u8, bytes: &[u8]) -> Result<&[u8], CopyFault>
    ensures { Reads (λ rest. (entries_in count bytes.now, rest.now)) result (many_at entry_at count bytes.now) }
{
    let mut rest = bytes;
    for _ in 0..count {
        let (_, after) = entry_at(rest)?;
        rest = after;
    }
    Ok(rest)
}

/// So many entries, read once.
fn entries_in(alloc: Global, count: u8, bytes: &[u8]) -> Result<Vec<Entry>, AllocError>
    requires whole { IsOk (many_at entry_at count bytes.now) }
    requires known { All (λ entry. entry.permissions < 8) (entries_in count bytes.now) }
    ensures { IfOk result (λ entries. entries.items ≡ map entry_from (entries_in count bytes.now)) }
{
    let mut entries = Vec::with_capacity(alloc, usize::from(count))?;
    let mut rest = bytes;
    for place in 0..count {
        let _ = place;
        let (shape, after) = entry_at(rest).unwrap();
        entries.push(Entry::from_digit(shape.tag, shape.permissions))?;
        rest = after;
    }
    Ok(entries)
}
