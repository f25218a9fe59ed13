//! The parts of a copy as they stand in its bytes, borrowed from them.

ghost use Rattle.std.specs.Prelude.{◌≡◌, ◌↔◌, ◌∷◌, [], All, IfOk, IsOk, IsTrue, MatchOption, length};
ghost use Rattle.suite_content.specs.Names.{IsName};
ghost use Rattle.suite_content.specs.declared.content.Content.TheVariants as content;
ghost use Rattle.suite_prefix.specs.Faults.{names_rise};
ghost use Rattle.suite_prefix.specs.Reading.{Reads, folder_at, many_at, name_at, names_in};

use crate::copies::PrefixKind;
use crate::faults::CopyFault;
use crate::forms::Form;
use crate::reading::{name_at, u16_at};
use acl_core::Tag;
use sorted_map::RoomyMap;
use std::alloc::{AllocError, Global};
use std::marker::Model;
use suite_content::{FolderNames, Name, is_name};

/// An entry: its tag, the number behind it, and the byte of its permissions.
#[derive(Clone, Copy)]
pub(crate) struct EntryShape {
    pub(crate) tag: Tag,
    pub(crate) number: u32,
    pub(crate) permissions: u8,
}

/// What stands before the list.
#[derive(Clone, Copy)]
pub(crate) struct Identity {
    pub(crate) pver: u64,
    pub(crate) kind: PrefixKind,
    pub(crate) owner: u32,
    pub(crate) group: u32,
}

/// A content: the bytes of a file, or the names of a folder.
#[derive(Drop)]
pub(crate) enum ContentShape<'a> {
    File(&'a [u8]),
    Folder(Names<'a>),
}

/// A whole shape.
#[derive(Drop)]
pub(crate) struct Parts<'a> {
    pub(crate) form: Form,
    pub(crate) identity: Identity,
    pub(crate) entries: &'a [EntryShape],
    pub(crate) default: &'a [EntryShape],
    pub(crate) reps: &'a [(u8, u8)],
    pub(crate) r: u16,
    pub(crate) w: u16,
    pub(crate) dver: u64,
    pub(crate) content: ContentShape<'a>,
}

impl<'a> Model for Parts<'a> {
    ghost use Rattle.suite_prefix.specs.code.Judging.{content_in};
    ghost use Rattle.suite_prefix.specs.Reading.{Shape};

    ghost Value = { Shape };

    ghost view = { λ parts. record {
      form = parts.form;
      identity = parts.identity;
      entries = parts.entries.now;
      default = parts.default.now;
      votes = record { reps = parts.reps.now; r = parts.r; w = parts.w };
      dver = parts.dver;
      content = content_in parts.content;
    } };
}

/// Names with their numbers: how many there are, and the bytes that begin with them.
#[derive(Drop)]
pub(crate) struct Names<'a> {
    count: u16,
    bytes: &'a [u8],
}

impl<'a> Model for Names<'a> {
    ghost use Rattle.std.specs.Prelude.{ℕ, List, IsOk};
    ghost use Rattle.suite_prefix.specs.Reading.{many_at, name_at, names_in};

    ghost Value = { List (List ℕ × ℕ) };

    ghost view = { λ names. names_in names.count names.bytes.now };

    ghost invariant = { λ names. IsOk (many_at name_at names.count names.bytes.now) };
}

impl<'a> Names<'a> {
    /// The names of a folder's content, and the bytes after it.
    #[tactic(auto, unfolding(crate::specs::Reading::folder_at))]
    pub(crate) fn at(bytes: &'a [u8]) -> Result<(Names<'a>, &'a [u8]), CopyFault>
        ensures { Reads (λ x. (content.Names x.0, x.1.now)) result (folder_at bytes.now) }
    {
        let (count, bytes) = u16_at(bytes)?;
        let rest = after_names(count, bytes)?;
        Ok((Names { count, bytes }, rest))
    }

    /// How many names there are.
    pub(crate) fn len(&self) -> usize
        ensures { result ≡ length self.now }
    {
        usize::from(self.count)
    }

    /// The first name with its number, and the others.
    fn split_first(&self) -> Option<((&'a [u8], u64), Names<'a>)>
        ensures { MatchOption result (self.now ≡ []) (λ x. self.now ≡ (x.0.0.now, x.0.1) ∷ x.1) }
    {
        if self.count == 0 {
            return None;
        }
        let (first, bytes) = name_at(self.bytes).unwrap();
        let count = self.count - 1;
        Some((first, Names { count, bytes }))
    }

    /// Whether each name is below the next.
    pub(crate) fn rise(&self) -> bool
        ensures { result ≡ names_rise self.now }
    {
        let Some(((first, _), mut others)) = self.split_first() else {
            return true;
        };
        let mut before = first;
        while let Some(((name, _), rest)) = others.split_first() {
            let rises = before.cmp(name).is_lt();
            if !rises {
                return false;
            }
            before = name;
            others = rest;
        }
        true
    }

    /// Whether each is a name that a folder may have.
    pub(crate) fn are_names(&self) -> bool
        ensures { IsTrue result ↔ All (λ entry. IsName entry.0) self.now }
    {
        let mut others = Names {
            count: self.count,
            bytes: self.bytes,
        };
        while let Some(((name, _), rest)) = others.split_first() {
            if !is_name(name) {
                return false;
            }
            others = rest;
        }
        true
    }

    /// The folder of these names, which are its pairs as they stand.
    pub(crate) fn folder(&self, alloc: Global) -> Result<FolderNames, AllocError>
        requires rise { IsTrue (names_rise self.now) }
        requires are_names { All (λ entry. IsName entry.0) self.now }
        ensures { IfOk result (λ folder. folder ≡ self.now) }
    {
        let mut pairs = Vec::with_capacity(alloc, self.len())?;
        let mut others = Names {
            count: self.count,
            bytes: self.bytes,
        };
        while let Some(((name, suite), rest)) = others.split_first() {
            pairs.push_reserved((Name::known(name), suite));
            others = rest;
        }
        FolderNames::from_map(alloc, RoomyMap::from_ordered(pairs))
    }
}

/// The bytes after so many names.
fn after_names(count: u16, bytes: &[u8]) -> Result<&[u8], CopyFault>
    ensures { Reads (λ rest. (names_in count bytes.now, rest.now)) result (many_at name_at count bytes.now) }
{
    let mut rest = bytes;
    for _ in 0..count {
        let (_, after) = name_at(rest)?;
        rest = after;
    }
    Ok(rest)
}
