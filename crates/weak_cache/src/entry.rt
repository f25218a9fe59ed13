//! An entry of a cache, with its size.

ghost use Rattle.std.specs.Prelude.{◌≡◌, ◌==◌, ◌-◌, ◌≤◌, ◌<◌, length, Some, IsTrue};
ghost use Rattle.std.specs.Option.{SomeIff, option_copied};
ghost use Rattle.std.specs.List.{flat_map};
ghost use Rattle.suite_prefix.specs.Bytes.{name_bytes};
ghost use Rattle.weak_cache.specs.Cache.{at_version};
ghost use Rattle.weak_cache.specs.Entries.{size_of, is_at, is_of};

use std::alloc::AllocError;
use std::marker::Model;
use suite_content::{Content, Name};
use suite_prefix::SharedPrefix;

/// The bytes of the number of a folder's names.
const COUNT_BYTES: usize = 2;

/// The bytes of a name's length and of its suite's number.
const NUMBER_BYTES: usize = 9;

/// What a site keeps of a suite, with its size, so that a folder's names are not counted again.
#[derive(Drop)]
pub(crate) struct SizedEntry {
    pub(crate) site: u8,
    pub(crate) suite: u64,
    pub(crate) prefix: SharedPrefix,
    pub(crate) dver: u64,
    pub(crate) content: Content,
    pub(crate) size: usize,
}

impl Model for SizedEntry {
    ghost use Rattle.std.specs.Prelude.{◌≡◌};
    ghost use Rattle.weak_cache.specs.Entries.{Entry, size_of};
    ghost use Rattle.weak_cache.specs.code.EntryView.{entry_in};

    ghost Value = { Entry };

    ghost view = { entry_in };

    ghost invariant = { λ fields. fields.size ≡ size_of fields.content };
}

impl Clone for SizedEntry {
    ghost use Rattle.std.specs.Prelude.{◌≡◌};

    ghost is_clone = { λ entry copy. copy ≡ entry };

    fn clone(&self) -> Result<SizedEntry, AllocError> {
        let prefix = self.prefix.clone()?;
        let content = self.content.clone()?;
        Ok(SizedEntry {
            site: self.site,
            suite: self.suite,
            prefix,
            dver: self.dver,
            content,
            size: self.size,
        })
    }
}

impl SizedEntry {
    /// Whether it is of this site.
    pub(crate) fn is_at(&self, site: u8) -> bool
        ensures { result ≡ is_at site self.now }
    {
        self.site == site
    }

    /// Whether it is of this site and this suite.
    pub(crate) fn is_of(&self, site: u8, suite: u64) -> bool
        ensures { result ≡ is_of site suite self.now }
    {
        self.site == site && self.suite == suite
    }

    /// Its site.
    pub(crate) fn site(&self) -> u8
        ensures { result ≡ self.now.site }
    {
        self.site
    }

    /// Its suite.
    pub(crate) fn suite(&self) -> u64
        ensures { result ≡ self.now.suite }
    {
        self.suite
    }

    /// Its site and its suite.
    pub(crate) fn key(&self) -> (u8, u64)
        ensures { result ≡ (self.now.site, self.now.suite) }
    {
        (self.site, self.suite)
    }

    /// The version of its content.
    pub(crate) fn dver(&self) -> u64
        ensures { result ≡ self.now.dver }
    {
        self.dver
    }

    /// Whether its content is of this version.
    pub(crate) fn is_at_version(&self, dver: u64) -> bool
        ensures { result ≡ (self.now.dver == dver) }
    {
        self.dver == dver
    }

    /// Its prefix.
    pub(crate) fn prefix(&self) -> &SharedPrefix
        ensures { result.now ≡ self.now.prefix }
    {
        &self.prefix
    }

    /// Its content.
    pub(crate) fn content(&self) -> &Content
        ensures { result.now ≡ self.now.content }
    {
        &self.content
    }

    /// Its content, where it is of this version.
    pub(crate) fn content_at(&self, dver: u64) -> Option<&Content>
        ensures { option_copied result ≡ at_version dver (Some self.now) }
    {
        self.is_at_version(dver).then_some(&self.content)
    }

    /// Whether another is the same. Where it is told, it is so.
    pub(crate) fn same(&self, other: &SizedEntry) -> bool
        ensures { IsTrue result → self.now ≡ other.now }
    {
        let same_key = self.site == other.site && self.suite == other.suite;
        same_key
            && self.dver == other.dver
            && same_prefix(&self.prefix, &other.prefix)
            && same_content(&self.content, &other.content)
    }

    /// How many bytes its content takes.
    pub(crate) fn size(&self) -> usize
        ensures { result ≡ size_of self.now.content }
    {
        self.size
    }
}

fn same_prefix(own: &SharedPrefix, theirs: &SharedPrefix) -> bool
    ensures { IsTrue result → own.now ≡ theirs.now }
{
    own == theirs
}

fn same_content(own: &Content, theirs: &Content) -> bool
    ensures { IsTrue result → own.now ≡ theirs.now }
{
    own == theirs
}

/// How many bytes a content takes, where it is no more than `most`.
pub(crate) fn size_within(content: &Content, most: usize) -> Option<usize>
    ensures { SomeIff result (size_of content.now ≤ most) (size_of content.now) }
{
    match content {
        Content::Bytes(bytes) => {
            let size = bytes.len();
            (size <= most).then_some(size)
        }
        Content::Names(names) => {
            let room = most.checked_sub(COUNT_BYTES)?;
            let left = room_after(names.as_slice(), room)?;
            Some(most - left)
        }
    }
}

/// What names leave of a room, if they have room there.
fn room_after(names: &[(Name, u64)], room: usize) -> Option<usize>
    ensures { SomeIff result (length (flat_map name_bytes names.now) ≤ room) (room - length (flat_map name_bytes names.now)) }
{
    let mut left = room;
    for (name, _) in names {
        left = left.checked_sub(name.as_bytes().len() + NUMBER_BYTES)?;
    }
    Some(left)
}
