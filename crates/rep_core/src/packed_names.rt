//! The names of a list as one text. In a list each name takes 80 bytes, here as many as it has and one more.

ghost use Rattle.std.specs.Prelude.{◌≡◌, ◌<◌, length, All, IfOk, IfSome, IsTrue};
ghost use Rattle.suite_content.specs.Names.{IsName};
ghost use Rattle.suite_content.specs.Written.{with_commas};
ghost use Rattle.rep_core.specs.code.PackedNames.{parts, unnumbered, AreInOrder};

use sorted_map::{BlockMap, RoomyMap};
use std::alloc::{AllocError, Global};
use std::marker::Model;
use suite_content::{FileBytes, FolderNames, Name, NameList};

/// The names of a list, with a comma between each two, and how many there are. A clone shares the text.
#[derive(Drop)]
pub(crate) struct PackedNames {
    text: FileBytes,
    count: usize,
}

impl Model for PackedNames {
    ghost use Rattle.std.specs.Prelude.{◌≡◌, ℕ, List, length};
    ghost use Rattle.rep_core.specs.code.PackedNames.{parts, AreInOrder};

    ghost Value = { List (List ℕ) };

    ghost view = { λ packed. parts packed.text };

    ghost invariant = { λ packed. (packed.count ≡ length (parts packed.text)) × AreInOrder (parts packed.text) };
}

impl Clone for PackedNames {
    ghost use Rattle.std.specs.Prelude.{◌≡◌};

    ghost is_clone = { λ packed copy. copy ≡ packed };

    fn clone(&self) -> Result<PackedNames, AllocError> {
        let text = self.text.clone()?;
        Ok(PackedNames {
            text,
            count: self.count,
        })
    }
}

impl PackedNames {
    /// Those of a list with this text. None where its names do not rise, as those of each folder do.
    fn new(alloc: Global, list: &NameList, text: &[u8]) -> Result<Option<PackedNames>, AllocError>
        requires text { text.now ≡ with_commas list.now }
        requires some { 0 < length list.now }
        ensures { IfOk result (λ packed. IfSome packed (λ names. names ≡ list.now)) }
    {
        if !are_in_order(list) {
            return Ok(None);
        }
        let text = FileBytes::from_slice(alloc, text)?;
        Ok(Some(PackedNames {
            text,
            count: list.len(),
        }))
    }

    /// Whether they are those of a list with this text.
    fn is(&self, list: &NameList, text: &[u8]) -> bool
        requires text { text.now ≡ with_commas list.now }
        requires some { 0 < length list.now }
        ensures { IsTrue result → self.now ≡ list.now }
    {
        self.count == list.len() && self.text.as_slice() == text
    }

    /// Whether they are the same.
    pub(crate) fn same(&self, other: &PackedNames) -> bool
        ensures { IsTrue result → self.now ≡ other.now }
    {
        self.text.as_slice() == other.text.as_slice()
    }

    /// The list of them.
    pub(crate) fn unpacked(&self, alloc: Global) -> Result<NameList, AllocError>
        ensures { IfOk result (λ list. list ≡ self.now) }
    {
        let entries = entries_in(alloc, self.text.as_slice(), self.count)?;
        let folder = FolderNames::from_map(alloc, RoomyMap::from_ordered(entries))?;
        Ok(NameList::from(folder))
    }
}

/// A list, and its names as they are kept.
#[derive(Drop)]
struct KnownList {
    list: NameList,
    packed: PackedNames,
}

impl Model for KnownList {
    ghost use Rattle.std.specs.Prelude.{◌≡◌, ℕ, List};

    ghost Value = { List (List ℕ) };

    ghost view = { λ known. known.packed };

    ghost invariant = { λ known. known.packed ≡ known.list };
}

impl KnownList {
    /// Whether it is this list.
    fn is(&self, list: &NameList) -> bool
        ensures { IsTrue result → self.now ≡ list.now }
    {
        self.list == *list
    }

    /// Its names.
    fn names(&self) -> Result<PackedNames, AllocError>
        ensures { IfOk result (λ names. names ≡ self.now) }
    {
        self.packed.clone()
    }
}

/// The lists that were packed, by the checksum of their texts, so that the same list is kept once; the last one, which
/// is mostly the next one too; and the place where a text is written.
#[derive(Drop)]
pub(crate) struct PackedLists {
    lists: BlockMap<u64, PackedNames>,
    last: Option<KnownList>,
    text: Vec<u8>,
}

impl PackedLists {
    /// None.
    pub(crate) fn new(alloc: Global) -> PackedLists {
        PackedLists {
            lists: BlockMap::new(alloc),
            last: None,
            text: Vec::new(alloc),
        }
    }

    /// A list as it is kept. None where its names do not rise.
    pub(crate) fn pack(
        &mut self,
        alloc: Global,
        list: &NameList,
    ) -> Result<Option<PackedNames>, AllocError>
        requires { 0 < length list.now }
        ensures { IfOk result (λ packed. IfSome packed (λ names. names ≡ list.now)) }
    {
        match &self.last {
            Some(last) if last.is(list) => return Ok(Some(last.names()?)),
            _ => {}
        }
        let Some(packed) = self.pack_text(alloc, list)? else {
            return Ok(None);
        };
        let names = packed.clone()?;
        self.last = Some(KnownList {
            list: list.clone()?,
            packed,
        });
        Ok(Some(names))
    }

    /// The same, of a list that is not the last one.
    fn pack_text(
        &mut self,
        alloc: Global,
        list: &NameList,
    ) -> Result<Option<PackedNames>, AllocError>
        requires { 0 < length list.now }
        ensures { IfOk result (λ packed. IfSome packed (λ names. names ≡ list.now)) }
    {
        self.text.clear();
        list.append(&mut self.text)?;
        let sum = checksum(&self.text);
        match self.lists.get(&sum) {
            Some(known) if known.is(list, &self.text) => return Ok(Some(known.clone()?)),
            _ => {}
        }
        let Some(packed) = PackedNames::new(alloc, list, &self.text)? else {
            return Ok(None);
        };
        self.lists.reserve(1)?;
        self.lists.insert_in_room(sum, packed.clone()?);
        Ok(Some(packed))
    }
}

/// Whether each name is below the next.
fn are_in_order(list: &NameList) -> bool
    ensures { IsTrue result → AreInOrder list.now }
{
    let mut before: &[u8] = &[];
    for name in list.iter() {
        let bytes = name.as_bytes();
        let rises = before.cmp(bytes).is_lt();
        if !rises {
            return false;
        }
        before = bytes;
    }
    true
}

/// The names of a text, with numbers that nobody asks for.
fn entries_in(alloc: Global, text: &[u8], count: usize) -> Result<Vec<(Name, u64)>, AllocError>
    requires { All IsName (parts text.now) }
    ensures { IfOk result (λ entries. entries.items ≡ unnumbered (parts text.now)) }
{
    let mut entries = Vec::with_capacity(alloc, count)?;
    for name in text.split(|byte| *byte == b',') {
        entries.push((Name::known(name), 0))?;
    }
    Ok(entries)
}

/// A number that is mostly another for another text.
fn checksum(text: &[u8]) -> u64 {
    let mut sum = 0;
    let mut left = text;
    while let [a, b, c, d, e, f, g, h, rest @ ..] = left {
        sum = stirred(sum, u64::from_le_bytes([*a, *b, *c, *d, *e, *f, *g, *h]));
        left = rest;
    }
    for byte in left {
        sum = stirred(sum, u64::from(*byte));
    }
    sum
}

fn stirred(sum: u64, word: u64) -> u64 {
    (sum.rotate_left(5) ^ word).wrapping_mul(0x517c_c1b7_2722_0a95)
}
