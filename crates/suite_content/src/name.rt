//! Names in a folder.

ghost use Rattle.std.specs.Prelude.{◌≡◌, ◌+◌, ◌++◌, ◌↔◌, OnOk, ◌⊎◌, ◌≤◌, All, IsSome, IfSome, IsTrue, codes, length, take, drop, min};
ghost use Rattle.std.specs.Ordering.{nat_cmp};
ghost use Rattle.std.specs.Cmp.Lexicographic.{slice_cmp};
ghost use Rattle.suite_content.specs.Names.{IsName, is_name_byte};
ghost use Rattle.suite_content.specs.code.Fronts.{front};

use crate::gathering::GATHERED;
use std::alloc::AllocError;
use std::cmp::Ordering;
use std::fmt;
use std::fmt::Write;
use std::marker::Model;

/// The most bytes of a name.
pub const MAX_NAME: usize = 64;

/// So many bytes of two names are compared at once, as numbers.
const FRONT: usize = 8;

/// A name in a folder: 1 to 64 bytes of `A` to `Z`, `a` to `z`, `0` to `9`, `.`, `_` and `-`, and
/// neither `.` nor `..`. It takes no memory. Names are ordered by their bytes.
#[derive(Clone, Copy)]
pub struct Name {
    array: [u8; MAX_NAME],
    count: u8,
}

impl Model for Name {
    ghost use Rattle.std.specs.Prelude.{ℕ, List, take, length};

    ghost Value = { List ℕ };

    ghost use Rattle.suite_content.specs.Names.{IsName};
    ghost use Rattle.suite_content.specs.code.Padding.{IsPadded, padded, fields_back};

    ghost view = { λ n. take n.count n.array };

    ghost invariant = { λ n. IsPadded n.count n.array × IsName (take n.count n.array) };

    ghost inverse = { λ v. record { array = padded v; count = length v } };

    ghost inverse_ok = { λ n h. fields_back n h.0 };
}

impl fmt::Debug for Name {
    fn fmt<W: fmt::Write>(&self, f: &mut fmt::Formatter<W>) -> fmt::Result {
        for byte in self.as_bytes() {
            f.write_char(char::from(*byte))?;
        }
        Ok(())
    }
}

impl PartialEq for Name {
    ghost use Rattle.std.specs.Prelude.{nat_eq};
    ghost use Rattle.std.specs.Cmp.Lexicographic.{pointwise};
    ghost use Rattle.std.specs.Cmp.{partial_equiv_from_equiv};
    ghost use Rattle.std.proofs.lemmas.Cmp.{nat_list_eq_equiv};

    ghost eq = { pointwise nat_eq };

    ghost laws = { partial_equiv_from_equiv nat_list_eq_equiv };

    /// Behind a name stand zeros, so all places are compared: so many at once that it takes fewer steps than to compare
    /// as many as there are bytes.
    fn eq(&self, other: &Name) -> bool {
        let as_long = self.count == other.count;
        let as_wide = self.array == other.array;
        as_long & as_wide
    }
}

impl Eq for Name {
    ghost use Rattle.std.proofs.lemmas.Cmp.{nat_list_eq_equiv};

    ghost laws = { nat_list_eq_equiv };
}

impl PartialOrd for Name {
    ghost use Rattle.std.specs.Ordering.{nat_cmp, as_partial_cmp};
    ghost use Rattle.std.specs.Cmp.Lexicographic.{slice_cmp, texts_po};

    ghost partial_cmp = { as_partial_cmp (slice_cmp nat_cmp) };

    ghost laws = { texts_po };

    fn partial_cmp(&self, other: &Name) -> Option<Ordering> {
        Some(self.cmp(other))
    }
}

impl Ord for Name {
    ghost use Rattle.std.specs.Prelude.{refl};
    ghost use Rattle.std.specs.Ordering.{nat_cmp};
    ghost use Rattle.std.specs.Cmp.Lexicographic.{slice_cmp, texts_ties, nat_list_cmp_total};

    ghost cmp = { slice_cmp nat_cmp };

    ghost total = { nat_list_cmp_total };

    ghost matches_partial_cmp = { λ x y. refl };

    ghost matches_eq = { texts_ties };

    fn cmp(&self, other: &Name) -> Ordering {
        let (front, other_front) = (self.front(), other.front());
        if front != other_front {
            return front.cmp(&other_front);
        }
        let (bytes, other_bytes) = (self.as_bytes(), other.as_bytes());
        let same = FRONT.min(bytes.len()).min(other_bytes.len());
        order_from(bytes, other_bytes, same)
    }
}

impl Name {
    /// The name of these bytes, if they are one.
    pub fn new(bytes: &[u8]) -> Option<Name>
        ensures is_name { IsSome result ↔ IsName bytes.now }
        ensures value { IfSome result (λ name. name ≡ bytes.now) }
    {
        if !is_name(bytes) {
            return None;
        }
        Some(Name::known(bytes))
    }

    /// The name of bytes that were seen to be one.
    pub fn known(bytes: &[u8]) -> Name
        requires { IsName bytes.now }
        ensures { result ≡ bytes.now }
    {
        let mut array = [0; MAX_NAME];
        array[..bytes.len()].copy_from_slice(bytes);
        let count = bytes.len() as u8;
        Name { array, count }
    }

    /// Its bytes.
    pub fn as_bytes(&self) -> &[u8]
        ensures value { result.now ≡ self.now }
        ensures is_name { IsName self.now }
    {
        &self.array[..self.count as usize]
    }

    /// Writes its bytes. Its place is copied whole and what is too much is cut off, which is faster than to copy as many
    /// bytes as there are.
    pub fn append(&self, out: &mut Vec<u8>) -> Result<(), AllocError>
        ensures { OnOk result (out.new.items ≡ out.old.items ++ self.now) }
    {
        let all = out.len() + usize::from(self.count);
        out.extend_from_slice(&self.array)?;
        out.truncate(all);
        Ok(())
    }

    /// Puts its bytes at a place of a buffer, and answers where they end. Its place is copied whole, as in `append`.
    pub(crate) fn put_at(&self, at: usize, buffer: &mut [u8; GATHERED]) -> usize
        requires { at + 64 ≤ 1024 }
        ensures end { result ≡ at + length self.now }
        ensures bytes { take result buffer.new ≡ take at buffer.old ++ self.now }
        ensures is_name { IsName self.now }
    {
        buffer[at..at + MAX_NAME].copy_from_slice(&self.array);
        at + usize::from(self.count)
    }

    /// Its first eight bytes as one number, with zeros behind a shorter name.
    fn front(&self) -> u64
        ensures value { result ≡ front 8 self.now }
        ensures is_name { IsName self.now }
    {
        let a = &self.array;
        u64::from_be_bytes([a[0], a[1], a[2], a[3], a[4], a[5], a[6], a[7]])
    }
}

/// Whether bytes are a name.
pub fn is_name(bytes: &[u8]) -> bool
    ensures { IsTrue result ↔ IsName bytes.now }
{
    let fits = !bytes.is_empty() && bytes.len() <= MAX_NAME;
    fits && !is_reserved(bytes) && are_portable(bytes)
}

/// Whether bytes are `.` or `..`.
fn is_reserved(bytes: &[u8]) -> bool
    ensures { IsTrue result ↔ ((bytes.now ≡ codes ".") ⊎ (bytes.now ≡ codes "..")) }
{
    match bytes {
        [first] => *first == b'.',
        [first, second] => *first == b'.' && *second == b'.',
        _ => false,
    }
}

/// The order of two runs of bytes, the first of which are the same. From this place on it goes byte by byte.
fn order_from(left: &[u8], right: &[u8], from: usize) -> Ordering
    requires within { from ≤ min (length left.now) (length right.now) }
    requires same { slice_cmp nat_cmp (drop from left.now) (drop from right.now) ≡ slice_cmp nat_cmp left.now right.now }
    ensures { result ≡ slice_cmp nat_cmp left.now right.now }
{
    let both = left.len().min(right.len());
    for at in from..both {
        let found = left[at].cmp(&right[at]);
        if found.is_ne() {
            return found;
        }
    }
    left.len().cmp(&right.len())
}

/// Whether each byte may stand in a name. It looks at all of them: that many at once are compared is
/// worth more than to stop at the first that may not.
fn are_portable(bytes: &[u8]) -> bool
    ensures { IsTrue result ↔ All (λ byte. IsTrue (is_name_byte byte)) bytes.now }
{
    let mut all = true;
    for byte in bytes {
        all &= is_portable(*byte);
    }
    all
}

/// Whether a byte may stand in a name.
const fn is_portable(byte: u8) -> bool
    ensures { result ≡ is_name_byte byte }
{
    byte.is_ascii_alphanumeric() || matches!(byte, b'.' | b'_' | b'-')
}
