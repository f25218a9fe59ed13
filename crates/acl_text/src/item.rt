//! One item of a list's text.

ghost use Rattle.std.specs.Prelude.{◌≡◌, ℕ, false, List, [], ◌∷◌, ◌++◌, map, Err, MatchOption, if◌then◌else◌};
ghost use Rattle.std.specs.List.{list_all};
ghost use Rattle.acl_text.specs.Layout.{colon, fields_of, trimmed};
ghost use Rattle.acl_text.specs.code.Remaining.{parts_left};
ghost use Rattle.acl_text.specs.Grammar.{are_permissions, entry_reading, fields_reading, fits_keyword, numbered, reading, sided_reading, tag_of};
ghost use Rattle.acl_text.specs.code.Reading.{IsReadOf};
ghost use Rattle.acl_text.specs.Qualifiers.{is_name_byte};

use crate::cut::{cut, is_blank, trimmed};
use crate::keyword::{Keyword, is_default};
use crate::names::{NameTable, Names};
use crate::qualifier::{Digits, digits_in, is_qualifier};
use acl_core::{Entry, Tag};

/// What keeps an item from being an entry.
#[derive(Clone, Copy)]
pub(crate) enum ItemFault {
    Syntax,
    UnknownName,
    NumberTooBig,
}

/// The two lists of a file or a folder.
#[derive(Clone, Copy)]
pub(crate) enum Side {
    Access,
    Default,
}

/// What an item says: an entry of one of the two lists.
#[derive(Clone, Copy)]
pub(crate) struct SidedEntry {
    pub(crate) side: Side,
    pub(crate) entry: Entry,
}

/// What was read of permissions: the letters, and how many hyphens.
#[derive(Clone, Copy)]
pub(crate) struct Letters {
    reads: bool,
    writes: bool,
    executes: bool,
    hyphens: u8,
}

/// One byte more of permissions: each letter once at most, in any order, and three hyphens at most.
fn with_byte(letters: Letters, byte: u8) -> Option<Letters>
    ensures { (front : List ℕ) → IsReadOf letters front → let all = front ++ byte ∷ [] in
        MatchOption result (are_permissions all ≡ false) (λ next. IsReadOf next all) }
{
    match byte {
        b'r' if !letters.reads => Some(Letters {
            reads: true,
            ..letters
        }),
        b'w' if !letters.writes => Some(Letters {
            writes: true,
            ..letters
        }),
        b'x' if !letters.executes => Some(Letters {
            executes: true,
            ..letters
        }),
        b'-' if letters.hyphens < 3 => Some(Letters {
            hyphens: letters.hyphens + 1,
            ..letters
        }),
        _ => None,
    }
}

/// The permissions that a field is, if it is some.
fn permissions(field: &[u8]) -> Option<Letters>
    ensures { MatchOption result (are_permissions field.now ≡ false) (λ letters. IsReadOf letters field.now) }
{
    let mut letters = Letters {
        reads: false,
        writes: false,
        executes: false,
        hyphens: 0,
    };
    for byte in field {
        letters = with_byte(letters, *byte)?;
    }
    Some(letters)
}

/// The number of a qualifier: digits alone are one, and all else that can be one is a name.
fn numbered(qualifier: &[u8], table: &NameTable) -> Result<u32, ItemFault>
    ensures { result ≡ (if list_all is_name_byte qualifier.now then numbered table.now qualifier.now else Err ItemFault.Syntax) }
{
    match digits_in(qualifier) {
        Digits::Number(id) => Ok(id),
        Digits::TooBig => Err(ItemFault::NumberTooBig),
        Digits::Other if is_qualifier(qualifier) => {
            table.number_of(qualifier).ok_or(ItemFault::UnknownName)
        }
        Digits::Other => Err(ItemFault::Syntax),
    }
}

/// Whom an entry is about, where the qualifier can be one of this keyword.
fn tag(keyword: Keyword, qualifier: &[u8], names: &Names) -> Result<Tag, ItemFault>
    ensures { result ≡ (if fits_keyword keyword qualifier.now then tag_of names.now keyword qualifier.now else Err ItemFault.Syntax) }
{
    match keyword {
        Keyword::User if qualifier.is_empty() => Ok(Tag::UserObj),
        Keyword::User => numbered(qualifier, names.users()).map(Tag::User),
        Keyword::Group if qualifier.is_empty() => Ok(Tag::GroupObj),
        Keyword::Group => numbered(qualifier, names.groups()).map(Tag::Group),
        Keyword::Mask if qualifier.is_empty() => Ok(Tag::Mask),
        Keyword::Other if qualifier.is_empty() => Ok(Tag::Other),
        Keyword::Mask | Keyword::Other => Err(ItemFault::Syntax),
    }
}

/// The entry of a keyword, a qualifier and permissions.
fn read_entry(
    keyword: Option<Keyword>,
    qualifier: &[u8],
    field: &[u8],
    names: &Names,
) -> Result<Entry, ItemFault>
    ensures { result ≡ entry_reading names.now keyword qualifier.now field.now }
{
    let (Some(keyword), Some(letters)) = (keyword, permissions(field)) else {
        return Err(ItemFault::Syntax);
    };
    tag(keyword, qualifier, names).map(|tag| Entry::new(
        tag,
        letters.reads,
        letters.writes,
        letters.executes,
    ))
}

/// The entry of a word and the fields after it.
fn read_fields(word: &[u8], rest: Option<&[u8]>, names: &Names) -> Result<Entry, ItemFault>
    ensures { result ≡ fields_reading names.now (word.now ∷ map trimmed (parts_left colon rest.entry)) }
{
    let Some(rest) = rest else {
        return Err(ItemFault::Syntax);
    };
    let (second, rest) = cut(rest, b':');
    let Some(rest) = rest else {
        return read_entry(Keyword::single(word), b"", trimmed(second), names);
    };
    let (third, rest) = cut(rest, b':');
    if rest.is_some() {
        return Err(ItemFault::Syntax);
    }
    read_entry(Keyword::of(word), trimmed(second), trimmed(third), names)
}

/// The entry of what stands behind the word of a default list.
fn read_marked(rest: Option<&[u8]>, names: &Names) -> Result<Entry, ItemFault>
    ensures { result ≡ fields_reading names.now (map trimmed (parts_left colon rest.entry)) }
{
    let Some(rest) = rest else {
        return Err(ItemFault::Syntax);
    };
    let (word, rest) = cut(rest, b':');
    read_fields(trimmed(word), rest, names)
}

/// What the fields of an item say: an entry of one of the two lists.
fn read_sided_entry(item: &[u8], names: &Names) -> Result<SidedEntry, ItemFault>
    ensures { result ≡ sided_reading names.now (fields_of item.now) }
{
    let (word, rest) = cut(item, b':');
    let word = trimmed(word);
    if is_default(word) {
        let entry = read_marked(rest, names)?;
        Ok(SidedEntry {
            side: Side::Default,
            entry,
        })
    } else {
        let entry = read_fields(word, rest, names)?;
        Ok(SidedEntry {
            side: Side::Access,
            entry,
        })
    }
}

/// What an item says: nothing, or an entry of one of the two lists.
#[inline(always)]
pub(crate) fn read_item(item: &[u8], names: &Names) -> Result<Option<SidedEntry>, ItemFault>
    ensures { result ≡ reading names.now item.now }
{
    if is_blank(item) {
        return Ok(None);
    }
    read_sided_entry(item, names).map(Some)
}
