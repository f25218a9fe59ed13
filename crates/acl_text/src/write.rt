//! Lists written as text.

ghost use Rattle.std.specs.Prelude.{◌≡◌, ◌==◌, ◌++◌, codes, decimal, ◌∷◌, List, ℕ, take, IfOk, OnOk, OnErr, if◌then◌else◌};
ghost use Rattle.acl_text.specs.Writing.{canonical, common_text, decider_text, entry_text, is_limited, line_text, mask_of, next_text, permission_text, remark, short_text, side_text, sided_text, tag_text};
ghost use Rattle.std.specs.List.{flat_map, join_by};
ghost use Rattle.acl_text.specs.Sides.{default_entries};
ghost use Rattle.acl_text.specs.Tables.{Tables};
ghost use Rattle.acl_text.specs.Texts.{Spells};

use crate::item::Side;
use crate::laws::{all_numbers_fit, long_text_spells_its_lists, short_text_spells_its_lists};
use acl_core::{Decider, Entry, Lists, Perms, Tag};
use itoa::Buffer;
use std::alloc::{AllocError, Global};

/// A letter, or a hyphen.
fn letter(granted: bool, letter: u8) -> u8
    ensures { result ≡ (if granted then letter else 45) }
{
    if granted { letter } else { b'-' }
}

/// Permissions as three characters.
pub fn permission_text(perms: Perms) -> [u8; 3]
    ensures { result ≡ permission_text perms }
{
    [
        letter(perms.grants(Perms::READ), b'r'),
        letter(perms.grants(Perms::WRITE), b'w'),
        letter(perms.grants(Perms::EXEC), b'x'),
    ]
}

/// What two sets of permissions both have, as three characters.
fn common_text(perms: Perms, mask: Perms) -> [u8; 3]
    ensures { result ≡ common_text perms mask }
{
    [
        letter(perms.grants(Perms::READ) && mask.grants(Perms::READ), b'r'),
        letter(
            perms.grants(Perms::WRITE) && mask.grants(Perms::WRITE),
            b'w',
        ),
        letter(perms.grants(Perms::EXEC) && mask.grants(Perms::EXEC), b'x'),
    ]
}

/// Appends a word, a number and a colon.
fn append_named(text: &mut Vec<u8>, word: &[u8], id: u32) -> Result<(), AllocError>
    ensures appended { OnOk result (text.new.items ≡ text.old.items ++ (word.now ++ decimal id ++ codes ":")) }
    ensures grown { OnErr result ((more : List ℕ) × (text.new.items ≡ text.old.items ++ more)) }
{
    text.extend_from_slice(word)?;
    text.extend_from_slice(Buffer::new().format(id).as_bytes())?;
    text.push(b':')?;
    Ok(())
}

/// Appends whom an entry is about, with both colons.
fn push_tag(text: &mut Vec<u8>, tag: Tag) -> Result<(), AllocError>
    ensures appended { OnOk result (text.new.items ≡ text.old.items ++ tag_text tag) }
    ensures grown { OnErr result ((more : List ℕ) × (text.new.items ≡ text.old.items ++ more)) }
{
    match tag {
        Tag::UserObj => text.extend_from_slice(b"user::"),
        Tag::User(id) => append_named(text, b"user:", id),
        Tag::GroupObj => text.extend_from_slice(b"group::"),
        Tag::Group(id) => append_named(text, b"group:", id),
        Tag::Mask => text.extend_from_slice(b"mask::"),
        Tag::Other => text.extend_from_slice(b"other::"),
    }
}

fn append_entry(text: &mut Vec<u8>, entry: Entry) -> Result<(), AllocError>
    ensures appended { OnOk result (text.new.items ≡ text.old.items ++ entry_text entry) }
    ensures grown { OnErr result ((more : List ℕ) × (text.new.items ≡ text.old.items ++ more)) }
{
    push_tag(text, entry.tag)?;
    text.extend_from_slice(&permission_text(entry.perms))
}

/// Whether the mask limits an entry.
fn is_limited(tag: Tag) -> bool
    ensures { result ≡ is_limited tag }
{
    matches!(tag, Tag::User(_) | Tag::GroupObj | Tag::Group(_))
}

/// Appends a tab and what is left of permissions under a mask.
fn append_effective(text: &mut Vec<u8>, perms: Perms, mask: Perms) -> Result<(), AllocError>
    ensures appended { OnOk result (text.new.items ≡ text.old.items ++ (9 ∷ codes "#effective:" ++ common_text perms mask)) }
    ensures grown { OnErr result ((more : List ℕ) × (text.new.items ≡ text.old.items ++ more)) }
{
    text.extend_from_slice(b"\t#effective:")?;
    text.extend_from_slice(&common_text(perms, mask))?;
    Ok(())
}

/// Appends what is left of an entry, where the mask takes something away.
fn append_remark(text: &mut Vec<u8>, entry: Entry, mask: Option<Perms>) -> Result<(), AllocError>
    ensures appended { OnOk result (text.new.items ≡ text.old.items ++ remark mask entry) }
    ensures grown { OnErr result ((more : List ℕ) × (text.new.items ≡ text.old.items ++ more)) }
{
    let Some(mask) = mask else {
        return Ok(());
    };
    if !is_limited(entry.tag) || mask.grants(entry.perms) {
        return Ok(());
    }
    append_effective(text, entry.perms, mask)
}

/// What the mask of a list grants.
fn mask_of(entries: &[Entry]) -> Option<Perms>
    ensures { result ≡ mask_of entries.now }
{
    entries
        .iter()
        .find(|entry| entry.tag == Tag::Mask)
        .map(|entry| entry.perms)
}

/// What stands before an entry of one of the two lists.
fn side_text(side: Side) -> &'static [u8]
    ensures { result.now ≡ side_text side }
{
    match side {
        Side::Access => b"",
        Side::Default => b"default:",
    }
}

/// Appends an entry of one of the two lists.
fn append_sided(text: &mut Vec<u8>, side: Side, entry: Entry) -> Result<(), AllocError>
    ensures appended { OnOk result (text.new.items ≡ text.old.items ++ sided_text side entry) }
    ensures grown { OnErr result ((more : List ℕ) × (text.new.items ≡ text.old.items ++ more)) }
{
    text.extend_from_slice(side_text(side))?;
    append_entry(text, entry)
}

/// Appends an entry of the long text, with its line end.
fn append_line(
    text: &mut Vec<u8>,
    side: Side,
    entry: Entry,
    mask: Option<Perms>,
) -> Result<(), AllocError>
    ensures appended { OnOk result (text.new.items ≡ text.old.items ++ line_text side mask entry) }
    ensures grown { OnErr result ((more : List ℕ) × (text.new.items ≡ text.old.items ++ more)) }
{
    append_sided(text, side, entry)?;
    append_remark(text, entry, mask)?;
    text.push(b'\n')?;
    Ok(())
}

/// Appends the lines of one of the two lists, whose mask this is.
fn append_lines(
    text: &mut Vec<u8>,
    side: Side,
    mask: Option<Perms>,
    entries: &[Entry],
) -> Result<(), AllocError>
    ensures appended { OnOk result (text.new.items ≡ text.old.items ++ flat_map (line_text side mask) entries.now) }
    ensures grown { OnErr result ((more : List ℕ) × (text.new.items ≡ text.old.items ++ more)) }
{
    for entry in entries {
        append_line(text, side, *entry, mask)?;
    }
    Ok(())
}

/// Appends the lines of both lists.
fn append_both(text: &mut Vec<u8>, lists: &Lists) -> Result<(), AllocError>
    ensures appended { OnOk result (text.new.items ≡ text.old.items ++ canonical lists.now) }
    ensures grown { OnErr result ((more : List ℕ) × (text.new.items ≡ text.old.items ++ more)) }
{
    let access = lists.access.entries();
    append_lines(text, Side::Access, mask_of(access), access)?;
    match &lists.default {
        Some(default) => {
            let mask = mask_of(default.entries());
            append_lines(text, Side::Default, mask, default.entries())
        }
        None => Ok(()),
    }
}

/// Appends a comma and an entry of the short text.
fn append_next(text: &mut Vec<u8>, side: Side, entry: Entry) -> Result<(), AllocError>
    ensures appended { OnOk result (text.new.items ≡ text.old.items ++ next_text side entry) }
    ensures grown { OnErr result ((more : List ℕ) × (text.new.items ≡ text.old.items ++ more)) }
{
    text.push(b',')?;
    append_sided(text, side, entry)
}

/// Appends entries of the short text, each with a comma before it.
fn append_more(text: &mut Vec<u8>, side: Side, entries: &[Entry]) -> Result<(), AllocError>
    ensures appended { OnOk result (text.new.items ≡ text.old.items ++ flat_map (next_text side) entries.now) }
    ensures grown { OnErr result ((more : List ℕ) × (text.new.items ≡ text.old.items ++ more)) }
{
    for entry in entries {
        append_next(text, side, *entry)?;
    }
    Ok(())
}

/// Appends the entries of an access list with commas between them.
fn append_joined(text: &mut Vec<u8>, entries: &[Entry]) -> Result<(), AllocError>
    ensures appended { OnOk result (text.new.items ≡ text.old.items ++ join_by entry_text (codes ",") entries.now) }
    ensures grown { OnErr result ((more : List ℕ) × (text.new.items ≡ text.old.items ++ more)) }
{
    let Some((first, others)) = entries.split_first() else {
        return Ok(());
    };
    append_entry(text, *first)?;
    append_more(text, Side::Access, others)
}

/// Appends the entries of both lists with commas between them.
fn append_all(text: &mut Vec<u8>, lists: &Lists) -> Result<(), AllocError>
    ensures appended { OnOk result (text.new.items ≡ text.old.items ++ short_text lists.now) }
    ensures grown { OnErr result ((more : List ℕ) × (text.new.items ≡ text.old.items ++ more)) }
{
    append_joined(text, lists.access.entries())?;
    match &lists.default {
        Some(default) => append_more(text, Side::Default, default.entries()),
        None => Ok(()),
    }
}

/// Takes away what was appended, where memory ran out.
fn or_truncated(
    text: &mut Vec<u8>,
    length: usize,
    done: Result<(), AllocError>,
) -> Result<(), AllocError>
    ensures same { result ≡ done }
    ensures kept { OnOk result (text.new.items ≡ text.old.items) }
    ensures truncated { OnErr result (text.new.items ≡ take length text.old.items) }
{
    if done.is_err() {
        text.truncate(length);
    }
    done
}

/// Appends whom an entry is about, with both colons. Where memory runs out, the text stays as it was.
pub fn append_tag(text: &mut Vec<u8>, tag: Tag) -> Result<(), AllocError>
    ensures appended { OnOk result (text.new.items ≡ text.old.items ++ tag_text tag) }
    ensures unchanged { OnErr result (text.new.items ≡ text.old.items) }
{
    let begun = text.len();
    let done = push_tag(text, tag);
    or_truncated(text, begun, done)
}

/// Appends what decided a denial. Where memory runs out, the text stays as it was.
pub fn append_decider(text: &mut Vec<u8>, decider: Decider) -> Result<(), AllocError>
    ensures appended { OnOk result (text.new.items ≡ text.old.items ++ decider_text decider) }
    ensures unchanged { OnErr result (text.new.items ≡ text.old.items) }
{
    match decider {
        Decider::UserObj => append_tag(text, Tag::UserObj),
        Decider::User(id) => append_tag(text, Tag::User(id)),
        Decider::GroupObj => append_tag(text, Tag::GroupObj),
        Decider::Group(id) => append_tag(text, Tag::Group(id)),
        Decider::Mask => append_tag(text, Tag::Mask),
        Decider::Other => append_tag(text, Tag::Other),
        Decider::OwnerRule => text.extend_from_slice(b"owner"),
    }
}

/// Appends the long text of two lists, which spells them under all names. Where memory runs out, the text
/// stays as it was.
pub fn append_acl(text: &mut Vec<u8>, lists: &Lists) -> Result<(), AllocError>
    ensures appended { OnOk result (text.new.items ≡ text.old.items ++ canonical lists.now) }
    ensures spells { (names : Tables) → Spells (canonical lists.now) names lists.now.access (default_entries lists.now.default) }
    ensures unchanged { OnErr result (text.new.items ≡ text.old.items) }
{
    all_numbers_fit(lists);
    long_text_spells_its_lists();
    let begun = text.len();
    let done = append_both(text, lists);
    or_truncated(text, begun, done)
}

/// Appends the short text of two lists, which spells them under all names. Where memory runs out, the text
/// stays as it was.
pub fn append_short(text: &mut Vec<u8>, lists: &Lists) -> Result<(), AllocError>
    ensures appended { OnOk result (text.new.items ≡ text.old.items ++ short_text lists.now) }
    ensures spells { (names : Tables) → Spells (short_text lists.now) names lists.now.access (default_entries lists.now.default) }
    ensures unchanged { OnErr result (text.new.items ≡ text.old.items) }
{
    all_numbers_fit(lists);
    short_text_spells_its_lists();
    let begun = text.len();
    let done = append_all(text, lists);
    or_truncated(text, begun, done)
}

/// The long text of two lists: numbers, one entry a line, each list in canonical order, and the default list
/// last. It spells them under all names.
pub fn write_acl(alloc: Global, lists: &Lists) -> Result<Vec<u8>, AllocError>
    ensures value { IfOk result (λ text. text.items ≡ canonical lists.now) }
    ensures spells { IfOk result (λ text. (names : Tables) → Spells text.items names lists.now.access (default_entries lists.now.default)) }
{
    let mut text = Vec::new(alloc);
    append_acl(&mut text, lists)?;
    Ok(text)
}

/// The short text of two lists: the same entries, with commas between them. It spells them under all names.
pub fn write_short(alloc: Global, lists: &Lists) -> Result<Vec<u8>, AllocError>
    ensures value { IfOk result (λ text. text.items ≡ short_text lists.now) }
    ensures spells { IfOk result (λ text. (names : Tables) → Spells text.items names lists.now.access (default_entries lists.now.default)) }
{
    let mut text = Vec::new(alloc);
    append_short(&mut text, lists)?;
    Ok(text)
}
