//! Reading the parts of a copy from the left. Nothing here takes memory.

ghost use Rattle.std.specs.Prelude.{◌≡◌, ◌≤◌, length};
ghost use Rattle.std.specs.Int.{w16, w32, w64};
ghost use Rattle.suite_prefix.specs.Reading.{Reads, byte_at, number_at, bytes_at, default_at, form_at, kind_of_code, identity_at, code_at, tag_of, entry_at, representative_at, name_at, many_at, list_at, lists_at, listed_at, file_at, content_at, shape_at};
ghost use Rattle.suite_prefix.specs.code.Judging.{content_in};
ghost use Rattle.suite_content.specs.declared.content.Content.TheVariants as content;

use crate::copies::PrefixKind;
use crate::faults::CopyFault;
use crate::forms::Form;
use crate::shapes::{ContentShape, EntryShape, Identity, Names, Parts};
use acl_core::Tag;

pub(crate) fn byte_at(bytes: &[u8]) -> Result<(u8, &[u8]), CopyFault>
    ensures { Reads (λ x. (x.0, x.1.now)) result (byte_at bytes.now) }
{
    match bytes {
        [] => Err(CopyFault::Short),
        [byte, rest @ ..] => Ok((*byte, rest)),
    }
}

pub(crate) fn u16_at(bytes: &[u8]) -> Result<(u16, &[u8]), CopyFault>
    ensures { Reads (λ x. (x.0, x.1.now)) result (number_at w16 bytes.now) }
{
    if bytes.len() < 2 {
        return Err(CopyFault::Short);
    }
    let (front, rest) = bytes.split_at(2);
    Ok((u16::from_be_bytes([front[0], front[1]]), rest))
}

pub(crate) fn u32_at(bytes: &[u8]) -> Result<(u32, &[u8]), CopyFault>
    ensures { Reads (λ x. (x.0, x.1.now)) result (number_at w32 bytes.now) }
{
    if bytes.len() < 4 {
        return Err(CopyFault::Short);
    }
    let (front, rest) = bytes.split_at(4);
    let number = u32::from_be_bytes([front[0], front[1], front[2], front[3]]);
    Ok((number, rest))
}

pub(crate) fn u64_at(bytes: &[u8]) -> Result<(u64, &[u8]), CopyFault>
    ensures { Reads (λ x. (x.0, x.1.now)) result (number_at w64 bytes.now) }
{
    if bytes.len() < 8 {
        return Err(CopyFault::Short);
    }
    let (front, rest) = bytes.split_at(8);
    let number = u64::from_be_bytes([
        front[0], front[1], front[2], front[3], front[4], front[5], front[6], front[7],
    ]);
    Ok((number, rest))
}

/// So many bytes, and those after them.
pub(crate) fn bytes_at(count: usize, bytes: &[u8]) -> Result<(&[u8], &[u8]), CopyFault>
    ensures { Reads (λ x. (x.0.now, x.1.now)) result (bytes_at count bytes.now) }
{
    if bytes.len() < count {
        return Err(CopyFault::Short);
    }
    Ok(bytes.split_at(count))
}

/// The form, and the bytes after it.
pub(crate) fn form_at(bytes: &[u8]) -> Result<(Form, &[u8]), CopyFault>
    ensures { Reads (λ x. (x.0, x.1.now)) result (form_at bytes.now) }
{
    match bytes {
        [] => Err(CopyFault::Short),
        [1, rest @ ..] => Ok((Form::One, rest)),
        [2, rest @ ..] => Ok((Form::Two, rest)),
        [_, ..] => Err(CopyFault::BadTag),
    }
}

fn kind_of_code(code: u8) -> Result<PrefixKind, CopyFault>
    ensures { Reads (λ kind. kind) result (kind_of_code code) }
{
    match code {
        0 => Ok(PrefixKind::Absent),
        1 => Ok(PrefixKind::File),
        2 => Ok(PrefixKind::Folder),
        _ => Err(CopyFault::BadTag),
    }
}

#[tactic(auto, unfolding(crate::specs::Reading::identity_at))]
pub(crate) fn identity_at(bytes: &[u8]) -> Result<(Identity, &[u8]), CopyFault>
    ensures { Reads (λ x. (x.0, x.1.now)) result (identity_at bytes.now) }
{
    let (pver, rest) = u64_at(bytes)?;
    let (code, rest) = byte_at(rest)?;
    let kind = kind_of_code(code)?;
    let (owner, rest) = u32_at(rest)?;
    let (group, rest) = u32_at(rest)?;
    let identity = Identity {
        pver,
        kind,
        owner,
        group,
    };
    Ok((identity, rest))
}

fn code_at(bytes: &[u8]) -> Result<(u8, &[u8]), CopyFault>
    ensures { Reads (λ x. (x.0, x.1.now)) result (code_at bytes.now) }
{
    match bytes {
        [] => Err(CopyFault::Short),
        [code, rest @ ..] if (1..=6).contains(code) => Ok((*code, rest)),
        [_, ..] => Err(CopyFault::BadTag),
    }
}

/// The tag with this code, 1 to 6, and this user or group.
fn tag_of(code: u8, number: u32) -> Tag
    ensures { result ≡ tag_of code number }
{
    match code {
        1 => Tag::UserObj,
        2 => Tag::User(number),
        3 => Tag::GroupObj,
        4 => Tag::Group(number),
        5 => Tag::Mask,
        _ => Tag::Other,
    }
}

#[tactic(auto, unfolding(crate::specs::Reading::entry_at))]
pub(crate) fn entry_at(bytes: &[u8]) -> Result<(EntryShape, &[u8]), CopyFault>
    ensures { Reads (λ x. (x.0, x.1.now)) result (entry_at bytes.now) }
{
    let (code, rest) = code_at(bytes)?;
    let (number, rest) = u32_at(rest)?;
    let (permissions, rest) = byte_at(rest)?;
    let entry = EntryShape {
        tag: tag_of(code, number),
        number,
        permissions,
    };
    Ok((entry, rest))
}

#[tactic(auto, unfolding(crate::specs::Reading::representative_at))]
fn representative_at(bytes: &[u8]) -> Result<((u8, u8), &[u8]), CopyFault>
    ensures { Reads (λ x. (x.0, x.1.now)) result (representative_at bytes.now) }
{
    let (server, rest) = byte_at(bytes)?;
    let (votes, rest) = byte_at(rest)?;
    Ok(((server, votes), rest))
}

#[tactic(auto, unfolding(crate::specs::Reading::name_at))]
pub(crate) fn name_at(bytes: &[u8]) -> Result<((&[u8], u64), &[u8]), CopyFault>
    ensures { Reads (λ x. ((x.0.0.now, x.0.1), x.1.now)) result (name_at bytes.now) }
{
    let (len, rest) = byte_at(bytes)?;
    let (name, rest) = bytes_at(usize::from(len), rest)?;
    let (suite, rest) = u64_at(rest)?;
    Ok(((name, suite), rest))
}

/// Fills the places with entries, and gives the bytes after them.
pub(crate) fn entries_at<'a>(
    bytes: &'a [u8],
    places: &mut [EntryShape],
) -> Result<&'a [u8], CopyFault>
    ensures { Reads (λ rest. (places.new, rest.now)) result (many_at entry_at (length places.old) bytes.now) }
{
    let mut rest = bytes;
    for place in places.iter_mut() {
        let (entry, after) = entry_at(rest)?;
        *place = entry;
        rest = after;
    }
    Ok(rest)
}

/// Fills the places with representatives, and gives the bytes after them.
pub(crate) fn representatives_at<'a>(
    bytes: &'a [u8],
    places: &mut [(u8, u8)],
) -> Result<&'a [u8], CopyFault>
    ensures { Reads (λ rest. (places.new, rest.now)) result (many_at representative_at (length places.old) bytes.now) }
{
    let mut rest = bytes;
    for place in places.iter_mut() {
        let (representative, after) = representative_at(rest)?;
        *place = representative;
        rest = after;
    }
    Ok(rest)
}

/// The entries of a list, put into the first places.
#[tactic(auto, unfolding(crate::specs::Reading::list_at))]
fn list_at<'a>(
    bytes: &'a [u8],
    places: &'a mut [EntryShape; 255],
) -> Result<(&'a [EntryShape], &'a [u8]), CopyFault>
    ensures { Reads (λ x. (x.0.now, x.1.now)) result (list_at bytes.now) }
{
    let (count, rest) = byte_at(bytes)?;
    let entries = &mut places[..usize::from(count)];
    let rest = entries_at(rest, entries)?;
    Ok((entries, rest))
}

/// The entries of the default list, put into the first places. Form 1 has none.
fn default_at<'a>(
    form: Form,
    bytes: &'a [u8],
    places: &'a mut [EntryShape; 255],
) -> Result<(&'a [EntryShape], &'a [u8]), CopyFault>
    ensures { Reads (λ x. (x.0.now, x.1.now)) result (default_at form bytes.now) }
{
    match form {
        Form::One => Ok((&[], bytes)),
        Form::Two => list_at(bytes, places),
    }
}

/// The entries of the access list and those of the default list, each put into the first places of its own.
#[tactic(auto, unfolding(crate::specs::Reading::lists_at))]
fn lists_at<'a>(
    form: Form,
    bytes: &'a [u8],
    places: &'a mut [EntryShape; 255],
    default_places: &'a mut [EntryShape; 255],
) -> Result<((&'a [EntryShape], &'a [EntryShape]), &'a [u8]), CopyFault>
    ensures { Reads (λ x. ((x.0.0.now, x.0.1.now), x.1.now)) result (lists_at form bytes.now) }
{
    let (access, rest) = list_at(bytes, places)?;
    let (default, rest) = default_at(form, rest, default_places)?;
    Ok(((access, default), rest))
}

/// The representatives of votes, put into the first places.
#[tactic(auto, unfolding(crate::specs::Reading::listed_at))]
pub(crate) fn listed_at<'a>(
    bytes: &'a [u8],
    places: &'a mut [(u8, u8); 255],
) -> Result<(&'a [(u8, u8)], &'a [u8]), CopyFault>
    ensures { Reads (λ x. (x.0.now, x.1.now)) result (listed_at bytes.now) }
{
    let (count, rest) = byte_at(bytes)?;
    let reps = &mut places[..usize::from(count)];
    let rest = representatives_at(rest, reps)?;
    Ok((reps, rest))
}

#[tactic(auto, unfolding(crate::specs::Reading::file_at))]
fn file_at(bytes: &[u8]) -> Result<(&[u8], &[u8]), CopyFault>
    ensures { Reads (λ x. (content.Bytes x.0.now, x.1.now)) result (file_at bytes.now) }
{
    let (len, rest) = u32_at(bytes)?;
    bytes_at(len as usize, rest)
}

pub(crate) fn content_at(kind: PrefixKind, bytes: &[u8]) -> Result<(ContentShape, &[u8]), CopyFault>
    ensures { Reads (λ x. (content_in x.0, x.1.now)) result (content_at kind bytes.now) }
{
    match kind {
        PrefixKind::Absent | PrefixKind::File => {
            let (file, rest) = file_at(bytes)?;
            Ok((ContentShape::File(file), rest))
        }
        PrefixKind::Folder => {
            let (names, rest) = Names::at(bytes)?;
            Ok((ContentShape::Folder(names), rest))
        }
    }
}

/// The whole shape, and the bytes after it. Its lists are put into the places.
#[tactic(auto, unfolding(crate::specs::Reading::shape_at, crate::specs::Reading::votes_at))]
pub(crate) fn shape_at<'a>(
    bytes: &'a [u8],
    entry_places: &'a mut [EntryShape; 255],
    default_places: &'a mut [EntryShape; 255],
    places: &'a mut [(u8, u8); 255],
) -> Result<(Parts<'a>, &'a [u8]), CopyFault>
    ensures { Reads (λ x. (x.0, x.1.now)) result (shape_at bytes.now) }
{
    let (form, rest) = form_at(bytes)?;
    let (identity, rest) = identity_at(rest)?;
    let ((entries, default), rest) = lists_at(form, rest, entry_places, default_places)?;
    let (reps, rest) = listed_at(rest, places)?;
    let (r, rest) = u16_at(rest)?;
    let (w, rest) = u16_at(rest)?;
    let (dver, rest) = u64_at(rest)?;
    let (content, rest) = content_at(identity.kind, rest)?;
    let parts = Parts {
        form,
        identity,
        entries,
        default,
        reps,
        r,
        w,
        dver,
        content,
    };
    Ok((parts, rest))
}
