//! The copy that bytes spell. What is wrong with them is told before memory is asked for, but for the
//! memory of the list, whose faults come first there too.

ghost use Rattle.std.specs.Prelude.{◌≡◌, ◌<◌, ◌↔◌, All, IfErr, IfOk, IfSome, IsOk, IsSome, IsTrue, MatchResult, length, map};
ghost use Rattle.acl_core.specs.AccessLists.{IsAccepted};
ghost use Rattle.acl_core.specs.Entries.{entry_of};
ghost use Rattle.acl_core.specs.Modes.{minimal_list};
ghost use Rattle.suite_content.specs.Contents.{empty_content, kind_of};
ghost use Rattle.suite_prefix.specs.Bytes.{AreBytesOf};
ghost use Rattle.suite_prefix.specs.Copies.{IsCopy, IsNothing};
ghost use Rattle.suite_prefix.specs.Faults.{Explains, FaultsTellApart, FrontsAreShort, content_rises, entries_rise, is_canonical, is_written, numbers_belong};
ghost use Rattle.suite_prefix.specs.Forms.{HoldsContent};
ghost use Rattle.suite_prefix.specs.code.Judging.{FitsForm, IsSound, IsWhole, MakeLists, MakesDefault, IsWithin, KeepsRules, Refuses, content_in};
ghost use Rattle.suite_prefix.specs.Reading.{copy_of, entry_from};
ghost use Rattle.suite_prefix.specs.TwoLists.{default_of};
ghost use Rattle.suite_prefix.specs.declared.copies.Replica.{Replica};
ghost use Rattle.suite_prefix.specs.declared.faults.CopyFault.TheVariants.{Invalid};
ghost use Rattle.suite_prefix.specs.declared.faults.DecodeError.TheVariants.{Memory};

use crate::copies::{Prefix, PrefixKind, Replica};
use crate::faults::{CopyFault, DecodeError};
use crate::forms::Form;
use crate::reading::shape_at;
use crate::shapes::{ContentShape, EntryShape, Parts};
use crate::writing::parts_of_tag;
use acl_core::{Acl, AclError, Entry, Lists, MAX_ENTRIES, Tag};
use std::alloc::{AllocError, Global};
use suite_content::{Content, FileBytes, MAX_CONTENT, MAX_NAMES};
use vote_core::Votes;

/// What an entry's place has before an entry is put there.
const NO_ENTRY: EntryShape = EntryShape {
    tag: Tag::Other,
    number: 0,
    permissions: 0,
};

/// The valid copy with these bytes, in whichever form.
pub fn decode(alloc: Global, bytes: &[u8]) -> Result<Replica, DecodeError>
    // What is read is a valid copy, and these are its bytes, in a form that can hold it.
    ensures valid { IfOk result IsCopy }
    ensures bytes { IfOk result (λ copy. AreBytesOf copy bytes.now) }

    // The bytes of a valid copy in such a form are read, unless memory runs out.
    ensures only { (copy : Replica) → IsCopy copy → AreBytesOf copy bytes.now → MatchResult result (λ read. read ≡ copy) (λ error. error ≡ Memory) }

    // Else it is the fault of the bytes. Want of memory is answered to the bytes of a valid copy alone.
    ensures error { IfErr result (Explains bytes.now) }
{
    let mut entries = [NO_ENTRY; 255];
    let mut default = [NO_ENTRY; 255];
    let mut reps = [(0, 0); 255];
    let (parts, rest) = shape_at(bytes, &mut entries, &mut default, &mut reps)?;
    copy_from(alloc, &parts, rest)
}

/// A law: the bytes of a valid copy have no fault, all others have one, and none have two. It does nothing.
pub fn faults_tell_apart()
    ensures { FaultsTellApart }
{}

/// A law: each proper front of a valid copy's bytes ends too early. It does nothing.
pub fn fronts_are_short()
    ensures { FrontsAreShort }
{}

/// The copy of a shape, with these bytes behind it.
fn copy_from(alloc: Global, parts: &Parts, rest: &[u8]) -> Result<Replica, DecodeError>
    requires { FitsForm parts.now }
    ensures value { IfOk result (λ copy. copy ≡ copy_of parts.now) }
    ensures whole { IfOk result (λ copy. IsWhole parts.now rest.now) }
    ensures error { IfErr result (Refuses parts.now rest.now) }
{
    let prefix = prefix_from(alloc, parts, rest)?;
    let content = content_from(alloc, &parts.content)?;
    Ok(Replica {
        prefix,
        dver: parts.dver,
        content,
    })
}

/// The prefix of a shape, once nothing is wrong with the shape.
fn prefix_from(alloc: Global, parts: &Parts, rest: &[u8]) -> Result<Prefix, DecodeError>
    requires { FitsForm parts.now }
    ensures value { IfOk result (λ prefix. prefix ≡ (copy_of parts.now).prefix) }
    ensures whole { IfOk result (λ prefix. IsWhole parts.now rest.now) }
    ensures error { IfErr result (Refuses parts.now rest.now) }
{
    if !is_canonical(parts) {
        return Err(DecodeError::Fault(CopyFault::NotCanonical));
    }
    let Some(votes) = sound_votes(parts) else {
        return Err(DecodeError::Fault(CopyFault::Invalid));
    };
    let lists = lists_from(alloc, parts.entries, parts.default)?;
    if !rest.is_empty() {
        return Err(DecodeError::Fault(CopyFault::TrailingBytes));
    }
    let Some(acl) = lists else {
        return Err(DecodeError::Memory);
    };
    let identity = &parts.identity;
    Ok(Prefix {
        pver: identity.pver,
        kind: identity.kind,
        owner: identity.owner,
        group: identity.group,
        acl,
        votes,
    })
}

/// The votes of a shape, where all of it beside its list is that of a valid copy.
fn sound_votes(parts: &Parts) -> Option<Votes>
    ensures sound { IsSome result ↔ IsSound parts.now }
    ensures value { IfSome result (λ votes. votes ≡ parts.now.votes) }
{
    let known = permissions_known(parts.entries) && permissions_known(parts.default);
    let few = parts.entries.len() <= parts.form.most_entries();
    let held = few && holds_content(parts.form, &parts.content);
    if !(known && held && keeps_rules(parts)) {
        return None;
    }
    Votes::new(parts.form.most_servers(), parts.reps, parts.r, parts.w).ok()
}

/// Whether a shape is the one in which its copy is written.
fn is_canonical(parts: &Parts) -> bool
    ensures { result ≡ is_canonical parts.now }
{
    is_written(parts.entries) && is_written(parts.default) && content_rises(&parts.content)
}

/// Whether entries are written as those of a list.
fn is_written(entries: &[EntryShape]) -> bool
    ensures { result ≡ is_written entries.now }
{
    numbers_belong(entries) && entries_rise(entries)
}

/// Whether the number behind each tag is its user or group, and 0 where there is none.
fn numbers_belong(entries: &[EntryShape]) -> bool
    ensures { result ≡ numbers_belong entries.now }
{
    entries
        .iter()
        .all(|entry| entry.number == parts_of_tag(entry.tag).1)
}

/// Whether each entry stands before the next.
fn entries_rise(entries: &[EntryShape]) -> bool
    ensures { result ≡ entries_rise entries.now }
{
    entries
        .iter()
        .zip(entries.iter().skip(1))
        .all(|(entry, next)| entry.tag < next.tag)
}

fn content_rises(content: &ContentShape) -> bool
    ensures { result ≡ content_rises (content_in content.now) }
{
    match content {
        ContentShape::File(_) => true,
        ContentShape::Folder(names) => names.rise(),
    }
}

/// Whether no entry has more than three permissions.
fn permissions_known(entries: &[EntryShape]) -> bool
    ensures { IsTrue result ↔ All (λ entry. entry.permissions < 8) entries.now }
{
    entries.iter().all(|entry| entry.permissions < 8)
}

/// Whether a shape keeps the rules of versions and kinds, and the limits of contents.
fn keeps_rules(parts: &Parts) -> bool
    requires known { All (λ entry. entry.permissions < 8) parts.now.entries }
    ensures { IsTrue result ↔ KeepsRules parts.now }
{
    let kind_agrees = match parts.identity.kind {
        PrefixKind::Absent => parts.identity.pver == 0 && parts.dver == 0 && is_nothing(parts),
        PrefixKind::File => parts.identity.pver > 0 && parts.default.is_empty(),
        PrefixKind::Folder => parts.identity.pver > 0,
    };
    let version_agrees = parts.dver > 0 || is_empty(&parts.content);
    kind_agrees && version_agrees && is_within(&parts.content)
}

/// Whether a shape spells a prefix that is nobody's and grants nothing.
fn is_nothing(parts: &Parts) -> bool
    requires known { All (λ entry. entry.permissions < 8) parts.now.entries }
    ensures { IsTrue result ↔ IsNothing (copy_of parts.now).prefix }
{
    parts.identity.owner == 0
        && parts.identity.group == 0
        && is_closed(parts.entries)
        && parts.default.is_empty()
}

/// Whether entries spell the list of mode 000.
fn is_closed(entries: &[EntryShape]) -> bool
    requires known { All (λ entry. entry.permissions < 8) entries.now }
    ensures { IsTrue result ↔ (map entry_from entries.now ≡ minimal_list 0) }
{
    match entries {
        [owner, group, others] => {
            grants_nothing(owner, Tag::UserObj)
                && grants_nothing(group, Tag::GroupObj)
                && grants_nothing(others, Tag::Other)
        }
        _ => false,
    }
}

/// Whether an entry has this tag and no permission.
fn grants_nothing(entry: &EntryShape, tag: Tag) -> bool
    requires { entry.now.permissions < 8 }
    ensures { IsTrue result ↔ (entry_from entry.now ≡ entry_of tag 0) }
{
    entry.tag == tag && entry.permissions == 0
}

fn is_empty(content: &ContentShape) -> bool
    ensures { IsTrue result ↔ (content_in content.now ≡ empty_content (kind_of (content_in content.now))) }
{
    match content {
        ContentShape::File(bytes) => bytes.is_empty(),
        ContentShape::Folder(names) => names.len() == 0,
    }
}

fn is_within(content: &ContentShape) -> bool
    ensures { IsTrue result ↔ IsWithin (content_in content.now) }
{
    match content {
        ContentShape::File(bytes) => bytes.len() <= MAX_CONTENT,
        ContentShape::Folder(names) => names.len() <= MAX_NAMES && names.are_names(),
    }
}

/// Whether a form can hold a content.
fn holds_content(form: Form, content: &ContentShape) -> bool
    ensures { IsTrue result ↔ HoldsContent form (content_in content.now) }
{
    match content {
        ContentShape::File(bytes) => bytes.len() <= form.most_bytes(),
        ContentShape::Folder(names) => names.len() <= form.most_names(),
    }
}

/// The lists of these entries; none where memory for them was refused.
fn lists_from(
    alloc: Global,
    entries: &[EntryShape],
    default: &[EntryShape],
) -> Result<Option<Lists>, CopyFault>
    requires known { All (λ entry. entry.permissions < 8) entries.now }
    requires default_known { All (λ entry. entry.permissions < 8) default.now }
    requires rise { IsTrue (entries_rise entries.now) }
    requires default_rises { IsTrue (entries_rise default.now) }
    ensures value { IfOk result (λ lists. IfSome lists (λ made.
        made ≡ record { access = map entry_from entries.now; default = default_of (map entry_from default.now) })) }
    ensures accepted { IsOk result ↔ MakeLists entries.now default.now }
    ensures fault { IfErr result (λ fault. fault ≡ Invalid) }
{
    let access = list_from(alloc, entries)?;
    let default = default_from(alloc, default)?;
    let (Some(access), Some(default)) = (access, default) else {
        return Ok(None);
    };
    Ok(Some(Lists { access, default }))
}

/// The default list of these entries, if there are some; none where memory for it was refused.
fn default_from(alloc: Global, shapes: &[EntryShape]) -> Result<Option<Option<Acl>>, CopyFault>
    requires known { All (λ entry. entry.permissions < 8) shapes.now }
    requires rise { IsTrue (entries_rise shapes.now) }
    ensures value { IfOk result (λ list. IfSome list (λ acl. acl ≡ default_of (map entry_from shapes.now))) }
    ensures accepted { IsOk result ↔ MakesDefault (map entry_from shapes.now) }
    ensures fault { IfErr result (λ fault. fault ≡ Invalid) }
{
    if shapes.is_empty() {
        return Ok(Some(None));
    }
    match list_from(alloc, shapes)? {
        Some(acl) => Ok(Some(Some(acl))),
        None => Ok(None),
    }
}

/// The list of these entries; none where memory for it was refused.
fn list_from(alloc: Global, shapes: &[EntryShape]) -> Result<Option<Acl>, CopyFault>
    requires known { All (λ entry. entry.permissions < 8) shapes.now }
    requires rise { IsTrue (entries_rise shapes.now) }
    ensures value { IfOk result (λ list. IfSome list (λ acl. acl ≡ map entry_from shapes.now)) }
    ensures accepted { IsOk result ↔ IsAccepted (map entry_from shapes.now) }
    ensures fault { IfErr result (λ fault. fault ≡ Invalid) }
{
    if shapes.len() > MAX_ENTRIES {
        return Err(CopyFault::Invalid);
    }
    let mut places = [Entry::from_digit(Tag::Other, 0); MAX_ENTRIES];
    let entries = &mut places[..shapes.len()];
    put_entries(shapes, entries);
    match Acl::from_entries(alloc, entries) {
        Ok(acl) => Ok(Some(acl)),
        Err(AclError::Invalid(_)) => Err(CopyFault::Invalid),
        Err(AclError::Memory) => Ok(None),
    }
}

/// Puts the entries that shapes spell into as many places.
fn put_entries(shapes: &[EntryShape], entries: &mut [Entry])
    requires known { All (λ entry. entry.permissions < 8) shapes.now }
    requires as_many { length entries.old ≡ length shapes.now }
    ensures { entries.new ≡ map entry_from shapes.now }
{
    for (i, shape) in shapes.iter().enumerate() {
        entries[i] = Entry::from_digit(shape.tag, shape.permissions);
    }
}

pub(crate) fn content_from(alloc: Global, content: &ContentShape) -> Result<Content, AllocError>
    requires rises { IsTrue (content_rises (content_in content.now)) }
    requires within { IsWithin (content_in content.now) }
    ensures { IfOk result (λ made. made ≡ content_in content.now) }
{
    match content {
        ContentShape::File(bytes) => Ok(Content::Bytes(FileBytes::from_slice(alloc, bytes)?)),
        ContentShape::Folder(names) => Ok(Content::Names(names.folder(alloc)?)),
    }
}
