//! The bytes of a copy.

ghost use Rattle.std.specs.Prelude.{◌≡◌, ◌+◌, ◌++◌, ◌*◌, ◌<◌, ◌≤◌, length, OnOk, IfOk};
ghost use Rattle.suite_content.specs.Limits.{max_names};
ghost use Rattle.suite_prefix.specs.Copies.{IsCopy, IsContent};
ghost use Rattle.suite_prefix.specs.Bytes.{NoneBeginsAnother, bytes_in, bytes_of, prefix_bytes, identity_bytes, list_bytes, lists_bytes, entry_bytes, votes_bytes, representative_bytes, content_bytes, kind_code, tag_code};
ghost use Rattle.acl_core.specs.Tags.{qualifier};
ghost use Rattle.suite_prefix.specs.TwoLists.{default_entries};

use crate::copies::{Prefix, PrefixKind, Replica};
use crate::forms::Form;
use acl_core::{Acl, Entry, Lists, Tag};
use bitflags::Flags;
use std::alloc::{AllocError, Global};
use suite_content::{Content, Name};
use vote_core::Votes;

/// The bytes of a valid copy, in the form that is written.
pub fn encode(alloc: Global, copy: &Replica) -> Result<Vec<u8>, AllocError>
    requires { IsCopy copy.now }
    ensures { IfOk result (λ bytes. bytes.items ≡ bytes_of copy.now) }
{
    encode_in(alloc, Form::Two, copy)
}

/// The bytes of a valid copy in a form.
pub(crate) fn encode_in(alloc: Global, form: Form, copy: &Replica) -> Result<Vec<u8>, AllocError>
    requires { IsCopy copy.now }
    ensures { IfOk result (λ bytes. bytes.items ≡ bytes_in form copy.now) }
{
    let room = room_for_prefix(&copy.prefix).saturating_add(room_for(&copy.content));
    let mut out = Vec::with_capacity(alloc, room)?;
    out.push(form.code())?;
    put_prefix(&mut out, form, &copy.prefix)?;
    out.extend_from_slice(&copy.dver.to_be_bytes())?;
    put_content(&mut out, &copy.content)?;
    Ok(out)
}

/// As many bytes as the form, a prefix and a version take.
pub(crate) fn room_for_prefix(prefix: &Prefix) -> usize
    ensures { result ≤ 6 * (length prefix.now.acl.access + length (default_entries prefix.now.acl.default)) + 2 * length prefix.now.votes.reps + 33 }
{
    let default = match &prefix.acl.default {
        Some(default) => default.entries().len(),
        None => 0,
    };
    let entries = prefix.acl.access.entries().len().saturating_add(default);
    let reps = prefix.votes.reps().len();
    entries
        .saturating_mul(6)
        .saturating_add(reps.saturating_mul(2))
        .saturating_add(33)
}

/// As many bytes as a content takes.
fn room_for(content: &Content) -> usize
    requires { IsContent content.now }
    ensures { result ≤ 131072 }
{
    match content {
        Content::Bytes(bytes) => 4 + bytes.len(),
        Content::Names(names) => 2 + room_for_names(names.as_slice()),
    }
}

fn room_for_names(names: &[(Name, u64)]) -> usize
    requires { length names.now ≤ max_names }
    ensures { result ≤ 73 * length names.now }
{
    let mut room = 0;
    for (name, _) in names {
        room += 9 + name.as_bytes().len();
    }
    room
}

/// A law: what may be read begins nothing else that may be read, so no two copies share bytes. It does nothing.
pub fn no_bytes_begin_others()
    ensures { NoneBeginsAnother }
{}

pub(crate) fn put_prefix(out: &mut Vec<u8>, form: Form, prefix: &Prefix) -> Result<(), AllocError>
    ensures { OnOk result (out.new.items ≡ out.old.items ++ prefix_bytes form prefix.now) }
{
    put_identity(out, prefix)?;
    put_lists(out, form, &prefix.acl)?;
    put_votes(out, &prefix.votes)
}

fn put_identity(out: &mut Vec<u8>, prefix: &Prefix) -> Result<(), AllocError>
    ensures { OnOk result (out.new.items ≡ out.old.items ++ identity_bytes prefix.now) }
{
    out.extend_from_slice(&prefix.pver.to_be_bytes())?;
    out.push(code_of_kind(prefix.kind))?;
    out.extend_from_slice(&prefix.owner.to_be_bytes())?;
    out.extend_from_slice(&prefix.group.to_be_bytes())?;
    Ok(())
}

fn code_of_kind(kind: PrefixKind) -> u8
    ensures { result ≡ kind_code kind }
{
    match kind {
        PrefixKind::Absent => 0,
        PrefixKind::File => 1,
        PrefixKind::Folder => 2,
    }
}

fn put_lists(out: &mut Vec<u8>, form: Form, lists: &Lists) -> Result<(), AllocError>
    ensures { OnOk result (out.new.items ≡ out.old.items ++ lists_bytes form lists.now) }
{
    put_list(out, &lists.access)?;
    match form {
        Form::One => Ok(()),
        Form::Two => put_default(out, &lists.default),
    }
}

fn put_default(out: &mut Vec<u8>, default: &Option<Acl>) -> Result<(), AllocError>
    ensures { OnOk result (out.new.items ≡ out.old.items ++ list_bytes (default_entries default.now)) }
{
    match default {
        Some(default) => put_list(out, default),
        None => out.push(0).map_err(AllocError::from),
    }
}

fn put_list(out: &mut Vec<u8>, acl: &Acl) -> Result<(), AllocError>
    ensures { OnOk result (out.new.items ≡ out.old.items ++ list_bytes acl.now) }
{
    let entries = acl.entries();
    out.push(entries.len() as u8)?;
    for entry in entries {
        put_entry(out, entry)?;
    }
    Ok(())
}

fn put_entry(out: &mut Vec<u8>, entry: &Entry) -> Result<(), AllocError>
    ensures { OnOk result (out.new.items ≡ out.old.items ++ entry_bytes entry.now) }
{
    let (code, qualifier) = parts_of_tag(entry.tag);
    out.push(code)?;
    out.extend_from_slice(&qualifier.to_be_bytes())?;
    out.push(entry.perms.bits())?;
    Ok(())
}

/// The code of a tag, and its user or group.
pub(crate) fn parts_of_tag(tag: Tag) -> (u8, u32)
    ensures code { result.0 ≡ tag_code tag }
    ensures qualifier { result.1 ≡ qualifier tag }
{
    match tag {
        Tag::UserObj => (1, 0),
        Tag::User(user) => (2, user),
        Tag::GroupObj => (3, 0),
        Tag::Group(group) => (4, group),
        Tag::Mask => (5, 0),
        Tag::Other => (6, 0),
    }
}

fn put_votes(out: &mut Vec<u8>, votes: &Votes) -> Result<(), AllocError>
    ensures { OnOk result (out.new.items ≡ out.old.items ++ votes_bytes votes.now) }
{
    let reps = votes.reps();
    out.push(reps.len() as u8)?;
    for (server, own) in reps {
        out.push(*server)?;
        out.push(*own)?;
    }
    out.extend_from_slice(&votes.r().to_be_bytes())?;
    out.extend_from_slice(&votes.w().to_be_bytes())?;
    Ok(())
}

fn put_content(out: &mut Vec<u8>, content: &Content) -> Result<(), AllocError>
    requires { IsContent content.now }
    ensures { OnOk result (out.new.items ≡ out.old.items ++ content_bytes content.now) }
{
    match content {
        Content::Bytes(bytes) => {
            out.extend_from_slice(&(bytes.len() as u32).to_be_bytes())?;
            out.extend_from_slice(bytes.as_slice())?;
        }
        Content::Names(names) => {
            out.extend_from_slice(&(names.len() as u16).to_be_bytes())?;
            names.append(out)?;
        }
    }
    Ok(())
}
