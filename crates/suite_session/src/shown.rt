//! What stands at a path, and how it is told.

ghost use Rattle.std.specs.Prelude.{◌≡◌, ◌++◌, Some, IfOk, OnOk};
ghost use Rattle.std.specs.Option.{option_copied};
ghost use Rattle.file_ops.specs.Paths.{names_of};
ghost use Rattle.suite_session.specs.Rows.{bytes_shown, child_in, content_line, content_text, copy_in, found, found_at, in_effect_in, kind_text, lists_text, owner_text, row_line, shown_by, shown_text, size_of, standing, versions_text};

use crate::newest::{Which, newest};
use crate::open_service::OpenService;
use crate::side::Side;
use acl_text::append_short;
use file_ops::{PathText, ROOT};
use script_text::push_number;
use std::alloc::{AllocError, Global};
use suite_content::{Content, Name};
use suite_prefix::{PrefixKind, SharedPrefix, StoredCopy};
use suite_script::{push_bytes, push_votes};

/// A suite with its newest prefix and its newest content.
#[derive(Drop)]
pub(crate) struct Shown {
    suite: u64,
    prefix: SharedPrefix,
    dver: u64,
    content: Content,
}

/// The suite of a name in a folder.
fn child_in(
    alloc: Global,
    copy: Option<&StoredCopy>,
    name: &Name,
) -> Result<Option<u64>, AllocError>
    ensures { IfOk result (λ suite. suite ≡ child_in (copy_in (option_copied copy.entry)) name.now) }
{
    let Some(copy) = copy else {
        return Ok(None);
    };
    match copy.given(alloc)? {
        (_, Content::Names(names)) => Ok(names.get(name)),
        (_, Content::Bytes(_)) => Ok(None),
    }
}

/// The suite to which names lead from the root folder.
fn found(alloc: Global, service: &OpenService, names: &[Name]) -> Result<Option<u64>, AllocError>
    ensures { IfOk result (λ suite. suite
        ≡ found (in_effect_in service.now.world.world service.now.settings.servers) service.now.settings.servers 0 names.now) }
{
    let mut suite = ROOT;
    for name in names {
        let copy = newest(alloc, service, Which::InEffect, Side::Content, suite)?;
        let Some(next) = child_in(alloc, copy, name)? else {
            return Ok(None);
        };
        suite = next;
    }
    Ok(Some(suite))
}

/// The suite at a path; a text that is none leads to nothing.
pub(crate) fn found_at(
    alloc: Global,
    service: &OpenService,
    text: &[u8],
) -> Result<Option<u64>, AllocError>
    ensures { IfOk result (λ suite. suite
        ≡ found_at (in_effect_in service.now.world.world service.now.settings.servers) service.now.settings.servers (names_of text.now)) }
{
    let path = PathText::new(alloc, text)?;
    match path.names() {
        Some(names) => found(alloc, service, names),
        None => Ok(None),
    }
}

/// A suite as its newest copies have it, where it was ever made.
fn shown_by(
    alloc: Global,
    suite: u64,
    head: Option<&StoredCopy>,
    body: Option<&StoredCopy>,
) -> Result<Option<Shown>, AllocError>
    ensures { IfOk result (λ shown. shown ≡ shown_by suite (copy_in (option_copied head.entry)) (copy_in (option_copied body.entry))) }
{
    let (Some(head), Some(body)) = (head, body) else {
        return Ok(None);
    };
    if head.kind() == PrefixKind::Absent {
        return Ok(None);
    }
    let (prefix, _) = head.head(alloc)?;
    let (dver, content) = body.given(alloc)?;
    Ok(Some(Shown {
        suite,
        prefix,
        dver,
        content,
    }))
}

/// What stands at a path.
pub(crate) fn standing_at(
    alloc: Global,
    service: &OpenService,
    text: &[u8],
) -> Result<Option<Shown>, AllocError>
    ensures { IfOk result (λ shown. shown ≡ standing service.now.world.world service.now.settings.servers text.now) }
{
    let Some(suite) = found_at(alloc, service, text)? else {
        return Ok(None);
    };
    let head = newest(alloc, service, Which::InEffect, Side::Prefix, suite)?;
    let body = newest(alloc, service, Which::InEffect, Side::Content, suite)?;
    shown_by(alloc, suite, head, body)
}

impl Shown {
    /// The word of its kind.
    fn kind(&self) -> &'static [u8]
        ensures { result.now ≡ kind_text self.now.content }
    {
        match self.content {
            Content::Bytes(_) => b" file",
            Content::Names(_) => b" folder",
        }
    }

    /// How many bytes or names it has.
    fn size(&self) -> u64
        ensures { result ≡ size_of self.now.content }
    {
        match &self.content {
            Content::Bytes(bytes) => bytes.len() as u64,
            Content::Names(names) => names.len() as u64,
        }
    }

    /// Adds what it is.
    fn push(&self, text: &mut Vec<u8>) -> Result<(), AllocError>
        ensures { OnOk result (text.new.items ≡ text.old.items ++ shown_text (Some self.now)) }
    {
        self.push_owner(text)?;
        self.push_lists(text)?;
        self.push_versions(text)
    }

    /// Adds its kind, its number and whose it is.
    fn push_owner(&self, text: &mut Vec<u8>) -> Result<(), AllocError>
        ensures { OnOk result (text.new.items ≡ text.old.items ++ owner_text self.now) }
    {
        text.extend_from_slice(self.kind())?;
        text.extend_from_slice(b" suite ")?;
        push_number(text, self.suite)?;
        text.extend_from_slice(b" owner ")?;
        push_number(text, u64::from(self.prefix.owner))?;
        text.extend_from_slice(b" group ")?;
        push_number(text, u64::from(self.prefix.group))
    }

    /// Adds its lists and its votes.
    fn push_lists(&self, text: &mut Vec<u8>) -> Result<(), AllocError>
        ensures { OnOk result (text.new.items ≡ text.old.items ++ lists_text self.now) }
    {
        text.extend_from_slice(b" acl ")?;
        append_short(text, &self.prefix.acl)?;
        text.extend_from_slice(b" votes ")?;
        push_votes(text, &self.prefix.votes)
    }

    /// Adds its size and its versions.
    fn push_versions(&self, text: &mut Vec<u8>) -> Result<(), AllocError>
        ensures { OnOk result (text.new.items ≡ text.old.items ++ versions_text self.now) }
    {
        text.extend_from_slice(b" size ")?;
        push_number(text, self.size())?;
        text.extend_from_slice(b" prefix ")?;
        push_number(text, self.prefix.pver)?;
        text.extend_from_slice(b" content ")?;
        push_number(text, self.dver)
    }

    /// Adds its bytes, where it is a file.
    fn push_content(&self, alloc: Global, text: &mut Vec<u8>) -> Result<(), AllocError>
        ensures { OnOk result (text.new.items ≡ text.old.items ++ content_text self.now.content) }
    {
        match &self.content {
            Content::Bytes(bytes) => {
                text.extend_from_slice(b" ")?;
                push_bytes(alloc, text, bytes)
            }
            Content::Names(_) => text.extend_from_slice(b" nothing"),
        }
    }
}

/// Adds the line that tells what stands at a path.
pub(crate) fn push_row(
    text: &mut Vec<u8>,
    path: &[u8],
    shown: &Option<Shown>,
) -> Result<(), AllocError>
    ensures { OnOk result (text.new.items ≡ text.old.items ++ row_line path.now shown.now) }
{
    text.extend_from_slice(b"row ")?;
    text.extend_from_slice(path)?;
    push_shown(text, shown)?;
    text.extend_from_slice(b"\n")
}

fn push_shown(text: &mut Vec<u8>, shown: &Option<Shown>) -> Result<(), AllocError>
    ensures { OnOk result (text.new.items ≡ text.old.items ++ shown_text shown.now) }
{
    match shown {
        Some(shown) => shown.push(text),
        None => text.extend_from_slice(b" nothing"),
    }
}

/// Adds the line that tells the bytes of the file at a path.
pub(crate) fn push_content_line(
    alloc: Global,
    text: &mut Vec<u8>,
    path: &[u8],
    shown: &Option<Shown>,
) -> Result<(), AllocError>
    ensures { OnOk result (text.new.items ≡ text.old.items ++ content_line path.now shown.now) }
{
    text.extend_from_slice(b"content ")?;
    text.extend_from_slice(path)?;
    push_bytes_shown(alloc, text, shown)?;
    text.extend_from_slice(b"\n")
}

fn push_bytes_shown(
    alloc: Global,
    text: &mut Vec<u8>,
    shown: &Option<Shown>,
) -> Result<(), AllocError>
    ensures { OnOk result (text.new.items ≡ text.old.items ++ bytes_shown shown.now) }
{
    match shown {
        Some(shown) => shown.push_content(alloc, text),
        None => text.extend_from_slice(b" nothing"),
    }
}
