//! Prefixes, contents and copies.

ghost use Rattle.std.specs.Prelude.{◌≡◌, ◌++◌, OnOk, codes};
ghost use Rattle.std.specs.List.{flat_map};
ghost use Rattle.event_json.specs.Copies.{content_text, copy_text, kind_text, list_text, name_text, owners_text, prefix_text, replica_text, rules_text, version_text, votes_member};
ghost use Rattle.event_json.specs.Strings.{listed};

use crate::strings::{push_hex, push_member};
use acl_core::Lists;
use acl_text::append_short;
use script_text::push_number;
use std::alloc::{AllocError, Global};
use suite_content::{Content, Name};
use suite_prefix::{Prefix, PrefixKind, Replica, StoredCopy};
use suite_script::push_votes;
use vote_core::Votes;

/// A copy of a suite: its prefix, and its content with that version.
pub fn push_copy(
    alloc: Global,
    text: &mut Vec<u8>,
    suite: u64,
    copy: &StoredCopy,
) -> Result<(), AllocError>
    ensures { OnOk result (text.new.items ≡ text.old.items ++ copy_text suite copy.now.copy) }
{
    push_member(text, b"{\"suite\":", suite)?;
    text.extend_from_slice(b",")?;
    push_stored(alloc, text, copy)?;
    text.extend_from_slice(b"}")
}

/// The members of a copy that is stored.
fn push_stored(alloc: Global, text: &mut Vec<u8>, copy: &StoredCopy) -> Result<(), AllocError>
    ensures { OnOk result (text.new.items ≡ text.old.items ++ replica_text copy.now.copy) }
{
    let (prefix, _) = copy.head(alloc)?;
    push_prefix(text, &prefix)?;
    let (dver, content) = copy.given(alloc)?;
    push_version(alloc, text, dver, &content)
}

/// The members of a copy.
pub(crate) fn push_replica(
    alloc: Global,
    text: &mut Vec<u8>,
    copy: &Replica,
) -> Result<(), AllocError>
    ensures { OnOk result (text.new.items ≡ text.old.items ++ replica_text copy.now) }
{
    push_prefix(text, &copy.prefix)?;
    push_version(alloc, text, copy.dver, &copy.content)
}

/// The members of a content with its version.
pub(crate) fn push_version(
    alloc: Global,
    text: &mut Vec<u8>,
    dver: u64,
    content: &Content,
) -> Result<(), AllocError>
    ensures { OnOk result (text.new.items ≡ text.old.items ++ version_text dver content.now) }
{
    push_member(text, b",\"content\":", dver)?;
    text.extend_from_slice(b",")?;
    push_content(alloc, text, content)
}

/// The members of a prefix.
pub(crate) fn push_prefix(text: &mut Vec<u8>, prefix: &Prefix) -> Result<(), AllocError>
    ensures { OnOk result (text.new.items ≡ text.old.items ++ prefix_text prefix.now) }
{
    text.extend_from_slice(kind_word(prefix.kind))?;
    push_member(text, b",\"prefix\":", prefix.pver)?;
    push_rules(text, prefix)
}

/// Who may do what, and whose votes count.
fn push_rules(text: &mut Vec<u8>, prefix: &Prefix) -> Result<(), AllocError>
    ensures { OnOk result (text.new.items ≡ text.old.items ++ rules_text prefix.now) }
{
    push_owners(text, prefix)?;
    push_list(text, &prefix.acl)?;
    push_votes_member(text, &prefix.votes)
}

fn push_owners(text: &mut Vec<u8>, prefix: &Prefix) -> Result<(), AllocError>
    ensures { OnOk result (text.new.items ≡ text.old.items ++ owners_text prefix.now) }
{
    push_member(text, b",\"owner\":", u64::from(prefix.owner))?;
    push_member(text, b",\"group\":", u64::from(prefix.group))
}

fn push_list(text: &mut Vec<u8>, lists: &Lists) -> Result<(), AllocError>
    ensures { OnOk result (text.new.items ≡ text.old.items ++ list_text lists.now) }
{
    text.extend_from_slice(b",\"list\":\"")?;
    append_short(text, lists)?;
    text.extend_from_slice(b"\"")
}

/// The member of votes.
pub(crate) fn push_votes_member(text: &mut Vec<u8>, votes: &Votes) -> Result<(), AllocError>
    ensures { OnOk result (text.new.items ≡ text.old.items ++ votes_member votes.now) }
{
    text.extend_from_slice(b",\"votes\":\"")?;
    push_votes(text, votes)?;
    text.extend_from_slice(b"\"")
}

fn kind_word(kind: PrefixKind) -> &'static [u8]
    ensures { result.now ≡ kind_text kind }
{
    match kind {
        PrefixKind::Absent => b"\"kind\":\"absent\"",
        PrefixKind::File => b"\"kind\":\"file\"",
        PrefixKind::Folder => b"\"kind\":\"folder\"",
    }
}

/// The member of a content: the bytes of a file, or the names of a folder, each with the number of its suite.
fn push_content(alloc: Global, text: &mut Vec<u8>, content: &Content) -> Result<(), AllocError>
    ensures { OnOk result (text.new.items ≡ text.old.items ++ content_text content.now) }
{
    match content {
        Content::Bytes(bytes) => {
            text.extend_from_slice(b"\"bytes\":\"")?;
            push_hex(alloc, text, bytes.as_slice())?;
            text.extend_from_slice(b"\"")
        }
        Content::Names(names) => {
            text.extend_from_slice(b"\"names\":{")?;
            push_names(text, names.as_slice())?;
            text.extend_from_slice(b"}")
        }
    }
}

fn push_names(text: &mut Vec<u8>, names: &[(Name, u64)]) -> Result<(), AllocError>
    ensures { OnOk result (text.new.items ≡ text.old.items ++ listed name_text names.now) }
{
    let [first, more @ ..] = names else {
        return Ok(());
    };
    push_name(text, first)?;
    push_more_names(text, more)
}

fn push_more_names(text: &mut Vec<u8>, names: &[(Name, u64)]) -> Result<(), AllocError>
    ensures { OnOk result (text.new.items ≡ text.old.items ++ flat_map (λ next. codes "," ++ name_text next) names.now) }
{
    for entry in names {
        text.extend_from_slice(b",")?;
        push_name(text, entry)?;
    }
    Ok(())
}

fn push_name(text: &mut Vec<u8>, entry: &(Name, u64)) -> Result<(), AllocError>
    ensures { OnOk result (text.new.items ≡ text.old.items ++ name_text entry.now) }
{
    text.extend_from_slice(b"\"")?;
    text.extend_from_slice(entry.0.as_bytes())?;
    text.extend_from_slice(b"\":")?;
    push_number(text, entry.1)
}
