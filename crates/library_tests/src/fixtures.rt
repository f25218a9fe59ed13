//! Lists, votes, prefixes and copies that tests begin with: all of user 1000 and group 100.

use crate::checks::{add, had, number, parts};
use acl_core::{Acl, Entry, Lists, Mode, Tag};
use std::process::Abort;
use suite_content::{Content, FileBytes, FolderNames, Name};
use suite_prefix::{Prefix, PrefixKind, Replica};
use suite_script::read_votes;
use vote_core::{MAX_SERVERS, Votes};

/// A mode of these octal digits.
pub(crate) fn mode(rt: &impl Abort, digits: &str) -> Mode {
    let bits = had(rt, u16::from_str_radix(digits, 8));
    Mode::new(bits).expect(rt, "a mode")
}

/// The list of a mode, and no default list.
pub(crate) fn lists(rt: &(impl Abort + AllocGlobal), digits: &str) -> Lists {
    Lists::from(had(rt, Acl::from_mode(rt.alloc(), mode(rt, digits))))
}

/// A tag in a text: `u`, `g`, `m` and `o` are the single ones, `u1001` a user and `g200` a group.
fn tag(rt: &impl Abort, word: &str) -> Tag {
    match word {
        "u" => Tag::UserObj,
        "g" => Tag::GroupObj,
        "m" => Tag::Mask,
        "o" => Tag::Other,
        named => match named.strip_prefix('u') {
            Some(user) => Tag::User(number(rt, user)),
            None => Tag::Group(number(rt, named.strip_prefix('g').unwrap_or_default())),
        },
    }
}

/// The entries of a text, with spaces between them, as `u1001:6`.
pub(crate) fn entries(rt: &(impl Abort + AllocGlobal), text: &str) -> Vec<Entry> {
    let mut entries = Vec::new(rt.alloc());
    for word in text.split_whitespace() {
        let (name, digit, _, _) = parts(word, ':');
        let digit = number::<u8>(rt, digit) % 8;
        add(rt, &mut entries, Entry::from_digit(tag(rt, name), digit));
    }
    entries
}

/// Votes of servers that are listed from 0, as `1,1,1/2/2`; a server that is not listed is a hyphen.
pub(crate) fn votes(rt: &impl Abort, text: &str) -> Votes {
    had(rt, read_votes(MAX_SERVERS, text.as_bytes()))
}

/// A prefix of this version and kind: the list of mode 644, and a vote each of servers 0 to 2.
pub(crate) fn prefix(rt: &(impl Abort + AllocGlobal), pver: u64, kind: PrefixKind) -> Prefix {
    Prefix {
        pver,
        kind,
        owner: 1000,
        group: 100,
        acl: lists(rt, "644"),
        votes: votes(rt, "1,1,1/2/2"),
    }
}

/// A name.
pub(crate) fn name(rt: &impl Abort, text: &str) -> Name {
    Name::new(text.as_bytes()).expect(rt, "a name")
}

/// The names of a folder and their suites, as `a=1 d=2`.
pub(crate) fn folder_of(rt: &(impl Abort + AllocGlobal), text: &str) -> FolderNames {
    let mut names = FolderNames::new(rt.alloc());
    for word in text.split_whitespace() {
        let (text, suite, _, _) = parts(word, '=');
        had(rt, names.insert(name(rt, text), number(rt, suite)));
    }
    names
}

/// These bytes, as a file holds them.
pub(crate) fn file_bytes(rt: &(impl Abort + AllocGlobal), bytes: &[u8]) -> FileBytes {
    had(rt, FileBytes::from_slice(rt.alloc(), bytes))
}

/// What a file holds.
pub(crate) fn content(rt: &(impl Abort + AllocGlobal), bytes: &[u8]) -> Content {
    Content::Bytes(file_bytes(rt, bytes))
}

/// A file of these versions with these bytes.
pub(crate) fn file(rt: &(impl Abort + AllocGlobal), pver: u64, dver: u64, bytes: &[u8]) -> Replica {
    Replica {
        prefix: prefix(rt, pver, PrefixKind::File),
        dver,
        content: content(rt, bytes),
    }
}
