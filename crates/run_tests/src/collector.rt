//! Short talks of a collector with servers, as another program tells them. What comes next is told in words: what a
//! server is asked; the prefix, its content's version and the members of a Current, with the first source that its
//! last quorum before a widening gave; or the votes of a Short, with the first Busy.

mod talks;

use crate::fixtures::{self, had, lists, number, same};
use rep_core::{Reply, Request};
use std::alloc::AllocError;
use std::process::Abort;
use suite_collect::{Collect, Hearing, Next, ReadPoint, Told};
use suite_prefix::{LockMode, Prefix, PrefixKind, SharedPrefix};
use talks::TALKS;
use vote_core::{MAX_SERVERS, Votes};

static PAIR: [(u8, u8); 2] = [(0, 1), (1, 1)];

static SHIFTED: [(u8, u8); 2] = [(1, 1), (2, 2)];

/// Votes by a word: `pair` are one each at servers 0 and 1, one to read and two to write; `shifted` one at server 1 and
/// two at server 2, two to read and two to write.
fn votes(rt: &impl Abort, place: &str) -> Votes {
    match place {
        "pair" => fixtures::votes(rt, 6, &PAIR, 1, 2),
        _ => fixtures::votes(rt, 6, &SHIFTED, 2, 2),
    }
}

fn prefix(rt: &(impl Abort + AllocGlobal), pver: u64, place: &str) -> SharedPrefix {
    let prefix = Prefix {
        pver,
        kind: PrefixKind::File,
        owner: 1000,
        group: 100,
        acl: lists(rt, 0o644),
        votes: votes(rt, place),
    };
    SharedPrefix::new(rt.alloc(), prefix).expect(rt, "memory")
}

/// A collector, one that is told the same by `take` alone, and the first source that its last quorum before a
/// widening gave.
#[derive(Drop)]
struct Talk {
    collect: Collect,
    alone: Collect,
    source: Option<u8>,
    is_widened: bool,
}

/// A collector of suite 9 for transaction 7, from version 0 with the votes of the pair.
fn collector(rt: &(impl Abort + AllocGlobal)) -> Collect {
    Collect::new(7, 9, LockMode::Shared, prefix(rt, 0, "pair"))
}

fn begun(rt: &(impl Abort + AllocGlobal)) -> Talk {
    Talk {
        collect: collector(rt),
        alone: collector(rt),
        source: None,
        is_widened: false,
    }
}

/// A reply as text: `held`, the version of the prefix, its votes, and the content's version; `busy` and a transaction;
/// or `down`.
fn reply(rt: &(impl Abort + AllocGlobal), text: &str) -> Reply {
    let mut parts = text.split(' ');
    let word = parts.next().unwrap_or_default();
    let first = parts.next().unwrap_or("0");
    let place = parts.next().unwrap_or_default();
    let dver = parts.next().unwrap_or("0");
    match word {
        "held" => Reply::Held {
            prefix: prefix(rt, number(rt, first), place),
            dver: number(rt, dver),
        },
        "busy" => Reply::Busy {
            holder: number(rt, first),
            prepared: false,
        },
        _ => Reply::Down,
    }
}

fn hear(rt: &impl Abort, collect: &mut Collect, reply: &Reply) -> Hearing {
    collect.hear(reply).ok().expect(rt, "memory")
}

/// Hears a reply to what was asked. A lock that gives a quorum is told, too.
fn hears(rt: &impl Abort, talk: &mut Talk, reply: &Reply) {
    match hear(rt, &mut talk.collect, reply) {
        Hearing::Quorum(last) => tell(rt, talk, last),
        Hearing::Asks | Hearing::Short => {}
        Hearing::Lost => assert!(rt; false, "lost"),
    }
}

/// What the quorum gives that there is once this is told.
fn quorum_after(rt: &impl Abort, collect: &Collect, last: &Told) -> ReadPoint {
    assert!(rt; usize::from(last.server) < MAX_SERVERS);
    collect.quorum_after(last).ok().expect(rt, "memory")
}

/// It is told a lock that gives a quorum.
fn tell(rt: &impl Abort, talk: &mut Talk, last: Told) {
    assert!(rt; usize::from(last.server) < MAX_SERVERS);
    if !talk.is_widened {
        talk.source = Some(quorum_after(rt, &talk.collect, &last).source);
    }
    talk.collect.tell(last);
}

/// What is done with a collector: it is raised, widened to votes, or told a reply.
fn act(rt: &(impl Abort + AllocGlobal), talk: &mut Talk, text: &str) {
    match text.split_once(' ') {
        None if text == "raise" => {
            talk.collect.raise();
            talk.alone.raise();
        }
        Some(("widen", place)) => {
            talk.collect.widen(&votes(rt, place));
            talk.alone.widen(&votes(rt, place));
            talk.is_widened = true;
        }
        _ => goes_on(rt, talk, text),
    }
}

/// It is told a reply that answers what it asked.
fn goes_on(rt: &(impl Abort + AllocGlobal), talk: &mut Talk, text: &str) {
    let reply = reply(rt, text);
    hears(rt, talk, &reply);
    let taken = talk.alone.take(&reply).ok().expect(rt, "memory");
    assert!(rt; taken, "{text}");
}

/// What is asked, in words: of a poll the mode alone.
fn ask_words(rt: &impl AllocGlobal, server: u8, request: &Request) -> Result<String, AllocError> {
    match request {
        Request::Poll { mode, .. } => format!(in rt.alloc(); "{mode:?} at {server}"),
        other => format!(in rt.alloc(); "{other:?} at {server}"),
    }
}

/// What is had, in words: the versions of the prefix and of the content, the members, and the first source.
fn current_words(
    rt: &impl AllocGlobal,
    versions: (u64, u64),
    members: &[u8],
    source: Option<u8>,
) -> Result<String, AllocError> {
    let (pver, dver) = versions;
    format!(in rt.alloc(); "prefix {pver} content {dver} of {members:?} from {source:?}")
}

/// What comes next, in words.
fn next_words(
    rt: &impl AllocGlobal,
    next: &Next<'_>,
    source: Option<u8>,
) -> Result<String, AllocError> {
    match next {
        Next::Current {
            prefix,
            dver,
            members,
        } => current_words(rt, (prefix.pver, *dver), members.as_slice(), source),
        Next::Ask { server, request } => ask_words(rt, *server, request),
        Next::Short { got, needed, busy } => {
            format!(in rt.alloc(); "{got} of {needed} busy {busy:?}")
        }
    }
}

fn words(rt: &(impl Abort + AllocGlobal), collect: &Collect, source: Option<u8>) -> String {
    had(rt, next_words(rt, &collect.next(), source))
}

/// This comes next, of both collectors.
fn comes(rt: &(impl Abort + AllocGlobal), talk: &Talk, want: &str, about: &str) {
    same(rt, &words(rt, &talk.collect, talk.source), want, about);
    same(rt, &words(rt, &talk.alone, talk.source), want, about);
}

/// An act of the table of talks.
fn act_of(letter: u8) -> &'static str {
    match letter {
        b'h' => "held 1 pair 1",
        b'n' => "held 2 shifted 3",
        b'b' => "busy 5",
        b'd' => "down",
        b'^' => "raise",
        _ => "widen shifted",
    }
}

/// Plays a row of the table of talks.
fn play_row(rt: &(impl Abort + AllocGlobal), row: &str) {
    let (acts, want) = row.split_once(' ').expect(rt, "a row");
    let mut talk = begun(rt);
    for letter in acts.as_bytes() {
        act(rt, &mut talk, act_of(*letter));
    }
    comes(rt, &talk, want, acts);
}

#[test]
fn all_short_talks_go_as_another_program_says(rt: HostRuntime) {
    for row in TALKS.lines() {
        play_row(&rt, row);
    }
}
