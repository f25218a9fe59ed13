//! What a transaction leaves of each suite at each server.

ghost use Rattle.std.specs.Prelude.{◌≡◌, ◌+◌, ◌++◌, ◌∷◌, false, IfOk, IfSome, IfNone, OnOk, unwrap_or, []};
ghost use Rattle.std.specs.Option.{option_copied};
ghost use Rattle.rep_core.specs.Store.{is_used_up};
ghost use Rattle.txn_core.specs.Writing as spec;
ghost use Rattle.txn_core.specs.code.Leaving.{take_of};
ghost use Rattle.txn_core.specs.code.Unused.{GaveUnused};

use crate::suites::GatheredSuite;
use file_exec::{Change, Changes};
use rep_core::{Part, Parts, Take};
use std::alloc::{AllocError, Global};
use suite_collect::ReadPoint;
use suite_content::Kind;
use suite_prefix::{Prefix, PrefixKind, Replica};
use vote_core::Votes;

/// What a server is to prepare: the locks that it answered to hold, the suites rising, with what is set
/// of them. Lists and contents are shared.
pub(crate) fn parts_at(
    alloc: Global,
    suites: &[(u64, GatheredSuite)],
    changes: Option<&Changes>,
    server: u8,
) -> Result<Parts, AllocError>
    ensures { IfOk result (λ parts. parts ≡ spec.parts_at suites.now (unwrap_or (option_copied changes.entry) []) server) }
{
    let mut parts = Vec::with_capacity(alloc, suites.len())?;
    for (number, suite) in suites {
        if suite.holds_lock(server) {
            add_part(&mut parts, *number, suite, changes, server)?;
        }
    }
    Ok(Parts::from_vec(parts))
}

/// Adds what a server is to prepare of a suite. Where it takes nothing, which is the rule, the part is made
/// where it is to stand.
fn add_part(
    parts: &mut Vec<Part>,
    number: u64,
    suite: &GatheredSuite,
    changes: Option<&Changes>,
    server: u8,
) -> Result<(), AllocError>
    ensures { OnOk result (parts.new.items ≡ parts.old.items ++ spec.part_of (unwrap_or (option_copied changes.entry) []) server (number, suite.now) ∷ []) }
{
    let mode = suite.lock_mode(server);
    match taken(number, suite, changes, server) {
        None => parts.push(Part {
            suite: number,
            mode,
            take: Take::Keep,
        })?,
        Some((first, change)) => {
            let take = take_of_changed(first, change, server)?;
            parts.push(Part {
                suite: number,
                mode,
                take,
            })?;
        }
    }
    Ok(())
}

/// What is set of a suite, with what its first quorum gave, where a server holds the suite exclusively:
/// else it takes nothing.
fn taken<'a>(
    number: u64,
    suite: &'a GatheredSuite,
    changes: Option<&'a Changes>,
    server: u8,
) -> Option<(&'a ReadPoint, &'a Change)>
    ensures some { IfSome result (λ one. take_of suite.now server (option_copied changes.entry) number ≡ spec.take_of_changed one.0.now one.1.now server) }
    ensures unused { IfSome result (λ one. GaveUnused one.0.now) }
    ensures none { IfNone result (take_of suite.now server (option_copied changes.entry) number ≡ Take.Keep) }
{
    if !suite.holds_exclusively(server) {
        return None;
    }
    let change = change_of(changes, number)?;
    Some((suite.first()?, change))
}

fn change_of(changes: Option<&Changes>, number: u64) -> Option<&Change>
    ensures { option_copied result ≡ spec.change_of (unwrap_or (option_copied changes.entry) []) number }
{
    match changes {
        Some(changes) => changes.get(number),
        None => None,
    }
}

/// What a server that holds a suite exclusively takes of it, where it is changed.
fn take_of_changed(first: &ReadPoint, change: &Change, server: u8) -> Result<Take, AllocError>
    requires { GaveUnused first.now }
    ensures { IfOk result (λ what. what ≡ spec.take_of_changed first.now change.now server) }
{
    if takes_whole(change, server) {
        let copy = new_copy(first, change)?;
        return Ok(Take::Whole(copy));
    }
    if sets_prefix(change) {
        let prefix = new_prefix(first, change)?;
        return Ok(Take::Prefix(prefix));
    }
    Ok(Take::Keep)
}

/// Whether a server takes the whole copy: it has a vote, and content or votes are set.
fn takes_whole(change: &Change, server: u8) -> bool
    ensures { result ≡ spec.takes_whole change.now server }
{
    let has_vote = has_vote(change.row.votes(), server);
    (change.content || change.votes) && has_vote
}

fn has_vote(votes: &Votes, server: u8) -> bool
    ensures { result ≡ spec.has_vote votes.now server }
{
    votes
        .reps()
        .iter()
        .any(|(member, votes)| *member == server && *votes > 0)
}

fn sets_prefix(change: &Change) -> bool
    ensures { result ≡ spec.sets_prefix change.now }
{
    change.acl || change.votes
}

/// The copy after a change.
fn new_copy(first: &ReadPoint, change: &Change) -> Result<Replica, AllocError>
    requires { GaveUnused first.now }
    ensures { IfOk result (λ copy. copy ≡ spec.new_copy first.now change.now) }
{
    let prefix = new_prefix(first, change)?;
    let content = change.row.content().clone()?;
    Ok(Replica {
        prefix,
        dver: next_version(first.dver, change.content),
        content,
    })
}

/// The prefix after a change.
fn new_prefix(first: &ReadPoint, change: &Change) -> Result<Prefix, AllocError>
    requires { GaveUnused first.now }
    ensures { IfOk result (λ prefix. prefix ≡ spec.new_prefix first.now change.now) }
{
    let row = &change.row;
    let acl = row.acl().clone()?;
    Ok(Prefix {
        pver: next_version(first.prefix.pver, sets_prefix(change)),
        kind: prefix_kind(row.content().kind()),
        owner: row.owner(),
        group: row.group(),
        acl,
        votes: *row.votes(),
    })
}

fn prefix_kind(kind: Kind) -> PrefixKind
    ensures { result ≡ spec.prefix_kind kind }
{
    match kind {
        Kind::File => PrefixKind::File,
        Kind::Folder => PrefixKind::Folder,
    }
}

/// The version after a transaction that set something, or nothing.
fn next_version(version: u64, is_set: bool) -> u64
    requires { is_used_up version ≡ false }
    ensures { result ≡ version + spec.one_if is_set }
{
    if is_set { version + 1 } else { version }
}
