//! Locks, and which of them went and came.

ghost use Rattle.std.specs.Prelude.{◌≡◌, ◌≤◌, ◌++◌, ◌∷◌, IfOk, IfSome, IsTrue, OnOk, codes, length};
ghost use Rattle.std.specs.List.{flat_map};
ghost use Rattle.event_json.specs.Changes.{IsChange};
ghost use Rattle.event_json.specs.Locks.{TellsLockChange, came_text, freed_text, gone_lock_text, lock_text, locks_text, mode_text};
ghost use Rattle.event_json.specs.code.Going.{GoesOn, Meets};
ghost use Rattle.event_json.specs.Strings.{listed};

use crate::strings::{push_member, truth};
use rep_core::Lock;
use std::alloc::{AllocError, Global};
use suite_prefix::LockMode;

/// A list of locks.
pub fn push_locks(text: &mut Vec<u8>, locks: &[Lock]) -> Result<(), AllocError>
    ensures { OnOk result (text.new.items ≡ text.old.items ++ locks_text locks.now) }
{
    text.extend_from_slice(b"[")?;
    push_listed(text, locks)?;
    text.extend_from_slice(b"]")
}

fn push_listed(text: &mut Vec<u8>, locks: &[Lock]) -> Result<(), AllocError>
    ensures { OnOk result (text.new.items ≡ text.old.items ++ listed lock_text locks.now) }
{
    let [first, more @ ..] = locks else {
        return Ok(());
    };
    push_lock(text, *first)?;
    push_more(text, more)
}

fn push_more(text: &mut Vec<u8>, locks: &[Lock]) -> Result<(), AllocError>
    ensures { OnOk result (text.new.items ≡ text.old.items ++ flat_map (λ next. codes "," ++ lock_text next) locks.now) }
{
    for lock in locks {
        text.extend_from_slice(b",")?;
        push_lock(text, *lock)?;
    }
    Ok(())
}

fn push_lock(text: &mut Vec<u8>, lock: Lock) -> Result<(), AllocError>
    ensures { OnOk result (text.new.items ≡ text.old.items ++ lock_text lock) }
{
    push_member(text, b"{\"t\":", lock.t)?;
    push_member(text, b",\"suite\":", lock.suite)?;
    text.extend_from_slice(mode_word(lock.mode))?;
    text.extend_from_slice(b",\"prepared\":")?;
    text.extend_from_slice(truth(lock.prepared))?;
    text.extend_from_slice(b"}")
}

/// The member of a mode.
pub(crate) fn mode_word(mode: LockMode) -> &'static [u8]
    ensures { result.now ≡ mode_text mode }
{
    if mode.is_exclusive() {
        b",\"mode\":\"exclusive\""
    } else {
        b",\"mode\":\"shared\""
    }
}

/// Which locks went, and which came.
#[derive(Drop)]
struct LockChange {
    gone: Vec<Lock>,
    came: Vec<Lock>,
}

/// What changed between two lists, each in the order of `Server::locks`. A lock that is otherwise went, and came.
fn lock_change(alloc: Global, old: &[Lock], new: &[Lock]) -> Result<LockChange, AllocError>
    ensures { IfOk result (λ change. IsChange old.now new.now change.gone.items change.came.items) }
{
    let mut gone = Vec::new(alloc);
    let mut came = Vec::new(alloc);
    let mut rest = old;
    for lock in new {
        rest = go_before(rest, *lock, &mut gone)?;
        rest = meet(rest, *lock, &mut came)?;
    }
    gone.extend_from_slice(rest)?;
    Ok(LockChange { gone, came })
}

/// What is left of locks behind those that stand before another: those went.
fn go_before<'a>(
    locks: &'a [Lock],
    other: Lock,
    gone: &mut Vec<Lock>,
) -> Result<&'a [Lock], AllocError>
    ensures { IfOk result (λ rest. GoesOn locks.now rest.now gone.old.items gone.new.items) }
{
    let (front, rest) = locks.split_at(count_before(locks, other));
    gone.extend_from_slice(front)?;
    Ok(rest)
}

/// How many of the first locks stand before another.
fn count_before(locks: &[Lock], other: Lock) -> usize
    ensures { result ≤ length locks.now }
{
    let mut count = 0;
    for lock in locks {
        if !stands_before(*lock, other) {
            break;
        }
        count += 1;
    }
    count
}

/// What is left of locks once one of the new list is met: the first is the same, or that one came.
fn meet<'a>(rest: &'a [Lock], lock: Lock, came: &mut Vec<Lock>) -> Result<&'a [Lock], AllocError>
    ensures { IfOk result (λ later. Meets rest.now lock later.now came.old.items came.new.items) }
{
    match behind(rest, lock) {
        Some(more) => Ok(more),
        None => {
            came.push(lock)?;
            Ok(rest)
        }
    }
}

/// What stands behind a lock, where that is the first.
fn behind<'a>(locks: &'a [Lock], lock: Lock) -> Option<&'a [Lock]>
    ensures { IfSome result (λ more. locks.now ≡ lock ∷ more.now) }
{
    match locks {
        [first, more @ ..] if same(*first, lock) => Some(more),
        _ => None,
    }
}

/// Whether a lock stands before another: by its transaction, then by its suite.
fn stands_before(lock: Lock, other: Lock) -> bool {
    lock.t < other.t || lock.t == other.t && lock.suite < other.suite
}

/// Whether they are the same.
fn same(lock: Lock, other: Lock) -> bool
    ensures { IsTrue result → lock ≡ other }
{
    lock.t == other.t
        && lock.suite == other.suite
        && lock.mode.is_exclusive() == other.mode.is_exclusive()
        && lock.prepared == other.prepared
}

/// Which locks went, by transaction and suite.
fn push_gone(text: &mut Vec<u8>, locks: &[Lock]) -> Result<(), AllocError>
    ensures { OnOk result (text.new.items ≡ text.old.items ++ listed gone_lock_text locks.now) }
{
    let [first, more @ ..] = locks else {
        return Ok(());
    };
    push_gone_lock(text, *first)?;
    push_more_gone(text, more)
}

fn push_more_gone(text: &mut Vec<u8>, locks: &[Lock]) -> Result<(), AllocError>
    ensures { OnOk result (text.new.items ≡ text.old.items ++ flat_map (λ next. codes "," ++ gone_lock_text next) locks.now) }
{
    for lock in locks {
        text.extend_from_slice(b",")?;
        push_gone_lock(text, *lock)?;
    }
    Ok(())
}

fn push_gone_lock(text: &mut Vec<u8>, lock: Lock) -> Result<(), AllocError>
    ensures { OnOk result (text.new.items ≡ text.old.items ++ gone_lock_text lock) }
{
    push_member(text, b"{\"t\":", lock.t)?;
    push_member(text, b",\"suite\":", lock.suite)?;
    text.extend_from_slice(b"}")
}

fn push_freed(text: &mut Vec<u8>, locks: &[Lock]) -> Result<(), AllocError>
    ensures { OnOk result (text.new.items ≡ text.old.items ++ freed_text locks.now) }
{
    if locks.is_empty() {
        return Ok(());
    }
    text.extend_from_slice(b",\"freed\":[")?;
    push_gone(text, locks)?;
    text.extend_from_slice(b"]")
}

fn push_came(text: &mut Vec<u8>, locks: &[Lock]) -> Result<(), AllocError>
    ensures { OnOk result (text.new.items ≡ text.old.items ++ came_text locks.now) }
{
    if locks.is_empty() {
        return Ok(());
    }
    text.extend_from_slice(b",\"locks\":")?;
    push_locks(text, locks)
}

/// The members of what changed between two lists of locks, each in the order of `Server::locks`.
pub fn push_changed_locks(
    alloc: Global,
    text: &mut Vec<u8>,
    old: &[Lock],
    new: &[Lock],
) -> Result<(), AllocError>
    ensures { OnOk result (TellsLockChange old.now new.now text.old.items text.new.items) }
{
    let change = lock_change(alloc, old, new)?;
    push_freed(text, change.gone.as_slice())?;
    push_came(text, change.came.as_slice())
}
