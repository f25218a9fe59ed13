//! Locks that are few, in one vector, in the order of their transactions and, in one transaction, of their suites. What
//! is asked of all of them looks at each.

ghost use Rattle.std.specs.Prelude.{◌≡◌, ◌≤◌, ◌<◌, length, IsTrue, count_by, not, nat_lt, ◌==◌, ◌&&◌, ◌||◌, insert};
ghost use Rattle.std.specs.List.{list_any};
ghost use Rattle.std.specs.Vec.{vec_len, vec_capacity};
ghost use Rattle.rep_core.specs.Locks as locking;

use crate::lock::Lock;
use crate::request::Part;
use suite_prefix::LockMode;

/// The first lock that stands in the way of a lock in this mode.
pub(crate) fn first_in_the_way(locks: &[Lock], t: u64, suite: u64, mode: LockMode) -> Option<Lock>
    ensures { result ≡ locking.in_the_way t suite mode locks.now }
{
    for lock in locks {
        if conflicts(t, suite, mode, lock) {
            return Some(*lock);
        }
    }
    None
}

pub(crate) fn conflicts(t: u64, suite: u64, mode: LockMode, lock: &Lock) -> bool
    ensures { result ≡ locking.conflicts t suite mode lock.now }
{
    lock.suite == suite && lock.t != t && (mode.is_exclusive() || lock.mode.is_exclusive())
}

/// The transaction's lock on a suite.
pub(crate) fn lock_at(locks: &[Lock], t: u64, suite: u64) -> Option<Lock>
    ensures { result ≡ locking.lock_at t suite locks.now }
{
    for lock in locks {
        if is_own(lock, t, suite) {
            return Some(*lock);
        }
    }
    None
}

/// Whether a transaction has a prepared lock.
pub(crate) fn has_prepared(locks: &[Lock], t: u64) -> bool
    ensures { result ≡ locking.has_prepared t locks.now }
{
    locks.iter().any(|lock| lock.t == t && lock.prepared)
}

/// Sets a lock, for which there is room, or makes the transaction's own one stronger.
pub(crate) fn set_lock(locks: &mut Vec<Lock>, t: u64, suite: u64, mode: LockMode)
    requires rising { IsTrue (locking.rise locks.old.items) }
    requires room { vec_len locks.old < vec_capacity locks.old }
    ensures { locks.new.items ≡ locking.locked t suite mode locks.old.items }
{
    let at = place_of(locks, t, suite);
    if is_own_at(locks, at, t, suite) {
        let lock = locks[at];
        locks[at] = raised_lock(t, suite, mode, lock);
        return;
    }
    let new = Lock {
        t,
        suite,
        mode,
        prepared: false,
    };
    insert_at(locks, at, new);
}

/// Puts a lock, for which there is room, in this place.
fn insert_at(locks: &mut Vec<Lock>, at: usize, new: Lock)
    requires room { vec_len locks.old < vec_capacity locks.old }
    requires place { at ≤ length locks.old.items }
    ensures { locks.new.items ≡ insert locks.old.items at new }
{
    let end = locks.len();
    locks.push_reserved(new);
    if at < end {
        locks.copy_within(at..end, at + 1);
        locks[at] = new;
    }
}

/// How many locks stand before a transaction's lock on a suite: where it is, or would be.
fn place_of(locks: &[Lock], t: u64, suite: u64) -> usize
    requires { IsTrue (locking.rise locks.now) }
    ensures place { result ≡ count_by (λ lock. nat_lt lock.t t || ((lock.t == t) && nat_lt lock.suite suite)) locks.now }
    ensures within { result ≤ length locks.now }
{
    locks.partition_point(|lock| stands_before(lock, t, suite))
}

/// Whether a transaction has a lock on a suite, where it is, or would be, at this place.
fn is_own_at(locks: &[Lock], at: usize, t: u64, suite: u64) -> bool
    requires rising { IsTrue (locking.rise locks.now) }
    requires place { at ≡ count_by (λ lock. nat_lt lock.t t || ((lock.t == t) && nat_lt lock.suite suite)) locks.now }
    ensures has { result ≡ locking.has_lock t suite locks.now }
    ensures within { IsTrue result → at < length locks.now }
{
    if at < locks.len() {
        is_own(&locks[at], t, suite)
    } else {
        false
    }
}

fn stands_before(lock: &Lock, t: u64, suite: u64) -> bool
    ensures { result ≡ (nat_lt lock.now.t t || ((lock.now.t == t) && nat_lt lock.now.suite suite)) }
{
    lock.t < t || lock.t == t && lock.suite < suite
}

fn is_own(lock: &Lock, t: u64, suite: u64) -> bool
    ensures { result ≡ locking.is_own t suite lock.now }
{
    lock.t == t && lock.suite == suite
}

fn raised_lock(t: u64, suite: u64, mode: LockMode, lock: Lock) -> Lock
    ensures { result ≡ locking.raised_lock t suite mode lock }
{
    if lock.t == t && lock.suite == suite {
        Lock {
            mode: lock.mode.stronger(mode),
            ..lock
        }
    } else {
        lock
    }
}

/// Makes the transaction's locks on the parts' suites prepared.
pub(crate) fn prepare(locks: &mut [Lock], t: u64, parts: &[Part])
    ensures { locks.new ≡ locking.with_prepared t parts.now locks.old }
{
    for (i, lock) in locks.iter_mut().enumerate() {
        prepare_lock(lock, t, parts, i);
    }
}

/// Makes a lock prepared where its suite is among the parts: at this place, mostly.
fn prepare_lock(lock: &mut Lock, t: u64, parts: &[Part], place: usize)
    ensures { lock.new ≡ locking.prepared_lock t parts.now lock.old }
{
    if lock.t == t && (is_named_at(parts, place, lock.suite) || is_named(parts, lock.suite)) {
        lock.prepared = true;
    }
}

/// Whether the part at a place names a suite.
fn is_named_at(parts: &[Part], place: usize, suite: u64) -> bool
    ensures { IsTrue result → IsTrue (list_any (λ part. part.suite == suite) parts.now) }
{
    if place < parts.len() {
        parts[place].suite == suite
    } else {
        false
    }
}

fn is_named(parts: &[Part], suite: u64) -> bool
    ensures { result ≡ list_any (λ part. part.suite == suite) parts.now }
{
    parts.iter().any(|part| part.suite == suite)
}

/// Lets a lock go that is not prepared.
pub(crate) fn break_lock(locks: &mut Vec<Lock>, t: u64, suite: u64)
    ensures { locks.new.items ≡ locking.broken t suite locks.old.items }
{
    locks.retain(|lock| !(is_own(lock, t, suite) && !lock.prepared));
}
