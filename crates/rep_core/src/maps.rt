//! The maps of copies and of intentions, changed in the room that there is.

ghost use Rattle.std.specs.Prelude.{◌≡◌, ◌≤◌, ◌<◌, ◌+◌, length, IfSome};
ghost use Rattle.std.specs.Ordering.{nat_cmp};
ghost use Rattle.sorted_map.specs.SortedMap.{IsOrdered, get, insert, remove};
ghost use Rattle.rep_core.specs.code.Planning.{AreAmong, Installs, Leaves, copies_in, forms_in, intentions_in, with_all};
ghost use Rattle.rep_core.specs.Store as store;

use crate::intention::Planned;
use sorted_map::RoomyMap;
use std::alloc::{AllocError, Global};
use suite_prefix::StoredCopy;

/// Keeps intentions, for which there is room.
pub(crate) fn keep_all(intentions: &mut RoomyMap<u64, Planned>, pending: Vec<(u64, Planned)>)
    requires { length pending.items ≤ intentions.old.room }
    ensures pairs { intentions.new.pairs ≡ with_all pending.items intentions.old.pairs }
    ensures few { length intentions.new.pairs ≤ length intentions.old.pairs + length pending.items }
    ensures rising { IsOrdered nat_cmp intentions.new.pairs }
{
    for (suite, planned) in pending {
        keep(intentions, suite, planned);
    }
    let _ = intentions.len();
}

/// Keeps an intention.
fn keep(intentions: &mut RoomyMap<u64, Planned>, suite: u64, planned: Planned)
    requires { 0 < intentions.old.room }
    ensures pairs { intentions.new.pairs ≡ insert nat_cmp intentions.old.pairs suite planned }
    ensures few { length intentions.new.pairs ≤ length intentions.old.pairs + 1 }
    ensures room { intentions.old.room ≤ intentions.new.room + 1 }
{
    intentions.insert_in_room(suite, planned);
}

/// Makes the intentions of a transaction copies, in the room that there is.
pub(crate) fn install(
    copies: &mut RoomyMap<u64, StoredCopy>,
    intentions: &mut RoomyMap<u64, Planned>,
    t: u64,
)
    requires room { length intentions.old.pairs ≤ copies.old.room }
    requires leaves { Leaves (copies_in copies.old.pairs) intentions.old.pairs }
    ensures copies { Installs t intentions.old.pairs copies.old.pairs copies.new.pairs }
    ensures forms { forms_in copies.new.pairs ≡ store.with_forms t (intentions_in intentions.old.pairs) (forms_in copies.old.pairs) }
    ensures others { intentions_in intentions.new.pairs ≡ store.without_intentions t (intentions_in intentions.old.pairs) }
    ensures leaves { Leaves (copies_in copies.new.pairs) intentions.new.pairs }
    ensures room { length intentions.new.pairs ≤ copies.new.room }
    ensures rising { IsOrdered nat_cmp intentions.new.pairs }
{
    let mut place = 0;
    while place < intentions.len() {
        let pair = &intentions.as_slice()[place];
        if pair.1.t == t {
            let suite = pair.0;
            install_at(copies, intentions, suite);
        } else {
            place += 1;
        }
    }
}

/// Makes the intention on a suite a copy, and takes it out.
fn install_at(
    copies: &mut RoomyMap<u64, StoredCopy>,
    intentions: &mut RoomyMap<u64, Planned>,
    suite: u64,
)
    requires { 0 < copies.old.room }
    ensures copies { IfSome (get nat_cmp intentions.old.pairs suite) (λ planned. copies.new.pairs ≡ insert nat_cmp copies.old.pairs suite planned.left) }
    ensures intentions { intentions.new.pairs ≡ remove nat_cmp intentions.old.pairs suite }
    ensures room { copies.old.room ≤ copies.new.room + 1 }
{
    if let Some(planned) = intentions.remove(&suite) {
        copies.insert_in_room(suite, planned.left);
    }
}

/// Drops the intentions of a transaction.
pub(crate) fn forget(intentions: &mut RoomyMap<u64, Planned>, t: u64)
    ensures others { intentions_in intentions.new.pairs ≡ store.without_intentions t (intentions_in intentions.old.pairs) }
    ensures kept { AreAmong intentions.new.pairs intentions.old.pairs }
    ensures fewer { length intentions.new.pairs ≤ length intentions.old.pairs }
    ensures rising { IsOrdered nat_cmp intentions.new.pairs }
{
    let _ = intentions.len();
    intentions.retain(|pair| pair.1.t != t);
}

/// Reads the prefix of the copy of a suite, and keeps it.
pub(crate) fn keep_head(
    alloc: Global,
    copies: &mut RoomyMap<u64, StoredCopy>,
    suite: u64,
) -> Result<(), AllocError>
    ensures { copies.new ≡ copies.old }
{
    match copies.get_mut(&suite) {
        Some(copy) => copy.keep_head(alloc),
        None => Ok(()),
    }
}

/// Reads all of the copy of a suite, and keeps it.
pub(crate) fn keep_content(
    alloc: Global,
    copies: &mut RoomyMap<u64, StoredCopy>,
    suite: u64,
) -> Result<(), AllocError>
    ensures { copies.new ≡ copies.old }
{
    match copies.get_mut(&suite) {
        Some(copy) => copy.keep_content(alloc),
        None => Ok(()),
    }
}
