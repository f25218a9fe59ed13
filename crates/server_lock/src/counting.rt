//! How many items each agent made, and the operator.

ghost use Rattle.std.specs.Prelude.{◌≡◌, ℕ, ◌+◌, ◌<◌, ◌≤◌, ◌^◌, All, length, slice_index};
ghost use Rattle.server_lock.specs.Closed.{histories_of};
ghost use Rattle.server_lock.specs.Kept.{HoldsLegal};
ghost use Rattle.server_lock.specs.Counts.{seat_of, made_at, made_at_all, passes_at, is_counted};

use crate::item::Item;
use crate::locked::Locked;
use crate::pass::Pass;
use vote_core::MAX_SERVERS;

/// How many may have made an item: an agent of each number, and the operator.
pub(crate) const SEATS: usize = 257;

/// The place of an agent, or of the operator, in the count.
pub(crate) fn seat_of(agent: Option<u8>) -> usize
    ensures value { result ≡ seat_of agent }
    ensures there { result < 257 }
{
    match agent {
        None => 0,
        Some(number) => usize::from(number) + 1,
    }
}

/// Counts items.
fn count(items: &[Item], tally: &mut [u64])
    requires seats { length tally.old ≡ 257 }
    requires room { (seat : ℕ) → seat < 257 → slice_index tally.old seat + length items.now < 2 ^ 64 }
    ensures seats { length tally.new ≡ 257 }
    ensures counted { (seat : ℕ) → seat < 257 → slice_index tally.new seat ≡ slice_index tally.old seat + made_at seat items.now }
{
    for item in items {
        tally[seat_of(item.agent)] += 1;
    }
}

/// How many items of the histories of these servers each has made.
pub(crate) fn tally(held: &[Locked]) -> [u64; SEATS]
    requires servers { length held.now ≤ MAX_SERVERS }
    requires legal { All HoldsLegal held.now }
    ensures seats { length result ≡ 257 }
    ensures counted { (seat : ℕ) → seat < 257 → slice_index result seat ≡ made_at_all seat (histories_of held.now) }
{
    let mut tally = [0u64; SEATS];
    for locked in held {
        count(locked.items(), &mut tally);
    }
    tally
}

/// Whether so many items are what the passes of an agent counted, or of the operator.
pub(crate) fn is_counted(made: u64, seat: usize, passes: &[Pass]) -> bool
    ensures { result ≡ is_counted made (passes_at seat passes.now) }
{
    let mut counted = None;
    for pass in passes {
        if seat_of(pass.agent()) == seat {
            if counted.is_some() {
                return false;
            }
            counted = Some(pass.count());
        }
    }
    made == counted.unwrap_or(0)
}
