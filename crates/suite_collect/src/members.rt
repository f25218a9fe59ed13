//! The members of some votes.

ghost use Rattle.std.specs.Prelude.{◌≡◌, ◌<◌, All, find, option_map, IfSome};
ghost use Rattle.std.specs.FinSet.{contains};
ghost use Rattle.vote_core.specs.Validity.{IsValid};
ghost use Rattle.suite_collect.specs.code.Dues.{is_left_by};
ghost use Rattle.suite_collect.specs.Collecting as spec;

use crate::next::Members;
use vote_core::{MAX_SERVERS, ServerSet, Votes};

/// The servers of a set that have a vote, in listed order.
pub(crate) fn members_of(votes: &Votes, held: &ServerSet) -> Members
    ensures members { result.items ≡ spec.members_of votes.now (contains held.now) }
    ensures known { All (λ server. server < MAX_SERVERS) result.items }
    ensures valid { IsValid votes.now }
{
    let mut members = Members::new();
    for (server, own) in votes.reps() {
        if *own > 0 && held.contains(*server) {
            members.push(*server);
        }
    }
    members
}

/// The first server, in listed order, that has a vote and is in neither set.
pub(crate) fn first_left(votes: &Votes, holders: &ServerSet, refused: &ServerSet) -> Option<u8>
    ensures first { result ≡ option_map (λ rep. rep.0) (find (is_left_by (contains holders.now) (contains refused.now)) votes.now.reps) }
    ensures known { IfSome result (λ server. server < MAX_SERVERS) }
{
    for (server, own) in votes.reps() {
        if *own > 0 && !holders.contains(*server) && !refused.contains(*server) {
            return Some(*server);
        }
    }
    None
}
