//! Whether votes are valid.

ghost use Rattle.std.specs.Prelude.{◌≡◌, ◌≤◌, ◌<◌, length, All, IfNone};
ghost use Rattle.vote_core.specs.Quorums.{total_votes};
ghost use Rattle.vote_core.specs.Validity.{first_fault, has_fault, lists_twice};
ghost use Rattle.vote_core.specs.declared.fault.VotesFault.TheVariants.{UnknownServer};

use crate::{MAX_SERVERS, ServerSet, VotesFault};

/// The first fault of votes, where there are this many servers.
pub(crate) fn first_fault_of(
    servers: usize,
    reps: &[(u8, u8)],
    r: u16,
    w: u16,
) -> Option<VotesFault>
    ensures fault { result ≡ first_fault servers (record { reps = reps.now; r = r; w = w }) }
    ensures few_votes { IfNone result (All (λ rep. rep.1 < 256) reps.now) }
{
    if reps.is_empty() {
        return Some(VotesFault::Empty);
    }
    if has_unknown_server(servers, reps) {
        return Some(VotesFault::UnknownServer);
    }
    if lists_server_twice(reps) {
        return Some(VotesFault::ListedTwice);
    }
    let total = total_of(reps);
    let (r, w) = (u32::from(r), u32::from(w));
    if total == 0 {
        Some(VotesFault::NoVotes)
    } else if r == 0 || r > total || w == 0 || w > total {
        Some(VotesFault::ThresholdOutOfRange)
    } else if r + w <= total {
        Some(VotesFault::ReadMissesWrite)
    } else if 2 * w <= total {
        Some(VotesFault::WritesDisjoint)
    } else {
        None
    }
}

/// Whether a representative is at a server that there is not.
fn has_unknown_server(servers: usize, reps: &[(u8, u8)]) -> bool
    ensures { result ≡ has_fault UnknownServer servers (record { reps = reps.now; r = 0; w = 0 }) }
{
    reps.iter().any(|(server, _)| {
        let server = usize::from(*server);
        server >= servers || server >= MAX_SERVERS
    })
}

/// Whether a server is listed twice. It ends where the first is, after `MAX_SERVERS + 1` at most.
fn lists_server_twice(reps: &[(u8, u8)]) -> bool
    requires { All (λ rep. rep.0 < MAX_SERVERS) reps.now }
    ensures { result ≡ lists_twice reps.now }
{
    let mut seen = ServerSet::empty();
    for (server, _) in reps {
        if seen.contains(*server) {
            return true;
        }
        seen.insert(*server);
    }
    false
}

/// All votes of some representatives.
fn total_of(reps: &[(u8, u8)]) -> u32
    requires { length reps.now ≤ MAX_SERVERS }
    ensures total { result ≡ total_votes reps.now }
    ensures few_votes { All (λ rep. rep.1 < 256) reps.now }
{
    let mut total = 0;
    for (_, votes) in reps {
        total += u32::from(*votes);
    }
    total
}
