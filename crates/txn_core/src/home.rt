//! Where it is decided how a transaction ended.

ghost use Rattle.std.specs.Prelude.{◌≡◌, ◌<◌, ◌≤◌};
ghost use Rattle.txn_core.specs.Doing as doing;

use crate::fixed_parts::FixedParts;
use suite_prefix::MAX_AGENTS;
use vote_core::MAX_SERVERS;

/// The most agents: the numbers of one agent differ by so much.
const AGENTS: u64 = MAX_AGENTS as u64;

/// The server, among so many, at which it is decided how a transaction ended.
pub fn home_among(servers: usize, t: u64) -> u8
    requires { (0 < servers) × (servers ≤ MAX_SERVERS) }
    ensures value { result ≡ doing.home_among servers t }
    ensures known { result < servers }
{
    ((t % AGENTS + t / AGENTS) % servers as u64) as u8
}

/// The server of a service at which it is decided how a transaction ended.
pub(crate) fn home_of(fixed_parts: &FixedParts, t: u64) -> u8
    requires { (0 < fixed_parts.now.servers) × (fixed_parts.now.servers ≤ MAX_SERVERS) }
    ensures value { result ≡ doing.home_of fixed_parts.now t }
    ensures known { result < fixed_parts.now.servers }
{
    home_among(fixed_parts.servers(), t)
}
