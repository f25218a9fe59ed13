//! Sets of servers.

ghost use Rattle.std.specs.Prelude.{◌≡◌, ℕ, ◌<◌, ◌==◌, ◌||◌, false};
ghost use Rattle.std.specs.FinSet.{empty, insert, contains};
ghost use Rattle.vote_core.specs.Servers.{are_below};

use crate::MAX_SERVERS;
use std::marker::Model;

/// A set of server numbers below `MAX_SERVERS`.
#[derive(Clone, Copy, Debug)]
pub struct ServerSet {
    bits: u32,
}

impl Model for ServerSet {
    ghost use Rattle.std.specs.Prelude.{◌<◌, ◌^◌};
    ghost use Rattle.std.specs.Ordering.{nat_cmp};
    ghost use Rattle.std.specs.Coded.{coded_ℕ};
    ghost use Rattle.std.specs.FinSet.{FinSet, code};
    ghost use Rattle.vote_core.specs.declared.TheConstants.{MAX_SERVERS};
    ghost use Rattle.vote_core.specs.code.ServerBits.{set_below, word_below};

    ghost Value = { FinSet nat_cmp };

    ghost coded = { code coded_ℕ };

    ghost use Rattle.vote_core.specs.code.ServerBitLaws.{fields_back};

    ghost view = { λ set. set_below MAX_SERVERS set.bits };

    ghost invariant = { λ set. set.bits < 2 ^ MAX_SERVERS };

    ghost inverse = { λ members. record { bits = word_below MAX_SERVERS members } };

    ghost inverse_ok = { λ set within. fields_back set within };
}

impl PartialEq for ServerSet {
    ghost use Rattle.vote_core.specs.code.SameServers.{same_servers, same_servers_partial_laws};

    ghost eq = { same_servers };

    ghost laws = { same_servers_partial_laws };

    fn eq(&self, other: &ServerSet) -> bool {
        self.bits == other.bits
    }
}

impl Eq for ServerSet {
    ghost use Rattle.vote_core.specs.code.SameServers.{same_servers_laws};

    ghost laws = { same_servers_laws };
}

impl ServerSet {
    /// The set of no server.
    pub fn empty() -> ServerSet
        ensures value { result ≡ empty }
        ensures members { (server : ℕ) → contains result server ≡ false }
    {
        ServerSet { bits: 0 }
    }

    /// Whether a server is in the set.
    pub fn contains(&self, server: u8) -> bool
        ensures { result ≡ contains self.now server }
    {
        usize::from(server) < MAX_SERVERS && (self.bits >> server) & 1 == 1
    }

    /// Whether all of its servers are numbered below this.
    pub fn are_below(&self, end: usize) -> bool
        ensures { result ≡ are_below end self.now }
    {
        end >= MAX_SERVERS || self.bits >> end == 0
    }

    /// Adds a server.
    pub fn insert(&mut self, server: u8)
        requires { server < MAX_SERVERS }
        ensures value { self.new ≡ insert self.old server }
        ensures members { (other : ℕ) → contains self.new other ≡ ((other == server) || contains self.old other) }
    {
        self.bits |= 1 << server;
    }

    /// Adds all servers of another set.
    pub fn unite(&mut self, other: &ServerSet)
        ensures members { (server : ℕ) → contains self.new server ≡ (contains self.old server || contains other.now server) }
    {
        self.bits |= other.bits;
    }
}
