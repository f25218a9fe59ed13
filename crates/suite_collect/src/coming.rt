//! What comes next of a collector, without what a quorum gives.

ghost use Rattle.std.specs.Prelude.{◌≡◌};
ghost use Rattle.suite_collect.specs.Answering.{asked_in};
ghost use Rattle.suite_collect.specs.Collecting.{request_for};

use rep_core::Request;
use suite_prefix::LockMode;

/// What a server is asked of a suite.
#[derive(Clone, Copy)]
pub enum Asked {
    /// A lock.
    Poll(LockMode),
    /// That the lock that it has becomes exclusive.
    Upgrade,
}

/// What comes next of a suite.
#[derive(Clone, Copy)]
pub enum Coming {
    /// It has a quorum.
    Current,
    /// A server is to be asked.
    Ask {
        server: u8,
        asked: Asked,
    },
    /// Nobody is left to ask, and so many votes of those that are needed were had. The first server that
    /// was busy stands beside them, with the transaction in its way.
    Short {
        got: u32,
        needed: u32,
        busy: Option<(u8, u64)>,
    },
}

impl Asked {
    /// The request that a transaction makes of it.
    pub fn request(self, t: u64, suite: u64) -> Request
        ensures { result ≡ request_for t suite (asked_in self) }
    {
        match self {
            Asked::Poll(mode) => Request::Poll { t, suite, mode },
            Asked::Upgrade => Request::Upgrade { t, suite },
        }
    }
}
