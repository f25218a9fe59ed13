//! Why servers are not closed.

ghost use Rattle.std.specs.Prelude.{◌≡◌};

use crate::locked::Locked;
use std::marker::Model;
use thiserror::Error;

/// Why servers are not closed. Closing takes no memory, so it never lacks any.
#[derive(Clone, Copy, Debug, PartialEq, Eq, Error)]
pub enum CloseReason {
    /// In this server's place stands another, or one that was opened otherwise.
    #[error("another server stands in the place of server {0}")]
    Place(u8),
    /// The items of this agent, or of the operator, are not as many as its one pass counted.
    #[error("the items of {0:?} are not as many as its one pass counted")]
    Count(Option<u8>),
}

/// Why servers are not closed, with what stood under their locks, ordered by their numbers: no reason can be told of
/// servers that were not found so. Only [`crate::close_locked`] makes one.
#[derive(Drop)]
pub struct CloseFault {
    pub(crate) why: CloseReason,
    pub(crate) held: Vec<Locked>,
}

impl Model for CloseFault {
    ghost use Rattle.server_lock.specs.Closed.{Found};

    ghost Value = { Found };

    ghost use Rattle.std.specs.Coded.{codes};
    ghost use Rattle.suite_prefix.specs.code.ServersCode.{servers_code};

    ghost coded = { Prim.hlevel (codes, servers_code) };

    ghost view = { λ fault. record { why = fault.why; held = fault.held.items } };
}

impl CloseFault {
    /// The reason.
    pub fn why(&self) -> CloseReason
        ensures { result ≡ self.now.why }
    {
        self.why
    }
}
