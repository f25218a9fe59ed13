//! Where a transaction stands.

ghost use Rattle.std.specs.Prelude.{◌≡◌, IfOk};
ghost use Rattle.txn_core.specs.code.TransactionRunFields.{phase_of};

use crate::ending::Ending;
use crate::granted::{Granted, Proposal, copied};
use crate::servers::Servers;
use rep_core::Verdict;
use std::alloc::{AllocError, Global};

/// Where a transaction stands.
#[derive(Drop)]
pub(crate) enum Phase {
    /// This suite is gathered.
    Gathering(u64),
    /// The content of this suite is fetched.
    Fetching(u64),
    /// A suite that gets votes is widened to them. The others that are to be widened stand in the
    /// changes, from a place on.
    Widening {
        number: u64,
        after: usize,
        granted: Granted,
    },
    /// The servers that are left prepare, the first of them now. Once none is left, the home is to decide.
    Proposing(Servers, Proposal),
    /// The end is told to this server, and then to those that are left.
    Finishing {
        server: u8,
        left: Servers,
        verdict: Verdict,
        ending: Ending,
    },
}

impl Phase {
    /// The same.
    pub(crate) fn copy(&self, alloc: Global) -> Result<Phase, AllocError>
        ensures { IfOk result (λ copy. copy ≡ self.now) }
    {
        Ok(match self {
            Phase::Gathering(number) => Phase::Gathering(*number),
            Phase::Fetching(number) => Phase::Fetching(*number),
            Phase::Widening {
                number,
                after,
                granted,
            } => Phase::Widening {
                number: *number,
                after: *after,
                granted: granted.copy(alloc)?,
            },
            Phase::Proposing(servers, proposal) => {
                Phase::Proposing(servers.copy()?, copied(alloc, proposal)?)
            }
            Phase::Finishing {
                server,
                left,
                verdict,
                ending,
            } => Phase::Finishing {
                server: *server,
                left: left.copy()?,
                verdict: verdict.clone()?,
                ending: ending.clone()?,
            },
        })
    }
}
