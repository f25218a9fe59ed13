//! What was done in an event.

use rep_core::{Reply, Request, Stamped};
use txn_core::Ending;

/// A request that a server served, with its reply.
#[derive(Drop)]
pub struct Served {
    pub server: u8,
    pub request: Stamped<Request>,
    pub reply: Stamped<Reply>,
}

impl Served {
    ghost use Rattle.std.specs.Prelude.{◌≡◌};
    ghost use Rattle.run_core.specs.Telling.{served_if};

    /// A place for a request that is served, and its reply (`World::advance`): what it holds says nothing.
    pub fn place() -> Served {
        Served {
            server: 0,
            request: Stamped {
                stamp: 0,
                value: Request::Locks,
            },
            reply: Stamped {
                stamp: 0,
                value: Reply::Down,
            },
        }
    }

    /// What was put into a place, if it was served.
    pub(crate) fn when(self, is_served: bool) -> Option<Served>
        ensures { result ≡ served_if is_served self }
    {
        if is_served { Some(self) } else { None }
    }
}

/// How a job of an agent ended: the agent's jobs are counted from 0, and `steps` of the job's own steps
/// were taken.
#[derive(Debug, Drop)]
pub struct EndedJob {
    pub agent: u8,
    pub count: u64,
    pub steps: u64,
    pub ending: Ending,
}

impl PartialEq for EndedJob {
    ghost use Rattle.run_core.specs.code.Equality.{same_outcome, same_outcome_partial_laws};

    ghost eq = { same_outcome };

    ghost laws = { same_outcome_partial_laws };

    fn eq(&self, other: &EndedJob) -> bool {
        self.agent == other.agent
            && self.count == other.count
            && self.steps == other.steps
            && self.ending == other.ending
    }
}

impl Eq for EndedJob {
    ghost use Rattle.run_core.specs.code.Equality.{same_outcome_laws};

    ghost laws = { same_outcome_laws };
}

/// What was done in an event: what was served, if anything was, and how a job ended, if one did.
#[derive(Drop)]
pub struct Done {
    pub served: Option<Served>,
    pub outcome: Option<EndedJob>,
}
