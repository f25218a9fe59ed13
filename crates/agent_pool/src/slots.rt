//! A place for each job, into which its outcome is put.

ghost use Rattle.std.specs.Prelude.{◌≡◌, ◌≢◌, ℕ, ◌<◌, false, length, map, slice_get, slice_set, IfOk, IsTrue, None, Some};
ghost use Rattle.agent_pool.specs.declared.outcome.JobOutcome.{JobOutcome};
ghost use Rattle.agent_pool.specs.code.Filled.{AreNone};

use crate::outcome::JobOutcome;
use std::alloc::{AllocError, Global};
use std::marker::Model;

/// What stands at a place where no outcome was put.
const BLANK: JobOutcome = JobOutcome {
    job: 0,
    agent: 0,
    count: 0,
    at: 0,
};

/// A place for each job, with its outcome or none. The outcomes stand as they are handed out, so that no room is taken for
/// them a second time.
#[derive(Drop)]
pub(crate) struct Slots {
    outcomes: Vec<JobOutcome>,
    filled: Vec<bool>,
}

impl Model for Slots {
    ghost use Rattle.std.specs.Prelude.{◌≡◌, List, Option, length};
    ghost use Rattle.agent_pool.specs.declared.outcome.JobOutcome.{JobOutcome};
    ghost use Rattle.agent_pool.specs.code.Slots.{slots_of};

    ghost Value = { List (Option JobOutcome) };

    ghost view = { λ slots. slots_of slots.outcomes.items slots.filled.items };

    ghost invariant = { λ slots. length slots.filled.items ≡ length slots.outcomes.items };
}

impl Slots {
    /// So many places, and no outcome at any.
    pub(crate) fn new(alloc: Global, count: usize) -> Result<Slots, AllocError>
        ensures none { IfOk result (λ slots. AreNone slots) }
        ensures many { IfOk result (λ slots. length slots ≡ count) }
    {
        let outcomes = vec![in alloc; BLANK; count]?;
        let filled = vec![in alloc; false; count]?;
        Ok(Slots { outcomes, filled })
    }

    /// Whether there is an outcome at a place.
    pub(crate) fn is_filled(&self, place: usize) -> bool
        requires { place < length self.now }
        ensures there { IsTrue result → (outcome : JobOutcome) × (slice_get self.now place ≡ Some (Some outcome)) }
        ensures none { result ≡ false → slice_get self.now place ≡ Some None }
    {
        self.filled[place]
    }

    /// Puts an outcome at a place.
    pub(crate) fn put(&mut self, place: usize, outcome: JobOutcome)
        requires { place < length self.old }
        ensures { self.new ≡ slice_set self.old place (Some outcome) }
    {
        self.outcomes[place] = outcome;
        self.filled[place] = true;
    }

    /// The outcomes, where there is one at each place.
    pub(crate) fn into_outcomes(self) -> Vec<JobOutcome>
        requires { (k : ℕ) → slice_get self k ≢ Some None }
        ensures { map (λ (outcome : JobOutcome). Some outcome) result.items ≡ self }
    {
        let Slots { outcomes, .. } = self;
        outcomes
    }
}
