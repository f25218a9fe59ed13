//! Why there is no pool.

use std::alloc::AllocError;
use thiserror::Error;

/// Why there is no pool. Jobs are named by their numbers, and a place at which there is none by itself. Where several hold,
/// the answer is Memory before all others, then Stranger, Double, and Missing.
#[derive(Clone, Copy, Debug, PartialEq, Eq, Error)]
pub enum PoolFault {
    /// A growth was refused to an agent or before the first began, or no thread could be started.
    #[error("memory ran out")]
    Memory,
    /// There is a second outcome of this job; or there is one of each job, and an agent got stuck at this one. The
    /// channel's rule excludes it.
    #[error("job {0} was taken twice")]
    Double(u64),
    /// An agent took what names this place, at which no job was handed in. The channel's rule excludes it.
    #[error("an agent was to carry out the job at place {0}, where none was handed in")]
    Stranger(u64),
    /// There is no outcome of this job, the first of which there is none: an agent got stuck.
    #[error("there is no outcome of job {0}")]
    Missing(u64),
}

impl From<AllocError> for PoolFault {
    ghost use Rattle.std.specs.Prelude.{◌≡◌};
    ghost use Rattle.agent_pool.specs.declared.fault.PoolFault.TheVariants.{Memory};

    ghost from_gives = { λ _ fault. fault ≡ Memory };

    fn from(_error: AllocError) -> PoolFault {
        PoolFault::Memory
    }
}
