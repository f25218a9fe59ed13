//! Why a transaction does not go on.

ghost use Rattle.std.specs.Prelude.{◌≡◌};
ghost use Rattle.file_exec.specs.declared.stop.Stop.TheVariants as stop;

use crate::need::Need;
use file_ops::Why;
use std::alloc::AllocError;

/// Why an operation does not go on: something is needed, it is refused, or memory was refused.
#[derive(Clone, Copy)]
pub(crate) enum Stop {
    Needs(Need),
    Refused(Why),
    Memory,
}

impl From<Why> for Stop {
    ghost from_gives = { λ why error. error ≡ stop.Refused why };

    fn from(why: Why) -> Stop {
        Stop::Refused(why)
    }
}

impl From<AllocError> for Stop {
    ghost from_gives = { λ _ error. error ≡ stop.Memory };

    fn from(_error: AllocError) -> Stop {
        Stop::Memory
    }
}
