//! Why nothing is certified.

use std::alloc::AllocError;
use thiserror::Error;

/// Why nothing is certified.
#[derive(Clone, Copy, Debug, PartialEq, Eq, Error)]
pub enum CertifyFault {
    /// These are not the histories and the transcripts of one run.
    #[error("these are not the histories and transcripts of one run")]
    Mismatch,
    /// Memory was refused.
    #[error("memory was refused")]
    Memory,
}

impl From<AllocError> for CertifyFault {
    ghost use Rattle.std.specs.Prelude.{◌≡◌};
    ghost use Rattle.run_certify.specs.declared.fault.CertifyFault.TheVariants.{Memory};

    ghost from_gives = { λ _ fault. fault ≡ Memory };

    fn from(_error: AllocError) -> CertifyFault {
        CertifyFault::Memory
    }
}
