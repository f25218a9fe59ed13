//! Why a script was not played to its end.

ghost use Rattle.std.specs.Prelude.{◌≡◌};
ghost use Rattle.suite_script.specs.Readings.{play_error_of};
ghost use Rattle.suite_script.specs.declared.play_error.PlayError.TheVariants as play;

use crate::fault::{ScriptError, ScriptFault};
use byte_streams::WriteFailed;
use std::alloc::AllocError;
use thiserror::Error;

/// Why a script was not played to its end.
#[derive(Clone, Copy, Debug, Error)]
pub enum PlayError {
    /// It is faulty, and this is its first faulty line.
    #[error(transparent)]
    Faulty(ScriptFault),
    /// A write failed.
    #[error("a write failed")]
    WriteFailed,
    /// Memory ran out.
    #[error("out of memory")]
    Memory,
}

impl From<ScriptError> for PlayError {
    ghost from_gives = { λ error e. e ≡ play_error_of error };

    fn from(error: ScriptError) -> PlayError {
        match error {
            ScriptError::Faulty(fault) => PlayError::Faulty(fault),
            ScriptError::Memory => PlayError::Memory,
        }
    }
}

impl From<WriteFailed> for PlayError {
    ghost from_gives = { λ _ e. e ≡ play.WriteFailed };

    fn from(_error: WriteFailed) -> PlayError {
        PlayError::WriteFailed
    }
}

impl From<AllocError> for PlayError {
    ghost from_gives = { λ _ e. e ≡ play.Memory };

    fn from(_error: AllocError) -> PlayError {
        PlayError::Memory
    }
}
