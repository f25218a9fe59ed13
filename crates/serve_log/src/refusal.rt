//! Why a script was not served, and how that is told.

use byte_streams::{ByteOut, FAULTY, NO_STREAM, ReadError, WriteFailed, finish_line, lack_memory};
use std::alloc::{AllocError, Global};
use std::io;
use suite_script::{PlayError, ScriptError, ScriptFault, fault_text};

/// Why a script was not served, or not all was written.
#[derive(Drop)]
pub(crate) enum Refusal {
    /// The script is faulty, and this is its first faulty line.
    Script(ScriptFault),
    /// Memory ran out.
    Memory,
    /// A stream or the file failed, or the input is above its limit.
    Stream,
}

impl From<ReadError> for Refusal {
    fn from(error: ReadError) -> Refusal {
        match error {
            ReadError::Memory => Refusal::Memory,
            ReadError::Failed | ReadError::TooLong => Refusal::Stream,
        }
    }
}

impl From<ScriptError> for Refusal {
    fn from(error: ScriptError) -> Refusal {
        match error {
            ScriptError::Faulty(fault) => Refusal::Script(fault),
            ScriptError::Memory => Refusal::Memory,
        }
    }
}

impl From<PlayError> for Refusal {
    fn from(error: PlayError) -> Refusal {
        match error {
            PlayError::Faulty(fault) => Refusal::Script(fault),
            PlayError::WriteFailed => Refusal::Stream,
            PlayError::Memory => Refusal::Memory,
        }
    }
}

impl From<WriteFailed> for Refusal {
    fn from(_error: WriteFailed) -> Refusal {
        Refusal::Stream
    }
}

impl From<io::Error> for Refusal {
    fn from(_error: io::Error) -> Refusal {
        Refusal::Stream
    }
}

impl From<AllocError> for Refusal {
    fn from(_error: AllocError) -> Refusal {
        Refusal::Memory
    }
}

/// Tells why a script was not served, and says the exit status.
pub(crate) fn tell_refusal<O: ByteOut>(alloc: Global, writer: &mut O, refusal: Refusal) -> u8 {
    match refusal {
        Refusal::Script(fault) => finish_line(writer, fault_text(alloc, fault), FAULTY),
        Refusal::Memory => lack_memory(writer),
        Refusal::Stream => NO_STREAM,
    }
}
