//! Reading a stream to its end.

ghost use Rattle.std.specs.Prelude.{◌≡◌, ◌≤◌, ◌<◌, ◌^◌, IfOk, OnOk, IfErr};
ghost use Rattle.byte_streams.specs.Whole.{IsWhole, Explains, RanOut};

use crate::traits::ByteIn;
use std::alloc::{AllocError, AllocFailed, Global};

/// Why a stream was not read whole.
#[derive(Clone, Copy, Debug, PartialEq, Eq)]
pub enum ReadError {
    /// A read failed.
    Failed,
    /// There are more bytes than the limit.
    TooLong,
    /// Memory ran out.
    Memory,
}

impl From<AllocError> for ReadError {
    ghost use Rattle.byte_streams.specs.declared.reading.ReadError.TheVariants.{Memory};

    ghost from_gives = { λ _ e. e ≡ Memory };

    fn from(_error: AllocError) -> ReadError {
        ReadError::Memory
    }
}

/// How many bytes are asked for at a time.
const PIECE: usize = 16_384;

/// All the bytes of a stream, which are at most so many.
pub fn read_all<I: ByteIn>(
    alloc: Global,
    stream: &mut I,
    limit: usize,
) -> Result<Vec<u8>, ReadError>
    requires { limit < 2 ^ 62 }
    ensures ok { IfOk result (λ bytes. IsWhole (I.rest stream.old) limit bytes.items) }
    ensures err { IfErr result (λ error. Explains error (I.rest stream.old) limit
        (I.failed_reads stream.old) (I.failed_reads stream.new)) }
    ensures memory { IfErr result (λ error. RanOut error (I.rest stream.old) limit (I.rest stream.new)
        (I.failed_reads stream.old) (I.failed_reads stream.new)) }
    ensures kept { OnOk result (I.failed_reads stream.new ≡ I.failed_reads stream.old) }
{
    let mut bytes = Vec::new(alloc);
    let mut piece = [0u8; PIECE];
    loop {
        let Ok(count) = stream.read(&mut piece) else {
            return Err(ReadError::Failed);
        };
        if count == 0 {
            return Ok(bytes);
        }
        if bytes.len() + count > limit {
            return Err(ReadError::TooLong);
        }
        bytes.extend_from_slice(&piece[..count])?;
    }
}
