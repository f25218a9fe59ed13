//! Writing a text in pieces.

ghost use Rattle.std.specs.Prelude.{◌≡◌, OnOk, OnErr};
ghost use Rattle.byte_streams.specs.Streams.{Adds, one_more};

use crate::traits::{ByteOut, WriteFailed};

/// The most bytes of one piece.
const PIECE: usize = 65_536;

/// Writes a text of any length, in pieces of at most 65,536 bytes. Where one fails nothing more is written.
pub fn write_all<O: ByteOut>(stream: &mut O, text: &[u8]) -> Result<(), WriteFailed>
    ensures ok { OnOk result (Adds (O.written stream.old) text.now (O.written stream.new)) }
    ensures kept { OnOk result (O.failed_writes stream.new ≡ O.failed_writes stream.old) }
    ensures err { OnErr result (O.failed_writes stream.new ≡ one_more (O.failed_writes stream.old)) }
{
    let mut rest = text;
    while !rest.is_empty() {
        let (piece, after) = rest.split_at(rest.len().min(PIECE));
        stream.write(piece)?;
        rest = after;
    }
    Ok(())
}
