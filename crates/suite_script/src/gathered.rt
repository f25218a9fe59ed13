//! Text that is gathered, and written in pieces.

ghost use Rattle.std.specs.Prelude.{◌≡◌, [], OnErr, OnOk};
ghost use Rattle.byte_streams.specs.Streams.{Adds, one_more};
ghost use Rattle.suite_script.specs.Gathering.{Moves};

use byte_streams::{ByteOut, WriteFailed, write_all};

/// How much text is gathered before it is written.
const GATHERED: usize = 65_536;

/// How much is printed before the rest of a script is looked through.
pub(crate) const KEPT: usize = 4_194_304;

/// Writes the text that is gathered where it is long enough.
pub fn write_if_full<O: ByteOut>(writer: &mut O, text: &mut Vec<u8>) -> Result<(), WriteFailed>
    ensures { Moves result text.old.items text.new.items (O.written writer.old) (O.written writer.new)
        (O.failed_writes writer.old) (O.failed_writes writer.new) }
{
    if text.len() >= GATHERED {
        write_gathered(writer, text)?;
    }
    Ok(())
}

/// Writes the text that is gathered, and begins anew.
pub fn write_gathered<O: ByteOut>(writer: &mut O, text: &mut Vec<u8>) -> Result<(), WriteFailed>
    ensures ok { OnOk result (Adds (O.written writer.old) text.old.items (O.written writer.new)) }
    ensures kept { OnOk result (O.failed_writes writer.new ≡ O.failed_writes writer.old) }
    ensures empty { OnOk result (text.new.items ≡ []) }
    ensures err { OnErr result (O.failed_writes writer.new ≡ one_more (O.failed_writes writer.old)) }
{
    write_all(writer, text)?;
    text.clear();
    Ok(())
}
