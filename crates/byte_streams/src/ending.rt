//! How a program ends that reads an input and writes an answer: its last line, and its exit status.

ghost use Rattle.std.specs.Prelude.{◌≡◌};
ghost use Rattle.byte_streams.specs.Endings.{Finishes, FinishesLine, SaysMemory, no_memory};
ghost use Rattle.byte_streams.specs.Programs.{ToldUnread};

use crate::reading::ReadError;
use crate::traits::ByteOut;
use crate::writing::write_all;
use std::alloc::AllocError;

/// The most bytes of an input.
pub const MAX_INPUT: usize = 16_777_216;

/// The exit status where the work was done.
pub const DONE: u8 = 0;

/// The exit status where the words ask for nothing.
pub const COMMAND_LINE: u8 = 2;

/// The exit status where the input is faulty.
pub const FAULTY: u8 = 3;

/// The exit status where memory ran out.
const NO_MEMORY: u8 = 4;

/// The exit status where a stream failed, or the input is above its limit.
pub const NO_STREAM: u8 = 6;

/// Writes a line for which there was memory, and answers a status; or that memory ran out, or a stream failed.
pub fn finish_line<O: ByteOut>(writer: &mut O, line: Result<Vec<u8>, AllocError>, status: u8) -> u8
    ensures { FinishesLine line status result (O.written writer.old) (O.written writer.new)
        (O.failed_writes writer.old) (O.failed_writes writer.new) }
{
    match line {
        Ok(line) => finish(writer, &line, status),
        Err(_) => lack_memory(writer),
    }
}

/// Writes a text and answers a status, or that a stream failed.
pub fn finish<O: ByteOut>(writer: &mut O, text: &[u8], status: u8) -> u8
    ensures { Finishes text.now status result (O.written writer.old) (O.written writer.new)
        (O.failed_writes writer.old) (O.failed_writes writer.new) }
{
    match write_all(writer, text) {
        Ok(()) => status,
        Err(_) => NO_STREAM,
    }
}

/// Writes `fault memory`, where that can be written, and answers the exit status where memory ran out, 4.
pub fn lack_memory<O: ByteOut>(writer: &mut O) -> u8
    ensures status { result ≡ no_memory }
    ensures says { SaysMemory (O.written writer.old) (O.written writer.new)
        (O.failed_writes writer.old) (O.failed_writes writer.new) }
{
    let _ = write_all(writer, b"fault memory\n");
    NO_MEMORY
}

/// Tells why an input was not read: `fault memory`, and of a stream that failed, or was too long, nothing.
pub fn tell_unread<O: ByteOut>(writer: &mut O, error: ReadError) -> u8
    ensures { ToldUnread error result (O.written writer.old) (O.written writer.new)
        (O.failed_writes writer.old) (O.failed_writes writer.new) }
{
    match error {
        ReadError::Memory => lack_memory(writer),
        ReadError::Failed | ReadError::TooLong => NO_STREAM,
    }
}
