//! How the end of a command is told: its last line, and its exit status.

ghost use Rattle.std.specs.Prelude.{◌≡◌, IfOk};
ghost use Rattle.suite_cli.specs.Outputs.{text_fault_line, word_fault_line};
ghost use Rattle.suite_cli.specs.code.Errors.{Told};

use crate::command_error::CommandError;
use acl_text::{TextFault, push_text_code};
use byte_streams::{ByteOut, COMMAND_LINE, FAULTY, NO_STREAM, finish, finish_line, lack_memory};
use script_text::push_number;
use std::alloc::{AllocError, Global};
use suite_script::fault_text;

/// Tells why a command ended before its work was done, and answers its exit status.
pub(crate) fn tell<O: ByteOut>(alloc: Global, error: CommandError, writer: &mut O) -> u8
    ensures { Told error result (O.written writer.old) (O.written writer.new)
        (O.failed_writes writer.old) (O.failed_writes writer.new) }
{
    match error {
        CommandError::CommandLine => finish(writer, b"fault command line\n", COMMAND_LINE),
        CommandError::BadWord(place) => finish_line(writer, word_fault(alloc, place), COMMAND_LINE),
        CommandError::Script(fault) => finish_line(writer, fault_text(alloc, fault), FAULTY),
        CommandError::List(fault) => finish_line(writer, list_fault(alloc, fault), FAULTY),
        CommandError::Memory => lack_memory(writer),
        CommandError::Stream => NO_STREAM,
    }
}

/// The line of a bad name among the words.
fn word_fault(alloc: Global, place: u64) -> Result<Vec<u8>, AllocError>
    ensures { IfOk result (λ line. line.items ≡ word_fault_line place) }
{
    let mut line = Vec::from_slice(alloc, b"fault word ")?;
    push_number(&mut line, place)?;
    line.extend_from_slice(b"\n")?;
    Ok(line)
}

/// The line of a list's text that is faulty.
fn list_fault(alloc: Global, fault: TextFault) -> Result<Vec<u8>, AllocError>
    ensures { IfOk result (λ line. line.items ≡ text_fault_line fault) }
{
    let mut line = Vec::from_slice(alloc, b"fault ")?;
    push_text_code(&mut line, fault)?;
    line.extend_from_slice(b"\n")?;
    Ok(line)
}
