//! Answers questions about access: may this caller have what it wants of a file with this list? If not, which entry
//! decides?
//!
//! It is the example of what asks `acl_core` and `acl_text`; `./suites may` asks it. Lines, words and faults are read
//! and told as those of a script (`suite_script`).
//!
//! Standard input has one question a line, `OWNER GROUP UID GID[,GROUP..] WANTED LIST`, all numbers. Standard
//! output has an answer for each, in order: `granted` or `denied WANTED by ENTRY`. If a line is faulty, nothing is
//! printed but `fault line N: CODE`. The exit status is 0, or 2 for words, 3 for a fault, 4 out
//! of memory. It is 6 where a stream failed or the input is above 16 MiB.
//!
//! **Promises.** Each answer is that of the access check (`specs/Answers.antt`); of `obey` it is said (`Does`)
//! what is done of the words when it ends, and with which exit status.
//!
//! **Files**: `words`, `question`. **Definitions** (`specs/`): `Words`, `Questions`, `Answers`, `Runs`.
#![tactic(auto)]

ghost use Rattle.std.specs.Prelude.{◌≡◌, ◌<◌, ◌^◌, length, map};
ghost use Rattle.byte_streams.specs.Programs.{streams_of};
ghost use Rattle.may.specs.Answers.{Comes, output_of};
ghost use Rattle.may.specs.Runs.{Does, Ends, Runs, Told};

mod question;
mod words;

use byte_streams::{
    ByteIn, ByteOut, COMMAND_LINE, DONE, FAULTY, MAX_INPUT, finish, finish_line, lack_memory,
    read_all, tell_unread,
};
use question::{push_answer, read_question};
use script_text::Lines;
use std::alloc::Global;
use suite_script::{ScriptError, fault_text};

/// Does what the words behind the command ask for, and says the exit status.
pub fn obey<I: ByteIn, O: ByteOut>(
    alloc: Global,
    words: &[&str],
    reader: &mut I,
    writer: &mut O,
) -> u8
    ensures { Does (map (λ word. word.now) words.now)
        (streams_of I.rest I.failed_reads O.written O.failed_writes reader.old reader.new writer.old writer.new) result }
{
    match words {
        [] => run(alloc, reader, writer),
        _ => finish(writer, b"fault command line\n", COMMAND_LINE),
    }
}

/// Answers the questions that a reader gives, and says the exit status.
fn run<I: ByteIn, O: ByteOut>(alloc: Global, reader: &mut I, writer: &mut O) -> u8
    ensures { Runs (streams_of I.rest I.failed_reads O.written O.failed_writes reader.old reader.new writer.old writer.new) result }
{
    match read_all(alloc, reader, MAX_INPUT) {
        Ok(input) => answer_all(alloc, &input, writer),
        Err(error) => tell_unread(writer, error),
    }
}

/// Writes the answers to all lines, or the first fault, and says the exit status.
fn answer_all<O: ByteOut>(alloc: Global, input: &[u8], writer: &mut O) -> u8
    requires { length input.now < 2 ^ 60 }
    ensures { Ends (output_of input.now) result (O.written writer.old) (O.written writer.new)
        (O.failed_writes writer.old) (O.failed_writes writer.new) }
{
    match answers(alloc, input) {
        Ok(text) => finish(writer, &text, DONE),
        Err(error) => tell(alloc, error, writer),
    }
}

/// The answers to all lines, or the first fault.
fn answers(alloc: Global, input: &[u8]) -> Result<Vec<u8>, ScriptError>
    requires { length input.now < 2 ^ 60 }
    ensures { Comes result (output_of input.now) }
{
    let mut text = Vec::new(alloc);
    let mut number = 1u64;
    for line in Lines::new(input) {
        match read_question(alloc, line) {
            Ok(question) => push_answer(&mut text, &question)?,
            Err(error) => return Err(error.at(number)),
        }
        number += 1;
    }
    Ok(text)
}

/// Tells why the input was not answered.
fn tell<O: ByteOut>(alloc: Global, error: ScriptError, writer: &mut O) -> u8
    ensures { Told error result (O.written writer.old) (O.written writer.new)
        (O.failed_writes writer.old) (O.failed_writes writer.new) }
{
    match error {
        ScriptError::Faulty(fault) => finish_line(writer, fault_text(alloc, fault), FAULTY),
        ScriptError::Memory => lack_memory(writer),
    }
}
