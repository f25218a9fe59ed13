//! Tells whether a history is one plain table's: whether there is one order of its calls that keeps time, in which each
//! call that was told was told what the table answers. `./suites judge` stands on it.
//!
//! It reads a history from standard input, and prints `one table: N calls`; with `--order` the lines of the calls in
//! such an order below that, one a line. Or it prints `no: line N fits no order`, with exit status 1: there is an order
//! for what was told above that line, and none with it. Where memory runs out it says so, and gives no verdict.
//!
//! The exit status is 0 where there is an order, 1 where there is none, 2 for other words, 3 for a fault, 4 out of
//! memory. It is 6 where a stream failed or the input is above 128 MiB.
//!
//! **Promises.** Of `obey` it is said (`Obeys`) what is done of the words when it ends: of its input and its
//! output (`Runs`).
//!
//! **Definitions** (`specs/`): `Runs`.
#![tactic(auto)]

ghost use Rattle.std.specs.Prelude.{◌≡◌, ◌<◌, ◌^◌, length, map};
ghost use Rattle.byte_streams.specs.Programs.{Obeys, streams_of};
ghost use Rattle.judge.specs.Runs.{Ends, Runs, Told, wanted_by};

use byte_streams::{
    ByteIn, ByteOut, COMMAND_LINE, DONE, FAULTY, finish, finish_line, lack_memory, read_all,
    tell_unread,
};
use std::alloc::Global;
use suite_history::judge_text;
use suite_script::{ScriptError, fault_text};

/// The most bytes of a history: 128 MiB, some two million calls.
const MAX_HISTORY: usize = 1 << 27;

/// Does what the words behind the command ask for, and says the exit status.
pub fn obey<I: ByteIn, O: ByteOut>(
    alloc: Global,
    words: &[&str],
    reader: &mut I,
    writer: &mut O,
) -> u8
    ensures { Obeys Runs (wanted_by (map (λ word. word.now) words.now))
        (streams_of I.rest I.failed_reads O.written O.failed_writes reader.old reader.new writer.old writer.new) result }
{
    match tells_order(words) {
        Some(tells_order) => run(alloc, tells_order, reader, writer),
        None => finish(writer, b"fault command line\n", COMMAND_LINE),
    }
}

/// Whether words ask for an order beside the verdict, if they ask for something.
fn tells_order(words: &[&str]) -> Option<bool>
    ensures { result ≡ wanted_by (map (λ word. word.now) words.now) }
{
    match words {
        [] => Some(false),
        [word] if *word == "--order" => Some(true),
        _ => None,
    }
}

/// Judges the history that a reader gives, and says the exit status.
fn run<I: ByteIn, O: ByteOut>(
    alloc: Global,
    tells_order: bool,
    reader: &mut I,
    writer: &mut O,
) -> u8
    ensures { Runs tells_order (streams_of I.rest I.failed_reads O.written O.failed_writes reader.old reader.new writer.old writer.new) result }
{
    match read_all(alloc, reader, MAX_HISTORY) {
        Ok(text) => judge_history(alloc, tells_order, &text, writer),
        Err(error) => tell_unread(writer, error),
    }
}

/// Judges a history, writes what is shown of it, or its first fault, and says the exit status.
fn judge_history<O: ByteOut>(alloc: Global, tells_order: bool, text: &[u8], writer: &mut O) -> u8
    requires { length text.now < 2 ^ 60 }
    ensures { Ends text.now tells_order (O.written writer.old) (O.written writer.new)
        (O.failed_writes writer.old) (O.failed_writes writer.new) result }
{
    match judge_text(alloc, text, tells_order) {
        Ok(answer) => finish(writer, &answer.text, answer.status),
        Err(error) => tell(alloc, error, writer),
    }
}

/// Tells why a history was not judged.
fn tell<O: ByteOut>(alloc: Global, error: ScriptError, writer: &mut O) -> u8
    ensures { Told error result (O.written writer.old) (O.written writer.new)
        (O.failed_writes writer.old) (O.failed_writes writer.new) }
{
    match error {
        ScriptError::Faulty(fault) => finish_line(writer, fault_text(alloc, fault), FAULTY),
        ScriptError::Memory => lack_memory(writer),
    }
}
