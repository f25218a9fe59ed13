//! Plays a script of events from standard input, as `suites play` does, and prints all that happens.
//! `./suites trace` and `draw` stand on it.
//!
//! A line with `>` is a line of the script. Below it a line with two spaces is a request, with agent, server and
//! reply, or says that nothing happens. A line with `=` and those below it tell what a server has at the end, read
//! off the servers of the world. All other lines, and the exit status, are those of `suites play`.
//!
//! With `--json` the same is told as objects of JSON, one a line (`docs/EVENTS.md`, `event_json`). It takes no
//! other word.
//!
//! **Promises.** Of `obey` it is said (`Obeys`) what is done of the words when it ends: of a script that has a
//! fault nothing is told but its first one, by its line, as `play` tells it, and of one that has none no fault is.
//!
//! **Files**: `lines`, `words`, `asked`, `told`, `standing`, `agents`, `events`, `teller`, `tracer`.
//! **Definitions** (`specs/`): `Runs`, `Traced`.
#![tactic(auto)]

ghost use Rattle.std.specs.Prelude.{◌≡◌, ◌<◌, ◌^◌, length, map};
ghost use Rattle.byte_streams.specs.Programs.{Obeys, streams_of};
ghost use Rattle.trace.specs.Traced.{Ends, Runs, TellsEnd, form_by};

mod agents;
mod asked;
mod events;
mod lines;
mod standing;
mod teller;
mod told;
mod tracer;
mod words;

use byte_streams::{
    ByteIn, ByteOut, COMMAND_LINE, DONE, FAULTY, MAX_INPUT, NO_STREAM, finish, finish_line,
    lack_memory, read_all, tell_unread,
};
use std::alloc::Global;
use suite_script::{PlayError, fault_text};
use teller::Form;
use tracer::trace;

/// Does what the words behind the command ask for, and says the exit status.
pub fn obey<I: ByteIn, O: ByteOut>(
    alloc: Global,
    words: &[&str],
    reader: &mut I,
    writer: &mut O,
) -> u8
    ensures { Obeys (λ _ streams. Runs streams) (form_by (map (λ word. word.now) words.now))
        (streams_of I.rest I.failed_reads O.written O.failed_writes reader.old reader.new writer.old writer.new) result }
{
    match form_by(words) {
        Some(form) => run(alloc, form, reader, writer),
        None => finish(writer, b"fault command line\n", COMMAND_LINE),
    }
}

/// The form that words ask for, if they ask for one.
fn form_by(words: &[&str]) -> Option<Form>
    ensures { result ≡ form_by (map (λ word. word.now) words.now) }
{
    match words {
        [] => Some(Form::Lines),
        [word] if *word == "--json" => Some(Form::Events),
        _ => None,
    }
}

/// Traces the script that a reader gives, and answers the exit status.
fn run<I: ByteIn, O: ByteOut>(alloc: Global, form: Form, reader: &mut I, writer: &mut O) -> u8
    ensures { Runs (streams_of I.rest I.failed_reads O.written O.failed_writes reader.old reader.new writer.old writer.new) result }
{
    match read_all(alloc, reader, MAX_INPUT) {
        Ok(script) => trace_text(alloc, form, &script, writer),
        Err(error) => tell_unread(writer, error),
    }
}

/// Traces a script, tells what came of it, and answers the exit status.
#[tactic(auto, using(crate::proofs::Reading::ended))]
fn trace_text<O: ByteOut>(alloc: Global, form: Form, script: &[u8], writer: &mut O) -> u8
    requires { length script.now < 2 ^ 60 }
    ensures { Ends script.now (O.written writer.old) (O.written writer.new)
        (O.failed_writes writer.old) (O.failed_writes writer.new) result }
{
    let came = trace(alloc, script, form, writer);
    tell_end(alloc, came, writer)
}

/// Tells what came of a script: its first fault, if it has one, or that memory ran out.
fn tell_end<O: ByteOut>(alloc: Global, came: Result<(), PlayError>, writer: &mut O) -> u8
    ensures { TellsEnd came result (O.written writer.old) (O.written writer.new)
        (O.failed_writes writer.old) (O.failed_writes writer.new) }
{
    match came {
        Ok(()) => DONE,
        Err(PlayError::Faulty(fault)) => finish_line(writer, fault_text(alloc, fault), FAULTY),
        Err(PlayError::WriteFailed) => NO_STREAM,
        Err(PlayError::Memory) => lack_memory(writer),
    }
}
