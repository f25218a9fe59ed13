//! Serves a script of jobs, as `./suites serve` does, and writes into a file what each job's caller saw, as a history for
//! `./suites judge`. `./suites serve --agents N --log FILE` stands on it.
//!
//! It reads a script from standard input, and prints what `serve` prints. The file is made or emptied first. Two lines
//! of each job are written into it: one where the job was called, and one where it was told. They stand in the order of
//! numbers that one counter gave: when an agent began the job, and each time that a server had served it.
//!
//! The exit status is 0, or 2 for other words, 3 for a fault of the script, 4 out of memory, 5 where what was done is no
//! run, 6 where a stream or the file failed or the input is above 16 MiB.
//!
//! **Promises.** What is printed and what is written into the file are of one run (`IsLogged`): what the file has of a
//! job is what it asked for and how it ended there, and it was called at a lower number than it was told at. Where that
//! were not so, `mismatch` would be printed, and nothing written. Nothing is known to contracts of what a file holds,
//! and no clause says that a number is lower because it was drawn earlier.
//!
//! **Files**: `words`, `clock` (who draws numbers), `logged`, `refusal`. **Definitions** (`specs/`): `Logs`.
#![tactic(auto)]

ghost use Rattle.std.specs.Prelude.{◌≤◌};

mod clock;
mod logged;
mod refusal;
mod words;

use byte_streams::{
    ByteIn, ByteOut, COMMAND_LINE, MAX_INPUT, SystemOut, finish, read_all, write_all,
};
use logged::{Logged, serve_logged};
use refusal::{Refusal, tell_refusal};
use std::alloc::Global;
use std::fs::{File, OpenOptions};
use std::rt::Files;
use std::sync::Wait;
use std::thread::Threads;
use suite_cli::report;
use suite_prefix::MAX_AGENTS;
use suite_serve::read_script;
use words::{Wish, is_log, read_words};

/// Does what words ask for, and says the exit status: all but `serve` with a history as `suite_cli::run`.
pub fn run<R: Threads + Wait + Sync + Files<File = File>, I: ByteIn, O: ByteOut>(
    rt: &R,
    alloc: Global,
    words: &[&str],
    reader: &mut I,
    writer: &mut O,
) -> u8 {
    match words {
        [command, behind @ ..] if *command == "serve" && behind.iter().any(|word| is_log(word)) => {
            obey(rt, alloc, behind, reader, writer)
        }
        _ => suite_cli::run(rt, alloc, words, reader, writer),
    }
}

/// Does what the words behind `serve` ask for, and says the exit status.
fn obey<R: Threads + Wait + Sync + Files<File = File>, I: ByteIn, O: ByteOut>(
    rt: &R,
    alloc: Global,
    words: &[&str],
    reader: &mut I,
    writer: &mut O,
) -> u8 {
    let Some(wish) = read_words(words) else {
        return finish(writer, b"fault command line\n", COMMAND_LINE);
    };
    match serve(rt, alloc, wish, reader, writer) {
        Ok(status) => status,
        Err(refusal) => tell_refusal(alloc, writer, refusal),
    }
}

/// Serves the script that a reader gives, writes the history into its file, and says the exit status.
fn serve<R: Threads + Wait + Sync + Files<File = File>, I: ByteIn, O: ByteOut>(
    rt: &R,
    alloc: Global,
    wish: Wish<'_>,
    reader: &mut I,
    writer: &mut O,
) -> Result<u8, Refusal>
    requires agents { (1 ≤ wish.agents) × (wish.agents ≤ MAX_AGENTS) }
{
    let text = read_all(alloc, reader, MAX_INPUT)?;
    let script = read_script(alloc, &text, usize::from(wish.agents))?;
    drop(text);
    let file = OpenOptions::new()
        .write(true)
        .create(true)
        .truncate(true)
        .open(rt, wish.log)?;
    match serve_logged(rt, alloc, script) {
        Ok(logged) => tell(alloc, &logged, &mut SystemOut::new(file), writer),
        Err(fault) => Ok(report(alloc, Err(fault), writer)),
    }
}

/// Writes the history, and then what `serve` prints; says the exit status.
fn tell<L: ByteOut, O: ByteOut>(
    alloc: Global,
    logged: &Logged,
    log: &mut L,
    writer: &mut O,
) -> Result<u8, Refusal> {
    write_all(log, &logged.history)?;
    logged.served.write_outcomes(alloc, writer)?;
    Ok(report(alloc, Ok(logged.served.steps()), writer))
}
