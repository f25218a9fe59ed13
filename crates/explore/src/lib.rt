//! Tells all that can happen: from a script of events with one line `together`, every way in which the jobs below it
//! may end. `./suites explore` stands on it.
//!
//! What stands above `together` is played as `suites play` does. Below it stand `begin` and `sweep` alone, where
//! `after A.C` or `after A.C answered` may stand before them: such a job is begun only once job C of agent A has ended, or
//! was answered. Each way is printed once, the shortest script first: `way K in E of F ends`, and a line a job. Ways that
//! are printed alike are one, with the script of the first. The last line counts worlds found: `all W ways, N worlds`, or
//! `not all: W ways, N worlds` with exit status 7, where memory ran out or `--worlds` of them were looked at. With
//! `--sample N` so many orders are played that are drawn, by `--seed S`; the last line is `sampled N orders: W ways`, with
//! exit status 7, and above a way stands `way K` alone. With `--way K` the script that leads to way K is printed instead,
//! for `play`.
//! With `--order` each way has a line `decided` and the jobs that were decided, in the order in which they were.
//! With `--progress` it writes to standard error, while it is at work, how many worlds it has looked at: `N worlds`, a
//! line each time. Without it nothing goes there. A line that cannot be written is left out.
//!
//! The exit status is else 0, or 2 for other words, 3 for a fault, 4 out of memory. It is 6 where a stream failed or
//! the input is above 16 MiB.
//!
//! **Promises.** What the words ask for (`specs/Words.antt`) is done (`Obeys`): what is printed is the text of ways that
//! the search tells (`specs/Shown.antt`); `Runs` says what the program has done when it ends: of its input and its
//! output. Of what `--progress` tells nothing is promised, nor how many worlds were looked at.
//!
//! **Files**: `words`, `progress`, `awaited`, `line`, `stray`, `halves`, `setting`, `waiting`, `way`, `order`, `ways`,
//! `retold`, `explored`. **Definitions** (`specs/`): `Words`, `Awaiting`, `Lines`, `Halves`, `Tasks`, `Waits`, `Ways`,
//! `Asked`, `Retold`, `Shown`, `Runs`.
#![tactic(auto)]

ghost use Rattle.std.specs.Prelude.{◌<◌, ◌^◌, length, map};
ghost use Rattle.byte_streams.specs.Programs.{Obeys, streams_of};
ghost use Rattle.explore.specs.Runs.{Ends, Runs, Told};
ghost use Rattle.explore.specs.Words.{wanted_by};

mod awaited;
mod explored;
mod halves;
mod line;
mod order;
mod progress;
mod retold;
mod setting;
mod stray;
mod waiting;
mod way;
mod ways;
mod words;

use byte_streams::{
    ByteIn, ByteOut, COMMAND_LINE, DONE, FAULTY, MAX_INPUT, finish, finish_line, lack_memory,
    read_all, tell_unread,
};
use explored::show_script;
use progress::Progress;
use run_explore::Watch;
use std::alloc::Global;
use suite_script::{ScriptError, fault_text};
use words::{Wish, read_words};

/// Does what the words behind the command ask for, and says the exit status. Meanwhile it tells on a stream of its own
/// how far it is, where that is asked for.
pub fn obey<I: ByteIn, O: ByteOut, E: ByteOut + Drop>(
    alloc: Global,
    words: &[&str],
    reader: &mut I,
    writer: &mut O,
    errors: E,
) -> u8
    ensures { Obeys (λ wanted. Runs wanted.wish) (wanted_by (map (λ word. word.now) words.now))
        (streams_of I.rest I.failed_reads O.written O.failed_writes reader.old reader.new writer.old writer.new) result }
{
    match read_words(words) {
        Some(wanted) => {
            let mut progress = Progress::new(alloc, errors, wanted.tells_progress);
            run(alloc, wanted.wish, reader, writer, &mut progress)
        }
        None => finish(writer, b"fault command line\n", COMMAND_LINE),
    }
}

/// Explores the script that a reader gives, and says the exit status. Meanwhile it tells a watch how far it is.
fn run<I: ByteIn, O: ByteOut, W: Watch>(
    alloc: Global,
    wish: Wish,
    reader: &mut I,
    writer: &mut O,
    watch: &mut W,
) -> u8
    ensures { Runs wish (streams_of I.rest I.failed_reads O.written O.failed_writes reader.old reader.new writer.old writer.new) result }
{
    match read_all(alloc, reader, MAX_INPUT) {
        Ok(script) => explore_script(alloc, wish, &script, writer, watch),
        Err(error) => tell_unread(writer, error),
    }
}

/// Explores a script, writes what is shown of it, or its first fault, and says the exit status.
fn explore_script<O: ByteOut, W: Watch>(
    alloc: Global,
    wish: Wish,
    script: &[u8],
    writer: &mut O,
    watch: &mut W,
) -> u8
    requires { length script.now < 2 ^ 60 }
    ensures { Ends script.now wish (O.written writer.old) (O.written writer.new)
        (O.failed_writes writer.old) (O.failed_writes writer.new) result }
{
    match show_script(alloc, script, wish, watch) {
        Ok(answer) => finish(writer, &answer.text, answer.status),
        Err(error) => tell(alloc, error, writer),
    }
}

/// Tells why a script was not explored.
fn tell<O: ByteOut>(alloc: Global, error: ScriptError, writer: &mut O) -> u8
    ensures { Told error result (O.written writer.old) (O.written writer.new)
        (O.failed_writes writer.old) (O.failed_writes writer.new) }
{
    match error {
        ScriptError::Faulty(fault) => finish_line(writer, fault_text(alloc, fault), FAULTY),
        ScriptError::Memory => lack_memory(writer),
    }
}
