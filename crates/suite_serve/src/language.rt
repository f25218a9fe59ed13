//! The lines of a script of jobs after its header and names.

ghost use Rattle.std.specs.Prelude.{◌≡◌};
ghost use Rattle.file_ops.specs.Steps.{ok_map};
ghost use Rattle.suite_script.specs.Readings.{Gives};
ghost use Rattle.suite_serve.specs.Commands.{is_header, said_by, sweep_in, together_in};
ghost use Rattle.suite_serve.specs.code.Kept.{kept_command};

use crate::command::Command;
use crate::verb::JobVerb;
use acl_text::Names;
use script_text::Words;
use std::alloc::Global;
use suite_play::{read_place, read_transaction};
use suite_script::{Language, LineError, LineFault, at_end, next_word};
use txn_core::Job;

/// The lines of a script whose servers are numbered from 0 to this one.
#[derive(Clone, Copy)]
pub(crate) struct JobLines {
    pub(crate) last_server: u8,
}

impl Language for JobLines {
    ghost use Rattle.file_ops.specs.Steps.{ok_map};
    ghost use Rattle.suite_serve.specs.Commands.{command_in, is_command, is_known};
    ghost use Rattle.suite_serve.specs.code.Kept.{kept_command};

    type Own = Command;

    ghost is_known = { is_known };

    ghost begins = { is_command };

    ghost own = { λ lines names first words. ok_map kept_command (command_in lines.last_server names first words) };

    fn is_known(word: &[u8]) -> bool {
        is_header(word) || JobVerb::of(word).is_some()
    }

    fn begins(word: &[u8]) -> bool {
        JobVerb::of(word).is_some()
    }

    fn read(
        &self,
        alloc: Global,
        names: &Names,
        first: &[u8],
        words: Words<'_>,
    ) -> Result<Command, LineError> {
        let verb = JobVerb::of(first).ok_or(LineFault::Form)?;
        read_command(alloc, self.last_server, names, verb, words)
    }
}

/// Whether a line of a header begins with this word.
fn is_header(word: &[u8]) -> bool
    ensures { result ≡ is_header word.now }
{
    word == b"servers".as_slice()
        || word == b"votes".as_slice()
        || word == b"root".as_slice()
        || word == b"cache".as_slice()
        || word == b"old".as_slice()
}

/// What the words after a verb say, so far as it is kept.
fn read_command(
    alloc: Global,
    last_server: u8,
    names: &Names,
    verb: JobVerb,
    mut words: Words<'_>,
) -> Result<Command, LineError>
    ensures { Gives result (ok_map kept_command (said_by last_server names.now verb words.entry)) }
{
    match verb {
        JobVerb::Do => {
            let job = read_transaction(alloc, names, words)?;
            Ok(Command::Job(job))
        }
        JobVerb::Sweep => read_sweep(last_server, &mut words),
        JobVerb::Together => read_together(&mut words),
    }
}

/// A sweep of a server.
fn read_sweep(last_server: u8, words: &mut Words<'_>) -> Result<Command, LineError>
    ensures { Gives result (sweep_in last_server words.old) }
{
    let server = read_place(next_word(words)?, last_server)?;
    at_end(words)?;
    Ok(Command::Job(Job::Sweep { server }))
}

/// Nothing more.
fn read_together(words: &mut Words<'_>) -> Result<Command, LineError>
    ensures { Gives result (together_in words.old) }
{
    at_end(words)?;
    Ok(Command::Together)
}
