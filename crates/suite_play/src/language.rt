//! The lines of a script of events after its header and names.

ghost use Rattle.std.specs.Prelude.{◌≡◌};
ghost use Rattle.file_ops.specs.Steps.{found_or, ok_map};
ghost use Rattle.script_text.specs.Numbers.{number_up_to};
ghost use Rattle.suite_play.specs.Commands.{audit_in, begin_in, crash_in, forget_in, return_in, run_in, said_by, server_in, step_in, sweep_in, transaction_in};
ghost use Rattle.suite_play.specs.Headers.{is_header};
ghost use Rattle.suite_play.specs.code.Kept.{kept_command, kept_job};
ghost use Rattle.suite_script.specs.Forms.{max_steps};
ghost use Rattle.suite_script.specs.Readings.{Gives};

use crate::command::Command;
use crate::places::Places;
use crate::verb::EventVerb;
use acl_text::Names;
use run_core::Event;
use script_text::{Words, read_number};
use std::alloc::Global;
use suite_script::{
    LAST_SITE, Language, LineError, LineFault, MAX_STEPS, at_end, next_word, read_caller, read_id,
    read_operations,
};
use txn_core::{Job, Ops, SharedCaller};
use weak_cache::MAX_SITES;

/// A site is one that an agent keeps something for.
const _: () = prove!(LAST_SITE + 1 == MAX_SITES);

impl Language for Places {
    ghost use Rattle.suite_play.specs.Commands.{command_in, is_command};
    ghost use Rattle.file_ops.specs.Steps.{ok_map};
    ghost use Rattle.suite_play.specs.Headers.{is_known};
    ghost use Rattle.suite_play.specs.code.Kept.{kept_command};

    type Own = Command;

    ghost is_known = { is_known };

    ghost begins = { is_command };

    ghost own = { λ places names first words. ok_map kept_command (command_in places names first words) };

    fn is_known(word: &[u8]) -> bool {
        is_header(word) || EventVerb::of(word).is_some()
    }

    fn begins(word: &[u8]) -> bool {
        EventVerb::of(word).is_some()
    }

    fn read(
        &self,
        alloc: Global,
        names: &Names,
        first: &[u8],
        words: Words<'_>,
    ) -> Result<Command, LineError> {
        let verb = EventVerb::of(first).ok_or(LineFault::Form)?;
        read_command(alloc, *self, names, verb, words)
    }
}

/// Whether a line of a header begins with this word.
fn is_header(word: &[u8]) -> bool
    ensures { result ≡ is_header word.now }
{
    word == b"servers".as_slice()
        || word == b"agents".as_slice()
        || word == b"votes".as_slice()
        || word == b"root".as_slice()
        || word == b"cache".as_slice()
        || word == b"old".as_slice()
}

/// What the words after a verb say, so far as it is kept.
fn read_command(
    alloc: Global,
    places: Places,
    names: &Names,
    verb: EventVerb,
    mut words: Words<'_>,
) -> Result<Command, LineError>
    ensures { Gives result (ok_map kept_command (said_by places names.now verb words.entry)) }
{
    match verb {
        EventVerb::Begin => read_begin(alloc, places, names, words),
        EventVerb::Sweep => read_sweep(places, &mut words),
        EventVerb::Step => read_step(places, &mut words),
        EventVerb::Run => read_run(places, &mut words),
        EventVerb::Crash => {
            let server = read_server(places, &mut words)?;
            Ok(Command::Event(Event::Crash { server }))
        }
        EventVerb::Return => {
            let server = read_server(places, &mut words)?;
            Ok(Command::Event(Event::Return { server }))
        }
        EventVerb::Forget => read_forget(places, &mut words),
        EventVerb::Audit => {
            let server = read_server(places, &mut words)?;
            Ok(Command::Audit { server })
        }
    }
}

/// The number of one of those that are numbered from 0 to a last one.
pub fn read_place(word: &[u8], last: u8) -> Result<u8, LineFault>
    ensures { result ≡ found_or (number_up_to last word.now) LineFault.Form }
{
    let number = read_number(word, u64::from(last)).ok_or(LineFault::Form)?;
    Ok(number as u8)
}

/// A transaction, for a caller, at a site, so far as it is kept: of its operations one more than there may be, which make
/// the same transaction as all.
pub fn read_transaction(
    alloc: Global,
    names: &Names,
    mut words: Words<'_>,
) -> Result<Job, LineError>
    ensures { Gives result (ok_map kept_job (transaction_in names.now words.entry)) }
{
    let uid = read_id(next_word(&mut words)?)?;
    let caller = read_caller(uid, next_word(&mut words)?)?;
    let site = read_place(next_word(&mut words)?, LAST_SITE)?;
    let caller = SharedCaller::new(alloc, caller)?;
    let ops = Ops::from_vec(read_operations(alloc, names, words)?)?;
    Ok(Job::Transaction { caller, site, ops })
}

/// A transaction that an agent begins, so far as it is kept.
fn read_begin(
    alloc: Global,
    places: Places,
    names: &Names,
    mut words: Words<'_>,
) -> Result<Command, LineError>
    ensures { Gives result (ok_map kept_command (begin_in places names.now words.entry)) }
{
    let agent = read_place(next_word(&mut words)?, places.last_agent)?;
    let job = read_transaction(alloc, names, words)?;
    Ok(Command::Event(Event::Begin { agent, job }))
}

/// A sweep of a server that an agent begins.
fn read_sweep(places: Places, words: &mut Words<'_>) -> Result<Command, LineError>
    ensures { Gives result (sweep_in places words.old) }
{
    let agent = read_place(next_word(words)?, places.last_agent)?;
    let server = read_place(next_word(words)?, places.last_server)?;
    at_end(words)?;
    let job = Job::Sweep { server };
    Ok(Command::Event(Event::Begin { agent, job }))
}

/// Steps of an agent: one, where no number is left.
fn read_step(places: Places, words: &mut Words<'_>) -> Result<Command, LineError>
    ensures { Gives result (step_in places words.old) }
{
    let agent = read_place(next_word(words)?, places.last_agent)?;
    let Some(word) = words.next() else {
        return Ok(Command::Steps { agent, count: 1 });
    };
    let count = read_steps(word)?;
    at_end(words)?;
    Ok(Command::Steps { agent, count })
}

fn read_steps(word: &[u8]) -> Result<u64, LineFault>
    ensures { result ≡ found_or (number_up_to max_steps word.now) LineFault.Form }
{
    read_number(word, MAX_STEPS).ok_or(LineFault::Form)
}

/// Steps of an agent until it has no job.
fn read_run(places: Places, words: &mut Words<'_>) -> Result<Command, LineError>
    ensures { Gives result (run_in places words.old) }
{
    let agent = read_place(next_word(words)?, places.last_agent)?;
    at_end(words)?;
    Ok(Command::Run { agent })
}

/// The number of a server, which is all that is left.
fn read_server(places: Places, words: &mut Words<'_>) -> Result<u8, LineFault>
    ensures { result ≡ server_in places words.old }
{
    let server = read_place(next_word(words)?, places.last_server)?;
    at_end(words)?;
    Ok(server)
}

/// An agent and one of its sites.
fn read_forget(places: Places, words: &mut Words<'_>) -> Result<Command, LineError>
    ensures { Gives result (forget_in places words.old) }
{
    let agent = read_place(next_word(words)?, places.last_agent)?;
    let site = read_place(next_word(words)?, LAST_SITE)?;
    at_end(words)?;
    Ok(Command::Event(Event::Forget { agent, site }))
}
