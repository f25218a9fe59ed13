//! What `clap` answered, as a request.

ghost use Rattle.std.specs.Prelude.{[], codes, unwrap_or};
ghost use Rattle.clap.specs.Words.{all_of, first_of, found_of, kind_of, rows_of, subcommand_rows_of};
ghost use Rattle.suite_args.specs.Answering.{Answers, AnswersServe, AnswersTo, asked_in};
ghost use Rattle.suite_args.specs.CommandLine.{acl, agents_of};

use crate::commands::{ACL, AGENTS, NAME, PLAY, SERVE, TABLE};
use crate::request::{ArgsError, HelpText, Invocation, NameWords};
use crate::script::Script;
use clap::error::ErrorKind;
use clap::{ArgMatches, Error};
use script_text::read_number;
use std::alloc::Global;

/// The command `acl`, with the names among its arguments.
fn names_in<'a>(alloc: Global, arguments: &ArgMatches<'a>) -> Result<Invocation<'a>, ArgsError>
    ensures { Answers (acl (unwrap_or (all_of (codes "NAME") (rows_of (found_of arguments.now))) [])) result }
{
    let words = arguments.get_raw(NAME).unwrap_or(&[]);
    Ok(Invocation::Acl(NameWords::new(alloc, words)?))
}

/// The most agents.
pub const MAX_AGENTS: u64 = 64;

/// The number of agents among the arguments of `serve`.
fn agents_in<'a>(arguments: &ArgMatches<'a>) -> Result<Invocation<'a>, ArgsError>
    ensures { AnswersServe (agents_of (unwrap_or (first_of (codes "agents") (rows_of (found_of arguments.now))) [])) result }
{
    let text = arguments.get_str(AGENTS).unwrap_or("");
    match read_number(text.as_bytes(), MAX_AGENTS) {
        Some(agents) if agents > 0 => Ok(Invocation::Serve(agents as u8)),
        _ => Err(ArgsError::CommandLine),
    }
}

/// The request that a parse found.
pub(crate) fn request_of<'a>(
    alloc: Global,
    matches: &ArgMatches<'a>,
) -> Result<Invocation<'a>, ArgsError>
    ensures { Answers (asked_in (subcommand_rows_of matches.now)) result }
{
    let Some((command, arguments)) = matches.subcommand() else {
        return Err(ArgsError::CommandLine);
    };
    if command == ACL {
        return names_in(alloc, arguments);
    }
    if command == TABLE {
        return Ok(Invocation::Plays(Script::Table));
    }
    if command == PLAY {
        return Ok(Invocation::Plays(Script::Play));
    }
    if command == SERVE {
        return agents_in(arguments);
    }
    Err(ArgsError::CommandLine)
}

/// The answer to words in which a parse found no request.
pub(crate) fn answer_to<'a>(alloc: Global, error: &Error) -> Result<Invocation<'a>, ArgsError>
    ensures { AnswersTo (kind_of error.now) result }
{
    match error.kind() {
        ErrorKind::DisplayHelp => Ok(Invocation::Help(HelpText::new(error.to_string(alloc)?))),
        ErrorKind::OutOfMemory => Err(ArgsError::Memory),
        _ => Err(ArgsError::CommandLine),
    }
}
