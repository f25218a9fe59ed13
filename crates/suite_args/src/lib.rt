//! The command line of the program `suites`: what its words ask for.
//!
//! **Promises.** `read_words` reads the words after the program's name. Its contract has the whole command line as
//! a function of those words (`asked_by`) and the answers that each may get (`Answers`). The kit's `clap` reads the
//! words and writes the help. Memory may run out on any words.
//!
//! **The caller owes** nothing.
//!
//! **Files**: `script`, `request` (what can be asked, and errors), `commands` (the commands as `clap` is told
//! them), `answer` (from what it found to a request). **Definitions** (`specs/`): `CommandLine`, `Answering`,
//! `Texts` (what errors print).
#![tactic(auto)]

ghost use Rattle.std.specs.Prelude.{map};
ghost use Rattle.suite_args.specs.CommandLine.{asked_by};
ghost use Rattle.suite_args.specs.Answering.{Answers};

mod answer;
mod commands;
mod request;
mod script;

pub use answer::MAX_AGENTS;
pub use request::{ArgsError, HelpText, Invocation, NameWords};
pub use script::Script;
use std::alloc::Global;

/// Reads the words after the program's name: `table`, `play`, `serve --agents N`, `acl [NAME]...`, or a call for help. A word
/// that begins with a hyphen and has more is an option, until `--`, and no option is known but help and that of
/// `serve`, whose number may also stand behind `=` in the same word.
#[inline(never)]
pub fn read_words<'a>(alloc: Global, words: &'a [&'a str]) -> Result<Invocation<'a>, ArgsError>
    ensures { Answers (asked_by (map (λ w. w.now) words.entry.now)) result }
{
    let commands = commands::commands(alloc)?;
    match commands.try_get_matches_from(words) {
        Ok(matches) => answer::request_of(alloc, &matches),
        Err(error) => answer::answer_to(alloc, &error),
    }
}
