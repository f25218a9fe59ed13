//! The command line: what is asked for.

ghost use Rattle.std.specs.Prelude.{◌≤◌, IfSome};
ghost use Rattle.serve_log.specs.Logs.{IsServable};

use script_text::read_number;
use suite_prefix::MAX_AGENTS;

/// How many agents there are, 1 to 64, and the file of the history.
#[derive(Clone, Copy)]
pub(crate) struct Wish<'a> {
    pub(crate) agents: u8,
    pub(crate) log: &'a str,
}

/// What the words of the command line ask for, if they ask for a history: both options, each with its value, in any
/// order.
pub(crate) fn read_words<'a>(words: &[&'a str]) -> Option<Wish<'a>>
    ensures { IfSome result IsServable }
{
    let (agents, log, rest) = match option("--agents", words) {
        Some((agents, rest)) => {
            let (log, rest) = option("--log", rest)?;
            (agents, log, rest)
        }
        None => {
            let (log, rest) = option("--log", words)?;
            let (agents, rest) = option("--agents", rest)?;
            (agents, log, rest)
        }
    };
    if rest.is_empty() {
        wanted(agents, log)
    } else {
        None
    }
}

/// The value of an option with which words begin, as `--log FILE` or `--log=FILE`, and the words behind it.
fn option<'a, 'w>(name: &str, words: &'w [&'a str]) -> Option<(&'a str, &'w [&'a str])> {
    let (word, rest) = words.split_first()?;
    let behind = word.strip_prefix(name)?;
    if behind.is_empty() {
        let (value, rest) = rest.split_first()?;
        Some((*value, rest))
    } else {
        Some((behind.strip_prefix("=")?, rest))
    }
}

/// Whether a word is the option of the history's file.
pub(crate) fn is_log(word: &str) -> bool {
    word == "--log" || word.starts_with("--log=")
}

/// What is asked for by a number of agents and a file.
fn wanted<'a>(agents: &str, log: &'a str) -> Option<Wish<'a>>
    ensures { IfSome result IsServable }
{
    match read_number(agents.as_bytes(), MAX_AGENTS as u64) {
        Some(agents) if agents > 0 => Some(Wish {
            agents: agents as u8,
            log,
        }),
        _ => None,
    }
}
