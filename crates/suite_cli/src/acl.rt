//! The command `acl`: the text of lists, printed anew.

ghost use Rattle.std.specs.Prelude.{◌≡◌, ◌-◌, ◌==◌, map, not, length, option_map};
ghost use Rattle.std.specs.List.{suffix_len};
ghost use Rattle.suite_cli.specs.Names.{given_in, name_in, names_from};
ghost use Rattle.suite_cli.specs.Outputs.{acl_output};
ghost use Rattle.suite_cli.specs.Runs.{GivesList, GivesName, GivesNames, is_added};
ghost use Rattle.suite_script.specs.Scripts.{no_names};

use crate::command_error::CommandError;
use acl_text::{NameError, Names, append_acl, read_acl};
use script_text::read_number;
use std::alloc::{AllocError, Global};

/// The names that some words give, each a word such as `user:lisa=1001`.
pub(crate) fn read_names(alloc: Global, words: &[&str]) -> Result<Names, CommandError>
    ensures { GivesNames result (names_from 1 no_names (map (λ word. word.now) words.now)) }
{
    let mut names = Names::keyed_by_words(alloc, words);
    let mut place = 1;
    for word in words {
        if !add_name(&mut names, word.as_bytes())? {
            return Err(CommandError::BadWord(place));
        }
        place += 1;
    }
    Ok(names)
}

/// Adds the name of a word, and says whether it is a good one.
fn add_name(names: &mut Names, word: &[u8]) -> Result<bool, AllocError>
    ensures { GivesName result names.new (name_in names.old word.now) }
{
    if let Some(text) = word.strip_prefix(b"user:") {
        let Some((name, id)) = split_name(text) else {
            return Ok(false);
        };
        is_added(names.add_user(name, id))
    } else if let Some(text) = word.strip_prefix(b"group:") {
        let Some((name, id)) = split_name(text) else {
            return Ok(false);
        };
        is_added(names.add_group(name, id))
    } else {
        Ok(false)
    }
}

/// Whether a name was added, memory apart.
fn is_added(outcome: Result<(), NameError>) -> Result<bool, AllocError>
    ensures { result ≡ is_added outcome }
{
    match outcome {
        Ok(()) => Ok(true),
        Err(NameError::Memory) => Err(AllocError),
        Err(_) => Ok(false),
    }
}

/// A name and its number: the last `=` stands between them.
fn split_name(text: &[u8]) -> Option<(&[u8], u32)>
    ensures { option_map (λ pair. (pair.0.now, pair.1)) result ≡ given_in text.now }
{
    let start = number_start(text);
    if start == 0 {
        return None;
    }
    let id = read_number(&text[start..], u64::from(u32::MAX))?;
    Some((&text[..start - 1], id as u32))
}

/// Where the bytes after the last `=` begin, or 0 where there is none.
fn number_start(text: &[u8]) -> usize
    ensures { result ≡ length text.now - suffix_len (λ byte. not (byte == 61)) text.now }
{
    let mut start = text.len();
    while start > 0 && text[start - 1] != b'=' {
        start -= 1;
    }
    start
}

/// The long text of the lists that a text spells.
pub(crate) fn list_text(alloc: Global, names: &Names, text: &[u8]) -> Result<Vec<u8>, CommandError>
    ensures { GivesList result (acl_output names.now text.now) }
{
    let lists = read_acl(alloc, text, names)?;
    let mut written = Vec::new(alloc);
    append_acl(&mut written, &lists)?;
    Ok(written)
}
