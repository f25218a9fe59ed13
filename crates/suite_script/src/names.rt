//! Lines that name users and groups, and lines out of their place.

ghost use Rattle.std.specs.Prelude.{◌≡◌, false, Some, Err, IfErr, MatchResult, OnErr};
ghost use Rattle.file_ops.specs.Steps.{ok_map};
ghost use Rattle.suite_script.specs.Scripts.{is_group, is_user, misplaced, name_line, named_in, refused};
ghost use Rattle.suite_script.specs.Progress.{GivesGroups, GivesNames, GivesUsers, IsEntry};

use crate::fault::{LineError, LineFault};
use crate::language::Language;
use crate::word::{at_end, next_word, read_id};
use acl_text::{NameError, Names};
use script_text::Words;

/// Whether a line names a user.
fn is_user(word: &[u8]) -> bool
    ensures { result ≡ is_user word.now }
{
    word == b"user".as_slice()
}

/// Whether a line names a group.
fn is_group(word: &[u8]) -> bool
    ensures { result ≡ is_group word.now }
{
    word == b"group".as_slice()
}

/// What is wrong with a line that begins so and stands out of its place.
pub fn misplaced<L: Language>(first: &[u8]) -> LineFault
    ensures { result ≡ misplaced L.is_known first.now }
{
    if is_user(first) || is_group(first) || L::is_known(first) {
        LineFault::Order
    } else {
        LineFault::Form
    }
}

/// Reads a line that is not the command's own, where one of these came already or not: it has to name a user
/// or a group, who is then known. Else no name is.
pub fn read_name<L: Language>(
    begun: bool,
    names: &mut Names,
    first: &[u8],
    words: &mut Words<'_>,
) -> Result<(), LineError>
    ensures named { GivesNames result names.new (name_line L.is_known begun names.old first.now words.old) }
    ensures kept { OnErr result (names.new ≡ names.old) }
{
    if begun {
        Err(LineError::Faulty(misplaced::<L>(first)))
    } else if is_user(first) {
        read_user(names, words)
    } else if is_group(first) {
        read_group(names, words)
    } else {
        Err(LineError::Faulty(misplaced::<L>(first)))
    }
}

/// What `read_name` would say of a line where none of the command's own came: nothing changes.
pub fn judge_name<L: Language>(
    names: &Names,
    first: &[u8],
    words: &mut Words<'_>,
) -> Result<(), LineFault>
    ensures judged { result ≡ ok_map (λ _. tt) (name_line L.is_known false names.now first.now words.old) }
    ensures fault { IfErr result (λ fault. name_line L.is_known false names.now first.now words.old ≡ Err fault) }
{
    if is_user(first) {
        user_in(names, words)?;
        Ok(())
    } else if is_group(first) {
        group_in(names, words)?;
        Ok(())
    } else {
        Err(misplaced::<L>(first))
    }
}

/// What follows the word `user`.
fn read_user(names: &mut Names, words: &mut Words<'_>) -> Result<(), LineError>
    ensures named { GivesUsers result names.old names.new (named_in names.old.users words.old) }
    ensures kept { OnErr result (names.new ≡ names.old) }
{
    let (name, id) = user_in(names, words)?;
    names.add_user(name, id)?;
    Ok(())
}

/// What follows the word `group`.
fn read_group(names: &mut Names, words: &mut Words<'_>) -> Result<(), LineError>
    ensures named { GivesGroups result names.old names.new (named_in names.old.groups words.old) }
    ensures kept { OnErr result (names.new ≡ names.old) }
{
    let (name, id) = group_in(names, words)?;
    names.add_group(name, id)?;
    Ok(())
}

/// A user's name, which is none so far, and the number that it gets.
fn user_in<'a>(names: &Names, words: &mut Words<'a>) -> Result<(&'a [u8], u32), LineFault>
    ensures { MatchResult result (λ entry. IsEntry names.now.users entry.0.now entry.1 (named_in names.now.users words.old))
        (λ fault. named_in names.now.users words.old ≡ Err fault) }
{
    let name = next_word(words)?;
    if let Some(error) = names.user_fault(name) {
        return Err(refusal_of(error));
    }
    let id = read_id(next_word(words)?)?;
    at_end(words)?;
    Ok((name, id))
}

/// A group's name, which is none so far, and the number that it gets.
fn group_in<'a>(names: &Names, words: &mut Words<'a>) -> Result<(&'a [u8], u32), LineFault>
    ensures { MatchResult result (λ entry. IsEntry names.now.groups entry.0.now entry.1 (named_in names.now.groups words.old))
        (λ fault. named_in names.now.groups words.old ≡ Err fault) }
{
    let name = next_word(words)?;
    if let Some(error) = names.group_fault(name) {
        return Err(refusal_of(error));
    }
    let id = read_id(next_word(words)?)?;
    at_end(words)?;
    Ok((name, id))
}

/// Why a line is faulty whose name is not taken.
fn refusal_of(error: NameError) -> LineFault
    ensures { refused (Some error) ≡ Err result }
{
    match error {
        NameError::BadName => LineFault::BadName,
        NameError::NameTwice => LineFault::NameTwice,
        NameError::Memory => LineFault::Form,
    }
}
