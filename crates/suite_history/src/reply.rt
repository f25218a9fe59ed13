//! Replies that were told, as words.

ghost use Rattle.std.specs.Prelude.{◌≡◌};
ghost use Rattle.std.specs.List.{list_any};
ghost use Rattle.acl_text.specs.Layout.{is_white};
ghost use Rattle.file_ops.specs.Steps.{found_or};
ghost use Rattle.suite_history.specs.code.Readings.{IsNameOf, PutsName};
ghost use Rattle.suite_history.specs.Told.{acl_in, alone, folder_in, folder_of, list_in, made_in, read_in, reply_in, reply_of, votes_in};
ghost use Rattle.suite_script.specs.Lists.{lists_in};
ghost use Rattle.suite_script.specs.Operations.{bytes_in};
ghost use Rattle.suite_script.specs.Readings.{Gives};
ghost use Rattle.suite_script.specs.Scripts.{no_names};

use acl_core::Lists;
use acl_text::{Names, read_acl};
use file_ops::Answer;
use hex::FromHexError;
use script_text::{WordParts, Words};
use std::alloc::Global;
use suite_content::{FileBytes, FolderNames, Name, NameList, is_name};
use suite_script::{LineError, LineFault, at_end, next_word, read_votes};
use vote_core::MAX_SERVERS;

/// A reply.
pub(crate) fn read_reply(alloc: Global, mut words: Words<'_>) -> Result<Answer, LineError>
    ensures { Gives result (reply_in words.entry) }
{
    let verb = next_word(&mut words)?;
    reply_of(alloc, verb, &mut words)
}

/// What follows the word that a reply begins with.
pub(crate) fn reply_of(
    alloc: Global,
    verb: &[u8],
    words: &mut Words<'_>,
) -> Result<Answer, LineError>
    ensures { Gives result (reply_of verb.now words.old) }
{
    if verb == b"read".as_slice() {
        read_read(alloc, words)
    } else if verb == b"wrote".as_slice() {
        alone(Answer::Wrote, words)
    } else if verb == b"list".as_slice() {
        read_list(alloc, words)
    } else if verb == b"made".as_slice() {
        read_made(words)
    } else if verb == b"dropped".as_slice() {
        alone(Answer::Dropped, words)
    } else if verb == b"acl".as_slice() {
        read_lists(alloc, words)
    } else if verb == b"votes".as_slice() {
        read_told_votes(words)
    } else if verb == b"set".as_slice() {
        alone(Answer::Set, words)
    } else {
        Err(LineError::Faulty(LineFault::Form))
    }
}

/// A reply that has no more words.
fn alone(reply: Answer, words: &mut Words<'_>) -> Result<Answer, LineError>
    ensures { Gives result (alone reply words.old) }
{
    at_end(words)?;
    Ok(reply)
}

/// What was made. Its number says nothing.
fn read_made(words: &mut Words<'_>) -> Result<Answer, LineError>
    ensures { Gives result (made_in words.old) }
{
    match words.next() {
        None => Ok(Answer::Made(0)),
        Some(_) => alone(Answer::Made(0), words),
    }
}

fn read_read(alloc: Global, words: &mut Words<'_>) -> Result<Answer, LineError>
    ensures { Gives result (read_in words.old) }
{
    let bytes = read_bytes(alloc, next_word(words)?)?;
    alone(Answer::Read(bytes), words)
}

/// Bytes in hexadecimal digits; a hyphen stands for none.
fn read_bytes(alloc: Global, word: &[u8]) -> Result<FileBytes, LineError>
    ensures { Gives result (found_or (bytes_in word.now) LineFault.Form) }
{
    if word == b"-".as_slice() {
        return Ok(FileBytes::empty());
    }
    match hex::decode(alloc, word) {
        Ok(bytes) => Ok(FileBytes::from_vec(bytes)?),
        Err(FromHexError::OutOfMemory) => Err(LineError::Memory),
        Err(_) => Err(LineError::Faulty(LineFault::Form)),
    }
}

fn read_list(alloc: Global, words: &mut Words<'_>) -> Result<Answer, LineError>
    ensures { Gives result (list_in words.old) }
{
    let folder = read_folder(alloc, next_word(words)?)?;
    alone(Answer::List(NameList::from(folder)), words)
}

/// Names with commas between them; a hyphen stands for none.
fn read_folder(alloc: Global, word: &[u8]) -> Result<FolderNames, LineError>
    ensures { Gives result (folder_in word.now) }
{
    let folder = FolderNames::new(alloc);
    if word == b"-".as_slice() {
        return Ok(folder);
    }
    with_names(folder, WordParts::new(word, b','))
}

/// A folder with more names, each of which is put at its place.
fn with_names(folder: FolderNames, mut names: WordParts<'_>) -> Result<FolderNames, LineError>
    ensures { Gives result (folder_of folder names.entry) }
{
    let mut folder = folder;
    while let Some(name) = names.next() {
        put_name(&mut folder, name)?;
    }
    Ok(folder)
}

/// Puts a name at its place, if it is one.
fn put_name(folder: &mut FolderNames, word: &[u8]) -> Result<(), LineError>
    ensures { PutsName result folder.old folder.new word.now }
{
    let name = name_of(word)?;
    folder.insert(name, 0)?;
    Ok(())
}

/// The name that a word is.
#[tactic(auto, using(file_ops::proofs::PathFacts::test_name, file_ops::proofs::PathFacts::no_name))]
fn name_of(word: &[u8]) -> Result<Name, LineFault>
    ensures { IsNameOf result word.now }
{
    if !is_name(word) {
        return Err(LineFault::Form);
    }
    Ok(Name::known(word))
}

fn read_lists(alloc: Global, words: &mut Words<'_>) -> Result<Answer, LineError>
    ensures { Gives result (acl_in words.old) }
{
    let lists = spelled_lists(alloc, next_word(words)?)?;
    alone(Answer::Acl(lists), words)
}

/// The lists that a word spells.
fn spelled_lists(alloc: Global, word: &[u8]) -> Result<Lists, LineError>
    ensures { Gives result (lists_in no_names word.now) }
{
    if has_white(word) {
        return Err(LineError::Faulty(LineFault::Form));
    }
    let names = Names::new(alloc);
    Ok(read_acl(alloc, word, &names)?)
}

fn has_white(word: &[u8]) -> bool
    ensures { result ≡ list_any is_white word.now }
{
    word.iter().any(|byte| is_white(*byte))
}

fn is_white(byte: u8) -> bool
    ensures { result ≡ is_white byte }
{
    matches!(byte, b' ' | b'\t' | b'\r')
}

fn read_told_votes(words: &mut Words<'_>) -> Result<Answer, LineError>
    ensures { Gives result (votes_in words.old) }
{
    let votes = read_votes(MAX_SERVERS, next_word(words)?)?;
    alone(Answer::Votes(votes), words)
}
