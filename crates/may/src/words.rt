//! What is wanted, and of which list.

ghost use Rattle.std.specs.Prelude.{◌≡◌};
ghost use Rattle.std.specs.List.{list_all};
ghost use Rattle.suite_script.specs.Readings.{Gives};
ghost use Rattle.may.specs.Words.{is_letter, list_in, stands_in, wanted_in};

use acl_core::{Acl, Entry, Perms, Tag};
use acl_text::{Names, read_acl};
use std::alloc::Global;
use suite_script::{LineError, LineFault};

fn is_letter(byte: u8) -> bool
    ensures { result ≡ is_letter byte }
{
    matches!(byte, b'r' | b'w' | b'x' | b'-')
}

fn are_letters(word: &[u8]) -> bool
    ensures { result ≡ list_all is_letter word.now }
{
    word.iter().all(|byte| is_letter(*byte))
}

fn stands_in(byte: u8, word: &[u8]) -> bool
    ensures { result ≡ stands_in byte word.now }
{
    word.iter().any(|one| *one == byte)
}

/// What is wanted, as an entry grants it.
pub(crate) fn read_wanted(word: &[u8]) -> Result<Perms, LineFault>
    ensures { result ≡ wanted_in word.now }
{
    if !are_letters(word) {
        return Err(LineFault::Form);
    }
    let reads = stands_in(b'r', word);
    let writes = stands_in(b'w', word);
    let executes = stands_in(b'x', word);
    Ok(Entry::new(Tag::Other, reads, writes, executes).perms)
}

/// The access list that a word spells.
pub(crate) fn read_list(alloc: Global, word: &[u8]) -> Result<Acl, LineError>
    ensures { Gives result (list_in word.now) }
{
    let lists = read_acl(alloc, word, &Names::new(alloc))?;
    Ok(lists.access)
}
