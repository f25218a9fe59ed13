//! What single words say.

ghost use Rattle.std.specs.Prelude.{◌≡◌, ◌∷◌, [], ◌&&◌, nat_le, if◌then◌else◌, Some, None, MatchResult};
ghost use Rattle.std.specs.List.{list_any};
ghost use Rattle.acl_text.specs.Layout.{is_white};
ghost use Rattle.file_ops.specs.Steps.{found_or};
ghost use Rattle.script_text.specs.Numbers.{number_up_to};
ghost use Rattle.suite_script.specs.Words.{max_id, at_end, caller_in};
ghost use Rattle.suite_script.specs.Lists.{lists_in, init_in, is_mode, mode_of};
ghost use Rattle.suite_script.specs.Operations.{bytes_in};
ghost use Rattle.suite_script.specs.Readings.{Gives};

use crate::fault::{LineError, LineFault};
use acl_core::{Caller, Lists, Mode};
use acl_text::{Names, read_acl};
use file_ops::Init;
use hex::FromHexError;
use script_text::{Words, read_number};
use std::alloc::Global;
use suite_content::FileBytes;

/// The next word of a line.
pub fn next_word<'a>(words: &mut Words<'a>) -> Result<&'a [u8], LineFault>
    ensures { MatchResult result (λ first. words.old ≡ first.now ∷ words.new)
        (λ fault. (fault ≡ LineFault.Form) × (words.old ≡ [])) }
{
    words.next().ok_or(LineFault::Form)
}

/// Nothing more on the line.
pub fn at_end(words: &mut Words<'_>) -> Result<(), LineFault>
    ensures { result ≡ at_end words.old }
{
    match words.next() {
        Some(_) => Err(LineFault::Form),
        None => Ok(()),
    }
}

/// The number of a user or a group.
pub fn read_id(word: &[u8]) -> Result<u32, LineFault>
    ensures { result ≡ found_or (number_up_to max_id word.now) LineFault.Form }
{
    let number = read_number(word, u64::from(u32::MAX)).ok_or(LineFault::Form)?;
    Ok(number as u32)
}

/// A caller of some user, with the numbers of its groups between commas, its own first.
pub fn read_caller(uid: u32, word: &[u8]) -> Result<Caller, LineFault>
    ensures { result ≡ caller_in uid word.now }
{
    acl_text::read_caller(uid, word).ok_or(LineFault::Form)
}

fn is_white(byte: u8) -> bool
    ensures { result ≡ is_white byte }
{
    matches!(byte, b' ' | b'\t' | b'\r')
}

fn has_white(word: &[u8]) -> bool
    ensures { result ≡ list_any is_white word.now }
{
    word.iter().any(|byte| is_white(*byte))
}

/// Lists as a word.
pub(crate) fn read_lists(alloc: Global, names: &Names, word: &[u8]) -> Result<Lists, LineError>
    ensures { Gives result (lists_in names.now word.now) }
{
    if has_white(word) {
        return Err(LineError::Faulty(LineFault::Form));
    }
    Ok(read_acl(alloc, word, names)?)
}

fn is_octal(byte: u8) -> bool
    ensures { result ≡ (nat_le 48 byte && nat_le byte 55) }
{
    (b'0'..=b'7').contains(&byte)
}

/// The mode of three octal digits.
fn read_mode(word: &[u8]) -> Option<Mode>
    ensures { result ≡ (if is_mode word.now then Some (mode_of word.now) else None) }
{
    match word {
        [owner, group, others] if is_octal(*owner) && is_octal(*group) && is_octal(*others) => {
            let bits = u16::from(*owner - b'0') * 64
                + u16::from(*group - b'0') * 8
                + u16::from(*others - b'0');
            Mode::new(bits)
        }
        _ => None,
    }
}

/// The lists that a new file or folder gets: those of a mode, or lists that are given.
pub(crate) fn read_init(alloc: Global, names: &Names, word: &[u8]) -> Result<Init, LineError>
    ensures { Gives result (init_in names.now word.now) }
{
    match read_mode(word) {
        Some(mode) => Ok(Init::Mode(mode)),
        None => Ok(Init::Lists(read_lists(alloc, names, word)?)),
    }
}

/// Bytes in hexadecimal digits.
pub(crate) fn read_bytes(alloc: Global, word: &[u8]) -> Result<FileBytes, LineError>
    ensures { Gives result (found_or (bytes_in word.now) LineFault.Form) }
{
    if word == b"-".as_slice() {
        return Ok(FileBytes::empty());
    }
    match hex::decode(alloc, word) {
        Ok(bytes) => Ok(FileBytes::from_vec(bytes)?),
        Err(FromHexError::OutOfMemory) => Err(LineError::Memory),
        Err(_) => Err(LineError::Faulty(LineFault::Form)),
    }
}
