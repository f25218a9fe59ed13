//! Why a word does not fit, as data: a reason, a number that is told of it, and the part of the word of which it speaks.

ghost use Rattle.std.specs.Prelude.{◌≡◌, ◌↔◌, nat_le, false, true, MatchOption, None};
ghost use Rattle.std.specs.Char.{is_ascii_digit, is_ascii_hexdigit};
ghost use Rattle.std.specs.List.{list_all};
ghost use Rattle.acl_text.specs.Grammar.{are_permissions, is_permission_byte, permission_bytes, times_in};
ghost use Rattle.acl_text.specs.Qualifiers.{is_name_byte};
ghost use Rattle.script_text.specs.Numbers.{is_number};
ghost use Rattle.forms.specs.Reasons.{Tells, TellsNumber, bytes_reason, number_reason};

use crate::mend::{push_count, push_field};
use script_text::read_number;
use std::alloc::AllocError;
use std::slice::from_ref;

/// Why a word does not fit. `Due` says nothing but that another is due: what the words show themselves, and the lines
/// above, `tools/explain/whys.py` tells.
#[derive(Clone, Copy)]
pub(crate) enum Reason {
    Due,
    NoNumber,
    Below,
    Above,
    OddDigits,
    NoDigits,
    Digit,
    NoPermission,
    Twice,
    Hyphens,
    NoNameByte,
}

/// A reason with its number, if it has one, and the part of the word of which it speaks.
#[derive(Clone, Copy)]
pub(crate) struct Reasoned<'a> {
    pub(crate) reason: Reason,
    number: Option<u64>,
    part: &'a [u8],
}

impl<'a> Reasoned<'a> {
    /// A reason without a number.
    pub(crate) fn of(reason: Reason, part: &'a [u8]) -> Reasoned<'a>
        ensures told { Tells (reason, None) result }
        ensures part { result.part.now ≡ part.now }
    {
        Reasoned::numbered(reason, None, part)
    }

    /// A reason with the number that is told of it, if one is.
    fn numbered(reason: Reason, number: Option<u64>, part: &'a [u8]) -> Reasoned<'a>
        ensures told { Tells (reason, number) result }
        ensures part { result.part.now ≡ part.now }
    {
        Reasoned {
            reason,
            number,
            part,
        }
    }

    /// Adds `REASON NUMBER PART`.
    pub(crate) fn push(self, text: &mut Vec<u8>) -> Result<(), AllocError> {
        let name: &[u8] = match self.reason {
            Reason::Due => b"due",
            Reason::NoNumber => b"no-number",
            Reason::Below => b"below",
            Reason::Above => b"above",
            Reason::OddDigits => b"odd-digits",
            Reason::NoDigits => b"no-digits",
            Reason::Digit => b"digit",
            Reason::NoPermission => b"no-permission",
            Reason::Twice => b"twice",
            Reason::Hyphens => b"hyphens",
            Reason::NoNameByte => b"no-name-byte",
        };
        push_field(text, name)?;
        push_count(text, self.number)?;
        text.extend_from_slice(self.part)
    }
}

/// Whether all bytes are digits.
fn are_digits(word: &[u8]) -> bool
    ensures { result ≡ list_all is_ascii_digit word.now }
{
    word.iter().all(|byte| byte.is_ascii_digit())
}

/// Whether a word has digits, and nothing else.
pub(crate) fn is_digits(word: &[u8]) -> bool
    ensures { result ≡ is_number word.now }
{
    0 < word.len() && are_digits(word)
}

/// Why a word is no number within its limits, if it is none, and the limit that it passes.
pub(crate) fn number_told(word: &[u8], least: u64, most: u64) -> Reasoned<'_>
    ensures told { TellsNumber (number_reason least most word.now) result }
    ensures part { result.part.now ≡ word.now }
{
    match read_number(word, most) {
        Some(number) if number < least => Reasoned::numbered(Reason::Below, Some(least), word),
        Some(_) => Reasoned::of(Reason::Due, word),
        None if is_digits(word) => Reasoned::numbered(Reason::Above, Some(most), word),
        None => Reasoned::of(Reason::NoNumber, word),
    }
}

/// Whether a word has hexadecimal digits alone.
fn is_hexadecimal(word: &[u8]) -> bool
    ensures { result ≡ list_all is_ascii_hexdigit word.now }
{
    word.iter().all(|byte| byte.is_ascii_hexdigit())
}

/// Why a word is no bytes in hexadecimal digits, and how many digits it has where they are odd.
pub(crate) fn bytes_told(word: &[u8]) -> Reasoned<'_>
    ensures told { Tells (bytes_reason word.now) result }
    ensures part { result.part.now ≡ word.now }
{
    if is_hexadecimal(word) {
        Reasoned::numbered(Reason::OddDigits, Some(word.len() as u64), word)
    } else {
        Reasoned::of(Reason::NoDigits, word)
    }
}

fn is_permission(byte: u8) -> bool
    ensures { result ≡ is_permission_byte byte }
{
    matches!(byte, b'r' | b'w' | b'x' | b'-')
}

/// How often a byte stands in a field.
fn count_of(field: &[u8], byte: u8) -> usize
    ensures { result ≡ times_in byte field.now }
{
    field.iter().filter(|one| **one == byte).count()
}

/// The first byte of a field that is no permission.
fn no_permission(field: &[u8]) -> Option<&[u8]>
    ensures { MatchOption result (list_all is_permission_byte field.now ≡ true)
        (λ part. (list_all is_permission_byte field.now ≡ false) × (list_all is_permission_byte part.now ≡ false)) }
{
    for byte in field {
        if !is_permission(*byte) {
            return Some(from_ref(byte));
        }
    }
    None
}

/// The letter that stands twice in a field.
fn doubled_letter(field: &[u8]) -> Option<&[u8]>
    ensures { MatchOption result (list_all (λ byte. nat_le (times_in byte field.now) 1) permission_bytes ≡ true)
        (λ _. list_all (λ byte. nat_le (times_in byte field.now) 1) permission_bytes ≡ false) }
{
    if count_of(field, b'r') > 1 {
        Some(b"r")
    } else if count_of(field, b'w') > 1 {
        Some(b"w")
    } else if count_of(field, b'x') > 1 {
        Some(b"x")
    } else {
        None
    }
}

/// Why a field is no permissions, if it is none; and the part of it that is wrong.
pub(crate) fn permissions_told(field: &[u8]) -> Reasoned<'_>
    ensures { (result.reason ≡ Reason.Due) ↔ (are_permissions field.now ≡ true) }
{
    if matches!(field, [b'0'..=b'7']) {
        return Reasoned::of(Reason::Digit, field);
    }
    if let Some(part) = no_permission(field) {
        return Reasoned::of(Reason::NoPermission, part);
    }
    if let Some(letter) = doubled_letter(field) {
        return Reasoned::of(Reason::Twice, letter);
    }
    if count_of(field, b'-') > 3 {
        return Reasoned::of(Reason::Hyphens, field);
    }
    Reasoned::of(Reason::Due, field)
}

fn is_name_byte(byte: u8) -> bool
    ensures { result ≡ is_name_byte byte }
{
    (33..=126).contains(&byte) && !matches!(byte, b':' | b',' | b'#' | b'\\')
}

/// The first byte that stands in no name.
fn no_name_byte(word: &[u8]) -> Option<&[u8]>
    ensures { MatchOption result (list_all is_name_byte word.now ≡ true)
        (λ part. (list_all is_name_byte word.now ≡ false) × (list_all is_name_byte part.now ≡ false)) }
{
    for byte in word {
        if !is_name_byte(*byte) {
            return Some(from_ref(byte));
        }
    }
    None
}

/// What is told of a name.
pub(crate) fn name_told(word: &[u8]) -> Reasoned<'_> {
    match no_name_byte(word) {
        Some(part) => Reasoned::of(Reason::NoNameByte, part),
        None => Reasoned::of(Reason::Due, word),
    }
}
