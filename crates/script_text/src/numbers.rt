//! The numbers of a word between separators.

ghost use Rattle.std.specs.Prelude.{◌≡◌, ◌==◌, ◌∷◌, List, Option, ℕ, map};
ghost use Rattle.std.specs.Iterator.{YieldsFirst, item_count};
ghost use Rattle.std.specs.List.{slice_split};
ghost use Rattle.script_text.specs.Numbers.{number_up_to};
ghost use Rattle.script_text.specs.code.Parts.{number_read, parts_left};

use crate::number::read_number;
use crate::parts::first_part;
use std::marker::Model;

/// What is left of a word, as the numbers that the parts between its separators spell, each where it is at most a limit.
#[derive(Drop)]
pub struct Numbers<'a> {
    rest: Option<&'a [u8]>,
    separator: u8,
    limit: u32,
}

impl<'a> Model for Numbers<'a> {
    ghost Value = { List (Option ℕ) };

    ghost view = { λ left. map (number_up_to left.limit) (parts_left left.separator left.rest) };
}

impl<'a> Numbers<'a> {
    /// The numbers of a word.
    pub fn new(word: &'a [u8], separator: u8, limit: u32) -> Numbers<'a>
        ensures { result ≡ map (number_up_to limit) (slice_split (λ byte. byte == separator) word.now) }
    {
        Numbers {
            rest: Some(word),
            separator,
            limit,
        }
    }
}

impl<'a> Iterator for Numbers<'a> {
    type Item = Option<u32>;

    ghost next_gives = { YieldsFirst (λ left. left) };

    ghost remaining = { item_count (λ left. left) };

    fn next(&mut self) -> Option<Option<u32>> {
        let (number, rest) = first_number(self.rest?, self.separator, self.limit);
        self.rest = rest;
        Some(number)
    }
}

/// Below this a number has room for one digit more.
const ROOM: u64 = 1_000_000_000_000_000_000;

/// The number that stands before the first separator, if one does, and what is left after it. Digits are read while the
/// number is far from overflowing; only where they do not end the part is it looked for, and judged as a word.
fn first_number(word: &[u8], separator: u8, limit: u32) -> (Option<u32>, Option<&[u8]>)
    ensures { map (number_up_to limit) (slice_split (λ byte. byte == separator) word.now)
        ≡ result.0 ∷ map (number_up_to limit) (parts_left separator result.1) }
{
    let mut value: u64 = 0;
    let mut end = 0;
    while end < word.len() && word[end] != separator && word[end].is_ascii_digit() && value < ROOM {
        value = value * 10 + u64::from(word[end] - b'0');
        end += 1;
    }
    if end == word.len() {
        return (number_read(end, value, limit), None);
    }
    if word[end] == separator {
        return (number_read(end, value, limit), Some(&word[end + 1..]));
    }
    let (part, rest) = first_part(word, separator);
    (number_of(part, limit), rest)
}

/// The number that so many digits spelled.
fn number_read(digits: usize, value: u64, limit: u32) -> Option<u32>
    ensures { result ≡ number_read digits value limit }
{
    if digits > 0 && value <= u64::from(limit) {
        Some(value as u32)
    } else {
        None
    }
}

/// The number that a part spells.
fn number_of(part: &[u8], limit: u32) -> Option<u32>
    ensures { result ≡ number_up_to limit part.now }
{
    let number = read_number(part, u64::from(limit))?;
    Some(number as u32)
}
