//! The parts of a word between separators.

ghost use Rattle.std.specs.Prelude.{◌≡◌, ◌==◌, ◌∷◌, List, ℕ};
ghost use Rattle.std.specs.Iterator.{YieldsFirstRef, item_count};
ghost use Rattle.std.specs.List.{position, slice_split};
ghost use Rattle.script_text.specs.code.Parts.{parts_left};

use std::marker::Model;

/// What is left of a word, as the parts between its separators, empty ones too. An empty word is one
/// empty part.
#[derive(Drop)]
pub struct WordParts<'a> {
    rest: Option<&'a [u8]>,
    separator: u8,
}

impl<'a> Model for WordParts<'a> {
    ghost Value = { List (List ℕ) };

    ghost view = { λ left. parts_left left.separator left.rest };
}

impl<'a> WordParts<'a> {
    /// The parts of a word.
    pub fn new(word: &'a [u8], separator: u8) -> WordParts<'a>
        ensures { result ≡ slice_split (λ byte. byte == separator) word.now }
    {
        WordParts {
            rest: Some(word),
            separator,
        }
    }
}

impl<'a> Iterator for WordParts<'a> {
    type Item = &'a [u8];

    ghost next_gives = { YieldsFirstRef (λ left. left) };

    ghost remaining = { item_count (λ left. left) };

    fn next(&mut self) -> Option<&'a [u8]> {
        let (part, rest) = first_part(self.rest?, self.separator);
        self.rest = rest;
        Some(part)
    }
}

/// The first part of a word, and what is left after its separator.
pub(crate) fn first_part(word: &[u8], separator: u8) -> (&[u8], Option<&[u8]>)
    ensures { slice_split (λ byte. byte == separator) word.now ≡ result.0.now ∷ parts_left separator result.1 }
{
    match first_separator(word, separator) {
        Some(end) => (&word[..end], Some(&word[end + 1..])),
        None => (word, None),
    }
}

fn first_separator(word: &[u8], separator: u8) -> Option<usize>
    ensures { result ≡ position (λ byte. byte == separator) word.now }
{
    word.iter().position(|byte| *byte == separator)
}
