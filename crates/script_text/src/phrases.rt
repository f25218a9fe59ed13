//! The words of a line between semicolons.

ghost use Rattle.std.specs.Prelude.{◌≡◌, ◌∷◌, ◌++◌, [], MatchOption, MatchBool};
ghost use Rattle.std.specs.List.{slice_split};
ghost use Rattle.script_text.specs.Phrases.{is_semicolon};

use crate::words::{Words, split_word};
use std::marker::Model;

/// What is left of a line, as phrases: the words between words that are a semicolon. One of them is
/// being read.
#[derive(Drop)]
pub struct Phrases<'a> {
    rest: &'a [u8],
}

impl<'a> Model for Phrases<'a> {
    ghost use Rattle.script_text.specs.Phrases.{Remaining, remaining_of};

    ghost Value = { Remaining };

    ghost view = { λ left. remaining_of left.rest.now };
}

impl<'a> Phrases<'a> {
    /// The phrases of the words that are left.
    pub fn new(words: Words<'a>) -> Phrases<'a>
        ensures { slice_split is_semicolon words.entry ≡ result.here ∷ result.later }
    {
        Phrases { rest: words.rest() }
    }

    /// The next word of the phrase that is being read.
    pub fn next_word(&mut self) -> Option<&'a [u8]>
        ensures word { MatchOption result ((self.old.here ≡ []) × (self.new.here ≡ [])) (λ word. self.old.here ≡ word.now ∷ self.new.here) }
        ensures later { self.new.later ≡ self.old.later }
    {
        let (word, rest) = split_word(self.rest)?;
        if is_semicolon(word) {
            return None;
        }
        self.rest = rest;
        Some(word)
    }

    /// Goes on to the next phrase, if there is one.
    pub fn next_phrase(&mut self) -> bool
        requires { self.old.here ≡ [] }
        ensures { MatchBool result (self.old.later ≡ self.new.here ∷ self.new.later) (self.old.later ≡ []) }
    {
        match split_word(self.rest) {
            Some((_, rest)) => {
                self.rest = rest;
                true
            }
            None => false,
        }
    }
}

fn is_semicolon(word: &[u8]) -> bool
    ensures { result ≡ is_semicolon word.now }
{
    matches!(word, [b';'])
}
