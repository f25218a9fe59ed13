//! The words of a line.

ghost use Rattle.std.specs.Prelude.{◌≡◌, ◌<◌, List, ◌∷◌, ℕ, length, not, [], MatchOption};
ghost use Rattle.std.specs.Iterator.{YieldsFirstRef, item_count};
ghost use Rattle.std.specs.List.{position};
ghost use Rattle.script_text.specs.Words.{words, is_blank, BeginsWithWord};

use memchr::memchr2;
use std::marker::Model;

/// Most words end within so many bytes.
const NEAR: usize = 16;

/// What is left of a line, as its words. Words stand between spaces and tabs.
#[derive(Drop)]
pub struct Words<'a> {
    rest: &'a [u8],
}

impl<'a> Model for Words<'a> {
    ghost Value = { List (List ℕ) };

    ghost view = { λ left. words left.rest.now };
}

impl<'a> Words<'a> {
    /// The words of a line.
    pub fn new(line: &'a [u8]) -> Words<'a>
        ensures { result ≡ words line.now }
    {
        Words { rest: line }
    }

    /// The text of the words that are left.
    pub fn rest(&self) -> &'a [u8]
        ensures { words result.now ≡ self.now }
    {
        self.rest
    }
}

impl<'a> Iterator for Words<'a> {
    type Item = &'a [u8];

    ghost next_gives = { YieldsFirstRef (λ left. left) };

    ghost remaining = { item_count (λ left. left) };

    fn next(&mut self) -> Option<&'a [u8]> {
        match split_word(self.rest) {
            Some((word, rest)) => {
                self.rest = rest;
                Some(word)
            }
            None => {
                self.rest = &[];
                None
            }
        }
    }
}

/// The first word of a line, if there is one, and the line after it.
pub(crate) fn split_word(line: &[u8]) -> Option<(&[u8], &[u8])>
    ensures { MatchOption result (words line.now ≡ []) (λ pair. words line.now ≡ pair.0.now ∷ words pair.1.now) }
{
    let rest = without_blanks(line);
    if rest.is_empty() {
        None
    } else {
        Some(first_word(rest))
    }
}

/// Whether a byte parts words. Of most bytes the first comparison tells.
fn is_blank(byte: u8) -> bool
    ensures { result ≡ is_blank byte }
{
    byte <= b' ' && matches!(byte, b' ' | b'\t')
}

/// The line from its first byte that is not blank on.
fn without_blanks(line: &[u8]) -> &[u8]
    ensures words { words result.now ≡ words line.now }
    ensures start { BeginsWithWord result.now }
{
    match first_other(line) {
        Some(start) => &line[start..],
        None => &[],
    }
}

/// The first word of a line that begins with one, and the line after it.
fn first_word(line: &[u8]) -> (&[u8], &[u8])
    requires some { 0 < length line.now }
    requires start { BeginsWithWord line.now }
    ensures { words line.now ≡ result.0.now ∷ words result.1.now }
{
    match first_blank(line) {
        Some(end) => (&line[..end], &line[end..]),
        None => (line, &[]),
    }
}

/// Where the first blank stands: byte by byte where most words end, by a search of the rest after that.
fn first_blank(line: &[u8]) -> Option<usize>
    ensures { result ≡ position is_blank line.now }
{
    let near = line.len().min(NEAR);
    match near_blank(&line[..near]) {
        Some(place) => Some(place),
        None => Some(near + far_blank(&line[near..])?),
    }
}

fn near_blank(near: &[u8]) -> Option<usize>
    ensures { result ≡ position is_blank near.now }
{
    near.iter().position(|byte| is_blank(*byte))
}

// A call, so that the search for the end of a short word stays small enough to stand where it is wanted.
#[inline(never)]
fn far_blank(rest: &[u8]) -> Option<usize>
    ensures { result ≡ position is_blank rest.now }
{
    memchr2(b' ', b'\t', rest)
}

fn first_other(line: &[u8]) -> Option<usize>
    ensures { result ≡ position (λ byte. not (is_blank byte)) line.now }
{
    line.iter().position(|byte| !is_blank(*byte))
}
