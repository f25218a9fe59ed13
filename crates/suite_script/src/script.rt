//! A script, read line by line.

ghost use Rattle.std.specs.Prelude.{◌≡◌, ◌∷◌, [], ◌<◌, ◌≤◌, ◌+◌, ◌^◌, true, Ok, Err, MatchOption, MatchResult, IfOk, OnSome, length};
ghost use Rattle.script_text.specs.Words.{words};
ghost use Rattle.suite_script.specs.Progress.{Checks, GivesOwn, Heads, SaysLine, SaysOwn, fault_of};
ghost use Rattle.suite_script.specs.Scripts.{header_line, is_skipped, language_of, later_line, line_begins, lines_from, next_begins, owns, whole, words_after};

use crate::fault::{LineError, LineFault, ScriptError};
use crate::language::Language;
use crate::line::Line;
use crate::names::{misplaced, read_name};
use crate::word::next_word;
use acl_text::Names;
use script_text::{Lines, Words};
use std::alloc::Global;
use std::marker::Model;

/// What is left of a script: its lines, and the names that are known.
#[derive(Drop)]
pub struct ScriptReader<'a> {
    text: &'a [u8],
    left: Lines<'a>,
    number: u64,
    known: Names,
    has_begun: bool,
}

impl<'a> Model for ScriptReader<'a> {
    ghost use Rattle.std.specs.Prelude.{◌+◌, ◌<◌, ◌^◌, length};
    ghost use Rattle.suite_script.specs.Scripts.{Pending, lines_from};

    ghost Value = { Pending };

    ghost view = { λ script. record {
      lines = lines_from script.number script.left;
      end = script.number + length script.left;
      names = script.known;
      begun = script.has_begun;
    } };

    ghost invariant = { λ script. script.number + length script.left < 2 ^ 63 };
}

/// Whether a line says nothing: an empty one, or a comment.
fn is_skipped(line: &[u8]) -> bool
    ensures { result ≡ is_skipped line.now }
{
    matches!(line, [] | [b'#', ..])
}

/// The next line that says something, with its number; after it the number is the next one's.
fn next_said<'a>(lines: &mut Lines<'a>, number: &mut u64) -> Option<(u64, &'a [u8])>
    requires { number.old + length lines.old < 2 ^ 63 }
    ensures line { MatchOption result ((lines_from number.old lines.old ≡ []) × (length lines.new ≡ 0))
        (λ said. lines_from number.old lines.old ≡ record { number = said.0; words = words said.1.now } ∷ lines_from number.new lines.new) }
    ensures room { number.new + length lines.new ≡ number.old + length lines.old }
{
    while let Some(line) = lines.next() {
        let place = *number;
        *number += 1;
        if !is_skipped(line) {
            return Some((place, line));
        }
    }
    None
}

/// Whether a line begins with this word.
fn begins(mut words: Words<'_>, word: &[u8]) -> bool
    ensures { result ≡ line_begins word.now words.entry }
{
    match words.next() {
        Some(first) => first == word,
        None => false,
    }
}

impl<'a> ScriptReader<'a> {
    /// A script of which nothing is read yet.
    pub fn new(alloc: Global, text: &'a [u8]) -> ScriptReader<'a>
        requires { length text.now < 2 ^ 62 }
        ensures whole { result ≡ whole text.now }
        ensures few { length result.lines ≤ length text.now }
    {
        ScriptReader {
            text,
            left: Lines::new(text),
            number: 1,
            known: Names::new(alloc),
            has_begun: false,
        }
    }

    /// The next line that says something; or the number of the line after the last one.
    fn next_line(&mut self) -> Result<Line<'a>, u64>
        ensures line { MatchResult result (λ line. self.old.lines ≡ line ∷ self.new.lines) (λ end. (self.old.lines ≡ []) × (end ≡ self.old.end)) }
        ensures same { self.new ≡ record self.old { lines = self.new.lines } }
        ensures fewer { length self.new.lines ≤ length self.old.lines }
    {
        match next_said(&mut self.left, &mut self.number) {
            Some((number, line)) => Ok(Line {
                number,
                words: Words::new(line),
            }),
            None => Err(self.number),
        }
    }

    /// The next line, which has to begin with this word: its number, and the words after it.
    pub fn header_line<L: Language>(&mut self, word: &[u8]) -> Result<Line<'a>, ScriptError>
        ensures line { Heads result self.new (header_line L.is_known word.now self.old) }
        ensures fewer { length self.new.lines ≤ length self.old.lines }
    {
        let mut line = self
            .next_line()
            .map_err(|end| LineError::Faulty(LineFault::Order).at(end))?;
        words_after::<L>(word, &mut line.words).map_err(|fault| LineError::Faulty(fault).at(
            line.number,
        ))?;
        Ok(line)
    }

    /// Whether the next line begins with this word. Nothing is read.
    pub fn next_begins(&self, word: &[u8]) -> bool
        ensures { result ≡ next_begins word.now self.now.lines }
    {
        let mut left = Lines::new(self.left.rest());
        let mut number = self.number;
        match next_said(&mut left, &mut number) {
            Some((_, line)) => begins(Words::new(line), word),
            None => false,
        }
    }

    /// The next line of the command's own, if there is one; the names above it are then known.
    pub fn next_own<L: Language>(
        &mut self,
        alloc: Global,
        language: &L,
    ) -> Result<Option<L::Own>, ScriptError>
        ensures own { let of = language_of L.is_known L.begins (L.own language.now) in
            GivesOwn result (owns of self.old) (owns of self.new) }
        ensures fewer { IfOk result (λ own. OnSome own (length self.new.lines < length self.old.lines)) }
        ensures begun { IfOk result (λ own. OnSome own (self.new.begun ≡ true)) }
    {
        while let Ok(line) = self.next_line() {
            if let Some(own) = self.read_line(alloc, language, line)? {
                return Ok(Some(own));
            }
        }
        Ok(None)
    }

    /// Looks through what is left for its first fault.
    pub fn check<L: Language>(&mut self, alloc: Global, language: &L) -> Result<(), ScriptError>
        ensures { Checks result (fault_of (owns (language_of L.is_known L.begins (L.own language.now)) self.old)) }
    {
        while self.next_own(alloc, language)?.is_some() {}
        Ok(())
    }

    /// Looks through the lines that are left for the first fault, and leaves them to be read. No name may come any more.
    pub fn look_ahead<L: Language>(&self, alloc: Global, language: &L) -> Result<(), ScriptError>
        requires { self.now.begun ≡ true }
        ensures { Checks result (fault_of (owns (language_of L.is_known L.begins (L.own language.now)) self.now)) }
    {
        let mut left = Lines::new(self.left.rest());
        let mut number = self.number;
        while let Some((place, line)) = next_said(&mut left, &mut number) {
            self.read_own(alloc, language, place, Words::new(line))?;
        }
        Ok(())
    }

    /// Reads a line that has to be one of the command's own, since no name may come any more.
    fn read_own<L: Language>(
        &self,
        alloc: Global,
        language: &L,
        number: u64,
        mut words: Words<'_>,
    ) -> Result<L::Own, ScriptError>
        ensures { SaysOwn result number
            (later_line (language_of L.is_known L.begins (L.own language.now)) true self.now.names words.entry) }
    {
        let Some(first) = words.next() else {
            return Err(LineError::Faulty(LineFault::Form).at(number));
        };
        if L::begins(first) {
            language
                .read(alloc, &self.known, first, words)
                .map_err(|error| error.at(number))
        } else {
            Err(LineError::Faulty(misplaced::<L>(first)).at(number))
        }
    }

    /// Reads a line after the header: a name, which is then known, or one of the command's own.
    fn read_line<L: Language>(
        &mut self,
        alloc: Global,
        language: &L,
        line: Line<'_>,
    ) -> Result<Option<L::Own>, ScriptError>
        ensures { SaysLine result line.entry.number self.old self.new
            (later_line (language_of L.is_known L.begins (L.own language.now)) self.old.begun self.old.names line.entry.words) }
    {
        let number = line.number;
        let mut words = line.words;
        let Some(first) = words.next() else {
            return Err(LineError::Faulty(LineFault::Form).at(number));
        };
        if L::begins(first) {
            let own = language
                .read(alloc, &self.known, first, words)
                .map_err(|error| error.at(number))?;
            self.has_begun = true;
            Ok(Some(own))
        } else {
            // Most scripts name nobody, and need no keys. No names can be fitted to keys that come from all of the text.
            self.known.key_by(self.text);
            read_name::<L>(self.has_begun, &mut self.known, first, &mut words).map_err(
                |error| error.at(number),
            )?;
            Ok(None)
        }
    }
}

/// The words after the first of a line, which has to be this word.
fn words_after<L: Language>(word: &[u8], words: &mut Words<'_>) -> Result<(), LineFault>
    ensures { MatchResult result (λ _. words_after L.is_known word.now words.old ≡ Ok words.new)
        (λ fault. words_after L.is_known word.now words.old ≡ Err fault) }
{
    let first = next_word(words)?;
    if first == word {
        Ok(())
    } else {
        Err(misplaced::<L>(first))
    }
}
