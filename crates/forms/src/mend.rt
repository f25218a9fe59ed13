//! What would mend a line: other words in the place of one, words before it, a word less. Each is tried.

ghost use Rattle.std.specs.Prelude.{◌≡◌, ◌++◌, IfOk, OnOk};
ghost use Rattle.std.specs.Bool.{IsTrue};
ghost use Rattle.std.specs.List.{flat_map};
ghost use Rattle.script_text.specs.Words.{words};
ghost use Rattle.forms.specs.Finding.{place_text, tab};
ghost use Rattle.forms.specs.Mends.{AreTold, IsWord, changed, field, is_verb, numbered, placed, put_at, spaced};
ghost use Rattle.forms.specs.code.Trials.{AddsFields, AddsMends, IsCutIn, IsMissingIn, IsShiftIn, MendsIn, change_of};

use crate::finding::{Found, fits};
use crate::reading::Reading;
use crate::reason::is_digits;
use crate::table::about;
use script_text::{Words, push_number};
use std::alloc::{AllocError, Global};
use suite_script::{Expected, FormEnding, LineFault, LineForm, VERBS};

/// A change of a line at a word of it: that is left out, or another stands in its place or, where so told, before it.
#[derive(Clone, Copy)]
enum Change<'a> {
    Without,
    Placed(bool, &'a [u8]),
}

impl<'a> Change<'a> {
    /// Adds what a word becomes of which this is the number, counted from the word that is changed.
    fn push_at(self, text: &mut Vec<u8>, at: u64, word: &[u8]) -> Result<(), AllocError>
        ensures { OnOk result (text.new.items ≡ text.old.items ++ flat_map spaced (put_at (change_of self.entry) at word.now)) }
    {
        match self {
            _ if at != 1 => push_word(text, word),
            Change::Without => Ok(()),
            Change::Placed(false, other) => push_word(text, other),
            Change::Placed(true, other) => {
                push_word(text, other)?;
                push_word(text, word)
            }
        }
    }
}

/// Adds a word with a space behind it.
pub(crate) fn push_word(text: &mut Vec<u8>, word: &[u8]) -> Result<(), AllocError>
    ensures { OnOk result (text.new.items ≡ text.old.items ++ spaced word.now) }
{
    text.extend_from_slice(word)?;
    text.extend_from_slice(b" ")
}

/// Adds a field with a tab behind it; a hyphen, where there is nothing.
pub(crate) fn push_field(text: &mut Vec<u8>, given: &[u8]) -> Result<(), AllocError>
    ensures { OnOk result (text.new.items ≡ text.old.items ++ field given.now) }
{
    match given {
        [] => text.push(b'-')?,
        _ => text.extend_from_slice(given)?,
    }
    text.extend_from_slice(b"\t")
}

/// Adds a number with a tab behind it; a hyphen, where there is none.
pub(crate) fn push_count(text: &mut Vec<u8>, count: Option<u64>) -> Result<(), AllocError>
    ensures { OnOk result (text.new.items ≡ text.old.items ++ place_text count ++ tab) }
{
    match count {
        Some(count) => push_number(text, count)?,
        None => text.push(b'-')?,
    }
    text.extend_from_slice(b"\t")
}

/// A line that is changed at the word of this number.
fn changed(alloc: Global, line: &[u8], at: u64, change: Change<'_>) -> Result<Vec<u8>, AllocError>
    ensures { IfOk result (λ text. text.items ≡ changed (change_of change.entry) at (words line.now)) }
{
    let mut text = Vec::new(alloc);
    let mut left = at;
    for word in Words::new(line) {
        change.push_at(&mut text, left, word)?;
        left = left.saturating_sub(1);
    }
    Ok(text)
}

/// A line below those that were read.
#[derive(Clone, Copy)]
pub(crate) struct Trial<'a> {
    pub(crate) reading: &'a Reading<'a>,
    pub(crate) line: &'a [u8],
}

impl<'a> Trial<'a> {
    fn fits(self, at: u64, change: Change<'_>) -> Result<bool, AllocError>
        ensures { IfOk result (λ does. IsTrue does → MendsIn self.entry at (change_of change.entry)) }
    {
        let line = changed(self.reading.alloc, self.line, at, change)?;
        fits(self.reading, &line)
    }

    /// The word of this number; no bytes where the line ends before it.
    pub(crate) fn word(self, at: u64) -> &'a [u8]
        ensures { result.now ≡ numbered at (words self.entry.line.now) }
    {
        let mut left = at;
        for word in Words::new(self.line) {
            if left == 1 {
                return word;
            }
            left = left.saturating_sub(1);
        }
        b""
    }

    /// Adds a word, if it mends the line in the place of the word of this number or before it.
    #[tactic(auto, using(crate::proofs::Mending::adds_none, crate::proofs::Mending::adds_one))]
    fn push_if(
        self,
        text: &mut Vec<u8>,
        at: u64,
        word: &[u8],
        is_before: bool,
    ) -> Result<(), AllocError>
        ensures { OnOk result (AddsMends self.entry at is_before text.old.items text.new.items) }
    {
        if !is_word(word) || !self.fits(at, Change::Placed(is_before, word))? {
            return Ok(());
        }
        push_word(text, word)
    }

    /// The forms whose first words may mend the line: those of lines, where it begins as none, or those of operations.
    fn candidates(self, found: Found) -> Result<Vec<LineForm>, AllocError> {
        let lines = self.reading.forms;
        let mut forms = Vec::new(self.reading.alloc);
        match (found.expected, found.fault) {
            (None, Some(LineFault::Form)) => {
                for part in [lines.header, lines.optional, lines.names, lines.own] {
                    forms.extend_from_slice(part)?;
                }
            }
            (Some(Expected::Operation), _) => {
                for verb in VERBS.iter() {
                    forms.push(verb.form())?;
                }
            }
            _ => {}
        }
        Ok(forms)
    }

    /// The words that mend the line, in the place of the one that does not fit or before it, with a space behind each.
    #[tactic(auto, using(crate::proofs::Mending::adds_none, crate::proofs::Mending::adds_more, crate::proofs::Mending::told_all))]
    fn words(self, found: Found, is_before: bool) -> Result<Vec<u8>, AllocError>
        ensures { IfOk result (λ text. AreTold (λ word. MendsIn self.entry found.number (placed is_before word)) text.items) }
    {
        let mut text = Vec::new(self.reading.alloc);
        let forms = self.candidates(found)?;
        for form in forms.as_slice() {
            self.push_if(&mut text, found.number, form.word, is_before)?;
        }
        Ok(text)
    }

    /// The numbers of words without which the line has its form.
    #[tactic(auto, using(crate::proofs::Mending::adds_none, crate::proofs::Mending::adds_next, crate::proofs::Mending::many_told))]
    fn without(self, from: u64, below: u64) -> Result<Vec<u8>, AllocError>
        ensures { IfOk result (λ text. IsShiftIn self.entry text.items) }
    {
        let mut text = Vec::new(self.reading.alloc);
        for at in from..below {
            if !self.fits(at, Change::Without)? {
                continue;
            }
            push_number(&mut text, at)?;
            text.push(b' ')?;
        }
        Ok(text)
    }

    /// Whether the line has its form with a word more, which stands in a place of the form up to that of the word.
    #[tactic(auto, using(crate::proofs::Mending::is_missing))]
    fn is_missing(self, form: LineForm, found: Found) -> Result<bool, AllocError>
        ensures { IfOk result (λ does. IsTrue does → IsMissingIn self.entry) }
    {
        let last = match form.ending {
            FormEnding::Perhaps(place) => Some(place),
            _ => None,
        };
        let mut at = found.begin;
        for place in form.places.iter().copied().chain(last) {
            at = at.saturating_add(1);
            if at > found.number {
                return Ok(false);
            }
            if self.fits(at, Change::Placed(true, about(place)[1]))? {
                return Ok(true);
            }
        }
        Ok(false)
    }

    /// Whether an operation has a word too many, behind one that begins none: its path may have a space.
    #[tactic(auto, using(crate::proofs::Mending::is_cut))]
    fn is_cut(self) -> Result<bool, AllocError>
        ensures { IfOk result (λ does. IsTrue does → IsCutIn self.entry) }
    {
        let mut words = Words::new(self.line);
        let Some(first) = words.next() else {
            return Ok(false);
        };
        let Ok(form) = self.reading.standing(first) else {
            return Ok(false);
        };
        let Some(misfit) = self.reading.scope.misfit(self.reading.alloc, form, words)? else {
            return Ok(false);
        };
        let (FormEnding::Operations, Expected::End) = (form.ending, misfit.expected) else {
            return Ok(false);
        };
        Ok(!is_verb(self.word(misfit.number.saturating_sub(1))))
    }

    /// What would explain the fault as one of a word too many or too few: `path` where a path seems to have a space,
    /// `missing` where a word is missing before, or numbers of words that may be too many.
    #[tactic(auto, using(crate::proofs::Mending::path_told, crate::proofs::Mending::missing_told, crate::proofs::Mending::none_told))]
    fn shift(self, found: Found) -> Result<Vec<u8>, AllocError>
        ensures { IfOk result (λ text. IsShiftIn self.entry text.items) }
    {
        let (Some(form), Some(expected)) = (found.form, found.expected) else {
            return Ok(Vec::new(self.reading.alloc));
        };
        let from = found.begin.max(2);
        if expected == Expected::End {
            if self.is_cut()? {
                return Vec::from_slice(self.reading.alloc, b"path");
            }
            return self.without(from, found.number);
        }
        if self.is_missing(form, found)? {
            return Vec::from_slice(self.reading.alloc, b"missing");
        }
        let after = found.number.saturating_add(1);
        if is_digits(self.word(found.number)) && self.word(after).is_empty() {
            return Ok(Vec::new(self.reading.alloc));
        }
        self.without(from, after)
    }
}

/// Whether a word begins an operation.
fn is_verb(word: &[u8]) -> bool
    ensures { result ≡ is_verb word.now }
{
    VERBS.iter().any(|verb| word == verb.form().word)
}

/// Whether a text is one word.
#[tactic(auto, using(crate::proofs::Mending::one_word))]
fn is_word(text: &[u8]) -> bool
    ensures { IsTrue result → IsWord text.now }
{
    let mut words = Words::new(text);
    let Some(word) = words.next() else {
        return false;
    };
    if words.next().is_some() {
        return false;
    }
    word == text
}

/// Adds the fields `INSTEAD BEFORE SHIFT`: of each change that they tell it was tried that it mends the line.
#[tactic(auto, using(crate::proofs::Mending::fields_added))]
pub(crate) fn push_mends(
    text: &mut Vec<u8>,
    trial: Trial<'_>,
    found: Found,
) -> Result<(), AllocError>
    ensures { OnOk result (AddsFields trial.entry found.number text.old.items text.new.items) }
{
    let instead = trial.words(found, false)?;
    let before = trial.words(found, true)?;
    let shift = trial.shift(found)?;
    push_field(text, &instead)?;
    push_field(text, &before)?;
    push_field(text, &shift)?;
    Ok(())
}
