//! The lines of a script above a line: what they say that matters to it.

ghost use Rattle.std.specs.Prelude.{◌≡◌, Contains, IfOk, IfSome};
ghost use Rattle.std.specs.List.{find};
ghost use Rattle.std.specs.Str.{bytes_eq};
ghost use Rattle.std.specs.Str.Lines.{lines};
ghost use Rattle.suite_script.specs.Scripts.{is_skipped};
ghost use Rattle.forms.specs.Mends.{form_in, numbered};
ghost use Rattle.forms.specs.code.Trials.{StandsIn};

use crate::finding::fits;
use crate::list::is_noted;
use acl_text::Names;
use script_text::{Lines, Words, read_number};
use std::alloc::{AllocError, Global};
use suite_prefix::MAX_AGENTS;
use suite_script::{Forms, LineFault, LineForm, Place, Scope};
use vote_core::MAX_SERVERS;

/// A script that was read up to the line of some number.
#[derive(Drop)]
pub(crate) struct Reading<'a> {
    pub(crate) alloc: Global,
    pub(crate) forms: Forms,
    script: &'a [u8],
    number: u64,
    /// How many lines of the header came.
    header: usize,
    /// Whether the line came that may stand at the header's end, or one after it.
    is_open: bool,
    /// Whether a line of the command's own came.
    is_begun: bool,
    pub(crate) scope: Scope,
}

/// As many servers and agents as there may be, and no names.
pub(crate) fn widest(alloc: Global) -> Scope {
    Scope {
        last_server: MAX_SERVERS as u8 - 1,
        last_agent: MAX_AGENTS as u8 - 1,
        names: Names::new(alloc),
    }
}

/// The form of a line that begins with a word.
fn form_of(forms: &[LineForm], word: &[u8]) -> Option<LineForm>
    ensures { result ≡ find (λ form. bytes_eq word.now form.word.now) forms.now }
{
    forms.iter().copied().find(|form| word == form.word)
}

/// The form of a line of a script that begins with a word.
fn known(forms: Forms, word: &[u8]) -> Option<LineForm>
    ensures { result ≡ form_in forms word.now }
{
    form_of(forms.header, word)
        .or(form_of(forms.optional, word))
        .or(form_of(forms.names, word))
        .or(form_of(forms.own, word))
}

impl<'a> Reading<'a> {
    /// The lines above that of a number; and the number of the first of them that has a fault, or 0.
    pub(crate) fn of_above(
        alloc: Global,
        forms: Forms,
        script: &'a [u8],
        number: u64,
    ) -> Result<(Reading<'a>, u64), AllocError>
        ensures { IfOk result (λ read. read.0.forms ≡ forms) }
    {
        let mut fault = 0;
        let mut reading = Reading {
            alloc,
            forms,
            script,
            number,
            header: 0,
            is_open: true,
            is_begun: false,
            scope: widest(alloc),
        };
        for (at, line) in (1..number).zip(Lines::new(script)) {
            reading.number = at;
            if fault == 0 && !is_skipped(line) && !fits(&reading, line)? {
                fault = at;
            }
            reading.take(line)?;
        }
        reading.number = number;
        Ok((reading, fault))
    }

    /// Whether the line of its number would come right behind the last.
    pub(crate) fn is_end(&self) -> bool {
        (Lines::new(self.script).count() as u64).saturating_add(1) == self.number
    }

    /// The words behind the first one of the first line above that begins with this one.
    pub(crate) fn line_of(&self, word: &[u8]) -> Option<Words<'a>> {
        (1..self.number).zip(Lines::new(self.script)).find_map(|(_, line)| {
            let mut words = Words::new(line);
            (words.next()? == word).then_some(words)
        })
    }

    /// The line of the header that is due, if one is.
    pub(crate) fn due(&self) -> Option<LineForm>
        ensures { IfSome result (λ form. Contains self.now.forms.header.now form) }
    {
        self.forms.header.get(self.header).copied()
    }

    /// The form of a line that begins with this word and comes next; or its fault, where it has another place or none.
    pub(crate) fn standing(&self, word: &[u8]) -> Result<LineForm, LineFault>
        ensures { StandsIn self.now.forms word.now result }
    {
        if let Some(due) = self.due() {
            if word == due.word {
                return Ok(due);
            }
        } else {
            if let Some(form) = form_of(self.forms.own, word) {
                return Ok(form);
            }
            if let (Some(form), false) = (form_of(self.forms.names, word), self.is_begun) {
                return Ok(form);
            }
            if let (Some(form), true) = (form_of(self.forms.optional, word), self.is_open) {
                return Ok(form);
            }
        }
        match known(self.forms, word) {
            Some(_form) => Err(LineFault::Order),
            None => Err(LineFault::Form),
        }
    }

    /// Takes the next line, which has no fault.
    pub(crate) fn take(&mut self, line: &[u8]) -> Result<(), AllocError>
        ensures { self.new.forms ≡ self.old.forms }
    {
        let mut words = Words::new(line);
        let Some(first) = words.next() else {
            return Ok(());
        };
        let Ok(form) = self.standing(first) else {
            return Ok(());
        };
        if self.due().is_some() {
            self.header = self.header.saturating_add(1);
        } else {
            self.is_open = false;
            self.is_begun = self.is_begun || form_of(self.forms.own, first).is_some();
        }
        self.note(form, words)
    }

    /// Notes what a line says: how many servers or agents there are, or a name.
    fn note(&mut self, form: LineForm, mut words: Words<'_>) -> Result<(), AllocError>
        ensures { self.new.forms ≡ self.old.forms }
    {
        let (Some(place), Some(word)) = (form.places.first(), words.next()) else {
            return Ok(());
        };
        match place {
            Place::Servers => self.scope.last_server = last_of(word, MAX_SERVERS as u8),
            Place::Agents => self.scope.last_agent = last_of(word, MAX_AGENTS as u8),
            Place::UserName => return is_noted(self.scope.names.add_user(word, 0)),
            Place::GroupName => return is_noted(self.scope.names.add_group(word, 0)),
            _ => {}
        }
        Ok(())
    }
}

/// The line of a number; no bytes where there is none.
pub(crate) fn line_at(script: &[u8], number: u64) -> &[u8]
    ensures { result.now ≡ numbered number (lines script.now) }
{
    let mut left = number;
    for line in Lines::new(script) {
        if left == 1 {
            return line;
        }
        left = left.saturating_sub(1);
    }
    b""
}

/// Whether a line says nothing.
pub(crate) fn is_skipped(line: &[u8]) -> bool
    ensures { result ≡ is_skipped line.now }
{
    matches!(line, [] | [b'#', ..])
}

/// The last of so many that are numbered from 0.
fn last_of(word: &[u8], most: u8) -> u8 {
    match read_number(word, u64::from(most)) {
        Some(count) => (count as u8).saturating_sub(1),
        None => most.saturating_sub(1),
    }
}
