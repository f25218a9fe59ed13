//! The first word of a line that its form does not allow.

ghost use Rattle.std.specs.Prelude.{◌≡◌, ◌∷◌, [], None, IfOk};
ghost use Rattle.suite_script.specs.Misfits.{IsClosed, after, closed, ended, found, judge, line_misfit, misfit_at, operation_judged, operations_misfit, phrases_ended, shaped};

use crate::fault::LineFault;
use crate::form::{FormEnding, LineForm, Place};
use crate::scope::Scope;
use crate::verb::Verb;
use script_text::{Phrases, Words};
use std::alloc::{AllocError, Global};

/// What was expected where a word does not fit.
#[derive(Clone, Copy, PartialEq, Eq, Debug)]
pub enum Expected {
    /// A word of this place.
    Place(Place),
    /// The first word of an operation.
    Operation,
    /// No word more, of the line or of the operation.
    End,
}

/// A word that does not fit: its number from 1 in its line, what was expected there, and the line's fault.
#[derive(Clone, Copy, PartialEq, Eq, Debug)]
pub struct Misfit {
    pub number: u64,
    pub expected: Expected,
    pub fault: LineFault,
}

/// A word that is missing, or that is none of those that were expected.
fn no_form(number: u64, expected: Expected) -> Misfit
    ensures { result ≡ misfit_at number expected LineFault.Form }
{
    Misfit {
        number,
        expected,
        fault: LineFault::Form,
    }
}

/// The number of the next word.
fn after(number: u64) -> u64
    ensures { result ≡ after number }
{
    number.saturating_add(1)
}

impl Scope {
    /// Words in some places.
    fn judge(
        &self,
        alloc: Global,
        places: &[Place],
        number: &mut u64,
        phrases: &mut Phrases<'_>,
    ) -> Result<Option<Misfit>, AllocError>
        ensures judged { IfOk result (λ misfit. found misfit number.new phrases.new.here ≡ judge self.now number.old places.now phrases.old.here) }
        ensures later { phrases.new.later ≡ phrases.old.later }
    {
        for place in places {
            let expected = Expected::Place(*place);
            let Some(word) = phrases.next_word() else {
                return Ok(Some(no_form(*number, expected)));
            };
            if let Some(fault) = self.fault_of(alloc, *place, word)? {
                return Ok(Some(Misfit {
                    number: *number,
                    expected,
                    fault,
                }));
            }
            *number = after(*number);
        }
        Ok(None)
    }

    /// Words after all places of a form.
    fn close(
        &self,
        alloc: Global,
        ending: FormEnding,
        number: &mut u64,
        phrases: &mut Phrases<'_>,
    ) -> Result<Option<Misfit>, AllocError>
        ensures judged { IfOk result (λ misfit. found misfit number.new phrases.new.here ≡ closed self.now ending number.old phrases.old.here) }
        ensures whole { IfOk result (λ misfit. misfit ≡ None → IsClosed ending phrases.new.here) }
        ensures later { phrases.new.later ≡ phrases.old.later }
    {
        match ending {
            FormEnding::Whole => Ok(end_misfit(*number, phrases)),
            FormEnding::Perhaps(place) => self.judge_last(alloc, place, number, phrases),
            FormEnding::Operations => Ok(None),
        }
    }

    /// A word that may be missing, in its place, and nothing behind it.
    fn judge_last(
        &self,
        alloc: Global,
        place: Place,
        number: &mut u64,
        phrases: &mut Phrases<'_>,
    ) -> Result<Option<Misfit>, AllocError>
        ensures judged { IfOk result (λ misfit. found misfit number.new phrases.new.here
            ≡ closed self.now (FormEnding.Perhaps place) number.old phrases.old.here) }
        ensures whole { IfOk result (λ misfit. misfit ≡ None → phrases.new.here ≡ []) }
        ensures later { phrases.new.later ≡ phrases.old.later }
    {
        let Some(word) = phrases.next_word() else {
            return Ok(None);
        };
        if let Some(fault) = self.fault_of(alloc, place, word)? {
            return Ok(Some(Misfit {
                number: *number,
                expected: Expected::Place(place),
                fault,
            }));
        }
        *number = after(*number);
        Ok(end_misfit(*number, phrases))
    }

    /// Words after the first of a form.
    fn judge_form(
        &self,
        alloc: Global,
        form: LineForm,
        number: &mut u64,
        phrases: &mut Phrases<'_>,
    ) -> Result<Option<Misfit>, AllocError>
        ensures judged { IfOk result (λ misfit. found misfit number.new phrases.new.here
            ≡ shaped self.now form.places.now form.ending number.old phrases.old.here) }
        ensures whole { IfOk result (λ misfit. misfit ≡ None → IsClosed form.ending phrases.new.here) }
        ensures later { phrases.new.later ≡ phrases.old.later }
    {
        match self.judge(alloc, form.places, number, phrases)? {
            Some(misfit) => Ok(Some(misfit)),
            None => self.close(alloc, form.ending, number, phrases),
        }
    }

    /// An operation, which is all of its phrase.
    fn judge_operation(
        &self,
        alloc: Global,
        number: &mut u64,
        phrases: &mut Phrases<'_>,
    ) -> Result<Option<Misfit>, AllocError>
        ensures judged { IfOk result (λ misfit. found misfit number.new phrases.new.here ≡ operation_judged self.now number.old phrases.old.here) }
        ensures whole { IfOk result (λ misfit. misfit ≡ None → phrases.new.here ≡ []) }
        ensures later { phrases.new.later ≡ phrases.old.later }
    {
        match phrases.next_word().and_then(Verb::of) {
            Some(verb) => {
                *number = after(*number);
                self.judge_form(alloc, verb.form(), number, phrases)
            }
            None => Ok(Some(no_form(*number, Expected::Operation))),
        }
    }

    /// The first word that does not fit, of operations from the word of this number on.
    fn operations_misfit(
        &self,
        alloc: Global,
        mut number: u64,
        mut phrases: Phrases<'_>,
    ) -> Result<Option<Misfit>, AllocError>
        ensures { IfOk result (λ misfit. misfit ≡ operations_misfit self.now number (phrases.entry.here ∷ phrases.entry.later)) }
    {
        loop {
            if let Some(misfit) = self.judge_operation(alloc, &mut number, &mut phrases)? {
                return Ok(Some(misfit));
            }
            if !phrases.next_phrase() {
                return Ok(None);
            }
            number = after(number);
        }
    }

    /// The first word of a line that its form does not allow, from the words after its first; if there is one.
    pub fn misfit(
        &self,
        alloc: Global,
        form: LineForm,
        words: Words<'_>,
    ) -> Result<Option<Misfit>, AllocError>
        ensures { IfOk result (λ misfit. misfit ≡ line_misfit self.now form.places.now form.ending words.entry) }
    {
        let mut phrases = Phrases::new(words);
        let mut number = 2;
        if let Some(misfit) = self.judge_form(alloc, form, &mut number, &mut phrases)? {
            return Ok(Some(misfit));
        }
        match form.ending {
            FormEnding::Operations => self.operations_misfit(alloc, number, phrases),
            FormEnding::Whole | FormEnding::Perhaps(_) => Ok(later_misfit(number, &mut phrases)),
        }
    }
}

/// A semicolon that stands where nothing more may.
fn later_misfit(number: u64, phrases: &mut Phrases<'_>) -> Option<Misfit>
    requires { phrases.old.here ≡ [] }
    ensures { result ≡ phrases_ended number phrases.old.later }
{
    if phrases.next_phrase() {
        Some(no_form(number, Expected::End))
    } else {
        None
    }
}

/// A word that stands where nothing more may.
fn end_misfit(number: u64, phrases: &mut Phrases<'_>) -> Option<Misfit>
    ensures judged { found result number phrases.new.here ≡ ended number phrases.old.here }
    ensures whole { result ≡ None → phrases.new.here ≡ [] }
    ensures later { phrases.new.later ≡ phrases.old.later }
{
    match phrases.next_word() {
        Some(_) => Some(no_form(number, Expected::End)),
        None => None,
    }
}
