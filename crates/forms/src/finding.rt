//! What is printed of a line of a script.

ghost use Rattle.std.specs.Prelude.{◌≡◌, ◌∷◌, Contains, IfOk};
ghost use Rattle.std.specs.Bool.{IsTrue};
ghost use Rattle.script_text.specs.Words.{words};
ghost use Rattle.suite_script.specs.Misfits.{line_misfit};
ghost use Rattle.forms.specs.Answers.{IsAt, IsOfCommand, IsOfEach, IsOfLine};
ghost use Rattle.forms.specs.Finding.{head_at, item_in};
ghost use Rattle.forms.specs.Mends.{FitsOne, all_of};
ghost use Rattle.forms.specs.code.Trials.{IsFaultIn, IsFoundIn};

use crate::list::{item_of_text, text_told};
use crate::mend::{Trial, push_count, push_field, push_mends, push_word};
use crate::reading::{Reading, is_skipped, line_at};
use crate::reason::{Reason, Reasoned, bytes_told, name_told, number_told};
use crate::table::{about, limits, push_places};
use script_text::{Words, push_number};
use std::alloc::{AllocError, Global};
use suite_prefix::{Form, SettingsFault};
use suite_script::{
    Expected, FormEnding, Forms, LineError, LineFault, LineForm, PLAY_LINES, Place, SERVE_LINES,
    Scope, TABLE_LINES, VERBS, push_line_code, read_votes, root_of,
};

/// A word that does not fit: its number, its fault, what was expected there (of a line as a whole nothing), the form
/// that has this place or is due, and the number of the first word that may be one too many for that form.
#[derive(Clone, Copy)]
pub(crate) struct Found {
    pub(crate) number: u64,
    pub(crate) fault: Option<LineFault>,
    pub(crate) expected: Option<Expected>,
    pub(crate) form: Option<LineForm>,
    pub(crate) begin: u64,
}

/// What is printed of the line of this number, of each command behind its name.
#[tactic(auto, using(crate::proofs::Answering::of_each))]
pub(crate) fn found_of_all(alloc: Global, script: &[u8], number: u64) -> Result<Vec<u8>, AllocError>
    ensures { IfOk result (λ text. IsOfEach script.now number text.items) }
{
    let mut text = of_command(alloc, b"play", PLAY_LINES, script, number)?;
    text.extend_from_slice(&of_command(alloc, b"serve", SERVE_LINES, script, number)?)?;
    text.extend_from_slice(&of_command(alloc, b"table", TABLE_LINES, script, number)?)?;
    Ok(text)
}

/// The same of a command.
#[tactic(auto, using(crate::proofs::Answering::of_command))]
fn of_command(
    alloc: Global,
    command: &[u8],
    forms: Forms,
    script: &[u8],
    number: u64,
) -> Result<Vec<u8>, AllocError>
    ensures { IfOk result (λ text. IsOfCommand command.now script.now number text.items) }
{
    let mut text = Vec::from_slice(alloc, command)?;
    text.push(b'\t')?;
    text.extend_from_slice(&found_in(alloc, forms, script, number)?)?;
    Ok(text)
}

/// What is printed of the line of this number.
pub(crate) fn found_in(
    alloc: Global,
    forms: Forms,
    script: &[u8],
    number: u64,
) -> Result<Vec<u8>, AllocError>
    ensures { IfOk result (λ text. IsOfLine forms script.now number text.items) }
{
    let (reading, above) = Reading::of_above(alloc, forms, script, number)?;
    let line = line_at(script, number);
    let reading = &reading;
    let trial = Trial { reading, line };
    let found = found_of(trial)?;
    let mut text = head_at(alloc, found.number, found.fault)?;
    let rest = rest_of(trial, with_form(trial, found), above)?;
    text.extend_from_slice(&rest)?;
    Ok(text)
}

/// Whether a line has no fault where it stands next.
#[tactic(auto, using(crate::proofs::Answering::fits_one))]
pub(crate) fn fits(reading: &Reading<'_>, line: &[u8]) -> Result<bool, AllocError>
    ensures { IfOk result (λ does. IsTrue does → FitsOne reading.now.scope (all_of reading.now.forms) (words line.now)) }
{
    let found = found_of(Trial { reading, line })?;
    Ok(!is_skipped(line) && found.fault.is_none())
}

/// What is found of a line. Where it says nothing, or there is none, a line of the header may be due behind the last.
fn found_of(trial: Trial<'_>) -> Result<Found, AllocError>
    ensures { IfOk result (λ found. IsFoundIn trial.entry found.number found.fault) }
{
    let due = trial.reading.due();
    if is_skipped(trial.line) {
        if due.is_some() && trial.reading.is_end() {
            return Ok(of_line(1, Some(LineFault::Order), due));
        }
        return Ok(of_line(0, None, None));
    }
    let mut words = Words::new(trial.line);
    let Some(first) = words.next() else {
        return Ok(of_line(1, Some(LineFault::Form), due));
    };
    match trial.reading.standing(first) {
        Ok(form) => of_standing(trial, form, words),
        Err(fault) => Ok(of_line(1, Some(fault), due)),
    }
}

/// What is found of a line whose first word stands in its place: it may stand there once, or ask for what cannot be.
fn of_standing(trial: Trial<'_>, form: LineForm, words: Words<'_>) -> Result<Found, AllocError>
    requires { Contains (all_of trial.reading.now.forms) form }
    ensures { IfOk result (λ found. IsFaultIn trial.entry (form.word.now ∷ words.entry) found.number found.fault) }
{
    if form.word == b"together".as_slice() && trial.reading.line_of(form.word).is_some() {
        return Ok(of_line(1, Some(LineFault::Form), None));
    }
    let found = of_form(trial, form, words)?;
    if form.word == b"old".as_slice() && found.fault.is_none() && !is_held(trial)? {
        let fault = LineFault::Settings(SettingsFault::OldTooLarge);
        return Ok(of_line(2, Some(fault), None));
    }
    Ok(found)
}

/// Whether form 1 holds the root folder of the lines above, which have no fault.
fn is_held(trial: Trial<'_>) -> Result<bool, AllocError> {
    let root = trial.reading.line_of(b"root");
    let votes = trial.reading.line_of(b"votes");
    let (Some(mut root), Some(mut votes)) = (root, votes) else {
        return Ok(true);
    };
    let servers = usize::from(trial.reading.scope.last_server).saturating_add(1);
    let votes = read_votes(servers, votes.next().unwrap_or(b""));
    match (root_of(trial.reading.alloc, &mut root), votes) {
        (Ok(root), Ok(votes)) => Ok(Form::One.holds(&root.acl, &votes)),
        (Err(LineError::Memory), _) => Err(AllocError),
        _ => Ok(true),
    }
}

/// What is found of a line of a form: the first word that does not fit, if there is one.
fn of_form(trial: Trial<'_>, form: LineForm, words: Words<'_>) -> Result<Found, AllocError>
    ensures { IfOk result (λ found. IsAt (line_misfit trial.entry.reading.now.scope form.places.now form.ending words.entry) found.number found.fault) }
{
    let found = of_line(0, None, Some(form));
    let reading = trial.reading;
    match reading.scope.misfit(reading.alloc, form, words)? {
        Some(misfit) => Ok(Found {
            number: misfit.number,
            fault: Some(misfit.fault),
            expected: Some(misfit.expected),
            ..found
        }),
        None => Ok(found),
    }
}

/// What is found of a line as a whole: nothing, or a fault of its word of this number.
fn of_line(number: u64, fault: Option<LineFault>, form: Option<LineForm>) -> Found
    ensures number { result.number ≡ number }
    ensures fault { result.fault ≡ fault }
{
    Found {
        number,
        fault,
        expected: None,
        form,
        begin: 1,
    }
}

/// What is found of a word in an operation, with the form of that. Where an operation is due the line has the place, and
/// of words before it the semicolon alone, or those of the line, may be too many.
fn with_form(trial: Trial<'_>, found: Found) -> Found {
    let (Some(line), Some(_)) = (found.form, found.expected) else {
        return found;
    };
    if line.ending != FormEnding::Operations {
        return found;
    }
    let mut begin = 1;
    let mut verb = (line.places.len() as u64).saturating_add(2);
    for (number, word) in (1..found.number).zip(Words::new(trial.line)) {
        if word == b";".as_slice() {
            begin = number;
            verb = number.saturating_add(1);
        }
    }
    let word = trial.word(verb);
    let mut forms = VERBS.iter().map(|verb| verb.form());
    match forms.find(|form| word == form.word) {
        Some(form) if verb < found.number => Found {
            form: Some(form),
            begin: verb,
            ..found
        },
        _ => Found { begin, ..found },
    }
}

/// What is printed first: the number of the word that does not fit, and the code of its fault.
fn head_at(alloc: Global, number: u64, fault: Option<LineFault>) -> Result<Vec<u8>, AllocError>
    ensures { IfOk result (λ text. text.items ≡ head_at number fault) }
{
    let Some(fault) = fault else {
        return Vec::from_slice(alloc, b"-\t-\t");
    };
    let mut text = Vec::new(alloc);
    push_number(&mut text, number)?;
    text.extend_from_slice(b"\t")?;
    push_line_code(&mut text, fault)?;
    text.extend_from_slice(b"\t")?;
    Ok(text)
}

/// The fields behind these: what was expected, a form, an item, what would mend the line, the first line above with a
/// fault, and the reason.
fn rest_of(trial: Trial<'_>, found: Found, above: u64) -> Result<Vec<u8>, AllocError> {
    let mut text = Vec::new(trial.reading.alloc);
    let expected: &[u8] = match (found.fault, found.expected) {
        (None, _) => b"-",
        (_, None) => b"LINE",
        (_, Some(Expected::Place(place))) => about(place)[0],
        (_, Some(Expected::Operation)) => b"OPERATION",
        (_, Some(Expected::End)) => b"END",
    };
    push_field(&mut text, expected)?;
    match found.form {
        Some(form) if form.places.is_empty() => text.extend_from_slice(form.word)?,
        Some(form) => {
            push_word(&mut text, form.word)?;
            push_places(&mut text, form)?;
        }
        None => text.push(b'-')?,
    }
    text.push(b'\t')?;
    let word = trial.word(found.number);
    let item = found.fault.and_then(|fault| item_in(word, fault));
    push_count(&mut text, item.map(|item| item as u64))?;
    push_mends(&mut text, trial, found)?;
    push_count(&mut text, Some(above))?;
    told_of(&trial.reading.scope, found, word).push(&mut text)?;
    text.push(b'\n')?;
    Ok(text)
}

/// Why a word does not fit.
fn told_of<'a>(scope: &Scope, found: Found, word: &'a [u8]) -> Reasoned<'a> {
    match (found.expected, found.fault) {
        (_, Some(LineFault::List(fault))) => text_told(word, fault),
        (_, Some(LineFault::BadName)) => name_told(word),
        (Some(Expected::Place(Place::Contents)), _) => bytes_told(word),
        (Some(Expected::Place(place)), _) => match limits(scope, place) {
            Some((least, most)) => number_told(word, least, most),
            None => Reasoned::of(Reason::Due, word),
        },
        _ => Reasoned::of(Reason::Due, word),
    }
}

/// Where the item of a list begins of which a fault speaks.
fn item_in(word: &[u8], fault: LineFault) -> Option<usize>
    ensures { result ≡ item_in word.now fault }
{
    match fault {
        LineFault::List(fault) => item_of_text(word, fault),
        _ => None,
    }
}
