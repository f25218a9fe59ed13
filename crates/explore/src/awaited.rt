//! What a line waits for: `after 0.1`, or `after 0.1 answered`, before its other words.

ghost use Rattle.std.specs.Prelude.{◌≡◌};
ghost use Rattle.suite_script.specs.Readings.{Reads};
ghost use Rattle.explore.specs.Awaiting.{asks_answer, awaited_in, begin_words, is_after, is_answered, job_in, waits, without_answered};

use script_text::{Numbers, Words};
use suite_script::{LineError, LineFault};

/// A job, by its agent and its number as ways tell it, and whether it must be answered.
#[derive(Clone, Copy, Drop)]
pub(crate) struct Awaited {
    pub(crate) agent: u8,
    pub(crate) job: u32,
    pub(crate) answered: bool,
}

/// Whether a line that begins with this word waits.
pub(crate) fn is_after(word: &[u8]) -> bool
    ensures { result ≡ is_after word.now }
{
    word == b"after".as_slice()
}

/// Whether a word asks for an answer.
fn is_answered(word: &[u8]) -> bool
    ensures { result ≡ is_answered word.now }
{
    word == b"answered".as_slice()
}

/// What the words behind `after` say, up to those of the job that waits.
pub(crate) fn read_awaited(words: &mut Words<'_>) -> Result<Awaited, LineError>
    ensures { Reads result words.new (awaited_in words.old) }
{
    let Some(place) = words.next() else {
        return Err(LineError::Faulty(LineFault::Form));
    };
    let Some((agent, job)) = job_in(place) else {
        return Err(LineError::Faulty(LineFault::Form));
    };
    let answered = pass_answered(words);
    Ok(Awaited {
        agent,
        job,
        answered,
    })
}

/// The agent and the number of a job, as `0.1`.
fn job_in(word: &[u8]) -> Option<(u8, u32)>
    ensures { result ≡ job_in word.now }
{
    let mut numbers = Numbers::new(word, b'.', u32::MAX);
    let Some(Some(agent)) = numbers.next() else {
        return None;
    };
    let Some(Some(job)) = numbers.next() else {
        return None;
    };
    if agent > 255 || numbers.next().is_some() {
        return None;
    }
    Some((agent as u8, job))
}

/// Passes by the word `answered`, and tells whether it was there.
fn pass_answered(words: &mut Words<'_>) -> bool
    ensures asks { result ≡ asks_answer words.old }
    ensures rest { words.new ≡ without_answered words.old }
{
    let rest = words.rest();
    match words.next() {
        Some(word) if is_answered(word) => true,
        Some(_) => {
            *words = Words::new(rest);
            false
        }
        None => false,
    }
}

/// Whether a line waits.
pub(crate) fn waits(line: &[u8]) -> bool
    ensures { result ≡ waits line.now }
{
    match Words::new(line).next() {
        Some(first) => is_after(first),
        None => false,
    }
}

/// The words of a line without those that say what it waits for.
pub(crate) fn begin_words(line: &[u8]) -> Words<'_>
    ensures { result ≡ begin_words line.now }
{
    let mut words = Words::new(line);
    if !waits(line) {
        return words;
    }
    words.next();
    words.next();
    pass_answered(&mut words);
    words
}
