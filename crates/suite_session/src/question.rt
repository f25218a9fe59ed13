//! Lines that ask, and change nothing.

ghost use Rattle.std.specs.Prelude.{◌≡◌, ◌++◌, Err, MatchResult, Ok, OnOk};
ghost use Rattle.script_desk.specs.Outcomes.{Tells};
ghost use Rattle.suite_session.specs.Questions.{answer_in, path_in, question_in, question_text, shown_line, told_of};

use crate::copies::push_copies;
use crate::held_locks::push_locks;
use crate::open_service::OpenService;
use crate::places::push_room;
use crate::shown::{push_content_line, push_row, standing_at};
use script_text::Words;
use std::alloc::{AllocError, Global};
use suite_script::{LineError, LineFault, at_end, next_word};

/// What a line asks for.
#[derive(Clone, Copy)]
pub(crate) enum Question {
    /// What stands at a path.
    Row,
    /// The bytes of the file at a path.
    Content,
    /// What each server has of what stands at a path.
    Copies,
    /// The locks at each server.
    Locks,
    /// How many places of each server are taken.
    Room,
}

impl Question {
    /// What a line asks for that begins so.
    pub(crate) fn of(word: &[u8]) -> Option<Question>
        ensures { result ≡ question_in word.now }
    {
        match word {
            b"row" => Some(Question::Row),
            b"content" => Some(Question::Content),
            b"copies" => Some(Question::Copies),
            b"locks" => Some(Question::Locks),
            b"room" => Some(Question::Room),
            _ => None,
        }
    }

    /// Adds the answer to the text, where the words after the first are right.
    fn push(
        self,
        alloc: Global,
        service: &OpenService,
        words: &mut Words<'_>,
        text: &mut Vec<u8>,
    ) -> Result<(), LineError>
        ensures { Tells result text.old.items text.new.items (answer_in service.now self words.old) }
    {
        match self {
            Question::Row | Question::Content | Question::Copies => {
                let path = path_in(words)?;
                self.push_of(alloc, service, path, text)?;
                Ok(())
            }
            Question::Locks | Question::Room => {
                at_end(words)?;
                self.push_of(alloc, service, b"", text)?;
                Ok(())
            }
        }
    }

    /// Adds the answer to the text.
    fn push_of(
        self,
        alloc: Global,
        service: &OpenService,
        path: &[u8],
        text: &mut Vec<u8>,
    ) -> Result<(), AllocError>
        ensures { OnOk result (text.new.items ≡ text.old.items ++ question_text service.now self path.now) }
    {
        match self {
            Question::Row | Question::Content => self.push_shown(alloc, service, path, text),
            Question::Copies => push_copies(alloc, service, path, text),
            Question::Locks => push_locks(text, service),
            Question::Room => push_room(alloc, service, text),
        }
    }

    /// Adds what stands at a path, or else the bytes of the file there.
    fn push_shown(
        self,
        alloc: Global,
        service: &OpenService,
        path: &[u8],
        text: &mut Vec<u8>,
    ) -> Result<(), AllocError>
        ensures { OnOk result (text.new.items ≡ text.old.items ++ shown_line service.now self path.now) }
    {
        let shown = standing_at(alloc, service, path)?;
        match self {
            Question::Row => push_row(text, path, &shown),
            _ => push_content_line(alloc, text, path, &shown),
        }
    }
}

/// The path that a line names, which is all that is left.
fn path_in<'a>(words: &mut Words<'a>) -> Result<&'a [u8], LineFault>
    ensures { MatchResult result (λ path. path_in words.old ≡ Ok path.now) (λ fault. path_in words.old ≡ Err fault) }
{
    let path = next_word(words)?;
    at_end(words)?;
    Ok(path)
}

/// Answers a line that asks, from its first word and the words after that, and adds the answer to the text.
pub(crate) fn tell(
    alloc: Global,
    service: &OpenService,
    first: &[u8],
    mut words: Words<'_>,
    text: &mut Vec<u8>,
) -> Result<(), LineError>
    ensures { Tells result text.old.items text.new.items (told_of service.now first.now words.entry) }
{
    let Some(question) = Question::of(first) else {
        return Err(LineError::Faulty(LineFault::Form));
    };
    question.push(alloc, service, &mut words, text)
}
