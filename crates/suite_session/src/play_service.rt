//! What the lines of a session are carried out on: a header so far, or a world below it.

ghost use Rattle.std.specs.Prelude.{◌≡◌};
ghost use Rattle.suite_script.specs.Readings.{Gives};
ghost use Rattle.suite_session.specs.Services.{head_of};

use crate::heading::Heading;
use crate::open_service::OpenService;
use crate::question::{Question, tell};
use acl_text::Names;
use script_desk::ScriptService;
use script_text::Words;
use std::alloc::{AllocError, Global};
use suite_play::{Command, Places};
use suite_script::{Language, LineError, LineFault};

/// What the lines of a session are carried out on.
#[derive(Drop)]
pub enum PlayService {
    /// A header so far.
    Heading(Heading),
    /// A world below a header.
    Open(OpenService),
}

impl PlayService {
    /// What a line of the header leaves, from its first word and the words after that.
    fn headed(
        &self,
        alloc: Global,
        first: &[u8],
        words: Words<'_>,
    ) -> Result<PlayService, LineError>
        ensures { Gives result (head_of self.now first.now words.entry) }
    {
        match self {
            PlayService::Heading(heading) => heading.read(alloc, first, words),
            PlayService::Open(open) => open.reopened(alloc, words),
        }
    }
}

impl Language for PlayService {
    ghost use Rattle.suite_play.specs.Commands.{is_command};
    ghost use Rattle.suite_play.specs.Headers.{is_known};
    ghost use Rattle.suite_session.specs.Services.{own_of};

    type Own = Command;

    ghost is_known = { is_known };

    ghost begins = { is_command };

    ghost own = { own_of };

    fn is_known(word: &[u8]) -> bool {
        <Places as Language>::is_known(word)
    }

    fn begins(word: &[u8]) -> bool {
        <Places as Language>::begins(word)
    }

    fn read(
        &self,
        alloc: Global,
        names: &Names,
        first: &[u8],
        words: Words<'_>,
    ) -> Result<Command, LineError> {
        match self {
            PlayService::Heading(_) => Err(LineError::Faulty(LineFault::Order)),
            PlayService::Open(open) => open.places.read(alloc, names, first, words),
        }
    }
}

impl ScriptService for PlayService {
    ghost use Rattle.suite_session.specs.Services.{after_of, asks, head_of, heads, line_of, settled, told, Stops};

    ghost heads = { heads };

    ghost head = { head_of };

    ghost asks = { asks };

    ghost told = { told };

    ghost line = { line_of };

    ghost after = { after_of };

    ghost Stops = { Stops };

    ghost settled = { settled };

    fn heads(&self, first: &[u8]) -> bool {
        match self {
            PlayService::Heading(_) => true,
            PlayService::Open(open) => open.is_fresh && first == b"old".as_slice(),
        }
    }

    fn head(&mut self, alloc: Global, first: &[u8], words: Words<'_>) -> Result<(), LineError> {
        let next = self.headed(alloc, first, words)?;
        *self = next;
        Ok(())
    }

    fn judge_head(&self, alloc: Global, first: &[u8], words: Words<'_>) -> Result<(), LineError> {
        let _next = self.headed(alloc, first, words)?;
        Ok(())
    }

    fn asks(first: &[u8]) -> bool {
        Question::of(first).is_some()
    }

    fn tell(
        &self,
        alloc: Global,
        first: &[u8],
        words: Words<'_>,
        text: &mut Vec<u8>,
    ) -> Result<(), LineError> {
        match self {
            PlayService::Heading(_) => Err(LineError::Faulty(LineFault::Order)),
            PlayService::Open(open) => tell(alloc, open, first, words, text),
        }
    }

    fn play(&mut self, alloc: Global, own: &Command, text: &mut Vec<u8>) -> Result<(), AllocError> {
        match self {
            PlayService::Heading(_) => Ok(()),
            PlayService::Open(open) => open.play(alloc, own, text),
        }
    }

    fn settle(&mut self) {
        match self {
            PlayService::Heading(_) => (),
            PlayService::Open(open) => open.is_fresh = false,
        }
    }
}
