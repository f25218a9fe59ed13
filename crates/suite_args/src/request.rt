//! What a command line can ask for.

ghost use Rattle.std.specs.Prelude.{◌≡◌, IfOk, Some, map};
ghost use Rattle.suite_args.specs.Texts.{text_of};
ghost use Rattle.suite_args.specs.declared.request.ArgsError.TheVariants.{Memory};

use crate::script::Script;
use std::alloc::{AllocError, AllocFailed, Global};
use std::fmt;
use std::marker::Model;

/// What the words ask for.
#[derive(Debug, Drop)]
pub enum Invocation<'a> {
    /// `suites acl [NAME]...`: print the list that standard input spells, under these names.
    Acl(NameWords<'a>),
    /// Play the script that standard input has.
    Plays(Script),
    /// `suites serve --agents N`: have the jobs of the script that standard input has carried out by so many agents, 1 to 64.
    Serve(u8),
    /// Print this text.
    Help(HelpText),
}

/// Why words ask for nothing.
#[derive(Clone, Copy, PartialEq, Eq, Debug)]
pub enum ArgsError {
    /// They are no command line of this program.
    CommandLine,
    /// Memory ran out.
    Memory,
}

impl fmt::Display for ArgsError {
    ghost output = { λ error. Some (text_of error) };

    fn fmt<W: fmt::Write>(&self, f: &mut fmt::Formatter<W>) -> fmt::Result {
        match self {
            ArgsError::CommandLine => f.write_str("no command line of this program"),
            ArgsError::Memory => f.write_str("out of memory"),
        }
    }
}

impl std::error::Error for ArgsError {}

impl<T: Drop> From<AllocFailed<T>> for ArgsError {
    ghost from_gives = { λ _ e. e ≡ Memory };

    fn from(_error: AllocFailed<T>) -> ArgsError {
        ArgsError::Memory
    }
}

impl From<AllocError> for ArgsError {
    ghost from_gives = { λ _ e. e ≡ Memory };

    fn from(_error: AllocError) -> ArgsError {
        ArgsError::Memory
    }
}

/// The words after `acl`, each meant as a name with its number: `user:lisa=1001`.
#[derive(Debug, Drop)]
pub struct NameWords<'a> {
    words: Vec<&'a str>,
}

impl<'a> Model for NameWords<'a> {
    ghost use Rattle.std.specs.Prelude.{List, ℕ, map};

    ghost Value = { List (List ℕ) };

    ghost view = { λ names. map (λ w. w.now) names.words.items };
}

impl<'a> NameWords<'a> {
    pub(crate) fn new(alloc: Global, words: &[&'a str]) -> Result<NameWords<'a>, AllocError>
        ensures { IfOk result (λ names. names ≡ map (λ w. w.now) words.now) }
    {
        Ok(NameWords {
            words: Vec::from_slice(alloc, words)?,
        })
    }

    /// The words, in the order in which they were given.
    pub fn as_slice(&self) -> &[&'a str]
        ensures { map (λ w. w.now) result.now ≡ self.now }
    {
        self.words.as_slice()
    }
}

/// A text on how to use the program.
#[derive(Debug, Drop)]
pub struct HelpText {
    text: String,
}

impl Model for HelpText {
    ghost use Rattle.std.specs.Prelude.{List, ℕ, string_bytes};

    ghost Value = { List ℕ };

    ghost view = { λ help. string_bytes help.text };
}

impl HelpText {
    pub(crate) fn new(text: String) -> HelpText {
        HelpText { text }
    }

    /// The text, which ends with a line feed.
    pub fn as_str(&self) -> &str
        ensures { result.now ≡ self.now }
    {
        self.text.as_str()
    }
}
