//! What can be wrong with a line of a script.

ghost use Rattle.std.specs.Prelude.{◌≡◌};
ghost use Rattle.suite_script.specs.declared.fault.LineError.TheVariants.{Faulty, Memory};
ghost use Rattle.suite_script.specs.Readings.{line_error_of, name_error_of};

use acl_text::{NameError, TextFault};
use std::alloc::{AllocError, AllocFailed};
use suite_prefix::SettingsFault;
use thiserror::Error;
use vote_core::VotesFault;

/// What is wrong with a line, by the first fault from its left.
#[derive(Clone, Copy, PartialEq, Eq, Debug, Error)]
pub enum LineFault {
    /// The line has none of the forms of the script's lines.
    #[error("the line is of no form that the command has, a number is out of its range, or an agent, a server or a site is not there")]
    Form,
    /// A line of the header is missing, doubled or out of place.
    #[error("a line of the header is missing, doubled or out of its place, or a name stands below the first transaction or event")]
    Order,
    /// What should name a user or a group is no name.
    #[error("this is no name")]
    BadName,
    /// A user or a group has that name already.
    #[error("the name has a number already")]
    NameTwice,
    /// A text spells no lists.
    #[error(transparent)]
    List(TextFault),
    /// Votes are of the right form, and not valid.
    #[error("the votes are not valid: {0}")]
    Votes(VotesFault),
    /// A number of the header is refused.
    #[error(transparent)]
    Settings(SettingsFault),
}

/// Why a line was not read.
#[derive(Clone, Copy, PartialEq, Eq, Debug, Error)]
pub enum LineError {
    /// It is faulty.
    #[error(transparent)]
    Faulty(LineFault),
    /// Memory ran out.
    #[error("out of memory")]
    Memory,
}

/// A faulty line of a script, by its number from 1.
#[derive(Clone, Copy, PartialEq, Eq, Debug, Error)]
#[error("line {line}: {fault}")]
pub struct ScriptFault {
    pub line: u64,
    pub fault: LineFault,
}

/// Why a script was not read.
#[derive(Clone, Copy, PartialEq, Eq, Debug, Error)]
pub enum ScriptError {
    /// It is faulty, and this is its first faulty line.
    #[error(transparent)]
    Faulty(ScriptFault),
    /// Memory ran out.
    #[error("out of memory")]
    Memory,
}

impl LineError {
    ghost use Rattle.suite_script.specs.Readings.{script_error_at};

    /// The error of a line, by the line's number.
    pub fn at(self, line: u64) -> ScriptError
        ensures { result ≡ script_error_at line self }
    {
        match self {
            LineError::Faulty(fault) => ScriptError::Faulty(ScriptFault { line, fault }),
            LineError::Memory => ScriptError::Memory,
        }
    }
}

impl From<AllocError> for ScriptError {
    ghost use Rattle.suite_script.specs.declared.fault.ScriptError.TheVariants.{Memory};

    ghost from_gives = { λ _ e. e ≡ Memory };

    fn from(_error: AllocError) -> ScriptError {
        ScriptError::Memory
    }
}

impl From<LineFault> for LineError {
    ghost from_gives = { λ fault e. e ≡ Faulty fault };

    fn from(fault: LineFault) -> LineError {
        LineError::Faulty(fault)
    }
}

impl From<AllocError> for LineError {
    ghost from_gives = { λ _ e. e ≡ Memory };

    fn from(_error: AllocError) -> LineError {
        LineError::Memory
    }
}

impl<T: Drop> From<AllocFailed<T>> for LineError {
    ghost from_gives = { λ _ e. e ≡ Memory };

    fn from(_error: AllocFailed<T>) -> LineError {
        LineError::Memory
    }
}

impl From<TextFault> for LineError {
    ghost from_gives = { λ fault e. e ≡ line_error_of fault };

    fn from(fault: TextFault) -> LineError {
        match fault {
            TextFault::Memory => LineError::Memory,
            _ => LineError::Faulty(LineFault::List(fault)),
        }
    }
}

impl From<NameError> for LineError {
    ghost from_gives = { λ error e. e ≡ name_error_of error };

    fn from(error: NameError) -> LineError {
        match error {
            NameError::BadName => LineError::Faulty(LineFault::BadName),
            NameError::NameTwice => LineError::Faulty(LineFault::NameTwice),
            NameError::Memory => LineError::Memory,
        }
    }
}
