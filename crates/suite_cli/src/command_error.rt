//! Why a command ended before its work was done.

ghost use Rattle.std.specs.Prelude.{◌≡◌};
ghost use Rattle.suite_cli.specs.code.Errors.{of_args, of_play, of_read, of_script, of_text};
ghost use Rattle.suite_cli.specs.declared.command_error.CommandError.TheVariants.{Memory, Stream};

use acl_text::TextFault;
use byte_streams::{ReadError, WriteFailed};
use std::alloc::AllocError;
use suite_args::ArgsError;
use suite_script::{PlayError, ScriptError, ScriptFault};

/// Why a command ended before its work was done.
#[derive(Clone, Copy)]
pub(crate) enum CommandError {
    /// The words ask for nothing.
    CommandLine,
    /// A word of `acl` is no name with its number, or its name is taken; by its place from 1.
    BadWord(u64),
    /// A script is faulty, and this is its first faulty line.
    Script(ScriptFault),
    /// The text of a list is faulty.
    List(TextFault),
    /// Memory ran out.
    Memory,
    /// A stream failed, or the input is above its limit.
    Stream,
}

impl From<ArgsError> for CommandError {
    ghost from_gives = { λ error e. e ≡ of_args error };

    fn from(error: ArgsError) -> CommandError {
        match error {
            ArgsError::CommandLine => CommandError::CommandLine,
            ArgsError::Memory => CommandError::Memory,
        }
    }
}

impl From<ReadError> for CommandError {
    ghost from_gives = { λ error e. e ≡ of_read error };

    fn from(error: ReadError) -> CommandError {
        match error {
            ReadError::Memory => CommandError::Memory,
            ReadError::Failed | ReadError::TooLong => CommandError::Stream,
        }
    }
}

impl From<PlayError> for CommandError {
    ghost from_gives = { λ error e. e ≡ of_play error };

    fn from(error: PlayError) -> CommandError {
        match error {
            PlayError::Faulty(fault) => CommandError::Script(fault),
            PlayError::WriteFailed => CommandError::Stream,
            PlayError::Memory => CommandError::Memory,
        }
    }
}

impl From<ScriptError> for CommandError {
    ghost from_gives = { λ error e. e ≡ of_script error };

    fn from(error: ScriptError) -> CommandError {
        match error {
            ScriptError::Faulty(fault) => CommandError::Script(fault),
            ScriptError::Memory => CommandError::Memory,
        }
    }
}

impl From<TextFault> for CommandError {
    ghost from_gives = { λ fault e. e ≡ of_text fault };

    fn from(fault: TextFault) -> CommandError {
        match fault {
            TextFault::Memory => CommandError::Memory,
            _ => CommandError::List(fault),
        }
    }
}

impl From<WriteFailed> for CommandError {
    ghost from_gives = { λ _ e. e ≡ Stream };

    fn from(_error: WriteFailed) -> CommandError {
        CommandError::Stream
    }
}

impl From<AllocError> for CommandError {
    ghost from_gives = { λ _ e. e ≡ Memory };

    fn from(_error: AllocError) -> CommandError {
        CommandError::Memory
    }
}
