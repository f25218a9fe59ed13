//! The commands that play a script.

ghost use Rattle.std.specs.Prelude.{◌<◌, ◌^◌, length};
ghost use Rattle.suite_cli.specs.Outputs.{script_output_of};
ghost use Rattle.suite_script.specs.Gathering.{Plays};

use crate::table::play_table;
use byte_streams::ByteOut;
use std::alloc::Global;
use suite_args::Script;
use suite_play::play_events;
use suite_script::PlayError;

/// Plays a script, and writes what it prints; nothing, where it has a fault.
pub(crate) fn play_script<O: ByteOut>(
    alloc: Global,
    command: Script,
    text: &[u8],
    writer: &mut O,
) -> Result<(), PlayError>
    requires { length text.now < 2 ^ 60 }
    ensures { Plays result (script_output_of command text.now) (O.written writer.old) (O.written writer.new)
        (O.failed_writes writer.old) (O.failed_writes writer.new) }
{
    match command {
        Script::Table => play_table(alloc, text, writer),
        Script::Play => play_events(alloc, text, writer),
    }
}
