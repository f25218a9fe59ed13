//! The header of a script of jobs.

ghost use Rattle.std.specs.Prelude.{◌≤◌};
ghost use Rattle.suite_script.specs.Progress.{Heads};
ghost use Rattle.suite_serve.specs.Scripts.{header};

use crate::language::JobLines;
use std::alloc::Global;
use suite_play::{read_opening, read_servers};
use suite_prefix::{MAX_AGENTS, Settings};
use suite_script::{ScriptError, ScriptReader};

/// The header of a script that so many agents carry out: it has no line for them.
pub(crate) fn read_header(
    alloc: Global,
    script: &mut ScriptReader<'_>,
    agents: usize,
) -> Result<Settings, ScriptError>
    requires { (1 ≤ agents) × (agents ≤ MAX_AGENTS) }
    ensures { Heads result script.new (header agents script.old) }
{
    let servers = read_servers::<JobLines>(script)?;
    read_opening::<JobLines>(alloc, script, servers, agents)
}
