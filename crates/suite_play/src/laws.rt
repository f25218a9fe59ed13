//! What holds of the definitions of `play`.

ghost use Rattle.suite_play.specs.Laws.{RunIsUntilIdle};
ghost use Rattle.suite_play.specs.Promised.{LinesAreEvents};

/// A law: `run` is steps until the agent has no job. Where it has none after so many steps, `run` is these
/// steps and no more. It does nothing.
pub fn run_is_until_idle()
    ensures { RunIsUntilIdle }
{}

/// A law: a line makes of a world what its events make of it, and prints the jobs that end in them. It does nothing.
pub fn lines_are_events()
    ensures { LinesAreEvents }
{}
