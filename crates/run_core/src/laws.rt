//! What holds of every run.

ghost use Rattle.run_core.specs.Laws.{RunsGoOn};
ghost use Rattle.run_core.specs.Senses.{NothingComes};
ghost use Rattle.run_core.specs.WorkedRuns.{WorkedRuns};

/// A law: a run goes on from where it was. It does nothing.
pub fn runs_go_on()
    ensures { RunsGoOn }
{}

/// A law: an event without sense changes nothing, nothing is served in it, and no job ends. Of a forget it is said
/// where agents keep nothing for sites that are not there. It does nothing.
pub fn nothing_comes()
    ensures { NothingComes }
{}

/// A law: how runs of two agents end that are worked by hand, with their decisions and tables. It does
/// nothing.
pub fn worked_runs()
    ensures { WorkedRuns }
{}
