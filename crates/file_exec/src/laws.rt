//! What holds of the executor.

ghost use Rattle.file_exec.specs.Known.{GoesAsOnTheTable, IsTheTransaction, SetsWhatIsHeld, NeedsWhatIsUnmet};
ghost use Rattle.file_exec.specs.Laws.{DoneIsTheTables, ChangesBySuite, ChangesAreHeld, UnsetVotesStay, ChangesLeadOn, MoreKnownChangesNothing};
ghost use Rattle.file_exec.specs.Laws.{AMetNeedIsProgress, OpeningMeets};
ghost use Rattle.file_exec.specs.Licensed.{EditsAreLicensed};
ghost use Rattle.file_exec.specs.Reaching.{UnbegunIsReached, ReachedStays, TakingTellsMore};
ghost use Rattle.file_exec.specs.Runs.{ExecRuns};

/// A law: on what is known of any table the executor goes as on the table. It does nothing.
pub fn goes_as_on_the_table()
    ensures { GoesAsOnTheTable }
{}

/// A law: on a table the course of a transaction is the transaction. It does nothing.
pub fn is_the_transaction()
    ensures { IsTheTransaction }
{}

/// A law: where the executor is done, all that is set is held exclusively. It does nothing.
pub fn sets_what_is_held()
    ensures { SetsWhatIsHeld }
{}

/// A law: where the executor is done, each edit has its licence: the caller may write the file, owns what
/// it sets lists or votes of, or may change the folder. It does nothing.
pub fn edits_are_licensed()
    ensures { EditsAreLicensed }
{}

/// A law: what the executor asks for is not known. It does nothing.
pub fn needs_what_is_unmet()
    ensures { NeedsWhatIsUnmet }
{}

/// A law: the executor runs the course of the transaction. It does nothing.
pub fn exec_runs()
    ensures { ExecRuns }
{}

/// A law: where the executor is done, the table's own transaction ends so. It does nothing.
pub fn done_is_the_tables()
    ensures { DoneIsTheTables }
{}

/// A law: the changes have each suite that was set of, once, with all that was set of it. It does
/// nothing.
pub fn changes_by_suite()
    ensures { ChangesBySuite }
{}

/// A law: each suite that is changed is held exclusively. It does nothing.
pub fn changes_are_held()
    ensures { ChangesAreHeld }
{}

/// A law: a change that sets no votes tells those that were known. It does nothing.
pub fn unset_votes_stay()
    ensures { UnsetVotesStay }
{}

/// A law: the changes that are answered lead from the table's rows to those after the transaction: what
/// is not told as set is as before, and where the content or the votes were set the row is the table's,
/// content and all. It does nothing.
pub fn changes_lead_on()
    ensures { ChangesLeadOn }
{}

/// A law: knowing more changes nothing of what was done. It does nothing.
pub fn more_known_changes_nothing()
    ensures { MoreKnownChangesNothing }
{}

/// A law: each need that is met leaves fewer unmet, on any rows that what was known agrees with. It does
/// nothing.
pub fn a_met_need_is_progress()
    ensures { AMetNeedIsProgress }
{}

/// A law: to open a suite meets the need, and tells more. It does nothing.
pub fn opening_meets()
    ensures { OpeningMeets }
{}

/// A law: a transaction of which nothing was done yet came so far on whatever is known. It does nothing.
pub fn unbegun_is_reached()
    ensures { UnbegunIsReached }
{}

/// A law: what a transaction reached stays so, once more is known. It does nothing.
pub fn reached_stays()
    ensures { ReachedStays }
{}

/// A law: to open a suite with a content that it takes tells more. It does nothing.
pub fn taking_tells_more()
    ensures { TakingTellsMore }
{}
