//! What holds of every agent that began a job, whatever it is told.

ghost use Rattle.txn_core.specs.Undecided.{EndsAreCaused};
ghost use Rattle.txn_core.specs.Caching.{CachesWhatWasFetched, KnowsContents};
ghost use Rattle.txn_core.specs.Moves.{EveryResponseIsMoves};
ghost use Rattle.txn_core.specs.Runs.{WorkedRuns};
ghost use Rattle.txn_core.specs.Laws.{NobodyIsPolledTwice, DecideIsSentOnce, NothingFollowsAnEnd, PrepareListsTheLocks, APrepareRises, AllPrepareFirst, FinishCarriesTheVerdict, WhatIsWrittenIsFixed, DecidesOnQuorums, LateStepsAreFew, EndsInTime, SweepEndsInTime};

/// A law: whatever a transaction does as it begins, or with a response, is moves. It does nothing.
pub fn every_response_is_moves()
    ensures { EveryResponseIsMoves }
{}

/// A law: Decide is sent once at most. It does nothing.
pub fn decide_is_sent_once()
    ensures { DecideIsSentOnce }
{}

/// A law: each Finish carries what the home said, and Aborted where it said nothing. It does nothing.
pub fn finish_carries_the_verdict()
    ensures { FinishCarriesTheVerdict }
{}

/// A law: each Prepare lists the suites on which its server was heard to hold a lock, and no others. It
/// does nothing.
pub fn prepare_lists_the_locks()
    ensures { PrepareListsTheLocks }
{}

/// A law: the suites of a Prepare rise. It does nothing.
pub fn a_prepare_rises()
    ensures { APrepareRises }
{}

/// A law: after a cause was met, or the home has said how it ended, nothing is prepared or decided any
/// more. It does nothing.
pub fn nothing_follows_an_end()
    ensures { NothingFollowsAnEnd }
{}

/// A law: no server is polled twice for a suite. It does nothing.
pub fn nobody_is_polled_twice()
    ensures { NobodyIsPolledTwice }
{}

/// A law: a decision is asked for once each server that was heard to hold a lock has prepared. It does
/// nothing.
pub fn all_prepare_first()
    ensures { AllPrepareFirst }
{}

/// A law: what is to be written is fixed before the first Prepare. It does nothing.
pub fn what_is_written_is_fixed()
    ensures { WhatIsWrittenIsFixed }
{}

/// A law: where a decision is asked for, each suite that was gathered has a quorum of its mode, and a
/// changed one a write quorum. It does nothing.
pub fn decides_on_quorums()
    ensures { DecidesOnQuorums }
{}

/// A law: a transaction or a sweep that ends undecided was told the cause that it names. It does nothing.
pub fn ends_are_caused()
    ensures { EndsAreCaused }
{}

/// A law: a transaction is prepared, decided and told in two steps a server and one more at most. It does
/// nothing.
pub fn late_steps_are_few()
    ensures { LateStepsAreFew }
{}

/// A law: what the cache keeps after a response was there before, but for an entry with the content that the
/// word told: it has the prefix and the version that the suite's first quorum gave, so never a prefix that
/// the transaction itself changes. Of a site that is forgotten nothing is left. It does nothing.
pub fn caches_what_was_fetched()
    ensures { CachesWhatWasFetched }
{}

/// A law: the content that a transaction knows of a suite is at the version that the suite's first quorum
/// gave: the site's cache had it at that version, or the server that showed it told it, or it is the
/// empty one of what has none yet. It does nothing.
pub fn knows_contents()
    ensures { KnowsContents }
{}

/// A law: with `n` servers asked and `k` suites named a transaction takes `k*(2n + 1) + 2n + 1` steps at
/// most. It does nothing.
pub fn ends_in_time()
    ensures { EndsInTime }
{}

/// A law: a sweep takes one step, and two more at most for each lock that it was told. It does nothing.
pub fn sweep_ends_in_time()
    ensures { SweepEndsInTime }
{}

/// A law: how nine runs of an agent and servers end, and in how many steps. It does nothing.
pub fn worked_runs()
    ensures { WorkedRuns }
{}
