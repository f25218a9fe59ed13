//! Runs in which the promise says something.

ghost use Rattle.law_headline.specs.Worked.{SomeRunRevokes, SomeRunMovesVotes, SomeRunHoldsLocks};

/// A law: a run in which a permission is taken away while a server is down, so that old copies, hints and contents
/// remain; and they are met. It does nothing.
pub fn some_run_revokes()
    ensures { SomeRunRevokes }
{}

/// A law: a run in which the votes of a file are moved to other servers, and two of the old ones crash, of which one is
/// back when the file is read. It does nothing.
pub fn some_run_moves_votes()
    ensures { SomeRunMovesVotes }
{}

/// A law: a run in which a transaction is told of a shared lock and of its upgrade, where a server crashes between that and
/// the decision. It does nothing.
pub fn some_run_holds_locks()
    ensures { SomeRunHoldsLocks }
{}
