//! What holds of every server, whatever it was asked.

ghost use Rattle.rep_core.specs.ValidCopies.{CopiesAreValid, SomeCopyIsChanged};
ghost use Rattle.rep_core.specs.Laws.{ConsistencyIsKept, ExclusiveStandsAlone, LocksRise, BusyNamesTheLeast, PreparedStands, IntentionsHaveLocks, VerdictsAreWrittenOnce, StoresAreSound, SuitesAreFew, SomeServerStands};
ghost use Rattle.rep_core.specs.Steps.{PreparedByPrepare, QuietRepliesChangeNothing};
ghost use Rattle.rep_core.specs.Again.{AgainAtOnce, AgainLater};

/// A law: a server opens consistent, and stays so whatever it is asked: its locks and its copies stand
/// in their orders, exclusive locks stand alone, each intention stands beside its transaction's prepared
/// exclusive lock, the copies are sound, and there are not too many. It does nothing.
pub fn consistency_is_kept()
    ensures { ConsistencyIsKept }
{}

/// A law: at no server that was opened, whatever it was asked, does an exclusive lock stand beside
/// another transaction's lock on the suite. It does nothing.
pub fn exclusive_stands_alone()
    ensures { ExclusiveStandsAlone }
{}

/// A law: the locks of every server that was opened rise by transaction, and in one transaction by
/// suite; so a transaction has one lock on a suite at most. It does nothing.
pub fn locks_rise()
    ensures { LocksRise }
{}

/// A law: Busy names the least holder in the way: its lock stands there and conflicts with the one that
/// is asked for, and no transaction with a smaller number has a lock that does. It does nothing.
pub fn busy_names_the_least()
    ensures { BusyNamesTheLeast }
{}

/// A law: at every server that was opened a prepared lock stays until a Finish of its transaction is
/// served there while the server is up. One that is answered Down, or is not served since the server is
/// full, ends nothing. It does nothing.
pub fn prepared_stands()
    ensures { PreparedStands }
{}

/// A law: at every server that was opened each intention stands beside its transaction's prepared
/// exclusive lock on the suite, and a suite has one intention at most. It does nothing.
pub fn intentions_have_locks()
    ensures { IntentionsHaveLocks }
{}

/// A law: a verdict is written once. What is recorded of a transaction stays, only a Decide or a Resolve
/// of it records, and what they are answered is the record. It does nothing.
pub fn verdicts_are_written_once()
    ensures { VerdictsAreWrittenOnce }
{}

/// A law: at every server that was opened each copy is a valid one with versions that are not used up,
/// and so is what each intention leaves of it. It does nothing.
pub fn stores_are_sound()
    ensures { StoresAreSound }
{}

/// A law: where the settings and the requests fit their types, every copy that a server has, that is in
/// effect there, or of which it tells, is a valid copy. That they fit is a law of each of them
/// ([`crate::settings_fit`], [`crate::Request::takes_fit`]). It does nothing.
pub fn copies_are_valid()
    ensures { CopiesAreValid }
{}

/// A law: no server that was opened has a copy or an intention of more suites than
/// [`crate::MAX_SUITES`]. It does nothing.
pub fn suites_are_few()
    ensures { SuitesAreFew }
{}

/// A law: a lock becomes prepared by a Prepare of its transaction only. It does nothing.
pub fn prepared_by_prepare()
    ensures { PreparedByPrepare }
{}

/// A law: a server that answers Busy, Lost, Given, Locked or Down stays as it was, but for its stamp. It
/// does nothing.
pub fn quiet_replies_change_nothing()
    ensures { QuietRepliesChangeNothing }
{}

/// A law: a request that is served again at once, as one that was sent again since its reply was lost, changes
/// nothing but the stamp, and is answered the same; but a Crash, since the server is down. It does nothing.
pub fn again_at_once()
    ensures { AgainAtOnce }
{}

/// A law: so it is later, where the server is up then, whatever was asked in between, of a Decide or a Resolve that was
/// told a verdict; of a Prepare that was told Prepared, until its transaction is finished there; of a Finish, until its
/// transaction polls there; and of a Poll or an Upgrade that was told Held, and a Fetch that was given a content, until
/// a lock of its transaction is taken there. It does nothing.
pub fn again_later()
    ensures { AgainLater }
{}

/// A law: there is a copy that a transaction changed, at a server whose settings and requests fit their
/// types, so that the law of valid copies says something. It does nothing.
pub fn some_copy_is_changed()
    ensures { SomeCopyIsChanged }
{}

/// A law: there are servers with such locks, so that the laws above say something. It does nothing.
pub fn some_server_stands()
    ensures { SomeServerStands }
{}
