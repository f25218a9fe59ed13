//! What is promised to a transaction that is told what it would have been told as it began, whatever others do.

ghost use Rattle.law_run_recovers.specs.Among.{AmongLocksAreToldAsBegun};
ghost use Rattle.law_run_recovers.specs.Ends.{Always, AreAnsweredAsBegun, EndInTime, HadVotesOpen};
ghost use Rattle.law_run_recovers.specs.Further.{AreDecidedWhereOpen, GatherTheirAsks};
ghost use Rattle.law_run_recovers.specs.Told.{ToldAsAtItsBegin, ToldEndByVotesAt};

/// A law: a transaction in whose way nothing comes or goes at servers that it may ask is told, until its end is fixed, what it
/// would have been told as it began: what is promised to one that is told so is promised to it. It does nothing.
pub fn among_locks_are_told_as_begun()
    ensures { AmongLocksAreToldAsBegun }
{}

/// A law: a transaction each step of which is served, until its end is fixed, by a server that is up just where it was as it
/// began, and that tells it of the same lock in its way, or shows the same prefix and version, and of which nobody takes a
/// lock, ends as the votes say that were open to it as it began, or tells whose lock was in its way. Nothing is asked of
/// servers while it does not ask them. It does nothing.
pub fn told_end_by_votes()
    ensures { Always ToldEndByVotesAt }
{}

/// A law: and it ends, within so many steps of its agent as its locks and the servers bound, also where its last steps are
/// not served. It does nothing.
pub fn told_end_in_time()
    ensures { Always (EndInTime ToldAsAtItsBegin) }
{}

/// A law: and it is decided only where its home was up as it began, and the votes of the rows of all that it locks and sets
/// were open to it. It does nothing.
pub fn told_had_votes_open()
    ensures { Always (HadVotesOpen ToldAsAtItsBegin) }
{}

/// A law: and where the votes of what it asks for were never moved, it is decided exactly where these are. It does nothing.
pub fn told_are_decided_where_votes_are()
    ensures { Always (AreDecidedWhereOpen ToldAsAtItsBegin) }
{}

/// A law: and what is decided of it is answered as the table answers it that there was as it began. It does nothing.
pub fn told_are_answered_as_begun()
    ensures { Always (AreAnsweredAsBegun ToldAsAtItsBegin) }
{}

/// A law: and when it is decided it has gathered just what it asks for on that table. It does nothing.
pub fn told_gather_their_asks()
    ensures { Always (GatherTheirAsks ToldAsAtItsBegin) }
{}
