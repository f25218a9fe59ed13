//! What is available while servers are down, and after they came back. `docs/HEADLINE.md`, *What is available*,
//! says it field by field; there is no code but laws.
//!
//! The laws are of an agent that alone reaches servers for a while, others being anywhere in their jobs, or of
//! sweeps one after the other.
//!
//! **Promises.**
//! - Such a transaction ends as the votes say that are up, in time (`ends_are_by_votes`, `ends_in_time`). What is
//!   decided had its votes up (`decided_had_votes_up`).
//! - Votes that are found are those of the table's rows (`met_demands_are_rows`). Where votes were never moved,
//!   they and the home say exactly what is decided (`decided_where_votes_are`).
//! - One that nobody meets so ends too, whatever others do elsewhere (`unmet_end_by_votes`,
//!   `unmet_end_in_time`, `unmet_had_votes_up`, `unmet_are_decided_where_votes_are`); what goes alone is one
//!   (`alone_are_unmet`). Its votes are those of the rows (`near_votes_are_rows`, `open_votes_are_rows`).
//! - So does one among locks that others left, where what is in its way stays: by the votes that are open to it
//!   (`among_locks_end_by_votes`, `among_locks_end_in_time`, `among_locks_had_votes_open`,
//!   `among_locks_are_decided_where_votes_are`, `among_locks_are_answered_as_begun`,
//!   `among_locks_gather_their_asks`), and it leaves no lock (`among_locks_leave_no_lock`); what nobody meets is one
//!   (`unmet_are_among_locks`).
//! - So does one that is told, whenever it asks, what it would have been told as it began, and whose locks stay
//!   (`told_end_by_votes`, `told_end_in_time`, `told_had_votes_open`, `told_are_decided_where_votes_are`,
//!   `told_are_answered_as_begun`, `told_gather_their_asks`); one among locks that stay is one
//!   (`among_locks_are_told_as_begun`).
//! - So transactions side by side, of which each begins only where it clashes with none that runs, are all decided
//!   (`side_by_side_are_decided`, `side_by_side_end_in_time`, `side_by_side_are_told_freely`). While servers stay down
//!   nobody meets them (`side_by_side_are_unmet`, `side_by_side_end_by_votes`, `side_by_side_end_while_down`).
//! - Of two that alone meet, at one suite first and by votes that leave enough to one of them, one is decided
//!   (`one_that_meets_is_decided`; a run is in `some_runs_meet`), also where votes were set before
//!   (`one_that_meets_by_rows_is_decided`, `some_runs_meet_by_rows`), and where others are beside, who may do what they
//!   will as long as no lock of theirs is in the way of the two (`one_that_meets_beside_is_decided`,
//!   `some_runs_meet_beside`), of which those are cases.
//! - Homes go round. So where the votes are up, of as many tries as there are servers one is decided
//!   (`homes_go_round`, `one_of_them_is_decided`).
//! - Sweeps leave only locks in doubt, change no copy in effect, and with all servers up leave none
//!   (`sweeps_leave_doubts`, `sweeps_keep_effects`, `only_doubts_are_left`, `no_lock_is_left`, `all_is_stored`).
//! - After sweeps a suite is blocked by servers that are down and by locks in doubt, and by nothing else
//!   (`blocked_by_doubts`, `some_server_blocks`, `one_crash_blocks`).
//! - What one server served first was decided first: the Finish of one transaction, then a request of another
//!   (`finished_before_at_server`, `changes_are_met_at_server`).
//! - Each job that ended in a run took steps within its bound, with no premise (`runs_end_by_the_bounds`).
//! - A transaction whose lock was taken away is never decided (`taken_away_are_never_decided`).
//! - `promise` lends all this of a world, and `what_can_be_is_available` of any events that there can be. In
//!   `some_runs_recover` and `some_runs_go_side_by_side` it says something.
//! - Where one writes and any number only read what it writes, it is decided or each of them is
//!   (`writer_or_readers_are_decided`), also with others beside (`writer_or_reader_beside_is_decided`,
//!   `some_runs_meet_readers_beside`).
//! - Not promised: that of other transactions that meet one is decided (`some_runs_starve`).
//!
//! **The caller owes** to `promise` a world that some events made of accepted settings (`IsOfRun`).
//!
//! **Files**: `lib`, `meeting`, `promises`, `told`. **Definitions** (`specs/`): of the strongest forms `Standing`,
//! `Demands`, `Ways`, `OpenDemands`, `Alone`, `Going`, `Ends`, `Told`, `Sweeping`, `Clashing`, `MeetsBeside`; of the
//! others `Up`, `Laws`, `Unmet`, `Local`, `Further`, `Among`, `Beside`, `BesideDown`, `Meets`, `MeetsByRows`,
//! `Readers`, `Blocking`, `Histories`, `InTime`, `Promises`; and of runs `Worked`, `BesideWorked`, `MeetsWorked`,
//! `ReadersWorked`, `MeetsBesideWorked`, `Contending`, `LawsWorked`.
//! The proofs follow a transaction over its agent's steps (`proofs/Stands.antt`, `Asking.antt`; at each moment
//! `AmongCourse.antt`, `AmongStep.antt`, `AmongEnds.antt`, of which what goes alone is a case, `AloneLaws.antt`,
//! `Tries.antt`; where two meet `MeetClear.antt`, `MeetCourse.antt`, `MeetReach.antt`, `MeetLaw.antt`, and one of them
//! only reads, `MeetReaders.antt`; where nobody is beside `MeetAlone.antt`, `ReadersAlone.antt`) and a sweep by its list
//! (`Sweeps.antt`, `Swept.antt`, `Rounds.antt`).
#![tactic(auto)]

mod meeting;
mod promises;
mod told;

ghost use Rattle.law_run_recovers.specs.Ends.{Always, AreAnsweredAsBegun, EndInTime, HadVotesOpen};
ghost use Rattle.law_run_recovers.specs.Laws.{MetDemandsAreRows, HomesGoRound, DecidedHadVotesUpAt, DecidedWhereVotesAreAt, EndsAreByVotesAt, EndsInTimeAt, OneOfThemIsDecidedAt};
ghost use Rattle.law_run_recovers.specs.Unmet.{GoesUnmet};
ghost use Rattle.law_run_recovers.specs.Local.{AloneAreUnmet, NearVotesAreRows, OpenVotesAreRows, UnmetAreDecidedWhereVotesAreAt, UnmetEndByVotesAt, UnmetHadVotesUpAt};
ghost use Rattle.law_run_recovers.specs.Further.{AreDecidedWhereOpen, GatherTheirAsks};
ghost use Rattle.law_run_recovers.specs.Among.{UnmetAreAmongLocks, AmongLocksEndByVotesAt, AmongLocksLeaveNoLockAt, GoesAmongLocks};
ghost use Rattle.law_run_recovers.specs.Beside.{SideBySideAreDecidedAt, SideBySideAreToldFreelyAt, SideBySideEndInTimeAt};
ghost use Rattle.law_run_recovers.specs.BesideDown.{SideBySideAreUnmetAt, SideBySideEndByVotesAt, SideBySideEndWhileDownAt};
ghost use Rattle.law_run_recovers.specs.BesideWorked.{SomeRunsGoSideBySide};
ghost use Rattle.law_run_recovers.specs.Histories.{FinishedBeforeAtServer, ChangesAreMetAtServer};
ghost use Rattle.law_run_recovers.specs.InTime.{RunsEndByTheBounds};
ghost use Rattle.law_run_recovers.specs.Sweeping.{AllIsStoredAt, NoLockIsLeftAt, OnlyDoubtsAreLeftAt, SweepsKeepEffectsAt, SweepsLeaveDoubtsAt, TakenAwayAreNeverDecidedAt};
ghost use Rattle.law_run_recovers.specs.Worked.{SomeRunsRecover};
ghost use Rattle.law_run_recovers.specs.Blocking.{BlockedByDoubtsAt, OneCrashBlocksAt, SomeServerBlocksAt};
ghost use Rattle.law_run_recovers.specs.Contending.{SomeRunsStarve};
ghost use Rattle.law_run_recovers.specs.LawsWorked.{SomeRunsShowTheLaws};

pub use meeting::{
    one_that_meets_beside_is_decided, one_that_meets_by_rows_is_decided, one_that_meets_is_decided,
    some_runs_meet, some_runs_meet_beside, some_runs_meet_by_rows, some_runs_meet_readers,
    some_runs_meet_readers_beside, writer_or_reader_beside_is_decided,
    writer_or_readers_are_decided,
};
pub use promises::{promise, what_can_be_is_available};
pub use told::{
    among_locks_are_told_as_begun, told_are_answered_as_begun, told_are_decided_where_votes_are,
    told_end_by_votes, told_end_in_time, told_gather_their_asks, told_had_votes_open,
};

/// A law: a transaction that begins where no server that is up has a lock, and that nobody hinders, ends as the votes say
/// that are up: where a suite has too few of them, with the first such and its numbers; else, where its home is down, with
/// that; else as the table answers it. It does nothing.
pub fn ends_are_by_votes()
    ensures { Always EndsAreByVotesAt }
{}

/// A law: and such a transaction ends, within so many steps of its agent as its locks and the servers bound. It does
/// nothing.
pub fn ends_in_time()
    ensures { Always EndsInTimeAt }
{}

/// A law: of every run that there can be, whatever its events: the votes that a job met which ended in it are valid, so each
/// transaction ended within `k*(2n + 1) + 2n + 1` of its own steps, by the count that its outcome tells, and each sweep within
/// `1 + 2m`. It does nothing.
pub fn runs_end_by_the_bounds()
    ensures { RunsEndByTheBounds }
{}

/// A law: a transaction that begins where no server that is up has a lock, that nobody hinders, and that is decided, had its
/// home up, and of each suite that it had gathered the votes of its mode, by the row that the table had as it began, and
/// those that it left. It does nothing.
pub fn decided_had_votes_up()
    ensures { Always DecidedHadVotesUpAt }
{}

/// A law: where servers that are up have enough votes of all that a transaction locks, as it finds these votes, and of all
/// that it sets, they have enough by the votes of the table's own rows. It does nothing.
pub fn met_demands_are_rows()
    ensures { MetDemandsAreRows }
{}

/// A law: so it is by the votes of servers that are open to a transaction that begins, which are up and have no lock in its
/// way, whatever locks there are. It does nothing.
pub fn open_votes_are_rows()
    ensures { OpenVotesAreRows }
{}

/// A law: and by the votes of servers that are up, where no lock is in its way at those that it may ask, whatever locks
/// others have. It does nothing.
pub fn near_votes_are_rows()
    ensures { NearVotesAreRows }
{}

/// A law: a transaction that goes alone is met by nobody: what is promised to one that nobody meets is promised to it. It
/// does nothing.
pub fn alone_are_unmet()
    ensures { AloneAreUnmet }
{}

/// A law: a transaction that nobody meets ends as the votes say that are up when it begins, whatever others do elsewhere:
/// nothing conflicts with what it asks for at servers that it may ask, these stay up or down, its steps are served, and no
/// sweep takes anything of it. It does nothing.
pub fn unmet_end_by_votes()
    ensures { Always UnmetEndByVotesAt }
{}

/// A law: and it ends, within so many steps of its agent as its locks and the servers bound. It does nothing.
pub fn unmet_end_in_time()
    ensures { Always (EndInTime GoesUnmet) }
{}

/// A law: and it is decided only where its home was up as it began, and the votes of the rows of all that it locks and
/// sets. It does nothing.
pub fn unmet_had_votes_up()
    ensures { Always UnmetHadVotesUpAt }
{}

/// A law: and where the votes of what it asks for were never moved, it is decided exactly where its home and the votes of
/// the rows are up. It does nothing.
pub fn unmet_are_decided_where_votes_are()
    ensures { Always UnmetAreDecidedWhereVotesAreAt }
{}

/// A law: a transaction that nobody meets goes among locks none of which is in its way: what is promised to one that goes
/// among locks that stay is promised to it. It does nothing.
pub fn unmet_are_among_locks()
    ensures { UnmetAreAmongLocks }
{}

/// A law: a transaction in whose way nothing comes or goes at servers that it may ask ends as the votes say that are open to
/// it when it begins: where too few are, with their numbers where no voting member has a lock in its way, or with one that
/// has; else as its home and the table say. It does nothing.
pub fn among_locks_end_by_votes()
    ensures { Always AmongLocksEndByVotesAt }
{}

/// A law: and it ends, within so many steps of its agent as its locks and the servers bound. It does nothing.
pub fn among_locks_end_in_time()
    ensures { Always (EndInTime GoesAmongLocks) }
{}

/// A law: and it is decided only where its home was up as it began, and the votes of the rows of all that it locks and sets
/// were open to it. It does nothing.
pub fn among_locks_had_votes_open()
    ensures { Always (HadVotesOpen GoesAmongLocks) }
{}

/// A law: and where the votes of what it asks for were never moved, it is decided exactly where its home is up and the votes
/// of the rows are open to it. It does nothing.
pub fn among_locks_are_decided_where_votes_are()
    ensures { Always (AreDecidedWhereOpen GoesAmongLocks) }
{}

/// A law: and what is decided of it is answered as the table answers it that there was as it began, whatever others decided
/// since. It does nothing.
pub fn among_locks_are_answered_as_begun()
    ensures { Always (AreAnsweredAsBegun GoesAmongLocks) }
{}

/// A law: and when it is decided it has gathered just what it asks for on the table as it began: each suite, in each mode.
/// It does nothing.
pub fn among_locks_gather_their_asks()
    ensures { Always (GatherTheirAsks GoesAmongLocks) }
{}

/// A law: and once it has ended no server has a lock of it, up or down. It does nothing.
pub fn among_locks_leave_no_lock()
    ensures { Always AmongLocksLeaveNoLockAt }
{}

/// A law: where all servers are up, no lock is left and no agent has a job, and then no server crashes, nobody sweeps and
/// each request is served: transactions of which each begins only where what it asks for, on the table as it begins, clashes
/// with what none asked for that runs then, are decided when they end, and answered as the table at their begin answers them.
/// It does nothing.
pub fn side_by_side_are_decided()
    ensures { Always SideBySideAreDecidedAt }
{}

/// A law: and each ends, within so many steps of its agent as its locks and the servers bound, whatever the others do or do
/// not. It does nothing.
pub fn side_by_side_end_in_time()
    ensures { Always SideBySideEndInTimeAt }
{}

/// A law: and none of them is ever told Busy, Down or Lost. It does nothing.
pub fn side_by_side_are_told_freely()
    ensures { Always SideBySideAreToldFreelyAt }
{}

/// A law: where servers are down, no server that is up has a lock and no agent has a job, and then each server stays up or
/// down as it is, nobody sweeps and each request is served: transactions of which each begins only where it clashes with
/// none that runs are met by nobody. It does nothing.
pub fn side_by_side_are_unmet()
    ensures { Always SideBySideAreUnmetAt }
{}

/// A law: so each of them that ends, ends as the votes say that are up. It does nothing.
pub fn side_by_side_end_by_votes()
    ensures { Always SideBySideEndByVotesAt }
{}

/// A law: and each ends, within so many steps of its agent as its locks and the servers bound. It does nothing.
pub fn side_by_side_end_while_down()
    ensures { Always SideBySideEndWhileDownAt }
{}

/// A law: where votes were never moved, such a transaction is decided exactly where its home and the votes of the rows are
/// up. It does nothing.
pub fn decided_where_votes_are()
    ensures { Always DecidedWhereVotesAreAt }
{}

/// A law: where one server served the Finish of a transaction before a request of another that is none, as its Decide, the
/// first was decided before the second, if that was decided. With a lock round each request of a server, before is so by
/// the clock. It does nothing.
pub fn finished_before_at_server()
    ensures { FinishedBeforeAtServer }
{}

/// A law: so a change whose Finish a server served, which says that it was answered, is met by each transaction that asks
/// that server something later. It does nothing.
pub fn changes_are_met_at_server()
    ensures { ChangesAreMetAtServer }
{}

/// A law: of as many jobs of an agent in a row as there are servers one has each server as its home. It does nothing.
pub fn homes_go_round()
    ensures { HomesGoRound }
{}

/// A law: so of as many tries of a transaction one is decided, where the votes and some server are up. It does nothing.
pub fn one_of_them_is_decided()
    ensures { Always OneOfThemIsDecidedAt }
{}

/// A law: a sweep of a server that is up, which nobody hinders, leaves there the locks of transactions whose homes are
/// down and that had a prepared one, and says how many transactions those are; it changes no other server's locks. It does
/// nothing.
pub fn sweeps_leave_doubts()
    ensures { Always SweepsLeaveDoubtsAt }
{}

/// A law: such a sweep changes no copy in effect, and decides nothing. It does nothing.
pub fn sweeps_keep_effects()
    ensures { Always SweepsKeepEffectsAt }
{}

/// A law: sweeps of all servers that are up leave there just those locks. It does nothing.
pub fn only_doubts_are_left()
    ensures { Always OnlyDoubtsAreLeftAt }
{}

/// A law: where all servers are up they leave no lock, whatever other agents are in the middle of. It does nothing.
pub fn no_lock_is_left()
    ensures { Always NoLockIsLeftAt }
{}

/// A law: and then what is stored is what was in effect, and nothing was decided. It does nothing.
pub fn all_is_stored()
    ensures { Always AllIsStoredAt }
{}

/// A law: after such sweeps enough votes are open for a lock just where those leave enough that are down, or that have a lock
/// in doubt which is in the way. It does nothing.
pub fn blocked_by_doubts()
    ensures { Always BlockedByDoubtsAt }
{}

/// A law: so where they are not enough some server with a vote is down, or has such a lock of a transaction that stands
/// prepared there and whose home is down. It does nothing.
pub fn some_server_blocks()
    ensures { Always SomeServerBlocksAt }
{}

/// A law: where all servers are up, one crashes and the others are swept, too few votes are open only where it has one, or
/// was the home of a transaction that stood prepared at a server with one and had a lock in the way. It does nothing.
pub fn one_crash_blocks()
    ensures { Always OneCrashBlocksAt }
{}

/// A law: a transaction whose locks at a server were taken away before it was decided is never decided. It does nothing.
pub fn taken_away_are_never_decided()
    ensures { Always TakenAwayAreNeverDecidedAt }
{}

/// A law: runs of which the laws above say something, among them votes that are up and are not found, fewer votes to write
/// than to read, and an agent that stops for good. It does nothing.
pub fn some_runs_recover()
    ensures { SomeRunsRecover }
{}

/// A law: runs in which two and three transactions that meet all end undecided, though all servers are up and nobody crashes
/// or sweeps: so it is not promised that one of such is decided. It does nothing.
pub fn some_runs_starve()
    ensures { SomeRunsStarve }
{}

/// A law: runs of one that nobody meets while another is at work, of one that goes among locks and is told of one, and of
/// one that is told as at its begin though a lock came in its way and went; and sweeps that leave a doubt, which blocks a
/// file. It does nothing.
pub fn some_runs_show_the_laws()
    ensures { SomeRunsShowTheLaws }
{}

/// A law: a run in which two users go side by side, each with a file of its own, step by step in turn, and one in which they
/// do so while a server is down; both are answered. It does nothing.
pub fn some_runs_go_side_by_side()
    ensures { SomeRunsGoSideBySide }
{}
