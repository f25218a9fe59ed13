//! What holds of every agent and job, whatever it is told: in which order it asks, and that it ends in time. There
//! is no code but laws.
//!
//! The laws speak of exchanges alone, which are requests with what was told of each, and never of where an agent
//! stands.
//!
//! - It gathers, prepares, has it decided and finishes, in this order, and asks nothing else: `asks_in_order`.
//! - A lock is asked for only while votes are too few, of the first server in listed order that is left:
//!   `gathers_in_order`.
//! - A content is fetched at the first member of the first quorum that showed the version: `fetches_in_order`.
//! - All servers that told of a lock prepare, rising, each once. By then each suite is held by its quorums:
//!   `prepares_on_quorums`.
//! - It ends by the verdict that its home told, and else undecided: `ends_as_told`.
//! - A sweep resolves, finishes or breaks the first lock that is left, and its counts are of what it was told:
//!   `sweeps_in_order`.
//! - What it asks, and how it ends, is a function of what it was told: `same_told_same_asked`.
//! - Who is not idle asks, and only servers that it may know; so its job ends within a bound: `jobs_end`,
//!   `runs_end_in_time`.
//! - Where votes were too few, a suite was gathered from the hint of the moment when a lock was first due:
//!   `starts_are_asked`.
//! - Agents of runs keep nothing for sites that are not there, so events without sense do nothing:
//!   `runs_keep_to_sites`.
//!
//! No law says over exchanges alone in which order operations need suites, that a widening rises, or what a Prepare
//! has a server take beyond what all of them take.
//!
//! **What is presumed**: `jobs_end` and `starts_are_asked` speak of valid votes. A program meets no others
//! (`settings_open_with_valid_votes`, `replies_show_valid_votes`). Of other votes they would be false: a hint whose
//! servers have too few votes leaves nobody to ask.
//!
//! **Definitions** (`specs/`): `Orders`, `Gathers`, `Fetches`, `Quorate`, `Endings`, `SweepOrders`, `Same`;
//! `Steps`, `RunBounds`; `Starts`; `Sites`. The proof is one walk through a job (`proofs/Walk.antt`).
#![tactic(auto)]

ghost use Rattle.law_agents.specs.Endings.{EndsAsTold};
ghost use Rattle.law_agents.specs.Fetches.{FetchesInOrder};
ghost use Rattle.law_agents.specs.Gathers.{GathersInOrder};
ghost use Rattle.law_agents.specs.Orders.{AsksInOrder};
ghost use Rattle.law_agents.specs.Quorate.{PreparesOnQuorums};
ghost use Rattle.law_agents.specs.RunBounds.{RunsEndInTime};
ghost use Rattle.law_agents.specs.Same.{SameToldSameAsked};
ghost use Rattle.law_agents.specs.Sites.{RunsKeepToSites};
ghost use Rattle.law_agents.specs.Starts.{StartsAreAsked};
ghost use Rattle.law_agents.specs.Steps.{JobsEnd, OpensWithValidVotes, ShowsValidVotes};
ghost use Rattle.law_agents.specs.SweepOrders.{SweepsInOrder};

use rep_core::Reply;
use run_core::nothing_comes;
use suite_prefix::Settings;

/// A law: whatever it was told, an agent that is not idle asks something, and it asks a server that there is, or one that
/// votes name in its cache at the begin or in the job's replies. With `n` of these and `k` suites that its requests name
/// a transaction ends within `k*(2n + 1) + 2n + 1` own steps, and a sweep within `1 + 2m`, where `m` locks were listed to
/// it. All this where the votes in its cache and in replies are valid; then those that its cache keeps are valid still. It
/// does nothing.
pub fn jobs_end()
    ensures { JobsEnd }
{}

/// A law: settings have a server, and open with valid votes at servers that there are. It does nothing.
pub fn settings_open_with_valid_votes(settings: &Settings)
    ensures { OpensWithValidVotes settings.now }
{
    settings.fits();
    let _reps = settings.c0().reps();
}

/// A law: the votes that a reply shows are valid, by their type. It does nothing.
pub fn replies_show_valid_votes(reply: &Reply)
    ensures { ShowsValidVotes reply.now }
{
    if let Reply::Held { prefix, .. } = reply {
        let _reps = prefix.votes.reps();
    }
}

/// A law: where votes are valid (as for `jobs_end`), each suite of which an undecided end had too few votes, and each on
/// which its operations were executed, is gathered from the moment at which a lock on it was to be asked for first: there
/// the agent asks for one. It does nothing.
pub fn starts_are_asked()
    ensures { StartsAreAsked }
{}

/// A law: an agent that keeps nothing for sites that are not there stays so, whatever job it begins and whatever it is
/// told; so it is with each agent of every run, from the opening on; and so in every run an event without sense, a forget
/// among them, changes nothing, nothing is served in it, and no job ends. It does nothing.
pub fn runs_keep_to_sites()
    ensures { RunsKeepToSites }
{
    nothing_comes();
}

/// A law: a transaction gathers, prepares, has it decided and finishes, in this order, and asks nothing else. Each server that
/// was heard to hold a lock is asked once to prepare, rising; once all have prepared the home is asked once to decide; and each
/// of them gets one Finish, rising, with the verdict that the home told, or Aborted. No other server is asked any of this. It
/// does nothing.
pub fn asks_in_order()
    ensures { AsksInOrder }
{}

/// A law: a lock on a suite is asked for only while the servers that were heard to hold it have too few votes. The votes are
/// those of the newest prefix that was seen, or those that the transaction sets; and the first server in listed order is asked
/// that has a vote, was not heard to hold the lock as it is wanted, and was not found busy or down. It does nothing.
pub fn gathers_in_order()
    ensures { GathersInOrder }
{}

/// A law: a content is fetched of a suite that had a quorum, at the first member of the first one, in listed order, that showed
/// the version which this gave. It does nothing.
pub fn fetches_in_order()
    ensures { FetchesInOrder }
{}

/// A law: once a server is asked to prepare, each suite of the transaction is held by a quorum of the newest prefix that was
/// seen while it was gathered, and where it is changed by a write quorum of its votes before and of those that are set. So it is
/// before the first prepares. It does nothing.
pub fn prepares_on_quorums()
    ensures { PreparesOnQuorums }
{}

/// A law: a transaction ends by the verdict that its home told, and undecided where it told Aborted, or nothing. It does
/// nothing.
pub fn ends_as_told()
    ensures { EndsAsTold }
{}

/// A law: a sweep lists the locks. For the first lock that is left it asks the home of its transaction, where a lock of that is
/// prepared, and tells the swept server what the home told; else it breaks the lock. Its three counts are of what it was told,
/// and it ends with them once no lock is left. It does nothing.
pub fn sweeps_in_order()
    ensures { SweepsInOrder }
{}

/// A law: idle agents of one index, one count of jobs and one cache, which begin one job and were told the same, have asked the
/// same, ask the same next, and end the same. It does nothing.
pub fn same_told_same_asked()
    ensures { SameToldSameAsked }
{}

/// A law: of every run, whatever its events: each job that ended had begun in one of them, and what it was told from then on, in
/// the run, is all by which it ended. By the very count that its outcome tells it took as many steps as its agent had exchanges
/// in it; so a transaction that asks `n` servers and names `k` suites ended within `k*(2n + 1) + 2n + 1` steps, and a sweep to
/// which `m` locks were listed within `1 + 2m`. It does nothing.
pub fn runs_end_in_time()
    ensures { RunsEndInTime }
{}
