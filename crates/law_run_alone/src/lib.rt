//! Runs in which a job begins only when every agent is idle. Servers may crash and restart, and requests not be
//! served, anywhere. There is no code but laws.
//!
//! **Promises.** The endings of decided transactions are those that one table gives, in order
//! (`endings_are_the_tables`). The answer with a cache is the answer without (`endings_are_one`). A transaction
//! that begins where every server is up and no lock is left meets nobody in its way (`nothing_is_in_the_way`). It
//! is decided, while no server crashes or is full, memory does not run out, and no other job begins
//! (`undisturbed_are_decided`, `undisturbed_endings_are_one`). In `some_runs_go_alone` these laws say something.
//!
//! **Definitions** (`specs/`): `Alone`, `Undisturbed`, `Endings`, `Worked`. The proofs: one invariant
//! (`proofs/Alone.antt`); what a transaction is replied whose agent alone asks (`Goes.antt`, `Exchanged.antt`);
//! each cause of an undecided end excluded (`Undisturbed.antt`).
#![tactic(auto)]

ghost use Rattle.law_run_alone.specs.Endings.{EndingsAreTheTables, EndingsAreOne, UndisturbedEndingsAreOne};
ghost use Rattle.law_run_alone.specs.Undisturbed.{NothingIsInTheWay, UndisturbedAreDecided};
ghost use Rattle.law_run_alone.specs.Worked.{SomeRunsGoAlone};

/// A law: where a job begins only when every agent is idle, the endings of the decided transactions are those that one
/// table gives, in order, servers may crash and requests not be served anywhere. It does nothing.
pub fn endings_are_the_tables()
    ensures { EndingsAreTheTables }
{}

/// A law: of two such runs, from settings that differ at most in what caches may keep, in which the same agents begin the
/// same jobs in the same order and each transaction that ended was decided, each transaction that ended in both has one
/// ending: the answer with a cache is the answer without. It does nothing.
pub fn endings_are_one()
    ensures { EndingsAreOne }
{}

/// A law: a transaction that begins where every agent is idle, every server is up and no lock is left is never told Busy
/// or Down, as long as no server crashes and no other job begins. It does nothing.
pub fn nothing_is_in_the_way()
    ensures { NothingIsInTheWay }
{}

/// A law: a transaction that so begins is decided when it ends, as long as no server crashes, none is full, memory is not
/// wanting, and no other job begins. It does nothing.
pub fn undisturbed_are_decided()
    ensures { UndisturbedAreDecided }
{}

/// A law: so, of two runs of the same jobs in the same order, where every transaction begins so and nothing disturbs it,
/// each transaction that ended in both has one ending: the answer with a cache is the answer without. It does nothing.
pub fn undisturbed_endings_are_one()
    ensures { UndisturbedEndingsAreOne }
{}

/// A law: a run in which servers crash and a transaction ends undecided, and two of the same jobs, one of them with
/// caches, so that the laws above say something. It does nothing.
pub fn some_runs_go_alone()
    ensures { SomeRunsGoAlone }
{}
