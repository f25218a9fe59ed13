//! What holds of every run that there can be: it is answered as one table answers it. `docs/HEADLINE.md` tells it;
//! there is no code but laws.
//!
//! A run that there can be (`CanBe`) has an opening that settings accept, and operations that set valid votes, as
//! all votes of a program are by their type.
//!
//! **Promises.** `answers_are_the_tables`, `audit_is_the_denials`, `answered_before_decided_before`,
//! `revocations_are_met`, `locks_stand`, `rows_have_versions`, `rows_are_the_registers`, `knowledge_was`; and what is
//! not decided changed nothing (`not_decided_change_nothing`, `undecided_change_nothing`). Together they are one
//! record, `IsPromised`. `promise` promises it of a world: of each list of events that made it, at
//! each moment. What is decided was begun (`decided_as_begun`). The premises of the crates below are laws here:
//! `agents_keep_sides`, `firsts_are_given`. Runs in which all this says something: `src/witnesses.rt`.
//!
//! **The caller owes** to `promise` a world that some events made of accepted settings (`IsOfRun`). Who opens,
//! plays and counts its events has that: `opens_a_run`, `plays_on`, and valid votes by `all_votes_are_valid`.
//! `crates/run_tests/src/promises.rt` does it.
//!
//! **Files**: `lib`, `promises`, `witnesses`. **Definitions** (`specs/`): `Premises`, `Nothing`, `Promises`, `Laws`,
//! `Worked`.
//! What goes from event to event: `proofs/Together.antt`, `Keeping.antt`; what is owed at a decision: `Owing.antt`;
//! that operations leave what they do not set: `Fair.antt`.
#![tactic(auto)]

mod promises;
mod witnesses;

ghost use Rattle.law_headline.specs.Laws.{AnswersAreTheTables, AuditIsTheDenials, AnsweredBefore, RevocationsAreMet, LocksStand, RowsHaveVersions, RowsAreTheRegisters, NotDecidedChangeNothing, UndecidedChangeNothing, KnowledgeWas, AgentsKeepSides, FirstsAreGiven};

pub use promises::{
    all_votes_are_valid, decided_as_begun, job_is_valid, opens_a_run, plays_on, promise,
    votes_are_valid,
};
pub use witnesses::{some_run_holds_locks, some_run_moves_votes, some_run_revokes};

/// A law: every run is answered as one unreplicated table answers it that takes the decided transactions one at a time, in
/// the order of their decisions. It does nothing.
pub fn answers_are_the_tables()
    ensures { AnswersAreTheTables }
{}

/// A law: what servers keep of denials is what that table denied, each server that of which it is the home. It does
/// nothing.
pub fn audit_is_the_denials()
    ensures { AuditIsTheDenials }
{}

/// A law: of two decisions the one whose job ended before the other's began stands first. It does nothing.
pub fn answered_before_decided_before()
    ensures { AnsweredBefore }
{}

/// A law: so a change that was answered, as one that revokes a permission, is met by every request that begins later. It
/// does nothing.
pub fn revocations_are_met()
    ensures { RevocationsAreMet }
{}

/// A law: where a transaction is decided, each lock that it was told of has stood after every event since, in that mode or a
/// stronger one. It does nothing.
pub fn locks_stand()
    ensures { LocksStand }
{}

/// A law: the rows of that table have versions that rise as they change, and each row is in effect at its versions in every
/// read and every write quorum of its votes; every quorum of votes that were replaced has a newer prefix in effect; and what
/// is in effect, or in a cache, was the table's. It does nothing.
pub fn rows_have_versions()
    ensures { RowsHaveVersions }
{}

/// A law: each row of that table is what the register of its suite's machine holds. It does nothing.
pub fn rows_are_the_registers()
    ensures { RowsAreTheRegisters }
{}

/// A law: a transaction that is not decided so far changed nothing: the table is the one without its decision, what is in
/// effect is in effect without its intentions, and all that is in effect, or in a cache, is of the table without it. It does
/// nothing.
pub fn not_decided_change_nothing()
    ensures { NotDecidedChangeNothing }
{}

/// A law: so one that ended undecided changed nothing, and changes nothing however the run goes on. It does nothing.
pub fn undecided_change_nothing()
    ensures { UndecidedChangeNothing }
{}

/// A law: a cache may be old, but what is in it was once so; and so of all that a transaction knows. It does nothing.
pub fn knowledge_was()
    ensures { KnowledgeWas }
{}

/// A law: agents keep to their side of the machine of each suite. It does nothing.
pub fn agents_keep_sides()
    ensures { AgentsKeepSides }
{}

/// A law: whatever an agent is told, what it keeps as the first quorum of a suite was given by that suite's collector. It
/// does nothing.
pub fn firsts_are_given()
    ensures { FirstsAreGiven }
{}
