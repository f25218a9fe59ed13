//! What holds of the decisions of every run, without the machines of suites. There is no code but laws
//! (`src/laws.rt`), each of every list of events from every opening that settings accept.
//!
//! **Promises.** `decided_once`, `decisions_are_the_records`, `audit_is_the_denials`,
//! `answered_before_decided_before`, `changes_are_met`, `each_is_begun_once`. In the name of a transaction only its
//! own agent (t mod 64) asks, but for sweeps (`agents_ask_for_themselves`). Answers are the plain transaction's on
//! what the agent knew (`answers_follow_knowledge`, `known_answers_are_the_tables`). A Finish says how
//! its transaction ended (`finish_is_after`), so what was finished before another asked was decided before it
//! (`finished_before`, `finished_changes_are_met`). In `some_runs_decide` and `some_runs_finish` all this says
//! something.
//!
//! **Definitions** (`specs/`): `Numbers`, `Naming`, `Answers`, `Claims`, `Worked`, `Finishes`. The proof is one
//! invariant of servers, agents and past decisions (`proofs/Worlds.antt`), with what sweeps tell
//! (`proofs/Ruled.antt`).
#![tactic(auto)]

mod laws;

pub use laws::{
    agents_ask_for_themselves, answered_before_decided_before, answers_follow_knowledge,
    audit_is_the_denials, changes_are_met, decided_once, decisions_are_the_records,
    each_is_begun_once, finish_is_after, finished_before, finished_changes_are_met,
    known_answers_are_the_tables, some_runs_decide, some_runs_finish, tables_audit_is_the_denials,
};
