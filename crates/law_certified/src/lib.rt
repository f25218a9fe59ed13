//! What the histories of certified threads tell of time: whose decision came first. There is no code but laws.
//!
//! A history is what a server served, in its order. The server's lock is held while it serves a request and notes
//! it (`server_lock`), so what stands later in a history was asked later by the clock, whichever threads asked.
//!
//! **Promises.** Where a history has a Finish of one transaction before a request of another that is none, as its
//! Decide, the first was decided before the second among the decisions that `certify` gave, as the Finish says
//! (`finished_before_in_history`). So the second is answered by the table after the first's change
//! (`changes_are_met_in_history`). `promise` lends both of histories and transcripts.
//!
//! Nothing is said of the order of two transactions that no server was asked of.
//!
//! **The caller owes** to `promise` what `run_certify::certify` gives with each list of decisions
//! (`CertifiedIsPromised`). `crates/run_tests/src/certified.rt` does it.
//!
//! **Files**: `lib`, `promises`. **Definitions** (`specs/`): `Histories`.
#![tactic(auto)]

mod promises;

ghost use Rattle.law_certified.specs.Histories.{FinishedBeforeInHistory, ChangesAreMetInHistory};

pub use promises::promise;

/// A law: where a history that is certified has a Finish of a transaction that says that it was answered or refused, before a
/// request of another that is none, the first stands so among the decisions, and before the second; where the Finish says
/// that it was aborted, it does not stand there. It does nothing.
pub fn finished_before_in_history()
    ensures { FinishedBeforeInHistory }
{}

/// A law: so a change whose Finish stands in a history, which says that it was answered, is met by each decided transaction
/// that asked that server something later: its answer is the table's after the change. It does nothing.
pub fn changes_are_met_in_history()
    ensures { ChangesAreMetInHistory }
{}
