//! One server of a replicated file service, as a sequential object. It takes one request at a time, answers at
//! once, and waits for nobody.
//!
//! A server has **copies** by suite and **locks** of transactions on suites, shared or exclusive, prepared or not.
//! It has **intentions** (what a prepared transaction will make of a copy), **verdicts** of the transactions whose
//! home it is, an **audit** of denials, and a **stamp** (Lamport's logical clock). It is up or down. A suite
//! without a copy stands for what was never made. At the opening each representative has the root folder.
//!
//! **Promises.** The server function is `reply_of` and `after` (`specs/Service.antt`), with stamps and fullness
//! round them (`specs/Serving.antt`). `Server::evaluate` finds the reply and a `Step`, with all room that it takes,
//! and changes nothing. `Server::apply` does the step and cannot fail. `Server::serve` is both. Each reply fits its
//! request (`Request::fits`). The laws hold of every server that was opened, whatever it was asked
//! (`specs/Laws.antt`).
//!
//! - Poll(t, suite, mode): Busy with the least holder in the way; else the lock is t's, or is raised: Held(prefix,
//!   version).
//! - Upgrade(t, suite): Lost without a lock of t; Busy; else the lock is exclusive, and Held.
//! - Fetch(t, suite): Lost without a lock of t; else Given(version, content).
//! - Prepare(t, parts): a part is a suite, a mode and what is taken (Keep, a prefix, or a whole copy). With a
//!   prepared lock of t here, or without parts, nothing changes. Lost where a lock is missing or too weak, or what
//!   is taken is not sound. Else intentions are kept, locks prepared, and room made for the copies: Prepared.
//! - Decide(t, outcome): the recorded Verdict, or this one is recorded; a denial adds an item to the audit.
//! - Resolve(t): the recorded Verdict; without one, Aborted is recorded.
//! - Finish(t, verdict): Done. Intentions of t become copies where it is an answer, and go in any case; so do its
//!   locks.
//! - Break(t, suite): Done. A lock of t there that is not prepared goes.
//! - Locks: Locked(all locks), by transaction, then suite.
//! - Crash: Done; the server is down, and locks that are not prepared are lost. Return: Done; it is up.
//!
//! A server that is down answers Down to all but Return. It does not serve, and nothing changes, where it is
//! **full** of suites (4,096), stamps or versions (`is_full`), or out of **memory**. Crash, Return, Break and
//! Finish need none, nor does what is answered Busy, Lost, Done or Down.
//!
//! **The caller owes** to `apply` a step for which the server has the room (`IsReadyFor`), as it has once the step was
//! evaluated and nothing was done since (`IsStep`). It opens each server with its own number and the same settings.
//! That requests come in a sensible order is nowhere presumed.
//!
//! In code copies and intentions are bytes (`StoredCopy`), so a Finish moves them. What is asked of the locks, and done
//! with them, goes through `LockTable`: a few stand in a vector, and many in blocks, with who holds them and which are
//! not prepared beside them. A verdict keeps a list of 16 names or more as one text, and the same list once.
//!
//! **Files**: `lock`, `request`, `reply`, `stamped`, `takes`, `fitting`, `intention`, `store`, `opening_copies`,
//! `maps`, `copying`, `holders`, `few_locks`, `many_locks`, `locks`, `packed_names`, `kept_verdict`, `verdicts`,
//! `sameness`, `step`, `evaluate`, `answering`, `server`, `effect`, `types_fit`, `laws`.
//!
//! **Definitions** (`specs/`): `Locks`, `Intentions`, `Store`, `State`, `Service`, `Serving`, `Fits`, `Roomed`,
//! `Evaluated`, `Wanting`, `Bare`; of the laws `Consistency`, `Steps`, `ValidCopies`, `Again`, `Laws`.
#![tactic(auto)]

mod answering;
mod copying;
mod effect;
mod evaluate;
mod few_locks;
mod fitting;
mod holders;
mod intention;
mod kept_verdict;
mod laws;
mod lock;
mod locks;
mod many_locks;
mod maps;
mod opening_copies;
mod packed_names;
mod reply;
mod request;
mod sameness;
mod server;
mod stamped;
mod step;
mod store;
mod takes;
mod types_fit;
mod verdicts;

pub use effect::finish_keeps_effect;
pub use laws::{
    again_at_once, again_later, busy_names_the_least, consistency_is_kept, copies_are_valid,
    exclusive_stands_alone, intentions_have_locks, locks_rise, prepared_by_prepare,
    prepared_stands, quiet_replies_change_nothing, some_copy_is_changed, some_server_stands,
    stores_are_sound, suites_are_few, verdicts_are_written_once,
};
pub use lock::Lock;
pub use reply::{LockList, Reply, Verdict};
pub use request::{Decision, Part, Parts, Request, Take};
pub use server::Server;
pub use stamped::{Lack, Stamped};
pub use step::Step;
pub use store::MAX_SUITES;
pub use types_fit::settings_fit;
