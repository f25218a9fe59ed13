//! One agent of a replicated file service: where a client's transaction becomes requests to servers.
//!
//! An agent does one job at a time: a **transaction** of a caller with the cache of a site, or a **sweep** of a
//! server. It asks one server one thing, is told what came of it, and asks the next thing, until its job ends.
//!
//! **Promises.** An `Agent` is the agent function, exactly (`specs/Agents.antt`): `begin`, `next`, `take`,
//! `forget`. `next` puts what it asks into a place of the caller's. `take` is told the reply, or why the request
//! was not served. An agent's index is below 64. A begin without sense changes nothing. Out of memory leaves the
//! agent as it was, and the call may be made again. `specs/Wanting.antt` says when memory may run out; an agent
//! that gave up comes to its end without any. `stage`, `gathered` and `cache` lend what may be read of it.
//!
//! The laws hold of every agent and job, whatever it is told (`specs/Laws.antt`).
//! - Whatever a transaction does with a word is moves of the protocol, of which there are 24
//!   (`every_response_is_moves`; `specs/Moves.antt` is the protocol to read).
//! - Nobody is polled twice for a suite (`nobody_is_polled_twice`). A decision is asked for once, after all have
//!   prepared, on quorums of the newest votes seen (`decide_is_sent_once`, `all_prepare_first`,
//!   `decides_on_quorums`).
//! - What is written is fixed once (`what_is_written_is_fixed`). The end is told as the home told it
//!   (`finish_carries_the_verdict`).
//! - An undecided end was told its cause (`ends_are_caused`). What is cached was fetched
//!   (`caches_what_was_fetched`).
//! - A transaction of k suites at n servers takes k*(2n + 1) + 2n + 1 steps at most (`ends_in_time`), a sweep of m
//!   locks 1 + 2m (`sweep_ends_in_time`). Some talks are worked by computation (`worked_runs`).
//!
//! **The caller owes** to `take` what fits the request (`FitsAsked`), as each reply of a server does.
//!
//! **A transaction.** It gathers a suite's locks, from the prefix that the site's cache has. After each quorum and
//! each content the executor (`file_exec`) runs again on what is known. It names the next need, or is done. A
//! content comes from the cache at the version that the members showed; else it is fetched. Then suites that get
//! votes are widened, servers prepare, the home decides, and the end is told. A refusal is decided too, so that a
//! denial is recorded. A server with a vote gets the whole copy where content or votes were set. With lists alone
//! set, or without a vote, it gets the prefix.
//!
//! **In code** nothing is undone. What was learned (a quorum, a content) is `Learned`; the transaction is executed
//! on a view of the suites as they will be (`SuitesAfter`). An execution is planned while it may fail (`plan`).
//! Then it is carried out (`carrying`), which cannot fail. It goes on from where the transaction came while what is
//! known only grows, and else begins anew. Each handler answers a `Flow`: the job goes on, or has ended. The
//! clauses of its steps have names in `specs/code/Goings.antt`.
//!
//! **Files**, what a job is: `job`, `ending`, `response`, `task`, `phase`, `stage`, `resources`, `fixed_parts`,
//! `servers`, `home`. Suites: `suites`, `pending_quorum`, `learned`, `suites_after`, `empty`, `cache_after`, `knowing`.
//! Execution: `granted`, `plan`, `next_phase`, `carrying`, `execution`. Late phases: `widening`, `writing`,
//! `sorting`, `finishing`. The whole: `asking`, `transaction_run`, `sweep_run`, `sameness`, `agent`, `laws`.
//!
//! **Definitions** (`specs/`): `Suites`, `Doing`, `Transactions`, `Writing`, `Sweeps`, `Agents`, `Standing`,
//! `Stages`, `Wanting`, `Moves`, `Sameness`; for the laws `Undecided`, `Caching`, `Worlds`, `Runs`, `Laws`. The laws'
//! proofs are one walk (`proofs/Walk.antt`).
#![tactic(auto)]

mod agent;
mod asking;
mod cache_after;
mod carrying;
mod empty;
mod ending;
mod execution;
mod finishing;
mod fixed_parts;
mod granted;
mod home;
mod job;
mod knowing;
mod laws;
mod learned;
mod next_phase;
mod pending_quorum;
mod phase;
mod plan;
mod resources;
mod response;
mod sameness;
mod servers;
mod sorting;
mod stage;
mod suites;
mod suites_after;
mod sweep_run;
mod task;
mod transaction_run;
mod widening;
mod writing;

pub use agent::{Agent, MAX_JOBS};
pub use ending::{Cause, Ending};
pub use home::home_among;
pub use job::{Job, Ops, SharedCaller};
pub use laws::{
    a_prepare_rises, all_prepare_first, caches_what_was_fetched, decide_is_sent_once,
    decides_on_quorums, ends_are_caused, ends_in_time, every_response_is_moves,
    finish_carries_the_verdict, knows_contents, late_steps_are_few, nobody_is_polled_twice,
    nothing_follows_an_end, prepare_lists_the_locks, sweep_ends_in_time, what_is_written_is_fixed,
    worked_runs,
};
pub use response::Response;
pub use stage::Stage;
pub use suites::GatheredSuite;
