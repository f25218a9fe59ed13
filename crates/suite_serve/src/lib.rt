//! The command `serve`: a script of jobs, carried out by agents in threads on servers under locks.
//!
//! **Promises.** `read_script` reads a script whole, before anything is served, and says its first fault. `serve`
//! has the jobs above `together` carried out by agent 0 alone, then the others by all agents. It closes the servers
//! and asks `certify`. What it gives (`IsServed`) names one run. For each job, in the script's order, its agent's
//! transcript has it as its begin of some count, then so many requests, and then the end that its line tells. The
//! jobs above `together` are the first that agent 0 began, in their order, and each agent began its jobs in theirs.
//! Those above ended before any other had asked anything: what a server served for them stands before what it served
//! for the others (`AreBefore`). No two lines are of one agent and count. So a line cannot be another job's,
//! and nothing is printed that was not certified. As many jobs were begun as the script has, and the operator did
//! nothing. What is promised of a run holds of this one at each of its moments (`CertifiedIsPromised`), and its
//! histories tell whose decision came first (`TellsOfTime`).
//!
//! `serve_through` does the same through a gate of the caller's, who may so see when jobs are begun and served.
//!
//! A fault of the pool but Memory, of closing, or of certifying prints `mismatch` and no outcome. No clause says
//! that threads do anything at once, that a call returns, or which of two jobs below `together` comes first.
//!
//! **The caller owes** a text below 2^60 bytes, and 1 to 64 agents.
//!
//! **Files**: `verb`, `command`, `language`, `header`, `script`, `serving`, `served`. **Definitions** (`specs/`):
//! `Commands`, `Scripts`, `Readings`, `Served`.
#![tactic(auto)]

mod command;
mod header;
mod language;
mod script;
mod served;
mod serving;
mod verb;

pub use script::{JobScript, read_script};
pub use served::ServedScript;
pub use serving::{serve, serve_through};
