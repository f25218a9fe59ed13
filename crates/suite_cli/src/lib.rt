//! The program `suites`: its commands, from the bytes that it reads to the bytes that it writes.
//!
//! **Promises.** `run` does what the words ask for, and answers the exit status. Its one clause, `Does`
//! (`specs/Runs.antt`), says by cases of the words what the command has done when it ended, also where a stream
//! failed or memory ran out. `report` tells how `serve` was certified, and `lack_memory` that there was no memory
//! for the words. `command_line` gives the words of the system, of which nothing is known to contracts.
//!
//! An input is read whole, at most 16 MiB. A script is played as it is read. Nothing is written before it is known
//! to have no fault, at its end or by a look through the lines that are left.
//!
//! **The caller owes** nothing.
//!
//! **Files**: `command_error`, `telling` (last lines and statuses), `acl`, `job`, `language`, `table`,
//! `scripts`, `serve`, `commands`, `words`. **Definitions** (`specs/`): `Names`, `Scripts` (of `table`), `Outputs`, `Runs`.
#![tactic(auto)]

mod acl;
mod command_error;
mod commands;
mod job;
mod language;
mod scripts;
mod serve;
mod table;
mod telling;
mod words;

pub use byte_streams::{ByteIn, ByteOut, lack_memory};
pub use commands::run;
pub use serve::report;
pub use words::{command_line, slices};
