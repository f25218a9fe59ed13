//! The command `play`: a script of events, played on a world of servers and agents.
//!
//! **Promises.** `play_events` plays the lines as they are read, and writes what the definition says
//! (`specs/Outputs.antt`). The events of a script are those of a run that there can be, so at each moment of it
//! `IsPromised` holds (the clause `promised`). A line makes of a world what its events make of it
//! (`lines_are_events`). `run A` steps until the agent has no job (`run_is_until_idle`).
//!
//! Others use what is public beside that. `serve` takes the lines of the header, transactions as words, and
//! endings. `trace` takes the header, the lines (`Places` is their language), outcomes and audits. A session takes
//! what follows the first word of each line of the header (`count_of`, `votes_of`, `caches_of`, `old_of`), and makes
//! the settings of them (`settings_of`).
//!
//! **The caller owes** a text below 2^60 bytes, and to `read_opening`, `old_of` and `settings_of` numbers within
//! their limits: 1 to 32 servers, 1 to 64 agents.
//!
//! **Files**: `places`, `verb`, `command`, `caches`, `header`, `language`, `outcome`, `player`, `laws`.
//!
//! **Definitions** (`specs/`): `Headers`, `Commands`, `Playing`, `Texts`, `Outputs`, `Promised`, `Laws`.
#![tactic(auto)]

mod caches;
mod command;
mod header;
mod language;
mod laws;
mod outcome;
mod places;
mod player;
mod verb;

pub use caches::Caches;
pub use command::Command;
pub use header::{
    caches_of, count_of, old_of, read_header, read_opening, read_servers, settings_of, votes_of,
};
pub use language::{read_place, read_transaction};
pub use laws::{lines_are_events, run_is_until_idle};
pub use outcome::push_ending;
pub use places::Places;
pub use player::{places_of, play_events, push_audit, push_ended};
