//! Servers and agents together, event by event.
//!
//! A `World` is the servers and the agents of a service, each at the place of its number. An `Event` is one thing
//! that happens there. An agent begins a job, or forgets a site. It takes a step: a server serves what it asks, and
//! it takes the reply. Or it is told that its request was not served. A server crashes, or restarts.
//!
//! **Promises.** `World::step` plays an event as the definition says (`specs/Worlds.antt`, one equation an event).
//! It answers what was served and how a job ended; `World::advance` puts both into places of its caller's
//! (`specs/Telling.antt`). What was served fits what was asked. `World::play` plays many. Where memory runs out
//! nothing has changed, or `play` tells how many events were played. Only a begin and a step may need memory
//! (`specs/Wanting.antt`). An event without sense does nothing (`specs/Senses.antt`, `nothing_comes`).
//! `World::server` lends a server, to be read.
//!
//! A **run** is events from the opening on. Its **decisions** are the transactions whose Decide made the first
//! record at its server, as an answer or a refusal, in that order. Its **table** is the plain table that takes
//! these one at a time. All that is said of runs is said with these.
//!
//! **The caller owes** nothing: numbers that nobody has make no sense.
//!
//! A step copies no server, agent or request (`exchange`). The server evaluates what the agent asks, the agent
//! takes the reply, and the server applies the step, which takes no memory. Where the agent is out of memory the
//! step is let go.
//!
//! **Files**: `event`, `done`, `host`, `seat`, `operator`, `opening`, `exchange`, `moves`, `world`, `laws`.
//!
//! **Definitions** (`specs/`): `Worlds`, `Telling`, `Opened`, `Runs`, `Decisions`, `TableOfRun`, `Senses`, `Asking`,
//! `Wanting`, `WorkedRuns` (two runs whose ends are known from outside), `Laws`.
#![tactic(auto)]

mod done;
mod event;
mod exchange;
mod host;
mod laws;
mod moves;
mod opening;
mod operator;
mod seat;
mod world;

pub use done::{Done, EndedJob, Served};
pub use event::Event;
pub use laws::{nothing_comes, runs_go_on, worked_runs};
pub use world::{Stopped, World};
