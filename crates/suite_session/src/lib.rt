//! A session over the language of `play`: what each of its lines means.
//!
//! A session begins with no header. Its lines are given one after the other as `play` has them, and from then on there
//! is a world. Users and groups may be named anywhere below the header.
//!
//! **Promises.** `first_desk` is a `script_desk::ScriptDesk` of which no line was read. What a line of the header
//! leaves is said by the definitions of `suite_play`, line by line (`specs/Headings.antt`); a line below the header
//! prints what `play` prints for it, and leaves the world that `play` has after it (`specs/Services.antt`).
//!
//! At each moment the world of a session is that of its events so far, so all is promised of it that is promised of
//! a run (`session_is_promised`). A session over a text that `play` reads without a fault is told what `play` prints
//! for it (`session_is_play`), and lines below a header are as well (`lines_below_are_played`).
//!
//! Lines that ask are for whoever looks after the servers: they check no access, and change nothing. `row PATH` tells
//! what stands at a path, and `content PATH` the bytes of the file there, as the newest of all copies in effect have it
//! (`specs/Rows.antt`): that is the row of the run's one table (`rows_are_the_tables`), also where a home has decided and
//! nothing is finished yet.
//! `copies PATH` tells what each server has stored of it (`specs/Copies.antt`), `locks` who holds what lock at which server
//! (`specs/HeldLocks.antt`), and `room` how many places of each server are taken, and by how many things that no folder
//! names any more (`specs/Places.antt`). A place that a prepared transaction takes is counted once it is finished.
//!
//! **The caller owes** nothing. Names are looked up by fixed keys, since no text is there from which keys could come.
//!
//! **Files**: `heading` (a header so far), `open_service` (a world below a header), `play_service`, `question`
//! (lines that ask), `newest` (the newest copies of a suite), `side`, `shown` (what stands at a path), `copies` (what
//! each server has of it), `held_locks`, `places`, `named` (which numbers folders name), `laws`, `start`.
//! **Definitions** (`specs/`): `Headings`, `Services`, `Questions`, `Rows`, `TableRows`, `Copies`, `HeldLocks`,
//! `Places`, `Promised`, `Played`.
#![tactic(auto)]

mod copies;
mod heading;
mod held_locks;
mod laws;
mod named;
mod newest;
mod open_service;
mod places;
mod play_service;
mod question;
mod shown;
mod side;
mod start;

pub use heading::Heading;
pub use laws::{lines_below_are_played, rows_are_the_tables, session_is_play, session_is_promised};
pub use open_service::OpenService;
pub use play_service::PlayService;
pub use start::first_desk;
