//! Requests and replies, copies, locks and denials, and what agents do and keep, as JSON. `docs/EVENTS.md` tells the
//! form to whoever reads it.
//!
//! **Promises.** Strings, copies, lists of locks and of denials, verdicts and decisions, requests and replies, what an
//! agent gathered, what its cache keeps and all that a server has are exactly what their definitions give (`specs/`).
//! A number is written as it is, however large. Locks and entries of a cache that are told as changes are those that
//! went and those that came: what stayed is the rest of both lists (`specs/Changes.antt`). That a change is told as
//! small as it can be is not promised. Of a server (`Before`) the copies that a Finish left, and the denials that came,
//! are told beside that.
//!
//! **The caller owes** nothing.
//!
//! **Files**: `strings`, `copies`, `locks`, `requests`, `replies`, `servers`, `agents`, `entries` (of caches).
//! **Definitions** (`specs/`): `Strings`, `Changes`, `Copies`, `Locks`, `Requests`, `Replies`, `Servers`, `Agents`,
//! `Entries`.
#![tactic(auto)]

mod agents;
mod copies;
mod entries;
mod locks;
mod replies;
mod requests;
mod servers;
mod strings;

pub use agents::{push_gathered, stage_word};
pub use copies::push_copy;
pub use entries::{Kept, kept_in, push_cache, push_cache_change};
pub use locks::push_locks;
pub use replies::{push_reply, push_verdict};
pub use requests::{asked_word, push_request};
pub use servers::{Before, push_denials, push_server};
pub use strings::push_string;
