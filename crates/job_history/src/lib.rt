//! What jobs asked for and were told, as a history for `./suites judge`.
//!
//! **Promises.** `Calls::of` writes down the opening and what each job asks for, before the jobs are handed on.
//! `history_of` makes the text (`IsHistory`): the opening, and then for each job one line where it was called and one
//! where it was told, in the order of the numbers that were drawn for both. The number of a job's call is below that
//! of its end, which `are_right` tells. What is written of a job is what it asks for and how it ended, as these
//! definitions have it. The lines of a job of which a history's table can tell nothing are comments: a transaction that
//! ended undecided, whose caller was told that it changed nothing; a sweep, which is no call of a client; and what was
//! refused since a server is not there. That one number was drawn before another is a fact of threads, which no
//! clause can say.
//!
//! A history is of one plain table with the votes of a script's header: a `do` above all calls sets those of the root
//! folder, and what is made without votes is written with them. A path that is none is written `?`, which is none
//! either, and a denial without who denied.
//!
//! **The caller owes** that spans are right to `history_of`.
//!
//! **Files**: `operation`, `call`, `told`, `event`, `history`. **Definitions** (`specs/`): `Operations`, `Calls`,
//! `Told`, `Events`, `Histories`.
#![tactic(auto)]

mod call;
mod event;
mod history;
mod operation;
mod told;

pub use call::Calls;
pub use event::{HistoryEvent, Span, are_right};
pub use history::history_of;
