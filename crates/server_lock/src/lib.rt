//! The servers of a service, each under a lock of its own (std's `Mutex`), which threads ask.
//!
//! No clause of a call can say what another thread did meanwhile. So what is promised is what always lies under a
//! lock: a `Locked`, which is a server with the **history** of what it served.
//!
//! **Promises.**
//! - A history is legal by its type (`IsLegal`): a replay of its requests from the opening gives its replies and
//!   stamps, and the server as it is. It has at most 1,000,000 items. No thread can falsify it.
//! - `Locked::serve` is the one step: it evaluates the request, makes room for the item, and applies. Without a
//!   reply nothing has changed.
//! - `Servers::ask` takes that step under the lock of the server that it is asked for. It waits for the lock and the
//!   caller's `Gate`. A `ServerAnswer` names that server, and has the request. Its reply is the server's own, and Full and
//!   Stale are exact, of what lay under the lock (`IsTold`, which clauses see and no code).
//! - A `Pass` says how much an asker has seen of each history. Where a history is shorter, the answer is Stale, with
//!   its length; so what an asker reads never goes back.
//! - `Servers::close` gives the histories, ordered by the numbers of the servers. Place names the first server in whose
//!   place another stands; Count the first asker of whom the histories have other items than its pass counted. A fault
//!   has in it what was found under the locks, so that none can be told of servers that were not found so.
//!
//! No clause says that `ask` returns, that two threads ran at once, or that waiting is fair.
//!
//! **The caller owes** a server below their number to `ask`, and a pass only to the servers that it was started
//! with. Which server lies under a lock of a list no type can say. They are put there in order, `ask` waits for the
//! right one, and `close` looks.
//!
//! **Files**: `item`, `history`, `miss`, `answer`, `gate` (where a test can hold a thread), `pass`, `locked`,
//! `servers`, `counting`, `close_fault`, `closing`, `laws`.
//!
//! **Definitions** (`specs/`): `Histories`, `Kept`, `Told`, `Passes`, `Counts`, `Closed`.
#![tactic(auto)]

mod answer;
mod close_fault;
mod closing;
mod counting;
mod gate;
mod history;
mod item;
mod laws;
mod locked;
mod miss;
mod pass;
mod servers;

pub use answer::ServerAnswer;
pub use close_fault::{CloseFault, CloseReason};
pub use closing::close_locked;
pub use gate::{Gate, OpenGate};
pub use history::{Histories, History};
pub use item::Item;
pub use laws::stamps_rise;
pub use locked::{Locked, MAX_ITEMS};
pub use miss::Miss;
pub use pass::Pass;
pub use servers::Servers;
