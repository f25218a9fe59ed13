//! A judge of concurrent histories against the plain table: it knows nothing of servers and agents.
//!
//! A history is a list of calls: who called for what and when, and what was told of it and when, or nothing: such a
//! call was carried out or not. A call asks for operations, or for a test: whether it is granted something at a path.
//! A call's number is its place in the list, and the number of its transaction. Times
//! are any numbers; one call precedes another where it was told at a time before the other was called. The numbers of
//! what was made are not compared.
//!
//! **Promises.** `judge` gives an order of the calls that keeps time, in which each that was told was told what the
//! plain table answers, from an opening table on (`specs/Histories.antt`); or a time: there is an order for what was
//! told before it, none for what was told up to it, and none at all (`specs/Verdicts.antt`). It gives up only where
//! memory is refused. What holds of orders in general stands in `specs/Orders.antt`.
//!
//! The search takes one event after the other: a call was told, so it stands in each order of what was told up to then,
//! behind pending calls or not. What it keeps between two events is which pending calls are placed already, with the
//! table behind them: calls that were told are placed in all, and need no mark. So its work is linear in the length of
//! the history. A call that changes nothing wherever it is right is placed as soon as it fits. What changes nothing in
//! one state alone is not: later it may change something. But a call that was not told is not placed where it changes
//! nothing; and of two that come to the same rows, one is dropped that has placed the same calls as the other, or more of
//! those that were not told. Of calls that were not told and are alike, the one that was called first is placed first:
//! they are of one caller, for the same operations on the same names, which make nothing, so that each does the same in
//! the other's place (`alike`). A table is copied for each call that is placed on it; but where one alone is kept, the
//! call that is due is placed on its own table (`stepping`). Orders share their beginnings (`links`).
//!
//! **The caller owes** fewer than 2^60 calls, and an opening table without a file or folder of a number that a call
//! of the history would make. A table that was just opened has none.
//!
//! **Files**: `history`, `fits` (whether what was told fits), `trying` (a call on a table, or on a copy of it), `quiet`
//! (calls that change nothing), `alike`, `window` (which calls are pending), `links`, `placed`, `hints` and `effects`
//! (where the same may be found), `event`, `stepping` (its first step), `search`, `front` (what was told before a time),
//! `verdict`.
//!
//! **Definitions** (`specs/`): `Orders`, `Histories`, `Fronts`, `Verdicts`; of the search `Searches`, `Reads`, `Alike`,
//! `Windows`, `Links`, `Placing`, `Events`.
#![tactic(auto)]

mod alike;
mod effects;
mod event;
mod fits;
mod front;
mod hints;
mod history;
mod links;
mod placed;
mod quiet;
mod search;
mod stepping;
mod trying;
mod verdict;
mod window;

pub use history::{Call, CallOps, CallReply, CallRequest, Seen};
pub use search::order_of;
pub use verdict::{Judgement, judge};
