//! A shelf of values by site, as two intrusive lists over raw pointers.
//!
//! A `Shelf` has a fixed number of slots, and sites numbered below 16. A value that is put is the newest; a touch
//! makes it the newest again. The oldest of all, and the oldest of a site, are found at once.
//!
//! **Promises.** In a contract a shelf is its number of slots and the list of its entries, the newest first
//! (`specs/Shelf.antt`). Each call is the function on that list. A put is refused exactly where no slot is free,
//! and its value comes back. No slot holds two values. Only `Shelf::new` takes memory.
//!
//! **The caller owes** a site below 16 to `put`, `oldest_of` and `len_of`.
//!
//! The nodes lie in one vector that never grows, so no node moves. There is one for each slot, and a head for each
//! site, for the free nodes and for all in use. Each node has pointers to its neighbours in two rings, of all in
//! use and of its site. That they lead along the list, both ways, is the invariant of `Rings`.
//!
//! **Files**: `place` (the three unsafe functions), `node` (how a node leaves and enters a ring), `rings`, `shelf`.
//!
//! **Definitions** (`specs/`): `Shelf`, which is all that a reader has to believe, above its line of dashes. For
//! the proofs: `Places`, `Links`, `Paths`, `Rings`, `Order`, `Held`, `Lending`.
#![tactic(auto)]

mod node;
mod place;
mod rings;
mod shelf;

#[doc(hidden)]
pub use node::{Link, Node, NodeAt};
#[doc(hidden)]
pub use rings::Rings;
pub use shelf::{Shelf, Slot};
