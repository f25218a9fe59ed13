//! Maps kept as vectors of pairs, sorted by key.
//!
//! A look-up is a binary search. In a `SortedMap` or a `RoomyMap` a new key moves the pairs behind it up by one place,
//! and a removal moves them down. So a key above all others is put in by a push. A `BlockMap` is for a large map that
//! changes all over: it keeps its pairs in blocks, and an edit moves those of one block, mostly 64 at most.
//!
//! **Promises.** In a contract a `SortedMap` is the list of its pairs. Each call is the look-up or the edit of that
//! list (`get`, `first_from`, `insert`, `remove`). An insertion that is out of memory gives the pair back and leaves
//! the map. A `RoomyMap` and a `BlockMap` show their room too: how many new keys they take without memory. They are for
//! a caller that reserves while it may fail, and inserts when it may not.
//!
//! **The caller owes** pairs in order to `RoomyMap::from_ordered`, and room for a new key to `insert_in_room`.
//!
//! **Files**: `roomy`, `map`, `blocks`, `block_copies`. **Definitions** (`specs/`): `SortedMap`, `Roomy`, `Blocks`,
//! `Lends`, `Comparisons`. The others are laws for proofs above: `Laws`, `Exact`, `Edits`, `Numbers` (keys that are
//! numbers), `Texts` (keys that are texts).
#![tactic(auto)]

mod block_copies;
mod blocks;
mod map;
mod roomy;

pub use blocks::BlockMap;
pub use map::SortedMap;
pub use roomy::RoomyMap;
