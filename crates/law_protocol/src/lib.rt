//! The protocol of a transaction is its moves: they lead to what the agent function does, and to nothing else.
//!
//! `txn_core` defines the protocol as a relation of 24 moves (its `specs/Moves.antt`) beside the agent function, and
//! proves that whatever the function does is such moves. Here stands that the moves leave no choice: from where a
//! transaction stands, and with a word, each chain of moves comes to the step that the function takes. So whoever
//! reads the moves has read the protocol.
//!
//! A chain counts only if it fetches no content that is to be had without asking (`IsEager`), and the suites that were
//! gathered have to rise by their numbers, as those of every agent do.
//!
//! **Files**: `laws`. **Definitions** (`specs/`): `Protocol`.
#![tactic(auto)]

mod laws;

pub use laws::moves_are_the_protocol;
