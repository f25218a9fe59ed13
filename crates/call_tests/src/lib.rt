//! Tests of calls that are served at most once: random runs of both ends.
//!
//! **Files**: `runs`.
#![tactic(auto)]

#[cfg(test)]
mod runs;
