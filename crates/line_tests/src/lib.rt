//! Tests of sessions over an echo: what is heard, kept and told, in order.
//!
//! **Files**: `echo`.
#![tactic(auto)]

#[cfg(test)]
mod echo;
