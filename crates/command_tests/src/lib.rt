//! Tests of the commands: what no row of `crates/rows` can say (`commands`). A crate with tests is proved a second
//! time for them, so they stand here.
#![tactic(auto)]

#[cfg(test)]
mod commands;
