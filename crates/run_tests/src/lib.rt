//! Tests of runs: of the collector, worlds, servers under locks, agents in threads, and what is promised and
//! certified of all that. They look at what these show: events, talks, replies, and that calls succeed while there
//! is memory. What a script can say is a row of `rows`. A crate with tests is proved a second time for them,
//! so they stand here.
//!
//! **Files**: `fixtures`, `events`, `ends` (what tests share); `collector`, `worlds`, `promises`;
//! `asking`, `locks`; `crew`, `files`, `overlap`, `runs`, `certified`, `test_cluster`.
#![tactic(auto)]

/// What a call gives, where memory may be refused to it once. It writes the call twice, so it stands in small helpers.
#[cfg(test)]
macro_rules! again {
    ($rt:expr, $call:expr) => {
        match $call {
            Ok(given) => given,
            Err(_) => $call.ok().expect($rt, "memory"),
        }
    };
}

#[cfg(test)]
mod asking;
#[cfg(test)]
mod certified;
#[cfg(test)]
mod collector;
#[cfg(test)]
mod crew;
#[cfg(test)]
mod ends;
#[cfg(test)]
mod events;
#[cfg(test)]
mod files;
#[cfg(test)]
mod fixtures;
#[cfg(test)]
mod locks;
#[cfg(test)]
mod overlap;
#[cfg(test)]
mod promises;
#[cfg(test)]
mod runs;
#[cfg(test)]
mod test_cluster;
#[cfg(test)]
mod worlds;
