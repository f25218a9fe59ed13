//! Tests of the libraries, of what no clause says: worked examples that came from elsewhere, printed text, what is
//! dropped, streams, and one call of each public function that no program calls. A crate with tests is proved a
//! second time for them, so they stand here.
//!
//! **Files**: `checks`, `fixtures` (what tests share); `streams`, `shelves`, `lists`, `list_text`, `copies`, `faults`.
#![tactic(auto)]

#[cfg(test)]
mod checks;
#[cfg(test)]
mod copies;
#[cfg(test)]
mod faults;
#[cfg(test)]
mod fixtures;
#[cfg(test)]
mod list_text;
#[cfg(test)]
mod lists;
#[cfg(test)]
mod shelves;
#[cfg(test)]
mod streams;
