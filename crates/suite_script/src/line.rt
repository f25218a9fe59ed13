//! A line of a script.

use script_text::Words;

/// A line that says something: its number from 1, and the words of it that are left.
#[derive(Drop)]
pub struct Line<'a> {
    pub number: u64,
    pub words: Words<'a>,
}
