//! The lines of a script of events as they are written, below its header and names.

use script_text::{Lines, Words};
use std::alloc::AllocError;
use suite_play::Places;
use suite_script::Language;

/// The lines of a script that are left, and how many are not.
#[derive(Drop)]
pub(crate) struct Numbered<'a> {
    lines: Lines<'a>,
    number: u64,
}

impl<'a> Numbered<'a> {
    /// The lines of a script.
    pub(crate) fn new(text: &'a [u8]) -> Numbered<'a> {
        Numbered {
            lines: Lines::new(text),
            number: 0,
        }
    }

    /// The next line that is an event, or several, with its number; nothing, where there is none.
    pub(crate) fn next_event(&mut self) -> (u64, &'a [u8]) {
        while let Some(line) = self.lines.next() {
            self.number = self.number.saturating_add(1);
            if let Some(first) = Words::new(line).next()
                && Places::begins(first)
            {
                return (self.number, line);
            }
        }
        (self.number, b"")
    }
}

/// Tells a line of the script.
pub(crate) fn push_line(text: &mut Vec<u8>, line: &[u8]) -> Result<(), AllocError> {
    text.extend_from_slice(b"> ")?;
    text.extend_from_slice(line)?;
    text.extend_from_slice(b"\n")
}
