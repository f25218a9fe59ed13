//! Rows: a command line, an input, and what must be printed for it, as one piece of text.
//!
//! ```text
//! = A named user wants a mask
//! $ acl
//! u::rw,u:1001:r,g::r,o::-
//! > 3
//! fault A7
//! ```
//!
//! A line that begins with `=` is a title: it is that of all rows up to the next one, and ends the row above
//! it. A line that begins with `$` begins a row, and has the words of its command line; `''` is a word with
//! nothing in it. Lines of input follow. A line that begins with `>` ends them, and has the exit status. The
//! lines behind it are those that are printed. All that stands before the first `$` is told to readers alone.
//!
//! So a line of an input never begins with one of these three bytes itself: it is written with `\x3D`, `\x24`
//! or `\x3E`. `line.rt` has all that can be written so.

ghost use Rattle.std.specs.Prelude.{◌≡◌, IsTrue, ◌↔◌};

use crate::line::{Unread, push_line};
use std::alloc::{AllocError, Global};

/// A row, read.
#[derive(Drop)]
pub(crate) struct Row<'a> {
    words: &'a str,
    input: Vec<u8>,
    status: u8,
    output: Vec<u8>,
}

impl<'a> Row<'a> {
    /// Reads a row from what follows its `$`.
    pub(crate) fn read(alloc: Global, text: &'a str) -> Result<Row<'a>, Unread> {
        let text = text.split_once("\n=").map_or(text, |(row, _)| row);
        let Some((given, told)) = text.split_once("\n>") else {
            return Err(Unread::Form);
        };
        let (words, input) = first_line(given);
        let (status, output) = first_line(told);
        let Ok(status) = status.trim().parse::<u8>() else {
            return Err(Unread::Form);
        };
        let input = bytes_of(alloc, input)?;
        let output = bytes_of(alloc, output)?;
        Ok(Row {
            words,
            input,
            status,
            output,
        })
    }

    /// The words of the command line.
    pub(crate) fn words(&self, alloc: Global) -> Result<Vec<&'a str>, AllocError> {
        let mut words = Vec::new(alloc);
        for word in self.words.split_whitespace() {
            words.push(if word == "''" { "" } else { word })?;
        }
        Ok(words)
    }

    /// The bytes of the input.
    pub(crate) fn input(&self) -> &[u8]
        ensures { result.now ≡ self.now.input.items }
    {
        &self.input
    }

    /// The exit status that is wanted.
    pub(crate) fn status(&self) -> u8
        ensures { result ≡ self.now.status }
    {
        self.status
    }

    /// Whether the status and what was printed are those that the row has.
    pub(crate) fn is_met_by(&self, status: u8, printed: &[u8]) -> bool
        ensures { IsTrue result ↔ ((status ≡ self.now.status) × (printed.now ≡ self.now.output.items)) }
    {
        status == self.status && printed == self.output.as_slice()
    }
}

/// The first line of a text, and the lines after it, if there are any.
fn first_line(text: &str) -> (&str, Option<&str>) {
    match text.split_once('\n') {
        Some((line, lines)) => (line, Some(lines)),
        None => (text, None),
    }
}

/// The bytes that lines stand for.
fn bytes_of(alloc: Global, lines: Option<&str>) -> Result<Vec<u8>, Unread> {
    let mut bytes = Vec::new(alloc);
    if let Some(lines) = lines {
        for line in lines.split('\n') {
            push_line(&mut bytes, line.as_bytes())?;
        }
    }
    Ok(bytes)
}
