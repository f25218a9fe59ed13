//! What is told of rows.

ghost use Rattle.std.specs.Prelude.{◌≡◌, ◌<◌};

use std::alloc::{AllocError, Global};

/// Where a row stands: the number of its line, and its title.
#[derive(Clone, Copy)]
pub(crate) struct RowAt<'a> {
    pub(crate) line: usize,
    pub(crate) title: &'a str,
}

impl<'a> RowAt<'a> {
    /// The place after a part of a text that begins here.
    pub(crate) fn after(self, part: &'a str) -> RowAt<'a> {
        let title = match part.rsplit_once("\n=") {
            Some((_, after)) => after.split_once('\n').map_or(after, |(title, _)| title),
            None => self.title,
        };
        RowAt {
            line: self.line.saturating_add(part.split('\n').count()),
            title: title.trim(),
        }
    }
}

/// What is told of the rows so far.
#[derive(Drop)]
pub(crate) struct Report {
    alloc: Global,
    text: Vec<u8>,
    rows: u64,
    differences: u64,
}

impl Report {
    /// Nothing yet.
    pub(crate) fn new(alloc: Global) -> Report {
        Report {
            alloc,
            text: Vec::new(alloc),
            rows: 0,
            differences: 0,
        }
    }

    /// What memory is taken from.
    pub(crate) fn alloc(&self) -> Global {
        self.alloc
    }

    /// Counts a row.
    pub(crate) fn count(&mut self) {
        self.rows = self.rows.saturating_add(1);
    }

    /// Adds a row that answered with another status, or printed something else.
    pub(crate) fn add_difference(
        &mut self,
        place: RowAt<'_>,
        status: u8,
        printed: &[u8],
    ) -> Result<(), AllocError> {
        let RowAt { line, title } = place;
        let head = format!(in self.alloc; "line {line}: {title}: status {status}, and printed\n")?;
        self.differences = self.differences.saturating_add(1);
        self.text.extend_from_slice(head.as_bytes())?;
        self.text.extend_from_slice(printed)
    }

    /// Adds a row that cannot be read.
    pub(crate) fn add_bad_row(&mut self, place: RowAt<'_>) -> Result<(), AllocError> {
        let RowAt { line, title } = place;
        let head = format!(in self.alloc; "line {line}: {title}: no row\n")?;
        self.differences = self.differences.saturating_add(1);
        self.text.extend_from_slice(head.as_bytes())
    }

    /// Adds the last line, which counts the rows.
    pub(crate) fn finish(&mut self) -> Result<(), AllocError> {
        let (rows, differences) = (self.rows, self.differences);
        let last = if differences == 0 {
            format!(in self.alloc; "{rows} rows\n")?
        } else {
            format!(in self.alloc; "{rows} rows, {differences} differences\n")?
        };
        self.text.extend_from_slice(last.as_bytes())
    }

    /// All that is told.
    pub(crate) fn text(&self) -> &[u8] {
        &self.text
    }

    /// The exit status: 1 where a row differs.
    pub(crate) fn status(&self) -> u8
        ensures differs { 0 < self.now.differences → result ≡ 1 }
        ensures agrees { self.now.differences ≡ 0 → result ≡ 0 }
    {
        u8::from(self.differences > 0)
    }
}
