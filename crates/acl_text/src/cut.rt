//! Texts cut into items, and items into fields.

ghost use Rattle.std.specs.Prelude.{◌≡◌, ◌==◌, ◌≤◌, ◌∷◌, length};
ghost use Rattle.std.specs.List.{list_all, position_or_len, prefix_len, suffix_len};
ghost use Rattle.std.specs.Iterator.{YieldsFirstRef, item_count};
ghost use Rattle.acl_text.specs.Layout.{parts, uncommented, is_white, trimmed, items_of, line_feed};
ghost use Rattle.acl_text.specs.code.Remaining.{parts_left};

use memchr::memchr;

/// The place of the first of some byte, or the length where there is none.
fn place_of(bytes: &[u8], byte: u8) -> usize
    ensures place { result ≡ position_or_len (λ b. b == byte) bytes.now }
    ensures within { result ≤ length bytes.now }
{
    bytes.iter().take_while(|b| **b != byte).count()
}

/// A text's first line, and what stands after its end where it has one. The end may be far away.
pub(crate) fn cut_line(text: &[u8]) -> (&[u8], Option<&[u8]>)
    ensures { parts line_feed text.now ≡ result.0.now ∷ parts_left line_feed result.1 }
{
    match memchr(b'\n', text) {
        Some(place) => (&text[..place], Some(&text[place + 1..])),
        None => (text, None),
    }
}

/// What stands before the first separator, and what after it where there is one.
pub(crate) fn cut(bytes: &[u8], separator: u8) -> (&[u8], Option<&[u8]>)
    ensures { parts separator bytes.now ≡ result.0.now ∷ parts_left separator result.1 }
{
    let place = place_of(bytes, separator);
    if place < bytes.len() {
        (&bytes[..place], Some(&bytes[place + 1..]))
    } else {
        (bytes, None)
    }
}

/// A line without its comment.
pub(crate) fn uncommented(line: &[u8]) -> &[u8]
    ensures { result.now ≡ uncommented line.now }
{
    match memchr(b'#', line) {
        Some(place) => &line[..place],
        None => line,
    }
}

fn is_white(byte: u8) -> bool
    ensures { result ≡ is_white byte }
{
    matches!(byte, b' ' | b'\t' | b'\r')
}

/// Whether there is nothing but white space.
pub(crate) fn is_blank(bytes: &[u8]) -> bool
    ensures { result ≡ list_all is_white bytes.now }
{
    bytes.iter().all(|byte| is_white(*byte))
}

/// How much white space some bytes begin with.
fn white_before(bytes: &[u8]) -> usize
    ensures count { result ≡ prefix_len is_white bytes.now }
    ensures short { result ≤ length bytes.now }
{
    bytes.iter().take_while(|byte| is_white(**byte)).count()
}

/// How much white space some bytes end with.
fn white_after(bytes: &[u8]) -> usize
    ensures count { result ≡ suffix_len is_white bytes.now }
    ensures short { result ≤ length bytes.now }
{
    bytes
        .iter()
        .rev()
        .take_while(|byte| is_white(**byte))
        .count()
}

/// Without the white space at both ends.
pub(crate) fn trimmed(bytes: &[u8]) -> &[u8]
    ensures { result.now ≡ trimmed bytes.now }
{
    let begun = &bytes[white_before(bytes)..];
    &begun[..begun.len() - white_after(begun)]
}

/// The items of a text, one after another.
#[derive(Drop)]
pub(crate) struct Items<'a> {
    line: Option<&'a [u8]>,
    lines: Option<&'a [u8]>,
}

impl<'a> Items<'a> {
    ghost use Rattle.acl_text.specs.code.Remaining.{items_left};

    /// The items of a text.
    pub(crate) fn of(text: &'a [u8]) -> Items<'a>
        ensures { items_left result ≡ items_of text.now }
    {
        Items {
            line: None,
            lines: Some(text),
        }
    }
}

impl<'a> Iterator for Items<'a> {
    ghost use Rattle.acl_text.specs.code.Remaining.{items_left};

    type Item = &'a [u8];

    ghost next_gives = { YieldsFirstRef items_left };

    ghost remaining = { item_count items_left };

    #[inline(always)]
    fn next(&mut self) -> Option<&'a [u8]> {
        let (item, line) = match self.line {
            Some(rest) => cut(rest, b','),
            None => {
                let (line, lines) = cut_line(self.lines?);
                self.lines = lines;
                cut(uncommented(line), b',')
            }
        };
        self.line = line;
        Some(item)
    }
}
