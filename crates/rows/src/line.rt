//! Lines of inputs and outputs as rows have them.
//!
//! A line stands for its bytes and a line feed. `\c` at its end leaves out the line feed; `\r` is a carriage
//! return, `\t` a tab, `\\` a backslash, and `\xFF` the byte with these two hexadecimal digits.

ghost use Rattle.std.specs.Prelude.{◌<◌, IfSome, length};

use std::alloc::{AllocError, AllocFailed};

/// Why a text was not read.
#[derive(Clone, Copy)]
pub(crate) enum Unread {
    /// It is no row: it has no status, or a backslash that says nothing.
    Form,
    /// Memory ran out.
    Memory,
}

impl From<AllocError> for Unread {
    fn from(_error: AllocError) -> Unread {
        Unread::Memory
    }
}

impl<T: Drop> From<AllocFailed<T>> for Unread {
    fn from(_error: AllocFailed<T>) -> Unread {
        Unread::Memory
    }
}

/// Appends the bytes that a line stands for.
pub(crate) fn push_line(bytes: &mut Vec<u8>, line: &[u8]) -> Result<(), Unread> {
    let mut rest = line;
    while let Some((first, others)) = rest.split_first() {
        if *first != b'\\' {
            bytes.push(*first)?;
            rest = others;
            continue;
        }
        if others == b"c".as_slice() {
            return Ok(());
        }
        let Some((byte, others)) = escaped(others) else {
            return Err(Unread::Form);
        };
        bytes.push(byte)?;
        rest = others;
    }
    bytes.push(b'\n')?;
    Ok(())
}

/// The byte that is written after a backslash, and what follows it.
fn escaped(text: &[u8]) -> Option<(u8, &[u8])>
    ensures { IfSome result (λ read. length read.1.now < length text.now) }
{
    match text {
        [b'r', rest @ ..] => Some((b'\r', rest)),
        [b't', rest @ ..] => Some((b'\t', rest)),
        [b'\\', rest @ ..] => Some((b'\\', rest)),
        [b'x', high, low, rest @ ..] => Some((digit(*high)? * 16 + digit(*low)?, rest)),
        _ => None,
    }
}

/// The number of a hexadecimal digit.
fn digit(byte: u8) -> Option<u8>
    ensures { IfSome result (λ digit. digit < 16) }
{
    match byte {
        b'0'..=b'9' => Some(byte - b'0'),
        b'A'..=b'F' => Some(byte - b'A' + 10),
        b'a'..=b'f' => Some(byte - b'a' + 10),
        _ => None,
    }
}
