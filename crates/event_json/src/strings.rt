//! Texts as strings of JSON.

ghost use Rattle.std.specs.Prelude.{◌≡◌, ◌++◌, OnOk};
ghost use Rattle.std.specs.List.{flat_map};
ghost use Rattle.hex.specs.Hex.{encode_lower};
ghost use Rattle.event_json.specs.Strings.{byte_text, member, string_text, truth};

use script_text::push_number;
use std::alloc::{AllocError, Global};

/// A text between quotes. A quote and a backslash get one more backslash; each byte that is no printable ASCII stands
/// as the character of its number.
pub fn push_string(alloc: Global, text: &mut Vec<u8>, bytes: &[u8]) -> Result<(), AllocError>
    ensures { OnOk result (text.new.items ≡ text.old.items ++ string_text bytes.now) }
{
    text.extend_from_slice(b"\"")?;
    push_inside(alloc, text, bytes)?;
    text.extend_from_slice(b"\"")
}

fn push_inside(alloc: Global, text: &mut Vec<u8>, bytes: &[u8]) -> Result<(), AllocError>
    ensures { OnOk result (text.new.items ≡ text.old.items ++ flat_map byte_text bytes.now) }
{
    for byte in bytes {
        push_byte(alloc, text, *byte)?;
    }
    Ok(())
}

fn push_byte(alloc: Global, text: &mut Vec<u8>, byte: u8) -> Result<(), AllocError>
    ensures { OnOk result (text.new.items ≡ text.old.items ++ byte_text byte) }
{
    if byte == b'"' || byte == b'\\' {
        text.extend_from_slice(&[b'\\', byte])
    } else if 32 <= byte && byte <= 126 {
        text.extend_from_slice(&[byte])
    } else {
        text.extend_from_slice(b"\\u00")?;
        push_hex(alloc, text, &[byte])
    }
}

/// Bytes as hexadecimal digits, two a byte.
pub(crate) fn push_hex(alloc: Global, text: &mut Vec<u8>, bytes: &[u8]) -> Result<(), AllocError>
    ensures { OnOk result (text.new.items ≡ text.old.items ++ encode_lower bytes.now) }
{
    let digits = hex::encode(alloc, bytes)?;
    text.extend_from_slice(digits.as_bytes())
}

/// What stands before a number, and the number.
pub(crate) fn push_member(text: &mut Vec<u8>, before: &[u8], number: u64) -> Result<(), AllocError>
    ensures { OnOk result (text.new.items ≡ text.old.items ++ member before.now number) }
{
    text.extend_from_slice(before)?;
    push_number(text, number)
}

/// A truth.
pub(crate) fn truth(is_so: bool) -> &'static [u8]
    ensures { result.now ≡ truth is_so }
{
    if is_so { b"true" } else { b"false" }
}
