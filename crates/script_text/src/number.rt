//! Numbers as words.

ghost use Rattle.std.specs.Prelude.{◌≡◌, ◌+◌, ◌*◌, ◌^◌, ◌<◌, ◌++◌, OnOk, OnErr, decimal};
ghost use Rattle.std.specs.Option.{SomeIff};
ghost use Rattle.script_text.specs.Numbers.{number_up_to};

use itoa::Buffer;
use std::alloc::AllocError;

/// The number that a word of digits spells, where it is at most a limit. Leading zeros are allowed.
pub fn read_number(word: &[u8], limit: u64) -> Option<u64>
    ensures { result ≡ number_up_to limit word.now }
{
    if word.is_empty() {
        return None;
    }
    let mut value: u64 = 0;
    for byte in word {
        if !byte.is_ascii_digit() {
            return None;
        }
        let Some(longer) = with_digit(value, *byte - b'0') else {
            return None;
        };
        value = longer;
    }
    if value <= limit { Some(value) } else { None }
}

/// The number with one digit more, where it fits.
fn with_digit(value: u64, digit: u8) -> Option<u64>
    ensures { SomeIff result (10 * value + digit < 2 ^ 64) (10 * value + digit) }
{
    value.checked_mul(10)?.checked_add(u64::from(digit))
}

/// Writes a number in decimal digits at the end of some text.
pub fn push_number(text: &mut Vec<u8>, number: u64) -> Result<(), AllocError>
    ensures ok { OnOk result (text.new.items ≡ text.old.items ++ decimal number) }
    ensures err { OnErr result (text.new.items ≡ text.old.items) }
{
    let mut buffer = Buffer::new();
    text.extend_from_slice(buffer.format(number).as_bytes())
}
