//! The qualifier of an entry: bytes of a name, or a number.

ghost use Rattle.std.specs.Prelude.{◌≡◌, ◌+◌, ◌*◌, ◌^◌, ◌<◌, None};
ghost use Rattle.std.specs.Char.{is_ascii_digit};
ghost use Rattle.std.specs.List.{list_all};
ghost use Rattle.std.specs.Option.{SomeIff};
ghost use Rattle.acl_text.specs.Qualifiers.{is_name_byte, id_of};
ghost use Rattle.acl_text.specs.code.Reading.{AreDigits};

/// Whether a byte may stand in a name: printing, and without a meaning of its own in a list's text.
fn is_name_byte(byte: u8) -> bool
    ensures { result ≡ is_name_byte byte }
{
    (33..=126).contains(&byte) && !matches!(byte, b':' | b',' | b'#' | b'\\')
}

/// Whether all bytes may stand in a name.
pub(crate) fn is_qualifier(bytes: &[u8]) -> bool
    ensures { result ≡ list_all is_name_byte bytes.now }
{
    bytes.iter().all(|byte| is_name_byte(*byte))
}

/// Whether all bytes are digits.
pub(crate) fn is_number(bytes: &[u8]) -> bool
    ensures { result ≡ list_all is_ascii_digit bytes.now }
{
    bytes.iter().all(|byte| byte.is_ascii_digit())
}

/// What the bytes of a qualifier are.
#[derive(Clone, Copy)]
pub(crate) enum Digits {
    /// Digits alone, and the number that they write.
    Number(u32),
    /// Digits alone, which write a number that no user and no group can have.
    TooBig,
    /// Not digits alone.
    Other,
}

/// The number that digits write, or why there is none.
pub(crate) fn digits_in(bytes: &[u8]) -> Digits
    ensures { AreDigits result bytes.now }
{
    let mut number: u32 = 0;
    for byte in bytes {
        if !byte.is_ascii_digit() {
            return Digits::Other;
        }
        let Some(longer) = with_digit(number, *byte - b'0') else {
            return unfit(bytes);
        };
        number = longer;
    }
    Digits::Number(number)
}

/// The number with one digit more, where a user or a group can have it.
fn with_digit(number: u32, digit: u8) -> Option<u32>
    ensures { SomeIff result (number * 10 + digit < 2 ^ 32) (number * 10 + digit) }
{
    number.checked_mul(10)?.checked_add(u32::from(digit))
}

/// What bytes are that begin with a number that is too big.
fn unfit(bytes: &[u8]) -> Digits
    requires { id_of bytes.now ≡ None }
    ensures { AreDigits result bytes.now }
{
    if is_number(bytes) {
        Digits::TooBig
    } else {
        Digits::Other
    }
}
