//! What stops a test, told in a word, and texts and numbers that tests are written in.
//!
//! A helper that stops the test costs its caller nothing, where one that hands a failure up is one more way
//! out, in which all that lives there is dropped.

use std::fmt::{Debug, Display};
use std::process::Abort;
use std::str::FromStr;

/// Stops the test where something does not hold.
pub(crate) fn holds(rt: &impl Abort, given: bool, about: &str) {
    assert!(rt; given, "{about}");
}

/// Stops the test where two texts differ.
pub(crate) fn same(rt: &impl Abort, got: &[u8], want: &str, about: &str) {
    holds(rt, got == want.as_bytes(), about);
}

/// Stops the test where what was told in words is something else.
pub(crate) fn tells(rt: &impl Abort, got: String, want: &str, about: &str) {
    assert!(rt; got.as_str() == want, "{about}: {got}");
}

/// Stops the test where a value is written otherwise.
pub(crate) fn shows<T: Debug + Drop>(
    rt: &(impl Abort + AllocGlobal),
    value: T,
    want: &str,
    about: &str,
) {
    tells(rt, debug(rt, value), want, about);
}

/// A value as it is written.
pub(crate) fn debug<T: Debug + Drop>(rt: &(impl Abort + AllocGlobal), value: T) -> String {
    had(rt, format!(in rt.alloc(); "{value:?}"))
}

/// A value as it is printed.
pub(crate) fn printed<T: Display + Drop>(rt: &(impl Abort + AllocGlobal), value: T) -> String {
    had(rt, format!(in rt.alloc(); "{value}"))
}

/// What was made, where it was.
pub(crate) fn had<T: Drop, E: Drop>(rt: &impl Abort, made: Result<T, E>) -> T {
    made.ok().expect(rt, "what a test wants")
}

/// Appends to a list.
pub(crate) fn add<T: Drop>(rt: &impl Abort, list: &mut Vec<T>, item: T) {
    had(rt, list.push(item));
}

/// The cases of a text: a line each, but for the first, and in each what is given and what is wanted, with
/// ` = ` between them.
pub(crate) fn case<'a>(rt: &impl Abort, line: &'a str) -> (&'a str, &'a str) {
    line.split_once(" = ").expect(rt, "a case")
}

/// The first four parts of a text, with nothing blank round them.
pub(crate) fn parts<'a>(text: &'a str, separator: char) -> (&'a str, &'a str, &'a str, &'a str) {
    let mut parts = text.split(separator);
    let first = parts.next().unwrap_or_default().trim();
    let second = parts.next().unwrap_or_default().trim();
    let third = parts.next().unwrap_or_default().trim();
    let fourth = parts.next().unwrap_or_default().trim();
    (first, second, third, fourth)
}

/// A number of any type.
pub(crate) fn number<T: FromStr + Drop>(rt: &impl Abort, digits: &str) -> T
where
    T::Err: Drop,
{
    had(rt, digits.parse::<T>())
}

/// Bytes in hexadecimal digits, with spaces and ends of lines between them.
pub(crate) fn bytes(rt: &(impl Abort + AllocGlobal), hex: &str) -> Vec<u8> {
    let mut bytes = Vec::new(rt.alloc());
    for pair in hex.split_whitespace() {
        add(rt, &mut bytes, had(rt, u8::from_str_radix(pair, 16)));
    }
    bytes
}
