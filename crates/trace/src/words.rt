//! Words and numbers that lines are made of.

use script_text::push_number;
use std::alloc::AllocError;
use suite_prefix::LockMode;
pub(crate) use suite_script::push_votes;

/// Adds a word and a number behind it, which mostly has one digit.
pub(crate) fn push_pair(text: &mut Vec<u8>, word: &[u8], number: u64) -> Result<(), AllocError> {
    text.extend_from_slice(word)?;
    if number > 9 {
        return push_number(text, number);
    }
    text.push(b'0' + number as u8)?;
    Ok(())
}

/// The mode of a lock.
pub(crate) fn mode_word(mode: LockMode) -> &'static [u8] {
    if mode.is_exclusive() {
        b" exclusive"
    } else {
        b" shared"
    }
}
