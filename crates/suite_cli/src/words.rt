//! The words of the command line, as the system gives them.

ghost use Rattle.std.specs.Prelude.{◌≡◌, map, string_bytes, IfOk};

use std::alloc::{AllocError, Global};
use std::env::{Env, FillError};

/// The words after the program's name, where all are UTF-8.
pub fn command_line<R: Env>(rt: &R, alloc: Global) -> Result<Option<Vec<String>>, AllocError> {
    let mut words = Vec::new(alloc);
    for place in 1..usize::MAX {
        let Some(bytes) = word(rt, alloc, place)? else {
            break;
        };
        let Ok(text) = str::from_utf8(&bytes) else {
            return Ok(None);
        };
        words.push(String::from_str(alloc, text)?)?;
    }
    Ok(Some(words))
}

/// The word at a place, or none after the last.
fn word<R: Env>(rt: &R, alloc: Global, place: usize) -> Result<Option<Vec<u8>>, AllocError> {
    let mut buffer = Vec::new(alloc);
    let mut room = 256usize;
    for _ in 0..usize::BITS {
        buffer.resize(room, 0)?;
        match rt.arg(place, &mut buffer) {
            Ok(length) => {
                buffer.truncate(length);
                return Ok(Some(buffer));
            }
            Err(FillError::NotPresent) => return Ok(None),
            Err(FillError::TooLong) => room = room.saturating_mul(2),
        }
    }
    Err(AllocError)
}

/// The words as slices, each word in its place.
pub fn slices<'a>(alloc: Global, words: &'a [String]) -> Result<Vec<&'a str>, AllocError>
    ensures { IfOk result (λ slices. map (λ slice. slice.now) slices.items ≡ map string_bytes words.entry.now) }
{
    let mut slices = Vec::with_capacity(alloc, words.len())?;
    for word in words {
        slices.push(word.as_str())?;
    }
    Ok(slices)
}
