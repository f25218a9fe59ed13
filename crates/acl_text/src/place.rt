//! Where the items of a text begin.

ghost use Rattle.std.specs.Prelude.{◌≡◌, ℕ, ◌≤◌, List, ◌++◌, length, IfOk};
ghost use Rattle.std.specs.List.{slice_get};
ghost use Rattle.acl_text.specs.Layout.{comma, parts};
ghost use Rattle.acl_text.specs.Places.{begins, item_place};
ghost use Rattle.acl_text.specs.code.Finding.{found};

use crate::cut::{cut, cut_line, uncommented};

/// Where a part of a line begins, by its number from 0; or the number that is left for what stands below.
fn place_in(line: &[u8], number: usize) -> Result<usize, usize>
    ensures place { (place : ℕ) (more : List ℕ) → slice_get (begins place (parts comma line.now) ++ more) number ≡ found place more result }
    ensures within { IfOk result (λ place. place ≤ length line.now) }
{
    let mut rest = line;
    let mut left = number;
    loop {
        let (_, after) = cut(rest, b',');
        if left == 0 {
            return Ok(line.len() - rest.len());
        }
        left -= 1;
        match after {
            Some(next) => rest = next,
            None => return Err(left),
        }
    }
}

/// The place of the byte with which an item of a text begins, by the item's number as a fault tells it.
pub fn item_place(text: &[u8], number: usize) -> Option<usize>
    ensures { result ≡ item_place text.now number }
{
    let mut below = text;
    let mut left = number.checked_sub(1)?;
    loop {
        let (line, rest) = cut_line(below);
        match place_in(uncommented(line), left) {
            Ok(place) => return Some(text.len() - below.len() + place),
            Err(more) => left = more,
        }
        below = rest?;
    }
}
