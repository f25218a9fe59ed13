//! Callers, read from their text.

ghost use Rattle.std.specs.Prelude.{◌≡◌};
ghost use Rattle.acl_text.specs.Callers.{caller_in, caller_with};

use acl_core::Caller;
use script_text::Numbers;

/// The most numbers of a caller's groups: its own and the others.
const MAX_NUMBERS: usize = 33;

/// A caller of some user, with the numbers of its groups between commas, its own first; if the text is such numbers,
/// and not too many.
pub fn read_caller(uid: u32, text: &[u8]) -> Option<Caller>
    ensures { result ≡ caller_in uid text.now }
{
    let mut numbers = [0; MAX_NUMBERS];
    let mut count = 0;
    for number in Numbers::new(text, b',', u32::MAX) {
        if count == MAX_NUMBERS {
            return None;
        }
        numbers[count] = number?;
        count += 1;
    }
    caller_with(uid, &numbers[..count])
}

fn caller_with(uid: u32, numbers: &[u32]) -> Option<Caller>
    ensures { result ≡ caller_with uid numbers.now }
{
    match numbers {
        [gid, groups @ ..] => Caller::new(uid, *gid, groups).ok(),
        [] => None,
    }
}
