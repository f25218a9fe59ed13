//! Intentions, kept as the bytes of what they leave.

use std::alloc::AllocError;
use suite_prefix::StoredCopy;

/// What a prepared transaction leaves of a suite once it is decided, and whether it takes a whole copy. The bytes are
/// shared by clones.
#[derive(Drop)]
pub(crate) struct Planned {
    pub(crate) t: u64,
    pub(crate) whole: bool,
    pub(crate) left: StoredCopy,
}

impl Clone for Planned {
    ghost use Rattle.std.specs.Prelude.{◌≡◌};

    ghost is_clone = { λ planned copy. copy ≡ planned };

    fn clone(&self) -> Result<Planned, AllocError> {
        let left = self.left.clone()?;
        Ok(Planned {
            t: self.t,
            whole: self.whole,
            left,
        })
    }
}
