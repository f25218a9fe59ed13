//! What a quorum gives.

ghost use Rattle.std.specs.Prelude.{◌≡◌};

use std::alloc::AllocError;
use suite_prefix::SharedPrefix;

/// What a quorum gives: the newest prefix, the version of the content, and the first member that showed
/// that version, or server 0, where none did. Before a widening one did.
#[derive(Drop)]
pub struct ReadPoint {
    pub prefix: SharedPrefix,
    pub dver: u64,
    pub source: u8,
}

impl Clone for ReadPoint {
    ghost is_clone = { λ point copy. copy ≡ point };

    fn clone(&self) -> Result<ReadPoint, AllocError> {
        let prefix = self.prefix.clone()?;
        Ok(ReadPoint {
            prefix,
            dver: self.dver,
            source: self.source,
        })
    }
}
