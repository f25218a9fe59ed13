//! What an agent works with.

ghost use Rattle.std.specs.Prelude.{◌≡◌, IfOk};
ghost use Rattle.file_exec.specs.Reaching.{unbegun};

use crate::fixed_parts::FixedParts;
use file_exec::Progress;
use std::alloc::{AllocError, Global};
use weak_cache::WeakCache;

/// What an agent works with, and lends to its job.
#[derive(Drop)]
pub(crate) struct Resources {
    pub(crate) alloc: Global,
    pub(crate) fixed_parts: FixedParts,
    pub(crate) cache: WeakCache,
    /// How far the transaction came that is carried out.
    pub(crate) progress: Progress,
}

impl Resources {
    /// The same.
    pub(crate) fn copy(&self) -> Result<Resources, AllocError>
        ensures parts { IfOk result (λ copy. copy.fixed_parts ≡ self.now.fixed_parts) }
        ensures cache { IfOk result (λ copy. copy.cache ≡ self.now.cache) }
        ensures progress { IfOk result (λ copy. copy.progress ≡ self.now.progress) }
    {
        let fixed_parts = self.fixed_parts.copy(self.alloc)?;
        let cache = self.cache.copy()?;
        let progress = self.progress.copy()?;
        Ok(Resources {
            alloc: self.alloc,
            fixed_parts,
            cache,
            progress,
        })
    }

    /// A transaction is to be executed from its first operation on.
    pub(crate) fn begin_anew(&mut self)
        ensures { self.new ≡ record self.old { progress = unbegun } }
    {
        self.progress = Progress::new(self.alloc);
    }
}
