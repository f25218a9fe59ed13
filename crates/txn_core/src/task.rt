//! A transaction.

ghost use Rattle.std.specs.Prelude.{◌≡◌, ◌<◌, ◌^◌, IfOk};
ghost use Rattle.weak_cache.specs.Entries.{max_sites};

use crate::job::{Ops, SharedCaller};
use std::alloc::AllocError;
use std::marker::Model;

/// A transaction: its number, its caller, at which site, and what is asked.
#[derive(Drop)]
pub(crate) struct Task {
    pub(crate) t: u64,
    pub(crate) caller: SharedCaller,
    pub(crate) site: u8,
    pub(crate) ops: Ops,
}

impl Model for Task {
    ghost use Rattle.txn_core.specs.Doing as doing;

    ghost Value = { doing.Task };

    ghost use Rattle.txn_core.specs.code.TaskFields.{task_of, IsTask};

    ghost view = { task_of };

    ghost invariant = { IsTask };
}

impl Task {
    /// The same. Caller and operations are shared.
    pub(crate) fn copy(&self) -> Result<Task, AllocError>
        ensures { IfOk result (λ copy. copy ≡ self.now) }
    {
        let caller = self.caller.clone()?;
        let ops = self.ops.clone()?;
        Ok(Task {
            t: self.t,
            caller,
            site: self.site,
            ops,
        })
    }

    /// A law: its number is below 2^60, and its site one of an agent's. It does nothing.
    pub(crate) fn facts(&self)
        ensures number { self.now.t < 2 ^ 60 }
        ensures site { self.now.site < max_sites }
    {
        let _ = &self.ops;
    }
}
