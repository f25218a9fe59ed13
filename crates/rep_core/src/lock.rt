//! Locks.

use suite_prefix::LockMode;

/// A lock of a transaction on a suite. A prepared one outlives a crash.
#[derive(Clone, Copy, Debug)]
pub struct Lock {
    pub t: u64,
    pub suite: u64,
    pub mode: LockMode,
    pub prepared: bool,
}

impl PartialEq for Lock {
    ghost use Rattle.rep_core.specs.code.Equality.{same_lock, same_lock_partial_laws};

    ghost eq = { same_lock };

    ghost laws = { same_lock_partial_laws };

    fn eq(&self, other: &Lock) -> bool {
        self.t == other.t
            && self.suite == other.suite
            && self.mode == other.mode
            && self.prepared == other.prepared
    }
}

impl Eq for Lock {
    ghost use Rattle.rep_core.specs.code.Equality.{same_lock_laws};

    ghost laws = { same_lock_laws };
}
