//! How a file or a folder is locked.

ghost use Rattle.std.specs.Prelude.{◌≡◌};
ghost use Rattle.suite_prefix.specs.LockModes as mode;

/// How a transaction locks a file or a folder.
#[derive(Clone, Copy, Debug, PartialEq, Eq)]
pub enum LockMode {
    /// Beside other shared locks.
    Shared,
    /// Alone.
    Exclusive,
}

impl LockMode {
    /// Whether nothing else may be locked beside it.
    pub fn is_exclusive(self) -> bool
        ensures { result ≡ mode.is_exclusive self }
    {
        match self {
            LockMode::Shared => false,
            LockMode::Exclusive => true,
        }
    }

    /// Whether a lock in this mode serves where one in the other is wanted.
    pub fn serves(self, wanted: LockMode) -> bool
        ensures { result ≡ mode.serves self wanted }
    {
        self.is_exclusive() || !wanted.is_exclusive()
    }

    /// The stronger of two modes.
    pub fn stronger(self, other: LockMode) -> LockMode
        ensures { result ≡ mode.stronger self other }
    {
        match self {
            LockMode::Shared => other,
            LockMode::Exclusive => LockMode::Exclusive,
        }
    }
}
