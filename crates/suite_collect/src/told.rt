//! What servers say to a collector.

use suite_prefix::{LockMode, SharedPrefix};

/// What a server said when it was asked for a lock.
#[derive(Drop)]
pub enum Said {
    /// The lock is held; the prefix there, and the version of the content.
    Held { prefix: SharedPrefix, dver: u64 },
    /// Another transaction holds a lock that is in the way.
    Busy { holder: u64 },
    /// It is down.
    Down,
}

/// Which server said it, asked for a lock in which mode.
#[derive(Drop)]
pub struct Told {
    pub server: u8,
    pub mode: LockMode,
    pub said: Said,
}
