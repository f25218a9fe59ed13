//! What comes next of a collector.

use arrayvec::ArrayVec;
use rep_core::Request;
use suite_prefix::SharedPrefix;
use vote_core::MAX_SERVERS;

/// Some servers in listed order.
pub type Members = ArrayVec<u8, MAX_SERVERS>;

/// What comes next of a collector.
#[derive(Drop)]
pub enum Next<'a> {
    /// The newest prefix, the version of the content, and the members that are held.
    Current {
        prefix: &'a SharedPrefix,
        dver: u64,
        members: Members,
    },
    /// A server is to be asked.
    Ask {
        server: u8,
        request: Request,
    },
    /// Nobody is left to ask. The members that are held have `got` votes of the `needed` ones, and the
    /// first server that was found busy, with the transaction in its way, stands beside them.
    Short {
        got: u32,
        needed: u32,
        busy: Option<(u8, u64)>,
    },
}
