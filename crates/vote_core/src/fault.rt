//! Why votes are refused.

use thiserror::Error;

/// What keeps votes from being valid, in the order in which it is answered.
#[derive(Clone, Copy, PartialEq, Eq, Debug, Error)]
pub enum VotesFault {
    /// No representative is listed.
    #[error("no server is listed")]
    Empty,
    /// A server is listed that there is not.
    #[error("a server is listed that is not there")]
    UnknownServer,
    /// A server is listed more than once.
    #[error("a server is listed twice")]
    ListedTwice,
    /// No representative has a vote.
    #[error("nobody has a vote")]
    NoVotes,
    /// A read or a write wants no vote, or more votes than there are.
    #[error("what a read or a write collects is 0, or more than all votes")]
    ThresholdOutOfRange,
    /// A read quorum and a write quorum need not share a member.
    #[error("a read and a write need not meet in a vote")]
    ReadMissesWrite,
    /// Two write quorums need not share a member.
    #[error("two writes need not meet in a vote")]
    WritesDisjoint,
}
