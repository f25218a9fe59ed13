//! Why a transaction is refused.

ghost use Rattle.std.specs.Prelude.{◌≡◌};
ghost use Rattle.file_ops.specs.declared.refusal.ApplyError.TheVariants.{Memory};

use acl_core::{Decider, Perms};
use std::alloc::AllocError;

/// A denial: of what, what was wanted, and the entry that decided.
#[derive(Clone, Copy, Debug, PartialEq, Eq)]
pub struct Denial {
    pub suite: u64,
    pub wanted: Perms,
    pub decider: Decider,
}

/// Why an operation is refused.
#[derive(Clone, Copy, Debug, PartialEq, Eq)]
pub enum Why {
    /// The path is neither `/` nor one to eight times `/` and a name, or it is `/` where a name is
    /// put in a folder or dropped.
    BadPath,
    /// What the path walks through, or what is to be listed, is no folder.
    NotFolder,
    /// The access check denies what is wanted.
    Denied(Denial),
    /// The name is not in the folder.
    NoName,
    /// The name is in the folder already.
    Exists,
    /// What is to be read or written is a folder.
    IsFolder,
    /// The name that is to be dropped leads to a folder with names.
    NotEmpty,
    /// More than 65,536 bytes are to be written.
    TooLong,
    /// The folder has 1,024 names.
    FolderFull,
    /// There is no operation, or there are too many.
    OpCount,
    /// The votes of what is made, or those that are set, list a server that there is not.
    UnknownServer,
    /// A default list would come to a file.
    DefaultOnFile,
}

/// A refusal: the operation, counted from 1, and why. Where the number of operations is refused, `op`
/// is 0.
#[derive(Clone, Copy, Debug, PartialEq, Eq)]
pub struct Refusal {
    pub op: u8,
    pub why: Why,
}

/// Why a transaction was not played to its end.
#[derive(Clone, Copy, Debug, PartialEq, Eq)]
pub enum ApplyError {
    /// An operation was refused.
    Refused(Refusal),
    /// Memory ran out.
    Memory,
}

impl From<AllocError> for ApplyError {
    ghost from_gives = { λ _ e. e ≡ Memory };

    fn from(_error: AllocError) -> ApplyError {
        ApplyError::Memory
    }
}
