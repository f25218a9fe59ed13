//! The sides of a copy.

/// What of a copy has a version of its own.
#[derive(Clone, Copy)]
pub(crate) enum Side {
    /// Kind, owner, group, lists and votes.
    Prefix,
    /// Bytes or names.
    Content,
}
