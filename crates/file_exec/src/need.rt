//! What a transaction needs.

use suite_prefix::LockMode;

/// What is to be known before a transaction can go on.
#[derive(Clone, Copy, Debug, PartialEq, Eq)]
pub enum Need {
    /// A suite is to be held in this mode or a stronger one.
    Hold(u64, LockMode),
    /// The content of a suite is to be known.
    Know(u64),
}
