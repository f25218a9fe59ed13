//! The denials of a table.

use crate::refusal::Denial;

/// A denial as the table keeps it: the transaction, its caller, the operation, counted from 1, and
/// what was denied.
#[derive(Clone, Copy, Debug, PartialEq, Eq)]
pub struct AuditItem {
    pub t: u64,
    pub uid: u32,
    pub op: u8,
    pub denial: Denial,
}
