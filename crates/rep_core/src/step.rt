//! What a server would answer and do.

use crate::intention::Planned;
use crate::kept_verdict::KeptVerdict;
use crate::request::Part;
use file_ops::AuditItem;
use suite_prefix::LockMode;

/// What a server would answer to a request, and do, but for the reply: what doing it takes.
#[derive(Drop)]
pub struct Step<'a> {
    pub(crate) stamp: u64,
    pub(crate) change: Change<'a>,
}

/// What is to be done at a server, but for its stamp. The parts of a Prepare stand in the request.
#[derive(Drop)]
pub(crate) enum Change<'a> {
    /// Nothing.
    Nothing,
    /// A lock is set, or made stronger.
    Lock {
        t: u64,
        suite: u64,
        mode: LockMode,
    },
    /// These intentions are kept, and the locks of the parts are prepared.
    Keep {
        t: u64,
        parts: &'a [Part],
        planned: Vec<(u64, Planned)>,
    },
    /// A verdict is recorded that is no denial.
    Record {
        t: u64,
        verdict: KeptVerdict,
    },
    /// A denial is recorded, as a verdict and in the audit.
    Deny(AuditItem),
    /// A transaction is let go. Where it was answered, what it leaves is installed.
    Finish {
        t: u64,
        answered: bool,
    },
    /// A lock goes that is not prepared.
    Unlock {
        t: u64,
        suite: u64,
    },
    /// It crashes.
    Crash,
    /// It is up.
    Return,
}
