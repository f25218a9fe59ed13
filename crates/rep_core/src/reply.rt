//! What a server answers.

use crate::lock::Lock;
use file_ops::{Answers, Refusal};
use std::alloc::AllocError;
use std::marker::Model;
use std::sync::ArcSlice;
use suite_prefix::{Content, SharedPrefix};

/// How a transaction ended.
#[derive(Debug, Drop)]
pub enum Verdict {
    /// With these replies.
    Answered(Answers),
    /// Refused.
    Refused(Refusal),
    /// Without effect, by somebody else's word.
    Aborted,
}

impl Clone for Verdict {
    ghost use Rattle.std.specs.Prelude.{◌≡◌, IfOk, IfErr, IsTrue};
    ghost use Rattle.rep_core.specs.Service.{is_answered};

    ghost is_clone = { λ verdict copy. copy ≡ verdict };

    /// The same verdict. Only to share answers it may need memory.
    fn clone(&self) -> Result<Verdict, AllocError>
        ensures ok { IfOk result (λ copy. copy ≡ self.now) }
        ensures memory { IfErr result (λ _. IsTrue (is_answered self.now)) }
    {
        match self {
            Verdict::Answered(replies) => Ok(Verdict::Answered(replies.clone()?)),
            Verdict::Refused(refusal) => Ok(Verdict::Refused(*refusal)),
            Verdict::Aborted => Ok(Verdict::Aborted),
        }
    }
}

impl PartialEq for Verdict {
    ghost use Rattle.rep_core.specs.code.Equality.{same_verdict, same_verdict_partial_laws};

    ghost eq = { same_verdict };

    ghost laws = { same_verdict_partial_laws };

    fn eq(&self, other: &Verdict) -> bool {
        match (self, other) {
            (Verdict::Answered(own), Verdict::Answered(theirs)) => own == theirs,
            (Verdict::Refused(own), Verdict::Refused(theirs)) => own == theirs,
            (Verdict::Aborted, Verdict::Aborted) => true,
            _ => false,
        }
    }
}

impl Eq for Verdict {
    ghost use Rattle.rep_core.specs.code.Equality.{same_verdict_laws};

    ghost laws = { same_verdict_laws };
}

/// The locks of a server, by transaction, then suite. A clone shares them.
#[derive(Debug, Drop)]
pub struct LockList {
    locks: ArcSlice<Lock>,
}

impl Model for LockList {
    ghost use Rattle.std.specs.Prelude.{List};
    ghost use Rattle.std.specs.Arc.{arc_slice_items};
    ghost use Rattle.rep_core.specs.declared.lock.Lock.{Lock};

    ghost Value = { List Lock };

    ghost view = { λ list. arc_slice_items list.locks };
}

impl Clone for LockList {
    ghost use Rattle.std.specs.Prelude.{◌≡◌};

    ghost is_clone = { λ list copy. copy ≡ list };

    fn clone(&self) -> Result<LockList, AllocError> {
        let locks = self.locks.clone()?;
        Ok(LockList { locks })
    }
}

impl PartialEq for LockList {
    ghost use Rattle.rep_core.specs.code.Equality.{same_locks, same_locks_partial_laws};

    ghost eq = { same_locks };

    ghost laws = { same_locks_partial_laws };

    fn eq(&self, other: &LockList) -> bool {
        self.locks == other.locks
    }
}

impl Eq for LockList {
    ghost use Rattle.rep_core.specs.code.Equality.{same_locks_laws};

    ghost laws = { same_locks_laws };
}

impl LockList {
    ghost use Rattle.std.specs.Prelude.{◌≡◌, IfOk};

    /// The locks of a vector, which are not copied.
    pub fn from_vec(locks: Vec<Lock>) -> Result<LockList, AllocError>
        ensures { IfOk result (λ list. list ≡ locks.items) }
    {
        let locks = ArcSlice::from_vec(locks)?;
        Ok(LockList { locks })
    }

    /// The locks.
    pub fn as_slice(&self) -> &[Lock]
        ensures { result.now ≡ self.now }
    {
        &self.locks
    }
}

/// What a server answers. A clone shares lists, contents and replies.
#[derive(Debug, Drop)]
pub enum Reply {
    /// The lock is held; the prefix there, and the version of the content.
    Held { prefix: SharedPrefix, dver: u64 },
    /// Another transaction's lock stands in the way: whose, and whether it is prepared.
    Busy { holder: u64, prepared: bool },
    /// There is no such lock.
    Lost,
    /// The content there, and its version.
    Given { dver: u64, content: Content },
    /// The locks are prepared.
    Prepared,
    /// How the transaction ended.
    Verdict(Verdict),
    /// It is done.
    Done,
    /// The locks.
    Locked(LockList),
    /// The server is down.
    Down,
}

impl Clone for Reply {
    ghost use Rattle.std.specs.Prelude.{◌≡◌};

    ghost is_clone = { λ reply copy. copy ≡ reply };

    fn clone(&self) -> Result<Reply, AllocError> {
        Ok(match self {
            Reply::Held { prefix, dver } => {
                let prefix = prefix.clone()?;
                Reply::Held {
                    prefix,
                    dver: *dver,
                }
            }
            Reply::Busy { holder, prepared } => Reply::Busy {
                holder: *holder,
                prepared: *prepared,
            },
            Reply::Lost => Reply::Lost,
            Reply::Given { dver, content } => {
                let content = content.clone()?;
                Reply::Given {
                    dver: *dver,
                    content,
                }
            }
            Reply::Prepared => Reply::Prepared,
            Reply::Verdict(verdict) => Reply::Verdict(verdict.clone()?),
            Reply::Done => Reply::Done,
            Reply::Locked(locks) => Reply::Locked(locks.clone()?),
            Reply::Down => Reply::Down,
        })
    }
}

impl PartialEq for Reply {
    ghost use Rattle.rep_core.specs.code.Equality.{same_reply, same_reply_partial_laws};

    ghost eq = { same_reply };

    ghost laws = { same_reply_partial_laws };

    fn eq(&self, other: &Reply) -> bool {
        match (self, other) {
            (
                Reply::Held { prefix, dver },
                Reply::Held {
                    prefix: theirs,
                    dver: version,
                },
            ) => prefix == theirs && dver == version,
            (
                Reply::Busy { holder, prepared },
                Reply::Busy {
                    holder: other,
                    prepared: theirs,
                },
            ) => holder == other && prepared == theirs,
            (
                Reply::Given { dver, content },
                Reply::Given {
                    dver: version,
                    content: theirs,
                },
            ) => dver == version && content == theirs,
            (Reply::Verdict(own), Reply::Verdict(theirs)) => own == theirs,
            (Reply::Locked(own), Reply::Locked(theirs)) => own == theirs,
            (Reply::Lost, Reply::Lost)
            | (Reply::Prepared, Reply::Prepared)
            | (Reply::Done, Reply::Done)
            | (Reply::Down, Reply::Down) => true,
            _ => false,
        }
    }
}

impl Eq for Reply {
    ghost use Rattle.rep_core.specs.code.Equality.{same_reply_laws};

    ghost laws = { same_reply_laws };
}
