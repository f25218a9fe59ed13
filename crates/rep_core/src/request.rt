//! What a server is asked.

use crate::reply::Verdict;
use file_ops::{Answers, Refusal};
use std::alloc::AllocError;
use std::marker::Model;
use suite_prefix::{LockMode, Prefix, Replica};

/// What a transaction leaves of a suite at a server once it is decided. A clone shares lists and content.
#[derive(Debug, Drop)]
pub enum Take {
    /// What was there.
    Keep,
    /// This prefix: the content stays, with its version. Where nothing was made it becomes the empty
    /// content of the prefix's kind.
    Prefix(Prefix),
    /// This copy.
    Whole(Replica),
}

impl Clone for Take {
    ghost use Rattle.std.specs.Prelude.{◌≡◌};

    ghost is_clone = { λ what copy. copy ≡ what };

    fn clone(&self) -> Result<Take, AllocError> {
        match self {
            Take::Keep => Ok(Take::Keep),
            Take::Prefix(prefix) => Ok(Take::Prefix(prefix.clone()?)),
            Take::Whole(replica) => Ok(Take::Whole(replica.clone()?)),
        }
    }
}

impl PartialEq for Take {
    ghost use Rattle.rep_core.specs.code.Equality.{same_take, same_take_partial_laws};

    ghost eq = { same_take };

    ghost laws = { same_take_partial_laws };

    fn eq(&self, other: &Take) -> bool {
        match (self, other) {
            (Take::Keep, Take::Keep) => true,
            (Take::Prefix(own), Take::Prefix(theirs)) => own == theirs,
            (Take::Whole(own), Take::Whole(theirs)) => own == theirs,
            _ => false,
        }
    }
}

impl Eq for Take {
    ghost use Rattle.rep_core.specs.code.Equality.{same_take_laws};

    ghost laws = { same_take_laws };
}

/// A suite in a Prepare: the lock that the transaction must have, and what it leaves.
#[derive(Debug, Drop)]
pub struct Part {
    pub suite: u64,
    pub mode: LockMode,
    pub take: Take,
}

impl Clone for Part {
    ghost use Rattle.std.specs.Prelude.{◌≡◌};

    ghost is_clone = { λ part copy. copy ≡ part };

    fn clone(&self) -> Result<Part, AllocError> {
        let take = self.take.clone()?;
        Ok(Part {
            suite: self.suite,
            mode: self.mode,
            take,
        })
    }
}

impl PartialEq for Part {
    ghost use Rattle.rep_core.specs.code.Equality.{same_part, same_part_partial_laws};

    ghost eq = { same_part };

    ghost laws = { same_part_partial_laws };

    fn eq(&self, other: &Part) -> bool {
        self.suite == other.suite && self.mode == other.mode && self.take == other.take
    }
}

impl Eq for Part {
    ghost use Rattle.rep_core.specs.code.Equality.{same_part_laws};

    ghost laws = { same_part_laws };
}

/// The suites of a Prepare.
#[derive(Debug, Drop)]
pub struct Parts {
    parts: Vec<Part>,
}

impl Model for Parts {
    ghost use Rattle.std.specs.Prelude.{List};
    ghost use Rattle.rep_core.specs.declared.request.Part.{Part};

    ghost Value = { List Part };

    ghost view = { λ parts. parts.parts.items };
}

impl Clone for Parts {
    ghost use Rattle.std.specs.Prelude.{◌≡◌};

    ghost is_clone = { λ parts copy. copy ≡ parts };

    fn clone(&self) -> Result<Parts, AllocError> {
        let parts = self.parts.clone()?;
        Ok(Parts { parts })
    }
}

impl PartialEq for Parts {
    ghost use Rattle.rep_core.specs.code.Equality.{same_parts, same_parts_partial_laws};

    ghost eq = { same_parts };

    ghost laws = { same_parts_partial_laws };

    fn eq(&self, other: &Parts) -> bool {
        self.parts == other.parts
    }
}

impl Eq for Parts {
    ghost use Rattle.rep_core.specs.code.Equality.{same_parts_laws};

    ghost laws = { same_parts_laws };
}

impl Parts {
    ghost use Rattle.std.specs.Prelude.{◌≡◌};

    /// The parts of a vector, which are not copied.
    pub fn from_vec(parts: Vec<Part>) -> Parts
        ensures { result ≡ parts.items }
    {
        Parts { parts }
    }

    /// The vector.
    pub fn into_vec(self) -> Vec<Part>
        ensures { result.items ≡ self }
    {
        let Parts { parts } = self;
        parts
    }

    /// The parts.
    pub fn as_slice(&self) -> &[Part]
        ensures { result.now ≡ self.now }
    {
        &self.parts
    }
}

/// What a transaction asks to be recorded at its home.
#[derive(Debug, Drop)]
pub enum Decision {
    /// Its replies.
    Answered(Answers),
    /// Its refusal, with the user of its caller.
    Refused { uid: u32, refusal: Refusal },
}

impl Clone for Decision {
    ghost use Rattle.std.specs.Prelude.{◌≡◌, IfOk, IfErr, IsTrue};
    ghost use Rattle.rep_core.specs.Wanting.{records_answers};

    ghost is_clone = { λ decision copy. copy ≡ decision };

    /// The same decision. Only to share answers it may need memory.
    fn clone(&self) -> Result<Decision, AllocError>
        ensures ok { IfOk result (λ copy. copy ≡ self.now) }
        ensures memory { IfErr result (λ _. IsTrue (records_answers self.now)) }
    {
        match self {
            Decision::Answered(replies) => Ok(Decision::Answered(replies.clone()?)),
            Decision::Refused { uid, refusal } => Ok(Decision::Refused {
                uid: *uid,
                refusal: *refusal,
            }),
        }
    }
}

impl PartialEq for Decision {
    ghost use Rattle.rep_core.specs.code.Equality.{same_decision, same_decision_partial_laws};

    ghost eq = { same_decision };

    ghost laws = { same_decision_partial_laws };

    fn eq(&self, other: &Decision) -> bool {
        match (self, other) {
            (Decision::Answered(own), Decision::Answered(theirs)) => own == theirs,
            (
                Decision::Refused { uid, refusal },
                Decision::Refused {
                    uid: user,
                    refusal: theirs,
                },
            ) => uid == user && refusal == theirs,
            _ => false,
        }
    }
}

impl Eq for Decision {
    ghost use Rattle.rep_core.specs.code.Equality.{same_decision_laws};

    ghost laws = { same_decision_laws };
}

/// What a server is asked, by a transaction `t` where there is one.
#[derive(Debug, Drop)]
pub enum Request {
    /// To lock a suite.
    Poll { t: u64, suite: u64, mode: LockMode },
    /// To make a shared lock exclusive.
    Upgrade { t: u64, suite: u64 },
    /// The content of a suite that is locked.
    Fetch { t: u64, suite: u64 },
    /// To keep the locks of some suites, and what the transaction leaves of them, whatever comes.
    Prepare { t: u64, parts: Parts },
    /// To record how the transaction ended, where no record says so.
    Decide { t: u64, decision: Decision },
    /// To tell how the transaction ended, and to abort it where no record says so.
    Resolve { t: u64 },
    /// To let the transaction go, as it ended.
    Finish { t: u64, verdict: Verdict },
    /// To let a lock go that is not prepared.
    Break { t: u64, suite: u64 },
    /// To list the locks.
    Locks,
    /// To crash.
    Crash,
    /// To restart.
    Return,
}

impl Clone for Request {
    ghost use Rattle.std.specs.Prelude.{◌≡◌, IfOk, IfErr, IsTrue};
    ghost use Rattle.rep_core.specs.Wanting.{by_request};

    ghost is_clone = { λ request copy. copy ≡ request };

    /// The same request. Only the list of a Prepare may need memory, and answers.
    fn clone(&self) -> Result<Request, AllocError>
        ensures ok { IfOk result (λ copy. copy ≡ self.now) }
        ensures memory { IfErr result (λ _. IsTrue (by_request self.now)) }
    {
        Ok(match self {
            Request::Poll { t, suite, mode } => Request::Poll {
                t: *t,
                suite: *suite,
                mode: *mode,
            },
            Request::Upgrade { t, suite } => Request::Upgrade {
                t: *t,
                suite: *suite,
            },
            Request::Fetch { t, suite } => Request::Fetch {
                t: *t,
                suite: *suite,
            },
            Request::Prepare { t, parts } => {
                let parts = parts.clone()?;
                Request::Prepare { t: *t, parts }
            }
            Request::Decide { t, decision } => {
                let decision = decision.clone()?;
                Request::Decide { t: *t, decision }
            }
            Request::Resolve { t } => Request::Resolve { t: *t },
            Request::Finish { t, verdict } => {
                let verdict = verdict.clone()?;
                Request::Finish { t: *t, verdict }
            }
            Request::Break { t, suite } => Request::Break {
                t: *t,
                suite: *suite,
            },
            Request::Locks => Request::Locks,
            Request::Crash => Request::Crash,
            Request::Return => Request::Return,
        })
    }
}

impl PartialEq for Request {
    ghost use Rattle.rep_core.specs.code.Equality.{same_request, same_request_partial_laws};

    ghost eq = { same_request };

    ghost laws = { same_request_partial_laws };

    fn eq(&self, other: &Request) -> bool {
        match (self, other) {
            (
                Request::Poll { t, suite, mode },
                Request::Poll {
                    t: u,
                    suite: place,
                    mode: wanted,
                },
            ) => t == u && suite == place && mode == wanted,
            (Request::Upgrade { t, suite }, Request::Upgrade { t: u, suite: place })
            | (Request::Fetch { t, suite }, Request::Fetch { t: u, suite: place })
            | (Request::Break { t, suite }, Request::Break { t: u, suite: place }) => {
                t == u && suite == place
            }
            (Request::Prepare { t, parts }, Request::Prepare { t: u, parts: its }) => {
                t == u && parts == its
            }
            (
                Request::Decide { t, decision },
                Request::Decide {
                    t: u,
                    decision: its,
                },
            ) => t == u && decision == its,
            (Request::Resolve { t }, Request::Resolve { t: u }) => t == u,
            (Request::Finish { t, verdict }, Request::Finish { t: u, verdict: its }) => {
                t == u && verdict == its
            }
            (Request::Locks, Request::Locks)
            | (Request::Crash, Request::Crash)
            | (Request::Return, Request::Return) => true,
            _ => false,
        }
    }
}

impl Eq for Request {
    ghost use Rattle.rep_core.specs.code.Equality.{same_request_laws};

    ghost laws = { same_request_laws };
}
