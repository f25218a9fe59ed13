//! How a job ends.

ghost use Rattle.std.specs.Prelude.{◌≡◌};
ghost use Rattle.txn_core.specs.Transactions.{lack_cause, short_cause};

use file_ops::{Answers, Refusal};
use rep_core::Lack;
use std::alloc::AllocError;

/// Why a transaction or a sweep was not decided. An undecided transaction changed nothing, and never will.
#[derive(Clone, Copy, Debug)]
pub enum Cause {
    /// Of a suite too few votes were to be had, so many of those that were needed, and all other servers
    /// that have a vote there were down.
    Unavailable { suite: u64, got: u32, needed: u32 },
    /// Too few votes were to be had. This server had a lock of another transaction in the way: the first
    /// that was met.
    Busy { server: u8, holder: u64 },
    /// A lock was lost at this server, or the server was down where a lock had been had; or the server
    /// that was swept was down.
    Lost { server: u8 },
    /// Somebody had the transaction aborted.
    Overruled,
    /// The server where it was to be decided was down.
    HomeDown,
    /// This server was full.
    Full { server: u8 },
    /// A server wanted memory.
    Memory,
}

/// How a job ended.
#[derive(Debug, Drop)]
pub enum Ending {
    /// With these replies.
    Answered(Answers),
    /// Refused.
    Refused(Refusal),
    /// So many locks were broken, and transactions finished; of so many others the home was down.
    Swept {
        broken: u64,
        finished: u64,
        left: u64,
    },
    /// Without a decision.
    Undecided(Cause),
}

impl Clone for Ending {
    ghost is_clone = { λ ending copy. copy ≡ ending };

    fn clone(&self) -> Result<Ending, AllocError> {
        Ok(match self {
            Ending::Answered(answers) => Ending::Answered(answers.clone()?),
            Ending::Refused(refusal) => Ending::Refused(*refusal),
            Ending::Swept {
                broken,
                finished,
                left,
            } => Ending::Swept {
                broken: *broken,
                finished: *finished,
                left: *left,
            },
            Ending::Undecided(cause) => Ending::Undecided(*cause),
        })
    }
}

/// How a job goes on after a response.
#[derive(Drop)]
pub(crate) enum Flow {
    /// Something more is to be asked.
    On,
    /// It is at its end.
    Ended(Ending),
}

impl PartialEq for Cause {
    ghost use Rattle.txn_core.specs.code.Equality.{same_cause, same_cause_partial_laws};

    ghost eq = { same_cause };

    ghost laws = { same_cause_partial_laws };

    fn eq(&self, other: &Cause) -> bool {
        match (self, other) {
            (
                Cause::Unavailable { suite, got, needed },
                Cause::Unavailable {
                    suite: place,
                    got: had,
                    needed: wanted,
                },
            ) => suite == place && got == had && needed == wanted,
            (
                Cause::Busy { server, holder },
                Cause::Busy {
                    server: at,
                    holder: other,
                },
            ) => server == at && holder == other,
            (Cause::Lost { server }, Cause::Lost { server: at })
            | (Cause::Full { server }, Cause::Full { server: at }) => server == at,
            (Cause::Overruled, Cause::Overruled)
            | (Cause::HomeDown, Cause::HomeDown)
            | (Cause::Memory, Cause::Memory) => true,
            _ => false,
        }
    }
}

impl Eq for Cause {
    ghost use Rattle.txn_core.specs.code.Equality.{same_cause_laws};

    ghost laws = { same_cause_laws };
}

impl PartialEq for Ending {
    ghost use Rattle.txn_core.specs.code.Equality.{same_ending, same_ending_partial_laws};

    ghost eq = { same_ending };

    ghost laws = { same_ending_partial_laws };

    fn eq(&self, other: &Ending) -> bool {
        match (self, other) {
            (Ending::Answered(own), Ending::Answered(theirs)) => own == theirs,
            (Ending::Refused(own), Ending::Refused(theirs)) => own == theirs,
            (
                Ending::Swept {
                    broken,
                    finished,
                    left,
                },
                Ending::Swept {
                    broken: locks,
                    finished: ended,
                    left: others,
                },
            ) => broken == locks && finished == ended && left == others,
            (Ending::Undecided(own), Ending::Undecided(theirs)) => own == theirs,
            _ => false,
        }
    }
}

impl Eq for Ending {
    ghost use Rattle.txn_core.specs.code.Equality.{same_ending_laws};

    ghost laws = { same_ending_laws };
}

impl Cause {
    /// Why too few votes were to be had of a suite: the first server that was busy, or none was.
    pub(crate) fn of_short(suite: u64, got: u32, needed: u32, busy: Option<(u8, u64)>) -> Cause
        ensures { result ≡ short_cause suite got needed busy }
    {
        match busy {
            Some((server, holder)) => Cause::Busy { server, holder },
            None => Cause::Unavailable { suite, got, needed },
        }
    }

    /// Why a server did not serve a request.
    pub(crate) fn of_lack(server: u8, lack: Lack) -> Cause
        ensures { result ≡ lack_cause server lack }
    {
        match lack {
            Lack::Full => Cause::Full { server },
            Lack::Memory => Cause::Memory,
        }
    }
}
