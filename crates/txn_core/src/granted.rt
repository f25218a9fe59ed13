//! What a transaction proposes.

ghost use Rattle.std.specs.Prelude.{◌≡◌, IfOk};

use file_exec::Changes;
use file_ops::{Answers, Refusal};
use std::alloc::{AllocError, Global};
use std::marker::Model;

/// The answers of a transaction, with what it sets.
#[derive(Drop)]
pub(crate) struct Granted {
    pub(crate) answers: Answers,
    pub(crate) changes: Changes,
}

impl Model for Granted {
    ghost use Rattle.txn_core.specs.Doing as doing;

    ghost Value = { doing.Granted };

    ghost use Rattle.txn_core.specs.code.GrantedFields.{granted_of};

    ghost view = { granted_of };
}

impl Granted {
    /// The same.
    pub(crate) fn copy(&self, alloc: Global) -> Result<Granted, AllocError>
        ensures { IfOk result (λ copy. copy ≡ self.now) }
    {
        let answers = self.answers.clone()?;
        let changes = self.changes.copy(alloc)?;
        Ok(Granted { answers, changes })
    }
}

/// A proposal, copied.
pub(crate) fn copied(alloc: Global, proposal: &Proposal) -> Result<Proposal, AllocError>
    ensures { IfOk result (λ copy. copy ≡ proposal.now) }
{
    Ok(match proposal {
        Ok(granted) => Ok(granted.copy(alloc)?),
        Err(refusal) => Err(*refusal),
    })
}

/// What a transaction proposes to its home: to be answered, or refused.
pub(crate) type Proposal = Result<Granted, Refusal>;
