//! What was decided.

ghost use Rattle.std.specs.Prelude.{◌≡◌};

use file_ops::{Answers, Refusal};
use std::marker::Model;
use txn_core::{Ops, SharedCaller};

/// A transaction that was decided: its number, who asked for what, and the replies or the refusal.
#[derive(Debug, Drop)]
pub struct DecidedTransaction {
    pub t: u64,
    pub caller: SharedCaller,
    pub ops: Ops,
    pub answer: Result<Answers, Refusal>,
}

impl Model for DecidedTransaction {
    ghost use Rattle.run_core.specs.Decisions.{Decided};

    ghost Value = { Decided };

    ghost view = { λ one. record { t = one.t; caller = one.caller; ops = one.ops; answer = one.answer } };
}

/// All that was decided in a run, in the order in which it was recorded.
#[derive(Debug, Drop)]
pub struct Decided {
    decisions: Vec<DecidedTransaction>,
}

impl Model for Decided {
    ghost use Rattle.std.specs.Prelude.{List};
    ghost use Rattle.run_core.specs.Decisions.{Decided as Made};

    ghost Value = { List Made };

    ghost view = { λ decided. decided.decisions.items };
}

impl Decided {
    /// The decisions of a vector, which is not copied.
    pub(crate) fn from_vec(decisions: Vec<DecidedTransaction>) -> Decided
        ensures { result ≡ decisions.items }
    {
        Decided { decisions }
    }

    /// The vector.
    pub fn into_vec(self) -> Vec<DecidedTransaction>
        ensures { result.items ≡ self }
    {
        let Decided { decisions } = self;
        decisions
    }

    /// The decisions.
    pub fn as_slice(&self) -> &[DecidedTransaction]
        ensures { result.now ≡ self.now }
    {
        &self.decisions
    }
}
