//! The operations of a transaction, one after the other.

ghost use Rattle.std.specs.Prelude.{◌+◌, ◌<◌, ◌≤◌, ◌^◌, length, OnErr};
ghost use Rattle.file_ops.specs.code.Stored.{plain};
ghost use Rattle.file_ops.specs.code.Restored.{Restores};
ghost use Rattle.file_ops.specs.Transactions.{max_operations};
ghost use Rattle.file_ops.specs.code.Acting.{played_from};
ghost use Rattle.file_ops.specs.code.Performed.{Plays, AnswersFirst};

use crate::act::{OpError, Performed, Transaction, operate};
use crate::answer::{Answers, Replies};
use crate::operation::Op;
use crate::refusal::{ApplyError, Refusal};
use crate::stored::StoredRows;

/// Plays the operations from a place on, counted from 0, and adds their replies. Where one is refused,
/// all of them are taken back, the last one first: the undo of each waits on the stack, of which the
/// most operations of a transaction take little.
pub(crate) fn play(
    rows: &mut StoredRows,
    transaction: Transaction<'_>,
    at: u8,
    ops: &[Op],
    answers: &mut Replies,
) -> Result<Answers, ApplyError>
    requires number { transaction.t < 2 ^ 60 }
    requires few { at + length ops.now ≤ max_operations }
    ensures plays { Plays result rows.new (played_from transaction.entry (plain rows.old) answers.old at ops.now) }
    ensures first { AnswersFirst result at (played_from transaction.entry (plain rows.old) answers.old at ops.now) }
    ensures err { OnErr result (Restores rows.old rows.new) }
{
    let Some((op, later)) = ops.split_first() else {
        return Ok(answers.finish()?);
    };
    let Performed { answer, undo } = match operate(rows, transaction, at, op) {
        Ok(done) => done,
        Err(OpError::Refused(why)) => {
            return Err(ApplyError::Refused(Refusal { op: at + 1, why }));
        }
        Err(OpError::Memory) => return Err(ApplyError::Memory),
    };
    let outcome = match answers.push(answer) {
        Ok(()) => play(rows, transaction, at + 1, later, answers),
        Err(_) => Err(ApplyError::Memory),
    };
    if outcome.is_err() {
        undo.take_back(rows);
    }
    outcome
}
