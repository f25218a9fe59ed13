//! A transaction on what is known.

ghost use Rattle.std.specs.Prelude.{◌≡◌, ◌<◌, ◌≤◌, ◌^◌, true, false, take, length, Ok, IfOk, OnErr};
ghost use Rattle.std.specs.Result.{result_ok};
ghost use Rattle.file_ops.specs.Transactions.{is_miscounted, max_operations};
ghost use Rattle.file_ops.specs.declared.refusal.Why.TheVariants as why;
ghost use Rattle.file_exec.specs.Changes.{answered, changes_of};
ghost use Rattle.file_exec.specs.code.Ends.{end_of};
ghost use Rattle.file_exec.specs.code.Ways.{PlaysTo, IsReachedBy, GivesFirst};
ghost use Rattle.file_exec.specs.Known.{exec_of, is_given};
ghost use Rattle.file_exec.specs.Reaching.{IsReached, unbegun, is_need};
ghost use Rattle.file_exec.specs.declared.executor.Outcome.TheVariants as told;

use crate::act::{Transaction, operate};
use crate::changes::Changes;
use crate::known::Known;
use crate::laws::unbegun_is_reached;
use crate::need::Need;
use crate::progress::{Progress, Stage};
use crate::stop::Stop;
use acl_core::Caller;
use file_ops::{Answers, MAX_OPERATIONS, Op, Refusal, Why};
use std::alloc::AllocError;

/// What a transaction comes to on what is known.
#[derive(Drop)]
pub enum Outcome {
    /// This is to be known first.
    Need(Need),
    /// It is answered, with what it has set.
    Done(Answers, Changes),
    /// It is refused, and sets nothing.
    Refused(Refusal),
}

/// Plays the transaction `t` on what is known, up to what it needs and is not known, or to its end. It goes
/// on from where it came when less was known, and keeps how far it came now; where it needs nothing more,
/// nothing is kept. Nothing that is known is changed. Lists, bytes and names are shared and not copied, but
/// for a folder in which a name is put or dropped: its names are copied once for each such operation.
pub fn exec(
    known: &Known<'_>,
    t: u64,
    caller: &Caller,
    ops: &[Op],
    progress: &mut Progress,
) -> Result<Outcome, AllocError>
    requires number { t < 2 ^ 60 }
    requires reached { IsReached known.now.service known.now.suites t caller.now ops.now progress.old }
    ensures answer { IfOk result (λ outcome. outcome ≡ answered known.now.suites (exec_of known.now.service known.now.suites t caller.now ops.now)) }
    ensures reached { IsReached known.now.service known.now.suites t caller.now ops.now progress.new }
    ensures ended { IfOk result (λ outcome. is_need outcome ≡ false → progress.new ≡ unbegun) }
    ensures err { OnErr result (progress.new ≡ unbegun) }

    // No memory is asked for where the operations are too few or too many.
    ensures counted { is_miscounted ops.now ≡ true → result ≡ Ok (told.Refused (record { op = 0; why = why.OpCount })) }

    // Nor before the first operation is done: what it needs, and its refusal, is told however little
    // memory there is.
    ensures first { OnErr result (is_given (exec_of known.now.service known.now.suites t caller.now (take 1 ops.now)) ≡ true) }
{
    unbegun_is_reached();
    let mut stage = progress.take();
    if ops.is_empty() || ops.len() > MAX_OPERATIONS {
        return Ok(Outcome::Refused(Refusal {
            op: 0,
            why: Why::OpCount,
        }));
    }
    let transaction = Transaction {
        alloc: stage.alloc(),
        known,
        t,
        caller,
    };
    match play_on(transaction, ops, &mut stage)? {
        Some(Outcome::Need(need)) => {
            progress.stage = stage;
            Ok(Outcome::Need(need))
        }
        Some(outcome) => Ok(outcome),
        None => finish(transaction, stage),
    }
}

/// Does the operations that are left. Where one does not go on it tells what the transaction comes to.
fn play_on(
    transaction: Transaction<'_, '_>,
    ops: &[Op],
    stage: &mut Stage,
) -> Result<Option<Outcome>, AllocError>
    requires number { transaction.t < 2 ^ 60 }
    requires few { length ops.now ≤ max_operations }
    requires reached { IsReachedBy transaction ops.now stage.old }
    ensures ends { IfOk result (λ outcome. PlaysTo transaction.entry ops.now outcome stage.new) }
    ensures reached { IfOk result (λ outcome. IsReachedBy transaction.entry ops.now stage.new) }
    ensures first { OnErr result (GivesFirst transaction.entry ops.now) }
{
    while usize::from(stage.at) < ops.len() {
        let at = stage.at;
        let op = &ops[usize::from(at)];
        match operate(transaction, &mut stage.log, at, op, &mut stage.point) {
            Ok(answer) => {
                // Room for all the answers is taken at once.
                stage.answers.reserve_exact(ops.len() - usize::from(at))?;
                stage.answers.push(answer)?;
            }
            Err(stop) => {
                let outcome = end(at, stop)?;
                return Ok(Some(outcome));
            }
        }
        stage.at = at + 1;
        stage.point = stage.point.after(op, &ops[usize::from(at) + 1..]);
    }
    Ok(None)
}

/// What a transaction comes to, all of whose operations were done.
fn finish(transaction: Transaction<'_, '_>, stage: Stage) -> Result<Outcome, AllocError>
    ensures { IfOk result (λ outcome. outcome ≡ told.Done stage.answers.items (changes_of transaction.entry.known.now.suites stage.log)) }
{
    let Stage { answers, log, .. } = stage;
    let answers = Answers::from_vec(answers)?;
    let changes = Changes::of(transaction.alloc, transaction.known, &log)?;
    Ok(Outcome::Done(answers, changes))
}

/// What a transaction comes to whose operation at a place, counted from 0, does not go on.
fn end(at: u8, stop: Stop) -> Result<Outcome, AllocError>
    requires { at < 255 }
    ensures { result_ok result ≡ end_of at stop }
{
    match stop {
        Stop::Needs(need) => Ok(Outcome::Need(need)),
        Stop::Refused(why) => Ok(Outcome::Refused(Refusal { op: at + 1, why })),
        Stop::Memory => Err(AllocError),
    }
}
