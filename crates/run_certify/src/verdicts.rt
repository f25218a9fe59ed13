//! What a request that was served has decided.

ghost use Rattle.std.specs.Prelude.{◌≡◌, option_copied, IfOk, Some};
ghost use Rattle.run_core.specs.Decisions.{answer_in, to_decide};
ghost use Rattle.run_certify.specs.Deciding.{decision_by};

use crate::decided::DecidedTransaction;
use file_ops::{Answers, Refusal};
use rep_core::{Reply, Request, Verdict};
use run_core::Served;
use std::alloc::AllocError;
use txn_core::Job;

/// The decision of an agent's transaction, if what was served decided it: the agent began this job last.
pub(crate) fn decision_of(
    job: Option<&Job>,
    served: &Served,
) -> Result<Option<DecidedTransaction>, AllocError>
    ensures { IfOk result (λ one. one ≡ decision_by (option_copied job.entry) (Some served.now)) }
{
    let Some(t) = decides(&served.request.value) else {
        return Ok(None);
    };
    let Some(answer) = answer_of(&served.reply.value)? else {
        return Ok(None);
    };
    let Some(Job::Transaction { caller, ops, .. }) = job else {
        return Ok(None);
    };
    Ok(Some(DecidedTransaction {
        t,
        caller: caller.clone()?,
        ops: ops.clone()?,
        answer,
    }))
}

/// The transaction that a request asks to have decided.
fn decides(request: &Request) -> Option<u64>
    ensures { result ≡ to_decide request.now }
{
    match request {
        Request::Decide { t, .. } => Some(*t),
        _ => None,
    }
}

/// What a reply answers, where it is a verdict that answers.
fn answer_of(reply: &Reply) -> Result<Option<Result<Answers, Refusal>>, AllocError>
    ensures { IfOk result (λ answer. answer ≡ answer_in reply.now) }
{
    match reply {
        Reply::Verdict(Verdict::Answered(answers)) => Ok(Some(Ok(answers.clone()?))),
        Reply::Verdict(Verdict::Refused(refusal)) => Ok(Some(Err(*refusal))),
        _ => Ok(None),
    }
}
