//! A script of jobs, served, with the history of what their callers saw.

ghost use Rattle.std.specs.Prelude.{IfOk};
ghost use Rattle.serve_log.specs.Logs.{IsLogged};

use crate::clock::Clock;
use job_history::{Calls, are_right, history_of};
use run_certify::CertifyFault;
use std::alloc::Global;
use std::sync::Wait;
use std::thread::Threads;
use suite_serve::{JobScript, ServedScript, serve_through};

/// What the jobs of a script came to, and the history of what their callers saw.
#[derive(Drop)]
pub(crate) struct Logged {
    pub(crate) served: ServedScript,
    pub(crate) history: Vec<u8>,
}

/// Has the jobs of a script carried out, with the numbers that are drawn for them. A job for which they are out of order is a
/// mismatch, as one that was not carried out.
pub(crate) fn serve_logged<R: Threads + Wait + Sync>(
    rt: &R,
    alloc: Global,
    script: JobScript,
) -> Result<Logged, CertifyFault>
    ensures { IfOk result (λ logged. IsLogged script logged.served logged.history.items) }
{
    let calls = Calls::of(alloc, script.settings(), script.jobs())?;
    let clock = Clock::new(alloc, script.settings().agents(), script.jobs().len())?;
    let served = serve_through(rt, alloc, &clock, script)?;
    let endings = served.endings(alloc)?;
    let spans = clock.spans(alloc)?;
    if !are_right(&spans) {
        return Err(CertifyFault::Mismatch);
    }
    let history = history_of(alloc, &calls, &endings, &spans)?;
    Ok(Logged { served, history })
}
