//! The end of a transaction: servers prepare, its home decides, and the end is told.

ghost use Rattle.std.specs.Prelude.{◌≡◌, ◌<◌, ◌≤◌, IfOk, IfErr, OnErr, IsTrue};
ghost use Rattle.file_exec.specs.Reaching.{unbegun};
ghost use Rattle.rep_core.specs.Service.{is_answered};
ghost use Rattle.weak_cache.specs.Entries.{Cache};
ghost use Rattle.txn_core.specs.code.TransactionRunFields.{phase_of};
ghost use Rattle.txn_core.specs.code.Goings.{GoesBy, TellsNext, fixed_by, lacked};
ghost use Rattle.txn_core.specs.Transactions as txn_run;

use crate::ending::{Cause, Ending, Flow};
use crate::granted::Proposal;
use crate::phase::Phase;
use crate::resources::Resources;
use crate::servers::{Servers, locked_at};
use crate::transaction_run::TransactionRun;
use rep_core::{Lack, Reply, Verdict};
use std::alloc::AllocError;
use std::mem;
use vote_core::MAX_SERVERS;

impl TransactionRun {
    /// These servers prepare, one after the other; then the home decides.
    pub(crate) fn prepare(&mut self, servers: Servers, outcome: Proposal) -> Flow
        ensures { (cache : Cache) → GoesBy (txn_run.prepare self.old.task cache self.old.suites outcome servers) result self.new cache }
    {
        self.phase = Phase::Proposing(servers, outcome);
        Flow::On
    }

    /// What the home said. Only to tell answers again it may run out of memory.
    pub(crate) fn on_verdict(&mut self, said: &Reply) -> Result<Flow, AllocError>
        ensures ok { IfOk result (λ flow. (cache : Cache) → GoesBy (txn_run.decided self.old.task cache self.old.suites said.now) flow self.new cache) }
        ensures err { OnErr result (self.new ≡ self.old) }
        ensures memory { IfErr result (λ _. IsTrue (is_answered (txn_run.verdict_in said.now Verdict.Aborted))) }
    {
        let verdict = verdict_in(said)?;
        let ending = ending_by(&verdict, cause_of_abort(said))?;
        Ok(self.finish(verdict, ending))
    }

    /// The end is told to each server that holds a lock.
    fn finish(&mut self, verdict: Verdict, ending: Ending) -> Flow
        ensures { (cache : Cache) → GoesBy (txn_run.finish self.old.task cache self.old.suites verdict ending) result self.new cache }
    {
        let servers = locked_at(self.suites.as_slice());
        self.tell_end(servers, verdict, ending)
    }

    /// A cause was met: nothing is decided any more.
    pub(crate) fn give_up(&mut self, cause: Cause) -> Flow
        ensures { (cache : Cache) → GoesBy (txn_run.give_up self.old.task cache self.old.suites cause) result self.new cache }
    {
        self.finish(Verdict::Aborted, Ending::Undecided(cause))
    }

    /// The end is told to these servers, one after the other.
    fn tell_end(&mut self, servers: Servers, verdict: Verdict, ending: Ending) -> Flow
        ensures { (cache : Cache) → GoesBy (txn_run.tell_end self.old.task cache self.old.suites verdict ending servers) result self.new cache }
    {
        let mut left = servers;
        let Some(server) = left.take_first() else {
            return Flow::Ended(ending);
        };
        self.phase = Phase::Finishing {
            server,
            left,
            verdict,
            ending,
        };
        Flow::On
    }

    /// What was asked next was not served: the transaction is not executed any more.
    pub(crate) fn on_lack(&mut self, resources: &mut Resources, lack: Lack) -> Flow
        requires { (0 < resources.old.fixed_parts.servers) × (resources.old.fixed_parts.servers ≤ MAX_SERVERS) }
        ensures steps { let cache = resources.old.cache.entries in GoesBy (lacked (fixed_by resources.old) self.old cache lack) result self.new cache }
        ensures resources { resources.new ≡ record resources.old { progress = unbegun } }
    {
        let asked = self.asked(&resources.fixed_parts);
        resources.begin_anew();
        match asked {
            Some(server) => self.on_lack_at(server, lack),
            None => Flow::On,
        }
    }

    /// A server did not serve what it was asked.
    fn on_lack_at(&mut self, server: u8, lack: Lack) -> Flow
        ensures { (cache : Cache) → GoesBy (txn_run.after_lack self.old.task cache self.old.suites self.old.phase server lack) result self.new cache }
    {
        match &mut self.phase {
            Phase::Finishing {
                server,
                left,
                ending,
                ..
            } => tell_next(server, left, ending),
            _ => self.give_up(Cause::of_lack(server, lack)),
        }
    }

    /// Takes the phase out, for another to be put in its place.
    pub(crate) fn leave(&mut self) -> Phase
        ensures task { self.new.task ≡ self.old.task }
        ensures suites { self.new.suites ≡ self.old.suites }
        ensures phase { phase_of result ≡ self.old.phase }
    {
        mem::replace(&mut self.phase, Phase::Gathering(0))
    }
}

/// A server was told the end, and whatever came of it changes nothing: the next of those that are left is told
/// it. Where none is left, the transaction is at its end, which is taken out of its place.
pub(crate) fn tell_next(server: &mut u8, left: &mut Servers, ending: &mut Ending) -> Flow
    ensures { TellsNext result left.old ending.old server.new left.new ending.new }
{
    let Some(next) = left.take_first() else {
        let instead = Ending::Undecided(Cause::Overruled);
        return Flow::Ended(mem::replace(ending, instead));
    };
    *server = next;
    Flow::On
}

/// The verdict that a home said; where it said none, Aborted.
fn verdict_in(said: &Reply) -> Result<Verdict, AllocError>
    ensures ok { IfOk result (λ verdict. verdict ≡ txn_run.verdict_in said.now Verdict.Aborted) }
    ensures memory { IfErr result (λ _. IsTrue (is_answered (txn_run.verdict_in said.now Verdict.Aborted))) }
{
    match said {
        Reply::Verdict(verdict) => verdict.clone(),
        _ => Ok(Verdict::Aborted),
    }
}

/// The ending that a verdict is, with a cause, should it be none.
fn ending_by(verdict: &Verdict, cause: Cause) -> Result<Ending, AllocError>
    ensures ok { IfOk result (λ ending. ending ≡ txn_run.ending_by verdict.now cause) }
    ensures memory { IfErr result (λ _. IsTrue (is_answered verdict.now)) }
{
    Ok(match verdict {
        Verdict::Answered(answers) => Ending::Answered(answers.clone()?),
        Verdict::Refused(refusal) => Ending::Refused(*refusal),
        Verdict::Aborted => Ending::Undecided(cause),
    })
}

/// Why a Decide did not decide: the home was down, or somebody else had it aborted.
fn cause_of_abort(said: &Reply) -> Cause
    ensures { result ≡ txn_run.cause_of_abort said.now }
{
    match said {
        Reply::Down => Cause::HomeDown,
        _ => Cause::Overruled,
    }
}
