//! What a transaction asks next.

ghost use Rattle.std.specs.Prelude.{◌≡◌, ◌<◌, ◌≤◌, ◌∷◌, ℕ, List, IfOk, IfErr, IfNone, OnErr, IsTrue, option_map};
ghost use Rattle.rep_core.specs.Wanting.{records_answers};
ghost use Rattle.weak_cache.specs.Cache.{Limits};
ghost use Rattle.txn_core.specs.Doing as doing;
ghost use Rattle.txn_core.specs.Suites.{suite_of};
ghost use Rattle.txn_core.specs.Transactions as txn_run;
ghost use Rattle.txn_core.specs.code.Asking.{Asks, AsksIn, Wants, WantsIn, asked_in, fixed_on};
ghost use Rattle.txn_core.specs.declared.ending.Ending.{Ending};

use crate::fixed_parts::FixedParts;
use crate::granted::Proposal;
use crate::home::home_of;
use crate::phase::Phase;
use crate::task::Task;
use crate::transaction_run::TransactionRun;
use crate::writing::parts_at;
use rep_core::{Decision, Request, Verdict};
use std::alloc::{AllocError, Global};
use suite_collect::Coming;
use vote_core::MAX_SERVERS;

impl TransactionRun {
    /// Of which server is asked next, and what, which is put into its place. A Prepare needs memory for its
    /// list, and a Decide or a Finish at most to copy answers; nothing else does.
    pub(crate) fn ask(
        &self,
        alloc: Global,
        fixed_parts: &FixedParts,
        request: &mut Request,
    ) -> Result<Option<u8>, AllocError>
        requires { (0 < fixed_parts.now.servers) × (fixed_parts.now.servers ≤ MAX_SERVERS) }
        ensures ok { IfOk result (λ server. Asks (λ fixed. txn_run.request_of fixed self.now) fixed_parts.now server request.new) }
        ensures none { IfOk result (λ server. IfNone server (request.new ≡ request.old)) }
        ensures err { OnErr result (request.new ≡ request.old) }
        ensures memory { IfErr result (λ _. Wants (λ fixed. txn_run.request_of fixed self.now) fixed_parts.now) }
    {
        match &self.phase {
            Phase::Gathering(number) | Phase::Widening { number, .. } => {
                Ok(self.ask_for(*number, request))
            }
            Phase::Fetching(number) => Ok(self.fetch_for(*number, request)),
            Phase::Proposing(servers, outcome) => match servers.first() {
                Some(server) => self.ask_prepare(alloc, server, outcome, request),
                None => self.ask_decide(fixed_parts, outcome, request),
            },
            Phase::Finishing {
                server,
                verdict,
                ..
            } => self.ask_finish(*server, verdict, request),
        }
    }

    /// The server that is asked next.
    pub(crate) fn asked(&self, fixed_parts: &FixedParts) -> Option<u8>
        requires { (0 < fixed_parts.now.servers) × (fixed_parts.now.servers ≤ MAX_SERVERS) }
        ensures { (limits : Limits) → result ≡ option_map (λ asked. asked.0) (txn_run.request_of (fixed_on fixed_parts.now limits) self.now) }
    {
        match &self.phase {
            Phase::Gathering(number) | Phase::Widening { number, .. } => self.asked_for(*number),
            Phase::Fetching(number) => self.fetched_from(*number),
            Phase::Proposing(servers, _) => match servers.first() {
                Some(server) => Some(server),
                None => Some(home_of(fixed_parts, self.task.t)),
            },
            Phase::Finishing { server, .. } => Some(*server),
        }
    }

    /// The server that a suite asks.
    pub(crate) fn asked_for(&self, number: u64) -> Option<u8>
        ensures { result ≡ option_map (λ asked. asked.0) (txn_run.asked_for self.now.task number (suite_of self.now.suites number)) }
    {
        match self.suites.get(&number)?.next() {
            Coming::Ask { server, .. } => Some(server),
            _ => None,
        }
    }

    /// The server at which the first quorum of a suite found its content.
    pub(crate) fn fetched_from(&self, number: u64) -> Option<u8>
        ensures { result ≡ option_map (λ asked. asked.0) (txn_run.fetched_for self.now.task number (suite_of self.now.suites number)) }
    {
        let first = self.suites.get(&number)?.first()?;
        Some(first.source)
    }

    /// What a suite asks.
    fn ask_for(&self, number: u64, request: &mut Request) -> Option<u8>
        ensures asked { option_map (λ server. (server, request.new)) result ≡ txn_run.asked_for self.now.task number (suite_of self.now.suites number) }
        ensures none { IfNone result (request.new ≡ request.old) }
    {
        match self.suites.get(&number)?.next() {
            Coming::Ask { server, asked } => {
                *request = asked.request(self.task.t, number);
                Some(server)
            }
            _ => None,
        }
    }

    /// The content of a suite is asked for where its first quorum found it.
    fn fetch_for(&self, number: u64, request: &mut Request) -> Option<u8>
        ensures asked { option_map (λ server. (server, request.new)) result ≡ txn_run.fetched_for self.now.task number (suite_of self.now.suites number) }
        ensures none { IfNone result (request.new ≡ request.old) }
    {
        let server = self.fetched_from(number)?;
        *request = Request::Fetch {
            t: self.task.t,
            suite: number,
        };
        Some(server)
    }

    /// A server is asked to prepare.
    fn ask_prepare(
        &self,
        alloc: Global,
        server: u8,
        outcome: &Proposal,
        request: &mut Request,
    ) -> Result<Option<u8>, AllocError>
        ensures ok { IfOk result (λ asked. (left : List ℕ) → AsksIn (doing.Preparing (server ∷ left) outcome.now) self.now asked request.new) }
        ensures none { IfOk result (λ server. IfNone server (request.new ≡ request.old)) }
        ensures err { OnErr result (request.new ≡ request.old) }
        ensures memory { IfErr result (λ _. (left : List ℕ) → WantsIn (doing.Preparing (server ∷ left) outcome.now) self.now) }
    {
        let changes = outcome.as_ref().ok().map(|granted| &granted.changes);
        let parts = parts_at(alloc, self.suites.as_slice(), changes, server)?;
        *request = Request::Prepare {
            t: self.task.t,
            parts,
        };
        Ok(Some(server))
    }

    /// The home is asked to record an outcome.
    fn ask_decide(
        &self,
        fixed_parts: &FixedParts,
        outcome: &Proposal,
        request: &mut Request,
    ) -> Result<Option<u8>, AllocError>
        requires { (0 < fixed_parts.now.servers) × (fixed_parts.now.servers ≤ MAX_SERVERS) }
        ensures ok { IfOk result (λ server. Asks (asked_in (doing.Deciding outcome.now) self.now) fixed_parts.now server request.new) }
        ensures none { IfOk result (λ server. IfNone server (request.new ≡ request.old)) }
        ensures err { OnErr result (request.new ≡ request.old) }
        ensures memory { IfErr result (λ _. Wants (asked_in (doing.Deciding outcome.now) self.now) fixed_parts.now) }
    {
        let decision = decision_of(&self.task, outcome)?;
        let t = self.task.t;
        *request = Request::Decide { t, decision };
        Ok(Some(home_of(fixed_parts, t)))
    }

    /// A server is told how the transaction ended.
    fn ask_finish(
        &self,
        server: u8,
        verdict: &Verdict,
        request: &mut Request,
    ) -> Result<Option<u8>, AllocError>
        ensures ok { IfOk result (λ at. (left : List ℕ) (how : Ending) → AsksIn (doing.Finishing (server ∷ left) verdict.now how) self.now at request.new) }
        ensures none { IfOk result (λ server. IfNone server (request.new ≡ request.old)) }
        ensures err { OnErr result (request.new ≡ request.old) }
        ensures memory { IfErr result (λ _. (left : List ℕ) (ending : Ending) → WantsIn (doing.Finishing (server ∷ left) verdict.now ending) self.now) }
    {
        let verdict = verdict.clone()?;
        *request = Request::Finish {
            t: self.task.t,
            verdict,
        };
        Ok(Some(server))
    }
}

/// What is to be recorded of an outcome.
fn decision_of(task: &Task, outcome: &Proposal) -> Result<Decision, AllocError>
    ensures ok { IfOk result (λ decision. decision ≡ txn_run.decision_of task.now outcome.now) }
    ensures memory { IfErr result (λ _. IsTrue (records_answers (txn_run.decision_of task.now outcome.now))) }
{
    Ok(match outcome {
        Ok(granted) => Decision::Answered(granted.answers.clone()?),
        Err(refusal) => Decision::Refused {
            uid: task.caller.uid(),
            refusal: *refusal,
        },
    })
}
