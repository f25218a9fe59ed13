//! The run of a transaction.

ghost use Rattle.std.specs.Prelude.{◌≡◌, IfOk, IfErr, IfSome, OnErr, IsTrue, Some, is_some, option_map, true};
ghost use Rattle.std.specs.Ordering.{nat_cmp};
ghost use Rattle.sorted_map.specs.SortedMap.{IsOrdered};
ghost use Rattle.rep_core.specs.Fits.{is_held};
ghost use Rattle.weak_cache.specs.Entries.{Cache};
ghost use Rattle.txn_core.specs.Doing as doing;
ghost use Rattle.txn_core.specs.code.Goings.{Begins, CompletesBy, GoesBy, IsReady, IsStep, IsUntouched, IsWidenedFrom, Keeps, begun, executed, fixed_by, gathers, given_by, held_where_asked, replied};
ghost use Rattle.txn_core.specs.code.Hearing.{HearsFrom, IsSound, SettlesBy, ShowsUnused, asks_in};
ghost use Rattle.txn_core.specs.code.Learning.{Fits, IsKeepable, content_kept};
ghost use Rattle.txn_core.specs.code.Reaching.{IsReachedBy, IsReachedIf, IsReachedIn};
ghost use Rattle.txn_core.specs.code.NextPhases.{follow};
ghost use Rattle.txn_core.specs.Standing.{FitsAsked};
ghost use Rattle.txn_core.specs.Stages.{stage_in};
ghost use Rattle.txn_core.specs.Suites.{suite_of};
ghost use Rattle.txn_core.specs.Transactions as txn_run;
ghost use Rattle.txn_core.specs.code.Unused.{HasUnused};
ghost use Rattle.txn_core.specs.Wanting as wanting;
ghost use Rattle.txn_core.specs.declared.response.Response.TheVariants.{Replied};

use crate::cache_after::Fetched;
use crate::ending::{Cause, Flow};
use crate::execution::Execution;
use crate::finishing::tell_next;
use crate::learned::{Learned, settle};
use crate::next_phase::NextPhase;
use crate::pending_quorum::PendingQuorum;
use crate::phase::Phase;
use crate::resources::Resources;
use crate::servers::locked_at;
use crate::stage::Stage;
use crate::suites::{GatheredSuite, copied};
use crate::task::Task;
use rep_core::Reply;
use sorted_map::RoomyMap;
use std::alloc::{AllocError, Global};
use std::marker::Model;
use suite_collect::{Coming, Hearing, Told};
use suite_content::Content;

/// A transaction that an agent carries out: what it gathered of the suites that it locks, and where it
/// stands.
#[derive(Drop)]
pub(crate) struct TransactionRun {
    pub(crate) task: Task,
    pub(crate) suites: RoomyMap<u64, GatheredSuite>,
    pub(crate) phase: Phase,
}

impl Model for TransactionRun {
    ghost use Rattle.txn_core.specs.Doing as doing;

    ghost Value = { doing.TransactionRun };

    ghost use Rattle.txn_core.specs.code.TransactionRunFields.{course_of};

    ghost view = { course_of };
}

impl TransactionRun {
    /// A transaction begins: its run, unless it is at its end at once. An error leaves the cache as it
    /// was.
    pub(crate) fn begin(
        resources: &mut Resources,
        task: Task,
    ) -> Result<Option<TransactionRun>, AllocError>
        requires unused { HasUnused resources.old.cache.entries }
        ensures ok { IfOk result (λ one. Begins (begun (fixed_by resources.old) task resources.old.cache.entries) one resources.new.cache.entries) }
        ensures err { OnErr result (resources.new.cache ≡ resources.old.cache) }
        ensures reached { IfOk result (λ one. IsReachedIf one resources.new.fixed_parts resources.new.progress) }
        ensures keeps { Keeps resources.old resources.new }
    {
        resources.begin_anew();
        let suites = RoomyMap::new(resources.alloc);
        let mut txn_run = TransactionRun {
            task,
            suites,
            phase: Phase::Gathering(0),
        };
        match txn_run.execute(resources, Learned::Nothing)? {
            Flow::On => Ok(Some(txn_run)),
            Flow::Ended(_) => Ok(None),
        }
    }

    /// The same.
    pub(crate) fn copy(&self, alloc: Global) -> Result<TransactionRun, AllocError>
        ensures { IfOk result (λ copy. copy ≡ self.now) }
    {
        let task = self.task.copy()?;
        let suites = copied(alloc, self.suites.as_slice())?;
        let phase = self.phase.copy(alloc)?;
        Ok(TransactionRun {
            task,
            suites: RoomyMap::from_ordered(suites),
            phase,
        })
    }

    /// How far it is.
    pub(crate) fn stage(&self) -> Stage
        ensures { result ≡ stage_in self.now.phase }
    {
        match &self.phase {
            Phase::Gathering(_) => Stage::Gathering,
            Phase::Fetching(_) => Stage::Fetching,
            Phase::Widening { .. } => Stage::Widening,
            Phase::Proposing(servers, _) => match servers.first() {
                Some(_) => Stage::Preparing,
                None => Stage::Deciding,
            },
            Phase::Finishing { .. } => Stage::Finishing,
        }
    }

    /// What was gathered of suites, the suites rising.
    pub(crate) fn gathered(&self) -> &[(u64, GatheredSuite)]
        ensures { result.now ≡ self.now.suites }
    {
        self.suites.as_slice()
    }

    /// The server that is asked next replied: what comes of it in its phase. An error leaves all as it was.
    pub(crate) fn on_reply(
        &mut self,
        resources: &mut Resources,
        said: &Reply,
    ) -> Result<Flow, AllocError>
        requires ready { IsReady resources.old self.old }
        requires fits { FitsAsked (txn_run.request_of (fixed_by resources.old) self.old) (Replied said.now) }
        ensures ok { IfOk result (λ flow. IsStep resources.old (replied resources.old self.old said.now) flow self.new resources.new) }
        ensures err { OnErr result (IsUntouched resources.old self.old self.new resources.new) }
        ensures memory { IfErr result (λ _. IsTrue (wanting.by_taking (txn_run.request_of (fixed_by resources.old) self.old) (Replied said.now))) }
    {
        match &mut self.phase {
            Phase::Gathering(number) => {
                let number = *number;
                self.on_held(resources, number, said)
            }
            Phase::Fetching(number) => {
                let number = *number;
                match self.fetched_from(number) {
                    Some(server) => self.on_given(resources, number, server, said),
                    None => Ok(Flow::On),
                }
            }
            Phase::Widening { number, .. } => {
                let number = *number;
                self.on_widened(number, said)
            }
            Phase::Proposing(servers, _) => {
                let Some(server) = servers.first() else {
                    return self.on_verdict(said);
                };
                if !matches!(said, Reply::Prepared) {
                    return Ok(self.give_up(Cause::Lost { server }));
                }
                servers.pass();
                Ok(Flow::On)
            }
            Phase::Finishing {
                server,
                left,
                ending,
                ..
            } => Ok(tell_next(server, left, ending)),
        }
    }

    /// A suite that is gathered hears what the server that it asks said.
    fn on_held(
        &mut self,
        resources: &mut Resources,
        number: u64,
        said: &Reply,
    ) -> Result<Flow, AllocError>
        requires unused { HasUnused resources.old.cache.entries }
        requires reached { IsReachedIn resources.old.fixed_parts self.old.task self.old.suites resources.old.progress }
        requires shown { ShowsUnused self.old number said.now }
        ensures ok { IfOk result (λ flow. IsStep resources.old (held_where_asked resources.old self.old number said.now) flow self.new resources.new) }
        ensures err { OnErr result (IsUntouched resources.old self.old self.new resources.new) }
        ensures asked { IfErr result (λ _. IsTrue (is_some (asks_in self.old number))) }
        ensures memory { IfErr result (λ _. IsTrue (is_held said.now)) }
    {
        let Some((server, hearing)) = self.hear(number, said)? else {
            return Ok(Flow::On);
        };
        match hearing {
            Hearing::Lost => Ok(self.give_up(Cause::Lost { server })),
            Hearing::Asks => Ok(Flow::On),
            Hearing::Short => Ok(self.gather(number)),
            Hearing::Quorum(last) => self.on_quorum(resources, number, server, last),
        }
    }

    /// A suite that is widened hears what the server that it asks said.
    fn on_widened(&mut self, number: u64, said: &Reply) -> Result<Flow, AllocError>
        requires shown { ShowsUnused self.old number said.now }
        ensures ok { IfOk result (λ flow. IsWidenedFrom (asks_in self.old number) self.old number said.now flow self.new) }
        ensures err { OnErr result (self.new ≡ self.old) }
        ensures asked { IfErr result (λ _. IsTrue (is_some (asks_in self.old number))) }
        ensures memory { IfErr result (λ _. IsTrue (is_held said.now)) }
    {
        let Some((server, hearing)) = self.hear(number, said)? else {
            return Ok(Flow::On);
        };
        match hearing {
            Hearing::Lost => Ok(self.give_up(Cause::Lost { server })),
            Hearing::Asks => Ok(Flow::On),
            Hearing::Short => Ok(self.gather(number)),
            Hearing::Quorum(last) => match self.pending(number, last)? {
                Some(pending) => {
                    settle(&mut self.suites, number, pending);
                    Ok(self.widen_on())
                }
                None => Ok(self.give_up(Cause::Lost { server })),
            },
        }
    }

    /// A suite hears what the server that it asks said: tells which server, and what comes of it; nothing, where
    /// it asks nobody. With a quorum it is as it was, and is still to be settled.
    fn hear(&mut self, number: u64, said: &Reply) -> Result<Option<(u8, Hearing)>, AllocError>
        requires { ShowsUnused self.old number said.now }
        ensures from { IfOk result (λ heard. option_map (λ heard. heard.0) heard ≡ asks_in self.old number) }
        ensures ok { IfOk result (λ heard. HearsFrom heard number self.old said.now self.new) }
        ensures ordered { IsOrdered nat_cmp self.old.suites }
        ensures err { OnErr result (self.new ≡ self.old) }
        ensures asked { IfErr result (λ _. IsTrue (is_some (asks_in self.old number))) }
        ensures memory { IfErr result (λ _. IsTrue (is_held said.now)) }
    {
        let Some(suite) = self.suites.get_mut(&number) else {
            return Ok(None);
        };
        let Coming::Ask { server, .. } = suite.next() else {
            return Ok(None);
        };
        let hearing = suite.hear(said)?;
        Ok(Some((server, hearing)))
    }

    /// With a lock a suite that is gathered has a quorum, on which the transaction is executed. It is a call of its
    /// own, so that what it takes on the stack is not cleared for each lock.
    #[inline(never)]
    fn on_quorum(
        &mut self,
        resources: &mut Resources,
        number: u64,
        server: u8,
        last: Told,
    ) -> Result<Flow, AllocError>
        requires unused { HasUnused resources.old.cache.entries }
        requires reached { IsReachedIn resources.old.fixed_parts self.old.task self.old.suites resources.old.progress }
        requires sound { IsSound last }
        ensures ok { IfOk result (λ flow. CompletesBy resources.old self.old number server last flow self.new resources.new) }
        ensures err { OnErr result (IsUntouched resources.old self.old self.new resources.new) }
    {
        match self.pending(number, last)? {
            Some(pending) => self.execute(resources, Learned::Quorum(number, pending)),
            None => Ok(self.give_up(Cause::Lost { server })),
        }
    }

    /// The quorum that a suite is to have with a lock that completes one.
    fn pending(&self, number: u64, last: Told) -> Result<Option<PendingQuorum>, AllocError>
        requires { IsSound last }
        ensures { IfOk result (λ pending. SettlesBy (suite_of self.now.suites number) last pending) }
    {
        match self.suites.get(&number) {
            Some(suite) => {
                let pending = suite.pending(last)?;
                Ok(Some(pending))
            }
            None => Ok(None),
        }
    }

    /// A server gave the content of a suite, or it did not.
    fn on_given(
        &mut self,
        resources: &mut Resources,
        number: u64,
        server: u8,
        said: &Reply,
    ) -> Result<Flow, AllocError>
        requires unused { HasUnused resources.old.cache.entries }
        requires reached { IsReachedIn resources.old.fixed_parts self.old.task self.old.suites resources.old.progress }
        ensures ok { IfOk result (λ flow. IsStep resources.old (given_by resources.old self.old number server said.now) flow self.new resources.new) }
        ensures err { OnErr result (IsUntouched resources.old self.old self.new resources.new) }
        ensures memory { IfErr result (λ _. IsTrue (is_some (txn_run.given_in said.now))) }
    {
        let Reply::Given { content, .. } = said else {
            return Ok(self.give_up(Cause::Lost { server }));
        };
        match self.fetched(number, content)? {
            Some(fetched) => self.execute(resources, Learned::Content(fetched)),
            None => Ok(self.give_up(Cause::Lost { server })),
        }
    }

    /// What the cache is to keep with the content of a suite; nothing, where the suite had no quorum.
    fn fetched(&self, number: u64, content: &Content) -> Result<Option<Fetched>, AllocError>
        ensures value { IfOk result (λ one. one ≡ content_kept self.now number content.now) }
        ensures keepable { IfOk result (λ one. IfSome one IsKeepable) }
    {
        let Some(suite) = self.suites.get(&number) else {
            return Ok(None);
        };
        let Some(first) = suite.first() else {
            return Ok(None);
        };
        let fetched = Fetched::new(&self.task, number, first, content)?;
        Ok(Some(fetched))
    }

    /// Executes the transaction, once this was learned, and goes on to what follows. An error leaves all as it
    /// was; what was reached is let go then.
    fn execute(
        &mut self,
        resources: &mut Resources,
        just_learned: Learned,
    ) -> Result<Flow, AllocError>
        requires unused { HasUnused resources.old.cache.entries }
        requires reached { IsReachedIn resources.old.fixed_parts self.old.task self.old.suites resources.old.progress }
        requires fits { Fits just_learned }
        ensures ok { IfOk result (λ flow. IsStep resources.old (executed resources.old self.old just_learned) flow self.new resources.new) }
        ensures err { OnErr result (IsUntouched resources.old self.old self.new resources.new) }
    {
        let execution = Execution {
            alloc: resources.alloc,
            fixed_parts: &resources.fixed_parts,
            task: &self.task,
        };
        let (cache, progress) = (&mut resources.cache, &mut resources.progress);
        match execution.execute(&mut self.suites, cache, progress, just_learned) {
            Ok(next_phase) => Ok(self.follow(next_phase)),
            Err(refused) => {
                resources.begin_anew();
                Err(refused)
            }
        }
    }

    /// Goes on to what follows an execution.
    fn follow(&mut self, next_phase: NextPhase) -> Flow
        ensures { (cache : Cache) → GoesBy (follow self.old.task cache self.old.suites next_phase) result self.new cache }
    {
        match next_phase {
            NextPhase::Gather(number) => self.gather(number),
            NextPhase::Fetch(number) => {
                self.phase = Phase::Fetching(number);
                Flow::On
            }
            NextPhase::Grant(granted) => self.widen_all(0, granted),
            NextPhase::Refuse(refusal) => {
                let servers = locked_at(self.suites.as_slice());
                self.prepare(servers, Err(refusal))
            }
        }
    }

    /// A suite is gathered, unless too few votes are to be had.
    fn gather(&mut self, number: u64) -> Flow
        ensures { (cache : Cache) → GoesBy (gathers self.old cache number) result self.new cache }
    {
        let coming = self.suites.get(&number).map(GatheredSuite::next);
        if let Some(Coming::Short { got, needed, busy }) = coming {
            return self.give_up(Cause::of_short(number, got, needed, busy));
        }
        self.phase = Phase::Gathering(number);
        Flow::On
    }
}
