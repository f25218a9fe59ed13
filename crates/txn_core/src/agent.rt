//! An agent.

ghost use Rattle.std.specs.Prelude.{◌≡◌, ◌<◌, ◌≤◌, IfOk, IfErr, IfNone, IfSome, OnOk, OnErr, IsTrue, Some, is_some, nat_lt, option_map, true};
ghost use Rattle.std.specs.Option.{option_or};
ghost use Rattle.weak_cache.specs.Cache.{Limits};
ghost use Rattle.weak_cache.specs.Entries.{keeps};
ghost use Rattle.txn_core.specs.code.AgentFields.{doing_of};
ghost use Rattle.txn_core.specs.Agents as agents;
ghost use Rattle.txn_core.specs.Sameness.{AreSameButWork, DoSameButWork};
ghost use Rattle.txn_core.specs.Standing.{FitsAsked, response_of};
ghost use Rattle.txn_core.specs.Stages.{gathered_in, stage_of};
ghost use Rattle.txn_core.specs.Wanting as wanting;
ghost use Rattle.txn_core.specs.code.Asking.{Asks, Wants, fixed_on};

use crate::ending::{Ending, Flow};
use crate::fixed_parts::FixedParts;
use crate::job::Job;
use crate::resources::Resources;
use crate::sameness::same_phase;
use crate::stage::Stage;
use crate::suites::GatheredSuite;
use crate::sweep_run::SweepRun;
use crate::task::Task;
use crate::transaction_run::TransactionRun;
use file_exec::Progress;
use file_ops::Service;
use rep_core::{Lack, Reply, Request};
use std::alloc::{AllocError, Global};
use std::marker::Model;
use suite_prefix::{MAX_AGENTS, Settings};
use vote_core::MAX_SERVERS;
use weak_cache::{MAX_SITES, WeakCache};

/// After this many jobs none is begun.
pub const MAX_JOBS: u64 = u32::MAX as u64;

/// What an agent is doing.
#[derive(Drop)]
enum Doing {
    /// It carries out a transaction.
    Running(TransactionRun),
    /// It sweeps a server.
    RunningSweep(SweepRun),
}

/// An agent: it carries out one job at a time, a transaction or a sweep. It says what is to be asked of
/// which server, and is told what comes of it.
#[derive(Drop)]
pub struct Agent {
    index: u8,
    count: u64,
    resources: Resources,
    doing: Option<Doing>,
}

impl Model for Agent {
    ghost use Rattle.txn_core.specs.Standing.{Standing};

    ghost Value = { Standing };

    ghost use Rattle.txn_core.specs.code.AgentFields.{standing_of, IsStanding};

    ghost view = { standing_of };

    ghost invariant = { IsStanding };
}

impl Agent {
    /// The agent of this index in a service that opens with these settings, which began no job yet; none, where
    /// the settings have no such agent.
    pub fn new(alloc: Global, index: u8, settings: &Settings) -> Result<Option<Agent>, AllocError>
        ensures there { IfOk result (λ made. is_some made ≡ nat_lt index settings.now.agents) }
        ensures agent { IfOk result (λ made. IfSome made (λ agent. agent ≡ record { fixed = agents.fixed_of settings.now; state = agents.opening index })) }
    {
        if usize::from(index) >= settings.agents() {
            return Ok(None);
        }
        let service = Service {
            servers: settings.servers(),
            c0: *settings.c0(),
        };
        let fixed_parts = FixedParts::new(alloc, service)?;
        let cache = WeakCache::new(alloc, settings.budget(), settings.quota(), settings.slots())?;
        let progress = Progress::new(alloc);
        Ok(Some(Agent {
            index,
            count: 0,
            resources: Resources {
                alloc,
                fixed_parts,
                cache,
                progress,
            },
            doing: None,
        }))
    }

    /// An equal agent, which goes its own way from then on. What is large in it is shared.
    pub fn copy(&self) -> Result<Agent, AllocError>
        ensures { IfOk result (λ copy. copy ≡ self.now) }
    {
        let resources = self.resources.copy()?;
        let doing = match &self.doing {
            Some(Doing::Running(txn_run)) => {
                Some(Doing::Running(txn_run.copy(self.resources.alloc)?))
            }
            Some(Doing::RunningSweep(sweep_run)) => Some(Doing::RunningSweep(sweep_run.copy()?)),
            None => None,
        };
        Ok(Agent {
            index: self.index,
            count: self.count,
            resources,
            doing,
        })
    }

    /// Begins a job. Where it does a job already, where the job has no sense (there is no such site, or no
    /// such server), or where it began too many, nothing changes. An error leaves the agent as it was.
    /// Only a transaction that begins may run out of memory.
    pub fn begin(&mut self, job: &Job) -> Result<(), AllocError>
        ensures ok { OnOk result (self.new ≡ record self.old { state = agents.begin self.old.fixed self.old.state job.now }) }
        ensures err { OnErr result (self.new ≡ self.old) }
        ensures memory { IfErr result (λ _. IsTrue (wanting.by_job self.old.fixed self.old.state job.now)) }
    {
        if !self.is_idle() || self.count >= MAX_JOBS || !self.has_sense(job) {
            return Ok(());
        }
        self.start(job)?;
        self.count += 1;
        Ok(())
    }

    /// Whether there is such a site, or such a server.
    fn has_sense(&self, job: &Job) -> bool
        ensures { result ≡ agents.has_sense self.now.fixed job.now }
    {
        match job {
            Job::Transaction { site, .. } => *site < MAX_SITES,
            Job::Sweep { server } => usize::from(*server) < self.resources.fixed_parts.servers(),
        }
    }

    /// A job starts that has sense. It is not counted yet.
    fn start(&mut self, job: &Job) -> Result<(), AllocError>
        requires idle { agents.is_idle self.old.state.doing ≡ true }
        requires sense { agents.has_sense self.old.fixed job.now ≡ true }
        requires few { self.old.state.count < agents.max_jobs }
        ensures ok { OnOk result (self.new ≡ record self.old { state = agents.started self.old.fixed self.old.state job.now }) }
        ensures err { OnErr result (self.new ≡ self.old) }
        ensures memory { IfErr result (λ _. IsTrue (wanting.by_job self.old.fixed self.old.state job.now)) }
    {
        match job {
            Job::Transaction { caller, site, ops } => {
                let task = Task {
                    t: MAX_AGENTS as u64 * self.count + u64::from(self.index),
                    caller: caller.clone()?,
                    site: *site,
                    ops: ops.clone()?,
                };
                let txn_run = TransactionRun::begin(&mut self.resources, task)?;
                self.doing = txn_run.map(Doing::Running);
                Ok(())
            }
            Job::Sweep { server } => {
                let sweep_run = SweepRun::new(self.resources.alloc, *server);
                self.doing = Some(Doing::RunningSweep(sweep_run));
                Ok(())
            }
        }
    }

    /// Of which server it asks next, and what, which is put into a place of the caller's: nothing is, where
    /// it is idle. Only the list of a Prepare may run out of memory, and the answers of a Decide or a Finish.
    #[inline(always)]
    pub fn next(&self, request: &mut Request) -> Result<Option<u8>, AllocError>
        ensures ok { IfOk result (λ server. option_map (λ server. (server, request.new)) server ≡ agents.next_of self.now.fixed self.now.state) }
        ensures none { IfOk result (λ server. IfNone server (request.new ≡ request.old)) }
        ensures err { OnErr result (request.new ≡ request.old) }
        ensures memory { IfErr result (λ _. IsTrue (wanting.by_asking (agents.next_of self.now.fixed self.now.state))) }
    {
        match &self.doing {
            Some(Doing::Running(txn_run)) => {
                txn_run.ask(self.resources.alloc, &self.resources.fixed_parts, request)
            }
            Some(Doing::RunningSweep(sweep_run)) => {
                let server = sweep_run.ask(&self.resources.fixed_parts, request)?;
                Ok(Some(server))
            }
            None => Ok(None),
        }
    }

    /// Of which server it asks next: none, where it is idle. It takes no memory.
    pub fn asked(&self) -> Option<u8>
        ensures { result ≡ option_map (λ asked. asked.0) (agents.next_of self.now.fixed self.now.state) }
    {
        match &self.doing {
            Some(Doing::Running(txn_run)) => txn_run.asked(&self.resources.fixed_parts),
            Some(Doing::RunningSweep(sweep_run)) => {
                Some(sweep_run.asked(&self.resources.fixed_parts))
            }
            None => None,
        }
    }

    /// Takes what came of what it asks next, and gives the ending of its job, where that is at its end.
    /// An error leaves the agent as it was, and the same may be taken again. Memory may be wanting for
    /// a lock that is held, a content, answers and a list of locks, and for nothing else: never where a
    /// request was not served, at a Prepare, a Finish or a Break, or where a lock or a decision was lost.
    /// The ending is put into a place of the caller's, which else keeps what it has.
    #[inline(always)]
    pub fn take(
        &mut self,
        came: Result<&Reply, Lack>,
        ended: &mut Option<Ending>,
    ) -> Result<(), AllocError>
        requires { FitsAsked (agents.next_of self.old.fixed self.old.state) (response_of came) }
        ensures ok { OnOk result (ended.new ≡ option_or (agents.take self.old.fixed self.old.state (response_of came.entry)).ending ended.old) }
        ensures new { OnOk result (self.new ≡ record self.old { state = (agents.take self.old.fixed self.old.state (response_of came.entry)).agent }) }
        ensures err { OnErr result ((self.new ≡ self.old) × (ended.new ≡ ended.old)) }
        ensures memory { IfErr result (λ _. IsTrue (wanting.by_taking (agents.next_of self.old.fixed self.old.state) (response_of came.entry))) }
    {
        let flow = match &mut self.doing {
            Some(Doing::Running(txn_run)) => match came {
                Ok(said) => txn_run.on_reply(&mut self.resources, said)?,
                Err(lack) => txn_run.on_lack(&mut self.resources, lack),
            },
            Some(Doing::RunningSweep(sweep_run)) => match came {
                Ok(said) => {
                    sweep_run.on_reply(self.resources.alloc, &self.resources.fixed_parts, said)?
                }
                Err(lack) => sweep_run.on_lack(&self.resources.fixed_parts, lack),
            },
            None => Flow::On,
        };
        if let Flow::Ended(ending) = flow {
            *ended = Some(ending);
            self.doing = None;
            self.resources.begin_anew();
        }
        Ok(())
    }

    /// Lets go what it keeps for a site.
    pub fn forget(&mut self, site: u8)
        ensures { self.new ≡ record self.old { state = agents.forget self.old.state site } }
    {
        self.resources.cache.forget(site);
    }

    /// Whether its cache keeps anything for a site.
    pub fn keeps(&self, site: u8) -> bool
        ensures { result ≡ keeps site self.now.state.cache }
    {
        self.resources.cache.keeps(site)
    }

    /// What its sites keep.
    pub fn cache(&self) -> &WeakCache
        ensures { result.now ≡ record { limits = self.now.fixed.limits; entries = self.now.state.cache } }
    {
        &self.resources.cache
    }

    /// How far its job is.
    pub fn stage(&self) -> Stage
        ensures { result ≡ stage_of self.now.state.doing }
    {
        match &self.doing {
            Some(Doing::Running(txn_run)) => txn_run.stage(),
            Some(Doing::RunningSweep(sweep_run)) => sweep_run.stage(),
            None => Stage::Idle,
        }
    }

    /// The suites of which its transaction asked for locks, each with what it gathered of it: none, where it
    /// carries out no transaction.
    pub fn gathered(&self) -> &[(u64, GatheredSuite)]
        ensures { result.now ≡ gathered_in self.now.state.doing }
    {
        match &self.doing {
            Some(Doing::Running(txn_run)) => txn_run.gathered(),
            Some(Doing::RunningSweep(_)) | None => &[],
        }
    }

    /// Whether another is the same, if it carries out the same transaction, and that gathered the same. Where it is
    /// told, it is so; of two that gather, or have servers prepare, it is not told.
    pub fn same_but_work(&self, other: &Agent) -> bool
        ensures { IsTrue result → AreSameButWork self.now.state other.now.state }
    {
        self.index == other.index
            && self.count == other.count
            && self.resources.cache.same_entries(&other.resources.cache)
            && do_same_but_work(&self.doing, &other.doing)
    }

    /// Whether it does no job.
    pub fn is_idle(&self) -> bool
        ensures { result ≡ agents.is_idle self.now.state.doing }
    {
        self.doing.is_none()
    }

    /// How many jobs it began.
    pub fn count(&self) -> u64
        ensures { result ≡ self.now.state.count }
    {
        self.count
    }
}

impl Doing {
    /// Whether another is the same, if its transaction is the same, and that gathered the same.
    fn same_but_work(&self, other: &Doing) -> bool
        ensures { IsTrue result → DoSameButWork (Some (doing_of self.now)) (Some (doing_of other.now)) }
    {
        match (self, other) {
            (Doing::Running(own), Doing::Running(theirs)) => same_phase(&own.phase, &theirs.phase),
            (Doing::RunningSweep(own), Doing::RunningSweep(theirs)) => own.same(theirs),
            _ => false,
        }
    }
}

/// Whether two agents do the same, if their transactions are the same, and gathered the same.
fn do_same_but_work(own: &Option<Doing>, theirs: &Option<Doing>) -> bool
    ensures { IsTrue result → DoSameButWork (option_map doing_of own.now) (option_map doing_of theirs.now) }
{
    match (own, theirs) {
        (Some(own), Some(theirs)) => own.same_but_work(theirs),
        (None, None) => true,
        _ => false,
    }
}
