//! The walk through histories and transcripts.

ghost use Rattle.std.specs.Prelude.{◌≡◌, ℕ, ◌+◌, ◌<◌, ◌∷◌, ◌++◌, [], List, length, false, IfNone, IfOk, IfSome, IsTrue, Err, None, Ok, Some, OnOk};
ghost use Rattle.txn_core.specs.Agents as agents;
ghost use Rattle.txn_core.specs.Agents.{fixed_of};
ghost use Rattle.run_core.specs.declared.event.Event.TheVariants.{Begin};
ghost use Rattle.run_core.specs.Asking.{asked_at};
ghost use Rattle.run_core.specs.Senses as senses;
ghost use Rattle.run_certify.specs.declared.entry.AgentEntry.TheVariants as entries;
ghost use Rattle.run_certify.specs.declared.fault.CertifyFault.TheVariants.{Mismatch};
ghost use Rattle.run_certify.specs.Deciding.{count_at, decision_by, job_at};
ghost use Rattle.std.specs.List.{cons_option};
ghost use Rattle.run_certify.specs.Weaves.{transcript_of};
ghost use Rattle.run_certify.specs.code.Firsts.{AreAllPlayed, at_server};
ghost use Rattle.run_certify.specs.code.Turns.{is_asked};
ghost use Rattle.run_certify.specs.code.Uses.{EndsOtherwise};
ghost use Rattle.run_certify.specs.code.Walks.{AskedFails, AskedGoes, EntryFails, EntryGoes, Fails, Goes, IsBegin, IsEnd, IsEvent, IsItemTaken, IsShorter, IsSound, IsStart, IsUse, what_was_done, with_decision};
ghost use Rattle.run_certify.specs.Merges.{ItemAt, IsMerge};

use crate::begun::Begun;
use crate::decided::{Decided, DecidedTransaction};
use crate::entry::{AgentEntry, Transcript};
use crate::fault::CertifyFault;
use crate::heads::Heads;
use crate::operator::operator_event;
use crate::same::is_served;
use crate::sense::{begin_event, has_sense};
use crate::unused::Unused;
use crate::verdicts::decision_of;
use rep_core::Lack;
use run_core::{EndedJob, Event, Served, World};
use server_lock::{History, Item};
use std::alloc::{AllocError, Global};
use std::marker::Model;
use suite_prefix::Settings;
use txn_core::{Job, MAX_JOBS};
use weak_cache::MAX_SITES;

/// What is left of histories and transcripts, and the world after what was played of them.
#[derive(Drop)]
pub(crate) struct Walk<'a> {
    settings: &'a Settings,
    world: World,
    heads: Heads<'a>,
    unused: Unused<'a>,
    begun: Begun<'a>,
    decisions: Vec<DecidedTransaction>,
}

impl<'a> Model for Walk<'a> {
    ghost use Rattle.run_certify.specs.code.Walks.{Walked};

    ghost Value = { Walked };

    ghost use Rattle.std.specs.Coded.{codes};
    ghost use Rattle.suite_prefix.specs.code.ServersCode.{servers_code};

    ghost coded = { Prim.hlevel (codes, servers_code) };

    ghost view = { λ walk. record {
      settings = walk.settings.now;
      given = walk.world.given;
      world = walk.world.world;
      histories = walk.heads;
      unused = walk.unused;
      begun = walk.begun;
      made = walk.decisions.items;
    } };
}

impl<'a> Walk<'a> {
    /// The start of the walk: a world as it opens.
    pub(crate) fn new(
        alloc: Global,
        settings: &'a Settings,
        histories: &'a [History],
        transcripts: &'a [Transcript],
    ) -> Result<Walk<'a>, AllocError>
        ensures { IfOk result (λ walk. IsStart settings.now histories.now transcripts.now walk) }
    {
        let world = World::opening(alloc, settings)?;
        let heads = Heads::new(alloc, histories)?;
        let unused = Unused::new(alloc, transcripts)?;
        let begun = Begun::new(alloc, transcripts.len())?;
        Ok(Walk {
            settings,
            world,
            heads,
            unused,
            begun,
            decisions: Vec::new(alloc),
        })
    }

    /// Plays all items, each with what its agent did before it.
    pub(crate) fn items(&mut self) -> Result<(), CertifyFault>
        ensures ok { OnOk result (Goes self.old [] self.new []) }
        ensures played { OnOk result (AreAllPlayed self.new.histories) }
        ensures mismatch { result ≡ Err Mismatch → Fails self.old [] }
    {
        loop {
            let Some((server, item)) = self.next_item()? else {
                return Ok(());
            };
            self.item(server, item)?;
        }
    }

    /// Plays what was done up to an item, and compares what was served.
    fn item(&mut self, server: usize, item: &Item) -> Result<(), CertifyFault>
        ensures ok { OnOk result (Goes self.old (at_server server item.now ∷ []) self.new []) }
        ensures mismatch { result ≡ Err Mismatch → Fails self.old (at_server server item.now ∷ []) }
        ensures histories { OnOk result (self.new.histories ≡ self.old.histories) }
    {
        match item.agent {
            None => self.operate(server, item),
            Some(agent) => self.serve(agent, server, item),
        }
    }

    /// Plays an item of the operator's, and compares what was served.
    fn operate(&mut self, server: usize, item: &Item) -> Result<(), CertifyFault>
        requires { item.now.agent ≡ None }
        ensures ok { OnOk result (Goes self.old (at_server server item.now ∷ []) self.new []) }
        ensures mismatch { result ≡ Err Mismatch → Fails self.old (at_server server item.now ∷ []) }
        ensures histories { OnOk result (self.new.histories ≡ self.old.histories) }
    {
        let Some(event) = operator_event(server, &item.request.value) else {
            return Err(CertifyFault::Mismatch);
        };
        let mut served = Served::place();
        let was_served = self.step(&event, &mut served, &mut None)?;
        if is_served(was_served, &served, server, item) {
            Ok(())
        } else {
            Err(CertifyFault::Mismatch)
        }
    }

    /// Plays what an agent did up to an item of its, and compares what was served.
    fn serve(&mut self, agent: u8, server: usize, item: &Item) -> Result<(), CertifyFault>
        requires { item.now.agent ≡ Some agent }
        ensures ok { OnOk result (Goes self.old (at_server server item.now ∷ []) self.new []) }
        ensures mismatch { result ≡ Err Mismatch → Fails self.old (at_server server item.now ∷ []) }
        ensures histories { OnOk result (self.new.histories ≡ self.old.histories) }
    {
        loop {
            let Some(entry) = self.next_entry(usize::from(agent)) else {
                return Err(CertifyFault::Mismatch);
            };
            if let AgentEntry::Asked {
                server: asked,
                stamp,
            } = entry
            {
                return self.ask(agent, (*asked, *stamp), server, item);
            }
            self.replay(agent, entry)?;
        }
    }

    /// Plays a step of an agent, and compares what was served with an item, and what it was told.
    fn ask(
        &mut self,
        agent: u8,
        told: (u8, u64),
        server: usize,
        item: &Item,
    ) -> Result<(), CertifyFault>
        requires { item.now.agent ≡ Some agent }
        ensures ok { OnOk result (AskedGoes agent told.0 told.1 (at_server server item.now) self.old self.new) }
        ensures mismatch { result ≡ Err Mismatch → AskedFails agent told.0 told.1 (at_server server item.now) self.old }
        ensures histories { OnOk result (self.new.histories ≡ self.old.histories) }
    {
        if usize::from(told.0) != server || told.1 != item.stamp {
            return Err(CertifyFault::Mismatch);
        }
        let mut served = Served::place();
        let mut ended = None;
        let was_served = self.step(&Event::Step { agent }, &mut served, &mut ended)?;
        if !is_served(was_served, &served, server, item) {
            return Err(CertifyFault::Mismatch);
        }
        self.decide(agent, &served)?;
        self.end(agent, &ended)
    }

    /// Plays what is left of the transcripts, which asks no server.
    pub(crate) fn rest(&mut self) -> Result<(), CertifyFault>
        requires { AreAllPlayed self.old.histories }
        ensures ok { OnOk result (Goes self.old [] self.new []) }
        ensures used { OnOk result ((agent : ℕ) → transcript_of self.new.unused agent ≡ []) }
        ensures histories { OnOk result (self.new.histories ≡ self.old.histories) }
        ensures mismatch { result ≡ Err Mismatch → Fails self.old [] }
    {
        for agent in 0..self.transcripts() {
            self.rest_of(agent)?;
        }
        Ok(())
    }

    /// Plays what is left of a transcript, where nothing is left of those before it.
    fn rest_of(&mut self, agent: usize) -> Result<(), CertifyFault>
        requires played { AreAllPlayed self.old.histories }
        requires before { (i : ℕ) → i < agent → transcript_of self.old.unused i ≡ [] }
        ensures ok { OnOk result (Goes self.old [] self.new []) }
        ensures used { OnOk result ((i : ℕ) → i < agent + 1 → transcript_of self.new.unused i ≡ []) }
        ensures long { OnOk result (length self.new.unused ≡ length self.old.unused) }
        ensures histories { OnOk result (self.new.histories ≡ self.old.histories) }
        ensures mismatch { result ≡ Err Mismatch → Fails self.old [] }
    {
        while let Some(entry) = self.next_entry(agent) {
            if let AgentEntry::Asked { .. } = entry {
                return Err(CertifyFault::Mismatch);
            }
            let Ok(number) = u8::try_from(agent) else {
                return Err(CertifyFault::Mismatch);
            };
            self.replay(number, entry)?;
        }
        Ok(())
    }

    /// Plays an entry that was used, and the end of the agent's job after it, if that ended. One that has a stamp and
    /// one that is an end is no entry to be played.
    fn replay(&mut self, agent: u8, entry: &'a AgentEntry) -> Result<(), CertifyFault>
        ensures ok { OnOk result (EntryGoes agent entry.now self.old self.new) }
        ensures shorter { OnOk result (IsShorter self.old agent self.new) }
        ensures mismatch { result ≡ Err Mismatch → is_asked entry.now ≡ false → EntryFails agent entry.now self.old }
    {
        match entry {
            AgentEntry::Begun(job) => self.begin(agent, job),
            AgentEntry::Lacked { server, lack } => self.lack(agent, *server, *lack),
            AgentEntry::Forgot { site } => self.forget(agent, *site),
            AgentEntry::Asked { .. } | AgentEntry::Ended(_) => Err(CertifyFault::Mismatch),
        }
    }

    /// An agent begins a job.
    fn begin(&mut self, agent: u8, job: &'a Job) -> Result<(), CertifyFault>
        ensures ok { OnOk result (EntryGoes agent (entries.Begun job.now) self.old self.new) }
        ensures shorter { OnOk result (IsShorter self.old agent self.new) }
        ensures mismatch { result ≡ Err Mismatch → EntryFails agent (entries.Begun job.now) self.old }
    {
        if !self.may_begin(agent, job) {
            return Err(CertifyFault::Mismatch);
        }
        let event = begin_event(agent, job)?;
        self.step(&event, &mut Served::place(), &mut None)?;
        self.count(agent, job);
        Ok(())
    }

    /// Whether an agent may begin a job.
    fn may_begin(&self, agent: u8, job: &Job) -> bool
        ensures value { IsSound self.now → result ≡ senses.has_sense (fixed_of self.now.given) self.now.world (Begin agent job.now) }
        ensures few { IsTrue result → count_at self.now.begun.counts agent < agents.max_jobs }
    {
        let idle = self.world.idle(agent);
        let there = usize::from(agent) < self.settings.agents();
        let sense = has_sense(self.settings, job);
        let few = self.begun.count(agent) < MAX_JOBS;
        idle & there & sense & few
    }

    /// An agent is told what a server lacked.
    fn lack(&mut self, agent: u8, server: u8, lack: Lack) -> Result<(), CertifyFault>
        ensures ok { OnOk result (EntryGoes agent (entries.Lacked server lack) self.old self.new) }
        ensures shorter { OnOk result (IsShorter self.old agent self.new) }
        ensures mismatch { result ≡ Err Mismatch → EntryFails agent (entries.Lacked server lack) self.old }
    {
        if self.asked(agent) != Some(server) {
            return Err(CertifyFault::Mismatch);
        }
        let mut ended = None;
        self.step(
            &Event::Lack { agent, lack },
            &mut Served::place(),
            &mut ended,
        )?;
        self.end(agent, &ended)
    }

    /// An agent forgets what its cache keeps for a site.
    fn forget(&mut self, agent: u8, site: u8) -> Result<(), CertifyFault>
        ensures ok { OnOk result (EntryGoes agent (entries.Forgot site) self.old self.new) }
        ensures shorter { OnOk result (IsShorter self.old agent self.new) }
        ensures mismatch { result ≡ Err Mismatch → EntryFails agent (entries.Forgot site) self.old }
    {
        if usize::from(agent) >= self.agents() || site >= MAX_SITES {
            return Err(CertifyFault::Mismatch);
        }
        self.step(
            &Event::Forget { agent, site },
            &mut Served::place(),
            &mut None,
        )?;
        Ok(())
    }

    /// Takes the item that is next.
    fn next_item(&mut self) -> Result<Option<(usize, &'a Item)>, CertifyFault>
        ensures taken { IfOk result (λ next. IfSome next (λ one. IsItemTaken self.old one.0 one.1.now self.new)) }
        ensures none { result ≡ Ok None → AreAllPlayed self.old.histories }
        ensures same { result ≡ Ok None → self.new ≡ self.old }
        ensures mismatch { result ≡ Err Mismatch → (items : List ItemAt) → IsMerge self.old.histories items → ⊥ }
    {
        self.heads.next()
    }

    /// How many transcripts there are.
    fn transcripts(&self) -> usize
        ensures { result ≡ length self.now.unused }
    {
        self.unused.len()
    }

    /// The next entry of an agent, which is used; none where none is left.
    fn next_entry(&mut self, agent: usize) -> Option<&'a AgentEntry>
        ensures none { IfNone result (transcript_of self.old.unused agent ≡ []) }
        ensures same { IfNone result (self.new ≡ self.old) }
        ensures used { IfSome result (λ entry. IsUse self.old agent entry.now self.new) }
    {
        self.unused.next(agent)
    }

    /// That a job ended is used, if one did: it has to come next.
    fn end(&mut self, agent: u8, outcome: &Option<EndedJob>) -> Result<(), CertifyFault>
        ensures ok { OnOk result (IsEnd self.old agent outcome.now self.new) }
        ensures mismatch { result ≡ Err Mismatch → EndsOtherwise self.old.unused agent outcome.now }
    {
        self.unused.end(agent, outcome)
    }

    /// Plays one event in the world, and tells whether a request was served: it is put into a place, with its reply.
    /// How a job ended, if one did, is put into another, which is empty.
    fn step(
        &mut self,
        event: &Event,
        served: &mut Served,
        ended: &mut Option<EndedJob>,
    ) -> Result<bool, AllocError>
        requires { ended.old ≡ None }
        ensures { IfOk result (λ was_served. IsEvent self.old event.now (what_was_done was_served served.new ended.new) self.new) }
    {
        self.world.advance(event, served, ended)
    }

    /// Of which server an agent asks next, if it asks one.
    fn asked(&self, agent: u8) -> Option<u8>
        ensures { result ≡ asked_at (fixed_of self.now.given) self.now.world agent }
    {
        self.world.asked(agent)
    }

    /// How many agents there are.
    fn agents(&self) -> usize
        ensures { result ≡ self.now.settings.agents }
    {
        self.settings.agents()
    }

    /// A job that an agent begins is counted, and is the last that it began.
    fn count(&mut self, agent: u8, job: &'a Job)
        requires { count_at self.old.begun.counts agent < agents.max_jobs }
        ensures { IsBegin self.old agent job.now self.new }
    {
        self.begun.begin(agent, job);
    }

    /// Puts down what was decided, if what was served decided the transaction of an agent.
    fn decide(&mut self, agent: u8, served: &Served) -> Result<(), AllocError>
        ensures { OnOk result (self.new ≡ with_decision self.old agent (Some served.now)) }
    {
        if let Some(decision) = self.decision(agent, served)? {
            self.decisions.push(decision)?;
        }
        Ok(())
    }

    /// What was decided, if what was served decided the transaction of an agent.
    fn decision(&self, agent: u8, served: &Served) -> Result<Option<DecidedTransaction>, AllocError>
        ensures { IfOk result (λ one. one ≡ decision_by (job_at self.now.begun.jobs agent) (Some served.now)) }
    {
        decision_of(self.begun.job(agent), served)
    }

    /// What was decided.
    pub(crate) fn into_decided(self) -> Decided
        ensures { result ≡ self.entry.made }
    {
        let Walk { decisions, .. } = self;
        Decided::from_vec(decisions)
    }
}
