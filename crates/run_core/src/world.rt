//! A world: the servers and the agents of a service, event by event.

ghost use Rattle.std.specs.Prelude.{◌≡◌, ◌≤◌, ◌++◌, [], Some, take, is_some, length, IfOk, IfErr, IfSome, IsSome, IsTrue, OnOk, OnErr, option_map};
ghost use Rattle.std.specs.List.{cons_option};
ghost use Rattle.txn_core.specs.Agents.{fixed_of};
ghost use Rattle.run_core.specs.Asking.{asked_at};
ghost use Rattle.run_core.specs.Runs as runs;
ghost use Rattle.run_core.specs.Telling.{ComesTo, IsFitting, IsFittingIf};
ghost use Rattle.run_core.specs.Wanting as wanting;
ghost use Rattle.run_core.specs.Worlds as worlds;

use crate::done::{Done, EndedJob, Served};
use crate::event::Event;
use crate::host::Host;
use crate::moves;
use crate::opening::{seats_of, servers_of};
use crate::operator::{Order, operate};
use crate::seat::WorldAgent;
use file_ops::AuditItem;
use rep_core::Server;
use std::alloc::{AllocError, Global};
use std::marker::Model;
use suite_prefix::{Form, Settings};
use txn_core::Agent;

/// Why events were not all played: memory ran out. The world is as after `done` of them.
#[derive(Clone, Copy, Debug, PartialEq, Eq)]
pub struct Stopped {
    pub done: usize,
}

/// The servers and the agents of a service.
#[derive(Drop)]
pub struct World {
    alloc: Global,
    settings: Settings,
    servers: Vec<Host>,
    seats: Vec<WorldAgent>,
}

impl Model for World {
    ghost use Rattle.run_core.specs.Opened.{Opened};
    ghost use Rattle.run_core.specs.code.WorldFields.{IsOfOneService, opened_of};

    ghost Value = { Opened };

    ghost use Rattle.std.specs.Coded.{codes};
    ghost use Rattle.suite_prefix.specs.code.ServersCode.{servers_code};

    ghost coded = { Prim.hlevel (codes, servers_code) };

    ghost view = { opened_of };

    ghost invariant = { IsOfOneService };
}

impl World {
    /// The world as a service opens with these settings.
    pub fn opening(alloc: Global, settings: &Settings) -> Result<World, AllocError>
        ensures { IfOk result (λ world. world ≡ record { given = settings.now; world = worlds.opening settings.now }) }
    {
        let settings = settings.clone()?;
        let servers = servers_of(alloc, &settings)?;
        let seats = seats_of(alloc, &settings)?;
        Ok(World {
            alloc,
            settings,
            servers,
            seats,
        })
    }

    /// Plays one event. Where it has no sense nothing comes of it. Where memory runs out nothing has
    /// changed, and the same event may be played again. Only a transaction that begins may need memory, and
    /// a step: to ask for a Prepare or with answers, for what the server keeps or tells where it is not full
    /// (nothing, where it answers Busy, Lost, Done or Down), and for what the agent keeps of the reply.
    pub fn step(&mut self, event: &Event) -> Result<Done, AllocError>
        ensures given { self.new.given ≡ self.old.given }
        ensures ok { IfOk result (λ done. worlds.step (fixed_of self.old.given) self.old.world event.now ≡ record { world = self.new.world; done = done }) }
        ensures fits { IfOk result (λ done. IfSome done.served IsFitting) }
        ensures err { OnErr result (self.new ≡ self.old) }
        ensures memory { IfErr result (λ _. IsTrue (wanting.by_event (fixed_of self.old.given) self.old.world event.now)) }
    {
        let mut asked = Served::place();
        let mut outcome = None;
        let is_served = self.advance(event, &mut asked, &mut outcome)?;
        let served = asked.when(is_served);
        Ok(Done { served, outcome })
    }

    /// Plays one event as `step` does, and tells whether a request was served. That is put into a place of the
    /// caller's, with its reply; where none was served, nothing is said of what that place holds. How a job ended,
    /// if one did, is put into another, which else keeps what it has. Where memory runs out nothing has changed but
    /// the first place, and the same event may be played again. It needs memory only where `step` may.
    pub fn advance(
        &mut self,
        event: &Event,
        served: &mut Served,
        ended: &mut Option<EndedJob>,
    ) -> Result<bool, AllocError>
        ensures given { self.new.given ≡ self.old.given }
        ensures ok { IfOk result (ComesTo (worlds.step (fixed_of self.old.given) self.old.world event.now) self.new.world served.new ended.old ended.new) }
        ensures fits { IfOk result (λ is_served. IsFittingIf is_served served.new) }
        ensures err { OnErr result ((self.new ≡ self.old) × (ended.new ≡ ended.old)) }
        ensures memory { IfErr result (λ _. IsTrue (wanting.by_event (fixed_of self.old.given) self.old.world event.now)) }
    {
        match event {
            Event::Begin { agent, job } => {
                moves::begin(&mut self.seats, *agent, job)?;
                Ok(false)
            }
            Event::Step { agent } => {
                moves::ask(&mut self.servers, &mut self.seats, *agent, served, ended)
            }
            Event::Crash { server } => {
                Ok(operate(&mut self.servers, *server, Order::Crash, served))
            }
            Event::Return { server } => {
                Ok(operate(&mut self.servers, *server, Order::Return, served))
            }
            Event::Forget { agent, site } => {
                moves::forget(&mut self.seats, *agent, *site);
                Ok(false)
            }
            Event::Lack { agent, lack } => {
                moves::lack(&mut self.seats, *agent, *lack, ended);
                Ok(false)
            }
        }
    }

    /// Plays events, one after the other, and answers how jobs ended. Where memory runs out the world is
    /// as after the events that are told, and the others may be played next: the first of them needs memory,
    /// or the last that was played ended a job, whose outcome is kept. The outcomes of that call are not
    /// handed out.
    pub fn play(&mut self, events: &[Event]) -> Result<Vec<EndedJob>, Stopped>
        ensures given { self.new.given ≡ self.old.given }
        ensures outcomes { IfOk result (λ outcomes. outcomes.items ≡ runs.outcomes (runs.dones (fixed_of self.old.given) self.old.world events.now)) }
        ensures world { OnOk result (self.new.world ≡ runs.after (fixed_of self.old.given) self.old.world events.now) }
        ensures stopped { IfErr result (λ stopped. self.new.world ≡ runs.after (fixed_of self.old.given) self.old.world (take stopped.done events.now)) }
        ensures within { IfErr result (λ stopped. stopped.done ≤ length events.now) }
        ensures memory { IfErr result (λ stopped. IsTrue (wanting.by_stop (fixed_of self.old.given) self.old.world events.now stopped.done)) }
    {
        let mut outcomes = Vec::new(self.alloc);
        let mut served = Served::place();
        let mut played = 0;
        for event in events {
            let mut ended = None;
            let Ok(_told) = self.advance(event, &mut served, &mut ended) else {
                return Err(Stopped { done: played });
            };
            played += 1;
            let Ok(()) = keep(&mut outcomes, ended) else {
                return Err(Stopped { done: played });
            };
        }
        Ok(outcomes)
    }

    /// The denials that a server recorded, in their order. One that is not there recorded none.
    pub fn audit(&self, server: u8) -> &[AuditItem]
        ensures { result.now ≡ worlds.audit_of self.now.world server }
    {
        match self.servers.get(usize::from(server)) {
            Some(found) => found.server.audit(),
            None => &[],
        }
    }

    /// The form that the copy of a suite is written in at a server, where it has one.
    pub fn form(&self, server: u8, suite: u64) -> Option<Form>
        ensures { result ≡ worlds.form_in self.now.world server suite }
    {
        if let Some(found) = self.servers.get(usize::from(server)) {
            return found.server.form(suite);
        }
        None
    }

    /// The server of a number, where there is one.
    pub fn server(&self, number: u8) -> Option<&Server>
        ensures there { is_some result ≡ is_some (worlds.server_at self.now.world number) }
        ensures state { IfSome result (λ server. worlds.server_at self.now.world number ≡ Some server.now.state) }
    {
        match self.servers.get(usize::from(number)) {
            Some(found) => Some(&found.server),
            None => None,
        }
    }

    /// The agent of a number, where there is one.
    pub fn agent(&self, number: u8) -> Option<&Agent>
        ensures there { is_some result ≡ is_some (worlds.actor_at self.now.world number) }
        ensures fixed { IfSome result (λ agent. agent.now.fixed ≡ fixed_of self.now.given) }
        ensures state { IfSome result (λ agent. option_map (λ actor. actor.agent) (worlds.actor_at self.now.world number) ≡ Some agent.now.state) }
    {
        match self.seats.get(usize::from(number)) {
            Some(found) => Some(found.agent()),
            None => None,
        }
    }

    /// Of which server an agent asks next: of none, where it has no job or is not there. It takes no memory.
    pub fn asked(&self, agent: u8) -> Option<u8>
        ensures { result ≡ asked_at (fixed_of self.now.given) self.now.world agent }
    {
        match self.seats.get(usize::from(agent)) {
            Some(seat) => seat.agent().asked(),
            None => None,
        }
    }

    /// Whether an agent has no job. One that is not there has none.
    pub fn idle(&self, agent: u8) -> bool
        ensures { result ≡ worlds.has_no_job (worlds.actor_at self.now.world agent) }
    {
        match self.seats.get(usize::from(agent)) {
            Some(seat) => seat.agent().is_idle(),
            None => true,
        }
    }
}

/// How a job ended is kept, if one did.
fn keep(outcomes: &mut Vec<EndedJob>, outcome: Option<EndedJob>) -> Result<(), AllocError>
    ensures ok { OnOk result (outcomes.new.items ≡ outcomes.old.items ++ cons_option outcome []) }
    ensures memory { IfErr result (λ _. IsSome outcome) }
{
    if let Some(outcome) = outcome {
        outcomes.push(outcome)?;
    }
    Ok(())
}
