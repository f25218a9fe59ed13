//! An agent in a world.

ghost use Rattle.std.specs.Prelude.{◌≡◌, ◌<◌, IfOk, IfErr, IsTrue, OnOk, OnErr, Some, option_map};
ghost use Rattle.std.specs.Option.{option_or};
ghost use Rattle.txn_core.specs.Agents as agents;
ghost use Rattle.txn_core.specs.Wanting as wanting;
ghost use Rattle.txn_core.specs.declared.response.Response.TheVariants.{Lacked, Replied};
ghost use Rattle.run_core.specs.Worlds.{steps_after};
ghost use Rattle.run_core.specs.code.Seats as seats;

use crate::done::EndedJob;
use rep_core::{Lack, Reply, Stamped};
use std::alloc::{AllocError, Global};
use std::marker::Model;
use suite_prefix::Settings;
use txn_core::{Agent, Ending};

/// An agent, with the last stamp that it was told, and how many steps its job has taken.
#[derive(Drop)]
pub(crate) struct WorldAgent {
    pub(crate) agent: Agent,
    stamp: u64,
    steps: u64,
}

impl Model for WorldAgent {
    ghost use Rattle.run_core.specs.code.Seats.{Seated};
    ghost use Rattle.run_core.specs.code.SeatFields.{seated_of};

    ghost Value = { Seated };

    ghost view = { seated_of };
}

impl WorldAgent {
    /// An agent of this number, as a service opens.
    pub(crate) fn new(
        alloc: Global,
        index: u8,
        settings: &Settings,
    ) -> Result<WorldAgent, AllocError>
        requires { index < settings.now.agents }
        ensures { IfOk result (λ seat. seat ≡ seats.opening settings.now index) }
    {
        let Some(agent) = Agent::new(alloc, index, settings)? else {
            unreachable!();
        };
        Ok(WorldAgent {
            agent,
            stamp: 0,
            steps: 0,
        })
    }

    /// The agent.
    pub(crate) fn agent(&self) -> &Agent
        ensures { result.now ≡ record { fixed = self.now.fixed; state = self.now.actor.agent } }
    {
        &self.agent
    }

    /// The last stamp that it was told.
    pub(crate) fn stamp(&self) -> u64
        ensures { result ≡ self.now.actor.stamp }
    {
        self.stamp
    }

    /// Takes a reply of the server that it asks, and has the reply's stamp from then on. How its job ended is
    /// put into a place of the caller's, which else keeps what it has.
    #[inline(always)]
    pub(crate) fn take_reply(
        &mut self,
        number: u8,
        server: u8,
        reply: &Stamped<Reply>,
        ended: &mut Option<EndedJob>,
    ) -> Result<(), AllocError>
        requires asked { option_map (λ asked. asked.0) (agents.next_of self.old.fixed self.old.actor.agent) ≡ Some server }
        requires fits { seats.Fits self.old (Replied reply.now.value) }
        ensures ended { OnOk result (ended.new ≡ option_or (seats.ending_by number self.old (Replied reply.now.value)) ended.old) }
        ensures state { OnOk result (self.new ≡ seats.after_response self.old reply.now.stamp (Replied reply.now.value)) }
        ensures err { OnErr result ((self.new ≡ self.old) × (ended.new ≡ ended.old)) }
        ensures memory { IfErr result (λ _. IsTrue (wanting.by_taking (agents.next_of self.old.fixed self.old.actor.agent) (Replied reply.now.value))) }
    {
        let count = self.agent.count().saturating_sub(1);
        let mut ending = None;
        self.agent.take(Ok(&reply.value), &mut ending)?;
        self.stamp = reply.stamp;
        self.move_on(number, count, ending, ended);
        Ok(())
    }

    /// Its request was not served: it is told so, which takes no memory, and keeps its stamp. How its job
    /// ended is put into a place of the caller's, which else keeps what it has.
    pub(crate) fn lack(&mut self, number: u8, lack: Lack, ended: &mut Option<EndedJob>)
        requires { seats.Fits self.old (Lacked lack) }
        ensures ended { ended.new ≡ option_or (seats.ending_by number self.old (Lacked lack)) ended.old }
        ensures state { self.new ≡ seats.after_response self.old self.old.actor.stamp (Lacked lack) }
    {
        let count = self.agent.count().saturating_sub(1);
        let mut ending = None;
        let Ok(()) = self.agent.take(Err(lack), &mut ending) else {
            unreachable!();
        };
        self.move_on(number, count, ending, ended);
    }

    /// It took a step more, which its job ended with, where there is an ending.
    #[inline(always)]
    fn move_on(
        &mut self,
        agent: u8,
        count: u64,
        ending: Option<Ending>,
        ended: &mut Option<EndedJob>,
    )
        ensures ended { ended.new ≡ option_or (option_map (seats.ended_with agent count self.old.actor.steps) ending) ended.old }
        ensures state { self.new ≡ record self.old { actor = record self.old.actor { steps = steps_after self.old.actor.steps ending } } }
    {
        let steps = self.steps.saturating_add(1);
        match ending {
            None => self.steps = steps,
            Some(ending) => {
                let outcome = EndedJob {
                    agent,
                    count,
                    steps,
                    ending,
                };
                self.steps = 0;
                *ended = Some(outcome);
            }
        }
    }
}
