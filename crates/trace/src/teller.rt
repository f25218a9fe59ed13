//! What is told of a run, and not written yet: as lines, or as events.

use crate::events::Events;
use crate::lines::push_line;
use crate::standing::push_standing;
use crate::told::{push_full, push_nothing, push_served};
use file_ops::AuditItem;
use run_core::{Done, Event, World};
use std::alloc::{AllocError, Global};
use suite_play::{push_audit, push_ended};

/// How a run is told.
#[derive(Clone, Copy)]
pub(crate) enum Form {
    /// In lines, as the head of `lib.rt` says.
    Lines,
    /// In objects of JSON, one a line.
    Events,
}

/// What is told and not written yet.
#[derive(Drop)]
pub(crate) struct Teller {
    alloc: Global,
    pub(crate) text: Vec<u8>,
    events: Option<Events>,
}

impl Teller {
    /// A run that is to be told in this form, of which nothing is told yet.
    pub(crate) fn new(alloc: Global, form: Form) -> Teller {
        Teller {
            alloc,
            text: Vec::new(alloc),
            events: match form {
                Form::Lines => None,
                Form::Events => Some(Events::new(alloc)),
            },
        }
    }

    /// Tells with what a run begins.
    pub(crate) fn open(
        &mut self,
        world: &World,
        agents: u8,
        servers: u8,
    ) -> Result<(), AllocError> {
        match &mut self.events {
            Some(events) => events.open(&mut self.text, world, agents, servers),
            None => Ok(()),
        }
    }

    /// Tells a line of the script.
    pub(crate) fn line(&mut self, number: u64, line: &[u8]) -> Result<(), AllocError> {
        match &mut self.events {
            Some(events) => events.line(&mut self.text, number, line),
            None => push_line(&mut self.text, line),
        }
    }

    /// Tells that the line does nothing, since an agent has a job, or none.
    pub(crate) fn nothing(&mut self, agent: u8, why: &[u8]) -> Result<(), AllocError> {
        match &mut self.events {
            Some(events) => events.nothing(&mut self.text, why),
            None => push_nothing(&mut self.text, agent, why),
        }
    }

    /// Looks at what changes next.
    pub(crate) fn look(&mut self, world: &World, server: Option<u8>) -> Result<(), AllocError> {
        match (&mut self.events, server) {
            (Some(events), Some(server)) => events.look(world, server),
            _ => Ok(()),
        }
    }

    /// Tells what became of an event that is a line by itself.
    pub(crate) fn happened(
        &mut self,
        world: &World,
        event: &Event,
        done: &Done,
    ) -> Result<(), AllocError> {
        match &mut self.events {
            Some(events) => events.happened(&mut self.text, world, event, done),
            None => push_ended(self.alloc, &mut self.text, &done.outcome),
        }
    }

    /// Tells that steps of an agent come next: none, where it has no job.
    pub(crate) fn steps(&mut self, agent: u8, is_idle: bool) -> Result<(), AllocError> {
        if is_idle {
            self.nothing(agent, b" has no job\n")?;
        }
        match &mut self.events {
            Some(events) => events.close(&mut self.text),
            None => Ok(()),
        }
    }

    /// Tells a step of an agent, and of which server it was to ask.
    pub(crate) fn stepped(
        &mut self,
        world: &World,
        agent: u8,
        asked: Option<u8>,
        done: &Done,
    ) -> Result<(), AllocError> {
        if let Some(events) = &mut self.events {
            return events.stepped(&mut self.text, world, (agent, asked), done);
        }
        match (&done.served, asked) {
            (Some(served), _) => push_served(&mut self.text, agent, served)?,
            (None, Some(server)) => push_full(&mut self.text, agent, server)?,
            (None, None) => (),
        }
        push_ended(self.alloc, &mut self.text, &done.outcome)
    }

    /// Tells the denials that a server recorded.
    pub(crate) fn audit(&mut self, server: u8, items: &[AuditItem]) -> Result<(), AllocError> {
        match &mut self.events {
            Some(events) => events.audit(&mut self.text, server, items),
            None => push_audit(server, items, &mut self.text),
        }
    }

    /// Tells with what a run ends.
    pub(crate) fn close(
        &mut self,
        world: &World,
        agents: u8,
        servers: u8,
    ) -> Result<(), AllocError> {
        match &mut self.events {
            Some(events) => events.stand(&mut self.text, world, agents, servers),
            None => push_standing(self.alloc, &mut self.text, world, servers),
        }
    }
}
