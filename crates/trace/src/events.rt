//! What happens, as objects of JSON, one a line.

use crate::agents::{AgentTold, push_agent};
use event_json::{Before, push_denials, push_reply, push_request, push_server, push_string};
use file_ops::AuditItem;
use rep_core::Request;
use run_core::{Done, EndedJob, Event, Served, World};
use script_text::push_number;
use std::alloc::{AllocError, Global};
use suite_play::push_ending;
use txn_core::Agent;

/// The form of the events, by its number. It rises where who reads the form before would read events wrong.
const FORM: &[u8] = b",\"form\":2";

/// How far a run is told: how many events, and what was told last of what changes.
#[derive(Drop)]
pub(crate) struct Events {
    alloc: Global,
    count: u64,
    line: u64,
    before: Before,
    asked: Request,
    servers: u8,
    told: Vec<AgentTold>,
}

impl Events {
    /// A run of which nothing is told yet.
    pub(crate) fn new(alloc: Global) -> Events {
        Events {
            alloc,
            count: 0,
            line: 0,
            before: Before::new(alloc),
            asked: Request::Locks,
            servers: 0,
            told: Vec::new(alloc),
        }
    }

    /// Begins an object, with the number of the event and of the line of the script.
    fn begin(&mut self, text: &mut Vec<u8>, kind: &[u8]) -> Result<(), AllocError> {
        text.extend_from_slice(b"{\"event\":")?;
        push_number(text, self.count)?;
        text.extend_from_slice(b",\"line\":")?;
        push_number(text, self.line)?;
        text.extend_from_slice(b",\"kind\":\"")?;
        text.extend_from_slice(kind)?;
        text.extend_from_slice(b"\"")?;
        self.count = self.count.saturating_add(1);
        Ok(())
    }

    /// Ends an object.
    pub(crate) fn close(&mut self, text: &mut Vec<u8>) -> Result<(), AllocError> {
        text.extend_from_slice(b"}\n")
    }

    /// Tells what agents and servers there are, and what they have before the first line.
    pub(crate) fn open(
        &mut self,
        text: &mut Vec<u8>,
        world: &World,
        agents: u8,
        servers: u8,
    ) -> Result<(), AllocError> {
        self.servers = servers;
        self.begin(text, b"opening")?;
        text.extend_from_slice(FORM)?;
        self.tell_all(text, world, agents, servers)
    }

    /// Tells what agents and servers have behind the last line.
    pub(crate) fn stand(
        &mut self,
        text: &mut Vec<u8>,
        world: &World,
        agents: u8,
        servers: u8,
    ) -> Result<(), AllocError> {
        self.begin(text, b"standing")?;
        self.tell_all(text, world, agents, servers)
    }

    fn tell_all(
        &mut self,
        text: &mut Vec<u8>,
        world: &World,
        agents: u8,
        servers: u8,
    ) -> Result<(), AllocError> {
        let mut before: &[u8] = b",\"servers\":[";
        for number in 0..servers {
            if let Some(server) = world.server(number) {
                text.extend_from_slice(before)?;
                push_server(self.alloc, text, number, server)?;
                before = b",";
            }
        }
        self.told.clear();
        before = b"],\"agents\":[";
        for number in 0..agents {
            if let Some(agent) = world.agent(number) {
                text.extend_from_slice(before)?;
                self.push_whole(text, number, agent)?;
                before = b",";
            }
        }
        text.extend_from_slice(b"]}\n")
    }

    /// Begins to tell a line of the script.
    pub(crate) fn line(
        &mut self,
        text: &mut Vec<u8>,
        number: u64,
        line: &[u8],
    ) -> Result<(), AllocError> {
        self.line = number;
        self.begin(text, b"line")?;
        text.extend_from_slice(b",\"text\":")?;
        push_string(self.alloc, text, line)
    }

    /// Tells that the line does nothing.
    pub(crate) fn nothing(&mut self, text: &mut Vec<u8>, why: &[u8]) -> Result<(), AllocError> {
        text.extend_from_slice(b",\"nothing\":")?;
        push_string(self.alloc, text, why.trim_ascii())
    }

    /// Looks at a server before it is asked something.
    pub(crate) fn look(&mut self, world: &World, number: u8) -> Result<(), AllocError> {
        match world.server(number) {
            Some(server) => self.before.look(number, server),
            None => Ok(()),
        }
    }

    /// Tells what became of an event that is a line by itself, and ends the line.
    pub(crate) fn happened(
        &mut self,
        text: &mut Vec<u8>,
        world: &World,
        event: &Event,
        done: &Done,
    ) -> Result<(), AllocError> {
        match event {
            Event::Begin { agent, .. }
            | Event::Step { agent }
            | Event::Forget { agent, .. }
            | Event::Lack { agent, .. } => self.push_agent_of(text, world, *agent)?,
            Event::Crash { .. } | Event::Return { .. } => (),
        }
        if let Some(served) = &done.served {
            self.push_at(text, world, served)?;
        }
        self.end(text, done)
    }

    /// Tells a step of an agent, and of which server it was to ask.
    pub(crate) fn stepped(
        &mut self,
        text: &mut Vec<u8>,
        world: &World,
        (agent, asked): (u8, Option<u8>),
        done: &Done,
    ) -> Result<(), AllocError> {
        self.begin(text, b"request")?;
        text.extend_from_slice(b",\"agent\":")?;
        push_number(text, u64::from(agent))?;
        match (&done.served, asked) {
            (Some(served), _) => self.push_served(text, world, served)?,
            (None, Some(server)) => push_full(text, server)?,
            (None, None) => (),
        }
        self.push_agent_of(text, world, agent)?;
        self.end(text, done)
    }

    /// A request, its reply, and what changed at the server.
    fn push_served(
        &mut self,
        text: &mut Vec<u8>,
        world: &World,
        served: &Served,
    ) -> Result<(), AllocError> {
        push_server_number(text, served.server)?;
        text.extend_from_slice(b",\"request\":")?;
        push_request(self.alloc, text, &served.request.value)?;
        text.extend_from_slice(b",\"reply\":")?;
        push_reply(self.alloc, text, &served.reply.value)?;
        self.push_at(text, world, served)
    }

    /// What changed at the server that served a request.
    fn push_at(
        &mut self,
        text: &mut Vec<u8>,
        world: &World,
        served: &Served,
    ) -> Result<(), AllocError> {
        match world.server(served.server) {
            Some(server) => {
                text.extend_from_slice(b",\"at\":")?;
                self.before
                    .push_changes(self.alloc, text, server, &served.request.value)
            }
            None => Ok(()),
        }
    }

    /// What an agent does next, and what it gathered and keeps, where that changed.
    fn push_agent_of(
        &mut self,
        text: &mut Vec<u8>,
        world: &World,
        number: u8,
    ) -> Result<(), AllocError> {
        match world.agent(number) {
            Some(agent) => {
                text.extend_from_slice(b",\"by\":")?;
                self.push_by(text, number, agent)
            }
            None => Ok(()),
        }
    }

    /// All of an agent, who is told of for the first time, or for the last.
    fn push_whole(
        &mut self,
        text: &mut Vec<u8>,
        number: u8,
        agent: &Agent,
    ) -> Result<(), AllocError> {
        push_agent(text, number, agent, &mut self.asked)?;
        let mut told = AgentTold::new(self.alloc);
        told.push_all(self.alloc, text, agent, self.servers)?;
        self.told.push(told)?;
        text.extend_from_slice(b"}")
    }

    fn push_by(&mut self, text: &mut Vec<u8>, number: u8, agent: &Agent) -> Result<(), AllocError> {
        push_agent(text, number, agent, &mut self.asked)?;
        if let Some(told) = self.told.get_mut(usize::from(number)) {
            told.push_changes(self.alloc, text, agent, self.servers)?;
        }
        text.extend_from_slice(b"}")
    }

    /// Tells how a job ended, if one did, and ends the object.
    fn end(&mut self, text: &mut Vec<u8>, done: &Done) -> Result<(), AllocError> {
        if let Some(ended) = &done.outcome {
            self.push_end(text, ended)?;
        }
        self.close(text)
    }

    fn push_end(&mut self, text: &mut Vec<u8>, ended: &EndedJob) -> Result<(), AllocError> {
        text.extend_from_slice(b",\"end\":{\"agent\":")?;
        push_number(text, u64::from(ended.agent))?;
        text.extend_from_slice(b",\"job\":")?;
        push_number(text, ended.count)?;
        text.extend_from_slice(b",\"requests\":")?;
        push_number(text, ended.steps)?;
        text.extend_from_slice(b",\"text\":\"")?;
        push_ending(self.alloc, text, &ended.ending)?;
        text.extend_from_slice(b"\"}")
    }

    /// Tells the denials that a server recorded, and ends the line.
    pub(crate) fn audit(
        &mut self,
        text: &mut Vec<u8>,
        server: u8,
        items: &[AuditItem],
    ) -> Result<(), AllocError> {
        text.extend_from_slice(b",\"audit\":{\"server\":")?;
        push_number(text, u64::from(server))?;
        text.extend_from_slice(b",\"denials\":")?;
        push_denials(text, items)?;
        text.extend_from_slice(b"}}\n")
    }
}

/// A server, whose number this is, had no room for what was asked, and served nothing.
fn push_full(text: &mut Vec<u8>, server: u8) -> Result<(), AllocError> {
    push_server_number(text, server)?;
    text.extend_from_slice(b",\"reply\":{\"says\":\"full\"}")
}

fn push_server_number(text: &mut Vec<u8>, server: u8) -> Result<(), AllocError> {
    text.extend_from_slice(b",\"server\":")?;
    push_number(text, u64::from(server))
}
