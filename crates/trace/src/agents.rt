//! What agents do, what they gathered, and what their caches keep, as JSON.

use event_json::{
    Kept, asked_word, kept_in, push_cache, push_cache_change, push_gathered, stage_word,
};
use rep_core::Request;
use script_text::push_number;
use std::alloc::{AllocError, Global};
use txn_core::Agent;

/// What was told last of an agent: what it gathered, and what its cache keeps, the oldest first.
#[derive(Drop)]
pub(crate) struct AgentTold {
    gathered: Vec<u8>,
    cache: Vec<Kept>,
}

impl AgentTold {
    /// Nothing yet.
    pub(crate) fn new(alloc: Global) -> AgentTold {
        AgentTold {
            gathered: Vec::new(alloc),
            cache: Vec::new(alloc),
        }
    }

    /// All that an agent gathered, and all that its cache keeps.
    pub(crate) fn push_all(
        &mut self,
        alloc: Global,
        text: &mut Vec<u8>,
        agent: &Agent,
        servers: u8,
    ) -> Result<(), AllocError> {
        self.gathered.clear();
        push_gathered(&mut self.gathered, agent.gathered(), servers)?;
        text.extend_from_slice(b",\"gathered\":")?;
        text.extend_from_slice(self.gathered.as_slice())?;
        self.cache = kept_in(alloc, agent.cache())?;
        text.extend_from_slice(b",\"cache\":")?;
        push_cache(text, self.cache.as_slice())?;
        self.cache.reverse();
        Ok(())
    }

    /// What an agent gathered, where it was told otherwise before, and what changed in its cache since it was told.
    pub(crate) fn push_changes(
        &mut self,
        alloc: Global,
        text: &mut Vec<u8>,
        agent: &Agent,
        servers: u8,
    ) -> Result<(), AllocError> {
        let mut gathered = Vec::new(alloc);
        push_gathered(&mut gathered, agent.gathered(), servers)?;
        if self.gathered != gathered {
            text.extend_from_slice(b",\"gathered\":")?;
            text.extend_from_slice(gathered.as_slice())?;
            self.gathered = gathered;
        }
        let mut cache = kept_in(alloc, agent.cache())?;
        cache.reverse();
        push_cache_change(alloc, text, self.cache.as_slice(), cache.as_slice())?;
        self.cache = cache;
        Ok(())
    }
}

/// The number of an agent, how many jobs it began, how far its job is, and what it asks next of which server, where it
/// has a job: that is put into a place of the caller's.
pub(crate) fn push_agent(
    text: &mut Vec<u8>,
    number: u8,
    agent: &Agent,
    request: &mut Request,
) -> Result<(), AllocError> {
    push_member(text, b"{\"agent\":", u64::from(number))?;
    push_member(text, b",\"jobs\":", agent.count())?;
    text.extend_from_slice(b",\"stage\":\"")?;
    text.extend_from_slice(stage_word(agent.stage()))?;
    text.extend_from_slice(b"\"")?;
    if let Some(server) = agent.next(request)? {
        text.extend_from_slice(b",\"next\":\"")?;
        text.extend_from_slice(asked_word(request))?;
        push_member(text, b"\",\"of\":", u64::from(server))?;
    }
    Ok(())
}

/// What stands before a number, and the number.
fn push_member(text: &mut Vec<u8>, before: &[u8], number: u64) -> Result<(), AllocError> {
    text.extend_from_slice(before)?;
    push_number(text, number)
}
