//! An agent, with the transcript of what it did.

ghost use Rattle.std.specs.Prelude.{◌≡◌, ℕ, ◌<◌, ◌≤◌, ◌++◌, ◌∷◌, [], length, max, IfOk, IfSome, OnOk, OnErr, true, false, None, Ok, Some};
ghost use Rattle.txn_core.specs.Agents as agents;
ghost use Rattle.run_certify.specs.declared.entry.AgentEntry.TheVariants.{Begun, Forgot};
ghost use Rattle.agent_pool.specs.code.Steps.{AsksNobody, DidMore};
ghost use Rattle.agent_pool.specs.Transcripts.{first_player, known_at, most_numbers, number_of, players_from};

use crate::asking::{Came, delivery_from, hear, stamp_in};
use crate::known::{learn, unite};
use crate::pool_context::PoolContext;
use rep_core::Request;
use run_certify::{AgentEntry, KeptJob, Transcript};
use server_lock::{Gate, Pass, Servers};
use std::alloc::{AllocError, Global};
use std::marker::Model;
use std::sync::Wait;
use suite_prefix::Settings;
use txn_core::Agent;

/// How many numbers a server may have, which are of one byte.
const MOST_NUMBERS: usize = 256;

/// An agent, with the transcript of what it did: so many jobs as it began are begun there. It knows of each server the last
/// stamp that it was told there, at first 0, and what it is told has a stamp above that.
#[derive(Drop)]
pub struct Player {
    number: u8,
    agent: Agent,
    entries: Vec<AgentEntry>,
    known: Vec<u64>,
}

impl Model for Player {
    ghost use Rattle.agent_pool.specs.Transcripts.{Played};
    ghost use Rattle.agent_pool.specs.code.Fields.{played_of, IsPlayer};

    ghost Value = { Played };

    ghost view = { played_of };

    ghost invariant = { IsPlayer };
}

impl Player {
    /// An agent of this number that began no job yet, in a service that opens with these settings.
    fn new(alloc: Global, number: u8, settings: &Settings) -> Result<Player, AllocError>
        requires { number < settings.now.agents }
        ensures { IfOk result (λ player. player ≡ first_player settings.now number) }
    {
        let Some(agent) = Agent::new(alloc, number, settings)? else {
            unreachable!();
        };
        let known = vec![in alloc; 0; MOST_NUMBERS]?;
        Ok(Player {
            number,
            agent,
            entries: Vec::new(alloc),
            known,
        })
    }

    /// Its number.
    pub fn number(&self) -> u8
        ensures { result ≡ number_of self.now }
    {
        self.number
    }

    /// Whether it does no job.
    pub fn is_idle(&self) -> bool
        ensures { result ≡ agents.is_idle self.now.agent.state.doing }
    {
        self.agent.is_idle()
    }

    /// What it did.
    pub fn entries(&self) -> &[AgentEntry]
        ensures { result.now ≡ self.now.entries }
    {
        &self.entries
    }

    /// What it did, by value.
    pub fn into_transcript(self) -> Transcript
        ensures { result ≡ self.entries }
    {
        let Player { entries, .. } = self;
        Transcript::from_vec(entries)
    }

    /// It knows of each server what the other knows too, so what it is told from now on is later than all that the other was
    /// told: what it does comes after what the other did, as each server saw it.
    pub fn follow(&mut self, other: &Player)
        ensures agent { self.new.agent ≡ self.old.agent }
        ensures entries { self.new.entries ≡ self.old.entries }
        ensures known { (server : ℕ) → server < most_numbers
            → known_at self.new server ≡ max (known_at self.old server) (known_at other.now server) }
    {
        unite(&mut self.known, &other.known);
    }

    /// Lets go what it keeps for a site.
    pub fn forget(&mut self, site: u8) -> Result<(), AllocError>
        requires { site < agents.max_sites }
        ensures agent { OnOk result (self.new.agent ≡ record self.old.agent { state = agents.forget self.old.agent.state site }) }
        ensures entries { OnOk result (self.new.entries ≡ self.old.entries ++ Forgot site ∷ []) }
        ensures known { self.new.known ≡ self.old.known }
        ensures err { OnErr result (self.new ≡ self.old) }
    {
        self.entries.reserve(1)?;
        self.agent.forget(site);
        self.entries.push_reserved(AgentEntry::Forgot { site });
        Ok(())
    }

    /// Begins a job, and tells whether it did: it does not where the job has no sense, or where it began too many.
    pub(crate) fn begin(&mut self, job: &KeptJob) -> Result<bool, AllocError>
        ensures fixed { self.new.agent.fixed ≡ self.old.agent.fixed }
        ensures number { number_of self.new ≡ number_of self.old }
        ensures known { self.new.known ≡ self.old.known }
        ensures began { IfOk result (λ began. began ≡ agents.begins self.old.agent.fixed self.old.agent.state job.now) }
        ensures agent { OnOk result (self.new.agent.state ≡ agents.begin self.old.agent.fixed self.old.agent.state job.now) }
        ensures entries { result ≡ Ok true → self.new.entries ≡ self.old.entries ++ Begun job.now ∷ [] }
        ensures not { result ≡ Ok false → self.new ≡ self.old }
        ensures err { OnErr result (self.new ≡ self.old) }
    {
        let count = self.agent.count();
        self.entries.reserve(1)?;
        let kept = job.clone()?;
        self.agent.begin(job)?;
        if self.agent.count() == count {
            return Ok(false);
        }
        self.entries.push_reserved(AgentEntry::Begun(kept));
        Ok(true)
    }

    /// Asks once, by this pass, and takes what comes of it. Its job was begun at so many entries. The transcript has
    /// room for what is written into it before a server is asked, and nothing of the agent happens under a lock.
    pub(crate) fn step<R: Wait, G: Gate>(
        &mut self,
        rt: &R,
        context: &PoolContext<'_, G>,
        pass: Pass,
        begun: usize,
    ) -> (Pass, Came)
        requires { begun ≤ length self.old.entries }
        ensures { DidMore context.now.servers.now.servers begun self.old self.new pass result.0 result.1 }
    {
        if self.entries.reserve(2).is_err() {
            return (pass, Came::Lacked);
        }
        let asked = match asked_next(&self.agent, context.servers) {
            Ok(asked) => asked,
            Err(_) => return (pass, Came::Lacked),
        };
        let Some((server, request)) = asked else {
            return (pass, Came::Stuck);
        };
        let (pass, answer) = context.servers.ask(rt, context.gate, pass, server, request);
        let stamp = stamp_in(&answer);
        let Some(delivery) = delivery_from(server, answer) else {
            return (pass, Came::Stuck);
        };
        learn(rt, &mut self.known, server, stamp);
        let came = hear(
            &mut self.agent,
            &mut self.entries,
            delivery,
            self.number,
            begun,
        );
        (pass, came)
    }
}

/// What an agent asks next, and of which of these servers: nothing, where it is idle, or where there is no such
/// server.
fn asked_next(agent: &Agent, servers: &Servers) -> Result<Option<(u8, Request)>, AllocError>
    ensures some { IfOk result (λ asked. IfSome asked (λ asked. (asked.0 < servers.now.servers)
        × (agents.next_of agent.now.fixed agent.now.state ≡ Some asked))) }
    ensures none { result ≡ Ok None → AsksNobody servers.now.servers (agents.next_of agent.now.fixed agent.now.state) }
{
    let mut request = Request::Locks;
    let Some(server) = agent.next(&mut request)? else {
        return Ok(None);
    };
    if usize::from(server) >= servers.settings().servers() {
        return Ok(None);
    }
    Ok(Some((server, request)))
}

/// An agent for each number of a service that opens with these settings, as they began no job yet.
pub fn first_players(alloc: Global, settings: &Settings) -> Result<Vec<Player>, AllocError>
    ensures { IfOk result (λ players. players.items ≡ players_from settings.now 0 settings.now.agents) }
{
    let count = settings.agents() as u8;
    let mut players = Vec::new(alloc);
    for number in 0..count {
        players.push(Player::new(alloc, number, settings)?)?;
    }
    Ok(players)
}
