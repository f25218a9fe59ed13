//! What happens in a world.

use rep_core::Lack;
use txn_core::Job;

/// What happens in a world. Servers and agents are named by their numbers, from 0.
#[derive(Clone, Debug, Drop)]
pub enum Event {
    /// An agent begins a job.
    Begin { agent: u8, job: Job },
    /// An agent's request is served, and the agent takes the reply.
    Step { agent: u8 },
    /// A server crashes.
    Crash { server: u8 },
    /// A server restarts.
    Return { server: u8 },
    /// An agent forgets what its cache keeps for a site.
    Forget { agent: u8, site: u8 },
    /// An agent's request is not served, and the agent is told why.
    Lack { agent: u8, lack: Lack },
}
