//! What comes of asking a server.

ghost use Rattle.std.specs.Prelude.{◌≡◌, ◌+◌, ◌-◌, ◌≤◌, ◌++◌, ◌∷◌, [], length, true, Ok, Err};
ghost use Rattle.std.specs.Vec.{vec_len, vec_capacity};
ghost use Rattle.txn_core.specs.Agents.{next_of};
ghost use Rattle.txn_core.specs.Standing.{FitsAsked};
ghost use Rattle.agent_pool.specs.code.Steps.{Hears, delivery_from, stamp_in};

use run_certify::{AgentEntry, KeptEnd};
use run_core::EndedJob;
use server_lock::{Miss, ServerAnswer};
use txn_core::{Agent, Response};

/// Where a job ended: the count of its agent's jobs before it, and the place of its end in the transcript.
#[derive(Clone, Copy)]
pub struct Ran {
    pub count: u64,
    pub at: usize,
}

/// What came of a request, or of a job.
#[derive(Clone, Copy)]
pub enum Came {
    /// The job goes on.
    On,
    /// The job ended.
    Ended(Ran),
    /// The job could not be begun, or it cannot go on.
    Stuck,
    /// Memory was refused to the agent.
    Lacked,
}

/// An answer as it is delivered: what is written down of it, and what the agent is told.
#[derive(Drop)]
pub struct Delivery {
    pub(crate) entry: AgentEntry,
    pub(crate) response: Response,
}

/// The delivery of this answer of this server. There is none where the pass was of other servers.
pub(crate) fn delivery_from(server: u8, answer: ServerAnswer) -> Option<Delivery>
    ensures { result ≡ delivery_from server answer.reply }
{
    match answer.into_reply() {
        Ok(reply) => Some(Delivery {
            entry: AgentEntry::Asked {
                server,
                stamp: reply.stamp,
            },
            response: Response::Replied(reply.value),
        }),
        Err(Miss::Lack(lack)) => Some(Delivery {
            entry: AgentEntry::Lacked { server, lack },
            response: Response::Lacked(lack),
        }),
        Err(Miss::Stale(_)) => None,
    }
}

/// The stamp of the reply, if there is one.
pub(crate) fn stamp_in(answer: &ServerAnswer) -> Option<u64>
    ensures { result ≡ stamp_in answer.now.reply }
{
    match answer.reply() {
        Ok(reply) => Some(reply.stamp),
        Err(_) => None,
    }
}

/// What came of a request is written down, and told to the agent of this number. Where its job, which was begun at
/// so many entries, ends with that, the end is written down too.
pub(crate) fn hear(
    agent: &mut Agent,
    entries: &mut Vec<AgentEntry>,
    delivery: Delivery,
    number: u8,
    begun: usize,
) -> Came
    requires room { vec_len entries.old + 2 ≤ vec_capacity entries.old }
    requires fits { FitsAsked (next_of agent.old.fixed agent.old.state) delivery.response }
    requires begun { begun ≤ vec_len entries.old }
    ensures { Hears number begun delivery agent.old entries.old.items agent.new entries.new.items result }
{
    let count = agent.count().saturating_sub(1);
    let Delivery { entry, response } = delivery;
    entries.push_reserved(entry);
    let mut ending = None;
    let Ok(()) = agent.take(response.as_result(), &mut ending) else {
        return Came::Lacked;
    };
    let Some(ending) = ending else {
        return Came::On;
    };
    let at = entries.len();
    let steps = (at - begun) as u64;
    let ended = EndedJob {
        agent: number,
        count,
        steps,
        ending,
    };
    let Ok(kept) = KeptEnd::new(*entries.allocator(), ended) else {
        return Came::Lacked;
    };
    entries.push_reserved(AgentEntry::Ended(kept));
    Came::Ended(Ran { count, at })
}
