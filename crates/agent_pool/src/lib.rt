//! Agents in threads, over servers under locks.
//!
//! `run_pool` has jobs carried out by agents, each in a thread of its own, until none is left. It gives the agents
//! back, each with the **transcript** of what it did.
//!
//! **Promises**, on success (`IsPoolOf`): there is one outcome for each job, no two of one agent and count. The
//! agent's transcript has the job as its begin of that count, and that outcome after it. Of two jobs of one agent it
//! began the one that stands first before the other. The agents are idle and began just as many jobs as were handed
//! in. So no job is lost, carried out twice, out of its order, or ended by an end of another time. An agent knows of
//! each server the last stamp that it was told, and what it is told has a stamp above that (`Learns`); `follow` lets
//! it know what another does. So each server served what it asks from then on after all that it had told the other.
//!
//! Else the fault is what gathering finds in what the agents handed back (`GathersOrLacks`), the first of these.
//! Memory: an agent was out of memory, or none could begin. Stranger: an agent took a place beyond the jobs.
//! Double: a second outcome of a job. Missing: no outcome of a job. The agents took each job once, and no others
//! (`AreTaken`): so no pool answers Stranger or Double, and Missing only where an agent got stuck (`HasReason`), which
//! cannot begin the job that it took, or cannot go on with it.
//!
//! No clause says that a call returns, that threads run at once, or which agent takes a job. Whether transcripts
//! and histories are those of one run, `certify` judges.
//!
//! **The caller owes** `AreReady` and at least one agent: the agents are idle, no two have one number, and each has
//! its pass. `are_ready` tells it. `first_players` with the passes of a start are so, and so is what comes back.
//!
//! Jobs go through one channel (`crossbeam_channel`), under a rule that every step of every thread keeps
//! (`IsEachOnce`). What was put is the jobs, each once, and then end marks, and each thread takes jobs in their order.
//! What a thread took stands in its pass, which goes back to the one that puts: so all that was taken is what was put.
//! A thread writes down what its agent is told before the agent takes it. What a thread hands back is known by its
//! promise (`IsWorked`), which std gives at the join. An agent that is out of memory goes on taking and runs nothing,
//! so nobody waits for it in vain.
//!
//! **Files**: `line` (the channel and its rule), `known`, `player`, `outcome`, `fault`, `passes`, `ready`,
//! `pool_context`, `asking`, `work`, `start`, `slots`, `gather`, `pool`.
//!
//! **Definitions** (`specs/`): `Line`, `Transcripts`, `Endings`, `Seats`, `Gathers`, `Taken`, `Pools`.
#![tactic(auto)]

mod asking;
mod fault;
mod gather;
mod known;
mod line;
mod outcome;
mod passes;
mod player;
mod pool;
mod pool_context;
mod ready;
mod slots;
mod start;
mod work;

pub use fault::PoolFault;
pub use line::{EachOnce, Hand, PoolItem};
pub use outcome::{JobOutcome, end_at, ended};
pub use player::{Player, first_players};
pub use pool::{Pool, run_pool};
pub use pool_context::NamedJob;
pub use ready::are_ready;
pub use run_certify::{
    AgentEntry, CertifyFault, Decided, DecidedTransaction, KeptEnd, KeptJob, Transcript,
    Transcripts, certify,
};
