//! Whether what threads left is a run of servers and agents. No proof follows what they do.
//!
//! **Promises.** `certify` says it, and trusts nobody. It is lent the settings, the histories of the servers
//! (`server_lock`) and a transcript of each agent. Where it says yes, all that holds of every run holds of what the
//! threads did, and it gives the decisions.
//!
//! Three definitions say what it looks for (`specs/`). The **merge** orders the items of all histories by stamps
//! and then by servers, each server's in its own order (`Merges`). A history whose stamps fall has none. The
//! **weave** makes events of the merge and the transcripts; no request, reply or outcome is in them (`Weaves`).
//! **What a run shows** is the way back: which items are served, and what each agent puts down (`Shown`). Certified
//! is where the woven events have sense and show just these items and transcripts, and where a server that was told to
//! be full can have been (`Fulls`, `IsCertified`).
//!
//! **The caller owes** nothing: what is no run is refused.
//!
//! The code is one `Walk`: a world, and of each history and transcript what is left. It plays the events up to the
//! next item, the least of at most 32 heads. It compares what the world serves with that item, and the ends of jobs
//! with the entries. Nothing is sorted, and no event is gathered.
//!
//! **Files**: `entry` (transcripts), `decided`, `fault`, `fulls`, `heads`, `unused`, `operator`, `sense`, `votes`,
//! `same`, `begun`, `verdicts`, `walk`, `judging`.
//!
//! **Definitions** (`specs/`): `Merges`, `Weaves`, `Shown`, `Fulls`, `Certified`, `Deciding`, `Promised`.
//! `docs/HEADLINE.md`, "The certified run", has what a reader must believe.
#![tactic(auto)]

mod begun;
mod decided;
mod entry;
mod fault;
mod fulls;
mod heads;
mod judging;
mod operator;
mod same;
mod sense;
mod unused;
mod verdicts;
mod votes;
mod walk;

pub use decided::{Decided, DecidedTransaction};
pub use entry::{AgentEntry, KeptEnd, KeptJob, Transcript, Transcripts};
pub use fault::CertifyFault;
pub use judging::certify;
