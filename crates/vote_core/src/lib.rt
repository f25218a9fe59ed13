//! Votes and quorums of replicated files, after Gifford's weighted voting (1979).
//!
//! `Votes` say at which servers a file's representatives are, how many votes each has, and how many a read (r) and
//! a write (w) collect. A set of servers is a test on their numbers; it is a quorum when its servers have r or w
//! votes.
//!
//! **Promises.** `Votes` are valid by their type. `Votes::new` refuses others by the first of seven faults
//! (`specs/Validity.antt`). So quorums meet in a server with a vote: a read and a write
//! (`Votes::reads_meet_writes`), and two writes (`Votes::writes_meet`). The first rule is Gifford's; the second, 2w > N,
//! is Bernstein's, Hadzilacos's and Goodman's (1987). Nothing here takes memory.
//!
//! **The caller owes** valid votes to `Votes::known`, and servers below `MAX_SERVERS` to `ServerSet::insert`, as
//! each server of `Votes::reps` is. No crate above counts votes: it keeps a `ServerSet` and asks `is_read` or
//! `is_write`.
//!
//! **Files**: `fault`, `server_set`, `validity`, `votes`. **Definitions** (`specs/`): `Quorums`, `Validity`,
//! `Servers`.
#![tactic(auto)]

mod fault;
mod server_set;
mod validity;
mod votes;

pub use fault::VotesFault;
pub use server_set::ServerSet;
pub use votes::Votes;

/// The most servers that there are: they are numbered from 0.
pub const MAX_SERVERS: usize = 32;
