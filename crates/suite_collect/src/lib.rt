//! The collector of one suite, after Gifford's weighted voting: it gathers locks for a transaction until their
//! servers are a quorum under the newest prefix that any of them showed.
//!
//! The votes of a suite stand in its own prefix, at its representatives, so a collector finds out on the way which
//! votes count. To contracts it is a start, which is a prefix that the suite once had, and the list of what servers
//! said: held (with prefix and version), busy, or down. Of this list (`specs/Telling.antt`):
//!
//! - the **newest prefix** is the start, or the first shown of the greatest version above it; its votes count, also
//!   for servers that answered before;
//! - a server with a vote is a **member** when it holds a lock in the wanted mode or a stronger one. It is **left**
//!   to ask when it does not, and was not found busy or down.
//!
//! **Promises.** `Collect::next` is a function of the list (`specs/Collecting.antt`). Where the members have r
//! (shared) or w (exclusive) votes it is Current: newest prefix, greatest version, members. Else the first that is
//! left is asked, in listed order. Else it is Short. `Collect::coming` says the same without what a quorum gives.
//! `raise` wants exclusive locks from now on; `widen` gathers other votes too.
//!
//! The caller asks the server and hands the reply to `Collect::take`, which tells whether it answers what was asked.
//! `next` and `take` are all that a caller needs. One that has more to do before a quorum stands, and that may fail
//! there, calls `hear` in place of `take`: a lock that gives a quorum changes nothing yet (`Hearing::Quorum`). The
//! caller gets what it gives (`quorum_after`, a `ReadPoint`), and then tells it (`tell`), which cannot fail. `take`,
//! `hear` and `quorum_after` alone may be out of memory, for a prefix that is kept.
//!
//! The laws (`specs/Laws.antt`): a Current is a quorum under the prefix that it gives, with a source
//! (`current_is_a_quorum`, `current_has_a_source`). Widened, it is a write quorum of the given votes too, and
//! prefix and version stay (`widened_is_a_write_quorum`, `prefix_and_version_stay`). Short has none left
//! (`short_has_none_left`). Asks are few, and nobody is polled twice (`asks_are_few`, `nobody_is_asked_twice`).
//! What a Current is worth is said at the decision.
//!
//! **The caller owes** such a start, and servers below `MAX_SERVERS` to `tell` and `quorum_after`. After a reply
//! that does not answer what was asked (`take` is false, `Hearing::Lost`) its transaction ends.
//!
//! The code keeps sets of servers, versions, the newest prefix, and what is due, and no list but for proofs (`log`,
//! which has no bytes).
//!
//! **Files**: `told`, `log`, `heard`, `members`, `newest`, `widening`, `next`, `coming`, `hearing`, `read_point`,
//! `due`, `collect`, `laws`.
//!
//! **Definitions** (`specs/`): `Telling`, `Collecting`, `Answering`, `Laws`.
#![tactic(auto)]

mod collect;
mod coming;
mod due;
mod heard;
mod hearing;
mod laws;
mod log;
mod members;
mod newest;
mod next;
mod read_point;
mod told;
mod widening;

pub use collect::Collect;
pub use coming::{Asked, Coming};
pub use hearing::Hearing;
pub use laws::{
    asks_are_few, current_has_a_source, current_is_a_quorum, nobody_is_asked_twice,
    prefix_and_version_stay, short_has_none_left, widened_is_a_write_quorum,
};
pub use next::{Members, Next};
pub use read_point::ReadPoint;
pub use told::{Said, Told};
