//! Each request that a server serves moves the machine of each suite by one event, or leaves it. There is no code
//! but laws.
//!
//! **Promises.** `each_step_moves`: whatever a server is asked and replies, up or down, the event of the reply may
//! happen on the machine (`law_suite_machine`), which shows the servers after it. What the agent owes for that is
//! named (`specs/Agents.antt`): it polls a server once, prepares what it fixed, and finishes by what was recorded.
//! `sides_wait`: so a request may come late. `each_reply_is_heard`: its agent may then hear of its lock, or nobody
//! does. `replies_tell`: what is replied is what the machine has. `opening_shows`, `some_step_moves`.
//!
//! **Definitions** (`specs/`): `Views`, `Moves`, `Preparing`, `Agents`, `Laws`, `Licences`.
#![tactic(auto)]

ghost use Rattle.law_server_moves.specs.Laws.{EachReplyIsHeard, EachStepMoves, RepliesTell, OpeningShows, SomeStepMoves};
ghost use Rattle.law_server_moves.specs.Licences.{SidesWait};

/// A law: whatever a server is asked and however it replies, the event of the reply may happen to the machine of
/// each suite, and the machine shows the servers after it. It does nothing.
pub fn each_step_moves()
    ensures { EachStepMoves }
{}

/// A law: once a request is served, its agent may be told of the lock that it has by the reply, and the machine still
/// shows the servers. It does nothing.
pub fn each_reply_is_heard()
    ensures { EachReplyIsHeard }
{}

/// A law: what an agent may ask it may have asked before: a request may be served late, where no other Poll of it was
/// served there, nothing was prepared there, and its transaction did nothing meanwhile, as goes for what is asked. It does
/// nothing.
pub fn sides_wait()
    ensures { SidesWait }
{}

/// A law: what a server replies (a copy's prefix and versions, a content, a verdict) is what the machine has. It
/// does nothing.
pub fn replies_tell()
    ensures { RepliesTell }
{}

/// A law: the servers as they open show the machine of each suite as it begins. It does nothing.
pub fn opening_shows()
    ensures { OpeningShows }
{}

/// A law: there is a step that moves the machine: a server prepares a change, and an intention is left. It does
/// nothing.
pub fn some_step_moves()
    ensures { SomeStepMoves }
{}
