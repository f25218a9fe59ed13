//! The desk of a session whose lines are those of a script: each line is read by itself, and carried out.
//!
//! A session begins with no header. The lines of the header are given one after the other, and then, in any order,
//! names of users and groups, and the lines of the command's own. Beside these there are lines that ask: they change
//! nothing. What the command has of its own is a `ScriptService`.
//!
//! **Promises.** `ScriptDesk` is the `Desk` of a session: it tells for each line, and is after it, what the definition
//! says (`specs/Doing.antt`). A faulty line is told by its number and its code, has done nothing, and may be given
//! again. A comment, a question and a faulty line leave the desk as it is. Where memory runs out in a line, either
//! nothing has changed, or what the service stopped in.
//!
//! **The caller owes** nothing.
//!
//! **Files**: `service` (what a command has of its own), `desk`. **Definitions** (`specs/`): `Doing`, `Outcomes`.
#![tactic(auto)]

mod desk;
mod service;

pub use desk::ScriptDesk;
pub use service::ScriptService;
