//! The language of histories: which calls were made, and what their clients were told.
//!
//! A history is text, a line an event, in the order of time. `root` tells the root folder, as in scripts of `table`.
//! `do` is a call that was made and answered at once: what stood there before. `call` has a name that the client
//! chose, a number, and then who calls for what; `ret` has the name, and what that client was told. An empty line,
//! and one that begins with `#`, says nothing. The time of an event is the number of its line.
//!
//! A call asks for operations, or for one test: `test`, a path, and what is wanted there of `r`, `w` and `x`, in this
//! order. That is no operation, and stands alone.
//!
//! What was told is `answered`, with or without the replies as `table` prints them, or with `granted`, of a test;
//! `denied`; or `refused`, a code and the operation, which is the first one where a test was refused. The number behind
//! `made` says nothing: each service chooses its own. A call without `ret` was told nothing: it was carried out or not.
//!
//! **Promises.** `read_history` gives what the text says, or its first faulty line (`specs/Histories.antt`).
//! `judge_text` gives what is printed of it, and the exit status: by a verdict on that history (`specs/Shown.antt`).
//!
//! A line of another form is S1, and so is what no reply looks like. S2 is a line above `root` or a second one, a
//! `call` whose name is that of a call that was told nothing yet, and a `ret` of no such call.
//!
//! **The caller owes** a text below 2^60 bytes.
//!
//! **Files**: `asking`, `told`, `reply`, `line`, `history`, `shown`. **Definitions** (`specs/`): `Asking`, `Told`, `Lines`,
//! `Histories`, `Shown`; for the readings of the code `Readings`.
#![tactic(auto)]

mod asking;
mod history;
mod line;
mod reply;
mod shown;
mod told;

pub use history::{CallHistory, read_history};
pub use shown::{NO_ORDER, Printed, judge_text};
