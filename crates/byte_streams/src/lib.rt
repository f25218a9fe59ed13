//! Where the program's bytes come from, and where they go.
//!
//! `ByteIn` and `ByteOut` have one call each that may fail. They count their failures, so that a contract can say
//! when a failure was real. A stream over memory tells its bytes to contracts. One over the system cannot, since
//! nothing is known of what a file holds.
//!
//! **Promises.** `read_all` gives all bytes of a stream, or says why not (`IsWhole`, `Explains`). `write_all` adds
//! a text whole, or fails with one failure more (`Adds`). A system read that a signal broke off is made again.
//! `finish`, `finish_line`, `lack_memory` and `tell_unread` end a program: its last line, and its exit status
//! (`specs/Endings.antt`, `specs/Programs.antt`).
//!
//! **The caller owes** a limit below 2^62 for `read_all`, and a buffer with room for `read`.
//!
//! **Files**: `traits`, `memory` (streams of tests, where a given call can fail), `system`, `reading`, `writing`,
//! `ending`. **Definitions** (`specs/`): `Streams`, `Whole`, `Endings`, `Programs` (a program's two streams, before and
//! after, and what a command does of its words).
#![tactic(auto)]

mod ending;
mod memory;
mod reading;
mod system;
mod traits;
mod writing;

pub use ending::{
    COMMAND_LINE, DONE, FAULTY, MAX_INPUT, NO_STREAM, finish, finish_line, lack_memory, tell_unread,
};
pub use memory::{MemoryIn, MemoryOut};
pub use reading::{ReadError, read_all};
pub use system::{SystemIn, SystemOut};
pub use traits::{ByteIn, ByteOut, ReadFailed, WriteFailed};
pub use writing::write_all;
