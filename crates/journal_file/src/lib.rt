//! One file, as who keeps a journal in it wants it.
//!
//! **Promises.** `OneFile` has what is asked of a file, and what each call does to what is known of it (`FileView`): its
//! bytes, how many of them are on the disk, what it held since it was synced, and whether it is locked. What a crash
//! leaves is `CrashLeaves`. A file over memory tells all that. One of the system (`SystemFile`) tells nothing, since
//! nothing is known of what a file holds: that it does what `OneFile` says is believed.
//!
//! **Files**: `one_file` (the trait), `disk` (where files are found), `memory` (of tests), `system`, `reading` (its
//! bytes as a stream).
//! **Definitions** (`specs/`): `Files`.
#![tactic(auto)]

mod disk;
mod memory;
mod one_file;
mod reading;
mod system;

pub use disk::{Disk, SystemDisk};
pub use memory::MemoryFile;
pub use one_file::{FileFailed, OneFile};
pub use reading::FileReader;
pub use system::SystemFile;
