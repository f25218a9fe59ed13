//! Prefixes, copies and their bytes, and settings.
//!
//! A `Prefix` is the version, kind, owner, group, lists and votes of a file or a folder. A `Replica`, a copy, is a
//! prefix, the content's version and the content. To contracts both are records of their fields. What was never
//! made has the kind Absent, version 0 and an empty content. `Settings` are what a service is opened with.
//!
//! **Promises.**
//! - `Prefix::is_valid` and `Replica::is_valid` test the rules of valid copies (`specs/Copies.antt`). Definitions
//!   above judge by tests that are exact (`tests_are_exact`).
//! - `encode` writes a valid copy in form 2. `decode` reads the bytes of valid copies in either form, and tells of
//!   others their one fault, before out of memory (`IsShapeFault`, `faults_tell_apart`).
//! - No bytes of a copy begin another's (`no_bytes_begin_others`). A front of them is Short (`fronts_are_short`).
//! - A `StoredCopy` keeps a copy as its bytes, which were judged once. What was read of them is shared.
//! - `Settings::new` refuses by the first fault (`specs/SettingsRules.antt`). There are 1 to 32 servers and 1 to 64
//!   agents. Contracts see an `Opening`.
//!
//! **The caller owes** a valid copy to `encode`, `StoredCopy::new`, `under`, and `in_form` (one that the form can
//! hold).
//!
//! **The bytes**, highest byte of a number first, with their lengths:
//!
//! | Part | Bytes |
//! |---|---|
//! | form | 1: 2 |
//! | version of the prefix; kind | 8; 1 (0 Absent, 1 File, 2 Folder) |
//! | owner, group | 4, 4 |
//! | access list, then default list | each: count 1 (0 where there is no default list), then its entries |
//! | an entry | tag 1 (1 owner, 2 user, 3 file's group, 4 group, 5 mask, 6 others); number 4, or 0; permissions 1 |
//! | representatives | count 1; each: server 1, votes 1, in listed order |
//! | r, w; version of the content | 2, 2; 8 |
//! | content, Absent or File | length 4, then the bytes |
//! | content, Folder | count 2; each: length 1, the name, number 8; names rising |
//!
//! Form 1, which is read for ever, has no default list, at most 64 entries, 1024 names and 65536 bytes, and no
//! representative above server 15 (`CanHold`, `HoldsContent`). `docs/FORMATS.md` says how forms change.
//!
//! Bytes are read from the left into a shape, which borrows from them; the first fault met there is Short or
//! BadTag. A whole shape is then judged: NotCanonical, Invalid, TrailingBytes, in this order.
//!
//! **Files**: `copies`, `lock_mode`, `shared`, `absent`, `validity`, `forms`, `faults`, `entries`, `heads`,
//! `shapes`, `reading`, `decoding`, `writing`, `stored`, `settings`.
//!
//! **Definitions** (`specs/`): `TwoLists`, `LockModes`, `Copies`, `Absent`, `Tests`, `TestsExact`, `Forms`,
//! `Bytes`, `Reading`, `Faults`, `Stored`, `SettingsRules`.
#![tactic(auto)]

mod absent;
mod copies;
mod decoding;
mod entries;
mod faults;
mod forms;
mod heads;
mod lock_mode;
mod reading;
mod settings;
mod shapes;
mod shared;
mod stored;
mod validity;
mod writing;

pub use copies::{Prefix, PrefixKind, Replica};
pub use decoding::{decode, faults_tell_apart, fronts_are_short};
pub use faults::{CopyFault, DecodeError};
pub use forms::Form;
pub use lock_mode::LockMode;
pub use settings::{MAX_AGENTS, MAX_CACHE, MAX_SLOTS, Settings, SettingsFault};
pub use shared::SharedPrefix;
pub use stored::StoredCopy;
pub use suite_content::Content;
pub use validity::tests_are_exact;
pub use writing::{encode, no_bytes_begin_others};
