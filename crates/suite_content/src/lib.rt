//! What files and folders hold: the bytes of a file, or the names of a folder, each with the number of its suite.
//!
//! **Promises.** A `Name` is valid by its type: 1 to 64 bytes of `A-Za-z0-9._-`, neither `.` nor `..`. `FileBytes`
//! and `FolderNames` stand behind shared pointers, so a content is given, stored, cached and recorded without a
//! copy. A content that is shared is never changed. A `NameList`, which listing a folder answers, shares the names.
//! To contracts all are plain values: lists of bytes, and the sorted list of names with their numbers. Each call is
//! the function on these lists, and `==` is equality.
//!
//! **The caller owes** the bytes of a name to `Name::known`. The limits (65,536 bytes, 1,024 names) are asked by
//! `is_too_long` and `is_full`; the types do not keep them.
//!
//! **Files**: `name`, `file_bytes`, `folder_names`, `name_list`, `gathering`, `content`. **Definitions**
//! (`specs/`): `Limits`, `Names`, `Folders`, `Contents`, `Written`; `FolderLaws` has laws for proofs above.
#![tactic(auto)]

mod content;
mod file_bytes;
mod folder_names;
mod gathering;
mod name;
mod name_list;

pub use content::{Content, Kind};
pub use file_bytes::{FileBytes, MAX_CONTENT};
pub use folder_names::{FolderNames, MAX_NAMES};
pub use name::{MAX_NAME, Name, is_name};
pub use name_list::{NameIter, NameList};
