//! Access lists as acl(5) has them: entries, valid lists, and the access check.
//!
//! An entry says whom it is about (`Tag`) and what it grants (`Perms`). A list is valid when it has one entry each
//! for the owner, the file's group and all others, and no user and no group twice. It has a mask where it names a
//! user or a group, and else at most one. The limit of 128 entries is this project's.
//!
//! **Promises.**
//! - An `Acl` is a valid list by its type. `Acl::from_entries` and `Tally` take entries in any order and give the
//!   list in canonical order. Or they give the first of eight faults, also where memory would not have sufficed
//!   (`IsAccepted`, `first_fault`).
//! - `Acl::check` answers as acl(5) does on the list in any order (`check_of`). The first case that matches
//!   decides: the owner, a named user, the groups, anyone. Of named users and groups the mask has to grant it too.
//! - A denial names the entry that decided, which acl(5) leaves open. Where groups match and none has all, it is
//!   the first of them, the file's group before the others. Where the entry has all, it is the mask.
//! - `Acl::from_mode` makes the list of a mode. `Acl::inherit` gives what is made in a folder its list, by that
//!   folder's default list (`inherited`).
//! - `Lists` are the two lists of a file or a folder. That a file has no default list is a rule of operations and
//!   of valid copies.
//! - A `Caller` has at most 32 supplementary groups.
//!
//! **The caller owes** a digit below 8 to `from_digit`, and a valid list in canonical order to `from_canonical`.
//!
//! **Files**: `perms`, `entry`, `fault`, `caller`, `mode`, `lists`, `search` and `tally` (the first fault of many
//! entries), `acl`, `check`.
//!
//! **Definitions** (`specs/`): `Permissions`, `Tags`, `Entries`, `Identity`, `AccessLists`, `Checks`, `InOrder`,
//! `Modes`, `Creation`, `Pairs`, `Tallies`. To be believed above all: `IsValid`, `check_of`, `inherited`. Each
//! names the section of acl(5) that it comes from.
#![tactic(auto)]

mod acl;
mod caller;
mod check;
mod entry;
mod fault;
mod lists;
mod mode;
mod perms;
mod search;
mod tally;

pub use acl::{Acl, MAX_ENTRIES};
pub use caller::{Caller, MAX_GROUPS, TooManyGroups};
pub use check::{Check, Decider};
pub use entry::{Entry, Tag};
pub use fault::{AclError, AclFault};
pub use lists::Lists;
pub use mode::Mode;
pub use perms::Perms;
pub use tally::Tally;
