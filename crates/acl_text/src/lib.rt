//! The text of access lists, after acl(5): long text with one entry a line, short text with commas. A text may mix
//! both. And the text of callers.
//!
//! **The grammar.**
//! - A line feed ends a line, and a comment runs from the first `#` to its end. What stands between commas is an
//!   item; items are numbered from 1 over all lines, empty ones too. White space is space, tab and carriage return;
//!   an item of it alone says nothing.
//! - An item has fields between colons, with white space at their ends taken off. A first field `default` or `d`
//!   makes the rest an item of the default list.
//! - An entry has three fields: a keyword (`user`, `group`, `mask`, `other`, or its first letter), a qualifier,
//!   permissions. `mask` and `other` may do without their empty qualifier and its colon.
//! - Permissions are `r`, `w` and `x`, each at most once, and at most three hyphens, in any order.
//! - The qualifier of `mask` and `other` is empty. Of `user` and `group` it is empty, digits up to 4294967295, or a
//!   name of bytes from 33 to 126 without `: , # \`.
//! - The fault of a text is its first faulty item's: A9 (no such form) before A11 (number too big) and A10 (unknown
//!   name). Else it is the access list's first fault (A1 to A8), or A13 with that of the default list.
//!   `docs/FAULTS.md` explains them.
//!
//! **Promises.** `read_acl` gives the lists that a text spells, or its fault (`Spells`, `fault`). A faulty item is told
//! also where memory would not have sufficed (`HasEntriesToKeep`). Two lists have one long text (`write_acl`,
//! `append_acl`) and one short text (`write_short`, `append_short`), in canonical order and with numbers. That each
//! spells its lists is a law (`long_text_spells_its_lists`, `short_text_spells_its_lists`). `item_place` tells where an
//! item begins, by the number that a fault tells. `Names` takes names of 1 to 64 bytes that are not digits alone, each
//! once. `read_caller` gives the caller whose groups a text numbers (`caller_in`). `push_text_code` writes the code of
//! a fault, and `append_decider` what decided a denial.
//!
//! **The caller owes** nothing.
//!
//! **Files**: `keyword`, `qualifier`, `cut`, `place`, `item`, `keys`, `names`, `read`, `code`, `write`, `caller`,
//! `laws`.
//!
//! **Definitions** (`specs/`): `Layout`, `Places`, `Keywords`, `Qualifiers`, `Tables`, `Sides`, `Grammar`, `Faults`,
//! `Texts`, `Codes`, `Writing`, `Callers`, `Laws`. `Items` says how an item is written; `items_read_as_written` ties
//! it to `Grammar`, so that one of the two need not be believed.
#![tactic(auto)]

mod caller;
mod code;
mod cut;
mod item;
mod keys;
mod keyword;
mod laws;
mod names;
mod place;
mod qualifier;
mod read;
mod write;

pub use caller::read_caller;
pub use code::push_text_code;
pub use laws::{
    items_read_as_written, long_text_spells_its_lists, short_text_spells_its_lists,
    what_is_spelled_is_read,
};
pub use names::{MAX_NAME, NameError, Names};
pub use place::item_place;
pub use read::{TextFault, read_acl};
pub use write::{
    append_acl, append_decider, append_short, append_tag, permission_text, write_acl, write_short,
};
