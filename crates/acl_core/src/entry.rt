//! The entries of an access list.

ghost use Rattle.acl_core.specs.Permissions.{IsPermissionSet};

use crate::perms::Perms;

/// Whom an entry is about. The order of the tags is the canonical order of a list.
#[derive(Clone, Copy, PartialEq, Eq, PartialOrd, Ord, Debug)]
pub enum Tag {
    /// The file's owner.
    UserObj,
    /// A user, by number.
    User(u32),
    /// The file's group.
    GroupObj,
    /// A group, by number.
    Group(u32),
    /// The most that users, groups and the file's group are granted.
    Mask,
    /// Anyone else.
    Other,
}

/// An entry: whom it is about, and what it grants: nothing beside read, write and execute.
#[derive(Clone, Copy, PartialEq, Eq, PartialOrd, Ord, Debug)]
pub struct Entry {
    pub tag: Tag,
    pub perms: Perms,
    pub ghost known: { IsPermissionSet perms },
}

impl Entry {
    ghost use Rattle.std.specs.Prelude.{◌≡◌, ◌<◌};
    ghost use Rattle.acl_core.specs.Permissions.{digit_of};
    ghost use Rattle.acl_core.specs.Entries.{entry_of};

    /// The entry that grants what is said.
    pub fn new(tag: Tag, reads: bool, writes: bool, executes: bool) -> Entry
        ensures { result ≡ entry_of tag (digit_of reads writes executes) }
    {
        let perms = Perms::of(reads, writes, executes);
        Entry { tag, perms }
    }

    /// The entry that grants what an octal digit stands for.
    pub fn from_digit(tag: Tag, digit: u8) -> Entry
        requires { digit < 8 }
        ensures { result ≡ entry_of tag digit }
    {
        let perms = Perms::from_digit(digit);
        Entry { tag, perms }
    }
}
