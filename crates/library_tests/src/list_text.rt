//! Faults in words, and lists that are written in both forms and read again.

use crate::checks::{case, had, holds, printed, same, tells};
use acl_core::Lists;
use acl_text::{Names, TextFault, read_acl, write_acl, write_short};
use std::process::Abort;

/// The user lisa and the group toolies.
fn known(rt: &(impl Abort + AllocGlobal)) -> Names {
    let mut names = Names::new(rt.alloc());
    had(rt, names.add_user(b"lisa", 1001));
    had(rt, names.add_group(b"toolies", 200));
    names
}

/// Reads lists, and once more where memory was refused: it is never told otherwise than as out of memory.
fn read(rt: &(impl Abort + AllocGlobal), text: &[u8]) -> Result<Lists, TextFault> {
    let names = known(rt);
    match read_acl(rt.alloc(), text, &names) {
        Err(TextFault::Memory) => read_acl(rt.alloc(), text, &names),
        came => came,
    }
}

/// Texts, each with its short text or its fault in words.
static TEXTS: &str = "
u::rw,u:1001:r,g::r,o::- = the entries are no valid list: there is an entry for a user or a group, and no mask
u::rw,u:lisa:r,g::r,o:,m:r = user::rw-,user:1001:r--,group::r--,mask::r--,other::---
u::rw,,g:zoe:r = item 3 has an unknown name
u:4294967296:r = item 1 has a number that is too big
u:4294967296:z = item 1 is no entry
d:o:r,default : u : : rw , o:, d:g::,g::,u::r = user::r--,group::---,other::---,default:user::rw-,default:group::---,default:other::r--
u::r,g::r,o::r,d:o::r = the entries of the default list are no valid list: there is no entry for the owner
u::r,g::r,o::r,d:u::r,d:g::r,d:o::r,d:m:r,d:m:r = the entries of the default list are no valid list: an entry that can stand only once stands twice
d:u::r,d:u::r,u::r = the entries are no valid list: there is no entry for the file's group";

/// A text spells lists with this short text, or has this fault.
fn means(rt: &(impl Abort + AllocGlobal), text: &str, want: &str) {
    match read(rt, text.as_bytes()) {
        Ok(lists) => same(rt, &had(rt, write_short(rt.alloc(), &lists)), want, text),
        Err(fault) => tells(rt, printed(rt, fault), want, text),
    }
}

#[test]
fn texts_are_read_or_refused(rt: HostRuntime) {
    for line in TEXTS.lines().skip(1) {
        let (text, want) = case(&rt, line);
        means(&rt, text, want);
    }
}

/// What getfacl writes of a file, between its first lines and the empty one.
static MASKED: &str = "user::rw-
user:1001:rw-\t#effective:r--
group::r--
group:200:rw-\t#effective:r--
mask::r--
other::r--
";

/// The lists of a text.
fn lists_of(rt: &(impl Abort + AllocGlobal), text: &[u8]) -> Lists {
    had(rt, read(rt, text))
}

#[test]
fn a_list_is_read_where_memory_was_refused(rt: HostRuntime) {
    let lists = lists_of(&rt, b"g:toolies:rw,u:lisa:rw,u::wr,g::r,o::r,m::r");
    let long = had(&rt, write_acl(rt.alloc(), &lists));
    same(&rt, &long, MASKED, "the long text");
    holds(&rt, lists_of(&rt, &long) == lists, "read again");
}
