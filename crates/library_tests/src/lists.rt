//! What Linux answered of lists, as lines of text.

use crate::checks::{had, holds, number, parts};
use crate::fixtures::entries;
use acl_core::{Acl, Caller, Check, Perms};
use std::process::Abort;
use suite_script::read_caller;

/// The list of a text.
fn list(rt: &(impl Abort + AllocGlobal), text: &str) -> Acl {
    had(rt, Acl::from_entries(rt.alloc(), &entries(rt, text)))
}

/// What Linux answered for files of user 1000 and group 100 (`access(2)` as a caller, with the list as the
/// file's `system.posix_acl_access`): lists, callers with their groups, what is wanted, and the answer.
static KERNEL: &str = "
u:7 g:4 g200:2 g300:6 m:6 o:0 | 2000 100 | 6 | no
u:7 g:4 g200:2 g300:6 m:6 o:0 | 2000 100,200 | 6 | no
u:7 g:4 g200:2 g300:6 m:6 o:0 | 2000 200,300 | 6 | yes
u:7 g:4 g200:2 g300:6 m:6 o:0 | 2000 300 | 7 | no
u:7 g:4 g200:2 g300:6 m:6 o:0 | 2000 400 | 4 | no
u:6 u1001:6 g:6 g200:6 m:4 o:2 | 1001 300 | 6 | no
u:6 u1001:6 g:6 g200:6 m:4 o:2 | 1001 300 | 4 | yes
u:6 u1001:6 g:6 g200:6 m:4 o:2 | 2000 100 | 2 | no
u:6 u1001:6 g:6 g200:6 m:4 o:2 | 2000 200 | 4 | yes
u:6 u1001:6 g:6 g200:6 m:4 o:2 | 2000 300 | 2 | yes
u:6 u1001:6 g:6 g200:6 m:4 o:2 | 1000 300 | 6 | yes
u:4 g:2 o:7 | 1000 100 | 2 | no
u:4 g:2 o:7 | 2000 100 | 4 | no
u:4 g:2 o:7 | 2000 100 | 2 | yes
u:4 g:2 o:7 | 2000 300,100 | 1 | no
u:4 g:2 o:7 | 2000 300 | 7 | yes
u:0 u1001:0 g:7 g200:7 m:7 o:7 | 1001 100,200 | 4 | no
u:0 u1001:0 g:7 g200:7 m:7 o:7 | 1000 100 | 4 | no
u:0 u1001:0 g:7 g200:7 m:7 o:7 | 2000 200 | 7 | yes";

/// A user, and its groups with commas between them.
fn caller(rt: &impl Abort, text: &str) -> Caller {
    let (user, groups) = text.split_once(' ').expect(rt, "a caller");
    had(rt, read_caller(number(rt, user), groups.as_bytes()))
}

/// A list answers a caller so about a file of user 1000 and group 100.
fn answers(rt: &(impl Abort + AllocGlobal), line: &str) {
    let (entries, who, wanted, want) = parts(line, '|');
    let wanted = Perms::from_digit(number::<u8>(rt, wanted) % 8);
    let check = list(rt, entries).check(1000, 100, &caller(rt, who), wanted);
    holds(rt, (check == Check::Granted) == (want == "yes"), line);
}

#[test]
fn one_entry_or_the_mask_decides_as_on_linux(rt: HostRuntime) {
    for line in KERNEL.lines().skip(1) {
        answers(&rt, line);
    }
}
