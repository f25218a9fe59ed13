//! Worked copies, whose bytes were written by hand: they are read, and written in form 2.

use crate::checks::{bytes, had, holds};
use crate::fixtures::{entries, file, folder_of, prefix, votes};
use acl_core::{Acl, Lists};
use std::process::Abort;
use suite_prefix::{Content, PrefixKind, Replica, decode, encode};

/// A file of version 1 of user 1000 and group 100, list of mode 644, three votes, content `hi`.
static WORKED: &str = "02 00 00 00 00 00 00 00 01 01 00 00 03 e8 00 00 00 64
03 01 00 00 00 00 06 03 00 00 00 00 04 06 00 00 00 00 04 00
03 00 01 01 01 02 01 00 02 00 02
00 00 00 00 00 00 00 01 00 00 00 02 68 69";

/// The same in form 1.
static OLD: &str = "01 00 00 00 00 00 00 00 01 01 00 00 03 e8 00 00 00 64
03 01 00 00 00 00 06 03 00 00 00 00 04 06 00 00 00 00 04
03 00 01 01 01 02 01 00 02 00 02
00 00 00 00 00 00 00 01 00 00 00 02 68 69";

/// A folder of version 256, with an entry for user 1001, nine votes at server 5, and two names.
static FOLDER: &str = "02 00 00 00 00 00 00 01 00 02 00 00 03 e8 00 00 00 64
05 01 00 00 00 00 07 02 00 00 03 e9 06 03 00 00 00 00 05 05 00 00 00 00 04 06 00 00 00 00 00 00
01 05 09 00 01 00 09
00 00 00 00 00 00 00 03 00 02
01 42 00 00 00 00 00 00 02 09 01 61 00 00 00 00 00 00 00 07";

/// A folder of version 1 with a default list of five entries, and no names.
static DEFAULT: &str = "02 00 00 00 00 00 00 00 01 02 00 00 03 e8 00 00 00 64
03 01 00 00 00 00 07 03 00 00 00 00 05 06 00 00 00 00 01
05 01 00 00 00 00 07 02 00 00 03 e9 06 03 00 00 00 00 05 05 00 00 00 00 07 06 00 00 00 00 04
03 00 01 01 01 02 01 00 02 00 02
00 00 00 00 00 00 00 01 00 00";

/// The copy that bytes in hexadecimal digits spell.
fn read(rt: &(impl Abort + AllocGlobal), hex: &str) -> Replica {
    had(rt, decode(rt.alloc(), &bytes(rt, hex)))
}

/// A copy is written in these bytes.
fn is_written(rt: &(impl Abort + AllocGlobal), copy: &Replica, hex: &str) {
    assert!(rt; copy.is_valid());
    let written = had(rt, encode(rt.alloc(), copy));
    holds(rt, written.as_slice() == bytes(rt, hex).as_slice(), hex);
}

/// The folder of the bytes above; entries and names are put in out of order.
fn folder(rt: &(impl Abort + AllocGlobal)) -> Replica {
    let mut prefix = prefix(rt, 256, PrefixKind::Folder);
    let listed = entries(rt, "o:0 m:4 u1001:6 u:7 g:5");
    prefix.acl = Lists::from(had(rt, Acl::from_vec(listed)));
    prefix.votes = votes(rt, "-,-,-,-,-,9/1/9");
    Replica {
        prefix,
        dver: 3,
        content: Content::Names(folder_of(rt, "a=7 B=521")),
    }
}

#[test]
fn worked_copies_have_their_bytes(rt: HostRuntime) {
    holds(&rt, read(&rt, WORKED) == file(&rt, 1, 1, b"hi"), "a file");
    holds(&rt, read(&rt, FOLDER) == folder(&rt), "a folder");
    is_written(&rt, &file(&rt, 1, 1, b"hi"), WORKED);
    is_written(&rt, &folder(&rt), FOLDER);
    is_written(&rt, &read(&rt, DEFAULT), DEFAULT);
    is_written(&rt, &read(&rt, OLD), WORKED);
}
