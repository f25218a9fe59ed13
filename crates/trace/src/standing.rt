//! What servers have.

use crate::told::push_lock;
use crate::words::{push_pair, push_votes};
use rep_core::Server;
use run_core::World;
use std::alloc::{AllocError, Global};
use suite_prefix::{PrefixKind, StoredCopy};

/// Tells what each server of a world has: its copies, with their versions and votes, and its locks.
pub(crate) fn push_standing(
    alloc: Global,
    text: &mut Vec<u8>,
    world: &World,
    servers: u8,
) -> Result<(), AllocError> {
    for number in 0..servers {
        if let Some(server) = world.server(number) {
            push_pair(text, b"= server ", u64::from(number))?;
            push_server(alloc, text, server)?;
        }
    }
    Ok(())
}

fn push_server(alloc: Global, text: &mut Vec<u8>, server: &Server) -> Result<(), AllocError> {
    text.extend_from_slice(if server.is_up() { b" up\n" } else { b" down\n" })?;
    for (suite, copy) in server.copies() {
        push_copy(alloc, text, *suite, copy)?;
    }
    for lock in &server.locks()? {
        text.extend_from_slice(b"    ")?;
        push_lock(text, *lock)?;
        text.push(b'\n')?;
    }
    Ok(())
}

/// Tells a copy.
fn push_copy(
    alloc: Global,
    text: &mut Vec<u8>,
    suite: u64,
    copy: &StoredCopy,
) -> Result<(), AllocError> {
    let (prefix, dver) = copy.head(alloc)?;
    let kind: &[u8] = match prefix.kind {
        PrefixKind::Absent => return Ok(()),
        PrefixKind::File => b" file",
        PrefixKind::Folder => b" folder",
    };
    push_pair(text, b"    suite ", suite)?;
    text.extend_from_slice(kind)?;
    push_pair(text, b" prefix ", prefix.pver)?;
    push_pair(text, b" content ", dver)?;
    text.extend_from_slice(b" votes ")?;
    push_votes(text, &prefix.votes)?;
    text.push(b'\n')?;
    Ok(())
}
