//! Whether agents were told that a server is full which can have been so.

ghost use Rattle.std.specs.Prelude.{◌≡◌, IfOk, map};
ghost use Rattle.std.specs.List.{list_all};
ghost use Rattle.run_certify.specs.Fulls.{can_all_be_told, can_be_full, parts_of};
ghost use Rattle.run_certify.specs.code.Lacking.{can_be_told_by, can_lack_by};

use crate::entry::{AgentEntry, Transcript};
use rep_core::{Lack, MAX_SUITES, Request};
use server_lock::{History, Item, MAX_ITEMS};
use std::alloc::{AllocError, Global};

/// More suites than one request asks for: a transaction has at most eight operations, and each walks a path of at most
/// eight names.
const MOST_PARTS: usize = 256;

/// Whether all that agents were told of servers that are full can be, by the histories of these.
pub(crate) fn can_all_be_told(
    alloc: Global,
    histories: &[History],
    transcripts: &[Transcript],
) -> Result<bool, AllocError>
    ensures { IfOk result (λ can. can ≡ can_all_be_told histories.now transcripts.now) }
{
    let full = full_ones(alloc, histories)?;
    Ok(are_all_told(full.as_slice(), transcripts))
}

/// Whether all that agents were told can be, where these servers can be full.
fn are_all_told(full: &[bool], transcripts: &[Transcript]) -> bool
    ensures { result ≡ list_all (λ entries. list_all (λ entry. can_be_told_by full.now entry) entries) transcripts.now }
{
    transcripts
        .iter()
        .all(|transcript| can_be_told(full, transcript.as_slice()))
}

/// Of each server whether it can be full.
fn full_ones(alloc: Global, histories: &[History]) -> Result<Vec<bool>, AllocError>
    ensures { IfOk result (λ full. full.items ≡ map can_be_full histories.now) }
{
    let mut full = Vec::with_capacity(alloc, histories.len())?;
    for history in histories {
        full.push_reserved(can_be_full(history.as_slice()));
    }
    Ok(full)
}

/// Whether a server with this history can be full.
fn can_be_full(items: &[Item]) -> bool
    ensures { result ≡ can_be_full items.now }
{
    if items.len() >= MAX_ITEMS {
        return true;
    }
    let mut left = MAX_SUITES - MOST_PARTS;
    for item in items {
        let parts = parts_of(&item.request.value);
        if parts >= left {
            return true;
        }
        left -= parts;
    }
    false
}

/// How many suites a request asks a server to keep something of.
fn parts_of(request: &Request) -> usize
    ensures { result ≡ parts_of request.now }
{
    match request {
        Request::Prepare { parts, .. } => parts.as_slice().len(),
        _ => 0,
    }
}

/// Whether an agent can have been told all this, where these servers can be full.
fn can_be_told(full: &[bool], entries: &[AgentEntry]) -> bool
    ensures { result ≡ list_all (λ entry. can_be_told_by full.now entry) entries.now }
{
    entries.iter().all(|entry| can_tell(full, entry))
}

/// Whether an agent can have been told this.
fn can_tell(full: &[bool], entry: &AgentEntry) -> bool
    ensures { result ≡ can_be_told_by full.now entry.now }
{
    match entry {
        AgentEntry::Lacked { server, lack } => can_lack(full, *server, *lack),
        _ => true,
    }
}

/// Whether a server can have lacked this.
fn can_lack(full: &[bool], server: u8, lack: Lack) -> bool
    ensures { result ≡ can_lack_by full.now server lack }
{
    match lack {
        Lack::Memory => true,
        Lack::Full => match full.get(usize::from(server)) {
            Some(can) => *can,
            None => false,
        },
    }
}
