//! Votes as words, and as they are printed.

ghost use Rattle.std.specs.Prelude.{◌≡◌, ◌+◌, ◌<◌, ◌==◌, ◌++◌, ◌∷◌, [], codes, None, All, IfOk, MatchResult, OnOk};
ghost use Rattle.std.specs.List.{flat_map, range_with_len, slice_split};
ghost use Rattle.suite_script.specs.Votes.{configuration_of, field_text, fields_text, judged, last_server, listed_votes, reps_from, votes_in, votes_text};

use crate::fault::LineFault;
use script_text::{WordParts, push_number, read_number};
use std::alloc::AllocError;
use std::marker::Model;
use vote_core::{MAX_SERVERS, Votes};

/// The most votes that a read or a write may be said to collect.
const MAX_COLLECTED: u64 = 65_535;

/// The most votes of a server.
const MAX_VOTES: u64 = 255;

/// The representatives that a word lists.
#[derive(Drop)]
struct Listed {
    reps: [(u8, u8); MAX_SERVERS],
    count: usize,
}

impl Model for Listed {
    ghost use Rattle.std.specs.Prelude.{◌≤◌, List, take};
    ghost use Rattle.vote_core.specs.Quorums.{Representative};
    ghost use Rattle.vote_core.specs.declared.TheConstants.{MAX_SERVERS};

    ghost Value = { List Representative };

    ghost view = { λ listed. take listed.count listed.reps };

    ghost invariant = { λ listed. listed.count ≤ MAX_SERVERS };
}

impl Listed {
    fn as_slice(&self) -> &[(u8, u8)]
        ensures { result.now ≡ self.now }
    {
        &self.reps[..self.count]
    }
}

/// Votes as a word, where there are so many servers.
pub fn read_votes(servers: usize, word: &[u8]) -> Result<Votes, LineFault>
    ensures votes { result ≡ votes_in servers word.now }
    ensures known { IfOk result (λ votes. All (λ rep. rep.0 < servers) votes.reps) }
{
    let (fields, r, w) = split_word(word)?;
    let listed = read_fields(fields).ok_or(LineFault::Form)?;
    let r = read_number(r, MAX_COLLECTED).ok_or(LineFault::Form)?;
    let w = read_number(w, MAX_COLLECTED).ok_or(LineFault::Form)?;
    judge(servers, listed.as_slice(), r as u16, w as u16)
}

/// The three parts of a word between slashes.
fn split_word(word: &[u8]) -> Result<(&[u8], &[u8], &[u8]), LineFault>
    ensures { let parts = slice_split (λ byte. byte == 47) word.now in
        MatchResult result (λ three. parts ≡ three.0.now ∷ three.1.now ∷ three.2.now ∷ [])
        (λ fault. (fault ≡ LineFault.Form) × (configuration_of parts ≡ None)) }
{
    let mut parts = WordParts::new(word, b'/');
    let (Some(fields), Some(r), Some(w)) = (parts.next(), parts.next(), parts.next()) else {
        return Err(LineFault::Form);
    };
    match parts.next() {
        Some(_) => Err(LineFault::Form),
        None => Ok((fields, r, w)),
    }
}

/// What fields with commas between them list, one for each server from 0 on.
fn read_fields(fields: &[u8]) -> Option<Listed>
    ensures { result ≡ reps_from 0 (slice_split (λ byte. byte == 44) fields.now) }
{
    let mut reps = [(0, 0); MAX_SERVERS];
    let mut count = 0;
    let mut server = 0;
    for field in WordParts::new(fields, b',') {
        if server == MAX_SERVERS {
            return None;
        }
        if field != b"-".as_slice() {
            reps[count] = (server as u8, read_number(field, MAX_VOTES)? as u8);
            count += 1;
        }
        server += 1;
    }
    Some(Listed { reps, count })
}

/// Votes that are valid, or their first fault.
fn judge(servers: usize, reps: &[(u8, u8)], r: u16, w: u16) -> Result<Votes, LineFault>
    ensures votes { result ≡ judged servers (record { reps = reps.now; r = r; w = w }) }
    ensures known { IfOk result (λ votes. All (λ rep. rep.0 < servers) votes.reps) }
{
    Votes::new(servers, reps, r, w).map_err(LineFault::Votes)
}

/// Votes as they are printed.
pub fn push_votes(text: &mut Vec<u8>, votes: &Votes) -> Result<(), AllocError>
    ensures { OnOk result (text.new.items ≡ text.old.items ++ votes_text votes.now) }
{
    push_fields(text, votes.reps())?;
    text.push(b'/')?;
    push_number(text, u64::from(votes.r()))?;
    text.push(b'/')?;
    push_number(text, u64::from(votes.w()))
}

/// The fields of all servers up to the last that is listed.
fn push_fields(text: &mut Vec<u8>, reps: &[(u8, u8)]) -> Result<(), AllocError>
    ensures { OnOk result (text.new.items ≡ text.old.items ++ fields_text reps.now) }
{
    push_field(text, reps, 0)?;
    let end = last_server(reps) + 1;
    for server in 1..end {
        text.push(b',')?;
        push_field(text, reps, server)?;
    }
    Ok(())
}

/// The field of a server.
fn push_field(text: &mut Vec<u8>, reps: &[(u8, u8)], server: usize) -> Result<(), AllocError>
    ensures { OnOk result (text.new.items ≡ text.old.items ++ field_text reps.now server) }
{
    match listed_votes(reps, server) {
        Some(votes) => push_number(text, u64::from(votes)),
        None => text.extend_from_slice(b"-"),
    }
}

/// The votes that are listed for a server, if it is listed.
fn listed_votes(reps: &[(u8, u8)], server: usize) -> Option<u8>
    ensures { result ≡ listed_votes reps.now server }
{
    reps.iter()
        .find(|rep| usize::from(rep.0) == server)
        .map(|rep| rep.1)
}

/// The last server that is listed.
fn last_server(reps: &[(u8, u8)]) -> usize
    ensures value { result ≡ last_server reps.now }
    ensures small { result < 256 }
{
    usize::from(reps.iter().fold(0, |last, rep| rep.0.max(last)))
}
