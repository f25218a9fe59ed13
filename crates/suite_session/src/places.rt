//! The places of the servers.

ghost use Rattle.std.specs.Prelude.{◌≡◌, ◌++◌, OnOk, length};
ghost use Rattle.rep_core.specs.code.Planning.{copies_in};
ghost use Rattle.run_core.specs.Worlds.{server_at};
ghost use Rattle.suite_session.specs.Places.{copies_line, room_line, room_lines, room_text, taken_text, unnamed, unnamed_text};

use crate::named::{has, named_in};
use crate::open_service::OpenService;
use rep_core::MAX_SUITES;
use run_core::World;
use script_text::push_number;
use std::alloc::{AllocError, Global};
use std::collections::BTreeSet;
use suite_prefix::StoredCopy;

fn taken(copies: &[(u64, StoredCopy)]) -> u64
    ensures { result ≡ length (copies_in copies.now) }
{
    copies.len() as u64
}

/// How many of the suites of copies are not named.
fn unnamed(named: &BTreeSet<u64>, copies: &[(u64, StoredCopy)]) -> u64
    ensures { result ≡ unnamed named.now.keys (copies_in copies.now) }
{
    copies.iter().filter(|pair| !has(named, pair.0)).count() as u64
}

fn push_taken(text: &mut Vec<u8>, copies: &[(u64, StoredCopy)]) -> Result<(), AllocError>
    ensures { OnOk result (text.new.items ≡ text.old.items ++ taken_text (copies_in copies.now)) }
{
    text.extend_from_slice(b" taken ")?;
    push_number(text, taken(copies))?;
    text.extend_from_slice(b" of ")?;
    push_number(text, MAX_SUITES as u64)
}

fn push_unnamed(
    text: &mut Vec<u8>,
    named: &BTreeSet<u64>,
    copies: &[(u64, StoredCopy)],
) -> Result<(), AllocError>
    ensures { OnOk result (text.new.items ≡ text.old.items ++ unnamed_text named.now.keys (copies_in copies.now)) }
{
    text.extend_from_slice(b" unnamed ")?;
    push_number(text, unnamed(named, copies))?;
    text.extend_from_slice(b"\n")
}

fn push_counts(
    text: &mut Vec<u8>,
    named: &BTreeSet<u64>,
    number: u8,
    copies: &[(u64, StoredCopy)],
) -> Result<(), AllocError>
    ensures { OnOk result (text.new.items ≡ text.old.items ++ copies_line named.now.keys number (copies_in copies.now)) }
{
    text.extend_from_slice(b"room server ")?;
    push_number(text, u64::from(number))?;
    push_taken(text, copies)?;
    push_unnamed(text, named, copies)
}

fn push_room_at(
    text: &mut Vec<u8>,
    named: &BTreeSet<u64>,
    world: &World,
    number: u8,
) -> Result<(), AllocError>
    ensures { OnOk result (text.new.items ≡ text.old.items ++ room_line named.now.keys number (server_at world.now.world number)) }
{
    match world.server(number) {
        Some(server) => push_counts(text, named, number, server.copies()),
        None => Ok(()),
    }
}

fn push_lines(
    text: &mut Vec<u8>,
    named: &BTreeSet<u64>,
    world: &World,
    count: u8,
) -> Result<(), AllocError>
    ensures { OnOk result (text.new.items ≡ text.old.items ++ room_lines named.now.keys world.now.world count) }
{
    for number in 0..count {
        push_room_at(text, named, world, number)?;
    }
    Ok(())
}

/// Adds a line for each server that tells how many of its places are taken.
pub(crate) fn push_room(
    alloc: Global,
    service: &OpenService,
    text: &mut Vec<u8>,
) -> Result<(), AllocError>
    ensures { OnOk result (text.new.items ≡ text.old.items ++ room_text service.now.world.world service.now.settings.servers) }
{
    let named = named_in(alloc, service)?;
    let count = service.settings.servers() as u8;
    push_lines(text, &named, &service.world, count)
}
