//! What each server has of what stands at a path.

ghost use Rattle.std.specs.Prelude.{◌≡◌, ◌++◌, IfOk, OnOk, Some, codes, option_map};
ghost use Rattle.std.specs.Option.{option_copied};
ghost use Rattle.run_core.specs.Worlds.{server_at};
ghost use Rattle.suite_script.specs.Faults.{line_feed};
ghost use Rattle.suite_session.specs.Copies.{behind_text, copies_text, copy_text, is_prepared, is_prepared_by, is_up, prepared_text, sought_in, standing_at, standing_line, standing_lines, standing_text, up_text, version_in, versions_in};
ghost use Rattle.suite_session.specs.Rows.{copy_in, newest, stored_in};

use crate::newest::{Which, copy_at, newest};
use crate::open_service::OpenService;
use crate::shown::found_at;
use crate::side::Side;
use rep_core::{Lock, Server};
use run_core::World;
use script_text::push_number;
use std::alloc::{AllocError, Global};
use suite_prefix::StoredCopy;

/// The versions of a copy.
#[derive(Clone, Copy)]
pub(crate) struct Versions {
    prefix: u64,
    content: u64,
}

/// A suite, and the newest versions of it.
#[derive(Clone, Copy)]
pub(crate) struct Sought {
    suite: u64,
    newest: Versions,
}

/// What a server has of a suite.
#[derive(Clone, Copy)]
pub(crate) struct Standing {
    number: u8,
    is_up: bool,
    copy: Option<Versions>,
    is_prepared: bool,
}

/// Whether a server is up.
pub(crate) fn is_up(world: &World, number: u8) -> bool
    ensures { result ≡ is_up (server_at world.now.world number) }
{
    match world.server(number) {
        Some(server) => server.is_up(),
        None => false,
    }
}

/// Whether a transaction is prepared at a server with a lock on a suite.
fn is_prepared_at(world: &World, number: u8, suite: u64) -> Result<bool, AllocError>
    ensures { IfOk result (λ is. is ≡ is_prepared_by (server_at world.now.world number) suite) }
{
    match world.server(number) {
        Some(server) => is_prepared_by(server, suite),
        None => Ok(false),
    }
}

fn is_prepared_by(server: &Server, suite: u64) -> Result<bool, AllocError>
    ensures { IfOk result (λ is. is ≡ is_prepared suite server.now.state.locks) }
{
    let locks = server.locks()?;
    Ok(is_prepared(&locks, suite))
}

fn is_prepared(locks: &[Lock], suite: u64) -> bool
    ensures { result ≡ is_prepared suite locks.now }
{
    locks
        .iter()
        .any(|lock| lock.prepared && lock.suite == suite)
}

/// The versions of a copy.
fn versions_in(alloc: Global, copy: &StoredCopy) -> Result<Versions, AllocError>
    ensures { IfOk result (λ versions. versions ≡ versions_in copy.now.copy) }
{
    let prefix = Side::Prefix.version(alloc, copy)?;
    let content = Side::Content.version(alloc, copy)?;
    Ok(Versions { prefix, content })
}

fn versions_of(alloc: Global, copy: Option<&StoredCopy>) -> Result<Option<Versions>, AllocError>
    ensures { IfOk result (λ versions. versions ≡ option_map versions_in (copy_in (option_copied copy.entry))) }
{
    match copy {
        Some(copy) => Ok(Some(versions_in(alloc, copy)?)),
        None => Ok(None),
    }
}

fn standing_at(
    alloc: Global,
    service: &OpenService,
    suite: u64,
    number: u8,
) -> Result<Standing, AllocError>
    ensures { IfOk result (λ one. one ≡ standing_at service.now.world.world suite number) }
{
    let copy = copy_at(service, Which::Stored, number, suite);
    let copy = versions_of(alloc, copy)?;
    let is_prepared = is_prepared_at(&service.world, number, suite)?;
    Ok(Standing {
        number,
        is_up: is_up(&service.world, number),
        copy,
        is_prepared,
    })
}

fn newest_version(
    alloc: Global,
    service: &OpenService,
    side: Side,
    suite: u64,
) -> Result<u64, AllocError>
    ensures { IfOk result (λ version. version
        ≡ version_in side (newest side (stored_in service.now.world.world) suite service.now.settings.servers)) }
{
    match newest(alloc, service, Which::Stored, side, suite)? {
        Some(copy) => side.version(alloc, copy),
        None => Ok(0),
    }
}

fn sought_in(alloc: Global, service: &OpenService, suite: u64) -> Result<Sought, AllocError>
    ensures { IfOk result (λ sought. sought ≡ sought_in service.now.world.world service.now.settings.servers suite) }
{
    let prefix = newest_version(alloc, service, Side::Prefix, suite)?;
    let content = newest_version(alloc, service, Side::Content, suite)?;
    Ok(Sought {
        suite,
        newest: Versions { prefix, content },
    })
}

fn up_text(is_up: bool) -> &'static [u8]
    ensures { result.now ≡ up_text is_up }
{
    if is_up { b" up" } else { b" down" }
}

fn behind_text(prefix: bool, content: bool) -> &'static [u8]
    ensures { result.now ≡ behind_text prefix content }
{
    match (prefix, content) {
        (true, true) => b" behind prefix content",
        (true, false) => b" behind prefix",
        (false, true) => b" behind content",
        (false, false) => b"",
    }
}

fn prepared_text(is_prepared: bool) -> &'static [u8]
    ensures { result.now ≡ prepared_text is_prepared }
{
    if is_prepared { b" prepared" } else { b"" }
}

fn push_copy(text: &mut Vec<u8>, newest: Versions, copy: Option<Versions>) -> Result<(), AllocError>
    ensures { OnOk result (text.new.items ≡ text.old.items ++ copy_text newest copy) }
{
    match copy {
        Some(copy) => push_versions(text, newest, copy),
        None => text.extend_from_slice(b" nothing"),
    }
}

fn push_versions(text: &mut Vec<u8>, newest: Versions, copy: Versions) -> Result<(), AllocError>
    ensures { OnOk result (text.new.items ≡ text.old.items ++ copy_text newest (Some copy)) }
{
    text.extend_from_slice(b" prefix ")?;
    push_number(text, copy.prefix)?;
    text.extend_from_slice(b" content ")?;
    push_number(text, copy.content)?;
    text.extend_from_slice(behind_text(copy.prefix < newest.prefix, copy.content < newest.content))
}

fn push_standing(text: &mut Vec<u8>, sought: Sought, one: Standing) -> Result<(), AllocError>
    ensures { OnOk result (text.new.items ≡ text.old.items ++ standing_text sought one) }
{
    text.extend_from_slice(b" suite ")?;
    push_number(text, sought.suite)?;
    text.extend_from_slice(b" server ")?;
    push_number(text, u64::from(one.number))?;
    text.extend_from_slice(up_text(one.is_up))?;
    push_copy(text, sought.newest, one.copy)?;
    text.extend_from_slice(prepared_text(one.is_prepared))
}

fn push_line(
    text: &mut Vec<u8>,
    path: &[u8],
    sought: Sought,
    one: Standing,
) -> Result<(), AllocError>
    ensures { OnOk result (text.new.items ≡ text.old.items ++ standing_line path.now sought one) }
{
    text.extend_from_slice(b"copies ")?;
    text.extend_from_slice(path)?;
    push_standing(text, sought, one)?;
    text.extend_from_slice(b"\n")
}

/// Adds a line for each server.
fn push_lines(
    alloc: Global,
    service: &OpenService,
    path: &[u8],
    sought: Sought,
    text: &mut Vec<u8>,
) -> Result<(), AllocError>
    ensures { OnOk result (text.new.items
        ≡ text.old.items ++ standing_lines path.now sought service.now.world.world service.now.settings.servers) }
{
    let count = service.settings.servers() as u8;
    for number in 0..count {
        let one = standing_at(alloc, service, sought.suite, number)?;
        push_line(text, path, sought, one)?;
    }
    Ok(())
}

fn push_none(text: &mut Vec<u8>, path: &[u8]) -> Result<(), AllocError>
    ensures { OnOk result (text.new.items ≡ text.old.items ++ codes "copies " ++ path.now ++ codes " nothing" ++ line_feed) }
{
    text.extend_from_slice(b"copies ")?;
    text.extend_from_slice(path)?;
    text.extend_from_slice(b" nothing\n")
}

/// Adds the lines that tell what each server has of what stands at a path.
pub(crate) fn push_copies(
    alloc: Global,
    service: &OpenService,
    path: &[u8],
    text: &mut Vec<u8>,
) -> Result<(), AllocError>
    ensures { OnOk result (text.new.items ≡ text.old.items ++ copies_text service.now.world.world service.now.settings.servers path.now) }
{
    match found_at(alloc, service, path)? {
        Some(suite) => {
            let sought = sought_in(alloc, service, suite)?;
            push_lines(alloc, service, path, sought, text)
        }
        None => push_none(text, path),
    }
}
