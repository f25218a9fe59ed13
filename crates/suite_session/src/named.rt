//! Which numbers folders name.

ghost use Rattle.std.specs.Prelude.{◌≡◌, ◌||◌, ◌==◌, ℕ, IfOk, OnOk, map};
ghost use Rattle.std.specs.List.{flat_map};
ghost use Rattle.std.specs.Option.{option_copied};
ghost use Rattle.rep_core.specs.code.Planning.{copies_in};
ghost use Rattle.run_core.specs.Worlds.{server_at};
ghost use Rattle.suite_session.specs.Places.{has, is_folder, named_by, named_in, numbers_by, numbers_of};
ghost use Rattle.suite_session.specs.Rows.{copy_in};
ghost use Rattle.suite_session.specs.code.Naming.{AreTold, HaveSame};

use crate::newest::{Which, newest};
use crate::open_service::OpenService;
use crate::side::Side;
use file_ops::ROOT;
use std::alloc::{AllocError, Global};
use std::collections::BTreeSet;
use suite_content::{Content, Name};
use suite_prefix::{PrefixKind, StoredCopy};

/// The numbers that are named, and the folders that were asked: each is asked once, though many servers have it.
#[derive(Drop)]
struct Named {
    numbers: BTreeSet<u64>,
    folders: BTreeSet<u64>,
}

/// Whether a number is among others.
#[tactic(auto, using(crate::proofs::Naming::has_at))]
pub(crate) fn has(numbers: &BTreeSet<u64>, number: u64) -> bool
    ensures { result ≡ has numbers.now.keys number }
{
    numbers.contains(&number)
}

/// Adds a number to others.
fn add(numbers: &mut BTreeSet<u64>, number: u64) -> Result<(), AllocError>
    ensures { OnOk result ((one : ℕ) → has numbers.new.keys one ≡ (has numbers.old.keys one || number == one)) }
{
    numbers.insert(number)?;
    Ok(())
}

/// Adds the numbers of names.
fn add_numbers(numbers: &mut BTreeSet<u64>, names: &[(Name, u64)]) -> Result<(), AllocError>
    ensures { OnOk result ((one : ℕ) → has numbers.new.keys one
        ≡ (has numbers.old.keys one || has (map (λ name. name.1) names.now) one)) }
{
    for (_, number) in names {
        add(numbers, *number)?;
    }
    Ok(())
}

fn add_names(
    alloc: Global,
    numbers: &mut BTreeSet<u64>,
    copy: Option<&StoredCopy>,
) -> Result<(), AllocError>
    ensures { OnOk result ((one : ℕ) → has numbers.new.keys one
        ≡ (has numbers.old.keys one || has (numbers_of (copy_in (option_copied copy.entry))) one)) }
{
    let Some(copy) = copy else {
        return Ok(());
    };
    match copy.given(alloc)? {
        (_, Content::Names(names)) => add_numbers(numbers, names.as_slice()),
        (_, Content::Bytes(_)) => Ok(()),
    }
}

fn is_folder(kind: PrefixKind) -> bool
    ensures { result ≡ is_folder kind }
{
    match kind {
        PrefixKind::Folder => true,
        PrefixKind::Absent | PrefixKind::File => false,
    }
}

/// Adds the numbers that the folder of a suite names, where a copy is one of a folder.
fn add_named(
    alloc: Global,
    service: &OpenService,
    suite: u64,
    copy: &StoredCopy,
    named: &mut Named,
) -> Result<(), AllocError>
    requires { AreTold service.now.world.world service.now.settings.servers named.old.folders.keys named.old.numbers.keys }
    ensures told { OnOk result (AreTold service.now.world.world service.now.settings.servers named.new.folders.keys named.new.numbers.keys) }
    ensures numbers { OnOk result ((one : ℕ) → has named.new.numbers.keys one ≡ (has named.old.numbers.keys one
        || has (numbers_by service.now.world.world service.now.settings.servers (suite, copy.now.copy)) one)) }
{
    if !is_folder(copy.kind()) || has(&named.folders, suite) {
        return Ok(());
    }
    let newest = newest(alloc, service, Which::Stored, Side::Content, suite)?;
    add_names(alloc, &mut named.numbers, newest)?;
    add(&mut named.folders, suite)
}

fn add_named_by(
    alloc: Global,
    service: &OpenService,
    copies: &[(u64, StoredCopy)],
    named: &mut Named,
) -> Result<(), AllocError>
    requires { AreTold service.now.world.world service.now.settings.servers named.old.folders.keys named.old.numbers.keys }
    ensures told { OnOk result (AreTold service.now.world.world service.now.settings.servers named.new.folders.keys named.new.numbers.keys) }
    ensures numbers { OnOk result ((one : ℕ) → has named.new.numbers.keys one ≡ (has named.old.numbers.keys one
        || has (flat_map (numbers_by service.now.world.world service.now.settings.servers) (copies_in copies.now)) one)) }
{
    for (suite, copy) in copies {
        add_named(alloc, service, *suite, copy, named)?;
    }
    Ok(())
}

fn add_named_at(
    alloc: Global,
    service: &OpenService,
    number: u8,
    named: &mut Named,
) -> Result<(), AllocError>
    requires { AreTold service.now.world.world service.now.settings.servers named.old.folders.keys named.old.numbers.keys }
    ensures told { OnOk result (AreTold service.now.world.world service.now.settings.servers named.new.folders.keys named.new.numbers.keys) }
    ensures numbers { OnOk result ((one : ℕ) → has named.new.numbers.keys one ≡ (has named.old.numbers.keys one
        || has (named_by service.now.world.world service.now.settings.servers (server_at service.now.world.world number)) one)) }
{
    match service.world.server(number) {
        Some(server) => add_named_by(alloc, service, server.copies(), named),
        None => Ok(()),
    }
}

/// The numbers that are named.
pub(crate) fn named_in(alloc: Global, service: &OpenService) -> Result<BTreeSet<u64>, AllocError>
    ensures { IfOk result (λ numbers. HaveSame numbers.keys
        (named_in service.now.world.world service.now.settings.servers service.now.settings.servers)) }
{
    let mut named = Named {
        numbers: BTreeSet::new(alloc),
        folders: BTreeSet::new(alloc),
    };
    add(&mut named.numbers, ROOT)?;
    for number in 0..service.settings.servers() as u8 {
        add_named_at(alloc, service, number, &mut named)?;
    }
    Ok(named.numbers)
}
