//! The locks at the servers.

ghost use Rattle.std.specs.Prelude.{◌≡◌, ◌++◌, OnOk};
ghost use Rattle.std.specs.List.{flat_map};
ghost use Rattle.run_core.specs.Worlds.{server_at};
ghost use Rattle.suite_script.specs.Faults.{line_feed};
ghost use Rattle.suite_session.specs.HeldLocks.{front_text, held_text, home_is_up, lock_line, locks_by, locks_in, locks_text, mode_text, stage_text};

use crate::copies::is_up;
use crate::open_service::OpenService;
use rep_core::Lock;
use script_text::push_number;
use std::alloc::AllocError;
use txn_core::home_among;

fn home_is_up(service: &OpenService, t: u64) -> bool
    ensures { result ≡ home_is_up service.now.settings service.now.world.world t }
{
    let home = home_among(service.settings.servers(), t);
    is_up(&service.world, home)
}

fn stage_text(is_prepared: bool, home_is_up: bool) -> &'static [u8]
    ensures { result.now ≡ stage_text is_prepared home_is_up }
{
    match (is_prepared, home_is_up) {
        (true, true) => b" prepared",
        (true, false) => b" in doubt",
        (false, _) => b"",
    }
}

fn mode_text(is_exclusive: bool) -> &'static [u8]
    ensures { result.now ≡ mode_text is_exclusive }
{
    if is_exclusive {
        b" exclusive"
    } else {
        b" shared"
    }
}

fn push_front(text: &mut Vec<u8>, number: u8) -> Result<(), AllocError>
    ensures { OnOk result (text.new.items ≡ text.old.items ++ front_text number) }
{
    text.extend_from_slice(b"locks server ")?;
    push_number(text, u64::from(number))
}

fn push_held(text: &mut Vec<u8>, lock: Lock) -> Result<(), AllocError>
    ensures { OnOk result (text.new.items ≡ text.old.items ++ held_text lock) }
{
    text.extend_from_slice(b" t ")?;
    push_number(text, lock.t)?;
    text.extend_from_slice(b" suite ")?;
    push_number(text, lock.suite)?;
    text.extend_from_slice(mode_text(lock.mode.is_exclusive()))
}

fn push_stage(text: &mut Vec<u8>, service: &OpenService, lock: Lock) -> Result<(), AllocError>
    ensures { OnOk result (text.new.items
        ≡ text.old.items ++ stage_text lock.prepared (home_is_up service.now.settings service.now.world.world lock.t) ++ line_feed) }
{
    let home_is_up = home_is_up(service, lock.t);
    text.extend_from_slice(stage_text(lock.prepared, home_is_up))?;
    text.extend_from_slice(b"\n")
}

fn push_lock(
    text: &mut Vec<u8>,
    service: &OpenService,
    number: u8,
    lock: Lock,
) -> Result<(), AllocError>
    ensures { OnOk result (text.new.items ≡ text.old.items ++ lock_line service.now.settings service.now.world.world number lock) }
{
    push_front(text, number)?;
    push_held(text, lock)?;
    push_stage(text, service, lock)
}

fn push_each(
    text: &mut Vec<u8>,
    service: &OpenService,
    number: u8,
    locks: &[Lock],
) -> Result<(), AllocError>
    ensures { OnOk result (text.new.items
        ≡ text.old.items ++ flat_map (lock_line service.now.settings service.now.world.world number) locks.now) }
{
    for lock in locks {
        push_lock(text, service, number, *lock)?;
    }
    Ok(())
}

fn push_all(
    text: &mut Vec<u8>,
    service: &OpenService,
    number: u8,
    locks: &[Lock],
) -> Result<(), AllocError>
    ensures { OnOk result (text.new.items ≡ text.old.items ++ locks_in service.now.settings service.now.world.world number locks.now) }
{
    if locks.is_empty() {
        push_front(text, number)?;
        return text.extend_from_slice(b" nothing\n");
    }
    push_each(text, service, number, locks)
}

fn push_locks_at(text: &mut Vec<u8>, service: &OpenService, number: u8) -> Result<(), AllocError>
    ensures { OnOk result (text.new.items
        ≡ text.old.items ++ locks_by service.now.settings service.now.world.world number (server_at service.now.world.world number)) }
{
    match service.world.server(number) {
        Some(server) => {
            let locks = server.locks()?;
            push_all(text, service, number, &locks)
        }
        None => Ok(()),
    }
}

/// Adds a line for each lock at each server.
pub(crate) fn push_locks(text: &mut Vec<u8>, service: &OpenService) -> Result<(), AllocError>
    ensures { OnOk result (text.new.items
        ≡ text.old.items ++ locks_text service.now.settings service.now.world.world service.now.settings.servers) }
{
    let count = service.settings.servers() as u8;
    for number in 0..count {
        push_locks_at(text, service, number)?;
    }
    Ok(())
}
