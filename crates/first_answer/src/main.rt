//! The commands of `suites` that `./suites` starts itself, as a program that is built sooner: a fresh clone answers by it.
#![tactic(auto)]

use byte_streams::{COMMAND_LINE, SystemIn, SystemOut, finish};
use std::alloc::{AllocError, Global};
use std::env::Env;
use std::fs::File;
use std::io::{self, Input, Print};
use std::process::ExitCode;
use std::rt::Files;
use std::sync::Wait;
use std::thread::Threads;
use suite_cli::{command_line, lack_memory, slices};

fn main(rt: HostRuntime) -> ExitCode {
    let status = match work(&rt, rt.alloc()) {
        Ok(status) => status,
        Err(AllocError) => lack_memory(&mut SystemOut::new(io::writer(&rt))),
    };
    ExitCode::from(status)
}

/// Does what the words of the command line ask for, and says the exit status.
fn work<R: Threads + Wait + Sync + Files<File = File> + Env + Input + Print>(
    rt: &R,
    alloc: Global,
) -> Result<u8, AllocError> {
    let mut writer = SystemOut::new(io::writer(rt));
    let Some(given) = command_line(rt, alloc)? else {
        return Ok(finish(&mut writer, b"fault command line\n", COMMAND_LINE));
    };
    let words = slices(alloc, &given)?;
    let mut reader = SystemIn::new(rt.reader());
    Ok(serve_log::run(rt, alloc, &words, &mut reader, &mut writer))
}
