//! The program `suites`: a replicated file service, its plain table and its access lists, over standard input and
//! output, and what is told about them.
//!
//! The first word is a command. Most commands are libraries of their own, which have the words behind it; the others
//! are those of `serve_log::run`, which has all words. The exit status is what that answers. Where a word is not UTF-8
//! the words ask for nothing.
#![tactic(auto)]

use byte_streams::{COMMAND_LINE, SystemIn, SystemOut, finish};
use std::alloc::{AllocError, Global};
use std::env::Env;
use std::fs::File;
use std::io::{self, Input, Print, Stderr};
use std::process::ExitCode;
use std::rt::Files;
use std::sync::Wait;
use std::thread::Threads;
use suite_cli::{command_line, lack_memory, slices};

fn main(rt: HostRuntime) -> ExitCode {
    let status = match work(&rt, rt.alloc(), rt.stderr()) {
        Ok(status) => status,
        Err(AllocError) => lack_memory(&mut SystemOut::new(io::writer(&rt))),
    };
    ExitCode::from(status)
}

/// Does what the words of the command line ask for, and says the exit status.
fn work<R: Threads + Wait + Sync + Files<File = File> + Env + Input + Print>(
    rt: &R,
    alloc: Global,
    errors: Stderr,
) -> Result<u8, AllocError> {
    let Some(given) = command_line(rt, alloc)? else {
        let mut writer = SystemOut::new(io::writer(rt));
        return Ok(finish(&mut writer, b"fault command line\n", COMMAND_LINE));
    };
    let words = slices(alloc, &given)?;
    Ok(obey(rt, alloc, &words, errors))
}

/// Does what words ask for.
fn obey<R: Threads + Wait + Sync + Files<File = File> + Input + Print>(
    rt: &R,
    alloc: Global,
    words: &[&str],
    errors: Stderr,
) -> u8 {
    let mut reader = SystemIn::new(rt.reader());
    let mut writer = SystemOut::new(io::writer(rt));
    let Some((command, behind)) = words.split_first() else {
        return serve_log::run(rt, alloc, words, &mut reader, &mut writer);
    };
    match *command {
        "explore" => {
            let errors = SystemOut::new(errors);
            explore::obey(alloc, behind, &mut reader, &mut writer, errors)
        }
        "forms" => forms::obey(alloc, behind, &mut reader, &mut writer),
        "judge" => judge::obey(alloc, behind, &mut reader, &mut writer),
        "may" => may::obey(alloc, behind, &mut reader, &mut writer),
        "session" => session::obey(rt, alloc, behind, reader, writer),
        "trace" => trace::obey(alloc, behind, &mut reader, &mut writer),
        _ => serve_log::run(rt, alloc, words, &mut reader, &mut writer),
    }
}
