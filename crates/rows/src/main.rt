//! Plays the rows of standard input: command lines, each with an input and with what must be printed for it. It
//! prints what a row printed in place of that, and at the end how many rows there are. The exit status is 1 where a
//! row differs.
//!
//! `stdin` has all rows, and `src/row.rt` says how one is written. By hand, from this folder, once it is built:
//! `out/rows < stdin`.
//!
//! **Files**: `line`, `row`, `report`.
#![tactic(auto)]

mod line;
mod report;
mod row;

use byte_streams::{MemoryIn, MemoryOut, SystemIn, SystemOut, read_all, write_all};
use line::Unread;
use report::{Report, RowAt};
use row::Row;
use std::alloc::{AllocError, Global};
use std::io;
use std::process::ExitCode;
use std::sync::Wait;
use std::thread::Threads;
use suite_cli::run;

/// The most bytes of rows.
const MAX_INPUT: usize = 16_777_216;

/// The exit status for words that ask for nothing.
const COMMAND_LINE: u8 = 2;

fn main(rt: HostRuntime) -> ExitCode {
    let mut reader = SystemIn::new(rt.reader());
    let Ok(bytes) = read_all(rt.alloc(), &mut reader, MAX_INPUT) else {
        return ExitCode::from(6);
    };
    let Ok(text) = std::str::from_utf8(&bytes) else {
        return ExitCode::from(3);
    };
    let Ok(report) = play_all(&rt, rt.alloc(), text) else {
        return ExitCode::from(4);
    };
    let mut writer = SystemOut::new(io::writer(&rt));
    match write_all(&mut writer, report.text()) {
        Ok(()) => ExitCode::from(report.status()),
        Err(_) => ExitCode::from(6),
    }
}

/// Plays all rows of a text: a row begins where a line begins with `$`.
fn play_all<R: Threads + Wait + Sync>(
    rt: &R,
    alloc: Global,
    text: &str,
) -> Result<Report, AllocError> {
    let text = text.strip_suffix('\n').unwrap_or(text);
    let mut report = Report::new(alloc);
    let mut place = RowAt { line: 1, title: "" };
    for (number, part) in text.split("\n$").enumerate() {
        if number > 0 {
            play_one(rt, place, part, &mut report)?;
        }
        place = place.after(part);
    }
    report.finish()?;
    Ok(report)
}

/// Plays a row.
fn play_one<R: Threads + Wait + Sync>(
    rt: &R,
    place: RowAt<'_>,
    text: &str,
    report: &mut Report,
) -> Result<(), AllocError> {
    report.count();
    match Row::read(report.alloc(), text) {
        Ok(row) => {
            compare(rt, place, &row, MemoryIn::new(row.input()), report)?;
            // Bad words are told before anything is read.
            if row.status() == COMMAND_LINE {
                let unread = MemoryIn::failing_at(row.input(), 0);
                compare(rt, place, &row, unread, report)?;
            }
            Ok(())
        }
        Err(Unread::Form) => report.add_bad_row(place),
        Err(Unread::Memory) => Err(AllocError),
    }
}

/// Runs the words of a row over an input, and compares what was printed.
fn compare<R: Threads + Wait + Sync>(
    rt: &R,
    place: RowAt<'_>,
    row: &Row<'_>,
    mut input: MemoryIn<'_>,
    report: &mut Report,
) -> Result<(), AllocError> {
    let alloc = report.alloc();
    let words = row.words(alloc)?;
    let mut printed = MemoryOut::new(alloc);
    let status = play(rt, alloc, &words, &mut input, &mut printed);
    if !row.is_met_by(status, printed.bytes()) {
        report.add_difference(place, status, printed.bytes())?;
    }
    Ok(())
}

/// Does what words ask for over an input, and answers the exit status.
fn play<R: Threads + Wait + Sync>(
    rt: &R,
    alloc: Global,
    words: &[&str],
    input: &mut MemoryIn<'_>,
    printed: &mut MemoryOut,
) -> u8 {
    let Some((command, behind)) = words.split_first() else {
        return run(rt, alloc, words, input, printed);
    };
    match *command {
        "explore" => explore::obey(alloc, behind, input, printed, MemoryOut::new(alloc)),
        "judge" => judge::obey(alloc, behind, input, printed),
        "may" => may::obey(alloc, behind, input, printed),
        "trace" => trace::obey(alloc, behind, input, printed),
        _ => run(rt, alloc, words, input, printed),
    }
}
