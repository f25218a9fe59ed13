//! What no row can say: streams that fail.

use byte_streams::{MemoryIn, MemoryOut};
use std::process::Abort;
use std::sync::Wait;
use std::thread::Threads;
use suite_cli::run;

/// Runs a command, and gives its exit status and what it wrote.
fn played(
    rt: &(impl Abort + AllocGlobal + Threads + Wait + Sync),
    words: &[&str],
    mut reader: MemoryIn<'_>,
    mut writer: MemoryOut,
) -> (u8, MemoryOut) {
    let status = run(rt, rt.alloc(), words, &mut reader, &mut writer);
    (status, writer)
}

/// Stops the test, with what it was about, where something does not hold.
fn holds(rt: &impl Abort, given: bool, about: &str, number: u64) {
    assert!(rt; given, "{about} {number}");
}

/// Appends to a text.
fn add(rt: &impl Abort, text: &mut Vec<u8>, piece: &[u8]) {
    text.extend_from_slice(piece).expect(rt, "memory");
}

/// A command with its input, and its status and output where nothing fails.
#[derive(Clone, Copy)]
struct Case<'a> {
    word: &'static str,
    input: &'a [u8],
    status: u8,
    output: &'a [u8],
}

/// How many of the first 20 reads matter, each of which fails once: then nothing is written.
fn failing_reads(rt: &(impl Abort + AllocGlobal + Threads + Wait + Sync), case: &Case<'_>) -> u64 {
    let mut failed = 0u64;
    for call in 0..20u64 {
        let reader = MemoryIn::failing_at(case.input, call);
        let writer = MemoryOut::new(rt.alloc());
        let (status, writer) = played(rt, &[case.word], reader, writer);
        if status == 6 {
            holds(rt, writer.bytes().is_empty(), case.word, call);
            failed = failed.saturating_add(1);
        } else {
            holds(rt, status == case.status, case.word, call);
            holds(rt, writer.bytes() == case.output, case.word, call);
        }
    }
    failed
}

/// How many of the first 20 writes matter, each of which fails once: then a part of the output is written.
fn failing_writes(rt: &(impl Abort + AllocGlobal + Threads + Wait + Sync), case: &Case<'_>) -> u64 {
    let mut failed = 0u64;
    for call in 0..20u64 {
        let writer = MemoryOut::failing_at(rt.alloc(), call);
        let reader = MemoryIn::new(case.input);
        let (status, writer) = played(rt, &[case.word], reader, writer);
        let written = writer.bytes();
        if status == 6 {
            holds(rt, case.output.starts_with(written), case.word, call);
            holds(rt, written.len() < case.output.len(), case.word, call);
            failed = failed.saturating_add(1);
        } else {
            holds(rt, status == case.status, case.word, call);
            holds(rt, written == case.output, case.word, call);
        }
    }
    failed
}

/// At least so many reads and writes are there, and fewer than 20.
fn tells_failures(
    rt: &(impl Abort + AllocGlobal + Threads + Wait + Sync),
    case: &Case<'_>,
    reads: u64,
    writes: u64,
) {
    let failed = failing_reads(rt, case);
    holds(rt, reads <= failed && failed < 20, case.word, failed);
    let failed = failing_writes(rt, case);
    holds(rt, writes <= failed && failed < 20, case.word, failed);
}

/// The digits of 10,000 bytes.
fn digits(rt: &(impl Abort + AllocGlobal)) -> Vec<u8> {
    let digits = b"0123456789abcdef".as_slice();
    digits.repeat(rt.alloc(), 1250).expect(rt, "memory")
}

/// A script that is read in several pieces.
fn long_script(rt: &(impl Abort + AllocGlobal), digits: &[u8]) -> Vec<u8> {
    let mut script = Vec::new(rt.alloc());
    let head = b"root 1000 100 777\ndo 1 1 file /a 666\ndo 1 1 write /a ";
    add(rt, &mut script, head);
    add(rt, &mut script, digits);
    add(rt, &mut script, b"\n");
    for _ in 2..12u64 {
        add(rt, &mut script, b"do 1 1 read /a\n");
    }
    script
}

/// What it prints, in several pieces.
fn long_output(rt: &(impl Abort + AllocGlobal), digits: &[u8]) -> Vec<u8> {
    let mut output = Vec::new(rt.alloc());
    add(rt, &mut output, b"0 answered made 1\n1 answered wrote\n");
    for number in 2..12u64 {
        let line = format!(in rt.alloc(); "{number} answered read ").expect(rt, "memory");
        add(rt, &mut output, line.as_bytes());
        add(rt, &mut output, digits);
        add(rt, &mut output, b"\n");
    }
    output
}

#[test]
fn tells_each_stream_of_a_long_script_that_fails(rt: HostRuntime) {
    let digits = digits(&rt);
    let (input, output) = (long_script(&rt, &digits), long_output(&rt, &digits));
    let case = Case {
        word: "table",
        input: &input,
        status: 0,
        output: &output,
    };
    tells_failures(&rt, &case, 3, 3);
}

/// The same of a short text, which is written at once.
fn tells_failures_of(
    rt: &(impl Abort + AllocGlobal + Threads + Wait + Sync),
    word: &'static str,
    input: &str,
    status: u8,
    output: &str,
    reads: u64,
) {
    let case = Case {
        word,
        input: input.as_bytes(),
        status,
        output: output.as_bytes(),
    };
    tells_failures(rt, &case, reads, 1);
}

#[test]
fn tells_each_stream_that_fails(rt: HostRuntime) {
    tells_failures_of(&rt, "table", "no", 3, "fault line 1: S1\n", 2);
    let printed = "user::r--\ngroup::r--\nother::r--\n";
    tells_failures_of(&rt, "acl", "u::r,g::r,o::r", 0, printed, 2);
    tells_failures_of(&rt, "acl", "x", 3, "fault A9 item 1\n", 2);
    tells_failures_of(&rt, "no", "", 2, "fault command line\n", 0);
    tells_failures_of(&rt, "--version", "", 2, "fault command line\n", 0);
}
