//! Lines out of their place: what stands below `together` and is no job, what waits above it, or that it is not there.

ghost use Rattle.std.specs.Prelude.{◌≡◌, ◌+◌, ◌<◌, ◌^◌, length};
ghost use Rattle.suite_script.specs.Scripts.{is_skipped};
ghost use Rattle.explore.specs.Halves.{begins_job, is_cut, is_job_line, stray_above, stray_below, stray_in};

use crate::awaited::{begin_words, waits};
use crate::line::is_together;
use script_text::{Lines, Words};
use suite_script::{LineFault, ScriptFault};

/// The first line that waits above `together`, or that begins no job below it; or the line after the last one, where `together` is not there.
pub(crate) fn stray_in(text: &[u8]) -> Option<ScriptFault>
    requires { length text.now < 2 ^ 60 }
    ensures { result ≡ stray_in text.now }
{
    let mut lines = Lines::new(text);
    let mut number = 1u64;
    while let Some(line) = lines.next() {
        if is_cut(line) {
            return stray_below(&mut lines, number + 1);
        }
        if waits(line) {
            return Some(ScriptFault {
                line: number,
                fault: LineFault::Form,
            });
        }
        number += 1;
    }
    Some(ScriptFault {
        line: number,
        fault: LineFault::Order,
    })
}

/// The first line that begins no job; the next one has this number.
fn stray_below(lines: &mut Lines<'_>, mut number: u64) -> Option<ScriptFault>
    requires { number + length lines.old < 2 ^ 62 }
    ensures { result ≡ stray_below number lines.old }
{
    while let Some(line) = lines.next() {
        if !is_job_line(line) {
            return Some(ScriptFault {
                line: number,
                fault: LineFault::Form,
            });
        }
        number += 1;
    }
    None
}

/// Whether this is the line `together`.
pub(crate) fn is_cut(line: &[u8]) -> bool
    ensures { result ≡ is_cut line.now }
{
    match Words::new(line).next() {
        Some(first) => is_together(first),
        None => false,
    }
}

/// Whether a line begins a job, or says nothing.
fn is_job_line(line: &[u8]) -> bool
    ensures { result ≡ is_job_line line.now }
{
    is_skipped(line) || begins_job(line)
}

/// Whether a line says nothing.
pub(crate) fn is_skipped(line: &[u8]) -> bool
    ensures { result ≡ is_skipped line.now }
{
    matches!(line, [] | [b'#', ..])
}

/// Whether a line begins a job, perhaps once another one has ended.
pub(crate) fn begins_job(line: &[u8]) -> bool
    ensures { result ≡ begins_job line.now }
{
    match begin_words(line).next() {
        Some(first) => first == b"begin".as_slice() || first == b"sweep".as_slice(),
        None => false,
    }
}
