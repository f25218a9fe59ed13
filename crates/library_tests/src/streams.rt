//! The bytes of streams, and what is written before a write fails.

use crate::checks::{had, holds, shows};
use byte_streams::{
    ByteIn, ByteOut, MemoryIn, MemoryOut, SystemIn, SystemOut, read_all, write_all,
};
use std::process::Abort;

/// So many bytes.
fn text(rt: &(impl Abort + AllocGlobal), len: usize) -> Vec<u8> {
    had(rt, b"x".as_slice().repeat(rt.alloc(), len))
}

/// A slice is a reader that never fails.
#[test]
fn the_bytes_are_those_of_the_stream(rt: HostRuntime) {
    let whole = had(&rt, read_all(rt.alloc(), &mut MemoryIn::new(b"ab\n"), 3));
    holds(&rt, whole.as_slice() == b"ab\n".as_slice(), "three bytes");
    let text = text(&rt, 100_000);
    let mut stream = SystemIn::new(text.as_slice());
    let whole = had(&rt, read_all(rt.alloc(), &mut stream, 100_000));
    holds(&rt, whole.as_slice() == text.as_slice(), "100,000 bytes");
    holds(&rt, stream.failed_reads() == 0, "no failure");
}

/// Of a text of 200,000 bytes so many are written where one write fails, and so many writes failed.
fn writes(rt: &(impl Abort + AllocGlobal), failing: u64, want: &str) {
    let text = text(rt, 200_000);
    let mut stream = MemoryOut::failing_at(rt.alloc(), failing);
    let has_failed = write_all(&mut stream, &text).is_err();
    let told = (has_failed, stream.bytes().len(), stream.failed_writes());
    shows(rt, told, want, want);
}

/// A text of 200,000 bytes is written in four pieces, of which the first three have 65,536.
#[test]
fn texts_are_written_in_pieces(rt: HostRuntime) {
    writes(&rt, 0, "(true, 0, 1)");
    writes(&rt, 2, "(true, 131072, 1)");
    writes(&rt, 3, "(true, 196608, 1)");
    writes(&rt, 4, "(false, 200000, 0)");
}

#[test]
fn texts_are_written_one_behind_the_other(rt: HostRuntime) {
    let mut stream = MemoryOut::new(rt.alloc());
    had(&rt, write_all(&mut stream, b"one"));
    had(&rt, write_all(&mut stream, b""));
    had(&rt, write_all(&mut stream, b"two"));
    holds(&rt, stream.bytes() == b"onetwo".as_slice(), "six bytes");
}

/// Writes a piece, which fails or not, and so many writes have failed then.
fn writes_to(
    rt: &(impl Abort + AllocGlobal),
    stream: &mut SystemOut<&mut [u8]>,
    piece: &str,
    want: &str,
) {
    let has_failed = stream.write(piece.as_bytes()).is_err();
    shows(rt, (has_failed, stream.failed_writes()), want, piece);
}

/// A slice to be written is a writer that fails once it is full.
#[test]
fn streams_of_the_system_are_written(rt: HostRuntime) {
    let mut room = [0u8; 4];
    let mut stream = SystemOut::new(room.as_mut_slice());
    writes_to(&rt, &mut stream, "one", "(false, 0)");
    writes_to(&rt, &mut stream, "t", "(false, 0)");
    writes_to(&rt, &mut stream, "wo", "(true, 1)");
    writes_to(&rt, &mut stream, "x", "(true, 2)");
}
