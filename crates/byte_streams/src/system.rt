//! Streams of the system.

ghost use Rattle.std.specs.Prelude.{◌≡◌, ◌≤◌, None, IfOk, length};

use crate::traits::{ByteIn, ByteOut, ReadFailed, WriteFailed};
use std::io::{ErrorKind, Read, Write};

/// A reader of std's.
#[derive(Drop)]
pub struct SystemIn<R: Read + Drop> {
    reader: R,
    failures: u64,
}

impl<R: Read + Drop> SystemIn<R> {
    /// The bytes of a reader.
    pub fn new(reader: R) -> SystemIn<R>
        ensures { ⟦<SystemIn<R> as ByteIn>⟧.failed_reads result ≡ 0 }
    {
        SystemIn {
            reader,
            failures: 0,
        }
    }
}

impl<R: Read + Drop> ByteIn for SystemIn<R> {
    ghost rest = { λ _. None };

    ghost failed_reads = { λ stream. stream.failures };

    fn read(&mut self, buffer: &mut [u8]) -> Result<usize, ReadFailed> {
        let outcome = read_some(&mut self.reader, buffer);
        if outcome.is_err() {
            self.failures = self.failures.saturating_add(1);
        }
        outcome
    }

    fn failed_reads(&self) -> u64 {
        self.failures
    }
}

/// One read, made again where a signal broke it off.
fn read_some<R: Read>(reader: &mut R, buffer: &mut [u8]) -> Result<usize, ReadFailed>
    ensures { IfOk result (λ count. count ≤ length buffer.old) }
{
    for _ in 0..u64::MAX {
        match reader.read(buffer) {
            Ok(count) => return Ok(count),
            Err(error) if error.kind() == ErrorKind::Interrupted => {}
            Err(_) => break,
        }
    }
    Err(ReadFailed)
}

/// A writer of std's.
#[derive(Drop)]
pub struct SystemOut<W: Write + Drop> {
    writer: W,
    failures: u64,
}

impl<W: Write + Drop> SystemOut<W> {
    /// Where a writer puts them.
    pub fn new(writer: W) -> SystemOut<W>
        ensures { ⟦<SystemOut<W> as ByteOut>⟧.failed_writes result ≡ 0 }
    {
        SystemOut {
            writer,
            failures: 0,
        }
    }
}

impl<W: Write + Drop> ByteOut for SystemOut<W> {
    ghost written = { λ _. None };

    ghost failed_writes = { λ stream. stream.failures };

    fn write(&mut self, piece: &[u8]) -> Result<(), WriteFailed> {
        match self.writer.write_all(piece) {
            Ok(()) => Ok(()),
            Err(_) => {
                self.failures = self.failures.saturating_add(1);
                Err(WriteFailed)
            }
        }
    }

    fn failed_writes(&self) -> u64 {
        self.failures
    }
}
