//! A file of memory, for tests.

ghost use Rattle.std.specs.Prelude.{◌≡◌, ◌++◌, ◌∷◌, Some, [], false, map, length, OnOk, OnErr};
ghost use Rattle.byte_streams.specs.Streams.{one_more};

use crate::one_file::{FileFailed, OneFile};
use std::alloc::{AllocError, Global};

/// Bytes of memory. The call with a given number may fail, and another one may have it locked.
#[derive(Drop)]
pub struct MemoryFile {
    alloc: Global,
    bytes: Vec<u8>,
    safe: usize,
    past: Vec<Vec<u8>>,
    is_locked: bool,
    is_held: bool,
    calls: u64,
    failing: Option<u64>,
    failures: u64,
    /// The place at which a read fails, if one does.
    unread: Option<u64>,
}

impl MemoryFile {
    /// These bytes, all of them on the disk.
    pub fn new(alloc: Global, bytes: Vec<u8>, is_held: bool, failing: Option<u64>) -> MemoryFile
        ensures view { ⟦<MemoryFile as OneFile>⟧.view result ≡ Some (record { bytes = bytes.items; safe = length bytes.items; past = []; locked = false }) }
        ensures failures { ⟦<MemoryFile as OneFile>⟧.failed_calls result ≡ 0 }
    {
        let safe = bytes.len();
        MemoryFile {
            alloc,
            bytes,
            safe,
            past: Vec::new(alloc),
            is_locked: false,
            is_held,
            calls: 0,
            failing,
            failures: 0,
            unread: None,
        }
    }

    /// What it holds.
    pub fn bytes(&self) -> &[u8]
        ensures { result.now ≡ self.now.bytes.items }
    {
        &self.bytes
    }

    /// Whether this call fails.
    fn fails(&mut self) -> bool
        ensures same { ⟦<MemoryFile as OneFile>⟧.view self.new ≡ ⟦<MemoryFile as OneFile>⟧.view self.old }
        ensures failures { (self.new.failures ≡ self.old.failures) × (self.new.is_held ≡ self.old.is_held) }
    {
        let call = self.calls;
        self.calls = call.saturating_add(1);
        self.failing == Some(call)
    }

    /// One call failed.
    fn failed(&mut self) -> FileFailed
        ensures same { ⟦<MemoryFile as OneFile>⟧.view self.new ≡ ⟦<MemoryFile as OneFile>⟧.view self.old }
        ensures failures { self.new.failures ≡ one_more self.old.failures }
    {
        self.failures = self.failures.saturating_add(1);
        FileFailed
    }

    /// Remembers what it holds.
    fn remember(&mut self) -> Result<(), AllocError>
        ensures ok { OnOk result (map (λ v. v.items) self.new.past.items ≡ map (λ v. v.items) self.old.past.items ++ self.old.bytes.items ∷ []) }
        ensures err { OnErr result (map (λ v. v.items) self.new.past.items ≡ map (λ v. v.items) self.old.past.items) }
        ensures same { (self.new.bytes ≡ self.old.bytes) × (self.new.safe ≡ self.old.safe) × (self.new.is_locked ≡ self.old.is_locked)
            × (self.new.failures ≡ self.old.failures) }
    {
        let copy = Vec::from_slice(self.alloc, &self.bytes)?;
        match self.past.push(copy) {
            Ok(()) => Ok(()),
            Err(_) => Err(AllocError),
        }
    }
}

impl OneFile for MemoryFile {
    ghost use Rattle.std.specs.Prelude.{Some, map};

    ghost view = { λ file. Some (record { bytes = file.bytes.items; safe = file.safe; past = map (λ v. v.items) file.past.items; locked = file.is_locked }) };

    ghost failed_calls = { λ file. file.failures };

    fn read_at(&self, place: u64, buffer: &mut [u8]) -> Result<usize, FileFailed> {
        if self.unread == Some(place) {
            return Err(FileFailed);
        }
        let from = usize::try_from(place)
            .unwrap_or(usize::MAX)
            .min(self.bytes.len());
        let (_, rest) = self.bytes.split_at(from);
        let count = rest.len().min(buffer.len());
        buffer[..count].copy_from_slice(&rest[..count]);
        Ok(count)
    }

    fn append(&mut self, piece: &[u8]) -> Result<(), FileFailed> {
        if self.fails() || self.bytes.extend_from_slice(piece).is_err() {
            return Err(self.failed());
        }
        Ok(())
    }

    fn shorten(&mut self, size: u64) -> Result<(), FileFailed> {
        if self.fails() || self.remember().is_err() {
            return Err(self.failed());
        }
        let size = usize::try_from(size).unwrap_or(usize::MAX);
        self.bytes.truncate(size);
        self.safe = self.safe.min(size);
        Ok(())
    }

    fn sync(&mut self) -> Result<(), FileFailed> {
        if self.fails() {
            return Err(self.failed());
        }
        self.past.clear();
        self.safe = self.bytes.len();
        Ok(())
    }

    fn try_lock(&mut self) -> Result<bool, FileFailed> {
        if self.fails() {
            return Err(self.failed());
        }
        if self.is_held {
            return Ok(false);
        }
        self.is_locked = true;
        Ok(true)
    }

    fn is_plain(&self) -> Result<bool, FileFailed> {
        Ok(true)
    }
}
