//! Streams over memory.

ghost use Rattle.std.specs.Prelude.{◌≡◌, ◌↔◌, ◌<◌, ◌≤◌, false, None, Some, [], length, take, is_ok, IfOk, OnOk, if◌then◌else◌};
ghost use Rattle.byte_streams.specs.Streams.{Takes, Adds, one_more};

use crate::traits::{ByteIn, ByteOut, ReadFailed, WriteFailed};
use std::alloc::Global;

/// Bytes of memory to read, at most so many a call; the call with a given number may fail.
#[derive(Drop)]
pub struct MemoryIn<'a> {
    bytes: &'a [u8],
    failures: u64,
    calls: u64,
    failing: Option<u64>,
}

impl<'a> MemoryIn<'a> {
    /// All these bytes.
    pub fn new(bytes: &'a [u8]) -> MemoryIn<'a>
        ensures bytes { ⟦<MemoryIn<'a> as ByteIn>⟧.rest result ≡ Some bytes.now }
        ensures failures { ⟦<MemoryIn<'a> as ByteIn>⟧.failed_reads result ≡ 0 }
        ensures failing { result.failing ≡ None }
    {
        MemoryIn {
            bytes,
            failures: 0,
            calls: 0,
            failing: None,
        }
    }

    /// These bytes, where one call fails, counted from 0.
    pub fn failing_at(bytes: &'a [u8], call: u64) -> MemoryIn<'a>
        ensures bytes { ⟦<MemoryIn<'a> as ByteIn>⟧.rest result ≡ Some bytes.now }
        ensures failures { ⟦<MemoryIn<'a> as ByteIn>⟧.failed_reads result ≡ 0 }
        ensures failing { (result.failing ≡ Some call) × (result.calls ≡ 0) }
    {
        MemoryIn {
            bytes,
            failures: 0,
            calls: 0,
            failing: Some(call),
        }
    }
}

impl<'a> ByteIn for MemoryIn<'a> {
    ghost rest = { λ stream. Some stream.bytes.now };

    ghost failed_reads = { λ stream. stream.failures };

    fn read(&mut self, buffer: &mut [u8]) -> Result<usize, ReadFailed>
        requires { 0 < length buffer.old }
        ensures fits { IfOk result (λ count. count ≤ length buffer.old) }
        ensures bytes { IfOk result (λ count. Takes (Some self.old.bytes.now) count (take count buffer.new) (Some self.new.bytes.now)) }
        ensures failures { self.new.failures ≡ (if is_ok result then self.old.failures else one_more self.old.failures) }
        ensures fails { (is_ok result ≡ false) ↔ (self.old.failing ≡ Some self.old.calls) }
        ensures calls { (self.new.failing ≡ self.old.failing) × (self.new.calls ≡ one_more self.old.calls) }
    {
        let call = self.calls;
        self.calls = call.saturating_add(1);
        if self.failing == Some(call) {
            self.failures = self.failures.saturating_add(1);
            return Err(ReadFailed);
        }
        let count = self.bytes.len().min(buffer.len());
        let (front, rest) = self.bytes.split_at(count);
        buffer[..count].copy_from_slice(front);
        self.bytes = rest;
        Ok(count)
    }

    fn failed_reads(&self) -> u64 {
        self.failures
    }
}

/// Memory to write to; the call with a given number may fail.
#[derive(Drop)]
pub struct MemoryOut {
    bytes: Vec<u8>,
    failures: u64,
    calls: u64,
    failing: Option<u64>,
}

impl MemoryOut {
    /// Nothing written yet.
    pub fn new(alloc: Global) -> MemoryOut
        ensures bytes { ⟦<MemoryOut as ByteOut>⟧.written result ≡ Some [] }
        ensures failures { ⟦<MemoryOut as ByteOut>⟧.failed_writes result ≡ 0 }
        ensures failing { result.failing ≡ None }
    {
        MemoryOut {
            bytes: Vec::new(alloc),
            failures: 0,
            calls: 0,
            failing: None,
        }
    }

    /// Nothing written yet, and one call fails, counted from 0.
    pub fn failing_at(alloc: Global, call: u64) -> MemoryOut
        ensures bytes { ⟦<MemoryOut as ByteOut>⟧.written result ≡ Some [] }
        ensures failures { ⟦<MemoryOut as ByteOut>⟧.failed_writes result ≡ 0 }
        ensures failing { (result.failing ≡ Some call) × (result.calls ≡ 0) }
    {
        MemoryOut {
            bytes: Vec::new(alloc),
            failures: 0,
            calls: 0,
            failing: Some(call),
        }
    }

    /// What was written.
    pub fn bytes(&self) -> &[u8]
        ensures { ⟦<MemoryOut as ByteOut>⟧.written self.now ≡ Some result.now }
    {
        &self.bytes
    }
}

impl ByteOut for MemoryOut {
    ghost written = { λ stream. Some stream.bytes.items };

    ghost failed_writes = { λ stream. stream.failures };

    fn write(&mut self, piece: &[u8]) -> Result<(), WriteFailed>
        ensures bytes { OnOk result (Adds (Some self.old.bytes.items) piece.now (Some self.new.bytes.items)) }
        ensures failures { self.new.failures ≡ (if is_ok result then self.old.failures else one_more self.old.failures) }
        ensures fails { self.old.failing ≡ Some self.old.calls → is_ok result ≡ false }
        ensures calls { (self.new.failing ≡ self.old.failing) × (self.new.calls ≡ one_more self.old.calls) }
    {
        let call = self.calls;
        self.calls = call.saturating_add(1);
        if self.failing != Some(call) && self.bytes.extend_from_slice(piece).is_ok() {
            return Ok(());
        }
        self.failures = self.failures.saturating_add(1);
        Err(WriteFailed)
    }

    fn failed_writes(&self) -> u64 {
        self.failures
    }
}
