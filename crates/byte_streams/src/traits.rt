//! The two traits.

ghost use Rattle.std.specs.Prelude.{◌≡◌, ◌<◌, ◌≤◌, ℕ, List, Option, None, length, take, is_ok, IfOk, OnOk, if◌then◌else◌};
ghost use Rattle.byte_streams.specs.Streams.{Takes, Adds, one_more};

/// A read that failed.
#[derive(Clone, Copy, Debug)]
pub struct ReadFailed;

/// A write that failed.
#[derive(Clone, Copy, Debug)]
pub struct WriteFailed;

/// Where bytes come from.
pub trait ByteIn {
    // The bytes that are left, where the stream tells them.
    ghost rest: { Self → Option (List ℕ) };

    // How many reads failed so far.
    ghost failed_reads: { Self → ℕ };

    /// Puts the next bytes at the front of the buffer, and says how many: none at the end alone.
    fn read(&mut self, buffer: &mut [u8]) -> Result<usize, ReadFailed>
        requires { 0 < length buffer.old }
        ensures fits { IfOk result (λ count. count ≤ length buffer.old) }
        ensures bytes { IfOk result (λ count. Takes (rest self.old) count (take count buffer.new) (rest self.new)) }
        ensures failures { failed_reads self.new
            ≡ (if is_ok result then failed_reads self.old else one_more (failed_reads self.old)) };

    /// How many reads failed, up to `u64::MAX`.
    fn failed_reads(&self) -> u64
        ensures { result ≡ failed_reads self.now };
}

/// Where bytes go.
pub trait ByteOut {
    // The bytes written so far, where the stream tells them.
    ghost written: { Self → Option (List ℕ) };

    // How many writes failed so far.
    ghost failed_writes: { Self → ℕ };

    /// Writes a piece whole, or fails.
    fn write(&mut self, piece: &[u8]) -> Result<(), WriteFailed>
        ensures bytes { OnOk result (Adds (written self.old) piece.now (written self.new)) }
        ensures failures { failed_writes self.new
            ≡ (if is_ok result then failed_writes self.old else one_more (failed_writes self.old)) };

    /// How many writes failed, up to `u64::MAX`.
    fn failed_writes(&self) -> u64
        ensures { result ≡ failed_writes self.now };
}
