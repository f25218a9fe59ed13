//! Why bytes are refused.

ghost use Rattle.std.specs.Prelude.{◌≡◌};
ghost use Rattle.suite_prefix.specs.declared.faults.DecodeError.TheVariants.{Fault, Memory};

use std::alloc::AllocError;

/// What keeps bytes from being those of a valid copy. The first two are met on reading from the left;
/// the others are told of a whole shape, in this order.
#[derive(Clone, Copy, PartialEq, Eq, Debug)]
pub enum CopyFault {
    /// The bytes end inside the form.
    Short,
    /// The form, the kind or the tag of an entry is none that there is.
    BadTag,
    /// Entries or names do not rise, or there is a number where none belongs.
    NotCanonical,
    /// What the bytes spell is no valid copy.
    Invalid,
    /// There are bytes behind the copy.
    TrailingBytes,
}

/// Why no copy was read.
#[derive(Clone, Copy, PartialEq, Eq, Debug)]
pub enum DecodeError {
    /// The bytes are not those of a valid copy.
    Fault(CopyFault),
    /// Memory ran out.
    Memory,
}

impl From<CopyFault> for DecodeError {
    ghost from_gives = { λ fault e. e ≡ Fault fault };

    fn from(fault: CopyFault) -> DecodeError {
        DecodeError::Fault(fault)
    }
}

impl From<AllocError> for DecodeError {
    ghost from_gives = { λ _ e. e ≡ Memory };

    fn from(_error: AllocError) -> DecodeError {
        DecodeError::Memory
    }
}
