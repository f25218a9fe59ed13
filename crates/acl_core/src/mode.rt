//! The nine permission bits of a file.

ghost use Rattle.std.specs.Prelude.{◌≡◌, ℕ, ◌<◌, ◌/◌, ◌%◌, ◌↔◌, [], ◌∷◌, All, IsSome, IfSome};

use std::marker::Model;

/// A mode from 0 to octal 777.
#[derive(Clone, Copy, Debug, PartialEq, Eq)]
pub struct Mode {
    bits: u16,
}

impl Model for Mode {
    ghost Value = { ℕ };

    ghost view = { λ mode. mode.bits };

    ghost invariant = { λ mode. mode.bits < 512 };

    ghost inverse = { λ bits. record { bits = bits } };
}

impl Mode {
    /// The mode of these bits.
    pub fn new(bits: u16) -> Option<Mode>
        ensures valid { IsSome result ↔ (bits < 512) }
        ensures value { IfSome result (λ mode. mode ≡ bits) }
    {
        if bits < 0o1000 {
            Some(Mode { bits })
        } else {
            None
        }
    }

    /// The octal digits of the owner, the group and all others.
    pub fn digits(self) -> [u8; 3]
        ensures value { result ≡ self / 64 ∷ self / 8 % 8 ∷ self % 8 ∷ [] }
        ensures small { All (λ digit. digit < 8) result }
    {
        [
            (self.bits / 64) as u8,
            (self.bits / 8 % 8) as u8,
            (self.bits % 8) as u8,
        ]
    }

    /// The mode as a number.
    pub fn bits(self) -> u16
        ensures value { result ≡ self }
        ensures small { result < 512 }
    {
        self.bits
    }
}
