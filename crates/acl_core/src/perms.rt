//! Sets of permissions.

ghost use Rattle.std.specs.Prelude.{⊤, ◌≡◌, ◌<◌, [], ◌∷◌, codes};
ghost use Rattle.std.specs.Int.RustNames.{bit_and};
ghost use Rattle.acl_core.specs.Permissions.{digit_of, has_all, number_of, IsPermissionSet};

use bitflags::{Flag, Flags, bitflag_items};

/// What an entry grants, or a caller wants: read, write, execute or search.
#[derive(Clone, Copy, PartialEq, Eq, PartialOrd, Ord, Debug)]
pub struct Perms(u8);

bitflag_items! {
    impl Perms: u8 {
        const READ = 4;
        const WRITE = 2;
        const EXEC = 1;
    }
}

impl Flags for Perms {
    type Bits = u8;

    ghost exact = { ⊤ };

    ghost table = { (codes "READ", 4) ∷ (codes "WRITE", 2) ∷ (codes "EXEC", 1) ∷ [] };

    ghost set_of = { λ perms. perms.0 };

    fn flags<'a>() -> &'a [Flag<Perms>] {
        Perms::FLAGS
    }

    fn bits(&self) -> u8 {
        self.0
    }

    fn from_bits_retain(bits: u8) -> Perms {
        Perms(bits)
    }
}

impl Perms {
    /// The set of these permissions.
    pub fn of(reads: bool, writes: bool, executes: bool) -> Perms
        ensures value { number_of result ≡ digit_of reads writes executes }
        ensures known { IsPermissionSet result }
    {
        let read_bit = if reads { 4 } else { 0 };
        let write_bit = if writes { 2 } else { 0 };
        let execute_bit = if executes { 1 } else { 0 };
        Perms(read_bit + write_bit + execute_bit)
    }

    /// The set that an octal digit stands for.
    pub fn from_digit(digit: u8) -> Perms
        requires { digit < 8 }
        ensures value { number_of result ≡ digit }
        ensures known { IsPermissionSet result }
    {
        Perms(digit)
    }

    /// The octal digit of what is both in this set and in that of an octal digit.
    pub(crate) fn common_digit(self, digit: u8) -> u8
        requires { digit < 8 }
        ensures value { result ≡ bit_and (number_of self) digit }
        ensures small { result < 8 }
    {
        self.0 & digit
    }

    /// Whether this set has all that is wanted. What is neither read, write nor execute counts nowhere.
    pub fn grants(self, wanted: Perms) -> bool
        ensures { result ≡ has_all self wanted }
    {
        let known = Perms::from_bits_truncate(self.0);
        known.contains(Perms::from_bits_truncate(wanted.0))
    }
}
