//! Stamps, and what keeps a server from serving.

ghost use Rattle.std.specs.Prelude.{◌≡◌};
ghost use Rattle.rep_core.specs.declared.stamped.Lack.TheVariants.{Memory};

use std::alloc::AllocError;

/// A request or a reply with its stamp, by Lamport's logical clock.
#[derive(Clone, Debug, Drop)]
pub struct Stamped<T> {
    pub stamp: u64,
    pub value: T,
}

impl<T: PartialEq> PartialEq for Stamped<T> {
    ghost use Rattle.rep_core.specs.code.Equality.{same_stamped, same_stamped_partial_laws};

    ghost eq = { same_stamped T.eq };

    ghost laws = { same_stamped_partial_laws T.laws };

    fn eq(&self, other: &Stamped<T>) -> bool {
        self.stamp == other.stamp && self.value == other.value
    }
}

impl<T: Eq> Eq for Stamped<T> {
    ghost use Rattle.rep_core.specs.code.Equality.{same_stamped_laws};

    ghost laws = { same_stamped_laws T.Eq.laws };
}

/// Why a server did not serve a request.
#[derive(Clone, Copy, Debug, PartialEq, Eq)]
pub enum Lack {
    /// A stamp or a version is used up, or the server has no place for another suite.
    Full,
    /// Memory ran out.
    Memory,
}

impl From<AllocError> for Lack {
    ghost from_gives = { λ _ lack. lack ≡ Memory };

    fn from(_error: AllocError) -> Lack {
        Lack::Memory
    }
}
