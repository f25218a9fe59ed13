//! A history that only proofs read. It takes no memory, and its methods do nothing at run time.
//!
//! No data stand behind the list, so these contracts by themselves promise nothing. It is worth what the
//! types that hold one say of it in their invariants: that their data are what the list comes to.

ghost use Rattle.std.specs.Prelude.{◌≡◌, List, [], ◌∷◌};
ghost use Rattle.std.specs.Borrow.{ftrue};

use std::marker::{Model, PhantomData};

/// What came, the newest first. A clause reads it as `items`.
#[derive(Drop)]
pub(crate) struct Log<T> {
    of: PhantomData<T>,
    pub(crate) ghost items: { List T },
}

impl<T> Model for Log<T> {
    ghost also_owns = { λ _. ftrue };
}

// It owns nothing.
unsafe impl<T: Send> Send for Log<T> {}

impl<T> Log<T> {
    /// Nothing yet.
    pub(crate) fn new() -> Log<T>
        ensures { result.items ≡ [] }
    {
        Log { of: PhantomData }
    }

    /// The history with one thing more, which its caller picks from what it lends.
    pub(crate) fn and<U>(&self, _from: &U) -> Log<T>
        ghost one: { T }
        ensures { result.items ≡ one ∷ self.now.items }
    {
        Log { of: PhantomData }
    }

    /// An equal history.
    pub(crate) fn same(&self) -> Log<T>
        ensures { result.items ≡ self.now.items }
    {
        Log { of: PhantomData }
    }
}
