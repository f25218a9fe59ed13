//! Equal vectors.

ghost use Rattle.std.specs.Prelude.{◌≡◌, IfOk};

use std::alloc::{AllocError, Global};

/// A vector of numbered items. The items' clones are equal to them.
pub fn copied<V: Clone>(alloc: Global, items: &[(u64, V)]) -> Result<Vec<(u64, V)>, AllocError>
    requires equal { (value copy : V) → V.is_clone value copy → copy ≡ value }
    ensures { IfOk result (λ copy. copy.items ≡ items.now) }
{
    let mut copy = Vec::with_capacity(alloc, items.len())?;
    for (number, value) in items {
        copy.push((*number, value.clone()?))?;
    }
    Ok(copy)
}

/// A vector of items. Their clones are equal to them.
pub(crate) fn copied_items<V: Clone>(alloc: Global, items: &[V]) -> Result<Vec<V>, AllocError>
    requires equal { (value copy : V) → V.is_clone value copy → copy ≡ value }
    ensures { IfOk result (λ copy. copy.items ≡ items.now) }
{
    let mut copy = Vec::with_capacity(alloc, items.len())?;
    for value in items {
        copy.push(value.clone()?)?;
    }
    Ok(copy)
}
