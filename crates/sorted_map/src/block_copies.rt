//! What is made of all blocks of a map: equal ones, and one list.

ghost use Rattle.std.specs.Prelude.{◌≡◌, ◌++◌, IfOk, OnOk};
ghost use Rattle.sorted_map.specs.Blocks.{joined, AreBlocks};

use crate::roomy::RoomyMap;
use std::alloc::{AllocError, Global};
use std::cmp::Ord;

/// Equal blocks, but for their room.
pub(crate) fn copied_blocks<K: Ord + Copy, V: Clone>(
    alloc: Global,
    rest: &[RoomyMap<K, V>],
) -> Result<Vec<RoomyMap<K, V>>, AllocError>
    requires equal { (value copy : V) → V.is_clone value copy → copy ≡ value }
    requires blocks { AreBlocks rest.now }
    ensures pairs { IfOk result (λ copies. joined copies.items ≡ joined rest.now) }
    ensures blocks { IfOk result (λ copies. AreBlocks copies.items) }
{
    let mut copies = Vec::with_capacity(alloc, rest.len())?;
    for block in rest {
        copies.push(block.copied(alloc)?)?;
    }
    Ok(copies)
}

/// Appends the pairs of all blocks to a vector.
pub(crate) fn append_all<K: Ord + Copy, V: Copy>(
    rest: &[RoomyMap<K, V>],
    out: &mut Vec<(K, V)>,
) -> Result<(), AllocError>
    ensures { OnOk result (out.new.items ≡ out.old.items ++ joined rest.now) }
{
    for block in rest {
        out.extend_from_slice(block.as_slice())?;
    }
    Ok(())
}
