//! Equal maps.

ghost use Rattle.std.specs.Prelude.{◌≡◌, IfOk};
ghost use Rattle.std.specs.Ordering.{nat_cmp};
ghost use Rattle.sorted_map.specs.SortedMap.{IsOrdered};

use sorted_map::RoomyMap;
use std::alloc::{AllocError, Global};

/// The map of these pairs. The values' clones are equal to them.
pub(crate) fn copied<V: Clone + Drop>(
    alloc: Global,
    pairs: &[(u64, V)],
) -> Result<RoomyMap<u64, V>, AllocError>
    requires rising { IsOrdered nat_cmp pairs.now }
    requires equal { (value copy : V) → V.is_clone value copy → copy ≡ value }
    ensures { IfOk result (λ map. map.pairs ≡ pairs.now) }
{
    let mut map = RoomyMap::new(alloc);
    map.reserve(pairs.len())?;
    for (key, value) in pairs {
        map.insert_in_room(*key, value.clone()?);
    }
    Ok(map)
}
