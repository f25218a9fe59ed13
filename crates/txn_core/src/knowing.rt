//! What a transaction knows of the suites that it gathered.

ghost use Rattle.std.specs.Prelude.{◌≡◌, ◌++◌, [], IfOk, OnOk};
ghost use Rattle.std.specs.Ordering.{nat_cmp};
ghost use Rattle.sorted_map.specs.SortedMap.{IsOrdered};
ghost use Rattle.txn_core.specs.Suites as gathering;
ghost use Rattle.txn_core.specs.code.Seeing.{seen_in, known_by, suite_view_of};

use crate::fixed_parts::FixedParts;
use crate::suites_after::{SuiteView, SuitesAfter};
use file_exec::{Known, KnownSuite};
use sorted_map::RoomyMap;
use std::alloc::{AllocError, Global};

/// What is known of the suites that had a quorum. It refers to what they have.
pub(crate) fn known_of<'a>(
    alloc: Global,
    fixed_parts: &'a FixedParts,
    after: SuitesAfter<'a>,
) -> Result<Known<'a>, AllocError>
    ensures ordered { OnOk result (IsOrdered nat_cmp after.entry.suites.now.pairs) }
    ensures known { IfOk result (λ known. known ≡ record { service = fixed_parts.now; suites = gathering.known_of (seen_in after.entry) }) }
{
    let mut known = Vec::with_capacity(alloc, after.len())?;
    for (number, suite) in after.suites.as_slice() {
        tell(&mut known, *number, after.at(*number, suite))?;
    }
    let known = RoomyMap::from_ordered(known);
    Ok(Known::of(fixed_parts.as_service(), known))
}

/// Tells what the first quorum of a suite gave, and its content, where it is there.
fn tell<'a>(
    known: &mut Vec<(u64, KnownSuite<'a>)>,
    number: u64,
    suite_view: SuiteView<'a>,
) -> Result<(), AllocError>
    ensures { OnOk result (known.new.items ≡ known.old.items ++ known_by number (suite_view_of suite_view.entry) []) }
{
    if let Some(told) = suite_view.known() {
        known.push((number, told))?;
    }
    Ok(())
}
