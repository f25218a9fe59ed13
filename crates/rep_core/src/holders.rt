//! Who holds locks on a suite: pairs of a suite and a transaction, in this order, in blocks.

ghost use Rattle.std.specs.Prelude.{◌≡◌, ◌+◌, find, option_map};
ghost use Rattle.std.specs.Option.{option_copied};
ghost use Rattle.sorted_map.specs.Blocks.{first_from};
ghost use Rattle.rep_core.specs.code.Holders as holding;
ghost use Rattle.rep_core.specs.code.Holders.{holder_cmp, is_other, told_other, AreNumbered};

use sorted_map::BlockMap;

/// The least transaction but this one that holds a lock on a suite: the first on the suite, or the one behind it.
pub(crate) fn first_other(holders: &BlockMap<(u64, u64), ()>, t: u64, suite: u64) -> Option<u64>
    requires { AreNumbered holders.now.pairs }
    ensures { result ≡ option_map (λ holder. holder.0.1) (find (is_other t suite) holders.now.pairs) }
{
    match holders.first_from(&(suite, 0)) {
        Some(first) => first_or_next(holders, first, t, suite),
        None => None,
    }
}

/// The first holder where it is another one on the suite; the one behind it, where it is the transaction itself.
fn first_or_next(
    holders: &BlockMap<(u64, u64), ()>,
    first: &((u64, u64), ()),
    t: u64,
    suite: u64,
) -> Option<u64>
    requires { AreNumbered holders.now.pairs }
    ensures { result ≡ holding.first_or_next t suite first.now (first_from holder_cmp (suite, t + 1) holders.now.pairs) }
{
    if first.0.0 == suite && first.0.1 == t {
        next_other(holders, t, suite)
    } else {
        other_of(first, t, suite)
    }
}

/// The holder behind the transaction itself on the suite. There is none behind the last number.
fn next_other(holders: &BlockMap<(u64, u64), ()>, t: u64, suite: u64) -> Option<u64>
    requires { AreNumbered holders.now.pairs }
    ensures { result ≡ holding.other_in t suite (first_from holder_cmp (suite, t + 1) holders.now.pairs) }
{
    if t == u64::MAX {
        return None;
    }
    match holders.first_from(&(suite, t + 1)) {
        Some(holder) => other_of(holder, t, suite),
        None => None,
    }
}

fn other_of(holder: &((u64, u64), ()), t: u64, suite: u64) -> Option<u64>
    ensures { result ≡ told_other t suite holder.now }
{
    if holder.0.0 == suite && holder.0.1 != t {
        Some(holder.0.1)
    } else {
        None
    }
}
