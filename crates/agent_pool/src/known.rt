//! What agents know of servers: of each the last stamp that it gave.

ghost use Rattle.std.specs.Prelude.{◌≡◌, ◌<◌, ℕ, length, max, slice_index, IfSome};
ghost use Rattle.agent_pool.specs.Transcripts.{most_numbers};
ghost use Rattle.agent_pool.specs.code.Steps.{known_after};

use std::sync::Wait;

/// The stamp that a server told, if it told one, is known then. It is above the one that is known of that server.
pub(crate) fn learn<R: Wait>(rt: &R, known: &mut Vec<u64>, server: u8, told: Option<u64>)
    requires { length known.old.items ≡ most_numbers }
    ensures there { server < length known.old.items }
    ensures later { IfSome told (λ stamp. slice_index known.old.items server < stamp) }
    ensures known { known.new.items ≡ known_after known.old.items server told }
{
    let Some(stamp) = told else {
        return;
    };
    let place = usize::from(server);
    wait_for_later(rt, known[place], stamp);
    known[place] = stamp;
}

/// A server's stamps rise, so this one is later than all that it gave before. No type can say so of a list of locks: where
/// it were not, that would be waited for without end.
fn wait_for_later<R: Wait>(rt: &R, last: u64, stamp: u64)
    ensures { last < stamp }
{
    for _ in rt.forever() {
        if last < stamp {
            return;
        }
    }
    unreachable!()
}

/// What is known there of servers is known here too: of each the later stamp.
pub(crate) fn unite(known: &mut [u64], others: &[u64])
    requires { length others.now ≡ length known.old }
    ensures later { (server : ℕ) → server < length known.old
        → slice_index known.new server ≡ max (slice_index known.old server) (slice_index others.now server) }
    ensures long { length known.new ≡ length known.old }
{
    for server in 0..others.len() {
        known[server] = known[server].max(others[server]);
    }
}
