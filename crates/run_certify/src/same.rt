//! Whether what was served is an item.

ghost use Rattle.std.specs.Prelude.{◌≡◌, ◌↔◌, IsTrue, Some};
ghost use Rattle.run_certify.specs.Shown.{item_by, served_as};
ghost use Rattle.run_core.specs.Telling.{served_if};
ghost use Rattle.run_certify.specs.code.Firsts.{at_server};

use run_core::Served;
use server_lock::Item;

/// Whether something was served in an event, and what its place holds is this item of a server.
pub(crate) fn is_served(was_served: bool, served: &Served, server: usize, item: &Item) -> bool
    ensures { IsTrue result ↔ (served_as item.now.agent (served_if was_served served.now) ≡ Some (at_server server item.now)) }
{
    was_served && is_item(served, server, item)
}

/// Whether what was served is this item of a server, whoever asked.
fn is_item(served: &Served, server: usize, item: &Item) -> bool
    ensures { IsTrue result ↔ (item_by item.now.agent served.now ≡ at_server server item.now) }
{
    let here = usize::from(served.server) == server;
    let stamped = served.reply.stamp == item.stamp;
    let asked = served.request == item.request;
    let told = served.reply.value == item.reply;
    here & stamped & asked & told
}
