//! What the operator asks of servers.

ghost use Rattle.std.specs.Prelude.{◌≡◌};
ghost use Rattle.run_core.specs.Telling.{IsFittingIf};
ghost use Rattle.run_core.specs.code.Orders.{request_of};
ghost use Rattle.run_core.specs.code.Moves.{IsOperated};

use crate::done::Served;
use crate::host::Host;
use rep_core::{Request, Stamped};

/// What the operator asks of a server.
#[derive(Clone, Copy)]
pub(crate) enum Order {
    /// To crash.
    Crash,
    /// To restart.
    Return,
}

impl Order {
    /// The request, with the operator's stamp.
    fn request(self) -> Stamped<Request>
        ensures { result ≡ record { stamp = 0; value = request_of self } }
    {
        let value = match self {
            Order::Crash => Request::Crash,
            Order::Return => Request::Return,
        };
        Stamped { stamp: 0, value }
    }
}

/// The server of this number is asked: it tells whether it was served. What was asked, and the reply, are put into a
/// place of the caller's.
pub(crate) fn operate(servers: &mut Vec<Host>, server: u8, order: Order, asked: &mut Served) -> bool
    ensures ok { IsOperated servers.old.items servers.new.items server order asked.new result }
    ensures fits { IsFittingIf result asked.new }
{
    let Some(host) = servers.get_mut(usize::from(server)) else {
        return false;
    };
    asked.server = server;
    asked.request = order.request();
    let Ok(reply) = host.server.serve(&asked.request) else {
        return false;
    };
    asked.reply = reply;
    true
}
