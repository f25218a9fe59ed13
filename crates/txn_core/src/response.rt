//! What an agent is told.

ghost use Rattle.std.specs.Prelude.{◌≡◌};
ghost use Rattle.txn_core.specs.Standing.{response_of};

use rep_core::{Lack, Reply};

/// What comes of a request: a server's reply, or why the server did not serve it.
#[derive(Drop)]
pub enum Response {
    /// The server's reply.
    Replied(Reply),
    /// The server did not serve it, and nothing was changed there.
    Lacked(Lack),
}

impl Response {
    /// What an agent takes of it.
    pub fn as_result(&self) -> Result<&Reply, Lack>
        ensures { response_of result ≡ self.now }
    {
        match self {
            Response::Replied(reply) => Ok(reply),
            Response::Lacked(lack) => Err(*lack),
        }
    }
}
