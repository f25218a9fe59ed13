//! A server in a world.

use rep_core::Server;
use std::marker::Model;

/// A server in a world. Its room does not show.
#[derive(Drop)]
pub(crate) struct Host {
    pub(crate) server: Server,
}

impl Model for Host {
    ghost use Rattle.rep_core.specs.State.{State};

    ghost Value = { State };

    ghost view = { λ host. host.server.state };
}
