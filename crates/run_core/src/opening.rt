//! The servers and the agents of a service, as it opens.

ghost use Rattle.std.specs.Prelude.{◌≡◌, IfOk};
ghost use Rattle.run_core.specs.code.Seats.{seats_from};
ghost use Rattle.run_core.specs.Worlds.{servers_from};

use crate::host::Host;
use crate::seat::WorldAgent;
use rep_core::Server;
use std::alloc::{AllocError, Global};
use suite_prefix::Settings;

/// All servers, numbered from 0.
pub(crate) fn servers_of(alloc: Global, settings: &Settings) -> Result<Vec<Host>, AllocError>
    ensures { IfOk result (λ servers. servers.items ≡ servers_from settings.now 0 settings.now.servers) }
{
    let count = settings.servers() as u8;
    let mut servers = Vec::new(alloc);
    for index in 0..count {
        let server = Server::opening(alloc, index, settings)?;
        servers.push(Host { server })?;
    }
    Ok(servers)
}

/// All agents, numbered from 0.
pub(crate) fn seats_of(alloc: Global, settings: &Settings) -> Result<Vec<WorldAgent>, AllocError>
    ensures { IfOk result (λ seats. seats.items ≡ seats_from settings.now 0 settings.now.agents) }
{
    let count = settings.agents() as u8;
    let mut seats = Vec::new(alloc);
    for index in 0..count {
        let seat = WorldAgent::new(alloc, index, settings)?;
        seats.push(seat)?;
    }
    Ok(seats)
}
