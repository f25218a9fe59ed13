//! The desk of a session of which no line was read.

ghost use Rattle.std.specs.Prelude.{◌≡◌};
ghost use Rattle.suite_script.specs.Scripts.{no_names};
ghost use Rattle.suite_session.specs.Services.{at_first};

use crate::heading::Heading;
use crate::play_service::PlayService;
use acl_text::Names;
use script_desk::ScriptDesk;
use std::alloc::Global;

/// The desk of a session of which no line was read.
pub fn first_desk(alloc: Global) -> ScriptDesk<PlayService>
    ensures { result ≡ record { names = no_names; service = at_first } }
{
    ScriptDesk {
        names: Names::new(alloc),
        service: PlayService::Heading(Heading::Start),
    }
}
