//! The events of the operator.

ghost use Rattle.std.specs.Prelude.{◌≡◌, ◌≤◌, ◌∷◌, ◌⊎◌, [], MatchOption};
ghost use Rattle.run_certify.specs.Weaves.{operated};

use rep_core::Request;
use run_core::Event;

/// The event that an item of the operator's is of. There is none where it asked for something else than that the
/// server crashes or restarts, or where the server's number is above those that servers have.
pub(crate) fn operator_event(server: usize, request: &Request) -> Option<Event>
    ensures { MatchOption result ((256 ≤ server) ⊎ (operated server request.now ≡ [])) (λ event. operated server request.now ≡ event ∷ []) }
{
    let server = u8::try_from(server).ok()?;
    match request {
        Request::Crash => Some(Event::Crash { server }),
        Request::Return => Some(Event::Return { server }),
        _ => None,
    }
}
