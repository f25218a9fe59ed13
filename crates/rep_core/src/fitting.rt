//! Which replies fit a request.

ghost use Rattle.std.specs.Prelude.{◌≡◌, ◌||◌};
ghost use Rattle.rep_core.specs.Fits as fitting;

use crate::reply::Reply;
use crate::request::Request;
use crate::takes::is_used_up;

impl Request {
    /// Whether a reply is of a form that this request may be answered, with versions that are not used
    /// up. So is each reply of a server.
    pub fn fits(&self, reply: &Reply) -> bool
        ensures { result ≡ fitting.fits self.now reply.now }
    {
        match self {
            Request::Poll { .. } | Request::Upgrade { .. } => fits_locking(reply),
            Request::Fetch { .. } => is_given(reply) || is_lost(reply) || is_down(reply),
            Request::Prepare { .. } => is_prepared(reply) || is_lost(reply) || is_down(reply),
            Request::Decide { .. } | Request::Resolve { .. } => is_verdict(reply) || is_down(reply),
            Request::Finish { .. } | Request::Break { .. } | Request::Crash => {
                is_done(reply) || is_down(reply)
            }
            Request::Locks => is_locked(reply) || is_down(reply),
            Request::Return => is_done(reply),
        }
    }
}

fn fits_locking(reply: &Reply) -> bool
    ensures { result ≡ (fitting.is_held reply.now || fitting.is_busy reply.now || fitting.is_lost reply.now || fitting.is_down reply.now) }
{
    is_held(reply) || is_busy(reply) || is_lost(reply) || is_down(reply)
}

fn is_held(reply: &Reply) -> bool
    ensures { result ≡ fitting.is_held reply.now }
{
    match reply {
        Reply::Held { prefix, dver } => !is_used_up(prefix.pver) && !is_used_up(*dver),
        _ => false,
    }
}

fn is_busy(reply: &Reply) -> bool
    ensures { result ≡ fitting.is_busy reply.now }
{
    matches!(reply, Reply::Busy { .. })
}

fn is_lost(reply: &Reply) -> bool
    ensures { result ≡ fitting.is_lost reply.now }
{
    matches!(reply, Reply::Lost)
}

fn is_given(reply: &Reply) -> bool
    ensures { result ≡ fitting.is_given reply.now }
{
    match reply {
        Reply::Given { dver, .. } => !is_used_up(*dver),
        _ => false,
    }
}

fn is_prepared(reply: &Reply) -> bool
    ensures { result ≡ fitting.is_prepared reply.now }
{
    matches!(reply, Reply::Prepared)
}

fn is_verdict(reply: &Reply) -> bool
    ensures { result ≡ fitting.is_verdict reply.now }
{
    matches!(reply, Reply::Verdict(_))
}

fn is_done(reply: &Reply) -> bool
    ensures { result ≡ fitting.is_done reply.now }
{
    matches!(reply, Reply::Done)
}

fn is_locked(reply: &Reply) -> bool
    ensures { result ≡ fitting.is_locked reply.now }
{
    matches!(reply, Reply::Locked(_))
}

fn is_down(reply: &Reply) -> bool
    ensures { result ≡ fitting.is_down reply.now }
{
    matches!(reply, Reply::Down)
}
