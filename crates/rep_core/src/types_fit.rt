//! Settings and requests fit their types, as the law of valid copies asks. What says so does nothing.

ghost use Rattle.std.specs.Prelude.{All};
ghost use Rattle.rep_core.specs.ValidCopies.{OpeningFits, RequestFits, TakeFits};

use crate::request::{Part, Request, Take};
use suite_prefix::Settings;

/// A law: settings are accepted ones, and what the root's prefix is made of fits its types. It does
/// nothing.
pub fn settings_fit(settings: &Settings)
    ensures { OpeningFits settings.now }
{
    settings.fits();
}

impl Request {
    /// A law: what a Prepare takes fits its types. It does nothing.
    pub fn takes_fit(&self)
        ensures { RequestFits self.now }
    {
        if let Request::Prepare { parts, .. } = self {
            takes_fit(parts.as_slice());
        }
    }
}

fn takes_fit(parts: &[Part])
    ensures { All (λ part. TakeFits part.take) parts.now }
{
    for part in parts {
        take_fits(&part.take);
    }
}

fn take_fits(what: &Take)
    ensures { TakeFits what.now }
{
    match what {
        Take::Keep => {}
        Take::Prefix(prefix) => prefix.fits(),
        Take::Whole(replica) => replica.fits(),
    }
}
