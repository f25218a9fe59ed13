//! The newest prefix that servers showed.

ghost use Rattle.std.specs.Prelude.{◌≡◌, unwrap_or};
ghost use Rattle.suite_collect.specs.Telling as telling;

use crate::told::Said;
use suite_prefix::SharedPrefix;

/// The newest prefix.
pub(crate) fn newest_of<'a>(
    newer: &'a Option<SharedPrefix>,
    start: &'a SharedPrefix,
) -> &'a SharedPrefix
    ensures { result.now ≡ unwrap_or newer.now start.now }
{
    match newer {
        Some(prefix) => prefix,
        None => start,
    }
}

/// The newer of a prefix and one that a server shows.
pub(crate) fn newer_of<'a>(newest: &'a SharedPrefix, said: &'a Said) -> &'a SharedPrefix
    ensures { result.now ≡ telling.newer newest.now said.now }
{
    match said {
        Said::Held { prefix, .. } if prefix.pver > newest.pver => prefix,
        _ => newest,
    }
}

/// Keeps the prefix that a server showed, where it is newer than the newest so far.
#[inline(always)]
pub(crate) fn show(newer: &mut Option<SharedPrefix>, start: &SharedPrefix, said: Said)
    ensures { unwrap_or newer.new start.now ≡ telling.newer (unwrap_or newer.old start.now) said }
{
    let newest = newest_of(newer, start).pver;
    if let Said::Held { prefix, .. } = said {
        if prefix.pver > newest {
            *newer = Some(prefix);
        }
    }
}
