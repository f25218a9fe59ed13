//! What holds of every collector.

ghost use Rattle.suite_collect.specs.Laws.{AsksAreFew, CurrentHasASource, CurrentIsAQuorum, NobodyIsAskedTwice, PrefixAndVersionStay, ShortHasNoneLeft, WidenedIsAWriteQuorum};

/// A law: before a widening, a Current is a quorum under the very prefix that it gives, the newest that
/// was shown or the start, with the greatest version of the content that the quorum's members showed. Each
/// member has a vote. It does nothing.
pub fn current_is_a_quorum()
    ensures { CurrentIsAQuorum }
{}

/// A law: before a widening, some member of a Current showed the version of the content, so that there is a
/// source of it. It does nothing.
pub fn current_has_a_source()
    ensures { CurrentHasASource }
{}

/// A law: after a widening, a Current is a write quorum of the votes that were given, held exclusively.
/// It does nothing.
pub fn widened_is_a_write_quorum()
    ensures { WidenedIsAWriteQuorum }
{}

/// A law: from a widening on, the newest prefix, the content's version and its first source stay, whatever
/// is told, raised or widened later. It does nothing.
pub fn prefix_and_version_stay()
    ensures { PrefixAndVersionStay }
{}

/// A law: a Short has too few votes and nobody left to ask, and its Busy was met. It does nothing.
pub fn short_has_none_left()
    ensures { ShortHasNoneLeft }
{}

/// A law: no server is asked twice in one mode. It does nothing.
pub fn nobody_is_asked_twice()
    ensures { NobodyIsAskedTwice }
{}

/// A law: a collector asks at most twice as often as there are servers that it asks. It does nothing.
pub fn asks_are_few()
    ensures { AsksAreFew }
{}
