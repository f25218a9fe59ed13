//! Laws of what is read and written, which calls of this crate rest on.

ghost use Rattle.std.specs.Prelude.{◌≤◌};
ghost use Rattle.acl_core.specs.Tags.{qualifier};
ghost use Rattle.acl_text.specs.Laws.{AllNumbersFit, LongTextSpells, NumbersFit, ReadsAsWritten, ShortTextSpells, SpelledIsRead};
ghost use Rattle.acl_text.specs.Qualifiers.{max_id};

use acl_core::{Entry, Lists, Tag};

/// The long text of two lists spells these lists, whatever names are known.
pub fn long_text_spells_its_lists()
    ensures { LongTextSpells }
{}

/// The short text of two lists spells these lists, whatever names are known.
pub fn short_text_spells_its_lists()
    ensures { ShortTextSpells }
{}

/// What is spelled is read: a text that spells entries has no fault but that of the entries.
pub fn what_is_spelled_is_read()
    ensures { SpelledIsRead }
{}

/// An item reads as an entry of one of the two lists exactly when it is written as that: from its parts,
/// with white space round each, and not by the way in which it is cut.
pub fn items_read_as_written()
    ensures { ReadsAsWritten }
{}

/// The users and groups of two lists are numbers that users and groups can have. It does nothing.
pub(crate) fn all_numbers_fit(lists: &Lists)
    ensures { AllNumbersFit lists.now }
{
    numbers_fit(lists.access.entries());
    if let Some(default) = &lists.default {
        numbers_fit(default.entries());
    }
}

/// The users and groups of entries are numbers that users and groups can have. It does nothing.
fn numbers_fit(entries: &[Entry])
    ensures { NumbersFit entries.now }
{
    for entry in entries {
        number_fits(entry.tag);
    }
}

fn number_fits(tag: Tag)
    ensures { qualifier tag ≤ max_id }
{
    if let Tag::User(_number) | Tag::Group(_number) = tag {}
}
