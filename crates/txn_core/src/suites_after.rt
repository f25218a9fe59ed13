//! The suites of a transaction, as they are once something more is known.

ghost use Rattle.std.specs.Prelude.{◌≡◌, length, is_some};
ghost use Rattle.std.specs.Option.{option_copied};
ghost use Rattle.txn_core.specs.code.Seeing.{first_at, known_of_view, seen_in, suite_view_of, view_of_suite, told_of};
ghost use Rattle.txn_core.specs.Suites.{suite_of};

use crate::learned::Learned;
use crate::suites::GatheredSuite;
use file_exec::KnownSuite;
use sorted_map::RoomyMap;
use suite_collect::ReadPoint;
use suite_content::Content;
use suite_prefix::LockMode;

/// The suites of a transaction as they will be, once what was learned is set.
#[derive(Clone, Copy)]
pub(crate) struct SuitesAfter<'a> {
    pub(crate) suites: &'a RoomyMap<u64, GatheredSuite>,
    pub(crate) just_learned: &'a Learned,
}

/// What is known of a suite: what its first quorum gave, in which mode it had a quorum last, and its
/// content.
#[derive(Clone, Copy)]
pub(crate) struct SuiteView<'a> {
    pub(crate) first: Option<&'a ReadPoint>,
    pub(crate) mode: LockMode,
    pub(crate) content: Option<&'a Content>,
}

impl<'a> SuiteView<'a> {
    /// What an execution knows of the suite: nothing before its first quorum. It refers to what the suite has.
    pub(crate) fn known(self) -> Option<KnownSuite<'a>>
        ensures { result ≡ known_of_view (suite_view_of self.entry) }
    {
        let first = self.first?;
        Some(KnownSuite::new(self.mode, &first.prefix, self.content))
    }
}

impl<'a> SuitesAfter<'a> {
    /// How many suites there are.
    pub(crate) fn len(self) -> usize
        ensures { result ≡ length (seen_in self.entry) }
    {
        self.suites.len()
    }

    /// Whether a suite was asked for.
    pub(crate) fn contains(self, number: u64) -> bool
        ensures { result ≡ is_some (suite_of (seen_in self.entry) number) }
    {
        self.suites.contains_key(&number)
    }

    /// What the first quorum of a suite gave.
    pub(crate) fn first(self, number: u64) -> Option<&'a ReadPoint>
        ensures { option_copied result ≡ first_at (suite_of (seen_in self.entry) number) }
    {
        let suite = self.suites.get(&number)?;
        self.at(number, suite).first
    }

    /// What is known of the suite of a number.
    pub(crate) fn at(self, number: u64, suite: &'a GatheredSuite) -> SuiteView<'a>
        ensures { suite_view_of result ≡ view_of_suite (told_of self.entry.just_learned.now number suite.now) }
    {
        match self.just_learned {
            Learned::Quorum(place, pending) if *place == number => suite.view_settled(pending),
            Learned::Content(fetched) if fetched.suite == number => SuiteView {
                content: Some(&fetched.content),
                ..suite.suite_view()
            },
            _ => suite.suite_view(),
        }
    }
}
