//! What is known of the suites that a transaction holds.

ghost use Rattle.std.specs.Prelude.{◌≡◌, IfSome, option_map};
ghost use Rattle.std.specs.Option.{option_copied};
ghost use Rattle.file_exec.specs.code.Overlay.{seen_row, is_whole};

use crate::seen::{Seen, SeenContent};
use file_ops::Service;
use sorted_map::RoomyMap;
use std::marker::Model;
use suite_content::{Content, Kind};
use suite_prefix::{LockMode, Prefix, PrefixKind};

/// What is known of a suite that is held: in which mode, its prefix, and its content, once that is known
/// too. Nothing is copied. What was never made has no row.
#[derive(Drop)]
pub struct KnownSuite<'a> {
    mode: LockMode,
    prefix: &'a Prefix,
    content: Option<&'a Content>,
}

impl<'a> Model for KnownSuite<'a> {
    ghost use Rattle.file_exec.specs.KnownSuites.{KnownSuite};
    ghost use Rattle.file_exec.specs.code.KnownFields.{known_suite};

    ghost Value = { KnownSuite };

    ghost view = { known_suite };
}

impl<'a> KnownSuite<'a> {
    ghost use Rattle.suite_prefix.specs.LockModes.{serves};
    ghost use Rattle.file_exec.specs.Known.{opened};
    ghost use Rattle.file_exec.specs.code.KnownFields.{known_so};
    ghost use Rattle.file_exec.specs.Reaching.{takes};
    ghost use Rattle.std.specs.Prelude.{Some};

    /// What is known of a suite that is held in a mode: its prefix, and its content, where that is known.
    pub fn new(mode: LockMode, prefix: &'a Prefix, content: Option<&'a Content>) -> KnownSuite<'a>
        ensures { result ≡ known_so mode prefix.now (option_copied content.entry) }
    {
        KnownSuite {
            mode,
            prefix,
            content,
        }
    }

    /// Its content is known from now on.
    fn open(&mut self, content: &'a Content)
        ensures { self.new ≡ opened self.old content.now }
    {
        self.content = Some(content);
    }

    /// Whether it is held in this mode or a stronger one.
    pub fn serves(&self, mode: LockMode) -> bool
        ensures { result ≡ serves self.now.mode mode }
    {
        self.mode.serves(mode)
    }

    /// Whether its content is known.
    pub fn is_opened(&self) -> bool
        ensures { result ≡ self.now.opened }
    {
        self.content.is_some()
    }

    /// Whether its content is not known, and this one is of its row's kind. To open it with such a content tells
    /// more, and changes nothing of what was known.
    pub fn takes(&self, content: &Content) -> bool
        ensures { result ≡ takes (Some self.now) content.now }
    {
        if self.is_opened() {
            return false;
        }
        match self.prefix.kind {
            PrefixKind::Absent => true,
            PrefixKind::File => matches!(content, Content::Bytes(_)),
            PrefixKind::Folder => matches!(content, Content::Names(_)),
        }
    }

    /// Its row, if it has one.
    pub(crate) fn seen(&self) -> Option<Seen<'_>>
        ensures row { option_map seen_row result ≡ self.now.row }
        ensures whole { IfSome result (λ seen. is_whole seen.content ≡ self.now.opened) }
    {
        let kind = match self.prefix.kind {
            PrefixKind::Absent => return None,
            PrefixKind::File => Kind::File,
            PrefixKind::Folder => Kind::Folder,
        };
        let content = match self.content {
            Some(content) => SeenContent::Whole(content),
            None => SeenContent::OfKind(kind),
        };
        Some(Seen {
            owner: self.prefix.owner,
            group: self.prefix.group,
            acl: &self.prefix.acl,
            votes: &self.prefix.votes,
            content,
        })
    }
}

/// What is known of a service: how many servers there are, C0, and the suites that are held. It refers to
/// prefixes and contents where they are.
#[derive(Drop)]
pub struct Known<'a> {
    service: &'a Service,
    suites: RoomyMap<u64, KnownSuite<'a>>,
}

impl<'a> Model for Known<'a> {
    ghost use Rattle.file_exec.specs.Known.{Knowledge};

    ghost Value = { Knowledge };

    ghost view = { λ known. record { service = known.service.now; suites = known.suites.pairs } };
}

impl<'a> Known<'a> {
    ghost use Rattle.file_exec.specs.Known.{known_of, opened_suite, is_held, known_rows};
    ghost use Rattle.file_exec.specs.Reaching.{takes};

    /// What is known of these suites.
    pub fn of(service: &'a Service, suites: RoomyMap<u64, KnownSuite<'a>>) -> Known<'a>
        ensures { result ≡ record { service = service.now; suites = suites.entry.pairs } }
    {
        Known { service, suites }
    }

    /// The content of a suite that is held is known from now on.
    pub fn open(&mut self, suite: u64, content: &'a Content)
        ensures service { self.new.service ≡ self.old.service }
        ensures suites { self.new.suites ≡ opened_suite self.old.suites suite content.now }
    {
        if let Some(held) = self.suites.get_mut(&suite) {
            held.open(content);
        }
    }

    /// Whether a suite is held whose content is not known, and a content is of its row's kind.
    pub fn takes(&self, suite: u64, content: &Content) -> bool
        ensures { result ≡ takes (known_of self.now.suites suite) content.now }
    {
        match self.get(suite) {
            Some(held) => held.takes(content),
            None => false,
        }
    }

    /// What is known of a suite, where it is held.
    pub fn get(&self, suite: u64) -> Option<&KnownSuite<'a>>
        ensures { option_copied result ≡ known_of self.now.suites suite }
    {
        self.suites.get(&suite)
    }

    /// Whether a suite is held in this mode or a stronger one.
    pub fn holds(&self, suite: u64, mode: LockMode) -> bool
        ensures { result ≡ is_held mode (known_of self.now.suites suite) }
    {
        match self.get(suite) {
            Some(held) => held.serves(mode),
            None => false,
        }
    }

    /// The row of a suite, where it is held and has one.
    pub(crate) fn row(&self, suite: u64) -> Option<Seen<'_>>
        ensures { option_map seen_row result ≡ known_rows self.now.suites suite }
    {
        self.get(suite)?.seen()
    }

    /// The suites that are held, which rise.
    pub fn suites(&self) -> &[(u64, KnownSuite<'a>)]
        ensures { result.now ≡ self.now.suites }
    {
        self.suites.as_slice()
    }

    /// How many servers there are, and C0.
    pub fn service(&self) -> &'a Service
        ensures { result.now ≡ self.now.service }
    {
        self.service
    }
}
