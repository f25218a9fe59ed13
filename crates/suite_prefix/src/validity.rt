//! Which prefixes and copies are valid. Neither test takes memory.

ghost use Rattle.std.specs.Prelude.{◌≡◌, ℕ, ◌<◌, ◌^◌, ◌↔◌, All, IsTrue, nat_le, length};
ghost use Rattle.suite_prefix.specs.TwoLists.{AreAcls, NumbersFit, closed_lists};
ghost use Rattle.acl_core.specs.Tags.{qualifier};
ghost use Rattle.suite_content.specs.Limits.{max_names, max_content};
ghost use Rattle.suite_content.specs.Names.{IsName};
ghost use Rattle.suite_content.specs.Contents.{kind_of, empty_content};
ghost use Rattle.suite_content.specs.Folders.{IsFolder};
ghost use Rattle.suite_prefix.specs.declared.copies.PrefixKind.TheVariants.{Folder};
ghost use Rattle.suite_prefix.specs.Copies.{IsPrefix, PrefixFits, IsNothing, IsCopy, IsOfSomeCopy, IsContent, IsFile, IsFolderContent, held_by};
ghost use Rattle.suite_prefix.specs.Forms.{Holds};
ghost use Rattle.suite_prefix.specs.SettingsRules.{IsAccepted, form_of_root};
ghost use Rattle.suite_prefix.specs.Tests as test;
ghost use Rattle.suite_prefix.specs.TestsExact.{ContentFits, CopyFits, TestsAreExact};

use crate::copies::{Prefix, PrefixKind, Replica};
use crate::settings::Settings;
use acl_core::{Entry, Lists, Tag};
use suite_content::{Content, Kind, MAX_CONTENT, MAX_NAMES, Name};

impl Prefix {
    /// Whether some valid copy has this prefix.
    pub fn is_valid(&self) -> bool
        ensures some_copy { IsTrue result ↔ IsOfSomeCopy self.now }
        ensures prefix { IsTrue result ↔ IsPrefix self.now }
        ensures test { result ≡ test.is_valid_prefix self.now }
    {
        self.fits();
        self.keeps_rules()
    }

    /// A law: what the types of a prefix's fields say of it. It does nothing.
    pub fn fits(&self)
        ensures { PrefixFits self.now }
    {
        fits_eight(self.pver);
        fits_four(self.owner);
        fits_four(self.group);
        let _thresholds = (self.votes.r(), self.votes.w());
        let _reps = self.votes.reps();
        lists_fit(&self.acl);
    }

    fn keeps_rules(&self) -> bool
        requires { PrefixFits self.now }
        ensures prefix { IsTrue result ↔ IsPrefix self.now }
        ensures test { result ≡ test.is_valid_prefix self.now }
    {
        match self.kind {
            PrefixKind::Absent => self.pver == 0 && is_nothing(self),
            PrefixKind::File => self.pver > 0 && self.acl.default.is_none(),
            PrefixKind::Folder => self.pver > 0,
        }
    }
}

/// A law: the tests are true of valid prefixes and copies, and of nothing else whose parts fit their
/// types, as [`Prefix::fits`] and [`Replica::fits`] say of each that a program holds. It does nothing.
pub fn tests_are_exact()
    ensures { TestsAreExact }
{}

impl Settings {
    /// A law: settings are accepted ones, the root's prefix, which is made of them, fits its types, and
    /// each server's form can hold it. It does nothing.
    pub fn fits(&self)
        ensures accepted { IsAccepted self.now }
        ensures held { (server : ℕ) → Holds (form_of_root self.now server) self.now.root_acl self.now.c0 }
        ensures root { PrefixFits (record {
          pver = 1;
          kind = Folder;
          owner = self.now.root_owner;
          group = self.now.root_group;
          acl = self.now.root_acl;
          votes = self.now.c0;
        }) }
    {
        let _servers = self.servers();
        fits_four(self.root_owner());
        fits_four(self.root_group());
        let votes = self.c0();
        let _thresholds = (votes.r(), votes.w());
        let _reps = votes.reps();
        lists_fit(self.root_acl());
    }
}

/// Whether a prefix is nobody's and grants nothing.
fn is_nothing(prefix: &Prefix) -> bool
    ensures nothing { IsTrue result ↔ IsNothing prefix.now }
    ensures test { result ≡ test.is_nothing prefix.now }
{
    prefix.owner == 0 && prefix.group == 0 && is_closed(&prefix.acl)
}

/// A law: a number fits eight bytes. It does nothing.
fn fits_eight(number: u64)
    ensures { number < 2 ^ 64 }
{}

/// A law: a number fits four bytes. It does nothing.
fn fits_four(number: u32)
    ensures { number < 2 ^ 32 }
{}

/// A law: what the types of lists say of them. It does nothing.
fn lists_fit(lists: &Lists)
    ensures acls { AreAcls lists.now }
    ensures numbers { NumbersFit lists.now }
{
    qualifiers_fit(lists.access.entries());
    if let Some(default) = &lists.default {
        qualifiers_fit(default.entries());
    }
}

/// A law: the users and groups of entries fit four bytes. It does nothing.
fn qualifiers_fit(entries: &[Entry])
    ensures { All (λ entry. qualifier entry.tag < 2 ^ 32) entries.now }
{
    for entry in entries {
        qualifier_fits(entry.tag);
    }
}

fn qualifier_fits(tag: Tag)
    ensures { qualifier tag < 2 ^ 32 }
{
    if let Tag::User(_number) | Tag::Group(_number) = tag {}
}

/// Whether a list is that of mode 000, without a default list.
fn is_closed(acl: &Lists) -> bool
    ensures closed { IsTrue result ↔ (acl.now ≡ closed_lists) }
    ensures test { result ≡ test.is_closed acl.now }
{
    let nothing = [
        Entry::from_digit(Tag::UserObj, 0),
        Entry::from_digit(Tag::GroupObj, 0),
        Entry::from_digit(Tag::Other, 0),
    ];
    acl.access.entries() == nothing.as_slice() && acl.default.is_none()
}

impl Replica {
    /// A law: what the types of a copy's fields say of it. It does nothing.
    pub fn fits(&self)
        ensures { CopyFits self.now }
    {
        self.prefix.fits();
        fits_eight(self.dver);
        content_fits(&self.content);
    }

    /// Whether this is a valid copy.
    pub fn is_valid(&self) -> bool
        ensures copy { IsTrue result ↔ IsCopy self.now }
        ensures test { result ≡ test.is_valid_copy self.now }
    {
        let kinds_agree = holds(self.prefix.kind, &self.content);
        let made = self.dver > 0;
        let version_agrees = if made {
            self.prefix.kind != PrefixKind::Absent
        } else {
            is_empty(&self.content)
        };
        self.prefix.is_valid() && kinds_agree && version_agrees && is_within_limits(&self.content)
    }
}

/// Whether what has a prefix of this kind holds such a content.
fn holds(kind: PrefixKind, content: &Content) -> bool
    ensures kind { IsTrue result ↔ (kind_of content.now ≡ held_by kind) }
    ensures test { result ≡ test.holds kind content.now }
{
    match kind {
        PrefixKind::Absent | PrefixKind::File => content.kind() == Kind::File,
        PrefixKind::Folder => content.kind() == Kind::Folder,
    }
}

/// Whether a content is empty.
fn is_empty(content: &Content) -> bool
    ensures empty { IsTrue result ↔ (content.now ≡ empty_content (kind_of content.now)) }
    ensures test { result ≡ test.is_empty content.now }
{
    match content {
        Content::Bytes(bytes) => bytes.is_empty(),
        Content::Names(names) => names.is_empty(),
    }
}

/// Whether a content is within its limits.
fn is_within_limits(content: &Content) -> bool
    ensures content { IsTrue result ↔ IsContent content.now }
    ensures test { result ≡ test.is_within_limits content.now }
{
    match content {
        Content::Bytes(bytes) => is_file(bytes.as_slice()),
        Content::Names(names) => is_folder(names.as_slice()),
    }
}

/// Whether a file may hold these bytes.
fn is_file(bytes: &[u8]) -> bool
    ensures file { IsTrue result ↔ IsFile bytes.now }
    ensures test { result ≡ nat_le (length bytes.now) max_content }
{
    bytes.len() <= MAX_CONTENT
}

/// Whether a folder may hold these names.
fn is_folder(names: &[(Name, u64)]) -> bool
    requires { IsFolder names.now }
    ensures folder { IsTrue result ↔ IsFolderContent names.now }
    ensures test { result ≡ nat_le (length names.now) max_names }
{
    names_fit(names);
    names.len() <= MAX_NAMES
}

/// A law: what the type of a content says of it. It does nothing.
fn content_fits(content: &Content)
    ensures { ContentFits content.now }
{
    match content {
        Content::Bytes(bytes) => bytes_fit(bytes.as_slice()),
        Content::Names(names) => names_fit(names.as_slice()),
    }
}

/// A law: a file's bytes are bytes. It does nothing.
fn bytes_fit(bytes: &[u8])
    ensures { All (λ byte. byte < 256) bytes.now }
{}

/// A law: what a folder has are names, and their numbers fit eight bytes. It does nothing.
fn names_fit(names: &[(Name, u64)])
    ensures are_names { All (λ entry. IsName entry.0) names.now }
    ensures suites_fit { All (λ entry. entry.1 < 2 ^ 64) names.now }
{
    for (name, suite) in names {
        let _bytes = name.as_bytes();
        fits_eight(*suite);
    }
}
