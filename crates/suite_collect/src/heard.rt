//! What was told, as far as a collector looks at it.

ghost use Rattle.std.specs.Prelude.{◌≡◌, ℕ, ◌<◌, ◌==◌, find, true, false, None, [], ◌∷◌};
ghost use Rattle.std.specs.FinSet.{contains};
ghost use Rattle.suite_collect.specs.Telling as telling;

use crate::log::Log;
use crate::told::{Said, Told};
use std::marker::Model;
use suite_prefix::LockMode;
use vote_core::{MAX_SERVERS, ServerSet};

/// A list of what was told, the newest first. It keeps what the list comes to: which servers hold a
/// lock, which hold an exclusive one, which were found down or busy, the version that each showed last,
/// and who was first found busy.
#[derive(Drop)]
pub(crate) struct Heard {
    held: ServerSet,
    exclusive: ServerSet,
    refused: ServerSet,
    shown: [u64; MAX_SERVERS],
    busy: Option<(u8, u64)>,
    told: Log<Told>,
}

impl Model for Heard {
    ghost use Rattle.std.specs.Prelude.{List};
    ghost use Rattle.suite_collect.specs.declared.told.Told.{Told};

    ghost Value = { List Told };

    ghost use Rattle.suite_collect.specs.code.HeardFields.{told_in, Summarizes};

    ghost view = { told_in };

    ghost invariant = { Summarizes };
}

impl Heard {
    /// Nothing yet.
    pub(crate) fn new() -> Heard
        ensures { result ≡ [] }
    {
        Heard {
            held: ServerSet::empty(),
            exclusive: ServerSet::empty(),
            refused: ServerSet::empty(),
            shown: [0; MAX_SERVERS],
            busy: None,
            told: Log::new(),
        }
    }

    /// A copy of the list.
    pub(crate) fn same(&self) -> Heard
        ensures { result ≡ self.now }
    {
        Heard {
            held: self.held,
            exclusive: self.exclusive,
            refused: self.refused,
            shown: self.shown,
            busy: self.busy,
            told: self.told.same(),
        }
    }

    /// Adds what is told last.
    pub(crate) fn add(&mut self, last: &Told)
        requires { last.now.server < MAX_SERVERS }
        ensures { self.new ≡ last.now ∷ self.old }
    {
        match &last.said {
            Said::Held { dver, .. } => self.add_lock(last, *dver),
            Said::Busy { holder } => self.add_refusal(last, Some((last.server, *holder))),
            Said::Down => self.add_refusal(last, None),
        }
    }

    /// Adds that a server is down, or busy with another transaction.
    fn add_refusal(&mut self, last: &Told, busy: Option<(u8, u64)>)
        requires server { last.now.server < MAX_SERVERS }
        requires refused { telling.is_held last.now.said ≡ false }
        requires busy { busy ≡ telling.busy_in last.now.server last.now.said None }
        ensures { self.new ≡ last.now ∷ self.old }
    {
        self.refused.insert(last.server);
        self.busy = self.busy.or(busy);
        self.told = self.told.and(last);
    }

    /// Adds a lock that a server holds, which shows this version of the content.
    fn add_lock(&mut self, last: &Told, dver: u64)
        requires server { last.now.server < MAX_SERVERS }
        requires held { telling.is_held last.now.said ≡ true }
        requires version { (before : ℕ) → telling.version_in last.now.said before ≡ dver }
        ensures { self.new ≡ last.now ∷ self.old }
    {
        self.held.insert(last.server);
        if last.mode.is_exclusive() {
            self.exclusive.insert(last.server);
        }
        self.shown[usize::from(last.server)] = dver;
        self.told = self.told.and(last);
    }

    /// The servers that hold a lock in a mode or a stronger one.
    pub(crate) fn holders(&self, mode: LockMode) -> ServerSet
        ensures { (server : ℕ) → contains result server ≡ telling.holds mode self.now server }
    {
        match mode {
            LockMode::Shared => self.held,
            LockMode::Exclusive => self.exclusive,
        }
    }

    /// Whether a server holds a lock in a mode or a stronger one.
    pub(crate) fn holds(&self, mode: LockMode, server: u8) -> bool
        ensures { result ≡ telling.holds mode self.now server }
    {
        self.holders(mode).contains(server)
    }

    /// The servers that were found down or busy.
    pub(crate) fn refused(&self) -> ServerSet
        ensures { (server : ℕ) → contains result server ≡ telling.has_refused self.now server }
    {
        self.refused
    }

    /// The version of the content that a server showed last.
    pub(crate) fn shown(&self, server: u8) -> u64
        ensures { result ≡ telling.shown self.now server }
    {
        self.shown.get(usize::from(server)).copied().unwrap_or(0)
    }

    /// The greatest version of the content that some servers showed.
    pub(crate) fn greatest(&self, servers: &[u8]) -> u64
        ensures { result ≡ telling.greatest self.now servers.now }
    {
        let mut greatest = 0;
        for server in servers {
            greatest = self.shown(*server).max(greatest);
        }
        greatest
    }

    /// The first of some servers that showed a version of the content.
    pub(crate) fn first_showing(&self, version: u64, servers: &[u8]) -> Option<u8>
        ensures { result ≡ find (λ server. telling.shown self.now server == version) servers.now }
    {
        let shows = |server: &u8| self.shown(*server) == version;
        servers.iter().copied().find(shows)
    }

    /// The first server found busy, with the transaction in its way.
    pub(crate) fn first_busy(&self) -> Option<(u8, u64)>
        ensures { result ≡ telling.first_busy self.now }
    {
        self.busy
    }
}
