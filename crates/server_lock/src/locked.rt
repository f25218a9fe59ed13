//! What stands under a server's lock.

ghost use Rattle.std.specs.Prelude.{◌≡◌, ◌↔◌, ℕ, ◌<◌, ◌≤◌, [], length, IfOk, OnOk, OnErr, IsTrue, Err, Some};
ghost use Rattle.rep_core.specs.declared.stamped.Lack.TheVariants.{Full};
ghost use Rattle.rep_core.specs.Fits.{fits};
ghost use Rattle.server_lock.specs.declared.miss.Miss.TheVariants.{Lack as Lacked, Stale};
ghost use Rattle.server_lock.specs.Histories.{IsLegal, given_to, item_of, max_items};
ghost use Rattle.server_lock.specs.Kept.{end_of, is_spent, opened, with_item};
ghost use Rattle.server_lock.specs.Told.{IsGiven};

use crate::answer::ServerAnswer;
use crate::history::History;
use crate::item::Item;
use crate::miss::Miss;
use rep_core::{Lack, Reply, Request, Server, Stamped};
use std::alloc::{AllocError, Global};
use std::marker::Model;
use std::snapshot::Snapshot;
use suite_prefix::Settings;

/// The most items of a server's history.
pub const MAX_ITEMS: usize = 1_000_000;

/// A server with its number, the settings that it was opened with, and its history. The history is legal,
/// and the server is as it is at the end of it.
#[derive(Drop)]
pub struct Locked {
    number: u8,
    settings: Settings,
    server: Server,
    items: Vec<Item>,
}

impl Model for Locked {
    ghost use Rattle.server_lock.specs.Kept.{Kept, IsKept};

    ghost Value = { Kept };

    ghost use Rattle.std.specs.Coded.{codes};
    ghost use Rattle.suite_prefix.specs.code.ServersCode.{servers_code};

    ghost coded = { Prim.hlevel (codes, servers_code) };

    ghost view = { λ locked. record { number = locked.number; given = locked.settings; history = locked.items.items } };

    ghost invariant = { λ locked. IsKept locked.number locked.settings locked.items.items locked.server.state };
}

impl Locked {
    /// The server of this number as a service opens, with an empty history.
    pub fn opening(alloc: Global, number: u8, settings: &Settings) -> Result<Locked, AllocError>
        ensures { IfOk result (λ locked. locked ≡ opened settings.now number) }
    {
        let server = Server::opening(alloc, number, settings)?;
        let settings = settings.clone()?;
        Ok(Locked {
            number,
            settings,
            server,
            items: Vec::new(alloc),
        })
    }

    /// Its number.
    pub fn number(&self) -> u8
        ensures { result ≡ self.now.number }
    {
        self.number
    }

    /// What it served.
    pub(crate) fn items(&self) -> &[Item]
        ensures { result.now ≡ self.now.history }
    {
        &self.items
    }

    /// A law: the history is legal, and has at most [`MAX_ITEMS`] items. It does nothing.
    pub fn is_legal(&self)
        ensures legal { IsLegal self.now.number self.now.given self.now.history }
        ensures few { length self.now.history ≤ max_items }
    {
        let _number = self.number;
    }

    /// Serves a request of an agent, or of the operator, who has seen so much of the history. Where the
    /// history is shorter, that is answered before all else. Where there is no reply nothing has changed.
    pub fn serve(
        &mut self,
        agent: Option<u8>,
        front: usize,
        request: Stamped<Request>,
    ) -> ServerAnswer
        ensures server { result.server ≡ self.old.number }
        ensures before { result.before ≡ length self.old.history }
        ensures lay { result.lay ≡ self.old }
        ensures request { result.request ≡ request }
        ensures stale { (result.reply ≡ Err (Stale (length self.old.history))) ↔ (length self.old.history < front) }
        ensures full { (result.reply ≡ Err (Lacked Full)) ↔ ((front ≤ length self.old.history) × IsTrue (is_spent self.old request)) }
        ensures reply { IfOk result.reply (λ reply. given_to (end_of self.old) request ≡ Some reply) }
        ensures fits { IfOk result.reply (λ reply. IsTrue (fits request.value reply.value)) }
        ensures kept { IfOk result.reply (λ reply. self.new ≡ with_item (item_of agent request reply) self.old) }
        ensures same { OnErr result.reply (self.new ≡ self.old) }
    {
        self.settings.fits();
        let server = self.number;
        let before = self.items.len();
        let lay = Snapshot::of(&*self);
        let reply = self.reply_to(agent, front, &request);
        ServerAnswer {
            server,
            before,
            request,
            lay,
            reply,
        }
    }

    /// The reply to a request of an asker who has seen so much of the history, or why there is none.
    fn reply_to(
        &mut self,
        agent: Option<u8>,
        front: usize,
        request: &Stamped<Request>,
    ) -> Result<Stamped<Reply>, Miss>
        ensures stale { (result ≡ Err (Stale (length self.old.history))) ↔ (length self.old.history < front) }
        ensures long { (long : ℕ) → result ≡ Err (Stale long) → long ≡ length self.old.history }
        ensures full { (result ≡ Err (Lacked Full)) ↔ ((front ≤ length self.old.history) × IsTrue (is_spent self.old request.now)) }
        ensures seen { OnOk result (front ≤ length self.old.history) }
        ensures given { IfOk result (IsGiven self.old request.now) }
        ensures kept { IfOk result (λ reply. self.new ≡ with_item (item_of agent request.now reply) self.old) }
        ensures same { OnErr result (self.new ≡ self.old) }
    {
        let long = self.items.len();
        if long < front {
            return Err(Miss::Stale(long));
        }
        match self.keep(agent, request) {
            Ok(reply) => Ok(reply),
            Err(lack) => Err(Miss::Lack(lack)),
        }
    }

    /// Serves a request, and keeps what was served. That the server is full is told however little memory
    /// there is.
    fn keep(
        &mut self,
        agent: Option<u8>,
        request: &Stamped<Request>,
    ) -> Result<Stamped<Reply>, Lack>
        ensures room { OnOk result (length self.old.history < max_items) }
        ensures reply { IfOk result (λ reply. given_to (end_of self.old) request.now ≡ Some reply) }
        ensures fits { IfOk result (λ reply. IsTrue (fits request.now.value reply.value)) }
        ensures kept { IfOk result (λ reply. self.new ≡ with_item (item_of agent request.now reply) self.old) }
        ensures full { (result ≡ Err Full) ↔ IsTrue (is_spent self.old request.now) }
        ensures err { OnErr result (self.new ≡ self.old) }
    {
        if self.items.len() >= MAX_ITEMS {
            return Err(Lack::Full);
        }
        let mut reply = Stamped {
            stamp: 0,
            value: Reply::Down,
        };
        let step = self.server.evaluate(request, &mut reply)?;
        self.items.reserve(1)?;
        let asked = request.clone()?;
        let copy = reply.value.clone()?;
        self.server.apply(step);
        self.items.push_reserved(Item {
            stamp: reply.stamp,
            agent,
            request: asked,
            reply: copy,
        });
        Ok(reply)
    }

    /// Whether it is the server of this number, as these settings open it.
    pub fn is_of(&self, number: u8, settings: &Settings) -> bool
        ensures { IsTrue result ↔ ((self.now.number ≡ number) × (self.now.given ≡ settings.now)) }
    {
        self.number == number && self.settings == *settings
    }

    /// Its history.
    pub fn into_history(self) -> History
        ensures history { result ≡ self.history }
        ensures legal { IsLegal self.number self.given result }
        ensures few { length result ≤ max_items }
    {
        let Locked { items, .. } = self;
        History::from_vec(items)
    }
}
