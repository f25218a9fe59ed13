//! A server.

ghost use Rattle.std.specs.Prelude.{◌≡◌, ◌≢◌, ◌↔◌, IfOk, IfSome, OnOk, OnErr, IsTrue, Err, is_some, option_map};
ghost use Rattle.std.specs.Option.{option_copied};
ghost use Rattle.std.specs.Ordering.{nat_cmp};
ghost use Rattle.sorted_map.specs.SortedMap.{get};
ghost use Rattle.suite_prefix.specs.Copies.{IsCopy};
ghost use Rattle.rep_core.specs.declared.stamped.Lack.TheVariants.{Full, Memory};
ghost use Rattle.rep_core.specs.Fits.{fits};
ghost use Rattle.rep_core.specs.Evaluated.{after_step, IsReadyFor, IsStep};
ghost use Rattle.rep_core.specs.code.Planning.{copies_in};
ghost use Rattle.rep_core.specs.Bare.{bare_server};
ghost use Rattle.rep_core.specs.Serving as serving;
ghost use Rattle.rep_core.specs.Store as store;

use crate::evaluate::{denied, fill_down};
use crate::kept_verdict::KeptVerdict;
use crate::lock::Lock;
use crate::locks::LockTable;
use crate::reply::Reply;
use crate::request::Request;
use crate::sameness::same_audit;
use crate::stamped::{Lack, Stamped};
use crate::step::{Change, Step};
use crate::store::Store;
use crate::takes::is_used_up;
use crate::verdicts::Verdicts;
use file_ops::AuditItem;
use std::alloc::{AllocError, Global};
use std::marker::Model;
use suite_prefix::{Form, Settings, StoredCopy};

/// A server: copies, locks, intentions, verdicts, the denials that it recorded, and its stamp.
#[derive(Drop)]
pub struct Server {
    pub(crate) alloc: Global,
    pub(crate) store: Store,
    pub(crate) locks: LockTable,
    pub(crate) verdicts: Verdicts,
    pub(crate) audit: Vec<AuditItem>,
    pub(crate) stamp: u64,
    pub(crate) up: bool,
}

impl Model for Server {
    ghost use Rattle.rep_core.specs.Roomed.{Roomed};
    ghost use Rattle.rep_core.specs.code.Stepping.{roomed_of};

    ghost Value = { Roomed };

    ghost view = { roomed_of };
}

impl Server {
    ghost use Rattle.rep_core.specs.State.{opening, record_of, was_answered};

    /// The server of this number as a service opens.
    pub fn opening(alloc: Global, index: u8, settings: &Settings) -> Result<Server, AllocError>
        ensures { IfOk result (λ server. server.state ≡ opening index settings.now) }
    {
        let store = Store::opening(alloc, index, settings)?;
        Ok(Server {
            alloc,
            store,
            locks: LockTable::new(alloc),
            verdicts: Verdicts::new(alloc),
            audit: Vec::new(alloc),
            stamp: 0,
            up: true,
        })
    }

    /// What it would answer to a request and do, with all that doing it takes: nothing has changed. Finish, Break,
    /// Crash and Return take no memory, nor does what is answered Busy, Lost, Done or Down.
    #[inline(always)]
    pub fn evaluate<'a>(
        &mut self,
        request: &'a Stamped<Request>,
        reply: &mut Stamped<Reply>,
    ) -> Result<Step<'a>, Lack>
        ensures reply { OnOk result (reply.new ≡ serving.answer_of self.old.state request.now) }
        ensures same { self.new.state ≡ self.old.state }
        ensures place { OnErr result (reply.new ≡ reply.old) }
        ensures step { IfOk result (λ step. IsStep step request.now self.new) }
        ensures full { (result ≡ Err Full) ↔ IsTrue (serving.is_full self.old.state request.now) }
        ensures memory { IsTrue (serving.takes_no_memory request.now.value) → result ≢ Err Memory }
        ensures bare { IsTrue (serving.is_bare (serving.answer_of self.old.state request.now).value) → result ≢ Err Memory }
        ensures fits { IsTrue (fits request.now.value (serving.answer_of self.old.state request.now).value) }
    {
        self.store.sound();
        if is_used_up(self.stamp) || is_used_up(request.stamp) {
            return Err(Lack::Full);
        }
        let stamp = self.stamp.max(request.stamp) + 1;
        let change = if self.up {
            self.fill_up(&request.value, &mut reply.value)?
        } else {
            fill_down(&request.value, &mut reply.value)
        };
        reply.stamp = stamp;
        Ok(Step { stamp, change })
    }

    /// Does what was evaluated since anything was done last. It takes no memory.
    #[inline(always)]
    pub fn apply(&mut self, step: Step<'_>)
        requires { IsReadyFor self.old step }
        ensures { self.new.state ≡ after_step step.entry self.old.state }
    {
        self.stamp = step.stamp;
        match step.change {
            Change::Nothing => {}
            Change::Lock { t, suite, mode } => self.locks.set(t, suite, mode),
            Change::Keep { t, parts, planned } => {
                self.locks.prepare(t, parts);
                self.store.intend(t, parts, planned);
            }
            Change::Record { t, verdict } => self.verdicts.insert_in_room(t, verdict),
            Change::Deny(item) => {
                self.verdicts
                    .insert_in_room(item.t, KeptVerdict::whole(denied(&item)));
                self.audit.push_reserved(item);
            }
            Change::Finish { t, answered } => {
                self.store.finish(t, answered);
                self.locks.release(t);
            }
            Change::Unlock { t, suite } => self.locks.break_lock(t, suite),
            Change::Crash => {
                self.locks.keep_prepared();
                self.up = false;
            }
            Change::Return => self.up = true,
        }
    }

    /// Serves a request. Where it is not served, nothing has changed.
    pub fn serve(&mut self, request: &Stamped<Request>) -> Result<Stamped<Reply>, Lack>
        ensures reply { IfOk result (λ reply. reply ≡ serving.answer_of self.old.state request.now) }
        ensures state { OnOk result (self.new.state ≡ serving.served self.old.state request.now) }
        ensures full { (result ≡ Err Full) ↔ IsTrue (serving.is_full self.old.state request.now) }
        ensures err { OnErr result (self.new.state ≡ self.old.state) }
        ensures memory { IsTrue (serving.takes_no_memory request.now.value) → result ≢ Err Memory }
        ensures bare { IsTrue (serving.is_bare (serving.answer_of self.old.state request.now).value) → result ≢ Err Memory }
        ensures fits { IfOk result (λ reply. IsTrue (fits request.now.value reply.value)) }
    {
        let mut reply = Stamped {
            stamp: 0,
            value: Reply::Down,
        };
        let step = self.evaluate(request, &mut reply)?;
        self.apply(step);
        Ok(reply)
    }

    /// What it would answer to a request, but for the room that serving takes. It stays as it is.
    pub fn answer(&self, request: &Stamped<Request>) -> Result<Stamped<Reply>, Lack>
        ensures reply { IfOk result (λ reply. reply ≡ serving.answer_of self.now.state request.now) }
        ensures full { (result ≡ Err Full) ↔ IsTrue (serving.is_full self.now.state request.now) }
        ensures bare { IsTrue (serving.is_bare (serving.answer_of self.now.state request.now).value) → result ≢ Err Memory }
    {
        if is_used_up(self.stamp) || is_used_up(request.stamp) {
            return Err(Lack::Full);
        }
        let mut reply = Stamped {
            stamp: self.stamp.max(request.stamp) + 1,
            value: Reply::Down,
        };
        if self.up {
            self.tell_up(&request.value, &mut reply.value)?;
        } else {
            fill_down(&request.value, &mut reply.value);
        }
        Ok(reply)
    }

    /// The locks, by transaction, then suite.
    pub fn locks(&self) -> Result<Vec<Lock>, AllocError>
        ensures { IfOk result (λ locks. locks.items ≡ self.now.state.locks) }
    {
        self.locks.listed(self.alloc)
    }

    /// The copies, by suite.
    pub fn copies(&self) -> &[(u64, StoredCopy)]
        ensures { copies_in result.now ≡ self.now.state.store.copies }
    {
        self.store.copies()
    }

    /// Lends the copy of a suite that has one.
    pub fn copy_of(&self, suite: u64) -> Option<&StoredCopy>
        ensures { option_map (λ kept. kept.copy) (option_copied result) ≡ get nat_cmp self.now.state.store.copies suite }
    {
        self.store.stored(suite)
    }

    /// Whether it is up.
    pub fn is_up(&self) -> bool
        ensures { result ≡ self.now.state.up }
    {
        self.up
    }

    /// An equal server.
    pub fn copy(&self) -> Result<Server, AllocError>
        ensures { IfOk result (λ server. server.state ≡ self.now.state) }
    {
        let store = self.store.copy()?;
        let locks = self.locks.copy(self.alloc)?;
        let verdicts = self.verdicts.copy(self.alloc)?;
        let audit = Vec::from_slice(self.alloc, &self.audit)?;
        Ok(Server {
            alloc: self.alloc,
            store,
            locks,
            verdicts,
            audit,
            stamp: self.stamp,
            up: self.up,
        })
    }

    /// Whether another server has the same, but for the stamp. Where it is told, it is so. It takes no memory.
    pub fn same_but_stamp(&self, other: &Server) -> bool
        ensures { IsTrue result → bare_server self.now.state ≡ bare_server other.now.state }
    {
        if self.up != other.up {
            return false;
        }
        if !self.locks.same(&other.locks) {
            return false;
        }
        if !same_audit(&self.audit, &other.audit) {
            return false;
        }
        if !self.store.same(&other.store) {
            return false;
        }
        self.verdicts.same(&other.verdicts)
    }

    /// A law: each copy is a valid one with versions that are not used up, and so is what each
    /// intention leaves of it. It does nothing.
    pub fn copies_are_sound(&self)
        ensures { store.IsSound self.now.state.store }
    {
        self.store.sound();
    }

    /// Lends the bytes of the copy of a suite that has one, in the form that they stand in. It takes no
    /// memory.
    pub fn stored(&self, suite: u64) -> Option<&[u8]>
        ensures stored { is_some result ≡ store.has_copy self.now.state.store suite }
        ensures formed { is_some result ≡ is_some (store.form_of self.now.state.store suite) }
        ensures bytes { IfSome result (λ bytes. store.IsWrittenAs self.now.state.store suite bytes.now) }
        ensures held { IfSome result (λ bytes. store.IsHeldInForm self.now.state.store suite) }
        ensures valid { IfSome result (λ bytes. IsCopy (store.copy_of self.now.state.store suite)) }
    {
        self.store.record(suite)
    }

    /// The form that the copy of a suite is written in, where it has one. It stays until a Finish that
    /// changes the copy.
    pub fn form(&self, suite: u64) -> Option<Form>
        ensures { result ≡ store.form_of self.now.state.store suite }
    {
        self.store.form(suite)
    }

    /// Lends what a prepared transaction leaves of a suite once it is decided with an answer, with the number of that
    /// transaction, where one is prepared to change the suite. It takes no memory.
    pub fn prepared(&self, suite: u64) -> Option<(u64, &StoredCopy)>
        ensures { option_map (λ prepared. (prepared.0, prepared.1.now.copy)) result ≡ store.prepared_of self.now.state.store suite }
    {
        self.store.prepared(suite)
    }

    /// Whether it recorded, as the home of a transaction, that this one was answered.
    pub fn was_answered(&self, transaction: u64) -> bool
        ensures { result ≡ was_answered (record_of self.now.state transaction) }
    {
        match self.verdicts.get(transaction) {
            Some(verdict) => verdict.is_answered(),
            None => false,
        }
    }

    /// The denials that it recorded, in their order.
    pub fn audit(&self) -> &[AuditItem]
        ensures { result.now ≡ self.now.state.audit }
    {
        &self.audit
    }
}
