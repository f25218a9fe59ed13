//! What a server would answer and do, found and made room for before anything is changed.

ghost use Rattle.std.specs.Prelude.{◌≡◌, ◌≢◌, ◌↔◌, ◌&&◌, ◌==◌, ◌<◌, false, true, IfOk, IfSome, OnOk, OnErr, IsTrue, Err, None, Some};
ghost use Rattle.std.specs.List.{list_all, list_any};
ghost use Rattle.suite_prefix.specs.declared.lock_mode.LockMode.TheVariants.{Exclusive};
ghost use Rattle.rep_core.specs.declared.stamped.Lack.TheVariants.{Full, Memory};
ghost use Rattle.rep_core.specs.code.Stepping as stepping;
ghost use Rattle.rep_core.specs.code.Stepping.{applied};
ghost use Rattle.rep_core.specs.Fits.{fits};
ghost use Rattle.rep_core.specs.Service as service;
ghost use Rattle.rep_core.specs.Service.{after_poll, after_upgrade, prepares, after_prepare, after_record};
ghost use Rattle.rep_core.specs.Serving as serving;
ghost use Rattle.rep_core.specs.State.{State, record_of};
ghost use Rattle.rep_core.specs.Roomed.{Roomed};
ghost use Rattle.rep_core.specs.Store as store;

use crate::reply::{LockList, Reply, Verdict};
use crate::request::{Decision, Part, Request};
use crate::server::Server;
use crate::stamped::{Lack, Stamped};
use crate::step::Change;
use crate::takes::is_used_up;
use file_ops::{AuditItem, Refusal, Why};
use std::alloc::AllocError;
use suite_prefix::LockMode;

impl Server {
    /// What a request changes at a server that is up, once its reply is written into a place of the caller's; with all room
    /// that the change takes. Nothing of the server has changed.
    #[inline(always)]
    pub(crate) fn fill_up<'a>(
        &mut self,
        request: &'a Request,
        reply: &mut Reply,
    ) -> Result<Change<'a>, Lack>
        ensures reply { OnOk result (reply.new ≡ service.reply_up self.old.state request.now) }
        ensures same { self.new.state ≡ self.old.state }
        ensures room { IfOk result (λ change. stepping.HasRoom change self.new) }
        ensures change { IfOk result (λ change. applied change self.old.state ≡ service.after_up self.old.state request.now) }
        ensures full { (result ≡ Err Full) ↔ IsTrue (serving.asks_too_much self.old.state request.now) }
        ensures place { OnErr result (reply.new ≡ reply.old) }
        ensures bare { IsTrue (serving.is_bare (service.reply_up self.old.state request.now)) → result ≢ Err Memory }
    {
        match request {
            Request::Poll { t, suite, mode } => self.fill_lock(*t, *suite, *mode, reply),
            Request::Upgrade { t, suite } => self.fill_upgrade(*t, *suite, reply),
            Request::Fetch { t, suite } => self.fill_fetch(*t, *suite, reply),
            Request::Prepare { t, parts } => self.fill_parts(*t, parts.as_slice(), reply),
            Request::Decide { t, decision } => match audit_of(*t, decision) {
                Some(item) => self.fill_denial(item, reply),
                None => self.fill_record(*t, verdict_of(decision)?, reply),
            },
            Request::Resolve { t } => self.fill_record(*t, Verdict::Aborted, reply),
            Request::Locks => self.fill_list(reply),
            Request::Finish { t, verdict } => {
                let answered = is_answered(verdict);
                *reply = Reply::Done;
                Ok(Change::Finish { t: *t, answered })
            }
            Request::Break { t, suite } => {
                let (t, suite) = (*t, *suite);
                *reply = Reply::Done;
                Ok(Change::Unlock { t, suite })
            }
            Request::Crash => {
                *reply = Reply::Done;
                Ok(Change::Crash)
            }
            Request::Return => {
                *reply = Reply::Done;
                Ok(Change::Nothing)
            }
        }
    }

    /// To set a lock, or to make it stronger.
    fn fill_lock<'a>(
        &mut self,
        t: u64,
        suite: u64,
        mode: LockMode,
        reply: &mut Reply,
    ) -> Result<Change<'a>, Lack>
        ensures reply { OnOk result (reply.new ≡ service.poll_reply self.old.state t suite mode) }
        ensures same { self.new.state ≡ self.old.state }
        ensures change { IfOk result (λ change. applied change self.old.state ≡ after_poll self.old.state t suite mode) }
        ensures room { IfOk result (λ change. stepping.HasRoom change self.new) }
        ensures full { result ≢ Err Full }
        ensures place { OnErr result (reply.new ≡ reply.old) }
        ensures bare { IsTrue (serving.is_bare (service.poll_reply self.old.state t suite mode)) → result ≢ Err Memory }
    {
        match self.locks.in_the_way(t, suite, mode) {
            Some(other) => {
                *reply = Reply::Busy {
                    holder: other.t,
                    prepared: other.prepared,
                };
                Ok(Change::Nothing)
            }
            None => {
                self.locks.make_room()?;
                self.store.keep_head(suite)?;
                self.store.hold(suite, reply)?;
                Ok(Change::Lock { t, suite, mode })
            }
        }
    }

    /// To make a lock exclusive.
    fn fill_upgrade<'a>(
        &mut self,
        t: u64,
        suite: u64,
        reply: &mut Reply,
    ) -> Result<Change<'a>, Lack>
        ensures reply { OnOk result (reply.new ≡ service.upgrade_reply self.old.state t suite) }
        ensures same { self.new.state ≡ self.old.state }
        ensures change { IfOk result (λ change. applied change self.old.state ≡ after_upgrade self.old.state t suite) }
        ensures room { IfOk result (λ change. stepping.HasRoom change self.new) }
        ensures full { result ≢ Err Full }
        ensures place { OnErr result (reply.new ≡ reply.old) }
        ensures bare { IsTrue (serving.is_bare (service.upgrade_reply self.old.state t suite)) → result ≢ Err Memory }
    {
        if self.locks.has_lock(t, suite) {
            self.fill_lock(t, suite, LockMode::Exclusive, reply)
        } else {
            *reply = Reply::Lost;
            Ok(Change::Nothing)
        }
    }

    /// To tell a content.
    fn fill_fetch<'a>(&mut self, t: u64, suite: u64, reply: &mut Reply) -> Result<Change<'a>, Lack>
        ensures reply { OnOk result (reply.new ≡ service.fetch_reply self.old.state t suite) }
        ensures same { self.new.state ≡ self.old.state }
        ensures change { IfOk result (λ change. change ≡ Change.Nothing) }
        ensures full { result ≢ Err Full }
        ensures place { OnErr result (reply.new ≡ reply.old) }
        ensures bare { IsTrue (serving.is_bare (service.fetch_reply self.old.state t suite)) → result ≢ Err Memory }
    {
        if self.locks.has_lock(t, suite) {
            self.store.keep_content(suite)?;
            self.store.give(suite, reply)?;
        } else {
            *reply = Reply::Lost;
        }
        Ok(Change::Nothing)
    }

    /// To keep parts.
    fn fill_parts<'a>(
        &mut self,
        t: u64,
        parts: &'a [Part],
        reply: &mut Reply,
    ) -> Result<Change<'a>, Lack>
        ensures reply { OnOk result (reply.new ≡ service.prepare_reply self.old.state t parts.now) }
        ensures same { self.new.state ≡ self.old.state }
        ensures change { IfOk result (λ made. applied made self.old.state ≡ after_prepare self.old.state t parts.now) }
        ensures room { IfOk result (λ change. stepping.HasRoom change self.new) }
        ensures full { let old = self.old.state in (result ≡ Err Full) ↔ IsTrue (prepares old t parts.now && store.overfills t old.store parts.now) }
        ensures place { OnErr result (reply.new ≡ reply.old) }
        ensures bare { IsTrue (serving.is_bare (service.prepare_reply self.old.state t parts.now)) → result ≢ Err Memory }
    {
        if self.stands_prepared(t, parts) {
            *reply = Reply::Prepared;
            return Ok(Change::Nothing);
        }
        if !self.can_prepare(t, parts) {
            *reply = Reply::Lost;
            return Ok(Change::Nothing);
        }
        if self.store.overfills(parts) {
            return Err(Lack::Full);
        }
        let planned = self.store.plan(t, parts)?;
        *reply = Reply::Prepared;
        Ok(Change::Keep { t, parts, planned })
    }

    /// To record a verdict that is no denial, unless a record stands.
    fn fill_record<'a>(
        &mut self,
        t: u64,
        verdict: Verdict,
        reply: &mut Reply,
    ) -> Result<Change<'a>, Lack>
        ensures reply { OnOk result (reply.new ≡ Reply.Verdict (service.recorded (record_of self.old.state t) verdict)) }
        ensures same { self.new.state ≡ self.old.state }
        ensures change { let old = self.old.state in IfOk result (λ change. applied change old ≡ after_record (record_of old t) t verdict None old) }
        ensures room { IfOk result (λ change. stepping.HasRoom change self.new) }
        ensures full { result ≢ Err Full }
        ensures place { OnErr result (reply.new ≡ reply.old) }
    {
        if let Some(standing) = self.verdicts.get(t) {
            *reply = Reply::Verdict(standing.told(self.alloc)?);
            return Ok(Change::Nothing);
        }
        let kept = self.verdicts.kept(self.alloc, &verdict)?;
        self.verdicts.make_room(t)?;
        *reply = Reply::Verdict(verdict);
        Ok(Change::Record { t, verdict: kept })
    }

    /// To record a denial, unless a record stands.
    fn fill_denial<'a>(&mut self, item: AuditItem, reply: &mut Reply) -> Result<Change<'a>, Lack>
        ensures reply { OnOk result (reply.new ≡ Reply.Verdict (service.recorded (record_of self.old.state item.t) (service.denied item))) }
        ensures same { self.new.state ≡ self.old.state }
        ensures change { let old = self.old.state in
            IfOk result (λ change. applied change old ≡ after_record (record_of old item.t) item.t (service.denied item) (Some item) old) }
        ensures room { IfOk result (λ change. stepping.HasRoom change self.new) }
        ensures full { result ≢ Err Full }
        ensures place { OnErr result (reply.new ≡ reply.old) }
    {
        if let Some(standing) = self.verdicts.get(item.t) {
            *reply = Reply::Verdict(standing.told(self.alloc)?);
            return Ok(Change::Nothing);
        }
        self.verdicts.make_room(item.t)?;
        self.audit.reserve(1)?;
        *reply = Reply::Verdict(denied(&item));
        Ok(Change::Deny(item))
    }

    /// To tell the locks.
    pub(crate) fn fill_list<'a>(&self, reply: &mut Reply) -> Result<Change<'a>, Lack>
        ensures reply { OnOk result (reply.new ≡ Reply.Locked self.now.state.locks) }
        ensures change { IfOk result (λ change. change ≡ Change.Nothing) }
        ensures full { result ≢ Err Full }
        ensures place { OnErr result (reply.new ≡ reply.old) }
    {
        let locks = self.locks.listed(self.alloc)?;
        *reply = Reply::Locked(LockList::from_vec(locks)?);
        Ok(Change::Nothing)
    }

    /// Whether nothing is left to be prepared.
    pub(crate) fn stands_prepared(&self, t: u64, parts: &[Part]) -> bool
        ensures { result ≡ service.stands_prepared self.now.state t parts.now }
    {
        self.locks.has_prepared(t) || parts.is_empty()
    }

    pub(crate) fn can_prepare(&self, t: u64, parts: &[Part]) -> bool
        ensures { result ≡ service.can_prepare self.now.state t parts.now }
    {
        self.locks.has_locks_for(t, parts) && !lists_twice(parts) && self.are_sound(parts)
    }

    fn are_sound(&self, parts: &[Part]) -> bool
        ensures { result ≡ list_all (store.is_sound_part self.now.state.store) parts.now }
    {
        parts.iter().all(|part| self.store.is_sound_part(part))
    }
}

/// Of a server that is down.
#[inline(always)]
pub(crate) fn fill_down<'a>(request: &Request, reply: &mut Reply) -> Change<'a>
    ensures reply { reply.new ≡ service.reply_down request.now }
    ensures change { (st : State) → stepping.applied result st ≡ service.after_down st request.now }
    ensures room { (server : Roomed) → stepping.HasRoom result server }
{
    match request {
        Request::Return => {
            *reply = Reply::Done;
            Change::Return
        }
        _ => {
            *reply = Reply::Down;
            Change::Nothing
        }
    }
}

/// Whether a suite stands twice among parts. Mostly the suites rise, and then none does.
fn lists_twice(parts: &[Part]) -> bool
    ensures { result ≡ store.lists_twice parts.now }
{
    !suites_rise(parts) && any_stands_twice(parts)
}

/// Whether each part's suite is above the one before.
fn suites_rise(parts: &[Part]) -> bool
    ensures { IsTrue result → store.lists_twice parts.now ≡ false }
{
    let mut left = parts;
    while let [first, second, ..] = left {
        if first.suite >= second.suite {
            return false;
        }
        left = &left[1..];
    }
    true
}

/// Whether a suite stands twice, each compared with all behind it.
fn any_stands_twice(parts: &[Part]) -> bool
    ensures { result ≡ store.lists_twice parts.now }
{
    for (i, part) in parts.iter().enumerate() {
        if names_suite(&parts[i + 1..], part.suite) {
            return true;
        }
    }
    false
}

fn names_suite(parts: &[Part], suite: u64) -> bool
    ensures { result ≡ list_any (λ later. later.suite == suite) parts.now }
{
    parts.iter().any(|later| later.suite == suite)
}

/// What a decision records.
pub(crate) fn verdict_of(decision: &Decision) -> Result<Verdict, AllocError>
    ensures { IfOk result (λ verdict. verdict ≡ service.verdict_of decision.now) }
{
    match decision {
        Decision::Answered(replies) => Ok(Verdict::Answered(replies.clone()?)),
        Decision::Refused { refusal, .. } => Ok(Verdict::Refused(*refusal)),
    }
}

/// The item of the audit of a denial.
fn audit_of(t: u64, decision: &Decision) -> Option<AuditItem>
    ensures item { result ≡ service.audit_of t decision.now }
    ensures tells { IfSome result (λ item. (item.t ≡ t) × (service.denied item ≡ service.verdict_of decision.now)) }
{
    let Decision::Refused { uid, refusal } = decision else {
        return None;
    };
    let Why::Denied(denial) = refusal.why else {
        return None;
    };
    Some(AuditItem {
        t,
        uid: *uid,
        op: refusal.op,
        denial,
    })
}

/// The verdict of a denial that the audit has.
pub(crate) fn denied(item: &AuditItem) -> Verdict
    ensures { result ≡ service.denied item.now }
{
    Verdict::Refused(Refusal {
        op: item.op,
        why: Why::Denied(item.denial),
    })
}

pub(crate) fn is_answered(verdict: &Verdict) -> bool
    ensures { result ≡ service.is_answered verdict.now }
{
    match verdict {
        Verdict::Answered(_) => true,
        Verdict::Refused(_) | Verdict::Aborted => false,
    }
}
