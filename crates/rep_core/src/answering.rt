//! What a server would answer, with no change of it and no room made.

ghost use Rattle.std.specs.Prelude.{◌≡◌, ◌≢◌, ◌↔◌, ◌&&◌, OnOk, IsTrue, Err};
ghost use Rattle.rep_core.specs.declared.stamped.Lack.TheVariants.{Full, Memory};
ghost use Rattle.rep_core.specs.Service as service;
ghost use Rattle.rep_core.specs.Service.{prepares};
ghost use Rattle.rep_core.specs.Serving as serving;
ghost use Rattle.rep_core.specs.State.{record_of};
ghost use Rattle.rep_core.specs.Store as store;

use crate::evaluate::{fill_down, verdict_of};
use crate::reply::{Reply, Verdict};
use crate::request::{Part, Request};
use crate::server::Server;
use crate::stamped::{Lack, Stamped};
use crate::takes::is_used_up;
use suite_prefix::LockMode;

impl Server {
    /// Writes what a server that is up would answer to a request into a place of the caller's.
    pub(crate) fn tell_up(&self, request: &Request, reply: &mut Reply) -> Result<(), Lack>
        ensures reply { OnOk result (reply.new ≡ service.reply_up self.now.state request.now) }
        ensures full { (result ≡ Err Full) ↔ IsTrue (serving.asks_too_much self.now.state request.now) }
        ensures bare { IsTrue (serving.is_bare (service.reply_up self.now.state request.now)) → result ≢ Err Memory }
    {
        match request {
            Request::Poll { t, suite, mode } => self.tell_lock(*t, *suite, *mode, reply),
            Request::Upgrade { t, suite } => self.tell_upgrade(*t, *suite, reply),
            Request::Fetch { t, suite } => self.tell_fetch(*t, *suite, reply),
            Request::Prepare { t, parts } => self.tell_parts(*t, parts.as_slice(), reply),
            Request::Decide { t, decision } => self.tell_record(*t, verdict_of(decision)?, reply),
            Request::Resolve { t } => self.tell_record(*t, Verdict::Aborted, reply),
            Request::Locks => {
                self.fill_list(reply)?;
                Ok(())
            }
            Request::Finish { .. } | Request::Break { .. } | Request::Crash | Request::Return => {
                *reply = Reply::Done;
                Ok(())
            }
        }
    }

    fn tell_lock(&self, t: u64, suite: u64, mode: LockMode, reply: &mut Reply) -> Result<(), Lack>
        ensures reply { OnOk result (reply.new ≡ service.poll_reply self.now.state t suite mode) }
        ensures full { result ≢ Err Full }
        ensures bare { IsTrue (serving.is_bare (service.poll_reply self.now.state t suite mode)) → result ≢ Err Memory }
    {
        match self.locks.in_the_way(t, suite, mode) {
            Some(other) => {
                *reply = Reply::Busy {
                    holder: other.t,
                    prepared: other.prepared,
                };
                Ok(())
            }
            None => {
                self.store.hold(suite, reply)?;
                Ok(())
            }
        }
    }

    fn tell_upgrade(&self, t: u64, suite: u64, reply: &mut Reply) -> Result<(), Lack>
        ensures reply { OnOk result (reply.new ≡ service.upgrade_reply self.now.state t suite) }
        ensures full { result ≢ Err Full }
        ensures bare { IsTrue (serving.is_bare (service.upgrade_reply self.now.state t suite)) → result ≢ Err Memory }
    {
        if self.locks.has_lock(t, suite) {
            self.tell_lock(t, suite, LockMode::Exclusive, reply)
        } else {
            *reply = Reply::Lost;
            Ok(())
        }
    }

    fn tell_fetch(&self, t: u64, suite: u64, reply: &mut Reply) -> Result<(), Lack>
        ensures reply { OnOk result (reply.new ≡ service.fetch_reply self.now.state t suite) }
        ensures full { result ≢ Err Full }
        ensures bare { IsTrue (serving.is_bare (service.fetch_reply self.now.state t suite)) → result ≢ Err Memory }
    {
        if self.locks.has_lock(t, suite) {
            self.store.give(suite, reply)?;
        } else {
            *reply = Reply::Lost;
        }
        Ok(())
    }

    fn tell_parts(&self, t: u64, parts: &[Part], reply: &mut Reply) -> Result<(), Lack>
        ensures reply { OnOk result (reply.new ≡ service.prepare_reply self.now.state t parts.now) }
        ensures full { (result ≡ Err Full) ↔ IsTrue (prepares self.now.state t parts.now && store.overfills t self.now.state.store parts.now) }
        ensures memory { result ≢ Err Memory }
    {
        if self.stands_prepared(t, parts) {
            *reply = Reply::Prepared;
            return Ok(());
        }
        if !self.can_prepare(t, parts) {
            *reply = Reply::Lost;
            return Ok(());
        }
        if self.store.overfills(parts) {
            return Err(Lack::Full);
        }
        *reply = Reply::Prepared;
        Ok(())
    }

    fn tell_record(&self, t: u64, verdict: Verdict, reply: &mut Reply) -> Result<(), Lack>
        ensures reply { OnOk result (reply.new ≡ Reply.Verdict (service.recorded (record_of self.now.state t) verdict)) }
        ensures full { result ≢ Err Full }
    {
        let told = match self.verdicts.get(t) {
            Some(standing) => standing.told(self.alloc)?,
            None => verdict,
        };
        *reply = Reply::Verdict(told);
        Ok(())
    }
}
