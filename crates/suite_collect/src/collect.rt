//! The collector.

ghost use Rattle.std.specs.FinSet.{contains};
ghost use Rattle.std.specs.Prelude.{◌≡◌, ◌==◌, ℕ, ◌<◌, find, unwrap_or, is_some, IsTrue, IfOk, IfSome, IfErr, OnOk, OnErr};
ghost use Rattle.suite_collect.specs.code.CollectFields.{due_of};
ghost use Rattle.suite_collect.specs.code.Dues.{IsKnown, due_in};
ghost use Rattle.suite_collect.specs.Collecting as spec;
ghost use Rattle.suite_collect.specs.Telling as telling;

use crate::coming::{Asked, Coming};
use crate::due::{Due, due_by};
use crate::heard::Heard;
use crate::hearing::Hearing;
use crate::log::Log;
use crate::members::members_of;
use crate::newest::{newer_of, newest_of, show};
use crate::next::{Members, Next};
use crate::read_point::ReadPoint;
use crate::told::{Said, Told};
use crate::widening::Widening;
use rep_core::Reply;
use std::alloc::AllocError;
use std::marker::Model;
use suite_prefix::{LockMode, SharedPrefix};
use vote_core::{MAX_SERVERS, ServerSet, Votes};

/// What a transaction collects of one suite: locks, until their servers are a quorum under the newest
/// prefix that they show.
#[derive(Drop)]
pub struct Collect {
    t: u64,
    suite: u64,
    mode: LockMode,
    start: SharedPrefix,
    /// The newest prefix seen, where one is newer than the start.
    newer: Option<SharedPrefix>,
    /// What was told before a widening.
    told: Heard,
    widening: Option<Widening>,
    /// What is due. It is found where something changes, and not each time that it is asked for.
    due: Due,
}

impl Model for Collect {
    ghost use Rattle.suite_collect.specs.Collecting.{Collecting};

    ghost Value = { Collecting };

    ghost use Rattle.suite_collect.specs.code.CollectFields.{collecting_of, IsSummed};

    ghost view = { collecting_of };

    ghost invariant = { IsSummed };
}

impl Clone for Collect {
    ghost use Rattle.std.specs.Prelude.{◌≡◌};

    ghost is_clone = { λ collect copy. copy ≡ collect };

    fn clone(&self) -> Result<Collect, AllocError> {
        let start = self.start.clone()?;
        let newer = match &self.newer {
            Some(newer) => Some(newer.clone()?),
            None => None,
        };
        Ok(Collect {
            t: self.t,
            suite: self.suite,
            mode: self.mode,
            start,
            newer,
            told: self.told.same(),
            widening: self.widening.as_ref().map(Widening::same),
            due: self.due,
        })
    }
}

impl Collect {
    ghost use Rattle.suite_collect.specs.Telling.{newest};
    ghost use Rattle.suite_collect.specs.Answering.{Comes, Hears, Tells, asked_in, read_point, shows_lock};
    ghost use Rattle.suite_collect.specs.Laws.{Take, after_step};

    /// A collector that was told nothing yet. `start` is any prefix that the suite once had, or that of
    /// what was never made.
    pub fn new(t: u64, suite: u64, mode: LockMode, start: SharedPrefix) -> Collect
        ensures { result ≡ record { t = t; suite = suite; collector = spec.collect mode start } }
    {
        let told = Heard::new();
        let due = due_by(&start.votes, &told, mode);
        Collect {
            t,
            suite,
            mode,
            start,
            newer: None,
            told,
            widening: None,
            due,
        }
    }

    /// From now on exclusive locks are wanted. After a widening they are wanted already, and this changes
    /// nothing.
    pub fn raise(&mut self)
        ensures { self.new ≡ record self.old { collector = spec.raise self.old.collector } }
    {
        if self.widening.is_none() {
            let due = due_by(&self.newest().votes, &self.told, LockMode::Exclusive);
            self.mode = LockMode::Exclusive;
            self.due = due;
        }
    }

    /// From now on a write quorum of these votes is wanted. Prefix and version stay, whatever comes later.
    pub fn widen(&mut self, votes: &Votes)
        ensures { self.new ≡ record self.old { collector = spec.widen votes.now self.old.collector } }
    {
        let due = due_by(votes, self.heard(), LockMode::Exclusive);
        match &mut self.widening {
            Some(widening) => widening.votes = *votes,
            None => {
                self.widening = Some(Widening {
                    votes: *votes,
                    all: self.told.same(),
                    since: Log::new(),
                });
            }
        }
        self.due = due;
    }

    /// What comes next. It takes no memory.
    pub fn next(&self) -> Next<'_>
        ensures { Tells result self.now }
    {
        match self.due {
            Due::Current => Next::Current {
                prefix: self.newest(),
                dver: self.version(),
                members: self.members(),
            },
            Due::Ask { server } => Next::Ask {
                server,
                request: self.asked(server).request(self.t, self.suite),
            },
            Due::Short { got, needed } => Next::Short {
                got,
                needed,
                busy: self.heard().first_busy(),
            },
        }
    }

    /// What comes next, without what a quorum gives.
    pub fn coming(&self) -> Coming
        ensures { Comes result (spec.next self.now.collector) }
    {
        match self.due {
            Due::Current => Coming::Current,
            Due::Ask { server } => Coming::Ask {
                server,
                asked: self.asked(server),
            },
            Due::Short { got, needed } => Coming::Short {
                got,
                needed,
                busy: self.heard().first_busy(),
            },
        }
    }

    /// Takes the reply to what was asked next, and tells whether it answers that: then it is told what the reply
    /// says, and else nothing changes. Only a lock that is held may run out of memory.
    pub fn take(&mut self, reply: &Reply) -> Result<bool, AllocError>
        ensures ok { OnOk result (self.new ≡ record self.old { collector = after_step self.old.collector (Take reply.now) }) }
        ensures answers { IfOk result (λ answers. answers ≡ is_some (spec.told_by (spec.next self.old.collector) reply.now)) }
        ensures err { OnErr result (self.new ≡ self.old) }
        ensures memory { IfErr result (λ _. IsTrue (shows_lock reply.now)) }
    {
        let Some(said) = self.said_by(reply)? else {
            return Ok(false);
        };
        self.tell(said);
        Ok(true)
    }

    /// Hears the reply to what was asked next. It is told what the reply says, but for a lock with which there
    /// is a quorum: nothing changes yet. Only a lock that is held may run out of memory.
    pub fn hear(&mut self, reply: &Reply) -> Result<Hearing, AllocError>
        ensures ok { IfOk result (λ hearing. Hears hearing self.old reply.now self.new) }
        ensures err { OnErr result (self.new ≡ self.old) }
        ensures memory { IfErr result (λ _. IsTrue (shows_lock reply.now)) }
    {
        let Some(last) = self.said_by(reply)? else {
            return Ok(Hearing::Lost);
        };
        let due = self.due_after(&last);
        let hearing = match due {
            Due::Current => return Ok(Hearing::Quorum(last)),
            Due::Ask { .. } => Hearing::Asks,
            Due::Short { .. } => Hearing::Short,
        };
        self.put(last, due);
        Ok(hearing)
    }

    /// What a reply says that answers what was asked; nothing, where the transaction is to end.
    fn said_by(&self, reply: &Reply) -> Result<Option<Told>, AllocError>
        ensures told { IfOk result (λ told. told ≡ spec.told_by (spec.next self.now.collector) reply.now) }
        ensures known { IfOk result (λ told. IfSome told (λ one. one.server < MAX_SERVERS)) }
        ensures memory { IfErr result (λ _. IsTrue (shows_lock reply.now)) }
    {
        let Due::Ask { server } = self.due else {
            return Ok(None);
        };
        let said = match reply {
            Reply::Held { prefix, dver } => Said::Held {
                prefix: prefix.clone()?,
                dver: *dver,
            },
            Reply::Busy { holder, .. } => Said::Busy { holder: *holder },
            Reply::Down => match self.asked(server) {
                Asked::Poll(_) => Said::Down,
                Asked::Upgrade => return Ok(None),
            },
            _ => return Ok(None),
        };
        let mode = self.wanted();
        Ok(Some(Told { server, mode, said }))
    }

    /// Something is told: what a server said that was asked.
    pub fn tell(&mut self, last: Told)
        requires { last.server < MAX_SERVERS }
        ensures { self.new ≡ record self.old { collector = spec.tell last self.old.collector } }
    {
        let due = self.due_after(&last);
        self.put(last, due);
    }

    /// What the quorum gives that there is once this is told. Only the prefix, which is kept, needs memory.
    pub fn quorum_after(&self, last: &Told) -> Result<ReadPoint, AllocError>
        requires { last.now.server < MAX_SERVERS }
        ensures { IfOk result (λ point. point ≡ read_point (spec.tell last.now self.now.collector)) }
    {
        match &self.widening {
            Some(widening) => {
                let mut all = widening.all.same();
                all.add(last);
                let members = members_of(&widening.votes, &all.holders(LockMode::Exclusive));
                read_point(self.newest(), &self.told, self.version(), &members)
            }
            None => {
                let mut told = self.told.same();
                told.add(last);
                let newest = newer_of(self.newest(), &last.said);
                let members = members_of(&newest.votes, &told.holders(self.mode));
                let dver = told.greatest(members.as_slice());
                read_point(newest, &told, dver, &members)
            }
        }
    }

    /// The mode in which locks are wanted before a widening.
    pub fn mode(&self) -> LockMode
        ensures { result ≡ self.now.collector.mode }
    {
        self.mode
    }

    /// The newest prefix seen. A widening leaves it as it was.
    pub fn newest(&self) -> &SharedPrefix
        ensures { result.now ≡ newest self.now.collector.start self.now.collector.told }
    {
        newest_of(&self.newer, &self.start)
    }

    /// Whether a server holds a lock for the transaction, in this mode or a stronger one.
    pub fn holds(&self, mode: LockMode, server: u8) -> bool
        ensures { result ≡ telling.holds mode (spec.all_told self.now.collector) server }
    {
        self.heard().holds(mode, server)
    }

    /// The servers that hold a lock for the transaction, in this mode or a stronger one.
    pub fn holders(&self, mode: LockMode) -> ServerSet
        ensures { (server : ℕ) → contains result server ≡ telling.holds mode (spec.all_told self.now.collector) server }
    {
        self.heard().holders(mode)
    }

    /// What is due once this is told.
    fn due_after(&self, last: &Told) -> Due
        requires { last.now.server < MAX_SERVERS }
        ensures value { due_in result ≡ due_of (spec.tell last.now self.now.collector) }
        ensures known { IsKnown result }
    {
        let mut heard = self.heard().same();
        heard.add(last);
        due_by(self.counted_after(last), &heard, self.wanted())
    }

    /// Puts what is told behind what was told before, and what is due then.
    fn put(&mut self, last: Told, due: Due)
        requires server { last.server < MAX_SERVERS }
        requires due { due_in due ≡ due_of (spec.tell last self.old.collector) }
        requires known { IsKnown due }
        ensures { self.new ≡ record self.old { collector = spec.tell last self.old.collector } }
    {
        self.due = due;
        match &mut self.widening {
            Some(widening) => widening.add(&last),
            None => {
                self.told.add(&last);
                show(&mut self.newer, &self.start, last.said);
            }
        }
    }

    /// All that was told.
    fn heard(&self) -> &Heard
        ensures { result.now ≡ spec.all_told self.now.collector }
    {
        match &self.widening {
            Some(widening) => &widening.all,
            None => &self.told,
        }
    }

    /// The votes that count.
    fn counted(&self) -> &Votes
        ensures { result.now ≡ spec.counted self.now.collector }
    {
        match &self.widening {
            Some(widening) => &widening.votes,
            None => &self.newest().votes,
        }
    }

    /// The votes that count once this is told.
    fn counted_after<'a>(&'a self, last: &'a Told) -> &'a Votes
        ensures { result.now ≡ spec.counted (spec.tell last.now self.now.collector) }
    {
        match &self.widening {
            Some(widening) => &widening.votes,
            None => &newer_of(self.newest(), &last.said).votes,
        }
    }

    /// The mode in which locks are wanted.
    fn wanted(&self) -> LockMode
        ensures { result ≡ spec.wanted self.now.collector }
    {
        if self.widening.is_some() {
            LockMode::Exclusive
        } else {
            self.mode
        }
    }

    /// What a server is asked.
    fn asked(&self, server: u8) -> Asked
        ensures { asked_in result ≡ spec.asked_of self.now.collector server }
    {
        if self.holds(LockMode::Shared, server) {
            Asked::Upgrade
        } else {
            Asked::Poll(self.wanted())
        }
    }

    /// The version of the content. A widening leaves it as it was.
    fn version(&self) -> u64
        ensures { result ≡ spec.version self.now.collector }
    {
        let first = members_of(&self.newest().votes, &self.told.holders(self.mode));
        self.told.greatest(first.as_slice())
    }

    /// The members that are held of the votes that count.
    fn members(&self) -> Members
        ensures { let c = self.now.collector in result.items ≡ spec.members_of (spec.counted c) (spec.is_member c) }
    {
        members_of(self.counted(), &self.heard().holders(self.wanted()))
    }
}

/// What members give: a prefix and a version, and the first of them that showed it.
fn read_point(
    prefix: &SharedPrefix,
    told: &Heard,
    dver: u64,
    members: &Members,
) -> Result<ReadPoint, AllocError>
    ensures { IfOk result (λ point. point ≡ record { prefix = prefix.now; dver = dver; source = unwrap_or (find (λ server. telling.shown told.now server == dver) members.now.items) 0 }) }
{
    let source = told.first_showing(dver, members.as_slice());
    let prefix = prefix.clone()?;
    Ok(ReadPoint {
        prefix,
        dver,
        source: source.unwrap_or(0),
    })
}
