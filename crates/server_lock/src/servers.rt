//! Servers that threads share.

ghost use Rattle.std.specs.Prelude.{◌≡◌, ◌↔◌, ◌≤◌, ◌<◌, ℕ, All, Err, IfErr, IfOk, IsTrue, false};
ghost use Rattle.std.specs.Vec.{vec_len, vec_capacity};
ghost use Rattle.std.specs.Sync.Mutex.{mutex_guard_value};
ghost use Rattle.rep_core.specs.declared.stamped.Lack.TheVariants.{Full, Memory};
ghost use Rattle.rep_core.specs.Fits.{fits};
ghost use Rattle.server_lock.specs.declared.miss.Miss.TheVariants.{Lack as Lacked, Stale};
ghost use Rattle.server_lock.specs.Closed.{AreCounted, AreOf, IsNotClosed, askers};
ghost use Rattle.server_lock.specs.Kept.{HoldsLegal, is_spent, opened_from};
ghost use Rattle.server_lock.specs.Told.{IsTold};
ghost use Rattle.server_lock.specs.Passes.{after_answer, front_at, passes_of, sent_stamp};

use crate::answer::ServerAnswer;
use crate::close_fault::CloseFault;
use crate::closing::close_locked;
use crate::gate::Gate;
use crate::history::{Histories, History};
use crate::locked::Locked;
use crate::pass::Pass;
use rep_core::{Request, Stamped};
use std::alloc::{AllocError, Global};
use std::marker::Model;
use std::sync::{Mutex, MutexGuard, Wait};
use suite_prefix::Settings;
use vote_core::MAX_SERVERS;

/// Servers, each under a lock of its own, and the settings that they were opened with. It has the room that
/// closing them takes.
#[derive(Drop)]
pub struct Servers {
    settings: Settings,
    locks: Vec<Mutex<Locked>>,
    held: Vec<Locked>,
    histories: Vec<History>,
}

impl Model for Servers {
    ghost use Rattle.suite_prefix.specs.SettingsRules.{Opening};
    ghost use Rattle.std.specs.Vec.{vec_len, vec_capacity};
    ghost use Rattle.server_lock.specs.code.Room.{HasRoom};

    ghost Value = { Opening };

    ghost use Rattle.std.specs.Coded.{codes};
    ghost use Rattle.suite_prefix.specs.code.ServersCode.{servers_code};

    ghost coded = { Prim.hlevel (codes, servers_code) };

    ghost view = { λ servers. servers.settings };

    ghost invariant = { λ servers. HasRoom servers.settings.servers (vec_len servers.locks) (vec_len servers.held) (vec_capacity servers.held)
        (vec_len servers.histories) (vec_capacity servers.histories) };
}

impl Servers {
    /// The servers as a service opens with these settings, and a pass for each agent, in their order, and
    /// for the operator, last. What closing them takes is made room for here.
    pub fn start(alloc: Global, settings: &Settings) -> Result<(Servers, Vec<Pass>), AllocError>
        ensures servers { IfOk result (λ started. started.0 ≡ settings.now) }
        ensures passes { IfOk result (λ started. started.1.items ≡ passes_of settings.now.agents) }
    {
        let settings = settings.clone()?;
        let locks = locks_over(alloc, first_servers(alloc, &settings)?)?;
        let held = Vec::with_capacity(alloc, locks.len())?;
        let histories = Vec::with_capacity(alloc, locks.len())?;
        let passes = first_passes(alloc, &settings)?;
        let servers = Servers {
            settings,
            locks,
            held,
            histories,
        };
        Ok((servers, passes))
    }

    /// The settings that they were opened with.
    pub fn settings(&self) -> &Settings
        ensures { result.now ≡ self.now }
    {
        &self.settings
    }

    /// Asks a server, under its lock. The pass comes back, with an item more where there is a reply. There is none
    /// exactly where the history that lay there is shorter than the pass has seen, or the server is spent, or memory
    /// was refused. The gate's `inside` is called under the lock, before the request is served, and its `after` once
    /// the lock is free.
    pub fn ask<R: Wait, G: Gate>(
        &self,
        rt: &R,
        gate: &G,
        pass: Pass,
        server: u8,
        request: Request,
    ) -> (Pass, ServerAnswer)
        requires { server < self.now.servers }
        ensures server { result.1.server ≡ server }
        ensures request { result.1.request ≡ record { stamp = sent_stamp pass; value = request } }
        ensures told { IsTold result.1 }
        ensures front { IfOk result.1.reply (λ reply. front_at pass server ≤ result.1.before) }
        ensures stale { (result.1.reply ≡ Err (Stale result.1.before)) ↔ (result.1.before < front_at pass server) }
        ensures full { (result.1.reply ≡ Err (Lacked Full)) ↔ ((front_at pass server ≤ result.1.before) × IsTrue (is_spent result.1.lay result.1.request)) }
        ensures memory { result.1.reply ≡ Err (Lacked Memory) → (front_at pass server ≤ result.1.before) × (is_spent result.1.lay result.1.request ≡ false) }
        ensures fits { IfOk result.1.reply (λ reply. IsTrue (fits request reply.value)) }
        ensures rises { IfOk result.1.reply (λ reply. sent_stamp pass < reply.stamp) }
        ensures pass { result.0 ≡ after_answer pass server result.1 }
    {
        let _locks = self.locks.len();
        let stamp = pass.sent_stamp();
        let front = pass.front(server);
        let request = Stamped {
            stamp,
            value: request,
        };
        let mut guard = self.lock_of(rt, server);
        gate.inside(server, pass.agent());
        let answer = guard.serve(pass.agent(), front, request);
        drop(guard);
        gate.after(server, pass.agent());
        answer.is_told();
        answer.has_room();
        let pass = pass.after(server, &answer);
        (pass, answer)
    }

    /// The lock of a server, once it is free, with the server of that number under it. No type can say which server lies
    /// under a lock of a list, so another is let go, and waited for.
    fn lock_of<R: Wait>(&self, rt: &R, server: u8) -> MutexGuard<'_, Locked>
        requires { server < self.now.servers }
        ensures { (mutex_guard_value result).number ≡ server }
    {
        let _locks = self.locks.len();
        for _ in rt.forever() {
            let guard = self.locks[usize::from(server)].lock(rt);
            if guard.number() == server {
                return guard;
            }
        }
        unreachable!()
    }

    /// The histories of the servers, each legal from the opening that the settings of `start` give to its
    /// server. Each agent has made as many of their items as its one pass counted, and so has the operator;
    /// who hands in no pass has made none. The answer is that of [`close_locked`] on what stood under the locks, which a
    /// fault hands out. Closing takes no memory, so a fault is always told.
    pub fn close(self, passes: Vec<Pass>) -> Result<Histories, CloseFault>
        ensures fault { IfErr result (IsNotClosed self passes.items) }
        ensures legal { IfOk result (AreOf self) }
        ensures counted { IfOk result (AreCounted passes.items askers) }
    {
        let Servers {
            settings,
            locks,
            held,
            histories,
        } = self;
        let held = taken_out(locks, held);
        close_locked(&settings, held, passes.as_slice(), histories)
    }
}

/// The servers as a service opens, in their order.
fn first_servers(alloc: Global, settings: &Settings) -> Result<Vec<Locked>, AllocError>
    ensures servers { IfOk result (λ servers. servers.items ≡ opened_from settings.now 0 settings.now.servers) }
    ensures each { IfOk result (λ servers. vec_len servers ≡ settings.now.servers) }
    ensures few { IfOk result (λ servers. vec_len servers ≤ MAX_SERVERS) }
{
    let count = settings.servers() as u8;
    let mut servers = Vec::new(alloc);
    for number in 0..count {
        servers.push(Locked::opening(alloc, number, settings)?)?;
    }
    Ok(servers)
}

/// Each of these under a lock of its own, in their order.
fn locks_over(alloc: Global, servers: Vec<Locked>) -> Result<Vec<Mutex<Locked>>, AllocError>
    ensures { IfOk result (λ locks. vec_len locks ≡ vec_len servers) }
{
    let mut locks = Vec::with_capacity(alloc, servers.len())?;
    for locked in servers {
        locks.push_reserved(Mutex::new(locked));
    }
    Ok(locks)
}

/// The first passes.
fn first_passes(alloc: Global, settings: &Settings) -> Result<Vec<Pass>, AllocError>
    ensures { IfOk result (λ passes. passes.items ≡ passes_of settings.now.agents) }
{
    let count = settings.agents() as u8;
    let mut passes = Vec::new(alloc);
    for agent in 0..count {
        passes.push(Pass::new(alloc, Some(agent))?)?;
    }
    passes.push(Pass::new(alloc, None)?)?;
    Ok(passes)
}

/// What stood under the locks, in their order, put into this room.
fn taken_out(locks: Vec<Mutex<Locked>>, room: Vec<Locked>) -> Vec<Locked>
    requires empty { vec_len room ≡ 0 }
    requires room { vec_len locks ≤ vec_capacity room }
    ensures { vec_len result ≡ vec_len locks }
{
    let mut held = room;
    for lock in locks {
        held.push_reserved(lock.into_inner());
    }
    held
}
