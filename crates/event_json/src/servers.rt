//! What servers have, and what changed there.

ghost use Rattle.std.specs.Prelude.{◌≡◌, ◌==◌, ◌++◌, [], OnOk, codes, drop, length};
ghost use Rattle.std.specs.List.{filter_map, find, flat_map};
ghost use Rattle.std.specs.Option.{option_map};
ghost use Rattle.event_json.specs.Locks.{TellsLockChange};
ghost use Rattle.event_json.specs.Servers.{TellsChanges, came_denials, copies_text, denials_text, finished, item_text, left_by, left_text, own_text, server_text, up_text};
ghost use Rattle.event_json.specs.Strings.{listed};
ghost use Rattle.event_json.specs.code.Owning.{kept_by, kept_text, parted_by};

use crate::copies::push_copy;
use crate::locks::{push_changed_locks, push_locks};
use crate::strings::{push_member, truth};
use file_ops::AuditItem;
use rep_core::{Lock, Request, Server};
use std::alloc::{AllocError, Global};
use suite_prefix::StoredCopy;
use suite_script::push_denial;

/// What a server had before a request: its locks, and how many denials it had recorded.
#[derive(Drop)]
pub struct Before {
    number: u8,
    locks: Vec<Lock>,
    denials: usize,
}

impl Before {
    /// Of no server yet.
    pub fn new(alloc: Global) -> Before
        ensures number { result.number ≡ 0 }
        ensures locks { result.locks.items ≡ [] }
        ensures denials { result.denials ≡ 0 }
    {
        Before {
            number: 0,
            locks: Vec::new(alloc),
            denials: 0,
        }
    }

    /// From now on it is what the server of this number has.
    pub fn look(&mut self, number: u8, server: &Server) -> Result<(), AllocError>
        ensures number { OnOk result (self.new.number ≡ number) }
        ensures locks { OnOk result (self.new.locks.items ≡ server.now.state.locks) }
        ensures denials { OnOk result (self.new.denials ≡ length server.now.state.audit) }
    {
        self.number = number;
        self.locks = server.locks()?;
        self.denials = server.audit().len();
        Ok(())
    }

    /// What the server has after a request of what it had not before, or had otherwise: the locks that went and those that
    /// came, the copies that a Finish left, and denials that came.
    pub fn push_changes(
        &self,
        alloc: Global,
        text: &mut Vec<u8>,
        server: &Server,
        request: &Request,
    ) -> Result<(), AllocError>
        ensures { OnOk result (TellsChanges self.now request.now server.now.state text.old.items text.new.items) }
    {
        push_up(text, self.number, server)?;
        self.push_locks_since(alloc, text, server)?;
        self.push_left(alloc, text, server, finished(request))?;
        self.push_denials_since(text, server)?;
        text.extend_from_slice(b"}")?;
        Ok(())
    }

    /// Which locks went, and which came.
    fn push_locks_since(
        &self,
        alloc: Global,
        text: &mut Vec<u8>,
        server: &Server,
    ) -> Result<(), AllocError>
        ensures { OnOk result (TellsLockChange self.now.locks.items server.now.state.locks text.old.items text.new.items) }
    {
        let locks = server.locks()?;
        push_changed_locks(alloc, text, self.locks.as_slice(), locks.as_slice())
    }

    /// The denials that came.
    fn push_denials_since(&self, text: &mut Vec<u8>, server: &Server) -> Result<(), AllocError>
        ensures { OnOk result (text.new.items ≡ text.old.items ++ came_denials (drop self.now.denials server.now.state.audit)) }
    {
        push_came(text, since(server.audit(), self.denials))
    }

    /// The copies that a Finish left, where there was one.
    fn push_left(
        &self,
        alloc: Global,
        text: &mut Vec<u8>,
        server: &Server,
        finished: Option<u64>,
    ) -> Result<(), AllocError>
        ensures { OnOk result (text.new.items ≡ text.old.items ++ left_text finished self.now.locks.items server.now.state.store.copies) }
    {
        match finished {
            Some(t) => {
                text.extend_from_slice(b",\"copies\":[")?;
                self.push_left_by(alloc, text, server, t)?;
                text.extend_from_slice(b"]")
            }
            None => Ok(()),
        }
    }

    /// The copies of the suites on which a transaction had locks to write.
    fn push_left_by(
        &self,
        alloc: Global,
        text: &mut Vec<u8>,
        server: &Server,
        t: u64,
    ) -> Result<(), AllocError>
        ensures { OnOk result (text.new.items ≡ text.old.items ++ listed own_text (filter_map (left_by t server.now.state.store.copies) self.now.locks.items)) }
    {
        push_kept_by(alloc, text, self.locks.as_slice(), server.copies(), t)
    }
}

/// The copies of the suites on which a transaction has locks to write.
fn push_kept_by(
    alloc: Global,
    text: &mut Vec<u8>,
    locks: &[Lock],
    copies: &[(u64, StoredCopy)],
    t: u64,
) -> Result<(), AllocError>
    ensures { OnOk result (text.new.items ≡ text.old.items ++ parted_by [] (filter_map (kept_by t copies.now) locks.now)) }
{
    let mut between: &[u8] = b"";
    for lock in locks {
        if let Some(own) = kept_by(t, copies, *lock) {
            text.extend_from_slice(between)?;
            push_own(alloc, text, own)?;
            between = b",";
        }
    }
    Ok(())
}

/// The transaction that a Finish ends.
fn finished(request: &Request) -> Option<u64>
    ensures { result ≡ finished request.now }
{
    match request {
        Request::Finish { t, .. } => Some(*t),
        _ => None,
    }
}

/// The copy of the suite of a lock, where that is one of a transaction to write.
fn kept_by<'a>(t: u64, copies: &'a [(u64, StoredCopy)], lock: Lock) -> Option<&'a (u64, StoredCopy)>
    ensures { option_map (λ own. own.now) result ≡ kept_by t copies.now lock }
{
    if lock.t == t && lock.mode.is_exclusive() {
        copy_of(copies, lock.suite)
    } else {
        None
    }
}

/// The copy of a suite.
fn copy_of(copies: &[(u64, StoredCopy)], suite: u64) -> Option<&(u64, StoredCopy)>
    ensures { option_map (λ own. own.now) result ≡ find (λ own. own.0 == suite) copies.now }
{
    copies.iter().find(|own| own.0 == suite)
}

/// The denials behind the first ones, as many as are known.
fn since(items: &[AuditItem], known: usize) -> &[AuditItem]
    ensures { result.now ≡ drop known items.now }
{
    items.get(known..).unwrap_or_default()
}

/// Denials that came, where there are some.
fn push_came(text: &mut Vec<u8>, items: &[AuditItem]) -> Result<(), AllocError>
    ensures { OnOk result (text.new.items ≡ text.old.items ++ came_denials items.now) }
{
    if items.is_empty() {
        return Ok(());
    }
    text.extend_from_slice(b",\"denials\":")?;
    push_denials(text, items)
}

/// All that a server has.
pub fn push_server(
    alloc: Global,
    text: &mut Vec<u8>,
    number: u8,
    server: &Server,
) -> Result<(), AllocError>
    ensures { OnOk result (text.new.items ≡ text.old.items ++ server_text number server.now.state) }
{
    push_up(text, number, server)?;
    text.extend_from_slice(b",\"locks\":")?;
    push_locks(text, &server.locks()?)?;
    push_copies(alloc, text, server)?;
    text.extend_from_slice(b",\"denials\":")?;
    push_denials(text, server.audit())?;
    text.extend_from_slice(b"}")?;
    Ok(())
}

/// The member of copies.
fn push_copies(alloc: Global, text: &mut Vec<u8>, server: &Server) -> Result<(), AllocError>
    ensures { OnOk result (text.new.items ≡ text.old.items ++ copies_text server.now.state.store.copies) }
{
    text.extend_from_slice(b",\"copies\":[")?;
    push_owns(alloc, text, server)?;
    text.extend_from_slice(b"]")
}

fn push_owns(alloc: Global, text: &mut Vec<u8>, server: &Server) -> Result<(), AllocError>
    ensures { OnOk result (text.new.items ≡ text.old.items ++ listed own_text server.now.state.store.copies) }
{
    push_kept(alloc, text, server.copies())
}

fn push_kept(
    alloc: Global,
    text: &mut Vec<u8>,
    copies: &[(u64, StoredCopy)],
) -> Result<(), AllocError>
    ensures { OnOk result (text.new.items ≡ text.old.items ++ parted_by [] copies.now) }
{
    let mut between: &[u8] = b"";
    for own in copies {
        text.extend_from_slice(between)?;
        push_own(alloc, text, own)?;
        between = b",";
    }
    Ok(())
}

fn push_own(alloc: Global, text: &mut Vec<u8>, own: &(u64, StoredCopy)) -> Result<(), AllocError>
    ensures { OnOk result (text.new.items ≡ text.old.items ++ kept_text own.now) }
{
    push_copy(alloc, text, own.0, &own.1)
}

/// The number of a server, and whether it is up.
fn push_up(text: &mut Vec<u8>, number: u8, server: &Server) -> Result<(), AllocError>
    ensures { OnOk result (text.new.items ≡ text.old.items ++ up_text number server.now.state.up) }
{
    push_member(text, b"{\"server\":", u64::from(number))?;
    text.extend_from_slice(b",\"up\":")?;
    text.extend_from_slice(truth(server.is_up()))
}

/// A list of denials.
pub fn push_denials(text: &mut Vec<u8>, items: &[AuditItem]) -> Result<(), AllocError>
    ensures { OnOk result (text.new.items ≡ text.old.items ++ denials_text items.now) }
{
    text.extend_from_slice(b"[")?;
    push_items(text, items)?;
    text.extend_from_slice(b"]")
}

fn push_items(text: &mut Vec<u8>, items: &[AuditItem]) -> Result<(), AllocError>
    ensures { OnOk result (text.new.items ≡ text.old.items ++ listed item_text items.now) }
{
    let [first, more @ ..] = items else {
        return Ok(());
    };
    push_item(text, first)?;
    push_more_items(text, more)
}

fn push_more_items(text: &mut Vec<u8>, items: &[AuditItem]) -> Result<(), AllocError>
    ensures { OnOk result (text.new.items ≡ text.old.items ++ flat_map (λ next. codes "," ++ item_text next) items.now) }
{
    for item in items {
        text.extend_from_slice(b",")?;
        push_item(text, item)?;
    }
    Ok(())
}

fn push_item(text: &mut Vec<u8>, item: &AuditItem) -> Result<(), AllocError>
    ensures { OnOk result (text.new.items ≡ text.old.items ++ item_text item.now) }
{
    push_member(text, b"{\"t\":", item.t)?;
    push_member(text, b",\"uid\":", u64::from(item.uid))?;
    text.extend_from_slice(b",\"denied\":\"")?;
    push_denial(text, item.op, item.denial)?;
    text.extend_from_slice(b"\"}")
}
