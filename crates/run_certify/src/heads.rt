//! The items of histories, each in its turn.

ghost use Rattle.std.specs.Prelude.{◌≡◌, List, IfOk, IfErr, IfSome, IfNone, MatchOption, length, Ok, Err, Some, None};
ghost use Rattle.server_lock.specs.declared.item.Item.{Item};
ghost use Rattle.run_certify.specs.Merges.{ItemAt, IsMerge, history_of};
ghost use Rattle.run_certify.specs.code.Firsts as firsts;
ghost use Rattle.run_certify.specs.code.Firsts.{IsTaken, AreAllPlayed, Lesser};
ghost use Rattle.run_certify.specs.declared.fault.CertifyFault.TheVariants.{Mismatch};

use crate::fault::CertifyFault;
use server_lock::{History, Item};
use std::alloc::{AllocError, Global};
use std::marker::Model;

/// What is left of the histories: of each server the items that were not yet taken.
#[derive(Drop)]
pub(crate) struct Heads<'a> {
    histories: Vec<&'a [Item]>,
}

impl<'a> Model for Heads<'a> {
    ghost use Rattle.std.specs.Prelude.{List, map};
    ghost use Rattle.server_lock.specs.declared.item.Item.{Item};

    ghost Value = { List (List Item) };

    ghost view = { λ heads. map (λ history. history.now) heads.histories.items };
}

/// The first item of a server, and what comes after it.
#[derive(Clone, Copy)]
struct Head<'a> {
    server: usize,
    item: &'a Item,
    later: &'a [Item],
}

impl<'a> Heads<'a> {
    /// All items of the histories.
    pub(crate) fn new(alloc: Global, histories: &'a [History]) -> Result<Heads<'a>, AllocError>
        ensures { IfOk result (λ heads. heads ≡ histories.now) }
    {
        let mut heads = Vec::new(alloc);
        for history in histories {
            heads.push(history.as_slice())?;
        }
        Ok(Heads { histories: heads })
    }

    /// Takes the item that is next: the least by stamp and server. There is no next one where none is left, and there
    /// is a mismatch where a stamp falls in its history.
    pub(crate) fn next(&mut self) -> Result<Option<(usize, &'a Item)>, CertifyFault>
        ensures taken { IfOk result (λ next. IfSome next (λ one. IsTaken self.old one.0 one.1.now self.new)) }
        ensures none { result ≡ Ok None → AreAllPlayed self.old }
        ensures same { result ≡ Ok None → self.new ≡ self.old }
        ensures mismatch { result ≡ Err Mismatch → (items : List ItemAt) → IsMerge self.old items → ⊥ }
    {
        let Some(head) = self.least() else {
            return Ok(None);
        };
        if let Some(next) = head.later.first() {
            if next.stamp < head.item.stamp {
                return Err(CertifyFault::Mismatch);
            }
        }
        self.histories[head.server] = head.later;
        Ok(Some((head.server, head.item)))
    }

    /// The first item that is least by stamp and server.
    fn least(&self) -> Option<Head<'a>>
        ensures { MatchOption result (AreAllPlayed self.now) (λ head. firsts.IsNext self.now head.server head.item.now head.later.now) }
    {
        let mut least: Option<Head<'a>> = None;
        for server in 0..self.histories.len() {
            let history = self.histories[server];
            if let Some((item, later)) = history.split_first() {
                let head = Head {
                    server,
                    item,
                    later,
                };
                least = Some(lesser(least, head));
            }
        }
        least
    }
}

/// The one that is less by stamp, or the first of the two.
fn lesser<'a>(least: Option<Head<'a>>, head: Head<'a>) -> Head<'a>
    ensures { MatchOption least.entry (result ≡ head.entry) (λ it. Lesser it.item.now.stamp head.entry.item.now.stamp (result ≡ it) (result ≡ head.entry)) }
{
    match least {
        Some(before) if before.item.stamp <= head.item.stamp => before,
        _ => head,
    }
}
