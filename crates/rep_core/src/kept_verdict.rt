//! A verdict as a server keeps it, with its long lists packed.

ghost use Rattle.std.specs.Prelude.{◌≡◌, ◌≤◌, length, map, IfOk, IfSome, IsTrue};
ghost use Rattle.rep_core.specs.Service.{is_answered};
ghost use Rattle.rep_core.specs.code.KeptVerdicts.{answer_of};

use crate::packed_names::{PackedLists, PackedNames};
use crate::reply::Verdict;
use file_ops::{Answer, Answers};
use std::alloc::{AllocError, Global};
use std::marker::Model;
use std::sync::ArcSlice;

/// The fewest names of a list that is packed.
const LONG: usize = 16;

/// A verdict, which takes less memory where it has long lists. A clone shares its replies.
#[derive(Drop)]
pub(crate) struct KeptVerdict {
    kept: Kept,
}

/// A verdict, or the replies of one with long lists.
#[derive(Drop)]
pub(crate) enum Kept {
    /// As it is.
    Whole(Verdict),
    /// These replies.
    Packed(ArcSlice<KeptAnswer>),
}

/// A reply, or the names of one to List.
#[derive(Drop)]
pub(crate) enum KeptAnswer {
    /// As it is.
    Whole(Answer),
    /// The names of a folder.
    List(PackedNames),
}

impl Model for KeptVerdict {
    ghost use Rattle.rep_core.specs.declared.reply.Verdict.{Verdict};
    ghost use Rattle.rep_core.specs.code.KeptVerdicts.{verdict_of};

    ghost Value = { Verdict };

    ghost view = { λ verdict. verdict_of verdict.kept };
}

impl Clone for KeptVerdict {
    ghost use Rattle.std.specs.Prelude.{◌≡◌};

    ghost is_clone = { λ verdict copy. copy ≡ verdict };

    fn clone(&self) -> Result<KeptVerdict, AllocError> {
        let kept = match &self.kept {
            Kept::Whole(verdict) => Kept::Whole(verdict.clone()?),
            Kept::Packed(replies) => Kept::Packed(replies.clone()?),
        };
        Ok(KeptVerdict { kept })
    }
}

impl KeptVerdict {
    /// A verdict with no list.
    pub(crate) fn whole(verdict: Verdict) -> KeptVerdict
        ensures { result ≡ verdict }
    {
        KeptVerdict {
            kept: Kept::Whole(verdict),
        }
    }

    /// A verdict as it is kept. Its long lists are packed, each once.
    pub(crate) fn new(
        alloc: Global,
        verdict: &Verdict,
        lists: &mut PackedLists,
    ) -> Result<KeptVerdict, AllocError>
        ensures { IfOk result (λ kept. kept ≡ verdict.now) }
    {
        let kept = match verdict {
            Verdict::Answered(replies) if has_long_list(replies.as_slice()) => {
                let packed = packed_each(alloc, replies.as_slice(), lists)?;
                Kept::Packed(ArcSlice::from_vec(packed)?)
            }
            _ => Kept::Whole(verdict.clone()?),
        };
        Ok(KeptVerdict { kept })
    }

    /// The verdict, to be told.
    pub(crate) fn told(&self, alloc: Global) -> Result<Verdict, AllocError>
        ensures { IfOk result (λ verdict. verdict ≡ self.now) }
    {
        match &self.kept {
            Kept::Whole(verdict) => verdict.clone(),
            Kept::Packed(replies) => {
                let replies = told_each(alloc, replies)?;
                Ok(Verdict::Answered(replies))
            }
        }
    }

    /// Whether it is an answer.
    pub(crate) fn is_answered(&self) -> bool
        ensures { result ≡ is_answered self.now }
    {
        match &self.kept {
            Kept::Whole(Verdict::Answered(_)) | Kept::Packed(_) => true,
            Kept::Whole(Verdict::Refused(_) | Verdict::Aborted) => false,
        }
    }

    /// Whether they are the same, and kept in one way.
    pub(crate) fn same(&self, other: &KeptVerdict) -> bool
        ensures { IsTrue result → self.now ≡ other.now }
    {
        match (&self.kept, &other.kept) {
            (Kept::Whole(own), Kept::Whole(theirs)) => own == theirs,
            (Kept::Packed(own), Kept::Packed(theirs)) => same_answers(own, theirs),
            _ => false,
        }
    }
}

fn has_long_list(replies: &[Answer]) -> bool {
    replies.iter().any(is_long_list)
}

fn is_long_list(reply: &Answer) -> bool {
    match reply {
        Answer::List(names) => names.len() >= LONG,
        _ => false,
    }
}

/// Replies as they are kept.
fn packed_each(
    alloc: Global,
    replies: &[Answer],
    lists: &mut PackedLists,
) -> Result<Vec<KeptAnswer>, AllocError>
    ensures { IfOk result (λ kept. map answer_of kept.items ≡ replies.now) }
{
    let mut kept = Vec::with_capacity(alloc, replies.len())?;
    for reply in replies {
        kept.push(packed(alloc, reply, lists)?)?;
    }
    Ok(kept)
}

/// A reply as it is kept.
fn packed(alloc: Global, reply: &Answer, lists: &mut PackedLists) -> Result<KeptAnswer, AllocError>
    ensures { IfOk result (λ kept. answer_of kept ≡ reply.now) }
{
    match reply {
        Answer::List(names) if names.len() >= LONG => {
            if let Some(names) = lists.pack(alloc, names)? {
                return Ok(KeptAnswer::List(names));
            }
        }
        _ => {}
    }
    Ok(KeptAnswer::Whole(reply.clone()?))
}

/// Replies as they are told.
fn told_each(alloc: Global, kept: &[KeptAnswer]) -> Result<Answers, AllocError>
    ensures { IfOk result (λ replies. replies ≡ map answer_of kept.now) }
{
    let mut replies = Vec::with_capacity(alloc, kept.len())?;
    for one in kept {
        replies.push(told(alloc, one)?)?;
    }
    Answers::from_vec(replies)
}

/// A reply as it is told.
fn told(alloc: Global, kept: &KeptAnswer) -> Result<Answer, AllocError>
    ensures { IfOk result (λ reply. reply ≡ answer_of kept.now) }
{
    match kept {
        KeptAnswer::Whole(reply) => reply.clone(),
        KeptAnswer::List(names) => {
            let names = names.unpacked(alloc)?;
            Ok(Answer::List(names))
        }
    }
}

fn same_answers(own: &[KeptAnswer], theirs: &[KeptAnswer]) -> bool
    ensures { IsTrue result → map answer_of own.now ≡ map answer_of theirs.now }
{
    if own.len() != theirs.len() {
        return false;
    }
    for (i, one) in own.iter().enumerate() {
        if !same_answer(one, &theirs[i]) {
            return false;
        }
    }
    true
}

fn same_answer(own: &KeptAnswer, theirs: &KeptAnswer) -> bool
    ensures { IsTrue result → answer_of own.now ≡ answer_of theirs.now }
{
    match (own, theirs) {
        (KeptAnswer::Whole(own), KeptAnswer::Whole(theirs)) => own == theirs,
        (KeptAnswer::List(own), KeptAnswer::List(theirs)) => own.same(theirs),
        _ => false,
    }
}
