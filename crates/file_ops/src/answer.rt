//! What a transaction answers.

use acl_core::Lists;
use std::alloc::{AllocError, Global};
use std::marker::Model;
use std::mem;
use std::sync::ArcSlice;
use suite_content::{FileBytes, NameList};
use vote_core::Votes;

/// The reply to an operation. A clone shares the bytes, the names and the lists.
#[derive(Debug, Drop)]
pub enum Answer {
    /// To Read: the bytes of the file.
    Read(FileBytes),
    /// To Write.
    Wrote,
    /// To List: the names of the folder, in byte order.
    List(NameList),
    /// To Make: the number of the new file or folder.
    Made(u64),
    /// To Drop.
    Dropped,
    /// To GetAcl: the access list, and the default list where there is one.
    Acl(Lists),
    /// To SetAcl and SetVotes.
    Set,
    /// To GetVotes: the votes.
    Votes(Votes),
}

impl Clone for Answer {
    ghost use Rattle.std.specs.Prelude.{◌≡◌};

    ghost is_clone = { λ answer copy. copy ≡ answer };

    fn clone(&self) -> Result<Answer, AllocError> {
        Ok(match self {
            Answer::Read(bytes) => Answer::Read(bytes.clone()?),
            Answer::Wrote => Answer::Wrote,
            Answer::List(names) => Answer::List(names.clone()?),
            Answer::Made(number) => Answer::Made(*number),
            Answer::Dropped => Answer::Dropped,
            Answer::Acl(acl) => Answer::Acl(acl.clone()?),
            Answer::Set => Answer::Set,
            Answer::Votes(votes) => Answer::Votes(*votes),
        })
    }
}

impl PartialEq for Answer {
    ghost use Rattle.file_ops.specs.code.AnswerEquality.{same_answer, same_answer_partial_laws};

    ghost eq = { same_answer };

    ghost laws = { same_answer_partial_laws };

    fn eq(&self, other: &Answer) -> bool {
        match (self, other) {
            (Answer::Read(own), Answer::Read(theirs)) => own == theirs,
            (Answer::Wrote, Answer::Wrote)
            | (Answer::Dropped, Answer::Dropped)
            | (Answer::Set, Answer::Set) => true,
            (Answer::List(own), Answer::List(theirs)) => own == theirs,
            (Answer::Made(own), Answer::Made(theirs)) => own == theirs,
            (Answer::Acl(own), Answer::Acl(theirs)) => own == theirs,
            (Answer::Votes(own), Answer::Votes(theirs)) => own == theirs,
            _ => false,
        }
    }
}

impl Eq for Answer {
    ghost use Rattle.file_ops.specs.code.AnswerEquality.{same_answer_laws};

    ghost laws = { same_answer_laws };
}

/// The replies to the operations of a transaction, in their order. They are never changed, and a clone
/// shares them.
#[derive(Debug, Drop)]
pub struct Answers {
    replies: ArcSlice<Answer>,
}

impl Model for Answers {
    ghost use Rattle.std.specs.Prelude.{List};
    ghost use Rattle.std.specs.Arc.{arc_slice_items};
    ghost use Rattle.file_ops.specs.declared.answer.Answer.{Answer};

    ghost Value = { List Answer };

    ghost view = { λ answers. arc_slice_items answers.replies };
}

impl Clone for Answers {
    ghost use Rattle.std.specs.Prelude.{◌≡◌};

    ghost is_clone = { λ answers copy. copy ≡ answers };

    fn clone(&self) -> Result<Answers, AllocError> {
        let replies = self.replies.clone()?;
        Ok(Answers { replies })
    }
}

impl PartialEq for Answers {
    ghost use Rattle.file_ops.specs.code.AnswerEquality.{same_answers, same_answers_partial_laws};

    ghost eq = { same_answers };

    ghost laws = { same_answers_partial_laws };

    fn eq(&self, other: &Answers) -> bool {
        self.replies == other.replies
    }
}

impl Eq for Answers {
    ghost use Rattle.file_ops.specs.code.AnswerEquality.{same_answers_laws};

    ghost laws = { same_answers_laws };
}

impl Answers {
    ghost use Rattle.std.specs.Prelude.{◌≡◌, IfOk};

    /// The replies of a vector, which are not copied.
    pub fn from_vec(answers: Vec<Answer>) -> Result<Answers, AllocError>
        ensures { IfOk result (λ replies. replies ≡ answers.items) }
    {
        let replies = ArcSlice::from_vec(answers)?;
        Ok(Answers { replies })
    }

    /// The replies, one an operation.
    pub fn as_slice(&self) -> &[Answer]
        ensures { result.now ≡ self.now }
    {
        &self.replies
    }
}

/// Replies, to which more are added.
#[derive(Drop)]
pub(crate) struct Replies {
    answers: Vec<Answer>,
}

impl Model for Replies {
    ghost use Rattle.std.specs.Prelude.{List};
    ghost use Rattle.file_ops.specs.declared.answer.Answer.{Answer};

    ghost Value = { List Answer };

    ghost view = { λ replies. replies.answers.items };
}

impl Replies {
    ghost use Rattle.std.specs.Prelude.{◌≡◌, [], ◌∷◌, ◌++◌, IfOk, OnOk, OnErr};

    /// No replies.
    pub(crate) fn new(alloc: Global) -> Replies
        ensures { result ≡ [] }
    {
        Replies {
            answers: Vec::new(alloc),
        }
    }

    /// Adds a reply.
    pub(crate) fn push(&mut self, answer: Answer) -> Result<(), AllocError>
        ensures ok { OnOk result (self.new ≡ self.old ++ answer ∷ []) }
        ensures err { OnErr result (self.new ≡ self.old) }
    {
        self.answers.push(answer)?;
        Ok(())
    }

    /// The replies, which are taken out.
    pub(crate) fn finish(&mut self) -> Result<Answers, AllocError>
        ensures { IfOk result (λ answers. answers ≡ self.old) }
    {
        let alloc = *self.answers.allocator();
        Answers::from_vec(mem::replace(&mut self.answers, Vec::new(alloc)))
    }
}
