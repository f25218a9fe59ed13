//! The first step of an event: what comes of what was placed before it, whose tables are not needed any more.

ghost use Rattle.std.specs.Prelude.{◌≡◌, ◌⊎◌, ◌<◌, ◌^◌, IfOk, OnOk, length};
ghost use Rattle.std.specs.List.{Contains};
ghost use Rattle.history_judge.specs.Events.{ComesOn, HasGrown, IsDone, IsNext, IsPassed, SomeEnds, Ends};
ghost use Rattle.history_judge.specs.Placing.{AllHold, Holds, Kept};
ghost use Rattle.history_judge.specs.Windows.{IsDue};

use crate::event::Event;
use crate::history::call_at;
use crate::links::{Link, push_link};
use crate::placed::{Found, Placed, is_among, join};
use crate::trying::apply_fitting;
use std::alloc::{AllocError, Global};

impl<'a> Event<'a> {
    /// What comes of placing the call that is due, where it stands right. The table is not copied.
    fn next_in_place(
        &self,
        links: &mut Vec<Link>,
        mut placed: Placed,
    ) -> Result<Option<Placed>, AllocError>
        requires few { length self.now.history.now < 2 ^ 60 }
        requires due { IsDue self.now.history.now self.now.pending.now self.now.settled.now self.now.due }
        requires holds { Holds self.now.opening.now self.now.history.now links.old.items self.now.settled.now placed }
        requires lacks { Contains placed.early.items self.now.due.number → ⊥ }
        ensures kept { OnOk result (Kept links.old.items links.new.items) }
        ensures next { IfOk result (λ next. IsNext self.now.opening.now self.now.history.now self.now.settled.now
            links.new.items placed self.now.due.number next) }
    {
        let number = self.due.number;
        let call = call_at(self.history, number);
        if call.called > self.due.time {
            return Ok(None);
        }
        if !apply_fitting(&mut placed.table, number as u64, call)? {
            return Ok(None);
        }
        placed.link = push_link(links, placed.link, number)?;
        join(&mut placed.early, number)?;
        placed.unfit.clear();
        placed.effects.add(call)?;
        Ok(Some(placed))
    }

    /// Adds what comes of placing a pending call that is not due, where it stands right.
    fn place_other(
        &self,
        links: &mut Vec<Link>,
        found: &mut Found,
        placed: &Placed,
        number: usize,
    ) -> Result<(), AllocError>
        requires few { length self.now.history.now < 2 ^ 60 }
        requires due { IsDue self.now.history.now self.now.pending.now self.now.settled.now self.now.due }
        requires pending { Contains self.now.pending.now number }
        requires hold { AllHold self.now.opening.now self.now.history.now links.old.items self.now.settled.now found.old.list.items }
        requires holds { Holds self.now.opening.now self.now.history.now links.old.items self.now.settled.now placed.now }
        requires lacks { Contains placed.now.early.items self.now.due.number → ⊥ }
        ensures grown { OnOk result (HasGrown self.now.opening.now self.now.history.now self.now.settled.now
            links.old.items links.new.items found.old.list.items found.new.list.items) }
        ensures tried { OnOk result ((number ≡ self.now.due.number)
            ⊎ IsDone self.now.opening.now self.now.history.now self.now.settled.now self.now.pending.now found.new.list.items placed.now number) }
    {
        if number == self.due.number {
            return Ok(());
        }
        if self.waits(placed, number) {
            return Ok(());
        }
        match self.next(links, placed, number)? {
            Some(next) => self.admit(links, found, next),
            None => Ok(()),
        }
    }

    /// Adds what comes of placing the call that is due, where it stands right.
    fn place_due(
        &self,
        links: &mut Vec<Link>,
        found: &mut Found,
        placed: Placed,
    ) -> Result<(), AllocError>
        requires few { length self.now.history.now < 2 ^ 60 }
        requires due { IsDue self.now.history.now self.now.pending.now self.now.settled.now self.now.due }
        requires hold { AllHold self.now.opening.now self.now.history.now links.old.items self.now.settled.now found.old.list.items }
        requires holds { Holds self.now.opening.now self.now.history.now links.old.items self.now.settled.now placed }
        requires lacks { Contains placed.early.items self.now.due.number → ⊥ }
        ensures grown { OnOk result (HasGrown self.now.opening.now self.now.history.now self.now.settled.now
            links.old.items links.new.items found.old.list.items found.new.list.items) }
        ensures tried { OnOk result (IsPassed self.now.opening.now self.now.history.now self.now.settled.now
            found.new.list.items placed self.now.due.number) }
    {
        match self.next_in_place(links, placed)? {
            Some(next) => self.admit(links, found, next),
            None => Ok(()),
        }
    }

    /// Adds what comes of placing each pending call, where it stands right.
    fn spread(
        &self,
        links: &mut Vec<Link>,
        found: &mut Found,
        placed: Placed,
    ) -> Result<(), AllocError>
        requires few { length self.now.history.now < 2 ^ 60 }
        requires due { IsDue self.now.history.now self.now.pending.now self.now.settled.now self.now.due }
        requires hold { AllHold self.now.opening.now self.now.history.now links.old.items self.now.settled.now found.old.list.items }
        requires holds { Holds self.now.opening.now self.now.history.now links.old.items self.now.settled.now placed }
        requires lacks { Contains placed.early.items self.now.due.number → ⊥ }
        ensures grown { OnOk result (HasGrown self.now.opening.now self.now.history.now self.now.settled.now
            links.old.items links.new.items found.old.list.items found.new.list.items) }
        ensures on { OnOk result (ComesOn self.now.opening.now self.now.history.now self.now.settled.now
            found.new.list.items placed) }
    {
        for i in 0..self.pending.len() {
            self.place_other(links, found, &placed, self.pending[i])?;
        }
        self.place_due(links, found, placed)
    }

    /// Adds what was placed, if it has the call that is due; else what comes of it.
    fn step(
        &self,
        links: &mut Vec<Link>,
        found: &mut Found,
        placed: Placed,
    ) -> Result<(), AllocError>
        requires few { length self.now.history.now < 2 ^ 60 }
        requires due { IsDue self.now.history.now self.now.pending.now self.now.settled.now self.now.due }
        requires hold { AllHold self.now.opening.now self.now.history.now links.old.items self.now.settled.now found.old.list.items }
        requires holds { Holds self.now.opening.now self.now.history.now links.old.items self.now.settled.now placed }
        ensures grown { OnOk result (HasGrown self.now.opening.now self.now.history.now self.now.settled.now
            links.old.items links.new.items found.old.list.items found.new.list.items) }
        ensures ends { OnOk result (Ends self.now.opening.now self.now.history.now self.now.settled.now placed
            → SomeEnds self.now.opening.now self.now.history.now self.now.settled.now found.new.list.items) }
    {
        if is_among(&placed.early, self.due.number) {
            return found.add(self.history, placed);
        }
        self.spread(links, found, placed)
    }

    /// Where one alone was found, what comes of it; else all that was found. One of many stays, since others may lead to
    /// it.
    pub(crate) fn step_alone(
        &self,
        alloc: Global,
        links: &mut Vec<Link>,
        mut first: Found,
    ) -> Result<Found, AllocError>
        requires few { length self.now.history.now < 2 ^ 60 }
        requires due { IsDue self.now.history.now self.now.pending.now self.now.settled.now self.now.due }
        requires hold { AllHold self.now.opening.now self.now.history.now links.old.items self.now.settled.now first.list.items }
        ensures hold { IfOk result (λ found. AllHold self.now.opening.now self.now.history.now links.new.items self.now.settled.now found.list.items) }
        ensures ends { IfOk result (λ found. SomeEnds self.now.opening.now self.now.history.now self.now.settled.now first.list.items
            → SomeEnds self.now.opening.now self.now.history.now self.now.settled.now found.list.items) }
    {
        if first.list.len() != 1 {
            return Ok(first);
        }
        let mut found = Found::new(alloc);
        while let Some(placed) = first.list.pop() {
            self.step(links, &mut found, placed)?;
        }
        Ok(found)
    }
}
