//! Stored copies and intentions. Nothing else touches them.

ghost use Rattle.std.specs.Prelude.{◌≡◌, ◌++◌, ◌∷◌, ℕ, ◌≤◌, ◌<◌, ◌+◌, length, [], is_some, option_map, IfOk, OnOk, OnErr, IsTrue, IfSome, true, false, unwrap_or, None, Some, nat_le, nat_lt, min, count_by};
ghost use Rattle.std.specs.List.{list_any, list_all};
ghost use Rattle.std.specs.Option.{option_copied};
ghost use Rattle.std.specs.Ordering.{nat_cmp};
ghost use Rattle.sorted_map.specs.SortedMap.{IsOrdered, get};
ghost use Rattle.suite_prefix.specs.Copies.{IsCopy};
ghost use Rattle.suite_prefix.specs.TestsExact.{CopyFits};
ghost use Rattle.vote_core.specs.Quorums.{Configuration};
ghost use Rattle.suite_prefix.specs.declared.copies.Replica.{Replica};
ghost use Rattle.suite_prefix.specs.Absent.{absent_copy};
ghost use Rattle.rep_core.specs.code.Filling.{takes_new};
ghost use Rattle.rep_core.specs.code.Planning.{planned_of, copies_in, forms_in, in_form_2};
ghost use Rattle.rep_core.specs.Service.{held, given};
ghost use Rattle.rep_core.specs.Store as store;

use crate::copying::copied;
use crate::intention::Planned;
use crate::maps::{forget, install, keep_all, keep_content, keep_head};
use crate::opening_copies::opening_copies;
use crate::reply::Reply;
use crate::request::{Part, Take};
use crate::sameness::{same_copies, same_intentions, same_votes};
use crate::takes::{any_holds_last, is_keep, is_whole, may_become, take_nothing};
use sorted_map::RoomyMap;
use std::alloc::{AllocError, Global};
use std::marker::Model;
use suite_content::{Content, Kind};
use suite_prefix::{Form, Prefix, PrefixKind, Replica, Settings, SharedPrefix, StoredCopy};

/// The most suites that a server has a copy or an intention of.
pub const MAX_SUITES: usize = 4_096;

/// The copies and the intentions of a server, by suite, with room for the copies that the intentions
/// will be; and the prefix of what was never made. It shows how many more intentions it takes without
/// memory.
#[derive(Drop)]
pub(crate) struct Store {
    alloc: Global,
    absent: SharedPrefix,
    copies: RoomyMap<u64, StoredCopy>,
    intentions: RoomyMap<u64, Planned>,
}

impl Model for Store {
    ghost use Rattle.std.specs.Prelude.{◌≡◌, ◌≤◌, length};
    ghost use Rattle.suite_prefix.specs.Absent.{absent_prefix};
    ghost use Rattle.rep_core.specs.Store.{IsSound};
    ghost use Rattle.rep_core.specs.code.Holding.{Storing};
    ghost use Rattle.rep_core.specs.code.StoreFields.{store_of, storing_of};
    ghost use Rattle.rep_core.specs.code.Planning.{Leaves, copies_in};

    ghost Value = { Storing };

    ghost view = { storing_of };

    ghost invariant = { λ fields. (fields.absent ≡ absent_prefix fields.absent.votes) × (length fields.intentions.pairs ≤ fields.copies.room)
        × IsSound (store_of fields) × Leaves (copies_in fields.copies.pairs) fields.intentions.pairs };
}

impl Store {
    /// The store of the server of this number as a service opens: a representative of the opening votes
    /// has the root.
    pub(crate) fn opening(
        alloc: Global,
        index: u8,
        settings: &Settings,
    ) -> Result<Store, AllocError>
        ensures { IfOk result (λ made. made.store ≡ store.opening_store index settings.now) }
    {
        let copies = opening_copies(alloc, index, settings)?;
        let prefix = Prefix::absent(alloc, *settings.c0())?;
        let absent = SharedPrefix::new(alloc, prefix)?;
        Ok(Store {
            alloc,
            absent,
            copies,
            intentions: RoomyMap::new(alloc),
        })
    }

    /// A law: each copy is sound, and so is what each intention leaves of it. It does nothing.
    pub(crate) fn sound(&self)
        ensures { store.IsSound self.now.store }
    {
        let _ = &self.absent;
    }

    /// An equal store.
    pub(crate) fn copy(&self) -> Result<Store, AllocError>
        ensures { IfOk result (λ made. made.store ≡ self.now.store) }
    {
        let intentions = copied(self.alloc, self.intentions.as_slice())?;
        let mut copies = copied(self.alloc, self.copies.as_slice())?;
        copies.reserve(intentions.len())?;
        let absent = self.absent.clone()?;
        Ok(Store {
            alloc: self.alloc,
            absent,
            copies,
            intentions,
        })
    }

    /// Whether they are the same.
    pub(crate) fn same(&self, other: &Store) -> bool
        ensures { IsTrue result → self.now.store ≡ other.now.store }
    {
        if !same_votes(&self.absent, &other.absent) {
            return false;
        }
        if !same_copies(self.copies.as_slice(), other.copies.as_slice()) {
            return false;
        }
        same_intentions(self.intentions.as_slice(), other.intentions.as_slice())
    }

    /// Reads the prefix of a suite's copy where nobody did, and keeps it.
    pub(crate) fn keep_head(&mut self, suite: u64) -> Result<(), AllocError>
        ensures { self.new.store ≡ self.old.store }
    {
        let kept = match self.stored(suite) {
            Some(copy) => copy.keeps_head(),
            None => true,
        };
        if kept {
            return Ok(());
        }
        keep_head(self.alloc, &mut self.copies, suite)
    }

    /// Reads all of a suite's copy where nobody did, and keeps it.
    pub(crate) fn keep_content(&mut self, suite: u64) -> Result<(), AllocError>
        ensures { self.new.store ≡ self.old.store }
    {
        let kept = match self.stored(suite) {
            Some(copy) => copy.keeps_content(),
            None => true,
        };
        if kept {
            return Ok(());
        }
        keep_content(self.alloc, &mut self.copies, suite)
    }

    /// Writes that a suite is held: the prefix of its copy, and the version of the content.
    pub(crate) fn hold(&self, suite: u64, reply: &mut Reply) -> Result<(), AllocError>
        ensures reply { OnOk result (reply.new ≡ held (store.copy_of self.now.store suite)) }
        ensures place { OnErr result (reply.new ≡ reply.old) }
    {
        match self.stored(suite) {
            Some(copy) => {
                let (prefix, dver) = copy.head(self.alloc)?;
                *reply = Reply::Held { prefix, dver };
                Ok(())
            }
            None => tell_held(&self.absent, 0, reply),
        }
    }

    /// Writes the content of a suite's copy, and its version.
    pub(crate) fn give(&self, suite: u64, reply: &mut Reply) -> Result<(), AllocError>
        ensures reply { OnOk result (reply.new ≡ given (store.copy_of self.now.store suite)) }
        ensures place { OnErr result (reply.new ≡ reply.old) }
    {
        let (dver, content) = match self.stored(suite) {
            Some(copy) => copy.given(self.alloc)?,
            None => (0, Content::empty(self.alloc, Kind::File)),
        };
        *reply = Reply::Given { dver, content };
        Ok(())
    }

    /// Whether a part may be prepared.
    pub(crate) fn is_sound_part(&self, part: &Part) -> bool
        ensures { result ≡ store.is_sound_part self.now.store part.now }
    {
        (is_keep(&part.take) || part.mode.is_exclusive()) && self.goes_with(part.suite, &part.take)
    }

    /// Whether what is taken goes with the copy of a suite.
    fn goes_with(&self, suite: u64, what: &Take) -> bool
        ensures { result ≡ store.goes_with what.now (store.copy_of self.now.store suite) }
    {
        match what {
            Take::Keep => true,
            Take::Prefix(prefix) => {
                prefix.is_valid()
                    && !prefix.kind.is_absent()
                    && may_become(self.kind_of(suite), prefix.kind)
            }
            Take::Whole(replica) => replica.is_valid(),
        }
    }

    /// The kind of a suite's copy.
    fn kind_of(&self, suite: u64) -> PrefixKind
        ensures { result ≡ (store.copy_of self.now.store suite).prefix.kind }
    {
        match self.stored(suite) {
            Some(copy) => copy.kind(),
            None => self.absent.kind,
        }
    }

    /// The copy of a suite that has one. The place of its number is looked at before the others are searched:
    /// there stands a suite that no lower one is missing before, as the root folder, and the first folders
    /// that were made, through which most ways lead. Without that look `play` takes 3 percent more.
    pub(crate) fn stored(&self, suite: u64) -> Option<&StoredCopy>
        ensures copy { option_map (λ kept. kept.copy) (option_copied result) ≡ get nat_cmp self.now.store.copies suite }
        ensures form { option_map (λ kept. kept.form) (option_copied result) ≡ store.form_of self.now.store suite }
    {
        match self.copies.as_slice().get(suite as usize) {
            Some((there, copy)) if *there == suite => Some(copy),
            _ => self.copies.get(&suite),
        }
    }

    /// Whether the intentions of a Prepare are too much.
    pub(crate) fn overfills(&self, parts: &[Part]) -> bool
        requires { store.lists_twice parts.now ≡ false }
        ensures { (t : ℕ) → result ≡ store.overfills t self.now.store parts.now }
    {
        any_holds_last(parts) || self.exceeds(parts)
    }

    /// Whether too many suites would have a copy or an intention. They are counted only where they may be
    /// too many.
    fn exceeds(&self, parts: &[Part]) -> bool
        requires { store.lists_twice parts.now ≡ false }
        ensures { (t : ℕ) → result ≡ nat_lt store.max_suites (store.suites_with (store.intended t parts.now self.now.store)) }
    {
        let most = self
            .copies
            .len()
            .saturating_add(self.intentions.len())
            .saturating_add(parts.len());
        most > MAX_SUITES && self.suites_with(parts) > MAX_SUITES
    }

    /// How many suites have a copy or an intention, and how many parts take another.
    fn suites_with(&self, parts: &[Part]) -> usize
        ensures rising { IsOrdered nat_cmp self.now.store.intentions }
        ensures count { result ≡ min (store.suites_with self.now.store + count_by (takes_new self.now.store) parts.now) usize.MAX }
    {
        let planned = self.intentions.as_slice();
        let without_copy = planned.iter().filter(|pair| !self.has_copy(pair.0)).count();
        let new = parts.iter().filter(|part| self.takes_new(part)).count();
        self.copies
            .len()
            .saturating_add(without_copy)
            .saturating_add(new)
    }

    /// Whether a part takes a suite of which there is neither a copy nor an intention.
    fn takes_new(&self, part: &Part) -> bool
        ensures { result ≡ takes_new self.now.store part.now }
    {
        !is_keep(&part.take)
            && !self.has_copy(part.suite)
            && !self.intentions.contains_key(&part.suite)
    }

    /// Whether there is a copy of a suite.
    fn has_copy(&self, suite: u64) -> bool
        ensures { result ≡ store.has_copy self.now.store suite }
    {
        self.copies.contains_key(&suite)
    }

    /// The intentions of a Prepare, with room for them, and for the copies that they will be.
    pub(crate) fn plan(&mut self, t: u64, parts: &[Part]) -> Result<Vec<(u64, Planned)>, AllocError>
        requires sound { list_all (store.is_sound_part self.old.store) parts.now ≡ true }
        requires few { store.overfills t self.old.store parts.now ≡ false }
        ensures room { OnOk result (length parts.now ≤ self.new.room) }
        ensures planned { IfOk result (λ planned. planned.items ≡ planned_of self.old.store.c0 self.old.store.copies t parts.now) }
        ensures store { self.new.store ≡ self.old.store }
    {
        let planned = self.planned(t, parts)?;
        self.copies
            .reserve(self.intentions.as_slice().len() + parts.len())?;
        self.intentions.reserve(parts.len())?;
        Ok(planned)
    }

    /// The intentions of a Prepare.
    fn planned(&self, t: u64, parts: &[Part]) -> Result<Vec<(u64, Planned)>, AllocError>
        requires sound { list_all (store.is_sound_part self.now.store) parts.now ≡ true }
        requires new { list_any (λ part. store.holds_last part.take) parts.now ≡ false }
        ensures { IfOk result (λ made. made.items ≡ planned_of self.now.store.c0 self.now.store.copies t parts.now) }
    {
        let mut made = Vec::new(self.alloc);
        for part in parts {
            self.plan_part(t, part, &mut made)?;
        }
        Ok(made)
    }

    /// Adds the intention of a part, where it takes something.
    fn plan_part(
        &self,
        t: u64,
        part: &Part,
        made: &mut Vec<(u64, Planned)>,
    ) -> Result<(), AllocError>
        requires sound { store.is_sound_part self.now.store part.now ≡ true }
        requires new { store.holds_last part.now.take ≡ false }
        ensures { OnOk result (made.new.items ≡ made.old.items ++ planned_of self.now.store.c0 self.now.store.copies t (part.now ∷ [])) }
    {
        if is_keep(&part.take) {
            return Ok(());
        }
        let left = self.left(part)?;
        let whole = is_whole(&part.take);
        made.push((part.suite, Planned { t, whole, left }))?;
        Ok(())
    }

    /// What a part leaves of its suite's copy.
    fn left(&self, part: &Part) -> Result<StoredCopy, AllocError>
        requires sound { store.is_sound_part self.now.store part.now ≡ true }
        requires new { store.holds_last part.now.take ≡ false }
        requires takes { store.is_keep part.now.take ≡ false }
        ensures { IfOk result (λ left. left ≡ in_form_2 (store.left_by part.now.take (store.copy_of self.now.store part.now.suite))) }
    {
        self.sound();
        self.fits(part.suite);
        match &part.take {
            Take::Keep => Err(AllocError),
            Take::Prefix(prefix) => {
                prefix.fits();
                self.under(part.suite, prefix)
            }
            Take::Whole(replica) => {
                replica.fits();
                StoredCopy::new(self.alloc, replica)
            }
        }
    }

    /// A law: the copy of a suite fits its types. It does nothing.
    fn fits(&self, suite: u64)
        ensures { CopyFits (store.copy_of self.now.store suite) }
    {
        self.absent.fits();
        if let Some(copy) = self.stored(suite) {
            let _bytes = copy.as_bytes();
        }
    }

    /// The copy of a suite under another prefix.
    fn under(&self, suite: u64, prefix: &Prefix) -> Result<StoredCopy, AllocError>
        requires { IsCopy (store.with_prefix prefix.now (store.copy_of self.now.store suite)) }
        ensures { IfOk result (λ left. left ≡ in_form_2 (store.with_prefix prefix.now (store.copy_of self.now.store suite))) }
    {
        match self.stored(suite) {
            Some(copy) => copy.under(self.alloc, prefix),
            None => first_copy(self.alloc, prefix),
        }
    }

    /// Keeps the intentions of a Prepare, for which there is room.
    #[inline(always)]
    pub(crate) fn intend(&mut self, t: u64, parts: &[Part], planned: Vec<(u64, Planned)>)
        requires sound { list_all (store.is_sound_part self.old.store) parts.now ≡ true }
        requires few { store.overfills t self.old.store parts.now ≡ false }
        requires room { length parts.now ≤ self.old.room }
        requires made { planned.items ≡ planned_of self.old.store.c0 self.old.store.copies t parts.now }
        ensures { self.new.store ≡ store.intended t parts.now self.old.store }
    {
        if take_nothing(parts) {
            return;
        }
        keep_all(&mut self.intentions, planned);
    }

    /// The copies, by suite.
    pub(crate) fn copies(&self) -> &[(u64, StoredCopy)]
        ensures copies { copies_in result.now ≡ self.now.store.copies }
        ensures forms { forms_in result.now ≡ self.now.store.forms }
    {
        self.copies.as_slice()
    }

    /// The form that the copy of a suite is written in, where it has one.
    pub(crate) fn form(&self, suite: u64) -> Option<Form>
        ensures { result ≡ store.form_of self.now.store suite }
    {
        match self.stored(suite) {
            Some(copy) => Some(copy.form()),
            None => None,
        }
    }

    /// Lends the bytes of the copy of a suite that has one, as they stand.
    pub(crate) fn record(&self, suite: u64) -> Option<&[u8]>
        ensures stored { is_some result ≡ store.has_copy self.now.store suite }
        ensures formed { is_some result ≡ is_some (store.form_of self.now.store suite) }
        ensures bytes { IfSome result (λ bytes. store.IsWrittenAs self.now.store suite bytes.now) }
        ensures held { IfSome result (λ bytes. store.IsHeldInForm self.now.store suite) }
        ensures valid { IfSome result (λ bytes. IsCopy (store.copy_of self.now.store suite)) }
    {
        match self.stored(suite) {
            Some(copy) => Some(copy.as_bytes()),
            None => None,
        }
    }

    /// What a prepared transaction leaves of a suite once it is decided, where one is.
    pub(crate) fn prepared(&self, suite: u64) -> Option<(u64, &StoredCopy)>
        ensures { option_map (λ prepared. (prepared.0, prepared.1.now.copy)) result ≡ store.prepared_of self.now.store suite }
    {
        match self.intentions.get(&suite) {
            Some(planned) => Some((planned.t, &planned.left)),
            None => None,
        }
    }

    /// Lets the intentions of a transaction go. Where it was answered they become copies.
    #[inline(always)]
    pub(crate) fn finish(&mut self, t: u64, answered: bool)
        ensures { self.new.store ≡ store.finished t answered self.old.store }
    {
        if answered {
            install(&mut self.copies, &mut self.intentions, t);
        } else {
            forget(&mut self.intentions, t);
        }
    }
}

fn tell_held(prefix: &SharedPrefix, dver: u64, reply: &mut Reply) -> Result<(), AllocError>
    ensures reply { OnOk result (reply.new ≡ Reply.Held prefix.now dver) }
    ensures place { OnErr result (reply.new ≡ reply.old) }
{
    let prefix = prefix.clone()?;
    *reply = Reply::Held { prefix, dver };
    Ok(())
}

/// What a prefix makes of what was never made.
fn first_copy(alloc: Global, prefix: &Prefix) -> Result<StoredCopy, AllocError>
    requires { (c0 : Configuration) → IsCopy (store.with_prefix prefix.now (absent_copy c0)) }
    ensures { (c0 : Configuration) → IfOk result (λ left. left ≡ in_form_2 (store.with_prefix prefix.now (absent_copy c0))) }
{
    let prefix = prefix.clone()?;
    let content = Content::empty(alloc, prefix.kind.held());
    let copy = Replica {
        prefix,
        dver: 0,
        content,
    };
    StoredCopy::new(alloc, &copy)
}
