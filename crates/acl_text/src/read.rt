//! Lists read from their text.

ghost use Rattle.std.specs.Prelude.{◌≡◌, ◌≢◌, List, [], ◌∷◌, ◌++◌, None, Some, Err, IfOk, IfErr, OnOk, IsPermutation};
ghost use Rattle.acl_core.specs.Tallies.{IsTallyOf};
ghost use Rattle.acl_core.specs.declared.entry.Entry.{Entry};
ghost use Rattle.acl_text.specs.Faults.{fault_at, fault_of_list};
ghost use Rattle.acl_text.specs.code.Tallied.{AreTallied, ForTallied};
ghost use Rattle.acl_text.specs.declared.item.SidedEntry.{SidedEntry};
ghost use Rattle.acl_text.specs.declared.item.Side.TheVariants.{Access, Default};
ghost use Rattle.acl_text.specs.Sides.{default_entries, default_of, entries_of, lists_of};
ghost use Rattle.acl_text.specs.Texts.{HasEntriesToKeep, SpellsLists, default_fault, fault, first_item_fault, lists_fault, readings, said_before, said_in};
ghost use Rattle.acl_text.specs.declared.read.TextFault.TheVariants.{Memory};

use crate::cut::Items;
use crate::item::{ItemFault, Side, SidedEntry, read_item};
use crate::names::Names;
use acl_core::{Acl, AclError, AclFault, Lists, Tally};
use std::alloc::{AllocError, Global};
use thiserror::Error;

/// Why no list was read. Items are numbered from 1, empty ones too.
#[derive(Clone, Copy, PartialEq, Eq, Debug, Error)]
pub enum TextFault {
    /// An item has the form of no entry.
    #[error("item {0} is no entry")]
    Syntax(usize),
    /// The name of a user or a group has no number.
    #[error("item {0} has an unknown name")]
    UnknownName(usize),
    /// The number of a user or a group is above 4294967295.
    #[error("item {0} has a number that is too big")]
    NumberTooBig(usize),
    /// The entries are no valid list.
    #[error("the entries are no valid list: {0}")]
    Invalid(AclFault),
    /// The entries of the default list are no valid list.
    #[error("the entries of the default list are no valid list: {0}")]
    DefaultInvalid(AclFault),
    /// Memory ran out.
    #[error("out of memory")]
    Memory,
}

impl From<AllocError> for TextFault {
    ghost from_gives = { λ _ fault. fault ≡ Memory };

    fn from(_error: AllocError) -> TextFault {
        TextFault::Memory
    }
}

impl From<AclError> for TextFault {
    ghost from_gives = { λ error fault. fault ≡ fault_of_list error };

    fn from(error: AclError) -> TextFault {
        match error {
            AclError::Invalid(fault) => TextFault::Invalid(fault),
            AclError::Memory => TextFault::Memory,
        }
    }
}

impl ItemFault {
    /// The fault of an item, by the item's number.
    fn at(self, number: usize) -> TextFault
        ensures { result ≡ fault_at self number }
    {
        match self {
            ItemFault::Syntax => TextFault::Syntax(number),
            ItemFault::UnknownName => TextFault::UnknownName(number),
            ItemFault::NumberTooBig => TextFault::NumberTooBig(number),
        }
    }
}

/// The default list of the entries that were taken, if there were some.
fn default_list(entries: Tally) -> Result<Option<Acl>, TextFault>
    ensures value { IfOk result (λ list. (taken : List Entry) → IsTallyOf entries taken → list ≡ default_of taken) }
    ensures same_entries { IfOk result (λ list. (taken : List Entry) → IsTallyOf entries taken → IsPermutation taken (default_entries list)) }
    ensures faultless { OnOk result ((taken : List Entry) → IsTallyOf entries taken → default_fault taken ≡ None) }
    ensures refused { IfErr result (λ e. (taken : List Entry) → IsTallyOf entries taken → e ≢ TextFault.Memory → default_fault taken ≡ Some e) }
{
    if entries.is_empty() {
        return Ok(None);
    }
    match entries.finish() {
        Ok(acl) => Ok(Some(acl)),
        Err(AclError::Invalid(fault)) => Err(TextFault::DefaultInvalid(fault)),
        Err(AclError::Memory) => Err(TextFault::Memory),
    }
}

/// What is kept of the entries of both lists.
#[derive(Drop)]
pub(crate) struct Tallies {
    access: Tally,
    default: Tally,
}

impl Tallies {
    /// No entry yet.
    fn new(alloc: Global) -> Tallies
        ensures { AreTallied result [] }
    {
        Tallies {
            access: Tally::new(alloc),
            default: Tally::new(alloc),
        }
    }

    /// Takes an entry of one of the two lists.
    fn take(&mut self, said: SidedEntry) -> Result<(), AllocError>
        ensures taken { OnOk result ((taken : List SidedEntry) → AreTallied self.old taken → AreTallied self.new (taken ++ said ∷ [])) }
    {
        match said.side {
            Side::Access => self.access.take(said.entry),
            Side::Default => self.default.take(said.entry),
        }
    }

    /// The lists of the entries that were taken, or the first thing that is wrong with them.
    fn finish(self) -> Result<Lists, TextFault>
        ensures value { IfOk result (λ lists. ForTallied self (λ taken. lists ≡ lists_of taken)) }
        ensures same_access { IfOk result (λ lists. ForTallied self (λ taken. IsPermutation (entries_of Access taken) lists.access)) }
        ensures same_default { IfOk result (λ lists. ForTallied self (λ taken. IsPermutation (entries_of Default taken) (default_entries lists.default))) }
        ensures faultless { OnOk result (ForTallied self (λ taken. lists_fault taken ≡ None)) }
        ensures refused { IfErr result (λ e. ForTallied self (λ taken. e ≢ TextFault.Memory → lists_fault taken ≡ Some e)) }
        ensures memory { result ≡ Err TextFault.Memory → ForTallied self (λ taken. taken ≢ []) }
    {
        let access = self.access.finish()?;
        let default = default_list(self.default)?;
        Ok(Lists { access, default })
    }
}

/// The lists that a text spells, or its first fault; or that a growth was refused, and then nothing is said of the
/// rest of the text. Items that say no entry take no memory.
fn read_lists(alloc: Global, text: &[u8], names: &Names) -> Result<Lists, TextFault>
    ensures spelled { IfOk result (SpellsLists text.now names.now) }
    ensures value { IfOk result (λ lists. lists ≡ lists_of (said_in text.now names.now)) }
    ensures faultless { OnOk result (fault text.now names.now ≡ None) }
    ensures refused { IfErr result (λ e. e ≢ TextFault.Memory → fault text.now names.now ≡ Some e) }
    ensures memory { result ≡ Err TextFault.Memory → said_before (readings text.now names.now) ≢ [] }
{
    let mut tallies = Tallies::new(alloc);
    let mut number = 0;
    for item in Items::of(text) {
        number += 1;
        match read_item(item, names) {
            Ok(None) => {}
            Ok(Some(said)) => tallies.take(said)?,
            Err(fault) => return Err(fault.at(number)),
        }
    }
    tallies.finish()
}

/// The fault of the first faulty item, if there is one. No memory is taken.
fn item_fault(text: &[u8], names: &Names) -> Option<TextFault>
    ensures { result ≡ first_item_fault 1 (readings text.now names.now) }
{
    let mut number = 0;
    for item in Items::of(text) {
        number += 1;
        if let Err(fault) = read_item(item, names) {
            return Some(fault.at(number));
        }
    }
    None
}

/// The lists that a text spells: an access list, and a default list where an item is of one. A faulty item is told
/// also where memory would not have sufficed for the entries before it; the lists' own faults are not, since the
/// entries have to be kept to find them.
pub fn read_acl(alloc: Global, text: &[u8], names: &Names) -> Result<Lists, TextFault>
    ensures spelled { IfOk result (SpellsLists text.now names.now) }
    ensures value { IfOk result (λ lists. lists ≡ lists_of (said_in text.now names.now)) }
    ensures faultless { OnOk result (fault text.now names.now ≡ None) }
    ensures refused { IfErr result (λ e. e ≢ TextFault.Memory → fault text.now names.now ≡ Some e) }
    ensures memory { result ≡ Err TextFault.Memory → HasEntriesToKeep text.now names.now }
{
    match read_lists(alloc, text, names) {
        Ok(lists) => Ok(lists),
        Err(TextFault::Memory) => {
            match item_fault(text, names) {
                Some(fault) => Err(fault),
                None => Err(TextFault::Memory),
            }
        }
        Err(fault) => Err(fault),
    }
}
