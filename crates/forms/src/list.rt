//! What is printed of a list, and of an item of one.

ghost use Rattle.std.specs.Prelude.{◌≡◌, ◌++◌, IfOk};
ghost use Rattle.forms.specs.Answers.{IsOfItem};
ghost use Rattle.forms.specs.Finding.{BeginsWith, item_of_text, place_text, tab};

use crate::mend::push_count;
use crate::reason::{Reason, Reasoned, name_told, permissions_told};
use acl_text::{NameError, Names, TextFault, item_place, push_text_code, read_acl};
use std::alloc::{AllocError, Global};

/// What is printed of a list, or of its item of this number as a list of its own. Each name is taken for one that has a
/// number; or none is.
#[tactic(auto, using(crate::proofs::Answering::whole_list, crate::proofs::Answering::item_told))]
pub(crate) fn found_in_list(
    alloc: Global,
    are_named: bool,
    list: &[u8],
    number: u64,
) -> Result<Vec<u8>, AllocError>
    ensures { IfOk result (λ text. IsOfItem list.now number text.items) }
{
    let mut names = Names::new(alloc);
    if are_named {
        name_all(&mut names, list)?;
    }
    if number == 0 {
        let fault = fault_of(alloc, list, &names)?;
        let place = fault.and_then(|fault| item_of_text(list, fault));
        return printed(alloc, place, list, fault);
    }
    let item = item_in(list, number as usize);
    let fault = fault_of(alloc, item, &names)?;
    let place = item_place(list, number as usize);
    printed(alloc, place, item, fault)
}

/// The fault of a text.
fn fault_of(alloc: Global, text: &[u8], names: &Names) -> Result<Option<TextFault>, AllocError> {
    match read_acl(alloc, text, names) {
        Ok(_) => Ok(None),
        Err(TextFault::Memory) => Err(AllocError),
        Err(fault) => Ok(Some(fault)),
    }
}

/// Gives each field of a list a number of its own, as the name of a user and of a group.
fn name_all(names: &mut Names, list: &[u8]) -> Result<(), AllocError> {
    let mut number = u32::MAX;
    for field in list.split(|byte| matches!(*byte, b':' | b',' | b'#' | b'\n')) {
        is_noted(names.add_user(trimmed(field), number))?;
        is_noted(names.add_group(trimmed(field), number))?;
        number = number.saturating_sub(1);
    }
    Ok(())
}

/// Whether there was memory for a name; one that is none, or that was noted before, is passed over.
pub(crate) fn is_noted(named: Result<(), NameError>) -> Result<(), AllocError> {
    match named {
        Err(NameError::Memory) => Err(AllocError),
        _ => Ok(()),
    }
}

/// The item of a number; no bytes where there is none.
fn item_in(text: &[u8], number: usize) -> &[u8] {
    let place = item_place(text, number).unwrap_or(text.len());
    let rest = text.get(place..).unwrap_or(b"");
    let mut items = rest.split(|byte| matches!(*byte, b',' | b'#' | b'\n'));
    items.next().unwrap_or(b"")
}

/// A field without the white space at its ends.
fn trimmed(field: &[u8]) -> &[u8] {
    let is_white = |byte: &u8| matches!(*byte, b' ' | b'\t' | b'\r');
    let white = field.iter().take_while(|byte| is_white(byte)).count();
    let begun = field.get(white..).unwrap_or(b"");
    let behind = begun.iter().rev().take_while(|byte| is_white(byte)).count();
    begun
        .get(..begun.len().saturating_sub(behind))
        .unwrap_or(b"")
}

/// Where the item of a list begins of which a fault speaks.
pub(crate) fn item_of_text(text: &[u8], fault: TextFault) -> Option<usize>
    ensures { result ≡ item_of_text text.now fault }
{
    match fault {
        TextFault::Syntax(item) => item_place(text, item),
        TextFault::UnknownName(item) => item_place(text, item),
        TextFault::NumberTooBig(item) => item_place(text, item),
        TextFault::Invalid(_) | TextFault::DefaultInvalid(_) | TextFault::Memory => None,
    }
}

/// What is told of a list with a fault: of an item that is no entry, what its last field has that permissions have not, or
/// the field before what a name has not.
pub(crate) fn text_told(text: &[u8], fault: TextFault) -> Reasoned<'_> {
    let TextFault::Syntax(number) = fault else {
        return Reasoned::of(Reason::Due, text);
    };
    let mut fields = item_in(text, number).rsplit(|byte| *byte == b':');
    let permissions = permissions_told(trimmed(fields.next().unwrap_or(b"")));
    match permissions.reason {
        Reason::Due => name_told(trimmed(fields.next().unwrap_or(b""))),
        _ => permissions,
    }
}

/// `ITEM CODE REASON NUMBER PART`.
#[tactic(auto, using(crate::proofs::Answering::begins_all))]
fn printed(
    alloc: Global,
    place: Option<usize>,
    list: &[u8],
    fault: Option<TextFault>,
) -> Result<Vec<u8>, AllocError>
    ensures { IfOk result (λ text. BeginsWith (place_text place ++ tab) text.items) }
{
    let mut rest = Vec::new(alloc);
    let told = match fault {
        Some(fault) => {
            push_text_code(&mut rest, fault)?;
            text_told(list, fault)
        }
        None => {
            rest.push(b'-')?;
            Reasoned::of(Reason::Due, b"")
        }
    };
    rest.push(b'\t')?;
    told.push(&mut rest)?;
    rest.push(b'\n')?;
    let mut text = Vec::new(alloc);
    push_count(&mut text, place.map(|place| place as u64))?;
    text.extend_from_slice(&rest)?;
    Ok(text)
}
