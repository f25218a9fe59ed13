//! The codes that faults of lists print.

ghost use Rattle.std.specs.Prelude.{◌≡◌, ◌++◌, OnOk};
ghost use Rattle.acl_text.specs.Codes.{item_code, list_code, text_code};

use crate::read::TextFault;
use acl_core::AclFault;
use script_text::push_number;
use std::alloc::AllocError;

/// The code of a fault of a list's text.
pub fn push_text_code(text: &mut Vec<u8>, fault: TextFault) -> Result<(), AllocError>
    ensures { OnOk result (text.new.items ≡ text.old.items ++ text_code fault) }
{
    match fault {
        TextFault::Syntax(item) => push_item_code(text, b"A9", item),
        TextFault::UnknownName(item) => push_item_code(text, b"A10", item),
        TextFault::NumberTooBig(item) => push_item_code(text, b"A11", item),
        TextFault::Invalid(fault) => push_list_code(text, fault),
        TextFault::DefaultInvalid(fault) => {
            text.extend_from_slice(b"A13 ")?;
            push_list_code(text, fault)
        }
        TextFault::Memory => Ok(()),
    }
}

fn push_item_code(text: &mut Vec<u8>, code: &[u8], item: usize) -> Result<(), AllocError>
    ensures { OnOk result (text.new.items ≡ text.old.items ++ item_code code.now item) }
{
    text.extend_from_slice(code)?;
    text.extend_from_slice(b" item ")?;
    push_number(text, item as u64)
}

fn push_list_code(text: &mut Vec<u8>, fault: AclFault) -> Result<(), AllocError>
    ensures { OnOk result (text.new.items ≡ text.old.items ++ list_code fault) }
{
    let code = match fault {
        AclFault::NoUserObj => b"A1",
        AclFault::NoGroupObj => b"A2",
        AclFault::NoOther => b"A3",
        AclFault::TwiceSingle => b"A4",
        AclFault::UserTwice => b"A5",
        AclFault::GroupTwice => b"A6",
        AclFault::MaskMissing => b"A7",
        AclFault::TooMany => b"A8",
    };
    text.extend_from_slice(code)
}
