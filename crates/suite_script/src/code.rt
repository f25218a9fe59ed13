//! The lines that faults print.

ghost use Rattle.std.specs.Prelude.{◌≡◌, ◌++◌, IfOk, OnOk};
ghost use Rattle.suite_script.specs.Faults.{code_of, fault_line, settings_code, votes_code};

use crate::fault::{LineFault, ScriptFault};
use acl_text::push_text_code;
use script_text::push_number;
use std::alloc::{AllocError, Global};
use suite_prefix::SettingsFault;
use vote_core::VotesFault;

/// The line of a faulty script.
pub fn fault_text(alloc: Global, fault: ScriptFault) -> Result<Vec<u8>, AllocError>
    ensures { IfOk result (λ line. line.items ≡ fault_line fault) }
{
    let mut line = Vec::new(alloc);
    push_fault(&mut line, fault)?;
    Ok(line)
}

/// Adds the line of a faulty script.
fn push_fault(text: &mut Vec<u8>, fault: ScriptFault) -> Result<(), AllocError>
    ensures { OnOk result (text.new.items ≡ text.old.items ++ fault_line fault) }
{
    text.extend_from_slice(b"fault line ")?;
    push_number(text, fault.line)?;
    text.extend_from_slice(b": ")?;
    push_line_code(text, fault.fault)?;
    text.extend_from_slice(b"\n")
}

/// Adds the code of what is wrong with a line.
pub fn push_line_code(text: &mut Vec<u8>, fault: LineFault) -> Result<(), AllocError>
    ensures { OnOk result (text.new.items ≡ text.old.items ++ code_of fault) }
{
    match fault {
        LineFault::Form => text.extend_from_slice(b"S1"),
        LineFault::Order => text.extend_from_slice(b"S2"),
        LineFault::BadName => text.extend_from_slice(b"N1"),
        LineFault::NameTwice => text.extend_from_slice(b"N2"),
        LineFault::List(fault) => push_text_code(text, fault),
        LineFault::Votes(fault) => push_votes_code(text, fault),
        LineFault::Settings(fault) => push_settings_code(text, fault),
    }
}

fn push_settings_code(text: &mut Vec<u8>, fault: SettingsFault) -> Result<(), AllocError>
    ensures { OnOk result (text.new.items ≡ text.old.items ++ settings_code fault) }
{
    let code = match fault {
        SettingsFault::BadCount => b"G1",
        SettingsFault::UnknownServer => b"G2",
        SettingsFault::BadCache => b"G3",
        SettingsFault::OldTooLarge => b"G4",
    };
    text.extend_from_slice(code)
}

fn push_votes_code(text: &mut Vec<u8>, fault: VotesFault) -> Result<(), AllocError>
    ensures { OnOk result (text.new.items ≡ text.old.items ++ votes_code fault) }
{
    let code = match fault {
        VotesFault::Empty => b"V1",
        VotesFault::UnknownServer => b"V2",
        VotesFault::ListedTwice => b"V3",
        VotesFault::NoVotes => b"V4",
        VotesFault::ThresholdOutOfRange => b"V5",
        VotesFault::ReadMissesWrite => b"V6",
        VotesFault::WritesDisjoint => b"V7",
    };
    text.extend_from_slice(code)
}
