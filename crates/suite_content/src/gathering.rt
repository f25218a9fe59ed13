//! Names that are gathered in a buffer before they are written.

ghost use Rattle.std.specs.Prelude.{◌≡◌, ◌+◌, ◌++◌, ◌∷◌, ◌≤◌, IfOk, OnOk, codes, length, take};
ghost use Rattle.std.specs.List.{flat_map};
ghost use Rattle.suite_content.specs.Written.{numbered_bytes};

use crate::name::{MAX_NAME, Name};
use std::alloc::AllocError;

/// So many bytes are gathered at most.
pub(crate) const GATHERED: usize = 1024;

/// So many bytes a name takes at most, with its length before it and a number behind it.
const NUMBERED: usize = 1 + MAX_NAME + 8;

/// Writes names, with a comma before each.
pub(crate) fn append_behind_commas(
    names: &[(Name, u64)],
    out: &mut Vec<u8>,
) -> Result<(), AllocError>
    ensures { OnOk result (out.new.items ≡ out.old.items ++ flat_map (λ entry. codes "," ++ entry.0) names.now) }
{
    let mut gathered = [0; GATHERED];
    let mut end = 0;
    for (name, _) in names {
        end = put_out_if_full(&gathered, end, out)?;
        end = put_behind_comma(name, end, &mut gathered);
    }
    out.extend_from_slice(&gathered[..end])
}

/// Writes names, each with its length before it and its number behind it.
pub(crate) fn append_numbered(names: &[(Name, u64)], out: &mut Vec<u8>) -> Result<(), AllocError>
    ensures { OnOk result (out.new.items ≡ out.old.items ++ flat_map numbered_bytes names.now) }
{
    let mut gathered = [0; GATHERED];
    let mut end = 0;
    for (name, number) in names {
        end = put_out_if_full(&gathered, end, out)?;
        end = put_numbered(name, *number, end, &mut gathered);
    }
    out.extend_from_slice(&gathered[..end])
}

/// Writes what was gathered where a name may not fit behind it, and answers where the bytes end that are not written.
fn put_out_if_full(
    gathered: &[u8; GATHERED],
    end: usize,
    out: &mut Vec<u8>,
) -> Result<usize, AllocError>
    requires { end ≤ 1024 }
    ensures room { IfOk result (λ left. left + 73 ≤ 1024) }
    ensures bytes { IfOk result (λ left. out.new.items ++ take left gathered.now ≡ out.old.items ++ take end gathered.now) }
{
    if end + NUMBERED <= GATHERED {
        return Ok(end);
    }
    out.extend_from_slice(&gathered[..end])?;
    Ok(0)
}

/// Puts a name behind a comma at a place of a buffer, and answers where it ends.
fn put_behind_comma(name: &Name, at: usize, buffer: &mut [u8; GATHERED]) -> usize
    requires { at + 65 ≤ 1024 }
    ensures end { result ≤ at + 65 }
    ensures bytes { take result buffer.new ≡ take at buffer.old ++ codes "," ++ name.now }
{
    buffer[at] = b',';
    name.put_at(at + 1, buffer)
}

/// Puts a name behind its length at a place of a buffer, and answers where it ends.
fn put_counted(name: &Name, at: usize, buffer: &mut [u8; GATHERED]) -> usize
    requires { at + 65 ≤ 1024 }
    ensures end { result ≤ at + 65 }
    ensures bytes { take result buffer.new ≡ take at buffer.old ++ length name.now ∷ name.now }
{
    buffer[at] = name.as_bytes().len() as u8;
    name.put_at(at + 1, buffer)
}

/// Puts a name with its length and its number at a place of a buffer, and answers where they end.
fn put_numbered(name: &Name, number: u64, at: usize, buffer: &mut [u8; GATHERED]) -> usize
    requires { at + 73 ≤ 1024 }
    ensures end { result ≤ at + 73 }
    ensures bytes { take result buffer.new ≡ take at buffer.old ++ numbered_bytes (name.now, number) }
{
    let end = put_counted(name, at, buffer);
    buffer[end..end + 8].copy_from_slice(&number.to_be_bytes());
    end + 8
}
