//! A desk that tells each line again.

ghost use Rattle.std.specs.Prelude.{◌∷◌, [], ◌++◌, refl};
ghost use Rattle.line_session.specs.declared.line_kind.LineKind.TheVariants.{Kept};

use line_session::{Desk, LineKind, MemoryTalk, MemoryTurn, session};
use std::alloc::{AllocError, Global};
use std::test::Fail;

#[derive(Drop)]
struct Echo;

impl Desk for Echo {
    ghost kind = { λ _ _. Kept };

    ghost text = { λ _ _ line. line ++ 33 ∷ [] };

    ghost next = { λ echo _. echo };

    ghost Leaves = { λ _ _ _. Unit {0} };

    ghost quiet = { λ _ _ _. refl };

    fn judge(&self, _alloc: Global, _line: &[u8]) -> Result<LineKind, AllocError> {
        Ok(LineKind::Kept)
    }

    fn answer(
        &mut self,
        _alloc: Global,
        _number: u64,
        line: &[u8],
        told: &mut Vec<u8>,
    ) -> Result<LineKind, AllocError> {
        told.extend_from_slice(line)?;
        told.extend_from_slice(b"!")?;
        Ok(LineKind::Kept)
    }
}

/// The turns, each with a sign of its kind in front and a bar behind it.
fn turns_of(alloc: Global, talk: &MemoryTalk<'_>) -> Result<Vec<u8>, AllocError> {
    let mut text = Vec::new(alloc);
    for turn in talk.turns() {
        match turn {
            MemoryTurn::Heard(bytes) => {
                text.extend_from_slice(b"<")?;
                text.extend_from_slice(bytes)?;
            }
            MemoryTurn::Kept(bytes) => {
                text.extend_from_slice(b"+")?;
                text.extend_from_slice(bytes)?;
            }
            MemoryTurn::Told(bytes) => {
                text.extend_from_slice(b">")?;
                text.extend_from_slice(bytes)?;
            }
        }
        text.extend_from_slice(b"|")?;
    }
    Ok(text)
}

#[test]
fn each_line_is_kept_and_then_told(rt: HostRuntime) -> Result<(), Fail> {
    let mut talk = MemoryTalk::new(rt.alloc(), b"one\r\ntwo\n\nlast", 5, true);
    let status = session(rt.alloc(), &mut Echo, &mut talk, true);
    assert!(rt; status.is_ok());
    let wanted =
        b"<one\r\n|+one|>one!= 1\n|<two\n\n|+two|>two!= 2\n|+|>!= 3\n|<last|<|+last|>last!= 4\n|";
    assert_eq!(rt; turns_of(rt.alloc(), &talk)?.as_slice(), wanted.as_slice());
    Ok(())
}

#[test]
fn a_line_that_is_not_kept_is_not_carried_out(rt: HostRuntime) -> Result<(), Fail> {
    let mut talk = MemoryTalk::new(rt.alloc(), b"one\ntwo\n", 100, true);
    talk.fail_at(1);
    let status = session(rt.alloc(), &mut Echo, &mut talk, false).unwrap_or(0);
    assert_eq!(rt; status, 6);
    let wanted = b"<one\ntwo\n|>fault journal\n|+two|>two!|<|";
    assert_eq!(rt; turns_of(rt.alloc(), &talk)?.as_slice(), wanted.as_slice());
    Ok(())
}

#[test]
fn a_failed_write_ends_the_session(rt: HostRuntime) -> Result<(), Fail> {
    let mut talk = MemoryTalk::new(rt.alloc(), b"one\ntwo\n", 100, false);
    talk.fail_at(2);
    let status = session(rt.alloc(), &mut Echo, &mut talk, false);
    assert!(rt; status.is_err());
    assert_eq!(rt;
        turns_of(rt.alloc(), &talk)?.as_slice(),
        b"<one\ntwo\n|>one!|".as_slice()
    );
    Ok(())
}
