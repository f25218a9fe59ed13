//! Scripts, played as they are read.

ghost use Rattle.std.specs.Prelude.{◌≡◌, ℕ, ◌<◌, ◌^◌, ◌++◌, [], List, length, Bool, OnOk};
ghost use Rattle.suite_script.specs.Gathering.{Plays, Prints, comes_to};
ghost use Rattle.suite_script.specs.Playing.{prints_from};
ghost use Rattle.suite_script.specs.Scripts.{language_of, owns};

use crate::gathered::{KEPT, write_gathered, write_if_full};
use crate::language::Language;
use crate::play_error::PlayError;
use crate::script::ScriptReader;
use byte_streams::ByteOut;
use std::alloc::{AllocError, Global};

/// What the lines of a language are played on. Each has its number, from 0.
pub trait LineStage<L: Language> {
    // What a line prints.
    ghost line: { Self → ℕ → L.Own → List ℕ };

    // The stage after a line.
    ghost after: { Self → ℕ → L.Own → Self };

    // Whether a line is written in pieces, since it may print much.
    ghost is_long: { Self → L.Own → Bool };

    /// Whether a line is written in pieces, since it may print much.
    fn is_long(&self, own: &L::Own) -> bool
        ensures { result ≡ is_long self.now own.now };

    /// Plays a line, and adds what it prints to the text.
    fn play_line(
        &mut self,
        alloc: Global,
        number: u64,
        own: &L::Own,
        text: &mut Vec<u8>,
    ) -> Result<(), AllocError>
        requires { number < 2 ^ 60 }
        ensures printed { OnOk result (text.new.items ≡ text.old.items ++ line self.old number own.now) }
        ensures after { OnOk result (self.new ≡ after self.old number own.now) };

    /// Plays a line, adds what it prints to the text, and writes that in pieces.
    fn write_line<O: ByteOut>(
        &mut self,
        alloc: Global,
        number: u64,
        own: &L::Own,
        text: &mut Vec<u8>,
        writer: &mut O,
    ) -> Result<(), PlayError>
        requires { number < 2 ^ 60 }
        ensures printed { Prints result (text.old.items ++ line self.old number own.now) text.new.items
            (O.written writer.old) (O.written writer.new) (O.failed_writes writer.old) (O.failed_writes writer.new) }
        ensures after { OnOk result (self.new ≡ after self.old number own.now) }
    {
        self.play_line(alloc, number, own, text)?;
        write_if_full(writer, text)?;
        Ok(())
    }
}

/// Plays the lines that are left of a script, and writes what they print; nothing, where one has a fault. A line is played
/// as it is read: so nothing is written until the script is known to have no fault, which is at its end, or, where much is
/// printed, once the rest was looked through. So what is printed and not written is never more than 4 MiB and what two
/// lines print, of which a long one is none: it is written in pieces.
pub fn play_lines<L: Language, S: LineStage<L>, O: ByteOut>(
    alloc: Global,
    script: &mut ScriptReader<'_>,
    language: &L,
    stage: &mut S,
    writer: &mut O,
) -> Result<(), PlayError>
    requires { length script.old.lines < 2 ^ 60 }
    ensures { Plays result
        (comes_to [] (prints_from S.line S.after stage.old 0) (owns (language_of L.is_known L.begins (L.own language.now)) script.old))
        (O.written writer.old) (O.written writer.new) (O.failed_writes writer.old) (O.failed_writes writer.new) }
{
    let mut text = Vec::new(alloc);
    let mut number = 0;
    let mut is_faultless = false;
    while let Some(own) = script.next_own(alloc, language)? {
        if !is_faultless && (text.len() >= KEPT || stage.is_long(&own)) {
            script.look_ahead(alloc, language)?;
            is_faultless = true;
        }
        if is_faultless {
            stage.write_line(alloc, number, &own, &mut text, writer)?;
        } else {
            stage.play_line(alloc, number, &own, &mut text)?;
        }
        number += 1;
    }
    write_gathered(writer, &mut text)?;
    Ok(())
}
