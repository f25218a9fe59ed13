//! What the lines of a script are carried out on.

ghost use Rattle.std.specs.Prelude.{◌≡◌, ◌++◌, ℕ, List, Bool, Result, OnErr, OnOk};
ghost use Rattle.file_ops.specs.Steps.{ok_map};
ghost use Rattle.script_desk.specs.Outcomes.{Becomes, Tells};
ghost use Rattle.suite_script.specs.declared.fault.LineFault.{LineFault};
ghost use Rattle.suite_script.specs.Readings.{Gives};

use script_text::Words;
use std::alloc::{AllocError, Global};
use suite_script::{Language, LineError};

/// What the lines of a script are carried out on: first those of its header, then those of the command's own.
pub trait ScriptService: Language {
    // Whether a line that begins so is still one of the header.
    ghost heads: { Self → List ℕ → Bool };

    // What a line of the header leaves, from its first word and the words after that.
    ghost head: { Self → List ℕ → List (List ℕ) → Result Self LineFault };

    // Whether a line that begins so asks something.
    ghost asks: { List ℕ → Bool };

    // What is told where it does.
    ghost told: { Self → List ℕ → List (List ℕ) → Result (List ℕ) LineFault };

    // What a line of the command's own prints.
    ghost line: { Self → Self.Own → List ℕ };

    // The service after it.
    ghost after: { Self → Self.Own → Self };

    // The services that it may leave where memory runs out.
    ghost Stops: { Self → Self.Own → Self → Type 0 };

    // The service once a name was given below the header.
    ghost settled: { Self → Self };

    /// Whether a line that begins so is still one of the header.
    fn heads(&self, first: &[u8]) -> bool
        ensures { result ≡ heads self.now first.now };

    /// Carries out a line of the header.
    fn head(&mut self, alloc: Global, first: &[u8], words: Words<'_>) -> Result<(), LineError>
        ensures { Becomes result self.old self.new (head self.old first.now words.entry) };

    /// Says what would come of a line of the header: nothing changes.
    fn judge_head(&self, alloc: Global, first: &[u8], words: Words<'_>) -> Result<(), LineError>
        ensures { Gives result (ok_map (λ _. tt) (head self.now first.now words.entry)) };

    /// Whether a line that begins so asks something.
    fn asks(first: &[u8]) -> bool
        ensures { result ≡ asks first.now };

    /// Answers a line that asks, and adds the answer to the text.
    fn tell(
        &self,
        alloc: Global,
        first: &[u8],
        words: Words<'_>,
        text: &mut Vec<u8>,
    ) -> Result<(), LineError>
        ensures { Tells result text.old.items text.new.items (told self.now first.now words.entry) };

    /// Carries out a line of the command's own, and adds what it prints to the text.
    fn play(&mut self, alloc: Global, own: &Self::Own, text: &mut Vec<u8>) -> Result<(), AllocError>
        ensures printed { OnOk result (text.new.items ≡ text.old.items ++ line self.old own.now) }
        ensures after { OnOk result (self.new ≡ after self.old own.now) }
        ensures stopped { OnErr result (Stops self.old own.now self.new) };

    /// A name was given below the header.
    fn settle(&mut self)
        ensures { self.new ≡ settled self.old };
}
