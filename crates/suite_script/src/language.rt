//! What the scripts of a command have of their own.

ghost use Rattle.std.specs.Prelude.{◌≡◌, ℕ, List, Bool, Result};
ghost use Rattle.acl_text.specs.Tables.{Tables};
ghost use Rattle.suite_script.specs.declared.fault.LineFault.{LineFault};
ghost use Rattle.suite_script.specs.Readings.{Gives};

use crate::fault::LineError;
use acl_text::Names;
use script_text::Words;
use std::alloc::Global;

/// The lines that the scripts of a command have besides names of users and groups.
pub trait Language {
    /// What a line of the command's own says.
    type Own: Drop;

    // Whether a line of such a script begins with this word: a line of its header, or one of its own.
    ghost is_known: { List ℕ → Bool };

    // Whether a line of the command's own begins so.
    ghost begins: { List ℕ → Bool };

    // What the words after the first say, under the names that are known.
    ghost own: { Self → Tables → List ℕ → List (List ℕ) → Result Self.Own LineFault };

    /// Whether a line of such a script begins with this word.
    fn is_known(word: &[u8]) -> bool
        ensures { result ≡ is_known word.now };

    /// Whether a line of the command's own begins with this word.
    fn begins(word: &[u8]) -> bool
        ensures { result ≡ begins word.now };

    /// Reads a line of the command's own, from the words after its first.
    fn read(
        &self,
        alloc: Global,
        names: &Names,
        first: &[u8],
        words: Words<'_>,
    ) -> Result<Self::Own, LineError>
        ensures { Gives result (own self.now names.now first.now words.entry) };
}
