//! What a file holds.

ghost use Rattle.std.specs.Prelude.{◌≡◌, ◌<◌, ◌↔◌, [], length, IfOk, IsOk, IsTrue};
ghost use Rattle.suite_content.specs.Limits.{max_content};

use std::alloc::{AllocError, Global};
use std::marker::Model;
use std::sync::ArcSlice;

/// The most bytes of a file.
pub const MAX_CONTENT: usize = 65_536;

/// The bytes of a file. They are never changed, and a clone shares them; where there are none, they
/// take no memory.
#[derive(Debug, Drop)]
pub struct FileBytes {
    shared: Option<ArcSlice<u8>>,
}

impl Model for FileBytes {
    ghost use Rattle.std.specs.Prelude.{ℕ, List};
    ghost use Rattle.suite_content.specs.code.Shared.{bytes_of};

    ghost Value = { List ℕ };

    ghost view = { λ file. bytes_of file.shared };
}

impl Clone for FileBytes {
    ghost is_clone = { λ file copy. copy ≡ file };

    fn clone(&self) -> Result<FileBytes, AllocError> {
        match &self.shared {
            None => Ok(FileBytes::empty()),
            Some(bytes) => {
                let bytes = bytes.clone()?;
                Ok(FileBytes {
                    shared: Some(bytes),
                })
            }
        }
    }
}

impl PartialEq for FileBytes {
    ghost use Rattle.std.specs.Prelude.{nat_eq};
    ghost use Rattle.std.specs.Cmp.{partial_equiv_from_equiv};
    ghost use Rattle.std.specs.Cmp.Lexicographic.{pointwise};
    ghost use Rattle.std.proofs.lemmas.Cmp.{nat_list_eq_equiv};

    ghost eq = { pointwise nat_eq };

    ghost laws = { partial_equiv_from_equiv nat_list_eq_equiv };

    fn eq(&self, other: &FileBytes) -> bool {
        self.as_slice() == other.as_slice()
    }
}

impl Eq for FileBytes {
    ghost use Rattle.std.proofs.lemmas.Cmp.{nat_list_eq_equiv};

    ghost laws = { nat_list_eq_equiv };
}

impl FileBytes {
    /// No bytes.
    pub fn empty() -> FileBytes
        ensures { result ≡ [] }
    {
        FileBytes { shared: None }
    }

    /// The bytes of a vector, which are not copied. No bytes take no memory.
    pub fn from_vec(bytes: Vec<u8>) -> Result<FileBytes, AllocError>
        ensures value { IfOk result (λ file. file ≡ bytes.items) }
        ensures nothing { bytes.items ≡ [] → IsOk result }
    {
        if bytes.is_empty() {
            return Ok(FileBytes::empty());
        }
        let bytes = ArcSlice::from_vec(bytes)?;
        Ok(FileBytes {
            shared: Some(bytes),
        })
    }

    /// A copy of some bytes. No bytes take no memory.
    pub fn from_slice(alloc: Global, bytes: &[u8]) -> Result<FileBytes, AllocError>
        ensures value { IfOk result (λ file. file ≡ bytes.now) }
        ensures nothing { bytes.now ≡ [] → IsOk result }
    {
        if bytes.is_empty() {
            return Ok(FileBytes::empty());
        }
        let bytes = Vec::from_slice(alloc, bytes)?;
        FileBytes::from_vec(bytes)
    }

    /// The bytes.
    pub fn as_slice(&self) -> &[u8]
        ensures { result.now ≡ self.now }
    {
        match &self.shared {
            None => &[],
            Some(bytes) => bytes,
        }
    }

    /// How many bytes there are.
    pub fn len(&self) -> usize
        ensures { result ≡ length self.now }
    {
        self.as_slice().len()
    }

    /// Whether there are none.
    pub fn is_empty(&self) -> bool
        ensures { IsTrue result ↔ (self.now ≡ []) }
    {
        self.as_slice().is_empty()
    }

    /// Whether there are more than a file may hold.
    pub fn is_too_long(&self) -> bool
        ensures { IsTrue result ↔ (max_content < length self.now) }
    {
        self.len() > MAX_CONTENT
    }
}
