//! What a file or a folder holds.

ghost use Rattle.std.specs.Prelude.{◌≡◌};
ghost use Rattle.suite_content.specs.Contents.{kind_of, empty_content};

use crate::file_bytes::FileBytes;
use crate::folder_names::FolderNames;
use std::alloc::{AllocError, Global};

/// Files and folders.
#[derive(Clone, Copy, Debug, PartialEq, Eq)]
pub enum Kind {
    /// It holds bytes.
    File,
    /// It holds names.
    Folder,
}

/// What a file or a folder holds.
#[derive(Debug, Drop)]
pub enum Content {
    /// The bytes of a file.
    Bytes(FileBytes),
    /// The names of a folder.
    Names(FolderNames),
}

impl Clone for Content {
    ghost is_clone = { λ content copy. copy ≡ content };

    fn clone(&self) -> Result<Content, AllocError> {
        match self {
            Content::Bytes(bytes) => Ok(Content::Bytes(bytes.clone()?)),
            Content::Names(names) => Ok(Content::Names(names.clone()?)),
        }
    }
}

impl PartialEq for Content {
    ghost use Rattle.suite_content.specs.Contents.{same_content};
    ghost use Rattle.suite_content.specs.code.ContentEquality.{same_content_partial_laws};

    ghost eq = { same_content };

    ghost laws = { same_content_partial_laws };

    fn eq(&self, other: &Content) -> bool {
        match (self, other) {
            (Content::Bytes(own), Content::Bytes(theirs)) => own == theirs,
            (Content::Names(own), Content::Names(theirs)) => own == theirs,
            _ => false,
        }
    }
}

impl Eq for Content {
    ghost use Rattle.suite_content.specs.code.ContentEquality.{same_content_laws};

    ghost laws = { same_content_laws };
}

impl Content {
    /// What a new file or folder holds.
    pub fn empty(alloc: Global, kind: Kind) -> Content
        ensures { result ≡ empty_content kind }
    {
        match kind {
            Kind::File => Content::Bytes(FileBytes::empty()),
            Kind::Folder => Content::Names(FolderNames::new(alloc)),
        }
    }

    /// Whether a file or a folder holds it.
    pub fn kind(&self) -> Kind
        ensures { result ≡ kind_of self.now }
    {
        match self {
            Content::Bytes(_) => Kind::File,
            Content::Names(_) => Kind::Folder,
        }
    }
}
