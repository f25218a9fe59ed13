//! Contents with nothing in them.

ghost use Rattle.std.specs.Prelude.{◌≡◌};
ghost use Rattle.suite_content.specs.Contents.{empty_content};
ghost use Rattle.suite_content.specs.declared.content.Kind.TheVariants.{File, Folder};

use std::alloc::Global;
use suite_content::{Content, Kind};

/// What a new file holds, and what a new folder does.
#[derive(Drop)]
pub(crate) struct Empty {
    file: Content,
    folder: Content,
    ghost is_file: { file ≡ empty_content File },
    ghost is_folder: { folder ≡ empty_content Folder },
}

impl Empty {
    /// Both of them.
    pub(crate) fn new(alloc: Global) -> Empty {
        Empty {
            file: Content::empty(alloc, Kind::File),
            folder: Content::empty(alloc, Kind::Folder),
        }
    }

    /// What a new one of a kind holds.
    pub(crate) fn content(&self, kind: Kind) -> &Content
        ensures { result.now ≡ empty_content kind }
    {
        match kind {
            Kind::File => &self.file,
            Kind::Folder => &self.folder,
        }
    }
}
