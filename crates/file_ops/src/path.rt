//! Paths.

ghost use Rattle.std.specs.Prelude.{◌≡◌, IfOk, option_map};
ghost use Rattle.std.specs.Option.{option_copied};
ghost use Rattle.std.specs.List.{slice_split};
ghost use Rattle.file_ops.specs.Paths.{is_slash, some_names, names_of};

use std::alloc::{AllocError, Global};
use std::marker::Model;
use suite_content::{Name, is_name};

/// A path as its caller wrote it: any bytes. They are read once, when it is made; whether they are a path is judged when its
/// operation is played.
#[derive(Debug, Drop)]
pub struct PathText {
    reading: Reading,
}

/// What a text was read as.
#[derive(Debug, Drop)]
enum Reading {
    /// A path: its names, from the root folder down.
    Path(Vec<Name>),
    /// No path: its bytes.
    Text(Vec<u8>),
}

impl Model for PathText {
    ghost use Rattle.std.specs.Prelude.{ℕ, List};
    ghost use Rattle.file_ops.specs.code.PathTexts.{text_of, IsRead};

    ghost Value = { List ℕ };

    ghost view = { λ path. text_of path.reading };

    ghost invariant = { λ path. IsRead path.reading };
}

impl Clone for PathText {
    ghost is_clone = { λ path copy. copy ≡ path };

    fn clone(&self) -> Result<PathText, AllocError> {
        let reading = match &self.reading {
            Reading::Path(names) => Reading::Path(names.clone()?),
            Reading::Text(bytes) => Reading::Text(bytes.clone()?),
        };
        Ok(PathText { reading })
    }
}

impl PathText {
    /// The path of these bytes.
    pub fn new(alloc: Global, text: &[u8]) -> Result<PathText, AllocError>
        ensures { IfOk result (λ path. path ≡ text.now) }
    {
        let reading = match read(alloc, text)? {
            Some(names) => Reading::Path(names),
            None => Reading::Text(Vec::from_slice(alloc, text)?),
        };
        Ok(PathText { reading })
    }

    /// Its names, from the root folder down, where it is a path.
    pub fn names(&self) -> Option<&[Name]>
        ensures { option_copied result ≡ names_of self.now }
    {
        match &self.reading {
            Reading::Path(names) => Some(names.as_slice()),
            Reading::Text(_) => None,
        }
    }
}

/// The most names of a path.
const MAX_PATH_NAMES: usize = 8;

/// As many names as most paths have at the most. Where there are several, room for these is taken at once, which costs less
/// than to count them first.
const USUAL_PATH_NAMES: usize = 4;

/// The names of a text, from the root folder down, where it is a path.
fn read(alloc: Global, text: &[u8]) -> Result<Option<Vec<Name>>, AllocError>
    ensures { IfOk result (λ names. option_map (λ names. names.items) names ≡ names_of text.now) }
{
    let Some(rest) = text.strip_prefix(b"/") else {
        return Ok(None);
    };
    if rest.is_empty() {
        return Ok(Some(Vec::new(alloc)));
    }
    collect(alloc, rest)
}

/// The parts between the slashes of a text, where they are no more than a path has names, and each is a name.
fn collect(alloc: Global, text: &[u8]) -> Result<Option<Vec<Name>>, AllocError>
    ensures { IfOk result (λ names. option_map (λ names. names.items) names ≡ some_names (slice_split is_slash text.now)) }
{
    let room = if text.contains(&b'/') {
        USUAL_PATH_NAMES
    } else {
        1
    };
    let mut names = Vec::with_capacity(alloc, room)?;
    for part in text.split(|byte| *byte == b'/') {
        if names.len() == MAX_PATH_NAMES {
            return Ok(None);
        }
        if !is_name(part) {
            return Ok(None);
        }
        names.push(Name::known(part))?;
    }
    Ok(Some(names))
}
