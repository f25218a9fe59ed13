//! Lines of headers.

ghost use Rattle.std.specs.Prelude.{◌≡◌, ◌≤◌, codes, length};
ghost use Rattle.suite_script.specs.Progress.{Heads};
ghost use Rattle.suite_script.specs.Readings.{Gives};
ghost use Rattle.suite_script.specs.Scripts.{headed, no_names, root_in};

use crate::fault::{LineError, ScriptError};
use crate::language::Language;
use crate::root::Root;
use crate::script::ScriptReader;
use crate::word::{at_end, next_word, read_id, read_init};
use acl_text::Names;
use script_text::Words;
use std::alloc::Global;
use suite_content::Kind;

/// The next line, which has to begin with the word `root`.
pub fn read_root<L: Language>(
    alloc: Global,
    script: &mut ScriptReader<'_>,
) -> Result<Root, ScriptError>
    ensures root { Heads result script.new (headed L.is_known (codes "root") root_in script.old) }
    ensures fewer { length script.new.lines ≤ length script.old.lines }
{
    let mut line = script.header_line::<L>(b"root")?;
    root_of(alloc, &mut line.words).map_err(|error| error.at(line.number))
}

/// What follows the word `root`: the root folder's owner, group and lists, for which no names are known.
pub fn root_of(alloc: Global, words: &mut Words<'_>) -> Result<Root, LineError>
    ensures { Gives result (root_in words.old) }
{
    let names = Names::new(alloc);
    root_under(alloc, &names, words)
}

/// A root folder's owner, group and lists, where no names are known.
fn root_under(alloc: Global, names: &Names, words: &mut Words<'_>) -> Result<Root, LineError>
    requires { names.now ≡ no_names }
    ensures { Gives result (root_in words.old) }
{
    let owner = read_id(next_word(words)?)?;
    let group = read_id(next_word(words)?)?;
    let init = read_init(alloc, names, next_word(words)?)?;
    at_end(words)?;
    let acl = init.lists(alloc, Kind::Folder, &None)?;
    Ok(Root { owner, group, acl })
}
