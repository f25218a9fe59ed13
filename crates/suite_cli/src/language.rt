//! The lines of a script of `table` after its root folder and names.

ghost use Rattle.std.specs.Prelude.{◌≡◌};
ghost use Rattle.suite_cli.specs.code.Kept.{kept_job_in};
ghost use Rattle.suite_script.specs.Readings.{Gives};

use crate::job::Job;
use acl_text::Names;
use script_text::Words;
use std::alloc::Global;
use suite_script::{Language, LineError, next_word, read_caller, read_id, read_operations};

/// The language of the scripts of `table`.
#[derive(Clone, Copy)]
pub(crate) struct TableLanguage;

impl Language for TableLanguage {
    ghost use Rattle.suite_cli.specs.Scripts.{is_do, is_known};
    ghost use Rattle.suite_cli.specs.code.Kept.{kept_job_in};

    type Own = Job;

    ghost is_known = { is_known };

    ghost begins = { is_do };

    ghost own = { λ _ names first words. kept_job_in names words };

    fn is_known(word: &[u8]) -> bool {
        word == b"root".as_slice() || word == b"do".as_slice()
    }

    fn begins(word: &[u8]) -> bool {
        word == b"do".as_slice()
    }

    fn read(
        &self,
        alloc: Global,
        names: &Names,
        _first: &[u8],
        words: Words<'_>,
    ) -> Result<Job, LineError> {
        read_job(alloc, names, words)
    }
}

/// What follows the word `do`, so far as it is kept.
fn read_job(alloc: Global, names: &Names, mut words: Words<'_>) -> Result<Job, LineError>
    ensures { Gives result (kept_job_in names.now words.entry) }
{
    let uid = read_id(next_word(&mut words)?)?;
    let caller = read_caller(uid, next_word(&mut words)?)?;
    let ops = read_operations(alloc, names, words)?;
    Ok(Job::new(caller, ops))
}
