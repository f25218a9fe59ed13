//! The command `table`: a script, played on one plain table.

ghost use Rattle.std.specs.Prelude.{◌≡◌, ◌<◌, ◌^◌, length};
ghost use Rattle.suite_cli.specs.Outputs.{settings_of, table_output};
ghost use Rattle.suite_script.specs.Gathering.{Plays};

use crate::job::Job;
use crate::language::TableLanguage;
use byte_streams::ByteOut;
use file_ops::{ApplyError, Table};
use script_text::push_number;
use std::alloc::{AllocError, Global};
use suite_prefix::Settings;
use suite_script::{
    LineStage, PlayError, Root, ScriptReader, play_lines, push_answered, push_refused, read_root,
};
use vote_core::{MAX_SERVERS, ServerSet, Votes};

/// Plays a script, and writes a line an outcome; nothing, where it has a fault.
pub(crate) fn play_table<O: ByteOut>(
    alloc: Global,
    text: &[u8],
    writer: &mut O,
) -> Result<(), PlayError>
    requires { length text.now < 2 ^ 60 }
    ensures { Plays result (table_output text.now) (O.written writer.old) (O.written writer.new)
        (O.failed_writes writer.old) (O.failed_writes writer.new) }
{
    let mut script = ScriptReader::new(alloc, text);
    let root = read_root::<TableLanguage>(alloc, &mut script)?;
    let mut table = Table::opening(alloc, &settings_of(root))?;
    play_lines(alloc, &mut script, &TableLanguage, &mut table, writer)
}

/// What a script's table opens with.
fn settings_of(root: Root) -> Settings
    ensures { result ≡ settings_of root }
{
    let c0 = Votes::new(MAX_SERVERS, &[(0, 1)], 1, 1).unwrap();
    Settings::new(
        MAX_SERVERS,
        1,
        c0,
        root.owner,
        root.group,
        root.acl,
        0,
        0,
        0,
        ServerSet::empty(),
    )
    .unwrap()
}

impl LineStage<TableLanguage> for Table {
    ghost use Rattle.std.specs.Prelude.{false};
    ghost use Rattle.suite_cli.specs.code.Playing.{after_job, line_of};

    ghost line = { line_of };

    ghost after = { after_job };

    ghost is_long = { λ _ _. false };

    fn is_long(&self, _job: &Job) -> bool {
        false
    }

    fn play_line(
        &mut self,
        alloc: Global,
        number: u64,
        job: &Job,
        text: &mut Vec<u8>,
    ) -> Result<(), AllocError> {
        push_number(text, number)?;
        text.push(b' ')?;
        match self.apply(number, job.caller(), job.ops()) {
            Ok(answers) => push_answered(alloc, text, answers.as_slice())?,
            Err(ApplyError::Refused(refusal)) => push_refused(text, refusal)?,
            Err(ApplyError::Memory) => return Err(AllocError),
        }
        text.push(b'\n')?;
        Ok(())
    }
}
