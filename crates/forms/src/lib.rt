//! Prints how the lines of scripts and their operations are written, and what keeps a line from its form.
//! `./suites explain`, the tables of documents and the tests stand on it.
//!
//! Without a word it prints the table of forms, one a line, with tabs between its fields:
//!
//! - `place NAME LEAST MOST CODE MEANING SAMPLE`: a word in its place, with the limits of a number and the code of one
//!   beyond them, and a word that fits in it;
//! - `line COMMAND PART WORD PLACES DOES`: a line of a command's scripts. Its part is `header`, `option` (a line that
//!   may be missing), `name` or `own`; the lines of a command come in the order in which they stand;
//! - `operation WORD PLACES DOES`.
//!
//! With the words COMMAND and NUMBER it reads a script, whose lines above that number have no fault. Of that line it
//! prints `WORD CODE EXPECTED FORM ITEM INSTEAD BEFORE SHIFT ABOVE REASON NUMBER PART`:
//!
//! - the number of the first word that does not fit, the code of the fault, the place where the word stands (or `END`,
//!   `OPERATION`, `LINE`), the form that has this place or is due;
//! - of a list's faulty item how many bytes of the word stand before it;
//! - the words with which the line has no fault in the place of this one, and those before it; and what would explain
//!   the fault as one of a word too many or too few: `path`, where a path seems to have a space, `missing`, where a word
//!   is missing before it, or the numbers of words without which the line has no fault;
//! - the number of the first line above with a fault, or 0;
//! - why it does not fit: a reason with its number, and the part of the word of which it speaks. What the words and the
//!   lines above show is told by `tools/explain`, and is `due` here.
//!
//! With the words `script` and NUMBER it prints this of each command, behind its name and a tab.
//!
//! With the words `list` and NUMBER it reads a list, and prints `ITEM CODE REASON NUMBER PART` of the item of that
//! number, as a list of its own, or of 0 of the whole list, where each name is taken for one that has a number; with
//! `unnamed`, for one that has none. A hyphen stands for what there is not.
//!
//! **Promises.** What is told is of the line, or of the item of a list, that was asked (`Does`, `IsAnswer`). Of a line
//! that stands in its place, it begins with the word and the code of the definition (`of_form`: `line_misfit` of
//! `suite_script`), and the place is that of the item (`item_in`). A word has a reason to be no number exactly where it
//! is none within its limits (`number_reason`), and those are the reader's (`limits`); digits are told to be odd exactly
//! where all are digits (`bytes_reason`), and permissions have a reason exactly where they are none
//! (`permissions_told`). A word that is told to mend a line, in the place of one or before it, does so, and so does the
//! lack of a word that is told to be too many: the line then has one of the command's forms. Where a word is told to be
//! missing there is one that does, and where a path is told to have a space an operation has a word too many
//! (`push_mends`: `AreMends`).
//!
//! **Definitions** (`specs/`): `Answers`, `Finding`, `Mends`, `Reasons`, `Runs`.
//!
//! **Files**: `table` (the forms, and their places with limits), `reading` (the lines above), `finding` (what is found
//! and printed of a line), `list`, `mend` (what would mend the line; how a field is printed), `reason`.
#![tactic(auto)]

ghost use Rattle.std.specs.Prelude.{IfOk, map};
ghost use Rattle.byte_streams.specs.Programs.{Obeys, streams_of};
ghost use Rattle.forms.specs.Answers.{IsAnswer};
ghost use Rattle.forms.specs.Runs.{Asks, Does, DoesOf, Ends, Runs};

mod finding;
mod list;
mod mend;
mod reading;
mod reason;
mod table;

use byte_streams::{
    ByteIn, ByteOut, COMMAND_LINE, DONE, MAX_INPUT, finish, finish_line, lack_memory, read_all,
    tell_unread,
};
use finding::{found_in, found_of_all};
use list::found_in_list;
use script_text::read_number;
use std::alloc::{AllocError, Global};
use suite_script::Forms;
use table::{lines_of, table};

/// What is asked: what keeps a line of a command's script from its form, or of each command's; or what is wrong with a
/// list or an item of it, where each name has a number or none has.
#[derive(Clone, Copy)]
enum Question {
    Line(Forms, u64),
    Script(u64),
    List(bool, u64),
}

/// What words ask for: the table, or an answer.
#[derive(Clone, Copy)]
enum Wish {
    Table,
    Answer(Question),
}

/// Does what the words behind the command ask for, and says the exit status.
pub fn obey<I: ByteIn, O: ByteOut>(
    alloc: Global,
    words: &[&str],
    reader: &mut I,
    writer: &mut O,
) -> u8
    ensures { DoesOf (map (λ word. word.now) words.now)
        (streams_of I.rest I.failed_reads O.written O.failed_writes reader.old reader.new writer.old writer.new) result }
{
    work(alloc, read_words(words), reader, writer)
}

/// Does what words ask for, and says the exit status.
fn work<I: ByteIn, O: ByteOut>(
    alloc: Global,
    wish: Option<Wish>,
    reader: &mut I,
    writer: &mut O,
) -> u8
    ensures { Obeys Does wish (streams_of I.rest I.failed_reads O.written O.failed_writes reader.old reader.new writer.old writer.new) result }
{
    match wish {
        Some(Wish::Table) => finish_line(writer, table(alloc), DONE),
        Some(Wish::Answer(question)) => answer(alloc, question, reader, writer),
        None => finish(writer, b"fault command line\n", COMMAND_LINE),
    }
}

/// What words ask for, if they ask for something.
fn read_words(words: &[&str]) -> Option<Wish>
    ensures { Asks (map (λ word. word.now) words.now) result }
{
    match words {
        [] => Some(Wish::Table),
        [what, number] => Some(Wish::Answer(asked(what.as_bytes(), number.as_bytes())?)),
        _ => None,
    }
}

/// What two words ask.
fn asked(what: &[u8], number: &[u8]) -> Option<Question> {
    let number = read_number(number, u64::MAX)?;
    match what {
        b"script" => Some(Question::Script(number)),
        b"list" => Some(Question::List(true, number)),
        b"unnamed" => Some(Question::List(false, number)),
        command => Some(Question::Line(lines_of(command)?, number)),
    }
}

/// Answers a question about the script or the list that a reader gives, and says the exit status.
fn answer<I: ByteIn, O: ByteOut>(
    alloc: Global,
    question: Question,
    reader: &mut I,
    writer: &mut O,
) -> u8
    ensures { Runs question (streams_of I.rest I.failed_reads O.written O.failed_writes reader.old reader.new writer.old writer.new) result }
{
    match read_all(alloc, reader, MAX_INPUT) {
        Ok(given) => tell(alloc, question, &given, writer),
        Err(error) => tell_unread(writer, error),
    }
}

/// Tells the answer to a question about a script or a list.
#[tactic(auto, using(crate::proofs::Answering::answered))]
fn tell<O: ByteOut>(alloc: Global, question: Question, given: &[u8], writer: &mut O) -> u8
    ensures { Ends question given.now (O.written writer.old) (O.written writer.new)
        (O.failed_writes writer.old) (O.failed_writes writer.new) result }
{
    match told(alloc, question, given) {
        Ok(text) => finish(writer, &text, DONE),
        Err(_) => lack_memory(writer),
    }
}

/// The answer to a question about a script or a list.
fn told(alloc: Global, question: Question, given: &[u8]) -> Result<Vec<u8>, AllocError>
    ensures { IfOk result (λ text. IsAnswer question given.now text.items) }
{
    match question {
        Question::Line(forms, number) => found_in(alloc, forms, given, number),
        Question::Script(number) => found_of_all(alloc, given, number),
        Question::List(are_named, number) => found_in_list(alloc, are_named, given, number),
    }
}
