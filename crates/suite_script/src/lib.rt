//! The language of scripts, as the commands of `suites` share it.
//!
//! Words stand between spaces and tabs, and operations between words that are a semicolon. An empty line, and one
//! that begins with `#`, says nothing. A command says with which words its own lines begin, and what they say
//! (`Language`). What reads a script line by line by itself has `misplaced` and `root_of` for a header, and
//! `read_name` and `judge_name` for the lines below it.
//!
//! **Promises.** `ScriptReader` gives the lines one by one, each with the names that are known there, or the first
//! fault (`specs/Scripts.antt`). `play_lines` plays them as they are read, on what the command plays them on
//! (`LineStage`), and looks through those that are left for a fault before it writes. Words say what the definitions
//! say (`read_operations`, `read_votes`, `read_caller`), and outcomes and faults print as these say
//! (`push_answered`, `push_refused`, `push_votes`, `fault_text`). Text is gathered and written in pieces
//! (`write_if_full`).
//!
//! The forms of all lines and operations are data (`Forms`, `Verb::form`). `Scope::misfit` gives the first word of a
//! line that its form does not allow, with what was expected there and the fault (`specs/Misfits.antt`). That the
//! fault is the one of the reader is a law of operations (`misfits_have_the_fault_of_operations`), and tried of the
//! other words.
//!
//! Votes and lists are explained in the `--help` of each command and in docs/SCRIPTS.md, "Scripts"; `docs/FAULTS.md`
//! has the faults. A line of no such form, or with an agent, server or site that is not there, is S1. A line of a
//! header that is out of its place is S2. A server has 0 to 255 votes, and a read or a write collects 0 to 65535, else
//! it is S1. Votes that are not valid are V1 to V7, in `vote_core`'s order. `step A N` goes up to 1,000,000. `setacl`
//! sets both lists.
//!
//! **The caller owes** a text below 2^62 bytes to `ScriptReader::new`, to `look_ahead` that the header was read, and
//! to `play_lines` fewer than 2^60 lines.
//!
//! **Files**: `fault`, `play_error`, `word`, `votes`, `verb` (the words that begin operations, with their forms),
//! `operation`, `names`, `line`, `language`, `script`, `header`, `root`, `code`, `form`, `lines` (the forms of each
//! command's lines), `scope` (words in their places), `misfit`, `laws`, `outcome`, `gathered`, `stage`.
//!
//! **Definitions** (`specs/`): `Words`, `Lists`, `Votes`, `Operations`, `Faults`, `Scripts`, `Forms`, `Misfits`,
//! `Texts`, `Outputs`, `Playing`; for the readings of the code `Readings`, `Progress`, `Gathering`.
#![tactic(auto)]

mod code;
mod fault;
mod form;
mod gathered;
mod header;
mod language;
mod laws;
mod line;
mod lines;
mod misfit;
mod names;
mod operation;
mod outcome;
mod play_error;
mod root;
mod scope;
mod script;
mod stage;
mod verb;
mod votes;
mod word;

pub use code::{fault_text, push_line_code};
pub use fault::{LineError, LineFault, ScriptError, ScriptFault};
pub use form::{FormEnding, Forms, LineForm, Place};
pub use gathered::{write_gathered, write_if_full};
pub use header::{read_root, root_of};
pub use language::Language;
pub use laws::misfits_have_the_fault_of_operations;
pub use line::Line;
pub use lines::{PLAY_LINES, SERVE_LINES, TABLE_LINES};
pub use misfit::{Expected, Misfit};
pub use names::{judge_name, misplaced, read_name};
pub use operation::read_operations;
pub use outcome::{push_answered, push_bytes, push_denial, push_refused};
pub use play_error::PlayError;
pub use root::Root;
pub use scope::{LAST_SITE, MAX_STEPS, Scope};
pub use script::ScriptReader;
pub use stage::{LineStage, play_lines};
pub use verb::{VERBS, Verb};
pub use votes::{push_votes, read_votes};
pub use word::{at_end, next_word, read_caller, read_id};
