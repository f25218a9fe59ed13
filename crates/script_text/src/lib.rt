//! Scripts as text: lines, words, phrases and numbers. A script is bytes.
//!
//! **Promises.** The iterators give exactly what is left of a text, in order: `Lines` its lines, `Words` the words
//! of a line, `WordParts` what stands between separators, `Numbers` the numbers that such parts spell. `Phrases` gives
//! the words between semicolons. None of them takes memory. `read_number` gives the number that a word of digits
//! spells, up to a limit (`number_up_to`); `push_number` writes one.
//!
//! **The caller owes** that `Phrases::next_phrase` is called once the phrase has no word left.
//!
//! **Files**: `lines`, `words`, `parts`, `phrases`, `number`, `numbers`. **Definitions** (`specs/`): `Words`,
//! `Phrases`, `Numbers`; what a line is, std says.
#![tactic(auto)]

mod lines;
mod number;
mod numbers;
mod parts;
mod phrases;
mod words;

pub use lines::Lines;
pub use number::{push_number, read_number};
pub use numbers::Numbers;
pub use parts::WordParts;
pub use phrases::Phrases;
pub use words::Words;
