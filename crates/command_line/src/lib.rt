//! The words of the command line.
//!
//! `words` reads the command, `tables` the declarations of `--tables`, `pieces` what separators
//! part, and `names` tests that names differ. Which option has which text is for `command_options`
//! to say.
#![tactic(auto)]

mod names;
mod pieces;
mod tables;
mod words;

pub use words::{Command, WordsRefusal, read_words};
