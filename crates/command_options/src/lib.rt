//! The options of the command line, as `clap` reads them.
//!
//! No other crate calls `clap` or speaks of it: what the words give is `options_of`, a text for
//! each option that is given. What a text has to look like is settled above.
#![tactic(auto)]

mod options;

pub use options::{OptionTexts, read_options};
