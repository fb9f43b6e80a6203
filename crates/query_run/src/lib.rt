//! The top call: from the words of a command line, by the boxes of a rack, to the text of an
//! answer.
#![tactic(auto)]

mod answer;
mod checking;
mod ending;
mod planning;
mod stock;
mod telling;
mod top_call;

pub use top_call::run;
