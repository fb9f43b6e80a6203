//! The parser of a query's text: `parse` answers the query that spells it.
#![tactic(auto)]

mod limits;
mod lists;
mod parse_error;
mod queries;
mod scan;
mod tables;
mod term;
mod texts;

pub use limits::{MAX_OPERATORS, MAX_TEXT, ParseRefusal};
pub use texts::{one_reading, parse};
