//! Keys by codes: the places of the keys of rows, in order of first appearance. A key is the
//! values of some columns of a row. Groups are looked up by it, and the rows of a join.
//!
//! - `key_code`: the keys seen, each by its code, and the places of a chunk's keys among them. A
//!   key of one number is looked up by its bits, one of a text by its bytes, one of several values
//!   by the bytes of all; without columns nothing is looked up. NULL has a code that no number and
//!   no text has. Keys have one code where they are one.
//! - `places`: the places of the codes of a chunk, one loop a form of code.
#![tactic(auto)]

mod key_code;
mod places;

pub use key_code::{SeenKeys, find_places};
