//! JOIN, as a kind of processor inside the shell. A `HashJoin` reads the JOIN table's rows to their
//! end first, and then each chunk of the FROM table: every row of it beside every row with which it
//! agrees on all pairs of columns.
//!
//! - `joining`: the kernel, which gathers its right side, and then joins chunk by chunk.
//! - `join_index`: where the right side's keys are: of each key the first row, and of each row
//!   the next one with the same key, so that a row's matches come one after another, in order.
//! - `left_rows`: a chunk of the left side, and how far it is joined. Pairs that aren't made yet
//!   wait as places, however many rows a row agrees with.
//! - `fitting`: whether a chunk is of the types of its side, and the pairs are of their columns.
#![tactic(auto)]

mod fitting;
mod join_index;
mod joining;
mod left_rows;

pub use joining::{HashJoin, Joining};
