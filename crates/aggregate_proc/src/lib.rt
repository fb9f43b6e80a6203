//! GROUP BY, as two kinds of processor inside the shell. A `PartialAggregate` folds the rows of one
//! input into groups: of each its key, in the order of first appearance, and a state for each call.
//! A `MergeAggregate` folds the groups of several of them into one, so that the groups of a table
//! can be made of its parts side by side.
//!
//! - `grouping`: the kernel of both, which gathers to the end of its inputs and then gives rows.
//! - `group_table`: the groups so far. For each chunk the places of its rows' groups are found
//!   first, and then each column takes the rows to these places in one loop.
//! - `fold`: a column of the table, and what it makes of the values of a group.
//! - `nullable_fold`: the same where values may be NULL.
//! - `group_builder`: the columns for a spec.
#![tactic(auto)]

mod fold;
mod group_builder;
mod group_table;
mod grouping;
mod nullable_fold;
mod phase;

pub use grouping::{
    Grouped, Grouping, MergeAggregate, PartialAggregate, PartialGroups, SingleRows,
};
