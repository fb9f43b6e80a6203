//! Processors that read rows and give them in the order of keys.
#![tactic(auto)]

mod fitting;
mod heads;
mod merge;
mod merged_rows;
mod ranks;
mod sort;

pub use merge::{MergeSorted, Merging};
pub use sort::{Sort, Sorting};
