//! Processors that read CSV files or lists of them, with the fetch that they stand on and the
//! writer of rows.
#![tactic(auto)]

mod feeds;
mod file_fetch;
mod file_kernel;
mod file_source;
mod file_state;
mod list_lines;
mod listed_growth;
mod listed_paths;
mod sourcing;

pub use csv_rows::write_rows;
pub use feeds::Feeds;
pub use file_fetch::{Fetched, fetch};
pub use file_kernel::FileKernel;
pub use file_source::FileSource;
pub use sourcing::{PartLists, Parts, Sourced, Sourcing};

/// Gives the rows of a part, a CSV file that its reader fetches whole before the first row is made.
pub type CsvSource<R> = FileSource<R, Sourcing<Parts>>;

/// Gives the rows of a list of parts: it fetches the list as a source does its part, lets its graph
/// grow by a source for each path, and passes on what these give.
pub type ListSource<R> = FileSource<R, Sourcing<PartLists>>;
