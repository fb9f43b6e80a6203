//! Values, typed columns and chunks, the unit in which rows pass from one part of a query to the
//! next.
//!
//! A chunk is seen by contracts as a table: the types of its columns and its list of rows, each row
//! one value for each column. It is kept by column: an Int64 or UInt64 column is one vector of
//! numbers, a Text column one vector of the bytes of all its texts with a vector of where each
//! ends; a column that may have NULL has one byte a value beside it. No value or row of its own is
//! made on a path that every row takes.
//!
//! Rows and columns are tied in `proofs/Laws.antt`: a column has each row's value at its place
//! (`Chunk::column`), and columns whose values are those of a list of expressions at each row, one
//! column an expression, make the rows of these values (`Chunk::of_columns`, `rows_of-made`).
#![tactic(auto)]

mod column_list;
mod compact;
mod lists;
mod plain_column;
mod row_chunk;
mod row_order;
mod text_column;
mod typed_access;
mod typed_column;
mod typed_value;

pub use column_list::{empty_columns, truncate_columns};
pub use lists::{Bytes, List, Memory};
pub use plain_column::PlainSlice;
pub use row_chunk::Chunk;
pub use text_column::Texts;
pub use typed_column::Column;
pub use typed_value::{ColumnType, PlainType, SortKey, Value, type_at};
