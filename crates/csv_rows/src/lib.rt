//! Parts as typed rows, and rows as text: the bytes of a CSV file are read straight into typed
//! columns, and columns are written as the text of an answer.
//!
//! A record is read field by field into its columns (`record_by_field`); what one that is no row
//! added is taken back.
#![tactic(auto)]

mod field_ends;
mod record_by_field;
mod row_reader;
mod rows;
mod short_numbers;
mod text;

pub use row_reader::RowReader;
pub use rows::RowsFault;
pub use text::write_rows;
