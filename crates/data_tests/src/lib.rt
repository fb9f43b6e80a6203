//! Tests of what reads, checks and computes, a module for each crate that they test.
//!
//! They show what no contract says: worked values from outside, that each public call succeeds
//! where memory is ample, and files that fail in mid-stream. A crate with tests is proved twice, so
//! that they stand together, above the crates that they test.
#![tactic(auto)]

#[cfg(test)]
mod analysis_tests;
#[cfg(test)]
mod chunk_data_tests;
#[cfg(test)]
mod command_line_tests;
#[cfg(test)]
mod csv_rows_tests;
#[cfg(test)]
mod expr_eval_tests;
#[cfg(test)]
mod literals;
#[cfg(test)]
mod outside_io_tests;
#[cfg(test)]
mod plain_rows;
#[cfg(test)]
mod query_model_tests;
#[cfg(test)]
mod select_planner_tests;
#[cfg(test)]
mod sql_grammar_tests;
#[cfg(test)]
mod sql_text_tests;
