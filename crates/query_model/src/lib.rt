//! The types of queries and of the specs of processors, and the definitions of a query's plain
//! meaning.
#![tactic(auto)]

pub mod analysis;
pub mod arithmetic;
pub mod checked;
pub mod numerals;
pub mod places;
pub mod plain;
pub mod processor_spec;
pub mod query;
pub mod typing;
