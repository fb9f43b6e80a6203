// NULL in what is made of columns that may have it.
ghost use Rattle.std.specs.Prelude.{◌≡◌, ◌||◌, IfOk, Some, length, map};
ghost use Rattle.chunk_data.specs.Names.{column_type, column_validity, is_null, is_nullable, nullable_if, plain_type, values, with_nulls};
ghost use Rattle.expr_eval.specs.Results.{and_valid, has_truth};

use crate::compare_loops::{both, filled, negated};
use chunk_data::{Column, Memory};
use std::alloc::Global;

/// Where the mask is true and the column isn't NULL, in the mask's memory.
pub(crate) fn where_valid(mask: Vec<bool>, column: &Column) -> Vec<bool>
    requires { length mask.items ≡ length (values column.now) }
    ensures is { result.items ≡ and_valid (column_validity column.now) mask.items }
    ensures long { length result.items ≡ length mask.items }
{
    match column.validity() {
        None => mask,
        Some(validity) => both(mask, validity),
    }
}

/// What was made, with NULL where the column has it.
pub(crate) fn null_where(alloc: Global, made: Column, column: &Column) -> Result<Column, Memory>
    requires { length (values column.now) ≡ length (values made) }
    ensures kind { IfOk result (λ c. column_type c
        ≡ nullable_if (is_nullable (column_type made) || is_nullable (column_type column.now))
        (plain_type (column_type made))) }
    ensures values { IfOk result
        (λ c. values c ≡ with_nulls (column_validity column.now) (values made)) }
    ensures long { IfOk result (λ c. length (values c) ≡ length (values made)) }
{
    match column.validity() {
        None => Ok(made),
        Some(validity) => {
            let copy = Vec::from_slice(alloc, validity)?;
            let valid = where_valid(copy, &made);
            Ok(made.with_validity(Some(valid)))
        }
    }
}

/// Where values are NULL, or where they are not.
pub(crate) fn null_mask(alloc: Global, wanted: bool, column: &Column) -> Result<Vec<bool>, Memory>
    ensures { IfOk result
        (λ m. m.items ≡ map (λ v. has_truth wanted (Some (is_null v))) (values column.now)) }
{
    match column.validity() {
        None => filled(alloc, !wanted, column.len()),
        Some(validity) => {
            let valid = Vec::from_slice(alloc, validity)?;
            if wanted {
                Ok(negated(valid))
            } else {
                Ok(valid)
            }
        }
    }
}
