//! Expressions and conditions over chunks, evaluated column by column: one loop over slices for
//! each operator. Where columns may have NULL, the same loop runs over all that they keep, and then
//! what came of a NULL is made NULL, or false in a mask.
#![tactic(auto)]

mod arith_loops;
mod compare_loops;
mod condition;
mod expression;
mod items;
mod type_test;
mod validity;

pub use condition::mask;
pub use expression::eval;
pub use items::{are_items, eval_items};
pub use type_test::{is_typed, is_typed_cond};
