ghost use Rattle.std.specs.Prelude.{◌≡◌, ◌↔◌, map, IfOk, IsTrue, All};
ghost use Rattle.query_model.specs.Names.{item_row, type_of, IsItem};

use crate::expression::{eval, plain_number};
use crate::type_test::is_typed;
use chunk_data::{Chunk, ColumnType, List, Memory};
use query_model::checked::Expr;
use std::alloc::Global;

fn is_item(expr: &Expr, types: &[ColumnType]) -> bool
    ensures { IsTrue result ↔ IsItem types.now expr.now }
{
    is_typed(expr, types) && plain_number(expr).is_none()
}

/// Whether each expression may be an item of SELECT: typed by the columns' types, and not a plain
/// number alone.
pub fn are_items(exprs: &[Expr], types: &[ColumnType]) -> bool
    ensures { IsTrue result ↔ All (IsItem types.now) exprs.now }
{
    for expr in exprs {
        if !is_item(expr, types) {
            return false;
        }
    }
    true
}

/// The rows of the items' values, a column for each item.
pub fn eval_items(alloc: Global, items: &[Expr], chunk: &Chunk) -> Result<Chunk, Memory>
    requires { All (IsItem chunk.now.types) items.now }
    ensures types { IfOk result (λ c. c.types ≡ map (λ e. type_of e chunk.now.types) items.now) }
    ensures rows { IfOk result (λ c. c.rows ≡ map (item_row items.now) chunk.now.rows) }
{
    let mut columns = Vec::new(alloc);
    for item in items {
        let column = eval(alloc, item, chunk)?;
        columns.push(column)?;
    }
    match Chunk::of_columns(alloc, List::from_vec(columns), chunk.rows()) {
        Ok(made) => Ok(made),
        Err(memory) => Err(memory),
    }
}
