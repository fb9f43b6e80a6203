ghost use Rattle.std.specs.Prelude.{◌≡◌, ◌↔◌, IsTrue, option_map};
ghost use Rattle.query_model.specs.Names.{type_of, number_of, IsTyped, IsTypedOperand, IsTypedCond, operand_type, is_text, plain_of, AreAlike, AreComparable, AreNumbersAlike, is_null_operand as is_null_side};

use crate::expression::plain_number;
use chunk_data::ColumnType;
use query_model::checked::{Cond, Expr};
use query_model::plain::{can_hold, expr_type};
use query_model::query::{CondOf, ExprOf, Number, Operand};

fn numbers_alike(s: ColumnType, t: ColumnType) -> bool
    ensures { IsTrue result ↔ AreNumbersAlike s t }
{
    s.is_alike(t) && !s.is_text()
}

// Whether two operands, plain numbers or of these types, may stand in arithmetic.
fn alike(p: Option<Number>, s: ColumnType, q: Option<Number>, t: ColumnType) -> bool
    ensures { IsTrue result ↔ AreAlike (option_map number_of p) s (option_map number_of q) t }
{
    match p {
        Some(n) => match q {
            Some(_) => false,
            None => can_hold(t, n),
        },
        None => match q {
            Some(n) => can_hold(s, n),
            None => numbers_alike(s, t),
        },
    }
}

fn operands_alike(left: &Expr, right: &Expr, types: &[ColumnType]) -> bool
    ensures { IsTrue result ↔ AreAlike (plain_of left.now) (type_of left.now types.now)
        (plain_of right.now) (type_of right.now types.now) }
{
    alike(
        plain_number(left),
        expr_type(left, types),
        plain_number(right),
        expr_type(right, types),
    )
}

/// Whether the expression is typed by the columns' types. A plain number alone is.
pub fn is_typed(expr: &Expr, types: &[ColumnType]) -> bool
    ensures { IsTrue result ↔ IsTyped types.now expr.now }
{
    match expr {
        ExprOf::Column(c) => (*c as usize) < types.len(),
        ExprOf::Number(_) => true,
        ExprOf::Arith(_, left, right) => {
            is_typed(left, types) && is_typed(right, types) && operands_alike(left, right, types)
        }
    }
}

fn is_typed_operand(operand: &Operand<u32>, types: &[ColumnType]) -> bool
    ensures { IsTrue result ↔ IsTypedOperand types.now operand.now }
{
    match operand {
        Operand::Plain(expr) => is_typed(expr, types),
        Operand::Text(_) | Operand::Null => true,
        Operand::Agg(_) => false,
    }
}

fn operand_is_text(operand: &Operand<u32>, types: &[ColumnType]) -> bool
    ensures { result ≡ is_text (operand_type operand.now types.now) }
{
    match operand {
        Operand::Plain(expr) => expr_type(expr, types).is_text(),
        Operand::Text(_) | Operand::Agg(_) | Operand::Null => true,
    }
}

fn is_null_operand(operand: &Operand<u32>) -> bool
    ensures { result ≡ is_null_side operand.now }
{
    matches!(operand, Operand::Null)
}

// Whether two numbers are compared, two texts, or NULL and any.
fn are_comparable(left: &Operand<u32>, right: &Operand<u32>, types: &[ColumnType]) -> bool
    ensures { IsTrue result ↔ AreComparable types.now left.now right.now }
{
    is_null_operand(left)
        || is_null_operand(right)
        || operand_is_text(left, types) == operand_is_text(right, types)
}

/// Whether the condition is typed by the columns' types.
pub fn is_typed_cond(cond: &Cond, types: &[ColumnType]) -> bool
    ensures { IsTrue result ↔ IsTypedCond types.now cond.now }
{
    match cond {
        CondOf::Compare(_, left, right) => {
            is_typed_operand(left, types)
                && is_typed_operand(right, types)
                && are_comparable(left, right, types)
        }
        CondOf::And(left, right) | CondOf::Or(left, right) => {
            is_typed_cond(left, types) && is_typed_cond(right, types)
        }
        CondOf::Not(inner) => is_typed_cond(inner, types),
        CondOf::IsNull(operand) => is_typed_operand(operand, types),
    }
}
