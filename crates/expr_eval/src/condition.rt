ghost use Rattle.std.specs.Prelude.{◌≡◌, pos, length, map, IfOk, IfSome, None, Some, false, true, zip};
ghost use Rattle.std.specs.Ordering.{int_cmp};
ghost use Rattle.chunk_data.specs.Names.{column_type, is_null, slice_type, slice_values, values};
ghost use Rattle.chunk_data.specs.Values.{is_plain_text};
ghost use Rattle.expr_eval.specs.Results.{compares, has_truth};
ghost use Rattle.query_model.specs.Names.{value_of, type_of, operand_value, holds, number_of, plain_value, passes, compared, truth_of, AreComparable, IsTyped, IsTypedOperand, IsTypedCond, is_null_operand, operand_type, is_text, plain_of};

use crate::compare_loops::{
    both_or_either, filled, flip, int_far_mask, int_mask, int_mask_beside, int_uint_mask,
    number_as_wide, numbers_pass, opposite_unless, text_mask, text_mask_beside, text_passes,
    uint_far_mask, uint_mask, uint_mask_beside,
};
use crate::expression::{arith_column, column_at, plain_number};
use crate::validity::{null_mask, where_valid};
use chunk_data::{Bytes, Chunk, Column, Memory, PlainSlice, Texts, Value};
use query_model::checked::{Cond, Expr};
use query_model::query::{CompareOp, CondOf, ExprOf, Number, Operand};
use std::alloc::Global;

fn number_in_int(n: Number) -> Option<i64>
    ensures { IfSome result (λ k. k ≡ number_of n) }
{
    let wide = number_as_wide(n);
    if wide >= -9223372036854775808 && wide <= 9223372036854775807 {
        Some(wide as i64)
    } else {
        None
    }
}

fn number_in_uint(n: Number) -> Option<u64>
    ensures { IfSome result (λ k. pos k ≡ number_of n) }
{
    if n.negative && n.size > 0 {
        None
    } else {
        Some(n.size)
    }
}

fn ints_beside(alloc: Global, op: CompareOp, xs: &[i64], n: Number) -> Result<Vec<bool>, Memory>
    ensures { IfOk result (λ m. m.items ≡ map (λ x. passes op (int_cmp x (number_of n))) xs.now) }
{
    match number_in_int(n) {
        Some(y) => int_mask_beside(alloc, op, xs, y),
        None => int_far_mask(alloc, op, xs, n),
    }
}

fn uints_beside(alloc: Global, op: CompareOp, xs: &[u64], n: Number) -> Result<Vec<bool>, Memory>
    ensures { IfOk result
        (λ m. m.items ≡ map (λ x. passes op (int_cmp (pos x) (number_of n))) xs.now) }
{
    match number_in_uint(n) {
        Some(y) => uint_mask_beside(alloc, op, xs, y),
        None => uint_far_mask(alloc, op, xs, n),
    }
}

// The comparison at each number of a column, NULL apart, and a plain number.
fn numbers_beside(
    alloc: Global,
    op: CompareOp,
    numbers: PlainSlice<'_>,
    n: Number,
) -> Result<Vec<bool>, Memory>
    requires { is_plain_text (slice_type numbers) ≡ false }
    ensures { IfOk result (λ m. m.items ≡ map
        (λ v. passes op (compared v (plain_value (number_of n)))) (slice_values numbers.entry)) }
{
    match numbers {
        PlainSlice::Ints(xs) => ints_beside(alloc, op, xs, n),
        PlainSlice::UInts(xs) => uints_beside(alloc, op, xs, n),
        PlainSlice::Texts(_) => unreachable!(),
    }
}

fn column_beside(
    alloc: Global,
    op: CompareOp,
    column: &Column,
    n: Number,
) -> Result<Vec<bool>, Memory>
    requires { is_text (column_type column.now) ≡ false }
    ensures { IfOk result (λ m. m.items
        ≡ map (λ v. compares op v (plain_value (number_of n))) (values column.now)) }
{
    let mask = numbers_beside(alloc, op, column.plain(), n)?;
    Ok(where_valid(mask, column))
}

fn ints_and_column(
    alloc: Global,
    op: CompareOp,
    xs: &[i64],
    right: PlainSlice<'_>,
) -> Result<Vec<bool>, Memory>
    requires { is_plain_text (slice_type right) ≡ false }
    ensures { IfOk result (λ m. m.items ≡ map (λ p. passes op (compared p.0 p.1))
        (zip (map Value.Int xs.now) (slice_values right.entry))) }
{
    match right {
        PlainSlice::Ints(ys) => int_mask(alloc, op, xs, ys),
        PlainSlice::UInts(ys) => int_uint_mask(alloc, op, xs, ys),
        PlainSlice::Texts(_) => unreachable!(),
    }
}

fn uints_and_column(
    alloc: Global,
    op: CompareOp,
    xs: &[u64],
    right: PlainSlice<'_>,
) -> Result<Vec<bool>, Memory>
    requires { is_plain_text (slice_type right) ≡ false }
    ensures { IfOk result (λ m. m.items ≡ map (λ p. passes op (compared p.0 p.1))
        (zip (map Value.UInt xs.now) (slice_values right.entry))) }
{
    match right {
        PlainSlice::Ints(ys) => int_uint_mask(alloc, flip(op), ys, xs),
        PlainSlice::UInts(ys) => uint_mask(alloc, op, xs, ys),
        PlainSlice::Texts(_) => unreachable!(),
    }
}

fn texts_and_column(
    alloc: Global,
    op: CompareOp,
    texts: &Texts,
    right: PlainSlice<'_>,
) -> Result<Vec<bool>, Memory>
    requires kind { is_plain_text (slice_type right) ≡ true }
    requires long { length (slice_values right) ≡ length texts.now }
    ensures { IfOk result (λ m. m.items ≡ map (λ p. passes op (compared p.0 p.1))
        (zip (map Value.Text texts.now) (slice_values right.entry))) }
{
    match right {
        PlainSlice::Texts(others) => text_mask(alloc, op, texts, others),
        PlainSlice::Ints(_) | PlainSlice::UInts(_) => unreachable!(),
    }
}

// The comparison at each pair of values of two columns, NULL apart.
fn slices(
    alloc: Global,
    op: CompareOp,
    left: PlainSlice<'_>,
    right: PlainSlice<'_>,
) -> Result<Vec<bool>, Memory>
    requires alike { is_plain_text (slice_type left) ≡ is_plain_text (slice_type right) }
    requires long { length (slice_values right) ≡ length (slice_values left) }
    ensures { IfOk result (λ m. m.items ≡ map (λ p. passes op (compared p.0 p.1))
        (zip (slice_values left.entry) (slice_values right.entry))) }
{
    match left {
        PlainSlice::Ints(xs) => ints_and_column(alloc, op, xs, right),
        PlainSlice::UInts(xs) => uints_and_column(alloc, op, xs, right),
        PlainSlice::Texts(texts) => texts_and_column(alloc, op, texts, right),
    }
}

fn columns(alloc: Global, op: CompareOp, left: &Column, right: &Column) -> Result<Vec<bool>, Memory>
    requires alike { is_text (column_type left.now) ≡ is_text (column_type right.now) }
    requires long { length (values right.now) ≡ length (values left.now) }
    ensures { IfOk result
        (λ m. m.items ≡ map (λ p. compares op p.0 p.1) (zip (values left.now) (values right.now))) }
{
    let mask = slices(alloc, op, left.plain(), right.plain())?;
    let left_valid = where_valid(mask, left);
    Ok(where_valid(left_valid, right))
}

fn texts_beside(
    alloc: Global,
    op: CompareOp,
    column: &Column,
    text: &[u8],
) -> Result<Vec<bool>, Memory>
    requires { is_text (column_type column.now) ≡ true }
    ensures { IfOk result (λ m. m.items
        ≡ map (λ v. compares op v (Value.Text text.now)) (values column.now)) }
{
    match column.plain() {
        PlainSlice::Texts(texts) => {
            let mask = text_mask_beside(alloc, op, texts, text)?;
            Ok(where_valid(mask, column))
        }
        PlainSlice::Ints(_) | PlainSlice::UInts(_) => unreachable!(),
    }
}

fn number_compared(
    alloc: Global,
    op: CompareOp,
    expr: &Expr,
    n: Number,
    chunk: &Chunk,
) -> Result<Vec<bool>, Memory>
    requires typed { IsTyped chunk.now.types expr.now }
    requires not_plain { plain_of expr.now ≡ None }
    requires not_text { is_text (type_of expr.now chunk.now.types) ≡ false }
    ensures { IfOk result (λ m. m.items ≡ map (λ row. compares op
        (value_of expr.now row) (plain_value (number_of n))) chunk.now.rows) }
{
    let column = arith_column(alloc, expr, chunk)?;
    column_beside(alloc, op, column_at(expr, &column, chunk), n)
}

// The comparison of two expressions, neither of which is a plain number, at each row.
fn expressions_compared(
    alloc: Global,
    op: CompareOp,
    left: &Expr,
    right: &Expr,
    chunk: &Chunk,
) -> Result<Vec<bool>, Memory>
    requires left { IsTyped chunk.now.types left.now }
    requires right { IsTyped chunk.now.types right.now }
    requires left_not_plain { plain_of left.now ≡ None }
    requires right_not_plain { plain_of right.now ≡ None }
    requires alike { is_text (type_of left.now chunk.now.types)
        ≡ is_text (type_of right.now chunk.now.types) }
    ensures { IfOk result (λ m. m.items ≡ map (λ row. compares op
        (value_of left.now row) (value_of right.now row)) chunk.now.rows) }
{
    let left_made = arith_column(alloc, left, chunk)?;
    let right_made = arith_column(alloc, right, chunk)?;
    let here = column_at(left, &left_made, chunk);
    let there = column_at(right, &right_made, chunk);
    columns(alloc, op, here, there)
}

fn plain_compared(
    alloc: Global,
    op: CompareOp,
    n: Number,
    right: &Expr,
    chunk: &Chunk,
) -> Result<Vec<bool>, Memory>
    requires right { IsTyped chunk.now.types right.now }
    requires not_text { is_text (type_of right.now chunk.now.types) ≡ false }
    ensures { IfOk result (λ m. m.items ≡ map (λ row. compares op
        (plain_value (number_of n)) (value_of right.now row)) chunk.now.rows) }
{
    match plain_number(right) {
        Some(k) => filled(alloc, numbers_pass(op, n, k), chunk.rows()),
        None => number_compared(alloc, flip(op), right, n, chunk),
    }
}

fn plain_operands(
    alloc: Global,
    op: CompareOp,
    left: &Expr,
    right: &Expr,
    chunk: &Chunk,
) -> Result<Vec<bool>, Memory>
    requires left { IsTyped chunk.now.types left.now }
    requires right { IsTyped chunk.now.types right.now }
    requires alike { is_text (type_of left.now chunk.now.types)
        ≡ is_text (type_of right.now chunk.now.types) }
    ensures { IfOk result (λ m. m.items ≡ map (λ row. compares op
        (value_of left.now row) (value_of right.now row)) chunk.now.rows) }
{
    match plain_number(left) {
        Some(n) => plain_compared(alloc, op, n, right, chunk),
        None => match plain_number(right) {
            Some(k) => number_compared(alloc, op, left, k, chunk),
            None => expressions_compared(alloc, op, left, right, chunk),
        },
    }
}

fn text_compared(
    alloc: Global,
    op: CompareOp,
    expr: &Expr,
    text: &Bytes,
    chunk: &Chunk,
) -> Result<Vec<bool>, Memory>
    requires typed { IsTyped chunk.now.types expr.now }
    requires is_text { is_text (type_of expr.now chunk.now.types) ≡ true }
    ensures { IfOk result (λ m. m.items ≡ map (λ row. compares op
        (value_of expr.now row) (Value.Text text.now)) chunk.now.rows) }
{
    match expr {
        ExprOf::Column(c) => texts_beside(alloc, op, chunk.column(*c as usize), text.as_slice()),
        ExprOf::Number(_) => unreachable!(),
        ExprOf::Arith(_, _, _) => unreachable!(),
    }
}

// A comparison with NULL, which is true at no row.
fn null_compared(alloc: Global, chunk: &Chunk) -> Result<Vec<bool>, Memory>
    ensures { IfOk result (λ m. m.items ≡ map (λ _. false) chunk.now.rows) }
{
    filled(alloc, false, chunk.rows())
}

fn beside_text(
    alloc: Global,
    op: CompareOp,
    left: &Operand<u32>,
    text: &Bytes,
    chunk: &Chunk,
) -> Result<Vec<bool>, Memory>
    requires typed { IsTypedOperand chunk.now.types left.now }
    requires is_text { is_null_operand left.now ≡ false
        → is_text (operand_type left.now chunk.now.types) ≡ true }
    ensures { IfOk result (λ m. m.items ≡ map (λ row. compares op
        (operand_value left.now row) (Value.Text text.now)) chunk.now.rows) }
{
    match left {
        Operand::Plain(expr) => text_compared(alloc, op, expr, text, chunk),
        Operand::Text(bytes) => filled(
            alloc,
            text_passes(op, bytes.as_slice(), text.as_slice()),
            chunk.rows(),
        ),
        Operand::Agg(_) => unreachable!(),
        Operand::Null => null_compared(alloc, chunk),
    }
}

fn beside_expression(
    alloc: Global,
    op: CompareOp,
    left: &Operand<u32>,
    right: &Expr,
    chunk: &Chunk,
) -> Result<Vec<bool>, Memory>
    requires left { IsTypedOperand chunk.now.types left.now }
    requires right { IsTyped chunk.now.types right.now }
    requires alike { is_null_operand left.now ≡ false
        → is_text (operand_type left.now chunk.now.types)
        ≡ is_text (type_of right.now chunk.now.types) }
    ensures { IfOk result (λ m. m.items ≡ map (λ row. compares op
        (operand_value left.now row) (value_of right.now row)) chunk.now.rows) }
{
    match left {
        Operand::Plain(expr) => plain_operands(alloc, op, expr, right, chunk),
        Operand::Text(text) => text_compared(alloc, flip(op), right, text, chunk),
        Operand::Agg(_) => unreachable!(),
        Operand::Null => null_compared(alloc, chunk),
    }
}

fn compare(
    alloc: Global,
    op: CompareOp,
    left: &Operand<u32>,
    right: &Operand<u32>,
    chunk: &Chunk,
) -> Result<Vec<bool>, Memory>
    requires left { IsTypedOperand chunk.now.types left.now }
    requires right { IsTypedOperand chunk.now.types right.now }
    requires alike { AreComparable chunk.now.types left.now right.now }
    ensures { IfOk result (λ m. m.items ≡ map (λ row. compares op
        (operand_value left.now row) (operand_value right.now row)) chunk.now.rows) }
{
    match right {
        Operand::Plain(expr) => beside_expression(alloc, op, left, expr, chunk),
        Operand::Text(text) => beside_text(alloc, op, left, text, chunk),
        Operand::Agg(_) => unreachable!(),
        Operand::Null => null_compared(alloc, chunk),
    }
}

// Where the operand is NULL, or where it is not.
fn null_test(
    alloc: Global,
    wanted: bool,
    operand: &Operand<u32>,
    chunk: &Chunk,
) -> Result<Vec<bool>, Memory>
    requires { IsTypedOperand chunk.now.types operand.now }
    ensures { IfOk result (λ m. m.items ≡ map (λ row. has_truth wanted
        (Some (is_null (operand_value operand.now row)))) chunk.now.rows) }
{
    match operand {
        Operand::Plain(expr) => expression_null_test(alloc, wanted, expr, chunk),
        Operand::Text(_) => filled(alloc, !wanted, chunk.rows()),
        Operand::Agg(_) => unreachable!(),
        Operand::Null => filled(alloc, wanted, chunk.rows()),
    }
}

fn expression_null_test(
    alloc: Global,
    wanted: bool,
    expr: &Expr,
    chunk: &Chunk,
) -> Result<Vec<bool>, Memory>
    requires { IsTyped chunk.now.types expr.now }
    ensures { IfOk result (λ m. m.items ≡ map (λ row. has_truth wanted
        (Some (is_null (value_of expr.now row)))) chunk.now.rows) }
{
    match plain_number(expr) {
        Some(_) => filled(alloc, !wanted, chunk.rows()),
        None => {
            let column = arith_column(alloc, expr, chunk)?;
            null_mask(alloc, wanted, column_at(expr, &column, chunk))
        }
    }
}

// Where the condition is true, or where it is false; where it is NULL it is neither. NOT asks its
// condition for the opposite and runs no loop, and each comparison runs one.
fn truth_mask(alloc: Global, wanted: bool, cond: &Cond, chunk: &Chunk) -> Result<Vec<bool>, Memory>
    requires { IsTypedCond chunk.now.types cond.now }
    ensures { IfOk result (λ m. m.items
        ≡ map (λ row. has_truth wanted (truth_of cond.now row)) chunk.now.rows) }
{
    match cond {
        CondOf::Compare(op, left, right) => {
            compare(alloc, opposite_unless(wanted, *op), left, right, chunk)
        }
        CondOf::And(left, right) => {
            let truths = truth_mask(alloc, wanted, left, chunk)?;
            let others = truth_mask(alloc, wanted, right, chunk)?;
            Ok(both_or_either(wanted, truths, others.as_slice()))
        }
        CondOf::Or(left, right) => {
            let truths = truth_mask(alloc, wanted, left, chunk)?;
            let others = truth_mask(alloc, wanted, right, chunk)?;
            Ok(both_or_either(!wanted, truths, others.as_slice()))
        }
        CondOf::Not(inner) => truth_mask(alloc, !wanted, inner, chunk),
        CondOf::IsNull(operand) => null_test(alloc, wanted, operand, chunk),
    }
}

/// Whether the condition is true at each row. Numbers are compared by their exact values, whatever
/// their types, and texts by bytes; a comparison with NULL is neither true nor false.
pub fn mask(alloc: Global, cond: &Cond, chunk: &Chunk) -> Result<Vec<bool>, Memory>
    requires { IsTypedCond chunk.now.types cond.now }
    ensures { IfOk result (λ m. m.items ≡ map (holds cond.now) chunk.now.rows) }
{
    truth_mask(alloc, true, cond, chunk)
}
