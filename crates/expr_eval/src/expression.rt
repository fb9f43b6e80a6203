ghost use Rattle.std.specs.Prelude.{◌≡◌, pos, length, map, false, true, IfOk, None, Some, option_map, zip};
ghost use Rattle.chunk_data.specs.Names.{column_type, nullable_if, slice_type, slice_values, values};
ghost use Rattle.chunk_data.specs.Values.{is_plain_text};
ghost use Rattle.query_model.specs.Typing.{plain_holds};
ghost use Rattle.query_model.specs.Names.{value_of, type_of, number_of, plain_value, arith_type, arith_value, result_type, IsItem, IsTyped, plain_of, CanHold, AreNumbersAlike, AreAlike};
ghost use Rattle.expr_eval.specs.Results.{IsColumnMade, StandsInColumn, result_plain, swap_if};

use crate::arith_loops::{
    int_results, int_results_beside, int_results_onto, uint_differences, uint_differences_beside,
    uint_results, uint_results_beside,
};
use crate::validity::null_where;
use chunk_data::{Chunk, Column, ColumnType, Memory, PlainSlice, Value};
use query_model::checked::Expr;
use query_model::query::{ArithOp, ExprOf, Number};
use std::alloc::Global;

pub(crate) fn number_as_int(n: Number) -> i64
    requires { CanHold ColumnType.Int64 (number_of n) }
    ensures { result ≡ number_of n }
{
    if n.negative {
        n.size.wrapping_neg().cast_signed()
    } else {
        n.size.cast_signed()
    }
}

pub(crate) fn number_as_uint(n: Number) -> u64
    requires { CanHold ColumnType.UInt64 (number_of n) }
    ensures { pos result ≡ number_of n }
{
    n.size
}

pub(crate) fn plain_number(expr: &Expr) -> Option<Number>
    ensures { plain_of expr.now ≡ option_map number_of result }
{
    match expr {
        ExprOf::Number(n) => Some(*n),
        ExprOf::Column(_) | ExprOf::Arith(_, _, _) => None,
    }
}

fn int_beside(
    alloc: Global,
    swapped: bool,
    op: ArithOp,
    xs: &[i64],
    y: i64,
) -> Result<Column, Memory>
    ensures kind { IfOk result (λ c. column_type c ≡ ColumnType.Int64) }
    ensures values { IfOk result (λ c. values c
        ≡ map (λ v. swap_if swapped (arith_value op) v (plain_value y)) (map Value.Int xs.now)) }
{
    match int_results_beside(alloc, swapped, op, xs, y) {
        Ok(numbers) => Ok(Column::of_ints(numbers)),
        Err(error) => Err(error),
    }
}

fn uint_beside(
    alloc: Global,
    swapped: bool,
    op: ArithOp,
    xs: &[u64],
    y: u64,
) -> Result<Column, Memory>
    ensures kind { IfOk result (λ c. column_type c ≡ result_type op ColumnType.UInt64) }
    ensures values { IfOk result (λ c. values c
        ≡ map (λ v. swap_if swapped (arith_value op) v (Value.UInt y)) (map Value.UInt xs.now)) }
{
    match op {
        ArithOp::Sub => match uint_differences_beside(alloc, swapped, xs, y) {
            Ok(numbers) => Ok(Column::of_ints(numbers)),
            Err(error) => Err(error),
        },
        _ => match uint_results_beside(alloc, swapped, op, xs, y) {
            Ok(numbers) => Ok(Column::of_uints(numbers)),
            Err(error) => Err(error),
        },
    }
}

// The operator at each number that a column keeps, and a plain number, which is written in front
// where `swapped` is true.
fn numbers_beside(
    alloc: Global,
    swapped: bool,
    op: ArithOp,
    numbers: PlainSlice<'_>,
    n: Number,
) -> Result<Column, Memory>
    requires { plain_holds (slice_type numbers) (number_of n) ≡ true }
    ensures kind { IfOk result
        (λ c. column_type c ≡ nullable_if false (result_plain op (slice_type numbers.entry))) }
    ensures values { IfOk result (λ c. values c ≡ map
        (λ v. swap_if swapped (arith_value op) v (plain_value (number_of n)))
        (slice_values numbers.entry)) }
{
    match numbers {
        PlainSlice::Ints(xs) => int_beside(alloc, swapped, op, xs, number_as_int(n)),
        PlainSlice::UInts(xs) => uint_beside(alloc, swapped, op, xs, number_as_uint(n)),
        PlainSlice::Texts(_) => unreachable!(),
    }
}

// The same at the values of a column, NULL where its value is.
fn beside(
    alloc: Global,
    swapped: bool,
    op: ArithOp,
    column: &Column,
    n: Number,
) -> Result<Column, Memory>
    requires { CanHold (column_type column.now) (number_of n) }
    ensures kind { IfOk result (λ c. column_type c ≡ result_type op (column_type column.now)) }
    ensures values { IfOk result (λ c. values c ≡ map
        (λ v. swap_if swapped (arith_value op) v (plain_value (number_of n))) (values column.now)) }
{
    let made = numbers_beside(alloc, swapped, op, column.plain(), n)?;
    null_where(alloc, made, column)
}

fn int_pairs(alloc: Global, op: ArithOp, xs: &[i64], ys: &[i64]) -> Result<Column, Memory>
    ensures kind { IfOk result (λ c. column_type c ≡ ColumnType.Int64) }
    ensures values { IfOk result (λ c. values c
        ≡ map (λ p. arith_value op p.0 p.1) (zip (map Value.Int xs.now) (map Value.Int ys.now))) }
{
    match int_results(alloc, op, xs, ys) {
        Ok(numbers) => Ok(Column::of_ints(numbers)),
        Err(error) => Err(error),
    }
}

fn uint_pairs(alloc: Global, op: ArithOp, xs: &[u64], ys: &[u64]) -> Result<Column, Memory>
    ensures kind { IfOk result (λ c. column_type c ≡ result_type op ColumnType.UInt64) }
    ensures values { IfOk result (λ c. values c
        ≡ map (λ p. arith_value op p.0 p.1) (zip (map Value.UInt xs.now) (map Value.UInt ys.now))) }
{
    match op {
        ArithOp::Sub => match uint_differences(alloc, xs, ys) {
            Ok(numbers) => Ok(Column::of_ints(numbers)),
            Err(error) => Err(error),
        },
        _ => match uint_results(alloc, op, xs, ys) {
            Ok(numbers) => Ok(Column::of_uints(numbers)),
            Err(error) => Err(error),
        },
    }
}

// The operator at each pair of numbers of two columns, NULL apart.
fn slice_pairs(
    alloc: Global,
    op: ArithOp,
    left: PlainSlice<'_>,
    right: PlainSlice<'_>,
) -> Result<Column, Memory>
    requires same { slice_type left ≡ slice_type right }
    requires numbers { is_plain_text (slice_type left) ≡ false }
    ensures kind { IfOk result
        (λ c. column_type c ≡ nullable_if false (result_plain op (slice_type left.entry))) }
    ensures values { IfOk result (λ c. values c ≡ map (λ p. arith_value op p.0 p.1)
        (zip (slice_values left.entry) (slice_values right.entry))) }
{
    match (left, right) {
        (PlainSlice::Ints(xs), PlainSlice::Ints(ys)) => int_pairs(alloc, op, xs, ys),
        (PlainSlice::UInts(xs), PlainSlice::UInts(ys)) => uint_pairs(alloc, op, xs, ys),
        _ => unreachable!(),
    }
}

fn pairs(alloc: Global, op: ArithOp, left: &Column, right: &Column) -> Result<Column, Memory>
    requires alike { AreNumbersAlike (column_type left.now) (column_type right.now) }
    requires long { length (values right.now) ≡ length (values left.now) }
    ensures kind { IfOk result
        (λ c. column_type c ≡ arith_type op (column_type left.now) (column_type right.now)) }
    ensures values { IfOk result (λ c. values c
        ≡ map (λ p. arith_value op p.0 p.1) (zip (values left.now) (values right.now))) }
{
    let made = slice_pairs(alloc, op, left.plain(), right.plain())?;
    let left_nulled = null_where(alloc, made, left)?;
    null_where(alloc, left_nulled, right)
}

// The same in the left column's memory, where the results are of its type and none is NULL.
fn pairs_onto(alloc: Global, op: ArithOp, left: Column, right: &Column) -> Result<Column, Memory>
    requires alike { AreNumbersAlike (column_type left) (column_type right.now) }
    requires long { length (values right.now) ≡ length (values left) }
    ensures kind { IfOk result
        (λ c. column_type c ≡ arith_type op (column_type left) (column_type right.now)) }
    ensures values { IfOk result
        (λ c. values c ≡ map (λ p. arith_value op p.0 p.1) (zip (values left) (values right.now))) }
{
    match (left.kind(), right.kind()) {
        (ColumnType::Int64, ColumnType::Int64) => {
            let results = int_results_onto(op, left.into_ints(), right.ints());
            Ok(Column::of_ints(results))
        }
        _ => pairs(alloc, op, &left, right),
    }
}

/// The column of the expression's values: the one that was made, or that of a column reference.
pub(crate) fn column_at<'a>(expr: &Expr, made: &'a Option<Column>, chunk: &'a Chunk) -> &'a Column
    requires { StandsInColumn expr.now chunk.now made.now }
    ensures kind { column_type result.now ≡ type_of expr.now chunk.now.types }
    ensures values { values result.now ≡ map (value_of expr.now) chunk.now.rows }
{
    match made {
        Some(column) => column,
        None => match expr {
            ExprOf::Column(c) => chunk.column(*c as usize),
            _ => unreachable!(),
        },
    }
}

// The operator at the values of an expression and a plain number, which is written in front where
// `swapped` is true.
fn number_beside(
    alloc: Global,
    swapped: bool,
    op: ArithOp,
    n: Number,
    expr: &Expr,
    made: Option<Column>,
    chunk: &Chunk,
) -> Result<Column, Memory>
    requires operand { StandsInColumn expr.now chunk.now made }
    requires held { CanHold (type_of expr.now chunk.now.types) (number_of n) }
    ensures kind { IfOk result
        (λ c. column_type c ≡ result_type op (type_of expr.now chunk.now.types)) }
    ensures values { IfOk result (λ c. values c ≡ map (λ row. swap_if swapped (arith_value op)
        (value_of expr.now row) (plain_value (number_of n))) chunk.now.rows) }
{
    beside(alloc, swapped, op, column_at(expr, &made, chunk), n)
}

// The operator at the values of two expressions, neither of which is a plain number.
fn expressions(
    alloc: Global,
    op: ArithOp,
    left: &Expr,
    left_made: Option<Column>,
    right: &Expr,
    right_made: Option<Column>,
    chunk: &Chunk,
) -> Result<Column, Memory>
    requires left { StandsInColumn left.now chunk.now left_made }
    requires right { StandsInColumn right.now chunk.now right_made }
    requires alike { AreNumbersAlike (type_of left.now chunk.now.types)
        (type_of right.now chunk.now.types) }
    ensures kind { IfOk result (λ c. column_type c
        ≡ arith_type op (type_of left.now chunk.now.types) (type_of right.now chunk.now.types)) }
    ensures values { IfOk result (λ c. values c ≡ map
        (λ row. arith_value op (value_of left.now row) (value_of right.now row)) chunk.now.rows) }
{
    let there = column_at(right, &right_made, chunk);
    match left_made {
        Some(column) => pairs_onto(alloc, op, column, there),
        None => {
            let none = None;
            pairs(alloc, op, column_at(left, &none, chunk), there)
        }
    }
}

fn arith(
    alloc: Global,
    op: ArithOp,
    left: &Expr,
    left_made: Option<Column>,
    right: &Expr,
    right_made: Option<Column>,
    chunk: &Chunk,
) -> Result<Column, Memory>
    requires left { IsTyped chunk.now.types left.now }
    requires right { IsTyped chunk.now.types right.now }
    requires alike { AreAlike (plain_of left.now) (type_of left.now chunk.now.types)
        (plain_of right.now) (type_of right.now chunk.now.types) }
    requires left_made { IsColumnMade left.now chunk.now left_made }
    requires right_made { IsColumnMade right.now chunk.now right_made }
    ensures kind { IfOk result (λ c. column_type c
        ≡ arith_type op (type_of left.now chunk.now.types) (type_of right.now chunk.now.types)) }
    ensures values { IfOk result (λ c. values c ≡ map
        (λ row. arith_value op (value_of left.now row) (value_of right.now row)) chunk.now.rows) }
{
    match plain_number(left) {
        Some(n) => number_beside(alloc, true, op, n, right, right_made, chunk),
        None => match plain_number(right) {
            Some(m) => number_beside(alloc, false, op, m, left, left_made, chunk),
            None => expressions(alloc, op, left, left_made, right, right_made, chunk),
        },
    }
}

/// The column of the expression's values, where it is neither a column reference nor a plain
/// number.
pub(crate) fn arith_column(
    alloc: Global,
    expr: &Expr,
    chunk: &Chunk,
) -> Result<Option<Column>, Memory>
    requires { IsTyped chunk.now.types expr.now }
    ensures { IfOk result (λ m. IsColumnMade expr.now chunk.now m) }
{
    match expr {
        ExprOf::Column(_) | ExprOf::Number(_) => Ok(None),
        ExprOf::Arith(op, left, right) => {
            let left_made = arith_column(alloc, left, chunk)?;
            let right_made = arith_column(alloc, right, chunk)?;
            let column = arith(alloc, *op, left, left_made, right, right_made, chunk)?;
            Ok(Some(column))
        }
    }
}

/// The expression's value at each row. A column reference alone is copied; within an expression it
/// is read in place.
pub fn eval(alloc: Global, expr: &Expr, chunk: &Chunk) -> Result<Column, Memory>
    requires { IsItem chunk.now.types expr.now }
    ensures kind { IfOk result (λ c. column_type c ≡ type_of expr.now chunk.now.types) }
    ensures values { IfOk result (λ c. values c ≡ map (value_of expr.now) chunk.now.rows) }
{
    match expr {
        ExprOf::Column(c) => chunk.column(*c as usize).copy(),
        ExprOf::Number(_) => unreachable!(),
        ExprOf::Arith(_, _, _) => match arith_column(alloc, expr, chunk)? {
            Some(column) => Ok(column),
            None => unreachable!(),
        },
    }
}
