// Items and conditions over a row of an Int64, an UInt64 and a Text, or of these types with NULL.
use crate::literals::{analysed, check_each, chunk_of, halves};
use chunk_data::{Chunk, ColumnType, PlainSlice};
use expr_eval::{eval, is_typed, is_typed_cond, mask};
use query_model::checked::{Checked, Cond, Expr, Shape};
use query_model::query::{ArithOp, ExprOf, Number};
use std::alloc::Global;
use std::test::Fail;

// The column of the item's values, printed.
fn shown_values(alloc: Global, item: &Expr, chunk: &Chunk) -> Result<String, Fail> {
    match item {
        ExprOf::Number(_) => Err("this is no item".into()),
        item if is_typed(item, chunk.types().as_slice()) => {
            let column = eval(alloc, item, chunk)?;
            let kind = column.kind();
            if column.len() > 0 && !column.is_valid(0) {
                return Ok(format!(in alloc; "{kind:?} NULL")?);
            }
            match column.plain() {
                PlainSlice::Ints(numbers) => Ok(format!(in alloc; "{kind:?}({numbers:?})")?),
                PlainSlice::UInts(numbers) => Ok(format!(in alloc; "{kind:?}({numbers:?})")?),
                PlainSlice::Texts(_) => Err("an item of texts is a column".into()),
            }
        }
        _ => Err("this is no item".into()),
    }
}

// The condition's truths, printed.
fn shown_truths(alloc: Global, cond: &Cond, chunk: &Chunk) -> Result<String, Fail> {
    if !is_typed_cond(cond, chunk.types().as_slice()) {
        return Err("this is no condition".into());
    }
    Ok(format!(in alloc; "{:?}", mask(alloc, cond, chunk)?)?)
}

fn shown(alloc: Global, query: &Checked, chunk: &Chunk) -> Result<String, Fail> {
    match (&query.filter, &query.shape) {
        (Some(cond), _) => shown_truths(alloc, cond, chunk),
        (None, Shape::Plain(items)) => match items.as_slice().first() {
            Some(item) => shown_values(alloc, item, chunk),
            None => Err("there is no item".into()),
        },
        _ => Err("the query has groups".into()),
    }
}

// A row of such types, and a query over it: what its condition or else its first item gives.
fn evaluated(alloc: Global, letters: &str, table: &str, text: &str) -> Result<String, Fail> {
    let (row, query) = halves(text, '|');
    let chunk = chunk_of(alloc, letters, row)?;
    match analysed(alloc, table, query)?.as_slice().first() {
        Some(Ok(query)) => shown(alloc, query, &chunk),
        _ => Err("the query is refused".into()),
    }
}

fn evaluation_text(alloc: Global, text: &str) -> Result<String, Fail> {
    evaluated(alloc, "iut", "t ia ub tc", text)
}

fn null_evaluation_text(alloc: Global, text: &str) -> Result<String, Fail> {
    evaluated(alloc, "IUT", "t Ia Ub Tc", text)
}

static ITEMS: [&str; 8] = [
    "0,0,|SELECT b - 1 FROM t~Int64([-1])",
    "0,3,|SELECT 1 - b FROM t~Int64([-2])",
    "0,18446744073709551615,|SELECT b + 1 FROM t~UInt64([0])",
    "4611686018427387904,0,|SELECT a * 2 FROM t~Int64([-9223372036854775808])",
    "-1,0,|SELECT 5 - a FROM t~Int64([6])",
    "-3,0,|SELECT a * a FROM t~Int64([9])",
    "0,5,|SELECT b * b FROM t~UInt64([25])",
    "0,5,|SELECT b - b FROM t~Int64([0])",
];

#[test]
fn results_are_taken_modulo_2_to_64(rt: HostRuntime) -> Result<(), Fail> {
    check_each(&rt, rt.alloc(), &ITEMS, evaluation_text)
}

static COMPARISONS: [&str; 15] = [
    "-1,0,|SELECT a FROM t WHERE a < b~[true]",
    "9223372036854775807,9223372036854775808,|SELECT a FROM t WHERE a < b~[true]",
    "9223372036854775807,9223372036854775808,|SELECT a FROM t WHERE b <= a~[false]",
    "7,7,|SELECT a FROM t WHERE b = a~[true]",
    "-1,0,|SELECT a FROM t WHERE a < 18446744073709551615~[true]",
    "-9223372036854775808,0,|SELECT a FROM t WHERE a > -9223372036854775809~[true]",
    "-9223372036854775808,0,|SELECT a FROM t WHERE a >= -9223372036854775808~[true]",
    "0,5,|SELECT a FROM t WHERE b > -1~[true]",
    "0,5,|SELECT a FROM t WHERE 5 <= b~[true]",
    "0,0,|SELECT a FROM t WHERE -0 != 0~[false]",
    // Texts are compared by bytes.
    "0,0,ab|SELECT a FROM t WHERE c < 'b'~[true]",
    "0,0,ab|SELECT a FROM t WHERE c < 'abc'~[true]",
    "0,0,ab|SELECT a FROM t WHERE c = 'ab'~[true]",
    "0,0,b|SELECT a FROM t WHERE c <= 'abc'~[false]",
    "0,0,|SELECT a FROM t WHERE c != 'a'~[true]",
];

#[test]
fn numbers_are_compared_by_their_exact_values_and_texts_by_bytes(
    rt: HostRuntime,
) -> Result<(), Fail> {
    check_each(&rt, rt.alloc(), &COMPARISONS, evaluation_text)
}

static COMBINATIONS: [&str; 12] = [
    "1,1,|SELECT a FROM t WHERE a = 1 AND b = 1~[true]",
    "1,1,|SELECT a FROM t WHERE a = 1 OR b = 1~[true]",
    "1,1,|SELECT a FROM t WHERE NOT (a = 1 OR b = 1)~[false]",
    "1,0,|SELECT a FROM t WHERE a = 1 AND b = 1~[false]",
    "1,0,|SELECT a FROM t WHERE a = 1 OR b = 1~[true]",
    "1,0,|SELECT a FROM t WHERE NOT (a = 1 OR b = 1)~[false]",
    "0,1,|SELECT a FROM t WHERE a = 1 AND b = 1~[false]",
    "0,1,|SELECT a FROM t WHERE a = 1 OR b = 1~[true]",
    "0,1,|SELECT a FROM t WHERE NOT (a = 1 OR b = 1)~[false]",
    "0,0,|SELECT a FROM t WHERE a = 1 AND b = 1~[false]",
    "0,0,|SELECT a FROM t WHERE a = 1 OR b = 1~[false]",
    "0,0,|SELECT a FROM t WHERE NOT (a = 1 OR b = 1)~[true]",
];

#[test]
fn conditions_are_combined(rt: HostRuntime) -> Result<(), Fail> {
    check_each(&rt, rt.alloc(), &COMBINATIONS, evaluation_text)
}

static NULLS: [&str; 32] = [
    "\\N,0,|SELECT a + 1 FROM t~NullInt64 NULL",
    "1,\\N,|SELECT 1 - b FROM t~NullInt64 NULL",
    "1,18446744073709551615,|SELECT b * b + 1 FROM t~NullUInt64([2])",
    "1,\\N,|SELECT a - 2 FROM t~NullInt64([-1])",
    // A comparison with NULL is NULL, and so is NOT of it.
    "\\N,0,|SELECT a FROM t WHERE a = 0~[false]",
    "\\N,0,|SELECT a FROM t WHERE NOT a = 0~[false]",
    "\\N,0,|SELECT a FROM t WHERE a != 1~[false]",
    "\\N,0,|SELECT a FROM t WHERE b <= a~[false]",
    "\\N,0,|SELECT a FROM t WHERE NOT b < a + 1~[false]",
    "0,\\N,|SELECT a FROM t WHERE 0 = b~[false]",
    "\\N,\\N,|SELECT a FROM t WHERE a = a~[false]",
    "0,0,\\N|SELECT a FROM t WHERE c = ''~[false]",
    "0,0,\\N|SELECT a FROM t WHERE NOT 'x' < c~[false]",
    "0,0,|SELECT a FROM t WHERE a = b AND c = ''~[true]",
    "0,0,|SELECT a FROM t WHERE a = NULL~[false]",
    "0,0,|SELECT a FROM t WHERE NOT NULL = NULL~[false]",
    "0,0,|SELECT a FROM t WHERE NOT c > NULL~[false]",
    // AND, OR and NOT of NULL, true and false.
    "\\N,1,|SELECT a FROM t WHERE a = 1 AND b = 1~[false]",
    "\\N,1,|SELECT a FROM t WHERE NOT (b = 1 AND a = 1)~[false]",
    "\\N,0,|SELECT a FROM t WHERE NOT (a = 1 AND b = 1)~[true]",
    "\\N,1,|SELECT a FROM t WHERE a = 1 OR b = 1~[true]",
    "\\N,0,|SELECT a FROM t WHERE NOT (a = 1 OR b = 1)~[false]",
    "\\N,0,|SELECT a FROM t WHERE NOT (b = 1 AND NOT a = 1)~[true]",
    "\\N,\\N,|SELECT a FROM t WHERE NOT (a = 1 AND b = 1) OR a = b~[false]",
    // IS NULL is true or false.
    "\\N,0,|SELECT a FROM t WHERE a IS NULL~[true]",
    "\\N,0,|SELECT a FROM t WHERE a IS NOT NULL~[false]",
    "0,0,|SELECT a FROM t WHERE a IS NULL~[false]",
    "0,0,|SELECT a FROM t WHERE NOT c IS NULL~[true]",
    "0,0,\\N|SELECT a FROM t WHERE NOT c IS NULL~[false]",
    "0,\\N,|SELECT a FROM t WHERE 1 - b IS NULL~[true]",
    "0,0,|SELECT a FROM t WHERE a + 1 IS NOT NULL~[true]",
    "0,0,|SELECT a FROM t WHERE NOT NULL IS NOT NULL~[true]",
];

#[test]
fn nulls_are_computed(rt: HostRuntime) -> Result<(), Fail> {
    check_each(&rt, rt.alloc(), &NULLS, null_evaluation_text)
}

// A column behind a `c`, or a number.
fn operand(text: &str) -> Expr {
    if let Some(place) = text.strip_prefix('c') {
        return ExprOf::Column(place.parse().unwrap_or(9));
    }
    ExprOf::Number(Number {
        negative: text.starts_with('-'),
        size: text.trim_start_matches('-').parse().unwrap_or(0),
    })
}

// Whether two operands may be added.
fn typing_text(alloc: Global, text: &str) -> Result<String, Fail> {
    let (left, right) = halves(text, '+');
    let (left, right) = (
        Box::new(alloc, operand(left))?,
        Box::new(alloc, operand(right))?,
    );
    let sum = ExprOf::Arith(ArithOp::Add, left, right);
    let types = [ColumnType::Int64, ColumnType::UInt64, ColumnType::Text];
    Ok(format!(in alloc; "{}", is_typed(&sum, &types))?)
}

static OPERANDS: [&str; 9] = [
    "c0+c1~false",
    "1+2~false",
    "c2+1~false",
    "c1+-1~false",
    "c1+-0~true",
    "c0+9223372036854775808~false",
    "c0+9223372036854775807~true",
    "c0+-9223372036854775808~true",
    "18446744073709551615+c1~true",
];

#[test]
fn operands_of_arithmetic_have_one_type(rt: HostRuntime) -> Result<(), Fail> {
    check_each(&rt, rt.alloc(), &OPERANDS, typing_text)
}
