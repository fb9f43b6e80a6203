// Plain, slow functions of the definitions.
ghost use Rattle.std.specs.Prelude.{◌≡◌, OnOk, IfOk, ◌++◌};
ghost use Rattle.query_model.specs.Names.{quoted, doubled, separator, value_text as text_of_value, row_text as text_of_row, formula, type_of, arith_type as type_of_result, gives_uint, can_hold as holds_number, number_of, number_value};

use crate::checked::{Cond, Expr};
use crate::query::{ArithOp, ExprOf, Number};
use chunk_data::{ColumnType, Memory, PlainType, Value, type_at};
use std::alloc::{AllocError, Global};

/// The same expression in boxes of its own.
pub fn copy_expr(alloc: Global, e: &Expr) -> Result<Expr, AllocError>
    ensures { IfOk result (λ copy. formula copy ≡ formula e.now) }
{
    match e {
        ExprOf::Column(c) => Ok(ExprOf::Column(*c)),
        ExprOf::Number(n) => Ok(ExprOf::Number(*n)),
        ExprOf::Arith(op, a, b) => {
            let left = copy_expr(alloc, a)?;
            let right = copy_expr(alloc, b)?;
            Ok(ExprOf::Arith(*op, Box::new(alloc, left)?, Box::new(alloc, right)?))
        }
    }
}

/// A condition in a box. It stands apart from the recursions over conditions, whose frames are to
/// be small: texts nest a thousand of them.
#[inline(never)]
pub fn boxed_cond(alloc: Global, cond: Cond) -> Result<Box<Cond>, Memory>
    ensures { IfOk result (λ b. b.value ≡ cond) }
{
    match Box::new(alloc, cond) {
        Ok(b) => Ok(b),
        Err(_) => Err(Memory),
    }
}

fn results_in_uint(op: ArithOp, a: bool, b: bool) -> bool
    ensures { result ≡ gives_uint op a b }
{
    match op {
        ArithOp::Add => a && b,
        ArithOp::Sub => false,
        ArithOp::Mul => a && b,
    }
}

/// The type of the result of an operator at operands of these types of numbers.
pub fn arith_type(op: ArithOp, s: ColumnType, t: ColumnType) -> ColumnType
    ensures { result ≡ type_of_result op s t }
{
    let left = matches!(s.plain(), PlainType::UInt64);
    let right = matches!(t.plain(), PlainType::UInt64);
    let nullable = s.is_nullable() || t.is_nullable();
    if results_in_uint(op, left, right) {
        PlainType::UInt64.nullable_if(nullable)
    } else {
        PlainType::Int64.nullable_if(nullable)
    }
}

/// The type of an expression over columns of these types.
#[tactic(auto, unfolding(crate::specs::Expressions::type_of))]
pub fn expr_type(e: &Expr, types: &[ColumnType]) -> ColumnType
    ensures { result ≡ type_of e.now types.now }
{
    match e {
        ExprOf::Column(c) => type_at(types, *c as usize),
        ExprOf::Number(n) => {
            if n.negative && n.size > 0 {
                ColumnType::Int64
            } else {
                ColumnType::UInt64
            }
        }
        ExprOf::Arith(op, a, b) => {
            let left = expr_type(a, types);
            let right = expr_type(b, types);
            arith_type(*op, left, right)
        }
    }
}

/// Whether a number is a UInt64. Its size is an argument of its own, since a clause knows the range
/// of such a one.
fn is_uint(negative: bool, size: u64) -> bool
    ensures { result ≡ holds_number ColumnType.UInt64 (number_value negative size) }
{
    !negative || size == 0
}

/// Whether a type has a number.
pub fn can_hold(kind: ColumnType, n: Number) -> bool
    ensures { result ≡ holds_number kind (number_of n) }
{
    match kind.plain() {
        PlainType::Int64 => {
            if n.negative {
                n.size <= 1 << 63
            } else {
                n.size < 1 << 63
            }
        }
        PlainType::UInt64 => is_uint(n.negative, n.size),
        PlainType::Text => false,
    }
}

/// How NULL is spelled and written.
pub const NULL_TEXT: &[u8] = b"\\N";

/// Adds a byte as it stands inside of quotes.
fn push_quoted(text: &mut Vec<u8>, byte: u8) -> Result<(), Memory>
    ensures { OnOk result (text.new.items ≡ text.old.items ++ doubled byte) }
{
    if byte == b'"' {
        text.push(b'"')?;
    }
    text.push(byte)?;
    Ok(())
}

fn quoted_text(alloc: Global, bytes: &[u8]) -> Result<Vec<u8>, Memory>
    ensures { IfOk result (λ text. text.items ≡ quoted bytes.now) }
{
    let mut text = Vec::new(alloc);
    text.push(b'"')?;
    for byte in bytes {
        push_quoted(&mut text, *byte)?;
    }
    text.push(b'"')?;
    Ok(text)
}

/// The text of a value.
pub fn value_text(alloc: Global, value: &Value) -> Result<Vec<u8>, Memory>
    ensures { IfOk result (λ text. text.items ≡ text_of_value value.now) }
{
    match value {
        Value::Int(number) => Ok(format!(in alloc; "{number}")?.into_bytes()),
        Value::UInt(number) => Ok(format!(in alloc; "{number}")?.into_bytes()),
        Value::Text(bytes) => quoted_text(alloc, bytes.as_slice()),
        Value::Null => Ok(Vec::from_slice(alloc, NULL_TEXT)?),
    }
}

/// Adds the comma in front of the value with place `i`.
fn push_separator(text: &mut Vec<u8>, i: usize) -> Result<(), Memory>
    ensures { OnOk result (text.new.items ≡ text.old.items ++ separator i) }
{
    if i > 0 {
        text.push(b',')?;
    }
    Ok(())
}

/// The text of a row, with its line feed.
pub fn row_text(alloc: Global, row: &[Value]) -> Result<Vec<u8>, Memory>
    ensures { IfOk result (λ text. text.items ≡ text_of_row row.now) }
{
    let mut text = Vec::new(alloc);
    for i in 0..row.len() {
        push_separator(&mut text, i)?;
        let more = value_text(alloc, &row[i])?;
        text.extend_from_slice(&more)?;
    }
    text.push(10)?;
    Ok(text)
}
