// The plain, slow way from a record's fields to its row, or to what is wrong with it.
ghost use Rattle.std.specs.Prelude.{◌≡◌, ◌+◌, ◌<◌, ◌-◌, ◌^◌, ◌∷◌, IfOk, is_some, length};
ghost use Rattle.query_model.specs.Names.{spelled_value, spelled_row, bad_column, bad_field as bad_field_of};

use chunk_data::{Bytes, ColumnType, List, Memory, PlainType, Value};
use query_model::numerals::{spelled_int, spelled_uint};
use query_model::places::BadField;
use query_model::plain::NULL_TEXT;
use std::alloc::Global;

/// The value that a field spells, if it spells one.
fn value_spelled(alloc: Global, kind: ColumnType, field: &[u8]) -> Result<Option<Value>, Memory>
    ensures { IfOk result (λ v. v ≡ spelled_value kind field.now) }
{
    if kind.is_nullable() && field == NULL_TEXT {
        return Ok(Some(Value::Null));
    }
    match kind.plain() {
        PlainType::Int64 => match spelled_int(field) {
            Some(number) => Ok(Some(Value::Int(number))),
            None => Ok(None),
        },
        PlainType::UInt64 => match spelled_uint(field) {
            Some(number) => Ok(Some(Value::UInt(number))),
            None => Ok(None),
        },
        PlainType::Text => Ok(Some(Value::Text(Bytes::from_slice(alloc, field)?))),
    }
}

/// Whether a field spells a value.
fn spells(kind: ColumnType, field: &[u8]) -> bool
    ensures { result ≡ is_some (spelled_value kind field.now) }
{
    if kind.is_nullable() && field == NULL_TEXT {
        return true;
    }
    match kind.plain() {
        PlainType::Int64 => spelled_int(field).is_some(),
        PlainType::UInt64 => spelled_uint(field).is_some(),
        PlainType::Text => true,
    }
}

fn with_front(value: Value, row: List<Value>) -> Result<List<Value>, Memory>
    ensures { IfOk result (λ more. more ≡ value ∷ row) }
{
    let mut values = row.into_vec();
    values.insert(0, value)?;
    Ok(List::from_vec(values))
}

/// The row that a record spells, if it spells one.
#[tactic(auto, unfolding(query_model::specs::Fields::spelled_row))]
pub(crate) fn row_spelled(
    alloc: Global,
    types: &[ColumnType],
    fields: &[Bytes],
) -> Result<Option<List<Value>>, Memory>
    ensures { IfOk result (λ row. row ≡ spelled_row types.now fields.now) }
{
    match (types.split_first(), fields.split_first()) {
        (Some((kind, types)), Some((field, fields))) => {
            let value = value_spelled(alloc, *kind, field.as_slice())?;
            let row = row_spelled(alloc, types, fields)?;
            match (value, row) {
                (Some(value), Some(row)) => Ok(Some(with_front(value, row)?)),
                _ => Ok(None),
            }
        }
        (None, None) => Ok(Some(List::new(alloc))),
        _ => Ok(None),
    }
}

/// The first column, counted from `c`, whose field spells no value, or the number behind the last
/// column's.
#[tactic(auto, unfolding(query_model::specs::Parts::bad_column))]
fn first_bad_column(c: u32, types: &[ColumnType], fields: &[Bytes]) -> u32
    requires { c + length types.now < 2 ^ 32 }
    ensures { result ≡ bad_column c types.now fields.now }
{
    match (types.split_first(), fields.split_first()) {
        (Some((kind, types)), Some((field, fields))) => {
            if spells(*kind, field.as_slice()) {
                first_bad_column(c + 1, types, fields)
            } else {
                c
            }
        }
        _ => c,
    }
}

/// What is wrong with a record that spells no row.
pub(crate) fn bad_field(types: &[ColumnType], fields: &[Bytes]) -> BadField
    requires { length types.now < 2 ^ 32 - 1 }
    ensures { result ≡ bad_field_of types.now fields.now }
{
    if types.len() == fields.len() {
        BadField::Column(first_bad_column(1, types, fields))
    } else {
        BadField::Fields(fields.len() as u64)
    }
}
