ghost use Rattle.std.specs.Prelude.{◌≡◌, ◌<◌, ◌++◌, ◌∷◌, [], true, if◌then◌else◌, length, map, OnOk, IfOk};
ghost use Rattle.std.specs.Option.{option_map};
ghost use Rattle.chunk_data.specs.Names.{column_type, plain_type, value_at, values};
ghost use Rattle.chunk_data.specs.declared.typed_value.PlainType.TheVariants as plain;
ghost use Rattle.aggregate_proc.specs.Cells.{can_fold as may_fold, int_value, text_value, uint_value};
ghost use Rattle.aggregate_proc.specs.Folds.{next_folded, put_all};

use crate::fold::{Fold, next_int, next_uint, replaces};
use chunk_data::{Bytes, Column, ColumnType, Memory, PlainSlice};
use std::alloc::Global;

// The columns of a group table that may have NULL: it is passed over, and a group has NULL until a
// value comes; but a key's column keeps its first value, which may be NULL.

// The number at a row, or None where it is NULL.
fn int_at(column: &Column, i: usize) -> Option<i64>
    requires kind { plain_type (column_type column.now) ≡ plain.Int64 }
    requires here { i < length (values column.now) }
    ensures { int_value result ≡ value_at (values column.now) i }
{
    if !column.is_valid(i) {
        return None;
    }
    match column.plain() {
        PlainSlice::Ints(numbers) => Some(numbers[i]),
        PlainSlice::UInts(_) | PlainSlice::Texts(_) => unreachable!(),
    }
}

fn uint_at(column: &Column, i: usize) -> Option<u64>
    requires kind { plain_type (column_type column.now) ≡ plain.UInt64 }
    requires here { i < length (values column.now) }
    ensures { uint_value result ≡ value_at (values column.now) i }
{
    if !column.is_valid(i) {
        return None;
    }
    match column.plain() {
        PlainSlice::UInts(numbers) => Some(numbers[i]),
        PlainSlice::Ints(_) | PlainSlice::Texts(_) => unreachable!(),
    }
}

fn text_at(column: &Column, i: usize) -> Option<&[u8]>
    requires kind { plain_type (column_type column.now) ≡ plain.Text }
    requires here { i < length (values column.now) }
    ensures { text_value (option_map (λ t. t.now) result) ≡ value_at (values column.now) i }
{
    if !column.is_valid(i) {
        return None;
    }
    match column.plain() {
        PlainSlice::Texts(texts) => Some(texts.get(i)),
        PlainSlice::Ints(_) | PlainSlice::UInts(_) => unreachable!(),
    }
}

fn next_nullable_int(op: Fold, state: Option<i64>, number: Option<i64>) -> Option<i64>
    requires { may_fold op ColumnType.NullInt64 ≡ true }
    ensures { int_value result ≡ next_folded op (int_value state) (int_value number) }
{
    match (state, number) {
        (Some(state), Some(number)) => Some(next_int(op, state, number)),
        (None, Some(number)) => {
            if op == Fold::First {
                None
            } else {
                Some(number)
            }
        }
        (state, None) => state,
    }
}

fn next_nullable_uint(op: Fold, state: Option<u64>, number: Option<u64>) -> Option<u64>
    requires { may_fold op ColumnType.NullUInt64 ≡ true }
    ensures { uint_value result ≡ next_folded op (uint_value state) (uint_value number) }
{
    match (state, number) {
        (Some(state), Some(number)) => Some(next_uint(op, state, number)),
        (None, Some(number)) => {
            if op == Fold::First {
                None
            } else {
                Some(number)
            }
        }
        (_, None) => state,
    }
}

// Whether the text takes the state's place.
fn replaces_nullable(op: Fold, state: &Option<Bytes>, text: Option<&[u8]>) -> bool
    requires { may_fold op ColumnType.NullText ≡ true }
    ensures { next_folded op (text_value state.now)
        (text_value (option_map (λ t. t.now) text.entry))
        ≡ (if result then text_value (option_map (λ t. t.now) text.entry)
        else text_value state.now) }
{
    match (state, text) {
        (Some(state), Some(text)) => replaces(op, state.as_slice(), text),
        (None, Some(_)) => op != Fold::First,
        (_, None) => false,
    }
}

fn copy_text(alloc: Global, text: Option<&[u8]>) -> Result<Option<Bytes>, Memory>
    ensures { IfOk result
        (λ copy. text_value copy ≡ text_value (option_map (λ t. t.now) text.entry)) }
{
    match text {
        Some(text) => Ok(Some(Bytes::from_slice(alloc, text)?)),
        None => Ok(None),
    }
}

pub(crate) fn fold_nullable_ints(
    op: Fold,
    states: &mut Vec<Option<i64>>,
    column: &Column,
    places: &[usize],
) -> Result<(), Memory>
    requires op { may_fold op ColumnType.NullInt64 ≡ true }
    requires kind { column_type column.now ≡ ColumnType.NullInt64 }
    requires long { length (values column.now) ≡ length places.now }
    ensures { OnOk result (map int_value states.new.items
        ≡ put_all op (map int_value states.old.items) places.now (values column.now)) }
{
    for i in 0..places.len() {
        let place = places[i];
        let number = int_at(column, i);
        if place < states.len() {
            states[place] = next_nullable_int(op, states[place], number);
        } else {
            states.push(number)?;
        }
    }
    Ok(())
}

pub(crate) fn fold_nullable_uints(
    op: Fold,
    states: &mut Vec<Option<u64>>,
    column: &Column,
    places: &[usize],
) -> Result<(), Memory>
    requires op { may_fold op ColumnType.NullUInt64 ≡ true }
    requires kind { column_type column.now ≡ ColumnType.NullUInt64 }
    requires long { length (values column.now) ≡ length places.now }
    ensures { OnOk result (map uint_value states.new.items
        ≡ put_all op (map uint_value states.old.items) places.now (values column.now)) }
{
    for i in 0..places.len() {
        let place = places[i];
        let number = uint_at(column, i);
        if place < states.len() {
            states[place] = next_nullable_uint(op, states[place], number);
        } else {
            states.push(number)?;
        }
    }
    Ok(())
}

pub(crate) fn fold_nullable_texts(
    op: Fold,
    alloc: Global,
    states: &mut Vec<Option<Bytes>>,
    column: &Column,
    places: &[usize],
) -> Result<(), Memory>
    requires op { may_fold op ColumnType.NullText ≡ true }
    requires kind { column_type column.now ≡ ColumnType.NullText }
    requires long { length (values column.now) ≡ length places.now }
    ensures { OnOk result (map text_value states.new.items
        ≡ put_all op (map text_value states.old.items) places.now (values column.now)) }
{
    for i in 0..places.len() {
        let place = places[i];
        let text = text_at(column, i);
        if place < states.len() {
            if replaces_nullable(op, &states[place], text) {
                states[place] = copy_text(alloc, text)?;
            }
        } else {
            states.push(copy_text(alloc, text)?)?;
        }
    }
    Ok(())
}

fn push_int(column: &mut Column, number: Option<i64>) -> Result<(), Memory>
    requires { column_type column.old ≡ ColumnType.NullInt64 }
    ensures kind { column_type column.new ≡ column_type column.old }
    ensures ok { OnOk result (values column.new ≡ values column.old ++ int_value number ∷ []) }
{
    match number {
        Some(number) => column.push_int(number),
        None => column.push_null(),
    }
}

fn push_uint(column: &mut Column, number: Option<u64>) -> Result<(), Memory>
    requires { column_type column.old ≡ ColumnType.NullUInt64 }
    ensures kind { column_type column.new ≡ column_type column.old }
    ensures ok { OnOk result (values column.new ≡ values column.old ++ uint_value number ∷ []) }
{
    match number {
        Some(number) => column.push_uint(number),
        None => column.push_null(),
    }
}

fn push_text(column: &mut Column, text: &Option<Bytes>) -> Result<(), Memory>
    requires { column_type column.old ≡ ColumnType.NullText }
    ensures kind { column_type column.new ≡ column_type column.old }
    ensures ok { OnOk result (values column.new ≡ values column.old ++ text_value text.now ∷ []) }
{
    match text {
        Some(text) => column.push_text(text.as_slice()),
        None => column.push_null(),
    }
}

/// A column of these states.
pub(crate) fn nullable_int_column(alloc: Global, states: &[Option<i64>]) -> Result<Column, Memory>
    ensures kind { IfOk result (λ c. column_type c ≡ ColumnType.NullInt64) }
    ensures values { IfOk result (λ c. values c ≡ map int_value states.now) }
{
    let mut column = Column::new(alloc, ColumnType::NullInt64);
    column.reserve(states.len())?;
    for i in 0..states.len() {
        push_int(&mut column, states[i])?;
    }
    Ok(column)
}

pub(crate) fn nullable_uint_column(alloc: Global, states: &[Option<u64>]) -> Result<Column, Memory>
    ensures kind { IfOk result (λ c. column_type c ≡ ColumnType.NullUInt64) }
    ensures values { IfOk result (λ c. values c ≡ map uint_value states.now) }
{
    let mut column = Column::new(alloc, ColumnType::NullUInt64);
    column.reserve(states.len())?;
    for i in 0..states.len() {
        push_uint(&mut column, states[i])?;
    }
    Ok(column)
}

pub(crate) fn nullable_text_column(
    alloc: Global,
    states: &[Option<Bytes>],
) -> Result<Column, Memory>
    ensures kind { IfOk result (λ c. column_type c ≡ ColumnType.NullText) }
    ensures values { IfOk result (λ c. values c ≡ map text_value states.now) }
{
    let mut column = Column::new(alloc, ColumnType::NullText);
    column.reserve(states.len())?;
    for i in 0..states.len() {
        push_text(&mut column, &states[i])?;
    }
    Ok(column)
}
