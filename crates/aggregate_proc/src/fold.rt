ghost use Rattle.std.specs.Prelude.{◌≡◌, ◌≢◌, true, IsTrue, if◌then◌else◌, List, [], length, map, OnOk, IfOk};
ghost use Rattle.chunk_data.specs.Columns.{column_type, values};
ghost use Rattle.chunk_data.specs.declared.typed_value.Value.{Value};
ghost use Rattle.chunk_data.specs.declared.typed_value.Value.TheVariants as value;
ghost use Rattle.aggregate_proc.specs.Cells.{cell_type, cell_values, can_fold as may_fold, FitsColumn};
ghost use Rattle.aggregate_proc.specs.Folds.{next_folded, put_all, with_rows};
ghost use Rattle.aggregate_proc.specs.declared.fold.Fold.TheVariants as fold;

use crate::nullable_fold::{
    fold_nullable_ints, fold_nullable_texts, fold_nullable_uints, nullable_int_column,
    nullable_text_column, nullable_uint_column,
};
use chunk_data::{Bytes, Chunk, Column, ColumnType, Memory, Texts};
use std::alloc::Global;
use std::marker::Model;

/// What a column of a group table makes of the values of a group.
#[derive(Clone, Copy, PartialEq, Eq)]
pub(crate) enum Fold {
    /// The first value: a key's column keeps it.
    First,
    Count,
    Add,
    /// The sum of counts.
    AddCounts,
    Least,
    Greatest,
}

/// The values of a column of a group table, where None is NULL. Texts lie apart, since each may be
/// replaced.
#[derive(Drop)]
pub(crate) enum FoldValues {
    Ints(Vec<i64>),
    UInts(Vec<u64>),
    Texts(Vec<Bytes>),
    NullableInts(Vec<Option<i64>>),
    NullableUInts(Vec<Option<u64>>),
    NullableTexts(Vec<Option<Bytes>>),
}

impl FoldValues {
    fn new(alloc: Global, kind: ColumnType) -> FoldValues
        ensures kind { cell_type result ≡ kind }
        ensures empty { cell_values result ≡ [] }
    {
        match kind {
            ColumnType::Int64 => FoldValues::Ints(Vec::new(alloc)),
            ColumnType::UInt64 => FoldValues::UInts(Vec::new(alloc)),
            ColumnType::Text => FoldValues::Texts(Vec::new(alloc)),
            ColumnType::NullInt64 => FoldValues::NullableInts(Vec::new(alloc)),
            ColumnType::NullUInt64 => FoldValues::NullableUInts(Vec::new(alloc)),
            ColumnType::NullText => FoldValues::NullableTexts(Vec::new(alloc)),
        }
    }
}

/// A column of a group table, of which value i is made of the values of group i in a column of the
/// input.
#[derive(Drop)]
pub(crate) struct FoldColumn {
    op: Fold,
    input: usize,
    kind: ColumnType,
    cells: FoldValues,
    ghost typed: { cell_type cells ≡ kind },
    ghost sound: { may_fold op kind ≡ true },
}

impl Model for FoldColumn {
    ghost use Rattle.aggregate_proc.specs.Cells.{cell_values};
    ghost use Rattle.aggregate_proc.specs.Folds.{FoldColumn as Seen};

    ghost Value = { Seen };

    ghost view = { λ c. record
        { op = c.op; input = c.input; kind = c.kind; values = cell_values c.cells } };
}

pub(crate) fn next_int(op: Fold, state: i64, number: i64) -> i64
    requires { may_fold op ColumnType.Int64 ≡ true }
    ensures { value.Int result ≡ next_folded op (value.Int state) (value.Int number) }
{
    match op {
        Fold::First | Fold::Count | Fold::AddCounts => state,
        Fold::Add => state.wrapping_add(number),
        Fold::Least => state.min(number),
        Fold::Greatest => state.max(number),
    }
}

pub(crate) fn next_uint(op: Fold, state: u64, number: u64) -> u64
    requires { op ≢ fold.Count }
    ensures { value.UInt result ≡ next_folded op (value.UInt state) (value.UInt number) }
{
    match op {
        Fold::First | Fold::Count => state,
        Fold::Add | Fold::AddCounts => state.wrapping_add(number),
        Fold::Least => state.min(number),
        Fold::Greatest => state.max(number),
    }
}

/// Whether the text takes the state's place.
pub(crate) fn replaces(op: Fold, state: &[u8], text: &[u8]) -> bool
    requires { may_fold op ColumnType.Text ≡ true }
    ensures { next_folded op (value.Text state.now) (value.Text text.now)
        ≡ (if result then value.Text text.now else value.Text state.now) }
{
    match op {
        Fold::First | Fold::Count | Fold::Add | Fold::AddCounts => false,
        Fold::Least => text.cmp(state).is_lt(),
        Fold::Greatest => state.cmp(text).is_lt(),
    }
}

fn fold_ints(
    op: Fold,
    states: &mut Vec<i64>,
    numbers: &[i64],
    places: &[usize],
) -> Result<(), Memory>
    requires op { may_fold op ColumnType.Int64 ≡ true }
    requires long { length numbers.now ≡ length places.now }
    ensures { OnOk result
        (map value.Int states.new.items
        ≡ put_all op (map value.Int states.old.items) places.now (map value.Int numbers.now)) }
{
    for i in 0..places.len() {
        let place = places[i];
        if place < states.len() {
            states[place] = next_int(op, states[place], numbers[i]);
        } else {
            states.push(numbers[i])?;
        }
    }
    Ok(())
}

fn fold_uints(
    op: Fold,
    states: &mut Vec<u64>,
    numbers: &[u64],
    places: &[usize],
) -> Result<(), Memory>
    requires op { op ≢ fold.Count }
    requires long { length numbers.now ≡ length places.now }
    ensures { OnOk result
        (map value.UInt states.new.items
        ≡ put_all op (map value.UInt states.old.items) places.now (map value.UInt numbers.now)) }
{
    for i in 0..places.len() {
        let place = places[i];
        if place < states.len() {
            states[place] = next_uint(op, states[place], numbers[i]);
        } else {
            states.push(numbers[i])?;
        }
    }
    Ok(())
}

fn fold_texts(
    op: Fold,
    alloc: Global,
    states: &mut Vec<Bytes>,
    texts: &Texts,
    places: &[usize],
) -> Result<(), Memory>
    requires op { may_fold op ColumnType.Text ≡ true }
    requires long { length texts.now ≡ length places.now }
    ensures { OnOk result
        (map value.Text states.new.items
        ≡ put_all op (map value.Text states.old.items) places.now (map value.Text texts.now)) }
{
    for i in 0..places.len() {
        let place = places[i];
        let text = texts.get(i);
        if place < states.len() {
            if replaces(op, states[place].as_slice(), text) {
                states[place] = Bytes::from_slice(alloc, text)?;
            }
        } else {
            states.push(Bytes::from_slice(alloc, text)?)?;
        }
    }
    Ok(())
}

fn fold_counts(states: &mut Vec<u64>, places: &[usize]) -> Result<(), Memory>
    ensures { OnOk result
        ((vs : List Value) → length vs ≡ length places.now
        → map value.UInt states.new.items
        ≡ put_all fold.Count (map value.UInt states.old.items) places.now vs) }
{
    for i in 0..places.len() {
        let place = places[i];
        if place < states.len() {
            states[place] = states[place].wrapping_add(1);
        } else {
            states.push(1)?;
        }
    }
    Ok(())
}

/// Whether a column of values of the type can fold so.
pub(crate) fn can_fold(op: Fold, kind: ColumnType) -> bool
    ensures { result ≡ may_fold op kind }
{
    match op {
        Fold::Count | Fold::AddCounts => matches!(kind, ColumnType::UInt64),
        Fold::Add => !kind.is_text(),
        Fold::First | Fold::Least | Fold::Greatest => true,
    }
}

impl FoldColumn {
    /// Whether it folds a column of its type.
    pub(crate) fn fits(&self, types: &[ColumnType]) -> bool
        ensures { IsTrue result → FitsColumn types.now self.now }
    {
        self.op == Fold::Count || (self.input < types.len() && types[self.input] == self.kind)
    }

    /// A column without groups.
    pub(crate) fn new(alloc: Global, op: Fold, input: usize, kind: ColumnType) -> FoldColumn
        requires { may_fold op kind ≡ true }
        ensures { result ≡ record { op = op; input = input; kind = kind; values = [] } }
    {
        FoldColumn {
            op,
            input,
            kind,
            cells: FoldValues::new(alloc, kind),
        }
    }

    /// Each row goes to the group at its place.
    pub(crate) fn add(
        &mut self,
        alloc: Global,
        chunk: &Chunk,
        places: &[usize],
    ) -> Result<(), Memory>
        requires fits { FitsColumn chunk.now.types self.old }
        requires long { length places.now ≡ length chunk.now.rows }
        ensures { OnOk result (self.new ≡ with_rows places.now chunk.now.rows self.old) }
    {
        let op = self.op;
        match (op, &mut self.cells) {
            (Fold::Count, FoldValues::UInts(states)) => fold_counts(states, places),
            (Fold::Count, _) => unreachable!(),
            (_, FoldValues::Ints(states)) => {
                fold_ints(op, states, chunk.column(self.input).ints(), places)
            }
            (_, FoldValues::UInts(states)) => {
                fold_uints(op, states, chunk.column(self.input).uints(), places)
            }
            (_, FoldValues::Texts(states)) => {
                fold_texts(op, alloc, states, chunk.column(self.input).texts(), places)
            }
            (_, FoldValues::NullableInts(states)) => {
                fold_nullable_ints(op, states, chunk.column(self.input), places)
            }
            (_, FoldValues::NullableUInts(states)) => {
                fold_nullable_uints(op, states, chunk.column(self.input), places)
            }
            (_, FoldValues::NullableTexts(states)) => {
                fold_nullable_texts(op, alloc, states, chunk.column(self.input), places)
            }
        }
    }

    /// The values of all groups, as a column of a chunk.
    pub(crate) fn into_column(self, alloc: Global) -> Result<Column, Memory>
        ensures kind { IfOk result (λ c. column_type c ≡ self.kind) }
        ensures values { IfOk result (λ c. values c ≡ self.values) }
    {
        let FoldColumn { cells, .. } = self;
        match cells {
            FoldValues::Ints(numbers) => Ok(Column::of_ints(numbers)),
            FoldValues::UInts(numbers) => Ok(Column::of_uints(numbers)),
            FoldValues::Texts(texts) => Ok(Column::of_texts(texts_of(alloc, texts)?)),
            FoldValues::NullableInts(states) => nullable_int_column(alloc, states.as_slice()),
            FoldValues::NullableUInts(states) => nullable_uint_column(alloc, states.as_slice()),
            FoldValues::NullableTexts(states) => nullable_text_column(alloc, states.as_slice()),
        }
    }
}

fn texts_of(alloc: Global, items: Vec<Bytes>) -> Result<Texts, Memory>
    ensures { IfOk result (λ t. t ≡ items.items) }
{
    let mut texts = Texts::new(alloc);
    texts.reserve(items.len())?;
    for i in 0..items.len() {
        texts.push(items[i].as_slice())?;
    }
    Ok(texts)
}
