ghost use Rattle.std.specs.Prelude.{false, ◌↔◌, ◌≡◌, ◌≤◌, ◌++◌, true, [], length, map, IsTrue, IfOk, OnOk};
ghost use Rattle.std.specs.List.{All};
ghost use Rattle.aggregate_proc.specs.Cells.{FitsColumn};
ghost use Rattle.aggregate_proc.specs.GroupKinds.{AreSound, call_foldings, empty_column, fold_of as the_fold, fold_for as the_fold_for, IsGroupTableFor, types_for};
ghost use Rattle.aggregate_proc.specs.Prelude.{StateCall, SumsNoTexts, sums_texts};
ghost use Rattle.aggregate_proc.specs.Tables.{group_table_rows, key_foldings};

use crate::fold::{Fold, FoldColumn, can_fold};
use crate::group_table::{GroupTable, first_columns};
use chunk_data::{ColumnType, List, Memory};
use query_model::processor_spec::{GroupSpec, StateCall};
use query_model::query::AggOp;
use std::alloc::Global;

fn fold_of(op: AggOp) -> Fold
    ensures { result ≡ the_fold op }
{
    match op {
        AggOp::Count => Fold::Count,
        AggOp::Sum => Fold::Add,
        AggOp::Min => Fold::Least,
        AggOp::Max => Fold::Greatest,
    }
}

// Counts of parts are added.
fn fold_for(merges: bool, op: AggOp) -> Fold
    ensures { result ≡ the_fold_for merges op }
{
    if merges && op == AggOp::Count {
        Fold::AddCounts
    } else {
        fold_of(op)
    }
}

/// Whether each count is a UInt64, where no text is summed.
pub(crate) fn are_sound(calls: &[StateCall]) -> bool
    ensures { IsTrue result → AreSound calls.now }
{
    for i in 0..calls.len() {
        if !can_fold(fold_of(calls[i].op), calls[i].kind) {
            return false;
        }
    }
    true
}

// Whether the call doesn't sum texts.
fn sums_no_text(call: &StateCall) -> bool
    ensures { IsTrue result ↔ (sums_texts call.now ≡ false) }
{
    match call.op {
        AggOp::Sum => !call.kind.is_text(),
        AggOp::Count | AggOp::Min | AggOp::Max => true,
    }
}

/// Whether no call sums texts.
pub(crate) fn sum_no_texts(calls: &[StateCall]) -> bool
    ensures { IsTrue result ↔ All (λ (call : StateCall). sums_texts call ≡ false) calls.now }
{
    calls.iter().all(|call| sums_no_text(call))
}

// Whether each column folds a column of its type.
fn fit_columns(types: &[ColumnType], columns: &[FoldColumn]) -> bool
    ensures { IsTrue result → All (FitsColumn types.now) columns.now }
{
    for i in 0..columns.len() {
        if !columns[i].fits(types) {
            return false;
        }
    }
    true
}

// The types of the keys, and of the columns that the calls take.
fn input_types(alloc: Global, merges: bool, group: &GroupSpec) -> Result<Vec<ColumnType>, Memory>
    ensures { IfOk result (λ v. v.items ≡ types_for merges group.now) }
{
    let mut types = Vec::from_slice(alloc, group.keys.as_slice())?;
    for call in group.calls.as_slice() {
        if merges || call.op != AggOp::Count {
            types.push(call.kind)?;
        }
    }
    Ok(types)
}

fn key_columns(alloc: Global, types: &[ColumnType], keys: usize) -> Result<Vec<FoldColumn>, Memory>
    requires { keys ≤ length types.now }
    ensures { IfOk result (λ v. v.items ≡ map empty_column (key_foldings types.now keys)) }
{
    let mut columns = Vec::new(alloc);
    for c in 0..keys {
        columns.push(FoldColumn::new(alloc, Fold::First, c, types[c]))?;
    }
    Ok(columns)
}

fn push_calls(
    columns: &mut Vec<FoldColumn>,
    alloc: Global,
    merges: bool,
    first: usize,
    calls: &[StateCall],
) -> Result<(), Memory>
    requires { AreSound calls.now }
    ensures { OnOk result
        (columns.new.items
        ≡ columns.old.items ++ map empty_column (call_foldings merges first calls.now)) }
{
    let mut c = first;
    for i in 0..calls.len() {
        let call = calls[i];
        columns.push(FoldColumn::new(alloc, fold_for(merges, call.op), c, call.kind))?;
        if merges || call.op != AggOp::Count {
            let Some(next) = c.checked_add(1) else {
                return Err(Memory);
            };
            c = next;
        }
    }
    Ok(())
}

/// A table without groups, of the columns for the keys and the calls.
pub(crate) fn new_table(
    alloc: Global,
    merges: bool,
    group: &GroupSpec,
) -> Result<GroupTable, Memory>
    requires sound { AreSound group.now.calls }
    requires summed { SumsNoTexts group.now }
    ensures table { IfOk result (λ t. IsGroupTableFor merges group.now t) }
    ensures rows { IfOk result (λ t. group_table_rows t ≡ []) }
{
    let types = input_types(alloc, merges, group)?;
    let keys = group.keys.len();
    let mut columns = key_columns(alloc, types.as_slice(), keys)?;
    push_calls(&mut columns, alloc, merges, keys, group.calls.as_slice())?;
    if !fit_columns(types.as_slice(), columns.as_slice()) {
        return Err(Memory);
    }
    let first = first_columns(alloc, keys)?;
    Ok(GroupTable::new(
        alloc,
        List::from_vec(types),
        keys,
        first.as_slice(),
        columns,
    ))
}
