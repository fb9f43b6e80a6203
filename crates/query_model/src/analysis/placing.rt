// Places in the place of names.
ghost use Rattle.std.specs.Prelude.{◌≡◌, ◌+◌, ◌≤◌, ◌∷◌, [], bytes_eq, flat_map, length, map, IfOk, OnOk, All};
ghost use Rattle.query_model.specs.Names.{cond_operands, operands_of, IsPlaced, IsPlacedCall, IsGroupedOperand, IsPlacedCond, IsPlacedItem, BothOrNone, EachWith, calls_of, place_of, use_of, key_place as place_of_key, place_in, place_by, AreAdded, HasNoCall};
ghost use Rattle.query_model.specs.declared.query.CondOf.TheVariants as condition;

use crate::analysis::columns::FromColumn;
use crate::analysis::names::{key_place, meant_place};
use crate::checked::{Cond, Expr, TableUse};
use crate::plain::boxed_cond;
use crate::query::{
    AggCall, ColumnRef, CompareOp, CondOf, ExprOf, Item, ItemKind, Operand, Schema, TableRef,
};
use chunk_data::{List, Memory};
use std::alloc::Global;

/// Where names have their places: among the columns of From, or among the keys of a row of groups.
#[derive(Clone, Copy, PartialEq, Eq)]
pub(crate) enum Scope {
    Rows,
    Groups,
}

fn schema_place(name: &[u8], tables: &[Schema]) -> usize
    ensures { result ≡ place_of (λ (s : Schema). bytes_eq s.name name.now) tables.now }
{
    for i in 0..tables.len() {
        if tables[i].name.as_slice() == name {
            return i;
        }
    }
    tables.len()
}

/// The table by its place. More than 2^32 tables are a want of memory.
pub(crate) fn table_use(table: &TableRef, tables: &[Schema]) -> Result<TableUse, Memory>
    ensures { IfOk result (λ used. used ≡ use_of tables.now table.now) }
{
    match table {
        TableRef::Named(name) => match u32::try_from(schema_place(name.as_slice(), tables)) {
            Ok(place) => Ok(TableUse::Declared(place)),
            Err(_) => Err(Memory),
        },
        TableRef::Numbers(count) => Ok(TableUse::Numbers(*count)),
    }
}

pub(crate) fn column_place(c: &ColumnRef, columns: &[FromColumn]) -> u32
    requires { length columns.now ≤ 64 }
    ensures { result ≡ place_in columns.now c.now }
{
    meant_place(c, columns) as u32
}

pub(crate) fn key_column(c: &ColumnRef, columns: &[FromColumn], keys: &[ColumnRef]) -> u32
    requires { length keys.now ≤ 64 }
    ensures { result ≡ place_of_key columns.now keys.now c.now }
{
    key_place(c, keys, columns) as u32
}

fn name_place(scope: Scope, c: &ColumnRef, columns: &[FromColumn], keys: &[ColumnRef]) -> u32
    requires few { length columns.now ≤ 64 }
    requires few_keys { length keys.now ≤ 64 }
    ensures { result ≡ place_by scope columns.now keys.now c.now }
{
    match scope {
        Scope::Rows => column_place(c, columns),
        Scope::Groups => key_column(c, columns, keys),
    }
}

pub(crate) fn place_expr(
    alloc: Global,
    scope: Scope,
    e: &ExprOf<ColumnRef>,
    columns: &[FromColumn],
    keys: &[ColumnRef],
) -> Result<Expr, Memory>
    requires few { length columns.now ≤ 64 }
    requires few_keys { length keys.now ≤ 64 }
    ensures { IfOk result (IsPlaced (place_by scope columns.now keys.now) e.now) }
{
    match e {
        ExprOf::Column(c) => Ok(ExprOf::Column(name_place(scope, c, columns, keys))),
        ExprOf::Number(n) => Ok(ExprOf::Number(*n)),
        ExprOf::Arith(op, a, b) => {
            let left = place_expr(alloc, scope, a, columns, keys)?;
            let right = place_expr(alloc, scope, b, columns, keys)?;
            Ok(ExprOf::Arith(*op, Box::new(alloc, left)?, Box::new(alloc, right)?))
        }
    }
}

fn place_argument(
    alloc: Global,
    argument: &Option<ExprOf<ColumnRef>>,
    columns: &[FromColumn],
) -> Result<Option<Expr>, Memory>
    requires { length columns.now ≤ 64 }
    ensures { IfOk result (BothOrNone (IsPlaced (place_in columns.now)) argument.now) }
{
    match argument {
        Some(e) => Ok(Some(place_expr(alloc, Scope::Rows, e, columns, &[])?)),
        None => Ok(None),
    }
}

fn place_call(
    alloc: Global,
    call: &AggCall<ColumnRef>,
    columns: &[FromColumn],
) -> Result<AggCall<u32>, Memory>
    requires { length columns.now ≤ 64 }
    ensures { IfOk result (IsPlacedCall (place_in columns.now) call.now) }
{
    let arg = place_argument(alloc, &call.arg, columns)?;
    Ok(AggCall { op: call.op, arg })
}

/// The place of the next call in a row of groups. More than 2^32 columns are a want of memory.
fn next_place(keys: usize, calls: usize) -> Result<u32, Memory>
    ensures { IfOk result (λ place. place ≡ keys + calls) }
{
    let Some(place) = keys.checked_add(calls) else {
        return Err(Memory);
    };
    match u32::try_from(place) {
        Ok(place) => Ok(place),
        Err(_) => Err(Memory),
    }
}

/// Adds a call behind those that stand, and gives its place in a row of groups.
pub(crate) fn add_call(
    alloc: Global,
    call: &AggCall<ColumnRef>,
    columns: &[FromColumn],
    keys: usize,
    calls: &mut Vec<AggCall<u32>>,
) -> Result<u32, Memory>
    requires { length columns.now ≤ 64 }
    ensures place { IfOk result (λ place. place ≡ keys + length calls.old.items) }
    ensures added { OnOk result
        (AreAdded columns.now (call.now ∷ []) calls.old.items calls.new.items) }
{
    let place = next_place(keys, calls.len())?;
    let placed = place_call(alloc, call, columns)?;
    calls.push(placed)?;
    Ok(place)
}

fn place_operand(
    alloc: Global,
    scope: Scope,
    operand: &Operand<ColumnRef>,
    columns: &[FromColumn],
    keys: &[ColumnRef],
    calls: &mut Vec<AggCall<u32>>,
) -> Result<Operand<u32>, Memory>
    requires few { length columns.now ≤ 64 }
    requires few_keys { length keys.now ≤ 64 }
    ensures placed { IfOk result (IsGroupedOperand (place_by scope columns.now keys.now)
        (length keys.now + length calls.old.items) operand.now) }
    ensures added { OnOk result
        (AreAdded columns.now (calls_of operand.now) calls.old.items calls.new.items) }
{
    match operand {
        Operand::Plain(e) => Ok(Operand::Plain(place_expr(alloc, scope, e, columns, keys)?)),
        Operand::Text(bytes) => Ok(Operand::Text(bytes.copy()?)),
        Operand::Agg(call) => {
            let place = add_call(alloc, call, columns, keys.len(), calls)?;
            Ok(Operand::Plain(ExprOf::Column(place)))
        }
        Operand::Null => Ok(Operand::Null),
    }
}

// A comparison with places. It stands apart from the recursion, whose frames are to be small: texts
// nest a thousand conditions.
#[inline(never)]
#[tactic(auto, unfolding(crate::specs::Checks::cond_operands))]
fn place_comparison(
    alloc: Global,
    scope: Scope,
    op: CompareOp,
    a: &Operand<ColumnRef>,
    b: &Operand<ColumnRef>,
    columns: &[FromColumn],
    keys: &[ColumnRef],
    calls: &mut Vec<AggCall<u32>>,
) -> Result<Cond, Memory>
    requires few { length columns.now ≤ 64 }
    requires few_keys { length keys.now ≤ 64 }
    ensures placed { IfOk result (IsPlacedCond (place_by scope columns.now keys.now)
        (length keys.now + length calls.old.items) (condition.Compare op a.now b.now)) }
    ensures added { OnOk result (AreAdded columns.now (flat_map calls_of
        (cond_operands (condition.Compare op a.now b.now))) calls.old.items calls.new.items) }
{
    let left = place_operand(alloc, scope, a, columns, keys, calls)?;
    let right = place_operand(alloc, scope, b, columns, keys, calls)?;
    Ok(CondOf::Compare(op, left, right))
}

// IS NULL with places, apart from the recursion as well.
#[inline(never)]
#[tactic(auto, unfolding(crate::specs::Checks::cond_operands))]
fn place_null_test(
    alloc: Global,
    scope: Scope,
    operand: &Operand<ColumnRef>,
    columns: &[FromColumn],
    keys: &[ColumnRef],
    calls: &mut Vec<AggCall<u32>>,
) -> Result<Cond, Memory>
    requires few { length columns.now ≤ 64 }
    requires few_keys { length keys.now ≤ 64 }
    ensures placed { IfOk result (IsPlacedCond (place_by scope columns.now keys.now)
        (length keys.now + length calls.old.items) (condition.IsNull operand.now)) }
    ensures added { OnOk result (AreAdded columns.now (flat_map calls_of
        (cond_operands (condition.IsNull operand.now))) calls.old.items calls.new.items) }
{
    let placed = place_operand(alloc, scope, operand, columns, keys, calls)?;
    Ok(CondOf::IsNull(placed))
}

/// The condition with places. Its calls go behind those that stand, and their places in its place.
#[tactic(auto, unfolding(crate::specs::Checks::cond_operands))]
fn place_cond(
    alloc: Global,
    scope: Scope,
    cond: &CondOf<ColumnRef>,
    columns: &[FromColumn],
    keys: &[ColumnRef],
    calls: &mut Vec<AggCall<u32>>,
) -> Result<Cond, Memory>
    requires few { length columns.now ≤ 64 }
    requires few_keys { length keys.now ≤ 64 }
    ensures placed { IfOk result (IsPlacedCond (place_by scope columns.now keys.now)
        (length keys.now + length calls.old.items) cond.now) }
    ensures added { OnOk result (AreAdded columns.now (flat_map calls_of (cond_operands cond.now))
        calls.old.items calls.new.items) }
{
    match cond {
        CondOf::Compare(op, a, b) => {
            place_comparison(alloc, scope, *op, a, b, columns, keys, calls)
        }
        CondOf::And(a, b) => {
            let first = place_cond(alloc, scope, a, columns, keys, calls)?;
            let left = boxed_cond(alloc, first)?;
            let second = place_cond(alloc, scope, b, columns, keys, calls)?;
            let right = boxed_cond(alloc, second)?;
            Ok(CondOf::And(left, right))
        }
        CondOf::Or(a, b) => {
            let first = place_cond(alloc, scope, a, columns, keys, calls)?;
            let left = boxed_cond(alloc, first)?;
            let second = place_cond(alloc, scope, b, columns, keys, calls)?;
            let right = boxed_cond(alloc, second)?;
            Ok(CondOf::Or(left, right))
        }
        CondOf::Not(a) => {
            let inner = place_cond(alloc, scope, a, columns, keys, calls)?;
            Ok(CondOf::Not(boxed_cond(alloc, inner)?))
        }
        CondOf::IsNull(a) => place_null_test(alloc, scope, a, columns, keys, calls),
    }
}

pub(crate) fn place_filter(
    alloc: Global,
    scope: Scope,
    filter: &Option<CondOf<ColumnRef>>,
    columns: &[FromColumn],
    keys: &[ColumnRef],
    calls: &mut Vec<AggCall<u32>>,
) -> Result<Option<Cond>, Memory>
    requires few { length columns.now ≤ 64 }
    requires few_keys { length keys.now ≤ 64 }
    ensures placed { IfOk result (BothOrNone (IsPlacedCond (place_by scope columns.now keys.now)
        (length keys.now + length calls.old.items)) filter.now) }
    ensures added { OnOk result (AreAdded columns.now (flat_map calls_of (operands_of filter.now))
        calls.old.items calls.new.items) }
{
    match filter {
        Some(cond) => Ok(Some(place_cond(alloc, scope, cond, columns, keys, calls)?)),
        None => Ok(None),
    }
}

fn place_item(alloc: Global, item: &Item, columns: &[FromColumn]) -> Result<Expr, Memory>
    requires no_call { HasNoCall item.now.what }
    requires few { length columns.now ≤ 64 }
    ensures { IfOk result (IsPlacedItem (place_in columns.now) item.now) }
{
    match &item.what {
        ItemKind::Plain(e) => place_expr(alloc, Scope::Rows, e, columns, &[]),
        ItemKind::Agg(_) => unreachable!(),
    }
}

pub(crate) fn place_items(
    alloc: Global,
    items: &[Item],
    columns: &[FromColumn],
) -> Result<List<Expr>, Memory>
    requires no_calls { All (λ (i : Item). HasNoCall i.what) items.now }
    requires few { length columns.now ≤ 64 }
    ensures { IfOk result (EachWith (IsPlacedItem (place_in columns.now)) items.now) }
{
    let mut placed = Vec::with_capacity(alloc, items.len())?;
    for item in items {
        placed.push(place_item(alloc, item, columns)?)?;
    }
    Ok(List::from_vec(placed))
}

/// The names with their places in From.
pub(crate) fn place_columns(
    alloc: Global,
    names: &[ColumnRef],
    columns: &[FromColumn],
) -> Result<List<u32>, Memory>
    requires { length columns.now ≤ 64 }
    ensures { IfOk result (λ places. places ≡ map (place_in columns.now) names.now) }
{
    let mut places = Vec::with_capacity(alloc, names.len())?;
    for name in names {
        places.push(column_place(name, columns))?;
    }
    Ok(List::from_vec(places))
}
