// The outputs of a query: their names, and what is made of rows.
ghost use Rattle.std.specs.Prelude.{◌≡◌, ◌++◌, ◌≤◌, codes, decimal, length, map, true, false, IfOk};
ghost use Rattle.std.specs.List.{All};
ghost use Rattle.query_model.specs.Names.{FromColumn as Column, plain_name as name_of_kind, name_or, item_names as names_of_items, output_names, is_grouped as has_groups, ItemTree, item_tree, item_what, query_tree, selection, listed, AreColumnsFrom, ArePlainItems, IsShape, types_of, place_in, is_key_of, CanBePicked, HasNoCall};

use crate::analysis::columns::FromColumn;
use crate::analysis::groups::{is_grouped, made_groups};
use crate::analysis::placing::place_items;
use crate::checked::{Expr, Shape};
use crate::query::{ColumnRef, ExprOf, Item, ItemKind, Items, Query};
use chunk_data::{Bytes, ColumnType, List, Memory};
use std::alloc::Global;

/// `item_K`.
fn numbered_name(alloc: Global, k: usize) -> Result<Bytes, Memory>
    ensures { IfOk result (λ name. name ≡ codes "item_" ++ decimal k) }
{
    let name = format!(in alloc; "item_{k}")?;
    Ok(Bytes::from_vec(name.into_bytes()))
}

fn expr_name(alloc: Global, e: &ExprOf<ColumnRef>, k: usize) -> Result<Bytes, Memory>
    ensures { IfOk result (λ name. name ≡ name_of_kind (item_what (ItemKind.Plain e.now)) k) }
{
    match e {
        ExprOf::Column(c) => c.name.copy(),
        ExprOf::Number(_) => numbered_name(alloc, k),
        ExprOf::Arith(_, _, _) => numbered_name(alloc, k),
    }
}

fn plain_name(alloc: Global, what: &ItemKind, k: usize) -> Result<Bytes, Memory>
    ensures { IfOk result (λ name. name ≡ name_of_kind (item_what what.now) k) }
{
    match what {
        ItemKind::Plain(e) => expr_name(alloc, e, k),
        ItemKind::Agg(_) => numbered_name(alloc, k),
    }
}

/// The output name of the item with place `k`, counted from 1.
fn item_name(alloc: Global, item: &Item, k: usize) -> Result<Bytes, Memory>
    ensures { IfOk result (λ name. name
        ≡ name_or item.now.alias (name_of_kind (item_what item.now.what) k)) }
{
    match &item.alias {
        Some(name) => name.copy(),
        None => plain_name(alloc, &item.what, k),
    }
}

fn item_names(alloc: Global, items: &[Item]) -> Result<List<Bytes>, Memory>
    ensures { IfOk result (λ names. names ≡ names_of_items 1 (map item_tree items.now)) }
{
    let mut names = Vec::with_capacity(alloc, items.len())?;
    for item in items {
        let Some(k) = names.len().checked_add(1) else {
            return Err(Memory);
        };
        let name = item_name(alloc, item, k)?;
        names.push(name)?;
    }
    Ok(List::from_vec(names))
}

fn column_names(alloc: Global, columns: &[FromColumn]) -> Result<List<Bytes>, Memory>
    ensures { IfOk result (λ names. names ≡ map (λ (c : Column). c.name) columns.now) }
{
    let mut names = Vec::with_capacity(alloc, columns.len())?;
    for column in columns {
        let name = column.name()?;
        names.push(name)?;
    }
    Ok(List::from_vec(names))
}

/// The output names of a query's items.
pub(crate) fn names_of(
    alloc: Global,
    items: &Items,
    columns: &[FromColumn],
) -> Result<List<Bytes>, Memory>
    ensures { IfOk result (λ names. names ≡ output_names (selection items.now) columns.now) }
{
    match items {
        Items::Star => column_names(alloc, columns),
        Items::Listed(items) => item_names(alloc, items.as_slice()),
    }
}

fn all_columns(alloc: Global, columns: &[FromColumn]) -> Result<List<Expr>, Memory>
    requires { length columns.now ≤ 64 }
    ensures { IfOk result (AreColumnsFrom 0 columns.now) }
{
    let mut exprs = Vec::with_capacity(alloc, columns.len())?;
    for i in 0..columns.len() {
        exprs.push(ExprOf::Column(i as u32))?;
    }
    Ok(List::from_vec(exprs))
}

/// The types of the columns.
pub(crate) fn column_types(
    alloc: Global,
    columns: &[FromColumn],
) -> Result<List<ColumnType>, Memory>
    ensures { IfOk result (λ types. types ≡ types_of columns.now) }
{
    let mut types = Vec::with_capacity(alloc, columns.len())?;
    for column in columns {
        types.push(column.kind())?;
    }
    Ok(List::from_vec(types))
}

/// The items of a query without groups, with the places of their columns.
fn made_items(alloc: Global, items: &Items, columns: &[FromColumn]) -> Result<List<Expr>, Memory>
    requires no_calls { All (λ (i : Item). HasNoCall i.what) (listed items.now) }
    requires few { length columns.now ≤ 64 }
    ensures { IfOk result (ArePlainItems (place_in columns.now) columns.now items.now) }
{
    match items {
        Items::Star => all_columns(alloc, columns),
        Items::Listed(items) => place_items(alloc, items.as_slice(), columns),
    }
}

/// What is made of rows: items, or groups.
pub(crate) fn made_shape(
    alloc: Global,
    query: &Query,
    columns: &[FromColumn],
) -> Result<Shape, Memory>
    requires few { length columns.now ≤ 64 }
    requires few_keys { length query.now.keys ≤ 64 }
    requires plain { has_groups (query_tree query.now) ≡ false
        → All (λ (i : Item). HasNoCall i.what) (listed query.now.items) }
    requires grouped { has_groups (query_tree query.now) ≡ true → All (λ (i : Item). CanBePicked
        (is_key_of columns.now query.now.keys) i.what) (listed query.now.items) }
    ensures { IfOk result (IsShape query.now columns.now (has_groups (query_tree query.now))) }
{
    if is_grouped(query) {
        Ok(Shape::Grouped(made_groups(alloc, query, columns)?))
    } else {
        Ok(Shape::Plain(made_items(alloc, &query.items, columns)?))
    }
}
