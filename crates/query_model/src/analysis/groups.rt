// Grouping: what may not stand in a grouped query, and the checked grouping of one that may.
ghost use Rattle.std.specs.Prelude.{◌≡◌, ◌+◌, ◌++◌, ◌≤◌, cond, filter, find, flat_map, length, map, not, option_map, IfOk, OnOk};
ghost use Rattle.std.specs.List.{All, list_any};
ghost use Rattle.query_model.specs.Names.{written as written_name, first_name, is_grouped as has_groups, listed, not_keys, item_tree, item_what, query_tree, cond_form, IsPick, ArePicks, IsGrouping, item_calls, bare_names, ungrouped_in_items as items_ungrouped, is_call_item, AreAdded, CanBePicked, is_key_of, key_place, first_ungrouped, not_grouped as holds_ungrouped};

use crate::analysis::columns::FromColumn;
use crate::analysis::names::{
    is_key, listed_items, push_expr_names, push_filter_names, push_name, written,
};
use crate::analysis::placing::{Scope, add_call, key_column, place_columns, place_filter};
use crate::checked::Grouping;
use crate::query::{AggCall, ColumnRef, CondOf, ExprOf, Item, ItemKind, Items, Query, Refusal};
use chunk_data::{Bytes, List, Memory};
use std::alloc::Global;

/// More than a `usize` counts are a want of memory.
pub(crate) fn added(a: usize, b: usize) -> Result<usize, Memory>
    ensures { IfOk result (λ sum. sum ≡ a + b) }
{
    match a.checked_add(b) {
        Some(sum) => Ok(sum),
        None => Err(Memory),
    }
}

fn is_call(item: &Item) -> bool
    ensures { result ≡ is_call_item (item_tree item.now) }
{
    match &item.what {
        ItemKind::Plain(_) => false,
        ItemKind::Agg(_) => true,
    }
}

fn count_call(item: &Item) -> usize
    ensures { result ≡ cond (is_call_item (item_tree item.now)) 1 0 }
{
    if is_call(item) { 1 } else { 0 }
}

/// The number of items that are calls. More than a `usize` counts are a want of memory.
pub(crate) fn count_item_calls(items: &[Item]) -> Result<usize, Memory>
    ensures { IfOk result
        (λ count. count ≡ length (filter is_call_item (map item_tree items.now))) }
{
    let mut count = 0;
    for item in items {
        count = added(count, count_call(item))?;
    }
    Ok(count)
}

fn has_call(items: &[Item]) -> bool
    ensures { result ≡ list_any (λ (i : Item). is_call_item (item_tree i)) items.now }
{
    items.iter().any(|item| is_call(item))
}

#[tactic(auto, using(crate::proofs::Accepted::any_listed))]
pub(crate) fn is_grouped(query: &Query) -> bool
    ensures { result ≡ has_groups (query_tree query.now) }
{
    query.keys.len() != 0 || query.having.is_some() || has_call(listed_items(&query.items))
}

/// Adds the names in an item that are no keys, and all those of arithmetic.
fn push_item_ungrouped(
    item: &Item,
    columns: &[FromColumn],
    keys: &[ColumnRef],
    names: &mut Vec<ColumnRef>,
) -> Result<(), Memory>
    ensures { OnOk result (names.new.items
        ≡ names.old.items ++ not_keys (is_key_of columns.now keys.now) (item_what item.now.what)) }
{
    match &item.what {
        ItemKind::Plain(ExprOf::Column(c)) => {
            if is_key(c, keys, columns) {
                Ok(())
            } else {
                push_name(c, names)
            }
        }
        ItemKind::Plain(ExprOf::Arith(_, a, b)) => {
            push_expr_names(a, names)?;
            push_expr_names(b, names)
        }
        ItemKind::Plain(ExprOf::Number(_)) | ItemKind::Agg(_) => Ok(()),
    }
}

fn push_ungrouped(
    items: &[Item],
    columns: &[FromColumn],
    keys: &[ColumnRef],
    names: &mut Vec<ColumnRef>,
) -> Result<(), Memory>
    ensures { OnOk result
        (names.new.items ≡ names.old.items
        ++ items_ungrouped columns.now keys.now (map item_tree items.now)) }
{
    for item in items {
        push_item_ungrouped(item, columns, keys, names)?;
    }
    Ok(())
}

fn first_written(names: &[ColumnRef]) -> Result<Option<Bytes>, Memory>
    ensures { IfOk result (λ name. name ≡ first_name (map written_name names.now)) }
{
    match names.first() {
        Some(c) => Ok(Some(written(c)?)),
        None => Ok(None),
    }
}

fn ungrouped_in_items(
    alloc: Global,
    items: &[Item],
    columns: &[FromColumn],
    keys: &[ColumnRef],
) -> Result<Option<Bytes>, Memory>
    ensures { IfOk result (λ name. name
        ≡ first_name (map written_name
        (items_ungrouped columns.now keys.now (map item_tree items.now)))) }
{
    let mut names = Vec::new(alloc);
    push_ungrouped(items, columns, keys, &mut names)?;
    first_written(&names)
}

fn first_not_key(
    names: &[ColumnRef],
    columns: &[FromColumn],
    keys: &[ColumnRef],
) -> Result<Option<Bytes>, Memory>
    ensures { IfOk result (λ name. name
        ≡ option_map written_name (find (λ c. not (is_key_of columns.now keys.now c)) names.now)) }
{
    match names.iter().find(|c| !is_key(c, keys, columns)) {
        Some(c) => Ok(Some(written(c)?)),
        None => Ok(None),
    }
}

fn ungrouped_in_having(
    alloc: Global,
    having: &Option<CondOf<ColumnRef>>,
    columns: &[FromColumn],
    keys: &[ColumnRef],
) -> Result<Option<Bytes>, Memory>
    ensures { IfOk result (λ name. name ≡ option_map written_name
        (find (λ c. not (is_key_of columns.now keys.now c))
        (bare_names (option_map cond_form having.now)))) }
{
    let mut names = Vec::new(alloc);
    push_filter_names(false, having, &mut names)?;
    first_not_key(&names, columns, keys)
}

fn ungrouped_name(
    alloc: Global,
    query: &Query,
    columns: &[FromColumn],
) -> Result<Option<Bytes>, Memory>
    ensures { IfOk result (λ name. name ≡ first_ungrouped columns.now (query_tree query.now)) }
{
    let keys = query.keys.as_slice();
    match &query.items {
        Items::Star => Ok(Some(Bytes::from_slice(alloc, b"*")?)),
        Items::Listed(items) => {
            match ungrouped_in_items(alloc, items.as_slice(), columns, keys)? {
                Some(name) => Ok(Some(name)),
                None => ungrouped_in_having(alloc, &query.having, columns, keys),
            }
        }
    }
}

/// Something may not stand in a grouped query.
#[tactic(auto, using(crate::proofs::Ungrouped::first_is))]
pub(crate) fn not_grouped(
    alloc: Global,
    query: &Query,
    columns: &[FromColumn],
) -> Result<Option<Refusal>, Memory>
    ensures { IfOk result
        (λ refusal. refusal ≡ holds_ungrouped columns.now (query_tree query.now)) }
{
    if !is_grouped(query) {
        return Ok(None);
    }
    match ungrouped_name(alloc, query, columns)? {
        Some(name) => Ok(Some(Refusal::NotGrouped(name))),
        None => Ok(None),
    }
}

/// The place of an item in a row of groups. A call goes behind those that stand.
fn pick_item(
    alloc: Global,
    item: &Item,
    columns: &[FromColumn],
    keys: &[ColumnRef],
    calls: &mut Vec<AggCall<u32>>,
) -> Result<u32, Memory>
    requires few { length columns.now ≤ 64 }
    requires few_keys { length keys.now ≤ 64 }
    requires pickable { CanBePicked (is_key_of columns.now keys.now) item.now.what }
    ensures picked { IfOk result (IsPick (key_place columns.now keys.now)
        (length keys.now + length calls.old.items) item.now.what) }
    ensures added { OnOk result
        (AreAdded columns.now (item_calls item.now.what) calls.old.items calls.new.items) }
{
    match &item.what {
        ItemKind::Plain(ExprOf::Column(c)) => Ok(key_column(c, columns, keys)),
        ItemKind::Plain(ExprOf::Number(_) | ExprOf::Arith(_, _, _)) => unreachable!(),
        ItemKind::Agg(call) => add_call(alloc, call, columns, keys.len(), calls),
    }
}

fn pick_items(
    alloc: Global,
    items: &[Item],
    columns: &[FromColumn],
    keys: &[ColumnRef],
    calls: &mut Vec<AggCall<u32>>,
) -> Result<List<u32>, Memory>
    requires few { length columns.now ≤ 64 }
    requires few_keys { length keys.now ≤ 64 }
    requires pickable { All (λ (i : Item). CanBePicked (is_key_of columns.now keys.now) i.what)
        items.now }
    ensures picked { IfOk result (ArePicks (key_place columns.now keys.now)
        (length keys.now + length calls.old.items) items.now) }
    ensures added { OnOk result (AreAdded columns.now
        (flat_map (λ (i : Item). item_calls i.what) items.now) calls.old.items calls.new.items) }
{
    let mut picks = Vec::with_capacity(alloc, items.len())?;
    for item in items {
        picks.push(pick_item(alloc, item, columns, keys, calls)?)?;
    }
    Ok(List::from_vec(picks))
}

pub(crate) fn made_groups(
    alloc: Global,
    query: &Query,
    columns: &[FromColumn],
) -> Result<Grouping, Memory>
    requires few { length columns.now ≤ 64 }
    requires few_keys { length query.now.keys ≤ 64 }
    requires pickable { All (λ (i : Item). CanBePicked (is_key_of columns.now query.now.keys)
        i.what) (listed query.now.items) }
    ensures { IfOk result (IsGrouping query.now columns.now) }
{
    let names = query.keys.as_slice();
    let mut calls = Vec::new(alloc);
    let keys = place_columns(alloc, names, columns)?;
    let picks = pick_items(
        alloc,
        listed_items(&query.items),
        columns,
        names,
        &mut calls,
    )?;
    let having = place_filter(
        alloc,
        Scope::Groups,
        &query.having,
        columns,
        names,
        &mut calls,
    )?;
    Ok(Grouping {
        keys,
        calls: List::from_vec(calls),
        having,
        picks,
        lone: query.keys.len() == 0,
    })
}
