// Names of tables and columns.
ghost use Rattle.std.specs.Prelude.{◌≡◌, ◌++◌, ◌∷◌, [], IfOk, OnOk, bytes_eq, length, flat_map, map, option_map};
ghost use Rattle.std.specs.List.{list_any};
ghost use Rattle.query_model.specs.Names.{NamePair as Pair, meant, meant_type as type_meant, written as written_name, expr_columns, argument_columns, argument_form, cond_form, formula, operand_form, sides_in, sides_of, item_columns, ItemTree, item_tree, item_what, items_in, query_tree, selection, join_pairs, text_columns, listed, same_column as are_one_column, columns_in, is_key_of, key_place as place_of_key, place_in, unknown_column as unknown_among, ambiguous_column as ambiguous_among};

use crate::analysis::columns::FromColumn;
use crate::query::{
    AggCall, ColumnRef, CondOf, ExprOf, Item, ItemKind, Items, Join, NamePair, Operand, Query,
    Refusal, Schema,
};
use chunk_data::{Bytes, ColumnType, List, Memory};
use std::alloc::Global;

pub(crate) fn has_schema(name: &[u8], tables: &[Schema]) -> bool
    ensures { result ≡ list_any (λ (s : Schema). bytes_eq s.name name.now) tables.now }
{
    tables.iter().any(|schema| schema.name.as_slice() == name)
}

pub(crate) fn meant_type(c: &ColumnRef, columns: &[FromColumn]) -> Option<ColumnType>
    ensures { result ≡ type_meant columns.now c.now }
{
    match columns.iter().find(|column| column.is_meant(c)) {
        Some(column) => Some(column.kind()),
        None => None,
    }
}

/// The place of the first column that the name means, or the number of columns.
pub(crate) fn meant_place(c: &ColumnRef, columns: &[FromColumn]) -> usize
    ensures { result ≡ place_in columns.now c.now }
{
    for i in 0..columns.len() {
        if columns[i].is_meant(c) {
            return i;
        }
    }
    columns.len()
}

fn same_column(a: &ColumnRef, b: &ColumnRef, columns: &[FromColumn]) -> bool
    ensures { result ≡ are_one_column columns.now a.now b.now }
{
    columns
        .iter()
        .any(|column| column.is_meant(a) && column.is_meant(b))
}

pub(crate) fn is_key(c: &ColumnRef, keys: &[ColumnRef], columns: &[FromColumn]) -> bool
    ensures { result ≡ is_key_of columns.now keys.now c.now }
{
    keys.iter().any(|key| same_column(c, key, columns))
}

/// The place of the first key that the name means, or the number of keys.
pub(crate) fn key_place(c: &ColumnRef, keys: &[ColumnRef], columns: &[FromColumn]) -> usize
    ensures { result ≡ place_of_key columns.now keys.now c.now }
{
    for i in 0..keys.len() {
        if same_column(c, &keys[i], columns) {
            return i;
        }
    }
    keys.len()
}

fn count_meant(c: &ColumnRef, columns: &[FromColumn]) -> usize
    ensures { result ≡ length (meant c.now columns.now) }
{
    columns.iter().filter(|column| column.is_meant(c)).count()
}

/// The name as it is written, `t.c` where it is qualified.
pub(crate) fn written(c: &ColumnRef) -> Result<Bytes, Memory>
    ensures { IfOk result (λ name. name ≡ written_name c.now) }
{
    match &c.table {
        Some(table) => {
            let mut name = table.copy()?;
            name.extend_from_slice(b".")?;
            name.extend_from_slice(c.name.as_slice())?;
            Ok(name)
        }
        None => c.name.copy(),
    }
}

pub(crate) fn unknown_column(
    names: &[ColumnRef],
    columns: &[FromColumn],
) -> Result<Option<Refusal>, Memory>
    ensures { IfOk result (λ refusal. refusal ≡ unknown_among columns.now names.now) }
{
    match names.iter().find(|c| count_meant(c, columns) == 0) {
        Some(c) => Ok(Some(Refusal::UnknownColumn(written(c)?))),
        None => Ok(None),
    }
}

pub(crate) fn ambiguous_column(
    names: &[ColumnRef],
    columns: &[FromColumn],
) -> Result<Option<Refusal>, Memory>
    ensures { IfOk result (λ refusal. refusal ≡ ambiguous_among columns.now names.now) }
{
    match names.iter().find(|c| count_meant(c, columns) > 1) {
        Some(c) => Ok(Some(Refusal::AmbiguousColumn(written(c)?))),
        None => Ok(None),
    }
}

fn table_copy(table: &Option<Bytes>) -> Result<Option<Bytes>, Memory>
    ensures { IfOk result (λ copy. copy ≡ table.now) }
{
    match table {
        Some(name) => Ok(Some(name.copy()?)),
        None => Ok(None),
    }
}

pub(crate) fn push_name(c: &ColumnRef, names: &mut Vec<ColumnRef>) -> Result<(), Memory>
    ensures { OnOk result (names.new.items ≡ names.old.items ++ c.now ∷ []) }
{
    let table = table_copy(&c.table)?;
    let name = c.name.copy()?;
    names.push(ColumnRef { table, name })?;
    Ok(())
}

#[tactic(auto, unfolding(crate::specs::Refusals::expr_columns))]
pub(crate) fn push_expr_names(
    e: &ExprOf<ColumnRef>,
    names: &mut Vec<ColumnRef>,
) -> Result<(), Memory>
    ensures { OnOk result (names.new.items ≡ names.old.items ++ expr_columns (formula e.now)) }
{
    match e {
        ExprOf::Column(c) => push_name(c, names),
        ExprOf::Number(_) => Ok(()),
        ExprOf::Arith(_, a, b) => {
            push_expr_names(a, names)?;
            push_expr_names(b, names)
        }
    }
}

fn push_call_names(call: &AggCall<ColumnRef>, names: &mut Vec<ColumnRef>) -> Result<(), Memory>
    ensures { OnOk result (names.new.items
        ≡ names.old.items ++ argument_columns (argument_form call.now.arg)) }
{
    match &call.arg {
        Some(e) => push_expr_names(e, names),
        None => Ok(()),
    }
}

/// Adds the names in a side of a comparison, those in a call among them where `in_calls` says so.
fn push_operand_names(
    in_calls: bool,
    operand: &Operand<ColumnRef>,
    names: &mut Vec<ColumnRef>,
) -> Result<(), Memory>
    ensures { OnOk result (names.new.items
        ≡ names.old.items ++ columns_in in_calls (operand_form operand.now)) }
{
    match operand {
        Operand::Plain(e) => push_expr_names(e, names),
        Operand::Text(_) | Operand::Null => Ok(()),
        Operand::Agg(call) => {
            if in_calls {
                push_call_names(call, names)
            } else {
                Ok(())
            }
        }
    }
}

#[tactic(auto, unfolding(crate::specs::Formulas::sides_of))]
fn push_cond_names(
    in_calls: bool,
    cond: &CondOf<ColumnRef>,
    names: &mut Vec<ColumnRef>,
) -> Result<(), Memory>
    ensures { OnOk result (names.new.items
        ≡ names.old.items ++ flat_map (columns_in in_calls) (sides_of (cond_form cond.now))) }
{
    match cond {
        CondOf::Compare(_, a, b) => {
            push_operand_names(in_calls, a, names)?;
            push_operand_names(in_calls, b, names)
        }
        CondOf::And(a, b) | CondOf::Or(a, b) => {
            push_cond_names(in_calls, a, names)?;
            push_cond_names(in_calls, b, names)
        }
        CondOf::Not(a) => push_cond_names(in_calls, a, names),
        CondOf::IsNull(a) => push_operand_names(in_calls, a, names),
    }
}

pub(crate) fn push_filter_names(
    in_calls: bool,
    filter: &Option<CondOf<ColumnRef>>,
    names: &mut Vec<ColumnRef>,
) -> Result<(), Memory>
    ensures { OnOk result (names.new.items
        ≡ names.old.items
        ++ flat_map (columns_in in_calls) (sides_in (option_map cond_form filter.now))) }
{
    match filter {
        Some(cond) => push_cond_names(in_calls, cond, names),
        None => Ok(()),
    }
}

fn push_item_names(item: &Item, names: &mut Vec<ColumnRef>) -> Result<(), Memory>
    ensures { OnOk result
        (names.new.items ≡ names.old.items ++ item_columns (item_what item.now.what)) }
{
    match &item.what {
        ItemKind::Plain(e) => push_expr_names(e, names),
        ItemKind::Agg(call) => push_call_names(call, names),
    }
}

/// The items that are listed; `*` lists none.
pub(crate) fn listed_items(items: &Items) -> &[Item]
    ensures listed { result.now ≡ listed items.now }
    ensures trees { map item_tree result.now ≡ items_in (selection items.now) }
{
    match items {
        Items::Star => &[],
        Items::Listed(items) => items.as_slice(),
    }
}

fn push_all_items(items: &[Item], names: &mut Vec<ColumnRef>) -> Result<(), Memory>
    ensures { OnOk result (names.new.items
        ≡ names.old.items
        ++ flat_map (λ (i : ItemTree). item_columns i.what) (map item_tree items.now)) }
{
    for item in items {
        push_item_names(item, names)?;
    }
    Ok(())
}

fn push_pair_names(pairs: &[NamePair], names: &mut Vec<ColumnRef>) -> Result<(), Memory>
    ensures { OnOk result (names.new.items
        ≡ names.old.items ++ flat_map (λ (p : Pair). p.left ∷ p.right ∷ []) pairs.now) }
{
    for pair in pairs {
        push_name(&pair.left, names)?;
        push_name(&pair.right, names)?;
    }
    Ok(())
}

fn push_join_names(join: &Option<Join>, names: &mut Vec<ColumnRef>) -> Result<(), Memory>
    ensures { OnOk result (names.new.items
        ≡ names.old.items ++ flat_map (λ (p : Pair). p.left ∷ p.right ∷ []) (join_pairs join.now)) }
{
    match join {
        Some(join) => push_pair_names(join.pairs.as_slice(), names),
        None => Ok(()),
    }
}

fn push_key_names(keys: &[ColumnRef], names: &mut Vec<ColumnRef>) -> Result<(), Memory>
    ensures { OnOk result (names.new.items ≡ names.old.items ++ keys.now) }
{
    for key in keys {
        push_name(key, names)?;
    }
    Ok(())
}

/// The names of columns that stand in the query, in the text's order.
pub(crate) fn names_in(alloc: Global, query: &Query) -> Result<List<ColumnRef>, Memory>
    ensures { IfOk result (λ names. names ≡ text_columns (query_tree query.now)) }
{
    let mut names = Vec::new(alloc);
    push_all_items(listed_items(&query.items), &mut names)?;
    push_join_names(&query.join, &mut names)?;
    push_filter_names(true, &query.filter, &mut names)?;
    push_key_names(query.keys.as_slice(), &mut names)?;
    push_filter_names(true, &query.having, &mut names)?;
    Ok(List::from_vec(names))
}
