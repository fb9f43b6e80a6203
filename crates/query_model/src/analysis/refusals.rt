// Why a query is refused: each condition over the whole query, and the first that it meets.
ghost use Rattle.std.specs.Prelude.{◌≡◌, ◌∷◌, [], length, map, option_map, IfOk};
ghost use Rattle.query_model.specs.Names.{unknown_table as table_refusal, too_wide as width_refusal, refusals, calls_in, cond_form, operand_calls, operand_form, sides_in, sides_of, total, join_pairs, output_names, query_tables, query_tree, selection, first_of_all};

use crate::analysis::columns::FromColumn;
use crate::analysis::groups::{added, count_item_calls, not_grouped};
use crate::analysis::join_keys::pairs_fit;
use crate::analysis::names::{
    ambiguous_column, has_schema, listed_items, names_in, unknown_column,
};
use crate::analysis::operand_types::types_fit;
use crate::analysis::ordering::bad_order_key;
use crate::query::{ColumnRef, CondOf, Join, Operand, Query, Refusal, Schema, TableRef};
use chunk_data::{Bytes, Memory};
use std::alloc::Global;

/// The most columns of From, items, keys of groups, keys of an order, pairs of ON, and calls.
const WIDEST: usize = 64;

fn undeclared(table: &TableRef, tables: &[Schema]) -> Result<Option<Refusal>, Memory>
    ensures { IfOk result (λ refusal. refusal ≡ table_refusal tables.now (table.now ∷ [])) }
{
    match table {
        TableRef::Named(name) => {
            if has_schema(name.as_slice(), tables) {
                Ok(None)
            } else {
                Ok(Some(Refusal::UnknownTable(name.copy()?)))
            }
        }
        TableRef::Numbers(_) => Ok(None),
    }
}

fn unknown_table(query: &Query, tables: &[Schema]) -> Result<Option<Refusal>, Memory>
    ensures { IfOk result (λ refusal. refusal
        ≡ table_refusal tables.now (query_tables (query_tree query.now))) }
{
    match undeclared(&query.from, tables)? {
        Some(refusal) => Ok(Some(refusal)),
        None => match &query.join {
            Some(join) => undeclared(&join.table, tables),
            None => Ok(None),
        },
    }
}

fn count_operand_calls(operand: &Operand<ColumnRef>) -> usize
    ensures { result ≡ operand_calls (operand_form operand.now) }
{
    match operand {
        Operand::Plain(_) | Operand::Text(_) | Operand::Null => 0,
        Operand::Agg(_) => 1,
    }
}

#[tactic(auto, using(crate::proofs::CallLaws::calls_of_both), unfolding(crate::specs::Formulas::sides_of))]
fn count_cond_calls(cond: &CondOf<ColumnRef>) -> Result<usize, Memory>
    ensures { IfOk result (λ count. count
        ≡ total (map operand_calls (sides_of (cond_form cond.now)))) }
{
    match cond {
        CondOf::Compare(_, a, b) => added(count_operand_calls(a), count_operand_calls(b)),
        CondOf::And(a, b) | CondOf::Or(a, b) => added(count_cond_calls(a)?, count_cond_calls(b)?),
        CondOf::Not(a) => count_cond_calls(a),
        CondOf::IsNull(a) => Ok(count_operand_calls(a)),
    }
}

fn count_having_calls(having: &Option<CondOf<ColumnRef>>) -> Result<usize, Memory>
    ensures { IfOk result (λ count. count
        ≡ total (map operand_calls (sides_in (option_map cond_form having.now)))) }
{
    match having {
        Some(cond) => count_cond_calls(cond),
        None => Ok(0),
    }
}

fn count_calls(query: &Query) -> Result<usize, Memory>
    ensures { IfOk result (λ count. count ≡ calls_in (query_tree query.now)) }
{
    let in_items = count_item_calls(listed_items(&query.items))?;
    added(in_items, count_having_calls(&query.having)?)
}

fn count_pairs(join: &Option<Join>) -> usize
    ensures { result ≡ length (join_pairs join.now) }
{
    match join {
        Some(join) => join.pairs.len(),
        None => 0,
    }
}

/// There are too many columns of From, items, keys, pairs or calls.
fn too_wide(query: &Query, columns: &[FromColumn]) -> Result<Option<Refusal>, Memory>
    ensures { IfOk result (λ refusal. refusal ≡ width_refusal columns.now (query_tree query.now)) }
{
    let calls = count_calls(query)?;
    if columns.len() > WIDEST
        || listed_items(&query.items).len() > WIDEST
        || query.keys.len() > WIDEST
        || query.order.len() > WIDEST
        || count_pairs(&query.join) > WIDEST
        || calls > WIDEST
    {
        Ok(Some(Refusal::TooWide))
    } else {
        Ok(None)
    }
}

/// The first condition that the query meets. `names` are those of its outputs.
pub(crate) fn first_refusal(
    alloc: Global,
    query: &Query,
    tables: &[Schema],
    columns: &[FromColumn],
    left: &[FromColumn],
    right: &[FromColumn],
    names: &[Bytes],
) -> Result<Option<Refusal>, Memory>
    requires { names.now ≡ output_names (selection query.now.items) columns.now }
    ensures { IfOk result (λ refusal. refusal
        ≡ first_of_all (refusals tables.now columns.now left.now right.now
        (query_tree query.now))) }
{
    if let Some(refusal) = unknown_table(query, tables)? {
        return Ok(Some(refusal));
    }
    let used = names_in(alloc, query)?;
    if let Some(refusal) = unknown_column(used.as_slice(), columns)? {
        return Ok(Some(refusal));
    }
    if let Some(refusal) = ambiguous_column(used.as_slice(), columns)? {
        return Ok(Some(refusal));
    }
    if !pairs_fit(&query.join, left, right) {
        return Ok(Some(Refusal::BadJoinKey));
    }
    if !types_fit(query, columns) {
        return Ok(Some(Refusal::TypeMismatch));
    }
    if let Some(refusal) = not_grouped(alloc, query, columns)? {
        return Ok(Some(refusal));
    }
    if let Some(refusal) = bad_order_key(query.order.as_slice(), names)? {
        return Ok(Some(refusal));
    }
    too_wide(query, columns)
}
