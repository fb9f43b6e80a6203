// Queries checked against the declared tables.
ghost use Rattle.std.specs.Prelude.{◌≡◌, ◌≤◌, None, length, IfOk, IfErr, OnOk};
ghost use Rattle.query_model.specs.Names.{from_columns, join_columns, output_names, refusal_of, table_columns, BothOrNone, IsChecked, IsPlacedCond, place_in, IsAnalysable, IsDueRefusal, IsTypedQuery, from_types, query_tree, selection};

mod columns;
mod groups;
mod join_keys;
mod names;
mod operand_types;
mod ordering;
mod outputs;
mod placing;
mod refusals;

use crate::analysis::columns::{FromColumn, push_joined, table_columns_of};
use crate::analysis::join_keys::place_join;
use crate::analysis::ordering::place_order;
use crate::analysis::outputs::{column_types, made_shape, names_of};
use crate::analysis::placing::{Scope, place_filter, table_use};
use crate::analysis::refusals::first_refusal;
use crate::checked::{Checked, Cond};
use crate::query::{ColumnRef, CondOf, Query, Refusal, Schema};
use crate::typing::shape_types;
use chunk_data::{Bytes, List, Memory};
use std::alloc::Global;

fn place_where(
    alloc: Global,
    filter: &Option<CondOf<ColumnRef>>,
    columns: &[FromColumn],
) -> Result<Option<Cond>, Memory>
    requires { length columns.now ≤ 64 }
    ensures { IfOk result (BothOrNone (IsPlacedCond (place_in columns.now) 0) filter.now) }
{
    let mut calls = Vec::new(alloc);
    place_filter(alloc, Scope::Rows, filter, columns, &[], &mut calls)
}

fn checked_query(
    alloc: Global,
    query: &Query,
    tables: &[Schema],
    columns: &[FromColumn],
    left: &[FromColumn],
    right: &[FromColumn],
    names: List<Bytes>,
) -> Result<Checked, Memory>
    requires analysable { IsAnalysable query.now }
    requires columns { columns.now ≡ from_columns (query_tree query.now) tables.now }
    requires left { left.now ≡ table_columns tables.now query.now.from }
    requires right { right.now ≡ join_columns tables.now query.now.join }
    requires names { names ≡ output_names (selection query.now.items) columns.now }
    requires accepted { refusal_of query.now tables.now ≡ None }
    ensures checked { IfOk result (IsChecked query.now tables.now) }
    ensures typed { IfOk result (IsTypedQuery (from_types query.now tables.now)) }
{
    // What is dropped by cases is made last.
    let from_types = column_types(alloc, columns)?;
    let order = place_order(alloc, query.order.as_slice(), names.as_slice())?;
    let from = table_use(&query.from, tables)?;
    let join = place_join(alloc, &query.join, tables, left, right)?;
    let filter = place_where(alloc, &query.filter, columns)?;
    let shape = made_shape(alloc, query, columns)?;
    let types = shape_types(alloc, &shape, from_types.as_slice())?;
    Ok(Checked {
        from,
        join,
        filter,
        shape,
        names,
        types,
        order,
        limit: query.limit,
    })
}

/// The query over the columns of its From, of which those of the FROM table are `left` and those of
/// the JOIN table `right`.
#[tactic(auto, using(crate::proofs::Accepted::refusal_over))]
fn analysed(
    alloc: Global,
    query: &Query,
    tables: &[Schema],
    columns: &[FromColumn],
    left: &[FromColumn],
    right: &[FromColumn],
) -> Result<Checked, Refusal>
    requires analysable { IsAnalysable query.now }
    requires columns { columns.now ≡ from_columns (query_tree query.now) tables.now }
    requires left { left.now ≡ table_columns tables.now query.now.from }
    requires right { right.now ≡ join_columns tables.now query.now.join }
    ensures checked { IfOk result (IsChecked query.now tables.now) }
    ensures accepted { OnOk result (refusal_of query.now tables.now ≡ None) }
    ensures typed { IfOk result (IsTypedQuery (from_types query.now tables.now)) }
    ensures refused { IfErr result (IsDueRefusal query.now tables.now) }
{
    let Ok(names) = names_of(alloc, &query.items, columns) else {
        return Err(Refusal::Memory);
    };
    match first_refusal(alloc, query, tables, columns, left, right, names.as_slice()) {
        Ok(None) => match checked_query(alloc, query, tables, columns, left, right, names) {
            Ok(checked) => Ok(checked),
            Err(_) => Err(Refusal::Memory),
        },
        Ok(Some(refusal)) => Err(refusal),
        Err(_) => Err(Refusal::Memory),
    }
}

fn analysed_over(alloc: Global, query: &Query, tables: &List<Schema>) -> Result<Checked, Refusal>
    requires { IsAnalysable query.now }
    ensures checked { IfOk result (IsChecked query.now tables.now) }
    ensures accepted { OnOk result (refusal_of query.now tables.now ≡ None) }
    ensures typed { IfOk result (IsTypedQuery (from_types query.now tables.now)) }
    ensures refused { IfErr result (IsDueRefusal query.now tables.now) }
{
    let schemas = tables.as_slice();
    let Ok(mut columns) = table_columns_of(alloc, &query.from, schemas) else {
        return Err(Refusal::Memory);
    };
    let width = columns.len();
    match push_joined(alloc, &mut columns, &query.join, schemas) {
        Ok(()) => {
            let (left, right) = columns.as_slice().split_at(width);
            analysed(alloc, query, schemas, columns.as_slice(), left, right)
        }
        Err(_) => Err(Refusal::Memory),
    }
}

/// The query with places in the place of names. Refusals come in the order of `Refusal`, and a name
/// that one carries is the first in the text's order: items, ON, WHERE, GROUP BY, HAVING, ORDER BY.
pub fn analyse(alloc: Global, query: Query, tables: &List<Schema>) -> Result<Checked, Refusal>
    requires { IsAnalysable query }
    ensures checked { IfOk result (IsChecked query tables.now) }
    ensures accepted { OnOk result (refusal_of query tables.now ≡ None) }
    ensures typed { IfOk result (IsTypedQuery (from_types query tables.now)) }
    ensures refused { IfErr result (IsDueRefusal query tables.now) }
{
    analysed_over(alloc, &query, tables)
}
