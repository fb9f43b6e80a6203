// The types of what is made of rows.
ghost use Rattle.std.specs.Prelude.{◌≡◌, map, IfOk};
ghost use Rattle.query_model.specs.Names.{call_type, group_types, shape_types, type_at as type_at_place, type_of};

use crate::checked::{Expr, Grouping, Shape};
use crate::plain::expr_type;
use crate::query::{AggCall, AggOp};
use chunk_data::{ColumnType, List, Memory, type_at};
use std::alloc::Global;

/// The types of the rows that a shape makes of rows of these types.
pub fn shape_types(
    alloc: Global,
    shape: &Shape,
    types: &[ColumnType],
) -> Result<List<ColumnType>, Memory>
    ensures { IfOk result (λ l. l ≡ shape_types shape.now types.now) }
{
    match shape {
        Shape::Plain(items) => item_types(alloc, items.as_slice(), types),
        Shape::Grouped(grouping) => {
            let row = group_types(alloc, grouping, types)?;
            types_at(alloc, grouping.picks.as_slice(), row.as_slice())
        }
    }
}

fn item_types(
    alloc: Global,
    items: &[Expr],
    types: &[ColumnType],
) -> Result<List<ColumnType>, Memory>
    ensures { IfOk result (λ l. l ≡ map (λ e. type_of e types.now) items.now) }
{
    let mut of_items = Vec::new(alloc);
    for item in items {
        of_items.push(expr_type(item, types))?;
    }
    Ok(List::from_vec(of_items))
}

/// The types of the columns at these places.
pub fn types_at(
    alloc: Global,
    places: &[u32],
    types: &[ColumnType],
) -> Result<List<ColumnType>, Memory>
    ensures { IfOk result (λ l. l ≡ map (type_at_place types.now) places.now) }
{
    let mut of_places = Vec::new(alloc);
    for place in places {
        of_places.push(type_at(types, *place as usize))?;
    }
    Ok(List::from_vec(of_places))
}

/// The types of a row of keys and calls.
fn group_types(
    alloc: Global,
    grouping: &Grouping,
    types: &[ColumnType],
) -> Result<List<ColumnType>, Memory>
    ensures { IfOk result (λ l. l ≡ group_types grouping.now types.now) }
{
    let mut row = types_at(alloc, grouping.keys.as_slice(), types)?.into_vec();
    let calls = grouping.calls.as_slice();
    for call in calls {
        row.push(call_type(call, types))?;
    }
    Ok(List::from_vec(row))
}

/// The type of a call over rows of these types.
pub fn call_type(call: &AggCall<u32>, types: &[ColumnType]) -> ColumnType
    ensures { result ≡ call_type call.now.op call.now.arg types.now }
{
    match (call.op, &call.arg) {
        (AggOp::Count, _) | (_, None) => ColumnType::UInt64,
        (_, Some(e)) => expr_type(e, types),
    }
}
