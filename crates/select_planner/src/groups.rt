// What a grouped query fills in of the steps.
ghost use Rattle.std.specs.Prelude.{◌≡◌, ◌++◌, [], map, IfOk, OnOk};
ghost use Rattle.query_model.specs.Formulas.{formula};
ghost use Rattle.plan_laws.specs.Queries.{call_arguments, column_items, group_spec, state_call, with_argument};

use chunk_data::{ColumnType, List, Memory};
use query_model::checked::{Expr, Grouping};
use query_model::plain::copy_expr;
use query_model::processor_spec::{GroupSpec, StateCall};
use query_model::query::{AggCall, ExprOf};
use query_model::typing::{call_type, types_at};
use std::alloc::Global;

/// The columns at these places.
pub(crate) fn columns_of(alloc: Global, places: &[u32]) -> Result<List<Expr>, Memory>
    ensures { IfOk result (λ items. items ≡ column_items places.now) }
{
    let mut items = Vec::new(alloc);
    for place in places {
        items.push(ExprOf::Column(*place))?;
    }
    Ok(List::from_vec(items))
}

/// The keys, and then the arguments of the calls that have one.
#[tactic(auto, using(crate::proofs::Laying::argument_more))]
pub(crate) fn arguments_of(
    alloc: Global,
    keys: &[u32],
    calls: &[AggCall<u32>],
) -> Result<List<Expr>, Memory>
    ensures { IfOk result (λ items. map formula items
        ≡ map formula (column_items keys.now ++ call_arguments calls.now)) }
{
    let mut items = columns_of(alloc, keys)?;
    for call in calls {
        add_argument(alloc, &mut items, &call.arg)?;
    }
    Ok(items)
}

/// Adds a copy of the argument, where there is one.
fn add_argument(alloc: Global, items: &mut List<Expr>, arg: &Option<Expr>) -> Result<(), Memory>
    ensures { OnOk result (map formula items.new
        ≡ map formula items.old ++ map formula (with_argument arg.now [])) }
{
    match arg {
        None => Ok(()),
        Some(e) => {
            let copy = copy_expr(alloc, e)?;
            items.push(copy).map_err(|_| Memory)
        }
    }
}

/// The types of the keys, and the states of the calls, over rows of these types.
pub(crate) fn group_spec(
    alloc: Global,
    grouping: &Grouping,
    types: &[ColumnType],
    rows: u32,
) -> Result<GroupSpec, Memory>
    ensures { IfOk result (λ spec. spec ≡ group_spec grouping.now types.now rows) }
{
    let keys = types_at(alloc, grouping.keys.as_slice(), types)?;
    let calls = states_of(alloc, grouping.calls.as_slice(), types)?;
    Ok(GroupSpec {
        keys,
        calls,
        lone: grouping.lone,
        rows,
    })
}

fn states_of(
    alloc: Global,
    calls: &[AggCall<u32>],
    types: &[ColumnType],
) -> Result<List<StateCall>, Memory>
    ensures { IfOk result (λ states. states ≡ map (state_call types.now) calls.now) }
{
    let mut states = Vec::new(alloc);
    for call in calls {
        let kind = call_type(call, types);
        states.push(StateCall { op: call.op, kind })?;
    }
    Ok(List::from_vec(states))
}
