// Blocks of nodes, added behind a list of nodes.
ghost use Rattle.std.specs.Prelude.{◌≡◌, ◌≤◌, ◌++◌, ◌∷◌, [], IfOk, OnOk};
ghost use Rattle.plan_laws.specs.Blocks.{lane_nodes, joint_node};
ghost use Rattle.plan_laws.specs.Plans.{filter_nodes, gather_nodes, limit_nodes, sort_nodes};
ghost use Rattle.plan_laws.specs.Same.{forms};
ghost use Rattle.proc_api.specs.Forms.{spec_form};
ghost use Rattle.select_planner.specs.Lanes.{lane_spec};

use crate::copies::{copy_cond, copy_groups, copy_items, copy_order};
use chunk_data::{List, Memory};
use plan_laws::DraftNode;
use query_model::checked::{Cond, Expr};
use query_model::processor_spec::{GroupSpec, SortSpec, Spec};
use query_model::query::Span;
use std::alloc::Global;

/// Adds a node.
fn add_node(nodes: &mut List<DraftNode>, node: DraftNode) -> Result<(), Memory>
    ensures { OnOk result (forms nodes.new ≡ forms nodes.old ++ forms (node ∷ [])) }
{
    nodes.push(node).map_err(|_| Memory)
}

/// Adds a node that takes the first open ends.
pub(crate) fn add_joint(
    nodes: &mut List<DraftNode>,
    spec: Spec,
    rank: u32,
    takes: u32,
    gives: u32,
) -> Result<(), Memory>
    ensures { OnOk result (forms nodes.new
        ≡ forms nodes.old ++ forms (joint_node spec rank takes gives ∷ [])) }
{
    let node = DraftNode {
        spec,
        rank,
        offset: 0,
        takes,
        gives,
    };
    add_node(nodes, node)
}

/// Adds a node that gives one end, behind so many open ends.
pub(crate) fn add_behind(
    nodes: &mut List<DraftNode>,
    spec: Spec,
    rank: u32,
    offset: u32,
    takes: u32,
) -> Result<(), Memory>
    ensures { OnOk result (forms nodes.new ≡ forms nodes.old ++ forms (record {
      spec = spec;
      rank = rank;
      offset = offset;
      takes = takes;
      gives = 1;
    } ∷ [])) }
{
    let node = DraftNode {
        spec,
        rank,
        offset,
        takes,
        gives: 1,
    };
    add_node(nodes, node)
}

/// Adds the filters of WHERE, one in each lane.
pub(crate) fn add_filters(
    alloc: Global,
    nodes: &mut List<DraftNode>,
    filter: &Option<Cond>,
    rank: u32,
    lanes: u32,
) -> Result<(), Memory>
    ensures { OnOk result (forms nodes.new
        ≡ forms nodes.old ++ forms (filter_nodes filter.now rank lanes)) }
{
    match filter {
        None => Ok(()),
        Some(cond) => add_lanes(alloc, nodes, LaneStep::Filter(cond), rank, lanes),
    }
}

/// A step that each lane has a copy of.
#[derive(Clone, Copy)]
pub(crate) enum LaneStep<'a> {
    Filter(&'a Cond),
    Expression(&'a List<Expr>),
    PartialAggregate(&'a GroupSpec),
    Sort(&'a SortSpec),
}

/// The spec of the step, in boxes and lists of its own.
fn lane_copy(alloc: Global, step: LaneStep<'_>) -> Result<Spec, Memory>
    ensures { IfOk result (λ spec. spec_form spec ≡ spec_form (lane_spec step.entry)) }
{
    match step {
        LaneStep::Filter(cond) => Ok(Spec::Filter(copy_cond(alloc, cond)?)),
        LaneStep::Expression(items) => Ok(Spec::Expression(copy_items(alloc, items)?)),
        LaneStep::PartialAggregate(groups) => Ok(Spec::PartialAggregate(copy_groups(groups)?)),
        LaneStep::Sort(order) => Ok(Spec::Sort(copy_order(order)?)),
    }
}

/// Adds the nodes of a step, one in each lane.
#[tactic(auto, using(crate::proofs::Laying::lane_more))]
pub(crate) fn add_lanes(
    alloc: Global,
    nodes: &mut List<DraftNode>,
    step: LaneStep<'_>,
    rank: u32,
    lanes: u32,
) -> Result<(), Memory>
    ensures { OnOk result (forms nodes.new
        ≡ forms nodes.old ++ forms (lane_nodes (lane_spec step.entry) rank 0 lanes)) }
{
    for lane in 0..lanes {
        let copy = lane_copy(alloc, step)?;
        add_behind(nodes, copy, rank, lane, 1)?;
    }
    Ok(())
}

/// Adds what gathers the lanes into one, in this order where there is one.
pub(crate) fn add_gather(
    alloc: Global,
    nodes: &mut List<DraftNode>,
    order: Option<SortSpec>,
    lanes: u32,
) -> Result<(), Memory>
    ensures { OnOk result (forms nodes.new
        ≡ forms nodes.old ++ forms (gather_nodes order lanes)) }
{
    match order {
        None => add_joint(nodes, Spec::Resize, 12, lanes, 1),
        Some(order) => {
            add_lanes(alloc, nodes, LaneStep::Sort(&order), 11, lanes)?;
            add_joint(nodes, Spec::MergeSorted(order), 12, lanes, 1)
        }
    }
}

/// Adds the sort of all groups, where there is an order.
pub(crate) fn add_sort(nodes: &mut List<DraftNode>, order: Option<SortSpec>) -> Result<(), Memory>
    ensures { OnOk result (forms nodes.new ≡ forms nodes.old ++ forms (sort_nodes order)) }
{
    match order {
        None => Ok(()),
        Some(order) => add_joint(nodes, Spec::Sort(order), 11, 1, 1),
    }
}

/// Adds the limit, where there is one.
pub(crate) fn add_limit(nodes: &mut List<DraftNode>, limit: &Option<Span>) -> Result<(), Memory>
    ensures { OnOk result (forms nodes.new ≡ forms nodes.old ++ forms (limit_nodes limit.now)) }
{
    match limit {
        None => Ok(()),
        Some(span) => add_joint(nodes, Spec::Limit(*span), 13, 1, 1),
    }
}
