// The steps of a plan.
ghost use Rattle.std.specs.Prelude.{◌≡◌, ◌+◌, ◌≤◌, ◌++◌, ◌∷◌, [], map, length, IfOk, IfErr, None, OnOk};
ghost use Rattle.query_model.specs.Names.{shape_types, used_tables};
ghost use Rattle.query_model.specs.declared.checked.Shape.TheVariants.{Grouped};
ghost use Rattle.plan_laws.specs.Drafts.{AllFitDraft, no_draft, with_nodes};
ghost use Rattle.plan_laws.specs.Same.{forms};
ghost use Rattle.plan_laws.specs.Plans.{plan_nodes, read_nodes, shape_nodes};
ghost use Rattle.plan_laws.specs.Queries.{shape_of};
ghost use Rattle.plan_laws.specs.Refusals.{first_crowded, IsDuePlanRefusal};
ghost use Rattle.plan_laws.specs.Shapes.{kept_at, plan_node_of, reserves_from, IsSoundPlan, LaysDown};
ghost use Rattle.plan_laws.specs.Boxes.{reserved_nodes};
ghost use Rattle.plan_laws.specs.Steps.{join_of, order_of, select_plan, source_types, table_sources};

use crate::groups::{arguments_of, columns_of, group_spec};
use crate::lanes::{
    LaneStep, add_behind, add_filters, add_gather, add_joint, add_lanes, add_limit, add_sort,
};
use crate::parts::{
    MAX_PARTS, SourceReading, add_sources, check_tables, join_spec, listed_kinds, source_types,
};
use chunk_data::{ColumnType, List, Memory};
use plan_laws::{DraftBuilder, DraftNode, Plan, PlanNode, PlanRefusal, PlanReserve, build};
use proc_api::kind_row;
use query_model::checked::{Checked, Expr, Grouping, Shape};
use query_model::processor_spec::{SortSpec, Spec};
use query_model::query::TableDecl;
use query_model::typing::shape_types;
use std::alloc::Global;

/// The plan of a checked query over the declared tables, with so many lanes, in chunks of at most
/// so many rows. A used table that names more than 32 paths is refused, that of FROM first.
pub fn plan(
    alloc: Global,
    query: &Checked,
    tables: &List<TableDecl>,
    lanes: u32,
    chunk_rows: u32,
    header: bool,
) -> Result<Plan, PlanRefusal>
    requires some_lanes { 1 ≤ lanes }
    requires few_lanes { lanes ≤ 16 }
    ensures steps { IfOk result (LaysDown
        (plan_nodes (select_plan query.now tables.now lanes chunk_rows header))) }
    ensures sound { IfOk result (IsSoundPlan query.now tables.now lanes) }
    ensures accepted { IfOk result (λ p. first_crowded tables.now (used_tables query.now) ≡ None) }
    ensures refused { IfErr result (IsDuePlanRefusal query.now tables.now) }
{
    check_tables(query, tables.as_slice())?;
    let reading = SourceReading {
        header,
        rows: chunk_rows,
        place: 0,
    };
    let mut nodes = List::new(alloc);
    match lay_steps(alloc, &mut nodes, query, tables.as_slice(), lanes, reading) {
        Ok(()) => match plan_of(alloc, nodes) {
            Ok(plan) => Ok(plan),
            Err(_) => Err(PlanRefusal::Memory),
        },
        Err(_) => Err(PlanRefusal::Memory),
    }
}

/// Adds the nodes, step by step.
#[tactic(auto, using(crate::proofs::Laying::one_behind))]
fn lay_steps(
    alloc: Global,
    nodes: &mut List<DraftNode>,
    query: &Checked,
    tables: &[TableDecl],
    lanes: u32,
    reading: SourceReading,
) -> Result<(), Memory>
    requires empty { nodes.old ≡ [] }
    requires few_lanes { lanes ≤ 16 }
    requires few_parts { first_crowded tables.now (used_tables query.now) ≡ None }
    requires at_start { reading.place ≡ 0 }
    ensures { OnOk result (forms nodes.new ≡ forms
        (plan_nodes (select_plan query.now tables.now lanes reading.rows reading.header))) }
{
    add_read(alloc, nodes, query, tables, lanes, reading)?;
    add_filters(alloc, nodes, &query.filter, 5, lanes)?;
    add_shape(alloc, nodes, query, tables, reading.rows, lanes)?;
    add_limit(nodes, &query.limit)?;
    add_joint(nodes, Spec::Collect, 14, 1, 0)
}

/// Adds what reads the table of FROM into the lanes, or its join with a second table, whose sources
/// stand behind the ends of FROM's.
#[tactic(auto, using(crate::proofs::Laying::sources_behind, crate::proofs::Laying::one_behind))]
fn add_read(
    alloc: Global,
    nodes: &mut List<DraftNode>,
    query: &Checked,
    tables: &[TableDecl],
    lanes: u32,
    reading: SourceReading,
) -> Result<(), Memory>
    requires few_parts { first_crowded tables.now (used_tables query.now) ≡ None }
    requires at_start { reading.place ≡ 0 }
    ensures { OnOk result (forms nodes.new ≡ forms nodes.old ++ forms (read_nodes
        (table_sources tables.now reading.header reading.rows query.now.from)
        (join_of tables.now reading.header reading.rows query.now.from query.now.join) lanes)) }
{
    let ends = add_sources(alloc, nodes, query.from, tables, reading)?;
    match &query.join {
        None => add_joint(nodes, Spec::Resize, 2, ends, lanes),
        Some(join) => {
            let second = SourceReading {
                header: reading.header,
                rows: reading.rows,
                place: ends,
            };
            let joined = add_sources(alloc, nodes, join.table, tables, second)?;
            add_joint(nodes, Spec::Resize, 2, ends, 1)?;
            add_behind(nodes, Spec::Resize, 2, 1, joined)?;
            let spec = join_spec(alloc, query.from, join, tables, reading.rows)?;
            add_joint(nodes, Spec::HashJoin(spec), 3, 2, 1)?;
            add_joint(nodes, Spec::Resize, 4, 1, lanes)
        }
    }
}

/// Adds what makes the output rows of the filtered ones, in their order, in one stream.
fn add_shape(
    alloc: Global,
    nodes: &mut List<DraftNode>,
    query: &Checked,
    tables: &[TableDecl],
    rows: u32,
    lanes: u32,
) -> Result<(), Memory>
    ensures { OnOk result (forms nodes.new ≡ forms nodes.old
        ++ forms (shape_nodes
        (shape_of query.now.shape (source_types tables.now query.now.from query.now.join) rows)
        (order_of (shape_types query.now.shape
        (source_types tables.now query.now.from query.now.join)) rows query.now.order) lanes)) }
{
    let types = source_types(alloc, query, tables)?;
    let order = order_of(alloc, query, types.as_slice(), rows)?;
    match &query.shape {
        Shape::Plain(items) => {
            add_lanes(alloc, nodes, LaneStep::Expression(items), 6, lanes)?;
            add_gather(alloc, nodes, order, lanes)
        }
        Shape::Grouped(grouping) => {
            add_groups(alloc, nodes, grouping, types.as_slice(), order, rows, lanes)
        }
    }
}

/// Adds the groups: a part of them in each lane, then all of them, and of those that HAVING lets
/// pass the columns that were asked for.
fn add_groups(
    alloc: Global,
    nodes: &mut List<DraftNode>,
    grouping: &Grouping,
    types: &[ColumnType],
    order: Option<SortSpec>,
    rows: u32,
    lanes: u32,
) -> Result<(), Memory>
    ensures { OnOk result (forms nodes.new ≡ forms nodes.old
        ++ forms (shape_nodes (shape_of (Grouped grouping.now) types.now rows) order lanes)) }
{
    // What a step alone needs is dropped with it.
    {
        let arguments = arguments_of(alloc, grouping.keys.as_slice(), grouping.calls.as_slice())?;
        add_lanes(alloc, nodes, LaneStep::Expression(&arguments), 6, lanes)?;
    }
    let groups = group_spec(alloc, grouping, types, rows)?;
    add_lanes(alloc, nodes, LaneStep::PartialAggregate(&groups), 7, lanes)?;
    add_joint(nodes, Spec::MergeAggregate(groups), 8, lanes, 1)?;
    add_filters(alloc, nodes, &grouping.having, 9, 1)?;
    {
        let picks = columns_of(alloc, grouping.picks.as_slice())?;
        add_lanes(alloc, nodes, LaneStep::Expression(&picks), 10, 1)?;
    }
    add_sort(nodes, order)?;
    Ok(())
}

/// The order of the output rows, where there are keys.
fn order_of(
    alloc: Global,
    query: &Checked,
    types: &[ColumnType],
    rows: u32,
) -> Result<Option<SortSpec>, Memory>
    ensures { IfOk result (λ order. order
        ≡ order_of (shape_types query.now.shape types.now) rows query.now.order) }
{
    if query.order.len() == 0 {
        return Ok(None);
    }
    Ok(Some(SortSpec {
        keys: query.order.copy()?,
        types: shape_types(alloc, &query.shape, types)?,
        rows,
    }))
}

/// The nodes, and the edges that they make.
fn plan_of(alloc: Global, nodes: List<DraftNode>) -> Result<Plan, Memory>
    requires fit { AllFitDraft nodes no_draft }
    requires few_nodes { length nodes + reserved_nodes (reserves_from 0 nodes) ≤ 256 }
    ensures nodes { IfOk result (λ p. p.nodes ≡ map plan_node_of nodes) }
    ensures edges { IfOk result
        (λ p. p.edges ≡ (with_nodes nodes no_draft).wires) }
    ensures reserves { IfOk result (λ p. p.reserves ≡ reserves_from 0 nodes) }
{
    let DraftBuilder { wires, .. } = build(alloc, nodes.as_slice())?;
    let reserves = reserves_of(alloc, nodes.as_slice())?;
    let nodes = nodes_of(alloc, nodes)?;
    Ok(Plan {
        nodes,
        edges: wires,
        reserves,
    })
}

/// What is kept for the lists of parts among the nodes.
#[tactic(auto, using(crate::proofs::Laying::kept_more))]
fn reserves_of(alloc: Global, nodes: &[DraftNode]) -> Result<List<PlanReserve>, Memory>
    requires { length nodes.now ≤ 256 }
    ensures { IfOk result (λ reserves. reserves ≡ reserves_from 0 nodes.now) }
{
    let mut reserves = List::new(alloc);
    for n in 0..nodes.len() {
        keep_for(alloc, &mut reserves, &nodes[n], n as u32)?;
    }
    Ok(reserves)
}

/// Adds what is kept for node `n`, where it is a list of parts.
fn keep_for(
    alloc: Global,
    reserves: &mut List<PlanReserve>,
    node: &DraftNode,
    n: u32,
) -> Result<(), Memory>
    ensures { OnOk result (reserves.new ≡ reserves.old ++ kept_at n node.now) }
{
    if !kind_row(node.spec.kind()).reads_list {
        return Ok(());
    }
    let kinds = listed_kinds(alloc)?;
    let reserve = PlanReserve {
        node: n,
        kinds,
        edges: MAX_PARTS,
    };
    reserves.push(reserve).map_err(|_| Memory)
}

fn nodes_of(alloc: Global, nodes: List<DraftNode>) -> Result<List<PlanNode>, Memory>
    ensures { IfOk result (λ l. l ≡ map plan_node_of nodes) }
{
    let planned = nodes
        .into_vec()
        .into_iter()
        .map(|DraftNode { spec, rank, .. }| PlanNode { spec, rank });
    Ok(List::from_vec(planned.collect(alloc)?))
}
