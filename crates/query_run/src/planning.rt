// The graph of a plan, and the parts that its boxes serve.
ghost use Rattle.std.specs.Prelude.{◌≡◌, ◌+◌, ◌++◌, ◌≤◌, length, map, replicate, IfOk, OnOk, slice_get};
ghost use Rattle.query_run.specs.Names.{reserved_nodes, kinds_reserved, IsGraphOf, edges_kept, kept_places, name_of, name_at, node_specs, part_place, places_in, reserves_behind, spec_read};

use crate::ending::PartName;
use chunk_data::{Bytes, List, Memory};
use plan_run::{GraphForm, PlanGraph};
use port_word::Reserve;
use query_model::processor_spec::{Kind, Spec};
use query_model::query::TableDecl;
use select_planner::{Plan, PlanNode, PlanReserve};
use std::alloc::Global;

/// The part that a box serves: the place of its table, from 0, and its own in the table, from 1; a
/// list of parts has 0.
#[derive(Clone, Copy)]
pub(crate) struct PartPlace {
    pub table: u32,
    pub part: u32,
}

/// The parts that nodes read, in their order, and then those of the boxes that are kept for lists:
/// the box at place P of a list's reserve, from 1, serves its part P.
pub(crate) fn part_places(alloc: Global, plan: &Plan) -> Result<Vec<PartPlace>, Memory>
    ensures { IfOk result (λ places. places.items
        ≡ places_in (node_specs plan.now.nodes) plan.now.reserves) }
{
    let mut places = Vec::new(alloc);
    let nodes = plan.nodes.as_slice();
    for node in nodes {
        places.push(part_place(&node.spec))?;
    }
    for reserve in plan.reserves.as_slice() {
        let table = table_read(nodes, reserve.node);
        add_kept(&mut places, table, reserve.kinds.len())?;
    }
    Ok(places)
}

// The table of the part that a node reads.
fn table_read(nodes: &[PlanNode], node: u32) -> u32
    ensures { result ≡ (part_place (spec_read (node_specs nodes.now) node)).table }
{
    match nodes.get(node as usize) {
        Some(node) => part_place(&node.spec).table,
        None => 0,
    }
}

// Adds the places of so many boxes that are kept for the list of a table.
fn add_kept(places: &mut Vec<PartPlace>, table: u32, count: usize) -> Result<(), Memory>
    requires { count ≤ 256 }
    ensures { OnOk result (places.new.items ≡ places.old.items ++ kept_places table 1 count) }
{
    for part in 0..count {
        places.push(place_of(table, part as u32 + 1))?;
    }
    Ok(())
}

fn part_place(spec: &Spec) -> PartPlace
    ensures { result ≡ part_place spec.now }
{
    match spec {
        Spec::Csv(part) => place_of(part.table, part.part),
        Spec::List(list) => place_of(list.table, list.part),
        _ => place_of(0, 0),
    }
}

fn place_of(table: u32, part: u32) -> PartPlace
    ensures table { result.table ≡ table }
    ensures part { result.part ≡ part }
{
    PartPlace { table, part }
}

/// The name of the part that a box serves.
pub(crate) fn part_name(
    alloc: Global,
    tables: &[TableDecl],
    places: &[PartPlace],
    node: u32,
) -> Result<PartName, Memory>
    ensures { IfOk result (λ name. name ≡ name_at tables.now (slice_get places.now node)) }
{
    match places.get(node as usize) {
        Some(place) => Ok(PartName {
            table: table_name(alloc, tables, place.table)?,
            part: place.part,
        }),
        None => Ok(PartName {
            table: Bytes::from_slice(alloc, b"")?,
            part: 0,
        }),
    }
}

fn table_name(alloc: Global, tables: &[TableDecl], table: u32) -> Result<Bytes, Memory>
    ensures { IfOk result (λ name. name ≡ name_of (slice_get tables.now table)) }
{
    match tables.get(table as usize) {
        Some(decl) => decl.schema.name.copy(),
        None => Bytes::from_slice(alloc, b""),
    }
}

/// The graph of a plan: its nodes and edges, and what it keeps.
pub(crate) fn graph_of(alloc: Global, plan: Plan) -> Result<PlanGraph, Memory>
    requires { length plan.edges + edges_kept plan.reserves ≤ 1024 }
    ensures { IfOk result (IsGraphOf plan) }
{
    let Plan {
        nodes,
        edges,
        reserves,
    } = plan;
    let kept = kinds_kept(alloc, reserves.as_slice())?;
    let ranks = ranks_of(alloc, nodes.as_slice(), kept.len())?;
    let reserves = reserves_of(alloc, nodes.len(), edges.len(), reserves.as_slice())?;
    Ok(PlanGraph {
        specs: specs_of(alloc, nodes)?,
        kept,
        form: GraphForm {
            ranks,
            wires: edges,
            reserves,
        },
    })
}

/// The kinds of the boxes that are kept, in the order of the reserves.
fn kinds_kept(alloc: Global, reserves: &[PlanReserve]) -> Result<List<Kind>, Memory>
    ensures { IfOk result (λ kinds. kinds ≡ kinds_reserved reserves.now) }
{
    let mut kinds = Vec::new(alloc);
    for reserve in reserves {
        kinds.extend_from_slice(reserve.kinds.as_slice())?;
    }
    Ok(List::from_vec(kinds))
}

/// The reserves, whose nodes and edges are numbered behind so many.
fn reserves_of(
    alloc: Global,
    nodes: usize,
    edges: usize,
    reserves: &[PlanReserve],
) -> Result<List<Reserve>, Memory>
    requires few_nodes { nodes + reserved_nodes reserves.now ≤ 256 }
    requires few_edges { edges + edges_kept reserves.now ≤ 1024 }
    ensures { IfOk result (λ all. all ≡ reserves_behind nodes edges reserves.now) }
{
    let mut all = Vec::new(alloc);
    let mut first_node = nodes as u32;
    let mut first_edge = edges as u32;
    for reserve in reserves {
        let kept = reserve.kinds.len() as u32;
        all.push(Reserve {
            node: reserve.node,
            first_node,
            nodes: kept,
            first_edge,
            edges: reserve.edges,
        })?;
        first_node += kept;
        first_edge += reserve.edges;
    }
    Ok(List::from_vec(all))
}

/// The ranks of the nodes, and those of so many that aren't born.
fn ranks_of(alloc: Global, nodes: &[PlanNode], unborn: usize) -> Result<List<u32>, Memory>
    ensures { IfOk result (λ ranks. ranks ≡ map (λ (n : PlanNode). n.rank) nodes.now
        ++ replicate unborn 0) }
{
    let mut ranks = Vec::new(alloc);
    for node in nodes {
        ranks.push(node.rank)?;
    }
    ranks.extend_from_slice(vec![in alloc; 0; unborn]?.as_slice())?;
    Ok(List::from_vec(ranks))
}

fn specs_of(alloc: Global, nodes: List<PlanNode>) -> Result<Vec<Spec>, Memory>
    ensures { IfOk result (λ specs. specs.items ≡ node_specs nodes) }
{
    Ok(
        nodes
            .into_vec()
            .into_iter()
            .map(|PlanNode { spec, .. }| spec)
            .collect(alloc)?,
    )
}
