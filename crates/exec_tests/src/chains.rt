// The cells of chains of boxes, told by texts.
ghost use Rattle.std.specs.Prelude.{◌≡◌, ◌≤◌, [], IfOk, OnOk, map};
ghost use Rattle.exec_table.specs.Seats.{identity_of, sizes_in};
ghost use Rattle.node_ends.specs.CellLists.{AreCellsOfGraph};
ghost use Rattle.node_workers.specs.Ended.{AreStored};
ghost use Rattle.node_workers.specs.Workers.{HasSpare};
ghost use Rattle.proc_api.specs.Clauses.{IsFresh};
ghost use Rattle.proc_api.specs.Reserves.{AreStarting};

use crate::driven::halves;
use crate::pipeline_exec_tests::{connect, loaded, place};
use crate::{csv_procs_tests, flow_procs_tests};
use exec_graph::GraphBuilder;
use node_cells::Cells;
use proc_api::Processor;
use query_model::processor_spec::Spec;
use std::alloc::Global;
use std::test::Fail;

// A box and what it is loaded with: a source of a file, or one of the kinds that pass rows on.
fn blank(alloc: Global, text: &str) -> Result<(Box<dyn Processor + Send>, Spec), Fail> {
    let (made, words) = halves(text, '/');
    if made.starts_with("csv") {
        let spec = csv_procs_tests::spec(alloc, made, words)?;
        return Ok((csv_procs_tests::blank(alloc, made)?, spec));
    }
    let spec = flow_procs_tests::spec(alloc, made, words)?;
    Ok((flow_procs_tests::blank(alloc, made)?, spec))
}

fn told_box(alloc: Global, text: &str) -> Result<Box<dyn Processor + Send>, Fail>
    ensures { IfOk result (λ b. IsFresh (seen b)) }
{
    let (mut b, spec) = match blank(alloc, text) {
        Ok(pair) => pair,
        Err(fail) => return Err(fail),
    };
    match b.load(spec) {
        Ok(()) => Ok(b),
        Err(_) => Err("a blank box was not loaded".into()),
    }
}

// The loaded box of a node: the test's own, or what the text tells.
fn box_of(
    alloc: Global,
    own: &mut Vec<Box<dyn Processor + Send>>,
    text: &str,
) -> Result<Box<dyn Processor + Send>, Fail>
    ensures { IfOk result (λ b. IsFresh (seen b)) }
{
    if text != "own" {
        return told_box(alloc, text);
    }
    match own.pop() {
        Some(b) => loaded(alloc, b),
        None => Err("a box is missing".into()),
    }
}

// Adds the node of a chain, joined to the one before it.
fn add_node(
    alloc: Global,
    builder: &mut GraphBuilder,
    own: &mut Vec<Box<dyn Processor + Send>>,
    node: u32,
    text: &str,
) -> Result<(), Fail>
    ensures { OnOk result
        (AreStarting builder.old.reserves (map (λ b. seen b) builder.old.boxes.items)
        → AreStarting builder.new.reserves (map (λ b. seen b) builder.new.boxes.items)) }
{
    let b = match box_of(alloc, own, text) {
        Ok(b) => b,
        Err(fail) => return Err(fail),
    };
    match place(builder, b, node) {
        Ok(()) => {}
        Err(fail) => return Err(fail),
    }
    if node == 0 {
        return Ok(());
    }
    connect(builder, node - 1, node)
}

/// The boxes of a chain, between which a `>` stands, each joined to the one before it. The test
/// gives the boxes that are told by `own`.
pub(crate) fn chain_of(
    alloc: Global,
    chain: &str,
    own: Vec<Box<dyn Processor + Send>>,
) -> Result<GraphBuilder, Fail>
    ensures { IfOk result (λ g. AreStarting g.reserves (map (λ b. seen b) g.boxes.items)) }
{
    let mut own = own;
    let mut builder = GraphBuilder::new(alloc);
    for (node, text) in chain.split('>').enumerate() {
        let node = u32::try_from(node).unwrap_or(0);
        add_node(alloc, &mut builder, &mut own, node, text)?;
    }
    Ok(builder)
}

/// The cells of a graph for which nothing is reserved, for so many workers.
pub(crate) fn cells_of(
    builder: GraphBuilder,
    workers: u32,
) -> Result<Cells<Box<dyn Processor + Send>>, Fail>
    requires starting { AreStarting builder.reserves (map (λ b. seen b) builder.boxes.items) }
    requires workers { (1 ≤ workers) × (workers ≤ 16) }
    ensures spare { IfOk result (λ c. HasSpare (identity_of c.table) workers c.root) }
    ensures bare { IfOk result (λ c. (sizes_in c.table).reserves ≡ []) }
    ensures stored { IfOk result
        (λ c. AreStored (λ b. seen b) (identity_of c.table) c.cells.items) }
    ensures cells { IfOk result
        (λ c. AreCellsOfGraph (λ b. seen b) (identity_of c.table) c.cells.items) }
{
    let Ok(graph) = builder.finish() else {
        return Err("a graph was not built".into());
    };
    if graph.reserves.len() > 0 {
        return Err("something is reserved".into());
    }
    match graph.into_cells(workers) {
        Ok(cells) => Ok(cells),
        Err(_) => Err("no cells were made".into()),
    }
}
