// Chains of boxes that one caller runs, from the first step to the end.
ghost use Rattle.exec_table.specs.Seats.{identity_of};
ghost use Rattle.node_ends.specs.CellLists.{AreCellsOfGraph};

use crate::chains::{cells_of, chain_of};
use crate::driven::{halves, show_fault};
use crate::scripted::{Role, make_box};
use node_cells::Cells;
use node_ends::{NodesEnd, end_nodes, new_end_room};
use proc_api::Processor;
use query_model::processor_spec::Kind;
use std::alloc::Global;
use std::sync::Wait;
use std::test::Fail;

// The end, with the node that it names, and each node's last status where the run is stuck.
fn show_end(alloc: Global, end: NodesEnd) -> Result<String, Fail> {
    let mut text = String::new(alloc);
    match end {
        NodesEnd::Done => text.push_str("done")?,
        NodesEnd::Stuck(report, n) => {
            write!(text, "stuck at {n}:")?;
            for node in report.as_slice() {
                write!(text, " {} {:?}", node.node, node.last)?;
            }
        }
        NodesEnd::Fault(n, fault) => {
            write!(text, "fault at {n}: ")?;
            show_fault(&mut text, fault)?;
        }
        NodesEnd::Grows(n) => write!(text, "grows at {n}")?,
    }
    Ok(text)
}

// Runs the cells to the end.
fn end_of<R: AllocGlobal + Wait>(
    rt: &R,
    cells: Cells<Box<dyn Processor + Send>>,
) -> Result<NodesEnd, Fail>
    requires { AreCellsOfGraph (λ b. seen b) (identity_of cells.table) cells.cells.items }
{
    let Cells {
        table,
        root: _,
        mut cells,
    } = cells;
    match new_end_room(rt.alloc(), &table, cells.len()) {
        Ok(room) => Ok(end_nodes(rt, &table, &mut cells, room)),
        Err(_) => Err("there was no room".into()),
    }
}

static ENDS: [&str; 6] = [
    "csv 0f 0 1\n6\n7\n8\n9\n/f i 2>Filter>Resize>Limit/2 0>Collect~done",
    // The reader has nothing at its second call.
    "csv 2p 0 1\n6\n7\n/f i 2>Filter>Resize>Limit/9 0>Collect~done",
    "csv 0f 0 6\nx\n/f i 1>Filter>Resize>Limit/9 0>Collect~fault at 0: bad 2 1",
    "Numbers>Resize>own>Resize>Collect~fault at 2: bad 1 of 2",
    // The numbers are never asked for.
    "Numbers>own>Collect~stuck at 1: 0 Some(PortFull) 1 Some(NeedData) 2 Some(NeedData)",
    // Workers grow a graph, before they end.
    "own~grows at 0",
];

// The own boxes answer a fault, ask for nothing, and ask to grow.
#[test]
fn one_caller_runs_a_graph_to_its_end(rt: HostRuntime) -> Result<(), Fail> {
    for case in ENDS {
        let (chain, expected) = halves(case, '~');
        let (kind, role) = if chain == "own" {
            (Kind::List, Role::Source)
        } else if chain == "Numbers>own>Collect" {
            (Kind::Csv, Role::Balk)
        } else {
            (Kind::Csv, Role::Work)
        };
        let mut own: Vec<Box<dyn Processor + Send>> = Vec::new(rt.alloc());
        own.push(Box::new(rt.alloc(), make_box(rt, kind, role, 0)?)?)?;
        let builder = match chain_of(rt.alloc(), chain, own) {
            Ok(builder) => builder,
            Err(fail) => return Err(fail),
        };
        let end = match cells_of(builder, 1) {
            Ok(cells) => end_of(&rt, cells)?,
            Err(fail) => return Err(fail),
        };
        let told = show_end(rt.alloc(), end)?;
        assert_eq!(rt; told.as_str(), expected, "{case}");
    }
    Ok(())
}
