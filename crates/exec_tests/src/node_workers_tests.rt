// Chains of boxes that workers run over the cells of their nodes: how each node ends and its rows.
ghost use Rattle.std.specs.Prelude.{◌≡◌, [], None, false, IfOk};
ghost use Rattle.exec_laws.specs.declared.edges.NodeStatus.TheVariants.{Over};
ghost use Rattle.exec_table.specs.Seats.{identity_of, sizes_in};
ghost use Rattle.exec_tests.specs.EndedCells.{AllLie, Lies};
ghost use Rattle.node_workers.specs.Runs.{MayRunCells};

use crate::chains::{cells_of, chain_of};
use crate::driven::{halves, show, show_fault};
use crate::scripted::{Role, make_box};
use chunk_data::Chunk;
use exec_laws::NodeStatus;
use exec_table::ExecTable;
use node_cells::{Cells, StopCause};
use node_workers::{Ended, EndedCell, run_cells};
use proc_api::Processor;
use query_model::processor_spec::Kind;
use std::alloc::Global;
use std::sync::Wait;
use std::test::Fail;
use std::thread::Threads;

// The rows that a node which is over gathered.
fn rows_of(_table: &ExecTable, ended: &mut EndedCell<Box<dyn Processor + Send>>) -> Vec<Chunk>
    requires lies { Lies (λ b. seen b) (identity_of _table.now) ended.old }
    requires whole { ended.old.stopped ≡ None }
    requires over { ended.old.cell.mark.state ≡ Over }
{
    take_rows(&mut ended.cell.processor)
}

fn take_rows(b: &mut Box<dyn Processor + Send>) -> Vec<Chunk>
    requires { (seen b.old).work.handed_out ≡ false }
{
    b.take_rows()
}

// How a node ended, and the rows that it gathered where it is over.
fn show_node(
    table: &ExecTable,
    ended: &mut EndedCell<Box<dyn Processor + Send>>,
    text: &mut String,
) -> Result<(), Fail>
    requires { Lies (λ b. seen b) (identity_of table.now) ended.old }
{
    text.push(' ')?;
    match ended.stopped {
        Some(StopCause::Fault(fault)) => show_fault(text, fault)?,
        Some(StopCause::Flaw(flaw)) => write!(text, "flaw {flaw:?}")?,
        Some(StopCause::Memory) => text.push_str("memory")?,
        None => match ended.cell.mark.state {
            NodeStatus::Resting => text.push_str("rests")?,
            NodeStatus::Over => {
                text.push_str("end")?;
                for chunk in rows_of(table, ended).as_slice() {
                    text.push('|')?;
                    show(text, chunk)?;
                }
            }
            _ => text.push_str("goes on")?,
        },
    }
    Ok(())
}

// How the nodes ended, the last one first.
fn show_nodes(alloc: Global, ended: Ended<Box<dyn Processor + Send>>) -> Result<String, Fail>
    requires { AllLie (λ b. seen b) ended }
{
    let Ended {
        table,
        root: _,
        workers: _,
        mut cells,
        notes: _,
    } = ended;
    let mut text = String::new(alloc);
    while let Some(mut cell) = cells.pop() {
        show_node(&table, &mut cell, &mut text)?;
    }
    Ok(text)
}

// Runs the cells by so many workers, over a queue with room for so many numbers.
fn run_by<R: AllocGlobal + Sync + Threads + Wait>(
    rt: &R,
    cells: Cells<Box<dyn Processor + Send>>,
    workers: u32,
    queued: usize,
) -> Result<Ended<Box<dyn Processor + Send>>, Fail>
    requires runnable { MayRunCells (λ b. seen b) (identity_of cells.table) cells.root
        cells.cells.items workers queued }
    requires bare { (sizes_in cells.table).reserves ≡ [] }
    ensures { IfOk result (AllLie (λ b. seen b)) }
{
    let Cells { table, root, cells } = cells;
    match run_cells(rt, rt.alloc(), table, root, cells, &[], workers, queued) {
        Ok(ended) => Ok(ended),
        Err(_) => Err("the run did not start".into()),
    }
}

// How the nodes end.
fn show_run<R: AllocGlobal + Sync + Threads + Wait>(
    rt: &R,
    cells: Cells<Box<dyn Processor + Send>>,
    workers: u32,
    queued: usize,
) -> Result<String, Fail>
    requires runnable { MayRunCells (λ b. seen b) (identity_of cells.table) cells.root
        cells.cells.items workers queued }
    requires bare { (sizes_in cells.table).reserves ≡ [] }
{
    match run_by(rt, cells, workers, queued) {
        Ok(ended) => show_nodes(rt.alloc(), ended),
        Err(fail) => Err(fail),
    }
}

static CHAINS: [&str; 6] = [
    "csv 0f 0 1\n6\n7\n8\n9\n/f i 2>Filter>Resize>Limit/2 0>Collect~ end|6 |7  end end end end",
    // The reader has nothing at its second call.
    "csv 2p 0 1\n6\n7\n/f i 2>Filter>Resize>Limit/9 0>Collect~ end|6 |7  end end end end",
    // A bad field, a reader that fails, and a fault in the middle of a chain.
    "csv 0f 0 6\nx\n/f i 1>Filter>Resize>Limit/9 0>Collect~ rests rests rests rests bad 2 1",
    "csv 2f 0 6\n/f i 1>Filter>Resize>Limit/9 0>Collect~ rests rests rests rests Read",
    "Numbers>Resize>own>Resize>Collect~ rests rests bad 1 of 2 rests rests",
    "own~ flaw TooManyNodes",
];

// The test's own box answers a fault at its first chunk, or grows where nothing is reserved.
#[test]
fn chains_end_alike_by_one_worker_and_by_four(rt: HostRuntime) -> Result<(), Fail> {
    for case in CHAINS {
        let (chain, expected) = halves(case, '~');
        let (kind, role) = if chain == "own" {
            (Kind::List, Role::Source)
        } else {
            (Kind::Csv, Role::Work)
        };
        for alone in [true, false] {
            let workers = if alone { 1 } else { 4 };
            let mut own: Vec<Box<dyn Processor + Send>> = Vec::new(rt.alloc());
            own.push(Box::new(rt.alloc(), make_box(rt, kind, role, 0)?)?)?;
            let builder = match chain_of(rt.alloc(), chain, own) {
                Ok(builder) => builder,
                Err(fail) => return Err(fail),
            };
            let cells = match cells_of(builder, workers) {
                Ok(cells) => cells,
                Err(fail) => return Err(fail),
            };
            let told = show_run(&rt, cells, workers, 9)?;
            assert_eq!(rt; told.as_str(), expected, "{case}");
        }
    }
    Ok(())
}

// What a full queue gives back stays with its worker.
#[test]
fn a_queue_of_one_serves_forty_nodes(rt: HostRuntime) -> Result<(), Fail> {
    let resizes = "Resize>".repeat(rt.alloc(), 38)?;
    let chain = format!(in rt.alloc(); "Numbers>{resizes}Collect")?;
    let ends = " end".repeat(rt.alloc(), 39)?;
    let expected = format!(in rt.alloc(); " end|0 1 |2 3 |4 {ends}")?;
    for workers in [1, 4] {
        let builder = match chain_of(rt.alloc(), chain.as_str(), Vec::new(rt.alloc())) {
            Ok(builder) => builder,
            Err(fail) => return Err(fail),
        };
        let cells = match cells_of(builder, workers) {
            Ok(cells) => cells,
            Err(fail) => return Err(fail),
        };
        let told = show_run(&rt, cells, workers, 1)?;
        assert_eq!(rt; told.as_str(), expected.as_str());
    }
    Ok(())
}
