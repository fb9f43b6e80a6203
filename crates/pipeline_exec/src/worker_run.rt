//! A run of the cells of a new table: by workers that go by its ports, and then to its end.
ghost use Rattle.std.specs.Prelude.{◌≡◌, ◌<◌, ◌≢◌, ◌≤◌, [], IfNone, IfSome, None, Some, false, length, map, vec_capacity};
ghost use lib.ListN.{get_elem?};
ghost use mathlib.Core.Option.{some};
ghost use Rattle.exec_laws.specs.Ends.{GivenBack};
ghost use Rattle.exec_table.specs.Seats.{identity_of, sizes_in};
ghost use Rattle.node_cells.specs.declared.stop_cause.StopCause.TheVariants.{Memory};
ghost use Rattle.node_ends.specs.CellLists.{AreCells, AreCellsOfGraph, CellGraph, IsEndRoomFor, boxes_in};
ghost use Rattle.node_ends.specs.RunEnds.{BoxesStay};
ghost use Rattle.node_workers.specs.declared.named_cell.EndedCell.{EndedCell};
ghost use Rattle.pipeline_exec.specs.Ends.{Begun, ExecEndHolds, IsFaultEnd};
ghost use Rattle.pipeline_exec.specs.Gathering.{AreOfNotes};
ghost use Rattle.pipeline_exec.specs.WorkerRuns.{AreUnrun, AreUnstopped, HadMemory, HaveHadMemory, EndsAs, IsEndOf, IsStopEnd, IsStopFor, IsStoppedAt, IsUnrun, cell_of, processor_of};

use crate::gathering::{are_born_or_left, gather_notes};
use crate::run::ExecEnd;
use exec_table::ExecTable;
use growth_notes::GrowthNotes;
use node_births::NotedGrowth;
use node_cells::{Cells, NodeCell, StopCause};
use node_ends::{EndRoom, NodesEnd, end_nodes, new_end_room};
use node_workers::{Ended, EndedCell, NotStarted, run_cells};
use port_word::Reserve;
use proc_api::{Processor, WorkFault};
use std::alloc::Global;
use std::sync::Wait;
use std::thread::Threads;

/// Runs the cells of a new table by so many workers, and moves their processors into the room that
/// was made for them.
pub(crate) fn run_new_cells<P: Processor, R: Threads + Wait + Sync>(
    rt: &R,
    alloc: Global,
    new: Cells<P>,
    reserves: &[Reserve],
    boxes: &mut Vec<P>,
    workers: u32,
) -> ExecEnd
    requires some_workers { 1 ≤ workers }
    requires few_workers { workers ≤ 16 }
    requires unrun { AreUnrun P.seen workers new }
    requires reserves { reserves.now ≡ (sizes_in new.table).reserves }
    requires empty { boxes.old.items ≡ [] }
    requires room { length new.cells.items ≤ vec_capacity boxes.old }
    ensures back { GivenBack (boxes_in P.seen new.cells.items) (map P.seen boxes.new.items) }
    ensures end { (b : Begun) → IsUnrun P.seen b workers new
        → ExecEndHolds result b (map P.seen boxes.new.items) }
{
    let Cells {
        table,
        root,
        mut cells,
    } = new;
    let count = cells.len();
    let Ok(end_room) = new_end_room(alloc, &table, count) else {
        give_boxes(&mut cells, boxes);
        return ExecEnd::Memory;
    };
    let Ok(mut room) = Vec::with_capacity(alloc, count) else {
        give_boxes(&mut cells, boxes);
        return ExecEnd::Memory;
    };
    match run_cells(rt, alloc, table, root, cells, reserves, workers, count + 1) {
        Ok(ended) => {
            let Ended {
                table,
                notes,
                root: _,
                workers: _,
                mut cells,
            } = ended;
            let stop = stop_of(&notes, reserves, &mut cells);
            move_cells(cells, &mut room);
            let end = end_cells(rt, &table, stop, &mut room, end_room);
            give_boxes(&mut room, boxes);
            end
        }
        Err(
            NotStarted {
                table: _,
                root: _,
                mut cells,
            },
        ) => {
            give_boxes(&mut cells, boxes);
            ExecEnd::Memory
        }
    }
}

fn is_memory(stopped: Option<StopCause>) -> bool
    ensures { result ≡ false → stopped ≢ Some Memory }
{
    match stopped {
        Some(StopCause::Memory | StopCause::Fault(WorkFault::Memory)) => true,
        Some(StopCause::Fault(_) | StopCause::Flaw(_)) | None => false,
    }
}

/// Whether the run was stopped for want of memory at the node n.
fn is_short<P: Processor>(cells: &Vec<EndedCell<P>>, n: usize) -> bool
    requires { n < length cells.now.items }
    ensures { result ≡ false → (d : EndedCell P) → get_elem? cells.now.items n ≡ some d
        → HadMemory d }
{
    is_memory(cells[n].stopped)
}

/// Whether the run was stopped for want of memory at any node.
fn is_any_short<P: Processor>(cells: &Vec<EndedCell<P>>) -> bool
    ensures { result ≡ false → HaveHadMemory (length cells.now.items) cells.now.items }
{
    for n in 0..cells.len() {
        if is_short(cells, n) {
            return true;
        }
    }
    false
}

/// The first node at which the run was stopped, and why.
fn first_stop<P: Processor>(cells: &Vec<EndedCell<P>>) -> Option<(usize, StopCause)>
    ensures found { IfSome result (λ at. IsStoppedAt cells.now.items at.0 at.1) }
    ensures missing { IfNone result (AreUnstopped (length cells.now.items) cells.now.items) }
{
    for n in 0..cells.len() {
        match cells[n].stopped {
            Some(cause) => return Some((n, cause)),
            None => {}
        }
    }
    None
}

/// Why the run was stopped, and where, once all copies of notes were gathered: want of memory comes
/// first, under whatever node, and else the first node.
fn stop_of<P: Processor>(
    notes: &GrowthNotes<NotedGrowth>,
    reserves: &[Reserve],
    cells: &mut Vec<EndedCell<P>>,
) -> Option<(usize, StopCause)>
    requires notes { AreOfNotes notes.now.table.shared.table_id cells.old.items }
    ensures same { map cell_of cells.new.items ≡ map cell_of cells.old.items }
    ensures stop { IsStopFor reserves.now cells.old.items result }
{
    if is_any_short(cells) || !are_born_or_left(reserves, cells) {
        return Some((0, StopCause::Memory));
    }
    let stop = first_stop(cells);
    if !gather_notes(notes, reserves, cells) {
        return Some((0, StopCause::Memory));
    }
    stop
}

fn move_cells<P: Processor>(mut ended: Vec<EndedCell<P>>, cells: &mut Vec<NodeCell<P>>)
    requires empty { cells.old.items ≡ [] }
    requires room { length ended.items ≤ vec_capacity cells.old }
    ensures { cells.new.items ≡ map cell_of ended.items }
{
    ended.reverse();
    while let Some(last) = ended.pop() {
        let EndedCell {
            cell,
            note: _,
            stopped: _,
        } = last;
        cells.push_reserved(cell);
    }
    ended.destroy_empty();
}

fn fault_end(node: u32, fault: WorkFault) -> ExecEnd
    ensures { IsFaultEnd result node fault }
{
    match fault {
        WorkFault::Memory => ExecEnd::Memory,
        fault => ExecEnd::Fault(node, fault),
    }
}

/// The end of a run that was stopped at a node.
fn stop_end(node: u32, cause: StopCause) -> ExecEnd
    ensures { IsStopEnd node cause result }
{
    match cause {
        StopCause::Fault(fault) => fault_end(node, fault),
        StopCause::Flaw(flaw) => ExecEnd::BadGrowth(node, flaw),
        StopCause::Memory => ExecEnd::Memory,
    }
}

/// The end of a run that its caller went on with. No run comes to one that grows there, though no
/// clause says so: something is pending while a node asks for the graph to grow, and no worker ends
/// then.
fn exec_end(end: NodesEnd) -> ExecEnd
    ensures { IsEndOf end result }
{
    match end {
        NodesEnd::Done => ExecEnd::Done,
        NodesEnd::Stuck(report, node) => ExecEnd::Stuck(report, node),
        NodesEnd::Fault(node, fault) => fault_end(node, fault),
        NodesEnd::Grows(_) => ExecEnd::Memory,
    }
}

/// The end of the run, after its workers.
fn end_cells<P: Processor, R: Wait>(
    rt: &R,
    table: &ExecTable,
    stop: Option<(usize, StopCause)>,
    cells: &mut Vec<NodeCell<P>>,
    room: EndRoom<P>,
) -> ExecEnd
    requires few { IfSome stop (λ at. at.0 ≤ 256) }
    requires cells { IfNone stop
        (AreCellsOfGraph P.seen (identity_of table.now) cells.old.items) }
    requires room { IsEndRoomFor (identity_of table.now) (length cells.old.items) room }
    ensures stopped { IfSome stop (λ at.
        IsStopEnd at.0 at.1 result × (cells.new.items ≡ cells.old.items)) }
    ensures back { IfNone stop
        (BoxesStay (boxes_in P.seen cells.old.items) (boxes_in P.seen cells.new.items)) }
    ensures end { IfNone stop ((g : CellGraph)
        → AreCells P.seen (identity_of table.now) g cells.old.items
        → EndsAs g.wires (boxes_in P.seen cells.old.items) (boxes_in P.seen cells.new.items)
        result) }
{
    match stop {
        Some((n, cause)) => stop_end(n as u32, cause),
        None => exec_end(end_nodes(rt, table, cells, room)),
    }
}

/// Moves the processors out of the cells.
fn give_boxes<P: Processor>(cells: &mut Vec<NodeCell<P>>, boxes: &mut Vec<P>)
    requires empty { boxes.old.items ≡ [] }
    requires room { length cells.old.items ≤ vec_capacity boxes.old }
    ensures { boxes.new.items ≡ map processor_of cells.old.items }
{
    cells.reverse();
    while let Some(cell) = cells.pop() {
        let NodeCell {
            processor,
            mark: _,
            ports: _,
            seat: _,
            reserve: _,
        } = cell;
        boxes.push_reserved(processor);
    }
}
