//! The run goes on to its end.
ghost use Rattle.std.specs.Prelude.{◌≡◌, ◌<◌, ◌≤◌, [], IfErr, IfOk, OnOk, length, slice_index_or, vec_capacity, false, true};
ghost use Rattle.exec_laws.specs.Names.{is_waiting};
ghost use Rattle.exec_table.specs.Seats.{identity_of};
ghost use Rattle.std.specs.Result.{result_err};
ghost use Rattle.node_cells.specs.Stored.{IsStored};
ghost use Rattle.node_cells.specs.Visits.{LeavesCell};
ghost use Rattle.node_ends.specs.CellLists.{AreAtRest, AreCells, AreCellsOfGraph, CellGraph, IsEndRoomFor, IsSettled, IsSurveyRoom, boxes_in, wholes_of};
ghost use Rattle.node_ends.specs.RunEnds.{AreStoppedAt, AreVisited, BoxesStay, IsSettledEnd, KeepsCause, NodesEndHolds, SettledEndHolds, stop_cause_of};
ghost use Rattle.task_queue.specs.Queues.{IsPassOf};

use crate::cells_survey::{SurveyRoom, new_survey_room, survey_cells};
use crate::resting::{first_unlawful, list_stuck};
use chunk_data::{List, Memory};
use crossbeam_utils::Backoff;
use exec_laws::{NodeStatus, StuckNode};
use exec_table::ExecTable;
use node_cells::{NodeCell, RunEnd, visit_node};
use proc_api::{Processor, WorkFault};
use std::alloc::Global;
use std::sync::Wait;
use task_queue::{TaskQueue, WorkerTasks};

/// How the run of a graph ended.
#[derive(Drop)]
pub enum NodesEnd {
    /// All nodes are over, and the chunks pulled at each edge are those pushed, but for what a
    /// consumer closed.
    Done,
    /// Nothing is pending, and these nodes aren't over; the box of the named one isn't lawful.
    Stuck(List<StuckNode>, u32),
    /// The box of this node answered this fault.
    Fault(u32, WorkFault),
    /// The box of this node asks for the graph to grow, which is for workers to do.
    Grows(u32),
}

/// Why the run ends at a node before nothing is pending.
#[derive(Drop)]
pub(crate) enum EndCause {
    Fault(WorkFault),
    /// The graph is to grow by the node.
    Growth,
}

/// What the end of a run needs, made before the run so that its end wants no memory.
#[derive(Drop)]
pub struct EndRoom<P> {
    pub survey: SurveyRoom<P>,
    pub report: Vec<StuckNode>,
    /// The words of the table tell which nodes are charged, so that nothing is taken out of it.
    pub queue: TaskQueue,
    pub tasks: WorkerTasks,
}

/// Room for the end of the run of a graph of so many nodes.
pub fn new_end_room<P: Drop>(
    alloc: Global,
    table: &ExecTable,
    nodes: usize,
) -> Result<EndRoom<P>, Memory>
    ensures { IfOk result (λ room. IsEndRoomFor (identity_of table.now) nodes room) }
{
    let survey = new_survey_room(alloc, table, nodes)?;
    let report = Vec::with_capacity(alloc, nodes)?;
    let (queue, pass) = TaskQueue::make(alloc, 1)?;
    Ok(EndRoom {
        survey,
        report,
        queue,
        tasks: WorkerTasks::new(pass),
    })
}

fn is_nothing_pending(words: &[u64]) -> bool
    ensures { result ≡ true → slice_index_or words.now 0 0 ≡ 0 }
{
    words.len() == 0 || words[0] == 0
}

/// Whether the node rests, is over or isn't born.
fn is_at_rest(state: NodeStatus) -> bool
    ensures { result ≡ true → is_waiting state ≡ false }
{
    match state {
        NodeStatus::Resting | NodeStatus::Over | NodeStatus::Unborn => true,
        NodeStatus::Due | NodeStatus::AtWork(_) => false,
    }
}

fn are_at_rest<P: Processor>(cells: &Vec<NodeCell<P>>) -> bool
    ensures { result ≡ true → AreAtRest cells.now.items }
{
    for n in 0..cells.len() {
        if !is_at_rest(cells[n].mark.state) {
            return false;
        }
    }
    true
}

/// Whether nothing is pending, and no node is due or at work.
fn is_settled<P: Processor>(cells: &Vec<NodeCell<P>>, words: &[u64]) -> bool
    ensures pending { result ≡ true → slice_index_or words.now 0 0 ≡ 0 }
    ensures rest { result ≡ true → AreAtRest cells.now.items }
{
    is_nothing_pending(words) && are_at_rest(cells)
}

/// Pauses where a node waits for its device.
fn pause_if_waiting<P: Processor>(backoff: &Backoff, cells: &Vec<NodeCell<P>>) {
    if !are_at_rest(cells) {
        backoff.snooze();
    }
}

/// Whether a visit is due of a node in this state: one at rest is due where it was charged.
fn is_due(state: NodeStatus, is_charged: bool) -> bool {
    match state {
        NodeStatus::Resting => is_charged,
        NodeStatus::Due | NodeStatus::AtWork(_) => true,
        NodeStatus::Over | NodeStatus::Unborn => false,
    }
}

/// Takes up the node of a cell, if the run left it due. Where the graph is to grow by it the run
/// ends: workers grow a graph, before they end.
fn visit<P: Processor, R: Wait>(
    rt: &R,
    table: &ExecTable,
    queue: &TaskQueue,
    tasks: &mut WorkerTasks,
    cell: &mut NodeCell<P>,
    is_charged: bool,
) -> Result<(), EndCause>
    requires pass { IsPassOf queue.now tasks.old.pass }
    requires cell { IsStored P.seen (identity_of table.now) cell.old }
    ensures pass { IsPassOf queue.now tasks.new.pass }
    ensures leaves { LeavesCell P.seen (identity_of table.now) (stop_cause_of (result_err result))
        cell.old cell.new }
    ensures stop { IfErr result (λ s. KeepsCause s (P.seen cell.new.processor)) }
{
    if !is_due(cell.mark.state, is_charged) {
        return Ok(());
    }
    match visit_node(rt, table, queue, tasks, cell) {
        Ok(RunEnd::Grows) => Err(EndCause::Growth),
        Ok(RunEnd::Rests | RunEnd::Waits) => Ok(()),
        Err(fault) => Err(EndCause::Fault(fault)),
    }
}

/// Takes up the node n, if the run left it due.
fn visit_at<P: Processor, R: Wait>(
    rt: &R,
    table: &ExecTable,
    queue: &TaskQueue,
    tasks: &mut WorkerTasks,
    cells: &mut Vec<NodeCell<P>>,
    n: usize,
    is_charged: bool,
) -> Result<(), EndCause>
    requires pass { IsPassOf queue.now tasks.old.pass }
    requires in_range { n < length cells.old.items }
    requires cells { AreCellsOfGraph P.seen (identity_of table.now) cells.old.items }
    ensures pass { IsPassOf queue.now tasks.new.pass }
    ensures ok { OnOk result
        (AreVisited P.seen (identity_of table.now) cells.old.items cells.new.items) }
    ensures stop { IfErr result (λ s. AreStoppedAt P.seen n s cells.old.items cells.new.items) }
{
    visit(rt, table, queue, tasks, &mut cells[n], is_charged)
}

/// Takes up each node that the run left due. A node at rest is due where its word isn't 0.
fn visit_all<P: Processor, R: Wait>(
    rt: &R,
    table: &ExecTable,
    queue: &TaskQueue,
    tasks: &mut WorkerTasks,
    cells: &mut Vec<NodeCell<P>>,
    words: &[u64],
) -> Result<(), (usize, EndCause)>
    requires pass { IsPassOf queue.now tasks.old.pass }
    requires cells { AreCellsOfGraph P.seen (identity_of table.now) cells.old.items }
    ensures pass { IsPassOf queue.now tasks.new.pass }
    ensures ok { OnOk result
        (AreVisited P.seen (identity_of table.now) cells.old.items cells.new.items) }
    ensures stop { IfErr result
        (λ at. AreStoppedAt P.seen at.0 at.1 cells.old.items cells.new.items) }
{
    for n in 0..cells.len() {
        let is_charged = n + 1 < words.len() && words[n + 1] != 0;
        match visit_at(rt, table, queue, tasks, cells, n, is_charged) {
            Ok(()) => {}
            Err(stop) => return Err((n, stop)),
        }
    }
    Ok(())
}

/// Goes on until a survey finds nothing pending, or the run ends at a node.
fn settle<P: Processor, R: Wait>(
    rt: &R,
    table: &ExecTable,
    queue: &TaskQueue,
    tasks: &mut WorkerTasks,
    cells: &mut Vec<NodeCell<P>>,
    room: &mut SurveyRoom<P>,
) -> Result<(), (usize, EndCause)>
    requires pass { IsPassOf queue.now tasks.old.pass }
    requires cells { AreCellsOfGraph P.seen (identity_of table.now) cells.old.items }
    requires room { IsSurveyRoom (identity_of table.now) (length cells.old.items) room.old }
    ensures settled { OnOk result ((g : CellGraph)
        → AreCells P.seen (identity_of table.now) g cells.old.items
        → IsSettled g (wholes_of P.seen g cells.new.items)) }
    ensures visited { OnOk result
        (AreVisited P.seen (identity_of table.now) cells.old.items cells.new.items) }
    ensures stop { IfErr result
        (λ at. AreStoppedAt P.seen at.0 at.1 cells.old.items cells.new.items) }
{
    let backoff = Backoff::new();
    for _ in rt.forever() {
        survey_cells(table, cells, room);
        if is_settled(cells, room.words.as_slice()) {
            return Ok(());
        }
        match visit_all(rt, table, queue, tasks, cells, room.words.as_slice()) {
            Ok(()) => {}
            Err(at) => return Err(at),
        }
        pause_if_waiting(&backoff, cells);
    }
    unreachable!()
}

/// The end of a run in which nothing is pending.
fn settled_end<P: Processor>(cells: &Vec<NodeCell<P>>, report: Vec<StuckNode>) -> NodesEnd
    requires settled { (g : CellGraph) × IsSettled g (wholes_of P.seen g cells.now.items) }
    requires few { length cells.now.items ≤ 256 }
    requires empty { report.items ≡ [] }
    requires room { length cells.now.items ≤ vec_capacity report }
    ensures { (g : CellGraph) → IsSettled g (wholes_of P.seen g cells.now.items)
        → SettledEndHolds result g.wires (boxes_in P.seen cells.now.items) }
{
    let mut report = report;
    match first_unlawful(cells) {
        Some(n) => {
            list_stuck(&mut report, cells);
            NodesEnd::Stuck(List::from_vec(report), n as u32)
        }
        None => NodesEnd::Done,
    }
}

/// Ends the run of a graph, after its workers. The room was made before, so that no end wants
/// memory.
pub fn end_nodes<P: Processor, R: Wait>(
    rt: &R,
    table: &ExecTable,
    cells: &mut Vec<NodeCell<P>>,
    room: EndRoom<P>,
) -> NodesEnd
    requires cells { AreCellsOfGraph P.seen (identity_of table.now) cells.old.items }
    requires room { IsEndRoomFor (identity_of table.now) (length cells.old.items) room }
    ensures back { BoxesStay (boxes_in P.seen cells.old.items) (boxes_in P.seen cells.new.items) }
    ensures end { (g : CellGraph) → AreCells P.seen (identity_of table.now) g cells.old.items
        → NodesEndHolds result g.wires (boxes_in P.seen cells.old.items)
        (boxes_in P.seen cells.new.items) }
    ensures quiet { IsSettledEnd result → (g : CellGraph)
        → AreCells P.seen (identity_of table.now) g cells.old.items
        → IsSettled g (wholes_of P.seen g cells.new.items) }
{
    let EndRoom {
        mut survey,
        report,
        queue,
        mut tasks,
    } = room;
    match settle(rt, table, &queue, &mut tasks, cells, &mut survey) {
        Ok(()) => settled_end(cells, report),
        Err((n, EndCause::Fault(fault))) => NodesEnd::Fault(n as u32, fault),
        Err((n, EndCause::Growth)) => NodesEnd::Grows(n as u32),
    }
}
