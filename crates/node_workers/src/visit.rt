//! A worker's visit of a node, whose cell lies at a place of the shelf that it claimed.
ghost use Rattle.std.specs.Prelude.{◌≡◌, ◌≢◌, IfOk, None};
ghost use Rattle.std.specs.Result.{result_err};
ghost use Rattle.core_laws.specs.Steps.{nothing};
ghost use Rattle.core_laws.specs.declared.types.Step.TheVariants as step;
ghost use Rattle.exec_table.specs.Seats.{IsWorkerOf, WorkerDoes, identity_of};
ghost use Rattle.node_cells.specs.Stored.{IsStored};
ghost use Rattle.node_cells.specs.Visits.{LeavesCell, Visits, run_end_of};
ghost use Rattle.node_workers.specs.Visits.{HasVisited, MayVisit, Stops, VisitsCell, visit_end};
ghost use Rattle.task_queue.specs.Queues.{IsPassOf};
ghost use Rattle.task_queue.specs.Tasks.{OffersNumbers};

use crate::named_cell::{NamedCell, Naming};
use exec_table::{ExecTable, WorkerSeat};
use node_cells::{NodeCell, RunEnd, StopCause, visit_node};
use proc_api::Processor;
use std::sync::Wait;
use task_queue::{Placed, TaskQueue, WorkerTasks};

/// Tells all workers to stop, where there is a cause.
pub(crate) fn stop_for(table: &ExecTable, seat: &mut WorkerSeat, cause: Option<StopCause>)
    requires { IsWorkerOf (identity_of table.now) seat.old }
    ensures seat { IsWorkerOf (identity_of table.now) seat.new }
    ensures told { cause ≢ None
        → WorkerDoes (identity_of table.now) seat.new step.Stop nothing }
{
    match cause {
        Some(_) => table.stop(seat),
        None => {}
    }
}

/// Runs the node of a stored cell, if it is due a visit.
fn visit_stored<P: Processor, R: Wait>(
    rt: &R,
    table: &ExecTable,
    queue: &TaskQueue,
    tasks: &mut WorkerTasks,
    cell: &mut NodeCell<P>,
) -> Result<RunEnd, StopCause>
    requires pass { IsPassOf queue.now tasks.old.pass }
    requires stored { IsStored P.seen (identity_of table.now) cell.old }
    ensures pass { IsPassOf queue.now tasks.new.pass }
    ensures offers { OffersNumbers queue.now tasks.old tasks.new }
    ensures leaves { LeavesCell P.seen (identity_of table.now) (result_err result)
        cell.old cell.new }
    ensures visits { Visits P.seen (identity_of table.now) queue.now (result_err result)
        cell.old cell.new tasks.old tasks.new }
    ensures end { IfOk result (λ end. end ≡ run_end_of cell.new.mark.state) }
{
    match visit_node(rt, table, queue, tasks, cell) {
        Ok(end) => Ok(end),
        Err(fault) => Err(StopCause::Fault(fault)),
    }
}

/// Visits a node: runs it if that is due, and stops the run of all after a fault; the cause is then
/// noted in the cell. Says what came of it. A node by which the graph is to grow waits for that.
pub fn visit_cell<P: Processor, J: Naming, R: Wait>(
    rt: &R,
    table: &ExecTable,
    queue: &TaskQueue,
    seat: &mut WorkerSeat,
    tasks: &mut WorkerTasks,
    named: &mut NamedCell<P, J>,
) -> RunEnd
    requires table { identity_of table.now ≡ J.names.identity }
    requires worker { MayVisit (identity_of table.now) queue.now seat.old tasks.old }
    requires fits { ⟦<NamedCell<P, J> as Placed>⟧.fits named.old named.old.cell.seat.node }
    ensures worker { HasVisited (identity_of table.now) queue.now seat.new tasks.old tasks.new }
    ensures fits { ⟦<NamedCell<P, J> as Placed>⟧.fits named.new named.old.cell.seat.node }
    ensures stops { Stops (identity_of table.now) seat.new named.old.stopped named.new.stopped }
    ensures visits { VisitsCell P.seen (identity_of table.now) queue.now named.old.stopped
        named.new.stopped named.old.cell named.new.cell tasks.old tasks.new }
    ensures end { result ≡ visit_end named.new.stopped named.new.cell.mark.state }
{
    match named.stopped {
        Some(_) => return RunEnd::Rests,
        None => {}
    }
    let ran = visit_stored(rt, table, queue, tasks, &mut named.cell);
    let cause = ran.err();
    named.stopped = cause;
    stop_for(table, seat, cause);
    ran.unwrap_or(RunEnd::Rests)
}
