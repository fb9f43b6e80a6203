//! A visit of a node whose cell lies on a shelf.
ghost use Rattle.std.specs.Prelude.{◌≡◌, IfOk};
ghost use Rattle.exec_table.specs.Seats.{identity_of};
ghost use Rattle.node_cells.specs.Stops.{stop_of};
ghost use Rattle.node_cells.specs.Stored.{IsStored};
ghost use Rattle.node_cells.specs.Visits.{LeavesCell, Visits, run_end_of};
ghost use Rattle.task_queue.specs.Queues.{IsPassOf};
ghost use Rattle.task_queue.specs.Tasks.{OffersNumbers};

use crate::cell::NodeCell;
use crate::node_run::{RunEnd, resume, run_node};
use crate::node_word::{begin, wake};
use exec_laws::{DueCall, NodeStatus};
use exec_table::ExecTable;
use proc_api::{Processor, WorkFault};
use std::sync::Wait;
use task_queue::{TaskQueue, WorkerTasks};

/// Runs the node of a stored cell, if it is due a visit, until the cell may go home, or a call of
/// its processor answers a fault. A node that is over or unborn is due none, and one by which the
/// graph is to grow waits for that.
pub fn visit_node<P: Processor, R: Wait>(
    rt: &R,
    table: &ExecTable,
    queue: &TaskQueue,
    tasks: &mut WorkerTasks,
    cell: &mut NodeCell<P>,
) -> Result<RunEnd, WorkFault>
    requires pass { IsPassOf queue.now tasks.old.pass }
    requires stored { IsStored P.seen (identity_of table.now) cell.old }
    ensures pass { IsPassOf queue.now tasks.new.pass }
    ensures offers { OffersNumbers queue.now tasks.old tasks.new }
    ensures leaves { LeavesCell P.seen (identity_of table.now) (stop_of result) cell.old cell.new }
    ensures visits { Visits P.seen (identity_of table.now) queue.now (stop_of result)
        cell.old cell.new tasks.old tasks.new }
    ensures end { IfOk result (λ end. end ≡ run_end_of cell.new.mark.state) }
{
    match cell.mark.state {
        NodeStatus::Due => {
            begin(table, cell);
            run_node(rt, table, queue, tasks, cell)
        }
        NodeStatus::Resting => {
            wake(table, cell);
            run_node(rt, table, queue, tasks, cell)
        }
        NodeStatus::AtWork(DueCall::Schedule) => resume(rt, table, queue, tasks, cell),
        NodeStatus::AtWork(DueCall::Expand) => Ok(RunEnd::Grows),
        NodeStatus::AtWork(DueCall::Work) => unreachable!(),
        NodeStatus::Over | NodeStatus::Unborn => Ok(RunEnd::Rests),
    }
}
