//! A worker runs a node: turn after turn, until its cell may go home.
ghost use Rattle.std.specs.Prelude.{◌<◌, IfErr, IfOk};
ghost use Rattle.exec_table.specs.Seats.{identity_of};
ghost use Rattle.task_queue.specs.Queues.{IsPassOf};
ghost use Rattle.task_queue.specs.Tasks.{IsOfferedNext, SharesNumber};
ghost use Rattle.node_cells.specs.Stops.{stop_of};
ghost use Rattle.node_cells.specs.Turns.{Fetches, FollowsAnswer, GoesOn, IsAtWork, IsCarried, IsDue, IsPrepared, IsStopped, KeepsProcessor, Queues, RunEndHolds, Stays, TakesTurns};
ghost use Rattle.node_cells.specs.Visits.{Resumes};
ghost use Rattle.exec_laws.specs.declared.edges.DueCall.TheVariants.{Schedule};
ghost use Rattle.node_cells.specs.declared.stop_cause.StopCause.TheVariants.{Fault};

use crate::calls::{schedule, work};
use crate::cell::NodeCell;
use crate::node_word::{carry, leave, rest};
use crate::preparation::prepare;
use exec_table::ExecTable;
use node_ports::Carry;
use proc_api::{Processor, Status, Wake, WorkFault};
use std::sync::Wait;
use task_queue::{TaskQueue, WorkerTasks};

/// What the run of a node came to.
#[derive(Clone, Copy, PartialEq, Eq, Drop)]
pub enum RunEnd {
    /// It rests or is over.
    Rests,
    /// Its device has nothing yet: it is to be queued again.
    Waits,
    /// The graph is to grow by what its processor says.
    Grows,
}

/// Whether a node that answered so rests or is over, unless a port changes meanwhile.
fn is_done_for_now(status: Status) -> bool {
    match status {
        Status::NeedData | Status::PortFull | Status::Finished => true,
        Status::Ready | Status::Async | Status::ExpandPipeline => false,
    }
}

/// Whether a worker goes on with a peer once this node rests: with one behind it, for which a chunk
/// may be in its cache. Nodes are numbered from the sources on.
fn goes_on(node: u32, peer: u32, status: Status) -> bool {
    node < peer && is_done_for_now(status)
}

/// The worker has a call of this node's processor to make: a node with which it was to go on is
/// left to the others.
fn share_before_calls<R: Wait>(rt: &R, queue: &TaskQueue, tasks: &mut WorkerTasks, status: Status)
    requires pass { IsPassOf queue.now tasks.old.pass }
    ensures pass { IsPassOf queue.now tasks.new.pass }
    ensures shares { SharesNumber tasks.old tasks.new }
{
    if !is_done_for_now(status) {
        tasks.share_next(rt, queue);
    }
}

/// Offers a node that was charged.
fn offer_peer<R: Wait>(rt: &R, queue: &TaskQueue, tasks: &mut WorkerTasks, n: u32, goes_on: bool)
    requires pass { IsPassOf queue.now tasks.old.pass }
    requires few { n < 256 }
    ensures pass { IsPassOf queue.now tasks.new.pass }
    ensures offered { IsOfferedNext queue.now n tasks.old tasks.new }
{
    if goes_on {
        tasks.offer_next(rt, queue, n);
    } else {
        tasks.offer(rt, queue, n);
    }
}

/// Carries out all that waits in the view, and offers each node that was charged to the queue.
fn carry_all<P: Processor, R: Wait>(
    rt: &R,
    table: &ExecTable,
    queue: &TaskQueue,
    tasks: &mut WorkerTasks,
    cell: &mut NodeCell<P>,
    status: Status,
)
    requires pass { IsPassOf queue.now tasks.old.pass }
    requires cell { IsPrepared P.seen (identity_of table.now) cell.old status }
    ensures keeps { KeepsProcessor cell.old cell.new }
    ensures pass { IsPassOf queue.now tasks.new.pass }
    ensures cell { IsCarried P.seen (identity_of table.now) cell.new status }
    ensures queued { Queues (identity_of table.now) queue.now cell.old cell.new
        tasks.old tasks.new }
{
    for _ in rt.forever() {
        match carry(table, cell, status) {
            Carry::Done => {
                share_before_calls(rt, queue, tasks, status);
                return;
            }
            Carry::Told => {}
            Carry::Charged(n) => {
                offer_peer(rt, queue, tasks, n, goes_on(cell.seat.node, n, status));
            }
        }
    }
    unreachable!()
}

/// A step of work with a device, and the work after its last one.
fn fetch<P: Processor>(
    table: &ExecTable,
    cell: &mut NodeCell<P>,
) -> Result<Option<RunEnd>, WorkFault>
    requires { IsAtWork P.seen (identity_of table.now) Schedule cell.old }
    ensures stays { Stays P.seen (stop_of result) cell.old cell.new }
    ensures fetches { Fetches (stop_of result) (P.seen cell.old.processor)
        (P.seen cell.new.processor) }
    ensures ok { IfOk result (λ end. GoesOn P.seen (identity_of table.now) end cell.new) }
    ensures fault { IfErr result
        (λ f. IsStopped P.seen (identity_of table.now) (Fault f) cell.new) }
{
    match schedule(table, cell) {
        Ok(Wake::Later) => Ok(Some(RunEnd::Waits)),
        Ok(Wake::Ready) => match work(table, cell) {
            Ok(()) => Ok(None),
            Err(fault) => Err(fault),
        },
        Err(fault) => Err(fault),
    }
}

/// What follows the answer of a node whose actions were carried out: the end of its run, or a
/// further turn.
fn follow<P: Processor>(
    table: &ExecTable,
    cell: &mut NodeCell<P>,
    status: Status,
) -> Result<Option<RunEnd>, WorkFault>
    requires { IsCarried P.seen (identity_of table.now) cell.old status }
    ensures stays { Stays P.seen (stop_of result) cell.old cell.new }
    ensures follows { FollowsAnswer status (stop_of result) (P.seen cell.old.processor)
        (P.seen cell.new.processor) }
    ensures ok { IfOk result (λ end. GoesOn P.seen (identity_of table.now) end cell.new) }
    ensures fault { IfErr result
        (λ f. IsStopped P.seen (identity_of table.now) (Fault f) cell.new) }
{
    match status {
        Status::NeedData | Status::PortFull => {
            if rest(table, cell, status) {
                Ok(Some(RunEnd::Rests))
            } else {
                Ok(None)
            }
        }
        Status::Finished => {
            leave(table, cell, status);
            Ok(Some(RunEnd::Rests))
        }
        Status::Ready => match work(table, cell) {
            Ok(()) => Ok(None),
            Err(fault) => Err(fault),
        },
        Status::Async => fetch(table, cell),
        Status::ExpandPipeline => Ok(Some(RunEnd::Grows)),
    }
}

/// Runs a due node until its cell may go home, or a call of its processor answers a fault.
pub fn run_node<P: Processor, R: Wait>(
    rt: &R,
    table: &ExecTable,
    queue: &TaskQueue,
    tasks: &mut WorkerTasks,
    cell: &mut NodeCell<P>,
) -> Result<RunEnd, WorkFault>
    requires pass { IsPassOf queue.now tasks.old.pass }
    requires cell { IsDue P.seen (identity_of table.now) cell.old }
    ensures pass { IsPassOf queue.now tasks.new.pass }
    ensures stays { Stays P.seen (stop_of result) cell.old cell.new }
    ensures turns { TakesTurns P.seen (identity_of table.now) queue.now (stop_of result)
        cell.old cell.new tasks.old tasks.new }
    ensures ok { IfOk result (λ end. RunEndHolds P.seen (identity_of table.now) end cell.new) }
    ensures fault { IfErr result
        (λ f. IsStopped P.seen (identity_of table.now) (Fault f) cell.new) }
{
    for _ in rt.forever() {
        let status = prepare(table, cell);
        carry_all(rt, table, queue, tasks, cell, status);
        match follow(table, cell, status) {
            Ok(None) => {}
            Ok(Some(end)) => return Ok(end),
            Err(fault) => return Err(fault),
        }
    }
    unreachable!()
}

/// Goes on with a node between two steps of work with its device.
pub fn resume<P: Processor, R: Wait>(
    rt: &R,
    table: &ExecTable,
    queue: &TaskQueue,
    tasks: &mut WorkerTasks,
    cell: &mut NodeCell<P>,
) -> Result<RunEnd, WorkFault>
    requires pass { IsPassOf queue.now tasks.old.pass }
    requires cell { IsAtWork P.seen (identity_of table.now) Schedule cell.old }
    ensures pass { IsPassOf queue.now tasks.new.pass }
    ensures stays { Stays P.seen (stop_of result) cell.old cell.new }
    ensures resumes { Resumes P.seen (identity_of table.now) queue.now (stop_of result)
        cell.old cell.new tasks.old tasks.new }
    ensures ok { IfOk result (λ end. RunEndHolds P.seen (identity_of table.now) end cell.new) }
    ensures fault { IfErr result
        (λ f. IsStopped P.seen (identity_of table.now) (Fault f) cell.new) }
{
    match fetch(table, cell) {
        Ok(None) => run_node(rt, table, queue, tasks, cell),
        Ok(Some(end)) => Ok(end),
        Err(fault) => Err(fault),
    }
}
