//! A turn of a held node: it looks at its ports and is prepared.
ghost use Rattle.std.specs.Prelude.{◌≡◌, ◌<◌, true, false, None, Some, []};
ghost use Rattle.exec_table.specs.Seats.{identity_of, view};
ghost use Rattle.port_word.specs.Names.{IsAllFinished};
ghost use Rattle.proc_api.specs.Names.{AllOutputsFinished, FollowsKept, IsRunning};
ghost use Rattle.exec_laws.specs.Names.{LeavesView, NodeTurns, state_after};
ghost use Rattle.node_cells.specs.Cells.{cell_ports};
ghost use Rattle.node_cells.specs.Turns.{IsDue, IsPrepared, KeepsProcessor, Stays, turn_picture};

use crate::cell::NodeCell;
use exec_laws::{DueCall, NodeMark, NodeStatus};
use exec_table::ExecTable;
use node_ports::look_at_updated;
use port_word::PortView;
use proc_api::{Processor, Status, shut_down};

/// Where the processor has finished, leaves no port open. A lawful one leaves none itself.
pub fn shut_finished_ports(status: Status, view: &mut PortView)
    ensures { LeavesView status view.old view.new }
{
    if let Status::Finished = status {
        if !is_all_finished(view) {
            shut_down(view);
        }
    }
}

fn is_all_finished(view: &PortView) -> bool
    ensures yes { result ≡ true → IsAllFinished view.now }
    ensures denied { result ≡ false → IsAllFinished view.now → ⊥ }
{
    for i in 0..view.inputs() {
        if !view.in_finished(i) {
            return false;
        }
    }
    are_outputs_finished(view)
}

fn are_outputs_finished(view: &PortView) -> bool
    ensures yes { result ≡ true → AllOutputsFinished view.now }
    ensures denied { result ≡ false → AllOutputsFinished view.now → ⊥ }
{
    for o in 0..view.outputs() {
        if !view.out_finished(o) {
            return false;
        }
    }
    true
}

/// What comes next with a node whose processor answered so.
pub fn state_after(status: Status) -> NodeStatus
    ensures { result ≡ state_after status }
{
    match status {
        Status::NeedData | Status::PortFull => NodeStatus::Resting,
        Status::Ready => NodeStatus::AtWork(DueCall::Work),
        Status::ExpandPipeline => NodeStatus::AtWork(DueCall::Expand),
        Status::Async => NodeStatus::AtWork(DueCall::Schedule),
        Status::Finished => NodeStatus::Over,
    }
}

/// Prepares a node that has looked at its ports. What its processor did waits in the view.
fn prepare_box<P: Processor>(cell: &mut NodeCell<P>) -> Status
    requires running { IsRunning (P.seen cell.old.processor) }
    requires follows { FollowsKept (P.seen cell.old.processor) cell.old.ports.view }
    ensures turns { NodeTurns (turn_picture P.seen cell.old) (turn_picture P.seen cell.new) }
    ensures mark { cell.new.mark ≡ record { state = state_after result; last = Some result } }
    ensures ports { cell_ports cell.new
        ≡ record (cell_ports cell.old) { view = cell.new.ports.view } }
    ensures seat { cell.new.seat ≡ cell.old.seat }
    ensures reserve { cell.new.reserve ≡ cell.old.reserve }
    ensures growth { (P.seen cell.new.processor).growth ≡ (P.seen cell.old.processor).growth }
{
    let status = cell.processor.prepare(&mut cell.ports.view);
    shut_finished_ports(status, &mut cell.ports.view);
    cell.mark = NodeMark {
        state: state_after(status),
        last: Some(status),
    };
    status
}

/// Looks at the updated ports of a node that is due.
fn look_ports<P: Processor>(table: &ExecTable, cell: &mut NodeCell<P>)
    requires { IsDue P.seen (identity_of table.now) cell.old }
    ensures due { IsDue P.seen (identity_of table.now) cell.new }
    ensures looked { (view cell.new.seat).state.unlooked ≡ [] }
    ensures keeps { KeepsProcessor cell.old cell.new }
{
    look_at_updated(table, &mut cell.ports, &mut cell.seat);
}

/// The node looks at its updated ports and is prepared. What it did is yet to be carried out. As in
/// ClickHouse's `IProcessor.h`, a prepare works on ports alone, takes little time, and is never
/// made while the processor works.
pub fn prepare<P: Processor>(table: &ExecTable, cell: &mut NodeCell<P>) -> Status
    requires { IsDue P.seen (identity_of table.now) cell.old }
    ensures prepared { IsPrepared P.seen (identity_of table.now) cell.new result }
    ensures stays { Stays P.seen None cell.old cell.new }
{
    look_ports(table, cell);
    prepare_box(cell)
}
