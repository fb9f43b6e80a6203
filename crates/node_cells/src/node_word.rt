//! What comes next with a node, by what its processor answered.
ghost use Rattle.std.specs.Prelude.{◌≡◌, ◌≢◌, ◌<◌, true, false, length};
ghost use Rattle.exec_table.specs.Seats.{IsSeatOf, identity_of, view};
ghost use Rattle.exec_laws.specs.declared.edges.NodeStatus.TheVariants.{Due, Over, Resting};
ghost use Rattle.node_ports.specs.Peers.{CarriesNext};
ghost use Rattle.node_ports.specs.declared.actions.Carry.TheVariants.{Done};
ghost use Rattle.node_cells.specs.Cells.{cell_ports};
ghost use Rattle.node_cells.specs.Turns.{AtHome, IsDue, KeepsProcessor, MayBegin, TakesBack, is_named_by, IsCarried, IsPrepared, RestsOrGoes};

use crate::cell::NodeCell;
use exec_laws::NodeStatus;
use exec_table::{ExecTable, NodeSeat, Rested, Updated};
use node_ports::{Carry, carry_next, merge_updated};
use proc_api::{Processor, Status};

/// Carries out the first action that waits.
pub fn carry<P: Processor>(table: &ExecTable, cell: &mut NodeCell<P>, status: Status) -> Carry
    requires { IsPrepared P.seen (identity_of table.now) cell.old status }
    ensures prepared { IsPrepared P.seen (identity_of table.now) cell.new status }
    ensures keeps { KeepsProcessor cell.old cell.new }
    ensures carries { CarriesNext (identity_of table.now) result (cell_ports cell.old)
        cell.new.ports cell.new.seat }
    ensures done { result ≡ Done → IsCarried P.seen (identity_of table.now) cell.new status }
    ensures fewer { result ≢ Done
        → length cell.new.ports.view.actions < length cell.old.ports.view.actions }
{
    carry_next(table, &mut cell.ports, &mut cell.seat)
}

/// The node leaves its turn for now, unless a port changed meanwhile: then it is to be prepared
/// again, as in `ExecutingGraph.h` a node whose port was updated while it was prepared is not left
/// idle. Says whether it left.
pub fn rest<P: Processor>(table: &ExecTable, cell: &mut NodeCell<P>, status: Status) -> bool
    requires carried { IsCarried P.seen (identity_of table.now) cell.old status }
    requires rests { cell.old.mark.state ≡ Resting }
    ensures rests { RestsOrGoes P.seen (identity_of table.now) result cell.new }
    ensures mark { result ≡ true → cell.new.mark.state ≡ Resting }
    ensures keeps { KeepsProcessor cell.old cell.new }
{
    match table.rest(&mut cell.seat) {
        Rested::Idle => {
            table.token_out(&mut cell.seat);
            true
        }
        Rested::UpdatedAgain => {
            let updated = table.again(&mut cell.seat);
            cell.ports.updated = merge_updated(cell.ports.updated, updated);
            cell.mark.state = NodeStatus::Due;
            false
        }
    }
}

/// The node has finished for good.
pub fn leave<P: Processor>(table: &ExecTable, cell: &mut NodeCell<P>, status: Status)
    requires carried { IsCarried P.seen (identity_of table.now) cell.old status }
    requires over { cell.old.mark.state ≡ Over }
    ensures home { AtHome P.seen (identity_of table.now) cell.new }
    ensures mark { cell.new.mark.state ≡ Over }
    ensures keeps { KeepsProcessor cell.old cell.new }
{
    table.over(&mut cell.seat);
    table.token_out(&mut cell.seat);
}

/// Whether a port is named, or the node begins for the first time.
fn is_named_by(updated: &Updated) -> bool
    ensures { result ≡ is_named_by updated.now }
{
    updated.inputs != 0 || updated.outputs != 0 || updated.first
}

/// Takes the token back, if that is due.
fn take_back(table: &ExecTable, seat: &mut NodeSeat, due: bool)
    requires seat { IsSeatOf (identity_of table.now) seat.old }
    requires one { due ≡ true → (view seat.old).state.tokens ≡ 1 }
    ensures { TakesBack (identity_of table.now) due seat.old seat.new }
{
    if due {
        table.token_out(seat);
    }
}

/// The node begins a turn. The token with which it begins is spent, or taken back.
pub fn begin<P: Processor>(table: &ExecTable, cell: &mut NodeCell<P>)
    requires { MayBegin P.seen (identity_of table.now) cell.old }
    ensures due { IsDue P.seen (identity_of table.now) cell.new }
    ensures keeps { KeepsProcessor cell.old cell.new }
{
    table.token_in(&mut cell.seat);
    let updated = table.begin(&mut cell.seat);
    take_back(table, &mut cell.seat, is_named_by(&updated));
    cell.ports.updated = merge_updated(cell.ports.updated, updated);
    cell.mark.state = NodeStatus::Due;
}

/// A node at rest begins a turn.
pub fn wake<P: Processor>(table: &ExecTable, cell: &mut NodeCell<P>)
    requires home { AtHome P.seen (identity_of table.now) cell.old }
    requires rests { cell.old.mark.state ≡ Resting }
    ensures due { IsDue P.seen (identity_of table.now) cell.new }
    ensures keeps { KeepsProcessor cell.old cell.new }
{
    begin(table, cell);
}
