//! A node gets the ports of a growth: an unborn one, and the one that grows, whose processor says
//! by what.
ghost use Rattle.std.specs.Prelude.{◌≡◌, true, IfErr, IfOk, OnOk};
ghost use Rattle.proc_api.specs.Forms.{growth_form};
ghost use Rattle.exec_laws.specs.Names.{StaysBox};
ghost use Rattle.exec_laws.specs.declared.edges.DueCall.TheVariants.{Expand};
ghost use Rattle.exec_table.specs.Seats.{IsSeatOf, identity_of, sizes_in, view};
ghost use Rattle.node_cells.specs.Cells.{cell_ports};
ghost use Rattle.node_cells.specs.Turns.{IsAtWork, IsStopped};
ghost use Rattle.node_cells.specs.declared.stop_cause.StopCause.TheVariants.{Fault};
ghost use Rattle.node_births.specs.MorePorts.{AreReservedWires, MayGain};
ghost use Rattle.node_births.specs.Widened.{GetsPorts, IsGrowing, WidenedLaw};

use crate::more_ports::add_ports;
use chunk_data::Memory;
use exec_table::ExecTable;
use node_cells::NodeCell;
use port_word::Wire;
use proc_api::{Growth, Processor, WorkFault};

/// The node's processor says by what the graph is to grow.
pub fn ask_growth<P: Processor>(
    _table: &ExecTable,
    cell: &mut NodeCell<P>,
) -> Result<Growth, WorkFault>
    requires { IsAtWork P.seen (identity_of _table.now) Expand cell.old }
    ensures stays { StaysBox (P.seen cell.old.processor) (P.seen cell.new.processor) }
    ensures same { cell.new ≡ record cell.old { processor = cell.new.processor } }
    ensures grows { IfOk result (λ g. IsGrowing P.seen (identity_of _table.now) (growth_form g)
        cell.old cell.new) }
    ensures acted { IfOk result (λ g. (P.seen cell.new.processor).notes.acted ≡ true) }
    ensures growth { IfErr result (λ f.
        (P.seen cell.new.processor).growth ≡ (P.seen cell.old.processor).growth) }
    ensures fault { IfErr result
        (λ f. IsStopped P.seen (identity_of _table.now) (Fault f) cell.new) }
{
    match cell.processor.expand() {
        Ok(growth) => Ok(growth),
        Err(fault) => Err(fault),
    }
}

/// The node gets all its inputs, or all its outputs, among the wires of the edges from `first` on.
/// It sets the wires at its outputs, and those at its inputs have been set. After an error its
/// ports are nobody's: it comes for want of memory, or where an edge has another wire than this.
pub fn get_ports<P: Processor>(
    table: &ExecTable,
    cell: &mut NodeCell<P>,
    consumer: bool,
    wires: &[Wire],
    first: u32,
) -> Result<(), Memory>
    requires seat { IsSeatOf (identity_of table.now) cell.old.seat }
    requires may { MayGain (cell_ports cell.old) }
    requires wires { AreReservedWires (sizes_in table.now) first wires.now }
    ensures seat { IsSeatOf (identity_of table.now) cell.new.seat }
    ensures processor { cell.new.processor ≡ cell.old.processor }
    ensures mark { cell.new.mark ≡ cell.old.mark }
    ensures number { (view cell.new.seat).number ≡ (view cell.old.seat).number }
    ensures reserve { cell.new.reserve ≡ cell.old.reserve }
    ensures ok { OnOk result (GetsPorts P.seen (identity_of table.now) consumer first wires.now
        cell.old cell.new) }
{
    match add_ports(
        table,
        &mut cell.ports,
        &mut cell.seat,
        consumer,
        wires,
        first,
    ) {
        Ok(()) => Ok(()),
        Err(Memory) => Err(Memory),
    }
}

/// A law, as a function: a node that grew may be prepared again once it has all its new ports.
pub fn law_of_widened_cells<P: Processor>(_table: &ExecTable)
    ensures due { WidenedLaw P.seen (identity_of _table.now) }
{}
