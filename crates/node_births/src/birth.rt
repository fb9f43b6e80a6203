//! An unborn node is born.
ghost use Rattle.std.specs.Prelude.{◌≡◌, OnErr, OnOk};
ghost use Rattle.exec_table.specs.Seats.{identity_of};
ghost use Rattle.node_births.specs.Newborn.{IsNewborn};
ghost use Rattle.node_cells.specs.Stored.{AwaitsBirth};

use chunk_data::Memory;
use exec_laws::{NodeMark, NodeStatus};
use exec_table::ExecTable;
use node_cells::NodeCell;
use proc_api::Processor;
use query_model::processor_spec::Spec;

/// The node is born with the ports that it has: its processor is loaded, and it is due. Its token
/// is spent on the charge. For want of memory it waits as before.
pub fn bear<P: Processor>(
    table: &ExecTable,
    cell: &mut NodeCell<P>,
    spec: Spec,
) -> Result<(), Memory>
    requires { AwaitsBirth P.seen (identity_of table.now) cell.old }
    ensures born { OnOk result (IsNewborn P.seen (identity_of table.now) spec cell.old cell.new) }
    ensures waits { OnErr result (AwaitsBirth P.seen (identity_of table.now) cell.new) }
    ensures unchanged { OnErr result (P.seen cell.new.processor ≡ P.seen cell.old.processor) }
    ensures same { OnErr result (cell.new ≡ record cell.old { processor = cell.new.processor }) }
{
    match cell.processor.load(spec) {
        Ok(()) => {}
        Err(_) => return Err(Memory),
    }
    table.token_in(&mut cell.seat);
    table.birth(&mut cell.seat);
    cell.mark = NodeMark {
        state: NodeStatus::Due,
        last: None,
    };
    Ok(())
}
