//! A new node gets its ports of a growth, and is born.
ghost use Rattle.std.specs.Prelude.{◌≡◌, ℕ, OnErr, OnOk};
ghost use Rattle.exec_laws.specs.declared.edges.NodeStatus.TheVariants.{Due};
ghost use Rattle.exec_table.specs.Seats.{sizes_in};
ghost use Rattle.growth_notes.specs.Notes.{IsNoteOf, noted};
ghost use Rattle.node_births.specs.MorePorts.{AreReservedWires};
ghost use Rattle.node_workers.specs.NewNodes.{AwaitsGrowth, EndsNote, HasNewOutputs, HasWires, IsLost, IsNewNode, MayBear, NotedStep};
ghost use Rattle.node_workers.specs.Workers.{IsShared};

use crate::named_cell::{CellNote, NamedCell, Naming};
use crate::worker::Shared;
use chunk_data::Memory;
use growth_notes::GrowthNote;
use node_births::{NotedGrowth, bear, get_ports};
use port_word::Wire;
use proc_api::Processor;
use query_model::processor_spec::Spec;
use task_queue::Placed;

/// The new node p gets a copy of the note, which ends with its growth, and its outputs among the
/// wires of that. Their edges are numbered from `first` on.
pub(crate) fn give_outputs<P: Processor, J: Naming>(
    shared: &Shared<P, J>,
    note: &mut GrowthNote<NotedGrowth>,
    wires: &[Wire],
    first: u32,
    p: u32,
    named: &mut NamedCell<P, J>,
) -> Result<(), Memory>
    requires shared { IsShared J.names shared.now }
    requires note { IsNoteOf shared.now.notes note.old }
    requires wires { AreReservedWires (sizes_in shared.now.table) first wires.now }
    requires named { AwaitsGrowth J.names P.seen p named.old }
    ensures note { IsNoteOf shared.now.notes note.new }
    ensures reserve { note.new.reserve ≡ note.old.reserve }
    ensures noted { noted note.new ≡ noted note.old }
    ensures ok { OnOk result ((g : NotedStep) (k : ℕ) → HasWires J.names g wires.now first
        → EndsNote g note.old → IsNewNode g k p → HasNewOutputs J.names P.seen g p named.new) }
    ensures lost { OnErr result ((g : NotedStep) (k : ℕ) → HasWires J.names g wires.now first
        → EndsNote g note.old → IsNewNode g k p → IsLost J.names P.seen p named.new) }
{
    named.note = CellNote::Copied(shared.notes.copy(note));
    match get_ports(&shared.table, &mut named.cell, false, wires, first) {
        Ok(()) => Ok(()),
        Err(Memory) => Err(Memory),
    }
}

/// The new node p gets its inputs among the wires of its growth, and is born: its processor is
/// loaded with the spec.
pub(crate) fn bear_new<P: Processor, J: Naming>(
    shared: &Shared<P, J>,
    wires: &[Wire],
    first: u32,
    spec: Spec,
    p: u32,
    named: &mut NamedCell<P, J>,
) -> Result<(), Memory>
    requires shared { IsShared J.names shared.now }
    requires wires { AreReservedWires (sizes_in shared.now.table) first wires.now }
    requires may { MayBear J.names P.seen wires.now first spec p named.old }
    ensures ok { OnOk result (⟦<NamedCell<P, J> as Placed>⟧.fits named.new p) }
    ensures due { OnOk result (named.new.cell.mark.state ≡ Due) }
    ensures lost { OnErr result (IsLost J.names P.seen p named.new) }
{
    match get_ports(&shared.table, &mut named.cell, true, wires, first) {
        Ok(()) => {}
        Err(Memory) => return Err(Memory),
    }
    match bear(&shared.table, &mut named.cell, spec) {
        Ok(()) => Ok(()),
        Err(Memory) => Err(Memory),
    }
}
