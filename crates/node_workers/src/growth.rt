//! The cell of a node that grows, between two runs of it.
ghost use Rattle.std.specs.Prelude.{◌≡◌, ◌<◌, ◌≤◌, ◌-◌, ◌^◌, IfErr, IfOk, OnErr, OnOk, Some, drop, length, true};
ghost use Rattle.exec_laws.specs.declared.edges.DueCall.TheVariants.{Expand};
ghost use Rattle.exec_table.specs.Seats.{identity_of, sizes_in};
ghost use Rattle.exec_table.specs.Words.{edge_count};
ghost use Rattle.growth_notes.specs.Notes.{IsNoteOf};
ghost use Rattle.node_cells.specs.Turns.{IsAtWork, IsDue, IsStopped, Stays};
ghost use Rattle.node_workers.specs.Births.{HasGrown};
ghost use Rattle.node_workers.specs.Growths.{CellKnows, HasOwnOutputs, IsAsked, IsFlawless, IsLostGrower, MayEndGrowth, own_wires_in};
ghost use Rattle.node_workers.specs.NewNodes.{IsLost};
ghost use Rattle.node_workers.specs.Workers.{IsShared};
ghost use Rattle.node_workers.specs.declared.named_cell.CellNote.TheVariants.{Own};
ghost use Rattle.proc_api.specs.Forms.{growth_form};

use crate::named_cell::{NamedCell, Naming};
use crate::worker::Shared;
use chunk_data::{List, Memory};
use exec_laws::NodeStatus;
use exec_table::ExecTable;
use graph_checks::GrownGraph;
use growth_notes::GrowthNote;
use node_births::{NotedGrowth, ask_growth, check_own_growth, get_ports, take_growth};
use node_cells::{NodeCell, StopCause};
use port_word::Wire;
use proc_api::{Growth, Processor};
use std::alloc::Global;

/// Whether the growth names no node and no edge.
fn names_nothing(growth: &Growth) -> bool
    ensures nodes { result ≡ true → length (growth_form growth.now).specs ≡ 0 }
    ensures edges { result ≡ true → length (growth_form growth.now).edges ≡ 0 }
{
    growth.nodes.len() == 0 && growth.edges.len() == 0
}

/// A growth without a flaw, as it is to be noted, and the wires at its node and then its own.
#[derive(Drop)]
pub(crate) struct FlawlessGrowth {
    pub noted: NotedGrowth,
    pub wires: List<Wire>,
}

/// The node's processor says by what the graph is to grow. A growth with a flaw stops the run of
/// all.
pub(crate) fn ask_flawless<P: Processor>(
    alloc: Global,
    table: &ExecTable,
    cell: &mut NodeCell<P>,
) -> Result<FlawlessGrowth, StopCause>
    requires { IsAtWork P.seen (identity_of table.now) Expand cell.old }
    ensures ok { IfOk result (IsFlawless P.seen (identity_of table.now) cell.old cell.new) }
    ensures stays { IfErr result (λ s. Stays P.seen (Some s) cell.old cell.new) }
    ensures stop { IfErr result (λ s. IsStopped P.seen (identity_of table.now) s cell.new) }
{
    let growth = match ask_growth(table, cell) {
        Ok(growth) => growth,
        Err(fault) => return Err(StopCause::Fault(fault)),
    };
    match check_own_growth(alloc, cell, &growth) {
        Ok(Ok(grown)) => {
            let GrownGraph { places, wires } = grown;
            Ok(FlawlessGrowth {
                noted: NotedGrowth { growth, places },
                wires,
            })
        }
        Ok(Err(flaw)) => Err(StopCause::Flaw(flaw)),
        Err(Memory) => Err(StopCause::Memory),
    }
}

/// The node n, which has no own note and so no reserve, grows. Its growth names nothing, since that
/// has no flaw, and the node is to be prepared again.
pub(crate) fn grow_by_nothing<P: Processor, J: Naming>(
    growth: &FlawlessGrowth,
    n: u32,
    named: &mut NamedCell<P, J>,
) -> Result<(), Memory>
    requires { IsAsked J.names P.seen n growth.now named.old.cell named.old.note }
    ensures grown { OnOk result (HasGrown J.names P.seen n named.new.cell named.new.note) }
    ensures lost { OnErr result (IsLost J.names P.seen n named.new) }
{
    if names_nothing(&growth.noted.growth) {
        named.cell.mark.state = NodeStatus::Due;
        Ok(())
    } else {
        Err(Memory)
    }
}

/// The last so many of the wires.
pub(crate) fn last_wires(wires: &List<Wire>, count: usize) -> &[Wire]
    requires { count ≤ length wires.now }
    ensures { result.now ≡ drop (length wires.now - count) wires.now }
{
    let all = wires.as_slice();
    &all[all.len() - count..]
}

/// The node n, which has the own note of a reserve, notes its growth, and gets its outputs of that.
/// The edges of the wires are numbered from the reserve's next one on.
pub(crate) fn begin_growth<P: Processor, J: Naming>(
    shared: &Shared<P, J>,
    growth: &FlawlessGrowth,
    wires: &[Wire],
    n: u32,
    cell: &mut NodeCell<P>,
    note: &mut GrowthNote<NotedGrowth>,
) -> Result<(), Memory>
    requires shared { IsShared J.names shared.now }
    requires asked { IsAsked J.names P.seen n growth.now cell.old (Own note.old) }
    requires wires { wires.now ≡ own_wires_in growth.now }
    ensures note { IsNoteOf shared.now.notes note.new }
    ensures reserve { cell.new.reserve ≡ cell.old.reserve }
    ensures ok { OnOk result (HasOwnOutputs J.names P.seen n note.old growth.now wires.now
        cell.old.reserve.next_edge cell.new note.new) }
    ensures lost { OnErr result (IsLostGrower J.names P.seen n cell.new note.new) }
{
    let first = cell.reserve.next_edge;
    shared.notes.append(note, &growth.noted);
    match get_ports(&shared.table, cell, false, wires, first) {
        Ok(()) => Ok(()),
        Err(Memory) => Err(Memory),
    }
}

/// A law, as a function: all edges of a table have numbers.
fn law_of_edge_numbers(table: &ExecTable)
    ensures { edge_count (sizes_in table.now) < 2 ^ 32 }
{
    let _edges = table.edges;
}

/// The node n gets its inputs of the growth, which its reserve loses, and is due.
pub(crate) fn end_growth<P: Processor, J: Naming>(
    shared: &Shared<P, J>,
    wires: &[Wire],
    first: u32,
    places: &[u32],
    n: u32,
    cell: &mut NodeCell<P>,
    note: &GrowthNote<NotedGrowth>,
) -> Result<(), Memory>
    requires shared { IsShared J.names shared.now }
    requires may { MayEndGrowth J.names P.seen n wires.now first places.now cell.old note.now }
    ensures knows { OnOk result (CellKnows J.names P.seen n cell.new (Own note.now)) }
    ensures due { OnOk result (IsDue P.seen J.names.identity cell.new) }
    ensures acted { OnOk result ((P.seen cell.new.processor).notes.acted ≡ true) }
    ensures lost { OnErr result (IsLostGrower J.names P.seen n cell.new note.now) }
{
    match get_ports(&shared.table, cell, true, wires, first) {
        Ok(()) => {}
        Err(Memory) => return Err(Memory),
    }
    law_of_edge_numbers(&shared.table);
    take_growth(&mut cell.reserve, places, wires.len() as u32);
    cell.mark.state = NodeStatus::Due;
    Ok(())
}
