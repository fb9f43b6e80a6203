//! What a node may still grow by, and whether a growth of it has a flaw.
ghost use Rattle.std.specs.Prelude.{◌≡◌, ◌<◌, ◌≤◌, ◌+◌, ◌^◌, ◌==◌, ◌++◌, ℕ, Some, None, IfErr, IfOk, filter, length};
ghost use Rattle.std.specs.List.{list_any};
ghost use Rattle.proc_api.specs.Forms.{growth_form};
ghost use Rattle.exec_laws.specs.Growths.{new_wires, places_for};
ghost use Rattle.graph_checks.specs.Flaws.{grown_kinds};
ghost use Rattle.node_cells.specs.Cells.{cell_ports};
ghost use Rattle.node_cells.specs.Stops.{own_flaw, wires_known};
ghost use Rattle.node_births.specs.Left.{LosesGrowth, is_left};
ghost use Rattle.node_ports.specs.Ports.{PortsHold};

use chunk_data::{List, Memory};
use exec_laws::{Blank, GrowthFlaw};
use graph_checks::{GrownGraph, check_growth_at, own_wires};
use node_cells::{NodeCell, NodeReserve};
use port_word::Wire;
use proc_api::{Growth, Processor};
use std::alloc::Global;

fn is_among(places: &[u32], node: u32) -> bool
    ensures { result ≡ list_any (λ (k : ℕ). k == node) places.now }
{
    places.iter().any(|k| *k == node)
}

/// Removes the blanks that lie at the places.
fn remove_blanks(blanks: &mut Vec<Blank>, places: &[u32])
    ensures { blanks.new.items ≡ filter (is_left places.now) blanks.old.items }
{
    blanks.retain(
        |b| -> bool
            ensures { result ≡ is_left places.entry.now b.now }
        { !is_among(places, b.node) },
    );
}

/// The node of the reserve grew by new nodes at these places and by so many edges.
pub fn take_growth(reserve: &mut NodeReserve, places: &[u32], edges: u32)
    requires room { edges ≤ reserve.old.edges }
    requires fits { reserve.old.next_edge + reserve.old.edges < 2 ^ 32 }
    ensures { LosesGrowth places.now edges reserve.old reserve.new }
{
    remove_blanks(&mut reserve.blanks, places);
    reserve.next_edge += edges;
    reserve.edges -= edges;
}

fn copy_blanks(alloc: Global, blanks: &[Blank]) -> Result<Vec<Blank>, Memory>
    ensures { IfOk result (λ copy. copy.items ≡ blanks.now) }
{
    let mut copy = Vec::with_capacity(alloc, blanks.len())?;
    copy.extend_from_slice(blanks)?;
    Ok(copy)
}

/// A law, as a function: a node has few ports.
fn law_of_few_ports<P: Processor>(cell: &NodeCell<P>)
    requires { PortsHold (cell_ports cell.now) }
    ensures inputs { length cell.now.ports.sources.items ≤ 32 }
    ensures outputs { length cell.now.ports.targets.items ≤ 32 }
{
    cell.ports.view.inputs();
    cell.ports.view.outputs();
}

/// The wires at the node, by the nodes at its ports.
fn known_wires<P: Processor>(alloc: Global, cell: &NodeCell<P>) -> Result<List<Wire>, Memory>
    requires { PortsHold (cell_ports cell.now) }
    ensures { IfOk result (λ own. own ≡ wires_known cell.now) }
{
    law_of_few_ports(cell);
    own_wires(
        alloc,
        cell.seat.node,
        cell.ports.sources.as_slice(),
        cell.ports.targets.as_slice(),
    )
}

/// The first flaw of the growth that the node's processor gave, by what the node itself knows: its
/// reserve and the nodes at its ports. Without one, where the new nodes lie and the wires at the
/// node and of the growth, in this order.
pub fn check_own_growth<P: Processor>(
    alloc: Global,
    cell: &NodeCell<P>,
    growth: &Growth,
) -> Result<Result<GrownGraph, GrowthFlaw>, Memory>
    requires { PortsHold (cell_ports cell.now) }
    ensures flaw { IfOk result
        (λ r. IfErr r (λ f. own_flaw cell.now (growth_form growth.now) ≡ Some f)) }
    ensures none { IfOk result
        (λ r. IfOk r (λ g. own_flaw cell.now (growth_form growth.now) ≡ None)) }
    ensures places { IfOk result (λ r. IfOk r (λ g. g.places.items ≡ places_for
        (grown_kinds growth.now.nodes) cell.now.reserve.blanks.items cell.now.reserve.nodes)) }
    ensures wires { IfOk result (λ r. IfOk r (λ g. g.wires ≡ wires_known cell.now
        ++ new_wires cell.now.seat.node g.places.items growth.now.edges)) }
{
    let wires = known_wires(alloc, cell)?;
    let blanks = copy_blanks(alloc, cell.reserve.blanks.as_slice())?;
    check_growth_at(
        alloc,
        cell.reserve.rank,
        cell.reserve.nodes as usize,
        &wires,
        blanks,
        cell.reserve.edges as usize,
        cell.seat.node,
        growth,
    )
}
