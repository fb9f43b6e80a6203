//! The flaws of a growth over the wires of a graph.
ghost use Rattle.std.specs.Prelude.{◌≡◌, ◌<◌, ◌≤◌, ◌++◌, ◌∷◌, Some, None, false, length, IfErr, IfOk};
ghost use Rattle.std.specs.List.{list_any};
ghost use Rattle.proc_api.specs.Forms.{growth_form};
ghost use Rattle.exec_laws.specs.Growths.{end_node, growth_flaw, has_gap, is_port_taken, new_wire, new_wires, places_for};
ghost use Rattle.graph_checks.specs.Flaws.{flaw_over, grown_kinds, wires_flaw};

use crate::edges::edges_flaw;
use crate::places::{blanks_flaw, places_for};
use crate::wires::{is_gapless, is_port_taken};
use chunk_data::{List, Memory};
use exec_laws::{Blank, GrowthFlaw};
use port_word::Wire;
use proc_api::{Edge, Growth, Who};
use std::alloc::Global;

/// By what a growth without a flaw changes a graph: where its new nodes lie, and all wires then.
#[derive(Drop)]
pub struct GrownGraph {
    pub places: Vec<u32>,
    pub wires: List<Wire>,
}

/// The first flaw of a growth of node n, or the wires with its own. The wires are those of the
/// graph, or some that take the same ports of node n and of unborn nodes. The rank is that of node
/// n, and the blanks and edges are left of its reserve. Numbers from `past` on are those of no
/// nodes.
pub fn check_growth_at(
    alloc: Global,
    rank: u32,
    past: usize,
    wires: &List<Wire>,
    blanks: Vec<Blank>,
    left: usize,
    n: u32,
    growth: &Growth,
) -> Result<Result<GrownGraph, GrowthFlaw>, Memory>
    requires past { past ≤ 256 }
    requires few_blanks { length blanks.items ≤ 256 }
    ensures flaw { IfOk result (λ r. IfErr r (λ f.
        flaw_over rank past wires.now (record { blanks = blanks.items; edges = left }) n
        (growth_form growth.now) ≡ Some f)) }
    ensures none { IfOk result (λ r. IfOk r (λ g.
        flaw_over rank past wires.now (record { blanks = blanks.items; edges = left }) n
        (growth_form growth.now) ≡ None)) }
    ensures places { IfOk result (λ r. IfOk r (λ g. g.places.items
        ≡ places_for (grown_kinds growth.now.nodes) blanks.items past)) }
    ensures wires { IfOk result
        (λ r. IfOk r (λ g. g.wires ≡ wires.now ++ new_wires n g.places.items growth.now.edges)) }
{
    let nodes = growth.nodes.as_slice();
    let edges = growth.edges.as_slice();
    match edges_flaw(rank, blanks.len(), left, nodes, edges) {
        Some(flaw) => return Ok(Err(flaw)),
        None => {}
    }
    let lacking = blanks_flaw(nodes, blanks.as_slice());
    let places = places_for(alloc, nodes, blanks, past)?;
    match add_wires(wires, n, places.as_slice(), edges)? {
        Ok(all) => match lacking {
            Some(flaw) => Ok(Err(flaw)),
            None => Ok(Ok(GrownGraph { places, wires: all })),
        },
        Err(flaw) => Ok(Err(flaw)),
    }
}

/// The same of a growth of node n of the graph of these ranks and wires.
pub fn check_growth(
    alloc: Global,
    ranks: &[u32],
    wires: &List<Wire>,
    blanks: Vec<Blank>,
    edges_left: usize,
    n: usize,
    growth: &Growth,
) -> Result<Result<GrownGraph, GrowthFlaw>, Memory>
    requires node { n < length ranks.now }
    requires few_blanks { length blanks.items ≤ 256 }
    requires few_nodes { length ranks.now ≤ 256 }
    ensures flaw { IfOk result (λ r. IfErr r (λ f. growth_flaw ranks.now wires.now (record
        { blanks = blanks.items; edges = edges_left }) n (growth_form growth.now) ≡ Some f)) }
    ensures none { IfOk result (λ r. IfOk r (λ g. growth_flaw ranks.now wires.now
        (record { blanks = blanks.items; edges = edges_left }) n (growth_form growth.now) ≡ None)) }
    ensures places { IfOk result (λ r. IfOk r (λ g. g.places.items
        ≡ places_for (grown_kinds growth.now.nodes) blanks.items (length ranks.now))) }
    ensures wires { IfOk result
        (λ r. IfOk r (λ g. g.wires ≡ wires.now ++ new_wires n g.places.items growth.now.edges)) }
{
    let rank = ranks[n];
    check_growth_at(
        alloc,
        rank,
        ranks.len(),
        wires,
        blanks,
        edges_left,
        n as u32,
        growth,
    )
}

/// The wires with those of a growth of node n whose new nodes lie at the places, or the first flaw
/// of these.
fn add_wires(
    wires: &List<Wire>,
    n: u32,
    places: &[u32],
    edges: &[Edge],
) -> Result<Result<List<Wire>, GrowthFlaw>, Memory>
    ensures flaw { IfOk result
        (λ r. IfErr r (λ f. wires_flaw wires.now n places.now edges.now ≡ Some f)) }
    ensures none { IfOk result
        (λ r. IfOk r (λ all. wires_flaw wires.now n places.now edges.now ≡ None)) }
    ensures wires { IfOk result
        (λ r. IfOk r (λ all. all ≡ wires.now ++ new_wires n places.now edges.now)) }
{
    let mut all = wires.copy()?;
    if connect_all(&mut all, n, places, edges)? {
        return Ok(Err(GrowthFlaw::PortTaken));
    }
    if any_gap(all.as_slice(), n, places) {
        return Ok(Err(GrowthFlaw::PortGap));
    }
    Ok(Ok(all))
}

/// Whether the ports of node n or of one of the places have a gap.
fn any_gap(wires: &[Wire], n: u32, places: &[u32]) -> bool
    ensures { result ≡ list_any (has_gap wires.now) (n ∷ places.now) }
{
    has_gap(wires, n) || any_place_gap(wires, places)
}

fn any_place_gap(wires: &[Wire], places: &[u32]) -> bool
    ensures { result ≡ list_any (has_gap wires.now) places.now }
{
    for place in places {
        if has_gap(wires, *place) {
            return true;
        }
    }
    false
}

fn has_gap(wires: &[Wire], n: u32) -> bool
    ensures { result ≡ has_gap wires.now n }
{
    !is_gapless(wires, n)
}

/// Adds a wire for each edge; stops, and is true, at a port that is taken.
fn connect_all(
    wires: &mut List<Wire>,
    n: u32,
    places: &[u32],
    edges: &[Edge],
) -> Result<bool, Memory>
    ensures taken { IfOk result
        (λ taken. taken ≡ is_port_taken wires.old (new_wires n places.now edges.now)) }
    ensures wires { IfOk result
        (λ taken. taken ≡ false → wires.new ≡ wires.old ++ new_wires n places.now edges.now) }
{
    for edge in edges {
        let wire = wire_of_edge(n, places, edge);
        if is_port_taken(wires, &wire) {
            return Ok(true);
        }
        match wires.push(wire) {
            Ok(()) => {}
            Err(_) => return Err(Memory),
        }
    }
    Ok(false)
}

/// The wire of an edge.
pub fn wire_of_edge(n: u32, places: &[u32], edge: &Edge) -> Wire
    ensures { result ≡ new_wire n places.now edge.now }
{
    Wire {
        from: node_of_end(n, places, edge.from.who),
        out: edge.from.port,
        to: node_of_end(n, places, edge.to.who),
        input: edge.to.port,
    }
}

fn node_of_end(n: u32, places: &[u32], who: Who) -> u32
    ensures { result ≡ end_node n places.now who }
{
    match who {
        Who::Me => n,
        Who::New(k) => {
            if (k as usize) < places.len() {
                places[k as usize]
            } else {
                0
            }
        }
    }
}
