//! Cells made of the seats of a new table.
ghost use Rattle.std.specs.Prelude.{◌≡◌, ◌<◌, ◌≤◌, [], length, map, vec_capacity, IfErr, IfOk, ℕ};
ghost use Rattle.exec_laws.specs.Names.{HasEdge, peer, reserve_of};
ghost use Rattle.exec_table.specs.Made.{IsNewTable};
ghost use Rattle.proc_api.specs.Names.{input_count, output_count, wire_at};
ghost use Rattle.proc_api.specs.Reserves.{AreStarting, holds_node, is_reserved};
ghost use Rattle.node_cells.specs.NewReserves.{IsBlankReserve};
ghost use Rattle.node_cells.specs.NewCells.{AreEdgesAndPeers, AreNewCells, AreNewNodes, AreNewPorts, AreNewReserves, Fills, HasEdgeAt, HasPortsWithinLimits, IsGraphOfNodes, IsNewNodeAt, ends_at, first_mark, port_of_side, sizes_of};

use crate::cell::{NodeCell, NodeReserve};
use crate::new_reserves::new_reserve;
use chunk_data::{List, Memory};
use exec_laws::{NodeMark, NodeStatus};
use exec_table::{ExecTable, Made, NodeSeat, RootSeat, Sizes, Updated};
use node_ports::NodePorts;
use port_word::{Port, PortView, Reserve, Wire};
use proc_api::Processor;
use std::alloc::Global;

/// A table, the root of its workers' seats, and the cells of its nodes in order of their numbers.
#[derive(Drop)]
pub struct Cells<P> {
    pub table: ExecTable,
    pub root: RootSeat,
    pub cells: Vec<NodeCell<P>>,
}

/// What a node has before its first turn, beside its processor and its seat.
#[derive(Drop)]
pub(crate) struct NewNode {
    pub ports: NodePorts,
    pub mark: NodeMark,
    pub reserve: NodeReserve,
}

/// The edges at a side of a node, and the nodes at their other ends.
#[derive(Drop)]
struct Ends {
    edges: Vec<u32>,
    peers: Vec<u32>,
}

/// The cells of a graph that wasn't run, for so many workers. Each node that no reserve holds is
/// due. For want of memory the processors are handed back.
pub fn make_cells<P: Processor>(
    alloc: Global,
    boxes: Vec<P>,
    ranks: &List<u32>,
    wires: &List<Wire>,
    reserves: &List<Reserve>,
    workers: u32,
) -> Result<Cells<P>, Vec<P>>
    requires graph { IsGraphOfNodes (length boxes.items) wires.now reserves.now }
    requires few_workers { workers ≤ 16 }
    requires starting { AreStarting reserves.now (map P.seen boxes.items) }
    ensures cells { IfOk result (λ c. AreNewCells P.seen
        (sizes_of (length boxes.items) wires.now reserves.now workers) boxes.items c) }
    ensures reserves { IfOk result (λ c.
        AreNewReserves ranks.now reserves.now (map P.seen boxes.items) c.cells.items) }
    ensures handed_back { IfErr result (λ b. b.items ≡ boxes.items) }
{
    let nodes = match new_nodes(
        alloc,
        &boxes,
        ranks.as_slice(),
        wires.as_slice(),
        reserves.as_slice(),
    ) {
        Ok(nodes) => nodes,
        Err(Memory) => return Err(boxes),
    };
    let Ok(cells) = Vec::with_capacity(alloc, boxes.len()) else {
        return Err(boxes)
    };
    match new_table(alloc, boxes.len(), wires, reserves, workers) {
        Ok(made) => Ok(cells_of_table(made, cells, boxes, nodes)),
        Err(Memory) => Err(boxes),
    }
}

/// The table of a graph of so many nodes.
fn new_table(
    alloc: Global,
    nodes: usize,
    wires: &List<Wire>,
    reserves: &List<Reserve>,
    workers: u32,
) -> Result<Made, Memory>
    requires graph { IsGraphOfNodes nodes wires.now reserves.now }
    requires few_workers { workers ≤ 16 }
    ensures { IfOk result (λ m. IsNewTable (sizes_of nodes wires.now reserves.now workers) m) }
{
    let sizes = Sizes {
        nodes: nodes as u32,
        wires: wires.copy()?,
        reserves: reserves.copy()?,
        workers: workers + 1,
    };
    ExecTable::make(alloc, &sizes)
}

/// Moves each processor into a cell, with its node and its seat.
fn cells_of_table<P: Processor>(
    made: Made,
    mut cells: Vec<NodeCell<P>>,
    mut boxes: Vec<P>,
    mut nodes: Vec<NewNode>,
) -> Cells<P>
    requires empty { cells.items ≡ [] }
    requires room { length boxes.items ≤ vec_capacity cells }
    requires nodes_len { length nodes.items ≡ length boxes.items }
    requires seats_len { length made.nodes.items ≡ length boxes.items }
    ensures table { result.table ≡ made.table }
    ensures root { result.root ≡ made.root }
    ensures cells { Fills result.cells.items boxes.items nodes.items made.nodes.items }
{
    let Made {
        table,
        nodes: mut seats,
        root,
    } = made;
    fill_cells(&mut cells, &mut boxes, &mut nodes, &mut seats);
    Cells { table, root, cells }
}

fn fill_cells<P: Processor>(
    cells: &mut Vec<NodeCell<P>>,
    boxes: &mut Vec<P>,
    nodes: &mut Vec<NewNode>,
    seats: &mut Vec<NodeSeat>,
)
    requires empty { cells.old.items ≡ [] }
    requires room { length boxes.old.items ≤ vec_capacity cells.old }
    requires nodes_len { length nodes.old.items ≡ length boxes.old.items }
    requires seats_len { length seats.old.items ≡ length boxes.old.items }
    ensures { Fills cells.new.items boxes.old.items nodes.old.items seats.old.items }
{
    for _node in 0..boxes.len() {
        let processor = boxes.remove(0);
        let NewNode {
            ports,
            mark,
            reserve,
        } = nodes.remove(0);
        let seat = seats.remove(0);
        cells.push_reserved(NodeCell {
            processor,
            mark,
            ports,
            seat,
            reserve,
        });
    }
}

/// What the node of each box has before its first turn.
fn new_nodes<P: Processor>(
    alloc: Global,
    boxes: &Vec<P>,
    ranks: &[u32],
    wires: &[Wire],
    reserves: &[Reserve],
) -> Result<Vec<NewNode>, Memory>
    requires ports { (n : ℕ) → HasPortsWithinLimits wires.now n }
    requires blank { (n : ℕ) →
        IsBlankReserve (map P.seen boxes.now.items) (reserve_of reserves.now n) }
    ensures { IfOk result (λ all. (length all.items ≡ length boxes.now.items) × AreNewNodes
        ranks.now wires.now reserves.now (map P.seen boxes.now.items) all.items) }
{
    let mut all = Vec::with_capacity(alloc, boxes.len())?;
    for n in 0..boxes.len() {
        let node = new_node(alloc, boxes, n, ranks, wires, reserves)?;
        all.push(node)?;
    }
    Ok(all)
}

fn new_node<P: Processor>(
    alloc: Global,
    boxes: &Vec<P>,
    n: usize,
    ranks: &[u32],
    wires: &[Wire],
    reserves: &[Reserve],
) -> Result<NewNode, Memory>
    requires ports { HasPortsWithinLimits wires.now n }
    requires blank { IsBlankReserve (map P.seen boxes.now.items) (reserve_of reserves.now n) }
    ensures { IfOk result (λ x.
        IsNewNodeAt ranks.now wires.now reserves.now (map P.seen boxes.now.items) n x) }
{
    let ports = new_ports(alloc, n, wires)?;
    let mark = first_mark(is_reserved(reserves, n));
    let reserve = new_reserve(alloc, boxes, ranks, reserves, n)?;
    Ok(NewNode {
        ports,
        mark,
        reserve,
    })
}

fn first_mark(reserved: bool) -> NodeMark
    ensures { result ≡ first_mark reserved }
{
    let state = if reserved {
        NodeStatus::Unborn
    } else {
        NodeStatus::Due
    };
    NodeMark { state, last: None }
}

/// Whether a reserve holds the node.
pub fn is_reserved(reserves: &[Reserve], n: usize) -> bool
    ensures { result ≡ is_reserved reserves.now n }
{
    reserves.iter().any(|r| holds_node(r, n))
}

/// Whether the reserve holds the node.
pub fn holds_node(reserve: &Reserve, n: usize) -> bool
    ensures { result ≡ holds_node n reserve.now }
{
    let first = reserve.first_node as usize;
    first <= n && n < first + reserve.nodes as usize
}

/// The ports of a node with a new view, in which no flag is set.
fn new_ports(alloc: Global, n: usize, wires: &[Wire]) -> Result<NodePorts, Memory>
    requires { HasPortsWithinLimits wires.now n }
    ensures { IfOk result (λ p. AreNewPorts wires.now n p) }
{
    let inputs = count_inputs(wires, n);
    let outputs = count_outputs(wires, n);
    let view = PortView::new(alloc, inputs, outputs)?;
    let needed = vec![in alloc; false; inputs]?;
    let ins = ends_of(alloc, wires, n, true, inputs)?;
    let outs = ends_of(alloc, wires, n, false, outputs)?;
    Ok(NodePorts {
        view,
        inputs: ins.edges,
        outputs: outs.edges,
        sources: ins.peers,
        targets: outs.peers,
        needed,
        updated: Updated {
            inputs: 0,
            outputs: 0,
            first: true,
        },
    })
}

/// How many of the wires end at the node.
pub fn count_inputs(wires: &[Wire], n: usize) -> usize
    ensures { result ≡ input_count wires.now n }
{
    wires.iter().filter(|w| w.to as usize == n).count()
}

/// How many of the wires begin at the node.
pub fn count_outputs(wires: &[Wire], n: usize) -> usize
    ensures { result ≡ output_count wires.now n }
{
    wires.iter().filter(|w| w.from as usize == n).count()
}

/// The ends of the first ports of a side, one for each.
fn ends_of(
    alloc: Global,
    wires: &[Wire],
    n: usize,
    consumer: bool,
    count: usize,
) -> Result<Ends, Memory>
    requires few_edges { length wires.now ≤ 1024 }
    requires each { (k : ℕ) → k < count → HasEdgeAt wires.now n (port_of_side consumer k) }
    ensures { IfOk result
        (λ ends. AreEdgesAndPeers wires.now n consumer count ends.edges.items ends.peers.items) }
{
    let mut edges = Vec::with_capacity(alloc, count)?;
    let mut peers = Vec::with_capacity(alloc, count)?;
    for k in 0..count {
        let port = port_of_side(consumer, k);
        let e = edge_at(wires, n, port);
        let other = peer_at(wires, e, port);
        edges.push(e as u32)?;
        peers.push(other)?;
    }
    Ok(Ends { edges, peers })
}

fn port_of_side(consumer: bool, k: usize) -> Port
    ensures { result ≡ port_of_side consumer k }
{
    if consumer {
        Port::Input(k)
    } else {
        Port::Output(k)
    }
}

/// The node at the other end of an edge.
#[tactic(auto, unfolding(proc_api::specs::Settled::wire_at))]
fn peer_at(wires: &[Wire], e: usize, port: Port) -> u32
    requires { e < length wires.now }
    ensures { result ≡ peer (wire_at wires.now e) port }
{
    peer_of(&wires[e], port)
}

/// The node at the wire's other end.
pub fn peer_of(wire: &Wire, port: Port) -> u32
    ensures { result ≡ peer wire.now port }
{
    match port {
        Port::Input(_) => wire.from,
        Port::Output(_) => wire.to,
    }
}

/// The edge at the port of a node.
#[tactic(auto, unfolding(proc_api::specs::Settled::wire_at))]
pub fn edge_at(wires: &[Wire], n: usize, port: Port) -> usize
    requires { HasEdgeAt wires.now n port }
    ensures { HasEdge wires.now n port result }
{
    for (e, wire) in wires.iter().enumerate() {
        if ends_at(wire, n, port) {
            return e;
        }
    }
    wires.len()
}

/// Whether the wire ends at the port of the node.
pub fn ends_at(wire: &Wire, n: usize, port: Port) -> bool
    ensures { result ≡ ends_at wire.now n port }
{
    match port {
        Port::Input(i) => wire.to as usize == n && wire.input as usize == i,
        Port::Output(o) => wire.from as usize == n && wire.out as usize == o,
    }
}
