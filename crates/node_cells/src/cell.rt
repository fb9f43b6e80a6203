//! The cell of one node.
ghost use Rattle.std.specs.Prelude.{◌≤◌, length};

use exec_laws::{Blank, NodeMark};
use exec_table::NodeSeat;
use node_ports::NodePorts;

/// What is left of the reserve of a node, which has this rank in a graph of so many nodes: its
/// blanks in order, and so many edges from the next one on. A node without a reserve has none.
#[derive(Drop)]
pub struct NodeReserve {
    pub rank: u32,
    pub nodes: u32,
    pub blanks: Vec<Blank>,
    pub next_edge: u32,
    pub edges: u32,
    ghost few_nodes: { nodes ≤ 256 },
    ghost few_blanks: { length blanks.items ≤ 256 },
}

/// All that belongs to one node.
#[derive(Drop)]
pub struct NodeCell<P> {
    pub processor: P,
    pub mark: NodeMark,
    pub ports: NodePorts,
    pub seat: NodeSeat,
    pub reserve: NodeReserve,
}
