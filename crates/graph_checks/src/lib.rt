//! What is wrong with the wires of a graph, and with a growth of one of its nodes.
//!
//! A growth's flaws are looked for in their order: those of its edges, which need no graph
//! (`edges.rt`), those of the wires that the edges become (`growths.rt`), and blanks that are
//! too few (`places.rt`). The wires may be all of the graph or those that the node knows of
//! (`node_wires.rt`): the first flaw is the same (`proofs/OwnPorts.antt`, `proofs/FlawLaws.antt`).
#![tactic(auto)]

mod edges;
mod growths;
mod node_wires;
mod places;
mod wires;

pub use growths::{GrownGraph, check_growth, check_growth_at, wire_of_edge};
pub use node_wires::own_wires;
pub use wires::{is_gapless, is_port_taken};
