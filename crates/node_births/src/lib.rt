//! How a graph grows at one node while workers run it: a growth is checked by what the node that
//! grows knows, a node gets new ports, and an unborn node is born.
//!
//! Whoever has the cell of a node gives it its ports of a growth, each the next one of its side.
//! The producer of an edge goes first: it sets the edge's wire, which the consumer then learns. An
//! unborn node is born with all its ports, so that its first turn looks at each of them, and the
//! node that grew is prepared again once it has all of its own.
//!
//! - `more_ports.rt`: a node gets edges at its next ports
//! - `birth.rt`: an unborn node is loaded, and is due
//! - `reserve.rt`: the first flaw of a node's growth, by what it may still grow by
//! - `widening.rt`: a node's processor says by what the graph grows, and a node gets its ports
//! - `left_nodes.rt`: all nodes after a run, and the graph that they make
//! - `noted_growth.rt`: a growth as it is noted
//! - `specs/MorePorts.antt`: the ports with one more, and with more of a side
//! - `specs/Newborn.antt`: a node that was just born; `specs/Widened.antt`: a node that grows;
//!   `specs/Left.antt`: its reserve, as data
//! - `specs/TableEdges.antt`: the wires of a table's edges; `specs/OwnBirths.antt`: what a node
//!   knows of how the graph grew; `specs/LeftNodes.antt`: all nodes after a run, and the graph that
//!   they make, with the law of it; `specs/NotedBirths.antt`: births by what was noted;
//!   `specs/NextBirths.antt`: the next birth of a node
#![tactic(auto)]

mod birth;
mod left_nodes;
mod more_ports;
mod noted_growth;
mod reserve;
mod widening;

pub use birth::bear;
pub use left_nodes::law_of_left_nodes;
pub use noted_growth::NotedGrowth;
pub use reserve::{check_own_growth, take_growth};
pub use widening::{ask_growth, get_ports, law_of_widened_cells};
