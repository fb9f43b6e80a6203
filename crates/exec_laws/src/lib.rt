//! What an executor of processor graphs keeps true, over plain data: pictures of boxes, views of
//! ports, edges and wires.
//!
//! A `CellPicture` of `specs/Runs.antt` is what an executor has of one node: the picture of its
//! box, its view, its mark, and the edges at its ports. `Running` says what is true of all nodes
//! and edges at once. What a node's turn makes of its own picture, in which it sees its ports and
//! is prepared, is in `proofs/Turns.antt`, and that a graph may grow by new nodes and wires in
//! `proofs/GrownGraphs.antt`. `node_cells` says what each node keeps by itself, in whatever order
//! nodes take their turns, and that it makes `Running` where nothing is due. `specs/Ends.antt` says
//! what is true of the lists of all edges where no action waits, and what is true at the ends, and
//! `proofs/Ends.antt` that it follows.
#![tactic(auto)]

mod edges;
mod growth;

pub use edges::{DueCall, EdgeState, NodeMark, NodeStatus, StuckNode};
pub use growth::{Blank, GrowthFlaw};
