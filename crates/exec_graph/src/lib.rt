//! A graph of boxed processors, its builder, and the cells by which workers run it.
#![tactic(auto)]

mod causes;
mod cells;
mod edges;
mod graph;
mod reserves;

pub use causes::{
    AddCause, BuildCause, BuildRefusal, NotAdded, NotBuilt, NotReserved, ReserveCause,
};
pub use graph::{Graph, GraphBuilder};
