//! A node of a port-driven executor: its processor, its picture of its ports and its seat of the
//! execution table, and its turns, for every processor.
//!
//! A worker takes a due node's cell, and turns it until it may go home: the node looks at its
//! updated ports, is prepared, what it did is carried out and its peers are told, and what comes
//! next follows from the answer, as the comment on the status in ClickHouse's `IProcessor.h` has
//! it. The law of a cell (`CellHolds`) speaks of this cell and its seat alone; what follows of all
//! cells at home is `law_of_settled_cells`. Each call leaves the box the one that it was (`Stays`).
//!
//! - `cell.rt`: what belongs to one node
//! - `preparation.rt`: a node looks at its ports and is prepared
//! - `node_word.rt`: a node begins, carries out, rests, leaves: its steps at its own word
//! - `calls.rt`: the calls of a processor that touch no port
//! - `node_run.rt`: a node's run on a worker, turn after turn
//! - `node_visit.rt`: a visit of a node whose cell lies on a shelf
//! - `stop_cause.rt`: why the run of all stops at a node
//! - `new_cells.rt`: the cells of a new table, and how a wire is looked for at a node's port
//! - `new_reserves.rt`: what each node may grow by in a graph that wasn't run
//! - `settled_cells.rt`: what follows of all cells where nothing is pending
//! - `specs/Cells.antt`: the law of a cell; `specs/Turns.antt`: where a cell is in its turn, and
//!   what stays of it; `specs/Stops.antt`: what stops the run of all; `specs/Visits.antt`: what a
//!   visit does; `specs/Ends.antt`: all cells at home, and the ends that follow
#![tactic(auto)]

mod calls;
mod cell;
mod new_cells;
mod new_reserves;
mod node_run;
mod node_visit;
mod node_word;
mod preparation;
mod settled_cells;
mod stop_cause;

pub use calls::{call_after, schedule, schedule_box, work, work_box};
pub use cell::{NodeCell, NodeReserve};
pub use new_cells::{
    Cells, count_inputs, count_outputs, edge_at, ends_at, holds_node, is_reserved, make_cells,
    peer_of,
};
pub use new_reserves::reserve_of;
pub use node_run::{RunEnd, resume, run_node};
pub use node_visit::visit_node;
pub use node_word::{begin, carry, leave, rest, wake};
pub use preparation::{prepare, shut_finished_ports, state_after};
pub use settled_cells::law_of_settled_cells;
pub use stop_cause::StopCause;
