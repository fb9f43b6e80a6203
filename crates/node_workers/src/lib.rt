//! The workers of a port-driven executor.
//!
//! The cells of all nodes lie on a shelf. A worker takes a number, claims that node's place on the
//! shelf, runs the node until its cell may go home, and releases the place. The cell stays where it
//! lies: to move it out and back would cost as much as a short visit. A worker takes the numbers
//! that it kept first, then those in the queue, and before each it sees whether anything is pending
//! and whether the run was stopped. After a fault, or a growth with a flaw, the worker notes the
//! cause in the cell, which goes home held, and stops the run of all.
//!
//! For a growth the worker takes the cells of the node that grows and of its new nodes from the
//! shelf, and puts them back once each has its ports. All nodes get their outputs first, since a
//! producer sets the wire that its consumer learns, and a node is born with all its ports.
//!
//! No processor is prepared by two threads at once, or while it works: each call of a box is made
//! through its `NodeCell`, and only in a turn, in which the seat of that cell says held (`IsDue`,
//! `IsAtWork` of `node_cells`, which `prepare`, `work` and `schedule` require). A node number has
//! one seat, one cell holds it, and the shelf lets one worker at a time have that cell
//! (`Shelf::claim` and `release`, `take` and `put`).
//!
//! What is named of the boxes (`Naming`) is the same before and after: all that holds a cell is
//! generic in the processor and in what is named.
//!
//! - `named_cell.rt`: a cell on the shelf, and what its node knows of growths
//! - `notes.rt`: the notes of growths, before the first step
//! - `visit.rt`: a worker's visit of a node
//! - `growth_visit.rt`: a worker's visit of a node by which the graph is to grow
//! - `growth.rt`: the cell of a node that grows; `new_nodes.rt`: that of a new node; `births.rt`:
//!   those of all new nodes
//! - `worker.rt`: what workers share, and a worker from its first number to its end
//! - `rooms.rt`: the room of a run, which is taken before its first step
//! - `run.rt`: a run of all cells by so many workers
//! - `specs/Names.antt`: what is named of a run; `specs/Named.antt`: when a cell fits its place;
//!   `specs/Notes.antt`: the notes before a run; `specs/Visits.antt`: what a visit does;
//!   `specs/Growths.antt`: the node that grows; `specs/NewNodes.antt`: a new node;
//!   `specs/Births.antt`: all of them; `specs/Workers.antt`: what workers share and have, and when
//!   they end; `specs/Ended.antt`: the cells before a run and after it; `specs/Runs.antt`: when a
//!   run may be made, and what it gives
#![tactic(auto, using(crate::proofs::SentNotes::sent_notes))]

mod births;
mod growth;
mod growth_visit;
mod named_cell;
mod new_nodes;
mod notes;
mod rooms;
mod run;
mod visit;
mod worker;

pub use growth_visit::grow_cell;
pub use named_cell::{CellNote, EndedCell, NamedCell, Naming};
pub use run::{Ended, NotStarted, run_cells};
pub use visit::visit_cell;
pub use worker::{Shared, Worker, run_worker, run_workers};
