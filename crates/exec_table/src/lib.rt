//! The execution table: what the workers of an executor share. Ports, nodes and wires are words
//! that change in single atomic steps, and a chunk lies in the slot of its edge. No call but `make`
//! and `shut` takes memory, and none waits.
//!
//! Each call of a seat but `lift`, `worker`, `survey` and `shut` is one step of the core of
//! port-driven execution (`core_laws`): at every moment, under every interleaving, words, slots and
//! views show one state of that core, which meets its laws. `look` and `mark` first look up the
//! edge's wire, a load of a word that never changes and no step.
//!
//! - `types.rt`, `rule.rt`: what a seat knows, the table, its rule and its seats
//! - `port_steps.rt`, `node_steps.rt`, `growth.rt`, `worker.rt`: the calls; `plays.rt`: what each
//!   atomic step tells; `seat.rt`: the slots that are out with a seat; `make.rt`: a new table;
//!   `survey.rt`: all words at one moment; `shut.rt`: the end of a table
//! - `specs/Boards.antt`: a state of the core with its chunks, and the laws of both;
//!   `specs/Ready.antt`: when a seat may make a step; `specs/Seats.antt`: what the clauses say
//! - `specs/Known.antt`: what a seat knows after a step by what the step answered, which
//!   `proofs/Known.antt` proves of the node's state, and `proofs/Ends.antt` of its stage, its edges
//!   and its slots; users of the table show their conditions by it
//! - `proofs/Wording.antt`: each step changes one word; `proofs/Kept.antt`: it keeps the laws;
//!   `proofs/Tied.antt`: each step of a seat is one of the core; `proofs/Starting.antt`: the start
//!   meets the laws
#![tactic(auto)]

mod growth;
mod make;
mod node_steps;
mod plays;
mod port_steps;
mod rule;
mod seat;
mod shut;
mod survey;
mod types;
mod worker;

pub use core_laws::{Flags, NodeState, Reserve, Sight, Sizes, Wire};
pub use make::Made;
pub use rule::{ExecTable, NodeSeat, OneState, RootSeat, WorkerSeat};
pub use shut::Final;
pub use types::{EdgeEnd, Marked, NodeView, Rested, Seen, Stage, Updated, View};
