//! Runs a graph of boxed processors to its end.
//!
//! The graph becomes the cells of port-driven workers: they run it beside each other, and it grows
//! where a processor asks for that, until nothing is pending or one of them stops the run. Then its
//! caller ends it.
//!
//! Cells are generic in the processor; boxes are named in `run_graph` alone.
//!
//! - `run.rt`: a run of a graph, and how it ended
//! - `worker_run.rt`: a run of the cells of a new table, by workers and then by its caller
//! - `gathering.rt`: what the nodes know of growths, after the workers
//! - `specs/Ends.antt`: what each end of a run says; `specs/WorkerRuns.antt`: a run by workers;
//!   `specs/Gathering.antt`: the notes of growths after it
#![tactic(auto)]

mod gathering;
mod run;
mod worker_run;

pub use exec_laws::{GrowthFlaw, StuckNode};
pub use run::{ExecEnd, RunResult, run_graph};
