//! A run of a graph.
ghost use Rattle.std.specs.Prelude.{◌≤◌, map};
ghost use Rattle.proc_api.specs.Reserves.{AreStarting};
ghost use Rattle.exec_laws.specs.Ends.{GivenBack};
ghost use Rattle.pipeline_exec.specs.Ends.{IsDoneOrMemory, ExecEndHolds, RunsWell, graph_of_boxes};

use crate::worker_run::run_new_cells;
use chunk_data::List;
use exec_graph::Graph;
use exec_laws::{GrowthFlaw, StuckNode};
use proc_api::{Processor, WorkFault};
use std::sync::Wait;
use std::thread::Threads;

/// How a run ended.
#[derive(Drop)]
pub enum ExecEnd {
    /// All nodes are over, and the chunks pulled at each edge are those pushed, but for what a
    /// consumer closed.
    Done,
    /// Nothing is due, and these nodes aren't over; the box of the named one isn't lawful.
    Stuck(List<StuckNode>, u32),
    /// The box of this node answered this fault.
    Fault(u32, WorkFault),
    /// The growth that the box of this node gave last has this flaw.
    BadGrowth(u32, GrowthFlaw),
    Memory,
}

/// All boxes of the graph in order of their nodes, and how the run ended.
#[derive(Drop)]
pub struct RunResult {
    pub boxes: Vec<Box<dyn Processor + Send>>,
    pub end: ExecEnd,
}

/// Runs a graph to its end, with at most so many workers. All memory but that for growth is taken
/// before the first step.
pub fn run_graph<R: AllocGlobal + Threads + Wait + Sync>(
    rt: &R,
    graph: Graph,
    workers: u32,
) -> RunResult
    requires some_workers { 1 ≤ workers }
    requires few_workers { workers ≤ 16 }
    requires starting { AreStarting graph.reserves (map (λ b. seen b) graph.boxes.items) }
    ensures back { GivenBack (map (λ b. seen b) graph.boxes.items)
        (map (λ b. seen b) result.boxes.items) }
    ensures end { ExecEndHolds result.end (graph_of_boxes graph.ranks graph.wires graph.reserves
        (map (λ b. seen b) graph.boxes.items)) (map (λ b. seen b) result.boxes.items) }
    ensures completes { RunsWell (graph_of_boxes graph.ranks graph.wires graph.reserves
        (map (λ b. seen b) graph.boxes.items)) (map (λ b. seen b) result.boxes.items)
        → IsDoneOrMemory result.end }
{
    let Ok(mut room) = Vec::with_capacity(rt.alloc(), graph.boxes.len()) else {
        return RunResult {
            boxes: graph.boxes,
            end: ExecEnd::Memory,
        };
    };
    // The cells take the graph apart.
    let Ok(reserves) = Vec::from_slice(rt.alloc(), graph.reserves.as_slice()) else {
        return RunResult {
            boxes: graph.boxes,
            end: ExecEnd::Memory,
        };
    };
    match graph.into_cells(workers) {
        Ok(new) => {
            let end = run_new_cells(rt, rt.alloc(), new, reserves.as_slice(), &mut room, workers);
            RunResult { boxes: room, end }
        }
        Err(boxes) => RunResult {
            boxes,
            end: ExecEnd::Memory,
        },
    }
}
