ghost use Rattle.std.specs.Prelude.{◌≡◌, ℕ, ◌+◌, ◌<◌, ◌≤◌, [], length, map, false, vec_capacity};
ghost use Rattle.std.specs.List.{All};
ghost use Rattle.proc_api.specs.Names.{handed_out_by, IsBlank};
ghost use Rattle.proc_api.specs.Reserves.{AreStarting};
ghost use Rattle.exec_laws.specs.Names.{GivenBack, IsBorn, box_at};
ghost use Rattle.pipeline_exec.specs.Ends.{Begun, ExecEndHolds};
ghost use Rattle.plan_run.specs.Boxes.{AreRun, EachBox, IsLater, IsStill, LeavesStill};
ghost use Rattle.plan_run.specs.Plans.{kinds_in, kinds_taken, GivesPlan, GraphBegins, MayRun, MayRunPlan, PlanEnds, ReadsByKind};

use crate::boxes::{give_back, load_boxes, take_boxes};
use chunk_data::{Chunk, List, Memory};
use exec_graph::Graph;
use pipeline_exec::{ExecEnd, RunResult, run_graph};
use port_word::{Reserve, Wire};
use proc_api::{Processor, Rack, WorkFault};
use query_model::processor_spec::{Kind, Spec};
use std::sync::Wait;
use std::thread::Threads;

/// The nodes of a plan in order, by what each box is loaded with; the kinds of the boxes that are
/// kept behind them for nodes that grow; and the graph.
#[derive(Drop)]
pub struct PlanGraph {
    pub specs: Vec<Spec>,
    pub kept: List<Kind>,
    pub form: GraphForm,
}

/// A graph without its boxes: the ranks of its nodes, its wires, and what is kept for which node.
#[derive(Drop)]
pub struct GraphForm {
    pub ranks: List<u32>,
    pub wires: List<Wire>,
    pub reserves: List<Reserve>,
}

/// Why a plan gave no rows.
#[derive(Clone, Copy, PartialEq, Eq)]
pub enum PlanFault {
    /// The box of this node answered this fault, which isn't `Memory`.
    Fault(u32, WorkFault),
    /// A box of this kind isn't lawful: it left the run stuck.
    Stuck(Kind),
    /// A box of this kind let the graph grow by a growth that has a flaw.
    BadGrowth(Kind),
    Memory,
}

/// The boxes of a run in order of their nodes, and what it gave.
#[derive(Drop)]
struct PlanEnd {
    boxes: Vec<Box<dyn Processor + Send>>,
    result: Result<Vec<Chunk>, PlanFault>,
}

/// Runs a plan. Its chunks are those that the last node hands out.
///
/// The first box of each spec's kind is taken in turn. Whatever comes, all boxes are given back in
/// the order in which they were taken.
pub fn run_plan<R: AllocGlobal + Threads + Wait + Sync>(
    rt: &R,
    rack: &mut Rack,
    plan: PlanGraph,
    workers: u32,
) -> Result<Vec<Chunk>, PlanFault>
    requires runnable { MayRunPlan plan workers
        (map (λ b. seen (b.vtable, b.value)) rack.old.boxes.items) }
    ensures { PlanEnds plan result
        (map (λ b. seen (b.vtable, b.value)) rack.old.boxes.items)
        (map (λ b. seen (b.vtable, b.value)) rack.new.boxes.items) }
{
    // The room for the boxes is there before one is taken.
    match Vec::with_capacity(rt.alloc(), plan.specs.len() + plan.kept.len()) {
        Ok(room) => run_in(rt, rack, plan, room, workers),
        Err(_) => Err(PlanFault::Memory),
    }
}

/// Runs a plan by boxes that it takes into the room.
fn run_in<R: AllocGlobal + Threads + Wait + Sync>(
    rt: &R,
    rack: &mut Rack,
    plan: PlanGraph,
    mut boxes: Vec<Box<dyn Processor + Send>>,
    workers: u32,
) -> Result<Vec<Chunk>, PlanFault>
    requires runnable { MayRunPlan plan workers (map (λ b. seen b) rack.old.boxes.items) }
    requires empty { boxes.items ≡ [] }
    requires room { length plan.specs.items + length plan.kept ≤ vec_capacity boxes }
    ensures { PlanEnds plan result
        (map (λ b. seen b) rack.old.boxes.items) (map (λ b. seen b) rack.new.boxes.items) }
{
    take_boxes(rack, &plan.specs, &plan.kept, &mut boxes);
    let PlanEnd { boxes, result } = run_taken(rt, boxes, plan, workers);
    give_back(rack, boxes);
    result
}

/// Loads the boxes and runs the graph of them.
fn run_taken<R: AllocGlobal + Threads + Wait + Sync>(
    rt: &R,
    mut boxes: Vec<Box<dyn Processor + Send>>,
    plan: PlanGraph,
    workers: u32,
) -> PlanEnd
    requires blank { All IsBlank (map (λ b. seen b) boxes.items) }
    requires kinds { kinds_in (map (λ b. seen b) boxes.items)
        ≡ kinds_taken plan.specs.items plan.kept }
    requires plan { MayRun (length plan.specs.items)
        (length plan.specs.items + length plan.kept) plan.form workers }
    ensures later { EachBox IsLater (map (λ b. seen b) boxes.items)
        (map (λ b. seen b) result.boxes.items) }
    ensures gives { GivesPlan (GraphBegins plan.form (kinds_taken plan.specs.items plan.kept))
        (LeavesStill (AreRun plan.specs.items (map (λ b. seen b) boxes.items))
        (map (λ b. seen b) result.boxes.items)) (length plan.specs.items) result.result }
{
    let PlanGraph {
        specs,
        kept: _,
        form,
    } = plan;
    let nodes = specs.len();
    match load_boxes(&mut boxes, specs) {
        Ok(()) => run_loaded(rt, boxes, nodes, form, workers),
        Err(Memory) => PlanEnd {
            boxes,
            result: Err(PlanFault::Memory),
        },
    }
}

/// Runs the graph of boxes of which so many are loaded.
fn run_loaded<R: AllocGlobal + Threads + Wait + Sync>(
    rt: &R,
    boxes: Vec<Box<dyn Processor + Send>>,
    nodes: usize,
    form: GraphForm,
    workers: u32,
) -> PlanEnd
    requires starting { AreStarting form.reserves (map (λ b. seen b) boxes.items) }
    requires nodes_within { nodes ≤ length boxes.items }
    requires form { MayRun nodes (length boxes.items) form workers }
    ensures later { EachBox IsLater (map (λ b. seen b) boxes.items)
        (map (λ b. seen b) result.boxes.items) }
    ensures gives { GivesPlan (GraphBegins form (kinds_in (map (λ b. seen b) boxes.items)))
        (LeavesStill (GivenBack (map (λ b. seen b) boxes.items))
        (map (λ b. seen b) result.boxes.items)) nodes result.result }
{
    let GraphForm {
        ranks,
        wires,
        reserves,
    } = form;
    let graph = Graph {
        boxes,
        ranks,
        wires,
        reserves,
    };
    let RunResult { boxes, end } = run_graph(rt, graph, workers);
    let mut boxes = boxes;
    let result = result_of(&mut boxes, nodes, end);
    PlanEnd { boxes, result }
}

/// What a run gave that ended so, whatever its graph, of which the first nodes were loaded.
fn result_of<P: Processor>(
    boxes: &mut Vec<P>,
    nodes: usize,
    end: ExecEnd,
) -> Result<Vec<Chunk>, PlanFault>
    requires some_nodes { 1 ≤ nodes }
    requires nodes_within { nodes ≤ length boxes.old.items }
    requires born { (n : ℕ) → n < nodes → IsBorn (box_at (map P.seen boxes.old.items) n) }
    requires end { (b : Begun) × ExecEndHolds end b (map P.seen boxes.old.items) }
    ensures still { EachBox IsStill (map P.seen boxes.old.items) (map P.seen boxes.new.items) }
    ensures gives { (b : Begun) → ExecEndHolds end b (map P.seen boxes.old.items)
        → GivesPlan (λ P. P b) (λ ended. ended ≡ map P.seen boxes.old.items) nodes result }
{
    match end {
        ExecEnd::Done => Ok(take_rows_at(boxes, nodes - 1)),
        ExecEnd::Stuck(_, node) => Err(PlanFault::Stuck(kind_at(boxes, node as usize))),
        ExecEnd::Fault(node, fault) => {
            // What the kind says of the box's reader holds of the fault's box.
            let _ = kind_at(boxes, node as usize);
            Err(PlanFault::Fault(node, fault))
        }
        ExecEnd::BadGrowth(node, _) => Err(PlanFault::BadGrowth(kind_at(boxes, node as usize))),
        ExecEnd::Memory => Err(PlanFault::Memory),
    }
}

#[tactic(auto, using(crate::proofs::Loading::box_read))]
fn kind_at<P: Processor>(boxes: &Vec<P>, n: usize) -> Kind
    requires { n < length boxes.now.items }
    ensures kind { result ≡ (box_at (map P.seen boxes.now.items) n).kind }
    ensures reader { ReadsByKind (box_at (map P.seen boxes.now.items) n) }
{
    boxes[n].kind()
}

#[tactic(auto, using(crate::proofs::Loading::box_read))]
fn take_rows_at<P: Processor>(boxes: &mut Vec<P>, n: usize) -> Vec<Chunk>
    requires in_range { n < length boxes.old.items }
    requires there { (box_at (map P.seen boxes.old.items) n).work.handed_out ≡ false }
    ensures still { EachBox IsStill (map P.seen boxes.old.items) (map P.seen boxes.new.items) }
    ensures rows { result.items ≡ handed_out_by (box_at (map P.seen boxes.old.items) n).kind
        (box_at (map P.seen boxes.old.items) n).work }
{
    boxes[n].take_rows()
}
