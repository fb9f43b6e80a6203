ghost use Rattle.std.specs.Prelude.{◌≡◌, ◌≤◌, IfOk, OnOk, length, map, true};
ghost use Rattle.std.specs.List.{All};
ghost use Rattle.proc_api.specs.Clauses.{IsBlank, IsFresh};
ghost use Rattle.proc_api.specs.Reserves.{AreStarting, IsAdded};

use crate::scripted::{Gate, Role, make_box, part};
use exec_graph::GraphBuilder;
use flow_procs::{Collect, Numbers};
use pipeline_exec::{ExecEnd, GrowthFlaw, RunResult, run_graph};
use proc_api::{Processor, Status, WorkFault};
use query_model::processor_spec::{Kind, Spec};
use std::alloc::Global;
use std::sync::atomic::{AtomicBool, AtomicU64, Ordering};
use std::sync::{Arc, Wait};
use std::test::Fail;
use std::thread::Threads;

// What a box of the kind is loaded with.
fn spec_for(alloc: Global, kind: Kind) -> Result<Spec, Fail> {
    match kind {
        Kind::Csv => Ok(Spec::Csv(part(alloc))),
        Kind::List => Ok(Spec::List(part(alloc))),
        Kind::Numbers => Ok(Spec::Numbers(3, 1)),
        Kind::Collect => Ok(Spec::Collect),
        _ => Err("a box is of another kind".into()),
    }
}

/// Loads the box.
pub(crate) fn loaded(
    alloc: Global,
    b: Box<dyn Processor + Send>,
) -> Result<Box<dyn Processor + Send>, Fail>
    ensures { IfOk result (λ b. IsFresh (seen b)) }
{
    let mut b = b;
    match b.load(spec_for(alloc, b.kind())?) {
        Ok(()) => Ok(b),
        Err(_) => Err("a blank box was not loaded".into()),
    }
}

/// Adds the box as a node of the rank.
pub(crate) fn place(
    builder: &mut GraphBuilder,
    b: Box<dyn Processor + Send>,
    rank: u32,
) -> Result<(), Fail>
    requires { IsFresh (seen b) }
    ensures { OnOk result
        (AreStarting builder.old.reserves (map (λ b. seen b) builder.old.boxes.items)
        → AreStarting builder.new.reserves (map (λ b. seen b) builder.new.boxes.items)) }
{
    match builder.add(b, rank) {
        Ok(_) => Ok(()),
        Err(_) => Err("a node was not added".into()),
    }
}

/// Loads the box, and adds it as a node of the rank.
pub(crate) fn add(
    alloc: Global,
    builder: &mut GraphBuilder,
    b: Box<dyn Processor + Send>,
    rank: u32,
) -> Result<(), Fail>
    ensures { OnOk result
        (AreStarting builder.old.reserves (map (λ b. seen b) builder.old.boxes.items)
        → AreStarting builder.new.reserves (map (λ b. seen b) builder.new.boxes.items)) }
{
    match loaded(alloc, b) {
        Ok(b) => place(builder, b, rank),
        Err(fail) => Err(fail),
    }
}

/// Whether the node is there; nothing is reserved here.
#[tactic(auto, using(exec_graph::proofs::Refusals::added))]
pub(crate) fn is_added(builder: &GraphBuilder, node: u32) -> bool
    ensures added { result ≡ true → IsAdded (length builder.now.ranks) builder.now.reserves node }
    ensures alone { result ≡ true → length builder.now.reserves ≡ 0 }
{
    (node as usize) < builder.ranks.len() && builder.reserves.len() == 0
}

/// Adds an edge between the first ports of two nodes.
pub(crate) fn connect(builder: &mut GraphBuilder, from: u32, to: u32) -> Result<(), Fail>
    ensures boxes { builder.new.boxes.items ≡ builder.old.boxes.items }
    ensures reserves { builder.new.reserves ≡ builder.old.reserves }
{
    if !is_added(builder, from) || !is_added(builder, to) {
        return Err("a node is missing".into());
    }
    match builder.connect(from, 0, to, 0) {
        Ok(()) => Ok(()),
        Err(_) => Err("an edge was not added".into()),
    }
}

// Runs the boxes, of which the next is the last of the list: those of a chain have ranks that rise,
// and in a row of pairs each second one is joined to the one before it.
fn run_boxes<R: AllocGlobal + Threads + Wait + Sync>(
    rt: &R,
    boxes: Vec<Box<dyn Processor + Send>>,
    chain: bool,
    workers: u32,
) -> Result<(Vec<Box<dyn Processor + Send>>, ExecEnd), Fail>
    requires { (1 ≤ workers) × (workers ≤ 16) }
{
    let mut boxes = boxes;
    let count = u32::try_from(boxes.len()).unwrap_or(0);
    let mut builder = GraphBuilder::new(rt.alloc());
    for node in 0..count {
        match boxes.pop() {
            Some(b) => add(rt.alloc(), &mut builder, b, node)?,
            None => return Err("a box is missing".into()),
        }
    }
    for node in 1..count {
        if chain || node % 2 == 1 {
            connect(&mut builder, node - 1, node)?;
        }
    }
    run_built(rt, builder, workers)
}

fn run_built<R: AllocGlobal + Threads + Wait + Sync>(
    rt: &R,
    builder: GraphBuilder,
    workers: u32,
) -> Result<(Vec<Box<dyn Processor + Send>>, ExecEnd), Fail>
    requires starting { AreStarting builder.reserves (map (λ b. seen b) builder.boxes.items) }
    requires workers { (1 ≤ workers) × (workers ≤ 16) }
{
    match builder.finish() {
        Ok(graph) => {
            let RunResult { boxes, end } = run_graph(rt, graph, workers);
            Ok((boxes, end))
        }
        Err(_) => Err("a graph was not built".into()),
    }
}

#[test]
fn all_boxes_of_256_nodes_come_back(rt: HostRuntime) -> Result<(), Fail> {
    let mut boxes: Vec<Box<dyn Processor + Send>> = Vec::new(rt.alloc());
    for _pair in 0..128 {
        for (role, chunks) in [(Role::Take, 0), (Role::Give, 3)] {
            let b = Box::new(rt.alloc(), make_box(rt, Kind::Csv, role, chunks)?)?;
            boxes.push(b)?;
        }
    }
    let (boxes, end) = run_boxes(&rt, boxes, false, 2)?;
    assert_eq!(rt; boxes.len(), 256);
    assert!(rt; matches!(end, ExecEnd::Done));
    Ok(())
}

// The numbers are never asked for, so their box is prepared at the end of the run alone.
#[test]
fn a_box_that_asks_for_nothing_is_named(rt: HostRuntime) -> Result<(), Fail> {
    let mut boxes: Vec<Box<dyn Processor + Send>> = Vec::new(rt.alloc());
    boxes.push(Box::new(rt.alloc(), Collect::new(rt.alloc()))?)?;
    let balking = make_box(rt, Kind::Csv, Role::Balk, 0)?;
    boxes.push(Box::new(rt.alloc(), balking)?)?;
    boxes.push(Box::new(rt.alloc(), Numbers::new(rt.alloc()))?)?;
    let (boxes, end) = run_boxes(&rt, boxes, true, 2)?;
    assert_eq!(rt; boxes.len(), 3);
    let ExecEnd::Stuck(report, node) = end else {
        return Err("the run was not stuck".into());
    };
    assert_eq!(rt; node, 1);
    assert_eq!(rt; report.len(), 3);
    assert_eq!(rt; report.get(0).last, Some(Status::PortFull));
    assert_eq!(rt; report.get(1).last, Some(Status::NeedData));
    assert_eq!(rt; report.get(2).last, Some(Status::NeedData));
    Ok(())
}

#[test]
fn a_fault_ends_the_run_and_gives_all_boxes_back(rt: HostRuntime) -> Result<(), Fail> {
    let mut boxes: Vec<Box<dyn Processor + Send>> = Vec::new(rt.alloc());
    for (role, chunks) in [(Role::Take, 0), (Role::Work, 0), (Role::Give, 3)] {
        let b = Box::new(rt.alloc(), make_box(rt, Kind::Csv, role, chunks)?)?;
        boxes.push(b)?;
    }
    let (boxes, end) = run_boxes(&rt, boxes, true, 2)?;
    assert_eq!(rt; boxes.len(), 3);
    assert!(rt; matches!(end, ExecEnd::Fault(1, WorkFault::Bad(_))));
    Ok(())
}

// Keeps the blanks and an edge for node 0.
fn reserve(builder: &mut GraphBuilder, blanks: Vec<Box<dyn Processor + Send>>) -> Result<(), Fail>
    requires { All IsBlank (map (λ b. seen b) blanks.items) }
    ensures { OnOk result
        (AreStarting builder.old.reserves (map (λ b. seen b) builder.old.boxes.items)
        → AreStarting builder.new.reserves (map (λ b. seen b) builder.new.boxes.items)) }
{
    if !is_added(builder, 0) {
        return Err("a node is missing".into());
    }
    match builder.reserve(0, blanks, 1) {
        Ok(()) => Ok(()),
        Err(_) => Err("nothing was reserved".into()),
    }
}

// The box, made blank, where it is to be kept for a growth.
fn blanks_of(
    alloc: Global,
    b: Box<dyn Processor + Send>,
    kept: bool,
) -> Result<Vec<Box<dyn Processor + Send>>, Fail>
    ensures { IfOk result (λ boxes. All IsBlank (map (λ b. seen b) boxes.items)) }
{
    let mut boxes = Vec::new(alloc);
    if kept {
        let mut b = b;
        b.unload();
        boxes.push(b)?;
    }
    Ok(boxes)
}

// Runs a box alone that grows, with a reserve of the blanks and an edge, by so many workers.
fn run_growing<R: AllocGlobal + Threads + Wait + Sync>(
    rt: &R,
    growing: Box<dyn Processor + Send>,
    blanks: Vec<Box<dyn Processor + Send>>,
    workers: u32,
) -> Result<ExecEnd, Fail>
    requires workers { (1 ≤ workers) × (workers ≤ 16) }
    requires blanks { All IsBlank (map (λ b. seen b) blanks.items) }
{
    let mut builder = GraphBuilder::new(rt.alloc());
    add(rt.alloc(), &mut builder, growing, 1)?;
    reserve(&mut builder, blanks)?;
    let (_, end) = run_built(rt, builder, workers)?;
    Ok(end)
}

#[test]
fn a_growth_with_a_flaw_ends_the_run(rt: HostRuntime) -> Result<(), Fail> {
    for run in 0..3 {
        let workers = if run == 0 {
            1
        } else if run == 1 {
            2
        } else {
            16
        };
        for (role, kept, flaw) in [
            (Role::Loop, false, GrowthFlaw::WrongEnd),
            (Role::Source, false, GrowthFlaw::TooManyNodes),
            (Role::Source, true, GrowthFlaw::NoBlank(Kind::Csv)),
        ] {
            let filter = Box::new(rt.alloc(), make_box(rt, Kind::Filter, Role::Give, 0)?)?;
            let blanks = blanks_of(rt.alloc(), filter, kept)?;
            let growing = Box::new(rt.alloc(), make_box(rt, Kind::List, role, 0)?)?;
            let end = run_growing(&rt, growing, blanks, workers)?;
            let ExecEnd::BadGrowth(node, found) = end else {
                return Err("the growth had no flaw".into())
            };
            assert_eq!(rt; node, 0);
            assert_eq!(rt; found, flaw);
        }
    }
    Ok(())
}

fn flag(alloc: Global) -> Result<Arc<AtomicBool, Global>, Fail> {
    Ok(Arc::new(alloc, AtomicBool::new(false))?)
}

// Pairs of a source and what takes its chunks. The first work of each source waits for the other's,
// and both are counted where they are prepared.
#[test]
fn boxes_work_at_the_same_time_in_each_of_200_runs(rt: HostRuntime) -> Result<(), Fail> {
    for run in 0..200 {
        let workers = if run == 0 { 2 } else { 16 };
        let (left, right) = (flag(rt.alloc())?, flag(rt.alloc())?);
        let mut boxes: Vec<Box<dyn Processor + Send>> = Vec::new(rt.alloc());
        let mut counts = Vec::new(rt.alloc());
        for (own, other) in [(&left, &right), (&right, &left)] {
            let prepared = Arc::new(rt.alloc(), AtomicU64::new(0))?;
            let taking = make_box(rt, Kind::Csv, Role::Take, 0)?;
            let mut meeting = make_box(rt, Kind::Csv, Role::Meet, 3)?;
            meeting.gate = Some(Gate {
                own: Arc::try_clone(own)?,
                other: Arc::try_clone(other)?,
                prepared: Arc::try_clone(&prepared)?,
            });
            boxes.push(Box::new(rt.alloc(), taking)?)?;
            boxes.push(Box::new(rt.alloc(), meeting)?)?;
            counts.push(prepared)?;
        }
        let (boxes, end) = run_boxes(&rt, boxes, false, workers)?;
        assert_eq!(rt; boxes.len(), 4);
        assert!(rt; matches!(end, ExecEnd::Done));
        for count in counts.as_slice() {
            assert!(rt; count.load(Ordering::Relaxed) > 0);
        }
    }
    Ok(())
}
