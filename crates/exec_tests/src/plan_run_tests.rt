ghost use Rattle.std.specs.Prelude.{◌≡◌, ◌∷◌, [], map, IfOk, OnOk};
ghost use Rattle.std.specs.List.{All};
ghost use Rattle.proc_api.specs.Clauses.{IsBlank};

use crate::scripted::{Role, make_box, part};
use chunk_data::{Chunk, List};
use plan_run::{GraphForm, PlanFault, PlanGraph, run_plan};
use port_word::Wire;
use proc_api::{Processor, Rack, WorkFault};
use query_model::processor_spec::{Kind, Spec};
use std::alloc::{AllocError, Global};
use std::process::Abort;
use std::sync::Wait;
use std::test::Fail;
use std::thread::Threads;

/// Puts a box behind those of the rack, once it is blank.
fn add_box(rack: &mut Rack, b: Box<dyn Processor + Send>) -> Result<(), Fail>
    ensures { All IsBlank (map (λ b. seen b) rack.old.boxes.items)
        → All IsBlank (map (λ b. seen b) rack.new.boxes.items) }
{
    let mut b = b;
    b.unload();
    match rack.add(b) {
        Ok(()) => Ok(()),
        Err(_) => Err("no memory".into()),
    }
}

/// A rack of two boxes.
fn rack_of(
    alloc: Global,
    first: Box<dyn Processor + Send>,
    second: Box<dyn Processor + Send>,
) -> Result<Rack, Fail>
    ensures { IfOk result (λ rack. All IsBlank (map (λ b. seen b) rack.boxes.items)) }
{
    let mut rack = Rack::new(alloc);
    add_box(&mut rack, first)?;
    add_box(&mut rack, second)?;
    Ok(rack)
}

/// The ranks of a source and a collector.
fn pair_ranks(alloc: Global) -> Result<List<u32>, AllocError>
    ensures { IfOk result (λ ranks. ranks ≡ 1 ∷ 2 ∷ []) }
{
    Ok(List::from_vec(Vec::from_slice(alloc, &[1, 2])?))
}

/// The wire between them.
fn pair_wires(alloc: Global) -> Result<List<Wire>, AllocError>
    ensures { IfOk result (λ wires. wires ≡ record { from = 0; out = 0; to = 1; input = 0 } ∷ []) }
{
    let wire = Wire {
        from: 0,
        out: 0,
        to: 1,
        input: 0,
    };
    Ok(List::from_vec(Vec::from_slice(alloc, &[wire])?))
}

/// Runs a source and a collector.
fn run_pair<R: Abort + AllocGlobal + Threads + Wait + Sync>(
    rt: &R,
    rack: &mut Rack,
) -> Result<Result<Vec<Chunk>, PlanFault>, Fail>
    requires { All IsBlank (map (λ b. seen (b.vtable, b.value)) rack.old.boxes.items) }
    ensures { OnOk result (All IsBlank (map (λ b. seen (b.vtable, b.value)) rack.new.boxes.items)) }
{
    let mut specs = Vec::new(rt.alloc());
    specs.push(Spec::Csv(part(rt.alloc())))?;
    specs.push(Spec::Collect)?;
    assert!(rt; rack.count(Kind::Csv) > 0);
    assert!(rt; rack.count(Kind::Collect) > 0);
    let plan = PlanGraph {
        specs,
        kept: List::new(rt.alloc()),
        form: GraphForm {
            ranks: pair_ranks(rt.alloc())?,
            wires: pair_wires(rt.alloc())?,
            reserves: List::new(rt.alloc()),
        },
    };
    Ok(run_plan(rt, rack, plan, 1))
}

/// Runs a source and a collector, which gives so many chunks.
fn expect_rows<R: Abort + AllocGlobal + Threads + Wait + Sync>(
    rt: &R,
    rack: &mut Rack,
    chunks: usize,
) -> Result<(), Fail>
    requires { All IsBlank (map (λ b. seen (b.vtable, b.value)) rack.old.boxes.items) }
    ensures { OnOk result (All IsBlank (map (λ b. seen (b.vtable, b.value)) rack.new.boxes.items)) }
{
    match run_pair(rt, rack)? {
        Ok(rows) => {
            assert_eq!(rt; rows.len(), chunks);
            Ok(())
        }
        Err(_) => Err("no rows".into()),
    }
}

#[test]
fn boxes_go_behind_the_others_when_rows_have_come(rt: HostRuntime) -> Result<(), Fail> {
    let collector = Box::new(rt.alloc(), make_box(rt, Kind::Collect, Role::Take, 0)?)?;
    let first = Box::new(rt.alloc(), make_box(rt, Kind::Csv, Role::Give, 3)?)?;
    let second = Box::new(rt.alloc(), make_box(rt, Kind::Csv, Role::Give, 1)?)?;
    let mut rack = rack_of(rt.alloc(), collector, first)?;
    add_box(&mut rack, second)?;
    // Each run takes the source that was given back before the other.
    expect_rows(&rt, &mut rack, 3)?;
    expect_rows(&rt, &mut rack, 1)?;
    expect_rows(&rt, &mut rack, 0)
}

#[test]
fn a_fault_is_told_and_the_boxes_can_run_again(rt: HostRuntime) -> Result<(), Fail> {
    let source = Box::new(rt.alloc(), make_box(rt, Kind::Csv, Role::Fail, 0)?)?;
    let collector = Box::new(rt.alloc(), make_box(rt, Kind::Collect, Role::Take, 0)?)?;
    let mut rack = rack_of(rt.alloc(), source, collector)?;
    let end = run_pair(&rt, &mut rack)?;
    assert!(rt; matches!(end, Err(PlanFault::Fault(0, WorkFault::Bad(_)))));
    let again = run_pair(&rt, &mut rack)?;
    assert!(rt; matches!(again, Err(PlanFault::Fault(0, WorkFault::Bad(_)))));
    Ok(())
}

#[test]
fn the_kind_of_a_box_that_asks_for_nothing_is_told(rt: HostRuntime) -> Result<(), Fail> {
    let collector = Box::new(rt.alloc(), make_box(rt, Kind::Collect, Role::Balk, 0)?)?;
    let source = Box::new(rt.alloc(), make_box(rt, Kind::Csv, Role::Give, 1)?)?;
    let mut rack = rack_of(rt.alloc(), collector, source)?;
    let end = run_pair(&rt, &mut rack)?;
    assert!(rt; matches!(end, Err(PlanFault::Stuck(Kind::Collect))));
    Ok(())
}
