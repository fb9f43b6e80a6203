// Boxes for the racks of worked runs. What is known of a new processor is known of its box where it
// is handed to a function that asks for it. A function that hands out a box that it made itself, as
// those below, may stand in tests alone.
ghost use Rattle.std.specs.Prelude.{OnOk, map};
ghost use Rattle.proc_api.specs.Clauses.{IsSourceKind, IsUnloadedProcessor};
ghost use Rattle.qrun.specs.Stocking.{Adds, AddsEach};

use aggregate_proc::{MergeAggregate, PartialAggregate};
use chunk_data::Memory;
use flow_procs::{Collect, Expression, Filter, Limit, Numbers, Resize};
use join_proc::HashJoin;
use proc_api::{Processor, Rack};
use query_model::processor_spec::Kind;
use sort_procs::{MergeSorted, Sort};

// Adds a new box of a kind that reads no file.
fn put(rack: &mut Rack, kind: Kind, b: Box<dyn Processor + Send>) -> Result<(), Memory>
    requires new { IsUnloadedProcessor kind (seen b) }
    requires without_file { IsSourceKind kind → ⊥ }
    ensures { OnOk result (Adds kind 1
        (map (λ b. seen b) rack.old.boxes.items) (map (λ b. seen b) rack.new.boxes.items)) }
{
    rack.boxes.push(b)?;
    Ok(())
}

// Makes a box of a kind that waits for its inputs and adds it; of no other kind. It stands apart,
// since what proves a function that makes boxes goes over each of their types.
fn add_breaker<R: AllocGlobal>(rt: &R, rack: &mut Rack, kind: Kind) -> Result<(), Memory>
    ensures { OnOk result (Adds kind 1
        (map (λ b. seen (b.vtable, b.value)) rack.old.boxes.items)
        (map (λ b. seen (b.vtable, b.value)) rack.new.boxes.items)) }
{
    let alloc = rt.alloc();
    match kind {
        Kind::PartialAggregate => {
            put(rack, kind, Box::new(alloc, PartialAggregate::new(alloc))?)
        }
        Kind::MergeAggregate => put(rack, kind, Box::new(alloc, MergeAggregate::new(alloc))?),
        Kind::HashJoin => put(rack, kind, Box::new(alloc, HashJoin::new(alloc))?),
        Kind::Sort => put(rack, kind, Box::new(alloc, Sort::new(alloc))?),
        Kind::MergeSorted => put(rack, kind, Box::new(alloc, MergeSorted::new(alloc))?),
        _ => Err(Memory),
    }
}

// And of a kind that computes rows.
fn add_step<R: AllocGlobal>(rt: &R, rack: &mut Rack, kind: Kind) -> Result<(), Memory>
    ensures { OnOk result (Adds kind 1
        (map (λ b. seen (b.vtable, b.value)) rack.old.boxes.items)
        (map (λ b. seen (b.vtable, b.value)) rack.new.boxes.items)) }
{
    let alloc = rt.alloc();
    match kind {
        Kind::Filter => put(rack, kind, Box::new(alloc, Filter::new(alloc))?),
        Kind::Expression => put(rack, kind, Box::new(alloc, Expression::new(alloc))?),
        Kind::Resize => put(rack, kind, Box::new(alloc, Resize::new(alloc))?),
        _ => add_breaker(rt, rack, kind),
    }
}

// Makes a box of the kind and adds it, where its kind reads no file.
fn add_box<R: AllocGlobal>(rt: &R, rack: &mut Rack, kind: Kind) -> Result<(), Memory>
    ensures { OnOk result (Adds kind 1
        (map (λ b. seen (b.vtable, b.value)) rack.old.boxes.items)
        (map (λ b. seen (b.vtable, b.value)) rack.new.boxes.items)) }
{
    let alloc = rt.alloc();
    match kind {
        Kind::Numbers => put(rack, kind, Box::new(alloc, Numbers::new(alloc))?),
        Kind::Limit => put(rack, kind, Box::new(alloc, Limit::new(alloc))?),
        Kind::Collect => put(rack, kind, Box::new(alloc, Collect::new(alloc))?),
        _ => add_step(rt, rack, kind),
    }
}

/// Adds so many blank boxes of a kind that reads no file.
fn add_boxes<R: AllocGlobal>(rt: &R, rack: &mut Rack, kind: Kind, count: u32) -> Result<(), Memory>
    ensures { OnOk result (Adds kind count
        (map (λ b. seen (b.vtable, b.value)) rack.old.boxes.items)
        (map (λ b. seen (b.vtable, b.value)) rack.new.boxes.items)) }
{
    for n in 0..count {
        add_box(rt, rack, kind)?;
    }
    Ok(())
}

/// Adds so many blank boxes of each kind, none of which reads a file.
pub(crate) fn add_each<R: AllocGlobal>(
    rt: &R,
    rack: &mut Rack,
    stock: &[(Kind, u32)],
) -> Result<(), Memory>
    ensures { OnOk result (AddsEach stock.now
        (map (λ b. seen (b.vtable, b.value)) rack.old.boxes.items)
        (map (λ b. seen (b.vtable, b.value)) rack.new.boxes.items)) }
{
    for i in 0..stock.len() {
        let (kind, count) = stock[i];
        add_boxes(rt, rack, kind, count)?;
    }
    Ok(())
}
