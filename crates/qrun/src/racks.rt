ghost use Rattle.std.specs.Prelude.{◌<◌, length, map};
ghost use Rattle.std.specs.List.{All};
ghost use Rattle.chunk_data.specs.Places.{Changes};
ghost use Rattle.proc_api.specs.Clauses.{IsBlank, Unloads};
ghost use Rattle.proc_api.specs.Boxes.{no_box};

use proc_api::{Processor, Rack};
use query_model::processor_spec::Kind;

/// How many boxes that read a part lie in the standard rack.
pub(crate) const SOURCES: u32 = 64;

/// How many boxes that read a list of parts lie in it.
pub(crate) const LISTS: u32 = 2;

/// How many boxes of each other kind lie in it.
pub(crate) const OTHERS: [(Kind, u32); 11] = [
    (Kind::Numbers, 2),
    (Kind::Filter, 17),
    (Kind::Expression, 17),
    (Kind::Resize, 4),
    (Kind::PartialAggregate, 16),
    (Kind::MergeAggregate, 1),
    (Kind::HashJoin, 1),
    (Kind::Sort, 16),
    (Kind::MergeSorted, 1),
    (Kind::Limit, 1),
    (Kind::Collect, 1),
];

/// Unloads each box of the rack, so that it is blank whatever it was.
pub(crate) fn unload_rack(rack: &mut Rack)
    ensures { All IsBlank (map (λ b. seen (b.vtable, b.value)) rack.new.boxes.items) }
{
    unload_boxes(&mut rack.boxes);
}

fn unload_boxes(boxes: &mut Vec<Box<dyn Processor + Send>>)
    ensures { All IsBlank (map (λ b. seen b) boxes.new.items) }
{
    for i in 0..boxes.len() {
        unload_at(boxes, i);
    }
}

fn unload_at(boxes: &mut Vec<Box<dyn Processor + Send>>, i: usize)
    requires { i < length boxes.old.items }
    ensures { Changes no_box i Unloads (map (λ b. seen b) boxes.old.items)
        (map (λ b. seen b) boxes.new.items) }
{
    unload_box(&mut boxes[i]);
}

fn unload_box(b: &mut Box<dyn Processor + Send>)
    ensures { Unloads (seen b.old) (seen b.new) }
{
    b.unload();
}
