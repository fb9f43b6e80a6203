ghost use Rattle.std.specs.Prelude.{map, IfSome, IfNone};
ghost use Rattle.query_run.specs.Names.{boxes_needed, HasBoxes, IsShort};

use proc_api::{KINDS, Rack};
use query_model::processor_spec::Kind;
use select_planner::{Plan, needs};

/// A rack has fewer boxes of a kind than are needed.
#[derive(Clone, Copy)]
pub(crate) struct Shortage {
    pub kind: Kind,
    pub needed: usize,
    pub there: usize,
}

/// The first kind of which the rack has too few boxes for the plan.
pub(crate) fn first_shortage(plan: &Plan, rack: &Rack) -> Option<Shortage>
    ensures short { IfSome result (IsShort (boxes_needed plan.now)
        (map (λ b. seen (b.vtable, b.value)) rack.now.boxes.items)) }
    ensures enough { IfNone result (HasBoxes (boxes_needed plan.now)
        (map (λ b. seen (b.vtable, b.value)) rack.now.boxes.items)) }
{
    for kind in KINDS {
        let needed = needs(plan, kind);
        let there = rack.count(kind);
        if there < needed {
            return Some(Shortage {
                kind,
                needed,
                there,
            });
        }
    }
    None
}
