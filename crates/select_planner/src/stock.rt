// How many boxes a plan needs.
ghost use Rattle.std.specs.Prelude.{◌≡◌};
ghost use Rattle.plan_laws.specs.Shapes.{boxes_needed, boxes_reserved, boxes_taken};

use plan_laws::{Plan, PlanNode, PlanReserve};
use query_model::processor_spec::Kind;

/// How many boxes of the kind the plan uses, the reserved ones included.
#[tactic(auto, using(crate::proofs::Laying::few_boxes))]
pub fn needs(plan: &Plan, kind: Kind) -> usize
    ensures { result ≡ boxes_needed plan.now kind }
{
    let mut count = taken(plan.nodes.as_slice(), kind);
    for reserve in plan.reserves.as_slice() {
        count += reserved(reserve, kind);
    }
    count
}

/// How many of the nodes take a box of the kind.
fn taken(nodes: &[PlanNode], kind: Kind) -> usize
    ensures { result ≡ boxes_taken kind nodes.now }
{
    nodes.iter().filter(|node| node.spec.kind() == kind).count()
}

/// How many boxes of the kind are kept for a node that grows.
fn reserved(reserve: &PlanReserve, kind: Kind) -> usize
    ensures { result ≡ boxes_reserved kind reserve.now }
{
    let kinds = reserve.kinds.as_slice();
    kinds.iter().filter(|k| **k == kind).count()
}
