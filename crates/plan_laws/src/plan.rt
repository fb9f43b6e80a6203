// What a plan is: nodes, edges, and what is kept for nodes that grow.
ghost use Rattle.std.specs.Prelude.{◌+◌, ◌≤◌, length};
ghost use Rattle.plan_laws.specs.Boxes.{reserved_nodes};

use chunk_data::{Bytes, List};
use port_word::Wire;
use query_model::processor_spec::{Kind, Spec};

/// A node: what its box is loaded with, and its rank.
#[derive(Drop)]
pub struct PlanNode {
    pub spec: Spec,
    pub rank: u32,
}

/// An edge from an output of a node to an input of another.
pub type PlanEdge = Wire;

/// The boxes and edges that are kept for a node that grows.
#[derive(Drop)]
pub struct PlanReserve {
    pub node: u32,
    pub kinds: List<Kind>,
    pub edges: u32,
}

/// The nodes of a query's pipeline in the order of the steps, the edges between them, and what is
/// kept for growth. There are at most 256 nodes, the reserved ones included.
#[derive(Drop)]
pub struct Plan {
    pub nodes: List<PlanNode>,
    pub edges: List<PlanEdge>,
    pub reserves: List<PlanReserve>,
    ghost few_nodes: { length nodes + reserved_nodes reserves ≤ 256 },
}

/// Why a query was not planned.
#[derive(Debug, Drop)]
pub enum PlanRefusal {
    /// A used table names more than 32 paths: its name, and how many.
    TooManyParts(Bytes, u64),
    Memory,
}
