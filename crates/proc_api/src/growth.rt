use chunk_data::List;
use query_model::processor_spec::Spec;

/// An end of an edge: the processor that grows, or one of the new nodes, by its place in the
/// growth.
#[derive(Clone, Copy, PartialEq, Eq)]
pub enum Who {
    Me,
    New(u32),
}

/// A port of a node: an output where an edge comes from it, an input where an edge goes to it.
#[derive(Clone, Copy, PartialEq, Eq)]
pub struct End {
    pub who: Who,
    pub port: u32,
}

/// A new edge.
#[derive(Clone, Copy, PartialEq, Eq)]
pub struct Edge {
    pub from: End,
    pub to: End,
}

/// A new node: what it is loaded with, and its rank.
#[derive(Drop)]
pub struct GrowNode {
    pub spec: Spec,
    pub rank: u32,
}

/// What a processor adds to its graph.
#[derive(Drop)]
pub struct Growth {
    pub nodes: List<GrowNode>,
    pub edges: List<Edge>,
}
