use query_model::processor_spec::Spec;

/// A node of a plan: what its box is loaded with, its rank, and which open ends it takes: `takes`
/// many from place `offset` on. Its `gives` outputs stand in their place.
#[derive(Drop)]
pub struct DraftNode {
    pub spec: Spec,
    pub rank: u32,
    pub offset: u32,
    pub takes: u32,
    pub gives: u32,
}

/// A port of a node, by its number among the node's inputs or outputs.
#[derive(Clone, Copy, PartialEq, Eq)]
pub struct NodePort {
    pub node: u32,
    pub port: u32,
}
