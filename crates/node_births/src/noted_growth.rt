//! A growth as it is noted.
use proc_api::Growth;

/// A growth of a node, and the nodes that its new nodes become, in order.
#[derive(Drop)]
pub struct NotedGrowth {
    pub growth: Growth,
    pub places: Vec<u32>,
}
