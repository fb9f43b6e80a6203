use proc_api::Processor;

/// Why a node was not added.
#[derive(Clone, Copy, PartialEq, Eq)]
pub enum AddCause {
    /// 256 nodes are there.
    TooManyNodes,
    Memory,
}

/// A processor that was not added.
#[derive(Drop)]
pub struct NotAdded {
    pub processor: Box<dyn Processor + Send>,
    pub cause: AddCause,
}

/// Why an edge was refused.
#[derive(Clone, Copy, Debug, PartialEq, Eq)]
pub enum BuildRefusal {
    /// It doesn't go from a lower rank to a higher one.
    RankOrder,
    /// Inputs are numbered below 32 and outputs below 16.
    TooManyPorts,
    /// One of its two ports has an edge.
    PortTaken,
    /// 1,024 edges are there, reserved ones included.
    TooManyEdges,
    Memory,
}

/// Why nothing was reserved.
#[derive(Clone, Copy, PartialEq, Eq)]
pub enum ReserveCause {
    /// There would be more than 256 nodes.
    TooManyNodes,
    /// There would be more than 1,024 edges.
    TooManyEdges,
    Memory,
}

/// Blanks that were not reserved, in their order.
#[derive(Drop)]
pub struct NotReserved {
    pub blanks: Vec<Box<dyn Processor + Send>>,
    pub cause: ReserveCause,
}

/// Why a graph was not built.
#[derive(Clone, Copy, Debug, PartialEq, Eq)]
pub enum BuildCause {
    /// The ports of this node that are in use aren't numbered from 0 without a gap.
    PortGap(u32),
    Memory,
}

/// The boxes of a graph that was not built, in order of their nodes.
#[derive(Drop)]
pub struct NotBuilt {
    pub boxes: Vec<Box<dyn Processor + Send>>,
    pub cause: BuildCause,
}
