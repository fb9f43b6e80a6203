use query_model::processor_spec::Kind;

/// What is wrong with a growth, in the order in which it is looked for.
#[derive(Clone, Copy, Debug, PartialEq, Eq)]
pub enum GrowthFlaw {
    /// It has more nodes than the reserve has unborn ones.
    TooManyNodes,
    /// It has more edges than the reserve has unwired ones.
    TooManyEdges,
    /// An edge has both its ends at the node that grows, or names no new node.
    WrongEnd,
    /// An edge doesn't go from a lower rank to a higher one.
    RankOrder,
    /// Inputs are numbered below 32 and outputs below 16.
    TooManyPorts,
    /// Two edges have a port in common, or one has a port that the node had before.
    PortTaken,
    /// The ports of a node that are in use aren't numbered from 0 without a gap.
    PortGap,
    /// The reserve has fewer unborn blanks of this kind than the growth has nodes of it.
    NoBlank(Kind),
}

/// An unborn node, and the kind of its box.
#[derive(Clone, Copy, PartialEq, Eq)]
pub struct Blank {
    pub node: u32,
    pub kind: Kind,
}
