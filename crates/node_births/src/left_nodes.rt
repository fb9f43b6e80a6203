//! What follows of all nodes after a run of a graph that may have grown.
ghost use Rattle.node_births.specs.LeftNodes.{GraphLeftLaw};

/// A law, as a function: what each node knows by itself after a run makes, together, the grown
/// graph.
pub fn law_of_left_nodes()
    ensures left { GraphLeftLaw }
{}
