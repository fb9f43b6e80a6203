//! What follows of all cells where nothing is pending.
ghost use Rattle.node_cells.specs.Ends.{EndLaw, SettledLaw};

/// A law, as a function: cells at home and a survey in which nothing is pending make a running
/// graph in which no node is due. Then the laws of a run's end hold of it.
pub fn law_of_settled_cells()
    ensures running { SettledLaw }
    ensures ends { EndLaw }
{}
