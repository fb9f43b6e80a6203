//! What a seat of the table knows, and what its calls answer.
use chunk_data::{Chunk, List};
use core_laws::{NodeState, Sizes, Wire};

/// How far a node is.
#[derive(Clone, Copy, PartialEq, Eq)]
pub enum Stage {
    Unborn,
    /// It is live and hasn't begun.
    Born,
    Begun,
    Over,
}

/// What a node knows of an edge beside the flags that it sees: its wire once it has learned it, the
/// chunks that it pushed there or pulled there, and, while the slot is out with it, what lay there.
pub struct EdgeEnd {
    pub wire: Option<Wire>,
    pub chunks: List<Chunk>,
    pub turn: Option<Option<Chunk>>,
}

/// A node as its seat knows it. Its word in `state` is always 0: what the word is, no seat knows.
/// Edge e is `ends[e]`. No value of it is made.
pub struct NodeView {
    pub sizes: Sizes,
    pub number: u32,
    pub state: NodeState,
    pub stage: Stage,
    pub ends: List<EdgeEnd>,
}

/// What a seat knows: of one node, of none, or while words are surveyed of all. No value of it is
/// made.
pub struct View {
    pub nodes: List<NodeView>,
    /// The first words, which stay while this seat has every node.
    pub noted: List<u64>,
    /// The edge whose wire this seat looked up last.
    pub aim: u32,
    /// The word that this seat's last step found.
    pub found: u64,
    /// How many worker's seats were made out of this one.
    pub made: u32,
    /// The number of the worker.
    pub worker: Option<u32>,
    /// The sizes of the table, which the root and its workers know.
    pub sizes: Sizes,
}

/// What `mark` made of the peer, or found.
#[derive(Clone, Copy, PartialEq, Eq, Drop)]
pub enum Marked {
    Charged,
    AlreadyDue,
    Over,
}

/// Which ports of a node changed since it looked: a bit for each, and whether this is the first
/// time that it begins.
#[derive(Clone, Copy, PartialEq, Eq, Drop)]
pub struct Updated {
    pub inputs: u32,
    pub outputs: u16,
    pub first: bool,
}

#[derive(Clone, Copy, PartialEq, Eq, Drop)]
pub enum Rested {
    Idle,
    /// The node stays held: a port changed meanwhile.
    UpdatedAgain,
}

/// What a worker sees of the run.
#[derive(Clone, Copy, PartialEq, Eq, Drop)]
pub enum Seen {
    Pending(u64),
    Zero,
    Stopped,
}
