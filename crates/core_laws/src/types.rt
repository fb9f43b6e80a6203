use chunk_data::List;
use port_word::{Flags, Reserve, Wire};

/// How many nodes and workers an execution has, its wires, and what is kept for growth. Wire k is
/// edge k, and the reserved edges follow the wires.
#[derive(Drop)]
pub struct Sizes {
    pub nodes: u32,
    pub wires: List<Wire>,
    pub reserves: List<Reserve>,
    pub workers: u32,
}

/// What a node knows of one of its ports, by the edge.
#[derive(Clone, Copy, PartialEq, Eq)]
pub struct Sight {
    pub edge: u32,
    pub flags: Flags,
}

/// An edge: its flags, the chunk in its slot, the chunks pushed and pulled so far, and its wire.
/// Chunks are named by numbers.
#[derive(Drop)]
pub struct PortState {
    pub flags: Flags,
    pub slot: Option<u64>,
    pub pushed: List<u64>,
    pub pulled: List<u64>,
    pub wire: Option<Wire>,
}

/// A node: its word, and what its seat's view holds. `seen`, `unlooked` and `owes` name each edge
/// at most once.
#[derive(Drop)]
pub struct NodeState {
    pub word: u64,
    pub held: bool,
    pub tokens: u32,
    pub seen: List<Sight>,
    pub unlooked: List<u32>,
    pub owes: List<u32>,
}

/// The state of the execution table: edge e is `ports[e]`, node n is `nodes[n]`.
#[derive(Drop)]
pub struct CoreState {
    pub sizes: Sizes,
    pub ports: List<PortState>,
    pub nodes: List<NodeState>,
    pub pending: u64,
    pub stopped: bool,
}

/// What a held end of an edge does to its port: six of the kinds of step, with the chunk that is
/// pushed.
#[derive(Clone, Copy, PartialEq, Eq)]
pub enum Act {
    Want,
    Unwant,
    Push(u64),
    Pull,
    Finish,
    Close,
}

/// One atomic operation of a seat, with the edge that it names.
#[derive(Clone, Copy, PartialEq, Eq)]
pub enum Step {
    Look(u32),
    Want(u32),
    Unwant(u32),
    Push(u32, u64),
    Pull(u32),
    Finish(u32),
    ClosePort(u32),
    Mark(u32),
    Begin,
    Again,
    Rest,
    Over,
    TokenIn,
    TokenOut,
    Wire(u32, Wire),
    Wired(u32),
    Birth,
    Stop,
    See,
}

/// A step and the seat that makes it: a node's number, or a worker's behind them.
#[derive(Clone, Copy, PartialEq, Eq)]
pub struct Event {
    pub seat: u32,
    pub step: Step,
}
