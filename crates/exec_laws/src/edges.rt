ghost use Rattle.std.specs.Prelude.{◌≡◌};
ghost use Rattle.exec_laws.specs.Names.{new_edge, new_mark, told};

use chunk_data::Chunk;
use port_word::Flags;
use proc_api::Status;

/// A connection between two ports: their flags, and the chunk that was pushed and that its consumer
/// hasn't seen yet.
#[derive(Drop)]
pub struct EdgeState {
    pub flags: Flags,
    pub chunk: Option<Chunk>,
}

const NO_FLAGS: Flags = Flags {
    needed: false,
    has_data: false,
    fin_out: false,
    fin_in: false,
};

impl EdgeState {
    /// A connection over which nothing has passed yet.
    pub fn new() -> EdgeState
        ensures { result ≡ new_edge }
    {
        EdgeState {
            flags: NO_FLAGS,
            chunk: None,
        }
    }
}

/// The call that the box of a node at work is due.
#[derive(Clone, Copy, PartialEq, Eq)]
pub enum DueCall {
    Work,
    Schedule,
    /// It says by what the graph grows.
    Expand,
}

/// What an executor does next with a node.
#[derive(Clone, Copy, PartialEq, Eq)]
pub enum NodeStatus {
    /// Nothing, until a port changes.
    Resting,
    /// A port may have changed since the node saw it, or its box has worked: it is prepared.
    Due,
    /// This call of its box comes, and then it is prepared.
    AtWork(DueCall),
    /// It is finished for good.
    Over,
    /// It is kept for the growth of another node.
    Unborn,
}

/// What an executor remembers of a node: what comes next, and the last answer to `prepare`.
#[derive(Clone, Copy, PartialEq, Eq)]
pub struct NodeMark {
    pub state: NodeStatus,
    pub last: Option<Status>,
}

impl NodeMark {
    /// The mark before the first move of a node with this number of outputs. A node without outputs
    /// is due: it asks first.
    pub fn new(outputs: usize) -> NodeMark
        ensures { result ≡ new_mark outputs }
    {
        let state = if outputs == 0 {
            NodeStatus::Due
        } else {
            NodeStatus::Resting
        };
        NodeMark { state, last: None }
    }

    /// The mark of a node one of whose ports has changed.
    pub fn told(self) -> NodeMark
        ensures { result ≡ told self }
    {
        let state = match self.state {
            NodeStatus::Resting => NodeStatus::Due,
            state => state,
        };
        NodeMark {
            state,
            last: self.last,
        }
    }
}

/// A node that isn't over when nothing is due: its number, and its last status, if it was prepared.
#[derive(Clone, Copy, PartialEq, Eq)]
pub struct StuckNode {
    pub node: u32,
    pub last: Option<Status>,
}
