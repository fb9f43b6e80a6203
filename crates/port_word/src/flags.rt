use chunk_data::Chunk;

/// The flags of a port. It counts as finished where either end set its flag.
#[derive(Clone, Copy, PartialEq, Eq)]
pub struct Flags {
    /// The consumer wants a chunk.
    pub needed: bool,
    /// A chunk lies in the port.
    pub has_data: bool,
    /// The producer finished the port.
    pub fin_out: bool,
    /// The consumer closed the port.
    pub fin_in: bool,
}

/// A port of a node, by its number among the node's inputs or outputs.
#[derive(Clone, Copy, PartialEq, Eq)]
pub enum Port {
    Input(usize),
    Output(usize),
}

/// What a node did to one of its ports: to an input, or, for Push and Finish, to an output.
#[derive(Drop)]
pub enum Action {
    Want(usize),
    Unwant(usize),
    Pull(usize),
    Close(usize),
    Push(usize, Chunk),
    Finish(usize),
}

/// A connection: output `out` of the node `from` to input `input` of the node `to`.
#[derive(Clone, Copy, PartialEq, Eq)]
pub struct Wire {
    pub from: u32,
    pub out: u32,
    pub to: u32,
    pub input: u32,
}

/// The nodes and edges that are kept for the growth of `node`: `nodes` many nodes from `first_node`
/// on, and `edges` many edges from `first_edge` on.
#[derive(Clone, Copy, PartialEq, Eq)]
pub struct Reserve {
    pub node: u32,
    pub first_node: u32,
    pub nodes: u32,
    pub first_edge: u32,
    pub edges: u32,
}
