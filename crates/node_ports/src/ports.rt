//! What a node has of its ports.
ghost use Rattle.std.specs.Prelude.{◌≡◌, length};
ghost use Rattle.exec_laws.specs.Names.{IsPort, port_edge};

use exec_table::Updated;
use port_word::{Port, PortView};

/// What a node has of its ports: its picture of them, and for each port the number of its edge, the
/// node at the edge's other end, and, of an input, whether the shared port says that it is needed.
///
/// `updated` names the ports that the node is yet to look at, as the updated ports of a `Node` in
/// ClickHouse's `ExecutingGraph.h`. Of a node that never began it is all of them (`first`). An edge
/// that the node learns later, where a graph grows, is yet to be looked at too: whoever has it
/// learned sets the bit of its port here.
#[derive(Drop)]
pub struct NodePorts {
    pub view: PortView,
    pub inputs: Vec<u32>,
    pub outputs: Vec<u32>,
    pub sources: Vec<u32>,
    pub targets: Vec<u32>,
    pub needed: Vec<bool>,
    pub updated: Updated,
}

impl NodePorts {
    /// The number of the port's edge.
    pub(crate) fn edge_at(&self, port: Port) -> u32
        requires { IsPort (length self.now.inputs.items) (length self.now.outputs.items) port }
        ensures { result ≡ port_edge self.now.inputs.items self.now.outputs.items port }
    {
        match port {
            Port::Input(i) => self.inputs[i],
            Port::Output(o) => self.outputs[o],
        }
    }

    /// The number of the node at the other end of the port's edge.
    pub(crate) fn peer_at(&self, port: Port) -> u32
        requires { IsPort (length self.now.sources.items) (length self.now.targets.items) port }
        ensures { result ≡ port_edge self.now.sources.items self.now.targets.items port }
    {
        match port {
            Port::Input(i) => self.sources[i],
            Port::Output(o) => self.targets[o],
        }
    }
}
