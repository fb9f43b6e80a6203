//! A state's nodes and ports, exchanged, and the lists of a node's view.
ghost use Rattle.std.specs.Prelude.{◌≡◌, ◌<◌, length, not, ◌==◌, cond, IfOk, ◌++◌, ◌∷◌, []};
ghost use Rattle.core_laws.specs.Views.{node_at, port_at, put_node, put_port, no_node, no_port, seeing, without as without_there, adding as adding_there};

use crate::lookups::{NO_FLAGS, has};
use chunk_data::{List, Memory};
use core_laws::{CoreState, Flags, NodeState, PortState, Sight, Wire};
use std::alloc::Global;
use std::mem::replace;

pub(crate) fn blank_node(alloc: Global) -> NodeState
    ensures { result ≡ no_node }
{
    NodeState {
        word: 0,
        held: false,
        tokens: 0,
        seen: List::new(alloc),
        unlooked: List::new(alloc),
        owes: List::new(alloc),
    }
}

pub(crate) fn fresh_port(alloc: Global, wire: Option<Wire>) -> PortState
    ensures { result ≡ record no_port { wire = wire } }
{
    PortState {
        flags: NO_FLAGS,
        slot: None,
        pushed: List::new(alloc),
        pulled: List::new(alloc),
        wire,
    }
}

/// The state with this node, and the one that it had there.
pub(crate) fn swap_node(core: CoreState, n: u32, node: NodeState) -> (CoreState, NodeState)
    requires { n < length core.nodes }
    ensures core { result.0 ≡ put_node core n node }
    ensures node { result.1 ≡ node_at core n }
{
    let mut nodes = core.nodes.into_vec();
    let old = replace(&mut nodes[n as usize], node);
    let nodes = List::from_vec(nodes);
    (CoreState { nodes, ..core }, old)
}

/// The state with this port, and the one that it had there.
pub(crate) fn swap_port(core: CoreState, e: u32, port: PortState) -> (CoreState, PortState)
    requires { e < length core.ports }
    ensures core { result.0 ≡ put_port core e port }
    ensures port { result.1 ≡ port_at core e }
{
    let mut ports = core.ports.into_vec();
    let old = replace(&mut ports[e as usize], port);
    let ports = List::from_vec(ports);
    (CoreState { ports, ..core }, old)
}

/// The list with these flags at the edge.
pub(crate) fn with_sight(seen: List<Sight>, e: u32, flags: Flags) -> List<Sight>
    ensures { result ≡ seeing e flags seen }
{
    let mut seen = seen.into_vec();
    for i in 0..seen.len() {
        if seen[i].edge == e {
            seen[i] = Sight { edge: e, flags };
            return List::from_vec(seen);
        }
    }
    List::from_vec(seen)
}

pub(crate) fn without(edges: List<u32>, e: u32) -> List<u32>
    ensures { result ≡ without_there e edges }
{
    let mut edges = edges.into_vec();
    edges.retain(
        |d| -> bool
            ensures { result ≡ not (d.now == e) }
        { *d != e },
    );
    List::from_vec(edges)
}

/// The list with the item at its end.
pub(crate) fn pushed<T: Drop>(list: List<T>, item: T) -> Result<List<T>, Memory>
    ensures { IfOk result (λ l. l ≡ list ++ item ∷ []) }
{
    let mut list = list;
    match list.push(item) {
        Ok(()) => Ok(list),
        Err(_) => Err(Memory),
    }
}

/// The edges with one more, if `more` says so and it isn't there.
pub(crate) fn adding(more: bool, edges: List<u32>, e: u32) -> Result<List<u32>, Memory>
    ensures { IfOk result (λ l. l ≡ cond more (adding_there e edges) edges) }
{
    if more && !has(&edges, e) {
        pushed(edges, e)
    } else {
        Ok(edges)
    }
}
