//! What a state has at a node, at an edge and in a node's view.
ghost use Rattle.std.specs.Prelude.{◌≡◌, ◌<◌, length};
ghost use Rattle.core_laws.specs.Views.{has as has_edge, knows as knows_edge, flags_at as flags_there, node_at, port_at, is_set as is_set_there, is_end as is_end_there, names as names_there};
ghost use Rattle.core_laws.specs.Steps.{peer_in as peer_there, bit_at_end as bit_there};

use chunk_data::List;
use core_laws::{CoreState, Flags, NodeState, PortState, Sight, Wire};

pub(crate) const NO_FLAGS: Flags = Flags {
    needed: false,
    has_data: false,
    fin_out: false,
    fin_in: false,
};

pub(crate) fn has(edges: &List<u32>, e: u32) -> bool
    ensures { result ≡ has_edge e edges.now }
{
    edges.as_slice().iter().any(|d| *d == e)
}

pub(crate) fn knows(seen: &List<Sight>, e: u32) -> bool
    ensures { result ≡ knows_edge e seen.now }
{
    let mut edges = seen.as_slice().iter().map(|sight| sight.edge);
    edges.any(|d| d == e)
}

/// The flags that the node sees at the edge, none where it hasn't learned it.
pub(crate) fn flags_at(seen: &[Sight], e: u32) -> Flags
    ensures { result ≡ flags_there e seen.now }
{
    for sight in seen {
        if sight.edge == e {
            return sight.flags;
        }
    }
    NO_FLAGS
}

pub(crate) fn node(core: &CoreState, n: u32) -> &NodeState
    requires { n < length core.now.nodes }
    ensures { result.now ≡ node_at core.now n }
{
    core.nodes.get(n as usize)
}

pub(crate) fn port(core: &CoreState, e: u32) -> &PortState
    requires { e < length core.now.ports }
    ensures { result.now ≡ port_at core.now e }
{
    core.ports.get(e as usize)
}

/// The wire of the edge, none where there is no such edge.
pub(crate) fn wire_of(core: &CoreState, e: u32) -> Option<Wire>
    ensures { result ≡ (port_at core.now e).wire }
{
    if (e as usize) < core.ports.len() {
        port(core, e).wire
    } else {
        None
    }
}

pub(crate) fn is_end(consumer: bool, n: u32, wire: Option<Wire>) -> bool
    ensures { result ≡ is_end_there consumer n wire }
{
    match wire {
        None => false,
        Some(w) if consumer => w.to == n,
        Some(w) => w.from == n,
    }
}

pub(crate) fn names(n: u32, wire: Option<Wire>) -> bool
    ensures { result ≡ names_there n wire }
{
    is_end(true, n, wire) || is_end(false, n, wire)
}

pub(crate) fn peer_in(n: u32, wire: Option<Wire>) -> u32
    ensures { result ≡ peer_there n wire }
{
    match wire {
        None => n,
        Some(w) if w.to == n => w.from,
        Some(w) => w.to,
    }
}

/// The bit of the edge in the word of its end `n`.
pub(crate) fn bit_at_end(n: u32, wire: Option<Wire>) -> u64
    ensures { result ≡ bit_there n wire }
{
    match wire {
        None => 0,
        Some(w) if w.to == n => w.input as u64,
        Some(w) => 32 + w.out as u64,
    }
}

#[tactic(auto, using(crate::proofs::Words::high_bit))]
pub(crate) fn is_set(word: u64, k: u64) -> bool
    ensures { result ≡ is_set_there word k }
{
    k < 64 && (word >> k) & 1 == 1
}
