//! The state at the start.
ghost use Rattle.std.specs.Prelude.{◌≡◌, ◌≤◌, ◌+◌, IfOk, length, true};
ghost use Rattle.core_laws.specs.Views.{edges_of as edges_there, reserved_edge_count as reserved_there, counts as counts_there};
ghost use Rattle.core_laws.specs.Start.{fits, start_port as start_port_there, sights_of as ports_there, start_node as start_node_there, start_word as start_word_there, charged as charged_there, has_output_edge as has_output_there, is_reserved_node as is_reserved_there, start as start_there};
ghost use Rattle.core_laws.specs.Laws.{Laws};

use crate::lookups::{NO_FLAGS, is_set, names};
use crate::places::{blank_node, fresh_port};
use chunk_data::{List, Memory};
use core_laws::{CoreState, NodeState, PortState, Reserve, Sight, Sizes, Wire};
use std::alloc::Global;

fn is_reserved(n: u32, reserves: &[Reserve]) -> bool
    ensures { result ≡ is_reserved_there n reserves.now }
{
    reserves.iter().any(|r| r.first_node <= n && (n as u64) < r.first_node as u64 + r.nodes as u64)
}

fn has_output(n: u32, wires: &[Wire]) -> bool
    ensures { result ≡ has_output_there n wires.now }
{
    wires.iter().any(|w| w.from == n)
}

/// How many edges the reserves have.
fn reserved_edges(reserves: &[Reserve]) -> u32
    requires { reserved_there reserves.now ≤ 1024 }
    ensures { result ≡ reserved_there reserves.now }
{
    let mut edges = 0;
    for r in reserves {
        edges += r.edges;
    }
    edges
}

fn start_port(alloc: Global, sizes: &Sizes, e: u32) -> PortState
    ensures { result ≡ start_port_there sizes.now e }
{
    if (e as usize) < sizes.wires.len() {
        fresh_port(alloc, Some(*sizes.wires.get(e as usize)))
    } else {
        fresh_port(alloc, None)
    }
}

fn ports(alloc: Global, sizes: &Sizes) -> Result<List<PortState>, Memory>
    requires { fits sizes.now ≡ true }
    ensures { IfOk result (λ l. l ≡ (start_there sizes.now).ports) }
{
    let edges = sizes.wires.len() as u32 + reserved_edges(sizes.reserves.as_slice());
    let mut ports = Vec::new(alloc);
    for e in 0..edges {
        ports.push(start_port(alloc, sizes, e))?;
    }
    Ok(List::from_vec(ports))
}

/// What the node sees of its ports among the wires.
fn ports_of(alloc: Global, n: u32, wires: &[Wire]) -> Result<List<Sight>, Memory>
    requires { length wires.now ≤ 1024 }
    ensures { IfOk result (λ l. l ≡ ports_there n wires.now) }
{
    let mut seen = Vec::new(alloc);
    let flags = NO_FLAGS;
    for e in 0..wires.len() as u32 {
        if names(n, Some(wires[e as usize])) {
            seen.push(Sight { edge: e, flags })?;
        }
    }
    Ok(List::from_vec(seen))
}

fn edges_of(alloc: Global, seen: &[Sight]) -> Result<List<u32>, Memory>
    ensures { IfOk result (λ l. l ≡ edges_there seen.now) }
{
    Ok(List::from_vec(seen.iter().map(|sight| sight.edge).collect(alloc)?))
}

/// A node of a reserve is unborn, and a live one without output is charged.
fn start_word(sizes: &Sizes, n: u32) -> u64
    ensures { result ≡ start_word_there sizes.now n }
{
    if is_reserved(n, sizes.reserves.as_slice()) {
        1 << 61
    } else if has_output(n, sizes.wires.as_slice()) {
        0
    } else {
        1 << 60
    }
}

fn start_node(alloc: Global, sizes: &Sizes, n: u32) -> Result<NodeState, Memory>
    requires { length sizes.now.wires ≤ 1024 }
    ensures { IfOk result (λ x. x ≡ start_node_there sizes.now n) }
{
    let mut node = blank_node(alloc);
    node.word = start_word(sizes, n);
    node.seen = ports_of(alloc, n, sizes.wires.as_slice())?;
    node.unlooked = edges_of(alloc, node.seen.as_slice())?;
    Ok(node)
}

fn nodes(alloc: Global, sizes: &Sizes) -> Result<List<NodeState>, Memory>
    requires { length sizes.now.wires ≤ 1024 }
    ensures { IfOk result (λ l. l ≡ (start_there sizes.now).nodes) }
{
    let mut nodes = Vec::new(alloc);
    for n in 0..sizes.nodes {
        nodes.push(start_node(alloc, sizes, n)?)?;
    }
    Ok(List::from_vec(nodes))
}

/// 1 for the word of a charged or held node.
fn counts(word: u64) -> u64
    ensures value { result ≡ counts_there word }
    ensures most { result ≤ 1 }
{
    if word == 0 || (is_set(word, 61) || is_set(word, 63)) {
        0
    } else {
        1
    }
}

/// How many of the nodes are charged.
#[tactic(auto, using(crate::proofs::Starting::one_more))]
fn charged(sizes: &Sizes) -> u64
    ensures { result ≡ charged_there sizes.now sizes.now.nodes }
{
    let mut charged = 0u64;
    for n in 0..sizes.nodes {
        charged += counts(start_word(sizes, n));
    }
    charged
}

/// The start of an execution.
pub trait Start: Sized {
    /// The state at the start: no node is held, no port has a flag, and the live nodes without
    /// output are charged.
    fn start(alloc: Global, sizes: &Sizes) -> Result<Self, Memory>
        requires { fits sizes.now ≡ true };
}

impl Start for CoreState {
    #[tactic(auto, using(crate::proofs::Starting::laws))]
    fn start(alloc: Global, sizes: &Sizes) -> Result<CoreState, Memory>
        requires fit { fits sizes.now ≡ true }
        ensures is_start { IfOk result (λ c. c ≡ start_there sizes.now) }
        ensures laws { IfOk result (λ c. Laws c) }
    {
        let ports = ports(alloc, sizes)?;
        let nodes = nodes(alloc, sizes)?;
        let copied = Sizes {
            wires: sizes.wires.copy()?,
            reserves: sizes.reserves.copy()?,
            ..*sizes
        };
        Ok(CoreState {
            sizes: copied,
            ports,
            nodes,
            pending: charged(sizes),
            stopped: false,
        })
    }
}
