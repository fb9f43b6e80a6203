//! The flaws of a growth's edges, which are seen without the graph.
ghost use Rattle.std.specs.Prelude.{◌≡◌, ◌≤◌, None, length};
ghost use Rattle.std.specs.List.{list_any};
ghost use Rattle.exec_laws.specs.Growths.{end_rank, has_large_port, has_wrong_end, is_named, is_out_of_order};
ghost use Rattle.proc_api.specs.Ports.{is_me};
ghost use Rattle.graph_checks.specs.Flaws.{edges_flaw, ranks_of};

use exec_laws::GrowthFlaw;
use proc_api::{Edge, GrowNode, Who};

/// The most inputs that a node has.
const MOST_INPUTS: u32 = 32;

/// The most outputs that a node has.
const MOST_OUTPUTS: u32 = 16;

/// The first flaw of the edges of a growth, by the rank of the node that grows and by how many
/// blanks and edges are left of its reserve.
pub fn edges_flaw(
    rank: u32,
    blanks: usize,
    left: usize,
    nodes: &[GrowNode],
    edges: &[Edge],
) -> Option<GrowthFlaw>
    ensures flaw { result
        ≡ edges_flaw rank blanks left (length nodes.now) (ranks_of nodes.now) edges.now }
    ensures few { result ≡ None → length nodes.now ≤ blanks }
{
    if nodes.len() > blanks {
        return Some(GrowthFlaw::TooManyNodes);
    }
    if edges.len() > left {
        return Some(GrowthFlaw::TooManyEdges);
    }
    if any_wrong_end(nodes.len(), edges) {
        return Some(GrowthFlaw::WrongEnd);
    }
    if any_out_of_order(rank, nodes, edges) {
        return Some(GrowthFlaw::RankOrder);
    }
    if any_large_port(edges) {
        return Some(GrowthFlaw::TooManyPorts);
    }
    None
}

fn any_wrong_end(count: usize, edges: &[Edge]) -> bool
    ensures { result ≡ list_any (has_wrong_end count) edges.now }
{
    edges.iter().any(|e| has_wrong_end(count, e))
}

/// Whether both its ends are at the node that grows, or one names no new node.
fn has_wrong_end(count: usize, edge: &Edge) -> bool
    ensures { result ≡ has_wrong_end count edge.now }
{
    !(is_named(count, edge.from.who) && is_named(count, edge.to.who))
        || (is_me(edge.from.who) && is_me(edge.to.who))
}

fn is_named(count: usize, who: Who) -> bool
    ensures { result ≡ is_named count who }
{
    match who {
        Who::Me => true,
        Who::New(k) => (k as usize) < count,
    }
}

fn is_me(who: Who) -> bool
    ensures { result ≡ is_me who }
{
    matches!(who, Who::Me)
}

fn any_out_of_order(rank: u32, nodes: &[GrowNode], edges: &[Edge]) -> bool
    ensures { result ≡ list_any (is_out_of_order rank (ranks_of nodes.now)) edges.now }
{
    edges.iter().any(|e| is_out_of_order(rank, nodes, e))
}

fn is_out_of_order(rank: u32, nodes: &[GrowNode], edge: &Edge) -> bool
    ensures { result ≡ is_out_of_order rank (ranks_of nodes.now) edge.now }
{
    rank_of_end(rank, nodes, edge.from.who) >= rank_of_end(rank, nodes, edge.to.who)
}

fn rank_of_end(rank: u32, nodes: &[GrowNode], who: Who) -> u32
    ensures { result ≡ end_rank rank (ranks_of nodes.now) who }
{
    match who {
        Who::Me => rank,
        Who::New(k) => {
            if (k as usize) < nodes.len() {
                nodes[k as usize].rank
            } else {
                0
            }
        }
    }
}

fn any_large_port(edges: &[Edge]) -> bool
    ensures { result ≡ list_any has_large_port edges.now }
{
    edges.iter().any(|e| has_large_port(e))
}

fn has_large_port(edge: &Edge) -> bool
    ensures { result ≡ has_large_port edge.now }
{
    !(edge.to.port < MOST_INPUTS && edge.from.port < MOST_OUTPUTS)
}
