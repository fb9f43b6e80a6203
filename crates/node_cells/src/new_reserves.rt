//! What each node may grow by in a graph that wasn't run.
ghost use Rattle.std.specs.Prelude.{◌≡◌, ◌<◌, [], IfOk, length, map};
ghost use Rattle.exec_laws.specs.Names.{blanks_of, box_at, reserve_of};
ghost use Rattle.proc_api.specs.Names.{rank_at};
ghost use Rattle.node_cells.specs.NewReserves.{IsBlankReserve, IsNewReserve};

use crate::cell::NodeReserve;
use chunk_data::Memory;
use exec_laws::Blank;
use port_word::Reserve;
use proc_api::Processor;
use query_model::processor_spec::Kind;
use std::alloc::Global;

const NO_RESERVE: Reserve = Reserve {
    node: 0,
    first_node: 0,
    nodes: 0,
    first_edge: 0,
    edges: 0,
};

/// The reserve of a node; one without nodes and edges where it has none.
pub fn reserve_of(reserves: &[Reserve], n: usize) -> Reserve
    ensures { result ≡ reserve_of reserves.now n }
{
    for reserve in reserves {
        if reserve.node as usize == n {
            return *reserve;
        }
    }
    NO_RESERVE
}

#[tactic(auto, unfolding(proc_api::specs::Graphs::rank_at))]
fn rank_of(ranks: &[u32], n: usize) -> u32
    ensures { result ≡ rank_at ranks.now n }
{
    if n < ranks.len() { ranks[n] } else { 0 }
}

fn kind_of_box<P: Processor>(processor: &P) -> Kind
    ensures { result ≡ (P.seen processor.now).kind }
{
    processor.kind()
}

fn kind_at<P: Processor>(boxes: &Vec<P>, n: usize) -> Kind
    requires { n < length boxes.now.items }
    ensures { result ≡ (box_at (map P.seen boxes.now.items) n).kind }
{
    kind_of_box(&boxes[n])
}

/// The nodes of a reserve, none of which is born, in order, with the kinds of their boxes.
fn new_blanks<P: Processor>(
    alloc: Global,
    boxes: &Vec<P>,
    reserve: Reserve,
) -> Result<Vec<Blank>, Memory>
    requires { IsBlankReserve (map P.seen boxes.now.items) reserve }
    ensures { IfOk result (λ all. all.items
        ≡ blanks_of (map P.seen boxes.now.items) [] reserve.first_node reserve.nodes) }
{
    let mut all = Vec::new(alloc);
    for k in 0..reserve.nodes {
        let node = reserve.first_node + k;
        let kind = kind_at(boxes, node as usize);
        all.push(Blank { node, kind })?;
    }
    Ok(all)
}

/// What node n may grow by.
pub(crate) fn new_reserve<P: Processor>(
    alloc: Global,
    boxes: &Vec<P>,
    ranks: &[u32],
    reserves: &[Reserve],
    n: usize,
) -> Result<NodeReserve, Memory>
    requires { IsBlankReserve (map P.seen boxes.now.items) (reserve_of reserves.now n) }
    ensures { IfOk result
        (λ r. IsNewReserve ranks.now reserves.now (map P.seen boxes.now.items) n r) }
{
    let reserve = reserve_of(reserves, n);
    let blanks = new_blanks(alloc, boxes, reserve)?;
    Ok(NodeReserve {
        rank: rank_of(ranks, n),
        nodes: boxes.len() as u32,
        blanks,
        next_edge: reserve.first_edge,
        edges: reserve.edges,
    })
}
