ghost use Rattle.std.specs.Prelude.{◌≡◌, ℕ, ◌<◌, ◌≤◌, ◌++◌, ◌∷◌, [], length, map, replicate, IfOk};
ghost use Rattle.proc_api.specs.Graphs.{reserved_edges};
ghost use Rattle.proc_api.specs.Reserves.{behind_wires, reserve_at};

use chunk_data::{List, Memory};
use port_word::Reserve;

/// How many edges the reserves have.
pub(crate) fn reserved_edges(reserves: &[Reserve]) -> usize
    requires { reserved_edges reserves.now ≤ 1024 }
    ensures { result ≡ reserved_edges reserves.now }
{
    let mut edges = 0;
    for reserve in reserves {
        edges += reserve.edges as usize;
    }
    edges
}

/// The ranks with those of so many unborn nodes, which get theirs when they are born.
pub(crate) fn with_unborn(ranks: &List<u32>, nodes: usize) -> Result<List<u32>, Memory>
    ensures { IfOk result (λ all. all ≡ ranks.now ++ replicate nodes 0) }
{
    let mut all = ranks.copy()?;
    for _node in 0..nodes {
        match all.push(0) {
            Ok(()) => {}
            Err(_) => return Err(Memory),
        }
    }
    Ok(all)
}

/// The reserves with one more.
pub(crate) fn with_reserve(
    reserves: &List<Reserve>,
    reserve: Reserve,
) -> Result<List<Reserve>, Memory>
    ensures { IfOk result (λ all. all ≡ reserves.now ++ reserve ∷ []) }
{
    let mut all = reserves.copy()?;
    match all.push(reserve) {
        Ok(()) => Ok(all),
        Err(_) => Err(Memory),
    }
}

/// The reserves of a graph with so many wires: their edges are numbered behind these.
pub(crate) fn behind_wires(reserves: List<Reserve>, wires: usize) -> List<Reserve>
    requires wires { wires ≤ 1024 }
    requires edges { (k : ℕ) → k < length reserves → (reserve_at reserves k).first_edge ≤ 1024 }
    ensures { result ≡ map (behind_wires wires) reserves }
{
    let mut all = reserves.into_vec();
    for reserve in all.iter_mut() {
        reserve.first_edge += wires as u32;
    }
    List::from_vec(all)
}
