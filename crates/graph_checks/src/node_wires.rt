//! The wires at one node, as the node itself knows them.
ghost use Rattle.std.specs.Prelude.{◌≡◌, ◌≤◌, ◌++◌, length, IfOk, OnOk};
ghost use Rattle.graph_checks.specs.OwnWires.{own_wire, own_wires, wires_for};

use chunk_data::{List, Memory};
use port_word::Wire;
use std::alloc::Global;

/// The wires at node n, by the nodes at the other ends of its inputs and of its outputs. A growth
/// of the node has the same flaws over these wires as over all.
pub fn own_wires(
    alloc: Global,
    n: u32,
    sources: &[u32],
    targets: &[u32],
) -> Result<List<Wire>, Memory>
    requires few_inputs { length sources.now ≤ 32 }
    requires few_outputs { length targets.now ≤ 32 }
    ensures { IfOk result (λ own. own ≡ own_wires n sources.now targets.now) }
{
    let mut wires = List::new(alloc);
    add_own_wires(&mut wires, true, n, sources)?;
    add_own_wires(&mut wires, false, n, targets)?;
    Ok(wires)
}

fn add_own_wires(
    wires: &mut List<Wire>,
    consumer: bool,
    n: u32,
    peers: &[u32],
) -> Result<(), Memory>
    requires { length peers.now ≤ 32 }
    ensures { OnOk result (wires.new
        ≡ wires.old ++ wires_for (own_wire consumer n) 0 peers.now) }
{
    for (k, peer) in peers.iter().enumerate() {
        match wires.push(own_wire(consumer, n, *peer, k as u32)) {
            Ok(()) => {}
            Err(_) => return Err(Memory),
        }
    }
    Ok(())
}

fn own_wire(consumer: bool, n: u32, peer: u32, k: u32) -> Wire
    ensures { result ≡ own_wire consumer n peer k }
{
    if consumer {
        Wire {
            from: peer,
            out: 0,
            to: n,
            input: k,
        }
    } else {
        Wire {
            from: n,
            out: k,
            to: peer,
            input: 0,
        }
    }
}
