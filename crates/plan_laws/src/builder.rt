ghost use Rattle.std.specs.Prelude.{◌≡◌, ◌+◌, ◌<◌, ◌≤◌, ◌++◌, length, OnOk, IfOk};
ghost use Rattle.plan_laws.specs.Building.{draft_of};
ghost use Rattle.plan_laws.specs.Drafts.{no_draft, with_node, with_nodes, AllFitDraft, given_by, ports_of, run_of, wires_to};

use crate::nodes::{DraftNode, NodePort};
use chunk_data::{List, Memory};
use port_word::Wire;
use std::alloc::Global;

/// The graph that a list of nodes makes: ranks, wires, and what is open.
#[derive(Drop)]
pub struct DraftBuilder {
    pub ranks: List<u32>,
    pub wires: List<Wire>,
    pub ends: List<NodePort>,
}

impl DraftBuilder {
    /// The graph of no nodes.
    pub fn new(alloc: Global) -> DraftBuilder
        ensures { draft_of result ≡ no_draft }
    {
        DraftBuilder {
            ranks: List::new(alloc),
            wires: List::new(alloc),
            ends: List::new(alloc),
        }
    }

    /// Adds the node behind the others.
    pub fn add(&mut self, alloc: Global, node: &DraftNode) -> Result<(), Memory>
        requires ends_there { node.now.offset + node.now.takes ≤ length self.old.ends }
        requires few_nodes { length self.old.ranks < 256 }
        ensures { OnOk result (draft_of self.new ≡ with_node node.now (draft_of self.old)) }
    {
        let number = self.ranks.len() as u32;
        let ends = ends_with(alloc, self.ends.as_slice(), node, number)?;
        add_wires(&mut self.wires, self.ends.as_slice(), node, number)?;
        self.ends = ends;
        match self.ranks.push(node.rank) {
            Ok(()) => Ok(()),
            Err(_) => Err(Memory),
        }
    }
}

/// Adds the wires to the inputs of the node.
fn add_wires(
    wires: &mut List<Wire>,
    ends: &[NodePort],
    node: &DraftNode,
    number: u32,
) -> Result<(), Memory>
    requires { node.now.offset + node.now.takes ≤ length ends.now }
    ensures { OnOk result (wires.new
        ≡ wires.old ++ wires_to number 0 (run_of node.now.offset node.now.takes ends.now)) }
{
    for i in 0..node.takes {
        let end = ends[node.offset as usize + i as usize];
        let wire = Wire {
            from: end.node,
            out: end.port,
            to: number,
            input: i,
        };
        match wires.push(wire) {
            Ok(()) => {}
            Err(_) => return Err(Memory),
        }
    }
    Ok(())
}

/// The open ends with the node's outputs in the place of those that it takes.
fn ends_with(
    alloc: Global,
    ends: &[NodePort],
    node: &DraftNode,
    number: u32,
) -> Result<List<NodePort>, Memory>
    requires { node.now.offset + node.now.takes ≤ length ends.now }
    ensures { IfOk result (λ l. l ≡ given_by node.now (ports_of number 0 node.now.gives) ends.now) }
{
    let mut next = List::new(alloc);
    copy(&mut next, &ends[..node.offset as usize])?;
    add_outputs(&mut next, number, node.gives)?;
    copy(
        &mut next,
        &ends[node.offset as usize + node.takes as usize..],
    )?;
    Ok(next)
}

fn copy(to: &mut List<NodePort>, from: &[NodePort]) -> Result<(), Memory>
    ensures { OnOk result (to.new ≡ to.old ++ from.now) }
{
    for end in from {
        match to.push(*end) {
            Ok(()) => {}
            Err(_) => return Err(Memory),
        }
    }
    Ok(())
}

fn add_outputs(to: &mut List<NodePort>, number: u32, count: u32) -> Result<(), Memory>
    ensures { OnOk result (to.new ≡ to.old ++ ports_of number 0 count) }
{
    for port in 0..count {
        match to.push(NodePort { node: number, port }) {
            Ok(()) => {}
            Err(_) => return Err(Memory),
        }
    }
    Ok(())
}

/// The graph of the nodes.
pub fn build(alloc: Global, nodes: &[DraftNode]) -> Result<DraftBuilder, Memory>
    requires fit { AllFitDraft nodes.now no_draft }
    requires few_nodes { length nodes.now ≤ 256 }
    ensures { IfOk result (λ b. draft_of b ≡ with_nodes nodes.now no_draft) }
{
    let mut builder = DraftBuilder::new(alloc);
    for node in nodes {
        builder.add(alloc, node)?;
    }
    Ok(builder)
}
