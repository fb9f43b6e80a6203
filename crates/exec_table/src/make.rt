//! How a table is made.
ghost use Rattle.std.specs.Prelude.{◌≡◌, ◌≤◌, [], cond, map, false, true, vec_capacity, IfOk, OnOk};
ghost use Rattle.core_laws.specs.Start.{fits};
ghost use Rattle.exec_table.specs.Made.{AreOpenSeats, IsNewTable};
ghost use Rattle.exec_table.specs.Rule.{first_view};
ghost use Rattle.exec_table.specs.Seats.{IsRootOf, identity_of, sizes_in};
ghost use Rattle.exec_table.specs.Words.{flags_word as flags_word_there, wire_word as wire_word_there, words_of};

use crate::growth::wire_word;
use crate::plays::Peel;
use crate::rule::{ExecTable, NodeSeat, RootSeat};
use atomic_table::Table;
use chunk_data::Memory;
use core_laws::{CoreState, Flags, NodeState, PortState, Sizes, Wire};
use exec_core::Start;
use std::alloc::Global;
use std::collections::VecDeque;

/// A table, the seats of its nodes in order of their numbers, and its root.
#[derive(Drop)]
pub struct Made {
    pub table: ExecTable,
    pub nodes: Vec<NodeSeat>,
    pub root: RootSeat,
}

fn word_of_wire(wire: Option<Wire>) -> u64
    ensures { result ≡ wire_word_there wire }
{
    match wire {
        None => 0,
        Some(wire) => wire_word(wire),
    }
}

fn flag(set: bool, bit: u64) -> u64
    ensures { result ≡ cond set bit 0 }
{
    if set { bit } else { 0 }
}

fn word_of_flags(f: Flags) -> u64
    ensures { result ≡ flags_word_there f }
{
    flag(f.needed, 1) + (flag(f.has_data, 2) + (flag(f.fin_out, 4) + flag(f.fin_in, 8)))
}

fn node_words(alloc: Global, nodes: &[NodeState]) -> Result<Vec<u64>, Memory>
    ensures { IfOk result (λ v. v.items ≡ map (λ nd. nd.word) nodes.now) }
{
    Ok(nodes.iter().map(|node| node.word).collect(alloc)?)
}

fn wire_words(alloc: Global, ports: &[PortState]) -> Result<Vec<u64>, Memory>
    ensures { IfOk result (λ v. v.items ≡ map (λ p. wire_word_there p.wire) ports.now) }
{
    Ok(ports.iter().map(|p| word_of_wire(p.wire)).collect(alloc)?)
}

fn port_words(alloc: Global, ports: &[PortState]) -> Result<Vec<u64>, Memory>
    ensures { IfOk result (λ v. v.items ≡ map (λ p. flags_word_there p.flags) ports.now) }
{
    Ok(ports.iter().map(|p| word_of_flags(p.flags)).collect(alloc)?)
}

// All words of a state that nobody stopped.
fn words(alloc: Global, core: &CoreState) -> Result<Vec<u64>, Memory>
    requires { core.now.stopped ≡ false }
    ensures { IfOk result (λ v. v.items ≡ words_of core.now) }
{
    let nodes = node_words(alloc, core.nodes.as_slice())?;
    let wires = wire_words(alloc, core.ports.as_slice())?;
    let flags = port_words(alloc, core.ports.as_slice())?;
    let mut words = Vec::new(alloc);
    words.push(core.pending)?;
    words.extend_from_slice(nodes.as_slice())?;
    words.extend_from_slice(wires.as_slice())?;
    words.extend_from_slice(flags.as_slice())?;
    Ok(words)
}

impl ExecTable {
    /// No node is held, no port has a flag, and the live nodes without output are charged.
    pub fn make(alloc: Global, sizes: &Sizes) -> Result<Made, Memory>
        requires { fits sizes.now ≡ true }
        ensures { IfOk result (λ m. IsNewTable sizes.now m) }
    {
        let core = CoreState::start(alloc, sizes)?;
        let words = words(alloc, &core)?;
        let edges = core.ports.len();
        let mut nodes = Vec::with_capacity(alloc, sizes.nodes as usize)?;
        let (table, seat) = Table::vacant(alloc, words.as_slice(), edges, sizes)?;
        let table = ExecTable {
            table,
            nodes: sizes.nodes,
            edges: edges as u32,
        };
        let mut root = RootSeat { seat };
        table.deal(alloc, &mut root, &mut nodes)?;
        Ok(Made { table, nodes, root })
    }

    // Gives each node a seat of its own, out of the root's.
    fn deal(
        &self,
        alloc: Global,
        root: &mut RootSeat,
        nodes: &mut Vec<NodeSeat>,
    ) -> Result<(), Memory>
        requires seat { root.old.seat.table_id ≡ self.now.table.shared.table_id }
        requires view { root.old.seat.me ≡ (first_view (sizes_in self.now), []) }
        requires room { (nodes.old.items ≡ []) ×
            ((sizes_in self.now).nodes ≤ vec_capacity nodes.old) }
        ensures nodes { OnOk result (AreOpenSeats (identity_of self.now) nodes.new) }
        ensures root { OnOk result (IsRootOf (identity_of self.now) root.new
            × (root.new.seat.me.0.made ≡ 0)) }
    {
        for i in 0..self.nodes {
            let held = VecDeque::with_capacity(alloc, self.edges as usize)?;
            let seat = self.table.shared.split_seat::<Peel>(&mut root.seat);
            nodes.push_reserved(NodeSeat {
                seat,
                node: i,
                held,
            });
        }
        Ok(())
    }
}
