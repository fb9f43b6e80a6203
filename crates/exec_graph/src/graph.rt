ghost use Rattle.std.specs.Prelude.{◌≡◌, ℕ, ◌<◌, ◌≤◌, ◌+◌, ◌++◌, ◌∷◌, [], true, false, None, length, map, IfOk, IfErr, OnOk, OnErr, IfSome, IfNone};
ghost use Rattle.std.specs.List.{All};
ghost use Rattle.proc_api.specs.Names.{IsBlank, IsFresh, is_gapless, IsGraphSoFar, IsGraph, reserved_edges};
ghost use Rattle.exec_graph.specs.Building.{IsAddRefused, edge_refusal, IsEdgeRefused, IsBuildRefused, IsReserveRefused};
ghost use Rattle.proc_api.specs.Reserves.{AreReserves, AreStarting, IsAdded, behind_wires};

use crate::causes::{
    AddCause, BuildCause, BuildRefusal, NotAdded, NotBuilt, NotReserved, ReserveCause,
};
use crate::edges::{has_small_ports, is_ranked};
use crate::reserves::{behind_wires, reserved_edges, with_reserve, with_unborn};
use chunk_data::List;
use graph_checks::{is_gapless, is_port_taken};
use port_word::{Reserve, Wire};
use proc_api::Processor;
use std::alloc::Global;

const MAX_NODES: usize = 256;

const MAX_EDGES: usize = 1024;

/// Processors connected by edges. Node n has box n and rank n.
#[derive(Drop)]
pub struct Graph {
    pub boxes: Vec<Box<dyn Processor + Send>>,
    pub ranks: List<u32>,
    pub wires: List<Wire>,
    /// What is kept for nodes that grow. The edges that are kept are numbered behind the wires.
    pub reserves: List<Reserve>,
    ghost one_each: { length boxes.items ≡ length ranks },
    ghost well_formed: { IsGraph ranks wires reserves },
    ghost reserves_fit: { AreReserves (length ranks) (length wires) wires reserves },
}

/// A graph to which nodes and edges are added.
#[derive(Drop)]
pub struct GraphBuilder {
    pub boxes: Vec<Box<dyn Processor + Send>>,
    pub ranks: List<u32>,
    pub wires: List<Wire>,
    /// What is kept for nodes that grow. Until `finish` the edges that are kept are numbered from
    /// 0.
    pub reserves: List<Reserve>,
    ghost one_each: { length boxes.items ≡ length ranks },
    ghost well_formed: { IsGraphSoFar ranks wires reserves },
    ghost reserves_fit: { AreReserves (length ranks) 0 wires reserves },
}

impl GraphBuilder {
    ghost use Rattle.exec_graph.specs.Builders.{AddsReserve, HasParts, IsUnchanged, MayReserve};

    /// A graph without nodes.
    pub fn new(alloc: Global) -> GraphBuilder
        ensures boxes { result.boxes.items ≡ [] }
        ensures parts { HasParts result [] [] [] }
    {
        GraphBuilder {
            boxes: Vec::new(alloc),
            ranks: List::new(alloc),
            wires: List::new(alloc),
            reserves: List::new(alloc),
        }
    }

    /// Adds a node, and gives its number. After a refusal the builder is unchanged, and the box is
    /// handed back.
    pub fn add(&mut self, b: Box<dyn Processor + Send>, rank: u32) -> Result<u32, NotAdded>
        requires fresh { IsFresh (seen b) }
        ensures number { IfOk result (λ n. (n ≡ length self.old.ranks) × (n < 256)) }
        ensures boxes { OnOk result (self.new.boxes.items ≡ self.old.boxes.items ++ b ∷ []) }
        ensures parts { OnOk result (HasParts self.new (self.old.ranks ++ rank ∷ []) self.old.wires
            self.old.reserves) }
        ensures starting { AreStarting self.old.reserves (map (λ b. seen b) self.old.boxes.items)
            → AreStarting self.new.reserves (map (λ b. seen b) self.new.boxes.items) }
        ensures handed_back { IfErr result (λ r. r.processor ≡ b) }
        ensures refused { IfErr result (λ r. IsAddRefused r.cause (length self.old.ranks)) }
        ensures unchanged { OnErr result (IsUnchanged self.old self.new) }
    {
        let node = self.ranks.len();
        if node >= MAX_NODES {
            return Err(NotAdded {
                processor: b,
                cause: AddCause::TooManyNodes,
            });
        }
        match self.boxes.push(b) {
            Ok(()) => {}
            Err(e) => {
                return Err(NotAdded {
                    processor: e.value,
                    cause: AddCause::Memory,
                });
            }
        }
        match self.ranks.push(rank) {
            Ok(()) => Ok(node as u32),
            Err(_) => Err(NotAdded {
                processor: self.boxes.remove(node),
                cause: AddCause::Memory,
            }),
        }
    }

    /// Adds an edge from an output of a node to an input of another. After a refusal the builder is
    /// unchanged.
    pub fn connect(&mut self, from: u32, out: u32, to: u32, input: u32) -> Result<(), BuildRefusal>
        requires from_added { IsAdded (length self.old.ranks) self.old.reserves from }
        requires to_added { IsAdded (length self.old.ranks) self.old.reserves to }
        ensures ok { OnOk result (edge_refusal self.old.ranks self.old.wires self.old.reserves
            (record { from = from; out = out; to = to; input = input }) ≡ None) }
        ensures refused { IfErr result (λ r. IsEdgeRefused r self.old.ranks self.old.wires
            self.old.reserves (record { from = from; out = out; to = to; input = input })) }
        ensures boxes { OnOk result (self.new.boxes.items ≡ self.old.boxes.items) }
        ensures parts { OnOk result (HasParts self.new self.old.ranks
            (self.old.wires ++ record { from = from; out = out; to = to; input = input } ∷ [])
            self.old.reserves) }
        ensures unchanged { OnErr result (IsUnchanged self.old self.new) }
    {
        let wire = Wire {
            from,
            out,
            to,
            input,
        };
        if let Some(refusal) = due_refusal(&self.ranks, &self.wires, &self.reserves, &wire) {
            return Err(refusal);
        }
        match self.wires.push(wire) {
            Ok(()) => Ok(()),
            Err(_) => Err(BuildRefusal::Memory),
        }
    }

    /// Keeps the blanks as unborn nodes, and so many edges, for the growth of a node. After a
    /// refusal the builder is unchanged, and the blanks are handed back.
    pub fn reserve(
        &mut self,
        expander: u32,
        blanks: Vec<Box<dyn Processor + Send>>,
        edges: u32,
    ) -> Result<(), NotReserved>
        requires expander { MayReserve self.old expander }
        requires blank { All IsBlank (map (λ b. seen b) blanks.items) }
        ensures boxes { OnOk result (self.new.boxes.items ≡ self.old.boxes.items ++ blanks.items) }
        ensures kept { OnOk result
            (AddsReserve self.old self.new expander (length blanks.items) edges) }
        ensures starting { AreStarting self.old.reserves (map (λ b. seen b) self.old.boxes.items)
            → AreStarting self.new.reserves (map (λ b. seen b) self.new.boxes.items) }
        ensures handed_back { IfErr result (λ r. r.blanks.items ≡ blanks.items) }
        ensures refused { IfErr result
            (λ r. IsReserveRefused r.cause (length self.old.ranks + length blanks.items)
            (length self.old.wires + reserved_edges self.old.reserves + edges)) }
        ensures unchanged { OnErr result (IsUnchanged self.old self.new) }
    {
        let mut blanks = blanks;
        let nodes = self.ranks.len();
        let first_edge = reserved_edges(self.reserves.as_slice());
        if blanks.len() > MAX_NODES - nodes {
            return Err(NotReserved {
                blanks,
                cause: ReserveCause::TooManyNodes,
            });
        }
        if edges as usize > MAX_EDGES - (self.wires.len() + first_edge) {
            return Err(NotReserved {
                blanks,
                cause: ReserveCause::TooManyEdges,
            });
        }
        let reserve = Reserve {
            node: expander,
            first_node: nodes as u32,
            nodes: blanks.len() as u32,
            first_edge: first_edge as u32,
            edges,
        };
        // All room is taken before anything is changed.
        let Ok(ranks) = with_unborn(&self.ranks, blanks.len()) else {
            return Err(NotReserved {
                blanks,
                cause: ReserveCause::Memory,
            })
        };
        let Ok(reserves) = with_reserve(&self.reserves, reserve) else {
            return Err(NotReserved {
                blanks,
                cause: ReserveCause::Memory,
            })
        };
        match self.boxes.append(&mut blanks) {
            Ok(()) => {
                self.ranks = ranks;
                self.reserves = reserves;
                Ok(())
            }
            Err(_) => Err(NotReserved {
                blanks,
                cause: ReserveCause::Memory,
            }),
        }
    }

    /// The graph of what was added. Where it is refused, the boxes are handed back in order.
    pub fn finish(self) -> Result<Graph, NotBuilt>
        ensures gapless { OnOk result
            ((n : ℕ) → n < length self.ranks → is_gapless self.wires n ≡ true) }
        ensures boxes { IfOk result (λ g. g.boxes.items ≡ self.boxes.items) }
        ensures starting { AreStarting self.reserves (map (λ b. seen b) self.boxes.items)
            → IfOk result (λ g. AreStarting g.reserves (map (λ b. seen b) g.boxes.items)) }
        ensures ranks { IfOk result (λ g. g.ranks ≡ self.ranks) }
        ensures wires { IfOk result (λ g. g.wires ≡ self.wires) }
        ensures reserves { IfOk result
            (λ g. g.reserves ≡ map (behind_wires (length self.wires)) self.reserves) }
        ensures handed_back { IfErr result (λ r. r.boxes.items ≡ self.boxes.items) }
        ensures refused { IfErr result
            (λ r. IsBuildRefused r.cause (length self.ranks) self.wires) }
    {
        if let Some(node) = first_gap(self.wires.as_slice(), self.ranks.len()) {
            return Err(NotBuilt {
                boxes: self.boxes,
                cause: BuildCause::PortGap(node),
            });
        }
        let reserves = behind_wires(self.reserves, self.wires.len());
        Ok(Graph {
            boxes: self.boxes,
            ranks: self.ranks,
            wires: self.wires,
            reserves,
        })
    }
}

// The refusal that is due to an edge, if one is.
fn due_refusal(
    ranks: &List<u32>,
    wires: &List<Wire>,
    reserves: &List<Reserve>,
    wire: &Wire,
) -> Option<BuildRefusal>
    requires from_in_range { wire.now.from < length ranks.now }
    requires to_in_range { wire.now.to < length ranks.now }
    requires few_edges { length wires.now + reserved_edges reserves.now ≤ 1024 }
    ensures { result ≡ edge_refusal ranks.now wires.now reserves.now wire.now }
{
    if !is_ranked(ranks, wire) {
        return Some(BuildRefusal::RankOrder);
    }
    if !has_small_ports(wire) {
        return Some(BuildRefusal::TooManyPorts);
    }
    if is_port_taken(wires, wire) {
        return Some(BuildRefusal::PortTaken);
    }
    if wires.len() + reserved_edges(reserves.as_slice()) >= MAX_EDGES {
        return Some(BuildRefusal::TooManyEdges);
    }
    None
}

// The first node whose ports in use have a gap.
fn first_gap(wires: &[Wire], nodes: usize) -> Option<u32>
    requires { nodes ≤ 256 }
    ensures found { IfSome result (λ n. (n < nodes) × (is_gapless wires.now n ≡ false)
        × ((m : ℕ) → m < n → is_gapless wires.now m ≡ true)) }
    ensures missing { IfNone result ((n : ℕ) → n < nodes → is_gapless wires.now n ≡ true) }
{
    for node in 0..nodes as u32 {
        if !is_gapless(wires, node) {
            return Some(node);
        }
    }
    None
}
