//! The table, its rule, and its seats.
ghost use Rattle.std.specs.Prelude.{◌≡◌, ◌+◌, true};
ghost use Rattle.core_laws.specs.Start.{fits};
ghost use Rattle.exec_table.specs.Words.{edge_count};

use crate::types::View;
use atomic_table::{Seat, Table, TableRule};
use chunk_data::Chunk;
use core_laws::Sizes;
use std::alloc::Global;
use std::collections::VecDeque;

/// The rule: words, slots and views show one state of the core that meets its laws.
pub struct OneState;

impl TableRule<Option<Chunk>, View, Sizes> for OneState {
    ghost use Rattle.exec_table.specs.Rule.{Shown, first_view};

    ghost holds = { λ key. Shown key };

    ghost first = { first_view };
}

/// Word 0, a word for each node, a wire word and a port word for each edge, and a slot for each
/// edge.
#[derive(Drop)]
pub struct ExecTable {
    pub table: Table<Option<Chunk>, View, Sizes, OneState, Global>,
    pub nodes: u32,
    pub edges: u32,
    ghost fit: { fits table.shared.key ≡ true },
    ghost nodes_are: { nodes ≡ table.shared.key.nodes },
    ghost edges_are: { edges ≡ edge_count table.shared.key },
    ghost words: { table.shared.table_id.words ≡ (nodes + (edges + edges)) + 1 },
    ghost slots: { table.shared.table_id.slots ≡ edges },
}

/// The seat of one node, with the edges whose slots are out with it.
#[derive(Drop)]
pub struct NodeSeat {
    pub seat: Seat<Option<Chunk>, View>,
    pub node: u32,
    pub held: VecDeque<u32>,
}

/// The seat of one worker.
#[derive(Drop)]
pub struct WorkerSeat {
    pub seat: Seat<Option<Chunk>, View>,
}

/// The seat out of which the seats of workers are made.
#[derive(Drop)]
pub struct RootSeat {
    pub seat: Seat<Option<Chunk>, View>,
}
