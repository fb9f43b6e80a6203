//! The end of a table.
ghost use Rattle.std.specs.Prelude.{◌≡◌, ◌≤◌, [], vec_capacity, IfOk};
ghost use Rattle.std.specs.Slots.{slots_items, slots_len, IsFull};
ghost use Rattle.exec_table.specs.Closings.{IsFinal};
ghost use Rattle.exec_table.specs.Seats.{IsRootOf, identity_of};
ghost use Rattle.exec_table.specs.Surveys.{AreAll, views};

use crate::rule::{ExecTable, NodeSeat, RootSeat, WorkerSeat};
use atomic_table::Closed;
use chunk_data::{Chunk, List, Memory};
use std::alloc::Global;

/// The last words, and what lies in the slot of each edge.
#[derive(Drop)]
pub struct Final {
    pub words: List<u64>,
    pub left: Vec<Option<Chunk>>,
}

// Moves all words and slots out, into room that is there.
fn unload(
    mut closed: Closed<Option<Chunk>, Global>,
    mut words: Vec<u64>,
    mut left: Vec<Option<Chunk>>,
) -> Final
    requires full { IsFull closed.words × IsFull closed.slots }
    requires words { (words.items ≡ []) × (slots_len closed.words ≤ vec_capacity words) }
    requires slots { (left.items ≡ []) × (slots_len closed.slots ≤ vec_capacity left) }
    ensures words { result.words ≡ slots_items closed.words }
    ensures slots { result.left.items ≡ slots_items closed.slots }
{
    for i in 0..closed.words.len() {
        words.push_reserved(closed.word(i));
    }
    for i in 0..closed.slot_count() {
        left.push_reserved(closed.take(i));
    }
    closed.free();
    Final {
        words: List::from_vec(words),
        left,
    }
}

impl ExecTable {
    /// Ends the table, given all its seats, and says what it came to. Of the seats of workers
    /// nothing has to be known. Where there is no memory the chunks in slots are lost.
    pub fn shut(
        self,
        root: RootSeat,
        mut nodes: Vec<NodeSeat>,
        workers: Vec<WorkerSeat>,
    ) -> Result<Final, Memory>
        requires root { IsRootOf (identity_of self) root }
        requires nodes { AreAll (identity_of self) nodes.items }
        ensures { IfOk result (λ f. IsFinal (views nodes.items) f) }
    {
        let alloc = *nodes.allocator();
        let words = Vec::with_capacity(alloc, self.table.word_count())?;
        let left = Vec::with_capacity(alloc, self.table.slot_count())?;
        let RootSeat { mut seat } = root;
        self.gather(&mut seat, nodes.as_mut_slice());
        let ExecTable {
            table,
            nodes: _,
            edges: _,
        } = self;
        Ok(unload(table.close_with(seat), words, left))
    }
}
