//! The room of a run, all of which is taken before its first step.
ghost use Rattle.std.specs.Prelude.{◌≡◌, ◌<◌, ◌≤◌, [], All, IfOk, length, map, vec_capacity};
ghost use Rattle.node_workers.specs.Rooms.{HasRoom, IsDequeFor, as_ended, as_named, node_cell};

use crate::named_cell::{CellNote, EndedCell, NamedCell, Naming};
use crate::worker::Worker;
use exec_table::WorkerSeat;
use node_cells::NodeCell;
use proc_api::Processor;
use std::alloc::{AllocError, Global};
use std::collections::VecDeque;
use std::marker::PhantomData;
use task_queue::{QueuePass, ShelfSeat, TaskQueue};

/// The lists that the end of a run fills.
#[derive(Drop)]
pub(crate) struct EndRooms<P: Processor, J: Naming> {
    pub seats: Vec<WorkerSeat>,
    pub shelf_seats: Vec<ShelfSeat<NamedCell<P, J>>>,
    pub cells: Vec<EndedCell<P>>,
}

/// The queue, and the lists that a run fills.
#[derive(Drop)]
pub(crate) struct Rooms<P: Processor, J: Naming> {
    pub queue: TaskQueue,
    pub pass: QueuePass,
    /// What the seat of each worker but the first holds.
    pub held: Vec<VecDeque<u32>>,
    pub named: Vec<NamedCell<P, J>>,
    pub workers: Vec<Worker<P, J>>,
    pub at_end: EndRooms<P, J>,
}

/// Takes the room of so many lists, each for the numbers of so many nodes.
fn make_deques(alloc: Global, count: usize, nodes: usize) -> Result<Vec<VecDeque<u32>>, AllocError>
    ensures count { IfOk result (λ v. length v.items ≡ count) }
    ensures each { IfOk result (λ v. All (IsDequeFor nodes) v.items) }
{
    let mut deques = Vec::with_capacity(alloc, count)?;
    for _i in 0..count {
        deques.push_reserved(VecDeque::with_capacity(alloc, nodes)?);
    }
    Ok(deques)
}

/// Takes the room for so many nodes and workers, and for so many numbers in the queue.
pub(crate) fn make_rooms<P: Processor, J: Naming>(
    alloc: Global,
    nodes: usize,
    workers: usize,
    queued: usize,
) -> Result<Rooms<P, J>, AllocError>
    requires few { nodes ≤ 256 }
    requires some { 1 ≤ workers }
    requires queued { 0 < queued }
    ensures { IfOk result (HasRoom nodes workers) }
{
    let held = make_deques(alloc, workers - 1, nodes)?;
    let (queue, pass) = TaskQueue::make(alloc, queued)?;
    Ok(Rooms {
        queue,
        pass,
        held,
        named: Vec::with_capacity(alloc, nodes)?,
        workers: Vec::with_capacity(alloc, workers)?,
        at_end: EndRooms {
            seats: Vec::with_capacity(alloc, workers)?,
            shelf_seats: Vec::with_capacity(alloc, workers)?,
            cells: Vec::with_capacity(alloc, nodes)?,
        },
    })
}

/// Moves each cell into one that can lie on the shelf.
pub(crate) fn name_cells<P: Processor, J: Naming>(
    cells: &mut Vec<NodeCell<P>>,
    mut room: Vec<NamedCell<P, J>>,
) -> Vec<NamedCell<P, J>>
    requires bare { room.items ≡ [] }
    requires room { length cells.old.items ≤ vec_capacity room }
    ensures named { result.items ≡ map as_named cells.old.items }
    ensures bare { cells.new.items ≡ [] }
    ensures room { vec_capacity cells.new ≡ vec_capacity cells.old }
{
    cells.reverse();
    while let Some(cell) = cells.pop() {
        room.push_reserved(NamedCell {
            cell,
            note: CellNote::Bare,
            stopped: None,
            names: PhantomData,
        });
    }
    room
}

/// Moves the cells back.
pub(crate) fn unname_cells<P: Processor, J: Naming>(
    mut named: Vec<NamedCell<P, J>>,
    cells: &mut Vec<NodeCell<P>>,
)
    requires bare { cells.old.items ≡ [] }
    requires room { length named.items ≤ vec_capacity cells.old }
    ensures { cells.new.items ≡ map node_cell named.items }
{
    named.reverse();
    while let Some(cell) = named.pop() {
        let NamedCell {
            cell,
            note: _,
            stopped: _,
            names: _,
        } = cell;
        cells.push_reserved(cell);
    }
    named.destroy_empty();
}

/// Moves the cells that were on the shelf into those that are given back.
pub(crate) fn end_cells<P: Processor, J: Naming>(
    mut named: Vec<NamedCell<P, J>>,
    mut room: Vec<EndedCell<P>>,
) -> Vec<EndedCell<P>>
    requires bare { room.items ≡ [] }
    requires room { length named.items ≤ vec_capacity room }
    ensures { result.items ≡ map as_ended named.items }
{
    named.reverse();
    while let Some(cell) = named.pop() {
        let NamedCell {
            cell,
            note,
            stopped,
            names: _,
        } = cell;
        room.push_reserved(EndedCell {
            cell,
            note,
            stopped,
        });
    }
    named.destroy_empty();
    room
}
