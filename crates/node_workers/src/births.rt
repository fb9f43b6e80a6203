//! What is done to the cells of all new nodes of a growth.
//!
//! The worker whose node grows takes them from the shelf, and puts them back once each has its
//! ports: a growth is rare. Whatever the others do meanwhile, they wait for these cells, and none
//! of them waits for a cell while it has one of these.
ghost use Rattle.std.specs.Prelude.{◌≡◌, ℕ, ◌≤◌, ◌+◌, ◌<◌, ◌∷◌, [], All, IfOk, OnErr, OnOk, length, map, reverse, true, vec_capacity};
ghost use Rattle.exec_table.specs.Seats.{sizes_in};
ghost use Rattle.growth_notes.specs.Notes.{IsNoteOf, noted};
ghost use Rattle.node_births.specs.MorePorts.{AreReservedWires};
ghost use Rattle.node_workers.specs.Births.{AreLost, AwaitGrowth, FitsOwnPlace, HaveNewOutputs, HoldsMore, IsGrowthOf, IsLostThere, MayBearAll, number_of};
ghost use Rattle.node_workers.specs.NewNodes.{AwaitsGrowth, EndsNote, NotedStep};
ghost use Rattle.node_workers.specs.Workers.{IsShared};
ghost use Rattle.task_queue.specs.Numbers.{hit, times};
ghost use Rattle.task_queue.specs.Queues.{IsPassOf};
ghost use Rattle.task_queue.specs.Shelves.{IsSameSeat, IsSeatOf, held};
ghost use Rattle.task_queue.specs.Tasks.{AreOffered};

use crate::named_cell::{CellNote, NamedCell, Naming};
use crate::new_nodes::{bear_new, give_outputs};
use crate::worker::Shared;
use chunk_data::Memory;
use exec_laws::NodeStatus;
use growth_notes::GrowthNote;
use node_births::NotedGrowth;
use node_cells::StopCause;
use port_word::Wire;
use proc_api::{GrowNode, Processor};
use std::sync::Wait;
use task_queue::{Placed, ShelfSeat, WorkerTasks};

/// Whether the cell is that of a node which waits to be born, and knows of no growth.
fn awaits_growth<P: Processor, J: Naming>(named: &NamedCell<P, J>) -> bool
    ensures { result ≡ true → (p : ℕ) → ⟦<NamedCell<P, J> as Placed>⟧.fits named.now p
        → AwaitsGrowth J.names P.seen p named.now }
{
    matches!(named.note, CellNote::Bare)
        && matches!(named.stopped, None)
        && matches!(named.cell.mark.state, NodeStatus::Unborn)
}

/// Takes the cell of a new node, unless it is no place, in hand already, or awaits no growth.
fn take_new<P: Processor, J: Naming, R: Wait>(
    rt: &R,
    shared: &Shared<P, J>,
    shelf: &mut ShelfSeat<NamedCell<P, J>>,
    p: u32,
) -> Result<NamedCell<P, J>, Memory>
    requires shelf { IsSeatOf shared.now.shelf shelf.old }
    ensures seat { IsSameSeat shelf.old shelf.new }
    ensures held { IfOk result (λ d. (q : ℕ)
        → times q (held shelf.new) ≡ times q (held shelf.old) + hit q p) }
    ensures awaits { IfOk result (AwaitsGrowth J.names P.seen p) }
    ensures err { OnErr result ((q : ℕ) → times q (held shelf.new) ≡ times q (held shelf.old)) }
{
    if (p as usize) >= shared.shelf.table.slot_count() || shelf.held.contains(&p) {
        return Err(Memory);
    }
    let named = shared.shelf.take(rt, shelf, p);
    if awaits_growth(&named) {
        return Ok(named);
    }
    shared.shelf.put(shelf, p, named);
    Err(Memory)
}

/// Takes the cells of all new nodes, in order. After an error the list has those that were taken.
pub(crate) fn take_all<P: Processor, J: Naming, R: Wait>(
    rt: &R,
    shared: &Shared<P, J>,
    shelf: &mut ShelfSeat<NamedCell<P, J>>,
    places: &[u32],
    new: &mut Vec<NamedCell<P, J>>,
) -> Result<(), Memory>
    requires shelf { IsSeatOf shared.now.shelf shelf.old }
    requires empty { new.old.items ≡ [] }
    requires room { length places.now ≤ vec_capacity new.old }
    ensures seat { IsSameSeat shelf.old shelf.new }
    ensures held { HoldsMore new.new.items shelf.old shelf.new }
    ensures waiting { AwaitGrowth J.names P.seen places.now new.new.items }
    ensures all { OnOk result (length new.new.items ≡ length places.now) }
{
    for k in 0..places.len() {
        match take_new(rt, shared, shelf, places[k]) {
            Ok(named) => new.push_reserved(named),
            Err(Memory) => return Err(Memory),
        }
    }
    Ok(())
}

/// Puts the cells of nodes that were born back, the last one first, and offers the nodes.
pub(crate) fn put_born<P: Processor, J: Naming, R: Wait>(
    rt: &R,
    shared: &Shared<P, J>,
    tasks: &mut WorkerTasks,
    shelf: &mut ShelfSeat<NamedCell<P, J>>,
    mut new: Vec<NamedCell<P, J>>,
)
    requires shared { IsShared J.names shared.now }
    requires pass { IsPassOf shared.now.queue tasks.old.pass }
    requires shelf { IsSeatOf shared.now.shelf shelf.old }
    requires fit { All (FitsOwnPlace J.names P.seen) new.items }
    requires holds { (q : ℕ) → times q (map number_of new.items) ≤ times q (held shelf.old) }
    ensures pass { IsPassOf shared.now.queue tasks.new.pass }
    ensures offers { AreOffered shared.now.queue tasks.old (reverse (map number_of new.items))
        tasks.new }
    ensures seat { IsSameSeat shelf.old shelf.new }
    ensures held { HoldsMore new.items shelf.new shelf.old }
{
    while let Some(named) = new.pop() {
        let p = named.cell.seat.node;
        shared.shelf.put(shelf, p, named);
        tasks.offer(rt, &shared.queue, p);
    }
    new.destroy_empty();
}

/// Puts the cells of new nodes back, of which memory was wanting for one. That is noted in each.
pub(crate) fn put_lost<P: Processor, J: Naming>(
    shared: &Shared<P, J>,
    shelf: &mut ShelfSeat<NamedCell<P, J>>,
    mut new: Vec<NamedCell<P, J>>,
)
    requires shelf { IsSeatOf shared.now.shelf shelf.old }
    requires lost { All (IsLostThere J.names P.seen) new.items }
    requires holds { (q : ℕ) → times q (map number_of new.items) ≤ times q (held shelf.old) }
    ensures seat { IsSameSeat shelf.old shelf.new }
    ensures held { HoldsMore new.items shelf.new shelf.old }
{
    while let Some(mut named) = new.pop() {
        let p = named.cell.seat.node;
        named.stopped = Some(StopCause::Memory);
        shared.shelf.put(shelf, p, named);
    }
    new.destroy_empty();
}

/// All new nodes get their outputs, in order.
pub(crate) fn give_all_outputs<P: Processor, J: Naming>(
    shared: &Shared<P, J>,
    note: &mut GrowthNote<NotedGrowth>,
    wires: &[Wire],
    first: u32,
    places: &[u32],
    new: &mut Vec<NamedCell<P, J>>,
) -> Result<(), Memory>
    requires shared { IsShared J.names shared.now }
    requires note { IsNoteOf shared.now.notes note.old }
    requires wires { AreReservedWires (sizes_in shared.now.table) first wires.now }
    requires many { length new.old.items ≡ length places.now }
    requires waiting { AwaitGrowth J.names P.seen places.now new.old.items }
    ensures note { IsNoteOf shared.now.notes note.new }
    ensures reserve { note.new.reserve ≡ note.old.reserve }
    ensures noted { noted note.new ≡ noted note.old }
    ensures many { length new.new.items ≡ length places.now }
    ensures ok { OnOk result ((g : NotedStep)
        → IsGrowthOf J.names g wires.now first places.now → EndsNote g note.old
        → HaveNewOutputs J.names P.seen g places.now new.new.items) }
    ensures lost { OnErr result ((g : NotedStep)
        → IsGrowthOf J.names g wires.now first places.now → EndsNote g note.old
        → AreLost J.names P.seen places.now new.new.items) }
{
    for k in 0..places.len() {
        match give_outputs(shared, note, wires, first, places[k], &mut new[k]) {
            Ok(()) => {}
            Err(Memory) => return Err(Memory),
        }
    }
    Ok(())
}

/// All new nodes get their inputs and are born, the last one first.
pub(crate) fn bear_all<P: Processor, J: Naming>(
    shared: &Shared<P, J>,
    wires: &[Wire],
    first: u32,
    mut nodes: Vec<GrowNode>,
    places: &[u32],
    new: &mut Vec<NamedCell<P, J>>,
) -> Result<(), Memory>
    requires shared { IsShared J.names shared.now }
    requires wires { AreReservedWires (sizes_in shared.now.table) first wires.now }
    requires nodes { length nodes.items ≡ length places.now }
    requires many { length new.old.items ≡ length places.now }
    requires may { MayBearAll J.names P.seen wires.now first nodes.items places.now new.old.items }
    ensures many { length new.new.items ≡ length places.now }
    ensures numbers { map number_of new.new.items ≡ places.now }
    ensures fit { OnOk result (All (FitsOwnPlace J.names P.seen) new.new.items) }
    ensures lost { OnErr result (All (IsLostThere J.names P.seen) new.new.items) }
{
    while let Some(node) = nodes.pop() {
        let k = nodes.len();
        match bear_new(shared, wires, first, node.spec, places[k], &mut new[k]) {
            Ok(()) => {}
            Err(Memory) => return Err(Memory),
        }
    }
    nodes.destroy_empty();
    Ok(())
}
