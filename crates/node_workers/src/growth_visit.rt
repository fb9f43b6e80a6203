//! A worker's visit of a node by which the graph is to grow: its new nodes are born.
//!
//! The growth is noted first, and then every node gets its outputs before any gets its inputs: the
//! producer of an edge sets its wire. The new nodes are born before the node that grows is due.
ghost use Rattle.std.specs.Prelude.{◌≡◌, ◌≢◌, ◌<◌, All, IfOk, None, OnErr, OnOk, length, map, true};
ghost use Rattle.std.specs.Result.{result_err};
ghost use Rattle.exec_laws.specs.declared.edges.DueCall.TheVariants.{Expand};
ghost use Rattle.exec_laws.specs.declared.edges.NodeStatus.TheVariants.{AtWork};
ghost use Rattle.exec_table.specs.Seats.{identity_of};
ghost use Rattle.node_cells.specs.Visits.{run_end_of};
ghost use Rattle.node_workers.specs.Births.{AwaitGrowth, FitsOwnPlace, HasGrown, IsLostThere, KeepsPlaces, MayEndBirths, number_of};
ghost use Rattle.node_workers.specs.Growths.{IsAsked, IsLostGrower};
ghost use Rattle.node_workers.specs.Named.{CellFits};
ghost use Rattle.node_workers.specs.NewNodes.{IsLost};
ghost use Rattle.node_workers.specs.Visits.{GrowsOn, HasVisited, MayVisit, Stops, visit_end};
ghost use Rattle.node_workers.specs.Workers.{IsShared};
ghost use Rattle.node_workers.specs.declared.named_cell.CellNote.TheVariants.{Own};
ghost use Rattle.task_queue.specs.Queues.{IsPassOf};
ghost use Rattle.task_queue.specs.Shelves.{IsIdleSeatOf, IsSeatOf, parts, places};
ghost use Rattle.task_queue.specs.Tasks.{OffersNumbers};

use crate::births::{bear_all, give_all_outputs, put_born, put_lost, take_all};
use crate::growth::{
    FlawlessGrowth, ask_flawless, begin_growth, end_growth, grow_by_nothing, last_wires,
};
use crate::named_cell::{CellNote, NamedCell, Naming};
use crate::visit::stop_for;
use crate::worker::Shared;
use chunk_data::Memory;
use exec_laws::{DueCall, NodeStatus};
use exec_table::WorkerSeat;
use growth_notes::GrowthNote;
use node_births::NotedGrowth;
use node_cells::{NodeCell, RunEnd, StopCause, run_node};
use proc_api::{Growth, Processor};
use std::sync::Wait;
use task_queue::{Placed, ShelfSeat, WorkerTasks};

/// All nodes of the growth get their inputs, those that are born first.
fn end_births<P: Processor, J: Naming>(
    shared: &Shared<P, J>,
    growth: FlawlessGrowth,
    first: u32,
    n: u32,
    cell: &mut NodeCell<P>,
    note: &GrowthNote<NotedGrowth>,
    new: &mut Vec<NamedCell<P, J>>,
) -> Result<(), Memory>
    requires shared { IsShared J.names shared.now }
    requires many { length new.old.items ≡ length growth.noted.places.items }
    requires may { MayEndBirths J.names P.seen n growth first cell.old note.now new.old.items }
    ensures numbers { map number_of new.new.items ≡ growth.noted.places.items }
    ensures grown { OnOk result (HasGrown J.names P.seen n cell.new (Own note.now)) }
    ensures fit { OnOk result (All (FitsOwnPlace J.names P.seen) new.new.items) }
    ensures lost { OnErr result (IsLostGrower J.names P.seen n cell.new note.now) }
    ensures lost_new { OnErr result (All (IsLostThere J.names P.seen) new.new.items) }
{
    let FlawlessGrowth { noted, wires } = growth;
    let NotedGrowth { growth, places } = noted;
    let Growth { nodes, edges } = growth;
    let own = last_wires(&wires, edges.len());
    let places = places.as_slice();
    match bear_all(shared, own, first, nodes.into_vec(), places, new) {
        Ok(()) => {}
        Err(Memory) => return Err(Memory),
    }
    match end_growth(shared, own, first, places, n, cell, note) {
        Ok(()) => Ok(()),
        Err(Memory) => Err(Memory),
    }
}

/// The growth of the node n is noted, and all of its nodes get their ports.
fn grow_all<P: Processor, J: Naming>(
    shared: &Shared<P, J>,
    growth: FlawlessGrowth,
    n: u32,
    cell: &mut NodeCell<P>,
    note: &mut GrowthNote<NotedGrowth>,
    new: &mut Vec<NamedCell<P, J>>,
) -> Result<(), Memory>
    requires shared { IsShared J.names shared.now }
    requires asked { IsAsked J.names P.seen n growth cell.old (Own note.old) }
    requires many { length new.old.items ≡ length growth.noted.places.items }
    requires waiting { AwaitGrowth J.names P.seen growth.noted.places.items new.old.items }
    ensures numbers { map number_of new.new.items ≡ map number_of new.old.items }
    ensures grown { OnOk result (HasGrown J.names P.seen n cell.new (Own note.new)) }
    ensures fit { OnOk result (All (FitsOwnPlace J.names P.seen) new.new.items) }
    ensures lost { OnErr result (IsLostGrower J.names P.seen n cell.new note.new) }
    ensures lost_new { OnErr result (All (IsLostThere J.names P.seen) new.new.items) }
{
    let first = cell.reserve.next_edge;
    let own = last_wires(&growth.wires, growth.noted.growth.edges.len());
    match begin_growth(shared, &growth, own, n, cell, note) {
        Ok(()) => {}
        Err(Memory) => return Err(Memory),
    }
    match give_all_outputs(
        shared,
        note,
        own,
        first,
        growth.noted.places.as_slice(),
        new,
    ) {
        Ok(()) => {}
        Err(Memory) => return Err(Memory),
    }
    end_births(shared, growth, first, n, cell, note, new)
}

/// The node n grows: the cells of its new nodes are taken from the shelf and put back.
fn grow_on_shelf<P: Processor, J: Naming, R: Wait>(
    rt: &R,
    shared: &Shared<P, J>,
    tasks: &mut WorkerTasks,
    shelf: &mut ShelfSeat<NamedCell<P, J>>,
    growth: FlawlessGrowth,
    n: u32,
    cell: &mut NodeCell<P>,
    note: &mut GrowthNote<NotedGrowth>,
) -> Result<(), Memory>
    requires shared { IsShared J.names shared.now }
    requires pass { IsPassOf shared.now.queue tasks.old.pass }
    requires shelf { IsSeatOf shared.now.shelf shelf.old }
    requires asked { IsAsked J.names P.seen n growth cell.old (Own note.old) }
    ensures pass { IsPassOf shared.now.queue tasks.new.pass }
    ensures offers { OffersNumbers shared.now.queue tasks.old tasks.new }
    ensures offers_none { OnErr result (tasks.new ≡ tasks.old) }
    ensures shelf { KeepsPlaces shelf.old shelf.new }
    ensures grown { OnOk result (HasGrown J.names P.seen n cell.new (Own note.new)) }
    ensures lost { OnErr result (IsLostGrower J.names P.seen n cell.new note.new) }
{
    let places = growth.noted.places.as_slice();
    let Ok(mut new) = Vec::with_capacity(shared.alloc, places.len()) else {
        return Err(Memory)
    };
    match take_all(rt, shared, shelf, places, &mut new) {
        Ok(()) => {}
        Err(Memory) => {
            put_lost(shared, shelf, new);
            return Err(Memory);
        }
    }
    match grow_all(shared, growth, n, cell, note, &mut new) {
        Ok(()) => {
            put_born(rt, shared, tasks, shelf, new);
            Ok(())
        }
        Err(Memory) => {
            put_lost(shared, shelf, new);
            Err(Memory)
        }
    }
}

/// The node n grows by this, by the note that it has.
fn grow_by<P: Processor, J: Naming, R: Wait>(
    rt: &R,
    shared: &Shared<P, J>,
    tasks: &mut WorkerTasks,
    shelf: &mut ShelfSeat<NamedCell<P, J>>,
    growth: FlawlessGrowth,
    n: u32,
    named: &mut NamedCell<P, J>,
) -> Result<(), Memory>
    requires shared { IsShared J.names shared.now }
    requires pass { IsPassOf shared.now.queue tasks.old.pass }
    requires shelf { IsSeatOf shared.now.shelf shelf.old }
    requires asked { IsAsked J.names P.seen n growth named.old.cell named.old.note }
    ensures pass { IsPassOf shared.now.queue tasks.new.pass }
    ensures offers { OffersNumbers shared.now.queue tasks.old tasks.new }
    ensures offers_none { OnErr result (tasks.new ≡ tasks.old) }
    ensures shelf { KeepsPlaces shelf.old shelf.new }
    ensures grown { OnOk result (HasGrown J.names P.seen n named.new.cell named.new.note) }
    ensures lost { OnErr result (IsLost J.names P.seen n named.new) }
{
    match named.note {
        CellNote::Own(_) => {}
        CellNote::Bare | CellNote::Copied(_) => return grow_by_nothing(&growth, n, named),
    }
    match &mut named.note {
        CellNote::Own(note) => {
            grow_on_shelf(rt, shared, tasks, shelf, growth, n, &mut named.cell, note)
        }
        CellNote::Bare | CellNote::Copied(_) => unreachable!(),
    }
}

/// The node n grows, and runs on.
fn grow_and_run<P: Processor, J: Naming, R: Wait>(
    rt: &R,
    shared: &Shared<P, J>,
    tasks: &mut WorkerTasks,
    shelf: &mut ShelfSeat<NamedCell<P, J>>,
    n: u32,
    named: &mut NamedCell<P, J>,
) -> Result<RunEnd, StopCause>
    requires shared { IsShared J.names shared.now }
    requires pass { IsPassOf shared.now.queue tasks.old.pass }
    requires shelf { IsSeatOf shared.now.shelf shelf.old }
    requires fits { CellFits J.names P.seen n named.old.cell None named.old.note }
    requires grows { named.old.cell.mark.state ≡ AtWork Expand }
    ensures pass { IsPassOf shared.now.queue tasks.new.pass }
    ensures offers { OffersNumbers shared.now.queue tasks.old tasks.new }
    ensures shelf { KeepsPlaces shelf.old shelf.new }
    ensures fits { CellFits J.names P.seen n named.new.cell (result_err result) named.new.note }
    ensures grows { GrowsOn P.seen (identity_of shared.now.table) shared.now.queue
        (result_err result) named.new.cell tasks.old tasks.new }
    ensures end { IfOk result (λ end. end ≡ run_end_of named.new.cell.mark.state) }
{
    let growth = match ask_flawless(shared.alloc, &shared.table, &mut named.cell) {
        Ok(growth) => growth,
        Err(stop) => return Err(stop),
    };
    match grow_by(rt, shared, tasks, shelf, growth, n, named) {
        Ok(()) => {}
        Err(Memory) => return Err(StopCause::Memory),
    }
    match run_node(rt, &shared.table, &shared.queue, tasks, &mut named.cell) {
        Ok(end) => Ok(end),
        Err(fault) => Err(StopCause::Fault(fault)),
    }
}

/// Whether the graph is to grow by the node still.
fn is_to_grow<P: Processor, J: Naming>(named: &NamedCell<P, J>) -> bool
    ensures going { result ≡ true → named.now.stopped ≡ None }
    ensures grows { result ≡ true → named.now.cell.mark.state ≡ AtWork Expand }
{
    matches!(named.stopped, None)
        && matches!(named.cell.mark.state, NodeStatus::AtWork(DueCall::Expand))
}

/// The node n, whose cell is in hand, grows and runs on. After a fault, a growth with a flaw or
/// want of memory the run of all is stopped, and the cause noted in the cell. Says what came of it.
pub fn grow_cell<P: Processor, J: Naming, R: Wait>(
    rt: &R,
    shared: &Shared<P, J>,
    seat: &mut WorkerSeat,
    tasks: &mut WorkerTasks,
    shelf: &mut ShelfSeat<NamedCell<P, J>>,
    n: u32,
    named: &mut NamedCell<P, J>,
) -> RunEnd
    requires shared { IsShared J.names shared.now }
    requires worker { MayVisit (identity_of shared.now.table) shared.now.queue seat.old tasks.old }
    requires shelf { IsSeatOf shared.now.shelf shelf.old }
    requires fits { ⟦<NamedCell<P, J> as Placed>⟧.fits named.old n }
    requires going { named.old.stopped ≡ None }
    requires grows { named.old.cell.mark.state ≡ AtWork Expand }
    ensures worker { HasVisited (identity_of shared.now.table) shared.now.queue seat.new tasks.old
        tasks.new }
    ensures shelf { KeepsPlaces shelf.old shelf.new }
    ensures fits { ⟦<NamedCell<P, J> as Placed>⟧.fits named.new n }
    ensures stops { Stops (identity_of shared.now.table) seat.new None named.new.stopped }
    ensures grows { GrowsOn P.seen (identity_of shared.now.table) shared.now.queue
        named.new.stopped named.new.cell tasks.old tasks.new }
    ensures end { result ≡ visit_end named.new.stopped named.new.cell.mark.state }
{
    let ran = grow_and_run(rt, shared, tasks, shelf, n, named);
    let cause = ran.err();
    named.stopped = cause;
    stop_for(&shared.table, seat, cause);
    ran.unwrap_or(RunEnd::Rests)
}

/// The node with this number grows, if the graph is to grow by it still. Another worker may have
/// taken its cell first, and had it grow.
pub(crate) fn grow_in_place<P: Processor, J: Naming, R: Wait>(
    rt: &R,
    shared: &Shared<P, J>,
    seat: &mut WorkerSeat,
    tasks: &mut WorkerTasks,
    shelf: &mut ShelfSeat<NamedCell<P, J>>,
    n: u32,
) -> RunEnd
    requires shared { IsShared J.names shared.now }
    requires worker { MayVisit (identity_of shared.now.table) shared.now.queue seat.old tasks.old }
    requires shelf { IsIdleSeatOf shared.now.shelf shelf.old }
    requires place { n < places shared.now.shelf }
    ensures worker { HasVisited (identity_of shared.now.table) shared.now.queue seat.new tasks.old
        tasks.new }
    ensures shelf { IsIdleSeatOf shared.now.shelf shelf.new }
    ensures parts { parts shelf.new ≡ parts shelf.old }
{
    let mut named = shared.shelf.take(rt, shelf, n);
    if !is_to_grow(&named) {
        shared.shelf.put(shelf, n, named);
        return RunEnd::Rests;
    }
    let end = grow_cell(rt, shared, seat, tasks, shelf, n, &mut named);
    shared.shelf.put(shelf, n, named);
    end
}
