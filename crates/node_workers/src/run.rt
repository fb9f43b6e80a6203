//! A run of all cells by so many workers.
ghost use Rattle.std.specs.Prelude.{◌≡◌, ◌+◌, ◌<◌, ◌≤◌, All, IfErr, IfOk, length};
ghost use Rattle.exec_table.specs.Seats.{IsRootOf, identity_of, sizes_in};
ghost use Rattle.node_workers.specs.Ended.{AreNamed, named_by};
ghost use Rattle.node_workers.specs.Named.{AreNamedReserves};
ghost use Rattle.node_workers.specs.Notes.{HasNotesFor};
ghost use Rattle.node_workers.specs.Rooms.{HasEndRoom, IsDequeFor, IsRoomFor};
ghost use Rattle.node_workers.specs.Runs.{IsAsItWas, MayRunCells, RunHasEnded};
ghost use Rattle.node_workers.specs.Workers.{AreWorkersOf, HasSpare, IsShared, IsWorkerAt, IsWorkerOver, WorkerHasEnded, parts_of};
ghost use Rattle.task_queue.specs.Numbers.{total_over};
ghost use Rattle.task_queue.specs.Queues.{IsPassOf};
ghost use Rattle.task_queue.specs.Rules.{all_shares};
ghost use Rattle.task_queue.specs.Shelves.{IsIdleSeatOf, parts, places};
ghost use Rattle.task_queue.specs.Tasks.{OffersNumbers};

use crate::named_cell::{EndedCell, NamedCell, Naming};
use crate::notes::{give_notes, make_notes};
use crate::rooms::{EndRooms, Rooms, end_cells, make_rooms, name_cells, unname_cells};
use crate::worker::{Shared, Worker, run_workers};
use chunk_data::Memory;
use exec_laws::NodeStatus;
use exec_table::{ExecTable, RootSeat, WorkerSeat};
use growth_notes::{GrowthNotes, NotesRoot};
use node_births::NotedGrowth;
use node_cells::NodeCell;
use port_word::Reserve;
use proc_api::Processor;
use std::alloc::Global;
use std::collections::VecDeque;
use std::marker::Brand;
use std::sync::Wait;
use std::thread::Threads;
use task_queue::{Shelf, ShelfSeat, TaskQueue, WorkerTasks};

/// The table, its root, the workers' seats, all cells in order of their numbers, and the notes of
/// growths.
#[derive(Drop)]
pub struct Ended<P: Processor> {
    pub table: ExecTable,
    pub root: RootSeat,
    pub workers: Vec<WorkerSeat>,
    pub cells: Vec<EndedCell<P>>,
    pub notes: GrowthNotes<NotedGrowth>,
}

/// What is given back where memory is wanting: nothing ran.
#[derive(Drop)]
pub struct NotStarted<P: Processor> {
    pub table: ExecTable,
    pub root: RootSeat,
    pub cells: Vec<NodeCell<P>>,
}

impl Naming for Brand {
    ghost use Rattle.node_workers.specs.Ended.{no_names};

    ghost names = { no_names };
}

/// Offers each node that may begin, from the last one on. A new table has charged those without
/// outputs; the others begin too, so that none is left that never did.
fn offer_first<P: Processor, R: Wait>(
    rt: &R,
    queue: &TaskQueue,
    tasks: &mut WorkerTasks,
    cells: &[NodeCell<P>],
)
    requires pass { IsPassOf queue.now tasks.old.pass }
    requires few { length cells.now ≤ 256 }
    ensures pass { IsPassOf queue.now tasks.new.pass }
    ensures offers { OffersNumbers queue.now tasks.old tasks.new }
{
    for k in 0..cells.len() {
        let n = cells.len() - 1 - k;
        if cells[n].mark.state == NodeStatus::Due {
            tasks.offer(rt, queue, n as u32);
        }
    }
}

/// A further worker, whose seats come from another.
fn next_worker<P: Processor, J: Naming>(
    shared: &Shared<P, J>,
    root: &mut RootSeat,
    from: &mut Worker<P, J>,
    held: VecDeque<u32>,
) -> Worker<P, J>
    requires root { HasSpare (identity_of shared.now.table) 1 root.old }
    requires from { IsWorkerAt shared.now from.old }
    requires share { 1 < parts_of from.old }
    requires held { IsDequeFor (places shared.now.shelf) held }
    ensures root { IsRootOf (identity_of shared.now.table) root.new }
    ensures made { root.new.seat.me.0.made ≡ root.old.seat.me.0.made + 1 }
    ensures from { IsWorkerAt shared.now from.new × (parts_of from.new + 1 ≡ parts_of from.old) }
    ensures worker { IsWorkerAt shared.now result × (parts_of result ≡ 1) }
{
    Worker {
        seat: shared.table.worker(root),
        tasks: WorkerTasks::new(shared.queue.pass(&mut from.tasks.pass)),
        shelf: shared.shelf.seat_with_room(&mut from.shelf, held),
        looks: 0,
        is_lying: false,
    }
}

/// All workers: the first, and one for each room.
fn make_workers<P: Processor, J: Naming>(
    shared: &Shared<P, J>,
    root: &mut RootSeat,
    mut first: Worker<P, J>,
    mut held: Vec<VecDeque<u32>>,
    mut workers: Vec<Worker<P, J>>,
) -> Vec<Worker<P, J>>
    requires root { HasSpare (identity_of shared.now.table) (length held.items) root.old }
    requires first { IsWorkerAt shared.now first × (parts_of first ≡ all_shares) }
    requires few { length held.items ≤ 16 }
    requires held { All (IsDequeFor (places shared.now.shelf)) held.items }
    requires room { IsRoomFor (length held.items + 1) workers }
    ensures root { IsRootOf (identity_of shared.now.table) root.new }
    ensures workers { AreWorkersOf shared.now result.items }
    ensures count { length result.items ≡ length held.items + 1 }
{
    while let Some(held) = held.pop() {
        let worker = next_worker(shared, root, &mut first, held);
        workers.push_reserved(worker);
    }
    held.destroy_empty();
    workers.push_reserved(first);
    workers
}

/// Takes the workers apart: their seats of the table and those of the shelf.
fn part_workers<P: Processor, J: Naming>(
    mut workers: Vec<Worker<P, J>>,
    seats: &mut Vec<WorkerSeat>,
    shelf_seats: &mut Vec<ShelfSeat<NamedCell<P, J>>>,
    _shared: &Shared<P, J>,
)
    requires workers { All (IsWorkerOver _shared.now) workers.items }
    requires seats { IsRoomFor (length workers.items) seats.old }
    requires shelf_seats { IsRoomFor (length workers.items) shelf_seats.old }
    ensures seats { All (WorkerHasEnded (identity_of _shared.now.table)) seats.new.items }
    ensures count { length seats.new.items ≡ length workers.items }
    ensures idle { All (IsIdleSeatOf _shared.now.shelf) shelf_seats.new.items }
    ensures parts { total_over parts shelf_seats.new.items ≡ total_over parts_of workers.items }
{
    while let Some(worker) = workers.pop() {
        let Worker {
            seat,
            tasks: _,
            shelf,
            looks: _,
            is_lying: _,
        } = worker;
        seats.push_reserved(seat);
        shelf_seats.push_reserved(shelf);
    }
    workers.destroy_empty();
}

/// The workers run, and all that they shared is taken back.
fn run_shared<P: Processor, J: Naming, R: Threads + Wait + Sync>(
    rt: &R,
    shared: Shared<P, J>,
    root: RootSeat,
    mut workers: Vec<Worker<P, J>>,
    rooms: EndRooms<P, J>,
) -> Ended<P>
    requires shared { IsShared J.names shared }
    requires root { IsRootOf (identity_of shared.table) root }
    requires workers { AreWorkersOf shared workers.items }
    requires rooms { HasEndRoom (places shared.shelf) (length workers.items) rooms }
    ensures { RunHasEnded P.seen J.names.identity J.names.node shared.table (length workers.items)
        (places shared.shelf) result }
{
    let EndRooms {
        mut seats,
        mut shelf_seats,
        cells,
    } = rooms;
    run_workers(rt, &shared, workers.as_mut_slice());
    part_workers(workers, &mut seats, &mut shelf_seats, &shared);
    let Shared {
        alloc: _,
        table,
        notes,
        queue: _,
        shelf,
    } = shared;
    Ended {
        table,
        root,
        workers: seats,
        cells: end_cells(shelf.clear(shelf_seats), cells),
        notes,
    }
}

/// The part that is generic in what is named.
fn run_named<P: Processor, J: Naming, R: Threads + Wait + Sync>(
    rt: &R,
    alloc: Global,
    table: ExecTable,
    mut root: RootSeat,
    mut cells: Vec<NodeCell<P>>,
    notes: GrowthNotes<NotedGrowth>,
    mut notes_root: NotesRoot<NotedGrowth>,
    reserves: &[Reserve],
    workers: u32,
    queued: usize,
) -> Result<Ended<P>, NotStarted<P>>
    requires table { identity_of table ≡ J.names.identity }
    requires runnable { MayRunCells P.seen (identity_of table) root cells.items workers queued }
    requires named { AreNamed P.seen J.names.node cells.items }
    requires named_reserves { AreNamedReserves J.names.identity.sizes J.names.node }
    requires reserves { reserves.now ≡ J.names.identity.sizes.reserves }
    requires notes { notes.table.shared.table_id ≡ J.names.notes }
    requires notes_root { HasNotesFor reserves.now notes notes_root }
    ensures ok { IfOk result
        (RunHasEnded P.seen J.names.identity J.names.node table workers (length cells.items)) }
    ensures err { IfErr result (λ r. IsAsItWas table root cells r) }
{
    let Ok(rooms) = make_rooms::<P, J>(alloc, cells.len(), workers as usize, queued) else {
        return Err(NotStarted { table, root, cells })
    };
    let Rooms {
        queue,
        pass,
        held,
        named,
        workers,
        at_end,
    } = rooms;
    let mut tasks = WorkerTasks::new(pass);
    offer_first(rt, &queue, &mut tasks, cells.as_slice());
    let mut named = name_cells(&mut cells, named);
    give_notes(&notes, &mut notes_root, reserves, &mut named);
    match Shelf::make(named) {
        Err(named) => {
            unname_cells(named, &mut cells);
            Err(NotStarted { table, root, cells })
        }
        Ok((shelf, shelf_seat)) => {
            let shared = Shared {
                alloc,
                table,
                notes,
                queue,
                shelf,
            };
            let first = Worker {
                seat: shared.table.worker(&mut root),
                tasks,
                shelf: shelf_seat,
                looks: 0,
                is_lying: false,
            };
            let workers = make_workers(&shared, &mut root, first, held, workers);
            Ok(run_shared(rt, shared, root, workers, at_end))
        }
    }
}

/// Runs the cells of all nodes, in order of their numbers, by so many workers until nothing is
/// pending or the run was stopped. The queue has room for so many numbers; one that finds none
/// stays with its worker. All memory but that for growth is taken before the first step; where it
/// is wanting all is given back as it was. Afterwards each cell is that of its node, with the box
/// that it had, and each worker saw that nothing is pending or that the run was stopped.
pub fn run_cells<P: Processor, R: Threads + Wait + Sync>(
    rt: &R,
    alloc: Global,
    table: ExecTable,
    root: RootSeat,
    cells: Vec<NodeCell<P>>,
    reserves: &[Reserve],
    workers: u32,
    queued: usize,
) -> Result<Ended<P>, NotStarted<P>>
    requires runnable { MayRunCells P.seen (identity_of table) root cells.items workers queued }
    requires reserves { reserves.now ≡ (sizes_in table).reserves }
    ensures ok { IfOk result (RunHasEnded P.seen (identity_of table) (named_by P.seen cells.items)
        table workers (length cells.items)) }
    ensures err { IfErr result (λ r. IsAsItWas table root cells r) }
{
    match make_notes(alloc, reserves) {
        Ok((notes, notes_root)) => run_named::<P, Brand, R>(
            rt, alloc, table, root, cells, notes, notes_root, reserves, workers, queued,
        ),
        Err(Memory) => Err(NotStarted { table, root, cells }),
    }
}
