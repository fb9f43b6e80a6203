//! A worker, from its first number to its end, and all workers beside each other.
ghost use Rattle.std.specs.Prelude.{◌≡◌, ◌<◌, All};
ghost use Rattle.exec_table.specs.Seats.{identity_of};
ghost use Rattle.node_workers.specs.Visits.{ChangesFirst, HasVisited, MayVisit};
ghost use Rattle.node_workers.specs.Workers.{IsShared, IsWorkerAt, IsWorkerOver, parts_of};
ghost use Rattle.task_queue.specs.Numbers.{total_over};
ghost use Rattle.task_queue.specs.Shelves.{IsIdleSeatOf, parts, places};
ghost use Rattle.task_queue.specs.Steps.{LiesFirst};
ghost use Rattle.task_queue.specs.Tasks.{OffersNumbers};

use crate::growth_visit::grow_in_place;
use crate::named_cell::{NamedCell, Naming};
use crate::visit::visit_cell;
use atomic_table::Seat;
use crossbeam_utils::Backoff;
use exec_table::{ExecTable, Seen, WorkerSeat};
use growth_notes::GrowthNotes;
use node_births::NotedGrowth;
use node_cells::RunEnd;
use proc_api::Processor;
use std::alloc::Global;
use std::sync::Wait;
use std::thread::{Threads, for_each_mut};
use task_queue::{Bell, Holding, Placed, Shelf, ShelfSeat, TaskQueue, WorkerTasks};

/// The most workers that a run has.
const MOST_WORKERS: usize = 16;

/// How many visits in a row a worker makes to nodes that go on with their devices before it naps. A
/// file of 32 MB is read in so many blocks.
const LOOKS_BEFORE_NAPS: u32 = 512;

/// How many such visits it makes between two naps. A reader that has nothing is looked at as often
/// in less than a millisecond.
const LOOKS_BETWEEN_NAPS: u32 = 256;

/// A nap takes a microsecond for so many looks that came before it. So a file of 200 MB that is
/// read alone is read by less than a hundredth slower. A million looks, after which a reader is
/// given up, take some 13 seconds, and little of a processor.
const LOOKS_A_MICROSECOND: u32 = 10;

/// What all workers share: the memory for growth, the table, the notes of growths, the numbers of
/// nodes that are due, and the cells.
#[derive(Drop)]
pub struct Shared<P: Processor, J: Naming> {
    pub alloc: Global,
    pub table: ExecTable,
    pub notes: GrowthNotes<NotedGrowth>,
    pub queue: TaskQueue,
    pub shelf: Shelf<NamedCell<P, J>>,
}

/// What a worker has: its seat of the table, its numbers, and its seat of the shelf.
#[derive(Drop)]
pub struct Worker<P: Processor, J: Naming> {
    pub seat: WorkerSeat,
    pub tasks: WorkerTasks,
    pub shelf: ShelfSeat<NamedCell<P, J>>,
    /// At how many nodes in a row it found a device that has nothing yet.
    pub looks: u32,
    /// Whether it lies, to be woken by the queue's bell.
    pub is_lying: bool,
}

/// Counts a look at a device that has nothing yet, and naps now and then after many in a row, the
/// longer the more they are.
fn nap_between_looks<R: Wait>(rt: &R, bell: &Bell, looks: &mut u32) {
    *looks = looks.saturating_add(1);
    if *looks > LOOKS_BEFORE_NAPS && *looks % LOOKS_BETWEEN_NAPS == 0 {
        bell.nap(rt, (*looks - LOOKS_BEFORE_NAPS) / LOOKS_A_MICROSECOND);
    }
}

/// Visits the node whose cell lies at the place that was claimed last.
fn visit_slot<P: Processor, J: Naming, R: Wait>(
    rt: &R,
    shared: &Shared<P, J>,
    seat: &mut WorkerSeat,
    tasks: &mut WorkerTasks,
    place: &mut Seat<Option<NamedCell<P, J>>, Holding>,
    n: u32,
) -> RunEnd
    requires shared { IsShared J.names shared.now }
    requires worker { MayVisit (identity_of shared.now.table) shared.now.queue seat.old tasks.old }
    requires place { place.old.table_id ≡ shared.now.shelf.table.shared.table_id }
    requires lies { LiesFirst ⟦<NamedCell<P, J> as Placed>⟧.fits n place.old.me }
    ensures worker { HasVisited (identity_of shared.now.table) shared.now.queue seat.new tasks.old
        tasks.new }
    ensures place { ChangesFirst place.old place.new }
    ensures lies { LiesFirst ⟦<NamedCell<P, J> as Placed>⟧.fits n place.new.me }
{
    let slot = place.slot_mut(&shared.shelf.table.shared, n as usize);
    match slot {
        Some(named) => visit_cell(rt, &shared.table, &shared.queue, seat, tasks, named),
        None => unreachable!(),
    }
}

/// Runs the node with this number. Its cell stays where it lies on the shelf.
fn run_in_place<P: Processor, J: Naming, R: Wait>(
    rt: &R,
    shared: &Shared<P, J>,
    seat: &mut WorkerSeat,
    tasks: &mut WorkerTasks,
    shelf: &mut ShelfSeat<NamedCell<P, J>>,
    n: u32,
) -> RunEnd
    requires shared { IsShared J.names shared.now }
    requires worker { MayVisit (identity_of shared.now.table) shared.now.queue seat.old tasks.old }
    requires shelf { IsIdleSeatOf shared.now.shelf shelf.old }
    requires place { n < places shared.now.shelf }
    ensures worker { HasVisited (identity_of shared.now.table) shared.now.queue seat.new tasks.old
        tasks.new }
    ensures shelf { IsIdleSeatOf shared.now.shelf shelf.new }
    ensures parts { parts shelf.new ≡ parts shelf.old }
{
    shared.shelf.claim(rt, &mut shelf.seat, n);
    let end = visit_slot(rt, shared, seat, tasks, &mut shelf.seat, n);
    shared.shelf.release(&mut shelf.seat, n);
    end
}

/// Visits the node with this number: runs it, and has it grow where the graph is to grow by it.
fn visit_in_place<P: Processor, J: Naming, R: Wait>(
    rt: &R,
    shared: &Shared<P, J>,
    seat: &mut WorkerSeat,
    tasks: &mut WorkerTasks,
    shelf: &mut ShelfSeat<NamedCell<P, J>>,
    n: u32,
) -> RunEnd
    requires shared { IsShared J.names shared.now }
    requires worker { MayVisit (identity_of shared.now.table) shared.now.queue seat.old tasks.old }
    requires shelf { IsIdleSeatOf shared.now.shelf shelf.old }
    requires place { n < places shared.now.shelf }
    ensures worker { HasVisited (identity_of shared.now.table) shared.now.queue seat.new tasks.old
        tasks.new }
    ensures shelf { IsIdleSeatOf shared.now.shelf shelf.new }
    ensures parts { parts shelf.new ≡ parts shelf.old }
{
    match run_in_place(rt, shared, seat, tasks, shelf, n) {
        RunEnd::Grows => grow_in_place(rt, shared, seat, tasks, shelf, n),
        RunEnd::Rests => RunEnd::Rests,
        RunEnd::Waits => RunEnd::Waits,
    }
}

/// Visits the node with this number, and queues it again behind the others where its device has
/// nothing yet, or the graph is to grow by it once more. A worker that finds nothing but devices
/// that have nothing yet naps now and then, and has the node meanwhile, so that no other looks at
/// its device.
fn visit<P: Processor, J: Naming, R: Wait>(
    rt: &R,
    shared: &Shared<P, J>,
    worker: &mut Worker<P, J>,
    n: u32,
)
    requires shared { IsShared J.names shared.now }
    requires worker { IsWorkerAt shared.now worker.old }
    requires place { n < places shared.now.shelf }
    ensures worker { IsWorkerAt shared.now worker.new }
    ensures parts { parts worker.new.shelf ≡ parts worker.old.shelf }
    ensures offers { OffersNumbers shared.now.queue worker.old.tasks worker.new.tasks }
{
    let end = visit_in_place(
        rt,
        shared,
        &mut worker.seat,
        &mut worker.tasks,
        &mut worker.shelf,
        n,
    );
    match end {
        RunEnd::Rests => worker.looks = 0,
        RunEnd::Waits => {
            nap_between_looks(rt, &shared.queue.bell, &mut worker.looks);
            worker.tasks.offer_again(rt, &shared.queue, n);
        }
        RunEnd::Grows => worker.tasks.offer_again(rt, &shared.queue, n),
    }
}

fn get_up(bell: &Bell, is_lying: &mut bool) {
    if *is_lying {
        *is_lying = false;
        bell.get_up();
    }
}

/// Lies down, to look once more, or sleeps where it lay for its last look.
fn lie_down_or_sleep<R: Wait>(rt: &R, bell: &Bell, count: u32, is_lying: &mut bool) {
    if *is_lying {
        bell.sleep(rt, count);
    } else {
        *is_lying = true;
        bell.lie_down();
    }
}

/// Takes the next number and visits its node. A number that is no place is passed over. Says
/// whether there was a number.
fn visit_next<P: Processor, J: Naming, R: Wait>(
    rt: &R,
    shared: &Shared<P, J>,
    worker: &mut Worker<P, J>,
) -> bool
    requires shared { IsShared J.names shared.now }
    requires worker { IsWorkerAt shared.now worker.old }
    ensures worker { IsWorkerAt shared.now worker.new }
    ensures parts { parts worker.new.shelf ≡ parts worker.old.shelf }
{
    match worker.tasks.next(rt, &shared.queue) {
        Some(n) => {
            get_up(&shared.queue.bell, &mut worker.is_lying);
            if (n as usize) < shared.shelf.table.slot_count() {
                visit(rt, shared, worker, n);
            }
            true
        }
        None => false,
    }
}

/// A worker visits nodes until the run was stopped, or there is no number and nothing is pending,
/// which it lets all others see. Where there is no number and something is pending it looks a few
/// times more, and then sleeps until a number is offered.
pub fn run_worker<P: Processor, J: Naming, R: Wait>(
    rt: &R,
    shared: &Shared<P, J>,
    worker: &mut Worker<P, J>,
)
    requires shared { IsShared J.names shared.now }
    requires worker { IsWorkerAt shared.now worker.old }
    ensures worker { IsWorkerOver shared.now worker.new }
    ensures parts { parts worker.new.shelf ≡ parts worker.old.shelf }
{
    let backoff = Backoff::new();
    let bell = &shared.queue.bell;
    for _ in rt.forever() {
        let count = bell.count();
        match shared.table.see(&mut worker.seat) {
            Seen::Stopped => {
                bell.ring_for_all();
                return;
            }
            Seen::Zero | Seen::Pending(_) => {}
        }
        if visit_next(rt, shared, worker) {
            backoff.reset();
        } else {
            match shared.table.see(&mut worker.seat) {
                Seen::Zero | Seen::Stopped => {
                    bell.ring_for_all();
                    return;
                }
                Seen::Pending(_) => {}
            }
            if backoff.is_completed() {
                lie_down_or_sleep(rt, bell, count, &mut worker.is_lying);
            } else {
                backoff.snooze();
            }
        }
    }
    unreachable!()
}

/// All workers run beside each other, each on a thread of its own where there are so many.
pub fn run_workers<P: Processor, J: Naming, R: Threads + Wait + Sync>(
    rt: &R,
    shared: &Shared<P, J>,
    workers: &mut [Worker<P, J>],
)
    requires shared { IsShared J.names shared.now }
    requires workers { All (IsWorkerAt shared.now) workers.old }
    ensures workers { All (IsWorkerOver shared.now) workers.new }
    ensures parts { total_over parts_of workers.new ≡ total_over parts_of workers.old }
{
    for_each_mut(
        rt,
        workers,
        MOST_WORKERS,
        &|_, worker: &mut Worker<P, J>| -> ()
            requires shared { IsShared J.names shared.now }
            requires worker { IsWorkerAt shared.now worker.old }
            ensures { IsWorkerOver shared.entry.now worker.new
                × (parts_of worker.new ≡ parts_of worker.old) }
        { run_worker(rt, shared, worker) },
    );
}
