ghost use Rattle.std.specs.Prelude.{◌≡◌, ℕ, ◌<◌, ◌∷◌, [], length, All, IfOk};
ghost use Rattle.task_queue.specs.Numbers.{total_over};
ghost use Rattle.task_queue.specs.Queues.{IsPassOf};
ghost use Rattle.task_queue.specs.Shelves.{parts, places, IsIdleSeatOf, AreAllIdle};
ghost use Rattle.task_queue.specs.Values.{AllFit};

mod named_cells;

use std::alloc::{AllocError, Global};
use std::sync::Wait;
use std::test::Fail;
use std::thread::{Threads, for_each_mut, join};
use task_queue::{Placed, QueuePass, Shelf, ShelfSeat, TaskQueue};

// ---- the queue

#[test]
fn a_full_queue_gives_a_number_back(rt: HostRuntime) -> Result<(), Fail> {
    let (queue, mut pass) = TaskQueue::make(rt.alloc(), 1)?;
    assert!(rt; queue.put(&rt, &mut pass, 5) == Ok(()));
    assert!(rt; queue.put(&rt, &mut pass, 6) == Err(6));
    assert!(rt; queue.take(&rt, &mut pass) == Some(5));
    assert!(rt; queue.take(&rt, &mut pass) == None);
    Ok(())
}

#[test]
fn numbers_are_taken_in_order(rt: HostRuntime) -> Result<(), Fail> {
    let (queue, mut one) = TaskQueue::make(rt.alloc(), 2)?;
    let mut two = queue.pass(&mut one);
    assert!(rt; queue.put(&rt, &mut one, 7) == Ok(()));
    assert!(rt; queue.put(&rt, &mut two, 8) == Ok(()));
    assert!(rt; queue.take(&rt, &mut two) == Some(7));
    assert!(rt; queue.take(&rt, &mut two) == Some(8));
    assert!(rt; queue.take(&rt, &mut one) == None);
    Ok(())
}

// Puts 5,000 numbers one after another, takes a number after each, and adds up what it took. A
// number for which there is no room it adds at once, as a worker does.
fn sum_of_taken<R: Wait>(rt: &R, queue: &TaskQueue, mut pass: QueuePass, first: u32) -> u64
    requires { IsPassOf queue.now pass }
{
    let mut sum = 0u64;
    for n in 0..5000u32 {
        if let Err(back) = queue.put(rt, &mut pass, n.wrapping_add(first)) {
            sum = sum.wrapping_add(u64::from(back));
        }
        if let Some(taken) = queue.take(rt, &mut pass) {
            sum = sum.wrapping_add(u64::from(taken));
        }
    }
    sum
}

// What two threads took together.
fn sum_by_two<R: Threads + Wait + Sync>(
    rt: &R,
    queue: &TaskQueue,
    one: QueuePass,
    two: QueuePass,
) -> (u64, u64)
    requires { IsPassOf queue.now one × IsPassOf queue.now two }
{
    join(
        rt,
        move ||
            requires { IsPassOf queue.now one }
        { sum_of_taken(rt, queue, one, 0) },
        move ||
            requires { IsPassOf queue.now two }
        { sum_of_taken(rt, queue, two, 5000) },
    )
}

#[test]
fn two_threads_lose_no_number(rt: HostRuntime) -> Result<(), Fail> {
    let (queue, mut pass) = TaskQueue::make(rt.alloc(), 2)?;
    let one = queue.pass(&mut pass);
    let two = queue.pass(&mut pass);
    let (a, b) = sum_by_two(&rt, &queue, one, two);
    let mut sum = a.wrapping_add(b);
    // There is room for two, so no more are left.
    if let Some(left) = queue.take(&rt, &mut pass) {
        sum = sum.wrapping_add(u64::from(left));
    }
    if let Some(left) = queue.take(&rt, &mut pass) {
        sum = sum.wrapping_add(u64::from(left));
    }
    assert!(rt; sum == 49_995_000 && queue.take(&rt, &mut pass) == None);
    Ok(())
}

// ---- the shelf

/// A value that was made for a place.
#[derive(Drop)]
struct Item {
    place: u32,
    visits: u32,
}

impl Placed for Item {
    ghost fits = { λ v n. v.place ≡ n };
}

fn two_items(alloc: Global) -> Result<Vec<Item>, AllocError>
    ensures { IfOk result (λ v. v.items
        ≡ record { place = 0; visits = 0 } ∷ record { place = 1; visits = 0 } ∷ []) }
{
    let mut items = Vec::with_capacity(alloc, 2)?;
    items.push_reserved(Item {
        place: 0,
        visits: 0,
    });
    items.push_reserved(Item {
        place: 1,
        visits: 0,
    });
    Ok(items)
}

#[test]
fn a_shelf_gives_both_cells_back(rt: HostRuntime) -> Result<(), Fail> {
    let items = two_items(rt.alloc())?;
    let mut seats = Vec::with_capacity(rt.alloc(), 1)?;
    let Ok((shelf, mut seat)) = Shelf::make(items) else {
        return Err(Fail::new("no memory"))
    };
    let mut item = shelf.take(&rt, &mut seat, 0);
    item.visits = 7;
    shelf.put(&mut seat, 0, item);
    seats.push_reserved(seat);
    let items = shelf.clear(seats);
    assert!(rt; items.len() == 2 && items[0].visits == 7);
    assert!(rt; items[1].visits == 0 && items[1].place == 1);
    Ok(())
}

#[test]
fn a_shelf_may_be_empty(rt: HostRuntime) -> Result<(), Fail> {
    let items: Vec<Item> = Vec::new(rt.alloc());
    let mut seats = Vec::with_capacity(rt.alloc(), 1)?;
    let Ok((shelf, seat)) = Shelf::make(items) else {
        return Err(Fail::new("no memory"))
    };
    seats.push_reserved(seat);
    assert!(rt; shelf.clear(seats).len() == 0);
    Ok(())
}

// A value that stays in its place while it is worked.
trait Visited: Placed {
    fn visit(&mut self)
        ensures { (n : ℕ) → Self.fits self.old n → Self.fits self.new n };
}

// Takes the value of a place, works it and puts it back, 10,000 times over.
fn visit_often<V: Visited + Send, R: Wait>(
    rt: &R,
    shelf: &Shelf<V>,
    seat: &mut ShelfSeat<V>,
    n: u32,
)
    requires idle { IsIdleSeatOf shelf.now seat.old }
    requires place { n < places shelf.now }
    ensures { IsIdleSeatOf shelf.now seat.new × (parts seat.new ≡ parts seat.old) }
{
    for _ in 0..10_000 {
        let mut value = shelf.take(rt, seat, n);
        value.visit();
        shelf.put(seat, n, value);
    }
}

// Each seat visits in a thread of its own.
fn visit_in_threads<V: Visited + Send, R: Threads + Wait + Sync>(
    rt: &R,
    shelf: &Shelf<V>,
    seats: &mut [ShelfSeat<V>],
    n: u32,
)
    requires idle { All (IsIdleSeatOf shelf.now) seats.old }
    requires place { n < places shelf.now }
    ensures idle { All (IsIdleSeatOf shelf.now) seats.new }
    ensures parts { total_over parts seats.new ≡ total_over parts seats.old }
{
    for_each_mut(
        rt,
        seats,
        2,
        &|_, seat: &mut ShelfSeat<V>| -> ()
            requires idle { IsIdleSeatOf shelf.now seat.old }
            requires place { n < places shelf.now }
            ensures { IsIdleSeatOf shelf.entry.now seat.new × (parts seat.new ≡ parts seat.old) }
        { visit_often(rt, shelf, seat, n) },
    );
}

// All seats visit, and then all values are given back.
fn visit_by_all<V: Visited + Send, R: Threads + Wait + Sync>(
    rt: &R,
    shelf: Shelf<V>,
    mut seats: Vec<ShelfSeat<V>>,
    n: u32,
) -> Vec<V>
    requires { AreAllIdle shelf seats.items × (n < places shelf) }
    ensures { (length result.items ≡ places shelf) × AllFit V.fits result.items }
{
    visit_in_threads(rt, &shelf, seats.as_mut_slice(), n);
    shelf.clear(seats)
}
