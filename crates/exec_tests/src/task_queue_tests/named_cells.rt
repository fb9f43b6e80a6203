//! Cells with a boxed object on a shelf, like those of an executor. What keeps a fact about the box
//! is generic in the box and in what is named; only the outermost function says `Box<dyn ..>`.
ghost use Rattle.std.specs.Prelude.{◌≡◌, ℕ, length, IfSome};
ghost use Rattle.atomic_table.specs.Seated.{TableId};
ghost use Rattle.exec_tests.specs.NamedCells.{NamedBox, IsAsNamed};
ghost use Rattle.task_queue.specs.Values.{AllFit};

use super::{Visited, visit_by_all};
use atomic_table::{Seat, Split, Table, TableRule};
use std::alloc::Global;
use std::marker::{Brand, PhantomData};
use std::sync::Wait;
use std::test::Fail;
use std::thread::Threads;
use task_queue::{Placed, Shelf};

/// What lies in a cell behind a box.
trait Worker: Drop + Send {
    ghost seen: { Self → NamedBox };

    fn kind(&self) -> u8
        ensures { result ≡ (seen self.now).kind };

    fn pulled(&self) -> u32
        ensures { result ≡ (seen self.now).pulled };

    fn work(&mut self)
        ensures { IsAsNamed (seen self.old) (seen self.new) };
}

impl Worker for Box<dyn Worker + Send> {
    ghost seen = { λ b. (Worker-box b).seen b.value };

    fn kind(&self) -> u8 {
        (**self).kind()
    }

    fn pulled(&self) -> u32 {
        (**self).pulled()
    }

    fn work(&mut self) {
        (**self).work()
    }
}

/// The table of the cells' seats, and what each box was. It has no calls.
trait Naming {
    ghost table: { TableId };

    ghost named: { ℕ → NamedBox };
}

impl Naming for Brand {
    ghost use Rattle.exec_tests.specs.NamedCells.{no_table_id, counter};

    ghost table = { no_table_id };

    ghost named = { λ n. counter 0 0 };
}

/// A table of one word, whose seats lie in the cells.
struct OneWord;

impl TableRule<(), u32, ()> for OneWord {
    ghost use Rattle.std.specs.Prelude.{◌≡◌, length};

    ghost holds = { λ key s. length s.words ≡ 1 };

    ghost first = { λ key. 0 };
}

type NodeSeat = Seat<(), u32>;

struct Same;

impl Split<u32> for Same {
    ghost left = { λ v. v };

    ghost right = { λ v. v };
}

/// A box, its number and its seat.
#[derive(Drop)]
struct NamedCell<P: Worker, J: Naming> {
    worker: P,
    number: u32,
    seat: NodeSeat,
    names: PhantomData<J>,
}

impl<P: Worker, J: Naming> Placed for NamedCell<P, J> {
    ghost use Rattle.exec_tests.specs.NamedCells.{NamedCellFits};

    ghost fits = { λ c n. NamedCellFits J.table J.named c.seat.table_id c.number (P.seen c.worker)
        n };
}

impl<P: Worker, J: Naming> Visited for NamedCell<P, J> {
    fn visit(&mut self) {
        self.worker.work()
    }
}

impl<P: Worker, J: Naming> NamedCell<P, J> {
    fn new(worker: P, number: u32, seat: NodeSeat) -> NamedCell<P, J>
        ensures worker { result.worker ≡ worker }
        ensures place { (result.number ≡ number) × (result.seat ≡ seat) }
    {
        NamedCell {
            worker,
            number,
            seat,
            names: PhantomData,
        }
    }

    fn into_worker(self) -> P
        ensures { result ≡ self.worker }
    {
        let NamedCell {
            worker,
            number: _,
            seat: _,
            names: _,
        } = self;
        worker
    }
}

// Two values in a row.
fn in_row<V: Placed + Drop>(alloc: Global, a: V, b: V) -> Option<Vec<V>>
    requires { V.fits a 0 × V.fits b 1 }
    ensures { IfSome result (λ v. (length v.items ≡ 2) × AllFit V.fits v.items) }
{
    let Ok(mut all) = Vec::with_capacity(alloc, 2) else {
        return None
    };
    all.push_reserved(a);
    all.push_reserved(b);
    Some(all)
}

// The two values of a row.
fn out_of_row<V: Placed + Drop>(mut all: Vec<V>) -> Option<(V, V)>
    requires { (length all.items ≡ 2) × AllFit V.fits all.items }
    ensures { IfSome result (λ r. V.fits r.0 0 × V.fits r.1 1) }
{
    let second = all.pop()?;
    let first = all.pop()?;
    Some((first, second))
}

// Two threads work the second of two cells by turns.
fn work_cells<V: Visited + Drop + Send, R: Threads + Wait + Sync>(
    rt: &R,
    alloc: Global,
    a: V,
    b: V,
) -> Option<(V, V)>
    requires first { V.fits a 0 }
    requires second { V.fits b 1 }
    ensures { IfSome result (λ r. V.fits r.0 0 × V.fits r.1 1) }
{
    let Ok(mut seats) = Vec::with_capacity(alloc, 2) else {
        return None
    };
    let cells = in_row(alloc, a, b)?;
    let Ok((shelf, mut one)) = Shelf::make(cells) else {
        return None
    };
    let Ok(two) = shelf.seat(&mut one) else {
        return None
    };
    seats.push_reserved(one);
    seats.push_reserved(two);
    out_of_row(visit_by_all(rt, shelf, seats, 1))
}

// The part that is generic in what is named.
fn work_named<P: Worker, J: Naming + Send + Sync, R: Threads + Wait + Sync>(
    rt: &R,
    alloc: Global,
    a: (P, NodeSeat),
    b: (P, NodeSeat),
) -> Option<(P, P)>
    requires boxes { IsAsNamed (J.named 0) (P.seen a.0) × IsAsNamed (J.named 1) (P.seen b.0) }
    requires seats { (a.1.table_id ≡ J.table) × (b.1.table_id ≡ J.table) }
    ensures { IfSome result (λ r.
        IsAsNamed (J.named 0) (P.seen r.0) × IsAsNamed (J.named 1) (P.seen r.1)) }
{
    let a = NamedCell::<P, J>::new(a.0, 0, a.1);
    let b = NamedCell::<P, J>::new(b.0, 1, b.1);
    let (first, second) = work_cells(rt, alloc, a, b)?;
    Some((first.into_worker(), second.into_worker()))
}

// The part that is generic in the boxes, which names them.
fn work_boxes<P: Worker, R: Threads + Wait + Sync>(
    rt: &R,
    alloc: Global,
    a: (P, NodeSeat),
    b: (P, NodeSeat),
) -> Option<(P, P)>
    requires { b.1.table_id ≡ a.1.table_id }
    ensures { IfSome result (λ r.
        IsAsNamed (P.seen a.0) (P.seen r.0) × IsAsNamed (P.seen b.0) (P.seen r.1)) }
{
    work_named::<P, Brand, R>(rt, alloc, a, b)
}

// Two threads work two boxes, which come back as they were named.
fn work_two<R: Threads + Wait + Sync>(
    rt: &R,
    alloc: Global,
    a: (Box<dyn Worker + Send>, NodeSeat),
    b: (Box<dyn Worker + Send>, NodeSeat),
) -> Option<(Box<dyn Worker + Send>, Box<dyn Worker + Send>)>
    requires { b.1.table_id ≡ a.1.table_id }
    ensures { IfSome result (λ r.
        IsAsNamed (seen a.0) (seen r.0) × IsAsNamed (seen b.0) (seen r.1)) }
{
    work_boxes(rt, alloc, a, b)
}

/// A worker that counts its work as pulled rows.
#[derive(Drop)]
struct Counter {
    kind: u8,
    pulled: u32,
}

impl Worker for Counter {
    ghost use Rattle.exec_tests.specs.NamedCells.{counter};

    ghost seen = { λ s. counter s.kind s.pulled };

    fn kind(&self) -> u8 {
        self.kind
    }

    fn pulled(&self) -> u32 {
        self.pulled
    }

    fn work(&mut self) {
        self.pulled = self.pulled.saturating_add(1);
    }
}

#[test]
fn two_threads_pass_a_boxed_worker(rt: HostRuntime) -> Result<(), Fail> {
    let (table, mut one): (Table<(), u32, (), OneWord, Global>, NodeSeat) = Table::of_words(
        rt.alloc(),
        &[0],
        &(),
    )?;
    let two = table.shared.split_seat::<Same>(&mut one);
    let a = Box::new(rt.alloc(), Counter { kind: 3, pulled: 0 })?;
    let b = Box::new(rt.alloc(), Counter { kind: 4, pulled: 0 })?;
    let Some((a, b)) = work_two(&rt, rt.alloc(), (a, one), (b, two)) else {
        return Err(Fail::new("no memory"))
    };
    assert!(rt; a.kind() == 3 && a.pulled() == 0);
    assert!(rt; b.kind() == 4 && b.pulled() == 20_000);
    Ok(())
}
