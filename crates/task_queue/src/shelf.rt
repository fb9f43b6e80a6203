//! The shelf and its calls.
ghost use Rattle.std.specs.Prelude.{◌≡◌, ℕ, ◌<◌, ◌≤◌, ◌+◌, ◌^◌, ◌∷◌, [], length, true, false, IfOk, IfErr, OnErr};
ghost use Rattle.std.specs.VecDeque.{deque_capacity};
ghost use Rattle.atomic_table.specs.Table.{rest};
ghost use Rattle.task_queue.specs.Rules.{all_shares};
ghost use Rattle.task_queue.specs.Steps.{LiesFirst, Takes, leaving};
ghost use Rattle.task_queue.specs.Values.{AllFit};

use crate::layout::{SpareRoom, give_back, keep_room, lay_out, take_room, unload};
use crate::seat::{Claim, Gather, GoHome, Holding, InPlace, Share, ShelfSeat};
use atomic_table::{Refused, Seat, Table};
use crossbeam_utils::Backoff;
use std::alloc::{AllocError, Global};
use std::collections::VecDeque;
use std::sync::Wait;

/// A value that belongs to some places.
pub trait Placed {
    ghost fits: { Self → ℕ → Type 0 };
}

/// Values in places that are numbered from 0. Word 0 belongs to no place, and word n + 1 is 1 while
/// the value of place n is at home.
#[derive(Drop)]
pub struct Shelf<V: Placed + Send> {
    pub table: Table<Option<V>, Holding, (), InPlace, Global>,
    // The room for all values lies in a table: a `Vec` is not `Sync` where its values are not.
    pub room: Table<Vec<V>, (), usize, SpareRoom, Global>,
    pub alloc: Global,
    ghost sized: { table.shared.table_id.words ≡ table.shared.table_id.slots + 1 },
    ghost spare: { room.shared.key ≡ table.shared.table_id.slots },
    ghost single: { room.shared.table_id.slots ≡ 1 },
    ghost numbered: { table.shared.table_id.slots < 2 ^ 32 },
}

impl<V: Placed + Send> Shelf<V> {
    ghost use Rattle.task_queue.specs.Shelves.{held, held as held_by, parts, places, Holds, Lacks, LetsGo, IsSeatOf, IsIdleSeatOf, IsSameSeat, AreAllIdle};

    /// Puts each value into its place. For want of memory they come back, in order.
    pub fn make(mut values: Vec<V>) -> Result<(Shelf<V>, ShelfSeat<V>), Vec<V>>
        requires few { length values.items < 2 ^ 32 }
        requires fit { AllFit V.fits values.items }
        ensures places { IfOk result (λ made. places made.0 ≡ length values.items) }
        ensures seat { IfOk result (λ made. IsIdleSeatOf made.0 made.1) }
        ensures whole { IfOk result (λ made. parts made.1 ≡ all_shares) }
        ensures err { IfErr result (λ back. back.items ≡ values.items) }
    {
        let alloc = *values.allocator();
        let Ok(held) = VecDeque::with_capacity(alloc, values.len()) else {
            return Err(values)
        };
        let Ok(words) = Vec::from_elem(alloc, 1u64, values.len() + 1) else {
            return Err(values)
        };
        let Ok(mut slots) = Vec::with_capacity(alloc, values.len()) else {
            return Err(values)
        };
        let count = values.len();
        lay_out(&mut values, &mut slots);
        let room = match keep_room(alloc, values, count) {
            Ok(room) => room,
            Err(mut values) => {
                give_back(slots, &mut values);
                return Err(values);
            }
        };
        match Table::new(alloc, words.as_slice(), slots, &()) {
            Ok((table, seat)) => Ok((Shelf { table, room, alloc }, ShelfSeat { seat, held })),
            Err(Refused { slots }) => {
                let mut values = take_room(room);
                give_back(slots, &mut values);
                Err(values)
            }
        }
    }

    /// A further seat. It gets one part of the share of the other, which must keep one: the first
    /// seat begins with 4,294,967,296 parts.
    pub fn seat(&self, from: &mut ShelfSeat<V>) -> Result<ShelfSeat<V>, AllocError>
        requires seat { IsSeatOf self.now from.old }
        requires spare { 1 < parts from.old }
        ensures table { from.new.seat.table_id ≡ from.old.seat.table_id }
        ensures held { held from.new ≡ held from.old }
        ensures new { IfOk result (λ s. IsIdleSeatOf self.now s × (parts s ≡ 1)) }
        ensures shared { IfOk result (λ s. parts from.new + parts s ≡ parts from.old) }
        ensures err { OnErr result (parts from.new ≡ parts from.old) }
    {
        let held = VecDeque::with_capacity(self.alloc, self.table.slot_count())?;
        Ok(self.seat_with_room(from, held))
    }

    /// The same, in room that was taken before.
    pub fn seat_with_room(&self, from: &mut ShelfSeat<V>, held: VecDeque<u32>) -> ShelfSeat<V>
        requires seat { IsSeatOf self.now from.old }
        requires spare { 1 < parts from.old }
        requires bare { held.items ≡ [] }
        requires room { places self.now ≤ deque_capacity held }
        ensures table { from.new.seat.table_id ≡ from.old.seat.table_id }
        ensures held { held_by from.new ≡ held_by from.old }
        ensures new { IsIdleSeatOf self.now result × (parts result ≡ 1) }
        ensures shared { parts from.new + parts result ≡ parts from.old }
    {
        let seat = self.table.shared.split_seat::<Share>(&mut from.seat);
        ShelfSeat { seat, held }
    }

    // Claims place n, if its value is at home.
    fn try_claim(&self, seat: &mut Seat<Option<V>, Holding>, n: u32) -> bool
        requires seat { seat.old.table_id ≡ self.now.table.shared.table_id }
        requires place { n < places self.now }
        requires share { 0 < seat.old.me.0.parts }
        ensures same { seat.new.table_id ≡ seat.old.table_id }
        ensures taken { result ≡ true → Takes V.fits seat.old.me n seat.new.me }
        ensures left { result ≡ false → seat.new.me ≡ seat.old.me }
    {
        let shared = &self.table.shared;
        shared.compare_exchange::<Claim>(seat, n as usize + 1, 1, 0) == 1
    }

    /// Claims place n, once its value is at home. The value stays where it lies, and nobody else
    /// has it until the place is released.
    pub fn claim<R: Wait>(&self, rt: &R, seat: &mut Seat<Option<V>, Holding>, n: u32)
        requires seat { seat.old.table_id ≡ self.now.table.shared.table_id }
        requires place { n < places self.now }
        requires share { 0 < seat.old.me.0.parts }
        ensures same { seat.new.table_id ≡ seat.old.table_id }
        ensures taken { Takes V.fits seat.old.me n seat.new.me }
    {
        let backoff = Backoff::new();
        for _ in rt.forever() {
            if self.try_claim(seat, n) {
                return;
            }
            backoff.snooze();
        }
        unreachable!()
    }

    /// Lets place n go, which the seat claimed last. It waits for nobody.
    pub fn release(&self, seat: &mut Seat<Option<V>, Holding>, n: u32)
        requires seat { seat.old.table_id ≡ self.now.table.shared.table_id }
        requires place { n < places self.now }
        requires lies { LiesFirst V.fits n seat.old.me }
        ensures same { seat.new.table_id ≡ seat.old.table_id }
        ensures left { seat.new.me ≡ (leaving n seat.old.me.0, rest seat.old.me.1) }
    {
        self.table.shared.swap::<GoHome>(seat, n as usize + 1, 1);
    }

    /// Takes the value of place n, once it is at home.
    pub fn take<R: Wait>(&self, rt: &R, seat: &mut ShelfSeat<V>, n: u32) -> V
        requires seat { IsSeatOf self.now seat.old }
        requires place { n < places self.now }
        requires lacks { Lacks seat.old n }
        ensures same { IsSameSeat seat.old seat.new }
        ensures held { held seat.new ≡ n ∷ held seat.old }
        ensures fits { V.fits result n }
    {
        self.claim(rt, &mut seat.seat, n);
        seat.held.push_front_reserved(n);
        match self.table.shared.exchange(&mut seat.seat, n as usize, None) {
            Some(value) => value,
            None => unreachable!(),
        }
    }

    /// Puts the value of place n home. It waits for nobody.
    pub fn put(&self, seat: &mut ShelfSeat<V>, n: u32, v: V)
        requires seat { IsSeatOf self.now seat.old }
        requires holds { Holds seat.old n }
        requires fits { V.fits v n }
        ensures same { IsSameSeat seat.old seat.new }
        ensures left { LetsGo seat.old seat.new n }
    {
        seat.bring_to_front(n);
        seat.held.pop_front();
        match self
            .table
            .shared
            .exchange(&mut seat.seat, n as usize, Some(v))
        {
            None => {}
            Some(_) => unreachable!(),
        }
        self.release(&mut seat.seat, n);
    }

    /// Gives the values in order of place. It takes no memory.
    pub fn clear(self, mut seats: Vec<ShelfSeat<V>>) -> Vec<V>
        requires { AreAllIdle self seats.items }
        ensures count { length result.items ≡ places self }
        ensures fit { AllFit V.fits result.items }
    {
        let Shelf {
            table,
            room,
            alloc: _,
        } = self;
        let Some(first) = seats.pop() else {
            unreachable!()
        };
        let ShelfSeat { mut seat, held: _ } = first;
        while let Some(next) = seats.pop() {
            let ShelfSeat {
                seat: other,
                held: _,
            } = next;
            table.shared.join_seat::<Gather>(&mut seat, other);
        }
        seats.destroy_empty();
        unload(table.close_with(seat), take_room(room))
    }
}
