//! What a seat of a shelf knows, what its steps tell, and how it finds the place that it lets go.
ghost use Rattle.std.specs.Prelude.{◌≡◌, ℕ, ◌<◌, ◌≤◌, ◌++◌, List, ◌∷◌, [], map, None};
ghost use Rattle.std.specs.VecDeque.{deque_capacity};
ghost use Rattle.task_queue.specs.Numbers.{times, once_below};

use crate::shelf::Placed;
use atomic_table::{Join, Play, Seat, Split, TableRule};
use std::collections::{LinkedList, VecDeque};

/// What a seat knows: its share of the shelf, and the places whose values are out with it. No value
/// of it is made.
pub struct Holding {
    pub parts: u64,
    pub held: LinkedList<u32>,
}

/// The rule of a shelf: the value at place n fits n, or some seat holds n.
pub struct InPlace;

impl<V: Placed> TableRule<Option<V>, Holding, ()> for InPlace {
    ghost use Rattle.task_queue.specs.Rules.{IsKept, whole_holding};

    ghost holds = { λ key. IsKept V.fits };

    ghost first = { λ key. whole_holding };
}

pub(crate) struct Claim;

impl<V: Placed> Play<Option<V>, Holding> for Claim {
    ghost use Rattle.task_queue.specs.Steps.{Claims};

    ghost then = { Claims V.fits };
}

pub(crate) struct GoHome;

impl<V> Play<Option<V>, Holding> for GoHome {
    ghost use Rattle.task_queue.specs.Steps.{Returns};

    ghost then = { Returns };
}

// One part goes to a new seat.
pub(crate) struct Share;

impl Split<Holding> for Share {
    ghost use Rattle.task_queue.specs.Steps.{less_one_share, one_share};

    ghost left = { less_one_share };

    ghost right = { λ v. one_share };
}

// A seat takes in the parts of another, which holds nothing.
pub(crate) struct Gather;

impl Join<Holding> for Gather {
    ghost use Rattle.task_queue.specs.Steps.{with_shares_of, no_share};

    ghost both = { with_shares_of };

    ghost spent = { no_share };
}

/// The right to take values from a shelf, with the places that it holds. The emptied slot of each
/// of them is in its hands; the slots stand in the order of `held`.
#[derive(Drop)]
pub struct ShelfSeat<V> {
    pub seat: Seat<Option<V>, Holding>,
    pub held: VecDeque<u32>,
    ghost slots: { seat.me.1 ≡ map (λ n. (n, None)) held.items },
    ghost once: { (n : ℕ) → times n held.items ≤ once_below n seat.table_id.slots },
    ghost known: { (n : ℕ) → times n seat.me.0.held ≡ times n held.items },
    ghost room: { seat.table_id.slots ≤ deque_capacity held },
    ghost shared: { 0 < seat.me.0.parts },
}

impl<V> ShelfSeat<V> {
    ghost use Rattle.task_queue.specs.Shelves.{held, Holds};

    // The place that stands first goes behind the others.
    fn rotate(&mut self)
        ensures seat { self.new.seat.table_id ≡ self.old.seat.table_id }
        ensures view { self.new.seat.me.0 ≡ self.old.seat.me.0 }
        ensures rotated { (n : ℕ) (ns : List ℕ) →
            held self.old ≡ n ∷ ns → held self.new ≡ ns ++ n ∷ [] }
    {
        if let Some(n) = self.held.pop_front() {
            self.held.push_back_reserved(n);
            self.seat.turn();
        }
    }

    // Rotates the places until n stands first.
    pub(crate) fn bring_to_front(&mut self, n: u32)
        requires { Holds self.old n }
        ensures seat { self.new.seat.table_id ≡ self.old.seat.table_id }
        ensures view { self.new.seat.me.0 ≡ self.old.seat.me.0 }
        ensures first { (ns : List ℕ) × (held self.new ≡ n ∷ ns) }
        ensures same { (m : ℕ) → times m (held self.new) ≡ times m (held self.old) }
    {
        for _i in 0..self.held.len() {
            if self.held[0] == n {
                return;
            }
            self.rotate();
        }
        unreachable!()
    }
}
