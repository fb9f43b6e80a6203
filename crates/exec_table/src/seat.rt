//! The slots that are out with a node's seat.
ghost use Rattle.std.specs.Prelude.{◌≡◌, ◌<◌, ◌&&◌, not, cond, ℕ, List, ◌∷◌, ◌++◌, [], length, true, false};
ghost use Rattle.std.specs.VecDeque.{deque_capacity};
ghost use Rattle.core_laws.specs.Views.{has as has_edge};
ghost use Rattle.exec_table.specs.Seats.{IsInHand, edges_out, slot_of, slots};

use crate::rule::NodeSeat;

impl NodeSeat {
    fn has_slot(&self, e: u32) -> bool
        ensures { result ≡ has_edge e self.now.held.items }
    {
        self.held.iter().any(|d| *d == e)
    }

    // Notes that the slot of e is out with the seat, where its turn has come.
    pub(crate) fn take_slot(&mut self, e: u32, is_turn: bool)
        requires { has_edge e self.old.held.items ≡ false
            → length self.old.held.items < deque_capacity self.old.held }
        ensures same { (self.new.seat ≡ self.old.seat) × (self.new.node ≡ self.old.node) ×
            (deque_capacity self.new.held ≡ deque_capacity self.old.held) }
        ensures held { self.new.held.items ≡ cond (is_turn && not (has_edge e self.old.held.items))
            (e ∷ self.old.held.items) self.old.held.items }
    {
        if is_turn && !self.has_slot(e) {
            self.held.push_front_reserved(e);
        }
    }

    // The slot that stands first goes behind the others.
    fn rotate(&mut self)
        requires { IsInHand self.old }
        ensures hand { IsInHand self.new }
        ensures same { (self.new.seat.table_id ≡ self.old.seat.table_id) ×
            (self.new.seat.me.0 ≡ self.old.seat.me.0) × (self.new.node ≡ self.old.node) ×
            (deque_capacity self.new.held ≡ deque_capacity self.old.held) }
        ensures slots { (d : ℕ) → slot_of self.new d ≡ slot_of self.old d }
        ensures rotated { (n : ℕ) (ns : List ℕ) → self.old.held.items ≡ n ∷ ns
            → self.new.held.items ≡ ns ++ n ∷ [] }
    {
        if let Some(e) = self.held.pop_front() {
            self.held.push_back_reserved(e);
            self.seat.turn();
        }
    }

    // Rotates the slots until that of e stands first.
    pub(crate) fn bring_to_front(&mut self, e: u32)
        requires hand { IsInHand self.old }
        requires there { has_edge e self.old.held.items ≡ true }
        ensures hand { IsInHand self.new }
        ensures same { (self.new.seat.table_id ≡ self.old.seat.table_id) ×
            (self.new.seat.me.0 ≡ self.old.seat.me.0) × (self.new.node ≡ self.old.node) ×
            (deque_capacity self.new.held ≡ deque_capacity self.old.held) }
        ensures slots { (d : ℕ) → slot_of self.new d ≡ slot_of self.old d }
        ensures first { (ns : List ℕ) × (self.new.held.items ≡ e ∷ ns) }
    {
        for _i in 0..self.held.len() {
            if self.held[0] == e {
                return;
            }
            self.rotate();
        }
        unreachable!()
    }
}
