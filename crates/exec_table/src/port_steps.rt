//! The steps of a node at its ports.
ghost use Rattle.std.specs.Prelude.{◌≡◌, ◌≢◌, ◌<◌, ℕ, true, Some, None};
ghost use Rattle.core_laws.specs.Steps.{flags as tells_flags, nothing};
ghost use Rattle.core_laws.specs.Views.{knows, wire_ok};
ghost use Rattle.core_laws.specs.declared.types.Step.TheVariants as step;
ghost use Rattle.port_word.specs.declared.flags.Flags.{Flags as FlagsOf};
ghost use Rattle.exec_table.specs.Words.{edge_count, flags_word, port_place as place_of_port, wire_place as place_of_wire, wire_of as wire_in_word};
ghost use Rattle.exec_table.specs.Ready.{ready, end_of_view};
ghost use Rattle.exec_table.specs.Rule.{aiming};
ghost use Rattle.exec_table.specs.Seats.{IsSeatOf, MakesStep, holds_chunk, identity_of, push_of, sizes_in, slot_of, slots, view};

use crate::plays::{Aim, AtPort};
use crate::rule::{ExecTable, NodeSeat};
use chunk_data::Chunk;
use core_laws::{Flags, Wire};

const NEEDED: u64 = 1;

const HAS_DATA: u64 = 2;

const FIN_OUT: u64 = 4;

const FIN_IN: u64 = 8;

fn flags_of(word: u64) -> Flags
    ensures { (f : FlagsOf) → word ≡ flags_word f → result ≡ f }
{
    Flags {
        needed: word & NEEDED != 0,
        has_data: word & HAS_DATA != 0,
        fin_out: word & FIN_OUT != 0,
        fin_in: word & FIN_IN != 0,
    }
}

// The wire of a word that has one.
pub(crate) fn wire_of(word: u64) -> Wire
    ensures { result ≡ wire_in_word word }
{
    Wire {
        from: (word >> 13 & 255) as u32,
        out: (word >> 21 & 15) as u32,
        to: (word & 255) as u32,
        input: (word >> 8 & 31) as u32,
    }
}

impl ExecTable {
    fn port_place(&self, e: u32) -> usize
        requires { e < edge_count (sizes_in self.now) }
        ensures { result ≡ place_of_port (sizes_in self.now) e }
    {
        self.nodes as usize + (self.edges as usize + e as usize) + 1
    }

    pub(crate) fn wire_place(&self, e: u32) -> usize
        requires { e < edge_count (sizes_in self.now) }
        ensures { result ≡ place_of_wire (sizes_in self.now) e }
    {
        self.nodes as usize + e as usize + 1
    }

    // The wire of an edge that the seat has learned. It never changes, so this load is no step; the
    // seat's view names the edge until its next step, which is how a mark says what it tells of.
    pub(crate) fn wire_at(&self, seat: &mut NodeSeat, e: u32) -> Wire
        requires seat { IsSeatOf (identity_of self.now) seat.old }
        requires known { knows e (view seat.old).state.seen ≡ true }
        ensures seat { IsSeatOf (identity_of self.now) seat.new }
        ensures same { (seat.new.seat.table_id ≡ seat.old.seat.table_id) ×
            (seat.new.node ≡ seat.old.node) × (seat.new.held ≡ seat.old.held) }
        ensures view { seat.new.seat.me ≡ (aiming e (view seat.old), slots seat.old) }
        ensures wire { (end_of_view (view seat.old) e).wire ≡ Some result }
        ensures sound { wire_ok (sizes_in self.now).nodes result ≡ true }
    {
        let place = self.wire_place(e);
        wire_of(self.table.shared.load::<Aim>(&mut seat.seat, place))
    }

    /// The port's flags as they are. Where its slot's turn has come for this end, that of an input
    /// with data or of an output without, the seat takes the slot.
    pub fn look(&self, seat: &mut NodeSeat, e: u32) -> Flags
        requires seat { IsSeatOf (identity_of self.now) seat.old }
        requires ready { ready (view seat.old) (step.Look e) ≡ true }
        ensures { MakesStep (identity_of self.now) seat.old seat.new (step.Look e) None
            (tells_flags result) }
    {
        let wire = self.wire_at(seat, e);
        let place = self.port_place(e);
        let flags = flags_of(self.table.shared.load::<AtPort>(&mut seat.seat, place));
        let is_turn = flags.has_data == (wire.to == seat.node);
        seat.take_slot(e, is_turn);
        flags
    }

    pub fn want(&self, seat: &mut NodeSeat, e: u32)
        requires seat { IsSeatOf (identity_of self.now) seat.old }
        requires ready { ready (view seat.old) (step.Want e) ≡ true }
        ensures { MakesStep (identity_of self.now) seat.old seat.new (step.Want e) None nothing }
    {
        let place = self.port_place(e);
        let shared = &self.table.shared;
        shared.fetch_or::<AtPort>(&mut seat.seat, place, NEEDED);
    }

    pub fn unwant(&self, seat: &mut NodeSeat, e: u32)
        requires seat { IsSeatOf (identity_of self.now) seat.old }
        requires ready { ready (view seat.old) (step.Unwant e) ≡ true }
        ensures { MakesStep (identity_of self.now) seat.old seat.new (step.Unwant e) None nothing }
    {
        let place = self.port_place(e);
        let shared = &self.table.shared;
        shared.fetch_and::<AtPort>(&mut seat.seat, place, !NEEDED);
    }

    /// The chunk goes into the slot, whose turn this seat has.
    pub fn push(&self, seat: &mut NodeSeat, e: u32, chunk: Chunk)
        requires seat { IsSeatOf (identity_of self.now) seat.old }
        requires ready { ready (view seat.old) (push_of seat.old e) ≡ true }
        requires slot { slot_of seat.old e ≡ Some None }
        ensures { MakesStep (identity_of self.now) seat.old seat.new (push_of seat.old e)
            (Some chunk)
            nothing }
    {
        seat.bring_to_front(e);
        seat.held.pop_front();
        let shared = &self.table.shared;
        match shared.exchange(&mut seat.seat, e as usize, Some(chunk)) {
            None => {}
            Some(_) => unreachable!(),
        }
        let place = self.port_place(e);
        shared.fetch_or::<AtPort>(&mut seat.seat, place, HAS_DATA);
    }

    /// The port's content, out of the slot, whose turn this seat has. This is no step: words and
    /// the seat's view stay.
    pub fn lift(&self, seat: &mut NodeSeat, e: u32) -> Chunk
        requires seat { IsSeatOf (identity_of self.now) seat.old }
        requires slot { holds_chunk (slot_of seat.old e) ≡ true }
        ensures seat { IsSeatOf (identity_of self.now) seat.new }
        ensures view { view seat.new ≡ view seat.old }
        ensures content { (end_of_view (view seat.old) e).turn ≡ Some (Some result) }
        ensures lifted { slot_of seat.new e ≡ Some None }
        ensures others { (d : ℕ) → d ≢ e → slot_of seat.new d ≡ slot_of seat.old d }
    {
        seat.bring_to_front(e);
        self.table
            .shared
            .exchange(&mut seat.seat, e as usize, None)
            .unwrap()
    }

    /// Gives back the slot, out of which the chunk was lifted.
    pub fn pull(&self, seat: &mut NodeSeat, e: u32)
        requires seat { IsSeatOf (identity_of self.now) seat.old }
        requires ready { ready (view seat.old) (step.Pull e) ≡ true }
        requires slot { slot_of seat.old e ≡ Some None }
        ensures { MakesStep (identity_of self.now) seat.old seat.new (step.Pull e) None nothing }
    {
        seat.bring_to_front(e);
        seat.held.pop_front();
        let place = self.port_place(e);
        let shared = &self.table.shared;
        shared.fetch_and::<AtPort>(&mut seat.seat, place, !HAS_DATA);
    }

    pub fn finish(&self, seat: &mut NodeSeat, e: u32)
        requires seat { IsSeatOf (identity_of self.now) seat.old }
        requires ready { ready (view seat.old) (step.Finish e) ≡ true }
        ensures { MakesStep (identity_of self.now) seat.old seat.new (step.Finish e) None nothing }
    {
        let place = self.port_place(e);
        let shared = &self.table.shared;
        shared.fetch_or::<AtPort>(&mut seat.seat, place, FIN_OUT);
    }

    pub fn close_port(&self, seat: &mut NodeSeat, e: u32)
        requires seat { IsSeatOf (identity_of self.now) seat.old }
        requires ready { ready (view seat.old) (step.ClosePort e) ≡ true }
        ensures { MakesStep (identity_of self.now) seat.old seat.new (step.ClosePort e) None
            nothing }
    {
        let place = self.port_place(e);
        let shared = &self.table.shared;
        shared.fetch_or::<AtPort>(&mut seat.seat, place, FIN_IN);
    }
}
