//! The steps by which a graph grows at run time: an edge gets its wire, and a node learns it.
ghost use Rattle.std.specs.Prelude.{◌≡◌, true, Some, None};
ghost use Rattle.core_laws.specs.Steps.{wired as tells_wired};
ghost use Rattle.core_laws.specs.declared.types.Step.TheVariants as step;
ghost use Rattle.exec_table.specs.Words.{wire_word as word_there, wire_in};
ghost use Rattle.exec_table.specs.Ready.{ready};
ghost use Rattle.exec_table.specs.Seats.{IsSeatOf, MakesStep, identity_of, view, wire_found};

use crate::plays::{Learn, SetWire};
use crate::port_steps::wire_of;
use crate::rule::{ExecTable, NodeSeat};
use core_laws::Wire;

pub(crate) fn wire_word(w: Wire) -> u64
    ensures { result ≡ word_there (Some w) }
{
    w.to as u64
        + ((w.input as u64) << 8)
        + ((w.from as u64) << 13)
        + ((w.out as u64) << 21)
        + (1 << 25)
}

fn wire_in_word(word: u64) -> Option<Wire>
    ensures { result ≡ wire_in word }
{
    if word == 0 { None } else { Some(wire_of(word)) }
}

fn refused(found: Option<Wire>) -> Result<(), Wire>
    ensures { wire_found result ≡ found }
{
    match found {
        None => Ok(()),
        Some(wire) => Err(wire),
    }
}

impl ExecTable {
    /// The reserved edge gets this wire, unless it has one.
    pub fn wire(&self, seat: &mut NodeSeat, e: u32, w: Wire) -> Result<(), Wire>
        requires seat { IsSeatOf (identity_of self.now) seat.old }
        requires ready { ready (view seat.old) (step.Wire e w) ≡ true }
        ensures { MakesStep (identity_of self.now) seat.old seat.new (step.Wire e w) None
            (tells_wired
            (wire_found result)) }
    {
        let place = self.wire_place(e);
        let word = wire_word(w);
        let shared = &self.table.shared;
        let found = shared.compare_exchange::<SetWire>(&mut seat.seat, place, 0, word);
        refused(wire_in_word(found))
    }

    /// The edge's wire. Where it is one of the node, the node has learned it.
    pub fn wired(&self, seat: &mut NodeSeat, e: u32) -> Option<Wire>
        requires seat { IsSeatOf (identity_of self.now) seat.old }
        requires ready { ready (view seat.old) (step.Wired e) ≡ true }
        ensures { MakesStep (identity_of self.now) seat.old seat.new (step.Wired e) None
            (tells_wired result) }
    {
        let place = self.wire_place(e);
        wire_in_word(self.table.shared.load::<Learn>(&mut seat.seat, place))
    }
}
