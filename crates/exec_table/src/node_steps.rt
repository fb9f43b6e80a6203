//! The steps of a node at its own word, at a peer's and at word 0.
ghost use Rattle.std.specs.Prelude.{◌≡◌, ◌<◌, ◌^◌, true, Some, None};
ghost use Rattle.core_laws.specs.Steps.{bit_at_end, is_idle as tells_idle, marked_by, marked_peer, nothing, peer_in};
ghost use Rattle.core_laws.specs.declared.types.Step.TheVariants as step;
ghost use Rattle.core_laws.specs.Views.{is_set as is_set_there, wire_ok};
ghost use Rattle.exec_table.specs.Ready.{ready};
ghost use Rattle.exec_table.specs.Seats.{IsSeatOf, MakesStep, MakesUpdated, identity_of, is_idle, marked_of, updated_of as updated_there, view};

use crate::plays::{Again, Begin, Birth, Mark, Over, Rest, TokenIn, TokenOut};
use crate::rule::{ExecTable, NodeSeat};
use crate::types::{Marked, Rested, Updated};
use core_laws::Wire;

const HELD: u64 = 1 << 62;

const OVER: u64 = 1 << 63;

/// The bits first and unborn.
const BORN: u64 = 3 << 60;

fn is_set(word: u64, k: u32) -> bool
    requires { k < 64 }
    ensures { result ≡ is_set_there word k }
{
    word >> k & 1 == 1
}

fn updated_of(word: u64) -> Updated
    ensures { result ≡ updated_there word }
{
    Updated {
        inputs: (word & 4294967295) as u32,
        outputs: (word >> 32 & 65535) as u16,
        first: is_set(word, 60),
    }
}

fn marked(word: u64) -> Marked
    ensures { marked_of result ≡ marked_by word }
{
    if word == 0 {
        Marked::Charged
    } else if is_set(word, 63) {
        Marked::Over
    } else {
        Marked::AlreadyDue
    }
}

// The node at the other end of the wire, and the bit of the edge in its word.
fn peer_of(wire: Wire, node: u32) -> (u32, u32)
    requires { wire_ok 256 wire ≡ true }
    ensures peer { result.0 ≡ peer_in node (Some wire) }
    ensures bit { result.1 ≡ bit_at_end (peer_in node (Some wire)) (Some wire) }
    ensures small { result.1 < 48 }
{
    if wire.to == node {
        (wire.from, 32 + wire.out)
    } else {
        (wire.to, wire.input)
    }
}

fn bit(k: u32) -> u64
    requires { k < 64 }
    ensures { result ≡ 2 ^ k }
{
    1 << k
}

impl ExecTable {
    /// Tells the node at the other end of e that the port changed. Where that node's word was 0 it
    /// is charged with a token of this one.
    pub fn mark(&self, seat: &mut NodeSeat, e: u32) -> Marked
        requires seat { IsSeatOf (identity_of self.now) seat.old }
        requires ready { ready (view seat.old) (step.Mark e) ≡ true }
        ensures { MakesStep (identity_of self.now) seat.old seat.new (step.Mark e) None (marked_peer
            (marked_of result)) }
    {
        let wire = self.wire_at(seat, e);
        let (peer, port) = peer_of(wire, seat.node);
        let place = peer as usize + 1;
        let shared = &self.table.shared;
        marked(shared.fetch_or::<Mark>(&mut seat.seat, place, bit(port)))
    }

    /// The node, which has a token, is held from now on. Its token goes where its word was 0.
    pub fn begin(&self, seat: &mut NodeSeat) -> Updated
        requires seat { IsSeatOf (identity_of self.now) seat.old }
        requires ready { ready (view seat.old) step.Begin ≡ true }
        ensures { MakesUpdated (identity_of self.now) seat.old seat.new step.Begin result }
    {
        let place = seat.node as usize + 1;
        updated_of(self.table.shared.swap::<Begin>(&mut seat.seat, place, HELD))
    }

    pub fn again(&self, seat: &mut NodeSeat) -> Updated
        requires seat { IsSeatOf (identity_of self.now) seat.old }
        requires ready { ready (view seat.old) step.Again ≡ true }
        ensures { MakesUpdated (identity_of self.now) seat.old seat.new step.Again result }
    {
        let place = seat.node as usize + 1;
        updated_of(self.table.shared.swap::<Again>(&mut seat.seat, place, HELD))
    }

    /// The node is idle from now on, unless a port changed meanwhile.
    pub fn rest(&self, seat: &mut NodeSeat) -> Rested
        requires seat { IsSeatOf (identity_of self.now) seat.old }
        requires ready { ready (view seat.old) step.Rest ≡ true }
        ensures { MakesStep (identity_of self.now) seat.old seat.new step.Rest None
            (tells_idle (is_idle result)) }
    {
        let place = seat.node as usize + 1;
        let shared = &self.table.shared;
        if shared.compare_exchange::<Rest>(&mut seat.seat, place, HELD, 0) == HELD {
            Rested::Idle
        } else {
            Rested::UpdatedAgain
        }
    }

    pub fn over(&self, seat: &mut NodeSeat)
        requires seat { IsSeatOf (identity_of self.now) seat.old }
        requires ready { ready (view seat.old) step.Over ≡ true }
        ensures { MakesStep (identity_of self.now) seat.old seat.new step.Over None nothing }
    {
        let place = seat.node as usize + 1;
        self.table.shared.swap::<Over>(&mut seat.seat, place, OVER);
    }

    pub fn token_in(&self, seat: &mut NodeSeat)
        requires seat { IsSeatOf (identity_of self.now) seat.old }
        requires ready { ready (view seat.old) step.TokenIn ≡ true }
        ensures { MakesStep (identity_of self.now) seat.old seat.new step.TokenIn None nothing }
    {
        self.table.shared.fetch_add::<TokenIn>(&mut seat.seat, 0, 1);
    }

    pub fn token_out(&self, seat: &mut NodeSeat)
        requires seat { IsSeatOf (identity_of self.now) seat.old }
        requires ready { ready (view seat.old) step.TokenOut ≡ true }
        ensures { MakesStep (identity_of self.now) seat.old seat.new step.TokenOut None nothing }
    {
        let shared = &self.table.shared;
        shared.fetch_sub::<TokenOut>(&mut seat.seat, 0, 1);
    }

    /// The unborn node is live and charged from now on, with the token that it had.
    pub fn birth(&self, seat: &mut NodeSeat)
        requires seat { IsSeatOf (identity_of self.now) seat.old }
        requires ready { ready (view seat.old) step.Birth ≡ true }
        ensures { MakesStep (identity_of self.now) seat.old seat.new step.Birth None nothing }
    {
        let place = seat.node as usize + 1;
        let shared = &self.table.shared;
        shared.fetch_xor::<Birth>(&mut seat.seat, place, BORN);
    }
}
