//! What each atomic step tells its seat.
ghost use Rattle.core_laws.specs.declared.types.Step.TheVariants as step;
ghost use Rattle.exec_table.specs.Plays.{does, port_step, wire_edge, wire_step, marks, aims, works, with_worker, next_worker};

use crate::types::View;
use atomic_table::{Join, Play, Split};
use chunk_data::Chunk;

// A look-up of an edge's wire.
pub(crate) struct Aim;

impl Play<Option<Chunk>, View> for Aim {
    ghost then = { aims };
}

// A look at a port's word, or a change of one of its flags.
pub(crate) struct AtPort;

impl Play<Option<Chunk>, View> for AtPort {
    ghost then = { does port_step };
}

pub(crate) struct Mark;

impl Play<Option<Chunk>, View> for Mark {
    ghost then = { marks };
}

pub(crate) struct Begin;

impl Play<Option<Chunk>, View> for Begin {
    ghost then = { does (λ st x. step.Begin) };
}

pub(crate) struct Again;

impl Play<Option<Chunk>, View> for Again {
    ghost then = { does (λ st x. step.Again) };
}

pub(crate) struct Rest;

impl Play<Option<Chunk>, View> for Rest {
    ghost then = { does (λ st x. step.Rest) };
}

pub(crate) struct Over;

impl Play<Option<Chunk>, View> for Over {
    ghost then = { does (λ st x. step.Over) };
}

pub(crate) struct TokenIn;

impl Play<Option<Chunk>, View> for TokenIn {
    ghost then = { does (λ st x. step.TokenIn) };
}

pub(crate) struct TokenOut;

impl Play<Option<Chunk>, View> for TokenOut {
    ghost then = { does (λ st x. step.TokenOut) };
}

pub(crate) struct SetWire;

impl Play<Option<Chunk>, View> for SetWire {
    ghost then = { does wire_step };
}

pub(crate) struct Learn;

impl Play<Option<Chunk>, View> for Learn {
    ghost then = { does (λ st x. step.Wired (wire_edge st x)) };
}

pub(crate) struct Birth;

impl Play<Option<Chunk>, View> for Birth {
    ghost then = { does (λ st x. step.Birth) };
}

// A worker's look at word 0, or its stop.
pub(crate) struct AtFirst;

impl Play<Option<Chunk>, View> for AtFirst {
    ghost then = { works };
}

// A worker's seat out of the root's.
pub(crate) struct MakeWorker;

impl Split<View> for MakeWorker {
    ghost left = { with_worker };

    ghost right = { next_worker };
}

// The first node of a seat goes to a new seat.
pub(crate) struct Peel;

impl Split<View> for Peel {
    ghost use Rattle.exec_table.specs.Made.{without_first_node, just_first};

    ghost left = { without_first_node };

    ghost right = { just_first };
}

// A seat takes in the nodes of another.
pub(crate) struct Gather;

impl Join<View> for Gather {
    ghost use Rattle.exec_table.specs.Rule.{no_view};
    ghost use Rattle.exec_table.specs.Surveys.{joined_views};

    ghost both = { joined_views };

    ghost spent = { no_view };
}

pub(crate) struct Note;

impl Play<Option<Chunk>, View> for Note {
    ghost use Rattle.exec_table.specs.Surveys.{notes};

    ghost then = { notes };
}

pub(crate) struct Survey;

impl Play<Option<Chunk>, View> for Survey {
    ghost use Rattle.exec_table.specs.Surveys.{surveys};

    ghost then = { surveys };
}

pub(crate) struct Enter;

impl Play<Option<Chunk>, View> for Enter {
    ghost use Rattle.std.specs.Prelude.{◌≡◌};
    ghost use Rattle.exec_table.specs.Rule.{no_view};

    ghost then = { λ st m n m'. m'.0 ≡ no_view };
}
