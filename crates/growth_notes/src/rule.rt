//! What a seat of the notes knows, the rule of all, and what each step tells.
ghost use Rattle.growth_notes.specs.Steps.{appended, as_copy, as_root_of_next, copied, first_note, joining, spent, Appends, Compares};

use atomic_table::{Join, Play, Split, TableRule};
use std::collections::LinkedList;

/// What the owner of a seat may append to.
#[derive(Clone, Copy, PartialEq, Eq)]
pub enum Role {
    /// The growths of its reserve and of all later ones, which nobody else has yet.
    Root,
    /// The growths of its reserve.
    Writer,
    /// Nothing.
    Reader,
}

/// What a seat knows of the growths of a reserve. No value of it is made.
pub struct NoteView<G> {
    pub reserve: u32,
    pub role: Role,
    /// Those that it has seen.
    pub growths: LinkedList<G>,
    /// Those that the copy had seen that was gathered last.
    pub gathered: LinkedList<G>,
}

/// The rule, by the number of reserves: the growths of a reserve are one list, of which each seat
/// has seen the first.
pub struct OneList;

impl<G> TableRule<G, NoteView<G>, u32> for OneList {
    ghost use Rattle.growth_notes.specs.Rules.{AreNoted};

    ghost holds = { AreNoted };

    ghost first = { λ key. first_note };
}

pub(crate) struct Append;

impl<G> Play<G, NoteView<G>> for Append {
    ghost then = { Appends };
}

pub(crate) struct Compare;

impl<G> Play<G, NoteView<G>> for Compare {
    ghost then = { Compares };
}

// The root hands out the note of its reserve.
pub(crate) struct HandOut;

impl<G> Split<NoteView<G>> for HandOut {
    ghost left = { as_root_of_next };

    ghost right = { copied };
}

// A reader gets what a seat has seen.
pub(crate) struct Copy;

impl<G> Split<NoteView<G>> for Copy {
    ghost left = { λ v. v };

    ghost right = { as_copy };
}

pub(crate) struct Gather;

impl<G> Join<NoteView<G>> for Gather {
    ghost both = { joining };

    ghost spent = { spent };
}
