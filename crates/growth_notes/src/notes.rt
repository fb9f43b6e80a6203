//! The notes of all reserves, and their calls.
ghost use Rattle.std.specs.Prelude.{◌≡◌, ◌<◌, ◌+◌, ◌++◌, ◌∷◌, ◌%◌, ◌^◌, [], length, IfOk};
ghost use Rattle.growth_notes.specs.Rules.{AreFirst};
ghost use Rattle.growth_notes.specs.declared.rule.Role.TheVariants.{Root, Writer, Reader};

use crate::rule::{Append, Compare, Copy, Gather, HandOut, NoteView, OneList};
use atomic_table::{Seat, Table};
use std::alloc::{AllocError, Global};

/// Word 0 belongs to no reserve, and word r + 1 counts the growths of reserve r, modulo 2^64.
#[derive(Drop)]
pub struct GrowthNotes<G: Drop + Send> {
    pub table: Table<G, NoteView<G>, u32, OneList, Global>,
    pub reserves: u32,
    ghost key: { table.shared.key ≡ reserves },
    ghost sized: { table.shared.table_id.words ≡ reserves + 1 },
}

/// The seat out of which the notes of the reserves are handed out, in their order.
#[derive(Drop)]
pub struct NotesRoot<G> {
    pub seat: Seat<G, NoteView<G>>,
    pub made: u32,
    ghost holds: { seat.me ≡ (
      record { reserve = made; role = Root; growths = []; gathered = [] },
      [],
    ) },
}

/// The note of a reserve: the right to append to its growths.
#[derive(Drop)]
pub struct GrowthNote<G> {
    pub seat: Seat<G, NoteView<G>>,
    pub reserve: u32,
    pub count: u64,
    ghost own: { seat.me.0.reserve ≡ reserve },
    ghost writer: { seat.me.0.role ≡ Writer },
    ghost bare: { seat.me.1 ≡ [] },
    ghost counted: { count ≡ length seat.me.0.growths % 2 ^ 64 },
}

/// A copy of the note of a reserve: the growths that it had when the copy was made.
#[derive(Drop)]
pub struct NoteCopy<G> {
    pub seat: Seat<G, NoteView<G>>,
    pub reserve: u32,
    ghost own: { seat.me.0.reserve ≡ reserve },
    ghost bare: { seat.me.1 ≡ [] },
}

impl<G: Drop + Send> GrowthNotes<G> {
    ghost use Rattle.growth_notes.specs.Notes.{noted, noted_in, reserve_count, IsCopyOf, IsNoteOf, IsRootOf};

    /// Notes of so many reserves, of which none has grown.
    pub fn make(alloc: Global, reserves: u32) -> Result<(GrowthNotes<G>, NotesRoot<G>), AllocError>
        ensures count { IfOk result (λ made. reserve_count made.0 ≡ reserves) }
        ensures root { IfOk result (λ made. IsRootOf made.0 made.1 × (made.1.made ≡ 0)) }
    {
        let words = Vec::from_elem(alloc, 0u64, reserves as usize + 1)?;
        let (table, seat) = Table::of_words(alloc, words.as_slice(), &reserves)?;
        Ok((GrowthNotes { table, reserves }, NotesRoot { seat, made: 0 }))
    }

    /// The note of the next reserve.
    pub fn note(&self, root: &mut NotesRoot<G>) -> GrowthNote<G>
        requires root { IsRootOf self.now root.old }
        requires more { root.old.made < reserve_count self.now }
        ensures root { IsRootOf self.now root.new }
        ensures made { root.new.made ≡ root.old.made + 1 }
        ensures note { IsNoteOf self.now result }
        ensures reserve { result.reserve ≡ root.old.made }
        ensures none { noted result ≡ [] }
    {
        let seat = self.table.shared.split_seat::<HandOut>(&mut root.seat);
        let reserve = root.made;
        root.made += 1;
        GrowthNote {
            seat,
            reserve,
            count: 0,
        }
    }

    /// The reserve has grown by this, last of all so far.
    pub fn append(&self, note: &mut GrowthNote<G>, growth: &G)
        requires note { IsNoteOf self.now note.old }
        requires reserve { note.old.reserve < reserve_count self.now }
        ensures note { IsNoteOf self.now note.new }
        ensures reserve { note.new.reserve ≡ note.old.reserve }
        ensures noted { noted note.new ≡ noted note.old ++ growth.now ∷ [] }
    {
        let place = note.reserve as usize + 1;
        let count = note.count.wrapping_add(1);
        let shared = &self.table.shared;
        // An addition couldn't be told the growth. Only this note changes the word.
        shared.compare_exchange_with::<Append>(&mut note.seat, place, note.count, count, growth);
        note.count = count;
    }

    /// A copy of the note, with all growths so far.
    pub fn copy(&self, note: &mut GrowthNote<G>) -> NoteCopy<G>
        requires { IsNoteOf self.now note.old }
        ensures note { IsNoteOf self.now note.new }
        ensures reserve { note.new.reserve ≡ note.old.reserve }
        ensures noted { noted note.new ≡ noted note.old }
        ensures copy { IsCopyOf self.now result }
        ensures same { result.reserve ≡ note.old.reserve }
        ensures seen { noted_in result ≡ noted note.old }
    {
        let seat = self.table.shared.split_seat::<Copy>(&mut note.seat);
        NoteCopy {
            seat,
            reserve: note.reserve,
        }
    }

    /// Takes a copy back: its growths are the first of the note's.
    pub fn gather(&self, note: &mut GrowthNote<G>, copy: NoteCopy<G>)
        requires note { IsNoteOf self.now note.old }
        requires copy { IsCopyOf self.now copy }
        requires same { copy.reserve ≡ note.old.reserve }
        ensures note { IsNoteOf self.now note.new }
        ensures reserve { note.new.reserve ≡ note.old.reserve }
        ensures noted { noted note.new ≡ noted note.old }
        ensures first { AreFirst (noted_in copy) (noted note.old) }
    {
        let shared = &self.table.shared;
        let NoteCopy { seat, reserve: _ } = copy;
        shared.join_seat::<Gather>(&mut note.seat, seat);
        shared.load::<Compare>(&mut note.seat, 0);
    }
}
