//! The notes of growths of a run, which are made before its first step.
ghost use Rattle.std.specs.Prelude.{◌≡◌, ◌<◌, ◌+◌, [], IfOk, List, length, map};
ghost use Rattle.node_cells.specs.declared.cell.NodeCell.{NodeCell};
ghost use Rattle.growth_notes.specs.Notes.{IsNoteOf, IsRootOf, noted};
ghost use Rattle.node_workers.specs.Notes.{HasNotesFor, HaveFirstNotes};
ghost use Rattle.node_workers.specs.Rooms.{as_named};
ghost use Rattle.proc_api.specs.Reserves.{reserve_at};

use crate::named_cell::{CellNote, NamedCell, Naming};
use chunk_data::Memory;
use growth_notes::{GrowthNote, GrowthNotes, NotesRoot};
use node_births::NotedGrowth;
use port_word::Reserve;
use proc_api::Processor;
use std::alloc::Global;

/// Notes for all reserves.
pub(crate) fn make_notes(
    alloc: Global,
    reserves: &[Reserve],
) -> Result<(GrowthNotes<NotedGrowth>, NotesRoot<NotedGrowth>), Memory>
    ensures { IfOk result (λ made. HasNotesFor reserves.now made.0 made.1) }
{
    match u32::try_from(reserves.len()) {
        Ok(count) => match GrowthNotes::make(alloc, count) {
            Ok(made) => Ok(made),
            Err(_) => Err(Memory),
        },
        Err(_) => Err(Memory),
    }
}

/// The node that grows by reserve k gets the note of that, if there is such a cell.
#[tactic(auto, unfolding(proc_api::specs::Reserves::reserve_at))]
fn give_note<P: Processor, J: Naming>(
    notes: &GrowthNotes<NotedGrowth>,
    note: GrowthNote<NotedGrowth>,
    reserves: &[Reserve],
    named: &mut Vec<NamedCell<P, J>>,
    k: usize,
)
    requires k { k < length reserves.now }
    requires note { IsNoteOf notes.now note }
    requires own { note.reserve ≡ k }
    requires bare { noted note ≡ [] }
    ensures { (cells : List (NodeCell P))
        → HaveFirstNotes notes.now.table.shared.table_id reserves.now k cells named.old.items
        → HaveFirstNotes notes.now.table.shared.table_id reserves.now (k + 1) cells
        named.new.items }
{
    let n = reserves[k].node as usize;
    if n < named.len() {
        named[n].note = CellNote::Own(note);
    }
}

/// Each node that grows by a reserve gets the note of that.
pub(crate) fn give_notes<P: Processor, J: Naming>(
    notes: &GrowthNotes<NotedGrowth>,
    root: &mut NotesRoot<NotedGrowth>,
    reserves: &[Reserve],
    named: &mut Vec<NamedCell<P, J>>,
)
    requires notes { HasNotesFor reserves.now notes.now root.old }
    ensures { (cells : List (NodeCell P))
        → named.old.items ≡ map as_named cells
        → HaveFirstNotes notes.now.table.shared.table_id reserves.now (length reserves.now) cells
        named.new.items }
{
    for k in 0..reserves.len() {
        let note = notes.note(root);
        give_note(notes, note, reserves, named, k);
    }
}
