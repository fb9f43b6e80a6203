//! What the nodes know of growths, after the workers of a run.
ghost use Rattle.std.specs.Prelude.{◌≡◌, ◌+◌, ◌<◌, ◌==◌, ◌≢◌, IfNone, IfSome, List, None, Some, false, length, map, true, ℕ};
ghost use Rattle.std.specs.List.{list_any};
ghost use lib.ListN.{get_elem?};
ghost use mathlib.Core.Option.{some};
ghost use Rattle.atomic_table.specs.Seated.{TableId};
ghost use Rattle.exec_laws.specs.declared.edges.NodeStatus.TheVariants.{Unborn};
ghost use Rattle.exec_laws.specs.declared.growth.Blank.{Blank};
ghost use Rattle.growth_notes.specs.Notes.{IsCopyOf, noted_in};
ghost use Rattle.growth_notes.specs.Rules.{AreFirst};
ghost use Rattle.node_births.specs.declared.noted_growth.NotedGrowth.{NotedGrowth};
ghost use Rattle.node_workers.specs.declared.named_cell.EndedCell.{EndedCell};
ghost use Rattle.pipeline_exec.specs.Gathering.{AreAllBornOrLeft, AreBornOrLeft, AreGatheredTo, AreOfNotes, HaveFirstGrowths, IsCopyIn, IsLeft, IsOfNotes, copied_growths, copies_in, own_growths, owns_in, without_copy};
ghost use Rattle.proc_api.specs.Reserves.{reserve_at};

use exec_laws::{Blank, NodeStatus};
use growth_notes::{GrowthNotes, NoteCopy};
use node_births::NotedGrowth;
use node_cells::holds_node;
use node_workers::{CellNote, EndedCell};
use port_word::Reserve;
use proc_api::Processor;
use std::mem::replace;

/// Takes the copy of a note out of the cell.
fn take_copy<P: Processor>(cell: &mut EndedCell<P>) -> Option<NoteCopy<NotedGrowth>>
    ensures same { without_copy cell.new ≡ without_copy cell.old }
    ensures found { IfSome result (IsCopyIn cell.old.note) }
    ensures taken { copied_growths cell.new.note ≡ None }
    ensures missing { IfNone result (copied_growths cell.old.note ≡ None) }
    ensures note { (id : TableId) → IsOfNotes id cell.old.note → IsOfNotes id cell.new.note }
{
    match replace(&mut cell.note, CellNote::Bare) {
        CellNote::Copied(copy) => Some(copy),
        note => {
            cell.note = note;
            None
        }
    }
}

/// Gathers a copy into the note of the cell, if that is its reserve's.
fn gather_into<P: Processor>(
    notes: &GrowthNotes<NotedGrowth>,
    cell: &mut EndedCell<P>,
    copy: NoteCopy<NotedGrowth>,
) -> bool
    requires note { IsOfNotes notes.now.table.shared.table_id cell.old.note }
    requires copy { IsCopyOf notes.now copy }
    ensures note { IsOfNotes notes.now.table.shared.table_id cell.new.note }
    ensures same { without_copy cell.new ≡ without_copy cell.old }
    ensures copied { copied_growths cell.new.note ≡ copied_growths cell.old.note }
    ensures first { result ≡ true → (own : List NotedGrowth)
        → own_growths cell.old.note ≡ Some own → AreFirst (noted_in copy) own }
{
    match &mut cell.note {
        CellNote::Own(own) => {
            if own.reserve != copy.reserve {
                return false;
            }
            notes.gather(own, copy);
            true
        }
        CellNote::Bare | CellNote::Copied(_) => false,
    }
}

/// Takes the copy out of the cell of node n.
fn take_copy_at<P: Processor>(
    cells: &mut Vec<EndedCell<P>>,
    n: usize,
) -> Option<NoteCopy<NotedGrowth>>
    requires in_range { n < length cells.old.items }
    ensures same { map without_copy cells.new.items ≡ map without_copy cells.old.items }
    ensures note { (id : TableId) → AreOfNotes id cells.old.items → AreOfNotes id cells.new.items }
    ensures others { (m : ℕ) → m ≢ n
        → get_elem? (copies_in cells.new.items) m ≡ get_elem? (copies_in cells.old.items) m }
    ensures found { IfSome result (λ c. (d : EndedCell P) → get_elem? cells.old.items n ≡ some d
        → IsCopyIn d.note c) }
    ensures missing { IfNone result (get_elem? (copies_in cells.old.items) n ≡ some None) }
{
    take_copy(&mut cells[n])
}

/// Gathers a copy into the note of its reserve's node.
#[tactic(auto, unfolding(proc_api::specs::Reserves::reserve_at))]
fn gather_copy<P: Processor>(
    notes: &GrowthNotes<NotedGrowth>,
    reserves: &[Reserve],
    cells: &mut Vec<EndedCell<P>>,
    copy: NoteCopy<NotedGrowth>,
) -> bool
    requires notes { AreOfNotes notes.now.table.shared.table_id cells.old.items }
    requires copy { IsCopyOf notes.now copy }
    ensures note { AreOfNotes notes.now.table.shared.table_id cells.new.items }
    ensures same { map without_copy cells.new.items ≡ map without_copy cells.old.items }
    ensures copied { copies_in cells.new.items ≡ copies_in cells.old.items }
    ensures first { result ≡ true → (own : List NotedGrowth)
        → get_elem? (owns_in cells.old.items) (reserve_at reserves.now copy.reserve).node
        ≡ some (Some own) → AreFirst (noted_in copy) own }
{
    let k = copy.reserve as usize;
    if k >= reserves.len() {
        return false;
    }
    let n = reserves[k].node as usize;
    if n >= cells.len() {
        return false;
    }
    gather_into(notes, &mut cells[n], copy)
}

/// Gathers the copy at node n, if it has one.
fn gather_at<P: Processor>(
    notes: &GrowthNotes<NotedGrowth>,
    reserves: &[Reserve],
    cells: &mut Vec<EndedCell<P>>,
    n: usize,
) -> bool
    requires in_range { n < length cells.old.items }
    requires notes { AreOfNotes notes.now.table.shared.table_id cells.old.items }
    ensures note { AreOfNotes notes.now.table.shared.table_id cells.new.items }
    ensures same { map without_copy cells.new.items ≡ map without_copy cells.old.items }
    ensures gathers { result ≡ true → (first : List (EndedCell P))
        → AreGatheredTo reserves.now n first cells.old.items
        → AreGatheredTo reserves.now (n + 1) first cells.new.items }
{
    match take_copy_at(cells, n) {
        Some(copy) => gather_copy(notes, reserves, cells, copy),
        None => true,
    }
}

/// Gathers all copies into the notes of their reserves' nodes, and says whether each was there.
pub(crate) fn gather_notes<P: Processor>(
    notes: &GrowthNotes<NotedGrowth>,
    reserves: &[Reserve],
    cells: &mut Vec<EndedCell<P>>,
) -> bool
    requires notes { AreOfNotes notes.now.table.shared.table_id cells.old.items }
    ensures same { map without_copy cells.new.items ≡ map without_copy cells.old.items }
    ensures first { result ≡ true
        → HaveFirstGrowths reserves.now cells.old.items (length cells.old.items) }
{
    for n in 0..cells.len() {
        if !gather_at(notes, reserves, cells, n) {
            return false;
        }
    }
    true
}

/// Whether the node is among the blanks.
fn is_blank_of(blanks: &Vec<Blank>, n: usize) -> bool
    ensures { result ≡ list_any (λ (b : Blank). b.node == n) blanks.now.items }
{
    blanks.iter().any(|b| b.node as usize == n)
}

/// Whether the node n is among the blanks that are left to node m.
fn is_left<P: Processor>(cells: &Vec<EndedCell<P>>, m: usize, n: usize) -> bool
    ensures { result ≡ true → IsLeft cells.now.items m n }
{
    m < cells.len() && is_blank_of(&cells[m].cell.reserve.blanks, n)
}

fn is_unborn(state: NodeStatus) -> bool
    ensures { result ≡ false → state ≢ Unborn }
{
    match state {
        NodeStatus::Unborn => true,
        NodeStatus::Due | NodeStatus::Resting | NodeStatus::AtWork(_) | NodeStatus::Over => false,
    }
}

fn is_unborn_at<P: Processor>(cells: &Vec<EndedCell<P>>, n: usize) -> bool
    requires { n < length cells.now.items }
    ensures { result ≡ false → (d : EndedCell P) → get_elem? cells.now.items n ≡ some d
        → d.cell.mark.state ≢ Unborn }
{
    is_unborn(cells[n].cell.mark.state)
}

/// Whether each node of the reserve is born, or among the blanks that are left to its node.
fn is_each_born_or_left<P: Processor>(reserve: &Reserve, cells: &Vec<EndedCell<P>>) -> bool
    ensures { result ≡ true → AreBornOrLeft cells.now.items reserve.now (length cells.now.items) }
{
    for n in 0..cells.len() {
        if holds_node(reserve, n)
            && is_unborn_at(cells, n)
            && !is_left(cells, reserve.node as usize, n)
        {
            return false;
        }
    }
    true
}

/// Whether each node of all reserves is born, or among the blanks that are left to its reserve's.
#[tactic(auto, unfolding(proc_api::specs::Reserves::reserve_at))]
pub(crate) fn are_born_or_left<P: Processor>(
    reserves: &[Reserve],
    cells: &Vec<EndedCell<P>>,
) -> bool
    ensures { result ≡ true
        → AreAllBornOrLeft reserves.now cells.now.items (length reserves.now) }
{
    for k in 0..reserves.len() {
        if !is_each_born_or_left(&reserves[k], cells) {
            return false;
        }
    }
    true
}
