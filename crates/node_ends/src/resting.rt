//! Whether the views of nodes at rest support their last status.
ghost use Rattle.std.specs.Prelude.{◌≡◌, ℕ, ◌+◌, ◌<◌, ◌≤◌, ◌++◌, ◌∷◌, cond, true, false, length, IfSome, IfNone, vec_capacity, []};
ghost use Rattle.port_word.specs.Names.{in_count, out_count, output_at, WaitsForData, WaitsForRoom};
ghost use Rattle.proc_api.specs.Settled.{Rests};
ghost use Rattle.exec_laws.specs.Names.{ContradictsStatus, MarkTells, SupportsStatus, cell_at, is_resting, stuck_from};
ghost use Rattle.node_cells.specs.Turns.{turn_picture};
ghost use Rattle.node_ends.specs.CellLists.{boxes_in, pictures_of};
ghost use Rattle.node_ends.specs.Resting.{HasNoOpenOutput, HasOpenOutput, has_room, is_wanting};

use exec_laws::{NodeStatus, StuckNode};
use node_cells::NodeCell;
use port_word::PortView;
use proc_api::{Processor, Status};

/// The first node at rest whose view contradicts its last status.
pub(crate) fn first_unlawful<P: Processor>(cells: &Vec<NodeCell<P>>) -> Option<usize>
    ensures in_range { IfSome result (λ n. n < length cells.now.items) }
    ensures found { IfSome result
        (λ n. ContradictsStatus (cell_at (pictures_of P.seen cells.now.items) n)) }
    ensures missing { IfNone result ((n : ℕ) → n < length cells.now.items
        → SupportsStatus (cell_at (pictures_of P.seen cells.now.items) n)) }
{
    for n in 0..cells.len() {
        if !is_supported(cells, n) {
            return Some(n);
        }
    }
    None
}

fn is_supported<P: Processor>(cells: &Vec<NodeCell<P>>, n: usize) -> bool
    requires { n < length cells.now.items }
    ensures yes { result ≡ true → SupportsStatus (cell_at (pictures_of P.seen cells.now.items) n) }
    ensures denied { result ≡ false
        → ContradictsStatus (cell_at (pictures_of P.seen cells.now.items) n) }
{
    supports_status(&cells[n])
}

/// Whether the node is at rest and its view supports its last status, or it isn't at rest.
fn supports_status<P: Processor>(cell: &NodeCell<P>) -> bool
    ensures yes { result ≡ true → SupportsStatus (turn_picture P.seen cell.now) }
    ensures denied { result ≡ false → ContradictsStatus (turn_picture P.seen cell.now) }
{
    match cell.mark.state {
        NodeStatus::Resting => rests(cell.mark.last, &cell.ports.view),
        NodeStatus::Due | NodeStatus::AtWork(_) | NodeStatus::Over | NodeStatus::Unborn => true,
    }
}

/// Whether the view of a node at rest supports its last status.
pub fn rests(last: Option<Status>, view: &PortView) -> bool
    ensures yes { result ≡ true → Rests last view.now }
    ensures denied { result ≡ false → Rests last view.now → ⊥ }
{
    match last {
        Some(Status::NeedData) => waits_for_data(view),
        Some(Status::PortFull) | None => waits_for_room(view),
        _ => false,
    }
}

fn waits_for_data(view: &PortView) -> bool
    ensures yes { result ≡ true → WaitsForData view.now }
    ensures denied { result ≡ false → WaitsForData view.now → ⊥ }
{
    for i in 0..view.inputs() {
        if is_wanting(view, i) {
            return true;
        }
    }
    false
}

/// Whether the input is needed, empty and not finished.
fn is_wanting(view: &PortView, i: usize) -> bool
    requires { i < in_count view.now }
    ensures { result ≡ is_wanting view.now i }
{
    let flags = view.input_flags(i);
    flags.needed && !flags.has_data && !view.in_finished(i)
}

fn waits_for_room(view: &PortView) -> bool
    ensures yes { result ≡ true → WaitsForRoom view.now }
    ensures denied { result ≡ false → WaitsForRoom view.now → ⊥ }
{
    has_open_output(view) && has_no_room(view)
}

fn has_open_output(view: &PortView) -> bool
    ensures yes { result ≡ true → HasOpenOutput view.now }
    ensures denied { result ≡ false → HasOpenOutput view.now → ⊥ }
{
    for o in 0..view.outputs() {
        if !view.out_finished(o) {
            return true;
        }
    }
    false
}

fn has_no_room(view: &PortView) -> bool
    ensures yes { result ≡ true → HasNoOpenOutput view.now }
    ensures denied { result ≡ false → HasNoOpenOutput view.now → ⊥ }
{
    for o in 0..view.outputs() {
        if has_room(view, o) {
            return false;
        }
    }
    true
}

/// Whether the output is unfinished, needed and empty.
fn has_room(view: &PortView, o: usize) -> bool
    requires { o < out_count view.now }
    ensures { result ≡ has_room (output_at view.now o) }
{
    let flags = view.output_flags(o);
    !view.out_finished(o) && flags.needed && !flags.has_data
}

/// Lists the nodes at rest, in room that is there.
pub(crate) fn list_stuck<P: Processor>(report: &mut Vec<StuckNode>, cells: &Vec<NodeCell<P>>)
    requires empty { report.old.items ≡ [] }
    requires room { length cells.now.items ≤ vec_capacity report.old }
    requires few { length cells.now.items ≤ 256 }
    requires tells { (n : ℕ) → n < length cells.now.items
        → MarkTells (cell_at (pictures_of P.seen cells.now.items) n) }
    ensures { report.new.items ≡ stuck_from 0 (boxes_in P.seen cells.now.items) }
{
    for n in 0..cells.len() {
        list_if_stuck(report, n as u32, &cells[n]);
    }
}

fn list_if_stuck<P: Processor>(report: &mut Vec<StuckNode>, node: u32, cell: &NodeCell<P>)
    requires { length report.old.items < vec_capacity report.old }
    ensures items { report.new.items ≡ report.old.items
        ++ cond (is_resting cell.now.mark.state)
        (record { node = node; last = cell.now.mark.last } ∷ []) [] }
    ensures few { length report.new.items ≤ length report.old.items + 1 }
    ensures room { vec_capacity report.old ≤ vec_capacity report.new }
{
    if let NodeStatus::Resting = cell.mark.state {
        let _ = report.push(StuckNode {
            node,
            last: cell.mark.last,
        });
    }
}
