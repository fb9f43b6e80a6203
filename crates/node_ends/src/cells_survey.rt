//! A survey of the table with the seats of all cells.
ghost use Rattle.std.specs.Prelude.{◌≡◌, ◌≤◌, [], IfOk, length, vec_capacity};
ghost use Rattle.exec_table.specs.Seats.{identity_of};
ghost use Rattle.exec_table.specs.Surveys.{AreAll, Surveyed, views};
ghost use Rattle.node_ends.specs.CellLists.{AreSurveyed, HaveRoomFor, IsEmptied, IsSurveyRoom, bodies_of, seats_of};

use chunk_data::Memory;
use exec_laws::NodeMark;
use exec_table::{ExecTable, NodeSeat};
use node_cells::{NodeCell, NodeReserve};
use node_ports::NodePorts;
use std::alloc::Global;

/// A cell but for its seat.
#[derive(Drop)]
pub struct NodeBody<P> {
    pub processor: P,
    pub mark: NodeMark,
    pub ports: NodePorts,
    pub reserve: NodeReserve,
}

/// Room in which cells are taken apart, and the words of the last survey.
#[derive(Drop)]
pub struct SurveyRoom<P> {
    pub bodies: Vec<NodeBody<P>>,
    pub seats: Vec<NodeSeat>,
    pub words: Vec<u64>,
}

/// So many words as the table has.
fn new_words(alloc: Global, table: &ExecTable) -> Result<Vec<u64>, Memory>
    ensures { IfOk result (λ words. length words.items ≡ (identity_of table.now).id.words) }
{
    let edges = table.edges as usize;
    let words = Vec::from_elem(alloc, 0u64, table.nodes as usize + (edges + edges) + 1)?;
    Ok(words)
}

/// Room for so many cells, and for the words of the table.
pub(crate) fn new_survey_room<P: Drop>(
    alloc: Global,
    table: &ExecTable,
    count: usize,
) -> Result<SurveyRoom<P>, Memory>
    ensures { IfOk result (λ room. IsSurveyRoom (identity_of table.now) count room) }
{
    let words = new_words(alloc, table)?;
    let bodies = Vec::with_capacity(alloc, count)?;
    let seats = Vec::with_capacity(alloc, count)?;
    Ok(SurveyRoom {
        bodies,
        seats,
        words,
    })
}

/// Moves the seat of each cell to the seats, and what is left of it to the bodies.
fn take_apart<P: Drop>(
    cells: &mut Vec<NodeCell<P>>,
    bodies: &mut Vec<NodeBody<P>>,
    seats: &mut Vec<NodeSeat>,
)
    requires { HaveRoomFor (length cells.old.items) bodies.old seats.old }
    ensures bodies { bodies.new.items ≡ bodies_of cells.old.items }
    ensures seats { seats.new.items ≡ seats_of cells.old.items }
    ensures cells { IsEmptied cells.old cells.new }
    ensures bodies_room { vec_capacity bodies.old ≤ vec_capacity bodies.new }
    ensures seats_room { vec_capacity seats.old ≤ vec_capacity seats.new }
{
    for _node in 0..cells.len() {
        let NodeCell {
            processor,
            mark,
            ports,
            seat,
            reserve,
        } = cells.remove(0);
        bodies.push_reserved(NodeBody {
            processor,
            mark,
            ports,
            reserve,
        });
        seats.push_reserved(seat);
    }
}

/// Makes cells of bodies and seats.
fn put_together<P: Drop>(
    cells: &mut Vec<NodeCell<P>>,
    bodies: &mut Vec<NodeBody<P>>,
    seats: &mut Vec<NodeSeat>,
)
    requires empty { cells.old.items ≡ [] }
    requires room { length bodies.old.items ≤ vec_capacity cells.old }
    requires one_each { length seats.old.items ≡ length bodies.old.items }
    ensures bodies { bodies_of cells.new.items ≡ bodies.old.items }
    ensures seats { seats_of cells.new.items ≡ seats.old.items }
    ensures no_bodies { IsEmptied bodies.old bodies.new }
    ensures no_seats { IsEmptied seats.old seats.new }
    ensures room { vec_capacity cells.old ≤ vec_capacity cells.new }
{
    for _node in 0..bodies.len() {
        let NodeBody {
            processor,
            mark,
            ports,
            reserve,
        } = bodies.remove(0);
        let seat = seats.remove(0);
        cells.push_reserved(NodeCell {
            processor,
            mark,
            ports,
            seat,
            reserve,
        });
    }
}

/// Reads each word of the table at a moment at which no cell can change one.
pub(crate) fn survey_cells<P: Drop>(
    table: &ExecTable,
    cells: &mut Vec<NodeCell<P>>,
    room: &mut SurveyRoom<P>,
)
    requires seats { AreAll (identity_of table.now) (seats_of cells.old.items) }
    requires room { IsSurveyRoom (identity_of table.now) (length cells.old.items) room.old }
    requires spare { length cells.old.items ≤ vec_capacity cells.old }
    ensures cells { AreSurveyed (identity_of table.now) cells.old.items cells.new.items }
    ensures shown { Surveyed room.new.words.items (views (seats_of cells.new.items)) }
    ensures room { IsSurveyRoom (identity_of table.now) (length cells.old.items) room.new }
{
    take_apart(cells, &mut room.bodies, &mut room.seats);
    table.survey(room.seats.as_mut_slice(), room.words.as_mut_slice());
    put_together(cells, &mut room.bodies, &mut room.seats);
}
