//! A test of slots and of steps at ports, at a table of two nodes and three edges.
ghost use Rattle.std.specs.Prelude.{cond, true, false, Some, IfSome, IsTrue};
ghost use Rattle.exec_table.specs.Seats.{identity_of};
ghost use Rattle.exec_tests.specs.TableRows.{IsStartNode};
ghost use Rattle.exec_tests.specs.TableSlots.{SeesEdges, both_out, both_seen, put};

use crate::table_tests::{chunk, two_nodes};
use chunk_data::Chunk;
use core_laws::Flags;
use exec_table::{ExecTable, NodeSeat};
use std::test::Fail;

// Begins, and looks at the first two edges, whose slots the node then has.
fn begins(table: &ExecTable, seat: &mut NodeSeat, has_data: bool) -> bool
    requires { IsStartNode true (cond has_data 1 0) (identity_of table.now) seat.old }
    ensures { IsTrue result → SeesEdges (cond has_data 1 0) (both_seen has_data) (both_out has_data)
        (identity_of table.now) seat.new }
{
    let wanted = Flags {
        needed: false,
        has_data,
        fin_out: false,
        fin_in: false,
    };
    table.token_in(seat);
    table.begin(seat);
    table.look(seat, 0) == wanted && table.look(seat, 1) == wanted
}

// The producer pushes two chunks, which nobody needs yet, and finishes the third edge.
fn gives_both(table: &ExecTable, seat: &mut NodeSeat, one: Chunk, other: Chunk) -> bool
    requires { IsStartNode true 0 (identity_of table.now) seat.old }
{
    if !begins(table, seat, false) {
        return false;
    }
    table.push(seat, 0, one);
    table.push(seat, 1, other);
    table.finish(seat, 2);
    true
}

// The consumer lifts two chunks.
fn lifts_both(table: &ExecTable, seat: &mut NodeSeat) -> Option<(Chunk, Chunk)>
    requires { IsStartNode true 1 (identity_of table.now) seat.old }
    ensures { IfSome result
        (λ _. SeesEdges 1 (both_seen true) (put (put (both_out true) 0 (Some false))
        1 (Some false)) (identity_of table.now) seat.new) }
{
    if !begins(table, seat, true) {
        return None;
    }
    let one = table.lift(seat, 0);
    let other = table.lift(seat, 1);
    Some((one, other))
}

// It wants a third, before it pulls both. Then it takes its need back and closes the port, whose
// producer has finished.
fn takes_both(table: &ExecTable, seat: &mut NodeSeat) -> Option<(Chunk, Chunk)>
    requires { IsStartNode true 1 (identity_of table.now) seat.old }
{
    let Some(both) = lifts_both(table, seat) else {
        return None;
    };
    table.want(seat, 2);
    table.pull(seat, 0);
    table.pull(seat, 1);
    table.unwant(seat, 2);
    table.close_port(seat, 2);
    let third = table.look(seat, 2);
    if third.needed || !third.fin_in || !third.fin_out {
        return None;
    }
    Some(both)
}

#[test]
fn two_lifted_chunks_are_pulled(rt: HostRuntime) -> Result<(), Fail> {
    let (table, mut zero, mut one, _) = two_nodes(&rt, true)?;
    assert!(rt; gives_both(&table, &mut zero, chunk(&rt)?, chunk(&rt)?));
    let Some((first, second)) = takes_both(&table, &mut one) else {
        return Err("the chunks weren't taken".into());
    };
    assert!(rt; first.rows() == 1 && second.rows() == 1);
    Ok(())
}
