//! Tests of the execution table.
ghost use Rattle.std.specs.Prelude.{◌≡◌, ℕ, true, false, [], map, IfOk, IfSome, IsTrue};
ghost use Rattle.core_laws.specs.Views.{has};
ghost use Rattle.exec_table.specs.Made.{IsNewTable};
ghost use Rattle.exec_table.specs.Seats.{IsRootOf, IsSeatOf, identity_of, view};
ghost use Rattle.exec_tests.specs.TableRows.{Is, IsHeld, IsStartNode, Saw, edge_wire, edges_in, node, seen_as};

use chunk_data::{Chunk, ColumnType, List, Value};
use core_laws::{Flags, Reserve, Sizes, Wire};
use exec_table::{ExecTable, Made, Marked, NodeSeat, Rested, RootSeat, Seen, Updated};
use std::test::Fail;
use std::thread::join;

fn wire(from: u32, out: u32, to: u32, input: u32) -> Wire
    ensures { result ≡ record { from = from; out = out; to = to; input = input } }
{
    Wire {
        from,
        out,
        to,
        input,
    }
}

/// Two producers, two consumers that nobody has woken yet, and the room for one growth.
fn five_nodes(rt: &HostRuntime) -> Result<Made, Fail>
    ensures { IfOk result (λ m. (m.table.table.shared.key.workers ≡ 1)
        × IsNewTable m.table.table.shared.key m) }
{
    let wires = List::from_vec(vec![in rt.alloc(); wire(0, 0, 2, 0), wire(1, 0, 3, 0)]?);
    let reserve = Reserve {
        node: 2,
        first_node: 4,
        nodes: 1,
        first_edge: 2,
        edges: 1,
    };
    let sizes = Sizes {
        nodes: 5,
        wires,
        reserves: List::from_vec(vec![in rt.alloc(); reserve]?),
        workers: 1,
    };
    match ExecTable::make(rt.alloc(), &sizes) {
        Ok(made) => Ok(made),
        Err(e) => Err(e.into()),
    }
}

#[test]
fn a_worker_sees_the_consumers_pending(rt: HostRuntime) -> Result<(), Fail> {
    let Made {
        table,
        nodes,
        mut root,
    } = five_nodes(&rt)?;
    assert!(rt; nodes.len() == 5);
    let mut worker = table.worker(&mut root);
    assert!(rt; table.see(&mut worker) == Seen::Pending(2));
    table.stop(&mut worker);
    assert!(rt; table.see(&mut worker) == Seen::Stopped);
    Ok(())
}

// ---- rows of calls at two nodes, with one edge or three

fn wires(rt: &HostRuntime, many: bool) -> Result<Vec<Wire>, Fail>
    ensures { IfOk result (λ v. v.items ≡ map edge_wire (edges_in many)) }
{
    if !many {
        return Ok(vec![in rt.alloc(); wire(0, 0, 1, 0)]?);
    }
    Ok(vec![in rt.alloc(); wire(0, 0, 1, 0), wire(0, 1, 1, 1), wire(0, 2, 1, 2)]?)
}

pub(crate) fn two_nodes(
    rt: &HostRuntime,
    many: bool,
) -> Result<(ExecTable, NodeSeat, NodeSeat, RootSeat), Fail>
    ensures zero { IfOk result (λ p. IsStartNode many 0 (identity_of p.0) p.1) }
    ensures one { IfOk result (λ p. IsStartNode many 1 (identity_of p.0) p.2) }
    ensures root { IfOk result (λ p. IsRootOf (identity_of p.0) p.3 × (p.3.seat.me.0.made ≡ 0)) }
{
    let sizes = Sizes {
        nodes: 2,
        wires: List::from_vec(wires(rt, many)?),
        reserves: List::new(rt.alloc()),
        workers: 1,
    };
    let Made {
        table,
        mut nodes,
        root,
    } = ExecTable::make(rt.alloc(), &sizes)?;
    let one = nodes.pop().unwrap();
    let zero = nodes.pop().unwrap();
    Ok((table, zero, one, root))
}

pub(crate) fn chunk(rt: &HostRuntime) -> Result<Chunk, Fail> {
    let types = List::from_vec(vec![in rt.alloc(); ColumnType::Int64]?);
    let mut chunk = Chunk::new(rt.alloc(), &types)?;
    chunk.push_row(List::from_vec(vec![in rt.alloc(); Value::Int(7)]?))?;
    Ok(chunk)
}

fn updated(inputs: u32, outputs: u16, first: bool) -> Updated
    ensures { result ≡ record { inputs = inputs; outputs = outputs; first = first } }
{
    Updated {
        inputs,
        outputs,
        first,
    }
}

fn has_slot(seat: &NodeSeat) -> bool
    ensures { result ≡ has 0 seat.now.held.items }
{
    seat.held.iter().any(|e| *e == 0)
}

// Looks, with the slot at home, until the port is so.
fn sees(table: &ExecTable, seat: &mut NodeSeat, needed: bool, has_data: bool) -> bool
    requires { (n k : ℕ) × IsHeld n k table.now seat.old }
    ensures seat { IsSeatOf (identity_of table.now) seat.new }
    ensures saw { IsTrue result → (n k : ℕ) → IsHeld n k table.now seat.old
        → Saw n k (seen_as needed has_data) table.now seat.new }
{
    let wanted = Flags {
        needed,
        has_data,
        fin_out: false,
        fin_in: false,
    };
    for _ in 0..100_000_000u64 {
        let is_out = has_slot(seat);
        if table.look(seat, 0) == wanted && !is_out {
            return true;
        }
    }
    false
}

// Node 1 begins, wants a chunk and charges node 0.
fn asks(table: &ExecTable, seat: &mut NodeSeat) -> bool
    requires { IsStartNode false 1 (identity_of table.now) seat.old }
    ensures { IsTrue result
        → Is 1 (node true 0 (seen_as true false) [] false) table.now seat.new }
{
    table.token_in(seat);
    if table.begin(seat) != updated(0, 0, true) || !sees(table, seat, false, false) {
        return false;
    }
    table.want(seat, 0);
    table.mark(seat, 0) == Marked::Charged
}

// Node 0 begins, pushes the chunk that is needed and tells node 1, which is held.
fn gives(table: &ExecTable, seat: &mut NodeSeat, chunk: Chunk) -> bool
    requires { IsStartNode false 0 (identity_of table.now) seat.old }
    ensures { IsTrue result
        → Is 0 (node true 1 (seen_as true true) [] false) table.now seat.new }
{
    table.token_in(seat);
    if table.begin(seat) != updated(0, 1, false) || !sees(table, seat, true, false) {
        return false;
    }
    if !has_slot(seat) {
        return false;
    }
    table.push(seat, 0, chunk);
    table.mark(seat, 0) == Marked::AlreadyDue
}

fn takes(table: &ExecTable, seat: &mut NodeSeat) -> Option<Chunk>
    requires { (k : ℕ) × IsHeld 1 k table.now seat.old }
    ensures { IfSome result (λ _. IsSeatOf (identity_of table.now) seat.new
        × ((view seat.new).number ≡ 1)) }
{
    if !sees(table, seat, true, true) || !has_slot(seat) {
        return None;
    }
    let chunk = table.lift(seat, 0);
    table.pull(seat, 0);
    Some(chunk)
}

// Node 0 rests, and gives its tokens back.
fn rests(table: &ExecTable, seat: &mut NodeSeat) -> bool
    requires { Is 0 (node true 1 (seen_as true true) [] false) table.now seat.old }
    ensures { IsTrue result → IsSeatOf (identity_of table.now) seat.new
        × ((view seat.new).number ≡ 0) }
{
    if table.rest(seat) != Rested::Idle {
        return false;
    }
    table.token_out(seat);
    table.token_out(seat);
    true
}

// Node 1, which was told meanwhile, takes the chunk.
fn takes_again(table: &ExecTable, seat: &mut NodeSeat) -> Option<Chunk>
    requires { Is 1 (node true 0 (seen_as true false) [] false) table.now seat.old }
    ensures { IfSome result (λ _. IsSeatOf (identity_of table.now) seat.new
        × ((view seat.new).number ≡ 1)) }
{
    if table.rest(seat) != Rested::UpdatedAgain || table.again(seat) != updated(1, 0, false) {
        return None;
    }
    takes(table, seat)
}

#[test]
fn a_chunk_passes(rt: HostRuntime) -> Result<(), Fail> {
    let (table, mut zero, mut one, mut root) = two_nodes(&rt, false)?;
    let mut worker = table.worker(&mut root);
    if !asks(&table, &mut one) || !gives(&table, &mut zero, chunk(&rt)?) {
        return Err("the chunk wasn't given".into());
    }
    if !rests(&table, &mut zero) || table.see(&mut worker) != Seen::Pending(1) {
        return Err("node 0 isn't idle".into());
    }
    let Some(chunk) = takes_again(&table, &mut one) else {
        return Err("the chunk wasn't taken".into());
    };
    assert_eq!(rt; chunk.rows(), 1);
    let mut words = [7; 5];
    let mut nodes = vec![in rt.alloc(); zero, one]?;
    table.survey(nodes.as_mut_slice(), &mut words);
    let at_last = [1, 0, 1 << 62, 1 + (1 << 25), 1];
    assert_eq!(rt; words, at_last);
    let last = table.shut(root, nodes, vec![in rt.alloc(); worker]?)?;
    assert_eq!(rt; last.words.as_slice(), at_last.as_slice());
    assert!(rt; matches!(last.left.as_slice(), [None]));
    Ok(())
}

#[test]
fn a_chunk_passes_between_threads(rt: HostRuntime) -> Result<(), Fail> {
    let (table, mut zero, mut one, _) = two_nodes(&rt, false)?;
    let chunk = chunk(&rt)?;
    if !asks(&table, &mut one) {
        return Err("node 1 didn't ask".into());
    }
    let (given, taken) = join(
        &rt,
        ||
            requires { IsStartNode false 0 (identity_of table) zero }
        { gives(&table, &mut zero, chunk) && sees(&table, &mut zero, true, false) },
        ||
            requires { (k : ℕ) × IsHeld 1 k table one }
        { takes(&table, &mut one) },
    );
    assert!(rt; given);
    assert_eq!(rt; taken.map(|chunk| chunk.rows()), Some(1));
    Ok(())
}

#[test]
fn a_chunk_left_in_its_slot_is_handed_back(rt: HostRuntime) -> Result<(), Fail> {
    let (table, mut zero, mut one, root) = two_nodes(&rt, false)?;
    if !asks(&table, &mut one) || !gives(&table, &mut zero, chunk(&rt)?) {
        return Err("the chunk wasn't given".into());
    }
    let nodes = vec![in rt.alloc(); zero, one]?;
    let last = table.shut(root, nodes, Vec::new(rt.alloc()))?;
    assert!(rt; matches!(last.left.as_slice(), [Some(_)]));
    Ok(())
}
