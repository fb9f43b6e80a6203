//! A node gets edges at its next ports.
ghost use Rattle.std.specs.Prelude.{◌≡◌, ◌<◌, ◌||◌, cond, false, true, length, IfSome, OnOk};
ghost use Rattle.core_laws.specs.Views.{has, knows};
ghost use Rattle.core_laws.specs.declared.types.Step.TheVariants as step;
ghost use Rattle.port_word.specs.Names.{in_count, out_count};
ghost use Rattle.exec_laws.specs.Names.{HasEdge, IsEnd};
ghost use Rattle.exec_table.specs.Ready.{ready};
ghost use Rattle.exec_table.specs.Seats.{IsSeatOf, identity_of, sizes_in, view};
ghost use Rattle.node_cells.specs.NewCells.{port_of_side};
ghost use Rattle.proc_api.specs.Names.{wire_at};
ghost use Rattle.node_ports.specs.Ports.{ports_picture};
ghost use Rattle.node_births.specs.MorePorts.{AddsPort, AreReservedWires, GainsPort, GainsPorts, IsNextPort, Learns, MayGain, MayLearn, end_count};

use chunk_data::Memory;
use exec_table::{ExecTable, NodeSeat};
use node_cells::{count_inputs, count_outputs, ends_at, peer_of};
use node_ports::NodePorts;
use port_word::{Port, Wire};

/// The most inputs that a node has.
const MOST_INPUTS: usize = 32;

/// The most outputs that a node has.
const MOST_OUTPUTS: usize = 16;

fn is_next_port(ports: &NodePorts, port: Port) -> bool
    ensures { result ≡ true → IsNextPort port ports.now }
{
    let inputs = ports.inputs.len();
    let outputs = ports.outputs.len();
    match port {
        Port::Input(i) => i == inputs && i < MOST_INPUTS && outputs <= MOST_OUTPUTS,
        Port::Output(o) => o == outputs && inputs <= MOST_INPUTS && o < MOST_OUTPUTS,
    }
}

fn is_among(edges: &[u32], e: u32) -> bool
    ensures { result ≡ has e edges.now }
{
    edges.iter().any(|f| *f == e)
}

/// Whether one of the ports has the edge.
fn has_edge(ports: &NodePorts, e: u32) -> bool
    ensures { result ≡ (has e ports.now.inputs.items || has e ports.now.outputs.items) }
{
    let input = is_among(ports.inputs.as_slice(), e);
    let output = is_among(ports.outputs.as_slice(), e);
    input | output
}

/// The ports with one more at the edge, at whose other end this node is. The node is to look at
/// all its ports.
fn push_port(ports: &mut NodePorts, port: Port, e: u32, other: u32) -> Result<(), Memory>
    requires ins { in_count ports.old.view ≡ length ports.old.inputs.items }
    requires outs { out_count ports.old.view ≡ length ports.old.outputs.items }
    requires next { IsNextPort port ports.old }
    ensures { OnOk result (AddsPort port e other ports.old ports.new) }
{
    let inputs = ports.inputs.len();
    let outputs = ports.outputs.len();
    ports.updated.first = true;
    match port {
        Port::Input(i) => {
            ports.view.grow(i + 1, outputs)?;
            ports.inputs.push(e)?;
            ports.sources.push(other)?;
            ports.needed.push(false)?;
            Ok(())
        }
        Port::Output(o) => {
            ports.view.grow(inputs, o + 1)?;
            ports.outputs.push(e)?;
            ports.targets.push(other)?;
            Ok(())
        }
    }
}

fn is_same(wire: &Wire, other: &Wire) -> bool
    ensures { result ≡ true → wire.now ≡ other.now }
{
    wire.from == other.from
        && wire.out == other.out
        && wire.to == other.to
        && wire.input == other.input
}

/// The node learns the edge, if that has this wire, which ends at it. Says whether it has.
fn learn_wire(table: &ExecTable, seat: &mut NodeSeat, e: u32, wire: Wire) -> bool
    requires seat { IsSeatOf (identity_of table.now) seat.old }
    requires to { wire.to ≡ (view seat.old).number }
    requires unknown { knows e (view seat.old).state.seen ≡ false }
    ensures seat { IsSeatOf (identity_of table.now) seat.new }
    ensures number { (view seat.new).number ≡ (view seat.old).number }
    ensures learns { result ≡ true → Learns e wire seat.old seat.new }
{
    if e >= table.edges {
        return false;
    }
    match table.wired(seat, e) {
        Some(found) => is_same(&found, &wire),
        None => false,
    }
}

/// The node sets the edge's wire, unless it has one. Says whether it had none.
fn set_wire(table: &ExecTable, seat: &mut NodeSeat, e: u32, wire: Wire) -> bool
    requires seat { IsSeatOf (identity_of table.now) seat.old }
    requires unknown { knows e (view seat.old).state.seen ≡ false }
    requires ready { ready (view seat.old) (step.Wire e wire) ≡ true }
    ensures seat { IsSeatOf (identity_of table.now) seat.new }
    ensures number { (view seat.new).number ≡ (view seat.old).number }
    ensures learns { result ≡ true → Learns e wire seat.old seat.new }
{
    match table.wire(seat, e, wire) {
        Ok(()) => true,
        Err(_) => false,
    }
}

/// The node learns the edge at its port: at an output it sets the edge's wire, and at an input the
/// edge's producer has set this one. Says whether that is so.
fn learn_edge(table: &ExecTable, seat: &mut NodeSeat, port: Port, e: u32, wire: Wire) -> bool
    requires seat { IsSeatOf (identity_of table.now) seat.old }
    requires at_port { IsEnd wire (view seat.old).number port }
    requires unknown { knows e (view seat.old).state.seen ≡ false }
    requires may { MayLearn port e wire (view seat.old) }
    ensures seat { IsSeatOf (identity_of table.now) seat.new }
    ensures number { (view seat.new).number ≡ (view seat.old).number }
    ensures learns { result ≡ true → Learns e wire seat.old seat.new }
{
    match port {
        Port::Input(_) => learn_wire(table, seat, e, wire),
        Port::Output(_) => set_wire(table, seat, e, wire),
    }
}

/// The node gets the edge at the port, if that is its next one and the wire's end, and the edge is
/// new to it and has this wire, or none at an output. Else, as for want of memory, its ports are
/// nobody's.
fn add_port(
    table: &ExecTable,
    ports: &mut NodePorts,
    seat: &mut NodeSeat,
    port: Port,
    e: u32,
    wire: Wire,
) -> Result<(), Memory>
    requires seat { IsSeatOf (identity_of table.now) seat.old }
    requires may { MayGain (ports_picture ports.old seat.old) }
    requires at_port { IsEnd wire (view seat.old).number port }
    requires may_learn { MayLearn port e wire (view seat.old) }
    ensures seat { IsSeatOf (identity_of table.now) seat.new }
    ensures number { (view seat.new).number ≡ (view seat.old).number }
    ensures ok { OnOk result (GainsPort port e wire
        (ports_picture ports.old seat.old) (ports_picture ports.new seat.new)) }
{
    if !is_next_port(ports, port) {
        return Err(Memory);
    }
    if wire.from == wire.to || has_edge(ports, e) {
        return Err(Memory);
    }
    if !learn_edge(table, seat, port, e, wire) {
        return Err(Memory);
    }
    match push_port(ports, port, e, peer_of(&wire, port)) {
        Ok(()) => Ok(()),
        Err(Memory) => Err(Memory),
    }
}

/// The first of the wires that ends at the port of the node.
#[tactic(auto, unfolding(proc_api::specs::Settled::wire_at))]
fn edge_at(wires: &[Wire], n: usize, port: Port) -> Option<usize>
    ensures { IfSome result (λ k. HasEdge wires.now n port k) }
{
    for (k, wire) in wires.iter().enumerate() {
        if ends_at(wire, n, port) {
            return Some(k);
        }
    }
    None
}

#[tactic(auto, unfolding(proc_api::specs::Settled::wire_at))]
fn nth_wire(wires: &[Wire], k: usize) -> Wire
    requires { k < length wires.now }
    ensures { result ≡ wire_at wires.now k }
{
    wires[k]
}

fn next_port(ports: &NodePorts, consumer: bool) -> Port
    ensures { result ≡ port_of_side consumer
        (length (cond consumer ports.now.inputs.items ports.now.outputs.items)) }
{
    if consumer {
        Port::Input(ports.inputs.len())
    } else {
        Port::Output(ports.outputs.len())
    }
}

/// The node gets its next input, or output, among the wires.
fn add_next_port(
    table: &ExecTable,
    ports: &mut NodePorts,
    seat: &mut NodeSeat,
    consumer: bool,
    wires: &[Wire],
    first: u32,
) -> Result<(), Memory>
    requires seat { IsSeatOf (identity_of table.now) seat.old }
    requires may { MayGain (ports_picture ports.old seat.old) }
    requires wires { AreReservedWires (sizes_in table.now) first wires.now }
    ensures seat { IsSeatOf (identity_of table.now) seat.new }
    ensures number { (view seat.new).number ≡ (view seat.old).number }
    ensures ok { OnOk result (GainsPorts consumer first wires.now 1
        (ports_picture ports.old seat.old) (ports_picture ports.new seat.new)) }
{
    let port = next_port(ports, consumer);
    match edge_at(wires, seat.node as usize, port) {
        Some(k) => {
            let e = first as usize + k;
            if e >= table.edges as usize {
                return Err(Memory);
            }
            let wire = nth_wire(wires, k);
            match add_port(table, ports, seat, port, e as u32, wire) {
                Ok(()) => Ok(()),
                Err(Memory) => Err(Memory),
            }
        }
        None => Err(Memory),
    }
}

fn count_ends(wires: &[Wire], n: usize, consumer: bool) -> usize
    ensures { result ≡ end_count consumer wires.now n }
{
    if consumer {
        count_inputs(wires, n)
    } else {
        count_outputs(wires, n)
    }
}

/// The node gets all its inputs, or all its outputs, among the wires of the edges from `first` on.
/// At its outputs it sets the wires; at its inputs their producers have set them. After an error
/// its ports are nobody's.
pub(crate) fn add_ports(
    table: &ExecTable,
    ports: &mut NodePorts,
    seat: &mut NodeSeat,
    consumer: bool,
    wires: &[Wire],
    first: u32,
) -> Result<(), Memory>
    requires seat { IsSeatOf (identity_of table.now) seat.old }
    requires may { MayGain (ports_picture ports.old seat.old) }
    requires wires { AreReservedWires (sizes_in table.now) first wires.now }
    ensures seat { IsSeatOf (identity_of table.now) seat.new }
    ensures number { (view seat.new).number ≡ (view seat.old).number }
    ensures ok { OnOk result (GainsPorts consumer first wires.now
        (end_count consumer wires.now (view seat.old).number)
        (ports_picture ports.old seat.old) (ports_picture ports.new seat.new)) }
{
    for _port in 0..count_ends(wires, seat.node as usize, consumer) {
        match add_next_port(table, ports, seat, consumer, wires, first) {
            Ok(()) => {}
            Err(Memory) => return Err(Memory),
        }
    }
    Ok(())
}
