//! A node looks at its ports.
ghost use Rattle.std.specs.Prelude.{◌≡◌, true};
ghost use Rattle.core_laws.specs.Views.{is_set};
ghost use Rattle.port_word.specs.Sights.{HasPort};
ghost use Rattle.exec_table.specs.Seats.{IsSeatOf, identity_of, holds_chunk, slot_of};
ghost use Rattle.node_ports.specs.Ports.{IsMerged, is_own_port, is_updated_port, ports_picture};
ghost use Rattle.node_ports.specs.Sights.{Lifts, LookedAll, LookedAt, MayLook, has_chunk, is_lift_due, nth_port};

use crate::ports::NodePorts;
use chunk_data::Chunk;
use exec_table::{ExecTable, Flags, NodeSeat, Updated};
use port_word::{Port, PortView};

/// Whether the word has the bit k. It has none past its width.
fn has_bit(word: u32, k: usize) -> bool
    ensures { result ≡ is_set word k }
{
    k < 32 && word >> k as u32 & 1 == 1
}

fn is_updated(updated: &Updated, port: Port) -> bool
    ensures { result ≡ is_updated_port port updated.now }
{
    match port {
        Port::Input(i) => updated.first || has_bit(updated.inputs, i),
        Port::Output(o) => updated.first || has_bit(updated.outputs as u32, o),
    }
}

/// The updated ports of both.
pub fn merge_updated(some: Updated, more: Updated) -> Updated
    ensures { IsMerged some more result }
{
    Updated {
        inputs: some.inputs | more.inputs,
        outputs: some.outputs | more.outputs,
        first: some.first | more.first,
    }
}

fn has_chunk(view: &PortView, port: Port) -> bool
    requires { HasPort view.now port }
    ensures { result ≡ has_chunk port view.now }
{
    match port {
        Port::Input(i) => view.has_data(i),
        Port::Output(_) => false,
    }
}

fn is_lift_due(port: Port, had: bool, flags: Flags) -> bool
    ensures { result ≡ is_lift_due port had flags }
{
    match port {
        Port::Input(_) => flags.has_data && !flags.fin_in && !had,
        Port::Output(_) => false,
    }
}

/// Takes the chunk out of the slot, if that is due.
fn lift_if(table: &ExecTable, seat: &mut NodeSeat, e: u32, due: bool) -> Option<Chunk>
    requires seat { IsSeatOf (identity_of table.now) seat.old }
    requires slot { due ≡ true → holds_chunk (slot_of seat.old e) ≡ true }
    ensures { Lifts (identity_of table.now) e due seat.old seat.new result }
{
    if due { Some(table.lift(seat, e)) } else { None }
}

/// Looks at the port and shows the node what is there.
fn look_at(table: &ExecTable, ports: &mut NodePorts, seat: &mut NodeSeat, port: Port)
    requires seat { IsSeatOf (identity_of table.now) seat.old }
    requires may { MayLook (ports_picture ports.old seat.old) }
    requires own { is_own_port (ports_picture ports.old seat.old) port }
    ensures seat { IsSeatOf (identity_of table.now) seat.new }
    ensures looked { LookedAt port (ports_picture ports.old seat.old)
        (ports_picture ports.new seat.new) }
{
    let e = ports.edge_at(port);
    let had = has_chunk(&ports.view, port);
    let flags = table.look(seat, e);
    let chunk = lift_if(table, seat, e, is_lift_due(port, had, flags));
    ports.view.see(port, flags, chunk);
}

/// Looks at the port, if it is among the updated ones.
fn look_if_updated(table: &ExecTable, ports: &mut NodePorts, seat: &mut NodeSeat, port: Port)
    requires seat { IsSeatOf (identity_of table.now) seat.old }
    requires may { MayLook (ports_picture ports.old seat.old) }
    requires own { is_own_port (ports_picture ports.old seat.old) port }
    ensures seat { IsSeatOf (identity_of table.now) seat.new }
    ensures looked { LookedAt port (ports_picture ports.old seat.old)
        (ports_picture ports.new seat.new) }
{
    if is_updated(&ports.updated, port) {
        look_at(table, ports, seat, port);
    }
}

/// The port with this number, where the outputs come after the inputs.
fn nth_port(inputs: usize, k: usize) -> Port
    ensures { result ≡ nth_port inputs k }
{
    if k < inputs {
        Port::Input(k)
    } else {
        Port::Output(k - inputs)
    }
}

/// Looks at the updated ports, as in ClickHouse a node is prepared over those of its ports that
/// changed since its last prepare. After it nothing is unlooked.
pub fn look_at_updated(table: &ExecTable, ports: &mut NodePorts, seat: &mut NodeSeat)
    requires seat { IsSeatOf (identity_of table.now) seat.old }
    requires may { MayLook (ports_picture ports.old seat.old) }
    ensures seat { IsSeatOf (identity_of table.now) seat.new }
    ensures looked { LookedAll (ports_picture ports.old seat.old)
        (ports_picture ports.new seat.new) }
{
    let inputs = ports.inputs.len();
    for k in 0..inputs + ports.outputs.len() {
        look_if_updated(table, ports, seat, nth_port(inputs, k));
    }
    ports.updated = Updated {
        inputs: 0,
        outputs: 0,
        first: false,
    };
}
