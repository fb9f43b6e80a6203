//! What a processor did to its view is carried out on the shared ports.
ghost use Rattle.std.specs.Prelude.{◌≡◌, ◌≢◌, ◌<◌, true, false, length, slice_index_or, Some, None};
ghost use Rattle.port_word.specs.declared.flags.Port.TheVariants.{Input, Output};
ghost use Rattle.port_word.specs.declared.flags.Action.TheVariants.{Want, Unwant, Pull, Close, Push, Finish};
ghost use Rattle.exec_laws.specs.Names.{action_port};
ghost use Rattle.exec_table.specs.Seats.{IsSeatOf, identity_of, view};
ghost use Rattle.node_ports.specs.Ports.{edge_of, ports_picture};
ghost use Rattle.node_ports.specs.Actions.{Acted, MayAct};
ghost use Rattle.node_ports.specs.Peers.{CarriesAction, CarriesNext, MayCarry, OwesOne, PeerIsTold, is_to_tell};
ghost use Rattle.node_ports.specs.declared.actions.Carry.TheVariants.{Done};

use crate::ports::NodePorts;
use chunk_data::Chunk;
use exec_table::{ExecTable, Marked, NodeSeat};
use port_word::{Action, Port};

/// What carrying out an action came to.
#[derive(Clone, Copy, PartialEq, Eq, Drop)]
pub enum Carry {
    /// There was none.
    Done,
    Told,
    /// The node with this number is to be queued.
    Charged(u32),
}

fn port_of(action: &Action) -> Port
    ensures { result ≡ action_port action.now }
{
    match action {
        Action::Want(i) | Action::Unwant(i) | Action::Pull(i) | Action::Close(i) => Port::Input(*i),
        Action::Push(o, _) | Action::Finish(o) => Port::Output(*o),
    }
}

fn is_needed(ports: &NodePorts, i: usize) -> bool
    requires { i < length ports.now.needed.items }
    ensures { result ≡ slice_index_or ports.now.needed.items i false }
{
    ports.needed[i]
}

/// Asks for a chunk. The peer is to be told unless the port says so already.
fn want(table: &ExecTable, ports: &mut NodePorts, seat: &mut NodeSeat, e: u32, i: usize) -> bool
    requires seat { IsSeatOf (identity_of table.now) seat.old }
    requires may { MayAct (Want i) (ports_picture ports.old seat.old) }
    requires edge { e ≡ edge_of (ports_picture ports.old seat.old) (Input i) }
    ensures seat { IsSeatOf (identity_of table.now) seat.new }
    ensures acted { Acted (Want i) (ports_picture ports.old seat.old)
        (ports_picture ports.new seat.new) result }
    ensures told { result ≡ is_to_tell (Want i) (ports_picture ports.old seat.old) }
{
    let was = is_needed(ports, i);
    table.want(seat, e);
    ports.needed[i] = true;
    !was
}

fn unwant(table: &ExecTable, ports: &mut NodePorts, seat: &mut NodeSeat, e: u32, i: usize)
    requires seat { IsSeatOf (identity_of table.now) seat.old }
    requires may { MayAct (Unwant i) (ports_picture ports.old seat.old) }
    requires edge { e ≡ edge_of (ports_picture ports.old seat.old) (Input i) }
    ensures seat { IsSeatOf (identity_of table.now) seat.new }
    ensures acted { Acted (Unwant i) (ports_picture ports.old seat.old)
        (ports_picture ports.new seat.new) false }
{
    table.unwant(seat, e);
    ports.needed[i] = false;
}

fn pull(table: &ExecTable, ports: &NodePorts, seat: &mut NodeSeat, e: u32, i: usize)
    requires seat { IsSeatOf (identity_of table.now) seat.old }
    requires may { MayAct (Pull i) (ports_picture ports.now seat.old) }
    requires edge { e ≡ edge_of (ports_picture ports.now seat.old) (Input i) }
    ensures seat { IsSeatOf (identity_of table.now) seat.new }
    ensures acted { Acted (Pull i) (ports_picture ports.now seat.old)
        (ports_picture ports.now seat.new) true }
{
    table.pull(seat, e);
}

fn close(table: &ExecTable, ports: &NodePorts, seat: &mut NodeSeat, e: u32, i: usize)
    requires seat { IsSeatOf (identity_of table.now) seat.old }
    requires may { MayAct (Close i) (ports_picture ports.now seat.old) }
    requires edge { e ≡ edge_of (ports_picture ports.now seat.old) (Input i) }
    ensures seat { IsSeatOf (identity_of table.now) seat.new }
    ensures acted { Acted (Close i) (ports_picture ports.now seat.old)
        (ports_picture ports.now seat.new) true }
{
    table.close_port(seat, e);
}

fn push(table: &ExecTable, ports: &NodePorts, seat: &mut NodeSeat, e: u32, o: usize, chunk: Chunk)
    requires seat { IsSeatOf (identity_of table.now) seat.old }
    requires may { MayAct (Push o chunk) (ports_picture ports.now seat.old) }
    requires edge { e ≡ edge_of (ports_picture ports.now seat.old) (Output o) }
    ensures seat { IsSeatOf (identity_of table.now) seat.new }
    ensures acted { Acted (Push o chunk) (ports_picture ports.now seat.old)
        (ports_picture ports.now seat.new) true }
{
    table.push(seat, e, chunk);
}

fn finish(table: &ExecTable, ports: &NodePorts, seat: &mut NodeSeat, e: u32, o: usize)
    requires seat { IsSeatOf (identity_of table.now) seat.old }
    requires may { MayAct (Finish o) (ports_picture ports.now seat.old) }
    requires edge { e ≡ edge_of (ports_picture ports.now seat.old) (Output o) }
    ensures seat { IsSeatOf (identity_of table.now) seat.new }
    ensures acted { Acted (Finish o) (ports_picture ports.now seat.old)
        (ports_picture ports.now seat.new) true }
{
    table.finish(seat, e);
}

/// Carries out the action, which was taken off the view, and says whether the peer is to be told.
fn carry_out(
    table: &ExecTable,
    ports: &mut NodePorts,
    seat: &mut NodeSeat,
    e: u32,
    action: Action,
) -> bool
    requires seat { IsSeatOf (identity_of table.now) seat.old }
    requires may { MayAct action (ports_picture ports.old seat.old) }
    requires edge { e ≡ edge_of (ports_picture ports.old seat.old) (action_port action) }
    ensures seat { IsSeatOf (identity_of table.now) seat.new }
    ensures acted { Acted action (ports_picture ports.old seat.old)
        (ports_picture ports.new seat.new) result }
    ensures told { result ≡ is_to_tell action (ports_picture ports.old seat.old) }
{
    match action {
        Action::Want(i) => want(table, ports, seat, e, i),
        Action::Unwant(i) => {
            unwant(table, ports, seat, e, i);
            false
        }
        Action::Pull(i) => {
            pull(table, ports, seat, e, i);
            true
        }
        Action::Close(i) => {
            close(table, ports, seat, e, i);
            true
        }
        Action::Push(o, chunk) => {
            push(table, ports, seat, e, o, chunk);
            true
        }
        Action::Finish(o) => {
            finish(table, ports, seat, e, o);
            true
        }
    }
}

/// Tells the node at the other end of the edge, as in ClickHouse's `ExecutingGraph.h` an updated
/// port brings up the node at its other end. Says whether that charged it: then it is to be queued,
/// with the token that was made for it.
fn tell_peer(table: &ExecTable, seat: &mut NodeSeat, e: u32) -> bool
    requires { OwesOne (identity_of table.now) e seat.old }
    ensures { PeerIsTold (identity_of table.now) e result seat.old seat.new }
{
    table.token_in(seat);
    match table.mark(seat, e) {
        Marked::Charged => true,
        Marked::AlreadyDue | Marked::Over => {
            table.token_out(seat);
            false
        }
    }
}

/// Carries out an action that was taken off the view, and tells the peer.
fn carry_action(
    table: &ExecTable,
    ports: &mut NodePorts,
    seat: &mut NodeSeat,
    action: Action,
) -> Carry
    requires seat { IsSeatOf (identity_of table.now) seat.old }
    requires may { MayAct action (ports_picture ports.old seat.old) }
    ensures seat { IsSeatOf (identity_of table.now) seat.new }
    ensures carries { CarriesAction (identity_of table.now) action result
        (ports_picture ports.old seat.old) ports.new seat.new }
{
    let port = port_of(&action);
    let e = ports.edge_at(port);
    let peer = ports.peer_at(port);
    if !carry_out(table, ports, seat, e, action) {
        return Carry::Told;
    }
    if tell_peer(table, seat, e) {
        Carry::Charged(peer)
    } else {
        Carry::Told
    }
}

/// Carries out the first action that waits.
pub fn carry_next(table: &ExecTable, ports: &mut NodePorts, seat: &mut NodeSeat) -> Carry
    requires seat { IsSeatOf (identity_of table.now) seat.old }
    requires may { MayCarry (ports_picture ports.old seat.old) }
    ensures seat { IsSeatOf (identity_of table.now) seat.new }
    ensures carries { CarriesNext (identity_of table.now) result
        (ports_picture ports.old seat.old) ports.new seat.new }
    ensures fewer { result ≢ Done → length ports.new.view.actions < length ports.old.view.actions }
{
    match ports.view.next_action() {
        Some(action) => carry_action(table, ports, seat, action),
        None => Carry::Done,
    }
}
