//! The condition of each kind of step.
ghost use Rattle.std.specs.Prelude.{◌≡◌};
ghost use Rattle.core_laws.specs.Views.{wire_ok as wire_ok_there, may_wire as may_wire_there, of_reserve as of_reserve_there, edge_in as edge_in_there};
ghost use Rattle.core_laws.specs.Steps.{is_held_end as holds_there, may_act as may_act_there, is_here as is_here_there, is_edge as is_edge_there, may_begin as may_begin_there, may_leave as may_leave_there, may};
ghost use Rattle.core_laws.specs.declared.types.Step.TheVariants as step;

use crate::lookups::{flags_at, has, is_end, is_set, knows, node, port};
use crate::port_steps::{acting_end, allows};
use core_laws::{Act, CoreState, Event, NodeState, Reserve, Step, Wire};

fn is_here(core: &CoreState, n: u32) -> bool
    ensures { result ≡ is_here_there core.now n }
{
    (n as usize) < core.nodes.len()
}

fn is_edge(core: &CoreState, n: u32, e: u32) -> bool
    ensures { result ≡ is_edge_there core.now n e }
{
    is_here(core, n) && (e as usize) < core.ports.len()
}

/// The node is a held end of the edge, which it has learned.
fn holds(core: &CoreState, n: u32, e: u32) -> bool
    ensures { result ≡ holds_there core.now n e }
{
    is_edge(core, n, e) && (node(core, n).held && knows(&node(core, n).seen, e))
}

fn may_act(act: Act, core: &CoreState, n: u32, e: u32) -> bool
    ensures { result ≡ may_act_there act core.now n e }
{
    (holds(core, n, e) && is_end(acting_end(act), n, port(core, e).wire))
        && allows(act, flags_at(node(core, n).seen.as_slice(), e))
}

fn may_begin(nd: &NodeState) -> bool
    ensures { result ≡ may_begin_there nd.now }
{
    (nd.tokens > 0 && !nd.held) && (!is_set(nd.word, 61) && !is_set(nd.word, 63))
}

fn may_leave(nd: &NodeState) -> bool
    ensures { result ≡ may_leave_there nd.now }
{
    nd.held && (nd.owes.len() == 0 && nd.tokens < 2)
}

fn wire_ok(nodes: u32, w: Wire) -> bool
    ensures { result ≡ wire_ok_there nodes w }
{
    w.to != w.from && ((w.from < nodes && w.to < nodes) && (w.out < 16 && w.input < 32))
}

fn of_reserve(n: u32, r: &Reserve) -> bool
    ensures { result ≡ of_reserve_there n r.now }
{
    n == r.node || (r.first_node <= n && (n as u64) < r.first_node as u64 + r.nodes as u64)
}

fn edge_in(e: u32, r: &Reserve) -> bool
    ensures { result ≡ edge_in_there e r.now }
{
    r.first_edge <= e && (e as u64) < r.first_edge as u64 + r.edges as u64
}

fn may_wire(reserves: &[Reserve], e: u32, w: Wire) -> bool
    ensures { result ≡ may_wire_there reserves.now e w }
{
    reserves.iter().any(|r| edge_in(e, r) && (of_reserve(w.from, r) && of_reserve(w.to, r)))
}

fn may_join(core: &CoreState, n: u32, e: u32, w: Wire) -> bool
    ensures { result ≡ may core.now n (step.Wire e w) }
{
    let sizes = &core.sizes;
    is_edge(core, n, e)
        && (w.from == n && (wire_ok(sizes.nodes, w) && may_wire(sizes.reserves.as_slice(), e, w)))
}

fn is_worker(core: &CoreState, n: u32) -> bool
    ensures { result ≡ may core.now n step.See }
{
    n >= core.sizes.nodes && (n as u64) < core.sizes.nodes as u64 + core.sizes.workers as u64
}

/// Whether the event is a step of the core from this state.
pub fn is_step(core: &CoreState, event: Event) -> bool
    ensures { result ≡ may core.now event.seat event.step }
{
    let n = event.seat;
    match event.step {
        Step::Look(e) => holds(core, n, e),
        Step::Want(e) => may_act(Act::Want, core, n, e),
        Step::Unwant(e) => may_act(Act::Unwant, core, n, e),
        Step::Push(e, x) => may_act(Act::Push(x), core, n, e),
        Step::Pull(e) => may_act(Act::Pull, core, n, e),
        Step::Finish(e) => may_act(Act::Finish, core, n, e),
        Step::ClosePort(e) => may_act(Act::Close, core, n, e),
        Step::Mark(e) => {
            is_edge(core, n, e) && (has(&node(core, n).owes, e) && node(core, n).tokens > 0)
        }
        Step::Begin => is_here(core, n) && may_begin(node(core, n)),
        Step::Again => is_here(core, n) && node(core, n).held,
        Step::Rest => {
            is_here(core, n) && (may_leave(node(core, n)) && node(core, n).unlooked.len() == 0)
        }
        Step::Over => is_here(core, n) && may_leave(node(core, n)),
        Step::TokenIn => is_here(core, n) && node(core, n).tokens < 2,
        Step::TokenOut => is_here(core, n) && node(core, n).tokens > 0,
        Step::Wire(e, w) => may_join(core, n, e, w),
        Step::Wired(e) => is_edge(core, n, e),
        Step::Birth => {
            is_here(core, n) && (is_set(node(core, n).word, 61) && node(core, n).tokens > 0)
        }
        Step::Stop | Step::See => is_worker(core, n),
    }
}
