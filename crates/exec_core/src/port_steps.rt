//! The steps on port words: `look`, and the six acts of a held end of an edge. The clause `exact`
//! is the whole of what is made; the one beside it is what the law of its name asks of it.
ghost use Rattle.std.specs.Prelude.{◌≡◌, true, false, IfOk};
ghost use Rattle.core_laws.specs.Views.{node_at, port_at, seeing};
ghost use Rattle.core_laws.specs.Steps.{acting_end as acting_end_there, allows as allows_there, changed as changed_there, tells as tells_there, port_after as port_after_there, is_held_end, acted, after};
ghost use Rattle.core_laws.specs.declared.types.Act.TheVariants.{Pull};
ghost use Rattle.core_laws.specs.declared.types.Step.TheVariants as step;

use crate::lookups::{flags_at, port};
use crate::places::{
    adding, blank_node, fresh_port, pushed, swap_node, swap_port, with_sight, without,
};
use chunk_data::Memory;
use core_laws::{Act, CoreState, Flags, PortState};
use std::alloc::Global;

/// The step `look`.
pub(crate) fn look(alloc: Global, core: CoreState, n: u32, e: u32) -> CoreState
    requires { is_held_end core n e ≡ true }
    ensures sees { (node_at result n).seen ≡ seeing e (port_at core e).flags (node_at core n).seen }
    ensures exact { result ≡ after core n (step.Look e) }
{
    let flags = port(&core, e).flags;
    let (core, mut node) = swap_node(core, n, blank_node(alloc));
    node.seen = with_sight(node.seen, e, flags);
    node.unlooked = without(node.unlooked, e);
    swap_node(core, n, node).0
}

/// The end that makes the act: true is the consumer.
pub(crate) fn acting_end(act: Act) -> bool
    ensures { result ≡ acting_end_there act }
{
    match act {
        Act::Want | Act::Unwant | Act::Pull | Act::Close => true,
        Act::Push(_) | Act::Finish => false,
    }
}

/// Whether an end that sees these flags may make the act.
pub(crate) fn allows(act: Act, seen: Flags) -> bool
    ensures { result ≡ allows_there act seen }
{
    match act {
        Act::Unwant => true,
        Act::Want | Act::Close => !seen.fin_in,
        Act::Push(_) => !seen.has_data && !seen.fin_out,
        Act::Pull => seen.has_data && !seen.fin_in,
        Act::Finish => !seen.fin_out,
    }
}

fn changed(act: Act, flags: Flags) -> Flags
    ensures content { act ≡ Pull → result.has_data ≡ false }
    ensures exact { result ≡ changed_there act flags }
{
    let mut flags = flags;
    match act {
        Act::Want => flags.needed = true,
        Act::Unwant => flags.needed = false,
        Act::Push(_) => flags.has_data = true,
        Act::Pull => flags.has_data = false,
        Act::Finish => flags.fin_out = true,
        Act::Close => flags.fin_in = true,
    }
    flags
}

/// Whether the peer is to be told, by the flags that the word had.
fn tells(act: Act, flags: Flags) -> bool
    ensures { result ≡ tells_there act flags }
{
    match act {
        Act::Want => !flags.needed,
        Act::Unwant => false,
        Act::Push(_) | Act::Pull | Act::Finish | Act::Close => true,
    }
}

fn port_after(act: Act, port: PortState) -> Result<PortState, Memory>
    ensures { IfOk result (λ p. p ≡ port_after_there act port) }
{
    let mut port = port;
    port.flags = changed(act, port.flags);
    match act {
        Act::Push(x) => {
            port.pushed = pushed(port.pushed, x)?;
            port.slot = Some(x);
        }
        Act::Pull => {
            if let Some(x) = port.slot {
                port.pulled = pushed(port.pulled, x)?;
            }
            port.slot = None;
        }
        Act::Want | Act::Unwant | Act::Finish | Act::Close => {}
    }
    Ok(port)
}

/// The step that makes the act.
pub(crate) fn act_on(
    alloc: Global,
    act: Act,
    core: CoreState,
    n: u32,
    e: u32,
) -> Result<CoreState, Memory>
    requires { is_held_end core n e ≡ true }
    ensures { IfOk result (λ c. c ≡ acted act core n e) }
{
    let tells = tells(act, port(&core, e).flags);
    let (core, old) = swap_port(core, e, fresh_port(alloc, None));
    let (core, _) = swap_port(core, e, port_after(act, old)?);
    let (core, mut node) = swap_node(core, n, blank_node(alloc));
    let sight = flags_at(node.seen.as_slice(), e);
    node.seen = with_sight(node.seen, e, changed(act, sight));
    node.owes = adding(tells, node.owes, e)?;
    Ok(swap_node(core, n, node).0)
}
