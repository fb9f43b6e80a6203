//! The steps on node words, on wire words and on the pending word. The clause `exact` gives the
//! whole state; the one beside it is what the law of its name asks of the step.
ghost use Rattle.std.specs.Prelude.{◌≡◌, ◌≢◌, ◌+◌, ◌*◌, ◌^◌, ◌<◌, ◌≤◌, true, length, bit_or, bit_xor, IfOk};
ghost use Rattle.core_laws.specs.Views.{node_at, put_node};
ghost use Rattle.core_laws.specs.Laws.{Laws};
ghost use Rattle.core_laws.specs.Steps.{is_updated as is_updated_there, taken, left as left_there, spent as spent_there, with_bit as told_there, with_tokens as counted_there, learned, wiring as wiring_there, may, after};
ghost use Rattle.core_laws.specs.declared.types.Step.TheVariants as step;

use crate::lookups::{NO_FLAGS, bit_at_end, has, is_set, knows, node, peer_in, port, wire_of};
use crate::places::{adding, blank_node, fresh_port, pushed, swap_node, swap_port, without};
use chunk_data::{List, Memory};
use core_laws::{CoreState, Sight, Wire};
use std::alloc::Global;

/// What it spends of a node's tokens to leave a word that was 0 charged or held.
pub(crate) fn spent(word: u64) -> u32
    ensures { result ≡ spent_there word }
{
    if word == 0 { 1 } else { 0 }
}

/// The node's word gets the bit.
#[tactic(auto, using(crate::proofs::Replaced::telling))]
fn tell(alloc: Global, core: CoreState, m: u32, bit: u64) -> CoreState
    requires node { m < length core.nodes }
    requires bit { bit < 48 }
    ensures told { (node_at result m).word ≡ bit_or (node_at core m).word (2 ^ bit) }
    ensures exact { result ≡ put_node core m (told_there bit (node_at core m)) }
{
    let (core, mut node) = swap_node(core, m, blank_node(alloc));
    node.word |= 1 << bit;
    swap_node(core, m, node).0
}

/// The step `mark` of the node `n`, which owes its peer a telling on the edge.
pub(crate) fn mark(alloc: Global, core: CoreState, n: u32, e: u32) -> CoreState
    requires may { may core n (step.Mark e) ≡ true }
    requires laws { Laws core }
    ensures { result ≡ after core n (step.Mark e) }
{
    let wire = port(&core, e).wire;
    let peer = peer_in(n, wire);
    let spends = spent(node(&core, peer).word);
    let core = tell(alloc, core, peer, bit_at_end(peer, wire));
    let (core, mut node) = swap_node(core, n, blank_node(alloc));
    node.tokens -= spends;
    node.owes = without(node.owes, e);
    swap_node(core, n, node).0
}

fn is_updated(core: &CoreState, n: u32, e: u32) -> bool
    requires { n < length core.now.nodes }
    ensures { result ≡ is_updated_there core.now n e }
{
    let nd = node(core, n);
    has(&nd.unlooked, e)
        || (is_set(nd.word, 60) || is_set(nd.word, bit_at_end(n, wire_of(core, e))))
}

/// The edges that the node has learned and is to look at.
fn updated(alloc: Global, core: &CoreState, n: u32) -> Result<List<u32>, Memory>
    requires { n < length core.now.nodes }
    ensures { IfOk result (λ l. l ≡ (taken core.now n 0).unlooked) }
{
    let seen = node(core, n).seen.as_slice();
    let mut edges = Vec::new(alloc);
    for sight in seen {
        if is_updated(core, n, sight.edge) {
            edges.push(sight.edge)?;
        }
    }
    Ok(List::from_vec(edges))
}

/// The node's word becomes held, which spends so many of its tokens: `begin` and `again`.
pub(crate) fn take(alloc: Global, core: CoreState, n: u32, spends: u32) -> Result<CoreState, Memory>
    requires node { n < length core.nodes }
    requires tokens { spends ≤ (node_at core n).tokens }
    ensures { IfOk result (λ c. c ≡ put_node core n (taken core n spends)) }
{
    let unlooked = updated(alloc, &core, n)?;
    let (core, mut node) = swap_node(core, n, blank_node(alloc));
    node.word = 1 << 62;
    node.held = true;
    node.tokens -= spends;
    node.unlooked = unlooked;
    Ok(swap_node(core, n, node).0)
}

/// The node leaves its word as this one, with one token more: `rest` and `over`.
pub(crate) fn leave(alloc: Global, core: CoreState, n: u32, word: u64) -> CoreState
    requires { may core n step.Over ≡ true }
    ensures pending { (node_at result n).tokens ≡ (node_at core n).tokens + 1 }
    ensures exact { result ≡ put_node core n (left_there word (node_at core n)) }
{
    let (core, mut node) = swap_node(core, n, blank_node(alloc));
    node.word = word;
    node.held = false;
    node.tokens += 1;
    swap_node(core, n, node).0
}

/// The step `rest`: a node that was told meanwhile stays held.
pub(crate) fn rest(alloc: Global, core: CoreState, n: u32) -> CoreState
    requires { may core n step.Rest ≡ true }
    ensures told { (node_at core n).word ≢ 2 ^ 62
        → (node_at result n).word ≡ (node_at core n).word }
    ensures exact { result ≡ after core n step.Rest }
{
    if node(&core, n).word == 1 << 62 {
        leave(alloc, core, n, 0)
    } else {
        core
    }
}

/// The step `birth`.
pub(crate) fn birth(alloc: Global, core: CoreState, n: u32) -> CoreState
    requires { may core n step.Birth ≡ true }
    ensures pending { (node_at result n).word ≡ bit_xor (node_at core n).word (3 * 2 ^ 60) }
    ensures exact { result ≡ after core n step.Birth }
{
    let (core, mut node) = swap_node(core, n, blank_node(alloc));
    node.word ^= 3 << 60;
    node.tokens -= 1;
    swap_node(core, n, node).0
}

/// The node's tokens and the pending number become these: `token_in` and `token_out`.
pub(crate) fn count(alloc: Global, core: CoreState, n: u32, tokens: u32, pending: u64) -> CoreState
    requires { n < length core.nodes }
    ensures { result ≡ counted_there core n tokens pending }
{
    let (core, mut node) = swap_node(core, n, blank_node(alloc));
    node.tokens = tokens;
    let (core, _) = swap_node(core, n, node);
    CoreState { pending, ..core }
}

/// The node learns the port, if it doesn't know it.
pub(crate) fn learn(alloc: Global, core: CoreState, n: u32, e: u32) -> Result<CoreState, Memory>
    requires { n < length core.nodes }
    ensures { IfOk result (λ c. c ≡ learned core n e) }
{
    if knows(&node(&core, n).seen, e) {
        return Ok(core);
    }
    let (core, mut node) = swap_node(core, n, blank_node(alloc));
    let flags = NO_FLAGS;
    node.seen = pushed(node.seen, Sight { edge: e, flags })?;
    node.unlooked = adding(true, node.unlooked, e)?;
    Ok(swap_node(core, n, node).0)
}

/// The edge gets its wire.
pub(crate) fn wiring(alloc: Global, core: CoreState, e: u32, w: Wire) -> CoreState
    requires { e < length core.ports }
    ensures { result ≡ wiring_there core e w }
{
    let (core, mut port) = swap_port(core, e, fresh_port(alloc, None));
    port.wire = Some(w);
    swap_port(core, e, port).0
}
