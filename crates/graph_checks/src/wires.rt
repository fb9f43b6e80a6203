//! Which ports wires take, and whether a node's ports have a gap.
ghost use Rattle.std.specs.Prelude.{◌≡◌, ◌||◌};
ghost use Rattle.std.specs.List.{list_all};
ghost use Rattle.proc_api.specs.Graphs.{has_input, has_output, all_below, follows_inputs, follows_outputs, is_gapless};

use chunk_data::List;
use port_word::Wire;

/// Whether one of the edge's ports has an edge.
pub fn is_port_taken(wires: &List<Wire>, wire: &Wire) -> bool
    ensures { result ≡ (has_input wires.now wire.now.to wire.now.input
        || has_output wires.now wire.now.from wire.now.out) }
{
    let edges = wires.as_slice();
    has_input(edges, wire.to, wire.input) || has_output(edges, wire.from, wire.out)
}

// Whether an edge ends at the input of the node.
fn has_input(wires: &[Wire], node: u32, input: u32) -> bool
    ensures { result ≡ has_input wires.now node input }
{
    wires.iter().any(|w| w.to == node && w.input == input)
}

// Whether an edge begins at the output of the node.
fn has_output(wires: &[Wire], node: u32, out: u32) -> bool
    ensures { result ≡ has_output wires.now node out }
{
    wires.iter().any(|w| w.from == node && w.out == out)
}

// Whether each input of the node below the number is in use.
fn uses_inputs_below(wires: &[Wire], node: u32, input: u32) -> bool
    ensures { result ≡ all_below (has_input wires.now node) input }
{
    for i in 0..input {
        if !has_input(wires, node, i) {
            return false;
        }
    }
    true
}

// Whether each output of the node below the number is in use.
fn uses_outputs_below(wires: &[Wire], node: u32, out: u32) -> bool
    ensures { result ≡ all_below (has_output wires.now node) out }
{
    for o in 0..out {
        if !has_output(wires, node, o) {
            return false;
        }
    }
    true
}

// Whether the edge ends elsewhere, or each input below its own is in use.
fn follows_inputs(wires: &[Wire], node: u32, wire: &Wire) -> bool
    ensures { result ≡ follows_inputs wires.now node wire.now }
{
    wire.to != node || uses_inputs_below(wires, node, wire.input)
}

// Whether the edge begins elsewhere, or each output below its own is in use.
fn follows_outputs(wires: &[Wire], node: u32, wire: &Wire) -> bool
    ensures { result ≡ follows_outputs wires.now node wire.now }
{
    wire.from != node || uses_outputs_below(wires, node, wire.out)
}

// Whether each input of the node below one in use is in use too.
fn has_gapless_inputs(wires: &[Wire], node: u32) -> bool
    ensures { result ≡ list_all (follows_inputs wires.now node) wires.now }
{
    wires.iter().all(|w| follows_inputs(wires, node, w))
}

// Whether each output of the node below one in use is in use too.
fn has_gapless_outputs(wires: &[Wire], node: u32) -> bool
    ensures { result ≡ list_all (follows_outputs wires.now node) wires.now }
{
    wires.iter().all(|w| follows_outputs(wires, node, w))
}

/// Whether each port of the node below one in use is in use too.
pub fn is_gapless(wires: &[Wire], node: u32) -> bool
    ensures { result ≡ is_gapless wires.now node }
{
    has_gapless_inputs(wires, node) && has_gapless_outputs(wires, node)
}
