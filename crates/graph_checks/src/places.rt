//! Where the new nodes of a growth lie: each takes the first blank of its kind that no earlier one
//! took.
ghost use Rattle.std.specs.Prelude.{◌≡◌, ◌+◌, ◌≤◌, length, find, count_by, IfOk};
ghost use Rattle.exec_laws.specs.Growths.{blank_place, is_blank_of, lacks_blank, places_for, without_blank};
ghost use Rattle.proc_api.specs.Racks.{same_kind};
ghost use Rattle.query_model.specs.Kinds.{kind_of};
ghost use Rattle.graph_checks.specs.Flaws.{blanks_flaw, grown_kinds};

use chunk_data::Memory;
use exec_laws::{Blank, GrowthFlaw};
use proc_api::{GrowNode, KINDS};
use query_model::processor_spec::Kind;
use std::alloc::Global;

/// The flaw of blanks that are too few, by the first kind of which there are.
pub fn blanks_flaw(nodes: &[GrowNode], blanks: &[Blank]) -> Option<GrowthFlaw>
    ensures { result ≡ blanks_flaw (grown_kinds nodes.now) blanks.now }
{
    match first_lacking(&KINDS, nodes, blanks) {
        Some(kind) => Some(GrowthFlaw::NoBlank(kind)),
        None => None,
    }
}

/// The place of each new node: the first blank of its kind that no earlier one took.
pub fn places_for(
    alloc: Global,
    nodes: &[GrowNode],
    blanks: Vec<Blank>,
    past: usize,
) -> Result<Vec<u32>, Memory>
    requires past { past ≤ 256 }
    requires few { length nodes.now ≤ length blanks.items }
    requires blanks { length blanks.items ≤ 256 }
    ensures { IfOk result
        (λ places. places.items ≡ places_for (grown_kinds nodes.now) blanks.items past) }
{
    let mut blanks = blanks;
    let mut places = Vec::with_capacity(alloc, nodes.len())?;
    for (k, node) in nodes.iter().enumerate() {
        places.push(take_blank(&mut blanks, node.spec.kind(), (past + k) as u32))?;
    }
    Ok(places)
}

/// Takes the first blank of the kind, and gives its node; a number past all nodes where there is
/// none.
fn take_blank(blanks: &mut Vec<Blank>, kind: Kind, past: u32) -> u32
    ensures place { result ≡ blank_place kind blanks.old.items past }
    ensures rest { blanks.new.items ≡ without_blank kind blanks.old.items }
{
    for i in 0..blanks.len() {
        if blanks[i].kind == kind {
            return blanks.remove(i).node;
        }
    }
    past
}

/// The first kind of which there are fewer blanks than new nodes.
fn first_lacking(kinds: &[Kind], nodes: &[GrowNode], blanks: &[Blank]) -> Option<Kind>
    ensures { result ≡ find (lacks_blank (grown_kinds nodes.now) blanks.now) kinds.now }
{
    for kind in kinds {
        if count_blanks(*kind, blanks) < count_nodes(*kind, nodes) {
            return Some(*kind);
        }
    }
    None
}

fn count_blanks(kind: Kind, blanks: &[Blank]) -> usize
    ensures { result ≡ count_by (is_blank_of kind) blanks.now }
{
    blanks.iter().filter(|b| b.kind == kind).count()
}

fn count_nodes(kind: Kind, nodes: &[GrowNode]) -> usize
    ensures { result ≡ count_by (λ x. same_kind (kind_of x.spec) kind) nodes.now }
{
    nodes.iter().filter(|node| node.spec.kind() == kind).count()
}
