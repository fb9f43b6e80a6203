ghost use Rattle.std.specs.Prelude.{IfOk};
ghost use Rattle.sort_procs.specs.Heads.{AreBlank, AreRanked};
ghost use Rattle.sort_procs.specs.RankProps.{rank_props};

use crate::fitting::fits_order;
use crate::heads::{Head, can_make, note_ends};
use crate::merged_rows::merge_chunk;
use crate::ranks::ranks_of;
use chunk_data::{Chunk, List, Memory};
use port_word::PortView;
use proc_api::WorkFault;
use proc_shell::{Kernel, Offer, Shell};
use query_model::processor_spec::{Kind, SortSpec, Spec};
use std::alloc::Global;

/// Merges the rows of its inputs, each of which comes in the order of its keys. Of rows that the
/// keys don't tell apart those of the lowest input go first.
pub type MergeSorted = Shell<Merging>;

/// A merge inside its shell. It has a head for as many inputs as a node may have.
#[derive(Drop)]
pub struct Merging {
    order: SortSpec,
    heads: Vec<Head>,
    ghost are: { AreRanked order heads.items } by { Prim.hlevel rank_props },
}

// Heads without rows.
fn no_heads(alloc: Global, order: &SortSpec) -> Result<Vec<Head>, Memory>
    ensures { IfOk result (λ v. AreBlank 32 v.items) }
{
    let mut heads = Vec::with_capacity(alloc, 32)?;
    for _input in 0..32usize {
        let chunk = Chunk::new(alloc, &order.types)?;
        heads.push(Head {
            chunk,
            ranks: List::new(alloc),
            place: 0,
            ended: false,
        })?;
    }
    Ok(heads)
}

impl Kernel for Merging {
    ghost use Rattle.std.specs.Prelude.{refl};
    ghost use Rattle.query_model.specs.declared.processor_spec.Kind.TheVariants as kind;
    ghost use Rattle.query_model.specs.declared.processor_spec.Spec.TheVariants as spec;
    ghost use Rattle.proc_shell.specs.Kernels.{kernel_of};
    ghost use Rattle.sort_procs.specs.Merging.{is_open_at, merge_shelled, merging_own};

    ghost kind_is = { kind.MergeSorted };

    ghost state = { λ k. kernel_of kind.MergeSorted (spec.MergeSorted k.order)
        (merging_own k.heads.items) };

    ghost open_to = { λ k. is_open_at k.heads.items };

    ghost shelled = { λ k. merge_shelled k.order };

    ghost uses = { λ k i unworked made e m. refl };

    ghost of_kind = { λ k. (refl, refl) };

    fn kind() -> Kind {
        Kind::MergeSorted
    }

    fn begin(alloc: Global, spec: Spec) -> Result<Merging, Memory> {
        match spec {
            Spec::MergeSorted(order) => match no_heads(alloc, &order) {
                Ok(heads) => Ok(Merging { order, heads }),
                Err(memory) => Err(memory),
            },
            // The shell hands it no other kind's.
            _ => unreachable!(),
        }
    }

    fn fits(&self, _inputs: usize, outputs: usize) -> bool {
        outputs == 1
    }

    fn offer(&mut self, view: &PortView) -> Offer {
        note_ends(self.heads.as_mut_slice(), view);
        if can_make(self.heads.as_slice()) {
            Offer::Rows
        } else {
            Offer::Wants
        }
    }

    fn wants(&self, input: usize) -> bool {
        input >= self.heads.len() || self.heads[input].is_used()
    }

    fn take(&mut self, alloc: Global, input: usize, chunk: Chunk) -> Result<Option<Chunk>, Memory> {
        if !fits_order(&self.order, &chunk) {
            return Ok(None);
        }
        // Once an input's end was noted no chunk comes of it.
        if self.heads[input].ended {
            return Err(Memory);
        }
        match ranks_of(alloc, &chunk, self.order.keys.as_slice()) {
            Ok(ranks) => {
                self.heads[input] = Head {
                    chunk,
                    ranks: List::from_vec(ranks),
                    place: 0,
                    ended: false,
                };
                Ok(None)
            }
            Err(memory) => Err(memory),
        }
    }

    fn make(&mut self, alloc: Global) -> Result<Option<Chunk>, WorkFault> {
        if !can_make(self.heads.as_slice()) {
            return Ok(None);
        }
        match merge_chunk(alloc, self.heads.as_mut_slice(), &self.order) {
            Ok(chunk) => Ok(Some(chunk)),
            Err(_) => Err(WorkFault::Memory),
        }
    }

    // Only a collector's shell hands chunks out.
    fn hand_out(&mut self, alloc: Global, _last: Option<Chunk>) -> Vec<Chunk> {
        Vec::new(alloc)
    }
}
