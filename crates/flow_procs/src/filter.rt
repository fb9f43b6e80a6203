use chunk_data::{Chunk, Memory};
use expr_eval::{is_typed_cond, mask};
use port_word::PortView;
use proc_api::WorkFault;
use proc_shell::{Kernel, Offer, Shell};
use query_model::checked::Cond;
use query_model::processor_spec::{Kind, Spec};
use std::alloc::Global;

/// Passes on the rows at which its condition is true, in order. Each chunk is compacted in place.
pub type Filter = Shell<Filtering>;

/// A filter inside its shell.
#[derive(Drop)]
pub struct Filtering {
    cond: Cond,
}

impl Kernel for Filtering {
    ghost use Rattle.std.specs.Prelude.{◌==◌};
    ghost use Rattle.flow_procs.specs.Names.{Kind, Spec, filter_shelled, first-source, idle_own, kernel_of, refl};

    ghost kind_is = { Kind.Filter };

    ghost state = { λ k. kernel_of Kind.Filter (Spec.Filter k.cond) idle_own };

    ghost open_to = { λ k i. i == 0 };

    ghost shelled = { λ k. filter_shelled k.cond };

    ghost uses = { λ k i unworked made e m. first-source
        (kernel_of Kind.Filter (Spec.Filter k.cond) idle_own) i unworked made e };

    ghost of_kind = { λ k. (refl, refl) };

    fn kind() -> Kind {
        Kind::Filter
    }

    fn begin(_alloc: Global, spec: Spec) -> Result<Filtering, Memory> {
        match spec {
            Spec::Filter(cond) => Ok(Filtering { cond }),
            // The shell hands it no other kind's.
            _ => unreachable!(),
        }
    }

    fn fits(&self, inputs: usize, outputs: usize) -> bool {
        inputs == 1 && outputs == 1
    }

    fn offer(&mut self, _view: &PortView) -> Offer {
        Offer::Wants
    }

    fn wants(&self, input: usize) -> bool {
        input == 0
    }

    fn take(
        &mut self,
        alloc: Global,
        _input: usize,
        mut chunk: Chunk,
    ) -> Result<Option<Chunk>, Memory> {
        if !is_typed_cond(&self.cond, chunk.types().as_slice()) {
            return Ok(None);
        }
        match mask(alloc, &self.cond, &chunk) {
            Ok(truths) => {
                chunk.keep(truths.as_slice());
                Ok(Some(chunk))
            }
            Err(memory) => Err(memory),
        }
    }

    fn make(&mut self, _alloc: Global) -> Result<Option<Chunk>, WorkFault> {
        Ok(None)
    }

    // Only a collector's shell hands chunks out.
    fn hand_out(&mut self, alloc: Global, _last: Option<Chunk>) -> Vec<Chunk> {
        Vec::new(alloc)
    }
}
