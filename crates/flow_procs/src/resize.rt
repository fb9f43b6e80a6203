use chunk_data::{Chunk, Memory};
use port_word::PortView;
use proc_api::WorkFault;
use proc_shell::{Kernel, Offer, Shell};
use query_model::processor_spec::{Kind, Spec};
use std::alloc::Global;

/// Passes chunks on as they are, from any input to any output.
pub type Resize = Shell<Resizing>;

/// A resize inside its shell, which does all.
#[derive(Drop)]
pub struct Resizing;

impl Kernel for Resizing {
    ghost use Rattle.flow_procs.specs.Names.{Kind, Spec, idle_own, kernel_of, refl, resize_shelled, true};

    ghost kind_is = { Kind.Resize };

    ghost state = { λ k. kernel_of Kind.Resize Spec.Resize idle_own };

    ghost open_to = { λ k i. true };

    ghost shelled = { λ k. resize_shelled };

    ghost uses = { λ k i unworked made e m. refl };

    ghost of_kind = { λ k. (refl, refl) };

    fn kind() -> Kind {
        Kind::Resize
    }

    fn begin(_alloc: Global, spec: Spec) -> Result<Resizing, Memory> {
        match spec {
            Spec::Resize => Ok(Resizing),
            // The shell hands it no other kind's.
            _ => unreachable!(),
        }
    }

    fn fits(&self, _inputs: usize, outputs: usize) -> bool {
        outputs > 0
    }

    fn offer(&mut self, _view: &PortView) -> Offer {
        Offer::Wants
    }

    fn wants(&self, _input: usize) -> bool {
        true
    }

    fn take(
        &mut self,
        _alloc: Global,
        _input: usize,
        chunk: Chunk,
    ) -> Result<Option<Chunk>, Memory> {
        Ok(Some(chunk))
    }

    fn make(&mut self, _alloc: Global) -> Result<Option<Chunk>, WorkFault> {
        Ok(None)
    }

    // Only a collector's shell hands chunks out.
    fn hand_out(&mut self, alloc: Global, _last: Option<Chunk>) -> Vec<Chunk> {
        Vec::new(alloc)
    }
}
