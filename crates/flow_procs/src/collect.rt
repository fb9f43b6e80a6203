ghost use Rattle.std.specs.Prelude.{◌<◌, ◌≡◌};
ghost use Rattle.flow_procs.specs.Names.{false, vec_capacity, vec_len};

use chunk_data::{Chunk, Memory};
use port_word::PortView;
use proc_api::WorkFault;
use proc_shell::{Kernel, Offer, Shell};
use query_model::processor_spec::{Kind, Spec};
use std::alloc::Global;
use std::mem::replace;

/// Gathers the chunks of its input, in order, until they are taken.
pub type Collect = Shell<Gathering>;

/// A collector inside its shell. It has room for one chunk more, which may be handed out before it
/// is worked.
#[derive(Drop)]
pub struct Gathering {
    chunks: Vec<Chunk>,
    handed_out: bool,
    ghost room: { handed_out ≡ false → vec_len chunks < vec_capacity chunks },
}

impl Kernel for Gathering {
    ghost use Rattle.std.specs.Prelude.{◌==◌};
    ghost use Rattle.flow_procs.specs.Names.{Kind, collect_shelled, collect_uses, false, gathering, refl};

    ghost kind_is = { Kind.Collect };

    ghost state = { λ k. gathering k.chunks.items k.handed_out };

    ghost open_to = { λ k i. i == 0 };

    ghost makes = { false };

    ghost of_kind = { λ k. (refl, refl) };

    ghost shelled = { λ k. collect_shelled };

    ghost uses = { λ k i unworked made e m. collect_uses k.chunks.items k.handed_out i unworked made
        e (m refl) };

    fn kind() -> Kind {
        Kind::Collect
    }

    fn begin(alloc: Global, spec: Spec) -> Result<Gathering, Memory> {
        match spec {
            Spec::Collect => match Vec::with_capacity(alloc, 1) {
                Ok(chunks) => Ok(Gathering {
                    chunks,
                    handed_out: false,
                }),
                Err(_) => Err(Memory),
            },
            // The shell hands it no other kind's.
            _ => unreachable!(),
        }
    }

    fn fits(&self, inputs: usize, outputs: usize) -> bool {
        inputs == 1 && outputs == 0
    }

    fn offer(&mut self, _view: &PortView) -> Offer {
        Offer::Wants
    }

    fn wants(&self, input: usize) -> bool {
        input == 0
    }

    fn take(
        &mut self,
        _alloc: Global,
        _input: usize,
        chunk: Chunk,
    ) -> Result<Option<Chunk>, Memory> {
        match self.chunks.reserve(2) {
            Ok(()) => {
                let _ = self.chunks.push(chunk);
                Ok(None)
            }
            Err(_) => Err(Memory),
        }
    }

    fn make(&mut self, _alloc: Global) -> Result<Option<Chunk>, WorkFault> {
        Ok(None)
    }

    fn hand_out(&mut self, alloc: Global, last: Option<Chunk>) -> Vec<Chunk> {
        if let Some(chunk) = last {
            let _ = self.chunks.push(chunk);
        }
        self.handed_out = true;
        replace(&mut self.chunks, Vec::new(alloc))
    }
}
