use chunk_data::{Chunk, List, Memory};
use expr_eval::{are_items, eval_items};
use port_word::PortView;
use proc_api::WorkFault;
use proc_shell::{Kernel, Offer, Shell};
use query_model::checked::Expr;
use query_model::processor_spec::{Kind, Spec};
use std::alloc::Global;

/// Makes of each row the row of its items' values. Each item is evaluated over a whole chunk,
/// column by column.
pub type Expression = Shell<Evaluating>;

/// An expression inside its shell.
#[derive(Drop)]
pub struct Evaluating {
    items: List<Expr>,
}

impl Kernel for Evaluating {
    ghost use Rattle.std.specs.Prelude.{◌==◌};
    ghost use Rattle.flow_procs.specs.Names.{Kind, Spec, expression_shelled, first-source, idle_own, kernel_of, refl};

    ghost kind_is = { Kind.Expression };

    ghost state = { λ k. kernel_of Kind.Expression (Spec.Expression k.items) idle_own };

    ghost open_to = { λ k i. i == 0 };

    ghost shelled = { λ k. expression_shelled k.items };

    ghost uses = { λ k i unworked made e m. first-source
        (kernel_of Kind.Expression (Spec.Expression k.items) idle_own) i unworked made e };

    ghost of_kind = { λ k. (refl, refl) };

    fn kind() -> Kind {
        Kind::Expression
    }

    fn begin(_alloc: Global, spec: Spec) -> Result<Evaluating, Memory> {
        match spec {
            Spec::Expression(items) => Ok(Evaluating { items }),
            // The shell hands it no other kind's.
            _ => unreachable!(),
        }
    }

    fn fits(&self, inputs: usize, outputs: usize) -> bool {
        inputs == 1 && outputs == 1
    }

    fn offer(&mut self, _view: &PortView) -> Offer {
        Offer::Wants
    }

    fn wants(&self, input: usize) -> bool {
        input == 0
    }

    fn take(
        &mut self,
        alloc: Global,
        _input: usize,
        chunk: Chunk,
    ) -> Result<Option<Chunk>, Memory> {
        if !are_items(self.items.as_slice(), chunk.types().as_slice()) {
            return Ok(None);
        }
        match eval_items(alloc, self.items.as_slice(), &chunk) {
            Ok(made) => Ok(Some(made)),
            Err(memory) => Err(memory),
        }
    }

    fn make(&mut self, _alloc: Global) -> Result<Option<Chunk>, WorkFault> {
        Ok(None)
    }

    // Only a collector's shell hands chunks out.
    fn hand_out(&mut self, alloc: Global, _last: Option<Chunk>) -> Vec<Chunk> {
        Vec::new(alloc)
    }
}
