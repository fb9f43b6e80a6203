ghost use Rattle.std.specs.Prelude.{◌-◌, ◌≡◌};
ghost use Rattle.flow_procs.specs.Names.{min};

use chunk_data::{Chunk, Memory};
use port_word::PortView;
use proc_api::WorkFault;
use proc_shell::{Kernel, Offer, Shell};
use query_model::processor_spec::{Kind, Spec};
use query_model::query::Span;
use std::alloc::Global;

/// Passes on the rows of its span, and closes its input as soon as it has read enough.
pub type Limit = Shell<Limiting>;

/// A limit inside its shell.
#[derive(Drop)]
pub struct Limiting {
    span: Span,
    /// How many rows it has read; at its last value it stands still.
    read: u128,
}

// How many of a chunk's rows come before a place, where so many rows came before the chunk.
fn rows_before(place: u128, read: u128, rows: usize) -> usize
    ensures { result ≡ min (place - read) rows }
{
    place.saturating_sub(read).min(rows as u128) as usize
}

impl Kernel for Limiting {
    ghost use Rattle.std.specs.Prelude.{◌==◌};
    ghost use Rattle.flow_procs.specs.Names.{Kind, Spec, first-source, kernel_of, limit_shelled, read_own, refl};

    ghost kind_is = { Kind.Limit };

    ghost state = { λ k. kernel_of Kind.Limit (Spec.Limit k.span) (read_own k.read) };

    ghost open_to = { λ k i. i == 0 };

    ghost shelled = { λ k. limit_shelled k.span };

    ghost uses = { λ k i unworked made e m. first-source
        (kernel_of Kind.Limit (Spec.Limit k.span) (read_own k.read)) i unworked made e };

    ghost of_kind = { λ k. (refl, refl) };

    fn kind() -> Kind {
        Kind::Limit
    }

    fn begin(_alloc: Global, spec: Spec) -> Result<Limiting, Memory> {
        match spec {
            Spec::Limit(span) => Ok(Limiting { span, read: 0 }),
            // The shell hands it no other kind's.
            _ => unreachable!(),
        }
    }

    fn fits(&self, inputs: usize, outputs: usize) -> bool {
        inputs == 1 && outputs == 1
    }

    fn offer(&mut self, _view: &PortView) -> Offer {
        let end = self.span.skip as u128 + self.span.count as u128;
        let enough = if self.span.count == 0 { 1 } else { end };
        if enough <= self.read {
            Offer::Enough
        } else {
            Offer::Wants
        }
    }

    fn wants(&self, input: usize) -> bool {
        input == 0
    }

    fn take(
        &mut self,
        _alloc: Global,
        _input: usize,
        mut chunk: Chunk,
    ) -> Result<Option<Chunk>, Memory> {
        let skip = self.span.skip as u128;
        let end = skip + self.span.count as u128;
        let rows = chunk.rows();
        chunk.truncate(rows_before(end, self.read, rows));
        chunk.remove_front(rows_before(skip, self.read, rows));
        self.read = self.read.saturating_add(rows as u128);
        Ok(Some(chunk))
    }

    fn make(&mut self, _alloc: Global) -> Result<Option<Chunk>, WorkFault> {
        Ok(None)
    }

    // Only a collector's shell hands chunks out.
    fn hand_out(&mut self, alloc: Global, _last: Option<Chunk>) -> Vec<Chunk> {
        Vec::new(alloc)
    }
}
