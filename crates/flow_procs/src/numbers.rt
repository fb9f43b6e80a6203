ghost use Rattle.std.specs.Prelude.{◌+◌, ◌<◌, ◌^◌, ◌∷◌, ◌≡◌, ◌≤◌};
ghost use Rattle.flow_procs.specs.Names.{ColumnType, IfOk, [], count_on, map, number_row};

use chunk_data::{Chunk, Column, List, Memory};
use port_word::PortView;
use proc_api::WorkFault;
use proc_shell::{Kernel, Offer, Shell};
use query_model::processor_spec::{Kind, Spec};
use std::alloc::Global;

/// Gives the numbers from 0 up, in one UInt64 column.
pub type Numbers = Shell<Counting>;

/// Numbers inside their shell.
#[derive(Drop)]
pub struct Counting {
    next: u64,
    end: u64,
    rows: u32,
    ghost within: { next ≤ end },
}

/// So many numbers from the first on.
#[tactic(auto, using(crate::proofs::CountingLaws::count_on_next))]
fn numbers_from(alloc: Global, first: u64, count: usize) -> Result<Vec<u64>, Memory>
    requires { first + count < 2 ^ 64 }
    ensures { IfOk result (λ v. v.items ≡ count_on first count) }
{
    let mut numbers = Vec::with_capacity(alloc, count)?;
    for i in 0..count {
        numbers.push(first + i as u64)?;
    }
    Ok(numbers)
}

/// A chunk of so many numbers from the first on.
fn chunk_from(alloc: Global, first: u64, count: usize) -> Result<Chunk, Memory>
    requires { first + count < 2 ^ 64 }
    ensures types { IfOk result (λ c. c.types ≡ ColumnType.UInt64 ∷ []) }
    ensures rows { IfOk result (λ c. c.rows ≡ map number_row (count_on first count)) }
{
    let numbers = numbers_from(alloc, first, count)?;
    let mut columns = Vec::with_capacity(alloc, 1)?;
    columns.push(Column::of_uints(numbers))?;
    Chunk::of_columns(alloc, List::from_vec(columns), count)
}

impl Kernel for Counting {
    ghost use Rattle.flow_procs.specs.Names.{Kind, Spec, counting_own, kernel_of, numbers_shelled, refl, true};

    ghost kind_is = { Kind.Numbers };

    ghost state = { λ k.
        kernel_of Kind.Numbers (Spec.Numbers k.end k.rows) (counting_own k.next k.end) };

    ghost open_to = { λ k i. true };

    ghost shelled = { λ k. numbers_shelled k.end k.rows };

    ghost uses = { λ k i unworked made e m. refl };

    ghost of_kind = { λ k. (refl, refl) };

    fn kind() -> Kind {
        Kind::Numbers
    }

    fn begin(_alloc: Global, spec: Spec) -> Result<Counting, Memory> {
        match spec {
            Spec::Numbers(end, rows) => Ok(Counting { next: 0, end, rows }),
            // The shell hands it no other kind's.
            _ => unreachable!(),
        }
    }

    fn fits(&self, inputs: usize, outputs: usize) -> bool {
        inputs == 0 && outputs == 1
    }

    fn offer(&mut self, _view: &PortView) -> Offer {
        if self.next < self.end {
            Offer::Rows
        } else {
            Offer::Wants
        }
    }

    // It has no input. What would come by one is dropped: a kernel that wanted nothing of any input
    // would have a `take` that no call can meet.
    fn wants(&self, _input: usize) -> bool {
        true
    }

    fn take(
        &mut self,
        _alloc: Global,
        _input: usize,
        _chunk: Chunk,
    ) -> Result<Option<Chunk>, Memory> {
        Ok(None)
    }

    fn make(&mut self, alloc: Global) -> Result<Option<Chunk>, WorkFault> {
        let count = (self.end - self.next).min(self.rows.max(1) as u64);
        if count == 0 {
            return Ok(None);
        }
        match chunk_from(alloc, self.next, count as usize) {
            Ok(chunk) => {
                self.next += count;
                Ok(Some(chunk))
            }
            Err(_) => Err(WorkFault::Memory),
        }
    }

    // Only a collector's shell hands chunks out.
    fn hand_out(&mut self, alloc: Global, _last: Option<Chunk>) -> Vec<Chunk> {
        Vec::new(alloc)
    }
}
