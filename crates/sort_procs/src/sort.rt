ghost use Rattle.std.specs.Prelude.{◌≡◌, ◌↔◌, ◌<◌, ◌≤◌, ◌+◌, ◌||◌, true, length, IsTrue, IfOk, OnOk};
ghost use Rattle.proc_api.specs.kinds.Sort.{AreKeysWithin};
ghost use Rattle.std.specs.List.{All};
ghost use Rattle.proc_shell.specs.Kernels.{Makes};
ghost use Rattle.chunk_data.specs.Names.{AgreeOnKey, IsTable};
ghost use Rattle.sort_procs.specs.Ranks.{HaveRanks};
ghost use Rattle.sort_procs.specs.RankProps.{rank_props};
ghost use Rattle.sort_procs.specs.Sorting.{rows_left, PutsInOrder};

use crate::fitting::fits_order;
use crate::ranks::{Ranked, gather_ranked, put_more, ranks_of};
use chunk_data::{Chunk, Memory};
use port_word::PortView;
use proc_api::WorkFault;
use proc_shell::{Kernel, Offer, Shell};
use query_model::processor_spec::{Kind, SortSpec, Spec};
use std::alloc::Global;

/// Reads its input to the end, and then gives its rows in the order of its keys.
pub type Sort = Shell<Sorting>;

/// A sort inside its shell. It gathers all rows in one chunk, and then their places. So many of
/// these are in order, and none behind this front is before one of it; so many rows are made. The
/// front grows only as chunks are asked for, since a limit may want the first one alone.
#[derive(Drop)]
pub struct Sorting {
    order: SortSpec,
    rows: Chunk,
    ended: bool,
    ranked: bool,
    places: Vec<Ranked>,
    next: usize,
    front: usize,
    ghost typed: { rows.types ≡ order.types },
    ghost keyed: { 0 < length rows.rows → AreKeysWithin order },
    ghost ends: { ranked ≡ true → ended ≡ true },
    ghost ranks: { HaveRanks ranked rows order.keys places.items } by { Prim.hlevel rank_props },
    ghost agree: { ranked ≡ true → All (AgreeOnKey rows.types rows.types) order.keys },
    ghost next_within: { next ≤ front },
    ghost front_within: { front ≤ length places.items },
}

// Whether one of them is so.
fn either(one: bool, other: bool) -> bool
    ensures { result ≡ one || other }
{
    one || other
}

impl Sorting {
    ghost use Rattle.sort_procs.specs.Sorted.{sort_of, sorting_own_of};

    // Whether rows can be made.
    fn can_make(&self) -> bool
        ensures rows { IsTrue result ↔ (0 < length (sorting_own_of self.now).unmade) }
        ensures ended { IsTrue result → self.now.ended ≡ true }
    {
        self.ended && self.has_rows()
    }

    // Whether rows are left.
    #[tactic(auto, using(crate::proofs::SortingLaws::has_left))]
    fn has_rows(&self) -> bool
        ensures { IsTrue result ↔ (0 < length
            (rows_left self.now.order.keys self.now.ranked self.now.places.items self.now.next
            self.now.front self.now.rows.rows)) }
    {
        if self.ranked {
            self.next < self.places.len()
        } else {
            self.rows.rows() > 0
        }
    }

    // Finds the places of the rows, once.
    #[tactic(auto, using(crate::proofs::SortingLaws::agree, crate::proofs::SortingLaws::ranks_now))]
    fn rank_rows(&mut self, alloc: Global) -> Result<(), Memory>
        requires ended { self.old.ended ≡ true }
        requires some { 0 < length (sorting_own_of self.old).unmade }
        ensures order { self.new.order ≡ self.old.order }
        ensures ranked { OnOk result (self.new.ranked ≡ true) }
        ensures same { OnOk result (sorting_own_of self.new ≡ sorting_own_of self.old) }
    {
        if self.ranked {
            return Ok(());
        }
        match ranks_of(alloc, &self.rows, self.order.keys.as_slice()) {
            Ok(places) => {
                self.places = places;
                self.next = 0;
                self.front = 0;
                self.ranked = true;
                Ok(())
            }
            Err(memory) => Err(memory),
        }
    }

    // Puts more rows in order, where all of the front are made.
    fn extend_front(&mut self, alloc: Global)
        requires { self.old.ranked ≡ true }
        ensures order { self.new.order ≡ self.old.order }
        ensures ranked { self.new.ranked ≡ true }
        ensures puts { PutsInOrder self.old.order.keys (sorting_own_of self.old)
            (sorting_own_of self.new) }
        ensures some { self.new.next ≡ self.new.front
            → self.new.front ≡ length self.new.places.items }
    {
        if self.next < self.front {
            return;
        }
        let wanted = self.rows_wanted();
        let count = put_more(
            alloc,
            &self.rows,
            self.order.keys.as_slice(),
            &mut self.places,
            self.front,
            wanted,
        );
        self.front += count;
    }

    // How many rows to put in order next: those of a chunk, and then sixteen times as many as were
    // before, so that all of them are in order after few selections.
    fn rows_wanted(&self) -> usize
        ensures { IsTable self.now.rows }
    {
        let most = (self.order.rows as usize).max(1);
        self.rows
            .rows()
            .min(most.max(self.front.saturating_mul(16)))
    }

    // Makes a chunk of the next rows in order.
    fn next_chunk(&mut self, alloc: Global) -> Result<Option<Chunk>, Memory>
        requires ranked { self.old.ranked ≡ true }
        requires some { self.old.next ≡ self.old.front
            → self.old.front ≡ length self.old.places.items }
        ensures order { self.new.order ≡ self.old.order }
        ensures makes { IfOk result
            (Makes (sort_of self.old) (sorting_own_of self.old) (sorting_own_of self.new)) }
    {
        let most = (self.order.rows as usize).max(1);
        let count = (self.front - self.next).min(most);
        if count == 0 {
            return Ok(None);
        }
        match gather_ranked(
            alloc,
            &self.rows,
            &self.places[self.next..self.next + count],
        ) {
            Ok(chunk) => {
                self.next += count;
                Ok(Some(chunk))
            }
            Err(memory) => Err(memory),
        }
    }
}

impl Kernel for Sorting {
    ghost use Rattle.std.specs.Prelude.{refl, ◌==◌};
    ghost use Rattle.query_model.specs.declared.processor_spec.Kind.TheVariants as kind;
    ghost use Rattle.proc_shell.specs.Kernels.{kernel_of};
    ghost use Rattle.sort_procs.specs.Sorting.{sort_shelled};
    ghost use Rattle.sort_procs.specs.Sorted.{sort_of, sorting_own_of};

    ghost kind_is = { kind.Sort };

    ghost state = { λ k. kernel_of kind.Sort (sort_of k) (sorting_own_of k) };

    ghost open_to = { λ k i. i == 0 };

    ghost shelled = { λ k. sort_shelled k.order };

    ghost uses = { λ k i unworked made e m. refl };

    ghost of_kind = { λ k. (refl, refl) };

    fn kind() -> Kind {
        Kind::Sort
    }

    fn begin(alloc: Global, spec: Spec) -> Result<Sorting, Memory> {
        match spec {
            Spec::Sort(order) => match Chunk::new(alloc, &order.types) {
                Ok(rows) => Ok(Sorting {
                    order,
                    rows,
                    ended: false,
                    ranked: false,
                    places: Vec::new(alloc),
                    next: 0,
                    front: 0,
                }),
                Err(memory) => Err(memory),
            },
            // The shell hands it no other kind's.
            _ => unreachable!(),
        }
    }

    fn fits(&self, inputs: usize, outputs: usize) -> bool {
        inputs == 1 && outputs == 1
    }

    fn offer(&mut self, view: &PortView) -> Offer {
        self.ended = either(self.ended, view.in_finished(0));
        if self.can_make() {
            Offer::Rows
        } else {
            Offer::Wants
        }
    }

    fn wants(&self, input: usize) -> bool {
        input == 0
    }

    fn take(
        &mut self,
        _alloc: Global,
        _input: usize,
        chunk: Chunk,
    ) -> Result<Option<Chunk>, Memory> {
        if !fits_order(&self.order, &chunk) {
            return Ok(None);
        }
        // Once the end was noted no chunk comes.
        if self.ended {
            return Err(Memory);
        }
        match self.rows.append(chunk) {
            Ok(()) => Ok(None),
            Err(_) => Err(Memory),
        }
    }

    fn make(&mut self, alloc: Global) -> Result<Option<Chunk>, WorkFault> {
        if !self.can_make() {
            return Ok(None);
        }
        match self.rank_rows(alloc) {
            Ok(()) => {
                self.extend_front(alloc);
                match self.next_chunk(alloc) {
                    Ok(made) => Ok(made),
                    Err(_) => Err(WorkFault::Memory),
                }
            }
            Err(_) => Err(WorkFault::Memory),
        }
    }

    // Only a collector's shell hands chunks out.
    fn hand_out(&mut self, alloc: Global, _last: Option<Chunk>) -> Vec<Chunk> {
        Vec::new(alloc)
    }
}
