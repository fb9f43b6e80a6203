ghost use Rattle.std.specs.Prelude.{None};
ghost use Rattle.query_model.specs.declared.processor_spec.Kind.TheVariants as kind;
ghost use Rattle.proc_shell.specs.Shells.{view_seen};
ghost use Rattle.qrun.specs.declared.breaker.Breaker.TheVariants as breaker;

use aggregate_proc::{MergeAggregate, PartialAggregate};
use chunk_data::Chunk;
use join_proc::HashJoin;
use port_word::PortView;
use proc_api::{Growth, LoadRefusal, Processor, Status, Wake, WorkFault};
use query_model::processor_spec::{Kind, Spec};
use sort_procs::{MergeSorted, Sort};
use std::alloc::Global;

/// A processor of a kind that gives no row before an input has ended, or each has given one: one
/// type of box for these kinds, since what proves a function that makes boxes goes over each of
/// their types.
#[derive(Drop)]
pub(crate) enum Breaker {
    PartialAggregate(PartialAggregate),
    MergeAggregate(MergeAggregate),
    HashJoin(HashJoin),
    Sort(Sort),
    MergeSorted(MergeSorted),
}

impl Breaker {
    /// A new one of the kind, where it is one of theirs.
    pub(crate) fn of(alloc: Global, kind: Kind) -> Option<Breaker> {
        match kind {
            Kind::PartialAggregate => Some(Breaker::PartialAggregate(PartialAggregate::new(alloc))),
            Kind::MergeAggregate => Some(Breaker::MergeAggregate(MergeAggregate::new(alloc))),
            Kind::HashJoin => Some(Breaker::HashJoin(HashJoin::new(alloc))),
            Kind::Sort => Some(Breaker::Sort(Sort::new(alloc))),
            Kind::MergeSorted => Some(Breaker::MergeSorted(MergeSorted::new(alloc))),
            Kind::Csv
            | Kind::List
            | Kind::Numbers
            | Kind::Filter
            | Kind::Expression
            | Kind::Resize
            | Kind::Limit
            | Kind::Collect => None,
        }
    }
}

/// A call of the processor that it is.
macro_rules! of_each {
    ($one:expr, $processor:ident => $call:expr) => {
        match $one {
            Breaker::PartialAggregate($processor) => $call,
            Breaker::MergeAggregate($processor) => $call,
            Breaker::HashJoin($processor) => $call,
            Breaker::Sort($processor) => $call,
            Breaker::MergeSorted($processor) => $call,
        }
    };
}

impl Processor for Breaker {
    ghost seen = { elim [
      | breaker.PartialAggregate p ↦ view_seen kind.PartialAggregate p
      | breaker.MergeAggregate p ↦ view_seen kind.MergeAggregate p
      | breaker.HashJoin p ↦ view_seen kind.HashJoin p
      | breaker.Sort p ↦ view_seen kind.Sort p
      | breaker.MergeSorted p ↦ view_seen kind.MergeSorted p
    ] };

    ghost position = { λ s. None };

    fn kind(&self) -> Kind {
        of_each!(self, processor => processor.kind())
    }

    fn load(&mut self, spec: Spec) -> Result<(), LoadRefusal> {
        of_each!(self, processor => processor.load(spec))
    }

    fn prepare(&mut self, view: &mut PortView) -> Status {
        of_each!(self, processor => processor.prepare(view))
    }

    fn work(&mut self) -> Result<(), WorkFault> {
        of_each!(self, processor => processor.work())
    }

    fn schedule(&mut self) -> Result<Wake, WorkFault> {
        of_each!(self, processor => processor.schedule())
    }

    fn expand(&mut self) -> Result<Growth, WorkFault> {
        of_each!(self, processor => processor.expand())
    }

    fn take_rows(&mut self) -> Vec<Chunk> {
        of_each!(self, processor => processor.take_rows())
    }

    fn unload(&mut self) {
        of_each!(self, processor => processor.unload())
    }
}
