ghost use Rattle.csv_procs.specs.Names.{seen_by};
ghost use Rattle.query_model.specs.declared.processor_spec.Kind.TheVariants as kind;
ghost use Rattle.qrun.specs.declared.real_source.RealSource.TheVariants as source;

use chunk_data::Chunk;
use csv_procs::{CsvSource, ListSource};
use outside_io::RealFiles;
use port_word::PortView;
use proc_api::{Growth, LoadRefusal, Processor, Status, Wake, WorkFault};
use query_model::processor_spec::{Kind, Spec};

/// A processor that reads a part, or a list of parts, from files of the system: one type of box for
/// both, as `Breaker` is for its kinds.
#[derive(Drop)]
pub(crate) enum RealSource {
    Part(CsvSource<RealFiles<HostRuntime>>),
    List(ListSource<RealFiles<HostRuntime>>),
}

/// A call of the processor that it is.
macro_rules! of_each {
    ($one:expr, $processor:ident => $call:expr) => {
        match $one {
            RealSource::Part($processor) => $call,
            RealSource::List($processor) => $call,
        }
    };
}

impl Processor for RealSource {
    ghost seen = { elim [
      | source.Part p ↦ seen_by kind.Csv p
      | source.List p ↦ seen_by kind.List p
    ] };

    ghost position = { elim [
      | source.Part p ↦ p.position
      | source.List p ↦ p.position
    ] };

    fn kind(&self) -> Kind {
        of_each!(self, processor => processor.kind())
    }

    fn load(&mut self, spec: Spec) -> Result<(), LoadRefusal> {
        of_each!(self, processor => processor.load(spec))
    }

    fn prepare(&mut self, view: &mut PortView) -> Status {
        of_each!(self, processor => processor.prepare(view))
    }

    fn work(&mut self) -> Result<(), WorkFault> {
        of_each!(self, processor => processor.work())
    }

    fn schedule(&mut self) -> Result<Wake, WorkFault> {
        of_each!(self, processor => processor.schedule())
    }

    fn expand(&mut self) -> Result<Growth, WorkFault> {
        of_each!(self, processor => processor.expand())
    }

    fn take_rows(&mut self) -> Vec<Chunk> {
        of_each!(self, processor => processor.take_rows())
    }

    fn unload(&mut self) {
        of_each!(self, processor => processor.unload())
    }
}
