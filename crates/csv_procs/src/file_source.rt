ghost use Rattle.std.specs.Prelude.{◌≡◌};
ghost use Rattle.csv_procs.specs.Names.{MaySchedule, ShellNotes, shell_state};

use crate::file_kernel::FileKernel;
use chunk_data::Chunk;
use outside_io::FileReader;
use port_word::PortView;
use proc_api::{Growth, LoadRefusal, Processor, PulledRows, Status, Wake, WorkFault};
use proc_shell::{Kernel, Loaded, begun};
use query_model::processor_spec::{Kind, Spec};
use std::alloc::Global;
use std::marker::Model;

/// A source, which reads its file by a reader.
#[derive(Drop)]
pub struct FileSource<R: FileReader, K: FileKernel> {
    alloc: Global,
    reader: R,
    pulled: PulledRows,
    loaded: Option<Loaded<K>>,
}

impl<R: FileReader, K: FileKernel> Model for FileSource<R, K> {
    ghost use Rattle.csv_procs.specs.Names.{PartMatchesReader, SourceView, codes, files_of, option_map, shell_state};
    ghost use Rattle.query_model.specs.contracts.processor_spec.Spec as spec;

    ghost Value = { SourceView };

    ghost coded = { Prim.hlevel (codes, spec.the_row.coded) };

    ghost view = { λ s. record {
      files = option_map files_of (R.reader s.reader).files;
      faults = (R.reader s.reader).faults;
      pendings = (R.reader s.reader).pendings;
      position = (R.reader s.reader).position;
      count = s.pulled;
      loaded = option_map (λ l. shell_state (K.state l.kernel) l.held l.notes) s.loaded;
    } };

    ghost invariant = { λ s. PartMatchesReader (R.reader s.reader).files
        (R.reader s.reader).position
        (option_map (λ l. shell_state (K.state l.kernel) l.held l.notes) s.loaded) };
}

impl<R: FileReader, K: FileKernel> FileSource<R, K> {
    ghost use Rattle.csv_procs.specs.Names.{IsUnloadedProcessor, files_of, option_map, seen_by};

    /// A blank source, which reads by this reader.
    pub fn new(alloc: Global, reader: R) -> FileSource<R, K>
        ensures blank { IsUnloadedProcessor K.kind_is (seen_by K.kind_is result) }
        ensures files { result.files ≡ option_map files_of (R.reader reader).files }
        ensures faults { result.faults ≡ (R.reader reader).faults }
        ensures pendings { result.pendings ≡ (R.reader reader).pendings }
    {
        FileSource {
            alloc,
            reader,
            pulled: PulledRows::new(),
            loaded: None,
        }
    }
}

// Keeps what a step of the fetch answers.
fn keep_fed<K: Kernel>(
    loaded: &mut Loaded<K>,
    fed: Result<Wake, WorkFault>,
) -> Result<Wake, WorkFault>
    requires { MaySchedule loaded.old.notes.answer }
    ensures notes { ShellNotes fed
        (shell_state (K.state loaded.old.kernel) loaded.old.held loaded.old.notes)
        (shell_state (K.state loaded.new.kernel) loaded.new.held loaded.new.notes) }
    ensures same { result ≡ fed }
{
    match fed {
        Ok(wake) => {
            loaded.wake(wake);
            Ok(wake)
        }
        Err(fault) => Err(loaded.fail(fault)),
    }
}

impl<R: FileReader, K: FileKernel + Send> Processor for FileSource<R, K> {
    ghost use Rattle.csv_procs.specs.Names.{seen_by};

    ghost seen = { seen_by K.kind_is };

    ghost position = { λ s. s.position };

    fn kind(&self) -> Kind {
        K::kind()
    }

    fn load(&mut self, spec: Spec) -> Result<(), LoadRefusal> {
        if self.loaded.is_some() {
            return Err(LoadRefusal::NotBlank);
        }
        if spec.kind() != K::kind() {
            return Err(LoadRefusal::WrongKind);
        }
        match begun::<K>(self.alloc, spec) {
            Ok(loaded) => {
                self.pulled.begin();
                self.loaded = Some(loaded);
                Ok(())
            }
            Err(_) => Err(LoadRefusal::Memory),
        }
    }

    fn prepare(&mut self, view: &mut PortView) -> Status {
        match &mut self.loaded {
            Some(loaded) => loaded.prepare(view, &mut self.pulled),
            None => unreachable!(),
        }
    }

    fn work(&mut self) -> Result<(), WorkFault> {
        match &mut self.loaded {
            Some(loaded) => loaded.work(self.alloc),
            None => unreachable!(),
        }
    }

    fn schedule(&mut self) -> Result<Wake, WorkFault> {
        match &mut self.loaded {
            Some(loaded) => {
                let fed = loaded
                    .kernel
                    .feed(self.alloc, &mut self.reader, &mut loaded.notes);
                keep_fed(loaded, fed)
            }
            None => unreachable!(),
        }
    }

    fn expand(&mut self) -> Result<Growth, WorkFault> {
        match &mut self.loaded {
            Some(loaded) => match loaded.kernel.grow(self.alloc) {
                Ok(growth) => {
                    loaded.notes.note_act();
                    Ok(growth)
                }
                Err(_) => Err(loaded.fail(WorkFault::Memory)),
            },
            None => unreachable!(),
        }
    }

    fn take_rows(&mut self) -> Vec<Chunk> {
        Vec::new(self.alloc)
    }

    fn unload(&mut self) {
        self.reader.shut();
        self.loaded = None;
    }
}
