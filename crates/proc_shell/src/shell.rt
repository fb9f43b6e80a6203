use crate::kernel::Kernel;
use crate::loaded::{Loaded, begun};
use chunk_data::Chunk;
use port_word::PortView;
use proc_api::{Growth, LoadRefusal, Processor, PulledRows, Status, Wake, WorkFault};
use query_model::processor_spec::{Kind, Spec};
use std::alloc::Global;
use std::marker::Model;

/// A processor that does what its kernel does.
#[derive(Drop)]
pub struct Shell<K: Kernel> {
    alloc: Global,
    pulled: PulledRows,
    loaded: Option<Loaded<K>>,
}

impl<K: Kernel> Model for Shell<K> {
    ghost use Rattle.proc_shell.specs.Names.{ShellView, codes, option_map, shell_state};
    ghost use Rattle.query_model.specs.contracts.processor_spec.Spec as spec;

    ghost Value = { ShellView };

    ghost coded = { Prim.hlevel (codes, spec.the_row.coded) };

    ghost view = { λ s. record {
      count = s.pulled;
      loaded = option_map (λ l. shell_state (K.state l.kernel) l.held l.notes) s.loaded;
    } };
}

impl<K: Kernel> Shell<K> {
    ghost use Rattle.proc_shell.specs.Names.{IsUnloadedProcessor, view_seen};

    /// A blank processor of the kernel's kind.
    pub fn new(alloc: Global) -> Shell<K>
        ensures { IsUnloadedProcessor K.kind_is (view_seen K.kind_is result) }
    {
        Shell {
            alloc,
            pulled: PulledRows::new(),
            loaded: None,
        }
    }
}

impl<K: Kernel + Send> Processor for Shell<K> {
    ghost use Rattle.proc_shell.specs.Names.{None, view_seen};

    ghost seen = { view_seen K.kind_is };

    ghost position = { λ s. None };

    fn kind(&self) -> Kind {
        K::kind()
    }

    fn load(&mut self, spec: Spec) -> Result<(), LoadRefusal> {
        if self.loaded.is_some() {
            return Err(LoadRefusal::NotBlank);
        }
        if spec.kind() != K::kind() {
            return Err(LoadRefusal::WrongKind);
        }
        match begun::<K>(self.alloc, spec) {
            Ok(loaded) => {
                self.pulled.begin();
                self.loaded = Some(loaded);
                Ok(())
            }
            Err(_) => Err(LoadRefusal::Memory),
        }
    }

    fn prepare(&mut self, view: &mut PortView) -> Status {
        match &mut self.loaded {
            Some(loaded) => loaded.prepare(view, &mut self.pulled),
            None => unreachable!(),
        }
    }

    // Its rows are of no file that could be bad.
    fn work(&mut self) -> Result<(), WorkFault> {
        match &mut self.loaded {
            Some(loaded) => loaded.work(self.alloc),
            None => unreachable!(),
        }
    }

    // It never answers Async or ExpandPipeline, so that no executor calls the next two.
    fn schedule(&mut self) -> Result<Wake, WorkFault> {
        match &mut self.loaded {
            Some(loaded) => Err(loaded.fail(WorkFault::Memory)),
            None => unreachable!(),
        }
    }

    fn expand(&mut self) -> Result<Growth, WorkFault> {
        match &mut self.loaded {
            Some(loaded) => Err(loaded.fail(WorkFault::Memory)),
            None => unreachable!(),
        }
    }

    fn take_rows(&mut self) -> Vec<Chunk> {
        match &mut self.loaded {
            Some(loaded) => loaded.hand_out(self.alloc),
            None => Vec::new(self.alloc),
        }
    }

    fn unload(&mut self) {
        self.loaded = None;
    }
}
