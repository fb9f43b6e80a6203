ghost use Rattle.std.specs.Prelude.{◌≡◌};
ghost use Rattle.proc_shell.specs.Names.{Fails, IfErr, IfOk, IsBegun, IsKernelOf, IsLeftOf, OnOk, WorksHeld, [], held_made, is_wanted, kind_of, may_hold, shell_state, true};

use crate::held::{Held, held_of, unworked_of};
use crate::kernel::Kernel;
use crate::turns::move_chunks;
use chunk_data::{Chunk, Memory};
use port_word::PortView;
use proc_api::{BoxNotes, PulledRows, Status, Wake, WorkFault, kind_row, shut_down};
use query_model::processor_spec::Spec;
use std::alloc::Global;
use std::mem::replace;

/// A kernel, the chunk that is held for it, and what is noted.
#[derive(Drop)]
pub struct Loaded<K: Kernel> {
    pub kernel: K,
    pub held: Held,
    pub notes: BoxNotes,
    ghost ready: { may_hold notes.answer notes.acted held ≡ true },
    ghost wanted: { is_wanted (K.open_to kernel) K.makes held ≡ true },
}

/// A kernel that was loaded, with nothing held.
pub fn begun<K: Kernel>(alloc: Global, spec: Spec) -> Result<Loaded<K>, Memory>
    requires { kind_of spec ≡ K.kind_is }
    ensures { IfOk result (λ l. IsBegun spec (shell_state (K.state l.kernel) l.held l.notes)) }
{
    let notes = BoxNotes::new(alloc)?;
    let kernel = K::begin(alloc, spec)?;
    Ok(Loaded {
        kernel,
        held: Held::Nothing,
        notes,
    })
}

// What is held after a work.
fn held_after_work<K: Kernel>(alloc: Global, kernel: &mut K, held: Held) -> Result<Held, WorkFault>
    requires wanted { is_wanted (K.open_to kernel.old) K.makes held ≡ true }
    requires due { held_made held ≡ [] }
    ensures same { OnOk result (IsKernelOf (K.state kernel.old) (K.state kernel.new)) }
    ensures left { IsLeftOf (K.state kernel.old) (K.state kernel.new) }
    ensures wanted { IfOk result (λ h. is_wanted (K.open_to kernel.new) K.makes h ≡ true) }
    ensures works { IfOk result (WorksHeld (K.state kernel.old) held (K.state kernel.new).own) }
    ensures fails { IfErr result (Fails (K.state kernel.old)) }
{
    match held {
        Held::Nothing => Ok(held_of(kernel.make(alloc)?)),
        Held::Unworked(input, chunk) => match kernel.take(alloc, input, chunk) {
            Ok(made) => Ok(held_of(made)),
            Err(_) => Err(WorkFault::Memory),
        },
        Held::Made(_) => unreachable!(),
    }
}

impl<K: Kernel> Loaded<K> {
    ghost use Rattle.std.specs.Prelude.{◌≡◌};
    ghost use Rattle.proc_shell.specs.Names.{Err, Fails, IfErr, MaySchedule, MayWork, Ok, OnOk, ShellFails, ShellGives, ShellNotes, ShellPrepares, ShellWorks, false, shell_state};

    /// Prepares it; over a view with other ports than its spec's it shuts down.
    pub fn prepare(&mut self, view: &mut PortView, pulled: &mut PulledRows) -> Status
        ensures { ShellPrepares K.kind_is
            (shell_state (K.state self.old.kernel) self.old.held self.old.notes) view.old pulled.old
            (shell_state
            (K.state self.new.kernel) self.new.held self.new.notes) view.new pulled.new result }
    {
        if !self.kernel.fits(view.inputs(), view.outputs()) {
            shut_down(view);
            self.notes.note_misfit();
            pulled.add(0);
            self.notes.note_view(view, Status::Finished);
            return Status::Finished;
        }
        let status = move_chunks(&mut self.kernel, &mut self.held, view, pulled);
        self.notes.note_view(view, status);
        status
    }

    /// Works what is held, or makes rows.
    pub fn work(&mut self, alloc: Global) -> Result<(), WorkFault>
        requires ready { MayWork self.old.notes.answer }
        requires once { self.old.notes.acted ≡ false }
        ensures ok { OnOk result
            (ShellWorks K.kind_is (shell_state (K.state self.old.kernel) self.old.held
            self.old.notes) (shell_state (K.state self.new.kernel) self.new.held self.new.notes)) }
        ensures fault { IfErr result
            (λ f. ShellFails f (shell_state (K.state self.old.kernel) self.old.held
            self.old.notes) (shell_state (K.state self.new.kernel) self.new.held self.new.notes)) }
        ensures fails { IfErr result (Fails (K.state self.old.kernel)) }
    {
        let held = replace(&mut self.held, Held::Nothing);
        match held_after_work(alloc, &mut self.kernel, held) {
            Ok(held) => {
                self.held = held;
                self.notes.note_act();
                Ok(())
            }
            Err(fault) => Err(self.fail(fault)),
        }
    }

    /// Keeps a fault.
    pub fn fail(&mut self, fault: WorkFault) -> WorkFault
        ensures notes { ShellNotes (Err fault) (shell_state (K.state self.old.kernel) self.old.held
            self.old.notes) (shell_state (K.state self.new.kernel) self.new.held self.new.notes) }
        ensures same { result ≡ fault }
    {
        self.notes.note_fault(fault);
        fault
    }

    /// Keeps what a schedule answers.
    pub fn wake(&mut self, wake: Wake)
        requires { MaySchedule self.old.notes.answer }
        ensures { ShellNotes (Ok wake)
            (shell_state (K.state self.old.kernel) self.old.held self.old.notes)
            (shell_state (K.state self.new.kernel) self.new.held self.new.notes) }
    {
        self.notes.note_wake(wake);
    }

    /// Hands out what a collector gathered; none of another kind.
    pub fn hand_out(&mut self, alloc: Global) -> Vec<Chunk>
        requires { (K.state self.old.kernel).stage.handed_out ≡ false }
        ensures { ShellGives K.kind_is
            (shell_state (K.state self.old.kernel) self.old.held self.old.notes)
            result.items (shell_state (K.state self.new.kernel) self.new.held self.new.notes) }
    {
        if !kind_row(K::kind()).hands_out {
            return Vec::new(alloc);
        }
        let last = unworked_of(replace(&mut self.held, Held::Nothing));
        self.kernel.hand_out(alloc, last)
    }
}
