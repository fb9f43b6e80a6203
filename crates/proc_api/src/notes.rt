ghost use Rattle.std.specs.Prelude.{◌≡◌, ◌≤◌};
ghost use Rattle.proc_api.specs.Names.{IfOk, PortFlags, Prepared, Scheduled, Some, all_port_flags, false, in_count, no_notes, out_count, raised, true, vec_capacity};

use crate::status::{Answer, Status, Wake, WorkFault};
use chunk_data::Memory;
use port_word::{Flags, PortView};
use std::alloc::Global;
use std::marker::Model;

/// What a processor keeps from `load` on beside its state, but for the count of pulled rows, which
/// outlives a load. It takes its room at once, so that `prepare` needs none.
#[derive(Drop)]
pub struct BoxNotes {
    viewed: bool,
    inputs: Vec<Flags>,
    outputs: Vec<Flags>,
    given: u64,
    faults: u64,
    pendings: u64,
    answer: Option<Answer>,
    acted: bool,
    fault: Option<WorkFault>,
    fits: bool,
}

impl Model for BoxNotes {
    ghost use Rattle.std.specs.Prelude.{if◌then◌else◌, ◌≤◌};
    ghost use Rattle.proc_api.specs.Names.{None, Notes, Some, vec_capacity};

    ghost Value = { Notes };

    ghost view = { λ n. record {
      given = n.given;
      faults = n.faults;
      pendings = n.pendings;
      pulled = 0;
      answer = n.answer;
      acted = n.acted;
      fault = n.fault;
      view = if n.viewed
          then Some (record { inputs = n.inputs.items; outputs = n.outputs.items }) else None;
      fits = n.fits;
    } };

    ghost invariant = { λ n. (32 ≤ vec_capacity n.inputs) × (16 ≤ vec_capacity n.outputs) };
}

impl BoxNotes {
    pub fn new(alloc: Global) -> Result<BoxNotes, Memory>
        ensures { IfOk result (λ n. n ≡ no_notes) }
    {
        let inputs = Vec::with_capacity(alloc, 32)?;
        let outputs = Vec::with_capacity(alloc, 16)?;
        Ok(BoxNotes {
            viewed: false,
            inputs,
            outputs,
            given: 0,
            faults: 0,
            pendings: 0,
            answer: None,
            acted: false,
            fault: None,
            fits: true,
        })
    }

    /// Keeps the flags of the view that a `prepare` leaves, and its answer.
    pub fn note_view(&mut self, view: &PortView, status: Status)
        ensures { self.new ≡ record self.old {
          view = Some (all_port_flags view.now);
          answer = Some (Prepared status);
          acted = false;
        } }
    {
        copy_inputs(&mut self.inputs, view);
        copy_outputs(&mut self.outputs, view);
        self.viewed = true;
        self.answer = Some(Answer::Prepared(status));
        self.acted = false;
    }

    /// Keeps the fault that ends the processor's work.
    pub fn note_fault(&mut self, fault: WorkFault)
        ensures { self.new ≡ record self.old { fault = Some fault } }
    {
        self.fault = Some(fault);
    }

    pub fn note_wake(&mut self, wake: Wake)
        ensures { self.new ≡ record self.old { answer = Some (Scheduled wake); acted = false } }
    {
        self.answer = Some(Answer::Scheduled(wake));
        self.acted = false;
    }

    /// Counts bytes that the reader gave.
    pub fn note_given(&mut self, bytes: usize)
        ensures { self.new ≡ record self.old { given = raised self.old.given bytes } }
    {
        self.given = self.given.saturating_add(bytes as u64);
    }

    /// Counts a fault of the reader.
    pub fn note_failed(&mut self)
        ensures { self.new ≡ record self.old { faults = raised self.old.faults 1 } }
    {
        self.faults = self.faults.saturating_add(1);
    }

    /// Counts that the reader had nothing to give yet.
    pub fn note_pending(&mut self)
        ensures { self.new ≡ record self.old { pendings = raised self.old.pendings 1 } }
    {
        self.pendings = self.pendings.saturating_add(1);
    }

    /// How often the reader had nothing to give since `load`.
    pub fn pendings(&self) -> u64
        ensures { result ≡ self.now.pendings }
    {
        self.pendings
    }

    /// Keeps that `work` or `expand` was called on the last answer.
    pub fn note_act(&mut self)
        ensures { self.new ≡ record self.old { acted = true } }
    {
        self.acted = true;
    }

    /// Keeps that a view hadn't the ports of the processor.
    pub fn note_misfit(&mut self)
        ensures { self.new ≡ record self.old { fits = false } }
    {
        self.fits = false;
    }
}

// The flags of the view's inputs, in room that is there.
#[tactic(auto, using(crate::proofs::ViewFlags::copy_steps))]
fn copy_inputs(flags: &mut Vec<Flags>, view: &PortView)
    requires { 32 ≤ vec_capacity flags.old }
    ensures copied { flags.new.items ≡ (all_port_flags view.now).inputs }
    ensures room { 32 ≤ vec_capacity flags.new }
{
    flags.clear();
    for i in 0..view.inputs() {
        let _ = flags.push(view.input_flags(i));
    }
}

// The flags of the view's outputs, in room that is there.
#[tactic(auto, using(crate::proofs::ViewFlags::copy_steps))]
fn copy_outputs(flags: &mut Vec<Flags>, view: &PortView)
    requires { 16 ≤ vec_capacity flags.old }
    ensures copied { flags.new.items ≡ (all_port_flags view.now).outputs }
    ensures room { 16 ≤ vec_capacity flags.new }
{
    flags.clear();
    for o in 0..view.outputs() {
        let _ = flags.push(view.output_flags(o));
    }
}
