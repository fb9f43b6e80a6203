ghost use Rattle.std.specs.Prelude.{◌≡◌, ◌+◌, ◌<◌, ◌≤◌, ◌++◌, true, false, is_some, IfOk, OnOk, OnErr, IfErr, replicate, vec_capacity, vec_len};
ghost use Rattle.port_word.specs.Names.{input_at, output_at, in_count, out_count, holds_data, is_in_finished, can_push, is_out_finished, new_input, no_flags, new_picture, after_pull, after_need, after_close, after_push, after_finish, after_grow, TakesFirstAction, MaySee, after_see, IsSound};

use crate::flags::{Action, Flags, Port};
use crate::notes::{note, note_want};
use chunk_data::{Chunk, Memory};
use std::alloc::Global;
use std::marker::Model;

/// An input: its flags, and its chunk from when it is seen until this node pulls it.
#[derive(Drop)]
pub struct InputPort {
    pub flags: Flags,
    pub chunk: Option<Chunk>,
}

/// A node's picture of its ports. Every number of a port is in range as a condition. No call but
/// `new` and `grow` takes memory.
#[derive(Drop)]
pub struct PortView {
    inputs: Vec<InputPort>,
    outputs: Vec<Flags>,
    actions: Vec<Action>,
}

impl Model for PortView {
    ghost use Rattle.std.specs.Prelude.{vec_capacity};
    ghost use Rattle.port_word.specs.Pictures.{Picture};
    ghost use Rattle.port_word.specs.Sound.{Fits};

    ghost Value = { Picture };

    ghost view = { λ v.
        record { inputs = v.inputs.items; outputs = v.outputs.items; actions = v.actions.items } };

    ghost invariant = { λ v. Fits (record {
      inputs = v.inputs.items;
      outputs = v.outputs.items;
      actions = v.actions.items;
    }) (vec_capacity v.actions) };
}

const NO_FLAGS: Flags = Flags {
    needed: false,
    has_data: false,
    fin_out: false,
    fin_in: false,
};

impl PortView {
    /// So many ports, with no flag set; at most 32 inputs and 16 outputs.
    pub fn new(alloc: Global, inputs: usize, outputs: usize) -> Result<PortView, Memory>
        requires few_inputs { inputs ≤ 32 }
        requires few_outputs { outputs ≤ 16 }
        ensures { IfOk result (λ v. v ≡ new_picture inputs outputs) }
    {
        let mut ins = Vec::with_capacity(alloc, inputs)?;
        add_inputs(&mut ins, inputs);
        let mut outs = Vec::with_capacity(alloc, outputs)?;
        add_outputs(&mut outs, outputs);
        let actions = Vec::with_capacity(alloc, 5 * inputs.max(outputs))?;
        Ok(PortView {
            inputs: ins,
            outputs: outs,
            actions,
        })
    }

    pub fn inputs(&self) -> usize
        ensures count { result ≡ in_count self.now }
        ensures few { result ≤ 32 }
        ensures sound { IsSound self.now }
    {
        self.inputs.len()
    }

    pub fn outputs(&self) -> usize
        ensures count { result ≡ out_count self.now }
        ensures few { result ≤ 16 }
    {
        self.outputs.len()
    }

    /// The flags of the input, as last seen and changed by this node.
    pub fn input_flags(&self, i: usize) -> Flags
        requires { i < in_count self.now }
        ensures { result ≡ (input_at self.now i).flags }
    {
        self.inputs[i].flags
    }

    /// The flags of the output, as last seen and changed by this node.
    pub fn output_flags(&self, o: usize) -> Flags
        requires { o < out_count self.now }
        ensures { result ≡ output_at self.now o }
    {
        self.outputs[o]
    }

    /// Whether a chunk can be pulled; false on an input that this node closed.
    pub fn has_data(&self, i: usize) -> bool
        requires { i < in_count self.now }
        ensures { result ≡ holds_data (input_at self.now i).flags }
    {
        let flags = self.inputs[i].flags;
        flags.has_data && !flags.fin_in
    }

    /// Whether this node closed the input, or it is finished and no data is left.
    pub fn in_finished(&self, i: usize) -> bool
        requires { i < in_count self.now }
        ensures { result ≡ is_in_finished (input_at self.now i).flags }
    {
        let flags = self.inputs[i].flags;
        flags.fin_in || (flags.fin_out && !flags.has_data)
    }

    /// Takes the chunk that lies at the input, if it has data.
    pub fn pull(&mut self, i: usize) -> Option<Chunk>
        requires { i < in_count self.old }
        ensures found { is_some result ≡ holds_data (input_at self.old i).flags }
        ensures taken { is_some result ≡ true → result ≡ (input_at self.old i).chunk }
        ensures after { self.new ≡ after_pull self.old i }
    {
        let port = &mut self.inputs[i];
        if !port.flags.has_data || port.flags.fin_in {
            return None;
        }
        port.flags.has_data = false;
        let chunk = port.chunk.take();
        note(&mut self.actions, Action::Pull(i));
        chunk
    }

    /// Asks for a chunk at the input.
    pub fn set_needed(&mut self, i: usize)
        requires { i < in_count self.old }
        ensures { self.new ≡ after_need self.old i true }
    {
        let port = &mut self.inputs[i];
        if port.flags.fin_in || port.flags.needed {
            return;
        }
        port.flags.needed = true;
        note_want(&mut self.actions, i, true);
    }

    /// Asks for no more chunk at the input.
    pub fn set_not_needed(&mut self, i: usize)
        requires { i < in_count self.old }
        ensures { self.new ≡ after_need self.old i false }
    {
        let port = &mut self.inputs[i];
        if port.flags.fin_in || !port.flags.needed {
            return;
        }
        port.flags.needed = false;
        note_want(&mut self.actions, i, false);
    }

    /// Closes the input: this node pulls nothing from it any more. A chunk that lies there is
    /// dropped with the view.
    pub fn close(&mut self, i: usize)
        requires { i < in_count self.old }
        ensures { self.new ≡ after_close self.old i }
    {
        let port = &mut self.inputs[i];
        if port.flags.fin_in {
            return;
        }
        port.flags.fin_in = true;
        note(&mut self.actions, Action::Close(i));
    }

    /// Whether the output is needed, has no data, and this node hasn't finished it.
    pub fn can_push(&self, o: usize) -> bool
        requires { o < out_count self.now }
        ensures { result ≡ can_push (output_at self.now o) }
    {
        let flags = self.outputs[o];
        flags.needed && (!flags.has_data && !flags.fin_out)
    }

    /// Whether either end finished the output.
    pub fn out_finished(&self, o: usize) -> bool
        requires { o < out_count self.now }
        ensures { result ≡ is_out_finished (output_at self.now o) }
    {
        let flags = self.outputs[o];
        flags.fin_out || flags.fin_in
    }

    /// Pushes the chunk; where `can_push` is false it is handed back.
    pub fn push(&mut self, o: usize, chunk: Chunk) -> Result<(), Chunk>
        requires { o < out_count self.old }
        ensures ok { OnOk result (can_push (output_at self.old o) ≡ true) }
        ensures refused { OnErr result (can_push (output_at self.old o) ≡ false) }
        ensures handed_back { IfErr result (λ c. c ≡ chunk) }
        ensures after { self.new ≡ after_push self.old o chunk }
    {
        let port = &mut self.outputs[o];
        if !port.needed || port.has_data || port.fin_out {
            return Err(chunk);
        }
        port.has_data = true;
        note(&mut self.actions, Action::Push(o, chunk));
        Ok(())
    }

    /// Finishes the output: this node pushes nothing to it any more.
    pub fn finish(&mut self, o: usize)
        requires { o < out_count self.old }
        ensures { self.new ≡ after_finish self.old o }
    {
        let port = &mut self.outputs[o];
        if port.fin_out || port.fin_in {
            return;
        }
        port.fin_out = true;
        note(&mut self.actions, Action::Finish(o));
    }

    /// Brings a port up to date with what the executor read of it.
    pub fn see(&mut self, port: Port, flags: Flags, chunk: Option<Chunk>)
        requires { MaySee self.old port flags chunk }
        ensures after { self.new ≡ after_see self.old port flags chunk }
        ensures sound { IsSound self.new }
    {
        match port {
            Port::Input(i) => {
                let input = &mut self.inputs[i];
                input.flags = flags;
                if let Some(c) = chunk {
                    input.chunk = Some(c);
                }
            }
            Port::Output(o) => self.outputs[o] = flags,
        }
    }

    /// Adds ports behind those that are there, up to these counts; after an error nothing has
    /// changed.
    pub fn grow(&mut self, inputs: usize, outputs: usize) -> Result<(), Memory>
        requires more_inputs { in_count self.old ≤ inputs }
        requires more_outputs { out_count self.old ≤ outputs }
        requires few_inputs { inputs ≤ 32 }
        requires few_outputs { outputs ≤ 16 }
        ensures ok { OnOk result (self.new ≡ after_grow self.old inputs outputs) }
        ensures err { OnErr result (self.new ≡ self.old) }
    {
        let more_inputs = inputs - self.inputs.len();
        let more_outputs = outputs - self.outputs.len();
        self.inputs.reserve(more_inputs)?;
        self.outputs.reserve(more_outputs)?;
        let room = 5 * inputs.max(outputs);
        self.actions
            .reserve(room.saturating_sub(self.actions.len()))?;
        add_inputs(&mut self.inputs, more_inputs);
        add_outputs(&mut self.outputs, more_outputs);
        Ok(())
    }

    /// Takes the first action that hasn't been taken yet.
    pub fn next_action(&mut self) -> Option<Action>
        ensures taken { TakesFirstAction self.old result self.new }
        ensures sound { IsSound self.new }
    {
        if self.actions.is_empty() {
            return None;
        }
        Some(self.actions.remove(0))
    }
}

/// Adds inputs with no flag set, in room that is there.
fn add_inputs(ports: &mut Vec<InputPort>, more: usize)
    requires { vec_len ports.old + more ≤ vec_capacity ports.old }
    ensures { ports.new.items ≡ ports.old.items ++ replicate more new_input }
{
    for _i in 0..more {
        let _ = ports.push(InputPort {
            flags: NO_FLAGS,
            chunk: None,
        });
    }
}

/// Adds outputs with no flag set, in room that is there.
fn add_outputs(ports: &mut Vec<Flags>, more: usize)
    requires { vec_len ports.old + more ≤ vec_capacity ports.old }
    ensures { ports.new.items ≡ ports.old.items ++ replicate more no_flags }
{
    for _o in 0..more {
        let _ = ports.push(NO_FLAGS);
    }
}
