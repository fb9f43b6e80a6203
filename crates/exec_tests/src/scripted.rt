// Processors that keep to a script, and not to the contract of their kind.
ghost use Rattle.std.specs.Prelude.{◌≡◌, ◌<◌, IfOk};
ghost use Rattle.port_word.specs.Names.{in_count, ChangedByCalls};
ghost use Rattle.proc_api.specs.Forms.{growth_form};
ghost use Rattle.proc_api.specs.Names.{ReadsPart, no_notes};
ghost use Rattle.exec_tests.specs.Scripts.{script_growth, script_spec, test_part};

use chunk_data::{Bytes, Chunk, List, Memory};
use port_word::PortView;
use proc_api::{
    BadField, BadPlace, BoxNotes, Edge, End, GrowNode, Growth, LoadRefusal, Processor, Status,
    Wake, Who, WorkFault,
};
use query_model::processor_spec::{Kind, PartSpec, Spec};
use std::alloc::Global;
use std::mem::replace;
use std::process::Abort;
use std::sync::Arc;
use std::sync::atomic::{AtomicBool, AtomicU64, Ordering};
use std::test::Fail;

/// What a test processor does when it is prepared.
#[derive(Clone, Copy)]
pub(crate) enum Role {
    /// Gives as many chunks as it has, and finishes.
    Give,
    /// Is ready, and answers a fault.
    Fail,
    /// Takes each chunk.
    Take,
    /// Takes a chunk, is ready, and answers a fault.
    Work,
    /// Answers that it needs data, and asks for none.
    Balk,
    /// Is ready, works once, which asks that it meets another there, and then gives.
    Meet,
    /// Lets the graph grow by an edge from itself to itself.
    Loop,
    /// Lets the graph grow by a source that is joined to its first input.
    Source,
}

/// Where two boxes meet that work at the same time.
#[derive(Drop)]
pub(crate) struct Gate {
    pub own: Arc<AtomicBool, Global>,
    pub other: Arc<AtomicBool, Global>,
    pub prepared: Arc<AtomicU64, Global>,
}

impl Gate {
    /// Tells that its box works, and looks a while for the other.
    fn is_met(&self) -> bool {
        self.own.store(true, Ordering::SeqCst);
        for _turn in 0..100_000_000 {
            if self.other.load(Ordering::SeqCst) {
                return true;
            }
        }
        false
    }
}

#[derive(Drop)]
pub(crate) struct Scripted<R> {
    kind: Kind,
    role: Role,
    pub gate: Option<Gate>,
    loaded: bool,
    /// Whether its part is a list of parts.
    lists: bool,
    part: Option<PartSpec>,
    /// Whether it grows by a source, and whether it has grown.
    adds: bool,
    grown: bool,
    chunks: Vec<Chunk>,
    notes: BoxNotes,
    rt: R,
}

impl<R: Abort + AllocGlobal + Drop + Send> Processor for Scripted<R> {
    ghost use Rattle.std.specs.Prelude.{false, Some, None, if◌then◌else◌};
    ghost use Rattle.proc_api.specs.Boxes.{idle_work};
    ghost use Rattle.exec_tests.specs.Scripts.{script_growth, script_spec};

    ghost seen = { λ p. record {
      kind = p.kind;
      lawful = false;
      files = None;
      spec = if p.loaded then Some (script_spec p.lists p.part) else None;
      faults = 0;
      pendings = 0;
      pulled = 0;
      work = record idle_work { gathered = p.chunks.items };
      notes = record p.notes { given = 0 };
      growth = if p.grown then Some (script_growth p.adds) else None;
    } };

    ghost position = { λ p. None };

    fn kind(&self) -> Kind {
        self.kind
    }

    fn load(&mut self, spec: Spec) -> Result<(), LoadRefusal> {
        if self.loaded || spec.kind() != self.kind {
            self.rt.abort()
        }
        let (lists, part) = part_of(&self.rt, spec);
        self.lists = lists;
        self.part = part;
        self.loaded = true;
        self.grown = false;
        self.notes = new_notes(&self.rt);
        Ok(())
    }

    fn prepare(&mut self, view: &mut PortView) -> Status {
        if let Some(gate) = &self.gate {
            gate.prepared.fetch_add(1, Ordering::Relaxed);
        }
        let status = match self.role {
            Role::Give => give(&mut self.chunks, view),
            Role::Fail | Role::Meet => Status::Ready,
            Role::Take => take(&self.rt, &mut self.chunks, view, false),
            Role::Work => take(&self.rt, &mut self.chunks, view, true),
            Role::Balk => Status::NeedData,
            Role::Loop | Role::Source => Status::ExpandPipeline,
        };
        self.notes.note_view(view, status);
        status
    }

    fn work(&mut self) -> Result<(), WorkFault> {
        must_be_source(&self.rt, self.kind);
        let fault = match &self.gate {
            Some(gate) if gate.is_met() => {
                self.role = Role::Give;
                self.notes.note_act();
                return Ok(());
            }
            Some(_) => WorkFault::Memory,
            None => WorkFault::Bad(BadPlace {
                row: 1,
                field: BadField::Fields(2),
            }),
        };
        self.notes.note_fault(fault);
        Err(fault)
    }

    fn schedule(&mut self) -> Result<Wake, WorkFault> {
        self.rt.abort()
    }

    fn expand(&mut self) -> Result<Growth, WorkFault> {
        let Ok(growth) = growth_of(self.rt.alloc(), self.adds) else {
            self.rt.abort()
        };
        self.grown = true;
        self.notes.note_act();
        Ok(growth)
    }

    fn take_rows(&mut self) -> Vec<Chunk> {
        match self.kind {
            Kind::Collect => replace(&mut self.chunks, Vec::new(self.rt.alloc())),
            _ => Vec::new(self.rt.alloc()),
        }
    }

    fn unload(&mut self) {
        self.loaded = false;
        self.grown = false;
        self.notes = new_notes(&self.rt);
    }
}

fn must_be_source(rt: &impl Abort, kind: Kind)
    ensures { ReadsPart kind }
{
    match kind {
        Kind::Csv => {}
        _ => rt.abort(),
    }
}

/// Whether a source's spec is of a list, and its part; a collector has none.
fn part_of(rt: &impl Abort, given: Spec) -> (bool, Option<PartSpec>)
    ensures { given ≡ script_spec result.0 result.1 }
{
    match given {
        Spec::Csv(part) => (false, Some(part)),
        Spec::List(part) => (true, Some(part)),
        Spec::Collect => (false, None),
        _ => rt.abort(),
    }
}

/// A growth by a source, or by an edge from the box to itself.
fn growth_of(alloc: Global, adds: bool) -> Result<Growth, Memory>
    ensures { IfOk result (λ g. growth_form g ≡ script_growth adds) }
{
    let mut nodes = List::new(alloc);
    let mut from = Who::Me;
    if adds {
        let spec = Spec::Csv(part(alloc));
        nodes = List::from_vec(vec![in alloc; GrowNode { spec, rank: 0 }]?);
        from = Who::New(0);
    }
    let edge = Edge {
        from: End { who: from, port: 0 },
        to: End {
            who: Who::Me,
            port: 0,
        },
    };
    Ok(Growth {
        nodes,
        edges: List::from_vec(vec![in alloc; edge]?),
    })
}

fn new_notes<R: Abort + AllocGlobal>(rt: &R) -> BoxNotes
    ensures { result ≡ no_notes }
{
    match BoxNotes::new(rt.alloc()) {
        Ok(notes) => notes,
        Err(_) => rt.abort(),
    }
}

fn give(chunks: &mut Vec<Chunk>, view: &mut PortView) -> Status
    ensures { ChangedByCalls view.old view.new }
{
    if view.outputs() == 0 || view.out_finished(0) {
        return Status::Finished;
    }
    if !view.can_push(0) {
        return Status::PortFull;
    }
    match chunks.pop() {
        Some(chunk) => {
            let _ = view.push(0, chunk);
            Status::PortFull
        }
        None => {
            view.finish(0);
            Status::Finished
        }
    }
}

fn take(rt: &impl Abort, chunks: &mut Vec<Chunk>, view: &mut PortView, works: bool) -> Status
    ensures { ChangedByCalls view.old view.new }
{
    if view.inputs() == 0 {
        return Status::Finished;
    }
    if let Some(chunk) = pull_and_want(view) {
        if chunks.push(chunk).is_err() {
            rt.abort()
        }
        if works {
            return Status::Ready;
        }
    }
    if view.in_finished(0) {
        Status::Finished
    } else {
        Status::NeedData
    }
}

fn pull_and_want(view: &mut PortView) -> Option<Chunk>
    requires { 0 < in_count view.old }
    ensures changed { ChangedByCalls view.old view.new }
    ensures inputs { in_count view.new ≡ in_count view.old }
{
    let found = view.pull(0);
    view.set_needed(0);
    found
}

/// A blank processor of the kind and role, with so many chunks.
pub(crate) fn make_box<R: Abort + AllocGlobal + Copy + Drop + Send>(
    rt: R,
    kind: Kind,
    role: Role,
    chunks: usize,
) -> Result<Scripted<R>, Fail> {
    let mut held = Vec::new(rt.alloc());
    for _chunk in 0..chunks {
        held.push(Chunk::new(rt.alloc(), &List::new(rt.alloc()))?)?;
    }
    Ok(Scripted {
        kind,
        role,
        gate: None,
        loaded: false,
        lists: false,
        part: None,
        adds: matches!(role, Role::Source),
        grown: false,
        chunks: held,
        notes: new_notes(&rt),
        rt,
    })
}

/// A part that a source may be loaded with.
pub(crate) fn part(alloc: Global) -> PartSpec
    ensures { result ≡ test_part }
{
    PartSpec {
        table: 0,
        part: 1,
        path: Bytes::new(alloc),
        types: List::new(alloc),
        header: false,
        rows: 1,
    }
}
