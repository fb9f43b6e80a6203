ghost use Rattle.std.specs.Prelude.{◌<◌, ◌^◌, ◌↔◌, ◌≡◌};
ghost use Rattle.csv_procs.specs.Names.{Bool, HasFitLeft, IsNextOfSource, IsSpecOf, IsTrue, csv_kind, inputs_in, kind_of, length, lists_in, max, open_in};

use crate::file_fetch::BLOCK;
use crate::file_state::FileState;
use chunk_data::{Chunk, ColumnType, Memory};
use csv_rows::RowsFault;
use port_word::PortView;
use proc_api::WorkFault;
use proc_shell::{Kernel, Offer};
use query_model::processor_spec::{Kind, PartSpec, Spec};
use std::alloc::Global;
use std::marker::PhantomData;

/// What is read: a part's rows, or a list of parts.
pub trait Sourced: Drop {
    ghost lists: { Bool };

    /// Whether it is a list.
    fn lists() -> bool
        ensures { result ≡ lists };
}

/// A part's rows.
#[derive(Clone, Copy, Drop)]
pub struct Parts;

impl Sourced for Parts {
    ghost use Rattle.std.specs.Prelude.{false};

    ghost lists = { false };

    fn lists() -> bool {
        false
    }
}

/// A list of parts.
#[derive(Clone, Copy, Drop)]
pub struct PartLists;

impl Sourced for PartLists {
    ghost use Rattle.std.specs.Prelude.{true};

    ghost lists = { true };

    fn lists() -> bool {
        true
    }
}

/// Makes rows of a part's bytes, or passes on the rows of a list's parts. One reader of a part and
/// one buffer serve for all its rows.
#[derive(Drop)]
pub struct Sourcing<S: Sourced> {
    pub(crate) part: PartSpec,
    pub(crate) state: FileState,
    /// Each block is read into it.
    pub(crate) buffer: Box<[u8; BLOCK]>,
    source: PhantomData<S>,
    ghost few: { length part.types < 2 ^ 32 },
    ghost left: { HasFitLeft part.types state },
    ghost read: { lists_in S.lists state ≡ S.lists },
}

// The kind of a source.
fn source_kind(lists: bool) -> Kind
    ensures { result ≡ csv_kind lists }
{
    if lists { Kind::List } else { Kind::Csv }
}

// The part or list of a source's spec, which is of its kind.
fn part_of<S: Sourced>(spec: Spec) -> PartSpec
    requires { kind_of spec ≡ csv_kind S.lists }
    ensures { IsSpecOf spec result }
{
    match spec {
        Spec::Csv(part) => part,
        Spec::List(list) => list,
        // The shell hands it no other kind's.
        _ => unreachable!(),
    }
}

fn same_types(types: &[ColumnType], others: &[ColumnType]) -> bool
    ensures { IsTrue result ↔ (types.now ≡ others.now) }
{
    types == others
}

// The most rows of a chunk; 0 is read as 1.
fn most_rows(rows: u32) -> usize
    ensures { result ≡ max rows 1 }
{
    if rows == 0 { 1 } else { rows as usize }
}

// How many inputs it has: those of a list that has grown.
fn inputs_of(state: &FileState) -> usize
    ensures { result ≡ inputs_in state.now }
{
    match state {
        FileState::Paths(list) => { if list.grown { list.paths.len() } else { 0 } }
        _ => 0,
    }
}

// What comes next.
fn next_of(state: &FileState) -> Offer
    ensures { IsNextOfSource state.now result }
{
    match state {
        FileState::Shut | FileState::Fetching(_) => Offer::Fetch,
        FileState::Rows(rows) => {
            if rows.is_over() {
                Offer::Wants
            } else {
                Offer::Record
            }
        }
        FileState::Paths(list) => list.next(),
    }
}

impl<S: Sourced> Kernel for Sourcing<S> {
    ghost use Rattle.csv_procs.specs.Names.{source_kinds, source_shelled, source_uses, sourcing};

    ghost kind_is = { csv_kind S.lists };

    ghost state = { λ k. sourcing S.lists k.part k.state };

    ghost open_to = { λ k i. open_in k.state };

    ghost of_kind = { λ k. source_kinds S.lists k.part k.state };

    ghost shelled = { λ k. source_shelled S.lists k.part k.state };

    ghost uses = { λ k i unworked made e m.
        source_uses S.lists k.part k.state k.read i unworked made e };

    fn kind() -> Kind {
        source_kind(S::lists())
    }

    // A column's number has 32 bits.
    fn begin(alloc: Global, spec: Spec) -> Result<Sourcing<S>, Memory> {
        let part = part_of::<S>(spec);
        if part.types.len() as u64 > u32::MAX as u64 {
            return Err(Memory);
        }
        match Box::new(alloc, [0; BLOCK]) {
            Ok(buffer) => Ok(Sourcing {
                part,
                state: FileState::Shut,
                buffer,
                source: PhantomData,
            }),
            Err(_) => Err(Memory),
        }
    }

    fn fits(&self, inputs: usize, outputs: usize) -> bool {
        inputs == inputs_of(&self.state) && outputs == 1
    }

    fn offer(&mut self, _view: &PortView) -> Offer {
        next_of(&self.state)
    }

    fn wants(&self, _input: usize) -> bool {
        match &self.state {
            FileState::Paths(list) => list.rows_left() == 0,
            _ => false,
        }
    }

    // A chunk that doesn't fit is dropped.
    fn take(
        &mut self,
        _alloc: Global,
        _input: usize,
        chunk: Chunk,
    ) -> Result<Option<Chunk>, Memory> {
        let most = most_rows(self.part.rows);
        if !same_types(chunk.types().as_slice(), self.part.types.as_slice()) {
            return Ok(None);
        }
        match &mut self.state {
            FileState::Paths(list) => {
                list.left = Some(chunk);
                let given = list.give_left(most)?;
                Ok(given)
            }
            _ => Ok(None),
        }
    }

    fn make(&mut self, alloc: Global) -> Result<Option<Chunk>, WorkFault> {
        let most = most_rows(self.part.rows);
        match &mut self.state {
            FileState::Rows(rows) => {
                if rows.is_over() {
                    return Ok(None);
                }
                match rows.next_chunk(alloc, &self.part.types, most) {
                    Ok(chunk) => Ok(Some(chunk)),
                    Err(RowsFault::Bad(place)) => Err(WorkFault::Bad(place)),
                    Err(RowsFault::Memory) => Err(WorkFault::Memory),
                }
            }
            FileState::Paths(list) => match list.bad_line {
                Some(line) => Err(WorkFault::BadList(line)),
                None => match list.give_left(most) {
                    Ok(made) => Ok(made),
                    Err(_) => Err(WorkFault::Memory),
                },
            },
            _ => Ok(None),
        }
    }

    // Only a collector's shell hands chunks out.
    fn hand_out(&mut self, alloc: Global, _last: Option<Chunk>) -> Vec<Chunk> {
        Vec::new(alloc)
    }
}
