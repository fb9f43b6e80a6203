ghost use Rattle.std.specs.Prelude.{◌≡◌, true, IfOk, IfErr, OnOk};
ghost use Rattle.chunk_data.specs.Names.{Table};
ghost use Rattle.proc_api.specs.kinds.HashJoin.{AreKeyPairs};
ghost use Rattle.proc_shell.specs.Kernels.{Makes, Takes};
ghost use Rattle.join_proc.specs.Joins.{IsIndexOf};
ghost use Rattle.join_proc.specs.Joinings.{IsJoining, IsNextOfJoin, gathered_right, join_own, joining_own, with_end};

use crate::fitting::fits_join;
use crate::join_index::JoinIndex;
use crate::left_rows::LeftRows;
use chunk_data::{Chunk, Memory};
use port_word::PortView;
use proc_api::WorkFault;
use proc_shell::{Kernel, Offer, Shell};
use query_model::processor_spec::{JoinSpec, Kind, Spec};
use std::alloc::Global;
use std::marker::Model;
use std::mem::replace;

/// Reads input 1, the JOIN table's rows, to its end, and then input 0, the FROM table's, chunk by
/// chunk to its end, also where input 1 had no rows. Each row of input 0 comes beside every row of
/// input 1 with which it agrees. It keeps the JOIN table's rows and their keys in memory, and takes
/// chunks of other types than its spec's as if they had no rows.
pub type HashJoin = Shell<Joining>;

/// How far a join has come.
#[derive(Drop)]
pub(crate) enum JoinPhase {
    /// It gathers the right side.
    Gathering(Chunk),
    /// The right side has ended.
    Ended(Chunk),
    /// The right side with its index, and the left chunk that is joined.
    Joining(JoinIndex, LeftRows),
    /// It wanted memory, and isn't asked again.
    Failed,
}

// One call in place of an assignment, since what an assignment drops is proved at each.
fn put_phase(old: &mut JoinPhase, phase: JoinPhase)
    ensures { old.new ≡ phase }
{
    *old = phase;
}

/// A join inside its shell.
#[derive(Drop)]
pub struct Joining {
    join: JoinSpec,
    phase: JoinPhase,
}

impl Model for Joining {
    ghost use Rattle.join_proc.specs.Joinings.{IsJoinPhase, JoiningView, view_of};

    ghost Value = { JoiningView };

    ghost view = { λ k. view_of k.join k.phase };

    ghost invariant = { λ k. IsJoinPhase k.join k.phase };
}

impl Joining {
    ghost use Rattle.query_model.specs.declared.processor_spec.Spec.TheVariants as spec;
    ghost use Rattle.proc_api.specs.declared.status.WorkFault.TheVariants as fault;

    // Notes that the right side has ended.
    fn note_end(&mut self)
        ensures { self.new ≡ with_end self.old }
    {
        match replace(&mut self.phase, JoinPhase::Failed) {
            JoinPhase::Gathering(rows) => put_phase(&mut self.phase, JoinPhase::Ended(rows)),
            other => put_phase(&mut self.phase, other),
        }
    }

    // Rows, if some can be made.
    fn next_offer(&self) -> Offer
        ensures { IsNextOfJoin self.now result }
    {
        match &self.phase {
            JoinPhase::Joining(_, left) => {
                if left.is_joined() {
                    Offer::Wants
                } else {
                    Offer::Rows
                }
            }
            _ => Offer::Wants,
        }
    }

    // Takes a left chunk, none of whose rows is joined yet.
    fn take_left(
        &mut self,
        alloc: Global,
        mut index: JoinIndex,
        chunk: Chunk,
    ) -> Result<Option<Chunk>, Memory>
        requires index { IsIndexOf self.old.join.pairs index }
        requires right { index.rows.types ≡ self.old.join.right }
        requires types { chunk.types ≡ self.old.join.left }
        requires pairs { AreKeyPairs self.old.join }
        ensures join { self.new.join ≡ self.old.join }
        ensures takes { IfOk result (Takes (spec.HashJoin self.old.join)
            (gathered_right index.rows) 0 chunk (join_own self.new)) }
    {
        match index.left_rows(alloc, &self.join, chunk) {
            Ok(left) => {
                put_phase(&mut self.phase, JoinPhase::Joining(index, left));
                Ok(None)
            }
            Err(memory) => Err(memory),
        }
    }

    // Makes a chunk of the rows that are left.
    fn make_some(
        &mut self,
        alloc: Global,
        index: JoinIndex,
        mut left: LeftRows,
    ) -> Result<Option<Chunk>, WorkFault>
        requires { IsJoining self.old.join index left }
        ensures join { self.new.join ≡ self.old.join }
        ensures makes { IfOk result (Makes (spec.HashJoin self.old.join)
            (joining_own self.old.join index left) (join_own self.new)) }
        ensures fails { IfErr result (λ f. f ≡ fault.Memory) }
    {
        if left.is_joined() {
            put_phase(&mut self.phase, JoinPhase::Joining(index, left));
            return Ok(None);
        }
        match left.next_chunk(alloc, &self.join, &index) {
            Ok(chunk) => {
                put_phase(&mut self.phase, JoinPhase::Joining(index, left));
                Ok(Some(chunk))
            }
            Err(_) => Err(WorkFault::Memory),
        }
    }
}

impl Kernel for Joining {
    ghost use Rattle.std.specs.Prelude.{refl};
    ghost use Rattle.query_model.specs.declared.processor_spec.Kind.TheVariants as kind;
    ghost use Rattle.join_proc.specs.Joinings.{is_open, join_shelled, join_state, join_uses};

    ghost kind_is = { kind.HashJoin };

    ghost state = { join_state };

    ghost open_to = { is_open };

    ghost shelled = { λ k. join_shelled k.join };

    ghost uses = { λ k i unworked made e m. join_uses k i unworked made e };

    ghost of_kind = { λ k. (refl, refl) };

    fn kind() -> Kind {
        Kind::HashJoin
    }

    fn begin(alloc: Global, spec: Spec) -> Result<Joining, Memory> {
        match spec {
            Spec::HashJoin(join) => match Chunk::new(alloc, &join.right) {
                Ok(rows) => Ok(Joining {
                    join,
                    phase: JoinPhase::Gathering(rows),
                }),
                Err(memory) => Err(memory),
            },
            // The shell hands it no other kind's.
            _ => unreachable!(),
        }
    }

    fn fits(&self, inputs: usize, outputs: usize) -> bool {
        inputs == 2 && outputs == 1
    }

    fn offer(&mut self, view: &PortView) -> Offer {
        if view.in_finished(1) {
            self.note_end();
            return self.next_offer();
        }
        self.next_offer()
    }

    fn wants(&self, input: usize) -> bool {
        match &self.phase {
            JoinPhase::Gathering(_) => input == 1,
            JoinPhase::Joining(_, left) => left.is_joined(),
            _ => true,
        }
    }

    fn take(&mut self, alloc: Global, input: usize, chunk: Chunk) -> Result<Option<Chunk>, Memory> {
        if !fits_join(&self.join, input, &chunk) {
            return Ok(None);
        }
        match replace(&mut self.phase, JoinPhase::Failed) {
            JoinPhase::Gathering(mut rows) => {
                // Until the right side's end is noted no left chunk is wanted.
                if input != 1 {
                    put_phase(&mut self.phase, JoinPhase::Gathering(rows));
                    return Ok(None);
                }
                match rows.append(chunk) {
                    Ok(()) => {
                        put_phase(&mut self.phase, JoinPhase::Gathering(rows));
                        Ok(None)
                    }
                    Err(_) => Err(Memory),
                }
            }
            // Once the right side's end was noted no chunk of it comes.
            _ if input != 0 => Err(Memory),
            JoinPhase::Ended(rows) => match JoinIndex::new(alloc, &self.join, rows) {
                Ok(index) => self.take_left(alloc, index, chunk),
                Err(memory) => Err(memory),
            },
            JoinPhase::Joining(index, left) => {
                drop(left);
                self.take_left(alloc, index, chunk)
            }
            JoinPhase::Failed => Err(Memory),
        }
    }

    fn make(&mut self, alloc: Global) -> Result<Option<Chunk>, WorkFault> {
        match replace(&mut self.phase, JoinPhase::Failed) {
            JoinPhase::Joining(index, left) => self.make_some(alloc, index, left),
            other => {
                put_phase(&mut self.phase, other);
                Ok(None)
            }
        }
    }

    // Only a collector's shell hands chunks out.
    fn hand_out(&mut self, alloc: Global, _last: Option<Chunk>) -> Vec<Chunk> {
        Vec::new(alloc)
    }
}
