ghost use Rattle.std.specs.Prelude.{◌≡◌, ◌↔◌, ◌+◌, ◌<◌, ◌≤◌, Bool, true, false, [], ◌∷◌, drop, length, map, take, IsTrue, IfOk, IfErr, OnOk};
ghost use Rattle.chunk_data.specs.Columns.{column_type, values};
ghost use Rattle.chunk_data.specs.Values.{default_value};
ghost use Rattle.proc_api.specs.Grouped.{default_states, spec_group_types};
ghost use Rattle.proc_api.specs.declared.status.WorkFault.TheVariants as fault;
ghost use Rattle.proc_shell.specs.Kernels.{AreInputsOver, Begins, Makes};
ghost use Rattle.aggregate_proc.specs.GroupKinds.{giving_own, given_for, IsNextOfGroups, IsGroupTableFor, NotesGroupsEnd, grouping_own, aggregate_spec};
ghost use Rattle.aggregate_proc.specs.Tables.{group_table_rows};

use crate::group_builder::{are_sound, new_table, sum_no_texts};
use crate::group_table::GroupTable;
use crate::phase::Phase;
use chunk_data::{Chunk, Column, ColumnType, List, Memory, PlainType};
use port_word::PortView;
use proc_api::WorkFault;
use proc_shell::{Kernel, Offer, Shell};
use query_model::processor_spec::{GroupSpec, Kind, Spec};
use std::alloc::Global;
use std::marker::{Model, PhantomData};
use std::mem::replace;

/// Folds the rows of its input into groups to the end, and then gives a row a group: its key and
/// the state of each call. A chunk has at most the rows that its spec states, and one at least. It
/// keeps all groups in memory, and takes chunks of other types than its spec's, or all chunks where
/// that sums texts, as if they had no rows. It refuses a spec that counts in another type than
/// UInt64, or that has keys without GROUP BY. Want of memory faults it, and it then gives no rows.
pub type PartialAggregate = Shell<Grouping<SingleRows>>;

/// Merges the groups of all its inputs to their ends, and then gives them; without GROUP BY and
/// without rows one row of defaults. Its limits and faults are those of a partial aggregate.
pub type MergeAggregate = Shell<Grouping<PartialGroups>>;

/// What is grouped: rows by themselves, or partial groups, which are merged.
pub trait Grouped: Drop {
    ghost merges: { Bool };

    /// Whether the rows are partial groups.
    fn merges() -> bool
        ensures { result ≡ merges };
}

/// Rows by themselves.
#[derive(Clone, Copy, Drop)]
pub struct SingleRows;

impl Grouped for SingleRows {
    ghost use Rattle.std.specs.Prelude.{false};

    ghost merges = { false };

    fn merges() -> bool {
        false
    }
}

/// Partial groups, each a row of its key and its states.
#[derive(Clone, Copy, Drop)]
pub struct PartialGroups;

impl Grouped for PartialGroups {
    ghost use Rattle.std.specs.Prelude.{true};

    ghost merges = { true };

    fn merges() -> bool {
        true
    }
}

// One call in place of an assignment, since what an assignment drops is proved at each.
fn put_phase(old: &mut Phase, phase: Phase)
    ensures { old.new ≡ phase }
{
    *old = phase;
}

/// Grouping inside its shell.
#[derive(Drop)]
pub struct Grouping<G: Grouped> {
    group: GroupSpec,
    phase: Phase,
    grouped: PhantomData<G>,
}

impl<G: Grouped> Model for Grouping<G> {
    ghost use Rattle.aggregate_proc.specs.GroupKinds.{GroupingView, IsGroupState};

    ghost Value = { GroupingView };

    ghost view = { λ k. record { group = k.group; phase = k.phase } };

    ghost invariant = { λ k. IsGroupState G.merges (record { group = k.group; phase = k.phase }) };
}

// Whether each input is finished or closed.
fn inputs_over(view: &PortView) -> bool
    ensures { IsTrue result ↔ AreInputsOver view.now }
{
    for i in 0..view.inputs() {
        if !view.in_finished(i) {
            return false;
        }
    }
    true
}

fn same_types(types: &[ColumnType], others: &[ColumnType]) -> bool
    ensures { IsTrue result ↔ (types.now ≡ others.now) }
{
    types == others
}

// A column of one default value: NULL where it may have NULL.
fn default_column(alloc: Global, kind: ColumnType) -> Result<Column, Memory>
    ensures kind { IfOk result (λ c. column_type c ≡ kind) }
    ensures values { IfOk result (λ c. values c ≡ default_value kind ∷ []) }
{
    let mut column = Column::new(alloc, kind);
    if kind.is_nullable() {
        column.push_null()?;
        return Ok(column);
    }
    match kind.plain() {
        PlainType::Int64 => column.push_int(0)?,
        PlainType::UInt64 => column.push_uint(0)?,
        PlainType::Text => column.push_text(&[])?,
    }
    Ok(column)
}

// The one row of defaults.
fn default_chunk(alloc: Global, group: &GroupSpec) -> Result<Chunk, Memory>
    requires { group.now.keys ≡ [] }
    ensures types { IfOk result (λ c. c.types ≡ spec_group_types group.now) }
    ensures rows { IfOk result (λ c. c.rows ≡ default_states group.now ∷ []) }
{
    let mut columns = Vec::new(alloc);
    for call in group.calls.as_slice() {
        columns.push(default_column(alloc, call.kind)?)?;
    }
    Chunk::of_columns(alloc, List::from_vec(columns), 1)
}

// The rows that are given of all groups.
fn whole_chunk(
    alloc: Global,
    merges: bool,
    group: &GroupSpec,
    table: GroupTable,
) -> Result<Chunk, Memory>
    requires table { IsGroupTableFor merges group.now table }
    requires bare { group.now.lone ≡ true → group.now.keys ≡ [] }
    ensures types { IfOk result (λ c. c.types ≡ spec_group_types group.now) }
    ensures rows { IfOk result (λ c. c.rows ≡ given_for merges group.now (group_table_rows table)) }
{
    if merges && group.lone && table.groups() == 0 {
        return default_chunk(alloc, group);
    }
    table.into_chunk()
}

impl<G: Grouped> Grouping<G> {
    // Without groups. A spec whose counts aren't UInt64 is refused.
    fn begun(alloc: Global, group: GroupSpec) -> Result<Grouping<G>, Memory>
        ensures { IfOk result
            (λ k. Begins (aggregate_spec G.merges group) (aggregate_spec G.merges k.group)
            (grouping_own G.merges k)) }
    {
        if group.lone && group.keys.len() > 0 {
            return Err(Memory);
        }
        if !sum_no_texts(group.calls.as_slice()) {
            return Ok(Grouping {
                group,
                phase: Phase::Dropping,
                grouped: PhantomData,
            });
        }
        if !are_sound(group.calls.as_slice()) {
            return Err(Memory);
        }
        match new_table(alloc, G::merges(), &group) {
            Ok(table) => Ok(Grouping {
                group,
                phase: Phase::Gathering(table),
                grouped: PhantomData,
            }),
            Err(memory) => Err(memory),
        }
    }

    // Notes that the inputs have ended.
    fn note_end(&mut self)
        ensures group { self.new.group ≡ self.old.group }
        ensures notes { NotesGroupsEnd G.merges self.old.group (grouping_own G.merges self.old)
            (grouping_own G.merges self.new) }
    {
        match replace(&mut self.phase, Phase::Failed) {
            Phase::Gathering(table) => put_phase(&mut self.phase, Phase::Ended(table)),
            Phase::Dropping => put_phase(&mut self.phase, Phase::Empty),
            other => put_phase(&mut self.phase, other),
        }
    }

    // Rows, if some can be made.
    fn next_offer(&self) -> Offer
        ensures { IsNextOfGroups (grouping_own G.merges self.now) result }
    {
        let some = match &self.phase {
            Phase::Gathering(_) => false,
            Phase::Dropping => false,
            Phase::Empty => G::merges() && self.group.lone,
            Phase::Ended(table) => table.groups() > 0 || (G::merges() && self.group.lone),
            Phase::Giving(chunk, next) => *next < chunk.rows(),
            Phase::Failed => false,
        };
        if some { Offer::Rows } else { Offer::Wants }
    }

    // Makes the row of defaults, where that is due to a merge that took no chunk.
    fn give_default(&mut self, alloc: Global) -> Result<Option<Chunk>, WorkFault>
        requires bare { self.old.group.lone ≡ true → self.old.group.keys ≡ [] }
        ensures group { self.new.group ≡ self.old.group }
        ensures makes { IfOk result (Makes (aggregate_spec G.merges self.old.group)
            (giving_own (given_for G.merges self.old.group [])) (grouping_own G.merges self.new)) }
        ensures fails { IfErr result (λ f. f ≡ fault.Memory) }
    {
        if !(G::merges() && self.group.lone) {
            put_phase(&mut self.phase, Phase::Empty);
            return Ok(None);
        }
        match default_chunk(alloc, &self.group) {
            Ok(chunk) => self.give(chunk, 0),
            Err(_) => Err(WorkFault::Memory),
        }
    }

    // Makes a chunk of the rows from a place on.
    fn give(&mut self, chunk: Chunk, next: usize) -> Result<Option<Chunk>, WorkFault>
        requires types { chunk.types ≡ spec_group_types self.old.group }
        requires within { next ≤ length chunk.rows }
        ensures group { self.new.group ≡ self.old.group }
        ensures makes { IfOk result
            (Makes (aggregate_spec G.merges self.old.group) (giving_own (drop next chunk.rows))
            (grouping_own G.merges self.new)) }
        ensures fails { IfErr result (λ f. f ≡ fault.Memory) }
    {
        let count = (chunk.rows() - next).min((self.group.rows as usize).max(1));
        if count == 0 {
            put_phase(&mut self.phase, Phase::Giving(chunk, next));
            return Ok(None);
        }
        match chunk.copy_range(next, count) {
            Ok(part) => {
                put_phase(&mut self.phase, Phase::Giving(chunk, next + count));
                Ok(Some(part))
            }
            Err(_) => Err(WorkFault::Memory),
        }
    }
}

impl<G: Grouped> Kernel for Grouping<G> {
    ghost use Rattle.std.specs.Prelude.{refl};
    ghost use Rattle.aggregate_proc.specs.GroupKinds.{aggregate_kind, open_for, state_in};
    ghost use Rattle.aggregate_proc.specs.GroupShells.{grouping_kind, grouping_shelled, grouping_uses};

    ghost kind_is = { aggregate_kind G.merges };

    ghost state = { state_in G.merges };

    ghost open_to = { λ k. open_for G.merges };

    ghost shelled = { λ k. grouping_shelled G.merges k.group };

    ghost uses = { λ k i unworked made e m. grouping_uses G.merges k i unworked made };

    ghost of_kind = { λ k. (refl, grouping_kind G.merges k.group) };

    fn kind() -> Kind {
        if G::merges() {
            Kind::MergeAggregate
        } else {
            Kind::PartialAggregate
        }
    }

    fn begin(alloc: Global, spec: Spec) -> Result<Grouping<G>, Memory> {
        match spec {
            Spec::PartialAggregate(group) => Grouping::begun(alloc, group),
            Spec::MergeAggregate(group) => Grouping::begun(alloc, group),
            // The shell hands it no other kind's.
            _ => unreachable!(),
        }
    }

    fn fits(&self, inputs: usize, outputs: usize) -> bool {
        outputs == 1 && (G::merges() || inputs == 1)
    }

    fn offer(&mut self, view: &PortView) -> Offer {
        if inputs_over(view) {
            self.note_end();
            return self.next_offer();
        }
        self.next_offer()
    }

    fn wants(&self, input: usize) -> bool {
        G::merges() || input == 0
    }

    fn take(
        &mut self,
        _alloc: Global,
        _input: usize,
        chunk: Chunk,
    ) -> Result<Option<Chunk>, Memory> {
        match replace(&mut self.phase, Phase::Failed) {
            Phase::Gathering(table) => {
                if !same_types(chunk.types().as_slice(), table.types().as_slice()) {
                    put_phase(&mut self.phase, Phase::Gathering(table));
                    return Ok(None);
                }
                let _rows = chunk.rows();
                match table.add(&chunk) {
                    Ok(table) => {
                        put_phase(&mut self.phase, Phase::Gathering(table));
                        Ok(None)
                    }
                    Err(memory) => Err(memory),
                }
            }
            Phase::Dropping => {
                put_phase(&mut self.phase, Phase::Dropping);
                Ok(None)
            }
            // Once the end was noted no chunk comes.
            _ => Err(Memory),
        }
    }

    fn make(&mut self, alloc: Global) -> Result<Option<Chunk>, WorkFault> {
        match replace(&mut self.phase, Phase::Failed) {
            Phase::Gathering(table) => {
                put_phase(&mut self.phase, Phase::Gathering(table));
                Ok(None)
            }
            Phase::Dropping => {
                put_phase(&mut self.phase, Phase::Dropping);
                Ok(None)
            }
            Phase::Ended(table) => match whole_chunk(alloc, G::merges(), &self.group, table) {
                Ok(chunk) => self.give(chunk, 0),
                Err(_) => Err(WorkFault::Memory),
            },
            Phase::Empty => self.give_default(alloc),
            Phase::Giving(chunk, next) => self.give(chunk, next),
            Phase::Failed => Ok(None),
        }
    }

    // Only a collector's shell hands chunks out.
    fn hand_out(&mut self, alloc: Global, _last: Option<Chunk>) -> Vec<Chunk> {
        Vec::new(alloc)
    }
}
