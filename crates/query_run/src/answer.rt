ghost use Rattle.std.specs.Prelude.{◌≡◌, ◌≤◌, map, slice_get, string_bytes, Some, None, if◌then◌else◌};
ghost use Rattle.std.specs.List.{All};
ghost use Rattle.std.specs.Option.{option_copied};
ghost use Rattle.query_run.specs.Names.{IsWithinLimits, IsBlank, IsRunnable, IsCheckedCommand, OfQuery, FailsFor, PlanFailsFor, MakesOrFails, MakesText, failure_of, name_at, IsPlanned, Tells};

use crate::checking::check_command;
use crate::ending::{Failure, PlanFailure};
use crate::planning::{PartPlace, graph_of, part_name, part_places};
use crate::stock::first_shortage;
use chunk_data::{Bytes, List, Memory};
use command_line::{Command, WordsRefusal, read_words};
use csv_rows::write_rows;
use plan_run::{PlanFault, run_plan};
use proc_api::Rack;
use query_model::checked::Checked;
use query_model::query::TableDecl;
use select_planner::{Plan, PlanRefusal, plan};
use std::alloc::Global;
use std::sync::Wait;
use std::thread::{Threads, available_parallelism};

/// The text of the answer of the command that the words mean, made by the boxes of the rack.
pub(crate) fn make_text<R: AllocGlobal + Threads + Wait + Sync>(
    rt: &R,
    words: &[String],
    rack: &mut Rack,
) -> Result<Vec<u8>, Failure>
    requires blank { All IsBlank (map (λ b. seen (b.vtable, b.value)) rack.old.boxes.items) }
    ensures { MakesOrFails
        (λ text before after. OfQuery (map string_bytes words.now)
        (λ c q. MakesText c q text before after))
        (λ f. FailsFor f (map string_bytes words.now)) result
        (map (λ b. seen (b.vtable, b.value)) rack.old.boxes.items)
        (map (λ b. seen (b.vtable, b.value)) rack.new.boxes.items) }
{
    match read_words(rt.alloc(), words) {
        Ok(command) => match check_command(rt.alloc(), &command) {
            Ok(checked) => match checked_text(rt, &command, &checked, rack) {
                Ok(text) => Ok(text),
                Err(failure) => Err(Failure::Plan(failure)),
            },
            Err(refused) => Err(Failure::Refused(refused)),
        },
        Err(WordsRefusal::Usage) => Err(Failure::Usage),
        Err(WordsRefusal::Memory) => Err(Failure::Memory),
    }
}

/// The text of the answer of a command's checked query.
fn checked_text<R: AllocGlobal + Threads + Wait + Sync>(
    rt: &R,
    command: &Command,
    checked: &Checked,
    rack: &mut Rack,
) -> Result<Vec<u8>, PlanFailure>
    requires within { IsWithinLimits command.now }
    requires checked { IsCheckedCommand command.now checked.now }
    requires blank { All IsBlank (map (λ b. seen (b.vtable, b.value)) rack.old.boxes.items) }
    ensures { MakesOrFails (MakesText command.now checked.now)
        (λ f. PlanFailsFor f command.now checked.now) result
        (map (λ b. seen (b.vtable, b.value)) rack.old.boxes.items)
        (map (λ b. seen (b.vtable, b.value)) rack.new.boxes.items) }
{
    let tables = &command.tables;
    let lanes = command.threads;
    let rows = command.chunk_rows;
    match plan(rt.alloc(), checked, tables, lanes, rows, command.header) {
        Ok(plan) => match first_shortage(&plan, rack) {
            Some(short) => Err(PlanFailure::Stock(short)),
            None => planned_text(rt, command, checked, plan, rack),
        },
        Err(PlanRefusal::TooManyParts(name, count)) => Err(PlanFailure::Paths(name, count)),
        Err(PlanRefusal::Memory) => Err(PlanFailure::Memory),
    }
}

/// How many workers serve so many lanes: no more than there are processors, since a worker that is
/// taken off its processor keeps its node from the others meanwhile. Two serve on a single one too,
/// as two sources may wait for each other.
fn workers_for<R: Threads>(rt: &R, lanes: u32) -> u32
    requires { 1 ≤ lanes }
    ensures some { 1 ≤ result }
    ensures few { result ≤ lanes }
{
    let Ok(processors) = available_parallelism(rt) else {
        return lanes;
    };
    (lanes as usize).min(processors.get().max(2)) as u32
}

/// The text of the answer of a checked query by its plan, for which the rack has the boxes.
fn planned_text<R: AllocGlobal + Threads + Wait + Sync>(
    rt: &R,
    command: &Command,
    checked: &Checked,
    plan: Plan,
    rack: &mut Rack,
) -> Result<Vec<u8>, PlanFailure>
    requires within { IsWithinLimits command.now }
    requires checked { IsCheckedCommand command.now checked.now }
    requires planned { IsPlanned command.now checked.now plan }
    requires blank { All IsBlank (map (λ b. seen (b.vtable, b.value)) rack.old.boxes.items) }
    requires runnable { IsRunnable command.now checked.now
        (map (λ b. seen (b.vtable, b.value)) rack.old.boxes.items) }
    ensures { MakesOrFails (MakesText command.now checked.now)
        (λ f. PlanFailsFor f command.now checked.now) result
        (map (λ b. seen (b.vtable, b.value)) rack.old.boxes.items)
        (map (λ b. seen (b.vtable, b.value)) rack.new.boxes.items) }
{
    let Ok(places) = part_places(rt.alloc(), &plan) else {
        return Err(PlanFailure::Memory);
    };
    let Ok(graph) = graph_of(rt.alloc(), plan) else {
        return Err(PlanFailure::Memory);
    };
    match run_plan(rt, rack, graph, workers_for(rt, command.threads)) {
        Ok(chunks) => {
            let heading = heading_names(command.header, &checked.names);
            match write_rows(rt.alloc(), heading, chunks.as_slice()) {
                Ok(text) => Ok(text),
                Err(Memory) => Err(PlanFailure::Memory),
            }
        }
        Err(fault) => {
            let tables = command.tables.as_slice();
            Err(failure_of(rt.alloc(), fault, tables, places.as_slice()))
        }
    }
}

// The names, where a line of them is asked for.
fn heading_names(header: bool, names: &List<Bytes>) -> Option<&List<Bytes>>
    ensures { option_copied result ≡ (if header then Some names.now else None) }
{
    if header { Some(names) } else { None }
}

// Why a plan whose nodes read these parts gave no rows; for want of memory the name isn't told.
fn failure_of(
    alloc: Global,
    fault: PlanFault,
    tables: &[TableDecl],
    places: &[PartPlace],
) -> PlanFailure
    ensures { Tells result
        (failure_of fault (λ node. name_at tables.now (slice_get places.now node))) }
{
    match fault {
        PlanFault::Fault(node, fault) => match part_name(alloc, tables, places, node) {
            Ok(name) => PlanFailure::Part(name, fault),
            Err(Memory) => PlanFailure::Memory,
        },
        PlanFault::Stuck(kind) => PlanFailure::Unlawful(kind),
        PlanFault::BadGrowth(kind) => PlanFailure::Unlawful(kind),
        PlanFault::Memory => PlanFailure::Memory,
    }
}
