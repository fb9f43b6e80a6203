// The sources of a used table.
ghost use Rattle.std.specs.Prelude.{◌≡◌, ◌≤◌, ◌++◌, ◌∷◌, [], map, length, replicate, IfOk, IfErr, OnOk};
ghost use Rattle.query_model.specs.Database.{used_tables};
ghost use Rattle.query_model.specs.declared.query.ColumnDecl.{ColumnDecl};
ghost use Rattle.plan_laws.specs.Blocks.{source_nodes};
ghost use Rattle.plan_laws.specs.Same.{forms};
ghost use Rattle.plan_laws.specs.Refusals.{crowded, crowded_decl, first_crowded, path_count, IsCrowdedTable, IsDuePlanRefusal};
ghost use Rattle.plan_laws.specs.Steps.{join_spec, part_sources, part_spec, path_sources, source_types, table_reading, table_sources, used_types};
ghost use Rattle.proc_api.specs.KindRows.{grown_kind};

use crate::lanes::add_behind;
use chunk_data::{Bytes, ColumnType, List, Memory};
use plan_laws::{DraftNode, PlanRefusal};
use query_model::checked::{Checked, CheckedJoin, TableUse};
use query_model::processor_spec::{JoinSpec, Kind, PartSpec, Spec};
use query_model::query::{ColumnDecl, PartsDecl, TableDecl};
use std::alloc::Global;

/// The most paths that a table, or its list file, may name.
pub(crate) const MAX_PARTS: u32 = 32;

/// How the parts of a table are read, and behind how many open ends its sources stand.
#[derive(Clone, Copy)]
pub(crate) struct SourceReading {
    pub header: bool,
    pub rows: u32,
    pub place: u32,
}

/// Refuses a used table that names more than 32 paths, that of FROM first.
pub(crate) fn check_tables(query: &Checked, tables: &[TableDecl]) -> Result<(), PlanRefusal>
    ensures ok { OnOk result (first_crowded tables.now (used_tables query.now) ≡ None) }
    ensures err { IfErr result (IsDuePlanRefusal query.now tables.now) }
{
    check_table(query.from, tables)?;
    match &query.join {
        None => Ok(()),
        Some(join) => check_table(join.table, tables),
    }
}

fn check_table(table: TableUse, tables: &[TableDecl]) -> Result<(), PlanRefusal>
    ensures ok { OnOk result (crowded tables.now table ≡ None) }
    ensures err { IfErr result (IsCrowdedTable (crowded tables.now table)) }
{
    match table {
        TableUse::Numbers(_) => Ok(()),
        TableUse::Declared(t) => match tables.get(t as usize) {
            Some(decl) => check_declared(decl),
            None => Ok(()),
        },
    }
}

fn check_declared(decl: &TableDecl) -> Result<(), PlanRefusal>
    ensures ok { OnOk result (crowded_decl (Some decl.now) ≡ None) }
    ensures err { IfErr result (IsCrowdedTable (crowded_decl (Some decl.now))) }
{
    let count = paths_named(&decl.parts);
    if count <= MAX_PARTS as usize {
        return Ok(());
    }
    match decl.schema.name.copy() {
        Ok(name) => Err(PlanRefusal::TooManyParts(name, count as u64)),
        Err(_) => Err(PlanRefusal::Memory),
    }
}

fn paths_named(parts: &PartsDecl) -> usize
    ensures { result ≡ path_count parts.now }
{
    match parts {
        PartsDecl::Paths(paths) => paths.len(),
        PartsDecl::ListFile(_) => 0,
    }
}

/// Adds the sources of a used table behind so many open ends, and says how many there are.
#[tactic(auto, using(crate::proofs::Laying::undeclared))]
pub(crate) fn add_sources(
    alloc: Global,
    nodes: &mut List<DraftNode>,
    table: TableUse,
    tables: &[TableDecl],
    reading: SourceReading,
) -> Result<u32, Memory>
    requires few_parts { crowded tables.now table ≡ None }
    requires place { reading.place ≤ 32 }
    ensures nodes { OnOk result (forms nodes.new ≡ forms nodes.old
        ++ forms (source_nodes reading.place
        (table_sources tables.now reading.header reading.rows table))) }
    ensures few { IfOk result (λ n. n ≤ 32) }
    ensures count { IfOk result
        (λ n. n ≡ length (table_sources tables.now reading.header reading.rows table)) }
{
    match table {
        TableUse::Numbers(n) => {
            add_behind(nodes, Spec::Numbers(n, reading.rows), 1, reading.place, 0)?;
            Ok(1)
        }
        TableUse::Declared(t) => match tables.get(t as usize) {
            Some(decl) => add_declared(alloc, nodes, t, decl, reading),
            None => Ok(0),
        },
    }
}

#[tactic(auto, using(crate::proofs::Laying::parts_count))]
fn add_declared(
    alloc: Global,
    nodes: &mut List<DraftNode>,
    table: u32,
    decl: &TableDecl,
    reading: SourceReading,
) -> Result<u32, Memory>
    requires few_parts { path_count decl.now.parts ≤ 32 }
    requires place { reading.place ≤ 32 }
    ensures nodes { OnOk result (forms nodes.new ≡ forms nodes.old
        ++ forms (source_nodes reading.place
        (part_sources (table_reading reading.header reading.rows table decl.now) decl.now.parts))) }
    ensures few { IfOk result (λ n. n ≤ 32) }
    ensures count { IfOk result (λ n. n ≡ length
        (part_sources (table_reading reading.header reading.rows table decl.now) decl.now.parts)) }
{
    match &decl.parts {
        PartsDecl::Paths(paths) => {
            add_paths(alloc, nodes, table, decl, paths.as_slice(), reading)?;
            Ok(paths.len() as u32)
        }
        PartsDecl::ListFile(path) => {
            let list = part_spec(alloc, table, decl, 0, path, reading)?;
            add_behind(nodes, Spec::List(list), 1, reading.place, 0)?;
            Ok(1)
        }
    }
}

#[tactic(auto, using(crate::proofs::Laying::path_more))]
fn add_paths(
    alloc: Global,
    nodes: &mut List<DraftNode>,
    table: u32,
    decl: &TableDecl,
    paths: &[Bytes],
    reading: SourceReading,
) -> Result<(), Memory>
    requires few_parts { length paths.now ≤ 32 }
    requires place { reading.place ≤ 32 }
    ensures { OnOk result (forms nodes.new ≡ forms nodes.old ++ forms (source_nodes reading.place
        (path_sources (table_reading reading.header reading.rows table decl.now) 1 paths.now))) }
{
    for i in 0..paths.len() {
        let part = part_spec(alloc, table, decl, i as u32 + 1, &paths[i], reading)?;
        add_behind(nodes, Spec::Csv(part), 1, reading.place + i as u32, 0)?;
    }
    Ok(())
}

/// The kinds of the nodes that are kept for a list: a source for each part that it may name.
pub(crate) fn listed_kinds(alloc: Global) -> Result<List<Kind>, Memory>
    ensures { IfOk result (λ kinds. kinds ≡ replicate 32 grown_kind) }
{
    Ok(List::from_vec(vec![in alloc; Kind::Csv; MAX_PARTS as usize]?))
}

/// A file of the table, read as this part of it; a list is part 0.
fn part_spec(
    alloc: Global,
    table: u32,
    decl: &TableDecl,
    part: u32,
    path: &Bytes,
    reading: SourceReading,
) -> Result<PartSpec, Memory>
    ensures { IfOk result (λ spec. spec ≡ part_spec
        (table_reading reading.header reading.rows table decl.now) part path.now) }
{
    let path = path.copy()?;
    let types = types_of(alloc, decl.schema.columns.as_slice())?;
    Ok(PartSpec {
        table,
        part,
        path,
        types,
        header: reading.header,
        rows: reading.rows,
    })
}

/// The join of the table of FROM with another.
pub(crate) fn join_spec(
    alloc: Global,
    from: TableUse,
    join: &CheckedJoin,
    tables: &[TableDecl],
    rows: u32,
) -> Result<JoinSpec, Memory>
    ensures { IfOk result (λ spec. spec ≡ join_spec tables.now rows from join.now) }
{
    Ok(JoinSpec {
        pairs: join.pairs.copy()?,
        left: used_types(alloc, from, tables)?,
        right: used_types(alloc, join.table, tables)?,
        rows,
    })
}

/// The types of the columns of FROM and then of JOIN.
pub(crate) fn source_types(
    alloc: Global,
    query: &Checked,
    tables: &[TableDecl],
) -> Result<List<ColumnType>, Memory>
    ensures { IfOk result (λ types. types
        ≡ source_types tables.now query.now.from query.now.join) }
{
    let left = used_types(alloc, query.from, tables)?;
    match &query.join {
        None => Ok(left),
        Some(join) => {
            let right = used_types(alloc, join.table, tables)?;
            let mut types = left.into_vec();
            types.extend_from_slice(right.as_slice())?;
            Ok(List::from_vec(types))
        }
    }
}

/// The types of a used table's columns.
fn used_types(
    alloc: Global,
    table: TableUse,
    tables: &[TableDecl],
) -> Result<List<ColumnType>, Memory>
    ensures { IfOk result (λ types. types ≡ used_types tables.now table) }
{
    match table {
        TableUse::Numbers(_) => Ok(List::from_vec(vec![in alloc; ColumnType::UInt64]?)),
        TableUse::Declared(t) => match tables.get(t as usize) {
            Some(decl) => types_of(alloc, decl.schema.columns.as_slice()),
            None => Ok(List::new(alloc)),
        },
    }
}

/// The types of columns.
fn types_of(alloc: Global, columns: &[ColumnDecl]) -> Result<List<ColumnType>, Memory>
    ensures { IfOk result (λ types. types ≡ map (λ (c : ColumnDecl). c.kind) columns.now) }
{
    let mut types = Vec::new(alloc);
    for column in columns {
        types.push(column.kind)?;
    }
    Ok(List::from_vec(types))
}
