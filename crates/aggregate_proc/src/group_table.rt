ghost use Rattle.std.specs.Prelude.{◌≡◌, ◌≤◌, ◌<◌, ◌++◌, List as Seq, [], length, map, IfOk, OnOk};
ghost use Rattle.std.specs.List.{All};
ghost use Rattle.chunk_data.specs.Columns.{column_type, values};
ghost use Rattle.chunk_data.specs.Rows.{rows_of};
ghost use Rattle.query_model.specs.Sources.{count_up};
ghost use Rattle.aggregate_proc.specs.Cells.{FitsColumn};
ghost use Rattle.aggregate_proc.specs.Folds.{with_rows};
ghost use Rattle.aggregate_proc.specs.Tables.{GroupsMore, fold_types, group_table_rows};

use crate::fold::FoldColumn;
use chunk_data::{Chunk, Column, ColumnType, List, Memory};
use key_codes::{SeenKeys, find_places};
use std::alloc::Global;
use std::marker::Model;

/// The groups of the rows so far, in order of first appearance: those whose first values are the
/// same.
#[derive(Drop)]
pub(crate) struct GroupTable {
    alloc: Global,
    types: List<ColumnType>,
    keys: usize,
    seen: SeenKeys,
    columns: Vec<FoldColumn>,
}

impl Model for GroupTable {
    ghost use Rattle.key_codes.specs.Keys.{IsSeenFor, plain_types_at};
    ghost use Rattle.query_model.specs.Sources.{count_up};
    ghost use Rattle.aggregate_proc.specs.Tables.{GroupTableView, IsGroupTable, group_table_view};

    ghost Value = { GroupTableView };

    ghost view = { λ t. group_table_view t.types t.keys t.seen t.columns.items };

    ghost invariant = { λ t. IsGroupTable (group_table_view t.types t.keys t.seen t.columns.items)
        × IsSeenFor (plain_types_at t.types (count_up t.keys)) t.seen };
}

/// The first n columns.
pub(crate) fn first_columns(alloc: Global, n: usize) -> Result<Vec<usize>, Memory>
    ensures { IfOk result (λ v. v.items ≡ count_up n) }
{
    let mut columns = Vec::with_capacity(alloc, n)?;
    for c in 0..n {
        columns.push(c)?;
    }
    Ok(columns)
}

/// Each row goes to the group at its place in each column.
fn add_to_each(
    columns: &mut Vec<FoldColumn>,
    alloc: Global,
    chunk: &Chunk,
    places: &[usize],
) -> Result<(), Memory>
    requires fits { All (FitsColumn chunk.now.types) columns.old.items }
    requires long { length places.now ≡ length chunk.now.rows }
    ensures { OnOk result
        (columns.new.items ≡ map (with_rows places.now chunk.now.rows) columns.old.items) }
{
    for i in 0..columns.len() {
        columns[i].add(alloc, chunk, places)?;
    }
    Ok(())
}

// Each column's values, as the columns of a chunk.
fn columns_of(alloc: Global, columns: Vec<FoldColumn>) -> Result<List<Column>, Memory>
    ensures kinds { IfOk result (λ l. map column_type l ≡ map (λ c. c.kind) columns.items) }
    ensures values { IfOk result (λ l. map values l ≡ map (λ c. c.values) columns.items) }
{
    let mut made = Vec::with_capacity(alloc, columns.len())?;
    for column in columns {
        made.push(column.into_column(alloc)?)?;
    }
    Ok(List::from_vec(made))
}

impl GroupTable {
    /// A table without groups, of the columns, of which the first are the keys'.
    pub(crate) fn new(
        alloc: Global,
        types: List<ColumnType>,
        keys: usize,
        first: &[usize],
        columns: Vec<FoldColumn>,
    ) -> GroupTable
        requires first { first.now ≡ count_up keys }
        requires wide { keys ≤ length types }
        requires fits { All (FitsColumn types) columns.items }
        requires empty { All (λ c. c.values ≡ []) columns.items }
        ensures types { result.types ≡ types }
        ensures keys { result.keys ≡ keys }
        ensures columns { result.columns ≡ columns.items }
        ensures rows { group_table_rows result ≡ [] }
    {
        let seen = SeenKeys::new(alloc, types.as_slice(), first);
        GroupTable {
            alloc,
            types,
            keys,
            seen,
            columns,
        }
    }

    /// The types of the input.
    pub(crate) fn types(&self) -> &List<ColumnType>
        ensures { result.now ≡ self.now.types }
    {
        &self.types
    }

    /// How many groups there are.
    pub(crate) fn groups(&self) -> usize
        ensures { result ≡ length (group_table_rows self.now) }
    {
        self.seen.len()
    }

    /// The table of the rows so far and then those of a chunk of the same types.
    pub(crate) fn add(self, chunk: &Chunk) -> Result<GroupTable, Memory>
        requires { chunk.now.types ≡ self.types }
        ensures { IfOk result (λ t. GroupsMore self chunk.now.rows t) }
    {
        let GroupTable {
            alloc,
            types,
            keys,
            mut seen,
            mut columns,
        } = self;
        let first = first_columns(alloc, keys)?;
        let places = find_places(&mut seen, alloc, true, first.as_slice(), chunk)?;
        add_to_each(&mut columns, alloc, chunk, places.as_slice())?;
        Ok(GroupTable {
            alloc,
            types,
            keys,
            seen,
            columns,
        })
    }

    /// The rows: of each group its key, and what is folded of it.
    pub(crate) fn into_chunk(self) -> Result<Chunk, Memory>
        ensures types { IfOk result (λ c. c.types ≡ fold_types self) }
        ensures rows { IfOk result (λ c. c.rows ≡ group_table_rows self) }
    {
        let GroupTable {
            alloc,
            seen,
            columns,
            ..
        } = self;
        let columns = columns_of(alloc, columns)?;
        Chunk::of_columns(alloc, columns, seen.len())
    }
}
