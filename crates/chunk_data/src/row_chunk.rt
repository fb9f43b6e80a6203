ghost use Rattle.std.specs.Prelude.{◌≡◌, ℕ, ◌+◌, ◌≤◌, ◌<◌, ◌++◌, ◌∷◌, [], length, map, take, drop, slice_index_or, OnOk, OnErr, IfOk, MatchResult, All};
ghost use Rattle.chunk_data.specs.Names.{FitsTypes, IsTable, value_at, column_type, values, append_each, kept, row_at, rows_of, AreLong};

use crate::column_list::{
    append_ranges, beside_all, count_true, empty_columns, gather_all, keep_all, kinds_of, push_all,
    remove_front_all, row_of, truncate_columns,
};
use crate::lists::{List, Memory};
use crate::typed_column::Column;
use crate::typed_value::{ColumnType, Value};
use std::alloc::Global;
use std::marker::Model;

/// Rows of one list of types, kept by column.
#[derive(Drop)]
pub struct Chunk {
    alloc: Global,
    kinds: List<ColumnType>,
    columns: Vec<Column>,
    count: usize,
}

impl Model for Chunk {
    ghost use Rattle.std.specs.Prelude.{map};
    ghost use Rattle.chunk_data.specs.Columns.{values};
    ghost use Rattle.chunk_data.specs.Rows.{rows_of};
    ghost use Rattle.chunk_data.specs.Values.{Table};
    ghost use Rattle.chunk_data.specs.Columns.{AreColumns};

    ghost Value = { Table };

    ghost view = { λ c. record {
      types = c.kinds;
      rows = rows_of c.count (map values c.columns.items);
    } };

    ghost invariant = { λ c. AreColumns c.kinds c.columns.items c.count };
}

#[tactic(auto, using(crate::proofs::Chunks::chunks))]
impl Chunk {
    /// A chunk without rows.
    pub fn new(alloc: Global, types: &List<ColumnType>) -> Result<Chunk, Memory>
        ensures types { IfOk result (λ c. c.types ≡ types.now) }
        ensures rows { IfOk result (λ c. c.rows ≡ []) }
    {
        let columns = empty_columns(alloc, types.as_slice())?;
        Ok(Chunk {
            alloc,
            kinds: types.copy()?,
            columns,
            count: 0,
        })
    }

    /// A chunk of these columns, which are moved; without columns it may have any number of rows.
    pub fn of_columns(alloc: Global, columns: List<Column>, rows: usize) -> Result<Chunk, Memory>
        requires { AreLong rows (map values columns) }
        ensures types { IfOk result (λ c. c.types ≡ map column_type columns) }
        ensures rows { IfOk result (λ c. c.rows ≡ rows_of rows (map values columns)) }
    {
        let kinds = kinds_of(alloc, columns.as_slice())?;
        Ok(Chunk {
            alloc,
            kinds,
            columns: columns.into_vec(),
            count: rows,
        })
    }

    /// The columns, which are moved.
    pub fn into_columns(self) -> List<Column>
        ensures types { map column_type result ≡ self.types }
        ensures long { AreLong (length self.rows) (map values result) }
        ensures rows { rows_of (length self.rows) (map values result) ≡ self.rows }
    {
        let Chunk { columns, .. } = self;
        List::from_vec(columns)
    }

    /// The types of its columns.
    pub fn types(&self) -> &List<ColumnType>
        ensures { result.now ≡ self.now.types }
    {
        &self.kinds
    }

    /// How many rows it has.
    pub fn rows(&self) -> usize
        ensures count { result ≡ length self.now.rows }
        ensures fit { IsTable self.now }
    {
        self.count
    }

    /// Column c, which has each row's value at c.
    pub fn column(&self, c: usize) -> &Column
        requires { c < length self.now.types }
        ensures kind { column_type result.now
            ≡ slice_index_or self.now.types c (column_type result.now) }
        ensures values { values result.now ≡ map (λ row. value_at row c) self.now.rows }
    {
        &self.columns[c]
    }

    /// Adds the row at the end; after an error nothing has changed.
    pub fn push_row(&mut self, row: List<Value>) -> Result<(), Memory>
        requires { FitsTypes self.old.types row }
        ensures types { self.new.types ≡ self.old.types }
        ensures ok { OnOk result (self.new.rows ≡ self.old.rows ++ row ∷ []) }
        ensures err { OnErr result (self.new.rows ≡ self.old.rows) }
    {
        let Some(count) = self.count.checked_add(1) else {
            return Err(Memory);
        };
        push_all(&mut self.columns, row.as_slice(), self.count)?;
        self.count = count;
        Ok(())
    }

    /// Exactly the rows whose place in the mask has true stay, in order.
    pub fn keep(&mut self, mask: &[bool])
        requires { length mask.now ≡ length self.old.rows }
        ensures types { self.new.types ≡ self.old.types }
        ensures rows { self.new.rows ≡ kept mask.now self.old.rows }
    {
        keep_all(&mut self.columns, mask);
        self.count = count_true(mask);
    }

    /// The first n rows stay; it takes no memory.
    pub fn truncate(&mut self, n: usize)
        ensures types { self.new.types ≡ self.old.types }
        ensures rows { self.new.rows ≡ take n self.old.rows }
    {
        if n < self.count {
            truncate_columns(&mut self.columns, n);
            self.count = n;
        }
    }

    /// What follows the first n rows stays; it takes no memory.
    pub fn remove_front(&mut self, n: usize)
        ensures types { self.new.types ≡ self.old.types }
        ensures rows { self.new.rows ≡ drop n self.old.rows }
    {
        remove_front_all(&mut self.columns, n);
        self.count = self.count.saturating_sub(n);
    }

    /// Each row with the other's row beside it after its own values.
    pub fn beside(self, other: Chunk) -> Result<Chunk, Memory>
        requires { length other.rows ≡ length self.rows }
        ensures types { IfOk result (λ c. c.types ≡ self.types ++ other.types) }
        ensures rows { IfOk result (λ c. c.rows ≡ append_each self.rows other.rows) }
    {
        let alloc = self.alloc;
        let rows = self.rows();
        let columns = beside_all(
            self.into_columns().into_vec(),
            other.into_columns().into_vec(),
        )?;
        let chunk = Chunk::of_columns(alloc, columns, rows)?;
        Ok(chunk)
    }

    /// The other's rows after its own, which are copied, but a chunk without rows takes the other's
    /// columns. `Err` means want of memory: the other comes back and nothing has changed.
    pub fn append(&mut self, other: Chunk) -> Result<(), Chunk>
        requires { other.types ≡ self.old.types }
        ensures types { self.new.types ≡ self.old.types }
        ensures ok { OnOk result (self.new.rows ≡ self.old.rows ++ other.rows) }
        ensures err { MatchResult result (λ _. Unit {0})
            (λ c. (c ≡ other) × (self.new.rows ≡ self.old.rows)) }
    {
        if self.count == 0 {
            *self = other;
            return Ok(());
        }
        match self.append_range(&other, 0, other.rows()) {
            Ok(()) => Ok(()),
            Err(_) => Err(other),
        }
    }

    /// So many of the other's rows, from a place on, after its own; after an error nothing has
    /// changed.
    pub fn append_range(&mut self, other: &Chunk, from: usize, n: usize) -> Result<(), Memory>
        requires types { other.now.types ≡ self.old.types }
        requires in_range { from + n ≤ length other.now.rows }
        ensures types { self.new.types ≡ self.old.types }
        ensures ok { OnOk result
            (self.new.rows ≡ self.old.rows ++ take n (drop from other.now.rows)) }
        ensures err { OnErr result (self.new.rows ≡ self.old.rows) }
    {
        let Some(count) = self.count.checked_add(n) else {
            return Err(Memory);
        };
        append_ranges(
            &mut self.columns,
            other.columns.as_slice(),
            from,
            n,
            self.count,
        )?;
        self.count = count;
        Ok(())
    }

    /// A copy of so many rows, from a place on.
    pub fn copy_range(&self, from: usize, n: usize) -> Result<Chunk, Memory>
        requires { from + n ≤ length self.now.rows }
        ensures types { IfOk result (λ c. c.types ≡ self.now.types) }
        ensures rows { IfOk result (λ c. c.rows ≡ take n (drop from self.now.rows)) }
    {
        let mut range = Chunk::new(self.alloc, self.types())?;
        range.append_range(self, from, n)?;
        Ok(range)
    }

    /// The rows at the places, in the places' order.
    pub fn gather(&self, places: &[usize]) -> Result<Chunk, Memory>
        requires { All (λ p. p < length self.now.rows) places.now }
        ensures types { IfOk result (λ c. c.types ≡ self.now.types) }
        ensures rows { IfOk result (λ c. c.rows ≡ map (row_at self.now.rows) places.now) }
    {
        let kinds = self.kinds.copy()?;
        let columns = gather_all(self.alloc, self.columns.as_slice(), places, self.count)?;
        Ok(Chunk {
            alloc: self.alloc,
            kinds,
            columns,
            count: places.len(),
        })
    }

    /// A copy of row i.
    pub fn row(&self, i: usize) -> Result<List<Value>, Memory>
        requires { i < length self.now.rows }
        ensures { IfOk result (λ row. row ≡ row_at self.now.rows i) }
    {
        let row = row_of(self.alloc, self.columns.as_slice(), i, self.count)?;
        Ok(row)
    }

    /// The first n rows, and the rest stay; after an error nothing has changed.
    pub fn split_front(&mut self, n: usize) -> Result<Chunk, Memory>
        requires { n ≤ length self.old.rows }
        ensures types { self.new.types ≡ self.old.types }
        ensures front_types { IfOk result (λ c. c.types ≡ self.old.types) }
        ensures ok { IfOk result
            (λ c. (c.rows ≡ take n self.old.rows) × (self.new.rows ≡ drop n self.old.rows)) }
        ensures err { OnErr result (self.new.rows ≡ self.old.rows) }
    {
        let front = self.copy_range(0, n)?;
        self.remove_front(n);
        Ok(front)
    }
}
