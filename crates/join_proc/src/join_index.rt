ghost use Rattle.std.specs.Prelude.{◌≡◌, ◌<◌, ◌≤◌, suc, [], length, map, slice_index_or, slice_set, IfOk, OnOk};
ghost use Rattle.std.specs.List.{All};
ghost use Rattle.proc_api.specs.kinds.HashJoin.{AreKeyPairs};
ghost use Rattle.chunk_data.specs.Names.{row_at};
ghost use Rattle.join_proc.specs.Joins.{AreLinked, AreStarts, IsIndexOf, is_full as has_full_key, starts_at};

use crate::fitting::{left_columns, right_columns};
use crate::left_rows::{LeftRows, LeftStart};
use chunk_data::{Chunk, Memory};
use key_codes::{SeenKeys, find_places};
use query_model::processor_spec::JoinSpec;
use std::alloc::Global;
use std::mem::replace;

/// The rows of a right side, and where those with a key are: of each key seen its first row, and of
/// each row the next one with its key. Behind the last stands the number of rows.
#[derive(Drop)]
pub(crate) struct JoinIndex {
    pub(crate) rows: Chunk,
    pub(crate) seen: SeenKeys,
    /// By the places of the keys seen, and at the end for keys that weren't.
    pub(crate) firsts: Vec<usize>,
    pub(crate) nexts: Vec<usize>,
}

// Puts the row in front of those that have its key, and gives the first of these.
fn put_first(firsts: &mut [usize], place: usize, row: usize) -> usize
    requires { place < length firsts.old }
    ensures first { result ≡ slice_index_or firsts.old place 0 }
    ensures put { firsts.new ≡ slice_set firsts.old place row }
{
    replace(&mut firsts[place], row)
}

// Links the rows with one place, from the last to the first, so that a chain goes on in order.
fn link_rows(firsts: &mut [usize], nexts: &mut [usize], places: &[usize])
    requires places { All (λ p. p < length firsts.old) places.now }
    requires none { AreLinked places.now (length places.now) firsts.old nexts.old }
    ensures linked { AreLinked places.now 0 firsts.new nexts.new }
    ensures many { length firsts.new ≡ length firsts.old }
{
    for done in 0..places.len() {
        let row = places.len() - 1 - done;
        nexts[row] = put_first(firsts, places[row], row);
    }
}

// So many copies of a number.
fn copies(alloc: Global, number: usize, count: usize) -> Result<Vec<usize>, Memory>
    ensures long { IfOk result (λ v. length v.items ≡ count) }
    ensures same { IfOk result (λ v. All (λ n. n ≡ number) v.items) }
{
    let mut numbers = Vec::with_capacity(alloc, count)?;
    for _done in 0..count {
        numbers.push(number)?;
    }
    Ok(numbers)
}

// Whether no value of the row's key is NULL. A row whose key has NULL agrees with none.
fn is_full(chunk: &Chunk, columns: &[usize], i: usize) -> bool
    requires within { All (λ c. c < length chunk.now.types) columns.now }
    requires row { i < length chunk.now.rows }
    ensures { result ≡ has_full_key columns.now (row_at chunk.now.rows i) }
{
    for column in columns {
        if !chunk.column(*column).is_valid(i) {
            return false;
        }
    }
    true
}

// The rows of a left chunk that agree with one, each with the first of these.
fn starts_of(
    alloc: Global,
    chunk: &Chunk,
    columns: &[usize],
    firsts: &[usize],
    places: &[usize],
    rows: usize,
) -> Result<Vec<LeftStart>, Memory>
    requires within { All (λ c. c < length chunk.now.types) columns.now }
    requires places { All (λ p. p < length firsts.now) places.now }
    requires long { length places.now ≡ length chunk.now.rows }
    ensures { IfOk result (λ v. v.items
        ≡ starts_at firsts.now rows 0 places.now (map (has_full_key columns.now) chunk.now.rows)) }
{
    let mut starts = Vec::with_capacity(alloc, places.len())?;
    for left in 0..places.len() {
        let next = firsts[places[left]];
        if next < rows && is_full(chunk, columns, left) {
            starts.push(LeftStart { left, next })?;
        }
    }
    Ok(starts)
}

impl JoinIndex {
    /// Where the keys of the rows are.
    pub(crate) fn new(alloc: Global, join: &JoinSpec, rows: Chunk) -> Result<JoinIndex, Memory>
        requires types { rows.types ≡ join.now.right }
        requires pairs { AreKeyPairs join.now }
        ensures rows { IfOk result (λ x. x.rows ≡ rows) }
        ensures index { IfOk result (IsIndexOf join.now.pairs) }
    {
        let columns = right_columns(alloc, join)?;
        let columns = columns.as_slice();
        let mut seen = SeenKeys::new(alloc, join.right.as_slice(), columns);
        let places = find_places(&mut seen, alloc, true, columns, &rows)?;
        let Some(keys) = seen.len().checked_add(1) else {
            return Err(Memory);
        };
        let mut firsts = copies(alloc, rows.rows(), keys)?;
        let mut nexts = copies(alloc, rows.rows(), rows.rows())?;
        link_rows(
            firsts.as_mut_slice(),
            nexts.as_mut_slice(),
            places.as_slice(),
        );
        Ok(JoinIndex {
            rows,
            seen,
            firsts,
            nexts,
        })
    }

    /// The rows of a left chunk, none of which is joined yet.
    pub(crate) fn left_rows(
        &mut self,
        alloc: Global,
        join: &JoinSpec,
        chunk: Chunk,
    ) -> Result<LeftRows, Memory>
        requires index { IsIndexOf join.now.pairs self.old }
        requires types { chunk.types ≡ join.now.left }
        requires right { self.old.rows.types ≡ join.now.right }
        requires pairs { AreKeyPairs join.now }
        ensures rows { self.new.rows ≡ self.old.rows }
        ensures index { OnOk result (IsIndexOf join.now.pairs self.new) }
        ensures types { IfOk result (λ l. l.chunk.types ≡ chunk.types) }
        ensures starts { IfOk result (AreStarts join.now.pairs chunk.rows self.new.rows.rows) }
    {
        let columns = left_columns(alloc, join)?;
        let columns = columns.as_slice();
        let places = find_places(&mut self.seen, alloc, false, columns, &chunk)?;
        let firsts = self.firsts.as_slice();
        let rows = self.rows.rows();
        let starts = starts_of(alloc, &chunk, columns, firsts, places.as_slice(), rows)?;
        Ok(LeftRows {
            chunk,
            starts,
            at: 0,
        })
    }
}
