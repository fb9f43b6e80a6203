ghost use Rattle.std.specs.Prelude.{◌≡◌, leb, ◌<◌, ◌≤◌, ◌⊎◌, max, [], length, slice_index_or, OnOk, IfOk};
ghost use Rattle.std.specs.List.{All};
ghost use Rattle.join_proc.specs.Joins.{AreFit, IsIndexOf, JoinsRows, JoinsSome, MovesOn, PairsMore, no_start, rows_to_join};

use crate::join_index::JoinIndex;
use chunk_data::{Chunk, Memory};
use query_model::processor_spec::JoinSpec;
use std::alloc::Global;

/// A row of the left side, and the next right row that it agrees with.
#[derive(Clone, Copy, Drop)]
pub(crate) struct LeftStart {
    pub(crate) left: usize,
    pub(crate) next: usize,
}

/// A chunk of the left side, and its rows that agree with one, in order. Those before `at` are
/// joined.
#[derive(Drop)]
pub(crate) struct LeftRows {
    pub(crate) chunk: Chunk,
    pub(crate) starts: Vec<LeftStart>,
    pub(crate) at: usize,
}

/// Places of rows of both sides, side by side.
#[derive(Drop)]
pub(crate) struct PlacePairs {
    pub(crate) lefts: Vec<usize>,
    pub(crate) rights: Vec<usize>,
}

impl LeftRows {
    /// Whether each row is joined.
    pub(crate) fn is_joined(&self) -> bool
        ensures { result ≡ leb (length self.now.starts.items) self.now.at }
    {
        self.starts.len() <= self.at
    }

    // The next left row, and the next right row of it.
    fn start(&self) -> LeftStart
        requires { self.now.at < length self.now.starts.items }
        ensures { result ≡ slice_index_or self.now.starts.items self.now.at no_start }
    {
        self.starts[self.at]
    }

    // Goes on to the right row behind, or to the next left row where there is none.
    fn advance(&mut self, start: LeftStart, next: usize, rows: usize)
        requires { self.old.at < length self.old.starts.items }
        ensures { MovesOn start.left next rows self.old self.new }
    {
        if next < rows {
            let left = start.left;
            self.starts[self.at] = LeftStart { left, next };
        } else {
            self.at += 1;
        }
    }

    // Adds one pair of places.
    fn pair_one(
        &mut self,
        join: &JoinSpec,
        index: &JoinIndex,
        pairs: &mut PlacePairs,
    ) -> Result<(), Memory>
        requires index { IsIndexOf join.now.pairs index.now }
        requires fit { AreFit join.now.pairs index.now.rows.rows self.old }
        requires some { self.old.at < length self.old.starts.items }
        ensures fit { AreFit join.now.pairs index.now.rows.rows self.new }
        ensures chunk { self.new.chunk ≡ self.old.chunk }
        ensures more { OnOk result
            (PairsMore join.now.pairs index.now.rows.rows self.old self.new pairs.old pairs.new) }
    {
        let start = self.start();
        pairs.lefts.push(start.left)?;
        pairs.rights.push(start.next)?;
        self.advance(start, index.nexts[start.next], index.rows.rows());
        Ok(())
    }

    // Adds at most so many pairs of places.
    fn pair_some(
        &mut self,
        join: &JoinSpec,
        index: &JoinIndex,
        pairs: &mut PlacePairs,
        most: usize,
    ) -> Result<(), Memory>
        requires index { IsIndexOf join.now.pairs index.now }
        requires fit { AreFit join.now.pairs index.now.rows.rows self.old }
        requires none { (pairs.old.lefts.items ≡ []) × (pairs.old.rights.items ≡ []) }
        ensures fit { AreFit join.now.pairs index.now.rows.rows self.new }
        ensures chunk { self.new.chunk ≡ self.old.chunk }
        ensures joins { OnOk result
            (JoinsRows join.now.pairs index.now.rows.rows self.old self.new pairs.new) }
        ensures few { OnOk result (length pairs.new.lefts.items ≤ most) }
        ensures some { OnOk result ((length pairs.new.lefts.items ≡ most)
            ⊎ (rows_to_join join.now.pairs index.now.rows.rows self.new ≡ [])) }
    {
        for _done in 0..most {
            if self.is_joined() {
                return Ok(());
            }
            self.pair_one(join, index, pairs)?;
        }
        Ok(())
    }

    /// A chunk of the next rows, each beside one with which it agrees.
    pub(crate) fn next_chunk(
        &mut self,
        alloc: Global,
        join: &JoinSpec,
        index: &JoinIndex,
    ) -> Result<Chunk, Memory>
        requires index { IsIndexOf join.now.pairs index.now }
        requires fit { AreFit join.now.pairs index.now.rows.rows self.old }
        ensures fit { AreFit join.now.pairs index.now.rows.rows self.new }
        ensures chunk { self.new.chunk ≡ self.old.chunk }
        ensures joins { IfOk result (JoinsSome join.now index.now self.old self.new) }
    {
        let most = (join.rows as usize).max(1);
        let mut pairs = PlacePairs {
            lefts: Vec::new(alloc),
            rights: Vec::new(alloc),
        };
        self.pair_some(join, index, &mut pairs, most)?;
        let left = self.chunk.gather(pairs.lefts.as_slice())?;
        let right = index.rows.gather(pairs.rights.as_slice())?;
        match left.beside(right) {
            Ok(chunk) => Ok(chunk),
            Err(memory) => Err(memory),
        }
    }
}
