ghost use Rattle.std.specs.Prelude.{◌≡◌, ◌↔◌, IsTrue, IfOk, map};
ghost use Rattle.proc_api.specs.kinds.HashJoin.{AreKeyPairs, FitsJoin, IsKeyPair};
ghost use Rattle.join_proc.specs.Joins.{left_places, right_places};

use chunk_data::{Chunk, ColumnType, Memory, type_at};
use query_model::checked::KeyPair;
use query_model::processor_spec::JoinSpec;
use std::alloc::Global;

/// Whether a chunk of the input has the types of its side, and the pairs are of their columns.
pub(crate) fn fits_join(join: &JoinSpec, input: usize, chunk: &Chunk) -> bool
    ensures { IsTrue result ↔ FitsJoin join.now input chunk.now.types }
{
    let types = if input == 0 { &join.left } else { &join.right };
    are_types(chunk.types().as_slice(), types.as_slice()) && are_key_pairs(join)
}

// Whether the types are those.
fn are_types(types: &[ColumnType], others: &[ColumnType]) -> bool
    ensures { IsTrue result ↔ (types.now ≡ others.now) }
{
    types == others
}

// Whether each pair has a column of either side, both of one type apart from Nullable.
fn are_key_pairs(join: &JoinSpec) -> bool
    ensures { IsTrue result ↔ AreKeyPairs join.now }
{
    let left = join.left.as_slice();
    let right = join.right.as_slice();
    join.pairs
        .as_slice()
        .iter()
        .all(|pair| is_key_pair(pair, left, right))
}

// Whether the pair has a column of either side, both of one type apart from Nullable.
fn is_key_pair(pair: &KeyPair, left: &[ColumnType], right: &[ColumnType]) -> bool
    ensures { IsTrue result ↔ IsKeyPair left.now right.now pair.now }
{
    let l = pair.left as usize;
    let r = pair.right as usize;
    l < left.len() && r < right.len() && type_at(left, l).is_alike(type_at(right, r))
}

/// The columns of the FROM table that must agree.
pub(crate) fn left_columns(alloc: Global, join: &JoinSpec) -> Result<Vec<usize>, Memory>
    ensures { IfOk result (λ v. v.items ≡ left_places join.now.pairs) }
{
    let mut columns = Vec::with_capacity(alloc, join.pairs.len())?;
    for pair in join.pairs.as_slice() {
        columns.push(pair.left as usize)?;
    }
    Ok(columns)
}

/// The columns of the JOIN table with which they must agree.
pub(crate) fn right_columns(alloc: Global, join: &JoinSpec) -> Result<Vec<usize>, Memory>
    ensures { IfOk result (λ v. v.items ≡ right_places join.now.pairs) }
{
    let mut columns = Vec::with_capacity(alloc, join.pairs.len())?;
    for pair in join.pairs.as_slice() {
        columns.push(pair.right as usize)?;
    }
    Ok(columns)
}
