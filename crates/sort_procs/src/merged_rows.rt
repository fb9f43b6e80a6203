ghost use Rattle.std.specs.Prelude.{◌≡◌, ◌++◌, ◌+◌, ◌<◌, ◌≤◌, ◌^◌, false, length, true, OnOk, IfOk};
ghost use Rattle.std.specs.List.{list_all};
ghost use Rattle.proc_api.specs.kinds.MergeSorted.{IsBeforeNone};
ghost use Rattle.sort_procs.specs.Heads.{AreRanked, at, first_row, GoesFirst, IsRanked, IsRowRun, IsRunBefore, is_ready, is_used, next_rows};
ghost use Rattle.sort_procs.specs.Merging.{MergesSome};

use crate::heads::{Head, first_but, goes_first, heads_in_use, move_head};
use chunk_data::{Chunk, Memory};
use query_model::processor_spec::SortSpec;
use std::alloc::Global;

/// Moves the first rows of all heads in order to a chunk, until it is full or an input that hasn't
/// ended has none. A run of rows of one head goes at once. It ends where another head comes first,
/// which is the one that was second.
pub(crate) fn merge_chunk(
    alloc: Global,
    heads: &mut [Head],
    order: &SortSpec,
) -> Result<Chunk, Memory>
    requires heads { AreRanked order.now heads.old }
    requires ready { list_all is_ready heads.old ≡ true }
    ensures heads { AreRanked order.now heads.new }
    ensures merges { IfOk result (λ c. MergesSome order.now heads.old heads.new c) }
{
    let mut chunk = Chunk::new(alloc, &order.types)?;
    let most = (order.rows as usize).max(1);
    let count = heads_in_use(heads);
    let mut first = first_but(heads, order, count, count);
    'fill: while chunk.rows() < most {
        let Some(i) = first else {
            return Ok(chunk);
        };
        let second = first_but(heads, order, i, count);
        let run = run_length(heads, order, i, second, most - chunk.rows());
        append_next(&mut chunk, &heads[i], run)?;
        move_head(&mut heads[i], run);
        if !heads[i].is_ready() {
            return Ok(chunk);
        }
        first = second;
    }
    Ok(chunk)
}

// How many of the first head's rows go before the second's, and fit the room.
fn run_length(
    heads: &[Head],
    order: &SortSpec,
    first: usize,
    second: Option<usize>,
    room: usize,
) -> usize
    requires are { AreRanked order.now heads.now }
    requires first { GoesFirst order.now.keys heads.now first second }
    requires room { 0 < room }
    ensures { IsRowRun order.now.keys heads.now (at heads.now first) second room result }
{
    let most = room.min(heads[first].chunk.rows() - heads[first].place);
    match second {
        None => most,
        Some(k) => run_before(&heads[first], &heads[k], order, most, first < k),
    }
}

// How many of the head's next rows, at most so many, go before the other's first, as those do that
// tie with it where the head is the lower. Each is looked at, since inputs may be out of order.
fn run_before(head: &Head, other: &Head, order: &SortSpec, most: usize, lower: bool) -> usize
    requires here { IsRanked order.now head.now }
    requires there { IsRanked order.now other.now }
    requires unused { is_used other.now ≡ false }
    requires some { 0 < most }
    requires few { head.now.place + most ≤ length head.now.chunk.rows }
    requires fits { head.now.place + most < 2 ^ 64 }
    requires first { IsBeforeNone order.now.keys (first_row other.now) (next_rows head.now 1) }
    ensures { IsRunBefore order.now.keys head.now other.now most result }
{
    for n in 1..most {
        if goes_first(other, head, head.place + n, order, lower) {
            return n;
        }
    }
    most
}

// Adds the head's next rows.
fn append_next(chunk: &mut Chunk, head: &Head, n: usize) -> Result<(), Memory>
    requires types { head.now.chunk.types ≡ chunk.old.types }
    requires within { head.now.place + n ≤ length head.now.chunk.rows }
    ensures types { chunk.new.types ≡ chunk.old.types }
    ensures ok { OnOk result (chunk.new.rows ≡ chunk.old.rows ++ next_rows head.now n) }
{
    chunk.append_range(&head.chunk, head.place, n)
}
