ghost use Rattle.std.specs.Prelude.{◌≡◌, ◌<◌, ◌≤◌, ◌+◌, ◌^◌, ◌&&◌, false, not, length};
ghost use Rattle.std.specs.List.{list_all};
ghost use Rattle.std.specs.Ordering.{is_lt};
ghost use Rattle.chunk_data.specs.Names.{IsTable, row_at, row_cmp};
ghost use Rattle.port_word.specs.Names.{in_count};
ghost use Rattle.sort_procs.specs.Heads.{AreRanked, AreUsedFrom, at, comes_before, first_row, goes_by, HasRows, is_over_at, is_ready, is_used, IsFirstBut, IsMoved, IsRanked, with_end_noted, NotesEnds};

use crate::ranks::{Ranked, compare_ranked};
use chunk_data::{Chunk, List};
use port_word::PortView;
use query_model::processor_spec::SortSpec;
use std::cmp::Ordering;

/// What a merge holds of an input: its last chunk, with the ranks of its rows, how many of these
/// were made, and whether the input's end was noted.
#[derive(Drop)]
pub(crate) struct Head {
    pub(crate) chunk: Chunk,
    pub(crate) ranks: List<Ranked>,
    pub(crate) place: usize,
    pub(crate) ended: bool,
}

impl Head {
    /// Whether each row of its chunk was made.
    pub(crate) fn is_used(&self) -> bool
        ensures used { result ≡ is_used self.now }
        ensures fit { IsTable self.now.chunk }
        ensures room { result ≡ false → self.now.place + 1 < 2 ^ 64 }
    {
        self.chunk.rows() <= self.place
    }

    /// Whether a row of it is there, or its end was noted.
    pub(crate) fn is_ready(&self) -> bool
        ensures { result ≡ is_ready self.now }
    {
        self.ended || !self.is_used()
    }
}

/// Notes the end of each input that is finished, or isn't there, and of which no row is left.
pub(crate) fn note_ends(heads: &mut [Head], view: &PortView)
    ensures ends { NotesEnds view.now (length heads.old) heads.old heads.new }
    ensures few { in_count view.now ≤ 32 }
{
    let inputs = view.inputs();
    for i in 0..heads.len() {
        let over = is_over(view, inputs, i);
        note_end(&mut heads[i], over);
    }
}

// Whether the input is finished, or isn't there.
fn is_over(view: &PortView, inputs: usize, i: usize) -> bool
    requires { inputs ≡ in_count view.now }
    ensures { result ≡ is_over_at view.now i }
{
    inputs <= i || view.in_finished(i)
}

// Notes the end of an input that is over, where no row of it is left.
fn note_end(head: &mut Head, over: bool)
    ensures { head.new ≡ with_end_noted over head.old }
{
    if over && head.is_used() {
        head.ended = true;
    }
}

/// Whether rows can be made: some are left, and of each input one is there, or the end was noted.
pub(crate) fn can_make(heads: &[Head]) -> bool
    ensures { result ≡ (list_all is_ready heads.now && not (list_all is_used heads.now)) }
{
    are_ready(heads) && !are_used(heads)
}

// Whether of each input a row is there, or the end was noted.
fn are_ready(heads: &[Head]) -> bool
    ensures { result ≡ list_all is_ready heads.now }
{
    heads.iter().all(|head| head.is_ready())
}

// Whether no row is left.
fn are_used(heads: &[Head]) -> bool
    ensures { result ≡ list_all is_used heads.now }
{
    heads.iter().all(|head| head.is_used())
}

/// How many heads there are up to the last that has rows.
pub(crate) fn heads_in_use(heads: &[Head]) -> usize
    ensures few { result ≤ length heads.now }
    ensures behind { AreUsedFrom heads.now result }
{
    let mut count = 0;
    for i in 0..heads.len() {
        if !heads[i].is_used() {
            count = i + 1;
        }
    }
    count
}

/// The lowest head, of so many but one, with the first row in the order of the keys.
pub(crate) fn first_but(heads: &[Head], order: &SortSpec, but: usize, count: usize) -> Option<usize>
    requires are { AreRanked order.now heads.now }
    requires few { count ≤ length heads.now }
    ensures { IsFirstBut order.now.keys heads.now but count result }
{
    let mut first = None;
    for i in 0..count {
        if i != but && goes_before(heads, order, i, first) {
            first = Some(i);
        }
    }
    first
}

// Whether head i has a row, and it comes before the other's first, if there is another.
fn goes_before(heads: &[Head], order: &SortSpec, i: usize, other: Option<usize>) -> bool
    requires are { AreRanked order.now heads.now }
    requires here { i < length heads.now }
    requires there { HasRows heads.now other }
    ensures { result
        ≡ (not (is_used (at heads.now i)) && comes_before order.now.keys heads.now i other) }
{
    if heads[i].is_used() {
        return false;
    }
    match other {
        None => true,
        Some(k) => is_before(&heads[i], &heads[k], order),
    }
}

// Whether the head's first row comes before the other's.
fn is_before(head: &Head, other: &Head, order: &SortSpec) -> bool
    requires here { IsRanked order.now head.now }
    requires some { is_used head.now ≡ false }
    requires there { IsRanked order.now other.now }
    requires more { is_used other.now ≡ false }
    ensures { result
        ≡ is_lt (row_cmp order.now.keys (first_row head.now) (first_row other.now)) }
{
    compare_first(head, other, other.place, order).is_lt()
}

/// Whether the head's first row goes before row i of the other's; where they tie, unless the
/// other's goes first.
pub(crate) fn goes_first(
    head: &Head,
    other: &Head,
    i: usize,
    order: &SortSpec,
    other_first: bool,
) -> bool
    requires here { IsRanked order.now head.now }
    requires some { is_used head.now ≡ false }
    requires there { IsRanked order.now other.now }
    requires within { i < length other.now.chunk.rows }
    ensures { result ≡ goes_by other_first
        (row_cmp order.now.keys (first_row head.now) (row_at other.now.chunk.rows i)) }
{
    match compare_first(head, other, i, order) {
        Ordering::Less => true,
        Ordering::Equal => !other_first,
        Ordering::Greater => false,
    }
}

// How the head's first row compares with row i of the other's.
fn compare_first(head: &Head, other: &Head, i: usize, order: &SortSpec) -> Ordering
    requires here { IsRanked order.now head.now }
    requires some { is_used head.now ≡ false }
    requires there { IsRanked order.now other.now }
    requires within { i < length other.now.chunk.rows }
    ensures { result
        ≡ row_cmp order.now.keys (first_row head.now) (row_at other.now.chunk.rows i) }
{
    let first = *head.ranks.get(head.place);
    let row = *other.ranks.get(i);
    let keys = order.keys.as_slice();
    compare_ranked(&head.chunk, &other.chunk, keys, first, row)
}

/// Counts so many more of the head's rows as made.
pub(crate) fn move_head(head: &mut Head, n: usize)
    requires { head.old.place + n < 2 ^ 64 }
    ensures { IsMoved n head.old head.new }
{
    head.place += n;
}
