ghost use Rattle.std.specs.Prelude.{◌≡◌, ◌<◌, ◌≤◌, ◌+◌, ◌^◌, ◌+ℤ◌, cond, drop, pos, length, map, slice_index_or, take, IfOk, IsPermutation, IsSortedBy, nat_lt};
ghost use Rattle.std.specs.List.{All};
ghost use Rattle.chunk_data.specs.Names.{stored_values, values, AgreeOnKey, IsTable, value_at, row_at};
ghost use Rattle.query_model.specs.Sources.{count_up};
ghost use Rattle.sort_procs.specs.Ranks.{bytes_told, digit, AreBytes, HasRanks, HasValueRank, is_exact, IsKeyRank, IsRank, keys_left, keys_tied, in_direction, is_ranked_before, place_cmp, ranked_place, ranked_cmp, rows_at, text_rank as text_number, value_behind, value_rank, IsSplit, PutsFront, PutsMore};

use chunk_data::{Chunk, Column, Memory, PlainSlice, SortKey};
use std::alloc::Global;
use std::cmp::Ordering;

const NULL_RANK: u64 = u64::MAX;

/// The last rank of values, which those have too that would have NULL's.
const LAST_RANK: u64 = u64::MAX - 1;

/// A row by its place, with two ranks that go before the keys. The first is that of the first key,
/// and the second goes on where it ends: at the next key, or within a text at the bytes behind
/// those that it tells. So each is lower only where the row comes first, the second among rows that
/// have the same first. NULL has a rank of its own behind those of all values.
#[derive(Clone, Copy, PartialEq, Eq)]
pub(crate) struct Ranked {
    pub(crate) first: u64,
    pub(crate) second: u64,
    pub(crate) place: usize,
}

/// Puts the first of the places from one on in order, about as many as are wanted or more, so that
/// none behind them is before one of them. It answers how many.
pub(crate) fn put_more(
    alloc: Global,
    rows: &Chunk,
    keys: &[SortKey],
    places: &mut Vec<Ranked>,
    from: usize,
    wanted: usize,
) -> usize
    requires keys { All (AgreeOnKey rows.now.types rows.now.types) keys.now }
    requires here { from ≤ length places.old.items }
    ensures few { from + result ≤ length places.old.items }
    ensures some { result ≡ 0 → from ≡ length places.old.items }
    ensures puts { PutsMore rows.now keys.now from result places.old.items places.new.items }
{
    put_front(alloc, rows, keys, &mut places[from..], wanted)
}

// Puts the first of the ranks in order, about as many as are wanted or more, so that none of the
// others is before one of them. It answers how many.
fn put_front(
    alloc: Global,
    rows: &Chunk,
    keys: &[SortKey],
    ranks: &mut [Ranked],
    wanted: usize,
) -> usize
    requires { All (AgreeOnKey rows.now.types rows.now.types) keys.now }
    ensures few { result ≤ length ranks.old }
    ensures some { result ≡ 0 → length ranks.old ≡ 0 }
    ensures puts { PutsFront rows.now keys.now result ranks.old ranks.new }
{
    let count = split_ranks(alloc, rows, keys, ranks, wanted);
    sort_ranks(rows, keys, &mut ranks[..count]);
    count
}

// Moves ranks to the front, so that none of the others is before one of them, and answers how many.
// Where they would be fewer than wanted, all are the front.
fn split_ranks(
    alloc: Global,
    rows: &Chunk,
    keys: &[SortKey],
    ranks: &mut [Ranked],
    wanted: usize,
) -> usize
    requires { All (AgreeOnKey rows.now.types rows.now.types) keys.now }
    ensures same { IsPermutation ranks.old ranks.new }
    ensures few { result ≤ length ranks.old }
    ensures some { result ≡ 0 → length ranks.old ≡ 0 }
    ensures split { IsSplit rows.now keys.now (take result ranks.new) (drop result ranks.new) }
{
    match pivot_of(alloc, rows, keys, ranks, wanted) {
        Some(pivot) => {
            let count = move_front(rows, keys, ranks, pivot);
            if count > wanted { count } else { ranks.len() }
        }
        None => ranks.len(),
    }
}

// A rank that about twice as many as are wanted are before, by a sample of a thousand. None where
// these would be nearly all, or there is no memory for a sample.
fn pivot_of(
    alloc: Global,
    rows: &Chunk,
    keys: &[SortKey],
    ranks: &[Ranked],
    wanted: usize,
) -> Option<Ranked>
    requires { All (AgreeOnKey rows.now.types rows.now.types) keys.now }
{
    let step = ranks.len() / 1024 + 1;
    let mut sample = Vec::new(alloc);
    for ranked in ranks.iter().step_by(step) {
        match sample.push(*ranked) {
            Ok(()) => {}
            Err(_) => return None,
        }
    }
    sort_ranks(rows, keys, sample.as_mut_slice());
    sample
        .get((wanted / step).saturating_mul(2).saturating_add(8))
        .copied()
}

// Moves the ranks that are before the pivot to the front, and answers how many.
fn move_front(rows: &Chunk, keys: &[SortKey], ranks: &mut [Ranked], pivot: Ranked) -> usize
    requires { All (AgreeOnKey rows.now.types rows.now.types) keys.now }
    ensures same { IsPermutation ranks.old ranks.new }
    ensures few { result ≤ length ranks.old }
    ensures split { IsSplit rows.now keys.now (take result ranks.new) (drop result ranks.new) }
{
    let mut count = 0;
    for i in 0..ranks.len() {
        if is_before(rows, keys, ranks, i, pivot) {
            ranks.swap(i, count);
            count += 1;
        }
    }
    count
}

// Whether the rank at a place is before the pivot.
fn is_before(rows: &Chunk, keys: &[SortKey], ranks: &[Ranked], i: usize, pivot: Ranked) -> bool
    requires keys { All (AgreeOnKey rows.now.types rows.now.types) keys.now }
    requires here { i < length ranks.now }
    ensures { result
        ≡ is_ranked_before rows.now keys.now (slice_index_or ranks.now i pivot) pivot }
{
    compare_ranked(rows, rows, keys, ranks[i], pivot).is_lt()
}

// Puts the ranks in order.
fn sort_ranks(rows: &Chunk, keys: &[SortKey], ranks: &mut [Ranked])
    requires { All (AgreeOnKey rows.now.types rows.now.types) keys.now }
    ensures same { IsPermutation ranks.old ranks.new }
    ensures sorted { IsSortedBy (is_ranked_before rows.now keys.now) ranks.new }
{
    ranks.sort_unstable_by(|a, b| compare_ranked(rows, rows, keys, *a, *b));
}

/// The rows at the places.
pub(crate) fn gather_ranked(alloc: Global, rows: &Chunk, ranks: &[Ranked]) -> Result<Chunk, Memory>
    requires { All (λ r. r.place < length rows.now.rows) ranks.now }
    ensures types { IfOk result (λ c. c.types ≡ rows.now.types) }
    ensures rows { IfOk result (λ c. c.rows ≡ rows_at rows.now.rows ranks.now) }
{
    let mut places = Vec::with_capacity(alloc, ranks.len())?;
    for ranked in ranks {
        places.push(ranked.place)?;
    }
    rows.gather(places.as_slice())
}

/// The rows in their own order, each with its ranks.
pub(crate) fn ranks_of(alloc: Global, rows: &Chunk, keys: &[SortKey]) -> Result<Vec<Ranked>, Memory>
    requires { All (AgreeOnKey rows.now.types rows.now.types) keys.now }
    ensures places { IfOk result (λ v. map ranked_place v.items ≡ count_up (length rows.now.rows)) }
    ensures ranked { IfOk result (λ v. All (HasRanks rows.now keys.now) v.items) }
    ensures typed { IsTable rows.now }
{
    let n = rows.rows();
    let mut ranks = Vec::with_capacity(alloc, n)?;
    for place in 0..n {
        ranks.push(rank_row(rows, keys, place))?;
    }
    Ok(ranks)
}

// The row at a place, with its ranks.
#[tactic(auto, using(crate::proofs::RankLaws::has_ranks))]
fn rank_row(rows: &Chunk, keys: &[SortKey], place: usize) -> Ranked
    requires here { place < length rows.now.rows }
    requires keys { All (AgreeOnKey rows.now.types rows.now.types) keys.now }
    ensures place { result.place ≡ place }
    ensures ranks { HasRanks rows.now keys.now result }
{
    let first = rank_of(rows, keys, 0, place);
    let behind = keys_left(rows, keys, first);
    let told = bytes_told(rows, keys, 0, first);
    let second = rank_of(rows, behind, told, place);
    Ranked {
        first,
        second,
        place,
    }
}

// The keys at which rows whose first has this rank may differ.
fn keys_left<'a>(rows: &Chunk, keys: &'a [SortKey], rank: u64) -> &'a [SortKey]
    requires { All (AgreeOnKey rows.now.types rows.now.types) keys.now }
    ensures left { result.now ≡ keys_left rows.now.types keys.now rank }
    ensures keys { All (AgreeOnKey rows.now.types rows.now.types) result.now }
{
    if is_exact(rows, keys, rank) {
        &keys[1..]
    } else {
        keys
    }
}

// How many bytes of the text of the first of these keys are told by this rank and those before it.
fn bytes_told(rows: &Chunk, keys: &[SortKey], told: usize, rank: u64) -> usize
    requires keys { All (AgreeOnKey rows.now.types rows.now.types) keys.now }
    requires few { told + 7 < 2 ^ 64 }
    ensures told { result ≡ bytes_told rows.now.types keys.now told rank }
    ensures few { result ≤ told + 7 }
{
    if is_exact(rows, keys, rank) {
        0
    } else {
        told + 7
    }
}

// Whether rows whose first keys have this rank don't differ there. NULL never does, and before the
// last rank of values, which two of them may have, neither do numbers, and texts where they are as
// short as the rank tells.
fn is_exact(rows: &Chunk, keys: &[SortKey], rank: u64) -> bool
    requires { All (AgreeOnKey rows.now.types rows.now.types) keys.now }
    ensures { result ≡ is_exact rows.now.types keys.now rank }
{
    match keys.first() {
        Some(key) => {
            let kind = rows.column(key.column as usize).kind();
            rank == NULL_RANK
                || (rank != LAST_RANK
                    && (!kind.is_text() || in_direction(key.descending, rank) % 2 == 0))
        }
        None => false,
    }
}

/// The rank of the row at a place: that of its first key, behind the bytes of its text that are
/// told.
pub(crate) fn rank_of(rows: &Chunk, keys: &[SortKey], told: usize, place: usize) -> u64
    requires here { place < length rows.now.rows }
    requires keys { All (AgreeOnKey rows.now.types rows.now.types) keys.now }
    ensures { IsRank keys.now told (row_at rows.now.rows place) result }
{
    match keys.first() {
        Some(key) => rank_at(
            rows.column(key.column as usize),
            key.descending,
            told,
            place,
        ),
        None => 0,
    }
}

/// How rows of two chunks compare: by their ranks, and where these are the same by the keys of
/// which they don't tell.
pub(crate) fn compare_ranked(
    left: &Chunk,
    right: &Chunk,
    keys: &[SortKey],
    a: Ranked,
    b: Ranked,
) -> Ordering
    requires types { left.now.types ≡ right.now.types }
    requires keys { All (AgreeOnKey left.now.types left.now.types) keys.now }
    ensures { result ≡ ranked_cmp left.now right.now keys.now a b }
{
    match a.first.cmp(&b.first) {
        Ordering::Equal => match a.second.cmp(&b.second) {
            Ordering::Equal => {
                compare_places(left, right, tied_keys(left, keys, a), a.place, b.place)
            }
            unequal => unequal,
        },
        unequal => unequal,
    }
}

// The keys by which rows with the same ranks may differ.
fn tied_keys<'a>(rows: &Chunk, keys: &'a [SortKey], ranked: Ranked) -> &'a [SortKey]
    requires { All (AgreeOnKey rows.now.types rows.now.types) keys.now }
    ensures tied { result.now ≡ keys_tied rows.now.types keys.now ranked }
    ensures keys { All (AgreeOnKey rows.now.types rows.now.types) result.now }
{
    keys_left(rows, keys_left(rows, keys, ranked.first), ranked.second)
}

// How rows of two chunks compare by the keys. Places past the last row come behind all others.
#[tactic(auto, using(crate::proofs::RankLaws::places_out))]
fn compare_places(left: &Chunk, right: &Chunk, keys: &[SortKey], i: usize, j: usize) -> Ordering
    requires types { left.now.types ≡ right.now.types }
    requires keys { All (AgreeOnKey left.now.types left.now.types) keys.now }
    ensures { result ≡ place_cmp keys.now left.now.rows right.now.rows i j }
{
    let n = left.rows();
    let m = right.rows();
    if i < n && j < m {
        left.compare_rows(i, right, j, keys)
    } else {
        (n <= i).cmp(&(m <= j))
    }
}

// The rank of a value behind the bytes that are told, as a key has it: that of NULL comes last in
// both directions.
#[tactic(auto, using(crate::proofs::RankLaws::rank_of_valid, crate::proofs::RankLaws::rank_of_null, crate::proofs::Imports::no_null))]
fn rank_at(column: &Column, descending: bool, told: usize, i: usize) -> u64
    requires { i < length (values column.now) }
    ensures { IsKeyRank descending (value_behind told (value_at (values column.now) i)) result }
{
    if !column.is_valid(i) {
        return NULL_RANK;
    }
    in_direction(descending, stored_rank(column, told, i)).min(LAST_RANK)
}

// The rank in the order of a key, which may turn that of the values round.
fn in_direction(descending: bool, rank: u64) -> u64
    ensures { result ≡ in_direction descending rank }
{
    if descending { u64::MAX - rank } else { rank }
}

// A number that is lower only where what is kept comes first in its column, among the texts that
// begin with the bytes that are told. At a NULL some value is kept.
fn stored_rank(column: &Column, told: usize, i: usize) -> u64
    requires { i < length (stored_values column.now) }
    ensures rank { result ≡ value_rank (value_behind told (value_at (stored_values column.now) i)) }
    ensures has { HasValueRank (value_behind told (value_at (stored_values column.now) i)) }
{
    match column.plain() {
        PlainSlice::Ints(numbers) => int_rank(numbers[i]),
        PlainSlice::UInts(numbers) => numbers[i],
        PlainSlice::Texts(texts) => text_rank(bytes_behind(texts.get(i), told)),
    }
}

// What follows the first n bytes.
#[tactic(auto, using(crate::proofs::Imports::drop_all))]
fn bytes_behind(bytes: &[u8], n: usize) -> &[u8]
    ensures { result.now ≡ drop n bytes.now }
{
    if n < bytes.len() {
        &bytes[n..]
    } else {
        &bytes[bytes.len()..]
    }
}

// The number, counted from the least.
fn int_rank(number: i64) -> u64
    ensures { pos result ≡ number +ℤ pos (2 ^ 63) }
{
    (number as i128 + (1 << 63)) as u64
}

// The first 7 bytes as a number, of which the first counts most and none is counted lower than a
// byte 0, and last whether there are more.
#[tactic(auto, using(crate::proofs::TextRanks::seven_bytes))]
fn text_rank(bytes: &[u8]) -> u64
    ensures { (result ≡ text_number 7 bytes.now) × AreBytes 7 bytes.now }
{
    let high = (digit_at(bytes, 0) * 257 + digit_at(bytes, 1)) * 257 + digit_at(bytes, 2);
    let low = (digit_at(bytes, 3) * 257 + digit_at(bytes, 4)) * 257 + digit_at(bytes, 5);
    ((high * 16_974_593 + low) * 257 + digit_at(bytes, 6)) * 2 + one_past(bytes, 7)
}

// 1 where there is a byte at the place, else 0.
fn one_past(bytes: &[u8], i: usize) -> u64
    ensures more { result ≡ cond (nat_lt i (length bytes.now)) 1 0 }
    ensures small { result < 2 }
{
    if i < bytes.len() { 1 } else { 0 }
}

// The byte at a place and one, or 0 behind the last.
fn digit_at(bytes: &[u8], i: usize) -> u64
    ensures digit { result ≡ digit bytes.now i }
    ensures small { result < 257 }
{
    if i < bytes.len() {
        bytes[i] as u64 + 1
    } else {
        0
    }
}
