ghost use Rattle.std.specs.Prelude.{◌≡◌, ℕ, ◌+◌, ◌≤◌, ◌<◌, ◌++◌, ◌∷◌, List, [], length, map, take, drop, slice_index_or, OnOk, OnErr, IfOk, All};
ghost use Rattle.chunk_data.specs.PlainColumns.{plain_column_type, plain_values, slice_type, slice_values};
ghost use Rattle.chunk_data.specs.Rows.{kept};
ghost use Rattle.chunk_data.specs.Values.{plain_default, value_at, value_cmp};

use crate::compact::{copy_items, gather_ints, gather_uints, keep_items, remove_front};
use crate::lists::Memory;
use crate::text_column::Texts;
use crate::typed_value::{PlainType, Value};
use std::alloc::Global;
use std::cmp::Ordering;

/// Values without NULL, in one vector of their own type.
#[derive(Debug, Drop)]
pub(crate) enum PlainColumn {
    Int64(Vec<i64>),
    UInt64(Vec<u64>),
    Text(Texts),
}

/// The same as a column lends them, for loops over all of them.
#[derive(Clone, Copy)]
pub enum PlainSlice<'a> {
    Ints(&'a [i64]),
    UInts(&'a [u64]),
    Texts(&'a Texts),
}

// What a column does with all its values, NULL apart; `Column` says what each call is for.
impl PlainColumn {
    pub(crate) fn new(alloc: Global, kind: PlainType) -> Self
        ensures kind { plain_column_type result ≡ kind }
        ensures empty { plain_values result ≡ [] }
    {
        match kind {
            PlainType::Int64 => PlainColumn::Int64(Vec::new(alloc)),
            PlainType::UInt64 => PlainColumn::UInt64(Vec::new(alloc)),
            PlainType::Text => PlainColumn::Text(Texts::new(alloc)),
        }
    }

    pub(crate) fn kind(&self) -> PlainType
        ensures { result ≡ plain_column_type self.now }
    {
        match self {
            PlainColumn::Int64(_) => PlainType::Int64,
            PlainColumn::UInt64(_) => PlainType::UInt64,
            PlainColumn::Text(_) => PlainType::Text,
        }
    }

    pub(crate) fn len(&self) -> usize
        ensures { result ≡ length (plain_values self.now) }
    {
        match self {
            PlainColumn::Int64(numbers) => numbers.len(),
            PlainColumn::UInt64(numbers) => numbers.len(),
            PlainColumn::Text(texts) => texts.len(),
        }
    }

    pub(crate) fn slice(&self) -> PlainSlice<'_>
        ensures kind { slice_type result ≡ plain_column_type self.now }
        ensures values { slice_values result ≡ plain_values self.now }
    {
        match self {
            PlainColumn::Int64(numbers) => PlainSlice::Ints(numbers.as_slice()),
            PlainColumn::UInt64(numbers) => PlainSlice::UInts(numbers.as_slice()),
            PlainColumn::Text(texts) => PlainSlice::Texts(texts),
        }
    }

    pub(crate) fn reserve(&mut self, n: usize) -> Result<(), Memory>
        ensures kind { plain_column_type self.new ≡ plain_column_type self.old }
        ensures values { plain_values self.new ≡ plain_values self.old }
    {
        match self {
            PlainColumn::Int64(numbers) => numbers.try_reserve(n)?,
            PlainColumn::UInt64(numbers) => numbers.try_reserve(n)?,
            PlainColumn::Text(texts) => texts.reserve(n)?,
        }
        Ok(())
    }

    pub(crate) fn push_int(&mut self, number: i64) -> Result<(), Memory>
        requires { plain_column_type self.old ≡ PlainType.Int64 }
        ensures kind { plain_column_type self.new ≡ plain_column_type self.old }
        ensures ok { OnOk result
            (plain_values self.new ≡ plain_values self.old ++ Value.Int number ∷ []) }
        ensures err { OnErr result (plain_values self.new ≡ plain_values self.old) }
    {
        match self {
            PlainColumn::Int64(numbers) => numbers.push(number)?,
            _ => unreachable!(),
        }
        Ok(())
    }

    pub(crate) fn push_uint(&mut self, number: u64) -> Result<(), Memory>
        requires { plain_column_type self.old ≡ PlainType.UInt64 }
        ensures kind { plain_column_type self.new ≡ plain_column_type self.old }
        ensures ok { OnOk result
            (plain_values self.new ≡ plain_values self.old ++ Value.UInt number ∷ []) }
        ensures err { OnErr result (plain_values self.new ≡ plain_values self.old) }
    {
        match self {
            PlainColumn::UInt64(numbers) => numbers.push(number)?,
            _ => unreachable!(),
        }
        Ok(())
    }

    pub(crate) fn push_text(&mut self, text: &[u8]) -> Result<(), Memory>
        requires { plain_column_type self.old ≡ PlainType.Text }
        ensures kind { plain_column_type self.new ≡ plain_column_type self.old }
        ensures ok { OnOk result
            (plain_values self.new ≡ plain_values self.old ++ Value.Text text.now ∷ []) }
        ensures err { OnErr result (plain_values self.new ≡ plain_values self.old) }
    {
        match self {
            PlainColumn::Text(texts) => texts.push(text),
            _ => unreachable!(),
        }
    }

    /// Adds 0 or the empty text, which stands where a column has NULL.
    pub(crate) fn push_default(&mut self) -> Result<(), Memory>
        ensures kind { plain_column_type self.new ≡ plain_column_type self.old }
        ensures ok { OnOk result (plain_values self.new
            ≡ plain_values self.old ++ plain_default (plain_column_type self.old) ∷ []) }
        ensures err { OnErr result (plain_values self.new ≡ plain_values self.old) }
    {
        match self {
            PlainColumn::Int64(numbers) => numbers.push(0)?,
            PlainColumn::UInt64(numbers) => numbers.push(0)?,
            PlainColumn::Text(texts) => texts.push(&[])?,
        }
        Ok(())
    }

    pub(crate) fn value(&self, i: usize) -> Result<Value, Memory>
        requires { i < length (plain_values self.now) }
        ensures { IfOk result (λ v. v ≡ value_at (plain_values self.now) i) }
    {
        match self {
            PlainColumn::Int64(numbers) => Ok(Value::Int(numbers[i])),
            PlainColumn::UInt64(numbers) => Ok(Value::UInt(numbers[i])),
            PlainColumn::Text(texts) => Ok(Value::Text(texts.copy_at(i)?)),
        }
    }

    pub(crate) fn compare(&self, i: usize, other: &PlainColumn, j: usize) -> Ordering
        requires kinds { plain_column_type other.now ≡ plain_column_type self.now }
        requires here { i < length (plain_values self.now) }
        requires there { j < length (plain_values other.now) }
        ensures { result
            ≡ value_cmp (value_at (plain_values self.now) i) (value_at (plain_values other.now) j) }
    {
        match (self, other) {
            (PlainColumn::Int64(xs), PlainColumn::Int64(ys)) => xs[i].cmp(&ys[j]),
            (PlainColumn::UInt64(xs), PlainColumn::UInt64(ys)) => xs[i].cmp(&ys[j]),
            (PlainColumn::Text(xs), PlainColumn::Text(ys)) => xs.get(i).cmp(ys.get(j)),
            _ => unreachable!(),
        }
    }

    #[tactic(auto, using(crate::proofs::Cells::maps))]
    pub(crate) fn keep(&mut self, mask: &[bool])
        requires { length mask.now ≡ length (plain_values self.old) }
        ensures kind { plain_column_type self.new ≡ plain_column_type self.old }
        ensures kept { plain_values self.new ≡ kept mask.now (plain_values self.old) }
    {
        match self {
            PlainColumn::Int64(numbers) => keep_items(numbers, mask),
            PlainColumn::UInt64(numbers) => keep_items(numbers, mask),
            PlainColumn::Text(texts) => texts.keep(mask),
        }
    }

    #[tactic(auto, using(crate::proofs::Cells::maps))]
    pub(crate) fn truncate(&mut self, n: usize)
        ensures kind { plain_column_type self.new ≡ plain_column_type self.old }
        ensures front { plain_values self.new ≡ take n (plain_values self.old) }
    {
        match self {
            PlainColumn::Int64(numbers) => numbers.truncate(n),
            PlainColumn::UInt64(numbers) => numbers.truncate(n),
            PlainColumn::Text(texts) => texts.truncate(n),
        }
    }

    #[tactic(auto, using(crate::proofs::Cells::maps))]
    pub(crate) fn remove_front(&mut self, n: usize)
        ensures kind { plain_column_type self.new ≡ plain_column_type self.old }
        ensures rest { plain_values self.new ≡ drop n (plain_values self.old) }
    {
        match self {
            PlainColumn::Int64(numbers) => remove_front(numbers, n),
            PlainColumn::UInt64(numbers) => remove_front(numbers, n),
            PlainColumn::Text(texts) => texts.remove_front(n),
        }
    }

    #[tactic(auto, using(crate::proofs::Cells::maps))]
    pub(crate) fn append_range(
        &mut self,
        other: &PlainColumn,
        from: usize,
        n: usize,
    ) -> Result<(), Memory>
        requires kinds { plain_column_type other.now ≡ plain_column_type self.old }
        requires in_range { from + n ≤ length (plain_values other.now) }
        ensures kind { plain_column_type self.new ≡ plain_column_type self.old }
        ensures ok { OnOk result (plain_values self.new
            ≡ plain_values self.old ++ take n (drop from (plain_values other.now))) }
        ensures err { OnErr result (plain_values self.new ≡ plain_values self.old) }
    {
        match (self, other) {
            (PlainColumn::Int64(numbers), PlainColumn::Int64(others)) => {
                Ok(numbers.extend_from_slice(&others.as_slice()[from..from + n])?)
            }
            (PlainColumn::UInt64(numbers), PlainColumn::UInt64(others)) => {
                Ok(numbers.extend_from_slice(&others.as_slice()[from..from + n])?)
            }
            (PlainColumn::Text(texts), PlainColumn::Text(others)) => {
                texts.append_range(others, from, n)
            }
            _ => unreachable!(),
        }
    }

    #[tactic(auto, using(crate::proofs::Cells::maps))]
    pub(crate) fn gather(&self, places: &[usize]) -> Result<PlainColumn, Memory>
        requires { All (λ p. p < length (plain_values self.now)) places.now }
        ensures kind { IfOk result (λ c. plain_column_type c ≡ plain_column_type self.now) }
        ensures values { IfOk result
            (λ c. plain_values c ≡ map (value_at (plain_values self.now)) places.now) }
    {
        match self {
            PlainColumn::Int64(numbers) => Ok(PlainColumn::Int64(gather_ints(numbers, places)?)),
            PlainColumn::UInt64(numbers) => {
                Ok(PlainColumn::UInt64(gather_uints(numbers, places)?))
            }
            PlainColumn::Text(texts) => Ok(PlainColumn::Text(texts.gather(places)?)),
        }
    }

    pub(crate) fn copy(&self) -> Result<PlainColumn, Memory>
        ensures kind { IfOk result (λ c. plain_column_type c ≡ plain_column_type self.now) }
        ensures values { IfOk result (λ c. plain_values c ≡ plain_values self.now) }
    {
        match self {
            PlainColumn::Int64(numbers) => Ok(PlainColumn::Int64(copy_items(numbers)?)),
            PlainColumn::UInt64(numbers) => Ok(PlainColumn::UInt64(copy_items(numbers)?)),
            PlainColumn::Text(texts) => Ok(PlainColumn::Text(texts.copy()?)),
        }
    }
}
