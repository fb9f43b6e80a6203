ghost use Rattle.std.proofs.Props.{props};
ghost use Rattle.chunk_data.specs.PlainColumns.{HasOneEach};

use crate::compact::{copy_items, gather_bools, keep_items, remove_front};
use crate::lists::Memory;
use crate::plain_column::PlainColumn;
use crate::typed_value::{ColumnType, Value};
use std::alloc::Global;
use std::cmp::Ordering;

/// Values of one type. What they are kept in is known in this crate alone: plain values, and in a
/// column that may have NULL beside each whether it is valid. What stands under a NULL is any value
/// of the plain type, as a loop over all rows leaves it there.
#[derive(Debug, Drop)]
pub struct Column {
    pub(crate) plain: PlainColumn,
    pub(crate) validity: Option<Vec<bool>>,
    pub(crate) ghost one_each: { HasOneEach validity plain } by { Prim.hlevel props },
}

#[tactic(auto, using(crate::proofs::Nulls::nulls))]
impl Column {
    ghost use Rattle.std.specs.Prelude.{◌≡◌, ℕ, ◌+◌, ◌≤◌, ◌<◌, ◌++◌, ◌∷◌, List, [], length, map, take, drop, slice_index_or, OnOk, OnErr, IfOk, All};
    ghost use Rattle.chunk_data.specs.Names.{FitsType, value_at, key_cmp, column_type, stored_values, values, kept, or_null};

    /// A column without values; it takes no memory.
    pub fn new(alloc: Global, kind: ColumnType) -> Self
        ensures kind { column_type result ≡ kind }
        ensures empty { values result ≡ [] }
    {
        let plain = PlainColumn::new(alloc, kind.plain());
        if kind.is_nullable() {
            let validity = Some(Vec::new(alloc));
            return Column { plain, validity };
        }
        Column {
            plain,
            validity: None,
        }
    }

    /// The type of its values.
    pub fn kind(&self) -> ColumnType
        ensures { result ≡ column_type self.now }
    {
        self.plain.kind().nullable_if(self.validity.is_some())
    }

    /// How many values it has.
    pub fn len(&self) -> usize
        ensures { result ≡ length (values self.now) }
    {
        self.plain.len()
    }

    /// Makes room for n more values, of texts without their bytes; the values stay.
    pub fn reserve(&mut self, n: usize) -> Result<(), Memory>
        ensures kind { column_type self.new ≡ column_type self.old }
        ensures values { values self.new ≡ values self.old }
    {
        if let Some(validity) = &mut self.validity {
            validity.try_reserve(n)?;
        }
        self.plain.reserve(n)
    }

    /// Adds a value that fits the column's type; after an error nothing has changed and the value
    /// is dropped.
    pub fn push(&mut self, value: Value) -> Result<(), Memory>
        requires { FitsType (column_type self.old) value }
        ensures kind { column_type self.new ≡ column_type self.old }
        ensures ok { OnOk result (values self.new ≡ values self.old ++ value ∷ []) }
        ensures err { OnErr result (values self.new ≡ values self.old) }
    {
        self.push_copy(&value)
    }

    /// The same for a value that is only lent.
    pub fn push_copy(&mut self, value: &Value) -> Result<(), Memory>
        requires { FitsType (column_type self.old) value.now }
        ensures kind { column_type self.new ≡ column_type self.old }
        ensures ok { OnOk result (values self.new ≡ values self.old ++ value.now ∷ []) }
        ensures err { OnErr result (values self.new ≡ values self.old) }
    {
        match value {
            Value::Int(number) => self.push_int(*number),
            Value::UInt(number) => self.push_uint(*number),
            Value::Text(text) => self.push_text(text.as_slice()),
            Value::Null => self.push_null(),
        }
    }

    /// Whether value i isn't NULL.
    pub fn is_valid(&self, i: usize) -> bool
        requires { i < length (values self.now) }
        ensures { value_at (values self.now) i
            ≡ or_null result (value_at (stored_values self.now) i) }
    {
        match &self.validity {
            None => true,
            Some(validity) => validity[i],
        }
    }

    /// A copy of value i.
    pub fn value(&self, i: usize) -> Result<Value, Memory>
        requires { i < length (values self.now) }
        ensures { IfOk result (λ v. v ≡ value_at (values self.now) i) }
    {
        if !self.is_valid(i) {
            return Ok(Value::Null);
        }
        let value = self.plain.value(i)?;
        Ok(value)
    }

    /// How value i compares with the other column's value j, as a key; NULL stands last.
    pub fn compare(&self, i: usize, other: &Column, j: usize, descending: bool) -> Ordering
        requires kinds { column_type other.now ≡ column_type self.now }
        requires here { i < length (values self.now) }
        requires there { j < length (values other.now) }
        ensures { result ≡ key_cmp descending (value_at (values self.now) i)
            (value_at (values other.now) j) }
    {
        match (self.is_valid(i), other.is_valid(j)) {
            (true, true) => {
                let order = self.plain.compare(i, &other.plain, j);
                if descending { order.reverse() } else { order }
            }
            (true, false) => Ordering::Less,
            (false, true) => Ordering::Greater,
            (false, false) => Ordering::Equal,
        }
    }

    /// Exactly the values whose place in the mask has true stay, in order.
    pub fn keep(&mut self, mask: &[bool])
        requires { length mask.now ≡ length (values self.old) }
        ensures kind { column_type self.new ≡ column_type self.old }
        ensures kept { values self.new ≡ kept mask.now (values self.old) }
    {
        self.plain.keep(mask);
        if let Some(validity) = &mut self.validity {
            keep_items(validity, mask);
        }
    }

    /// The first n stay.
    pub fn truncate(&mut self, n: usize)
        ensures kind { column_type self.new ≡ column_type self.old }
        ensures front { values self.new ≡ take n (values self.old) }
    {
        self.plain.truncate(n);
        if let Some(validity) = &mut self.validity {
            validity.truncate(n);
        }
    }

    /// So many of the other's values, from a place on, after its own; after an error nothing has
    /// changed.
    pub fn append_range(&mut self, other: &Column, from: usize, n: usize) -> Result<(), Memory>
        requires kinds { column_type other.now ≡ column_type self.old }
        requires in_range { from + n ≤ length (values other.now) }
        ensures kind { column_type self.new ≡ column_type self.old }
        ensures ok { OnOk result
            (values self.new ≡ values self.old ++ take n (drop from (values other.now))) }
        ensures err { OnErr result (values self.new ≡ values self.old) }
    {
        match (&mut self.validity, &other.validity) {
            (None, None) => self.plain.append_range(&other.plain, from, n),
            (Some(validity), Some(others)) => {
                validity.try_reserve(n)?;
                self.plain.append_range(&other.plain, from, n)?;
                validity.extend_from_slice(&others.as_slice()[from..from + n])?;
                Ok(())
            }
            _ => unreachable!(),
        }
    }

    /// The values at the places, in the places' order.
    pub fn gather(&self, places: &[usize]) -> Result<Column, Memory>
        requires { All (λ p. p < length (values self.now)) places.now }
        ensures kind { IfOk result (λ c. column_type c ≡ column_type self.now) }
        ensures values { IfOk result (λ c. values c ≡ map (value_at (values self.now)) places.now) }
    {
        let plain = self.plain.gather(places)?;
        match &self.validity {
            None => Ok(Column {
                plain,
                validity: None,
            }),
            Some(validity) => {
                let validity = Some(gather_bools(validity, places)?);
                Ok(Column { plain, validity })
            }
        }
    }

    /// The same values.
    pub fn copy(&self) -> Result<Column, Memory>
        ensures kind { IfOk result (λ c. column_type c ≡ column_type self.now) }
        ensures values { IfOk result (λ c. values c ≡ values self.now) }
    {
        let plain = self.plain.copy()?;
        match &self.validity {
            None => Ok(Column {
                plain,
                validity: None,
            }),
            Some(validity) => {
                let validity = Some(copy_items(validity)?);
                Ok(Column { plain, validity })
            }
        }
    }

    /// What follows the first n values stays.
    pub fn remove_front(&mut self, n: usize)
        ensures kind { column_type self.new ≡ column_type self.old }
        ensures rest { values self.new ≡ drop n (values self.old) }
    {
        self.plain.remove_front(n);
        if let Some(validity) = &mut self.validity {
            remove_front(validity, n);
        }
    }
}
