ghost use Rattle.std.specs.Prelude.{◌≡◌, ◌<◌, ◌++◌, ◌∷◌, [], IfSome, is_some, length, map, OnOk, OnErr, true};
ghost use Rattle.std.specs.Option.{option_map};
ghost use Rattle.chunk_data.specs.Names.{is_nullable, nullable_if, with_nulls, plain_type, value_at, column_type, column_validity, slice_type, slice_values, stored_values, values};

use crate::lists::Memory;
use crate::plain_column::{PlainColumn, PlainSlice};
use crate::text_column::Texts;
use crate::typed_column::Column;
use crate::typed_value::{ColumnType, PlainType, Value};

// The calls of paths that every row takes: they know the column's type, and make no `Value`.
#[tactic(auto, using(crate::proofs::Nulls::nulls))]
impl Column {
    /// A column of these numbers, which are moved.
    pub fn of_ints(numbers: Vec<i64>) -> Self
        ensures kind { column_type result ≡ ColumnType.Int64 }
        ensures values { values result ≡ map Value.Int numbers.items }
    {
        Column {
            plain: PlainColumn::Int64(numbers),
            validity: None,
        }
    }

    /// A column of these numbers, which are moved.
    pub fn of_uints(numbers: Vec<u64>) -> Self
        ensures kind { column_type result ≡ ColumnType.UInt64 }
        ensures values { values result ≡ map Value.UInt numbers.items }
    {
        Column {
            plain: PlainColumn::UInt64(numbers),
            validity: None,
        }
    }

    /// A column of these texts, which are moved.
    pub fn of_texts(texts: Texts) -> Self
        ensures kind { column_type result ≡ ColumnType.Text }
        ensures values { values result ≡ map Value.Text texts }
    {
        Column {
            plain: PlainColumn::Text(texts),
            validity: None,
        }
    }

    /// What the column keeps, with NULL where this validity, which is moved, is false; without one
    /// none is NULL.
    pub fn with_validity(self, validity: Option<Vec<bool>>) -> Self
        requires { IfSome validity (λ v. length v.items ≡ length (values self)) }
        ensures kind { column_type result
            ≡ nullable_if (is_some validity) (plain_type (column_type self)) }
        ensures values { values result
            ≡ with_nulls (option_map (λ v. v.items) validity) (stored_values self) }
    {
        let Column { plain, .. } = self;
        Column { plain, validity }
    }

    /// What it keeps at each row, NULL or not, for loops over all rows.
    pub fn plain(&self) -> PlainSlice<'_>
        ensures kind { slice_type result ≡ plain_type (column_type self.now) }
        ensures values { slice_values result ≡ stored_values self.now }
        ensures long { length (slice_values result) ≡ length (values self.now) }
    {
        self.plain.slice()
    }

    /// The type of its values that aren't NULL.
    pub fn plain_type(&self) -> PlainType
        ensures { result ≡ plain_type (column_type self.now) }
    {
        self.plain.kind()
    }

    /// Whether it may have NULL.
    pub fn is_nullable(&self) -> bool
        ensures { result ≡ is_nullable (column_type self.now) }
    {
        self.validity.is_some()
    }

    /// Which of its values aren't NULL, in a column that may have NULL.
    pub fn validity(&self) -> Option<&[bool]>
        ensures is { option_map (λ v. v.now) result ≡ column_validity self.now }
        ensures long { IfSome result (λ v. length v.now ≡ length (values self.now)) }
    {
        match &self.validity {
            None => None,
            Some(validity) => Some(validity.as_slice()),
        }
    }

    /// The numbers of an Int64 column.
    pub fn ints(&self) -> &[i64]
        requires { column_type self.now ≡ ColumnType.Int64 }
        ensures { values self.now ≡ map Value.Int result.now }
    {
        match (&self.plain, &self.validity) {
            (PlainColumn::Int64(numbers), None) => numbers.as_slice(),
            _ => unreachable!(),
        }
    }

    /// The numbers of a UInt64 column.
    pub fn uints(&self) -> &[u64]
        requires { column_type self.now ≡ ColumnType.UInt64 }
        ensures { values self.now ≡ map Value.UInt result.now }
    {
        match (&self.plain, &self.validity) {
            (PlainColumn::UInt64(numbers), None) => numbers.as_slice(),
            _ => unreachable!(),
        }
    }

    /// The texts of a Text column.
    pub fn texts(&self) -> &Texts
        requires { column_type self.now ≡ ColumnType.Text }
        ensures { values self.now ≡ map Value.Text result.now }
    {
        match (&self.plain, &self.validity) {
            (PlainColumn::Text(texts), None) => texts,
            _ => unreachable!(),
        }
    }

    /// Text i of a Text column.
    pub fn text(&self, i: usize) -> &[u8]
        requires kind { column_type self.now ≡ ColumnType.Text }
        requires in_range { i < length (values self.now) }
        ensures { Value.Text result.now ≡ value_at (values self.now) i }
    {
        self.texts().get(i)
    }

    /// The numbers of an Int64 column, which is moved.
    pub fn into_ints(self) -> Vec<i64>
        requires { column_type self ≡ ColumnType.Int64 }
        ensures { values self ≡ map Value.Int result.items }
    {
        match (self.plain, self.validity) {
            (PlainColumn::Int64(numbers), None) => numbers,
            _ => unreachable!(),
        }
    }

    /// Adds the number to a column of Int64, with NULL or without; after an error nothing has
    /// changed.
    pub fn push_int(&mut self, number: i64) -> Result<(), Memory>
        requires { plain_type (column_type self.old) ≡ PlainType.Int64 }
        ensures kind { column_type self.new ≡ column_type self.old }
        ensures ok { OnOk result (values self.new ≡ values self.old ++ Value.Int number ∷ []) }
        ensures err { OnErr result (values self.new ≡ values self.old) }
    {
        let Some(validity) = &mut self.validity else {
            return self.plain.push_int(number);
        };
        validity.try_reserve(1)?;
        self.plain.push_int(number)?;
        validity.push(true)?;
        Ok(())
    }

    /// The same for a column of UInt64.
    pub fn push_uint(&mut self, number: u64) -> Result<(), Memory>
        requires { plain_type (column_type self.old) ≡ PlainType.UInt64 }
        ensures kind { column_type self.new ≡ column_type self.old }
        ensures ok { OnOk result (values self.new ≡ values self.old ++ Value.UInt number ∷ []) }
        ensures err { OnErr result (values self.new ≡ values self.old) }
    {
        let Some(validity) = &mut self.validity else {
            return self.plain.push_uint(number);
        };
        validity.try_reserve(1)?;
        self.plain.push_uint(number)?;
        validity.push(true)?;
        Ok(())
    }

    /// The same for a column of texts.
    pub fn push_text(&mut self, text: &[u8]) -> Result<(), Memory>
        requires { plain_type (column_type self.old) ≡ PlainType.Text }
        ensures kind { column_type self.new ≡ column_type self.old }
        ensures ok { OnOk result (values self.new ≡ values self.old ++ Value.Text text.now ∷ []) }
        ensures err { OnErr result (values self.new ≡ values self.old) }
    {
        let Some(validity) = &mut self.validity else {
            return self.plain.push_text(text);
        };
        validity.try_reserve(1)?;
        self.plain.push_text(text)?;
        validity.push(true)?;
        Ok(())
    }

    /// Adds NULL to a column that may have NULL; after an error nothing has changed.
    pub fn push_null(&mut self) -> Result<(), Memory>
        requires { is_nullable (column_type self.old) ≡ true }
        ensures kind { column_type self.new ≡ column_type self.old }
        ensures ok { OnOk result (values self.new ≡ values self.old ++ Value.Null ∷ []) }
        ensures err { OnErr result (values self.new ≡ values self.old) }
    {
        let Some(validity) = &mut self.validity else {
            unreachable!();
        };
        validity.try_reserve(1)?;
        self.plain.push_default()?;
        validity.push(false)?;
        Ok(())
    }
}
