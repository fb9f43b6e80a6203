ghost use Rattle.std.specs.Prelude.{◌≡◌};
ghost use Rattle.chunk_data.specs.Values.{is_nullable, is_text, nullable_if, plain_type, same_type, type_at as type_of_column};

use crate::lists::Bytes;

/// The type of a column: `Text` is spelled `String` in queries and declarations, and each of the
/// last three allows NULL beside the values of its plain type.
#[derive(Clone, Copy, Debug, PartialEq, Eq)]
pub enum ColumnType {
    Int64,
    UInt64,
    Text,
    NullInt64,
    NullUInt64,
    NullText,
}

/// The type of a column's values, NULL apart. What an operator or a comparison asks of a type, it
/// asks of this one, which is the same for columns that may have NULL and for those that may not.
#[derive(Clone, Copy, Debug, PartialEq, Eq)]
pub enum PlainType {
    Int64,
    UInt64,
    Text,
}

impl ColumnType {
    /// The type of its values that aren't NULL.
    pub fn plain(self) -> PlainType
        ensures { result ≡ plain_type self }
    {
        match self {
            ColumnType::Int64 | ColumnType::NullInt64 => PlainType::Int64,
            ColumnType::UInt64 | ColumnType::NullUInt64 => PlainType::UInt64,
            ColumnType::Text | ColumnType::NullText => PlainType::Text,
        }
    }

    /// Whether a column of the type may have NULL.
    pub fn is_nullable(self) -> bool
        ensures { result ≡ is_nullable self }
    {
        match self {
            ColumnType::Int64 | ColumnType::UInt64 | ColumnType::Text => false,
            ColumnType::NullInt64 | ColumnType::NullUInt64 | ColumnType::NullText => true,
        }
    }

    /// Whether its values are texts; else they are numbers.
    pub fn is_text(self) -> bool
        ensures { result ≡ is_text self }
    {
        match self.plain() {
            PlainType::Int64 | PlainType::UInt64 => false,
            PlainType::Text => true,
        }
    }

    /// Whether the types are one, Nullable apart.
    pub fn is_alike(self, other: ColumnType) -> bool
        ensures { result ≡ same_type self other }
    {
        match self.plain() {
            PlainType::Int64 => matches!(other.plain(), PlainType::Int64),
            PlainType::UInt64 => matches!(other.plain(), PlainType::UInt64),
            PlainType::Text => matches!(other.plain(), PlainType::Text),
        }
    }
}

impl PlainType {
    /// The type of a column of these values, which may have NULL or not.
    pub fn nullable_if(self, nullable: bool) -> ColumnType
        ensures { result ≡ nullable_if nullable self }
    {
        if nullable {
            match self {
                PlainType::Int64 => ColumnType::NullInt64,
                PlainType::UInt64 => ColumnType::NullUInt64,
                PlainType::Text => ColumnType::NullText,
            }
        } else {
            match self {
                PlainType::Int64 => ColumnType::Int64,
                PlainType::UInt64 => ColumnType::UInt64,
                PlainType::Text => ColumnType::Text,
            }
        }
    }
}

/// The type of a column, or Text where there is none.
pub fn type_at(types: &[ColumnType], c: usize) -> ColumnType
    ensures { result ≡ type_of_column types.now c }
{
    if c < types.len() {
        types[c]
    } else {
        ColumnType::Text
    }
}

/// One value: a 64-bit number, a text of any bytes, or NULL.
#[derive(Drop)]
pub enum Value {
    Int(i64),
    UInt(u64),
    Text(Bytes),
    Null,
}

/// A column by which rows are compared, counted from 0.
#[derive(Clone, Copy, Debug, PartialEq, Eq)]
pub struct SortKey {
    pub column: u32,
    pub descending: bool,
}
