// What the fields of a part add to columns.
ghost use Rattle.std.specs.Prelude.{◌≡◌, ◌&&◌, IfOk, OnErr};
ghost use Rattle.chunk_data.specs.Names.{column_type, is_nullable, values};
ghost use Rattle.query_model.specs.Names.{is_null_text};
ghost use Rattle.csv_rows.specs.Places.{PushesField};

use crate::short_numbers::{spelled_int, spelled_uint};
use chunk_data::{Column, Memory, PlainType};
use query_model::places::BadPlace;
use query_model::plain::NULL_TEXT;

/// Why the rows of a part were not read.
#[derive(Clone, Copy, PartialEq, Eq)]
pub enum RowsFault {
    /// The first record that isn't good.
    Bad(BadPlace),
    Memory,
}

// Whether the field spells NULL in the column, quoted or not.
#[inline(always)]
fn spells_null(column: &Column, field: &[u8]) -> bool
    ensures { result ≡ (is_nullable (column_type column.now) && is_null_text field.now) }
{
    column.is_nullable() && field == NULL_TEXT
}

/// Adds the value that the field spells, or says that it spells none; after an error the column is
/// as it was.
#[inline(always)]
pub(crate) fn push_field(column: &mut Column, field: &[u8]) -> Result<bool, Memory>
    ensures kind { column_type column.new ≡ column_type column.old }
    ensures ok { IfOk result (λ spelled. PushesField field.now spelled column.old column.new) }
    ensures err { OnErr result (values column.new ≡ values column.old) }
{
    if spells_null(column, field) {
        return column.push_null().map(|()| true);
    }
    match column.plain_type() {
        PlainType::Int64 => match spelled_int(field) {
            Some(number) => column.push_int(number).map(|()| true),
            None => Ok(false),
        },
        PlainType::UInt64 => match spelled_uint(field) {
            Some(number) => column.push_uint(number).map(|()| true),
            None => Ok(false),
        },
        PlainType::Text => column.push_text(field).map(|()| true),
    }
}
