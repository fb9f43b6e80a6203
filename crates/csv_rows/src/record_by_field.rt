// Records, added to columns field by field as they are read.
ghost use Rattle.std.specs.Prelude.{◌≡◌, ◌+◌, ◌<◌, ◌≤◌, ◌^◌, true, length, map, drop, IfOk, IfErr, OnErr};
ghost use Rattle.chunk_data.specs.Names.{column_type, values, AreLong};
ghost use Rattle.csv_rows.specs.Places.{starts_line, at_mark, AddsFirst, HasMore, IsBadRecordAt, OnBad, PushesFirst, CanTakeBack};

use crate::field_ends::{byte_at, field_at, line_end};
use crate::rows::{RowsFault, push_field};
use chunk_data::{Column, Memory, truncate_columns};
use query_model::places::{BadField, BadPlace};

// A record that was read: where the next one begins, how many fields it has, the last column that a
// field was tried for, and whether that field spells a value as those in front of it do.
#[derive(Drop)]
struct RecordRead {
    next: usize,
    count: usize,
    last: usize,
    whole: bool,
}

/// How many fields more a record has behind one that ends here, and where the next one begins.
#[tactic(auto, using(crate::proofs::FieldPlaces::more_none))]
pub(crate) fn pass_fields(
    bytes: &[u8],
    at: usize,
    field: &mut Vec<u8>,
) -> Result<(usize, usize), Memory>
    requires within { at ≤ length bytes.now }
    requires mark { at_mark (drop at bytes.now) ≡ true }
    ensures { IfOk result (λ p. HasMore bytes.now at p.0 p.1) }
{
    let mut end = at;
    let mut more = 0;
    'fields: while byte_at(bytes, end, b',') {
        end = field_at(bytes, end + 1, field)?.1;
        more += 1;
    }
    Ok((more, line_end(bytes, end)))
}

// Adds the record at a place to the columns, up to the first field that spells no value of its
// column. What was added can be taken back.
#[tactic(auto, using(crate::proofs::Pushing::backs))]
fn push_fields(
    columns: &mut [Column],
    bytes: &[u8],
    at: usize,
    field: &mut Vec<u8>,
) -> Result<RecordRead, Memory>
    requires within { at ≤ length bytes.now }
    requires starts { starts_line (drop at bytes.now) ≡ true }
    ensures ok { IfOk result (λ read. PushesFirst bytes.now at read columns.old columns.new) }
    ensures back { CanTakeBack columns.old columns.new }
{
    let mut place = at;
    for i in 0..columns.len() {
        let (text, end) = field_at(bytes, place, field)?;
        let whole = push_field(&mut columns[i], text)?;
        if !byte_at(bytes, end, b',') {
            return Ok(RecordRead {
                next: line_end(bytes, end),
                count: i + 1,
                last: i,
                whole,
            });
        }
        if !whole {
            let (more, next) = pass_fields(bytes, end, field)?;
            return Ok(RecordRead {
                next,
                count: i + 1 + more,
                last: i,
                whole,
            });
        }
        place = end + 1;
    }
    // More fields than columns.
    let (_, end) = field_at(bytes, place, field)?;
    let (more, next) = pass_fields(bytes, end, field)?;
    Ok(RecordRead {
        next,
        count: columns.len() + 1 + more,
        last: 0,
        whole: false,
    })
}

/// Adds the record at a place, which has this number, as one row behind so many, and says where the
/// next one begins.
#[tactic(auto, using(crate::proofs::Pushing::first_lengths))]
pub(crate) fn push_first(
    columns: &mut [Column],
    bytes: &[u8],
    at: usize,
    rows: usize,
    row: u64,
    field: &mut Vec<u8>,
) -> Result<usize, RowsFault>
    requires within { at ≤ length bytes.now }
    requires starts { starts_line (drop at bytes.now) ≡ true }
    requires long { AreLong rows (map values columns.old) }
    requires few { length columns.old < 2 ^ 32 }
    ensures kinds { map column_type columns.new ≡ map column_type columns.old }
    ensures ok { IfOk result (λ next. AddsFirst bytes.now at next columns.old columns.new) }
    ensures bad { IfErr result (λ e. OnBad e (IsBadRecordAt columns.old bytes.now at row)) }
    ensures err { OnErr result (map values columns.new ≡ map values columns.old) }
{
    let width = columns.len();
    let Ok(read) = push_fields(columns, bytes, at, field) else {
        truncate_columns(columns, rows);
        return Err(RowsFault::Memory);
    };
    if read.count != width {
        truncate_columns(columns, rows);
        let field = BadField::Fields(read.count as u64);
        return Err(RowsFault::Bad(BadPlace { row, field }));
    }
    if !read.whole {
        truncate_columns(columns, rows);
        let field = BadField::Column(read.last as u32 + 1);
        return Err(RowsFault::Bad(BadPlace { row, field }));
    }
    Ok(read.next)
}
