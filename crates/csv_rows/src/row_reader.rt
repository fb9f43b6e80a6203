ghost use Rattle.std.specs.Prelude.{◌≡◌, [], ◌+◌, ◌<◌, ◌≤◌, ◌^◌, ◌∷◌, false, length, map, drop, IfOk, IfErr, OnOk, OnErr, Some};
ghost use Rattle.csv.specs.Reading.{strip_bom};
ghost use Rattle.chunk_data.specs.Names.{column_type, values, AreLong, rows_of};
ghost use Rattle.query_model.specs.Parts.{bad_place, part_records};
ghost use Rattle.csv_rows.specs.Places.{StartsPart, OnBad};
ghost use Rattle.csv_rows.specs.RowsLeft.{at_end, ReadsFront, TakesRow, TakesRows};

use crate::field_ends::{field_at, skip_ends};
use crate::record_by_field::{pass_fields, push_first};
use crate::rows::RowsFault;
use chunk_data::{Chunk, Column, ColumnType, List, Memory};
use std::alloc::Global;
use std::marker::Model;

/// The rows of a part, read straight from its bytes.
///
/// The dialect is the `csv` crate's default: commas, double quotes, CR, LF or CRLF, and records of
/// any length. One byte order mark at the start is passed over. The bytes are kept until the reader
/// is dropped, and nothing is allocated for a row beside its values.
#[derive(Drop)]
pub struct RowReader {
    bytes: Vec<u8>,
    at: usize,
    // More records than these can't come.
    left: usize,
    passed: u64,
    field: Vec<u8>,
}

impl Model for RowReader {
    ghost use Rattle.csv_rows.specs.RowsLeft.{RowsLeft};
    ghost use Rattle.csv_rows.specs.Places.{records_at, StartsLine};

    ghost Value = { RowsLeft };

    ghost view = { λ r. record { rest = records_at r.left r.bytes.items r.at; count = r.passed } };

    ghost invariant = { λ r. StartsLine r.bytes.items r.at };
}

impl RowReader {
    /// A reader in front of the first row. With `header` the first record is passed over, whatever
    /// it holds.
    pub fn new(alloc: Global, bytes: Vec<u8>, header: bool) -> Result<RowReader, Memory>
        ensures rest { IfOk result (λ r. r.rest ≡ part_records header bytes.items) }
        ensures count { IfOk result (λ r. r.count ≡ 0) }
    {
        let mut field = Vec::new(alloc);
        let (at, left) = first_place(bytes.as_slice(), header, &mut field)?;
        Ok(RowReader {
            bytes,
            at,
            left,
            passed: 0,
            field,
        })
    }

    /// Whether no record is left.
    pub fn is_over(&self) -> bool
        ensures { result ≡ at_end self.now.rest }
    {
        self.left == 0 || self.at == self.bytes.as_slice().len()
    }

    /// The next rows as a chunk, at most so many. It ends in front of a bad record, whose place is
    /// the fault where that record is the next. After a fault nothing is said of what is left.
    pub fn next_chunk(
        &mut self,
        alloc: Global,
        types: &List<ColumnType>,
        most: usize,
    ) -> Result<Chunk, RowsFault>
        requires { length types.now < 2 ^ 32 }
        ensures types { IfOk result (λ c. c.types ≡ types.now) }
        ensures rows { IfOk result (λ c. TakesRows types.now self.old self.new c.rows most) }
        ensures bad { IfErr result (λ e. OnBad e (λ place.
            bad_place (self.old.count + 1) types.now self.old.rest ≡ Some place)) }
    {
        let room = most.min(ROOM).min(self.bytes.len());
        let Ok(mut columns) = roomy_columns(alloc, types.as_slice(), room) else {
            return Err(RowsFault::Memory);
        };
        let rows = read_front(self, &mut columns, most)?;
        Chunk::of_columns(alloc, List::from_vec(columns), rows).map_err(|_| RowsFault::Memory)
    }

    // Adds the next record as one row behind so many; after an error the columns and what is left
    // are as they were.
    fn push_next(&mut self, columns: &mut [Column], rows: usize) -> Result<(), RowsFault>
        requires left { at_end self.old.rest ≡ false }
        requires long { AreLong rows (map values columns.old) }
        requires few { length columns.old < 2 ^ 32 }
        ensures kinds { map column_type columns.new ≡ map column_type columns.old }
        ensures ok { OnOk result (TakesRow self.old self.new columns.old columns.new) }
        ensures bad { IfErr result (λ e. OnBad e (λ place.
            bad_place (self.old.count + 1) (map column_type columns.old) self.old.rest
            ≡ Some place)) }
        ensures err { OnErr result (map values columns.new ≡ map values columns.old) }
        ensures stays { OnErr result (self.new ≡ self.old) }
    {
        let Some(number) = self.passed.checked_add(1) else {
            return Err(RowsFault::Memory);
        };
        let bytes = self.bytes.as_slice();
        match push_first(columns, bytes, self.at, rows, number, &mut self.field) {
            Ok(next) => {
                self.at = next;
                self.left -= 1;
                self.passed = number;
                Ok(())
            }
            Err(fault) => Err(fault),
        }
    }
}

// The place behind a byte order mark at the start.
fn mark_end(bytes: &[u8]) -> usize
    ensures within { result ≤ length bytes.now }
    ensures rest { drop result bytes.now ≡ strip_bom bytes.now }
{
    if bytes.len() < 3 {
        return 0;
    }
    if (bytes[0] == 0xEF) & (bytes[1] == 0xBB) & (bytes[2] == 0xBF) {
        3
    } else {
        0
    }
}

// The place of the first record that is a row, and how many can come.
#[tactic(auto, using(crate::proofs::PartPlaces::parts))]
fn first_place(bytes: &[u8], header: bool, field: &mut Vec<u8>) -> Result<(usize, usize), Memory>
    ensures { IfOk result (λ p. StartsPart header bytes.now p.0 p.1) }
{
    let mark = mark_end(bytes);
    let at = skip_ends(bytes, mark);
    let most = bytes.len() - mark;
    if !header {
        return Ok((at, most + 1));
    }
    if at >= bytes.len() {
        return Ok((at, most + 1));
    }
    let (_, end) = field_at(bytes, at, field)?;
    let (_, next) = pass_fields(bytes, end, field)?;
    Ok((next, most))
}

/// The most rows for which room is made ahead.
const ROOM: usize = 8192;

// A column without values for each type, with room for so many rows.
fn roomy_columns(alloc: Global, kinds: &[ColumnType], room: usize) -> Result<Vec<Column>, Memory>
    ensures kinds { IfOk result (λ v. map column_type v.items ≡ kinds.now) }
    ensures empty { IfOk result (λ v. map values v.items ≡ map (λ _. []) kinds.now) }
{
    let mut columns = Vec::new(alloc);
    for kind in kinds {
        let mut column = Column::new(alloc, *kind);
        column.reserve(room)?;
        columns.push(column)?;
    }
    Ok(columns)
}

// Adds rows to the columns, which are empty, at most so many, and counts them.
fn read_front(
    reader: &mut RowReader,
    columns: &mut [Column],
    most: usize,
) -> Result<usize, RowsFault>
    requires empty { AreLong 0 (map values columns.old) }
    requires few { length columns.old < 2 ^ 32 }
    ensures kinds { map column_type columns.new ≡ map column_type columns.old }
    ensures ok { IfOk result (λ n. ReadsFront
        (map column_type columns.old) reader.old reader.new (map values columns.new) n most) }
    ensures bad { IfErr result (λ e. OnBad e (λ place.
        bad_place (reader.old.count + 1) (map column_type columns.old) reader.old.rest
        ≡ Some place)) }
{
    let mut rows = 0usize;
    'rows: loop {
        if rows == most || reader.is_over() {
            return Ok(rows);
        }
        match reader.push_next(columns, rows) {
            Ok(()) => rows += 1,
            // Rows in front of a bad record go out before it is told.
            Err(RowsFault::Bad(_)) if rows > 0 => return Ok(rows),
            Err(fault) => return Err(fault),
        }
    }
}
