// The reader of rows beside the plain way to the same rows, through the records of the `csv` crate.
// What a part of a table gives is told by RFC 4180 and that crate's description of its dialect.
ghost use Rattle.std.specs.Prelude.{◌<◌};

use crate::literals::{check_each, halves, types_of};
use crate::plain_rows::{bad_field, row_spelled};
use chunk_data::{Bytes, ColumnType, List};
use csv::{ByteRecord, ReaderBuilder};
use csv_rows::{RowReader, RowsFault, write_rows};
use query_model::places::{BadField, BadPlace};
use query_model::plain::row_text;
use std::alloc::Global;
use std::io::Cursor;
use std::slice::from_ref;
use std::str::from_utf8;
use std::test::Fail;

// A line that tells the place.
fn place_text(alloc: Global, BadPlace { row, field }: BadPlace) -> Result<Vec<u8>, Fail> {
    let line = match field {
        BadField::Column(column) => format!(in alloc; "bad {row} {column}\n")?,
        BadField::Fields(fields) => format!(in alloc; "bad {row} of {fields}\n")?,
    };
    Ok(line.into_bytes())
}

fn fields_of(alloc: Global, record: &ByteRecord) -> Result<Vec<Bytes>, Fail> {
    let mut fields = Vec::new(alloc);
    for i in 0..record.len() {
        fields.push(Bytes::from_slice(alloc, record.get(i).unwrap_or(b""))?)?;
    }
    Ok(fields)
}

// The line of a record, and whether it is a row.
fn record_text(
    alloc: Global,
    record: &ByteRecord,
    row: u64,
    kinds: &[ColumnType],
) -> Result<(Vec<u8>, bool), Fail> {
    let fields = fields_of(alloc, record)?;
    if let Some(values) = row_spelled(alloc, kinds, &fields)? {
        return Ok((row_text(alloc, values.as_slice())?, true));
    }
    if kinds.len() > 9 {
        return Err("too many columns".into());
    }
    let field = bad_field(kinds, &fields);
    Ok((place_text(alloc, BadPlace { row, field })?, false))
}

// The rows of a part, and its bad place, by the records of the `csv` crate.
fn plain_rows(
    alloc: Global,
    bytes: &[u8],
    header: bool,
    kinds: &[ColumnType],
) -> Result<Vec<u8>, Fail> {
    let mut out = Vec::new(alloc);
    let mut reader = ReaderBuilder::new()
        .has_headers(header)
        .flexible(true)
        .from_reader(alloc, Cursor::new(Vec::from_slice(alloc, bytes)?));
    let mut record = ByteRecord::new(alloc);
    // A part has no more records than bytes.
    for row in 1..bytes.len() as u64 + 2 {
        if !reader.read_byte_record(&mut record)? {
            return Ok(out);
        }
        let (line, more) = record_text(alloc, &record, row, kinds)?;
        out.extend_from_slice(&line)?;
        if !more {
            return Ok(out);
        }
    }
    Err("records go on and on".into())
}

// The next rows, and whether there may be more.
fn next_rows(
    alloc: Global,
    reader: &mut RowReader,
    most: usize,
    kinds: &List<ColumnType>,
) -> Result<(Vec<u8>, bool), Fail> {
    if kinds.len() > 9 {
        return Err("too many columns".into());
    }
    match reader.next_chunk(alloc, kinds, most) {
        Ok(chunk) => Ok((write_rows(alloc, None, from_ref(&chunk))?, true)),
        Err(RowsFault::Bad(place)) => Ok((place_text(alloc, place)?, false)),
        Err(RowsFault::Memory) => Err("no memory".into()),
    }
}

// The same by chunks of the reader of rows.
fn read_rows(
    alloc: Global,
    bytes: &[u8],
    header: bool,
    most: usize,
    kinds: &List<ColumnType>,
) -> Result<Vec<u8>, Fail> {
    let mut out = Vec::new(alloc);
    let mut reader = RowReader::new(alloc, Vec::from_slice(alloc, bytes)?, header)?;
    for _chunk in 0..bytes.len() as u64 + 2 {
        if reader.is_over() {
            return Ok(out);
        }
        let (lines, more) = next_rows(alloc, &mut reader, most, kinds)?;
        out.extend_from_slice(&lines)?;
        if !more {
            return Ok(out);
        }
    }
    Err("chunks go on and on".into())
}

// The part read both ways, which must agree.
fn rows_of(
    alloc: Global,
    bytes: &[u8],
    header: bool,
    most: usize,
    letters: &str,
) -> Result<Vec<u8>, Fail> {
    let kinds = types_of(alloc, letters)?;
    let read = read_rows(alloc, bytes, header, most, &kinds)?;
    let plain = plain_rows(alloc, bytes, header, kinds.as_slice())?;
    if read.as_slice() != plain.as_slice() {
        return Err("the two ways differ".into());
    }
    Ok(read)
}

// The rows of a part in chunks of one row, of two and of many, which must agree.
fn rows_text(alloc: Global, text: &str) -> Result<String, Fail> {
    let (letters, text) = halves(text, '|');
    let part = text.replace(alloc, "'", "\"")?;
    let (bytes, header) = (part.as_bytes(), letters.starts_with('h'));
    let letters = letters.trim_start_matches('h');
    let rows = rows_of(alloc, bytes, header, 8192, letters)?;
    for most in [1, 2] {
        if rows_of(alloc, bytes, header, most, letters)?.as_slice() != rows.as_slice() {
            return Err("the chunks differ".into());
        }
    }
    Ok(from_utf8(&rows).unwrap_or("?").replace(alloc, "\"", "'")?)
}

static RECORDS: [&str; 28] = [
    "tt|~",
    "htt|~",
    "tt|\n\r\n\r~",
    "tt|a,b\nc,d\n~'a','b'\n'c','d'\n",
    "tt|a,b\r\nc,d\r\n~'a','b'\n'c','d'\n",
    "tt|a,b\rc,d\r~'a','b'\n'c','d'\n",
    "tt|a,b\nc,d~'a','b'\n'c','d'\n",
    "tt|\n\r\n\na,b\n\n\r\nc,d\n\n~'a','b'\n'c','d'\n",
    "tt|,\n,~'',''\n'',''\n",
    "tt|a'b''c,d'\n~'a''b''''c','d'''\n",
    "tt|'a'b'c',d\n~'ab''c''','d'\n",
    "tt|'a,''b',''\n~'a,''b',''\n",
    "tt|'a\r\nb','c\rd'\r\n~'a\r\nb','c\rd'\n",
    "tt|a,'b\nc~'a','b\nc'\n",
    "tt|a,'~'a',''\n",
    "tt|\u{feff}a,b\n\u{feff}c,d\n~'a','b'\n'\u{feff}c','d'\n",
    "tt|\u{feff}'a',b\n~'a','b'\n",
    "tt|\n\u{feff}'a',b\n~'\u{feff}''a''','b'\n",
    "htt|x\na,b\n~'a','b'\n",
    "htt|'x\ny'z\r\n\r\na,b~'a','b'\n",
    "htt|x~",
    "tt|a,b\nc\n~'a','b'\nbad 2 of 1\n",
    "tt|a,b\n\nc,d,\n~'a','b'\nbad 2 of 3\n",
    // NULL, in columns that may have it alone.
    "IT|\\N,\\N\n'\\N','\\N'\r\n-7,\\N~\\N,\\N\n\\N,\\N\n-7,\\N\n",
    "TU|\\\\N,7\n\\n,\\N\n' \\N',8\n'',9~'\\\\N',7\n'\\n',\\N\n' \\N',8\n'',9\n",
    "Ti|\\N,1\n\\N,\\N\n~\\N,1\nbad 2 2\n",
    "tT|\\N,\\N\n~'\\N',\\N\n",
    "IU|1,\\N\n2,\n~1,\\N\nbad 2 2\n",
];

#[test]
fn records_are_those_of_the_dialect(rt: HostRuntime) -> Result<(), Fail> {
    check_each(&rt, rt.alloc(), &RECORDS, rows_text)
}

// The rows of a field as an Int64 and as an UInt64, with each end of a line, which must agree.
fn numerals_text(alloc: Global, text: &str) -> Result<String, Fail> {
    let mut out = String::new(alloc);
    for letter in ["i", "u"] {
        let rows = rows_of(alloc, text.as_bytes(), false, 8, letter)?;
        for end in ["\n", "\r\n"] {
            let part = format!(in alloc; "{text}{end}")?;
            let same = rows_of(alloc, part.as_bytes(), false, 8, letter)?;
            if rows.as_slice() != same.as_slice() {
                return Err("the ends differ".into());
            }
        }
        out.push_str(from_utf8(&rows).unwrap_or("?"))?;
    }
    Ok(out)
}

static NUMERALS: [&str; 27] = [
    "7~7\n7\n",
    "\"7\"~7\n7\n",
    "\"\"7~7\n7\n",
    "-7~-7\nbad 1 1\n",
    "-0~0\nbad 1 1\n",
    "007~7\n7\n",
    "000000000000000000000000000000001~1\n1\n",
    "999999999999999999~999999999999999999\n999999999999999999\n",
    "-99999999999999999~-99999999999999999\nbad 1 1\n",
    "1000000000000000000~1000000000000000000\n1000000000000000000\n",
    "9223372036854775807~9223372036854775807\n9223372036854775807\n",
    "9223372036854775808~bad 1 1\n9223372036854775808\n",
    "-9223372036854775808~-9223372036854775808\nbad 1 1\n",
    "-9223372036854775809~bad 1 1\nbad 1 1\n",
    "9999999999999999999~bad 1 1\n9999999999999999999\n",
    "10000000000000000000~bad 1 1\n10000000000000000000\n",
    "18446744073709551615~bad 1 1\n18446744073709551615\n",
    "18446744073709551616~bad 1 1\nbad 1 1\n",
    "\"\"~bad 1 1\nbad 1 1\n",
    "-~bad 1 1\nbad 1 1\n",
    "--1~bad 1 1\nbad 1 1\n",
    "+1~bad 1 1\nbad 1 1\n",
    " 1~bad 1 1\nbad 1 1\n",
    "1 ~bad 1 1\nbad 1 1\n",
    "1/~bad 1 1\nbad 1 1\n",
    "1:~bad 1 1\nbad 1 1\n",
    "1234567890123456/7~bad 1 1\nbad 1 1\n",
];

#[test]
fn numbers_are_those_that_fields_spell(rt: HostRuntime) -> Result<(), Fail> {
    check_each(&rt, rt.alloc(), &NUMERALS, numerals_text)
}

// How many bytes the rows of a part have by three lists of types.
fn shown_bytes(alloc: Global, part: &[u8]) -> Result<u64, Fail> {
    let mut shown = 0u64;
    for kinds in ["t", "tu", "iu"] {
        let rows = rows_of(alloc, part, false, 2, kinds)?;
        shown = shown.wrapping_add(rows.len() as u64);
    }
    Ok(shown)
}

static ENDS: [&str; 9] = [
    "", "\n", "\r", "\"\n", ",", ",2", ",2\n", ",2\r\n", ",2\n3,4",
];

#[test]
fn fields_end_at_each_place_of_a_block(rt: HostRuntime) -> Result<(), Fail> {
    let mut shown = 0u64;
    for place in 0..4608usize {
        let (size, byte) = (place / 256, (place % 256) as u8);
        for around in ["", "\""] {
            for end in ENDS.iter() {
                let mut part = Vec::from_slice(rt.alloc(), around.as_bytes())?;
                part.extend_from_slice(&[b'1'; 18][..size])?;
                part.push(byte)?;
                part.extend_from_slice(around.as_bytes())?;
                part.extend_from_slice(end.as_bytes())?;
                shown = shown.wrapping_add(shown_bytes(rt.alloc(), &part)?);
            }
        }
    }
    assert!(rt; shown > 1_000_000);
    Ok(())
}

// The next number of a row of them, and one below a limit that it gives.
fn draw(seed: &mut u64, limit: u64) -> u64
    requires { 0 < limit }
    ensures { result < limit }
{
    *seed = seed
        .wrapping_mul(6364136223846793005)
        .wrapping_add(1442695040888963407);
    (*seed >> 33) % limit
}

// Anything that a text may have.
static PIECES: [&str; 18] = [
    "\"", "\"\"", ",", "\n", "\r", "\r\n", "", " ", "-", "1", "x", "\u{feff}", "\u{0}", "18446744",
    "07370955", "00000000", "abcdefgh", "\\N",
];

fn draw_piece(bytes: &mut Vec<u8>, seed: &mut u64) -> Result<(), Fail> {
    Ok(bytes.extend_from_slice(PIECES[draw(seed, 18) as usize].as_bytes())?)
}

// A field that spells a value of the type, most of the time.
fn draw_field(bytes: &mut Vec<u8>, seed: &mut u64, kind: ColumnType) -> Result<(), Fail> {
    let alloc = *bytes.allocator();
    let number = draw(seed, 1_000_000_000) >> draw(seed, 30);
    let field = match (kind, draw(seed, 12)) {
        (_, 0) => return draw_piece(bytes, seed),
        (ColumnType::Int64 | ColumnType::NullInt64, 1) => format!(in alloc; "-{number}")?,
        (ColumnType::NullInt64 | ColumnType::NullUInt64 | ColumnType::NullText, 2) => {
            String::from_str(alloc, "\\N")?
        }
        (ColumnType::Text, 1) => format!(in alloc; "\"a \"\"b\"\"\r\n,c{number}\"")?,
        (ColumnType::Text, 2) => format!(in alloc; "a text of more than 16 bytes{number}")?,
        (_, 3) => format!(in alloc; "\"{number}\"")?,
        (_, 4) => format!(in alloc; "9223372{number}{number}")?,
        (_, _) => format!(in alloc; "{number}")?,
    };
    bytes.extend_from_slice(field.as_bytes())?;
    Ok(())
}

// A part of a few records with the types' fields, most of the time, or of pieces alone.
fn draw_part(alloc: Global, seed: &mut u64, letters: &str) -> Result<Vec<u8>, Fail> {
    let mut bytes = Vec::new(alloc);
    let kinds = types_of(alloc, letters)?;
    if draw(seed, 8) == 0 {
        bytes.extend_from_slice("\u{feff}".as_bytes())?;
    }
    let soup = draw(seed, 3) == 0;
    for _record in 0..draw(seed, 12) {
        for kind in kinds.as_slice() {
            if soup {
                draw_piece(&mut bytes, seed)?;
            } else {
                draw_field(&mut bytes, seed, *kind)?;
                bytes.push(b',')?;
            }
        }
        if !soup {
            bytes.pop();
        }
        let ends = ["\n", "\n", "\n", "\n", "\n", "\r", "\r\n\n", ""];
        bytes.extend_from_slice(ends[draw(seed, 8) as usize].as_bytes())?;
    }
    Ok(bytes)
}

#[test]
fn made_parts_are_read_alike(rt: HostRuntime) -> Result<(), Fail> {
    let alloc = rt.alloc();
    let mut seed = 20_261_127u64;
    let mut shown = 0u64;
    for i in 0..2000u64 {
        let kinds = ["tiu", "ut", "i", "IUT", "Ti", "U"][(i / 5 % 6) as usize];
        let bytes = draw_part(alloc, &mut seed, kinds)?;
        let most = 1 + (i % 4) as usize;
        let rows = rows_of(alloc, &bytes, i % 5 == 0, most, kinds)?;
        shown = shown.wrapping_add(rows.len() as u64);
    }
    // Most have some rows.
    assert!(rt; shown > 20_000);
    Ok(())
}
