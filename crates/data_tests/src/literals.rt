// Values of the tests, from short texts.
use chunk_data::{Bytes, Chunk, ColumnType, List};
use csv_rows::RowReader;
use query_model::analysis::analyse;
use query_model::checked::Checked;
use query_model::query::{ColumnDecl, Refusal, Schema};
use sql_text::parse;
use std::alloc::{AllocError, Global};
use std::process::Abort;
use std::str::from_utf8;
use std::test::Fail;

/// Each case is a text, a `~`, and what is told of the text.
pub(crate) fn check_each<F: Fn(Global, &str) -> Result<String, Fail>>(
    rt: &impl Abort,
    alloc: Global,
    cases: &[&str],
    told: F,
) -> Result<(), Fail>
    requires { F.IsAlwaysCallable told }
{
    for case in cases {
        let (text, expected) = halves(case, '~');
        assert_eq!(rt; told(alloc, text)?.as_str(), expected, "{text}");
    }
    Ok(())
}

/// What stands before the sign, and behind it.
pub(crate) fn halves(text: &str, sign: char) -> (&str, &str) {
    text.split_once(sign).unwrap_or((text, ""))
}

/// The text of four parts between which a `|` stands: a front, a piece, how often it comes, and an
/// end.
pub(crate) fn repeated(alloc: Global, text: &str) -> Result<String, AllocError> {
    let (front, rest) = halves(text, '|');
    let (piece, rest) = halves(rest, '|');
    let (times, end) = halves(rest, '|');
    let pieces = piece.repeat(alloc, times.parse().unwrap_or(0))?;
    format!(in alloc; "{front}{pieces}{end}")
}

pub(crate) fn bytes(alloc: Global, text: &str) -> Result<Bytes, Fail> {
    Ok(Bytes::from_slice(alloc, text.as_bytes())?)
}

/// The text that the bytes are, or `?`.
pub(crate) fn utf8(bytes: &Bytes) -> &str {
    from_utf8(bytes.as_slice()).unwrap_or("?")
}

fn type_of(letter: u8) -> ColumnType {
    match letter {
        b'i' => ColumnType::Int64,
        b'u' => ColumnType::UInt64,
        b'I' => ColumnType::NullInt64,
        b'U' => ColumnType::NullUInt64,
        b'T' => ColumnType::NullText,
        _ => ColumnType::Text,
    }
}

/// The types that the letters `i`, `u` and `t` stand for, and `I`, `U` and `T` for those with NULL.
pub(crate) fn types_of(alloc: Global, letters: &str) -> Result<List<ColumnType>, Fail> {
    let mut types = Vec::new(alloc);
    for letter in letters.as_bytes() {
        types.push(type_of(*letter))?;
    }
    Ok(List::from_vec(types))
}

/// A chunk of the rows.
pub(crate) fn chunk_of(alloc: Global, letters: &str, rows: &str) -> Result<Chunk, Fail> {
    let types = types_of(alloc, letters)?;
    if types.len() > 9 {
        return Err("too many columns".into());
    }
    let rows = Vec::from_slice(alloc, rows.as_bytes())?;
    match RowReader::new(alloc, rows, false)?.next_chunk(alloc, &types, 99) {
        Ok(chunk) => Ok(chunk),
        Err(_) => Err("these are no rows".into()),
    }
}

fn table_of(alloc: Global, text: &str) -> Result<Schema, Fail> {
    let mut words = text.split(' ');
    let name = bytes(alloc, words.next().unwrap_or(""))?;
    let mut columns = Vec::new(alloc);
    for word in words {
        let letter = word.as_bytes().first().copied().unwrap_or(b't');
        let name = bytes(alloc, word.get(1..).unwrap_or(""))?;
        columns.push(ColumnDecl {
            name,
            kind: type_of(letter),
        })?;
    }
    Ok(Schema {
        name,
        columns: List::from_vec(columns),
    })
}

/// Tables, between which a `;` stands, as `t ia ub`: a name, and the columns' types and names.
pub(crate) fn tables_of(alloc: Global, texts: &str) -> Result<List<Schema>, Fail> {
    let mut tables = Vec::new(alloc);
    for text in texts.split(';') {
        tables.push(table_of(alloc, text)?)?;
    }
    Ok(List::from_vec(tables))
}

/// What analysis makes of the query that the text spells, alone in a list, which is dropped by one
/// call.
pub(crate) fn analysed(
    alloc: Global,
    tables: &str,
    text: &str,
) -> Result<Vec<Result<Checked, Refusal>>, Fail> {
    let mut ended = Vec::with_capacity(alloc, 1)?;
    let tables = tables_of(alloc, tables)?;
    match parse(alloc, text.as_bytes()) {
        Ok(query) => ended.push_reserved(analyse(alloc, query, &tables)),
        Err(_) => return Err("not a query".into()),
    }
    Ok(ended)
}
