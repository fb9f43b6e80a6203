ghost use Rattle.std.specs.Prelude.{◌≡◌, ◌∷◌, [], IfOk};
ghost use Rattle.chunk_data.specs.Columns.{column_type};

use crate::literals::{check_each, halves};
use chunk_data::{
    Bytes, Chunk, Column, ColumnType, List, Memory, SortKey, Texts, Value, empty_columns,
    truncate_columns,
};
use query_model::plain::row_text;
use std::alloc::Global;
use std::cmp::Ordering;
use std::str::from_utf8;
use std::test::Fail;

// A chunk of one Int64 column.
fn numbers(alloc: Global, values: &[i64]) -> Result<Chunk, Memory>
    ensures { IfOk result (λ c. c.types ≡ ColumnType.Int64 ∷ []) }
{
    let column = Column::of_ints(Vec::from_slice(alloc, values)?);
    Chunk::of_columns(alloc, List::from_vec(vec![in alloc; column]?), values.len())
}

// The rows, a line each, and a point.
fn add_rows(out: &mut String, chunk: &Chunk) -> Result<(), Fail> {
    let alloc = *out.allocator();
    for i in 0..chunk.rows() {
        let line = row_text(alloc, chunk.row(i)?.as_slice())?;
        out.push_str(from_utf8(&line).unwrap_or("?"))?;
    }
    Ok(out.push('.')?)
}

// How two rows compare by one column.
fn compared(chunk: &Chunk, i: usize, j: usize, column: u32, descending: bool) -> Option<Ordering> {
    if i < chunk.rows() && j < chunk.rows() && (column as usize) < chunk.types().len() {
        return Some(chunk.compare_rows(i, chunk, j, &[SortKey { column, descending }]));
    }
    None
}

// The texts as a column.
fn column_of_texts(alloc: Global, texts: &[&[u8]]) -> Result<Column, Memory>
    ensures { IfOk result (λ c. column_type c ≡ ColumnType.Text) }
{
    let mut column = Texts::new(alloc);
    for text in texts {
        column.push(text)?;
    }
    Ok(Column::of_texts(column))
}

// The numbers, and NULL where they aren't valid.
fn column_with_nulls(alloc: Global, numbers: &[i64], valid: &[bool]) -> Result<Column, Memory> {
    let column = Column::of_ints(Vec::from_slice(alloc, numbers)?);
    let valid = Vec::from_slice(alloc, valid)?;
    if valid.len() != column.len() {
        return Err(Memory);
    }
    Ok(column.with_validity(Some(valid)))
}

// A chunk with a column of each type, and one that has NULL.
fn places(alloc: Global) -> Result<Chunk, Memory> {
    let ints = Column::of_ints(Vec::from_slice(alloc, &[-5, 3, -5, 0])?);
    let uints = Column::of_uints(Vec::from_slice(alloc, &[7, 0, 1, u64::MAX])?);
    let texts = column_of_texts(alloc, &[b"b", b"ab", b"a", b""])?;
    let nulls = column_with_nulls(alloc, &[9, 1, 9, -1], &[false, true, false, true])?;
    let rows = ints.len();
    if uints.len() != rows || texts.len() != rows || nulls.len() != rows {
        return Err(Memory);
    }
    Chunk::of_columns(
        alloc,
        List::from_vec(vec![in alloc; ints, uints, texts, nulls]?),
        rows,
    )
}

// How two rows compare by a column, and in which direction.
fn order_text(alloc: Global, text: &str) -> Result<String, Fail> {
    let (i, rest) = halves(text, ' ');
    let (j, rest) = halves(rest, ' ');
    let (column, sign) = halves(rest, ' ');
    let (i, j) = (i.parse().unwrap_or(9), j.parse().unwrap_or(9));
    let column = column.parse().unwrap_or(9);
    let order = compared(&places(alloc)?, i, j, column, sign == "-");
    Ok(format!(in alloc; "{order:?}")?)
}

static ORDERS: [&str; 14] = [
    "0 1 0 +~Some(Less)",
    "0 1 0 -~Some(Greater)",
    "0 2 0 +~Some(Equal)",
    "3 0 1 +~Some(Greater)",
    "1 0 2 +~Some(Less)",
    "2 1 2 +~Some(Less)",
    "2 1 2 -~Some(Greater)",
    "3 2 2 +~Some(Less)",
    // NULL comes last both ways.
    "0 3 3 +~Some(Greater)",
    "0 3 3 -~Some(Greater)",
    "1 2 3 +~Some(Less)",
    "1 2 3 -~Some(Less)",
    "0 2 3 -~Some(Equal)",
    "1 3 3 -~Some(Less)",
];

#[test]
fn rows_of_all_types_are_compared(rt: HostRuntime) -> Result<(), Fail> {
    check_each(&rt, rt.alloc(), &ORDERS, order_text)
}

fn gathered_and_kept(alloc: Global, out: &mut String) -> Result<(), Fail> {
    let mut chunk = places(alloc)?;
    if chunk.rows() != 4 {
        return Err("there are four rows".into());
    }
    add_rows(out, &chunk.gather(&[1, 3, 1])?)?;
    chunk.keep(&[false, true, true, false]);
    add_rows(out, &chunk)
}

fn split_and_appended(alloc: Global, out: &mut String) -> Result<(), Fail> {
    let mut chunk = places(alloc)?;
    if chunk.rows() != 4 {
        return Err("there are four rows".into());
    }
    add_rows(out, &chunk.copy_range(1, 2)?)?;
    let mut front = chunk.split_front(2)?;
    add_rows(out, &front)?;
    if front.append(chunk).is_err() {
        return Err("no memory".into());
    }
    add_rows(out, &front)
}

// A row of a number, a text and NULL.
fn row(alloc: Global, number: i64, text: &[u8]) -> Result<List<Value>, Memory>
    ensures { IfOk result (λ row. row ≡ Value.Int number ∷ Value.Text text.now ∷ Value.Null ∷ []) }
{
    let text = Bytes::from_slice(alloc, text)?;
    let values = vec![in alloc; Value::Int(number), Value::Text(text), Value::Null]?;
    Ok(List::from_vec(values))
}

fn pushed(alloc: Global, out: &mut String) -> Result<(), Fail> {
    let kinds = [ColumnType::Int64, ColumnType::Text, ColumnType::NullUInt64];
    let types = List::from_vec(Vec::from_slice(alloc, &kinds)?);
    let mut chunk = Chunk::new(alloc, &types)?;
    chunk.push_row(row(alloc, 2, b"x")?)?;
    chunk.push_row(row(alloc, -1, b"")?)?;
    add_rows(out, &chunk)
}

fn without_columns(alloc: Global, out: &mut String) -> Result<(), Fail> {
    let mut chunk = Chunk::of_columns(alloc, List::new(alloc), 3)?;
    if chunk.rows() != 3 {
        return Err("there are three rows".into());
    }
    chunk.keep(&[true, false, true]);
    add_rows(out, &chunk)
}

fn cut_and_beside(alloc: Global, out: &mut String) -> Result<(), Fail> {
    let mut left = numbers(alloc, &[1, 2, 3, 4])?;
    left.truncate(3);
    left.remove_front(1);
    add_rows(out, &left)?;
    let right = numbers(alloc, &[5, 6])?;
    if right.rows() != left.rows() {
        return Err("there are two rows".into());
    }
    add_rows(out, &left.beside(right)?)
}

// The rows after each step of what a chunk goes through.
fn changes_text(alloc: Global, text: &str) -> Result<String, Fail> {
    let mut out = String::new(alloc);
    match text {
        "gathered and kept" => gathered_and_kept(alloc, &mut out)?,
        "split and appended" => split_and_appended(alloc, &mut out)?,
        "pushed" => pushed(alloc, &mut out)?,
        "without columns" => without_columns(alloc, &mut out)?,
        _ => cut_and_beside(alloc, &mut out)?,
    }
    Ok(out)
}

static CHANGES: [&str; 5] = [
    "gathered and kept~3,0,\"ab\",1\n0,18446744073709551615,\"\",-1\n3,0,\"ab\",1\n.\
     3,0,\"ab\",1\n-5,1,\"a\",\\N\n.",
    "split and appended~3,0,\"ab\",1\n-5,1,\"a\",\\N\n.\
     -5,7,\"b\",\\N\n3,0,\"ab\",1\n.\
     -5,7,\"b\",\\N\n3,0,\"ab\",1\n-5,1,\"a\",\\N\n0,18446744073709551615,\"\",-1\n.",
    "pushed~2,\"x\",\\N\n-1,\"\",\\N\n.",
    "without columns~\n\n.",
    "cut and beside~2\n3\n.2,5\n3,6\n.",
];

#[test]
fn rows_are_gathered_kept_split_appended_pushed_cut_and_joined(
    rt: HostRuntime,
) -> Result<(), Fail> {
    check_each(&rt, rt.alloc(), &CHANGES, changes_text)
}

fn list(alloc: Global) -> Result<String, Fail> {
    let mut numbers = List::new(alloc);
    if numbers.push(7u32).is_err() || numbers.push(8).is_err() {
        return Err("no memory".into());
    }
    Ok(format!(in alloc; "{:?}", numbers.copy()?.into_vec())?)
}

fn bytes(alloc: Global) -> Result<String, Fail> {
    let mut text = Bytes::from_slice(alloc, b"ab")?;
    text.push(0)?;
    text.extend_from_slice(b"c")?;
    Ok(format!(in alloc; "{:?}", text.copy()?.into_vec())?)
}

fn sort_keys(alloc: Global) -> Result<String, Fail> {
    let key = SortKey {
        column: 1,
        descending: true,
    };
    let keys = List::from_vec(vec![in alloc; key]?);
    Ok(format!(in alloc; "{:?}", keys.copy()?.as_slice())?)
}

fn grown_ints(alloc: Global) -> Result<Column, Memory>
    ensures { IfOk result (λ c. column_type c ≡ ColumnType.Int64) }
{
    let mut ints = Column::new(alloc, ColumnType::Int64);
    ints.reserve(2)?;
    ints.push_int(4)?;
    ints.push(Value::Int(-4))?;
    let copy = ints.copy()?;
    ints.append_range(&copy, 0, copy.len())?;
    Ok(ints)
}

fn signed(alloc: Global) -> Result<String, Fail> {
    let ints = grown_ints(alloc)?;
    let before = format!(in alloc; "{:?}", ints.ints())?;
    Ok(format!(in alloc; "{before} {:?}", ints.into_ints())?)
}

fn grown_uints(alloc: Global) -> Result<Column, Memory>
    ensures { IfOk result (λ c. column_type c ≡ ColumnType.UInt64) }
{
    let mut uints = Column::new(alloc, ColumnType::UInt64);
    uints.push_uint(6)?;
    uints.push_copy(&Value::UInt(7))?;
    uints.remove_front(1);
    Ok(uints)
}

fn unsigned(alloc: Global) -> Result<String, Fail> {
    Ok(format!(in alloc; "{:?}", grown_uints(alloc)?.uints())?)
}

fn appended_texts(alloc: Global) -> Result<Column, Memory>
    ensures { IfOk result (λ c. column_type c ≡ ColumnType.Text) }
{
    let mut texts = Column::new(alloc, ColumnType::Text);
    texts.push_text(b"ab")?;
    let more = column_of_texts(alloc, &[b"xyz", b"cd", b"", b"e"])?;
    if more.len() == 4 {
        texts.append_range(&more, 1, 3)?;
    }
    texts.truncate(3);
    texts.remove_front(1);
    Ok(texts)
}

// The number of texts and the first of a column, and of its texts that and the second.
fn texts(alloc: Global) -> Result<String, Fail> {
    let column = appended_texts(alloc)?;
    let count = column.len();
    if count < 2 {
        return Err("there are two texts".into());
    }
    let before = format!(in alloc; "{count} {:?}", column.text(0))?;
    let texts = column.texts();
    if texts.len() < 2 {
        return Err("there are two texts".into());
    }
    Ok(format!(in alloc; "{before} {} {:?}", texts.len(), texts.get(1))?)
}

fn grown_nulls(alloc: Global) -> Result<Column, Memory>
    ensures { IfOk result (λ c. column_type c ≡ ColumnType.NullInt64) }
{
    let mut nulls = Column::new(alloc, ColumnType::NullInt64);
    nulls.reserve(2)?;
    nulls.push_int(4)?;
    nulls.push_null()?;
    nulls.push(Value::Null)?;
    nulls.push_copy(&Value::Int(-4))?;
    let copy = nulls.copy()?;
    if copy.len() == 4 {
        nulls.append_range(&copy, 1, 3)?;
    }
    nulls.remove_front(1);
    Ok(nulls)
}

// Whether a column may have NULL, the type of its values, and which of them aren't NULL.
fn valid(alloc: Global) -> Result<String, Fail> {
    let column = grown_nulls(alloc)?;
    let nullable = column.is_nullable();
    Ok(format!(in alloc;
        "{nullable} {:?} {:?}",
        column.plain_type(),
        column.validity()
    )?)
}

// The lengths of truncated columns, and the types of empty ones.
fn columns(alloc: Global) -> Result<String, Fail> {
    let mut columns = places(alloc)?.into_columns().into_vec();
    truncate_columns(&mut columns, 3);
    let mut out = String::new(alloc);
    for column in &columns {
        write!(out, "{} ", column.len())?;
    }
    for column in &empty_columns(alloc, &[ColumnType::Text, ColumnType::Int64])? {
        write!(out, "{:?} ", column.kind())?;
    }
    Ok(out)
}

fn growth_text(alloc: Global, text: &str) -> Result<String, Fail> {
    match text {
        "list" => list(alloc),
        "bytes" => bytes(alloc),
        "keys" => sort_keys(alloc),
        "signed" => signed(alloc),
        "unsigned" => unsigned(alloc),
        "texts" => texts(alloc),
        "nulls" => valid(alloc),
        _ => columns(alloc),
    }
}

static GROWN: [&str; 8] = [
    "list~[7, 8]",
    "bytes~[97, 98, 0, 99]",
    "keys~[SortKey { column: 1, descending: true }]",
    "signed~[4, -4, 4, -4] [4, -4, 4, -4]",
    "unsigned~[7]",
    "texts~2 [99, 100] 2 []",
    "nulls~true Int64 Some([false, false, true, false, false, true])",
    "columns~3 3 3 3 Text Int64 ",
];

#[test]
fn lists_and_columns_grow_and_are_copied_cut_and_taken(rt: HostRuntime) -> Result<(), Fail> {
    check_each(&rt, rt.alloc(), &GROWN, growth_text)
}
