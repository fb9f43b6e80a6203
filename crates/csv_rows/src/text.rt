ghost use Rattle.std.specs.Prelude.{◌≡◌, ℕ, ◌<◌, ◌++◌, [], length, map, flat_map, IfOk, OnOk, option_copied};
ghost use Rattle.chunk_data.specs.Names.{value_at, Table, row_at, values};
ghost use Rattle.query_model.specs.Texts.{doubled, quoted, row_text as text_of_row, rows_text, separator, value_text};
ghost use Rattle.csv_rows.specs.Lines.{heading};

use chunk_data::{Bytes, Chunk, Column, List, Memory, PlainSlice, Value};
use itoa::{Buffer, Integer};
use query_model::plain::{NULL_TEXT, row_text};
use std::alloc::Global;

/// The text of an answer: a line of names, if any are given, and then a line for each row.
///
/// Strings stand in double quotes with inner quotes doubled, numbers and NULL stand bare, commas
/// separate and LF ends each line, as in RFC 4180 but for the line's end.
pub fn write_rows(
    alloc: Global,
    names: Option<&List<Bytes>>,
    chunks: &[Chunk],
) -> Result<Vec<u8>, Memory>
    ensures { IfOk result (λ v. v.items ≡ heading (option_copied names.entry)
        ++ rows_text (flat_map (λ (c : Table). c.rows) chunks.now)) }
{
    let mut out = heading_text(alloc, names)?;
    for chunk in chunks {
        append_chunk(&mut out, chunk)?;
    }
    Ok(out)
}

// The line of names, each written as a text, where any are given.
fn heading_text(alloc: Global, names: Option<&List<Bytes>>) -> Result<Vec<u8>, Memory>
    ensures { IfOk result (λ v. v.items ≡ heading (option_copied names.entry)) }
{
    match names {
        None => Ok(Vec::new(alloc)),
        Some(names) => {
            let row = texts_of(alloc, names.as_slice())?;
            row_text(alloc, row.as_slice())
        }
    }
}

fn texts_of(alloc: Global, names: &[Bytes]) -> Result<Vec<Value>, Memory>
    ensures { IfOk result (λ v. v.items ≡ map Value.Text names.now) }
{
    let mut row = Vec::new(alloc);
    for name in names {
        row.push(Value::Text(name.copy()?))?;
    }
    Ok(row)
}

fn append_chunk(out: &mut Vec<u8>, chunk: &Chunk) -> Result<(), Memory>
    ensures { OnOk result (out.new.items ≡ out.old.items ++ rows_text chunk.now.rows) }
{
    let mut digits = Buffer::new();
    for i in 0..chunk.rows() {
        append_row(out, &mut digits, chunk, i)?;
    }
    Ok(())
}

fn append_row(out: &mut Vec<u8>, digits: &mut Buffer, chunk: &Chunk, i: usize) -> Result<(), Memory>
    requires in_range { i < length chunk.now.rows }
    requires wide { length (row_at chunk.now.rows i) ≡ length chunk.now.types }
    ensures { OnOk result (out.new.items ≡ out.old.items ++ text_of_row (row_at chunk.now.rows i)) }
{
    for c in 0..chunk.types().len() {
        append_comma(out, c)?;
        append_value(out, digits, chunk.column(c), i)?;
    }
    out.push(b'\n')?;
    Ok(())
}

// The comma in front of every value but the first.
fn append_comma(out: &mut Vec<u8>, place: usize) -> Result<(), Memory>
    ensures { OnOk result (out.new.items ≡ out.old.items ++ separator place) }
{
    if place > 0 {
        out.push(b',')?;
    }
    Ok(())
}

fn append_value(
    out: &mut Vec<u8>,
    digits: &mut Buffer,
    column: &Column,
    i: usize,
) -> Result<(), Memory>
    requires { i < length (values column.now) }
    ensures { OnOk result (
        out.new.items ≡ out.old.items ++ value_text (value_at (values column.now) i)) }
{
    if !column.is_valid(i) {
        out.extend_from_slice(NULL_TEXT)?;
        return Ok(());
    }
    match column.plain() {
        PlainSlice::Ints(numbers) => append_number(out, digits, numbers[i]),
        PlainSlice::UInts(numbers) => append_number(out, digits, numbers[i]),
        PlainSlice::Texts(texts) => append_quoted(out, texts.get(i)),
    }
}

fn append_number<I: Integer>(
    out: &mut Vec<u8>,
    digits: &mut Buffer,
    number: I,
) -> Result<(), Memory>
    ensures { OnOk result (out.new.items ≡ out.old.items ++ I.text number) }
{
    out.extend_from_slice(digits.format(number).as_bytes())?;
    Ok(())
}

fn append_quoted(out: &mut Vec<u8>, text: &[u8]) -> Result<(), Memory>
    ensures { OnOk result (out.new.items ≡ out.old.items ++ quoted text.now) }
{
    out.push(b'"')?;
    append_doubled(out, text)?;
    out.push(b'"')?;
    Ok(())
}

// The bytes with each quote doubled. Most texts have no quote, and looking for one first is faster.
fn append_doubled(out: &mut Vec<u8>, text: &[u8]) -> Result<(), Memory>
    ensures { OnOk result (out.new.items ≡ out.old.items ++ flat_map doubled text.now) }
{
    if !text.contains(&b'"') {
        out.extend_from_slice(text)?;
        return Ok(());
    }
    for byte in text {
        if *byte == b'"' {
            out.push(b'"')?;
        }
        out.push(*byte)?;
    }
    Ok(())
}
