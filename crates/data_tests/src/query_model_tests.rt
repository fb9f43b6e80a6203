use crate::literals::{bytes, check_each, halves, types_of};
use crate::plain_rows::{bad_field, row_spelled};
use chunk_data::{Bytes, ColumnType};
use query_model::arithmetic::{add_int, add_uint, mul_int, mul_uint, sub_int, sub_uint};
use query_model::numerals::{spelled_int, spelled_uint};
use query_model::plain::row_text;
use query_model::processor_spec::{Kind, Spec};
use query_model::query::Span;
use std::alloc::Global;
use std::str::from_utf8;
use std::test::Fail;

// The Int64 and the UInt64 that a field spells.
fn numerals_text(alloc: Global, text: &str) -> Result<String, Fail> {
    let field = text.as_bytes();
    Ok(format!(in alloc; "{:?} {:?}", spelled_int(field), spelled_uint(field))?)
}

static FIELDS: [&str; 17] = [
    "~None None",
    "-~None None",
    "+1~None None",
    " 1~None None",
    "1e3~None None",
    "--1~None None",
    "-0~Some(0) None",
    "007~Some(7) Some(7)",
    "-042~Some(-42) None",
    "9223372036854775807~Some(9223372036854775807) Some(9223372036854775807)",
    "9223372036854775808~None Some(9223372036854775808)",
    "-9223372036854775808~Some(-9223372036854775808) None",
    "-9223372036854775809~None None",
    "18446744073709551615~None Some(18446744073709551615)",
    "0000018446744073709551615~None Some(18446744073709551615)",
    "18446744073709551616~None None",
    "99999999999999999999999~None None",
];

#[test]
fn fields_spell_numbers(rt: HostRuntime) -> Result<(), Fail> {
    check_each(&rt, rt.alloc(), &FIELDS, numerals_text)
}

#[test]
fn results_are_taken_modulo_2_to_64(rt: HostRuntime) {
    assert!(rt; add_uint(u64::MAX, 1) == 0 && add_int(i64::MAX, 1) == i64::MIN);
    assert!(rt; sub_uint(0, 1) == -1 && sub_int(i64::MIN, 1) == i64::MAX);
    assert!(rt; mul_uint(1 << 63, 2) == 0 && mul_int(4_611_686_018_427_387_904, 2) == i64::MIN);
}

fn fields_of(alloc: Global, text: &str) -> Result<Vec<Bytes>, Fail> {
    let mut fields = Vec::new(alloc);
    for field in text.split('|') {
        fields.push(bytes(alloc, field)?)?;
    }
    Ok(fields)
}

// The text of a record's row, or its bad field.
fn shown(alloc: Global, types: &[ColumnType], fields: &[Bytes]) -> Result<String, Fail> {
    if let Some(row) = row_spelled(alloc, types, fields)? {
        let text = row_text(alloc, row.as_slice())?;
        return Ok(String::from_str(alloc, from_utf8(&text).unwrap_or("?"))?);
    }
    if types.len() > 9 {
        return Err("too many columns".into());
    }
    Ok(format!(in alloc; "{:?}", bad_field(types, fields))?)
}

// A record: its types, and its fields between `|`s.
fn record_text(alloc: Global, text: &str) -> Result<String, Fail> {
    let (letters, rest) = halves(text, '|');
    shown(
        alloc,
        types_of(alloc, letters)?.as_slice(),
        &fields_of(alloc, rest)?,
    )
}

static RECORDS: [&str; 8] = [
    "iut|-007|18446744073709551615|say \"hi\",\nbye~\
     -7,18446744073709551615,\"say \"\"hi\"\",\nbye\"\n",
    "iut|1|z|z~Column(2)",
    "i|1|z|z~Fields(3)",
    // NULL, in columns that may have it alone.
    "IUT|\\N|\\N|\\N~\\N,\\N,\\N\n",
    "IUT|-7|7|\\n~-7,7,\"\\n\"\n",
    "it|7|\\N~7,\"\\N\"\n",
    "Ii|\\N|\\N~Column(2)",
    "TI||~Column(2)",
];

#[test]
fn records_become_texts_and_bad_fields_are_counted_from_one(rt: HostRuntime) -> Result<(), Fail> {
    check_each(&rt, rt.alloc(), &RECORDS, record_text)
}

fn kind_of(spec: Spec) -> Kind {
    spec.kind()
}

#[test]
fn a_spec_has_its_kind(rt: HostRuntime) {
    assert!(rt; kind_of(Spec::Limit(Span { count: 1, skip: 0 })) == Kind::Limit);
    assert!(rt; kind_of(Spec::Numbers(3, 1)) == Kind::Numbers);
}
