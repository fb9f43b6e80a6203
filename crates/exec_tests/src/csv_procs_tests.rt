ghost use Rattle.std.specs.Prelude.{IfOk};
ghost use Rattle.outside_io.specs.Scripts.{IsRising};

use crate::driven::{drive, halves, types_of};
use chunk_data::{Bytes, List};
use csv_procs::{CsvSource, ListSource};
use outside_io::{Fake, FakeKind, FileEntry, MemFiles};
use proc_api::Processor;
use query_model::processor_spec::{PartSpec, Spec};
use std::alloc::{AllocError, Global};
use std::process::Abort;
use std::test::Fail;

fn text_of(alloc: Global, s: &str) -> Result<Bytes, Fail> {
    Ok(Bytes::from_slice(alloc, s.as_bytes())?)
}

// So many rows of a `1`, and the rest.
fn bytes_of(alloc: Global, text: &str) -> Result<String, AllocError> {
    let (rows, rest) = halves(text, ' ');
    let mut bytes = "1\n".repeat(alloc, rows.parse().unwrap_or(0))?;
    bytes.push_str(rest)?;
    Ok(bytes)
}

// A call's number, if it is no 0, and whether it is pending or fails.
fn script_of(alloc: Global, text: &str) -> Result<List<Fake>, AllocError>
    ensures { IfOk result (λ script. IsRising script) }
{
    let kind = match text.ends_with('p') {
        true => FakeKind::Pend,
        false => FakeKind::Fail,
    };
    let call = text.trim_end_matches(['f', 'p']).parse().unwrap_or(0);
    Ok(List::from_vec(vec![in alloc; Fake { call, kind }]?))
}

/// Sources over one file, `f`, which is told by a script and its bytes, and the parts that they are
/// loaded with, of one column: the path, the type, the rows of a chunk, and a heading.
pub(crate) fn blank(alloc: Global, case: &str) -> Result<Box<dyn Processor + Send>, Fail> {
    let (kind, rest) = halves(halves(case, '/').0, ' ');
    let (script, text) = halves(rest, ' ');
    let entry = FileEntry {
        path: text_of(alloc, "f")?,
        bytes: text_of(alloc, bytes_of(alloc, text)?.as_str())?,
    };
    let files = List::from_vec(vec![in alloc; entry]?);
    let files = MemFiles::new(alloc, files, script_of(alloc, script)?);
    match kind {
        "list" => Ok(Box::new(alloc, ListSource::new(alloc, files))?),
        _ => Ok(Box::new(alloc, CsvSource::new(alloc, files))?),
    }
}

/// What it is loaded with.
pub(crate) fn spec(alloc: Global, made: &str, words: &str) -> Result<Spec, Fail> {
    let (path, rest) = halves(words, ' ');
    let (letter, rest) = halves(rest, ' ');
    let (rows, header) = halves(rest, ' ');
    let part = PartSpec {
        table: 0,
        part: 0,
        path: text_of(alloc, path)?,
        types: types_of(alloc, letter)?,
        header: header == "header",
        rows: rows.parse().unwrap_or(1),
    };
    Ok(match made.starts_with("list") {
        true => Spec::List(part),
        false => Spec::Csv(part),
    })
}

fn drive_each(rt: &impl Abort, alloc: Global, cases: &[&str]) -> Result<(), Fail> {
    for case in cases {
        drive(rt, alloc, &mut blank(alloc, case)?, case, spec)?;
    }
    Ok(())
}

static PARTS: [&str; 8] = [
    "csv 0f 0 1\n2\n3\n4\n5\n/0 1 i/n0/f i 2~..1 2 |3 4 |5 |end",
    "csv 0f 0 1\n2\n/0 1 i/n0/f i 2~..1 2 |end",
    "csv 0f 0 a\n1\n2\n/0 1 i/n0/f i 2 header~..1 2 |end",
    "csv 0f 0 a\n/0 1 i/n0/f i 2 header~..end",
    "csv 0f 0 /0 1 i/n0/f i 2~.end",
    "csv 0f 0 x\n1\n/0 1 i/n0/f i 2~..bad 1 1",
    "csv 0f 0 1\n2\nx\n/0 1 i/n0/f i 2~..1 2 |bad 3 1",
    "csv 0f 0 1\n2\n3\n4,5\n/0 1 i/n0/f i 2~..1 2 |3 |bad 4 of 2",
];

#[test]
fn rows_come_in_chunks_up_to_the_bad_place(rt: HostRuntime) -> Result<(), Fail> {
    drive_each(&rt, rt.alloc(), &PARTS)
}

static FAULTS: [&str; 5] = [
    "csv 1f 0 7\n/0 1 i/n0/f i 2~Read/g i 2~Read/f i 2~..7 |end",
    "csv 2f 0 7\n/0 1 i/n0/f i 2~.Read/g i 2~Read/f i 2~..7 |end",
    "csv 3f 0 7\n/0 1 i/n0/f i 2~..Read/g i 2~Read/f i 2~..7 |end",
    "csv 2p 0 7\n/0 1 i/n0/f i 2~...7 |end/g i 2~Read/f i 2~..7 |end",
    "csv 3p 0 7\n/0 1 i/n0/f i 2~...7 |end/g i 2~Read/f i 2~..7 |end",
];

#[test]
fn a_source_is_loaded_again_after_a_fault(rt: HostRuntime) -> Result<(), Fail> {
    drive_each(&rt, rt.alloc(), &FAULTS)
}

static RECORDS: [&str; 8] = [
    "csv 0f 0 x\r\ny\r\n/0 1 t/n0/f t 8~..x y |end",
    "csv 0f 0 x\ry/0 1 t/n0/f t 8~..x y |end",
    "csv 0f 0 x\n\"y/0 1 t/n0/f t 8~..x y |end",
    "csv 0f 0 x\n\"y\n/0 1 t/n0/f t 8~..x y\n |end",
    "csv 0f 0 \"a,\"\"b\"\n\nc\n/0 1 t/n0/f t 8~..a,\"b c |end",
    "csv 0f 0 \u{feff}x\n\u{feff}\n/0 1 t/n0/f t 8 header~..\u{ef}\u{bb}\u{bf} |end",
    "csv 0f 0 \u{feff}\"x\"\n/0 1 t/n0/f t 8~..x |end",
    "csv 0f 0 name\r\nx\r\n/0 1 t/n0/f t 8 header~..x |end",
];

#[test]
fn records_are_those_of_the_dialect(rt: HostRuntime) -> Result<(), Fail> {
    drive_each(&rt, rt.alloc(), &RECORDS)
}

// 65,536 bytes are one block.
static BLOCKS: [&str; 6] = [
    "csv 0f 32768 /0 1 i/n0/f i 32768~..32768 rows|end",
    "csv 0f 32768 7/0 1 i/n0/f i 32768~...32768 rows|7 |end",
    "csv 0f 32767 123\n/0 1 i/n0/f i 32768~...32768 rows|end",
    "csv 0f 32767 1234/0 1 i/n0/f i 32768~...32768 rows|end",
    "csv 0f 32767 x\n/0 1 i/n0/f i 32768~..32767 rows|bad 32768 1",
    "csv 0f 32768 x/0 1 i/n0/f i 32768~...32768 rows|bad 32769 1",
];

#[test]
fn files_are_fetched_in_blocks(rt: HostRuntime) -> Result<(), Fail> {
    drive_each(&rt, rt.alloc(), &BLOCKS)
}

static LISTS: [&str; 7] = [
    "list 0f 0 a\nb\n/0 1 i/n0 0:1;2;3 1:4 e0 1:5 e1/\
     f i 2~..1 a 2 b .1 2 |3 |.4 |..5 |.end",
    "list 0f 0 \r\na\r\n\nb/0 1 i/n0 0:1;2;3 1:4 e0 1:5 e1/\
     f i 2~..1 a 2 b .1 2 |3 |.4 |..5 |.end",
    "list 0f 0 a\n\n\0\n/0 1 i/n0/f i 2~..BadList(3)",
    "list 0f 0 \0/0 1 i/n0/f i 2~..BadList(1)",
    "list 0f 0 /0 1 i/n0/f i 2~.end",
    "list 0f 0 \n\r\n/0 1 i/n0/f i 2~..end",
    // The 33rd path is one too many.
    "list 0f 33 /0 1 i/n0/f i 2~..BadList(33)",
];

#[test]
fn a_list_grows_by_its_paths_once_and_names_its_bad_line(rt: HostRuntime) -> Result<(), Fail> {
    drive_each(&rt, rt.alloc(), &LISTS)
}
