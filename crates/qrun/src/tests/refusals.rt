// Devices that fail or wait, and files that are damaged. Behind each run the same rack answers the
// first worked command.
use super::cases::check_case;
use super::{AMPLE, Setting, bars, run_setting, text};
use chunk_data::List;
use outside_io::{Fake, FakeKind, FileEntry};
use std::alloc::Global;
use std::process::Abort;
use std::str::from_utf8;
use std::sync::Wait;
use std::test::Fail;
use std::thread::Threads;

/// Numbers of lanes and of rows of a chunk.
pub(super) static SIZES: [&str; 6] = [
    "|--threads|1|--chunk|1",
    "|--threads|4|--chunk|1",
    "|--threads|16|--chunk|1",
    "|--threads|1|--chunk|8192",
    "|--threads|4|--chunk|8192",
    "|--threads|16|--chunk|8192",
];

/// What the first worked command gives.
const SERVED: &str = "/7\n7\n";

/// By each size the case's run gave what it tells, and then the first worked command its answer.
fn check_refusal<R: AllocGlobal + Threads + Wait + Sync>(
    rt: &R,
    abort: &impl Abort,
    case: &str,
    setting: Setting,
) -> Result<(), Fail> {
    let case = format!(in rt.alloc(); "{case}{SERVED}")?;
    let setting = Setting {
        serves: true,
        ..setting
    };
    for size in SIZES.iter() {
        check_case(rt, abort, case.as_str(), size, setting)?;
    }
    Ok(())
}

/// A reader that fails, or has nothing yet, at a call of its own.
fn reader(only: &'static [u32], call: u64, kind: FakeKind) -> Setting {
    Setting {
        fake: Some(Fake { call, kind }),
        only,
        ..AMPLE
    }
}

/// Readers that fail or wait at a call, by the places of their sources in the rack. The sources of
/// lists lie behind 64 of parts.
#[test]
fn readers_are_refused(rt: HostRuntime) -> Result<(), Fail> {
    const COUNT: &str = "a Int64~SELECT count() FROM t~1\n|1\n|1\n~";
    const LISTED: &str =
        "t=@p0.csv:a Int64~SELECT count() FROM t~p1.csv\np2.csv\np3.csv\n|1\n|1\n|1\n~";
    static CASES: [(&[u32], u64, FakeKind, &str, &str); 11] = [
        (
            &[1],
            1,
            FakeKind::Fail,
            COUNT,
            "!read fault: table t part 2",
        ),
        (
            &[1],
            2,
            FakeKind::Fail,
            COUNT,
            "!read fault: table t part 2",
        ),
        (
            &[1],
            3,
            FakeKind::Fail,
            COUNT,
            "!read fault: table t part 2",
        ),
        (&[1], 2, FakeKind::Pend, COUNT, "3\n"),
        (&[1], 3, FakeKind::Pend, COUNT, "3\n"),
        // opening has no way to wait
        (
            &[1],
            1,
            FakeKind::Pend,
            COUNT,
            "!read fault: table t part 2",
        ),
        (
            &[0, 2],
            1,
            FakeKind::Fail,
            COUNT,
            "!read fault: table t part 1%!read fault: table t part 3",
        ),
        (
            &[0],
            1,
            FakeKind::Fail,
            "a Int64~SELECT count() FROM t~1\n|z\n|1\n~",
            "!read fault: table t part 1%!bad data: table t part 2 row 1 column 1",
        ),
        (
            &[64],
            1,
            FakeKind::Fail,
            LISTED,
            "!read fault: table t list",
        ),
        (
            &[64],
            2,
            FakeKind::Fail,
            LISTED,
            "!read fault: table t list",
        ),
        (
            &[64],
            3,
            FakeKind::Fail,
            LISTED,
            "!read fault: table t list",
        ),
    ];
    for (only, call, kind, case, told) in CASES.iter() {
        let case = format!(in rt.alloc(); "{case}{told}")?;
        check_refusal(&rt, &rt, case.as_str(), reader(*only, *call, *kind))?;
    }
    Ok(())
}

/// Each call in turn of the readers of parts that a list names.
#[test]
fn readers_of_listed_parts_fail(rt: HostRuntime) -> Result<(), Fail> {
    const LISTED: &str =
        "t=@p0.csv:a Int64~SELECT count() FROM t~p1.csv\np2.csv\np3.csv\n|1\n|1\n|1\n~";
    static CASES: [(&[u32], u64, FakeKind, &str); 8] = [
        (&[0], 1, FakeKind::Fail, "!read fault: table t part 1"),
        (&[0], 2, FakeKind::Fail, "!read fault: table t part 1"),
        (&[0], 3, FakeKind::Fail, "!read fault: table t part 1"),
        (&[1], 2, FakeKind::Fail, "!read fault: table t part 2"),
        (&[2], 3, FakeKind::Fail, "!read fault: table t part 3"),
        (
            &[0, 1, 2],
            1,
            FakeKind::Pend,
            "!read fault: table t part 1%!read fault: table t part 2%!read fault: table t part 3",
        ),
        (&[0, 1, 2], 2, FakeKind::Pend, "3\n"),
        (&[0, 1, 2], 3, FakeKind::Pend, "3\n"),
    ];
    for (only, call, kind, told) in CASES.iter() {
        let case = format!(in rt.alloc(); "{LISTED}{told}")?;
        check_refusal(&rt, &rt, case.as_str(), reader(*only, *call, *kind))?;
    }
    Ok(())
}

/// Damaged fields and records: the columns, the query, the file, and what is written or told.
#[test]
fn damaged_fields_are_told(rt: HostRuntime) -> Result<(), Fail> {
    static CASES: [&str; 13] = [
        "a Int64~SELECT a FROM t~+1\n~!bad data: table t part 1 row 1 column 1",
        "a Int64~SELECT a FROM t~ 1\n~!bad data: table t part 1 row 1 column 1",
        "a Int64~SELECT a FROM t~-\n~!bad data: table t part 1 row 1 column 1",
        "a Int64~SELECT a FROM t~--1\n~!bad data: table t part 1 row 1 column 1",
        "a Int64~SELECT a FROM t~1.0\n~!bad data: table t part 1 row 1 column 1",
        "a Int64~SELECT a FROM t~0x1\n~!bad data: table t part 1 row 1 column 1",
        "a Int64~SELECT a FROM t~\"\"\n~!bad data: table t part 1 row 1 column 1",
        "a Int64~SELECT a FROM t~-0\n~0\n",
        "a Int64~SELECT a FROM t~007\n~7\n",
        "a UInt64~SELECT a FROM t~-0\n~!bad data: table t part 1 row 1 column 1",
        "a Int64~SELECT a FROM t~^9999*1,^1\n~!bad data: table t part 1 row 1 fields 10000",
        // a quote that isn't closed ends with the file
        "a String~SELECT a FROM t~\"ab~\"ab\"\n",
        "a String~SELECT a FROM t~x\n\"ab\ncd~*\"x\"\n\"ab\ncd\"\n",
    ];
    for case in CASES.iter() {
        check_refusal(&rt, &rt, case, AMPLE)?;
    }
    Ok(())
}

/// Lists with other ends of lines, empty lines, and lines that are no path.
#[test]
fn damaged_lists_are_told(rt: HostRuntime) -> Result<(), Fail> {
    static CASES: [&str; 8] = [
        "@~SELECT count(), sum(a) FROM t~\r\n\np1.csv\r\n\r\np1.csv\r|1\n~2,2\n",
        "@~SELECT count(), sum(a) FROM t~p1.csv\rp1.csv\n|1\n~!read fault: table t part 1",
        "@~SELECT count() FROM t~p1.csv\n\r\r\n|1\n~!read fault: table t part 2",
        "@~SELECT count() FROM t~\n\n\0\n|1\n~!bad list: table t line 3",
        "@~SELECT count() FROM t~p1.csv\np\0.csv|1\n~!bad list: table t line 2",
        "@~SELECT count() FROM t~p1.csv\n^4096*p^\n|1\n~!read fault: table t part 2",
        "@~SELECT count() FROM t~p1.csv\n^4097*p^\n|1\n~!bad list: table t line 2",
        "@~SELECT count() FROM t~^33*p1.csv\n^^4097*p^\n|1\n~!bad list: table t line 33",
    ];
    for case in CASES.iter() {
        check_refusal(&rt, &rt, case, AMPLE)?;
    }
    Ok(())
}

/// A list whose second line is no text of Unicode.
#[test]
fn a_path_is_a_text(rt: HostRuntime) -> Result<(), Fail> {
    let alloc = rt.alloc();
    let mut files = Vec::new(alloc);
    push_file(alloc, &mut files, b"list", b"p.csv\n\xff\n")?;
    push_file(alloc, &mut files, b"p.csv", b"1\n")?;
    let files = List::from_vec(files);
    let words = bars(alloc, "--query|SELECT a FROM t|--tables|t=@list:a Int64")?;
    let runs = run_setting(&rt, words.as_slice(), &files, None, AMPLE)?;
    for outcome in runs.outcomes.as_slice() {
        assert_eq!(rt; outcome.status, 3);
        let line = b"qrun: bad list: table t line 2\n";
        assert_eq!(rt; outcome.err.written(), line.as_slice());
    }
    assert_eq!(rt; runs.outcomes.len(), 1);
    Ok(())
}

pub(super) fn push_file(
    alloc: Global,
    files: &mut Vec<FileEntry>,
    path: &[u8],
    bytes: &[u8],
) -> Result<(), Fail> {
    files.push(FileEntry {
        path: text(alloc, path)?,
        bytes: text(alloc, bytes)?,
    })?;
    Ok(())
}

/// Each of 32 parts in turn is bad, by itself and where a list names it.
#[test]
fn each_part_may_be_bad(rt: HostRuntime) -> Result<(), Fail> {
    for bad in 1..33u32 {
        let case = format!(in rt.alloc();
            "a Int64~SELECT count() FROM t~^{}*1\n|^z^{}*|1\n^~\
             !bad data: table t part {bad} row 1 column 1{SERVED}",
            bad - 1,
            32 - bad
        )?;
        check_one(&rt, &rt, case.as_str())?;
        let case = format!(in rt.alloc();
            "@~SELECT count() FROM t~^32*p#.csv\n^^{}*|1\n^|z^{}*|1\n^~\
             !bad data: table t part {bad} row 1 column 1{SERVED}",
            bad - 1,
            32 - bad
        )?;
        check_one(&rt, &rt, case.as_str())?;
    }
    Ok(())
}

/// On four threads.
fn check_one<R: AllocGlobal + Threads + Wait + Sync>(
    rt: &R,
    abort: &impl Abort,
    case: &str,
) -> Result<(), Fail> {
    let setting = Setting {
        serves: true,
        ..AMPLE
    };
    check_case(rt, abort, case, SIZES[4], setting)
}

/// The sink of lines fails at once.
#[test]
fn a_line_is_not_told(rt: HostRuntime) -> Result<(), Fail> {
    let setting = Setting {
        err: (80, 0),
        ..AMPLE
    };
    check_refusal(
        &rt,
        &rt,
        "a Int64~SELECT FROM t~1\n~!refused: Syntax",
        setting,
    )
}

/// The sink of the answer takes a byte a call, and fails behind each front of the text in turn.
#[test]
fn a_front_is_written(rt: HostRuntime) -> Result<(), Fail> {
    const TEXT: &str = "-12,\"x\"\n34,\"\"\"\"\n56,\"y,z\"\n";
    for room in 0..TEXT.len() {
        let Ok(front) = from_utf8(&TEXT.as_bytes()[..room]) else {
            return Err("the text is cut within a character".into());
        };
        let setting = Setting {
            out: (1, room),
            serves: true,
            ..AMPLE
        };
        let case = format!(in rt.alloc();
            "a Int64,b String~SELECT a, b FROM t~-12,x\n34,\"\"\"\"\n56,\"y,z\"\n~\
             {front}!write fault{SERVED}"
        )?;
        check_case(&rt, &rt, case.as_str(), SIZES[3], setting)?;
    }
    Ok(())
}

/// A reader has nothing yet 999,999 times, and then fails.
#[test]
fn a_reader_waits_and_fails(rt: HostRuntime) -> Result<(), Fail> {
    let setting = Setting {
        waits: 999_999,
        serves: true,
        ..reader(&[0], 2, FakeKind::Fail)
    };
    let case = "a Int64~SELECT count() FROM t~1\n|1\n|1\n~!read fault: table t part 1/7\n7\n";
    check_case(&rt, &rt, case, SIZES[3], setting)
}

/// Where memory is refused, once, the run in which it is ends out of memory, and else each with its
/// answer. `tools/fail_allocations` refuses each allocation of this test in turn.
#[test]
fn memory_may_be_refused(rt: HostRuntime) -> Result<(), Fail> {
    static CASES: [&str; 6] = [
        "a Int64,b String~SELECT a FROM t~7,x\n7,y\n~7\n7\n",
        "k String,v Int64~SELECT k, count(), sum(v) FROM t GROUP BY k~\
         x,1\n|x,1\n|x,1\n|x,1\n~\"x\",4,4\n",
        "l,r~SELECT l.k, a, b FROM l JOIN r ON l.k = r.k ORDER BY k, a, b~\
         1,10\n1,11\n2,12\n|1,20\n1,21\n1,22\n3,23\n~\
         1,10,20\n1,10,21\n1,10,22\n1,11,20\n1,11,21\n1,11,22\n",
        "t=@p0.csv:a Int64~SELECT count(), sum(a) FROM t~p1.csv\np2.csv\np3.csv\n|1\n||2\n~2,3\n",
        "a Int64,b String~SELECT a, b FROM t ORDER BY a, b~2,x\n1,y\n1,x\n~\
         1,\"x\"\n1,\"y\"\n2,\"x\"\n",
        "a Int64~SELECT a FROM t LIMIT 5~1\n2\n|3\n|1\n2\n~*1\n2\n3\n1\n2\n",
    ];
    for case in CASES.iter() {
        let case = format!(in rt.alloc(); "{case}%!out of memory{SERVED}%!out of memory")?;
        let setting = Setting {
            serves: true,
            ..AMPLE
        };
        check_case(&rt, &rt, case.as_str(), SIZES[4], setting)?;
    }
    Ok(())
}
