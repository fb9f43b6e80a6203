// Racks, readers and sinks that lack something, wait or fail.
ghost use Rattle.std.specs.Prelude.{IsSome, OnOk, Some, map};
ghost use Rattle.outside_io.specs.Told.{files_of as told_pairs};
ghost use Rattle.query_model.specs.declared.processor_spec.Kind.TheVariants as kind;
ghost use Rattle.qrun.specs.Stocking.{AddsTold};

use super::cases::{SIZES, check_case, check_cases};
use super::{
    AMPLE, Marking, Runs, Setting, bars, one_file, put_told, reader_of, run_setting, run_shown,
    script_of, text,
};
use crate::racks::OTHERS;
use crate::tests::boxes::add_each;
use chunk_data::{Bytes, List};
use csv_procs::{CsvSource, Fetched, fetch};
use outside_io::{Fake, FakeKind, FileEntry, FileReader, MemFiles};
use proc_api::{Rack, WorkFault};
use query_model::processor_spec::Kind;
use std::alloc::{AllocError, Global};
use std::sync::atomic::{AtomicU64, Ordering};
use std::sync::{Arc, Wait};
use std::test::Fail;
use std::thread::Threads;

/// A sink of lines that takes so many bytes a call, and fails after some: the line, with a name or
/// numbers, is cut there, and all else is the same.
#[test]
fn lines_are_cut_where_their_sink_fails(rt: HostRuntime) -> Result<(), Fail> {
    static CASES: [(usize, &str); 2] = [
        (
            3,
            "a Int64~SELECT cost FROM t~~!refused: UnknownColumn cost~",
        ),
        (
            80,
            "a Int64~SELECT a FROM t~~!limit: boxes of kind Csv needed 1, rack has 0~",
        ),
    ];
    for (step, case) in CASES.iter() {
        for room in 0..53 {
            let setting = Setting {
                err: (*step, room),
                ..AMPLE
            };
            check_case(&rt, &rt, case, "", setting)?;
        }
    }
    Ok(())
}

/// A reader that fails, or has nothing yet, at each of its calls in turn: opening, a block, the
/// end.
#[test]
fn readers_fail_and_wait(rt: HostRuntime) -> Result<(), Fail> {
    const READ: &str = "a Int64~SELECT a FROM t~7\n~7\n";
    const FAULT: &str = "a Int64~SELECT a FROM t~7\n~!read fault: table t part 1";
    static CASES: [(u64, FakeKind, &str); 8] = [
        (1, FakeKind::Fail, FAULT),
        (2, FakeKind::Fail, FAULT),
        (3, FakeKind::Fail, FAULT),
        (4, FakeKind::Fail, READ),
        (1, FakeKind::Pend, FAULT),
        (2, FakeKind::Pend, READ),
        (3, FakeKind::Pend, READ),
        (4, FakeKind::Pend, READ),
    ];
    for (call, kind, case) in CASES.iter() {
        let (call, kind) = (*call, *kind);
        let setting = Setting {
            fake: Some(Fake { call, kind }),
            ..AMPLE
        };
        check_case(&rt, &rt, case, "", setting)?;
    }
    Ok(())
}

/// Racks of few boxes.
#[test]
fn a_missing_kind_is_told(rt: HostRuntime) -> Result<(), Fail> {
    static CASES: [&str; 13] = [
        "t=p0.csv:a Int64|--threads|1~SELECT a FROM t WHERE a = 7~7\n~\
         !limit: boxes of kind Filter needed 1, rack has 0~serrc",
        "t=p0.csv:a Int64|--threads|2~SELECT a FROM t WHERE a = 7~7\n~\
         !limit: boxes of kind Filter needed 2, rack has 1~sferrc",
        "t=p0.csv:a Int64|--threads|1~SELECT a FROM t~7\n~7\n~serrc",
        "t=p0.csv:a Int64|--threads|1~SELECT a FROM t WHERE a = 7~7\n~\
         !limit: boxes of kind Csv needed 1, rack has 0~",
        "t=p0.csv:a Int64|--threads|1~SELECT number FROM numbers(3)~7\n~\
         !limit: boxes of kind Numbers needed 1, rack has 0~errc",
        "t=p0.csv:a Int64|--threads|1~SELECT a FROM t WHERE a = 7~7\n~\
         !limit: boxes of kind Expression needed 1, rack has 0~sfrrc",
        "t=p0.csv:a Int64|--threads|1~SELECT a FROM t~7\n~\
         !limit: boxes of kind Resize needed 2, rack has 0~sec",
        "t=p0.csv:a Int64|--threads|1~SELECT a FROM t LIMIT 1~7\n~\
         !limit: boxes of kind Limit needed 1, rack has 0~serrc",
        "t=p0.csv:a Int64|--threads|1~SELECT b FROM t~7\n~!refused: UnknownColumn b~",
        // a sort a lane and a merge, groups a lane and their merge
        "t=p0.csv:a Int64|--threads|4~SELECT a FROM t ORDER BY a~7\n~\
         !limit: boxes of kind Sort needed 4, rack has 0~seeeerrmc",
        "t=p0.csv:a Int64|--threads|4~SELECT a FROM t ORDER BY a~7\n~\
         !limit: boxes of kind MergeSorted needed 1, rack has 0~seeeerroooooc",
        "t=p0.csv:a Int64|--threads|4~SELECT count() FROM t~7\n~\
         !limit: boxes of kind PartialAggregate needed 4, rack has 3~seeeeerpppgc",
        "t=p0.csv:a Int64|--threads|4~SELECT count() FROM t~7\n~\
         !limit: boxes of kind MergeAggregate needed 1, rack has 0~seeeeerppppc",
    ];
    check_cases(&rt, &rt, &CASES, &["|--chunk|1", "|--chunk|8192"])
}

/// The boxes that weren't taken lie in front, and then the taken ones in the order of the plan. The
/// same words run again.
#[test]
fn boxes_come_back_in_their_order(rt: HostRuntime) -> Result<(), Fail> {
    static CASES: [&str; 6] = [
        "a Int64~SELECT a FROM t WHERE a = 7~7\n8\n~\
         7\n/7\n/ssffeerrlc|sfelsrferc|lsfesrferc|~ssffeerrlc",
        "a Int64~SELECT a FROM t~7\n8\n~\
         7\n8\n/7\n8\n/ssffeerrlc|sffelsrerc|fflsesrerc|~ssffeerrlc",
        "a Int64~SELECT a FROM t LIMIT 2~7\n8\n~\
         7\n8\n/7\n8\n/ssffeerrlc|sffesrerlc|ffsesrerlc|~ssffeerrlc",
        // both tables' sources, and then both tables' resizes
        "a UInt64~SELECT a FROM t JOIN numbers(9) ON a = number~7\n8\n~\
         7\n8\n/7\n8\n/snrrrrjec|snrrjrerc|snrrjrerc|~snrrrrjec",
        "a Int64~SELECT b FROM t~7\n8\n~\
         !refused: UnknownColumn b/!refused: UnknownColumn b/ssffeerrlc|ssffeerrlc|ssffeerrlc|~\
         ssffeerrlc",
        "a Int64~~7\n8\n~\
         !refused: Syntax/!refused: Syntax/ssffeerrlc|ssffeerrlc|ssffeerrlc|~ssffeerrlc",
    ];
    let setting = Setting { runs: 2, ..AMPLE };
    for case in CASES.iter() {
        check_case(&rt, &rt, case, "|--threads|1", setting)?;
    }
    Ok(())
}

/// Four parts, of which one source's reader fails its third call; then the same words run again by
/// the same rack.
#[test]
fn a_fault_leaves_the_rack_for_another_run(rt: HostRuntime) -> Result<(), Fail> {
    let setting = Setting {
        runs: 2,
        only: &[1],
        fake: Some(Fake {
            call: 3,
            kind: FakeKind::Fail,
        }),
        ..AMPLE
    };
    let case = "t=p0.csv+p0.csv+p0.csv+p0.csv:a Int64~SELECT count() FROM t~1\n~\
                !read fault: table t part 2/4\n";
    for size in SIZES.iter() {
        check_case(&rt, &rt, case, size, setting)?;
    }
    Ok(())
}

/// A reader of the first of four parts that has nothing yet 999,999 times before its block.
#[test]
fn a_reader_may_wait_many_times(rt: HostRuntime) -> Result<(), Fail> {
    let case = "t=p0.csv+p0.csv+p0.csv+p0.csv:a Int64~SELECT count() FROM t~1\n~4\n";
    check_case(
        &rt,
        &rt,
        case,
        "|--threads|1|--chunk|8192",
        waiting(999_999),
    )
}

/// And one more time.
#[test]
fn a_reader_stalls_at_a_million_waits(rt: HostRuntime) -> Result<(), Fail> {
    let case = "t=p0.csv+p0.csv+p0.csv+p0.csv:a Int64~SELECT count() FROM t~1\n~\
                !stalled: table t part 1";
    check_case(
        &rt,
        &rt,
        case,
        "|--threads|1|--chunk|8192",
        waiting(1_000_000),
    )
}

fn waiting(waits: u64) -> Setting {
    Setting {
        waits,
        only: &[0],
        ..AMPLE
    }
}

/// The query runs through the boxes, and the works of two sources run at the same time: each is
/// prepared, and sees the other's first work while its own goes on.
#[test]
fn two_sources_meet_at_work(rt: HostRuntime) -> Result<(), Fail> {
    let alloc = rt.alloc();
    let words = bars(
        alloc,
        "--query|SELECT a FROM t|--tables|t=f.csv+f.csv:a Int64|--threads=2",
    )?;
    let files = one_file(alloc, b"1\n")?;
    let marks = Arc::new(alloc, AtomicU64::new(0))?;
    let runs = run_marked(&rt, words.as_slice(), &files, &marks)?;
    for outcome in runs.outcomes.as_slice() {
        assert_eq!(rt; outcome.status, 0);
        assert_eq!(rt; outcome.out.written(), b"1\n1\n".as_slice());
    }
    assert_eq!(rt; runs.outcomes.len(), 1);
    // Both were prepared and worked, and neither missed the other.
    assert_eq!(rt; marks.load(Ordering::SeqCst), 15);
    Ok(())
}

fn run_marked<R: AllocGlobal + Threads + Wait + Sync>(
    rt: &R,
    words: &[String],
    files: &List<FileEntry>,
    marks: &Arc<AtomicU64, Global>,
) -> Result<Runs, Fail> {
    let mut rack = Rack::new(rt.alloc());
    put_marking(rt, &mut rack, files, marks, 1)?;
    put_marking(rt, &mut rack, files, marks, 2)?;
    add_each(rt, &mut rack, &OTHERS)?;
    run_shown(rt, words, &mut rack, files, AMPLE, false)
}

/// Adds a source that marks its calls so.
fn put_marking<R: AllocGlobal + Threads + Wait + Sync>(
    rt: &R,
    rack: &mut Rack,
    files: &List<FileEntry>,
    marks: &Arc<AtomicU64, Global>,
    mark: u64,
) -> Result<(), Fail>
    ensures { OnOk result (AddsTold kind.Csv 1 (Some (told_pairs files.now))
        (map (λ b. seen (b.vtable, b.value)) rack.old.boxes.items)
        (map (λ b. seen (b.vtable, b.value)) rack.new.boxes.items)) }
{
    let marks = Arc::try_clone(marks)?;
    let reader = reader_of(rt.alloc(), files, AMPLE, 0)?;
    let source = CsvSource::new(rt.alloc(), reader);
    let source = Marking {
        source,
        marks,
        mark,
    };
    put_told(rack, Kind::Csv, files, Box::new(rt.alloc(), source)?)?;
    Ok(())
}

/// More rows than one chunk holds.
#[test]
fn chunks_follow_each_other(rt: HostRuntime) -> Result<(), Fail> {
    let case = "a Int64~SELECT a FROM t WHERE a = 7~^20000*7\n^~^20000*7\n^";
    check_case(&rt, &rt, case, "", AMPLE)
}

/// A sink that takes one byte a call gets the whole text; one that fails after some got these.
#[test]
fn sinks_take_little(rt: HostRuntime) -> Result<(), Fail> {
    static CASES: [(usize, &str); 6] = [
        (9, "a Int64~SELECT a FROM t~123\n4567\n~123\n4567\n"),
        (
            8,
            "a Int64~SELECT a FROM t~123\n4567\n~123\n4567!write fault",
        ),
        (5, "a Int64~SELECT a FROM t~123\n4567\n~123\n4!write fault"),
        (0, "a Int64~SELECT a FROM t~123\n4567\n~!write fault"),
        (
            4096,
            "l,r~SELECT l.k, a, b FROM l JOIN r ON l.k = r.k ORDER BY k, a, b~\
             1,10\n1,11\n2,12\n|1,20\n1,21\n1,22\n3,23\n~\
             1,10,20\n1,10,21\n1,10,22\n1,11,20\n1,11,21\n1,11,22\n",
        ),
        (
            5,
            "l,r~SELECT l.k, a, b FROM l JOIN r ON l.k = r.k ORDER BY k, a, b~\
             1,10\n1,11\n2,12\n|1,20\n1,21\n1,22\n3,23\n~1,10,!write fault",
        ),
    ];
    for (room, case) in CASES.iter() {
        let setting = Setting {
            out: (1, *room),
            ..AMPLE
        };
        for size in SIZES[3..].iter() {
            check_case(&rt, &rt, case, size, setting)?;
        }
    }
    Ok(())
}

/// A missing file, and no words.
#[test]
fn words_and_files_may_be_missing(rt: HostRuntime) -> Result<(), Fail> {
    static CASES: [&str; 2] = [
        "t=g.csv:a Int64~SELECT a FROM t~1\n~!read fault: table t part 1",
        "--~~1\n~!usage",
    ];
    check_cases(&rt, &rt, &CASES, &[""])
}

/// One read after another over a file at the limit, and one byte beyond it.
#[test]
fn fetches_keep_the_limit(rt: HostRuntime) -> Result<(), Fail> {
    let cases: [(&[u8], &str); 3] = [
        (b"0123456789", "more whole"),
        (b"0123456789a", "too long"),
        (b"", "whole"),
    ];
    for (bytes, answers) in cases.iter() {
        let found = fetched(rt.alloc(), bytes)?;
        assert_eq!(rt; found.as_str(), *answers);
    }
    Ok(())
}

/// What the reads of the bytes answer within the limit of ten.
fn fetched(alloc: Global, bytes: &[u8]) -> Result<String, Fail> {
    let script = script_of(alloc, None)?;
    let mut files = MemFiles::new(alloc, one_file(alloc, bytes)?, script);
    let mut held = Bytes::new(alloc);
    match files.open_path(&text(alloc, b"f.csv")?) {
        Ok(()) => Ok(first_fetch(alloc, &mut files, &mut held)?),
        Err(_) => Err("failed".into()),
    }
}

fn first_fetch(alloc: Global, files: &mut MemFiles, held: &mut Bytes) -> Result<String, AllocError>
    requires { IsSome files.old.position }
{
    match fetch(files, held, 10) {
        Ok(Fetched::Whole) => String::from_str(alloc, "whole"),
        Ok(Fetched::Pending) => String::from_str(alloc, "pending"),
        Err(WorkFault::TooLong) => String::from_str(alloc, "too long"),
        Err(_) => String::from_str(alloc, "failed"),
        Ok(Fetched::More) => second_fetch(alloc, files, held),
    }
}

fn second_fetch(alloc: Global, files: &mut MemFiles, held: &mut Bytes) -> Result<String, AllocError>
    requires { IsSome files.old.position }
{
    match fetch(files, held, 10) {
        Ok(Fetched::Whole) => String::from_str(alloc, "more whole"),
        _ => String::from_str(alloc, "more, and not whole"),
    }
}
