// Cases of worked runs. Each is one text, whose fields stand between `~`:
//
// - the tables: the columns of table `t` over all parts, or what `--tables` says, or all words, of
//   which `--` alone are none;
// - the query, and the parts `p0.csv`, `p1.csv`, .., between which a bar stands;
// - what is written, and behind a `!` the line that is told. Other outcomes follow a `%`, those of
//   further runs a `/`, and behind these the letters of the rack before and after each run. Behind
//   a `*` lines come in any order, or so many of them as stands before it;
// - the letters of the rack's boxes, where it isn't the standard one.
//
// A piece between two `^` stands as often as a number says before its `*`, and a `#` in it is the
// number of its turn.
use super::{AMPLE, Outcome, Runs, Setting, bars, run_setting, text};
use chunk_data::List;
use outside_io::FileEntry;
use std::alloc::Global;
use std::process::Abort;
use std::str::from_utf8;
use std::sync::Wait;
use std::test::Fail;
use std::thread::Threads;

/// Numbers of lanes and of rows of a chunk, as words behind the others.
pub(super) static SIZES: [&str; 6] = [
    "|--threads|1|--chunk|1",
    "|--threads|2|--chunk|1",
    "|--threads|16|--chunk|1",
    "|--threads|1|--chunk|8192",
    "|--threads|2|--chunk|8192",
    "|--threads|16|--chunk|8192",
];

/// Two tables of two numbers, of one part each.
const PAIRS: &str = "l=p0.csv:k Int64,a Int64;r=p1.csv:k Int64,b Int64";

/// A table of the parts that the first part lists, and one of the second part.
const LISTED: &str = "t=@p0.csv:a Int64;u=p1.csv:b Int64";

/// The line of words that are no command.
const USAGE: &str =
    "qrun: usage: qrun --query QUERY [--tables TABLES] [--threads N] [--chunk N] [--header]\n";

/// By each size each case's run gave what the case tells.
pub(super) fn check_cases<R: AllocGlobal + Threads + Wait + Sync>(
    rt: &R,
    abort: &impl Abort,
    cases: &[&str],
    sizes: &[&str],
) -> Result<(), Fail> {
    for case in cases.iter() {
        for size in sizes.iter() {
            check_case(rt, abort, case, size, AMPLE)?;
        }
    }
    Ok(())
}

/// By each number of lanes, where all rows lie in one chunk, each case's run gave its lines in
/// order, and where each row is a chunk of its own in any order.
pub(super) fn check_lines<R: AllocGlobal + Threads + Wait + Sync>(
    rt: &R,
    abort: &impl Abort,
    cases: &[&str],
) -> Result<(), Fail> {
    check_cases(rt, abort, cases, &SIZES[3..])?;
    for case in cases.iter() {
        let (tables, more) = halves(case, '~');
        let (query, more) = halves(more, '~');
        let (parts, told) = halves(more, '~');
        let case = format!(in rt.alloc(); "{tables}~{query}~{parts}~*{told}")?;
        check_cases(rt, abort, &[case.as_str()], &SIZES[..3])?;
    }
    Ok(())
}

/// The case's runs gave what it tells.
pub(super) fn check_case<R: AllocGlobal + Threads + Wait + Sync>(
    rt: &R,
    abort: &impl Abort,
    case: &str,
    size: &str,
    setting: Setting,
) -> Result<(), Fail> {
    let case = spelled(rt.alloc(), case)?;
    let (tables, more) = halves(case.as_str(), '~');
    let (query, more) = halves(more, '~');
    let (parts, told) = halves(more, '~');
    let (told, stock) = match told.split_once('~') {
        Some((told, letters)) => (told, Some(letters)),
        None => (told, None),
    };
    let runs = run_case(rt, (tables, query, parts), stock, size, setting)?;
    check_runs(rt.alloc(), abort, case.as_str(), &runs, told, setting.err.1)
}

// The runs of the query over the tables and the parts.
fn run_case<R: AllocGlobal + Threads + Wait + Sync>(
    rt: &R,
    (tables, query, parts): (&str, &str, &str),
    stock: Option<&str>,
    size: &str,
    setting: Setting,
) -> Result<Runs, Fail> {
    let files = parts_of(rt.alloc(), parts)?;
    let words = words_of(rt.alloc(), tables, parts.split('|').count(), query, size)?;
    run_setting(rt, words.as_slice(), &files, stock, setting)
}

// The runs gave the outcomes in turn, of which one at most is want of memory, and left such racks,
// where these are told.
fn check_runs(
    alloc: Global,
    abort: &impl Abort,
    case: &str,
    runs: &Runs,
    told: &str,
    room: usize,
) -> Result<(), Fail> {
    let mut more = told;
    let mut wants: u32 = 0;
    for outcome in runs.outcomes.as_slice() {
        let (told, rest) = halves(more, '/');
        check(alloc, abort, case, outcome, told, room)?;
        wants = wants.saturating_add((outcome.status == 7) as u32);
        more = rest;
    }
    assert!(abort; wants <= 1, "memory is wanting twice: {case}");
    if more != "" {
        assert_eq!(abort; runs.kinds.as_str(), more, "rack of {case}");
    }
    Ok(())
}

// The text before the mark and that behind it; all, and none, where it isn't there.
fn halves(text: &str, mark: char) -> (&str, &str) {
    text.split_once(mark).unwrap_or((text, ""))
}

// The text with its repeated pieces.
fn spelled(alloc: Global, text: &str) -> Result<String, Fail> {
    let mut whole = String::new(alloc);
    for piece in text.split('^') {
        let (times, turn) = halves(piece, '*');
        match times.parse::<u32>() {
            Ok(times) => push_turns(alloc, &mut whole, times, turn)?,
            Err(_) => whole.push_str(piece)?,
        }
    }
    Ok(whole)
}

fn push_turns(alloc: Global, whole: &mut String, times: u32, turn: &str) -> Result<(), Fail> {
    let (front, end) = halves(turn, '#');
    for n in 0..times {
        whole.push_str(front)?;
        if front.len() < turn.len() {
            whole.push_str(format!(in alloc; "{}", u64::from(n) + 1)?.as_str())?;
        }
        whole.push_str(end)?;
    }
    Ok(())
}

// The files `p0.csv`, `p1.csv`, .., and that of the first worked command.
fn parts_of(alloc: Global, parts: &str) -> Result<List<FileEntry>, Fail> {
    let mut files = Vec::new(alloc);
    for part in parts.split('|') {
        let path = format!(in alloc; "p{}.csv", files.len())?;
        files.push(FileEntry {
            path: text(alloc, path.as_bytes())?,
            bytes: text(alloc, part.as_bytes())?,
        })?;
    }
    files.push(FileEntry {
        path: text(alloc, b"row1.csv")?,
        bytes: text(alloc, b"7,x\n7,y\n")?,
    })?;
    Ok(List::from_vec(files))
}

fn words_of(
    alloc: Global,
    tables: &str,
    parts: usize,
    query: &str,
    size: &str,
) -> Result<Vec<String>, Fail> {
    if tables == "--" {
        return Ok(Vec::new(alloc));
    }
    let words = if tables.starts_with("--") {
        format!(in alloc; "{tables}{size}")?
    } else {
        let tables = declared(alloc, tables, parts)?;
        format!(in alloc; "--query|{query}|--tables|{tables}{size}")?
    };
    Ok(bars(alloc, words.as_str())?)
}

// What `--tables` says.
fn declared(alloc: Global, tables: &str, parts: usize) -> Result<String, Fail> {
    if tables == "l,r" {
        return Ok(String::from_str(alloc, PAIRS)?);
    }
    if tables == "@" {
        return Ok(String::from_str(alloc, LISTED)?);
    }
    if tables.contains('=') {
        return Ok(String::from_str(alloc, tables)?);
    }
    let mut words = String::from_str(alloc, "t=p0.csv")?;
    for n in 1..parts {
        words.push_str(format!(in alloc; "+p{n}.csv")?.as_str())?;
    }
    words.push(':')?;
    words.push_str(tables)?;
    Ok(words)
}

// A run gave one of the outcomes; a line is cut where its sink had no more room.
fn check(
    alloc: Global,
    abort: &impl Abort,
    case: &str,
    outcome: &Outcome,
    told: &str,
    room: usize,
) -> Result<(), Fail> {
    let mut gave = false;
    for one in told.split('%') {
        gave = gave || is_outcome(alloc, outcome, one, room)?;
    }
    let (out, err) = (outcome.out.written(), outcome.err.written());
    assert!(abort; gave, "{case}: status {}, {out:?}, {err:?}", outcome.status);
    Ok(())
}

fn is_outcome(alloc: Global, outcome: &Outcome, told: &str, room: usize) -> Result<bool, Fail> {
    let (out, line) = halves(told, '!');
    let spelled = match line {
        "" => String::new(alloc),
        "usage" => String::from_str(alloc, USAGE)?,
        _ => format!(in alloc; "qrun: {line}\n")?,
    };
    let cut = &spelled.as_bytes()[..room.min(spelled.len())];
    let told_line = outcome.err.written() == cut && outcome.status == status_of(line);
    Ok(told_line && is_text(outcome.out.written(), out))
}

// The status that a line's front stands for.
fn status_of(line: &str) -> u8 {
    static STATUSES: [(&str, u8); 8] = [
        ("usage", 1),
        ("refused", 2),
        ("bad", 3),
        ("read fault", 4),
        ("stalled", 4),
        ("write fault", 5),
        ("limit", 6),
        ("out of memory", 7),
    ];
    for (front, status) in STATUSES.iter() {
        if line.starts_with(*front) {
            return *status;
        }
    }
    0
}

// Whether the bytes are the text, or lines of it in any order.
fn is_text(bytes: &[u8], told: &str) -> bool {
    let Some((count, lines)) = told.split_once('*') else {
        return bytes == told.as_bytes();
    };
    let Ok(found) = from_utf8(bytes) else {
        return false;
    };
    match count.parse::<usize>() {
        Ok(count) => are_lines_of(found, lines)
            && found.split('\n').count() == count.saturating_add(1),
        Err(_) => are_lines_of(found, lines) && are_lines_of(lines, found),
    }
}

// Whether each line stands in the other text at least as often.
fn are_lines_of(lines: &str, others: &str) -> bool {
    for line in lines.split('\n') {
        if times_of(line, lines) > times_of(line, others) {
            return false;
        }
    }
    true
}

fn times_of(line: &str, lines: &str) -> usize {
    let mut times: usize = 0;
    for other in lines.split('\n') {
        times = times.saturating_add((other == line) as usize);
    }
    times
}
