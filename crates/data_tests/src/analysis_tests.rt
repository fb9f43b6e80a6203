// Analysis of texts.
use crate::literals::{analysed, check_each, repeated, utf8};
use query_model::checked::{Checked, Grouping, Shape};
use query_model::query::Refusal;
use std::alloc::{AllocError, Global};
use std::test::Fail;

const TABLES: &str = "t ia tb;u ua;w ik uv ts;twice ia ta;n Ij Uy Tx";

// A refusal's word, with the name that it carries behind it.
fn write_refusal(out: &mut String, refusal: &Refusal) -> Result<(), AllocError> {
    let (word, name) = match refusal {
        Refusal::UnknownTable(name) => ("UnknownTable", name),
        Refusal::UnknownColumn(name) => ("UnknownColumn", name),
        Refusal::AmbiguousColumn(name) => ("AmbiguousColumn", name),
        Refusal::NotGrouped(name) => ("NotGrouped", name),
        Refusal::BadOrderKey(name) => ("BadOrderKey", name),
        _ => return write!(out, "{refusal:?}"),
    };
    write!(out, "{word} {}", utf8(name))
}

fn write_places(out: &mut String, word: &str, places: &[u32]) -> Result<(), AllocError> {
    out.push_str(word)?;
    for place in places {
        write!(out, " {place}")?;
    }
    Ok(())
}

fn write_groups(out: &mut String, groups: &Grouping) -> Result<(), AllocError> {
    write_places(out, " keys", groups.keys.as_slice())?;
    write_places(out, " picks", groups.picks.as_slice())?;
    let having = if groups.having.is_some() {
        " having"
    } else {
        ""
    };
    let lone = if groups.lone { " lone" } else { "" };
    write!(out, " calls {}{having}{lone}", groups.calls.len())
}

// The output names, the pairs of ON, the groups, and the order.
fn write_checked(out: &mut String, checked: &Checked) -> Result<(), AllocError> {
    for name in checked.names.as_slice() {
        write!(out, "{} ", utf8(name))?;
    }
    out.push('|')?;
    if let Some(join) = &checked.join {
        for pair in join.pairs.as_slice() {
            write!(out, " {}={}", pair.left, pair.right)?;
        }
    }
    if let Shape::Grouped(groups) = &checked.shape {
        write_groups(out, groups)?;
    }
    for key in checked.order.as_slice() {
        write!(
            out,
            " {}{}",
            if key.descending { '-' } else { '+' },
            key.column
        )?;
    }
    Ok(())
}

fn analysis_text(alloc: Global, text: &str) -> Result<String, Fail> {
    let ended = analysed(alloc, TABLES, text)?;
    let mut out = String::new(alloc);
    match ended.as_slice().first() {
        Some(Ok(checked)) => write_checked(&mut out, checked)?,
        Some(Err(refusal)) => write_refusal(&mut out, refusal)?,
        None => {}
    }
    Ok(out)
}

static NAMES: [&str; 22] = [
    "SELECT a FROM x~UnknownTable x",
    "SELECT c FROM x~UnknownTable x",
    "SELECT t.a FROM t JOIN x ON t.a = x.a~UnknownTable x",
    "SELECT c FROM t~UnknownColumn c",
    "SELECT t.z FROM t~UnknownColumn t.z",
    "SELECT u . a FROM t~UnknownColumn u.a",
    "SELECT d + c FROM t~UnknownColumn d",
    "SELECT a FROM t WHERE c = a~UnknownColumn c",
    "SELECT a FROM t WHERE c IS NOT NULL~UnknownColumn c",
    "SELECT c FROM t WHERE d = a~UnknownColumn c",
    "SELECT a FROM t GROUP BY c~UnknownColumn c",
    "SELECT sum(c) FROM t~UnknownColumn c",
    "SELECT count() FROM t HAVING min(c) = 1~UnknownColumn c",
    "SELECT b FROM t JOIN u ON t.a = u.c~UnknownColumn u.c",
    "SELECT a, c FROM t JOIN u ON t.a = u.a~UnknownColumn c",
    "SELECT a FROM t JOIN u ON t.a = u.a~AmbiguousColumn a",
    "SELECT a FROM twice~AmbiguousColumn a",
    "SELECT twice.a FROM twice~AmbiguousColumn twice.a",
    "SELECT k FROM w JOIN w ON w.k = w.k~AmbiguousColumn k",
    "SELECT number FROM numbers(3)~number |",
    "SELECT numbers.number FROM numbers(3)~number |",
    "SELECT a FROM numbers(3)~UnknownColumn a",
];

#[test]
fn names_mean_one_column(rt: HostRuntime) -> Result<(), Fail> {
    check_each(&rt, rt.alloc(), &NAMES, analysis_text)
}

static TYPES: [&str; 33] = [
    "SELECT a + b FROM t~TypeMismatch",
    "SELECT 1 FROM t~TypeMismatch",
    "SELECT 1 * 2 FROM t~TypeMismatch",
    "SELECT a - 9223372036854775808 FROM t~TypeMismatch",
    "SELECT a - -9223372036854775808 FROM t~item_1 |",
    "SELECT a + -0 FROM u~item_1 |",
    "SELECT -1 + a FROM u~TypeMismatch",
    "SELECT a + 18446744073709551615 FROM u~item_1 |",
    "SELECT k + v FROM w~TypeMismatch",
    "SELECT number + -1 FROM numbers(3)~TypeMismatch",
    "SELECT sum(b) FROM t~TypeMismatch",
    "SELECT sum(1) FROM t~TypeMismatch",
    "SELECT min(b), max(a * a) FROM t~item_1 item_2 | keys picks 0 1 calls 2 lone",
    "SELECT a FROM t WHERE a = 'x'~TypeMismatch",
    "SELECT a FROM t WHERE a = b~TypeMismatch",
    "SELECT a FROM t WHERE b = 'x'~a |",
    "SELECT k FROM w WHERE k = v~k |",
    "SELECT a FROM u WHERE a = -1~a |",
    "SELECT a FROM t WHERE 'x' = 'y' AND 1 < 2~a |",
    "SELECT a FROM t GROUP BY a HAVING a = 'x'~TypeMismatch",
    "SELECT a FROM t GROUP BY a HAVING sum(b) = 1~TypeMismatch",
    "SELECT a FROM t GROUP BY a HAVING max(b) = 1~TypeMismatch",
    // Types are taken without Nullable, and NULL may stand at any side of a comparison.
    "SELECT j + y FROM n~TypeMismatch",
    "SELECT x + 1 FROM n~TypeMismatch",
    "SELECT sum(x) FROM n~TypeMismatch",
    "SELECT y + -1 FROM n~TypeMismatch",
    "SELECT j FROM n WHERE x = 1~TypeMismatch",
    "SELECT j FROM n WHERE x = NULL OR NULL < 1 OR NULL = NULL OR j = y~j |",
    "SELECT j FROM n WHERE j IS NULL OR x IS NULL OR j + 1 IS NULL OR NULL IS NULL~j |",
    "SELECT a FROM t WHERE a IS NULL AND b IS NOT NULL~a |",
    "SELECT j FROM n WHERE j = 1 AND 1 IS NULL~TypeMismatch",
    "SELECT j FROM n WHERE 'x' IS NOT NULL~TypeMismatch",
    "SELECT count() FROM n HAVING count() IS NULL AND -1 IS NULL~TypeMismatch",
];

#[test]
fn types_fit(rt: HostRuntime) -> Result<(), Fail> {
    check_each(&rt, rt.alloc(), &TYPES, analysis_text)
}

// The types of the items, in columns and as they are computed.
fn types_text(alloc: Global, text: &str) -> Result<String, Fail> {
    match analysed(alloc, TABLES, text)?.as_slice().first() {
        Some(Ok(checked)) => Ok(format!(in alloc; "{:?}", checked.types.as_slice())?),
        _ => Err("the query is refused".into()),
    }
}

static RESULTS: [&str; 5] = [
    "SELECT a, a * 2, b FROM t~[Int64, Int64, Text]",
    "SELECT a - a, a * a FROM u~[Int64, UInt64]",
    "SELECT j, 1 - j, y * y, y - 1, x FROM n~\
     [NullInt64, NullInt64, NullUInt64, NullInt64, NullText]",
    "SELECT a + j FROM t JOIN n ON a = j~[NullInt64]",
    "SELECT y, count(), sum(j), min(x), max(y - 1), sum(y) FROM n GROUP BY y~\
     [NullUInt64, UInt64, NullInt64, NullText, NullInt64, NullUInt64]",
];

#[test]
fn results_have_types(rt: HostRuntime) -> Result<(), Fail> {
    check_each(&rt, rt.alloc(), &RESULTS, types_text)
}

static PAIRS: [&str; 11] = [
    "SELECT b FROM t JOIN u ON t.a = u.a~BadJoinKey",
    "SELECT b FROM t JOIN w ON b = t.a~BadJoinKey",
    "SELECT b FROM t JOIN w ON t.a = a~BadJoinKey",
    "SELECT v FROM t JOIN w ON k = k~BadJoinKey",
    "SELECT b, v FROM t JOIN w ON a = k~b v | 0=0",
    "SELECT b, v FROM t INNER JOIN w ON w.k = t.a~b v | 0=0",
    "SELECT v, a FROM w JOIN t ON b == s AND k = a~v a | 2=1 0=0",
    "SELECT * FROM u JOIN w ON v = u.a~a k v s | 0=1",
    "SELECT k FROM w JOIN numbers(3) ON number = v~k | 1=0",
    "SELECT b, x FROM t JOIN n ON a = j AND x = b~b x | 0=0 1=2",
    "SELECT b FROM t JOIN n ON a = y~BadJoinKey",
];

#[test]
fn pairs_are_of_two_tables(rt: HostRuntime) -> Result<(), Fail> {
    check_each(&rt, rt.alloc(), &PAIRS, analysis_text)
}

static GROUPS: [&str; 15] = [
    "SELECT b FROM t GROUP BY a~NotGrouped b",
    "SELECT a, b, t.b FROM t GROUP BY a~NotGrouped b",
    "SELECT * FROM t GROUP BY a~NotGrouped *",
    "SELECT * FROM t HAVING count() > 1~NotGrouped *",
    "SELECT a + a FROM t GROUP BY a~NotGrouped a",
    "SELECT s, k + k FROM w GROUP BY s, k~NotGrouped k",
    "SELECT a, count() FROM t~NotGrouped a",
    "SELECT count() FROM t HAVING a = 1 AND b = 'x'~NotGrouped a",
    "SELECT a FROM t GROUP BY a HAVING b = 'x'~NotGrouped b",
    "SELECT j FROM n GROUP BY j HAVING j IS NULL OR x IS NULL~NotGrouped x",
    "SELECT count() FROM t~item_1 | keys picks 0 calls 1 lone",
    "SELECT t.a FROM t GROUP BY a~a | keys 0 picks 0 calls 0",
    "SELECT s, max(v) AS m, k FROM w GROUP BY k, w.s, s HAVING count() > 1 AND max(k) < k~\
     s m k | keys 0 2 2 picks 1 3 0 calls 3 having",
    "SELECT k, count(*) AS n FROM w GROUP BY k ORDER BY n DESC, k~\
     k n | keys 0 picks 0 1 calls 1 -1 +0",
    "SELECT w.s, sum(number) FROM numbers(9) JOIN w ON v = number GROUP BY w.s~\
     s item_2 | 0=1 keys 3 picks 0 1 calls 1",
];

#[test]
fn groups_have_keys_and_calls(rt: HostRuntime) -> Result<(), Fail> {
    check_each(&rt, rt.alloc(), &GROUPS, analysis_text)
}

static ORDERS: [&str; 10] = [
    "SELECT a FROM t ORDER BY b~BadOrderKey b",
    "SELECT a, b AS a FROM t ORDER BY a~BadOrderKey a",
    "SELECT a AS x FROM t ORDER BY a~BadOrderKey a",
    "SELECT a, b FROM t ORDER BY a, c, d~BadOrderKey c",
    "SELECT * FROM t JOIN u ON t.a = u.a~BadJoinKey",
    "SELECT b FROM t GROUP BY a ORDER BY c~NotGrouped b",
    "SELECT a, b FROM t ORDER BY b, a DESC~a b | +1 -0",
    "SELECT t.a, b AS x FROM t ORDER BY x DESC, a ASC~a x | -1 +0",
    "SELECT a * a, b FROM t ORDER BY item_1~item_1 b | +0",
    "SELECT * FROM t ORDER BY b~a b | +1",
];

#[test]
fn order_keys_name_one_item(rt: HostRuntime) -> Result<(), Fail> {
    check_each(&rt, rt.alloc(), &ORDERS, analysis_text)
}

fn width_text(alloc: Global, text: &str) -> Result<String, Fail> {
    let text = repeated(alloc, text)?;
    let ended = analysed(alloc, TABLES, text.as_str())?;
    let wide = matches!(ended.as_slice().first(), Some(Err(Refusal::TooWide)));
    Ok(format!(in alloc; "{wide}")?)
}

static WIDTHS: [&str; 14] = [
    "SELECT |a, |63|a FROM t~false",
    "SELECT |a, |64|a FROM t~true",
    "SELECT count() FROM t GROUP BY |a, |63|a~false",
    "SELECT count() FROM t GROUP BY |a, |64|a~true",
    "SELECT a FROM t ORDER BY |a, |63|a~false",
    "SELECT a FROM t ORDER BY |a, |64|a~true",
    "SELECT b FROM t JOIN w ON |a = k AND |63|a = k~false",
    "SELECT b FROM t JOIN w ON |a = k AND |64|a = k~true",
    "SELECT count() FROM t HAVING |count() > 1 AND |63|1 = 1~false",
    "SELECT count() FROM t HAVING |count() > 1 AND |64|1 = 1~true",
    "SELECT count() FROM t HAVING |count() IS NULL AND |63|1 = 1~false",
    "SELECT count() FROM t HAVING |count() IS NULL AND |64|1 = 1~true",
    "SELECT a FROM t WHERE |a > 1 AND |63|1 = 1~false",
    "SELECT a FROM t WHERE |a > 1 AND |64|1 = 1~false",
];

#[test]
fn queries_are_at_most_64_wide(rt: HostRuntime) -> Result<(), Fail> {
    check_each(&rt, rt.alloc(), &WIDTHS, width_text)
}
