// Queries: what is written, and what is told of those that are refused.
use super::cases::{SIZES, check_cases, check_lines};
use super::{AMPLE, bars, one_file, run_setting};
use std::test::Fail;

/// Valid files: the columns, the query, the file, and what is written.
#[test]
fn answers_are_written(rt: HostRuntime) -> Result<(), Fail> {
    static CASES: [&str; 13] = [
        "a Int64,b String~SELECT a FROM t~7,x\n7,y\n~7\n7\n",
        "a Int64,b String~SELECT a FROM t~~",
        "a String,b String,c String~SELECT a, b, c FROM t~\"say \"\"hi\"\"\",\"a,b\",\"x\ny\"\n~\
         \"say \"\"hi\"\"\",\"a,b\",\"x\ny\"\n",
        "a Int64,b String~SELECT b, a, b FROM t~1,x\n2,y\n~\"x\",1,\"x\"\n\"y\",2,\"y\"\n",
        "a Int64~SELECT a FROM t~9223372036854775807\n-9223372036854775808\n~\
         9223372036854775807\n-9223372036854775808\n",
        "a UInt64~SELECT a FROM t~18446744073709551615\n0\n~18446744073709551615\n0\n",
        "a Int64~SELECT a FROM t~-0\n007\n-08\n~0\n7\n-8\n",
        "a Int64~SELECT a FROM t~\"12\"\n~12\n",
        "a Int64~SELECT a FROM t~\u{feff}7\n~7\n",
        "a Int64,b String~SELECT a, b FROM t~1,x\r\n2,y\r3,z~1,\"x\"\n2,\"y\"\n3,\"z\"\n",
        "a Int64~SELECT a FROM t~\n1\n\n2\n\n~1\n2\n",
        "a String,b String~SELECT a, b FROM t~,\n\"\",\n~\"\",\"\"\n\"\",\"\"\n",
        "a String~SELECT a FROM t~ x \n~\" x \"\n",
    ];
    check_lines(&rt, &rt, &CASES)
}

/// Bytes that are no text of Unicode.
#[test]
fn any_bytes_are_a_text(rt: HostRuntime) -> Result<(), Fail> {
    let words = bars(
        rt.alloc(),
        "--query|SELECT a FROM t|--tables|t=f.csv:a String",
    )?;
    let files = one_file(rt.alloc(), b"\xff\n")?;
    let runs = run_setting(&rt, words.as_slice(), &files, None, AMPLE)?;
    for outcome in runs.outcomes.as_slice() {
        assert_eq!(rt; outcome.status, 0);
        assert_eq!(rt; outcome.out.written(), b"\"\xff\"\n".as_slice());
    }
    assert_eq!(rt; runs.outcomes.len(), 1);
    Ok(())
}

/// What is not answered: the columns, the query, the file, the status and the line.
#[test]
fn other_ends_tell_their_line(rt: HostRuntime) -> Result<(), Fail> {
    static CASES: [&str; 11] = [
        "a Int64~SELECT a FROM t~1\nz\n~!bad data: table t part 1 row 2 column 1",
        "a Int64~SELECT a FROM t~1\n2,3\n~!bad data: table t part 1 row 2 fields 2",
        "a Int64,b Int64~SELECT a FROM t~1,2\n3\n~!bad data: table t part 1 row 2 fields 1",
        "a Int64~SELECT a FROM t~9223372036854775808\n~\
         !bad data: table t part 1 row 1 column 1",
        "a UInt64~SELECT a FROM t~-1\n~!bad data: table t part 1 row 1 column 1",
        "a Int64~SELECT a FROM t~+1\n~!bad data: table t part 1 row 1 column 1",
        "a Int64~SELECT a FROM t~ 1\n~!bad data: table t part 1 row 1 column 1",
        "a Int64,b Int64~SELECT a FROM t~1,x\n~!bad data: table t part 1 row 1 column 2",
        "a Int32~SELECT a FROM t~1\n~!usage",
        "a Int64,a Int64~SELECT a FROM t~1\n~!usage",
        "~SELECT a FROM t~1\n~!usage",
    ];
    check_lines(&rt, &rt, &CASES)
}

/// Items with arithmetic: the columns, the query, the file, and what is written.
#[test]
fn items_are_evaluated(rt: HostRuntime) -> Result<(), Fail> {
    static CASES: [&str; 7] = [
        // arithmetic wraps, and a difference is an Int64
        "a UInt64,b UInt64~SELECT a - b FROM t~0,1\n~-1\n",
        "a UInt64~SELECT a + 1 FROM t~18446744073709551615\n~0\n",
        "a Int64~SELECT a * 2 FROM t~4611686018427387904\n~-9223372036854775808\n",
        // precedence, grouping to the left, parentheses
        "a Int64,b Int64~SELECT a + b * 2, (a + b) * 2 FROM t~1,2\n~5,6\n",
        "a Int64~SELECT a - 1 - 1, a - (1 - a) FROM t~5\n~3,9\n",
        "a Int64~SELECT a * -1, 2 - a FROM t~5\n~-5,-3\n",
        "u UInt64~SELECT u + -0 FROM t~5\n~5\n",
    ];
    check_lines(&rt, &rt, &CASES)
}

/// Conditions on numbers: the columns, the query, the file, and what is written.
#[test]
fn conditions_choose_rows(rt: HostRuntime) -> Result<(), Fail> {
    static CASES: [&str; 9] = [
        // no row passes
        "a Int64~SELECT a FROM t WHERE a > 5~1\n2\n3\n~",
        // numbers of two types are compared by value
        "a Int64,b UInt64~SELECT a FROM t WHERE a < b AND NOT a = 7~-1,0\n7,9\n5,5\n~-1\n",
        "a Int64~SELECT a FROM t WHERE a = 1 OR a = 2 AND a = 3~1\n2\n3\n~1\n",
        "a Int64~SELECT a FROM t WHERE (a = 1 OR a = 2) AND a != 1~1\n2\n3\n~2\n",
        "a Int64~SELECT a FROM t WHERE NOT (a < 2 OR a >= 3)~1\n2\n3\n~2\n",
        "a Int64~SELECT a FROM t WHERE a + 1 = 2 * a~1\n2\n~1\n",
        "a Int64~SELECT a FROM t WHERE 1 = 1~1\n2\n~1\n2\n",
        "a Int64~SELECT a FROM t WHERE 1 <> 1~1\n2\n~",
        "a Int64~SELECT a FROM t WHERE 2 <= a~1\n2\n~2\n",
    ];
    check_lines(&rt, &rt, &CASES)
}

/// Conditions on texts, names, and the ways that a query may be written.
#[test]
fn texts_and_names_are_read(rt: HostRuntime) -> Result<(), Fail> {
    static CASES: [&str; 10] = [
        // texts are compared by bytes
        "a Int64,b String~SELECT a FROM t WHERE b = 'x'~1,x\n2,y\n3,x\n~1\n3\n",
        "b String~SELECT b FROM t WHERE b < 'b'~a\nB\nb\n~\"a\"\n\"B\"\n",
        "b String~SELECT b FROM t WHERE b == 'it''s'~it's\nits\n~\"it's\"\n",
        "a String,b String~SELECT a FROM t WHERE a > b~x,y\ny,x\n~\"y\"\n",
        // all columns, names with the table, aliases
        "a Int64,b String~SELECT * FROM t~1,x\n2,y\n~1,\"x\"\n2,\"y\"\n",
        "a Int64~SELECT t.a, t . a + 1 FROM t~1\n~1,2\n",
        "a Int64,b String~SELECT b AS a, a AS b FROM t WHERE a = 1~1,x\n~\"x\",1\n",
        // the way that it is written
        "a Int64~select a from t where a = 1;~1\n2\n~1\n",
        "a Int64~\tSELECT\r\na ,(a+1)FROM t~1\n~1,2\n",
        "count Int64~SELECT count FROM t~1\n~1\n",
    ];
    check_lines(&rt, &rt, &CASES)
}

/// Refused texts and queries.
#[test]
fn refusals_are_told(rt: HostRuntime) -> Result<(), Fail> {
    static CASES: [&str; 28] = [
        "a Int64,b String~~1,x\n~!refused: Syntax",
        "a Int64,b String~SELECT FROM t~1,x\n~!refused: Syntax",
        "a Int64,b String~SELECT a b FROM t~1,x\n~!refused: Syntax",
        "a Int64,b String~SELECT a FROM t WHERE a~1,x\n~!refused: Syntax",
        "a Int64,b String~SELECT a FROM t; ;~1,x\n~!refused: Syntax",
        "a Int64,b String~SELECT a FROM t WHERE b = 'x~1,x\n~!refused: Syntax",
        "a Int64,b String~SELECT a FROM t LIMIT 18446744073709551616~\
         1,x\n~!refused: NumberTooLarge",
        "a Int64,b String~SELECT b FROM t GROUP BY a~1,x\n~!refused: NotGrouped b",
        "a Int64,b String~SELECT a, count() FROM t~1,x\n~!refused: NotGrouped a",
        "a Int64,b String~SELECT a FROM t GROUP BY a HAVING b = 'x'~1,x\n~!refused: NotGrouped b",
        "a Int64,b String~SELECT sum(b) FROM t~1,x\n~!refused: TypeMismatch",
        "a Int64,b String~SELECT a FROM t JOIN u ON t.a = u.a~1,x\n~!refused: UnknownTable u",
        "a Int64,b String~SELECT a FROM x~1,x\n~!refused: UnknownTable x",
        "a Int64,b String~SELECT c FROM x~1,x\n~!refused: UnknownTable x",
        "a Int64,b String~SELECT c FROM t~1,x\n~!refused: UnknownColumn c",
        "a Int64,b String~SELECT A FROM t~1,x\n~!refused: UnknownColumn A",
        "a Int64,b String~SELECT a, d + c FROM t WHERE e = 1~1,x\n~!refused: UnknownColumn d",
        "a Int64,b String~SELECT u . a FROM t~1,x\n~!refused: UnknownColumn u.a",
        "a Int64,b String~SELECT a FROM t WHERE c = 1~1,x\n~!refused: UnknownColumn c",
        "a Int64,b String~SELECT a + b FROM t~1,x\n~!refused: TypeMismatch",
        "a Int64,b String~SELECT a FROM t WHERE b = 1~1,x\n~!refused: TypeMismatch",
        "a Int64,b String~SELECT 1 FROM t~1,x\n~!refused: TypeMismatch",
        "a Int64,b String~SELECT 1 + 1 FROM t~1,x\n~!refused: TypeMismatch",
        "a Int64,b String~SELECT a - 9223372036854775808 FROM t~1,x\n~!refused: TypeMismatch",
        "a Int64,b String~SELECT a FROM t ORDER BY t.a~1,x\n~!refused: Syntax",
        "a Int64,b String~SELECT a FROM t ORDER BY b~1,x\n~!refused: BadOrderKey b",
        "a Int64,b String~SELECT a + 1 FROM t ORDER BY a~1,x\n~!refused: BadOrderKey a",
        "a Int64,b String~SELECT a, b AS a FROM t ORDER BY b, a~1,x\n~!refused: BadOrderKey b",
    ];
    check_cases(&rt, &rt, &CASES, &SIZES)
}

/// Queries at a limit and one beyond it.
#[test]
fn queries_keep_the_limits(rt: HostRuntime) -> Result<(), Fail> {
    static CASES: [&str; 9] = [
        "a Int64,b String~SELECT a FROM t WHERE ^1000*NOT ^a = 1~1,x\n~1\n",
        "a Int64,b String~SELECT a FROM t WHERE a = 1^1000* AND a = 1^~1,x\n~1\n",
        "a Int64,b String~SELECT a^1000*+a^ FROM t~1,x\n~1001\n",
        "a Int64,b String~SELECT a^1001*+a^ FROM t~1,x\n~!refused: TooComplex",
        "a Int64,b String~SELECT a^63*,b^ FROM t WHERE a = 2~1,x\n~",
        "a Int64,b String~SELECT a^64*,a^ FROM t~1,x\n~!refused: TooWide",
        "a Int64,b String~SELECT a FROM t^65521* ^~1,x\n~1\n",
        "a Int64,b String~SELECT a FROM t^65522* ^~1,x\n~!refused: TooLong",
        // parentheses as deep as the limit allows
        "a Int64,b String~SELECT a FROM t WHERE ^1000*(^a = 1^1000*)^~1,x\n2,y\n~1\n",
    ];
    check_cases(&rt, &rt, &CASES, &SIZES)
}
