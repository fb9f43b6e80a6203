// NULL in files, items, conditions and output, and in groups, orders and joins, by every number of
// lanes and rows of a chunk.
use super::cases::{SIZES, check_cases, check_lines};
use std::test::Fail;

/// Rows that may have NULL: the columns, the query, the file, and what is written.
#[test]
fn nulls_are_read_and_written(rt: HostRuntime) -> Result<(), Fail> {
    static CASES: [&str; 9] = [
        "a Nullable(Int64),b String~SELECT a, a + 1, b FROM t~1,x\n\\N,y\n-3,\\N\n~\
         1,2,\"x\"\n\\N,\\N,\"y\"\n-3,-2,\"\\N\"\n",
        "a Nullable(UInt64),b UInt64~SELECT a - b, b * a, 1 + a FROM t~\\N,1\n0,1\n~\
         \\N,\\N,\\N\n-1,0,1\n",
        // quoted or not, and in a nullable column alone
        "a Nullable(Int64),b Nullable(String)~SELECT b, a FROM t~\"\\N\",\"\\N\"\n\\N,\\N\n~\
         \\N,\\N\n\\N,\\N\n",
        "a Nullable(String)~SELECT a FROM t~\\n\n\\\\N\nN\n\\N \n\"\"\n~\
         \"\\n\"\n\"\\\\N\"\n\"N\"\n\"\\N \"\n\"\"\n",
        "a Nullable(UInt64)~SELECT a FROM t~18446744073709551615\n007\n\"5\"\n~\
         18446744073709551615\n7\n5\n",
        "--header|--query|SELECT a AS _n, a + a FROM t|--tables|t=p0.csv:a Nullable(Int64)~~\
         a\n\\N\n~\"_n\",\"item_2\"\n\\N,\\N\n",
        // an empty field is no NULL, and no number
        "a Nullable(Int64),b Nullable(Int64)~SELECT a FROM t~1,\\N\n,2\n~\
         !bad data: table t part 1 row 2 column 1",
        "a Int64~SELECT a FROM t~1\n\\N\n~!bad data: table t part 1 row 2 column 1",
        "a nullable(Int64)~SELECT a FROM t~1\n~!usage",
    ];
    check_lines(&rt, &rt, &CASES)
}

/// Conditions are true, false or NULL, and a row stays where its condition is true.
#[test]
fn conditions_may_be_null(rt: HostRuntime) -> Result<(), Fail> {
    static CASES: [&str; 16] = [
        "a Nullable(Int64),b String~SELECT a FROM t WHERE NOT a = 1~1,x\n\\N,y\n-3,\\N\n~-3\n",
        "a Nullable(Int64),b String~SELECT b FROM t WHERE a IS NULL~1,x\n\\N,y\n-3,\\N\n~\"y\"\n",
        "a Nullable(Int64),b String~SELECT b FROM t WHERE a = 1 OR b = 'y'~\
         1,x\n\\N,y\n-3,\\N\n~\"x\"\n\"y\"\n",
        "a Nullable(Int64),b String~SELECT b FROM t WHERE a = NULL~1,x\n\\N,y\n-3,\\N\n~",
        "a Nullable(Int64)~SELECT a FROM t WHERE a != NULL OR NULL = NULL~1\n\\N\n~",
        "a Nullable(Int64)~SELECT a FROM t WHERE a is not null~1\n\\N\n-3\n~1\n-3\n",
        "a Nullable(Int64)~SELECT a FROM t WHERE NOT a IS NULL AND NULL IS NULL~1\n\\N\n~1\n",
        "a Nullable(Int64)~SELECT a FROM t WHERE a + 1 IS NULL OR (a) > 1~1\n\\N\n2\n~\\N\n2\n",
        "a Int64~SELECT a FROM t WHERE a IS NULL~0\n~",
        // AND and OR of NULL, and NOT of these
        "a Nullable(Int64),b Int64~SELECT b FROM t WHERE a = 1 AND b = 1~\\N,1\n\\N,2\n1,1\n~1\n",
        "a Nullable(Int64),b Int64~SELECT b FROM t WHERE NOT (a = 1 AND b = 1)~\
         \\N,1\n\\N,2\n1,1\n~2\n",
        "a Nullable(Int64),b Int64~SELECT b FROM t WHERE NOT (a = 1 OR b = 1)~\
         \\N,1\n\\N,2\n2,3\n~3\n",
        "a Nullable(Int64),b Nullable(Int64)~SELECT a FROM t WHERE a < b OR a >= b~\
         1,\\N\n\\N,1\n\\N,\\N\n1,2\n~1\n",
        "s Nullable(String)~SELECT s FROM t WHERE s < 'b' OR s IS NULL~a\n\\N\nb\n~\"a\"\n\\N\n",
        "a Nullable(Int64)~SELECT a FROM t WHERE 1 IS NULL~1\n~!refused: TypeMismatch",
        "a Nullable(Int64)~SELECT a FROM t WHERE 'x' IS NOT NULL~1\n~!refused: TypeMismatch",
    ];
    check_lines(&rt, &rt, &CASES)
}

/// NULL is a key of groups like any other, and no value of an aggregate; it comes last in either
/// order, and no pair of ON agrees on it.
#[test]
fn nulls_are_grouped_ordered_and_joined(rt: HostRuntime) -> Result<(), Fail> {
    static CASES: [&str; 19] = [
        "a Nullable(Int64),b String~SELECT a FROM t ORDER BY a~1,x\n\\N,y\n-3,\\N\n~-3\n1\n\\N\n",
        "a Nullable(Int64)~SELECT a FROM t ORDER BY a DESC~1\n\\N\n|-3\n\\N\n~1\n-3\n\\N\n\\N\n",
        "a Nullable(UInt64),b Int64~SELECT a, b FROM t ORDER BY a DESC, b~\
         \\N,2\n18446744073709551615,1\n|\\N,1\n0,1\n~\
         18446744073709551615,1\n0,1\n\\N,1\n\\N,2\n",
        "a Nullable(Int64)~SELECT a FROM t ORDER BY a LIMIT 2~\\N\n9223372036854775807\n|5\n~\
         5\n9223372036854775807\n",
        "s Nullable(String)~SELECT s FROM t ORDER BY s DESC~\\N\nb\n|\"\"\n\u{ff}\n~\
         \"\u{ff}\"\n\"b\"\n\"\"\n\\N\n",
        "k Nullable(String),v Nullable(UInt64)~\
         SELECT k, count(), sum(v), min(v) FROM t GROUP BY k ORDER BY k~\\N,1\nx,\\N\n\\N,2\n~\
         \"x\",1,\\N,\\N\n\\N,2,3,1\n",
        "k Nullable(String),v Nullable(UInt64)~\
         SELECT k, count(), sum(v), min(v) FROM t GROUP BY k ORDER BY k DESC~\
         \\N,1\nx,\\N\n\\N,2\n~\"x\",1,\\N,\\N\n\\N,2,3,1\n",
        "k Nullable(String),v Nullable(UInt64)~SELECT sum(v) FROM t~~\\N\n",
        "k Nullable(Int64),v Nullable(String)~SELECT count(*), max(v), min(k) FROM t~\
         \\N,\\N\n|1,\\N\n~2,\\N,1\n",
        // of a lane without values the others' values are left
        "k Nullable(Int64),v Nullable(Int64)~\
         SELECT k, sum(v), min(v), max(v), count() FROM t GROUP BY k ORDER BY k~\
         0,\\N\n\\N,\\N\n|0,-2\n\\N,4\n|0,\\N\n\\N,5\n1,\\N\n~\
         0,-2,-2,-2,3\n1,\\N,\\N,\\N,1\n\\N,9,4,5,3\n",
        "a Nullable(String),b Nullable(String)~\
         SELECT a, b, count() FROM t GROUP BY a, b ORDER BY a, b~\
         \\N,x\n\"\",x\n|\\N,\\N\n\"\",\\N\n|\\N,x\n~\
         \"\",\"x\",1\n\"\",\\N,1\n\\N,\"x\",2\n\\N,\\N,1\n",
        "k Nullable(UInt64)~SELECT k, count() AS n FROM t GROUP BY k ORDER BY n, k~\
         0\n\\N\n|18446744073709551615\n\\N\n~0,1\n18446744073709551615,1\n\\N,2\n",
        "k Int64,v Nullable(Int64)~SELECT k FROM t GROUP BY k HAVING sum(v) IS NULL~\
         1,\\N\n2,3\n|1,\\N\n2,\\N\n~1\n",
        "k Nullable(Int64)~SELECT k FROM t GROUP BY k HAVING k IS NOT NULL AND count() > 1~\
         1\n\\N\n|1\n\\N\n~1\n",
        "l=p0.csv:k Nullable(Int64),a Int64;r=p1.csv:k Nullable(Int64),b Int64~\
         SELECT a, b FROM l JOIN r ON l.k = r.k~\\N,1\n5,2\n|5,7\n\\N,8\n~2,7\n",
        // one side alone is nullable
        "l=p0.csv:k Int64,a Int64;r=p1.csv:k Nullable(Int64),b Int64~\
         SELECT a, b FROM l JOIN r ON l.k = r.k~0,1\n5,2\n|5,7\n\\N,8\n~2,7\n",
        "l=p0.csv:k Nullable(String),a Int64;r=p1.csv:k String,b Int64~\
         SELECT a, b FROM l JOIN r ON l.k = r.k~\\N,1\n\"\",2\n|\\N,7\n\"\",8\n~2,8\n",
        // a pair that agrees beside one of NULLs
        "l=p0.csv:k Int64,s Nullable(String);r=p1.csv:j Int64,u Nullable(String)~\
         SELECT k, s FROM l JOIN r ON k = j AND s = u~1,\\N\n1,x\n|1,\\N\n1,x\n~1,\"x\"\n",
        "l=p0.csv:k Nullable(Int64),a Int64;r=p1.csv:j Nullable(UInt64),b Int64~\
         SELECT a, b FROM l JOIN r ON k = j~1,1\n|1,1\n~!refused: BadJoinKey",
    ];
    check_cases(&rt, &rt, &CASES, &SIZES)
}
