// Queries over two tables that are joined, by every number of lanes and rows of a chunk.
use super::cases::{SIZES, check_cases};
use std::test::Fail;

/// Each row of the one table beside each of the other on which its pairs agree, as SQLite gives
/// them.
#[test]
fn rows_are_joined_on_their_pairs(rt: HostRuntime) -> Result<(), Fail> {
    static CASES: [&str; 11] = [
        "l,r~SELECT l.k, a, b FROM l JOIN r ON l.k = r.k ORDER BY k, a, b~\
         1,10\n1,11\n2,12\n|1,20\n1,21\n1,22\n3,23\n~\
         1,10,20\n1,10,21\n1,10,22\n1,11,20\n1,11,21\n1,11,22\n",
        "l,r~SELECT l.k, a, b FROM l JOIN r ON r.k = l.k ORDER BY k, a, b~\
         1,10\n1,11\n2,12\n|1,20\n3,23\n~1,10,20\n1,11,20\n",
        "l,r~SELECT l.k, a, b FROM l JOIN r ON l.k = r.k ORDER BY k, a, b~1,10\n1,11\n|~",
        "l,r~SELECT a, b FROM l JOIN r ON l.k = r.k ORDER BY a, b~|1,20\n~",
        "l,r~SELECT a, b FROM l INNER JOIN r ON a = b ORDER BY a~\
         1,-5\n2,7\n|9,7\n8,-5\n8,6\n~-5,-5\n7,7\n",
        "l=p0.csv+p1.csv:k Int64,a Int64;r=p2.csv+p3.csv+p4.csv:k Int64,b Int64~\
         SELECT a, b FROM l JOIN r ON l.k = r.k ORDER BY a, b~\
         1,10\n2,11\n|2,12\n3,13\n|2,20\n||3,21\n2,22\n~\
         11,20\n11,22\n12,20\n12,22\n13,21\n",
        "l=p0.csv:k String,a Int64;r=p1.csv:b Int64,k String~\
         SELECT a, b FROM l JOIN r ON l.k = r.k ORDER BY a, b~\
         x,1\n,2\nxy,3\nX,4\n|5,xy\n6,x\n7,\n8,x\n9,y\n~1,6\n1,8\n2,7\n3,5\n",
        // several pairs, which are told apart by each
        "l=p0.csv:k UInt64,s String,a Int64;r=p1.csv:s String,k UInt64,b Int64~\
         SELECT a, b FROM l JOIN r ON l.k = r.k AND l.s == r.s ORDER BY a, b~\
         1,x,1\n1,y,2\n18446744073709551615,x,3\n|\
         x,1,4\ny,1,5\nx,2,6\nx,18446744073709551615,7\nx,1,8\n~1,4\n1,8\n2,5\n3,7\n",
        "l=p0.csv:k String,j String,a Int64;r=p1.csv:m String,n String,o String,b Int64~\
         SELECT a, b FROM l JOIN r ON k = m AND n = j AND k = o ORDER BY a, b~\
         a,bc,1\nab,c,2\n|a,bc,a,3\nab,c,ab,4\nab,c,a,5\nabc,,abc,6\n~1,3\n2,4\n",
        // numbers on either side
        "r=p0.csv:u UInt64,a Int64~\
         SELECT number, a FROM numbers(4) JOIN r ON number = u ORDER BY number, a~\
         3,1\n1,2\n7,3\n1,4\n~1,2\n1,4\n3,1\n",
        "l=p0.csv:u UInt64,a Int64~SELECT a FROM l JOIN numbers(3) ON u = number ORDER BY a~\
         3,1\n1,2\n2,3\n0,4\n~2\n3\n4\n",
    ];
    check_cases(&rt, &rt, &CASES, &SIZES)
}

/// What else a query has, behind a join.
#[test]
fn joined_rows_go_on(rt: HostRuntime) -> Result<(), Fail> {
    static CASES: [&str; 6] = [
        "l,r~SELECT a + b AS s FROM l JOIN r ON l.k = r.k \
         WHERE a < 12 AND b > 20 AND l.k = 1 ORDER BY s~\
         1,10\n1,11\n2,12\n|1,20\n1,21\n1,22\n3,23\n~31\n32\n32\n33\n",
        "l,r~SELECT r.k, count(), sum(a * b), min(b), max(a) FROM l JOIN r ON l.k = r.k \
         GROUP BY r.k ORDER BY k~1,2\n1,3\n2,5\n4,6\n|1,7\n2,-3\n1,8\n2,4\n~\
         1,4,75,7,3\n2,2,5,-3,5\n",
        "l,r~SELECT l.k, count() AS n FROM l JOIN r ON l.k = r.k WHERE b > 0 GROUP BY l.k \
         HAVING count() > 1 ORDER BY n DESC, k LIMIT 1~\
         1,2\n1,3\n2,5\n4,6\n|1,7\n2,-3\n1,8\n2,4\n~1,4\n",
        "l,r~SELECT count(), sum(b) FROM l JOIN r ON l.k = r.k~1,2\n|2,3\n~0,0\n",
        "l,r~SELECT a, b FROM l JOIN r ON l.k = r.k ORDER BY b DESC, a LIMIT 3 OFFSET 1~\
         1,10\n1,11\n2,12\n|1,20\n1,21\n1,22\n3,23\n~11,22\n10,21\n11,21\n",
        "l=p0.csv:k Int64,a String;r=p1.csv:j Int64,b UInt64~\
         SELECT * FROM l JOIN r ON k = j ORDER BY k, b~1,x\n2,y\n|2,5\n1,6\n2,4\n~\
         1,\"x\",1,6\n2,\"y\",2,4\n2,\"y\",2,5\n",
    ];
    check_cases(&rt, &rt, &CASES, &SIZES)
}

/// A bad part is told, where the other table has no rows, and where a limit has enough rows: the
/// second table is read to its end first.
#[test]
fn bad_parts_of_joined_tables_are_told(rt: HostRuntime) -> Result<(), Fail> {
    static CASES: [&str; 6] = [
        "l,r~SELECT a FROM l JOIN r ON l.k = r.k~1,10\nz,11\n|~\
         !bad data: table l part 1 row 2 column 1",
        "l,r~SELECT a FROM l JOIN r ON l.k = r.k LIMIT 1~1,10\n|1,20\nz,21\n~\
         !bad data: table r part 1 row 2 column 1",
        "l,r~SELECT a FROM l JOIN r ON l.k = r.k LIMIT 0~1,10\n|1,20\n2\n~\
         !bad data: table r part 1 row 2 fields 1",
        "l,r~SELECT a FROM l JOIN r ON l.k = r.k LIMIT 2~1,10\nz,11\n|1,20\n~\
         !bad data: table l part 1 row 2 column 1",
        "l,r~SELECT count() FROM l JOIN r ON l.k = r.k LIMIT 1~1,10\nz,11\n|1,20\n~\
         !bad data: table l part 1 row 2 column 1",
        "l,r~SELECT a FROM l JOIN r ON l.k = r.k LIMIT 1~1,10\nz,11\n|1,20\n~\
         10\n%!bad data: table l part 1 row 2 column 1",
    ];
    check_cases(&rt, &rt, &CASES, &SIZES)
}

/// Refused queries over two tables.
#[test]
fn refusals_of_joins_are_told(rt: HostRuntime) -> Result<(), Fail> {
    static CASES: [&str; 9] = [
        "t=p0.csv:a Int64,b String;u=p1.csv:a UInt64~\
         SELECT a FROM t JOIN u ON t.a = u.a~1,x\n|1\n~!refused: AmbiguousColumn a",
        "t=p0.csv:a Int64,b String;u=p1.csv:a UInt64~\
         SELECT b FROM t JOIN u ON t.a = u.a~1,x\n|1\n~!refused: BadJoinKey",
        "t=p0.csv:a Int64,b String;u=p1.csv:a UInt64~\
         SELECT b FROM t JOIN u ON t.b = t.b~1,x\n|1\n~!refused: BadJoinKey",
        "t=p0.csv:a Int64,b String;u=p1.csv:a UInt64~\
         SELECT b FROM t JOIN u ON a = b~1,x\n|1\n~!refused: AmbiguousColumn a",
        "t=p0.csv:a Int64,b String;u=p1.csv:a UInt64~\
         SELECT b FROM t JOIN t ON t.a = t.a~1,x\n|1\n~!refused: AmbiguousColumn b",
        "t=p0.csv:a Int64,b String;u=p1.csv:a UInt64~\
         SELECT b FROM t JOIN x ON t.a = x.a~1,x\n|1\n~!refused: UnknownTable x",
        "t=p0.csv:a Int64,b String;u=p1.csv:a UInt64~\
         SELECT b FROM t JOIN u ON t.c = u.a~1,x\n|1\n~!refused: UnknownColumn t.c",
        "t=p0.csv:a Int64,b String;u=p1.csv:a UInt64~\
         SELECT b FROM t JOIN u~1,x\n|1\n~!refused: Syntax",
        "t=p0.csv:a Int64,b String;u=p1.csv:a UInt64~\
         SELECT t.a FROM t JOIN u ON t.a = u.a OR t.b = u.a~1,x\n|1\n~!refused: Syntax",
    ];
    check_cases(&rt, &rt, &CASES, &["|--threads|1|--chunk|1"])
}

/// A join of 3,000 by 3,000 equal keys gives nine million rows.
#[test]
fn many_matches_pass_in_chunks(rt: HostRuntime) -> Result<(), Fail> {
    static CASES: [&str; 1] = [
        "l,r~SELECT count(), sum(a + b) FROM l JOIN r ON l.k = r.k~\
         ^3000*7,1\n^|^3000*7,1\n^~9000000,18000000\n",
    ];
    check_cases(&rt, &rt, &CASES, &["|--threads|2|--chunk|8192"])
}
