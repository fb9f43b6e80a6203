// Queries with aggregates, GROUP BY and HAVING, by every number of lanes and rows of a chunk.
use super::cases::{SIZES, check_cases};
use std::test::Fail;

/// The columns, the query, the parts, and the lines, whose order is free.
#[test]
fn groups_have_their_rows(rt: HostRuntime) -> Result<(), Fail> {
    static CASES: [&str; 24] = [
        "a Int64,b String~SELECT count(), sum(a), min(b) FROM t~~*0,0,\"\"\n",
        "a Int64,b String~SELECT count(), sum(a), max(b), min(a) FROM t WHERE a > 5~\
         1,x\n|2,y\n~*0,0,\"\",0\n",
        "u UInt64~SELECT sum(u) FROM t~18446744073709551615\n|2\n~*1\n",
        "a Int64~SELECT sum(a), min(a), max(a), count() FROM t~9223372036854775807\n1\n~*\
         -9223372036854775808,1,9223372036854775807,2\n",
        "u UInt64~SELECT min(u), max(u) FROM t~9223372036854775808\n|3\n|7\n~*\
         3,9223372036854775808\n",
        "a Int64~SELECT min(a), max(a) FROM t~-3\n2\n|-9\n~*-9,2\n",
        "b String~SELECT min(b), max(b) FROM t~b\nab\n|\"\"\n|abc\n~*\"\",\"b\"\n",
        "k String,v Int64~SELECT k, count(), sum(v) FROM t GROUP BY k~x,1\n|x,1\n|x,1\n|x,1\n~*\
         \"x\",4,4\n",
        "k String,v Int64~SELECT k, sum(v) FROM t GROUP BY k~~*",
        "k Int64~SELECT k FROM t GROUP BY k~1\n-1\n|1\n2\n|-1\n~*-1\n1\n2\n",
        "k UInt64~SELECT count(), k FROM t GROUP BY k~\
         18446744073709551615\n0\n|18446744073709551615\n~*1,0\n2,18446744073709551615\n",
        "k Int64,v Int64~SELECT k, min(v), max(v), sum(v), count() FROM t GROUP BY k~\
         1,5\n2,-5\n1,7\n|2,0\n3,9\n|1,-1\n~*1,-1,7,11,3\n2,-5,0,-5,2\n3,9,9,9,1\n",
        "k Int64,b String~SELECT k, min(b), max(b) FROM t GROUP BY k~\
         1,bb\n1,a\n|2,c\n|1,b\n~*1,\"a\",\"bb\"\n2,\"c\",\"c\"\n",
        // keys of several columns, which are told apart by each
        "a String,b String~SELECT a, b, count() FROM t GROUP BY a, b~a,bc\nab,c\n|a,bc\n,abc\n~*\
         \"\",\"abc\",1\n\"a\",\"bc\",2\n\"ab\",\"c\",1\n",
        "a Int64,b String~SELECT b, a, count() FROM t GROUP BY a, b~1,x\n2,x\n|1,y\n1,x\n~*\
         \"x\",1,2\n\"x\",2,1\n\"y\",1,1\n",
        "a Int64,b UInt64~SELECT a, count() FROM t GROUP BY a, b~1,1\n1,2\n|1,1\n~*1,1\n1,2\n",
        "a Int64~SELECT a, a, sum(a) AS s FROM t GROUP BY a, a~2\n|2\n~*2,2,4\n",
        // arguments that are computed, and conditions before and behind the groups
        "a Int64,b Int64~SELECT a, sum(a * b + 1) FROM t GROUP BY a~2,3\n|2,4\n5,1\n~*2,16\n5,6\n",
        "a Int64,b Int64~SELECT a, count() FROM t WHERE b > 1 GROUP BY a~1,1\n1,2\n|2,1\n1,3\n~*\
         1,2\n",
        "a Int64~SELECT a FROM t GROUP BY a HAVING count() > 1~1\n2\n|2\n3\n|1\n2\n~*1\n2\n",
        "a Int64,b Int64~SELECT a, max(b) FROM t GROUP BY a HAVING sum(b) = 3 OR a < 1~\
         1,1\n1,2\n2,2\n|0,7\n~*0,7\n1,2\n",
        "a Int64~SELECT count() FROM t HAVING count() > 2~1\n|2\n~*",
        "a Int64~SELECT count() FROM t HAVING sum(a) = 0~~*0\n",
        "a Int64~SELECT count(*), sum(number), max(number) FROM numbers(5)~~*5,10,4\n",
    ];
    check_cases(&rt, &rt, &CASES, &SIZES)
}

/// Groups in an order, with a limit, and over parts that are bad.
#[test]
fn groups_are_ordered_and_limited(rt: HostRuntime) -> Result<(), Fail> {
    static CASES: [&str; 6] = [
        "a Int64~SELECT a, count() AS n FROM t GROUP BY a ORDER BY n DESC, a LIMIT 2~\
         3\n1\n|3\n2\n|1\n~1,2\n3,2\n",
        "a Int64,b String~SELECT b, sum(a) AS s FROM t GROUP BY b ORDER BY s LIMIT 1 OFFSET 1~\
         1,x\n|5,y\n2,x\n|2,z\n~\"x\",3\n",
        "a Int64~SELECT count() FROM t LIMIT 0~1\n|2\n~",
        // a bad part is told whatever the limit
        "a Int64~SELECT a, count() FROM t GROUP BY a LIMIT 0~1\nz\n~\
         !bad data: table t part 1 row 2 column 1",
        "a Int64~SELECT count() FROM t LIMIT 1~1\n|2\n3,4\n~\
         !bad data: table t part 2 row 2 fields 2",
        "a Int64~SELECT count() FROM numbers(0)~~0\n",
    ];
    check_cases(&rt, &rt, &CASES, &SIZES)
}

/// Words that are a command, over one part, by every number of lanes and rows of a chunk.
#[test]
fn reports_are_written(rt: HostRuntime) -> Result<(), Fail> {
    static CASES: [&str; 2] = [
        "--header|--query|SELECT shop, count() AS n, sum(qty * price) AS total FROM sales \
         WHERE price > 50 GROUP BY shop HAVING count() > 1 ORDER BY total DESC, shop LIMIT 10|\
         --tables|sales=p0.csv:day String,shop UInt64,qty UInt64,price UInt64~~\
         day,shop,qty,price\n2024-03-01,7,2,150\n2024-03-01,9,1,400\n2024-03-02,7,3,100\n\
         2024-03-02,9,5,80\n2024-03-02,12,1,30\n~\
         \"shop\",\"n\",\"total\"\n9,2,800\n7,2,600\n",
        "--query|SELECT count(), sum(number), max(number) FROM numbers(1000)~~~1000,499500,999\n",
    ];
    check_cases(&rt, &rt, &CASES, &SIZES)
}

/// A million numbers in lanes, in chunks of the usual size.
#[test]
fn a_million_numbers_are_summed(rt: HostRuntime) -> Result<(), Fail> {
    static CASES: [&str; 1] = [
        "--query|SELECT count(), sum(number), max(number) FROM numbers(1000000)~~~\
         1000000,499999500000,999999\n",
    ];
    static LANES: [&str; 4] = [
        "|--threads|1",
        "|--threads|2",
        "|--threads|8",
        "|--threads|16",
    ];
    check_cases(&rt, &rt, &CASES, &LANES)
}
