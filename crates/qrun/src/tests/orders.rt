// Queries with ORDER BY, by every number of lanes and rows of a chunk.
use super::cases::{SIZES, check_cases};
use std::test::Fail;

/// The columns, the query, the parts, and what is written, as SQLite gives it, or told.
#[test]
fn rows_come_in_their_order(rt: HostRuntime) -> Result<(), Fail> {
    static CASES: [&str; 20] = [
        "a Int64~SELECT a FROM t ORDER BY a~3\n-1\n|2\n-9\n|10\n~-9\n-1\n2\n3\n10\n",
        "a Int64~SELECT a FROM t ORDER BY a~9223372036854775807\n-9223372036854775808\n~\
         -9223372036854775808\n9223372036854775807\n",
        "a UInt64~SELECT a FROM t ORDER BY a DESC~\
         0\n9223372036854775807\n|18446744073709551615\n~\
         18446744073709551615\n9223372036854775807\n0\n",
        "a Int64~SELECT a FROM t ORDER BY a~|~",
        "a Int64~SELECT a FROM t ORDER BY a~2\n1\n2\n|1\n2\n|1\n~1\n1\n1\n2\n2\n2\n",
        "a Int64,b String~SELECT b FROM t ORDER BY b~\
         1,b\n2,\n3,abcdefghi\n|4,abcdefgh\n5,B\n6,abcdefghz\n~\
         \"\"\n\"B\"\n\"abcdefgh\"\n\"abcdefghi\"\n\"abcdefghz\"\n\"b\"\n",
        "a Int64,b String~SELECT a, b FROM t ORDER BY a, b~2,x\n1,y\n1,x\n~\
         1,\"x\"\n1,\"y\"\n2,\"x\"\n",
        "a Int64,b String~SELECT a, b FROM t ORDER BY a DESC, b~1,x\n1,y\n0,z\n~\
         1,\"x\"\n1,\"y\"\n0,\"z\"\n",
        "a Int64,b String~SELECT a, b FROM t ORDER BY a, b DESC~2,x\n1,y\n|1,z\n1,x\n|2,y\n~\
         1,\"z\"\n1,\"y\"\n1,\"x\"\n2,\"y\"\n2,\"x\"\n",
        "a Int64,b String~SELECT * FROM t ORDER BY b, a~2,y\n1,y\n|3,x\n~\
         3,\"x\"\n1,\"y\"\n2,\"y\"\n",
        "a Int64~SELECT a FROM t ORDER BY a LIMIT 3 OFFSET 2~6\n5\n|4\n3\n|2\n1\n~3\n4\n5\n",
        "a Int64~SELECT a FROM t ORDER BY a LIMIT 9 OFFSET 4~6\n5\n|4\n3\n|2\n1\n~5\n6\n",
        "a Int64~SELECT a FROM t ORDER BY a LIMIT 0~6\n5\n~",
        "a Int64,b String~SELECT b FROM t WHERE a > 2 ORDER BY b DESC LIMIT 2~\
         1,z\n3,x\n|4,w\n5,y\n~\"y\"\n\"x\"\n",
        // keys by their names behind AS, or by the places of their items
        "a Int64,b String~SELECT b, 0 - a AS n FROM t WHERE a < 4 ORDER BY n~\
         3,x\n1,w\n|4,v\n2,y\n~\"x\",-3\n\"y\",-2\n\"w\",-1\n",
        "a Int64~SELECT a * a, a FROM t ORDER BY item_1, a~-2\n1\n|2\n-3\n~1,1\n4,-2\n4,2\n9,-3\n",
        "a Int64~SELECT number FROM numbers(4) ORDER BY number DESC LIMIT 2~~3\n2\n",
        // a bad part is told whatever the limit
        "a Int64~SELECT a FROM t ORDER BY a~9223372036854775808\n~\
         !bad data: table t part 1 row 1 column 1",
        "a Int64~SELECT a FROM t ORDER BY a LIMIT 1~1\nz\n~\
         !bad data: table t part 1 row 2 column 1",
        "a Int64~SELECT a FROM t ORDER BY a LIMIT 0~1\n|2\n3,4\n~\
         !bad data: table t part 2 row 2 fields 2",
    ];
    check_cases(&rt, &rt, &CASES, &SIZES)
}

/// Rows that the keys don't tell apart come in either order.
#[test]
fn ties_come_in_either_order(rt: HostRuntime) -> Result<(), Fail> {
    static CASES: [&str; 1] = [
        "a Int64,b String~SELECT a, b FROM t ORDER BY a~1,x\n|1,y\n0,z\n~\
         0,\"z\"\n1,\"x\"\n1,\"y\"\n%0,\"z\"\n1,\"y\"\n1,\"x\"\n",
    ];
    check_cases(&rt, &rt, &CASES, &SIZES)
}
