// Tables of the parts that a list names, by every number of lanes and rows of a chunk.
use super::cases::{SIZES, check_cases};
use std::test::Fail;

/// The list is the first part; the second has one row, the third none, the fourth another row and
/// the fifth a bad one.
#[test]
fn a_list_names_the_parts(rt: HostRuntime) -> Result<(), Fail> {
    static CASES: [&str; 14] = [
        "@~SELECT count(), sum(a) FROM t~p1.csv\np2.csv\np3.csv\n|1\n||2\n|z\n~2,3\n",
        "@~SELECT a FROM t ORDER BY a~p3.csv\r\n\np1.csv|1\n||2\n|z\n~1\n2\n",
        "@~SELECT count(), sum(a) FROM t~|1\n||2\n|z\n~0,0\n",
        "@~SELECT a FROM t~p2.csv\n|1\n||2\n|z\n~",
        "@~SELECT a, b FROM u JOIN t ON b = a~p1.csv\np3.csv\n|1\n||2\n|z\n~1,1\n",
        "@~SELECT count() FROM t LIMIT 1~p1.csv\np3.csv\n|1\n||2\n|z\n~2\n",
        // a part that the list names is bad, isn't there, or is read of a list that isn't used
        "@~SELECT a FROM t ORDER BY a~p1.csv\np4.csv\n|1\n||2\n|z\n~\
         !bad data: table t part 2 row 1 column 1",
        "@~SELECT count() FROM t~p1.csv\nnone.csv\n|1\n||2\n|z\n~!read fault: table t part 2",
        "@~SELECT b FROM u~\0\n|1\n||2\n|z\n~1\n",
        // a line is no path
        "@~SELECT a FROM t~p1.csv\n\0\n|1\n||2\n|z\n~!bad list: table t line 2",
        "@~SELECT a FROM t LIMIT 0~p1.csv\n\0\n|1\n||2\n|z\n~!bad list: table t line 2",
        // a list that isn't there, and lists of 32 and of 33 lines with one path
        "t=@list.txt:a Int64;u=p1.csv:b Int64~SELECT count(), sum(a) FROM t~|1\n~\
         !read fault: table t list",
        "@~SELECT count(), sum(a) FROM t~^32*p1.csv\n^|1\n||2\n|z\n~32,32\n",
        "@~SELECT count(), sum(a) FROM t~^33*p1.csv\n^|1\n||2\n|z\n~!bad list: table t line 33",
    ];
    check_cases(&rt, &rt, &CASES, &SIZES)
}

/// A list of 32 parts, each with a row of its own number, of which the last is bad or not.
#[test]
fn each_part_of_a_list_is_read(rt: HostRuntime) -> Result<(), Fail> {
    static CASES: [&str; 2] = [
        "@~SELECT count(), sum(a), min(a), max(a) FROM t~^32*p#.csv\n^^31*|#\n^|32\n~\
         32,528,1,32\n",
        "@~SELECT count(), sum(a), min(a), max(a) FROM t~^32*p#.csv\n^^31*|#\n^|z\n~\
         !bad data: table t part 32 row 1 column 1",
    ];
    check_cases(&rt, &rt, &CASES, &SIZES)
}
