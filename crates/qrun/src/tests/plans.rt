// Plans of lanes, parts, numbers and limits, by every number of lanes and rows of a chunk.
use super::cases::{SIZES, check_cases};
use std::test::Fail;

/// The columns, the query, the parts, and the lines, whose order is free where lanes are several.
#[test]
fn every_size_gives_the_rows(rt: HostRuntime) -> Result<(), Fail> {
    static CASES: [&str; 14] = [
        "a Int64~SELECT a FROM t WHERE a > 5~1\n2\n3\n~*",
        "a Int64~SELECT a FROM t~~*",
        "a Int64~SELECT a FROM t~1\n2\n|3\n|4\n5\n|6\n~*1\n2\n3\n4\n5\n6\n",
        "a Int64~SELECT a FROM t~|1\n1\n||1~*1\n1\n1\n",
        "a Int64,b String~SELECT b, a * 2 FROM t WHERE a < 3~1,x\n3,v\n2,y\n|3,z\n|1,w\n~*\
         \"w\",2\n\"x\",2\n\"y\",4\n",
        "a UInt64~SELECT a + 1 FROM t~18446744073709551615\n|0\n~*0\n1\n",
        "a Int64~SELECT a FROM t LIMIT 0~1\n2\n|3\n~*",
        "a Int64~SELECT a FROM t LIMIT 0~~*",
        "a Int64~SELECT a FROM t LIMIT 3~1\n2\n|3\n~*1\n2\n3\n",
        "a Int64~SELECT a FROM t LIMIT 9 OFFSET 3~1\n2\n|3\n~*",
        "a Int64~SELECT number FROM numbers(3)~~*0\n1\n2\n",
        "a Int64~SELECT number FROM numbers(3) LIMIT 0~~*",
        "a Int64~SELECT number FROM numbers(0)~~*",
        "a Int64~SELECT number * 2 AS n FROM numbers(5) WHERE number > 2~~*6\n8\n",
    ];
    check_cases(&rt, &rt, &CASES, &SIZES)
}

/// Three of six rows pass, none of them twice.
#[test]
fn a_limit_passes_any_of_the_rows(rt: HostRuntime) -> Result<(), Fail> {
    static CASES: [&str; 1] = [
        "a Int64~SELECT a FROM t LIMIT 3 OFFSET 2~1\n2\n|3\n|4\n5\n|6\n~3*1\n2\n3\n4\n5\n6\n",
    ];
    check_cases(&rt, &rt, &CASES, &SIZES)
}

/// The same answer comes of 200 runs on 16 threads.
#[test]
fn many_runs_give_one_answer(rt: HostRuntime) -> Result<(), Fail> {
    static CASES: [&str; 1] = [
        "a Int64,b String~SELECT b, sum(a) AS s FROM t WHERE a > 0 GROUP BY b ORDER BY s DESC, b~\
         1,x\n2,y\n|3,x\n0,z\n|4,y\n|5,x\n1,w\n~\"x\",9\n\"y\",6\n\"w\",1\n",
    ];
    for _run in 0..200 {
        check_cases(&rt, &rt, &CASES, &["|--threads|16|--chunk|8192"])?;
    }
    Ok(())
}

/// A query over parts of which one is bad, its answer, where it may be answered, and the first bad
/// place.
#[test]
fn a_bad_part_is_told_unless_a_limit_was_reached(rt: HostRuntime) -> Result<(), Fail> {
    static CASES: [&str; 8] = [
        "a Int64~SELECT a FROM t LIMIT 1~1\nz\n~1\n%!bad data: table t part 1 row 2 column 1",
        "a Int64~SELECT a FROM t LIMIT 2~1\nz\n~!bad data: table t part 1 row 2 column 1",
        "a Int64~SELECT a FROM t LIMIT 1 OFFSET 1~1\nz\n~!bad data: table t part 1 row 2 column 1",
        "a Int64~SELECT a FROM t LIMIT 0~1\nz\n~%!bad data: table t part 1 row 2 column 1",
        "a Int64~SELECT a FROM t LIMIT 0~z\n1\n~!bad data: table t part 1 row 1 column 1",
        "a Int64~SELECT a FROM t WHERE a > 1 LIMIT 1~1\n1,2\n2\n~\
         !bad data: table t part 1 row 2 fields 2",
        "a Int64~SELECT a FROM t LIMIT 1~z\n|1\n~1\n%!bad data: table t part 1 row 1 column 1",
        "a Int64~SELECT a FROM t~1\n|2\nz\n|3\n~!bad data: table t part 2 row 2 column 1",
    ];
    check_cases(&rt, &rt, &CASES, &SIZES)
}

/// A table has at most 32 paths, which aren't counted after its boxes.
#[test]
fn a_table_has_at_most_32_paths(rt: HostRuntime) -> Result<(), Fail> {
    static CASES: [&str; 6] = [
        "t=p0.csv^31*+p0.csv^:a Int64;u=p0.csv:c Int64~SELECT a FROM t~1\n~^32*1\n^",
        "t=p0.csv^32*+p0.csv^:a Int64;u=p0.csv:c Int64~SELECT a FROM t~1\n~\
         !limit: paths of t are 33, at most 32",
        "t=p0.csv^32*+p0.csv^:a Int64;u=p0.csv:c Int64~SELECT a FROM t~1\n~\
         !limit: paths of t are 33, at most 32~",
        "t=p0.csv^32*+p0.csv^:a Int64;u=p0.csv:c Int64~SELECT b FROM t~1\n~\
         !refused: UnknownColumn b",
        "t=p0.csv^32*+p0.csv^:a Int64;u=p0.csv:c Int64~SELECT b FROM t~1\n~\
         !refused: UnknownColumn b~",
        "t=p0.csv^32*+p0.csv^:a Int64;u=p0.csv:c Int64~SELECT c FROM u~1\n~1\n",
    ];
    check_cases(&rt, &rt, &CASES, &SIZES)
}

/// Words that are a command: the words, the one part, and what is written or told.
#[test]
fn words_are_read(rt: HostRuntime) -> Result<(), Fail> {
    static CASES: [&str; 7] = [
        "--query|SELECT number FROM numbers(3)|--threads|1|--chunk|1~~~0\n1\n2\n",
        "--chunk=65536|--threads=16|--query=SELECT number FROM numbers(3) LIMIT 0~~~",
        "--header|--query|SELECT b, a AS x FROM t|--tables|t=p0.csv:a Int64,b String~~a,b\n1,x\n~\
         \"b\",\"x\"\n\"x\",1\n",
        "--header|--query|SELECT b FROM t|--tables|t=p0.csv:a Int64,b String~~a,b\nz,x\n~\
         !bad data: table t part 1 row 1 column 1",
        "--query|SELECT c FROM u|--tables|t=@list.txt:a Int64;u=p0.csv:c Int64~~7\n~7\n",
        "--query|SELECT a FROM t|--tables|t=@list.txt:a Int64;u=p0.csv:c Int64~~7\n~\
         !read fault: table t list",
        "--query|SELECT c FROM t|--tables|t=@list.txt:a Int64;u=p0.csv:c Int64~~7\n~\
         !refused: UnknownColumn c",
    ];
    check_cases(&rt, &rt, &CASES, &[""])
}

/// Words that are none, where the query and table stand in front.
#[test]
fn other_words_are_no_command(rt: HostRuntime) -> Result<(), Fail> {
    static CASES: [&str; 1] = ["a Int64~SELECT a FROM t~1\n~!usage"];
    static WORDS: [&str; 10] = [
        "|--threads|17",
        "|--threads|0",
        "|--threads|1x",
        "|--chunk|0",
        "|--chunk|65537",
        "|--chunk",
        "|--query|SELECT a FROM t",
        "|--x",
        "|x",
        ";t=p0.csv:a Int64",
    ];
    check_cases(&rt, &rt, &CASES, &WORDS)
}
