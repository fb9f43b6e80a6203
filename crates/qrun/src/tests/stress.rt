// Many runs on many threads in chunks of one row, over readers that have nothing now and then. Each
// way in which the works may come after one another must give the one answer.
use super::cases::check_case;
use super::{AMPLE, Setting};
use std::test::Fail;

/// How many runs each query has. `tools/stress` makes it 2,000.
const RUNS: u64 = 2;

#[test]
fn answers_stay_the_same(rt: HostRuntime) -> Result<(), Fail> {
    static CASES: [&str; 6] = [
        "a Int64,s String~SELECT s, count(), sum(a), min(a) FROM t GROUP BY s~\
         ^10*#,x\n^|^10*#,y\n^|^10*#,x\n^|^10*#,y\n^~*\"x\",20,110,1\n\"y\",20,110,1\n",
        "a Int64,s String~SELECT s, max(a) FROM t WHERE a > 3 GROUP BY s HAVING max(a) > 5~\
         ^10*#,x\n^|^4*#,y\n^|^5*#,x\n^~\"x\",10\n",
        "a Int64~SELECT a FROM t ORDER BY a~^5*#\n^|^5*#\n^|2\n4\n6\n~\
         1\n1\n2\n2\n2\n3\n3\n4\n4\n4\n5\n5\n6\n",
        "a Int64,s String~SELECT a FROM t WHERE s = 'x' ORDER BY a DESC LIMIT 3 OFFSET 1~\
         ^9*#,x\n^|^9*#,y\n^|^8*#,x\n^~8\n8\n7\n",
        "l,r~SELECT a, b FROM l JOIN r ON l.k = r.k~\
         1,10\n1,11\n2,12\n4,13\n|1,20\n1,21\n2,22\n3,23\n~\
         *10,20\n10,21\n11,20\n11,21\n12,22\n",
        "@~SELECT count(), sum(a), min(a), max(a) FROM t~^12*p#.csv\n^^12*|#\n^~12,78,1,12\n",
    ];
    for case in CASES.iter() {
        for run in 0..RUNS {
            let setting = Setting {
                noise: run + 1,
                ..AMPLE
            };
            check_case(&rt, &rt, case, "|--threads|16|--chunk|1", setting)?;
        }
    }
    Ok(())
}
