use crate::driven::{drive, halves, types_of};
use chunk_data::{List, SortKey};
use proc_api::Processor;
use query_model::processor_spec::{SortSpec, Spec};
use sort_procs::{MergeSorted, Sort};
use std::alloc::Global;
use std::process::Abort;
use std::test::Fail;

// The keys' columns, with a `-` behind those that descend.
fn keys_of(alloc: Global, words: &str) -> Result<List<SortKey>, Fail> {
    let mut keys = Vec::new(alloc);
    for word in words.split(' ') {
        keys.push(SortKey {
            column: word.trim_end_matches('-').parse().unwrap_or(9),
            descending: word.ends_with('-'),
        })?;
    }
    Ok(List::from_vec(keys))
}

// Sorts and merges of rows of a number, a key and a name, in chunks of three rows.
fn blank(alloc: Global, case: &str) -> Result<Box<dyn Processor + Send>, Fail> {
    match halves(case, '/').0 {
        "Sort" => Ok(Box::new(alloc, Sort::new(alloc))?),
        _ => Ok(Box::new(alloc, MergeSorted::new(alloc))?),
    }
}

fn spec(alloc: Global, made: &str, words: &str) -> Result<Spec, Fail> {
    let order = SortSpec {
        keys: keys_of(alloc, words)?,
        types: types_of(alloc, "iit")?,
        rows: 3,
    };
    Ok(match made {
        "Sort" => Spec::Sort(order),
        _ => Spec::MergeSorted(order),
    })
}

fn drive_each(rt: &impl Abort, alloc: Global, cases: &[&str]) -> Result<(), Fail> {
    for case in cases {
        drive(rt, alloc, &mut blank(alloc, case)?, case, spec)?;
    }
    Ok(())
}

// Of the three inputs of the merges the last has no rows. In the second merge runs of several rows
// meet ties.
static CASES: [&str; 3] = [
    "Sort/1 1 iit/\
     n0 0:0,3,b;1,-1,abcdefghz;2,3,a 0:3,-1,abcdefgha;4,-9223372036854775808, e0/\
     1 2-~...4 1 3 |0 2 |end/\
     1- 2~...2 0 3 |1 4 |end/\
     2 1~...4 2 3 |1 0 |end/\
     2- 1~...0 1 3 |2 4 |end",
    "MergeSorted/3 1 iit/\
     n0 0:0,1,;1,4, 1:2,2,;3,4,;4,9, e2 0:5,4,;6,6, e0 e1/\
     1~...0 2 1 |.5 3 6 |.4 |.end/\
     1~...0 2 1 |.5 3 6 |.4 |.end",
    "MergeSorted/3 1 iit/\
     n0 0:0,1,;1,1,;2,1,;3,5, 1:4,1,;5,5,;6,5,;7,9, e2 e0 e1/\
     1~...0 1 2 |4 3 |.5 6 7 |.end",
];

#[test]
fn a_sort_and_a_merge_are_driven_by_hand_and_again(rt: HostRuntime) -> Result<(), Fail> {
    drive_each(&rt, rt.alloc(), &CASES)
}
