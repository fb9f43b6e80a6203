use crate::driven::{drive, types_of};
use chunk_data::List;
use join_proc::HashJoin;
use proc_api::Processor;
use query_model::checked::KeyPair;
use query_model::processor_spec::{JoinSpec, Spec};
use std::alloc::Global;
use std::test::Fail;

// Each column of the left rows is paired with the same one of the right rows.
fn pairs_of(alloc: Global, words: &str) -> Result<List<KeyPair>, Fail> {
    let mut pairs = Vec::new(alloc);
    for word in words.split(' ') {
        let column = word.parse().unwrap_or(9);
        pairs.push(KeyPair {
            left: column,
            right: column,
        })?;
    }
    Ok(List::from_vec(pairs))
}

// A join of rows of three columns on either side, in chunks of two rows.
fn spec(alloc: Global, _made: &str, words: &str) -> Result<Spec, Fail> {
    Ok(Spec::HashJoin(JoinSpec {
        pairs: pairs_of(alloc, words)?,
        left: types_of(alloc, "int")?,
        right: types_of(alloc, "int")?,
        rows: 2,
    }))
}

// Two chunks of either side, of the right one or none, and the numbers of both rows of each pair.
// A row whose key has NULL is joined with none.
#[test]
fn a_join_is_driven_by_hand_and_again(rt: HostRuntime) -> Result<(), Fail> {
    let case = "HashJoin/2 1 int/\
         n0 1:0,1,a;1,2,b;2,1,a 1:3,1,b;4,2,a;9,\\N,b e1 0:5,1,a;6,\\N,a;7,2,b 0:8,1,c e0/\
         1~....50 52 |53 71 |74 |.80 82 |83 |.end/\
         2~....50 52 |54 60 |62 64 |71 73 |79 |..end/\
         1 2~....50 52 |71 |..end/\
         1|n0 e1 0:5,1,a;6,3,a;7,2,b 0:8,1,c e0~....end";
    let mut b: Box<dyn Processor + Send> = Box::new(rt.alloc(), HashJoin::new(rt.alloc()))?;
    drive(&rt, rt.alloc(), &mut b, case, spec)
}
