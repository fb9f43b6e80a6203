use crate::literals::{analysed, check_each, halves};
use chunk_data::List;
use query_model::checked::{Checked, CheckedJoin, KeyPair, TableUse};
use query_model::processor_spec::Kind;
use query_model::query::TableDecl;
use select_planner::{needs, plan};
use std::alloc::{AllocError, Global};
use std::test::Fail;

// A join with numbers(2) of the first columns.
fn numbers_join(alloc: Global) -> Result<CheckedJoin, AllocError> {
    let pairs = vec![in alloc; KeyPair { left: 0, right: 0 }]?;
    Ok(CheckedJoin {
        table: TableUse::Numbers(2),
        pairs: List::from_vec(pairs),
    })
}

static KINDS: [Kind; 8] = [
    Kind::Numbers,
    Kind::Csv,
    Kind::HashJoin,
    Kind::Filter,
    Kind::Expression,
    Kind::Sort,
    Kind::MergeSorted,
    Kind::Resize,
];

// How many nodes and edges the query's plan has, and how many boxes of each kind.
fn shown(alloc: Global, query: &Checked, lanes: u32) -> Result<String, Fail> {
    let tables: List<TableDecl> = List::new(alloc);
    let lanes = lanes.clamp(1, 16);
    let made = plan(alloc, query, &tables, lanes, 8192, false)?;
    let mut text = format!(in alloc; "{} {}:", made.nodes.len(), made.edges.len())?;
    for kind in KINDS.iter() {
        write!(text, " {}", needs(&made, *kind))?;
    }
    Ok(text)
}

// The plan of so many lanes, or of so many behind a `+` where the query is joined.
fn plan_text(alloc: Global, text: &str) -> Result<String, Fail> {
    let (lanes, query) = halves(text, ' ');
    let mut ended = analysed(alloc, "t ia", query)?;
    let Some(Ok(query)) = ended.as_mut_slice().first_mut() else {
        return Err("the query is refused".into());
    };
    if lanes.starts_with('+') {
        query.join = Some(numbers_join(alloc)?);
    }
    shown(
        alloc,
        query,
        lanes.trim_start_matches('+').parse().unwrap_or(1),
    )
}

static PLANS: [&str; 7] = [
    "1 SELECT number FROM numbers(3) WHERE number < 2 LIMIT 1~7 6: 1 0 0 1 1 0 0 2",
    "2 SELECT number FROM numbers(3) WHERE number < 2 LIMIT 1~9 9: 1 0 0 2 2 0 0 2",
    "16 SELECT number FROM numbers(3) WHERE number < 2 LIMIT 1~37 51: 1 0 0 16 16 0 0 2",
    "1 SELECT number FROM numbers(3) WHERE number < 2 ORDER BY number DESC LIMIT 1~\
     8 7: 1 0 0 1 1 1 1 1",
    "2 SELECT number FROM numbers(3) WHERE number < 2 ORDER BY number DESC LIMIT 1~\
     11 11: 1 0 0 2 2 2 1 1",
    "16 SELECT number FROM numbers(3) WHERE number < 2 ORDER BY number DESC LIMIT 1~\
     53 67: 1 0 0 16 16 16 1 1",
    "+16 SELECT number FROM numbers(3) WHERE number < 2 LIMIT 1~41 55: 2 0 1 16 16 0 0 4",
];

#[test]
fn lanes_are_laid_down_and_two_tables_joined(rt: HostRuntime) -> Result<(), Fail> {
    check_each(&rt, rt.alloc(), &PLANS, plan_text)
}
