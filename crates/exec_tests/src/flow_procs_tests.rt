use crate::driven::{drive, halves, load};
use chunk_data::List;
use flow_procs::{Collect, Expression, Filter, Limit, Numbers, Resize};
use proc_api::{LoadRefusal, Processor, Rack};
use query_model::checked::Expr;
use query_model::processor_spec::{Kind, Spec};
use query_model::query::{ArithOp, CompareOp, CondOf, ExprOf, Number, Operand, Span};
use std::alloc::Global;
use std::process::Abort;
use std::test::Fail;

fn number(size: u64) -> Expr {
    ExprOf::Number(Number {
        negative: false,
        size,
    })
}

// The column's values with one more, and the values themselves.
fn items(alloc: Global) -> Result<List<Expr>, Fail> {
    let (left, right) = (
        Box::new(alloc, ExprOf::Column(0))?,
        Box::new(alloc, number(1))?,
    );
    let items = vec![in alloc; ExprOf::Arith(ArithOp::Add, left, right), ExprOf::Column(0)]?;
    Ok(List::from_vec(items))
}

/// A box of a kind: it passes rows above 5, gives the items, five numbers in chunks of two, or so
/// many rows behind so many others.
pub(crate) fn blank(alloc: Global, case: &str) -> Result<Box<dyn Processor + Send>, Fail> {
    match halves(case, '/').0 {
        "Filter" => Ok(Box::new(alloc, Filter::new(alloc))?),
        "Expression" => Ok(Box::new(alloc, Expression::new(alloc))?),
        "Numbers" => Ok(Box::new(alloc, Numbers::new(alloc))?),
        "Resize" => Ok(Box::new(alloc, Resize::new(alloc))?),
        "Limit" => Ok(Box::new(alloc, Limit::new(alloc))?),
        _ => Ok(Box::new(alloc, Collect::new(alloc))?),
    }
}

/// What it is loaded with.
pub(crate) fn spec(alloc: Global, made: &str, words: &str) -> Result<Spec, Fail> {
    let (count, skip) = halves(words, ' ');
    Ok(match made {
        "Filter" => {
            let (left, right) = (Operand::Plain(ExprOf::Column(0)), Operand::Plain(number(5)));
            Spec::Filter(CondOf::Compare(CompareOp::Gt, left, right))
        }
        "Expression" => Spec::Expression(items(alloc)?),
        "Numbers" => Spec::Numbers(5, 2),
        "Resize" => Spec::Resize,
        "Limit" => Spec::Limit(Span {
            count: count.parse().unwrap_or(0),
            skip: skip.parse().unwrap_or(0),
        }),
        _ => Spec::Collect,
    })
}

fn drive_each(rt: &impl Abort, alloc: Global, cases: &[&str]) -> Result<(), Fail> {
    for case in cases {
        drive(rt, alloc, &mut blank(alloc, case)?, case, spec)?;
    }
    Ok(())
}

static KINDS: [&str; 5] = [
    "Filter/1 1 i/n0 0:1;6;7 0:5;-9 0:9;5 e0/~.6 7 |..9 |.end/~.6 7 |..9 |.end",
    "Expression/1 1 i/n0 0:1;6;7 0: 0:-9/~.2 7 8 |..-8 |./~.2 7 8 |..-8 |.",
    "Numbers/0 1 i/ n0/~-0 1 |2 3 |4 |end/~-0 1 |2 3 |4 |end",
    "Collect/1 0 i/ 0:1;6 0:7 e0/~...end|1 6 |7 /~...end|1 6 |7 ",
    // Two of 32 inputs have chunks for two outputs, which both are full after one prepare, and all
    // end.
    "Resize/32 16 i/n3+ n15 31:1;2+ 4:3 0:4 n3 e0+ e1+ e2+ e3+ e4+ e5+ e6+ e7+ e8+ e9+ e10+ \
     e11+ e12+ e13+ e14+ e15+ e16+ e17+ e18+ e19+ e20+ e21+ e22+ e23+ e24+ e25+ e26+ e27+ e28+ \
     e29+ e30+ e31+ n0/~.3 1 2 |--4 |-end/~.3 1 2 |--4 |-end",
];

#[test]
fn each_kind_is_driven_by_hand_and_again(rt: HostRuntime) -> Result<(), Fail> {
    drive_each(&rt, rt.alloc(), &KINDS)
}

#[test]
fn a_limit_passes_its_span_and_closes_its_input(rt: HostRuntime) -> Result<(), Fail> {
    let case = "Limit/1 1 i/n0+ 0:1;2;3 0:4;5;6/\
         0 0~end, closed/\
         3 0~1 2 3 |end, closed/\
         2 0~1 2 |end, closed/\
         4 0~1 2 3 |.4 |end, closed/\
         3 1~2 3 |.4 |end, closed/\
         1 3~.4 |end, closed/\
         9 3~.4 5 6 |./\
         18446744073709551615 18446744073709551615~..";
    drive_each(&rt, rt.alloc(), &[case])
}

#[test]
fn loads_are_refused(rt: HostRuntime) -> Result<(), Fail> {
    let mut b = blank(rt.alloc(), "Resize")?;
    assert!(rt; matches!(load(&mut b, Spec::Collect), Err(LoadRefusal::WrongKind)));
    assert!(rt; load(&mut b, Spec::Resize).is_ok());
    assert!(rt; matches!(load(&mut b, Spec::Resize), Err(LoadRefusal::NotBlank)));
    assert!(rt; b.kind() == Kind::Resize);
    Ok(())
}

#[test]
fn a_rack_gives_out_the_kinds_that_lie_in_it(rt: HostRuntime) -> Result<(), Fail> {
    let mut rack = Rack::new(rt.alloc());
    let b = Box::new(rt.alloc(), Filter::new(rt.alloc()))?;
    if rack.add(b).is_err() {
        return Err("there was no memory".into());
    }
    assert!(rt; rack.count(Kind::Filter) == 1 && rack.take(Kind::Sort).is_none());
    assert!(rt; rack.take(Kind::Filter).is_some() && rack.take(Kind::Filter).is_none());
    Ok(())
}
