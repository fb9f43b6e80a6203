// One loop for each operator and shape of its operands. Each stands by itself, since a closure is
// compiled once: with the operator taken from outside it would be told apart at every row.
ghost use Rattle.std.specs.Prelude.{◌≡◌, ◌-ℤ◌, pos, length, map, IfOk, zip};
ghost use Rattle.std.specs.Int.{int_wrap, w64};
ghost use Rattle.query_model.specs.Expressions.{exact_result};
ghost use Rattle.expr_eval.specs.Results.{residue, swap_if};

use chunk_data::Memory;
use query_model::arithmetic::{add_int, add_uint, mul_int, mul_uint, sub_int, sub_uint};
use query_model::query::ArithOp;
use std::alloc::Global;

// The results at each pair, in a loop for each operator.
macro_rules! each_pair {
    ($alloc:expr, $op:expr, $xs:expr, $ys:expr, $result:ident) => {{
        let pairs = $xs.iter().zip($ys.iter());
        match $op {
            ArithOp::Add => Ok(pairs.map(|(x, y)| $result(ArithOp::Add, *x, *y)).collect($alloc)?),
            ArithOp::Sub => Ok(pairs.map(|(x, y)| $result(ArithOp::Sub, *x, *y)).collect($alloc)?),
            ArithOp::Mul => Ok(pairs.map(|(x, y)| $result(ArithOp::Mul, *x, *y)).collect($alloc)?),
        }
    }};
}

// The same at each number and one more, which is written in front where `swapped` is true.
macro_rules! each_beside {
    ($alloc:expr, $op:expr, $swapped:expr, $xs:expr, $y:expr, $result:ident) => {{
        let all = $xs.iter();
        match ($op, $swapped) {
            (ArithOp::Add, true) => Ok(all.map(|x| $result(ArithOp::Add, $y, *x)).collect($alloc)?),
            (ArithOp::Add, false) => {
                Ok(all.map(|x| $result(ArithOp::Add, *x, $y)).collect($alloc)?)
            }
            (ArithOp::Sub, true) => Ok(all.map(|x| $result(ArithOp::Sub, $y, *x)).collect($alloc)?),
            (ArithOp::Sub, false) => {
                Ok(all.map(|x| $result(ArithOp::Sub, *x, $y)).collect($alloc)?)
            }
            (ArithOp::Mul, true) => Ok(all.map(|x| $result(ArithOp::Mul, $y, *x)).collect($alloc)?),
            (ArithOp::Mul, false) => {
                Ok(all.map(|x| $result(ArithOp::Mul, *x, $y)).collect($alloc)?)
            }
        }
    }};
}

#[inline(always)]
#[tactic(auto, unfolding(query_model::specs::Numbers::wrapped))]
pub(crate) fn int_result(op: ArithOp, x: i64, y: i64) -> i64
    ensures { result ≡ int_wrap w64 (exact_result op x y) }
{
    match op {
        ArithOp::Add => add_int(x, y),
        ArithOp::Sub => sub_int(x, y),
        ArithOp::Mul => mul_int(x, y),
    }
}

#[inline(always)]
#[tactic(auto, unfolding(query_model::specs::Numbers::wrapped))]
pub(crate) fn uint_result(op: ArithOp, x: u64, y: u64) -> u64
    ensures { result ≡ residue (exact_result op (pos x) (pos y)) }
{
    match op {
        ArithOp::Add => add_uint(x, y),
        ArithOp::Sub => x.wrapping_sub(y),
        ArithOp::Mul => mul_uint(x, y),
    }
}

#[inline(always)]
#[tactic(auto, unfolding(query_model::specs::Numbers::wrapped))]
pub(crate) fn uint_difference(x: u64, y: u64) -> i64
    ensures { result ≡ int_wrap w64 (pos x -ℤ pos y) }
{
    sub_uint(x, y)
}

pub(crate) fn uint_differences(alloc: Global, xs: &[u64], ys: &[u64]) -> Result<Vec<i64>, Memory>
    ensures { IfOk result
        (λ v. v.items ≡ map (λ p. int_wrap w64 (pos p.0 -ℤ pos p.1)) (zip xs.now ys.now)) }
{
    Ok(
        xs.iter()
            .zip(ys.iter())
            .map(|(x, y)| uint_difference(*x, *y))
            .collect(alloc)?,
    )
}

/// The differences of UInt64 and one number, which are Int64.
pub(crate) fn uint_differences_beside(
    alloc: Global,
    swapped: bool,
    xs: &[u64],
    y: u64,
) -> Result<Vec<i64>, Memory>
    ensures { IfOk result (λ v. v.items
        ≡ map (λ x. int_wrap w64 (swap_if swapped (λ a b. a -ℤ b) (pos x) (pos y))) xs.now) }
{
    if swapped {
        Ok(xs.iter().map(|x| uint_difference(y, *x)).collect(alloc)?)
    } else {
        Ok(xs.iter().map(|x| uint_difference(*x, y)).collect(alloc)?)
    }
}

pub(crate) fn int_results(
    alloc: Global,
    op: ArithOp,
    xs: &[i64],
    ys: &[i64],
) -> Result<Vec<i64>, Memory>
    ensures { IfOk result
        (λ v. v.items ≡ map (λ p. int_wrap w64 (exact_result op p.0 p.1)) (zip xs.now ys.now)) }
{
    each_pair!(alloc, op, xs, ys, int_result)
}

pub(crate) fn uint_results(
    alloc: Global,
    op: ArithOp,
    xs: &[u64],
    ys: &[u64],
) -> Result<Vec<u64>, Memory>
    ensures { IfOk result (λ v. v.items
        ≡ map (λ p. residue (exact_result op (pos p.0) (pos p.1))) (zip xs.now ys.now)) }
{
    each_pair!(alloc, op, xs, ys, uint_result)
}

/// The results at each number and one more, which is written in front where `swapped` is true.
pub(crate) fn int_results_beside(
    alloc: Global,
    swapped: bool,
    op: ArithOp,
    xs: &[i64],
    y: i64,
) -> Result<Vec<i64>, Memory>
    ensures { IfOk result
        (λ v. v.items ≡ map (λ x. int_wrap w64 (swap_if swapped (exact_result op) x y)) xs.now) }
{
    each_beside!(alloc, op, swapped, xs, y, int_result)
}

/// The results at each number and one more, which is written in front where `swapped` is true.
pub(crate) fn uint_results_beside(
    alloc: Global,
    swapped: bool,
    op: ArithOp,
    xs: &[u64],
    y: u64,
) -> Result<Vec<u64>, Memory>
    ensures { IfOk result (λ v. v.items
        ≡ map (λ x. residue (swap_if swapped (exact_result op) (pos x) (pos y))) xs.now) }
{
    each_beside!(alloc, op, swapped, xs, y, uint_result)
}

#[inline(always)]
fn each_int_pair_onto(op: ArithOp, xs: &mut [i64], ys: &[i64])
    requires { length ys.now ≡ length xs.old }
    ensures { xs.new ≡ map (λ p. int_wrap w64 (exact_result op p.0 p.1)) (zip xs.old ys.now) }
{
    for i in 0..xs.len() {
        xs[i] = int_result(op, xs[i], ys[i]);
    }
}

/// The results at each pair, in the first ones' memory.
pub(crate) fn int_results_onto(op: ArithOp, mut xs: Vec<i64>, ys: &[i64]) -> Vec<i64>
    requires { length ys.now ≡ length xs.items }
    ensures { result.items
        ≡ map (λ p. int_wrap w64 (exact_result op p.0 p.1)) (zip xs.items ys.now) }
{
    match op {
        ArithOp::Add => each_int_pair_onto(ArithOp::Add, &mut xs, ys),
        ArithOp::Sub => each_int_pair_onto(ArithOp::Sub, &mut xs, ys),
        ArithOp::Mul => each_int_pair_onto(ArithOp::Mul, &mut xs, ys),
    }
    xs
}
