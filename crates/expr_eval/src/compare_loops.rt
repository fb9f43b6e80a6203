// One loop for each comparison and shape of its operands. Each stands by itself, since a closure is
// compiled once: with the comparison taken from outside it would be told apart at every row.
ghost use Rattle.std.specs.Prelude.{◌≡◌, pos, length, map, replicate, IfOk, not, ◌&&◌, ◌||◌, zip};
ghost use Rattle.std.specs.Ordering.{int_cmp};
ghost use Rattle.chunk_data.specs.Values.{text_cmp};
ghost use Rattle.query_model.specs.Expressions.{number_of, passes};
ghost use Rattle.expr_eval.specs.Results.{both_or_either as truth_of_both, flipped, opposite_unless as opposite_comparison_unless};

use chunk_data::{Memory, Texts};
use query_model::query::{CompareOp, Number};
use std::alloc::Global;
use std::cmp::Ordering;

// The comparison at each pair, in a loop for each comparison.
macro_rules! each_pair {
    ($alloc:expr, $op:expr, $xs:expr, $ys:expr, $test:ident) => {{
        let pairs = $xs.iter().zip($ys.iter());
        match $op {
            CompareOp::Eq => Ok(pairs.map(|(x, y)| $test(CompareOp::Eq, *x, *y)).collect($alloc)?),
            CompareOp::Ne => Ok(pairs.map(|(x, y)| $test(CompareOp::Ne, *x, *y)).collect($alloc)?),
            CompareOp::Lt => Ok(pairs.map(|(x, y)| $test(CompareOp::Lt, *x, *y)).collect($alloc)?),
            CompareOp::Le => Ok(pairs.map(|(x, y)| $test(CompareOp::Le, *x, *y)).collect($alloc)?),
            CompareOp::Gt => Ok(pairs.map(|(x, y)| $test(CompareOp::Gt, *x, *y)).collect($alloc)?),
            CompareOp::Ge => Ok(pairs.map(|(x, y)| $test(CompareOp::Ge, *x, *y)).collect($alloc)?),
        }
    }};
}

// The same at each element and one more.
macro_rules! each_beside {
    ($alloc:expr, $op:expr, $xs:expr, $y:expr, $test:ident) => {{
        let all = $xs.iter();
        match $op {
            CompareOp::Eq => Ok(all.map(|x| $test(CompareOp::Eq, *x, $y)).collect($alloc)?),
            CompareOp::Ne => Ok(all.map(|x| $test(CompareOp::Ne, *x, $y)).collect($alloc)?),
            CompareOp::Lt => Ok(all.map(|x| $test(CompareOp::Lt, *x, $y)).collect($alloc)?),
            CompareOp::Le => Ok(all.map(|x| $test(CompareOp::Le, *x, $y)).collect($alloc)?),
            CompareOp::Gt => Ok(all.map(|x| $test(CompareOp::Gt, *x, $y)).collect($alloc)?),
            CompareOp::Ge => Ok(all.map(|x| $test(CompareOp::Ge, *x, $y)).collect($alloc)?),
        }
    }};
}

/// The comparison, or where it isn't wanted the one that is false where this one is true.
pub(crate) fn opposite_unless(wanted: bool, op: CompareOp) -> CompareOp
    ensures { result ≡ opposite_comparison_unless wanted op }
{
    if wanted {
        return op;
    }
    match op {
        CompareOp::Eq => CompareOp::Ne,
        CompareOp::Ne => CompareOp::Eq,
        CompareOp::Lt => CompareOp::Ge,
        CompareOp::Le => CompareOp::Gt,
        CompareOp::Gt => CompareOp::Le,
        CompareOp::Ge => CompareOp::Lt,
    }
}

/// The comparison of the same two operands written the other way round.
pub(crate) fn flip(op: CompareOp) -> CompareOp
    ensures { result ≡ flipped op }
{
    match op {
        CompareOp::Eq => CompareOp::Eq,
        CompareOp::Ne => CompareOp::Ne,
        CompareOp::Lt => CompareOp::Gt,
        CompareOp::Le => CompareOp::Ge,
        CompareOp::Gt => CompareOp::Lt,
        CompareOp::Ge => CompareOp::Le,
    }
}

/// Whether the comparison is true where the left operand stands so to the right one.
#[inline(always)]
pub(crate) fn order_passes(op: CompareOp, order: Ordering) -> bool
    ensures { result ≡ passes op order }
{
    match op {
        CompareOp::Eq => order.is_eq(),
        CompareOp::Ne => order.is_ne(),
        CompareOp::Lt => order.is_lt(),
        CompareOp::Le => order.is_le(),
        CompareOp::Gt => order.is_gt(),
        CompareOp::Ge => order.is_ge(),
    }
}

#[inline(always)]
pub(crate) fn int_passes(op: CompareOp, x: i64, y: i64) -> bool
    ensures { result ≡ passes op (int_cmp x y) }
{
    match op {
        CompareOp::Eq => x == y,
        CompareOp::Ne => x != y,
        CompareOp::Lt => x < y,
        CompareOp::Le => x <= y,
        CompareOp::Gt => x > y,
        CompareOp::Ge => x >= y,
    }
}

#[inline(always)]
pub(crate) fn uint_passes(op: CompareOp, x: u64, y: u64) -> bool
    ensures { result ≡ passes op (int_cmp (pos x) (pos y)) }
{
    match op {
        CompareOp::Eq => x == y,
        CompareOp::Ne => x != y,
        CompareOp::Lt => x < y,
        CompareOp::Le => x <= y,
        CompareOp::Gt => x > y,
        CompareOp::Ge => x >= y,
    }
}

/// Whether the comparison is true of an Int64 and a UInt64, by their exact values.
#[inline(always)]
pub(crate) fn int_uint_passes(op: CompareOp, x: i64, y: u64) -> bool
    ensures { result ≡ passes op (int_cmp x (pos y)) }
{
    if x < 0 {
        order_passes(op, Ordering::Less)
    } else {
        uint_passes(op, x as u64, y)
    }
}

pub(crate) fn number_as_wide(n: Number) -> i128
    ensures { result ≡ number_of n }
{
    if n.negative {
        -(n.size as i128)
    } else {
        n.size as i128
    }
}

#[inline(always)]
fn int_far_passes(op: CompareOp, x: i64, n: Number) -> bool
    ensures { result ≡ passes op (int_cmp x (number_of n)) }
{
    order_passes(op, (x as i128).cmp(&number_as_wide(n)))
}

#[inline(always)]
fn uint_far_passes(op: CompareOp, x: u64, n: Number) -> bool
    ensures { result ≡ passes op (int_cmp (pos x) (number_of n)) }
{
    order_passes(op, (x as i128).cmp(&number_as_wide(n)))
}

pub(crate) fn numbers_pass(op: CompareOp, n: Number, m: Number) -> bool
    ensures { result ≡ passes op (int_cmp (number_of n) (number_of m)) }
{
    order_passes(op, number_as_wide(n).cmp(&number_as_wide(m)))
}

/// Whether the comparison is true of two texts, by bytes.
pub(crate) fn text_passes(op: CompareOp, x: &[u8], y: &[u8]) -> bool
    ensures { result ≡ passes op (text_cmp x.now y.now) }
{
    order_passes(op, x.cmp(y))
}

/// The comparison at each Int64 and a plain number that no Int64 is.
pub(crate) fn int_far_mask(
    alloc: Global,
    op: CompareOp,
    xs: &[i64],
    n: Number,
) -> Result<Vec<bool>, Memory>
    ensures { IfOk result (λ v. v.items ≡ map (λ x. passes op (int_cmp x (number_of n))) xs.now) }
{
    Ok(xs.iter().map(|x| int_far_passes(op, *x, n)).collect(alloc)?)
}

/// The comparison at each UInt64 and a plain number that no UInt64 is.
pub(crate) fn uint_far_mask(
    alloc: Global,
    op: CompareOp,
    xs: &[u64],
    n: Number,
) -> Result<Vec<bool>, Memory>
    ensures { IfOk result
        (λ v. v.items ≡ map (λ x. passes op (int_cmp (pos x) (number_of n))) xs.now) }
{
    Ok(
        xs.iter()
            .map(|x| uint_far_passes(op, *x, n))
            .collect(alloc)?,
    )
}

pub(crate) fn int_mask(
    alloc: Global,
    op: CompareOp,
    xs: &[i64],
    ys: &[i64],
) -> Result<Vec<bool>, Memory>
    ensures { IfOk result
        (λ v. v.items ≡ map (λ p. passes op (int_cmp p.0 p.1)) (zip xs.now ys.now)) }
{
    each_pair!(alloc, op, xs, ys, int_passes)
}

pub(crate) fn uint_mask(
    alloc: Global,
    op: CompareOp,
    xs: &[u64],
    ys: &[u64],
) -> Result<Vec<bool>, Memory>
    ensures { IfOk result
        (λ v. v.items ≡ map (λ p. passes op (int_cmp (pos p.0) (pos p.1))) (zip xs.now ys.now)) }
{
    each_pair!(alloc, op, xs, ys, uint_passes)
}

pub(crate) fn int_uint_mask(
    alloc: Global,
    op: CompareOp,
    xs: &[i64],
    ys: &[u64],
) -> Result<Vec<bool>, Memory>
    ensures { IfOk result
        (λ v. v.items ≡ map (λ p. passes op (int_cmp p.0 (pos p.1))) (zip xs.now ys.now)) }
{
    each_pair!(alloc, op, xs, ys, int_uint_passes)
}

pub(crate) fn int_mask_beside(
    alloc: Global,
    op: CompareOp,
    xs: &[i64],
    y: i64,
) -> Result<Vec<bool>, Memory>
    ensures { IfOk result (λ v. v.items ≡ map (λ x. passes op (int_cmp x y)) xs.now) }
{
    each_beside!(alloc, op, xs, y, int_passes)
}

pub(crate) fn uint_mask_beside(
    alloc: Global,
    op: CompareOp,
    xs: &[u64],
    y: u64,
) -> Result<Vec<bool>, Memory>
    ensures { IfOk result (λ v. v.items ≡ map (λ x. passes op (int_cmp (pos x) (pos y))) xs.now) }
{
    each_beside!(alloc, op, xs, y, uint_passes)
}

pub(crate) fn text_mask_beside(
    alloc: Global,
    op: CompareOp,
    xs: &Texts,
    y: &[u8],
) -> Result<Vec<bool>, Memory>
    ensures { IfOk result (λ v. v.items ≡ map (λ x. passes op (text_cmp x y.now)) xs.now) }
{
    let mut mask = Vec::new(alloc);
    mask.try_reserve(xs.len())?;
    for i in 0..xs.len() {
        mask.push(text_passes(op, xs.get(i), y))?;
    }
    Ok(mask)
}

pub(crate) fn text_mask(
    alloc: Global,
    op: CompareOp,
    xs: &Texts,
    ys: &Texts,
) -> Result<Vec<bool>, Memory>
    requires { length ys.now ≡ length xs.now }
    ensures { IfOk result
        (λ v. v.items ≡ map (λ p. passes op (text_cmp p.0 p.1)) (zip xs.now ys.now)) }
{
    let mut mask = Vec::new(alloc);
    mask.try_reserve(xs.len())?;
    for i in 0..xs.len() {
        mask.push(text_passes(op, xs.get(i), ys.get(i)))?;
    }
    Ok(mask)
}

fn both_onto(mask: &mut [bool], other: &[bool])
    requires { length other.now ≡ length mask.old }
    ensures { mask.new ≡ map (λ p. p.0 && p.1) (zip mask.old other.now) }
{
    for i in 0..mask.len() {
        mask[i] = mask[i] & other[i];
    }
}

fn either_onto(mask: &mut [bool], other: &[bool])
    requires { length other.now ≡ length mask.old }
    ensures { mask.new ≡ map (λ p. p.0 || p.1) (zip mask.old other.now) }
{
    for i in 0..mask.len() {
        mask[i] = mask[i] | other[i];
    }
}

fn negate_onto(mask: &mut [bool])
    ensures { mask.new ≡ map (λ m. not m) mask.old }
{
    for i in 0..mask.len() {
        mask[i] = !mask[i];
    }
}

/// The conjunction of two masks, in the first one's memory.
pub(crate) fn both(mut mask: Vec<bool>, other: &[bool]) -> Vec<bool>
    requires { length other.now ≡ length mask.items }
    ensures { result.items ≡ map (λ p. p.0 && p.1) (zip mask.items other.now) }
{
    both_onto(&mut mask, other);
    mask
}

/// The disjunction of two masks, in the first one's memory.
pub(crate) fn either(mut mask: Vec<bool>, other: &[bool]) -> Vec<bool>
    requires { length other.now ≡ length mask.items }
    ensures { result.items ≡ map (λ p. p.0 || p.1) (zip mask.items other.now) }
{
    either_onto(&mut mask, other);
    mask
}

/// What two masks have in common where `all` says so, else what is in either, in the first one's
/// memory.
pub(crate) fn both_or_either(all: bool, mask: Vec<bool>, other: &[bool]) -> Vec<bool>
    requires { length other.now ≡ length mask.items }
    ensures { result.items ≡ map (λ p. truth_of_both all p.0 p.1) (zip mask.items other.now) }
{
    if all {
        both(mask, other)
    } else {
        either(mask, other)
    }
}

/// The negation of a mask, in its memory.
pub(crate) fn negated(mut mask: Vec<bool>) -> Vec<bool>
    ensures { result.items ≡ map (λ m. not m) mask.items }
{
    negate_onto(&mut mask);
    mask
}

pub(crate) fn filled(alloc: Global, truth: bool, n: usize) -> Result<Vec<bool>, Memory>
    ensures { IfOk result (λ m. m.items ≡ replicate n truth) }
{
    let mask = vec![in alloc; truth; n]?;
    Ok(mask)
}
