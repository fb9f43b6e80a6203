// Copies of conditions and items, in boxes of their own.
ghost use Rattle.std.specs.Prelude.{◌≡◌, map, IfOk};
ghost use Rattle.query_model.specs.Formulas.{argument_form, cond_form, formula, operand_form};
ghost use Rattle.query_model.specs.declared.query.CondOf.TheVariants as condition;

use chunk_data::{List, Memory};
use query_model::checked::{Cond, Expr};
use query_model::plain::{boxed_cond, copy_expr};
use query_model::processor_spec::{GroupSpec, SortSpec};
use query_model::query::{AggCall, CompareOp, CondOf, Operand};
use std::alloc::{AllocError, Global};

/// The same condition in boxes of its own.
pub(crate) fn copy_cond(alloc: Global, cond: &Cond) -> Result<Cond, Memory>
    ensures { IfOk result (λ copy. cond_form copy ≡ cond_form cond.now) }
{
    match cond {
        CondOf::Compare(op, a, b) => copy_comparison(alloc, *op, a, b),
        CondOf::And(a, b) => Ok(CondOf::And(
            boxed_cond(alloc, copy_cond(alloc, a)?)?,
            boxed_cond(alloc, copy_cond(alloc, b)?)?,
        )),
        CondOf::Or(a, b) => Ok(CondOf::Or(
            boxed_cond(alloc, copy_cond(alloc, a)?)?,
            boxed_cond(alloc, copy_cond(alloc, b)?)?,
        )),
        CondOf::Not(a) => Ok(CondOf::Not(boxed_cond(alloc, copy_cond(alloc, a)?)?)),
        CondOf::IsNull(a) => copy_null_test(alloc, a),
    }
}

// Apart from the recursion, whose frames are to be small: texts nest a thousand conditions.
#[inline(never)]
fn copy_comparison(
    alloc: Global,
    op: CompareOp,
    a: &Operand<u32>,
    b: &Operand<u32>,
) -> Result<Cond, Memory>
    ensures { IfOk result (λ copy. cond_form copy ≡ cond_form (condition.Compare op a.now b.now)) }
{
    let left = copy_operand(alloc, a)?;
    let right = copy_operand(alloc, b)?;
    Ok(CondOf::Compare(op, left, right))
}

// IS NULL, apart from the recursion as well.
#[inline(never)]
fn copy_null_test(alloc: Global, operand: &Operand<u32>) -> Result<Cond, Memory>
    ensures { IfOk result (λ copy. cond_form copy ≡ cond_form (condition.IsNull operand.now)) }
{
    Ok(CondOf::IsNull(copy_operand(alloc, operand)?))
}

fn copy_operand(alloc: Global, operand: &Operand<u32>) -> Result<Operand<u32>, Memory>
    ensures { IfOk result (λ copy. operand_form copy ≡ operand_form operand.now) }
{
    match operand {
        Operand::Plain(e) => Ok(Operand::Plain(copy_expr(alloc, e)?)),
        Operand::Text(text) => Ok(Operand::Text(text.copy()?)),
        Operand::Agg(call) => {
            let arg = copy_argument(alloc, &call.arg)?;
            Ok(Operand::Agg(AggCall { op: call.op, arg }))
        }
        Operand::Null => Ok(Operand::Null),
    }
}

fn copy_argument(alloc: Global, arg: &Option<Expr>) -> Result<Option<Expr>, Memory>
    ensures { IfOk result (λ copy. argument_form copy ≡ argument_form arg.now) }
{
    match arg {
        None => Ok(None),
        Some(e) => Ok(Some(copy_expr(alloc, e)?)),
    }
}

/// The same order in lists of its own.
pub(crate) fn copy_order(order: &SortSpec) -> Result<SortSpec, Memory>
    ensures { IfOk result (λ copy. copy ≡ order.now) }
{
    Ok(SortSpec {
        keys: order.keys.copy()?,
        types: order.types.copy()?,
        rows: order.rows,
    })
}

/// The same groups in lists of their own.
pub(crate) fn copy_groups(groups: &GroupSpec) -> Result<GroupSpec, Memory>
    ensures { IfOk result (λ copy. copy ≡ groups.now) }
{
    Ok(GroupSpec {
        keys: groups.keys.copy()?,
        calls: groups.calls.copy()?,
        lone: groups.lone,
        rows: groups.rows,
    })
}

/// The same items in boxes of their own.
pub(crate) fn copy_items(alloc: Global, items: &List<Expr>) -> Result<List<Expr>, Memory>
    ensures { IfOk result (λ copy. map formula copy ≡ map formula items.now) }
{
    let mut copies = Vec::new(alloc);
    for item in items.as_slice() {
        let copy = copy_expr(alloc, item)?;
        copies.push(copy)?;
    }
    Ok(List::from_vec(copies))
}
