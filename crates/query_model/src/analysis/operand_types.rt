// What expressions are, and whether types fit.
ghost use Rattle.std.specs.Prelude.{◌≡◌, option_map};
ghost use Rattle.std.specs.List.{list_all};
ghost use Rattle.query_model.specs.Names.{number_of, arith_typing as typing_of_arith, known_typing as typing_known, expr_typing as typing_of_expr, call_typing as typing_of_call, agg_typing as typing_of_agg, operand_typing as typing_of_operand, item_typing as typing_of_item, comparable as are_comparable, has_null_test as may_be_tested, cond_fits as fits, fits_where, is_typed as has_type, argument_form, as_typing, cond_form, formula, item_what, query_tree, operand_form, types_fit as all_types_fit};

use crate::analysis::columns::FromColumn;
use crate::analysis::names::{listed_items, meant_type};
use crate::plain::{arith_type, can_hold};
use crate::query::{
    AggCall, AggOp, ArithOp, ColumnRef, CondOf, ExprOf, Item, ItemKind, Number, Operand, Query,
};
use chunk_data::ColumnType;

/// What an operand is: a plain number, a value of a type, NULL, or none of them, where types don't
/// fit.
#[derive(Clone, Copy, PartialEq, Eq)]
pub(crate) enum ExprTyping {
    Plain(Number),
    Typed(ColumnType),
    Null,
    Unfit,
}

fn typed_arith(op: ArithOp, s: ColumnType, t: ColumnType) -> ExprTyping
    ensures { as_typing result
        ≡ typing_of_arith op (as_typing (ExprTyping.Typed s)) (as_typing (ExprTyping.Typed t)) }
{
    if s.is_alike(t) && !s.is_text() {
        ExprTyping::Typed(arith_type(op, s, t))
    } else {
        ExprTyping::Unfit
    }
}

fn arith_beside(op: ArithOp, t: ColumnType, n: Number) -> ExprTyping
    ensures { as_typing result
        ≡ typing_of_arith op (as_typing (ExprTyping.Typed t)) (as_typing (ExprTyping.Plain n)) }
{
    if can_hold(t, n) {
        ExprTyping::Typed(arith_type(op, t, t))
    } else {
        ExprTyping::Unfit
    }
}

fn arith_typing(op: ArithOp, a: ExprTyping, b: ExprTyping) -> ExprTyping
    ensures { as_typing result ≡ typing_of_arith op (as_typing a) (as_typing b) }
{
    match a {
        ExprTyping::Typed(s) => match b {
            ExprTyping::Typed(t) => typed_arith(op, s, t),
            ExprTyping::Plain(n) => arith_beside(op, s, n),
            ExprTyping::Null | ExprTyping::Unfit => ExprTyping::Unfit,
        },
        ExprTyping::Plain(n) => match b {
            ExprTyping::Typed(t) => arith_beside(op, t, n),
            ExprTyping::Plain(_) | ExprTyping::Null | ExprTyping::Unfit => ExprTyping::Unfit,
        },
        ExprTyping::Null | ExprTyping::Unfit => ExprTyping::Unfit,
    }
}

fn known_typing(kind: Option<ColumnType>) -> ExprTyping
    ensures { as_typing result ≡ typing_known kind }
{
    match kind {
        Some(t) => ExprTyping::Typed(t),
        None => ExprTyping::Unfit,
    }
}

#[tactic(auto, unfolding(crate::specs::Refusals::expr_typing))]
pub(crate) fn expr_typing(e: &ExprOf<ColumnRef>, columns: &[FromColumn]) -> ExprTyping
    ensures { as_typing result ≡ typing_of_expr columns.now (formula e.now) }
{
    match e {
        ExprOf::Column(c) => known_typing(meant_type(c, columns)),
        ExprOf::Number(n) => ExprTyping::Plain(*n),
        ExprOf::Arith(op, a, b) => {
            let left = expr_typing(a, columns);
            let right = expr_typing(b, columns);
            arith_typing(*op, left, right)
        }
    }
}

fn call_typing(op: AggOp, argument: ExprTyping) -> ExprTyping
    ensures { as_typing result ≡ typing_of_call op (as_typing argument) }
{
    match op {
        AggOp::Count => ExprTyping::Typed(ColumnType::UInt64),
        AggOp::Sum => match argument {
            ExprTyping::Typed(t) => summed_typing(t),
            ExprTyping::Plain(_) | ExprTyping::Null | ExprTyping::Unfit => ExprTyping::Unfit,
        },
        AggOp::Min | AggOp::Max => typed_or_unfit(argument),
    }
}

/// What a sum is over values of a type; texts have none.
fn summed_typing(t: ColumnType) -> ExprTyping
    ensures { as_typing result ≡ typing_of_call AggOp.Sum (as_typing (ExprTyping.Typed t)) }
{
    if t.is_text() {
        ExprTyping::Unfit
    } else {
        ExprTyping::Typed(t)
    }
}

fn typed_or_unfit(kind: ExprTyping) -> ExprTyping
    ensures { as_typing result ≡ typing_of_call AggOp.Max (as_typing kind) }
{
    match kind {
        ExprTyping::Typed(t) => ExprTyping::Typed(t),
        ExprTyping::Plain(_) | ExprTyping::Null | ExprTyping::Unfit => ExprTyping::Unfit,
    }
}

fn agg_typing(call: &AggCall<ColumnRef>, columns: &[FromColumn]) -> ExprTyping
    ensures { as_typing result
        ≡ typing_of_agg columns.now call.now.op (argument_form call.now.arg) }
{
    match &call.arg {
        Some(e) => call_typing(call.op, expr_typing(e, columns)),
        None => ExprTyping::Typed(ColumnType::UInt64),
    }
}

fn operand_typing(operand: &Operand<ColumnRef>, columns: &[FromColumn]) -> ExprTyping
    ensures { as_typing result ≡ typing_of_operand columns.now (operand_form operand.now) }
{
    match operand {
        Operand::Plain(e) => expr_typing(e, columns),
        Operand::Text(_) => ExprTyping::Typed(ColumnType::Text),
        Operand::Agg(call) => agg_typing(call, columns),
        Operand::Null => ExprTyping::Null,
    }
}

/// Whether IS NULL may be asked of the operand, which is neither a plain number nor a string.
fn has_null_test(operand: &Operand<ColumnRef>, columns: &[FromColumn]) -> bool
    ensures { result ≡ may_be_tested columns.now (operand_form operand.now) }
{
    match operand {
        Operand::Plain(e) => is_typed(expr_typing(e, columns)),
        Operand::Text(_) => false,
        Operand::Agg(call) => is_typed(agg_typing(call, columns)),
        Operand::Null => true,
    }
}

/// Whether the two may be compared: texts with texts, numbers with numbers, and NULL with all.
fn comparable(a: ExprTyping, b: ExprTyping) -> bool
    ensures { result ≡ are_comparable (as_typing a) (as_typing b) }
{
    match a {
        ExprTyping::Typed(s) => match b {
            ExprTyping::Typed(t) => s.is_text() == t.is_text(),
            ExprTyping::Plain(_) => !s.is_text(),
            ExprTyping::Null => true,
            ExprTyping::Unfit => false,
        },
        ExprTyping::Plain(_) => match b {
            ExprTyping::Typed(t) => !t.is_text(),
            ExprTyping::Plain(_) | ExprTyping::Null => true,
            ExprTyping::Unfit => false,
        },
        ExprTyping::Null => match b {
            ExprTyping::Typed(_) | ExprTyping::Plain(_) | ExprTyping::Null => true,
            ExprTyping::Unfit => false,
        },
        ExprTyping::Unfit => false,
    }
}

#[tactic(auto, unfolding(crate::specs::Refusals::cond_fits))]
fn cond_fits(cond: &CondOf<ColumnRef>, columns: &[FromColumn]) -> bool
    ensures { result ≡ fits columns.now (cond_form cond.now) }
{
    match cond {
        CondOf::Compare(_, a, b) => {
            let left = operand_typing(a, columns);
            let right = operand_typing(b, columns);
            comparable(left, right)
        }
        CondOf::And(a, b) | CondOf::Or(a, b) => cond_fits(a, columns) && cond_fits(b, columns),
        CondOf::Not(a) => cond_fits(a, columns),
        CondOf::IsNull(a) => has_null_test(a, columns),
    }
}

fn filter_fits(filter: &Option<CondOf<ColumnRef>>, columns: &[FromColumn]) -> bool
    ensures { result ≡ fits_where columns.now (option_map cond_form filter.now) }
{
    match filter {
        Some(cond) => cond_fits(cond, columns),
        None => true,
    }
}

fn is_typed(kind: ExprTyping) -> bool
    ensures { result ≡ has_type (as_typing kind) }
{
    matches!(kind, ExprTyping::Typed(_))
}

pub(crate) fn item_typing(item: &Item, columns: &[FromColumn]) -> ExprTyping
    ensures { as_typing result ≡ typing_of_item columns.now (item_what item.now.what) }
{
    match &item.what {
        ItemKind::Plain(e) => expr_typing(e, columns),
        ItemKind::Agg(call) => agg_typing(call, columns),
    }
}

fn item_fits(item: &Item, columns: &[FromColumn]) -> bool
    ensures { result ≡ has_type (typing_of_item columns.now (item_what item.now.what)) }
{
    is_typed(item_typing(item, columns))
}

fn items_fit(items: &[Item], columns: &[FromColumn]) -> bool
    ensures { result
        ≡ list_all (λ (i : Item). has_type (typing_of_item columns.now (item_what i.what)))
        items.now }
{
    items.iter().all(|item| item_fits(item, columns))
}

#[tactic(auto, using(crate::proofs::Accepted::all_listed))]
pub(crate) fn types_fit(query: &Query, columns: &[FromColumn]) -> bool
    ensures { result ≡ all_types_fit columns.now (query_tree query.now) }
{
    items_fit(listed_items(&query.items), columns)
        && filter_fits(&query.filter, columns)
        && filter_fits(&query.having, columns)
}
