// Expressions and conditions.
ghost use Rattle.std.specs.Prelude.{◌≡◌, ℕ, suc, ◌+◌, ◌<◌, ◌≤◌, length, List, Some, None, option_map, OnOk, IfOk};
ghost use Rattle.query_model.specs.Formulas.{call_form, cond_form, formula, number, operand_form, plain};
ghost use Rattle.sql_grammar.specs.declared.Token.{Token};
ghost use Rattle.sql_grammar.specs.Names.{QueryOperand};
ghost use Rattle.sql_text.specs.Answers.{ParseGives};
ghost use Rattle.sql_text.specs.Terms.{side, truth, part_form, row_form, group_form, sign_joint, keyword_operator, operator_of, level, operator_level, next_operator, SideRules, binary_of, side_of, row_sides, group_sides, plain_side, plain_operand, condition_of, column_at, behind_bracket, closed_at, count_at, call_over, call_front, call_at, negation_at, null_test_at, first_term, turn_of, joined, part_at};

use crate::parse_error::{ParseError, next_token};
use crate::tables::dotted_at;
use chunk_data::Bytes;
use query_model::query::{
    AggCall, AggOp, ArithOp, ColumnRef, CompareOp, CondOf, ExprOf, Number, Operand,
};
use sql_grammar::{Keyword, Sign, Token, aggregate_of};
use std::alloc::Global;

/// The least level of the operators of a condition, of a comparison, and of an expression.
pub const CONDITION: u8 = 1;

pub const COMPARISON: u8 = 4;

pub const EXPRESSION: u8 = 5;

// What joins two parts.
#[derive(Clone, Copy)]
pub enum BinaryOperator {
    Arith(ArithOp),
    Compare(CompareOp),
    And,
    Or,
}

// What stands behind a part: what joins another to it, or IS, behind which NULL or NOT NULL stands.
#[derive(Clone, Copy)]
pub enum Operator {
    Binary(BinaryOperator),
    Is,
}

/// What may stand at a side of a comparison or of IS in a clause, and how it is read.
pub trait ConditionSide: Drop {
    // A side apart from where its boxes lie, and what is told of sides.
    ghost form: { Self → QueryOperand };

    ghost rules: { SideRules QueryOperand };

    /// The side at the front, where neither NOT nor a parenthesis does, and the tokens behind it.
    /// `depth` is that of `part_at`.
    fn side_at(
        alloc: Global,
        tokens: &[Token],
        depth: usize,
    ) -> Result<(Self, &[Token]), ParseError>
        ensures { ParseGives (λ p. (form p.0, p.1.now)) result (rules.first depth tokens.now) };

    fn calculated(alloc: Global, op: ArithOp, left: Self, right: Self) -> Result<Self, ParseError>
        ensures { ParseGives form result (rules.calculated op (form left) (form right)) };

    fn encloses(side: &Self) -> bool
        ensures { result ≡ rules.encloses (form side.now) };

    fn operand_of(side: Self) -> Operand<ColumnRef>
        ensures { operand_form result ≡ form side };
}

/// A side in WHERE and in the items of SELECT, or a part of one.
#[derive(Drop)]
pub enum RowSide {
    Plain(Box<ExprOf<ColumnRef>>),
    Text(Bytes),
    Null,
}

/// A side in HAVING: a column, a plain number, a string or NULL, or a call.
#[derive(Drop)]
pub enum GroupSide {
    Row(RowSide),
    Call(Box<AggCall<ColumnRef>>),
}

// A part of an expression or a condition. It is small, since the reading of nested parts holds many
// of them on the stack.
#[derive(Drop)]
pub enum Term<S> {
    Side(S),
    Condition(Box<CondOf<ColumnRef>>),
}

fn sign_joint(sign: Sign) -> Option<BinaryOperator>
    ensures { result ≡ sign_joint sign }
{
    match sign {
        Sign::Plus => Some(BinaryOperator::Arith(ArithOp::Add)),
        Sign::Minus => Some(BinaryOperator::Arith(ArithOp::Sub)),
        Sign::Star => Some(BinaryOperator::Arith(ArithOp::Mul)),
        Sign::Equal => Some(BinaryOperator::Compare(CompareOp::Eq)),
        Sign::NotEqual => Some(BinaryOperator::Compare(CompareOp::Ne)),
        Sign::Less => Some(BinaryOperator::Compare(CompareOp::Lt)),
        Sign::LessEqual => Some(BinaryOperator::Compare(CompareOp::Le)),
        Sign::Greater => Some(BinaryOperator::Compare(CompareOp::Gt)),
        Sign::GreaterEqual => Some(BinaryOperator::Compare(CompareOp::Ge)),
        Sign::Open | Sign::Close | Sign::Comma | Sign::Dot | Sign::Semicolon => None,
    }
}

fn keyword_operator(keyword: Keyword) -> Option<Operator>
    ensures { result ≡ keyword_operator keyword }
{
    match keyword {
        Keyword::And => Some(Operator::Binary(BinaryOperator::And)),
        Keyword::Or => Some(Operator::Binary(BinaryOperator::Or)),
        Keyword::Is => Some(Operator::Is),
        _ => None,
    }
}

fn operator_of(token: &Token) -> Option<Operator>
    ensures { result ≡ operator_of token.now }
{
    match token {
        Token::Sign(sign) => Some(Operator::Binary(sign_joint(*sign)?)),
        Token::Keyword(keyword) => keyword_operator(*keyword),
        Token::Name(_) | Token::Number(_) | Token::LargeNumber | Token::Text(_) => None,
    }
}

// How tightly a binary operator binds; NOT stands between AND and the comparisons.
fn level(joint: BinaryOperator) -> u8
    ensures is { result ≡ level joint }
    ensures bound { result ≤ 6 }
{
    match joint {
        BinaryOperator::Or => 1,
        BinaryOperator::And => 2,
        BinaryOperator::Compare(_) => 4,
        BinaryOperator::Arith(ArithOp::Add | ArithOp::Sub) => 5,
        BinaryOperator::Arith(ArithOp::Mul) => 6,
    }
}

fn level_above(joint: BinaryOperator) -> u8
    ensures is { result ≡ suc (level joint) }
    ensures bound { result ≤ 7 }
{
    level(joint) + 1
}

// IS binds as a comparison does.
fn operator_level(operator: Operator) -> u8
    ensures { result ≡ operator_level operator }
{
    match operator {
        Operator::Binary(joint) => level(joint),
        Operator::Is => COMPARISON,
    }
}

// The operator at the front, where it binds at least so tightly, and the tokens behind it.
fn next_operator(least: u8, tokens: &[Token]) -> Option<(Operator, &[Token])>
    ensures { option_map (λ p. (p.0, p.1.now)) result ≡ next_operator least tokens.now }
{
    let (token, rest) = tokens.split_first()?;
    let operator = operator_of(token)?;
    if least <= operator_level(operator) {
        Some((operator, rest))
    } else {
        None
    }
}

fn side_of<S: ConditionSide>(part: Term<S>) -> Result<S, ParseError>
    ensures { ParseGives S.form result (side_of (part_form S.form part)) }
{
    match part {
        Term::Side(s) => Ok(s),
        Term::Condition(_) => Err(ParseError::Syntax),
    }
}

pub fn condition_of<S: ConditionSide>(part: Term<S>) -> Result<Box<CondOf<ColumnRef>>, ParseError>
    ensures { ParseGives (λ c. cond_form c.value) result (condition_of (part_form S.form part)) }
{
    match part {
        Term::Condition(c) => Ok(c),
        Term::Side(_) => Err(ParseError::Syntax),
    }
}

fn plain_side(side: RowSide) -> Result<Box<ExprOf<ColumnRef>>, ParseError>
    ensures { ParseGives (λ e. formula e.value) result (plain_side (row_form side)) }
{
    match side {
        RowSide::Plain(e) => Ok(e),
        RowSide::Text(_) | RowSide::Null => Err(ParseError::Syntax),
    }
}

pub fn plain_of(part: Term<RowSide>) -> Result<Box<ExprOf<ColumnRef>>, ParseError>
    ensures { ParseGives (λ e. formula e.value) result (plain_operand (part_form row_form part)) }
{
    plain_side(side_of(part)?)
}

fn expression_side(alloc: Global, expr: ExprOf<ColumnRef>) -> Result<RowSide, ParseError>
    ensures { ParseGives row_form result (Some (plain (formula expr))) }
{
    Ok(RowSide::Plain(Box::new(alloc, expr)?))
}

fn condition_part<S: ConditionSide>(
    alloc: Global,
    condition: CondOf<ColumnRef>,
) -> Result<Term<S>, ParseError>
    ensures { ParseGives (part_form S.form) result (Some (truth (cond_form condition))) }
{
    Ok(Term::Condition(Box::new(alloc, condition)?))
}

// What the binary operator makes of two parts.
fn combined<S: ConditionSide>(
    alloc: Global,
    joint: BinaryOperator,
    left: Term<S>,
    right: Term<S>,
) -> Result<Term<S>, ParseError>
    ensures { ParseGives (part_form S.form) result
        (binary_of S.rules joint (part_form S.form left) (part_form S.form right)) }
{
    match joint {
        BinaryOperator::Arith(op) => {
            let a = side_of(left)?;
            let b = side_of(right)?;
            Ok(Term::Side(S::calculated(alloc, op, a, b)?))
        }
        BinaryOperator::Compare(op) => {
            let a = S::operand_of(side_of(left)?);
            let b = S::operand_of(side_of(right)?);
            condition_part(alloc, CondOf::Compare(op, a, b))
        }
        BinaryOperator::And => {
            let a = condition_of(left)?;
            let b = condition_of(right)?;
            condition_part(alloc, CondOf::And(a, b))
        }
        BinaryOperator::Or => {
            let a = condition_of(left)?;
            let b = condition_of(right)?;
            condition_part(alloc, CondOf::Or(a, b))
        }
    }
}

// The column that begins with the name, and the tokens behind it.
fn column_at<'a>(
    alloc: Global,
    name: &Bytes,
    tokens: &'a [Token],
) -> Result<(RowSide, &'a [Token]), ParseError>
    ensures { ParseGives (λ p. (row_form p.0, p.1.now)) result
        (Some (column_at name.now tokens.now)) }
{
    let (column, rest) = dotted_at(name.copy()?, tokens)?;
    Ok((expression_side(alloc, ExprOf::Column(column))?, rest))
}

fn number_side(alloc: Global, negative: bool, size: u64) -> Result<RowSide, ParseError>
    ensures { ParseGives row_form result
        (Some (plain (number (record { negative = negative; size = size })))) }
{
    expression_side(alloc, ExprOf::Number(Number { negative, size }))
}

fn after_close(tokens: &[Token]) -> Result<&[Token], ParseError>
    ensures { ParseGives (λ rest. rest.now) result (behind_bracket tokens.now) }
{
    let (token, rest) = next_token(tokens)?;
    match token {
        Token::Sign(Sign::Close) => Ok(rest),
        _ => Err(ParseError::Syntax),
    }
}

fn closed_at<S: ConditionSide>(
    part: Term<S>,
    tokens: &[Token],
) -> Result<(Term<S>, &[Token]), ParseError>
    ensures { ParseGives (λ p. (part_form S.form p.0, p.1.now)) result
        (closed_at S.rules (part_form S.form part) tokens.now) }
{
    match part {
        Term::Side(s) => {
            if S::encloses(&s) {
                Ok((Term::Side(s), after_close(tokens)?))
            } else {
                Err(ParseError::Syntax)
            }
        }
        Term::Condition(c) => Ok((Term::Condition(c), after_close(tokens)?)),
    }
}

// What `count` is called with, behind the first parenthesis: nothing, or a star.
fn count_at(tokens: &[Token]) -> Result<(AggCall<ColumnRef>, &[Token]), ParseError>
    ensures { ParseGives (λ p. (call_form p.0, p.1.now)) result (count_at tokens.now) }
{
    let count = AggCall {
        op: AggOp::Count,
        arg: None,
    };
    match tokens {
        [Token::Sign(Sign::Close), ..] => Ok((count, &tokens[1..])),
        [Token::Sign(Sign::Star), Token::Sign(Sign::Close), ..] => Ok((count, &tokens[2..])),
        _ => Err(ParseError::Syntax),
    }
}

fn call_over(
    op: AggOp,
    part: Term<RowSide>,
    tokens: &[Token],
) -> Result<(AggCall<ColumnRef>, &[Token]), ParseError>
    ensures { ParseGives (λ p. (call_form p.0, p.1.now)) result
        (call_over op (Some (part_form row_form part, tokens.now))) }
{
    let e = plain_of(part)?;
    let rest = after_close(tokens)?;
    let arg = Some(Box::into_inner(e));
    Ok((AggCall { op, arg }, rest))
}

/// The aggregate that is called at the front, and the tokens behind its parenthesis.
pub fn call_front(tokens: &[Token]) -> Option<(AggOp, &[Token])>
    ensures { option_map (λ p. (p.0, p.1.now)) result ≡ call_front tokens.now }
{
    match tokens {
        [Token::Name(word), Token::Sign(Sign::Open), ..] => {
            Some((aggregate_of(word.as_slice())?, &tokens[2..]))
        }
        _ => None,
    }
}

fn negated<S: ConditionSide>(alloc: Global, part: Term<S>) -> Result<Term<S>, ParseError>
    ensures { (rest : List Token) → ParseGives (λ p. (part_form S.form p, rest)) result
        (negation_at (part_form S.form part) rest) }
{
    match part {
        Term::Condition(c) => condition_part(alloc, CondOf::Not(c)),
        Term::Side(_) => Err(ParseError::Syntax),
    }
}

// The operand in front of IS, tested by what stands behind that.
#[inline(never)]
fn null_test_at<S: ConditionSide>(
    alloc: Global,
    part: Term<S>,
    tokens: &[Token],
) -> Result<(Term<S>, &[Token]), ParseError>
    ensures { ParseGives (λ p. (part_form S.form p.0, p.1.now)) result
        (null_test_at (part_form S.form part) tokens.now) }
{
    let operand = S::operand_of(side_of(part)?);
    match tokens {
        [Token::Keyword(Keyword::Null), ..] => {
            let test = condition_part(alloc, CondOf::IsNull(operand))?;
            Ok((test, &tokens[1..]))
        }
        [
            Token::Keyword(Keyword::Not),
            Token::Keyword(Keyword::Null),
            ..
        ] => {
            let test = Box::new(alloc, CondOf::IsNull(operand))?;
            Ok((condition_part(alloc, CondOf::Not(test))?, &tokens[2..]))
        }
        _ => Err(ParseError::Syntax),
    }
}

// A part without operators behind it: a side, what stands in parentheses, or a negation. What a
// level of nested parts needs only beside the level below it stands in frames of its own.
#[inline(never)]
#[cycle(part)]
fn first_term<S: ConditionSide>(
    alloc: Global,
    tokens: &[Token],
    depth: usize,
) -> Result<(Term<S>, &[Token]), ParseError>
    ensures { ParseGives (λ p. (part_form S.form p.0, p.1.now)) result
        (first_term S.rules depth (part_at S.rules depth) tokens.now) }
{
    match tokens {
        [Token::Keyword(Keyword::Not), ..] => {
            let (part, rest) = part_at(alloc, COMPARISON, &tokens[1..], depth)?;
            Ok((negated(alloc, part)?, rest))
        }
        [Token::Sign(Sign::Open), ..] => {
            let (part, rest) = part_at(alloc, CONDITION, &tokens[1..], depth)?;
            closed_at(part, rest)
        }
        _ => {
            let (side, rest) = S::side_at(alloc, tokens, depth)?;
            Ok((Term::Side(side), rest))
        }
    }
}

/// The part at the front whose operators bind at least so tightly, and the tokens behind it.
/// `depth` bounds how deep parts stand in parts; the count of the tokens is always enough.
#[cycle(part)]
#[tactic(auto, using(crate::proofs::Turns::no_depth, crate::proofs::Turns::part_goes))]
pub fn part_at<S: ConditionSide>(
    alloc: Global,
    least: u8,
    tokens: &[Token],
    depth: usize,
) -> Result<(Term<S>, &[Token]), ParseError>
    ensures { ParseGives (λ p. (part_form S.form p.0, p.1.now)) result
        (part_at S.rules depth least tokens.now) }
{
    if depth == 0 {
        return Err(ParseError::Syntax);
    }
    let (first, rest) = first_term(alloc, tokens, depth - 1)?;
    joined(alloc, least, first, rest, depth - 1)
}

// What the operator makes of the part at the left.
#[cycle(part)]
fn turn_of<S: ConditionSide>(
    alloc: Global,
    operator: Operator,
    left: Term<S>,
    tokens: &[Token],
    depth: usize,
) -> Result<(Term<S>, &[Token]), ParseError>
    ensures { ParseGives (λ p. (part_form S.form p.0, p.1.now)) result
        (turn_of S.rules (part_at S.rules depth) operator (part_form S.form left) tokens.now) }
{
    match operator {
        Operator::Binary(joint) => {
            let (right, rest) = part_at(alloc, level_above(joint), tokens, depth)?;
            Ok((combined(alloc, joint, left, right)?, rest))
        }
        Operator::Is => null_test_at(alloc, left, tokens),
    }
}

// What all operators as tight as `least` make of the part at the left.
#[inline(never)]
#[cycle(part)]
#[tactic(auto, using(crate::proofs::Turns::turn, crate::proofs::Turns::no_turn, crate::proofs::Turns::no_turns, crate::proofs::Turns::end_of_turns, crate::proofs::Turns::fault_goes))]
fn joined<S: ConditionSide>(
    alloc: Global,
    least: u8,
    first: Term<S>,
    tokens: &[Token],
    depth: usize,
) -> Result<(Term<S>, &[Token]), ParseError>
    ensures { ParseGives (λ p. (part_form S.form p.0, p.1.now)) result
        (joined S.rules (part_at S.rules depth) least (suc (length tokens.now))
        (part_form S.form first) tokens.now) }
{
    let mut part = first;
    let mut rest = tokens;
    // Each turn takes a token, so these are enough.
    for _turn in 0..tokens.len() + 1 {
        match next_operator(least, rest) {
            None => return Ok((part, rest)),
            Some((operator, behind)) => match turn_of(alloc, operator, part, behind, depth) {
                Ok((next, after)) => {
                    part = next;
                    rest = after;
                }
                Err(error) => return Err(error),
            },
        }
    }
    Err(ParseError::Syntax)
}

impl ConditionSide for RowSide {
    ghost form = { row_form };

    ghost rules = { row_sides };

    #[inline(never)]
    fn side_at(
        alloc: Global,
        tokens: &[Token],
        _: usize,
    ) -> Result<(RowSide, &[Token]), ParseError> {
        match tokens {
            [Token::Name(name), ..] => column_at(alloc, name, &tokens[1..]),
            [Token::Number(size), ..] => Ok((number_side(alloc, false, *size)?, &tokens[1..])),
            [Token::Sign(Sign::Minus), Token::Number(size), ..] => {
                Ok((number_side(alloc, true, *size)?, &tokens[2..]))
            }
            [Token::Text(text), ..] => Ok((RowSide::Text(text.copy()?), &tokens[1..])),
            [Token::Keyword(Keyword::Null), ..] => Ok((RowSide::Null, &tokens[1..])),
            _ => Err(ParseError::Syntax),
        }
    }

    fn calculated(
        alloc: Global,
        op: ArithOp,
        left: RowSide,
        right: RowSide,
    ) -> Result<RowSide, ParseError> {
        let a = plain_side(left)?;
        let b = plain_side(right)?;
        expression_side(alloc, ExprOf::Arith(op, a, b))
    }

    fn encloses(side: &RowSide) -> bool {
        matches!(side, RowSide::Plain(_))
    }

    fn operand_of(side: RowSide) -> Operand<ColumnRef> {
        match side {
            RowSide::Plain(e) => Operand::Plain(Box::into_inner(e)),
            RowSide::Text(t) => Operand::Text(t),
            RowSide::Null => Operand::Null,
        }
    }
}

/// The call of an aggregate, behind its first parenthesis. `depth` is that of `part_at`.
pub fn call_at(
    alloc: Global,
    op: AggOp,
    tokens: &[Token],
    depth: usize,
) -> Result<(AggCall<ColumnRef>, &[Token]), ParseError>
    ensures { ParseGives (λ p. (call_form p.0, p.1.now)) result
        (call_at (part_at row_sides depth) op tokens.now) }
{
    match op {
        AggOp::Count => count_at(tokens),
        AggOp::Sum | AggOp::Min | AggOp::Max => {
            let (part, rest) = part_at(alloc, EXPRESSION, tokens, depth)?;
            call_over(op, part, rest)
        }
    }
}

// HAVING has no arithmetic, and no operand of it stands in parentheses.
impl ConditionSide for GroupSide {
    ghost form = { group_form };

    ghost rules = { group_sides };

    #[inline(never)]
    fn side_at(
        alloc: Global,
        tokens: &[Token],
        depth: usize,
    ) -> Result<(GroupSide, &[Token]), ParseError> {
        match call_front(tokens) {
            Some((op, rest)) => {
                let (call, rest) = call_at(alloc, op, rest, depth)?;
                Ok((GroupSide::Call(Box::new(alloc, call)?), rest))
            }
            None => {
                let (side, rest) = RowSide::side_at(alloc, tokens, depth)?;
                Ok((GroupSide::Row(side), rest))
            }
        }
    }

    fn calculated(
        _: Global,
        _: ArithOp,
        _: GroupSide,
        _: GroupSide,
    ) -> Result<GroupSide, ParseError> {
        Err(ParseError::Syntax)
    }

    fn encloses(_: &GroupSide) -> bool {
        false
    }

    fn operand_of(side: GroupSide) -> Operand<ColumnRef> {
        match side {
            GroupSide::Row(row) => RowSide::operand_of(row),
            GroupSide::Call(call) => Operand::Agg(Box::into_inner(call)),
        }
    }
}
