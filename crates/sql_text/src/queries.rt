// Clauses and queries.
ghost use Rattle.std.specs.Prelude.{Some, None, option_map, OnOk, IfOk};
ghost use Rattle.query_model.specs.Formulas.{cond_form};
ghost use Rattle.query_model.specs.Trees.{query_tree, selection};
ghost use Rattle.sql_text.specs.Answers.{ParseGives};
ghost use Rattle.sql_text.specs.Queries.{join_at, clause_at, condition_at, number_parse, offset_at, span_at, limit_at, ending_at, shaped, after_select, query_at};

use crate::lists::{Separator, behind, listed_behind, selection_at};
use crate::parse_error::{ParseError, next_token};
use crate::tables::{from_at, joined_table_at};
use crate::term::{CONDITION, ConditionSide, GroupSide, RowSide, condition_of, part_at};
use chunk_data::List;
use query_model::query::{ColumnRef, CondOf, Items, Join, OrderKey, Query, Span, TableRef};
use sql_grammar::{Keyword, Token};
use std::alloc::Global;

fn join_at(alloc: Global, tokens: &[Token]) -> Result<(Option<Join>, &[Token]), ParseError>
    ensures { ParseGives (λ p. (p.0, p.1.now)) result (join_at tokens.now) }
{
    match tokens {
        [Token::Keyword(Keyword::Join), ..] => {
            let (join, rest) = joined_table_at(alloc, &tokens[1..])?;
            Ok((Some(join), rest))
        }
        [
            Token::Keyword(Keyword::Inner),
            Token::Keyword(Keyword::Join),
            ..
        ] => {
            let (join, rest) = joined_table_at(alloc, &tokens[2..])?;
            Ok((Some(join), rest))
        }
        [Token::Keyword(Keyword::Inner), ..] => Err(ParseError::Syntax),
        _ => Ok((None, tokens)),
    }
}

// The condition behind WHERE or HAVING.
fn condition_at<S: ConditionSide>(
    alloc: Global,
    tokens: &[Token],
    depth: usize,
) -> Result<(CondOf<ColumnRef>, &[Token]), ParseError>
    ensures { ParseGives (λ p. (cond_form p.0, p.1.now)) result
        (condition_at S.rules depth tokens.now) }
{
    let (part, rest) = part_at::<S>(alloc, CONDITION, tokens, depth)?;
    Ok((Box::into_inner(condition_of(part)?), rest))
}

// The condition behind the mark, where that stands.
fn condition_behind<S: ConditionSide>(
    alloc: Global,
    mark: Separator,
    tokens: &[Token],
    depth: usize,
) -> Result<(Option<CondOf<ColumnRef>>, &[Token]), ParseError>
    ensures { ParseGives (λ p. (option_map cond_form p.0, p.1.now)) result
        (clause_at mark None Some (condition_at S.rules depth) tokens.now) }
{
    match behind(mark, tokens) {
        Some(rest) => {
            let (condition, rest) = condition_at::<S>(alloc, rest, depth)?;
            Ok((Some(condition), rest))
        }
        None => Ok((None, tokens)),
    }
}

fn number_at(tokens: &[Token]) -> Result<(u64, &[Token]), ParseError>
    ensures { ParseGives (λ p. (p.0, p.1.now)) result (number_parse tokens.now) }
{
    match next_token(tokens)? {
        (Token::Number(number), rest) => Ok((*number, rest)),
        _ => Err(ParseError::Syntax),
    }
}

fn offset_at(tokens: &[Token]) -> Result<(u64, &[Token]), ParseError>
    ensures { ParseGives (λ p. (p.0, p.1.now)) result (offset_at tokens.now) }
{
    match behind(Separator::Offset, tokens) {
        Some(rest) => number_at(rest),
        None => Ok((0, tokens)),
    }
}

fn span_at(tokens: &[Token]) -> Result<(Span, &[Token]), ParseError>
    ensures { ParseGives (λ p. (p.0, p.1.now)) result (span_at tokens.now) }
{
    let (count, rest) = number_at(tokens)?;
    let (skip, rest) = offset_at(rest)?;
    Ok((Span { count, skip }, rest))
}

fn limit_at(tokens: &[Token]) -> Result<(Option<Span>, &[Token]), ParseError>
    ensures { ParseGives (λ p. (p.0, p.1.now)) result (limit_at tokens.now) }
{
    match behind(Separator::Limit, tokens) {
        Some(rest) => {
            let (span, rest) = span_at(rest)?;
            Ok((Some(span), rest))
        }
        None => Ok((None, tokens)),
    }
}

/// What stands behind a query's rows: groups, their condition, the order and the span.
#[derive(Drop)]
struct Ending {
    keys: List<ColumnRef>,
    having: Option<CondOf<ColumnRef>>,
    order: List<OrderKey>,
    limit: Option<Span>,
}

// GROUP BY and the clauses behind it.
fn ending_at(
    alloc: Global,
    tokens: &[Token],
    depth: usize,
) -> Result<(Ending, &[Token]), ParseError>
    ensures { ParseGives (λ p. (
      (p.0.keys, option_map cond_form p.0.having, p.0.order, p.0.limit),
      p.1.now,
    )) result (ending_at depth tokens.now) }
{
    let (keys, rest) = listed_behind(alloc, Separator::Group, tokens)?;
    let (having, rest) = condition_behind::<GroupSide>(alloc, Separator::Having, rest, depth)?;
    let (order, rest) = listed_behind(alloc, Separator::Order, rest)?;
    let (limit, rest) = limit_at(rest)?;
    let ending = Ending {
        keys,
        having,
        order,
        limit,
    };
    Ok((ending, rest))
}

// The query of these rows, with what is made of them.
fn shaped(
    alloc: Global,
    items: Items,
    from: TableRef,
    join: Option<Join>,
    filter: Option<CondOf<ColumnRef>>,
    tokens: &[Token],
    depth: usize,
) -> Result<(Query, &[Token]), ParseError>
    ensures { ParseGives (λ p. (query_tree p.0, p.1.now)) result
        (shaped depth (selection items) from join (option_map cond_form filter) tokens.now) }
{
    let (ending, rest) = ending_at(alloc, tokens, depth)?;
    let query = Query {
        items,
        from,
        join,
        filter,
        keys: ending.keys,
        having: ending.having,
        order: ending.order,
        limit: ending.limit,
    };
    Ok((query, rest))
}

fn after_select(tokens: &[Token]) -> Result<&[Token], ParseError>
    ensures { ParseGives (λ rest. rest.now) result (after_select tokens.now) }
{
    match next_token(tokens)? {
        (Token::Keyword(Keyword::Select), rest) => Ok(rest),
        _ => Err(ParseError::Syntax),
    }
}

/// The query at the front, and the tokens behind it. `depth` is that of `part_at`.
pub fn query_at(
    alloc: Global,
    tokens: &[Token],
    depth: usize,
) -> Result<(Query, &[Token]), ParseError>
    ensures { ParseGives (λ p. (query_tree p.0, p.1.now)) result (query_at depth tokens.now) }
{
    let (items, rest) = selection_at(alloc, after_select(tokens)?, depth)?;
    let (from, rest) = from_at(rest)?;
    let (join, rest) = join_at(alloc, rest)?;
    let (filter, rest) = condition_behind::<RowSide>(alloc, Separator::Where, rest, depth)?;
    shaped(alloc, items, from, join, filter, rest, depth)
}
