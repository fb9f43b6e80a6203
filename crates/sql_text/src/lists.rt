// Lists: items, columns, pairs and keys of an order.
ghost use Rattle.std.specs.Prelude.{◌≡◌, ◌++◌, ◌∷◌, [], ℕ, length, List as Seq, map, Some, None, option_map, OnOk, IfOk, refl};
ghost use Rattle.std.proofs.lemmas.List.{map-append};
ghost use Rattle.query_model.specs.Trees.{ItemTree, item_tree, item_what, selection};
ghost use Rattle.sql_grammar.specs.declared.Token.{Token as Piece};
ghost use Rattle.query_model.specs.declared.query.ColumnRef.{ColumnRef as Column};
ghost use Rattle.query_model.specs.declared.query.OrderKey.{OrderKey as Key};
ghost use Rattle.sql_text.specs.Answers.{ParseGives};
ghost use Rattle.sql_text.specs.Terms.{Parse};
ghost use Rattle.sql_text.specs.Queries.{behind, by_at, clause_at, list_at, alias_at, plain_what, what_at, item_at, selection_at, column_ref_at, direction_at, order_key_at};

use crate::parse_error::ParseError;
use crate::tables::{column_ref_at, name_at};
use crate::term::{EXPRESSION, call_at, call_front, part_at, plain_of};
use chunk_data::{Bytes, List};
use query_model::query::{ColumnRef, Item, ItemKind, Items, OrderKey};
use sql_grammar::{Keyword, Sign, Token};
use std::alloc::Global;

/// A token that tells what stands behind it: another element of a list, or a clause.
#[derive(Clone, Copy)]
pub enum Separator {
    Comma,
    And,
    Where,
    Group,
    By,
    Having,
    Order,
    Limit,
    Offset,
}

/// The tokens behind the mark, where they begin with it.
pub fn behind(mark: Separator, tokens: &[Token]) -> Option<&[Token]>
    ensures { option_map (λ rest. rest.now) result ≡ behind mark tokens.now }
{
    match (mark, tokens.split_first()?) {
        (Separator::Comma, (Token::Sign(Sign::Comma), rest)) => Some(rest),
        (Separator::And, (Token::Keyword(Keyword::And), rest)) => Some(rest),
        (Separator::Where, (Token::Keyword(Keyword::Where), rest)) => Some(rest),
        (Separator::Group, (Token::Keyword(Keyword::Group), rest)) => Some(rest),
        (Separator::By, (Token::Keyword(Keyword::By), rest)) => Some(rest),
        (Separator::Having, (Token::Keyword(Keyword::Having), rest)) => Some(rest),
        (Separator::Order, (Token::Keyword(Keyword::Order), rest)) => Some(rest),
        (Separator::Limit, (Token::Keyword(Keyword::Limit), rest)) => Some(rest),
        (Separator::Offset, (Token::Keyword(Keyword::Offset), rest)) => Some(rest),
        _ => None,
    }
}

/// What stands in lists.
pub trait Listed: Drop {
    // Elements apart from where their boxes lie, and how one is read.
    ghost Tree: { Type 0 };

    ghost tree: { Self → Tree };

    ghost trees: { Seq Self → Seq Tree };

    ghost reading: { ℕ → Seq Piece → Parse Tree };

    /// The element at the front, and the tokens behind it. `depth` is that of `part_at`.
    fn read(alloc: Global, tokens: &[Token], depth: usize) -> Result<(Self, &[Token]), ParseError>
        ensures { ParseGives (λ p. (tree p.0, p.1.now)) result (reading depth tokens.now) };

    ghost first: { trees [] ≡ [] };

    ghost more: { (xs : Seq Self) (x : Self) → trees (xs ++ x ∷ []) ≡ trees xs ++ tree x ∷ [] };
}

/// The list at the front, and the tokens behind it. `depth` is that of `part_at`.
pub fn list_at<T: Listed>(
    alloc: Global,
    separator: Separator,
    tokens: &[Token],
    depth: usize,
) -> Result<(List<T>, &[Token]), ParseError>
    ensures { ParseGives (λ p. (T.trees p.0, p.1.now)) result
        (list_at (T.reading depth) separator (length tokens.now) tokens.now) }
{
    let mut elements = Vec::new(alloc);
    let mut rest = tokens;
    for _turn in 0..tokens.len() {
        match T::read(alloc, rest, depth) {
            Err(error) => return Err(error),
            Ok((element, after)) => {
                elements.push(element)?;
                match behind(separator, after) {
                    Some(next) => rest = next,
                    None => return Ok((List::from_vec(elements), after)),
                }
            }
        }
    }
    Err(ParseError::Syntax)
}

/// The list behind the mark and BY, or none where the mark doesn't stand.
pub fn listed_behind<T: Listed>(
    alloc: Global,
    mark: Separator,
    tokens: &[Token],
) -> Result<(List<T>, &[Token]), ParseError>
    ensures { ParseGives (λ p. (T.trees p.0, p.1.now)) result
        (clause_at mark [] (λ xs. xs) (by_at (T.reading 0)) tokens.now) }
{
    let Some(rest) = behind(mark, tokens) else {
        return Ok((List::new(alloc), tokens));
    };
    match behind(Separator::By, rest) {
        Some(rest) => list_at(alloc, Separator::Comma, rest, 0),
        None => Err(ParseError::Syntax),
    }
}

fn alias_at(tokens: &[Token]) -> Result<(Option<Bytes>, &[Token]), ParseError>
    ensures { ParseGives (λ p. (p.0, p.1.now)) result (alias_at tokens.now) }
{
    match tokens.split_first() {
        Some((Token::Keyword(Keyword::As), rest)) => {
            let (name, rest) = name_at(rest)?;
            Ok((Some(name), rest))
        }
        _ => Ok((None, tokens)),
    }
}

fn plain_what(
    alloc: Global,
    tokens: &[Token],
    depth: usize,
) -> Result<(ItemKind, &[Token]), ParseError>
    ensures { ParseGives (λ p. (item_what p.0, p.1.now)) result (plain_what depth tokens.now) }
{
    let (part, rest) = part_at(alloc, EXPRESSION, tokens, depth)?;
    let expr = plain_of(part)?;
    Ok((ItemKind::Plain(Box::into_inner(expr)), rest))
}

fn what_at(
    alloc: Global,
    tokens: &[Token],
    depth: usize,
) -> Result<(ItemKind, &[Token]), ParseError>
    ensures { ParseGives (λ p. (item_what p.0, p.1.now)) result (what_at depth tokens.now) }
{
    match call_front(tokens) {
        Some((op, rest)) => {
            let (call, rest) = call_at(alloc, op, rest, depth)?;
            Ok((ItemKind::Agg(call), rest))
        }
        None => plain_what(alloc, tokens, depth),
    }
}

impl Listed for Item {
    ghost Tree = { ItemTree };

    ghost tree = { item_tree };

    ghost trees = { map item_tree };

    ghost reading = { item_at };

    ghost first = { refl };

    ghost more = { λ xs x. map-append item_tree xs (x ∷ []) };

    fn read(alloc: Global, tokens: &[Token], depth: usize) -> Result<(Item, &[Token]), ParseError> {
        let (what, rest) = what_at(alloc, tokens, depth)?;
        let (alias, rest) = alias_at(rest)?;
        Ok((Item { what, alias }, rest))
    }
}

/// The items of SELECT. `depth` is that of `part_at`.
pub fn selection_at(
    alloc: Global,
    tokens: &[Token],
    depth: usize,
) -> Result<(Items, &[Token]), ParseError>
    ensures { ParseGives (λ p. (selection p.0, p.1.now)) result (selection_at depth tokens.now) }
{
    match tokens.split_first() {
        Some((Token::Sign(Sign::Star), rest)) => Ok((Items::Star, rest)),
        _ => {
            let (items, rest) = list_at(alloc, Separator::Comma, tokens, depth)?;
            Ok((Items::Listed(items), rest))
        }
    }
}

impl Listed for ColumnRef {
    ghost Tree = { Column };

    ghost tree = { λ c. c };

    ghost trees = { λ cs. cs };

    ghost reading = { λ _ ts. column_ref_at ts };

    ghost first = { refl };

    ghost more = { λ cs c. refl };

    fn read(_: Global, tokens: &[Token], _: usize) -> Result<(ColumnRef, &[Token]), ParseError> {
        column_ref_at(tokens)
    }
}

fn direction_at(tokens: &[Token]) -> (bool, &[Token])
    ensures { (result.0, result.1.now) ≡ direction_at tokens.now }
{
    match tokens.split_first() {
        Some((Token::Keyword(Keyword::Asc), rest)) => (false, rest),
        Some((Token::Keyword(Keyword::Desc), rest)) => (true, rest),
        _ => (false, tokens),
    }
}

impl Listed for OrderKey {
    ghost Tree = { Key };

    ghost tree = { λ k. k };

    ghost trees = { λ ks. ks };

    ghost reading = { λ _ ts. order_key_at ts };

    ghost first = { refl };

    ghost more = { λ ks k. refl };

    fn read(_: Global, tokens: &[Token], _: usize) -> Result<(OrderKey, &[Token]), ParseError> {
        let (name, rest) = name_at(tokens)?;
        let (descending, rest) = direction_at(rest);
        Ok((OrderKey { name, descending }, rest))
    }
}
