// Tables, columns and joins.
ghost use Rattle.std.specs.Prelude.{◌≡◌, Some, option_map, OnOk, IfOk, refl};
ghost use Rattle.query_model.specs.declared.query.NamePair.{NamePair as Pair};
ghost use Rattle.sql_text.specs.Answers.{ParseGives};
ghost use Rattle.sql_text.specs.Terms.{dotted};
ghost use Rattle.sql_text.specs.Queries.{name_parse, count_behind, table_named, table_at, from_at, column_ref_at, after_equal, pair_at, on_at, joined_table_at};

use crate::lists::{Listed, Separator, list_at};
use crate::parse_error::{ParseError, next_token};
use chunk_data::Bytes;
use query_model::query::{ColumnRef, Join, NamePair, TableRef};
use sql_grammar::{Keyword, Sign, Token};
use std::alloc::Global;

pub fn name_at(tokens: &[Token]) -> Result<(Bytes, &[Token]), ParseError>
    ensures { ParseGives (λ p. (p.0, p.1.now)) result (name_parse tokens.now) }
{
    let (token, rest) = next_token(tokens)?;
    match token {
        Token::Name(name) => Ok((name.copy()?, rest)),
        _ => Err(ParseError::Syntax),
    }
}

// The number of `numbers`, behind the parenthesis.
fn count_behind(tokens: &[Token]) -> Result<(TableRef, &[Token]), ParseError>
    ensures { ParseGives (λ p. (p.0, p.1.now)) result (count_behind tokens.now) }
{
    match tokens {
        [Token::Number(count), Token::Sign(Sign::Close), ..] => {
            Ok((TableRef::Numbers(*count), &tokens[2..]))
        }
        _ => Err(ParseError::Syntax),
    }
}

// `numbers` has a meaning of its own only before a parenthesis, which stands behind no other name
// of a table.
fn table_named(name: Bytes, tokens: &[Token]) -> Result<(TableRef, &[Token]), ParseError>
    ensures { ParseGives (λ p. (p.0, p.1.now)) result (table_named name tokens.now) }
{
    match tokens.split_first() {
        Some((Token::Sign(Sign::Open), rest)) => {
            if name.as_slice() == b"numbers".as_slice() {
                count_behind(rest)
            } else {
                Err(ParseError::Syntax)
            }
        }
        _ => Ok((TableRef::Named(name), tokens)),
    }
}

fn table_at(tokens: &[Token]) -> Result<(TableRef, &[Token]), ParseError>
    ensures { ParseGives (λ p. (p.0, p.1.now)) result (table_at tokens.now) }
{
    let (name, rest) = name_at(tokens)?;
    table_named(name, rest)
}

pub fn from_at(tokens: &[Token]) -> Result<(TableRef, &[Token]), ParseError>
    ensures { ParseGives (λ p. (p.0, p.1.now)) result (from_at tokens.now) }
{
    match next_token(tokens)? {
        (Token::Keyword(Keyword::From), rest) => table_at(rest),
        _ => Err(ParseError::Syntax),
    }
}

/// The column that begins with the name, and the tokens behind it.
pub fn dotted_at(name: Bytes, tokens: &[Token]) -> Result<(ColumnRef, &[Token]), ParseError>
    ensures { ParseGives (λ p. (p.0, p.1.now)) result (Some (dotted name tokens.now)) }
{
    if let [Token::Sign(Sign::Dot), Token::Name(column), ..] = tokens {
        let column = ColumnRef {
            table: Some(name),
            name: column.copy()?,
        };
        return Ok((column, &tokens[2..]));
    }
    Ok((ColumnRef { table: None, name }, tokens))
}

pub fn column_ref_at(tokens: &[Token]) -> Result<(ColumnRef, &[Token]), ParseError>
    ensures { ParseGives (λ p. (p.0, p.1.now)) result (column_ref_at tokens.now) }
{
    let (name, rest) = name_at(tokens)?;
    dotted_at(name, rest)
}

fn after_equal(tokens: &[Token]) -> Result<&[Token], ParseError>
    ensures { ParseGives (λ rest. rest.now) result (after_equal tokens.now) }
{
    match next_token(tokens)? {
        (Token::Sign(Sign::Equal), rest) => Ok(rest),
        _ => Err(ParseError::Syntax),
    }
}

impl Listed for NamePair {
    ghost Tree = { Pair };

    ghost tree = { λ p. p };

    ghost trees = { λ ps. ps };

    ghost reading = { λ _ ts. pair_at ts };

    ghost first = { refl };

    ghost more = { λ ps p. refl };

    fn read(_: Global, tokens: &[Token], _: usize) -> Result<(NamePair, &[Token]), ParseError> {
        let (left, rest) = column_ref_at(tokens)?;
        let (right, rest) = column_ref_at(after_equal(rest)?)?;
        Ok((NamePair { left, right }, rest))
    }
}

fn on_at(alloc: Global, table: TableRef, tokens: &[Token]) -> Result<(Join, &[Token]), ParseError>
    ensures { ParseGives (λ p. (p.0, p.1.now)) result (on_at table tokens.now) }
{
    match next_token(tokens)? {
        (Token::Keyword(Keyword::On), rest) => {
            let (pairs, rest) = list_at(alloc, Separator::And, rest, 0)?;
            Ok((Join { table, pairs }, rest))
        }
        _ => Err(ParseError::Syntax),
    }
}

/// The table and the pairs behind JOIN.
pub fn joined_table_at(alloc: Global, tokens: &[Token]) -> Result<(Join, &[Token]), ParseError>
    ensures { ParseGives (λ p. (p.0, p.1.now)) result (joined_table_at tokens.now) }
{
    let (table, rest) = table_at(tokens)?;
    on_at(alloc, table, rest)
}
