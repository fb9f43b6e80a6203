// Texts of queries.
ghost use Rattle.std.specs.Prelude.{◌≡◌, ℕ, List as Seq, true, false, IfOk, IfErr, length};
ghost use Rattle.query_model.specs.declared.query.Query.{Query};
ghost use Rattle.sql_grammar.specs.Names.{query_tree, Spells};
ghost use Rattle.sql_text.specs.Answers.{ParseGives};
ghost use Rattle.sql_text.specs.Queries.{is_text_end, text_query};
ghost use Rattle.sql_text.specs.Refusals.{IsReadFrom, IsRefused, parse_refusal_of};

use crate::limits::{MAX_TEXT, ParseRefusal, token_refusal};
use crate::parse_error::ParseError;
use crate::queries::query_at;
use crate::scan::tokens_of;
use query_model::query::Query;
use sql_grammar::{Sign, Token};
use std::alloc::Global;

fn refusal_of(error: ParseError) -> ParseRefusal
    ensures { result ≡ parse_refusal_of error }
{
    match error {
        ParseError::Syntax => ParseRefusal::Syntax,
        ParseError::Memory => ParseRefusal::Memory,
    }
}

fn is_end(tokens: &[Token]) -> bool
    ensures { result ≡ is_text_end tokens.now }
{
    matches!(tokens, [] | [Token::Sign(Sign::Semicolon)])
}

// The query that the tokens of a text are, all of them.
fn text_query(alloc: Global, tokens: &[Token]) -> Result<Query, ParseError>
    ensures { ParseGives query_tree result (text_query (length tokens.now) tokens.now) }
{
    let (query, rest) = query_at(alloc, tokens, tokens.len())?;
    if is_end(rest) {
        Ok(query)
    } else {
        Err(ParseError::Syntax)
    }
}

/// The query that spells the text, up to the boxes that it lies in. Refusals other than Memory come
/// in the order of `ParseRefusal`.
#[tactic(auto, using(crate::proofs::Readings::is_refused))]
pub fn parse(alloc: Global, text: &[u8]) -> Result<Query, ParseRefusal>
    // What `Ok` means.
    ensures read { IfOk result (λ q. IsReadFrom q text.now) }
    // When each refusal comes.
    ensures refused { IfErr result (λ e. IsRefused e text.now) }
{
    if text.len() > MAX_TEXT {
        return Err(ParseRefusal::TooLong);
    }
    let tokens = match tokens_of(alloc, text) {
        Ok(tokens) => tokens,
        Err(error) => return Err(refusal_of(error)),
    };
    let tokens = tokens.as_slice();
    if let Some(refusal) = token_refusal(tokens) {
        return Err(refusal);
    }
    match text_query(alloc, tokens) {
        Ok(query) => Ok(query),
        Err(error) => Err(refusal_of(error)),
    }
}

/// No text is spelled by two queries.
pub fn one_reading()
    ensures { (text : Seq ℕ) (p q : Query) → Spells p text → Spells q text
        → query_tree p ≡ query_tree q }
{}
