// What is refused before a query is read.
ghost use Rattle.std.specs.Prelude.{◌≡◌, count_by};
ghost use Rattle.std.specs.List.{list_any};
ghost use Rattle.sql_text.specs.Refusals.{is_large, is_operator, token_refusal};

use sql_grammar::{Keyword, Sign, Token};

/// The most bytes of a query's text.
pub const MAX_TEXT: usize = 65_536;

/// The most operators and parentheses of a query.
pub const MAX_OPERATORS: usize = 1_000;

/// Why a text is refused.
#[derive(Clone, Copy, Debug, PartialEq, Eq)]
pub enum ParseRefusal {
    /// It has more than `MAX_TEXT` bytes.
    TooLong,
    /// It isn't a list of tokens, or no query spells it.
    Syntax,
    /// One of its numbers doesn't fit 64 bits.
    NumberTooLarge,
    /// It has more than `MAX_OPERATORS` tokens `(`, `+`, `-`, `*`, AND, OR and NOT.
    TooComplex,
    /// There wasn't enough memory.
    Memory,
}

fn is_large(token: &Token) -> bool
    ensures { result ≡ is_large token.now }
{
    matches!(token, Token::LargeNumber)
}

fn has_large(tokens: &[Token]) -> bool
    ensures { result ≡ list_any is_large tokens.now }
{
    tokens.iter().any(|token| is_large(token))
}

fn is_operator(token: &Token) -> bool
    ensures { result ≡ is_operator token.now }
{
    matches!(
        token,
        Token::Sign(Sign::Open | Sign::Plus | Sign::Minus | Sign::Star)
            | Token::Keyword(Keyword::And | Keyword::Or | Keyword::Not)
    )
}

fn operator_count(tokens: &[Token]) -> usize
    ensures { result ≡ count_by is_operator tokens.now }
{
    tokens.iter().filter(|token| is_operator(token)).count()
}

/// The refusal for the tokens, where there is one.
pub fn token_refusal(tokens: &[Token]) -> Option<ParseRefusal>
    ensures { result ≡ token_refusal tokens.now }
{
    if has_large(tokens) {
        return Some(ParseRefusal::NumberTooLarge);
    }
    if operator_count(tokens) > MAX_OPERATORS {
        return Some(ParseRefusal::TooComplex);
    }
    None
}
