// Why reading stops.
ghost use Rattle.std.specs.Prelude.{◌≡◌, ◌∷◌, [], MatchResult};
ghost use Rattle.sql_text.specs.declared.parse_error.ParseError.TheVariants.{Memory, Syntax};

use sql_grammar::Token;
use std::alloc::{AllocError, AllocFailed};

#[derive(Clone, Copy, PartialEq, Eq)]
pub enum ParseError {
    Syntax,
    Memory,
}

impl From<AllocError> for ParseError {
    ghost from_gives = { λ _ e. e ≡ Memory };

    fn from(_: AllocError) -> Self {
        ParseError::Memory
    }
}

impl<T: Drop> From<AllocFailed<T>> for ParseError {
    ghost from_gives = { λ _ e. e ≡ Memory };

    fn from(_: AllocFailed<T>) -> Self {
        ParseError::Memory
    }
}

impl From<chunk_data::Memory> for ParseError {
    ghost from_gives = { λ _ e. e ≡ Memory };

    fn from(_: chunk_data::Memory) -> Self {
        ParseError::Memory
    }
}

/// The token at the front, and the tokens behind it.
pub fn next_token(tokens: &[Token]) -> Result<(&Token, &[Token]), ParseError>
    ensures { MatchResult result (λ p. tokens.now ≡ p.0.now ∷ p.1.now)
        (λ e. (e ≡ Syntax) × (tokens.now ≡ [])) }
{
    match tokens.split_first() {
        Some((token, rest)) => Ok((token, rest)),
        None => Err(ParseError::Syntax),
    }
}
