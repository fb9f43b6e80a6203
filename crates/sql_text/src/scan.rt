// The tokens of a text.
ghost use Rattle.std.specs.Prelude.{◌≡◌, ℕ, suc, ◌+◌, ◌-◌, ◌*◌, ◌<◌, ◌≤◌, ◌∷◌, length, drop, take_while, [], MatchOption, Some, option_map, IfOk, OnOk};
ghost use Rattle.std.specs.Char.{is_ascii_digit};
ghost use Rattle.query_model.specs.Fields.{numeral_value};
ghost use Rattle.sql_grammar.specs.Tokens.{is_blank, is_word_byte, keyword_of, word_token, word_front, fitting, number_token, begins_with_letter, number_front, text_byte, text_end, text_at, double_sign, longest_sign, single_sign, text_front, sign_front, token_front, tokens_behind, tokens_of};
ghost use Rattle.sql_grammar.specs.declared.TextPlace.TheVariants.{Middle};
ghost use Rattle.sql_text.specs.Answers.{ParseGives};

use crate::parse_error::ParseError;
use chunk_data::Bytes;
use query_model::numerals::digits_value;
use sql_grammar::{
    Sign, TextByte, TextPlace, Token, begins_with_letter, is_letter, is_word_byte, keyword_of,
};
use std::alloc::Global;

fn is_blank(b: u8) -> bool
    ensures { result ≡ is_blank b }
{
    b == b' ' || b == b'\t' || b == b'\r' || b == b'\n'
}

fn word_len(bytes: &[u8]) -> usize
    ensures is { result ≡ length (take_while is_word_byte bytes.now) }
    ensures within { result ≤ length bytes.now }
{
    bytes.iter().take_while(|b| is_word_byte(**b)).count()
}

fn word_at(bytes: &[u8]) -> &[u8]
    ensures { result.now ≡ take_while is_word_byte bytes.now }
{
    &bytes[..word_len(bytes)]
}

fn word_token(alloc: Global, word: &[u8]) -> Result<Token, ParseError>
    ensures { ParseGives (λ t. t) result (Some (word_token word.now (keyword_of word.now))) }
{
    match keyword_of(word) {
        Some(keyword) => Ok(Token::Keyword(keyword)),
        None => Ok(Token::Name(Bytes::from_slice(alloc, word)?)),
    }
}

fn digits_len(bytes: &[u8]) -> usize
    ensures is { result ≡ length (take_while is_ascii_digit bytes.now) }
    ensures within { result ≤ length bytes.now }
{
    bytes.iter().take_while(|b| b.is_ascii_digit()).count()
}

// The number of the digits at the front, and how many they are.
fn number_at(bytes: &[u8]) -> (Option<u64>, usize)
    ensures number { result.0 ≡ fitting (numeral_value (take_while is_ascii_digit bytes.now)) }
    ensures len { result.1 ≡ length (take_while is_ascii_digit bytes.now) }
    ensures within { result.1 ≤ length bytes.now }
{
    let len = digits_len(bytes);
    (digits_value(&bytes[..len]), len)
}

fn number_token(number: Option<u64>) -> Token
    ensures { result ≡ number_token number }
{
    match number {
        Some(number) => Token::Number(number),
        None => Token::LargeNumber,
    }
}

fn text_byte(place: TextPlace, b: u8) -> TextByte
    ensures { result ≡ text_byte place b }
{
    match place {
        TextPlace::Middle => match b {
            b'\'' => TextByte::Passed(TextPlace::BehindQuote),
            b'\\' => TextByte::Passed(TextPlace::BehindBackslash),
            _ => TextByte::Content,
        },
        TextPlace::BehindQuote => match b {
            b'\'' => TextByte::Content,
            _ => TextByte::Behind,
        },
        TextPlace::BehindBackslash => match b {
            b'\'' | b'\\' => TextByte::Content,
            _ => TextByte::Bad,
        },
    }
}

// The content of the string that begins behind its quote, and how many bytes it takes with its last
// quote.
fn text_at(alloc: Global, bytes: &[u8]) -> Result<(Bytes, usize), ParseError>
    ensures read { ParseGives (λ p. p) result (text_at Middle bytes.now) }
    ensures within { IfOk result (λ p. p.1 ≤ length bytes.now) }
{
    let mut content = Vec::new(alloc);
    let mut place = TextPlace::Middle;
    for (i, b) in bytes.iter().enumerate() {
        match text_byte(place, *b) {
            TextByte::Content => {
                content.push(*b)?;
                place = TextPlace::Middle;
            }
            TextByte::Passed(next) => place = next,
            TextByte::Behind => return Ok((Bytes::from_vec(content), i)),
            TextByte::Bad => return Err(ParseError::Syntax),
        }
    }
    match place {
        TextPlace::BehindQuote => Ok((Bytes::from_vec(content), bytes.len())),
        TextPlace::Middle | TextPlace::BehindBackslash => Err(ParseError::Syntax),
    }
}

fn single_sign(b: u8) -> Option<Sign>
    ensures { result ≡ single_sign b }
{
    match b {
        b'(' => Some(Sign::Open),
        b')' => Some(Sign::Close),
        b',' => Some(Sign::Comma),
        b'.' => Some(Sign::Dot),
        b';' => Some(Sign::Semicolon),
        b'*' => Some(Sign::Star),
        b'+' => Some(Sign::Plus),
        b'-' => Some(Sign::Minus),
        b'=' => Some(Sign::Equal),
        b'<' => Some(Sign::Less),
        b'>' => Some(Sign::Greater),
        _ => None,
    }
}

fn double_sign(b: u8, c: u8) -> Option<Sign>
    ensures { result ≡ double_sign b c }
{
    match (b, c) {
        (b'<', b'>') | (b'!', b'=') => Some(Sign::NotEqual),
        (b'=', b'=') => Some(Sign::Equal),
        (b'<', b'=') => Some(Sign::LessEqual),
        (b'>', b'=') => Some(Sign::GreaterEqual),
        _ => None,
    }
}

fn longest_sign(b: u8, more: &[u8]) -> Option<(Sign, usize)>
    ensures { result ≡ longest_sign b more.now }
{
    if let Some(c) = more.first() {
        if let Some(sign) = double_sign(b, *c) {
            return Some((sign, 2));
        }
    }
    Some((single_sign(b)?, 1))
}

fn word_front(alloc: Global, bytes: &[u8]) -> Result<(Token, usize), ParseError>
    ensures { ParseGives (λ p. p) result (Some (word_front bytes.now)) }
{
    let word = word_at(bytes);
    Ok((word_token(alloc, word)?, word.len()))
}

fn number_front(bytes: &[u8]) -> Result<(Token, usize), ParseError>
    ensures { ParseGives (λ p. p) result (number_front bytes.now) }
{
    let (number, len) = number_at(bytes);
    if begins_with_letter(&bytes[len..]) {
        return Err(ParseError::Syntax);
    }
    Ok((number_token(number), len))
}

fn text_front(alloc: Global, bytes: &[u8]) -> Result<(Token, usize), ParseError>
    ensures { ParseGives (λ p. p) result (text_front bytes.now) }
{
    let (content, len) = text_at(alloc, bytes)?;
    Ok((Token::Text(content), len + 1))
}

fn sign_front(b: u8, more: &[u8]) -> Result<(Token, usize), ParseError>
    ensures { ParseGives (λ p. p) result (sign_front b more.now) }
{
    match longest_sign(b, more) {
        Some((sign, len)) => Ok((Token::Sign(sign), len)),
        None => Err(ParseError::Syntax),
    }
}

// The token at the front, and how many bytes it takes.
fn token_at(
    alloc: Global,
    first: u8,
    more: &[u8],
    bytes: &[u8],
) -> Result<(Token, usize), ParseError>
    requires { bytes.now ≡ first ∷ more.now }
    ensures { ParseGives (λ p. p) result (token_front bytes.now) }
{
    if is_letter(first) {
        word_front(alloc, bytes)
    } else if first.is_ascii_digit() {
        number_front(bytes)
    } else if first == b'\'' {
        text_front(alloc, more)
    } else {
        sign_front(first, more)
    }
}

fn next_byte(bytes: &[u8]) -> Option<(u8, &[u8])>
    ensures { MatchOption result (bytes.now ≡ []) (λ p. bytes.now ≡ p.0 ∷ p.1.now) }
{
    let (first, more) = bytes.split_first()?;
    Some((*first, more))
}

/// The tokens of a text.
#[tactic(auto, using(crate::proofs::Bytes::tokens_passed, crate::proofs::Bytes::tokens_blank, crate::proofs::Bytes::tokens_end))]
pub fn tokens_of(alloc: Global, text: &[u8]) -> Result<Vec<Token>, ParseError>
    ensures { ParseGives (λ v. v.items) result (tokens_of text.now) }
{
    let mut tokens = Vec::new(alloc);
    let mut rest = text;
    // How many bytes in front belong to the last token.
    let mut taken = 0;
    while let Some((first, more)) = next_byte(rest) {
        let here = rest;
        rest = more;
        if taken > 0 {
            taken -= 1;
            continue;
        }
        if is_blank(first) {
            continue;
        }
        match token_at(alloc, first, more, here) {
            Ok((token, len)) => {
                tokens.push(token)?;
                taken = len.saturating_sub(1);
            }
            Err(error) => return Err(error),
        }
    }
    Ok(tokens)
}
