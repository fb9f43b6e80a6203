// Words: keywords and names.
ghost use Rattle.std.specs.Prelude.{◌≡◌};
ghost use Rattle.std.specs.List.{list_all};
ghost use Rattle.sql_grammar.specs.Tokens.{aggregate_of, begins_with_letter, is_letter, is_name, is_word, is_word_byte, keyword_of, keyword_text};

use crate::{KEYWORDS, Keyword};
use query_model::query::AggOp;

/// Whether a byte is an ASCII letter or an underscore.
pub fn is_letter(b: u8) -> bool
    ensures { result ≡ is_letter b }
{
    b.is_ascii_alphabetic() || b == b'_'
}

/// Whether a byte may stand in a word: an ASCII letter, a digit or an underscore.
pub fn is_word_byte(b: u8) -> bool
    ensures { result ≡ is_word_byte b }
{
    is_letter(b) || b.is_ascii_digit()
}

fn keyword_text(keyword: Keyword) -> &'static [u8]
    ensures { result.now ≡ keyword_text keyword }
{
    match keyword {
        Keyword::Select => b"SELECT",
        Keyword::From => b"FROM",
        Keyword::Where => b"WHERE",
        Keyword::Group => b"GROUP",
        Keyword::By => b"BY",
        Keyword::Having => b"HAVING",
        Keyword::Order => b"ORDER",
        Keyword::Limit => b"LIMIT",
        Keyword::Offset => b"OFFSET",
        Keyword::As => b"AS",
        Keyword::And => b"AND",
        Keyword::Or => b"OR",
        Keyword::Not => b"NOT",
        Keyword::Inner => b"INNER",
        Keyword::Join => b"JOIN",
        Keyword::On => b"ON",
        Keyword::Asc => b"ASC",
        Keyword::Desc => b"DESC",
        Keyword::Union => b"UNION",
        Keyword::All => b"ALL",
        Keyword::Distinct => b"DISTINCT",
        Keyword::Left => b"LEFT",
        Keyword::Is => b"IS",
        Keyword::Null => b"NULL",
    }
}

/// Whether a word is that text, in any ASCII case.
pub fn is_word(word: &[u8], text: &[u8]) -> bool
    ensures { result ≡ is_word word.now text.now }
{
    word.eq_ignore_ascii_case(text)
}

/// The keyword that a word is.
pub fn keyword_of(word: &[u8]) -> Option<Keyword>
    ensures { result ≡ keyword_of word.now }
{
    KEYWORDS
        .iter()
        .copied()
        .find(|k| is_word(word, keyword_text(*k)))
}

/// The aggregate that a word means before `(`.
pub fn aggregate_of(word: &[u8]) -> Option<AggOp>
    ensures { result ≡ aggregate_of word.now }
{
    if is_word(word, b"count") {
        Some(AggOp::Count)
    } else if is_word(word, b"sum") {
        Some(AggOp::Sum)
    } else if is_word(word, b"min") {
        Some(AggOp::Min)
    } else if is_word(word, b"max") {
        Some(AggOp::Max)
    } else {
        None
    }
}

/// Whether a letter or an underscore stands at the front.
pub fn begins_with_letter(bytes: &[u8]) -> bool
    ensures { result ≡ begins_with_letter bytes.now }
{
    match bytes.first() {
        Some(b) => is_letter(*b),
        None => false,
    }
}

fn are_word_bytes(bytes: &[u8]) -> bool
    ensures { result ≡ list_all is_word_byte bytes.now }
{
    bytes.iter().all(|byte| is_word_byte(*byte))
}

/// Whether a text is a name: a letter or an underscore, then letters, digits and underscores, and
/// no keyword.
#[tactic(auto, unfolding(crate::specs::Tokens::is_name))]
pub fn is_name(text: &[u8]) -> bool
    ensures { result ≡ is_name text.now }
{
    begins_with_letter(text) && are_word_bytes(text) && keyword_of(text).is_none()
}
