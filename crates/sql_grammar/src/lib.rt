//! The tokens of a query's text, keywords and names. The definitions beside it say which tokens a
//! text has, and which tokens spell a query.
#![tactic(auto)]

ghost use Rattle.std.specs.Prelude.{◌≡◌, Some};
ghost use Rattle.sql_grammar.specs.Names.{StringsAreRead, StringsAreWritten, TokensAreLongest, keyword_of, keyword_text};

mod words;

use chunk_data::Bytes;
pub use words::{
    aggregate_of, begins_with_letter, is_letter, is_name, is_word, is_word_byte, keyword_of,
};

/// A word that is never a name, in any ASCII case.
#[derive(Clone, Copy, Debug, PartialEq, Eq)]
pub enum Keyword {
    Select,
    From,
    Where,
    Group,
    By,
    Having,
    Order,
    Limit,
    Offset,
    As,
    And,
    Or,
    Not,
    Inner,
    Join,
    On,
    Asc,
    Desc,
    Union,
    All,
    Distinct,
    Left,
    Is,
    Null,
}

/// The keywords, each once.
pub const KEYWORDS: [Keyword; 24] = [
    Keyword::Select,
    Keyword::From,
    Keyword::Where,
    Keyword::Group,
    Keyword::By,
    Keyword::Having,
    Keyword::Order,
    Keyword::Limit,
    Keyword::Offset,
    Keyword::As,
    Keyword::And,
    Keyword::Or,
    Keyword::Not,
    Keyword::Inner,
    Keyword::Join,
    Keyword::On,
    Keyword::Asc,
    Keyword::Desc,
    Keyword::Union,
    Keyword::All,
    Keyword::Distinct,
    Keyword::Left,
    Keyword::Is,
    Keyword::Null,
];

/// Each keyword is the one that its word is read as, so that none is missing among `KEYWORDS`.
pub fn keywords_are_read()
    ensures { (k : Keyword) → keyword_of (keyword_text k) ≡ Some k }
{}

/// A string is read where it is written: its content, from the longest bytes that its quotes
/// enclose.
pub fn strings_are_read()
    ensures read { StringsAreRead }
    ensures written { StringsAreWritten }
{}

/// Each token that is read is the longest of its kind at the front.
pub fn tokens_are_longest()
    ensures { TokensAreLongest }
{}

/// A sign. `=` and `==` are one sign, and so are `!=` and `<>`.
#[derive(Clone, Copy, PartialEq, Eq)]
pub enum Sign {
    Open,
    Close,
    Comma,
    Dot,
    Semicolon,
    Star,
    Plus,
    Minus,
    Equal,
    NotEqual,
    Less,
    LessEqual,
    Greater,
    GreaterEqual,
}

#[derive(Drop)]
pub enum Token {
    Name(Bytes),
    Keyword(Keyword),
    Number(u64),
    /// A number above 18446744073709551615.
    LargeNumber,
    /// A string's content, without its quotes and escapes.
    Text(Bytes),
    Sign(Sign),
}

/// Where a string is: in its middle, or behind a quote or a backslash, which may stand for more
/// than themselves.
#[derive(Clone, Copy, PartialEq, Eq)]
pub enum TextPlace {
    Middle,
    BehindQuote,
    BehindBackslash,
}

/// What a byte is to a string.
#[derive(Clone, Copy, PartialEq, Eq)]
pub enum TextByte {
    /// It is one of the content, and the string goes on.
    Content,
    /// It is none of the content, and the string goes on at that place.
    Passed(TextPlace),
    /// It is behind the string.
    Behind,
    /// It can't stand there.
    Bad,
}
