use crate::literals::check_each;
use sql_grammar::{
    aggregate_of, begins_with_letter, is_letter, is_name, is_word, is_word_byte, keyword_of,
};
use std::alloc::Global;
use std::test::Fail;

// Whether the text is a name, the keyword that it is, and the aggregate.
fn name_text(alloc: Global, text: &str) -> Result<String, Fail> {
    let word = text.as_bytes();
    let (keyword, aggregate) = (keyword_of(word), aggregate_of(word));
    Ok(format!(in alloc; "{} {keyword:?} {aggregate:?}", is_name(word))?)
}

static WORDS: [&str; 19] = [
    "a~true None None",
    "_~true None None",
    "Z9_~true None None",
    "9z~false None None",
    "~false None None",
    "a-b~false None None",
    "distinct~false Some(Distinct) None",
    "DISTINCT~false Some(Distinct) None",
    "By~false Some(By) None",
    "iS~false Some(Is) None",
    "null~false Some(Null) None",
    "distinc~true None None",
    "selects~true None None",
    "numbers~true None None",
    "count~true None Some(Count)",
    "SUM~true None Some(Sum)",
    "Min~true None Some(Min)",
    "maX~true None Some(Max)",
    "counts~true None None",
];

#[test]
fn names_are_words_and_no_keywords(rt: HostRuntime) -> Result<(), Fail> {
    check_each(&rt, rt.alloc(), &WORDS, name_text)
}

// Whether the text begins with a letter and is the word `count`, and whether its first byte is a
// word's and a letter.
fn spelling_text(alloc: Global, text: &str) -> Result<String, Fail> {
    let word = text.as_bytes();
    let (begins, count) = (begins_with_letter(word), is_word(word, b"count"));
    let byte = word.first().copied().unwrap_or(b' ');
    let (in_word, letter) = (is_word_byte(byte), is_letter(byte));
    Ok(format!(in alloc; "{begins} {count} {in_word} {letter}")?)
}

static SPELLINGS: [&str; 12] = [
    "_~true false true true",
    "0~false false true false",
    " ~false false false false",
    "@~false false false false",
    "[~false false false false",
    "{~false false false false",
    "z~true false true true",
    "a0~true false true true",
    "0a~false false true false",
    "~false false false false",
    "Count~true true true true",
    "counts~true false true true",
];

#[test]
fn bytes_of_words(rt: HostRuntime) -> Result<(), Fail> {
    check_each(&rt, rt.alloc(), &SPELLINGS, spelling_text)
}
