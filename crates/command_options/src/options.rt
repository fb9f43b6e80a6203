ghost use Rattle.std.specs.Prelude.{◌≡◌, ◌∷◌, false, map, codes, option_map, IfOk};
ghost use Rattle.std.specs.String.{string_bytes};
ghost use Rattle.clap.specs.Words.{app_of, rule_of, rows_of, found_of, first_of, kind_of};
ghost use Rattle.command_options.specs.Options.{qrun_app, option_rule, flag_rule, rows_given, texts_in, is_true_text, is_memory_kind, options_of};

use chunk_data::{Bytes, Memory};
use clap::error::ErrorKind;
use clap::{Arg, ArgAction, ArgMatches, Command, Error};
use std::alloc::{AllocError, Global};

/// The texts of the options that are given.
#[derive(Drop)]
pub struct OptionTexts {
    pub query: Bytes,
    pub tables: Option<Bytes>,
    pub threads: Option<Bytes>,
    pub chunk: Option<Bytes>,
    /// Whether the flag is given.
    pub header: bool,
}

/// The texts of the options, where `clap` takes the words; they come without the program's name.
pub fn read_options(alloc: Global, words: &[String]) -> Result<Option<OptionTexts>, Memory>
    ensures { IfOk result (λ o. o ≡ options_of (map string_bytes words.now)) }
{
    let texts = with_program_name(alloc, words)?;
    match parse(alloc, texts.as_slice())? {
        None => Ok(None),
        Some(matches) => copy_texts(alloc, &matches),
    }
}

/// The words as `clap` wants them, behind the name of the program.
fn with_program_name<'a>(alloc: Global, words: &'a [String]) -> Result<Vec<&'a str>, Memory>
    ensures { IfOk result (λ texts.
        map (λ t. t.now) texts.items ≡ codes "qrun" ∷ map string_bytes words.now) }
{
    let mut texts: Vec<&'a str> = Vec::new(alloc);
    texts.push("qrun")?;
    for word in words {
        texts.push(word.as_str())?;
    }
    Ok(texts)
}

fn parse<'a>(alloc: Global, words: &'a [&'a str]) -> Result<Option<ArgMatches<'a>>, Memory>
    ensures { IfOk result (λ o.
        option_map (λ m. rows_of (found_of m)) o ≡ rows_given (map (λ t. t.now) words.now)) }
{
    let command: Command<'a> = qrun_command(alloc)?;
    match command.try_get_matches_from(words) {
        Ok(matches) => Ok(Some(matches)),
        Err(error) => {
            if is_memory(&error) {
                Err(Memory)
            } else {
                Ok(None)
            }
        }
    }
}

fn is_memory(error: &Error) -> bool
    ensures { result ≡ is_memory_kind (kind_of error.now) }
{
    matches!(error.kind(), ErrorKind::OutOfMemory)
}

fn qrun_command<'a>(alloc: Global) -> Result<Command<'a>, AllocError>
    ensures { IfOk result (λ c. app_of c ≡ qrun_app) }
{
    Command::new(alloc, "qrun")
        .disable_help_flag(true)
        .disable_version_flag(true)
        .arg(value_option(alloc, "query").required(true))?
        .arg(value_option(alloc, "tables"))?
        .arg(value_option(alloc, "threads"))?
        .arg(value_option(alloc, "chunk"))?
        .arg(flag(alloc, "header"))
}

/// `--name VALUE`.
fn value_option<'a>(alloc: Global, name: &'a str) -> Arg<'a>
    ensures rule { rule_of result ≡ option_rule name.now }
    ensures global { result.global ≡ false }
{
    Arg::new(alloc, name).long(name).action(ArgAction::Set)
}

/// `--name`.
fn flag<'a>(alloc: Global, name: &'a str) -> Arg<'a>
    ensures rule { rule_of result ≡ flag_rule name.now }
    ensures global { result.global ≡ false }
{
    Arg::new(alloc, name).long(name).action(ArgAction::SetTrue)
}

fn copy_texts(alloc: Global, matches: &ArgMatches<'_>) -> Result<Option<OptionTexts>, Memory>
    ensures { IfOk result (λ o. o ≡ texts_in (rows_of (found_of matches.now))) }
{
    match copy_text(alloc, matches, "query")? {
        None => Ok(None),
        Some(query) => Ok(Some(OptionTexts {
            query,
            tables: copy_text(alloc, matches, "tables")?,
            threads: copy_text(alloc, matches, "threads")?,
            chunk: copy_text(alloc, matches, "chunk")?,
            header: is_flag_given(matches, "header"),
        })),
    }
}

fn copy_text(alloc: Global, matches: &ArgMatches<'_>, id: &str) -> Result<Option<Bytes>, Memory>
    ensures { IfOk result (λ o. o ≡ first_of id.now (rows_of (found_of matches.now))) }
{
    match matches.get_str(id) {
        None => Ok(None),
        Some(text) => Ok(Some(Bytes::from_slice(alloc, text.as_bytes())?)),
    }
}

/// Whether the flag has the text that `clap` gives a flag of the command line.
fn is_flag_given(matches: &ArgMatches<'_>, id: &str) -> bool
    ensures { result ≡ is_true_text (first_of id.now (rows_of (found_of matches.now))) }
{
    match matches.get_str(id) {
        None => false,
        Some(text) => text == "true",
    }
}
