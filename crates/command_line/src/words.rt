ghost use Rattle.std.specs.Prelude.{◌≡◌, map, IfOk, Err, Some, None};
ghost use Rattle.std.specs.String.{string_bytes};
ghost use Rattle.command_line.specs.Words.{number_in as number_test, number_up_to, number_given, tables_given, command_in, command_of, WordsMean, IsWithinLimits};
ghost use Rattle.command_line.specs.declared.words.Command.{Command};
ghost use Rattle.command_line.specs.declared.words.WordsRefusal.{WordsRefusal};

use crate::tables::read_tables;
use chunk_data::{Bytes, List, Memory};
use command_options::{OptionTexts, read_options};
use query_model::numerals::spelled_uint;
use query_model::query::TableDecl;
use std::alloc::Global;

/// What the words ask for.
#[derive(Drop)]
pub struct Command {
    /// The query's text.
    pub query: Bytes,
    pub tables: List<TableDecl>,
    /// The number of workers, 1 to 16.
    pub threads: u32,
    /// The most rows of a source's chunk, 1 to 65,536.
    pub chunk_rows: u32,
    /// Whether the first record of each part is passed over, and names head the answer.
    pub header: bool,
}

/// Why words were not read.
#[derive(Clone, Copy, PartialEq, Eq)]
pub enum WordsRefusal {
    /// The words are no command.
    Usage,
    Memory,
}

/// The number of workers where the words name none.
const DEFAULT_THREADS: u32 = 4;

const MOST_THREADS: u32 = 16;

/// The most rows of a source's chunk where the words name none.
const DEFAULT_CHUNK_ROWS: u32 = 8192;

const MOST_CHUNK_ROWS: u32 = 65_536;

/// The most digits of a number.
const MOST_DIGITS: usize = 5;

/// The command that words mean. They come without the program's name.
pub fn read_words(alloc: Global, words: &[String]) -> Result<Command, WordsRefusal>
    ensures ok { IfOk result (λ c. command_of (map string_bytes words.now) ≡ Some c) }
    ensures usage { (result ≡ Err WordsRefusal.Usage)
        → command_of (map string_bytes words.now) ≡ None }

    // The same by the parts of the words: each text has its form, and tables are what they are
    // written as.
    ensures means { IfOk result (WordsMean (map string_bytes words.now)) }
    ensures meaningless { (result ≡ Err WordsRefusal.Usage)
        → (c : Command) → WordsMean (map string_bytes words.now) c → ⊥ }
    ensures within { IfOk result IsWithinLimits }
{
    match command_meant(alloc, words) {
        Ok(Some(command)) => Ok(command),
        Ok(None) => Err(WordsRefusal::Usage),
        Err(_) => Err(WordsRefusal::Memory),
    }
}

#[tactic(auto, unfolding(crate::specs::Words::command_of))]
fn command_meant(alloc: Global, words: &[String]) -> Result<Option<Command>, Memory>
    ensures { IfOk result (λ o. o ≡ command_of (map string_bytes words.now)) }
{
    match read_options(alloc, words)? {
        None => Ok(None),
        Some(texts) => read_texts(alloc, texts),
    }
}

fn read_texts(alloc: Global, texts: OptionTexts) -> Result<Option<Command>, Memory>
    ensures { IfOk result (λ o. o ≡ command_in texts) }
{
    let Some(threads) = number_or(&texts.threads, DEFAULT_THREADS, MOST_THREADS) else {
        return Ok(None);
    };
    let Some(chunk_rows) = number_or(&texts.chunk, DEFAULT_CHUNK_ROWS, MOST_CHUNK_ROWS) else {
        return Ok(None);
    };
    match read_tables_given(alloc, &texts.tables)? {
        None => Ok(None),
        Some(tables) => Ok(Some(Command {
            query: texts.query,
            tables,
            threads,
            chunk_rows,
            header: texts.header,
        })),
    }
}

fn read_tables_given(alloc: Global, text: &Option<Bytes>) -> Result<Option<List<TableDecl>>, Memory>
    ensures { IfOk result (λ o. o ≡ tables_given text.now) }
{
    match text {
        None => Ok(Some(List::new(alloc))),
        Some(text) => read_tables(alloc, text.as_slice()),
    }
}

/// The number that is given, where it is one of 1 to `most`; else the default one.
fn number_or(text: &Option<Bytes>, default: u32, most: u32) -> Option<u32>
    ensures { result ≡ number_given default most text.now }
{
    match text {
        None => Some(default),
        Some(text) => read_number(text.as_slice(), most),
    }
}

fn read_number(text: &[u8], most: u32) -> Option<u32>
    ensures { result ≡ number_up_to most text.now }
{
    if text.len() > MOST_DIGITS {
        return None;
    }
    number_in(spelled_uint(text)?, most)
}

fn number_in(number: u64, most: u32) -> Option<u32>
    ensures { result ≡ number_test most number }
{
    if 1 <= number && number <= u64::from(most) {
        Some(number as u32)
    } else {
        None
    }
}
