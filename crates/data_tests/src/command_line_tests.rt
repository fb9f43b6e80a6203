use crate::literals::{check_each, halves, utf8};
use chunk_data::ColumnType;
use command_line::{Command, WordsRefusal, read_words};
use query_model::query::{PartsDecl, TableDecl};
use std::alloc::{AllocError, Global};
use std::test::Fail;

// Words, which line breaks part, and what they mean: the query, the tables, the number of workers,
// the rows of a chunk and the header, or a faulty command line. What is expected is told by the
// description of the command, and not taken from the program.
static CASES: [&str; 117] = [
    // Options in any order, each with its value behind it or behind `=`.
    "--query\nSELECT a FROM t\n--tables\nt=f.csv:a Int64,b String~\
     SELECT a FROM t|t=f.csv:a Int64,b String|4|8192|",
    "--query=q~q||4|8192|",
    "--query=a = b~a = b||4|8192|",
    "--tables=t=p:a Int64\n--query=q~q|t=p:a Int64|4|8192|",
    "--header\n--chunk\n1\n--threads=16\n--query\nq~q||16|1|header",
    "--query\nq\n--header~q||4|8192|header",
    "--query=~||4|8192|",
    "--query\n~||4|8192|",
    "--query=-1~-1||4|8192|",
    "--query\n-~-||4|8192|",
    "--query\nq\n--~q||4|8192|",
    // No value, a doubled option, a word that isn't the command's.
    "--query~usage",
    "--tables\nt=p:a Int64~usage",
    "--query\nq\n--tables~usage",
    "--query\nq\n--threads~usage",
    "--query\n--header~usage",
    "--query\n--~usage",
    "--query\n-1~usage",
    "--query\nq\n--query\nq~usage",
    "--query=q\n--query\nr~usage",
    "--query\nq\n--tables\nt=p:a Int64\n--tables\nu=p:a Int64~usage",
    "--query\nq\n--threads\n2\n--threads\n2~usage",
    "--query=q\n--chunk=2\n--chunk=2~usage",
    "--query\nq\n--header\n--header~usage",
    "--query\nq\n--header=true~usage",
    "--query\nq\n--header\ntrue~usage",
    "--query\nq\n--x~usage",
    "--query\nq\nx~usage",
    "--query\nq\n--\nx~usage",
    "--\n--query\nq~usage",
    "-query\nq~usage",
    "--quer\nq~usage",
    "--Query\nq~usage",
    "query\nq~usage",
    "~usage",
    "--query\nq\n--help~usage",
    "--query\nq\n-h~usage",
    "--query\nq\n--version~usage",
    "--query\nq\n-V~usage",
    "help~usage",
    // Numbers of one to five digits, in range.
    "--query\nq\n--threads\n1~q||1|8192|",
    "--query\nq\n--threads\n16~q||16|8192|",
    "--query\nq\n--threads\n00016~q||16|8192|",
    "--query\nq\n--threads\n04~q||4|8192|",
    "--query\nq\n--threads=0~usage",
    "--query\nq\n--threads=17~usage",
    "--query\nq\n--threads=000016~usage",
    "--query\nq\n--threads=~usage",
    "--query\nq\n--threads=+4~usage",
    "--query\nq\n--threads=4 ~usage",
    "--query\nq\n--threads=x~usage",
    "--query\nq\n--threads=1e1~usage",
    "--query\nq\n--threads=99999~usage",
    "--query\nq\n--threads=-4~usage",
    "--query\nq\n--chunk\n1~q||4|1|",
    "--query\nq\n--chunk\n8192~q||4|8192|",
    "--query\nq\n--chunk\n65536~q||4|65536|",
    "--query\nq\n--chunk\n00001~q||4|1|",
    "--query\nq\n--chunk=0~usage",
    "--query\nq\n--chunk=65537~usage",
    "--query\nq\n--chunk=99999~usage",
    "--query\nq\n--chunk=100000~usage",
    "--query\nq\n--chunk=008192~usage",
    "--query\nq\n--chunk=8_192~usage",
    // Declarations, and their parts.
    "--query\nq\n--tables\nt=p+r:a Int64~q|t=p+r:a Int64|4|8192|",
    "--query\nq\n--tables\nt=@list.txt:a Int64~q|t=@list.txt:a Int64|4|8192|",
    "--query\nq\n--tables\nt=p@1:a UInt64~q|t=p@1:a UInt64|4|8192|",
    "--query\nq\n--tables\n_t1=a/b=c.csv:x_1 String~q|_t1=a/b=c.csv:x_1 String|4|8192|",
    "--query\nq\n--tables\nt=a b,c:a Int64~q|t=a b,c:a Int64|4|8192|",
    "--query\nq\n--tables\nl=l.csv:k Int64,a Int64;r=r.csv:k Int64,b Int64~\
     q|l=l.csv:k Int64,a Int64;r=r.csv:k Int64,b Int64|4|8192|",
    "--query\nq\n--tables\nt=p:a Int64;T=p:a Int64,A String~\
     q|t=p:a Int64;T=p:a Int64,A String|4|8192|",
    "--query\nq\n--tables\n~usage",
    "--query\nq\n--tables\nt=@@list.txt:a Int64~usage",
    "--query\nq\n--tables\nt=@:a Int64~usage",
    "--query\nq\n--tables\nt=@l+p:a Int64~usage",
    "--query\nq\n--tables\nt=p+@l:a Int64~usage",
    "--query\nq\n--tables\nt=p+:a Int64~usage",
    "--query\nq\n--tables\nt=+p:a Int64~usage",
    "--query\nq\n--tables\nt=:a Int64~usage",
    "--query\nq\n--tables\nt=p;r:a Int64~usage",
    "--query\nq\n--tables\nt=p::a Int64~usage",
    "--query\nq\n--tables\nt=p:a Int64;~usage",
    "--query\nq\n--tables\n;t=p:a Int64~usage",
    "--query\nq\n--tables\nt=p:a Int64;t=r:b Int64~usage",
    "--query\nq\n--tables\nt=p~usage",
    "--query\nq\n--tables\nt=p:~usage",
    "--query\nq\n--tables\nt:a Int64~usage",
    "--query\nq\n--tables\n=p:a Int64~usage",
    "--query\nq\n--tables\n1t=p:a Int64~usage",
    "--query\nq\n--tables\nSeLect=p:a Int64~usage",
    "--query\nq\n--tables\nt =p:a Int64~usage",
    // Columns.
    "--query\nq\n--tables\nt=p:1a Int64~usage",
    "--query\nq\n--tables\nt=p:null Int64~usage",
    "--query\nq\n--tables\nt=p:a int64~usage",
    "--query\nq\n--tables\nt=p:a  Int64~usage",
    "--query\nq\n--tables\nt=p:a Int64 ~usage",
    "--query\nq\n--tables\nt=p: a Int64~usage",
    "--query\nq\n--tables\nt=p:a~usage",
    "--query\nq\n--tables\nt=p:a Int64,~usage",
    "--query\nq\n--tables\nt=p:a Int64,a String~usage",
    "--query\nq\n--tables\nt=p:a Int64, b Int64~usage",
    "--query\nq\n--tables=~usage",
    "--query\nq\n--tables\nt=p:a Nullable(Int64),b Nullable(UInt64),c Nullable(String)~\
     q|t=p:a Nullable(Int64),b Nullable(UInt64),c Nullable(String)|4|8192|",
    "--query\nq\n--tables\nt=p:a Nullable(int64)~usage",
    "--query\nq\n--tables\nt=p:a Nullable( Int64)~usage",
    "--query\nq\n--tables\nt=p:a Nullable (Int64)~usage",
    "--query\nq\n--tables\nt=p:a Nullable(Nullable(Int64))~usage",
    "--query\nq\n--tables\nt=p:a Nullable(Int64~usage",
    // Worked commands: one row a chunk, several parts, a list file, a heading.
    "--query\nSELECT a FROM t WHERE a > 5\n--tables\nt=f.csv:a Int64\n--chunk\n1~\
     SELECT a FROM t WHERE a > 5|t=f.csv:a Int64|4|1|",
    "--query\nSELECT a, b FROM t ORDER BY a, b\n--tables\nt=f.csv:a Int64,b \
     String\n--threads\n1\n--chunk\n1~SELECT a, b FROM t ORDER BY a, b|t=f.csv:a Int64,b \
     String|1|1|",
    "--query\nSELECT a, b FROM t ORDER BY a, b\n--tables\nt=f.csv:a Int64,b \
     String\n--chunk=8192\n--threads=2~SELECT a, b FROM t ORDER BY a, b|t=f.csv:a Int64,b \
     String|2|8192|",
    "--threads=16\n--query=SELECT a, b FROM t ORDER BY a, b\n--tables=t=f.csv:a Int64,b String~\
     SELECT a, b FROM t ORDER BY a, b|t=f.csv:a Int64,b String|16|8192|",
    "--query\nSELECT a FROM t LIMIT 3 OFFSET 2\n--tables\nt=p1+p2+p3+p4:a Int64~\
     SELECT a FROM t LIMIT 3 OFFSET 2|t=p1+p2+p3+p4:a Int64|4|8192|",
    "--query\nSELECT a FROM t LIMIT 0\n--tables\nt=p1+p2+p3+p4:a Int64~\
     SELECT a FROM t LIMIT 0|t=p1+p2+p3+p4:a Int64|4|8192|",
    "--query\nSELECT a, count() FROM t GROUP BY a LIMIT 0\n--tables\nt=f.csv:a Int64~\
     SELECT a, count() FROM t GROUP BY a LIMIT 0|t=f.csv:a Int64|4|8192|",
    "--query\nSELECT count(), sum(a) FROM t\n--tables\nt=@list.txt:a Int64~\
     SELECT count(), sum(a) FROM t|t=@list.txt:a Int64|4|8192|",
    "--header\n--query\nSELECT shop, count() AS n, sum(qty * price) AS total FROM sales WHERE \
     price > 50 GROUP BY shop HAVING count() > 1 ORDER BY total DESC, shop LIMIT \
     10\n--tables\nsales=s.csv:day String,shop UInt64,qty UInt64,price UInt64~SELECT shop, \
     count() AS n, sum(qty * price) AS total FROM sales WHERE price > 50 GROUP BY shop HAVING \
     count() > 1 ORDER BY total DESC, shop LIMIT 10|sales=s.csv:day String,shop UInt64,qty \
     UInt64,price UInt64|4|8192|header",
];

// A table as it is declared.
fn write_table(out: &mut String, table: &TableDecl) -> Result<(), AllocError> {
    out.push_str(utf8(&table.schema.name))?;
    match &table.parts {
        PartsDecl::ListFile(path) => write!(out, "=@{}", utf8(path))?,
        PartsDecl::Paths(paths) => {
            for (i, path) in paths.as_slice().iter().enumerate() {
                write!(out, "{}{}", if i > 0 { '+' } else { '=' }, utf8(path))?;
            }
        }
    }
    for (i, column) in table.schema.columns.as_slice().iter().enumerate() {
        let kind = match column.kind {
            ColumnType::Int64 => "Int64",
            ColumnType::UInt64 => "UInt64",
            ColumnType::Text => "String",
            ColumnType::NullInt64 => "Nullable(Int64)",
            ColumnType::NullUInt64 => "Nullable(UInt64)",
            ColumnType::NullText => "Nullable(String)",
        };
        write!(
            out,
            "{}{} {kind}",
            if i > 0 { ',' } else { ':' },
            utf8(&column.name)
        )?;
    }
    Ok(())
}

fn write_command(out: &mut String, command: &Command) -> Result<(), AllocError> {
    out.push_str(utf8(&command.query))?;
    for (i, table) in command.tables.as_slice().iter().enumerate() {
        out.push(if i > 0 { ';' } else { '|' })?;
        write_table(out, table)?;
    }
    let (threads, rows) = (command.threads, command.chunk_rows);
    let header = if command.header { "header" } else { "" };
    let tables = if command.tables.len() == 0 { "|" } else { "" };
    write!(out, "{tables}|{threads}|{rows}|{header}")
}

fn shown(alloc: Global, words: &[String]) -> Result<String, AllocError> {
    let mut out = String::new(alloc);
    match read_words(alloc, words) {
        Ok(command) => write_command(&mut out, &command)?,
        Err(WordsRefusal::Usage) => out.push_str("usage")?,
        Err(WordsRefusal::Memory) => out.push_str("memory")?,
    }
    Ok(out)
}

fn words_of(alloc: Global, text: &str) -> Result<Vec<String>, AllocError> {
    let mut words = Vec::new(alloc);
    for word in text.split('\n') {
        words.push(String::from_str(alloc, word)?)?;
    }
    Ok(words)
}

fn command_text(alloc: Global, text: &str) -> Result<String, Fail> {
    Ok(shown(alloc, words_of(alloc, text)?.as_slice())?)
}

#[test]
fn words_mean_what_clap_and_the_forms_say(rt: HostRuntime) -> Result<(), Fail> {
    check_each(&rt, rt.alloc(), &CASES, command_text)
}

// So the program's words are where one of them isn't UTF-8.
#[test]
fn no_words_are_a_faulty_command_line(rt: HostRuntime) -> Result<(), Fail> {
    assert!(rt; shown(rt.alloc(), &[])?.as_str() == "usage");
    Ok(())
}

// Adds words with a number in each, from 1 on.
fn write_numbered(
    out: &mut String,
    word: &str,
    count: &str,
    behind: &str,
) -> Result<(), AllocError> {
    for i in 1..count.parse().unwrap_or(0u32) {
        write!(out, "{word}{i}{behind}")?;
    }
    Ok(())
}

// The parts and columns of a table.
fn declared(alloc: Global, parts: &str, columns: &str) -> Result<String, AllocError> {
    let mut text = String::from_str(alloc, "=p")?;
    write_numbered(&mut text, "+p", parts, "")?;
    text.push_str(":c Int64")?;
    write_numbered(&mut text, ",c", columns, " Int64")?;
    Ok(text)
}

// Whether so many tables, each with so many parts and columns, are declared.
fn acceptance_text(alloc: Global, text: &str) -> Result<String, Fail> {
    let (tables, rest) = halves(text, ' ');
    let (parts, columns) = halves(rest, ' ');
    let table = declared(alloc, parts, columns)?;
    let mut text = format!(in alloc; "--query\nq\n--tables\nt{table}")?;
    write_numbered(&mut text, ";t", tables, table.as_str())?;
    let taken = read_words(alloc, words_of(alloc, text.as_str())?.as_slice()).is_ok();
    Ok(format!(in alloc; "{taken}")?)
}

// The limit of 32 parts isn't one of the words.
#[test]
fn eight_tables_of_64_columns_are_the_most(rt: HostRuntime) -> Result<(), Fail> {
    let cases = ["8 1 64~true", "9 1 1~false", "1 1 65~false", "1 33 1~true"];
    check_each(&rt, rt.alloc(), &cases, acceptance_text)
}
