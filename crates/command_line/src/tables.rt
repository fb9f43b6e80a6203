ghost use Rattle.std.specs.Prelude.{◌≡◌, option_map, IfOk, Some};
ghost use Rattle.std.specs.List.{list_all};
ghost use Rattle.query_model.specs.declared.query.PartsDecl.TheVariants.{Paths, ListFile};
ghost use Rattle.command_line.specs.Pieces.{pieces_of};
ghost use Rattle.command_line.specs.Tables.{type_named as type_meant, column_of, few_named, few_of, columns_of, is_path_byte as path_byte_test, is_plain_path as path_test, path_of, parts_spelled, table_if, table_with, table_of, tables_of};

use crate::names::{Named, have_distinct_names};
use crate::pieces::{Piece, read_pieces, text_after, text_before};
use chunk_data::{Bytes, ColumnType, List, Memory};
use query_model::query::{ColumnDecl, PartsDecl, Schema, TableDecl};
use sql_grammar::is_name;
use std::alloc::Global;

/// The most tables of a command.
const MOST_TABLES: usize = 8;

/// The most columns of a table.
const MOST_COLUMNS: usize = 64;

/// The tables of declarations that semicolons separate, such as `t=path:a Int64,b String`.
pub fn read_tables(alloc: Global, text: &[u8]) -> Result<Option<List<TableDecl>>, Memory>
    ensures { IfOk result (λ o. o ≡ tables_of text.now) }
{
    read_few(alloc, text, b';', MOST_TABLES)
}

fn read_columns(alloc: Global, text: &[u8]) -> Result<Option<List<ColumnDecl>>, Memory>
    ensures { IfOk result (λ o. o ≡ columns_of text.now) }
{
    read_few(alloc, text, b',', MOST_COLUMNS)
}

/// At most so many, whose names differ.
fn read_few<T: Piece + Named>(
    alloc: Global,
    text: &[u8],
    separator: u8,
    most: usize,
) -> Result<Option<List<T>>, Memory>
    ensures { IfOk result (λ o. o ≡ few_of T.named most (pieces_of T.meaning separator text.now)) }
{
    match read_pieces(alloc, text, separator)? {
        None => Ok(None),
        Some(items) => {
            if are_few(items.as_slice(), most) {
                Ok(Some(items))
            } else {
                Ok(None)
            }
        }
    }
}

fn are_few<T: Named>(items: &[T], most: usize) -> bool
    ensures { result ≡ few_named T.named most items.now }
{
    items.len() <= most && have_distinct_names(items)
}

impl Named for TableDecl {
    ghost named = { λ t. t.schema.name };

    fn name(&self) -> &[u8] {
        self.schema.name.as_slice()
    }
}

impl Named for ColumnDecl {
    ghost named = { λ c. c.name };

    fn name(&self) -> &[u8] {
        self.name.as_slice()
    }
}

// A declaration.
impl Piece for TableDecl {
    ghost meaning = { table_of };

    fn read(alloc: Global, text: &[u8]) -> Result<Option<TableDecl>, Memory> {
        let name = text_before(text, b'=');
        let behind = text_after(text, b'=');
        let parts = text_before(behind, b':');
        read_table(alloc, name, parts, text_after(behind, b':'))
    }
}

fn read_table(
    alloc: Global,
    name: &[u8],
    parts: &[u8],
    columns: &[u8],
) -> Result<Option<TableDecl>, Memory>
    ensures { IfOk result (λ o.
        o ≡ table_with name.now (parts_spelled parts.now) (columns_of columns.now)) }
{
    if !is_name(name) {
        return Ok(None);
    }
    match read_parts(alloc, parts)? {
        None => Ok(None),
        Some(parts) => match read_columns(alloc, columns)? {
            None => Ok(None),
            Some(columns) => Ok(Some(table_over(alloc, name, parts, columns)?)),
        },
    }
}

fn table_over(
    alloc: Global,
    name: &[u8],
    parts: PartsDecl,
    columns: List<ColumnDecl>,
) -> Result<TableDecl, Memory>
    ensures { IfOk result (λ t. Some t ≡ table_if name.now (Some parts) (Some columns)) }
{
    let schema = Schema {
        name: Bytes::from_slice(alloc, name)?,
        columns,
    };
    Ok(TableDecl { schema, parts })
}

/// Paths that plus signs separate, or `@` and the path of a list file.
fn read_parts(alloc: Global, text: &[u8]) -> Result<Option<PartsDecl>, Memory>
    ensures { IfOk result (λ o. o ≡ parts_spelled text.now) }
{
    match text {
        [] => Ok(None),
        [first, path @ ..] => {
            if *first == b'@' {
                read_list_file(alloc, path)
            } else {
                read_paths(alloc, text)
            }
        }
    }
}

fn read_list_file(alloc: Global, path: &[u8]) -> Result<Option<PartsDecl>, Memory>
    ensures { IfOk result (λ o. o ≡ option_map ListFile (path_of path.now)) }
{
    Ok(Bytes::read(alloc, path)?.map(PartsDecl::ListFile))
}

fn read_paths(alloc: Global, text: &[u8]) -> Result<Option<PartsDecl>, Memory>
    ensures { IfOk result (λ o. o ≡ option_map Paths (pieces_of path_of 43 text.now)) }
{
    Ok(read_pieces(alloc, text, b'+')?.map(PartsDecl::Paths))
}

// A path.
impl Piece for Bytes {
    ghost meaning = { path_of };

    fn read(alloc: Global, text: &[u8]) -> Result<Option<Bytes>, Memory> {
        if is_path(text) {
            Ok(Some(Bytes::from_slice(alloc, text)?))
        } else {
            Ok(None)
        }
    }
}

fn is_path(text: &[u8]) -> bool
    ensures { result ≡ path_test text.now }
{
    match text {
        [] => false,
        [first, ..] => *first != b'@' && are_path_bytes(text),
    }
}

fn are_path_bytes(bytes: &[u8]) -> bool
    ensures { result ≡ list_all path_byte_test bytes.now }
{
    bytes.iter().all(|byte| is_path_byte(*byte))
}

fn is_path_byte(byte: u8) -> bool
    ensures { result ≡ path_byte_test byte }
{
    !(byte == b'+' || byte == b':' || byte == b';')
}

// A name, one space and a type.
impl Piece for ColumnDecl {
    ghost meaning = { column_of };

    fn read(alloc: Global, text: &[u8]) -> Result<Option<ColumnDecl>, Memory> {
        let name = text_before(text, b' ');
        match type_named(text_after(text, b' ')) {
            None => Ok(None),
            Some(kind) => {
                if is_name(name) {
                    let name = Bytes::from_slice(alloc, name)?;
                    Ok(Some(ColumnDecl { name, kind }))
                } else {
                    Ok(None)
                }
            }
        }
    }
}

fn type_named(text: &[u8]) -> Option<ColumnType>
    ensures { result ≡ type_meant text.now }
{
    if text == b"Int64".as_slice() {
        Some(ColumnType::Int64)
    } else if text == b"UInt64".as_slice() {
        Some(ColumnType::UInt64)
    } else if text == b"String".as_slice() {
        Some(ColumnType::Text)
    } else if text == b"Nullable(Int64)".as_slice() {
        Some(ColumnType::NullInt64)
    } else if text == b"Nullable(UInt64)".as_slice() {
        Some(ColumnType::NullUInt64)
    } else if text == b"Nullable(String)".as_slice() {
        Some(ColumnType::NullText)
    } else {
        None
    }
}
