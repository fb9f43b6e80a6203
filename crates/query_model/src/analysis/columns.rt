// The columns of From.
ghost use Rattle.std.specs.Prelude.{◌≡◌, ◌++◌, [], IfOk, OnOk};
ghost use Rattle.query_model.specs.Refusals.{FromColumn as Column, declared_column, is_in_table as is_of_table, join_columns, means, schema_columns, table_columns};

use crate::query::{ColumnDecl, ColumnRef, Join, Schema, TableRef};
use chunk_data::{Bytes, ColumnType, Memory};
use std::alloc::Global;
use std::marker::Model;

/// A column of From: its table's name, its own name and its type.
#[derive(Drop)]
pub(crate) struct FromColumn {
    table: Bytes,
    own: Bytes,
    kind: ColumnType,
}

impl Model for FromColumn {
    ghost use Rattle.query_model.specs.Refusals.{FromColumn as Column};

    ghost Value = { Column };

    ghost view = { λ c. record { table = c.table; name = c.own; type = c.kind } };
}

impl FromColumn {
    fn declared(alloc: Global, table: &[u8], column: &ColumnDecl) -> Result<Self, Memory>
        ensures { IfOk result (λ c. c ≡ declared_column table.now column.now) }
    {
        Ok(FromColumn {
            table: Bytes::from_slice(alloc, table)?,
            own: column.name.copy()?,
            kind: column.kind,
        })
    }

    pub(crate) fn is_meant(&self, c: &ColumnRef) -> bool
        ensures { result ≡ means c.now self.now }
    {
        is_in_table(&c.table, self.table.as_slice()) && c.name.as_slice() == self.own.as_slice()
    }

    pub(crate) fn kind(&self) -> ColumnType
        ensures { result ≡ self.now.type }
    {
        self.kind
    }

    pub(crate) fn name(&self) -> Result<Bytes, Memory>
        ensures { IfOk result (λ name. name ≡ self.now.name) }
    {
        self.own.copy()
    }
}

fn is_in_table(qualifier: &Option<Bytes>, table: &[u8]) -> bool
    ensures { result ≡ is_of_table qualifier.now table.now }
{
    match qualifier {
        Some(name) => name.as_slice() == table,
        None => true,
    }
}

fn push_columns(alloc: Global, columns: &mut Vec<FromColumn>, schema: &Schema) -> Result<(), Memory>
    ensures { OnOk result (columns.new.items ≡ columns.old.items ++ schema_columns schema.now) }
{
    for column in schema.columns.as_slice() {
        let declared = FromColumn::declared(alloc, schema.name.as_slice(), column)?;
        columns.push(declared)?;
    }
    Ok(())
}

fn push_declared(
    alloc: Global,
    columns: &mut Vec<FromColumn>,
    table: &[u8],
    tables: &[Schema],
) -> Result<(), Memory>
    ensures { OnOk result (columns.new.items
        ≡ columns.old.items ++ table_columns tables.now (TableRef.Named table.now)) }
{
    let mut rest = tables;
    while let Some((schema, behind)) = rest.split_first() {
        if schema.name.as_slice() == table {
            return push_columns(alloc, columns, schema);
        }
        rest = behind;
    }
    Ok(())
}

fn push_number(alloc: Global, columns: &mut Vec<FromColumn>, count: u64) -> Result<(), Memory>
    ensures { OnOk result
        (columns.new.items ≡ columns.old.items ++ table_columns [] (TableRef.Numbers count)) }
{
    columns.push(FromColumn {
        table: Bytes::from_slice(alloc, b"numbers")?,
        own: Bytes::from_slice(alloc, b"number")?,
        kind: ColumnType::UInt64,
    })?;
    Ok(())
}

fn push_table(
    alloc: Global,
    columns: &mut Vec<FromColumn>,
    table: &TableRef,
    tables: &[Schema],
) -> Result<(), Memory>
    ensures { OnOk result
        (columns.new.items ≡ columns.old.items ++ table_columns tables.now table.now) }
{
    match table {
        TableRef::Named(name) => push_declared(alloc, columns, name.as_slice(), tables),
        TableRef::Numbers(count) => push_number(alloc, columns, *count),
    }
}

pub(crate) fn table_columns_of(
    alloc: Global,
    table: &TableRef,
    tables: &[Schema],
) -> Result<Vec<FromColumn>, Memory>
    ensures { IfOk result (λ columns. columns.items ≡ table_columns tables.now table.now) }
{
    let mut columns = Vec::new(alloc);
    push_table(alloc, &mut columns, table, tables)?;
    Ok(columns)
}

pub(crate) fn push_joined(
    alloc: Global,
    columns: &mut Vec<FromColumn>,
    join: &Option<Join>,
    tables: &[Schema],
) -> Result<(), Memory>
    ensures { OnOk result (columns.new.items
        ≡ columns.old.items ++ join_columns tables.now join.now) }
{
    match join {
        Some(join) => push_table(alloc, columns, &join.table, tables),
        None => Ok(()),
    }
}
