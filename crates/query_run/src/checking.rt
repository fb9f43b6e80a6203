ghost use Rattle.std.specs.Prelude.{◌≡◌, map, IfOk, IfErr};
ghost use Rattle.query_run.specs.Names.{Query, IsReadFrom, IsCheckedCommand, IsRefusedFor};

use crate::ending::Refused;
use chunk_data::{List, Memory};
use command_line::Command;
use query_model::analysis::analyse;
use query_model::checked::Checked;
use query_model::query::{ColumnDecl, Query, Refusal, Schema, TableDecl};
use sql_text::parse;
use std::alloc::Global;

/// The checked query of the command's text.
pub(crate) fn check_command(alloc: Global, command: &Command) -> Result<Checked, Refused>
    ensures checked { IfOk result (IsCheckedCommand command.now) }
    ensures refused { IfErr result (λ r. IsRefusedFor r command.now) }
{
    match parse(alloc, command.query.as_slice()) {
        Ok(query) => analysed(alloc, query, command),
        Err(refusal) => Err(Refused::Text(refusal)),
    }
}

// The query, which was read from the command's text, checked against its tables.
fn analysed(alloc: Global, query: Query, command: &Command) -> Result<Checked, Refused>
    requires { IsReadFrom query command.now.query }
    ensures checked { IfOk result (IsCheckedCommand command.now) }
    ensures refused { IfErr result (λ r. IsRefusedFor r command.now) }
{
    let Ok(schemas) = schemas_of(alloc, command.tables.as_slice()) else {
        return Err(Refused::Query(Refusal::Memory));
    };
    match analyse(alloc, query, &schemas) {
        Ok(checked) => Ok(checked),
        Err(refusal) => Err(Refused::Query(refusal)),
    }
}

// Copies of the tables' names and columns.
fn schemas_of(alloc: Global, tables: &[TableDecl]) -> Result<List<Schema>, Memory>
    ensures { IfOk result (λ schemas. schemas ≡ map (λ (t : TableDecl). t.schema) tables.now) }
{
    let mut schemas = Vec::new(alloc);
    for table in tables {
        let columns = columns_copy(alloc, table.schema.columns.as_slice())?;
        schemas.push(Schema {
            name: table.schema.name.copy()?,
            columns,
        })?;
    }
    Ok(List::from_vec(schemas))
}

fn columns_copy(alloc: Global, columns: &[ColumnDecl]) -> Result<List<ColumnDecl>, Memory>
    ensures { IfOk result (λ copy. copy ≡ columns.now) }
{
    let mut copies = Vec::new(alloc);
    for column in columns {
        copies.push(ColumnDecl {
            name: column.name.copy()?,
            kind: column.kind,
        })?;
    }
    Ok(List::from_vec(copies))
}
