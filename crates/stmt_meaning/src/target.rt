//! Where a statement works: the checks of its names.
ghost use Rattle.std.specs.Prelude.{◌≡◌};
ghost use Rattle.stmt_meaning.specs.meaning.Plans.{aim_of, in_table as in_table_def, in_column as in_column_def, whole};
ghost use Rattle.svc_values.specs.meaning.Schemas.{column_of as column_of_def, schema_of as schema_of_def};
ghost use Rattle.stmt_meaning.specs.InnerSeen.{aim_seen};

use svc_values::{Column, Name, Schema, Statement, StatementFault, schema_of};

/// Where a statement works: the columns of its table, and the place of the column that it names,
/// from 0, or 0 where it names none.
#[derive(Clone, Copy)]
pub struct Target<'a> {
    pub columns: &'a [Column],
    pub at: usize,
}

/// The place of a column. Linear in the columns, which are at most eight.
fn column_of(columns: &[Column], column: &Name) -> Option<usize>
    ensures { result ≡ column_of_def columns.now column.now }
{
    columns.iter().position(|one| one.name == *column)
}

fn in_table<'a>(schemas: &'a [Schema], table: &Name) -> Result<Target<'a>, StatementFault>
    ensures { aim_seen result ≡ in_table_def (schema_of_def schemas.now table.now) whole }
{
    match schema_of(schemas, table) {
        None => Err(StatementFault::NoTable),
        Some(schema) => Ok(Target {
            columns: schema.columns.as_slice(),
            at: 0,
        }),
    }
}

fn in_column<'a>(
    schemas: &'a [Schema],
    table: &Name,
    column: &Name,
) -> Result<Target<'a>, StatementFault>
    ensures { aim_seen result ≡ in_table_def (schema_of_def schemas.now table.now)
        (in_column_def column.now) }
{
    let Some(schema) = schema_of(schemas, table) else {
        return Err(StatementFault::NoTable);
    };
    let columns = schema.columns.as_slice();
    match column_of(columns, column) {
        None => Err(StatementFault::NoColumn),
        Some(at) => Ok(Target { columns, at }),
    }
}

/// Where a statement works, or the fault of its names: a table or a column that is not there, and
/// an update of the key. No operand is read yet. A `Show` works nowhere. Linear in the tables and
/// in the columns of the one.
pub fn target_of<'a>(
    schemas: &'a [Schema],
    statement: &Statement,
) -> Result<Target<'a>, StatementFault>
    ensures { aim_seen result ≡ aim_of schemas.now statement.now }
{
    match statement {
        Statement::Insert { table, .. }
        | Statement::Delete { table, .. }
        | Statement::Get { table, .. }
        | Statement::Count { table } => in_table(schemas, table),
        Statement::Update { table, column, .. } => {
            let target = in_column(schemas, table, column)?;
            if target.at == 0 {
                return Err(StatementFault::KeyColumn);
            }
            Ok(target)
        }
        Statement::Select { table, column, .. } | Statement::Sum { table, column } => {
            in_column(schemas, table, column)
        }
        Statement::Show { .. } => Ok(Target {
            columns: &[],
            at: 0,
        }),
    }
}
