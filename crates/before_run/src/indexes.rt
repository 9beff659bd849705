//! The columns by which the tables of a document are indexed.
ghost use Rattle.std.specs.Prelude.{◌≡◌, ◌++◌, IfOk, OnOk, flat_map};
ghost use Rattle.std.specs.Option.{option_to_list};
ghost use Rattle.svc_values.specs.meaning.Schemas.{column_of as column_of_def};
ghost use Rattle.before_run.specs.Indexes.{index_by as index_by_def, indexes_in, indexes_of as indexes_def};

use outage_schedule::DocTable;
use std::alloc::Global;
use svc_values::{Column, Name, NoMemory};
use table_store::IndexOf;

/// The place of a column. Linear in the columns, which are at most eight.
fn column_of(columns: &[Column], name: &Name) -> Option<usize>
    ensures { result ≡ column_of_def columns.now name.now }
{
    columns.iter().position(|column| column.name == *name)
}

/// The index by the column of this name, of which a document's table has one.
fn index_by(table: &DocTable, name: &Name) -> Option<IndexOf>
    ensures { result ≡ index_by_def table.now name.now }
{
    match column_of(table.columns.as_slice(), name) {
        None => None,
        Some(column) => Some(IndexOf {
            table: table.name.copied(),
            column,
        }),
    }
}

/// One index more, if there is one.
fn add(all: &mut Vec<IndexOf>, index: Option<IndexOf>) -> Result<(), NoMemory>
    ensures { OnOk result (all.new.items ≡ all.old.items ++ option_to_list index) }
{
    match index {
        None => Ok(()),
        Some(index) => Ok(all.push(index)?),
    }
}

/// Adds an index of the table for each of these names.
fn add_each(all: &mut Vec<IndexOf>, table: &DocTable, names: &[Name]) -> Result<(), NoMemory>
    ensures { OnOk result
        (all.new.items ≡ all.old.items ++ flat_map
        (λ name. option_to_list (index_by_def table.now name)) names.now) }
{
    for name in names {
        add(all, index_by(table, name))?;
    }
    Ok(())
}

/// Adds the indexes of a table.
fn add_indexes(all: &mut Vec<IndexOf>, table: &DocTable) -> Result<(), NoMemory>
    ensures { OnOk result (all.new.items ≡ all.old.items ++ indexes_in table.now) }
{
    add_each(all, table, table.index.as_slice())
}

/// The indexes that these tables of a document ask for, each told by the place of its column.
/// Linear in the columns that they name.
pub fn indexes_of(alloc: Global, tables: &[DocTable]) -> Result<Vec<IndexOf>, NoMemory>
    ensures { IfOk result (λ made. made.items ≡ indexes_def tables.now) }
{
    let mut all = Vec::new(alloc);
    for table in tables {
        add_indexes(&mut all, table)?;
    }
    Ok(all)
}
