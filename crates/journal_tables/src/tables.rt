//! The tables that a store comes to.
ghost use Rattle.std.specs.Prelude.{◌≡◌, ◌≤◌, All, IfOk, OnOk, IsTrue, length, map};
ghost use Rattle.std.specs.List.{flat_map, list_all};
ghost use Rattle.svc_values.specs.meaning.Fitting.{writes_fit};
ghost use Rattle.table_store.specs.Given.{is_index_of, plain};
ghost use Rattle.commit_log.specs.meaning.Bases.{rows_of, schema_in, schemas_of, start_of as start_def};
ghost use Rattle.commit_log.specs.Bases.{IsBase};
ghost use Rattle.journal_tables.specs.Written.{entry_fits, tables_with};

use commit_log::{Base, BaseTable, BaseTables};
use std::alloc::Global;
use svc_values::{Entry, NoMemory, Schema, Schemas, TryCopy};
use table_store::{IndexOf, TableRows, Tables};

/// The tables of a base, with what these entries wrote. n log n for n rows and writes.
pub fn tables_of(alloc: Global, base: Base, entries: &[Entry]) -> Result<Tables, NoMemory>
    requires base { IsBase base }
    requires fitting { All (λ entry. IsTrue (writes_fit (schemas_of base) entry.writes))
        entries.now }
    ensures { IfOk result (λ tables. tables ≡ record {
      schemas = schemas_of base;
      rows =
          tables_with (start_def base) entries.now;
    }) }
{
    indexed_tables_of(alloc, base, entries, &[])
}

/// The same with an index for each of these columns: n log n besides for n rows of each index.
pub fn indexed_tables_of(
    alloc: Global,
    base: Base,
    entries: &[Entry],
    indexes: &[IndexOf],
) -> Result<Tables, NoMemory>
    requires base { IsBase base }
    requires fitting { All (λ entry. IsTrue (writes_fit (schemas_of base) entry.writes))
        entries.now }
    requires indexes { IsTrue (list_all (is_index_of (schemas_of base)) indexes.now) }
    ensures { IfOk result (λ tables. tables ≡ record {
      schemas = schemas_of base;
      rows =
          tables_with (start_def base) entries.now;
    }) }
{
    let mut tables = start_of(alloc, base, indexes)?;
    apply_each(&mut tables, entries)?;
    Ok(tables)
}

/// The tables after the writes of these entries.
fn apply_each(tables: &mut Tables, entries: &[Entry]) -> Result<(), NoMemory>
    requires { IsTrue (list_all (entry_fits tables.old.schemas) entries.now) }
    ensures { OnOk result (tables.new ≡ record {
      schemas = tables.old.schemas;
      rows =
          tables_with tables.old.rows entries.now;
    }) }
{
    for entry in entries {
        tables.apply(&entry.writes)?;
    }
    Ok(())
}

/// The tables of the base, indexed by these columns.
fn start_of(alloc: Global, base: Base, indexes: &[IndexOf]) -> Result<Tables, NoMemory>
    requires base { IsBase base }
    requires indexes { IsTrue (list_all (is_index_of (schemas_of base)) indexes.now) }
    ensures { IfOk result (λ tables. tables ≡ record {
      schemas = schemas_of base;
      rows =
          start_def base;
    }) }
{
    let Base { tables, .. } = base;
    let (schemas, given) = gathered(alloc, tables)?;
    Tables::indexed(alloc, Schemas::from_vec(schemas), given, indexes)
}

/// The declarations of the tables, and the rows of each, which are moved.
fn gathered(alloc: Global, tables: BaseTables) -> Result<(Vec<Schema>, Vec<TableRows>), NoMemory>
    ensures schemas { IfOk result (λ all. all.0.items ≡ map schema_in tables) }
    ensures rows { IfOk result (λ all. plain all.1.items ≡ flat_map rows_of tables) }
    ensures few { IfOk result (λ all. length all.0.items ≤ 32) }
{
    let mut schemas = Vec::with_capacity(alloc, tables.len())?;
    let mut given = Vec::with_capacity(alloc, tables.len())?;
    for one in tables.into_vec() {
        let BaseTable { schema, rows } = one;
        let table = schema.name.copy(alloc)?;
        given.push(TableRows {
            table,
            rows: rows.into_vec(),
        })?;
        schemas.push(schema)?;
    }
    Ok((schemas, given))
}
