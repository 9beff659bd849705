//! The rows of all tables, each with its indexes, by name.
ghost use Rattle.std.specs.Prelude.{◌≡◌, OnOk, OnErr, IfOk, None, Some, map};
ghost use Rattle.std.specs.List.{list_all};
ghost use Rattle.svc_values.specs.meaning.Schemas.{key_of as key_of_def};
ghost use Rattle.svc_values.specs.meaning.Tables.{in_order};
ghost use Rattle.table_store.specs.Given.{is_index_of, keyed, named, plain, shelf_named};
ghost use Rattle.table_store.specs.Rows.{IsShelved, all_rows, shelf_of, shelf_rows};
ghost use Rattle.table_store.specs.Shelves.{Changes, ChangesAll};
ghost use Rattle.table_store.specs.Stored.{AreApart};

use crate::shelf::Shelf;
use std::alloc::Global;
use std::collections::BTreeMap;
use svc_values::{Name, NoMemory, Row, Schema, Value, schema_of};

/// The rows that a table begins with. The first value of a row is its key.
#[derive(Drop)]
pub struct TableRows {
    pub table: Name,
    pub rows: Vec<Row>,
}

/// A column by whose values the rows of a table are indexed. It is told by its place from 0.
#[derive(Drop)]
pub struct IndexOf {
    pub table: Name,
    pub column: usize,
}

/// Whether the index is of a table that is declared, by one of its columns.
fn is_index(schemas: &[Schema], index: &IndexOf) -> bool
    ensures { result ≡ is_index_of schemas.now index.now }
{
    match schema_of(schemas, &index.table) {
        None => false,
        Some(schema) => index.column < schema.columns.len(),
    }
}

/// Whether each index is of a table that is declared, by one of its columns, so that tables may be
/// indexed by them. Linear in the indexes by the tables.
pub fn are_indexes(schemas: &[Schema], indexes: &[IndexOf]) -> bool
    ensures { result ≡ list_all (is_index_of schemas.now) indexes.now }
{
    indexes.iter().all(|index| is_index(schemas, index))
}

/// The rows of each table that has had any or is indexed, by its name.
pub(crate) type Shelves = BTreeMap<Name, Shelf>;

/// The rows of these tables, which are moved.
pub(crate) fn filled(alloc: Global, tables: Vec<TableRows>) -> Result<Shelves, NoMemory>
    requires { AreApart (plain tables.items) }
    ensures shelved { IfOk result (λ shelves. IsShelved shelves.entries) }
    ensures rows { IfOk result (λ shelves. all_rows shelves.entries
        ≡ in_order (plain tables.items)) }
{
    let mut shelves = BTreeMap::new(alloc);
    for one in tables {
        let TableRows { table, rows } = one;
        put_all(alloc, &mut shelves, table, rows)?;
    }
    Ok(shelves)
}

/// The rows of each declared table in order of key beside its name, taken out of the shelves.
/// Linear in the rows, and quadratic in the tables, which are at most 32.
pub(crate) fn emptied(
    alloc: Global,
    shelves: &mut Shelves,
    schemas: &[Schema],
) -> Result<Vec<TableRows>, NoMemory>
    ensures { IfOk result (λ all. map named all.items
        ≡ map (shelf_named shelves.old.entries) schemas.now) }
{
    let mut all = Vec::new(alloc);
    for at in 0..schemas.len() {
        let name = &schemas[at].name;
        let rows = taken(alloc, shelves, name, &schemas[at + 1..])?;
        all.push(TableRows {
            table: name.copied(),
            rows,
        })?;
    }
    Ok(all)
}

/// The rows of a table in order of key. They are taken out of the shelves, and copied where they
/// are shared or a later declaration is of the same table. Linear in the rows.
#[tactic(auto, using(crate::proofs::Emptied::others_same))]
fn taken(
    alloc: Global,
    shelves: &mut Shelves,
    table: &Name,
    later: &[Schema],
) -> Result<Vec<Row>, NoMemory>
    ensures rows { IfOk result (λ rows. rows.items
        ≡ shelf_rows (shelf_of shelves.old.entries table.now)) }
    ensures later { map (shelf_named shelves.new.entries) later.now
        ≡ map (shelf_named shelves.old.entries) later.now }
{
    if schema_of(later, table).is_some() {
        return match shelves.get(table) {
            None => Ok(Vec::new(alloc)),
            Some(shelf) => shelf.rows().share()?.into_rows(),
        };
    }
    match shelves.remove(table) {
        None => Ok(Vec::new(alloc)),
        Some(shelf) => shelf.into_rows(),
    }
}

/// The same rows, indexed by these columns: n log n for each index of a table of n rows.
pub(crate) fn indexed(
    alloc: Global,
    shelves: Shelves,
    indexes: &[IndexOf],
) -> Result<Shelves, NoMemory>
    requires { IsShelved shelves.entries }
    ensures shelved { IfOk result (λ made. IsShelved made.entries) }
    ensures rows { IfOk result (λ made. all_rows made.entries ≡ all_rows shelves.entries) }
{
    let mut shelves = shelves;
    for index in indexes {
        index_by(alloc, &mut shelves, &index.table, index.column)?;
    }
    Ok(shelves)
}

/// Indexes a table by a column.
fn index_by(
    alloc: Global,
    shelves: &mut Shelves,
    table: &Name,
    column: usize,
) -> Result<(), NoMemory>
    requires { IsShelved shelves.old.entries }
    ensures shelved { IsShelved shelves.new.entries }
    ensures rows { all_rows shelves.new.entries ≡ all_rows shelves.old.entries }
{
    match shelves.get_mut(table) {
        Some(shelf) => shelf.index_by(column),
        None => {
            let mut shelf = Shelf::new(alloc)?;
            shelf.index_by(column)?;
            shelves.insert(table.copied(), shelf)?;
            Ok(())
        }
    }
}

/// Puts each row of a table in the place of that of its key, if any, one after the other. After a
/// refusal some of them are in.
fn put_all(
    alloc: Global,
    shelves: &mut Shelves,
    table: Name,
    rows: Vec<Row>,
) -> Result<(), NoMemory>
    requires { IsShelved shelves.old.entries }
    ensures ok { OnOk result (ChangesAll shelves.old.entries table (map keyed rows.items)
        shelves.new.entries) }
    ensures shelved { IsShelved shelves.new.entries }
{
    match shelves.get_mut(&table) {
        Some(there) => there.put_all(rows),
        None => {
            let mut there = Shelf::new(alloc)?;
            there.put_all(rows)?;
            shelves.insert(table, there)?;
            Ok(())
        }
    }
}

/// Puts a row in the place of that of its key, if any.
pub(crate) fn put(
    alloc: Global,
    shelves: &mut Shelves,
    table: &Name,
    key: &Value,
    row: Row,
) -> Result<(), NoMemory>
    requires shelved { IsShelved shelves.old.entries }
    requires own { key_of_def row ≡ key.now }
    ensures ok { OnOk result (Changes shelves.old.entries table.now key.now (Some row)
        shelves.new.entries) }
    ensures err { OnErr result (shelves.new.entries ≡ shelves.old.entries) }
    ensures shelved { IsShelved shelves.new.entries }
{
    match shelves.get_mut(table) {
        Some(rows) => rows.put(key, row),
        None => {
            let mut rows = Shelf::new(alloc)?;
            rows.put(key, row)?;
            shelves.insert(table.copied(), rows)?;
            Ok(())
        }
    }
}

/// Takes the row of a key away, if there is one.
pub(crate) fn take_away(shelves: &mut Shelves, table: &Name, key: &Value) -> Result<(), NoMemory>
    requires { IsShelved shelves.old.entries }
    ensures ok { OnOk result (Changes shelves.old.entries table.now key.now None
        shelves.new.entries) }
    ensures err { OnErr result (shelves.new.entries ≡ shelves.old.entries) }
    ensures shelved { IsShelved shelves.new.entries }
{
    match shelves.get_mut(table) {
        Some(rows) => rows.take_away(key),
        None => Ok(()),
    }
}
