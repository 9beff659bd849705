//! The tables of a service.
ghost use Rattle.std.specs.Prelude.{◌≡◌, IsTrue, None, OnOk, OnErr, IfOk, map};
ghost use Rattle.std.specs.List.{list_all};
ghost use Rattle.std.specs.Option.{option_copied, option_map};
ghost use Rattle.svc_values.specs.meaning.Same.{same_value};
ghost use Rattle.svc_values.specs.declared.tables.Place.TheVariants as place;
ghost use Rattle.svc_values.specs.meaning.Tables.{rows_at, with_write, with_writes, in_order};
ghost use Rattle.svc_values.specs.meaning.Schemas.{schema_of as schema_of_def, key_of as key_of_def};
ghost use Rattle.svc_values.specs.meaning.Tests.{selected as selected_def};
ghost use Rattle.svc_values.specs.meaning.Fitting.{is_row_of, has_fit, write_fits, writes_fit};
ghost use Rattle.svc_values.specs.Fitting.{tables_fit};
ghost use Rattle.table_store.specs.Rows.{rows_if_any, row_if_any};
ghost use Rattle.table_store.specs.Given.{plain, named, named_in, is_index_of, keyed_rows};
ghost use Rattle.table_store.specs.Selection.{apart_from, at_most_32, meeting};
ghost use Rattle.table_store.specs.Stored.{AreKept, AreApart, HasSome};

use crate::row_map::RowMap;
use crate::shelf::Shelf;
use crate::shelves::{self, IndexOf, Shelves, TableRows};
use std::alloc::Global;
use std::collections::BTreeMap;
use std::marker::Model;
use svc_values::{
    Name, NoMemory, Row, Schema, Schemas, Test, TryCopy, Value, Write, Writes, schema_of,
};

/// The tables of a service with their rows, seen as their declarations and the list of all rows in
/// the order of table and key.
#[derive(Drop)]
pub struct Tables {
    schemas: Schemas,
    shelves: Shelves,
    alloc: Global,
}

impl Model for Tables {
    ghost use Rattle.table_store.specs.Rows.{all_rows};
    ghost use Rattle.table_store.specs.Stored.{Stored, IsStored};

    ghost Value = { Stored };

    ghost view = { λ a. record { schemas = a.schemas; rows = all_rows a.shelves.entries } };

    ghost invariant = { λ a. IsStored a.schemas a.shelves.entries };
}

impl Tables {
    /// Tables with these rows, which are moved. It is linear in the rows of a table that come in
    /// order of key, and else takes n log n for n rows.
    pub fn new(alloc: Global, schemas: Schemas, tables: Vec<TableRows>) -> Result<Tables, NoMemory>
        requires fitting { IsTrue (tables_fit schemas (plain tables.items)) }
        requires apart { AreApart (plain tables.items) }
        ensures made { IfOk result (λ made. made ≡ record {
          schemas = schemas;
          rows =
              in_order (plain tables.items);
        }) }
        ensures kept { IfOk result (λ made. AreKept made) }
    {
        Tables::indexed(alloc, schemas, tables, &[])
    }

    /// The same with an index for each of these columns: beside what `new` takes, n log n for each
    /// index of a table of n rows. A table whose indexes find no memory at a write has none from
    /// then on.
    pub fn indexed(
        alloc: Global,
        schemas: Schemas,
        tables: Vec<TableRows>,
        indexes: &[IndexOf],
    ) -> Result<Tables, NoMemory>
        requires fitting { IsTrue (tables_fit schemas (plain tables.items)) }
        requires apart { AreApart (plain tables.items) }
        requires indexes { IsTrue (list_all (is_index_of schemas) indexes.now) }
        ensures made { IfOk result (λ made. made ≡ record {
          schemas = schemas;
          rows =
              in_order (plain tables.items);
        }) }
        ensures kept { IfOk result (λ made. AreKept made) }
    {
        let shelves = shelves::filled(alloc, tables)?;
        let shelves = shelves::indexed(alloc, shelves, indexes)?;
        Ok(Tables {
            schemas,
            shelves,
            alloc,
        })
    }

    /// The declaration of a table, `None` exactly where there is no such table. Linear in the
    /// tables, which are at most 32. It takes no memory.
    pub fn schema(&self, table: &Name) -> Option<&Schema>
        ensures { option_copied result ≡ schema_of_def self.now.schemas table.now }
    {
        schema_of(self.schemas.as_slice(), table)
    }

    /// The declarations in the order in which they were given.
    pub fn schemas(&self) -> &Schemas
        ensures schemas { result.now ≡ self.now.schemas }
        ensures kept { AreKept self.now }
    {
        &self.schemas
    }

    /// Whether a write names a table, a key of its first column's kind, and a row of that key that
    /// fits its columns, if it has a row.
    pub fn fits(&self, write: &Write) -> bool
        ensures { result ≡ write_fits self.now.schemas write.now }
    {
        match self.schema(&write.table) {
            None => false,
            Some(schema) => write_fits_schema(schema, &write.key, &write.row),
        }
    }

    /// Whether each of the writes fits, so that they may be applied. Linear in the writes.
    pub fn all_fit(&self, writes: &Writes) -> bool
        ensures { result ≡ writes_fit self.now.schemas writes.now }
    {
        writes.as_slice().iter().all(|write| self.fits(write))
    }

    /// The rows of a table that has had any or is indexed.
    pub fn row_map(&self, table: &Name) -> Option<&RowMap>
        ensures rows { rows_at self.now.rows (place.Table table.now)
            ≡ rows_if_any table.now (option_copied result) }
        ensures kept { AreKept self.now }
    {
        match self.shelf(table) {
            None => None,
            Some(shelf) => Some(shelf.rows()),
        }
    }

    /// The rows of a table that has had any or is indexed, with its indexes.
    fn shelf(&self, table: &Name) -> Option<&Shelf>
        ensures rows { rows_at self.now.rows (place.Table table.now)
            ≡ rows_if_any table.now (option_copied result) }
        ensures kept { AreKept self.now }
    {
        self.shelves.get(table)
    }

    /// The row of a key of a table, `None` exactly where none stands there. It takes the logarithm
    /// of the number of rows, and no memory.
    pub fn get(&self, table: &Name, key: &Value) -> Option<&Row>
        ensures { rows_at self.now.rows (place.Row table.now key.now)
            ≡ row_if_any table.now key.now (option_copied result) }
    {
        match self.shelves.get(table) {
            None => None,
            Some(shelf) => shelf.rows().get(key),
        }
    }

    /// Copies of the rows whose value in a column, told by its place from 0, meets the test, in
    /// order of key, and `None` exactly where more than 32 do. Where the column is the first, that
    /// of the keys, or is indexed, it takes the logarithm of the rows and 33 of them at most, and
    /// else it is linear in the rows of the table.
    pub fn select(
        &self,
        table: &Name,
        column: usize,
        test: Test,
        value: &Value,
    ) -> Result<Option<Vec<Row>>, NoMemory>
        ensures { IfOk result (λ found. option_map (λ rows. rows.items) found
            ≡ at_most_32 (selected_def column test value.now
            (map (λ one. one.row) (rows_at self.now.rows (place.Table table.now))))) }
    {
        match self.shelf(table) {
            None => Ok(Some(Vec::new(self.alloc))),
            Some(shelf) => shelf.selected(column, test, value),
        }
    }

    /// The same without the rows of these keys, by their own keys. It takes the time of `select`
    /// and that of these keys.
    pub fn select_but(
        &self,
        table: &Name,
        column: usize,
        test: Test,
        value: &Value,
        but: &BTreeMap<Value, usize>,
    ) -> Result<Option<BTreeMap<Value, Row>>, NoMemory>
        ensures { IfOk result (λ found. option_map (λ rows. rows.entries) found
            ≡ at_most_32 (apart_from but.now
            (meeting column test value.now (keyed_rows self.now.rows table.now)))) }
    {
        match self.shelf(table) {
            None => Ok(Some(BTreeMap::new(self.alloc))),
            Some(shelf) => shelf.selected_but(column, test, value, but),
        }
    }

    /// Each declared table in its order, with its rows in order of key. The rows are moved, but
    /// those of a table are copied where they are shared, or where a later declaration has its
    /// name. Linear in the rows, and quadratic in the tables, which are at most 32.
    pub fn into_rows(self) -> Result<Vec<TableRows>, NoMemory>
        ensures { IfOk result (λ all. map named all.items ≡ map (named_in self.rows) self.schemas) }
    {
        let Tables {
            schemas,
            mut shelves,
            alloc,
        } = self;
        shelves::emptied(alloc, &mut shelves, schemas.as_slice())
    }

    /// The tables after writes, in their order. A write takes the logarithm of the number of rows
    /// and the time of a block of them, which is copied where it is shared, as the list of the
    /// blocks is. After a refusal some of the writes are in.
    pub fn apply(&mut self, writes: &Writes) -> Result<(), NoMemory>
        requires { IsTrue (writes_fit self.old.schemas writes.now) }
        ensures ok { OnOk result (self.new ≡ record {
          schemas = self.old.schemas;
          rows =
              with_writes self.old.rows writes.now;
        }) }
        ensures err { OnErr result (HasSome self.old writes.now self.new) }
        ensures kept { AreKept self.new }
    {
        let _ = &self.schemas;
        for write in writes.as_slice() {
            self.write(write)?;
        }
        Ok(())
    }

    fn write(&mut self, write: &Write) -> Result<(), NoMemory>
        requires { IsTrue (write_fits self.old.schemas write.now) }
        ensures ok { OnOk result (self.new ≡ record {
          schemas = self.old.schemas;
          rows =
              with_write self.old.rows write.now;
        }) }
        ensures err { OnErr result (self.new ≡ self.old) }
        ensures kept { AreKept self.new }
    {
        match &write.row {
            None => self.take_away(&write.table, &write.key),
            Some(row) => {
                let row = row.copy(self.alloc)?;
                self.put(&write.table, &write.key, row)
            }
        }
    }

    /// Puts a row in the place of that of its key, if any.
    fn put(&mut self, table: &Name, key: &Value, row: Row) -> Result<(), NoMemory>
        requires { IsTrue (is_row_of (schema_of_def self.old.schemas table.now) key.now row) }
        ensures ok { OnOk result (self.new ≡ record {
          schemas = self.old.schemas;
          rows =
              with_write self.old.rows (record {
                table = table.now;
                key = key.now;
                row = Some row;
              });
        }) }
        ensures err { OnErr result (self.new ≡ self.old) }
        ensures kept { AreKept self.new }
    {
        shelves::put(self.alloc, &mut self.shelves, table, key, row)
    }

    /// Takes the row of a key away, if there is one.
    fn take_away(&mut self, table: &Name, key: &Value) -> Result<(), NoMemory>
        ensures ok { OnOk result (self.new ≡ record {
          schemas = self.old.schemas;
          rows =
              with_write self.old.rows (record { table = table.now; key = key.now; row = None });
        }) }
        ensures err { OnErr result (self.new ≡ self.old) }
        ensures kept { AreKept self.new }
    {
        shelves::take_away(&mut self.shelves, table, key)
    }
}

fn write_fits_schema(schema: &Schema, key: &Value, row: &Option<Row>) -> bool
    ensures { result ≡ has_fit (Some schema.now) key.now row.now }
{
    match row {
        None => match schema.columns.get(0) {
            None => false,
            Some(column) => column.kind == key.kind(),
        },
        Some(row) => schema.fits(row) && is_key_of(key, row),
    }
}

/// Whether the key is the first value of the row.
pub(crate) fn is_key_of(key: &Value, row: &Row) -> bool
    ensures { result ≡ same_value (key_of_def row.now) key.now }
{
    match row.get(0) {
        None => Value::Int(0) == *key,
        Some(first) => *first == *key,
    }
}
