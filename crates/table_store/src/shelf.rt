//! The rows of one table with its indexes.
ghost use Rattle.std.specs.Prelude.{◌≡◌, ◌&&◌, true, None, OnOk, OnErr, IfOk, [], map, slice_get, if◌then◌else◌};
ghost use Rattle.std.specs.Map.{update_all, values_of};
ghost use Rattle.std.specs.Option.{option_copied, option_map};
ghost use Rattle.std.specs.Ordering.{eq_by_cmp, is_eq};
ghost use Rattle.svc_values.specs.meaning.Order.{value_cmp};
ghost use Rattle.svc_values.specs.meaning.Schemas.{key_of as key_of_def};
ghost use Rattle.svc_values.specs.meaning.Tests.{selected as selected_def};
ghost use Rattle.svc_values.specs.declared.value.Value.{Value as ValueSeen};
ghost use Rattle.table_store.specs.Given.{keyed};
ghost use Rattle.table_store.specs.Indexes.{AreIndexesOf, IsIndexOf, has_pair, has_value, is_value, with_row};
ghost use Rattle.table_store.specs.declared.column_index.ColumnIndex.{ColumnIndex as IndexSeen};
ghost use Rattle.table_store.specs.Rows.{keyed_of, KeysFirst, KeysRise};
ghost use Rattle.table_store.specs.Selection.{apart_from, at_most_32, meeting};

use crate::column_index::ColumnIndex;
use crate::row_map::RowMap;
use crate::select::{found_by, found_in, rows_of};
use std::alloc::Global;
use std::collections::BTreeMap;
use std::marker::Model;
use svc_values::{NoMemory, Row, Test, Value};

/// The rows of one table, seen as the list of the keys and their rows in order of key, with an
/// index of them for each column that has one. A change that finds no memory for the indexes drops
/// them.
#[derive(Drop)]
pub(crate) struct Shelf {
    rows: RowMap,
    indexes: Vec<ColumnIndex>,
    alloc: Global,
}

impl Model for Shelf {
    ghost use Rattle.table_store.specs.Indexes.{AreIndexesOf};
    ghost use Rattle.table_store.specs.Rows.{Keyed, keyed_of};

    ghost Value = { Keyed };

    ghost view = { λ a. a.rows };

    ghost invariant = { λ a. AreIndexesOf (keyed_of a.rows) a.indexes.items };
}

/// The index of these rows by a column: n log n for n rows.
fn index_of(alloc: Global, rows: &RowMap, column: usize) -> Result<ColumnIndex, NoMemory>
    ensures made { IfOk result (λ made. IsIndexOf (keyed_of rows.now) made) }
    ensures rising { KeysRise rows.now }
{
    let mut made = ColumnIndex::new(alloc, column);
    for block in rows.blocks() {
        put_keys(&mut made, block.rows())?;
    }
    Ok(made)
}

/// Puts the key of each row in at its value in the column.
fn put_keys(made: &mut ColumnIndex, rows: &[Row]) -> Result<(), NoMemory>
    ensures column { made.new.column ≡ made.old.column }
    ensures ok { OnOk result ((v k : ValueSeen)
        → has_pair made.new.pairs.keys v k
        ≡ (if has_value rows.now made.old.column v k then true else
        has_pair made.old.pairs.keys v k)) }
{
    for row in rows {
        put_key(made, row)?;
    }
    Ok(())
}

/// Puts the key of a row in at its value in the column.
fn put_key(made: &mut ColumnIndex, row: &Row) -> Result<(), NoMemory>
    ensures column { made.new.column ≡ made.old.column }
    ensures ok { OnOk result ((v k : ValueSeen)
        → has_pair made.new.pairs.keys v k
        ≡ (if is_value (slice_get row.now made.old.column) v
        && is_eq (value_cmp (key_of_def row.now) k) then true else
        has_pair made.old.pairs.keys v k)) }
{
    let column = made.column;
    match row.get(0) {
        None => made.put(row.get(column), &Value::Int(0)),
        Some(key) => made.put(row.get(column), key),
    }
}

/// The indexes, once the row of a key is this one, if any.
fn changed(
    indexes: Vec<ColumnIndex>,
    rows: &RowMap,
    key: &Value,
    after: Option<&Row>,
) -> Result<Vec<ColumnIndex>, NoMemory>
    requires { AreIndexesOf (keyed_of rows.now) indexes.items }
    ensures made { IfOk result (λ made. AreIndexesOf
        (with_row (keyed_of rows.now) key.now (option_copied after.entry)) made.items) }
    ensures rising { KeysRise rows.now }
{
    let _ = rows.blocks();
    if indexes.is_empty() {
        return Ok(indexes);
    }
    let mut indexes = indexes;
    let before = rows.get(key);
    for at in 0..indexes.len() {
        indexes[at].change(key, before, after)?;
    }
    Ok(indexes)
}

impl Shelf {
    /// No rows, and no index.
    pub(crate) fn new(alloc: Global) -> Result<Shelf, NoMemory>
        ensures { IfOk result (λ shelf. shelf ≡ []) }
    {
        let rows = RowMap::new(alloc)?;
        Ok(Shelf {
            rows,
            indexes: Vec::new(alloc),
            alloc,
        })
    }

    /// The rows.
    pub(crate) fn rows(&self) -> &RowMap
        ensures rows { result.now ≡ self.now }
        ensures rising { KeysRise self.now }
    {
        let _ = self.rows.blocks();
        &self.rows
    }

    /// The rows in order of key. They are moved where nobody shares them, and else copied. Linear
    /// in the rows.
    pub(crate) fn into_rows(self) -> Result<Vec<Row>, NoMemory>
        ensures { IfOk result (λ rows. rows.items ≡ values_of self) }
    {
        let Shelf { rows, .. } = self;
        rows.into_rows()
    }

    /// Indexes the rows by a column: n log n for n rows.
    pub(crate) fn index_by(&mut self, column: usize) -> Result<(), NoMemory>
        ensures same { self.new ≡ self.old }
        ensures rising { KeysRise self.new }
    {
        let index = index_of(self.alloc, &self.rows, column)?;
        self.indexes.push(index)?;
        Ok(())
    }

    /// Puts each row in the place of that of its key, if any, one after the other. The rows are
    /// moved. Where there are none yet, it is linear in rows in order of key, and else n log n for
    /// n rows. The indexes are dropped. After a refusal some of the rows are in.
    pub(crate) fn put_all(&mut self, rows: Vec<Row>) -> Result<(), NoMemory>
        ensures ok { OnOk result ((q : ValueSeen)
            → keyed_of self.new q ≡ update_all (eq_by_cmp value_cmp) (keyed_of self.old)
            (map keyed rows.items) q) }
        ensures rising { KeysRise self.new }
    {
        self.indexes = Vec::new(self.alloc);
        self.rows.put_all(rows)
    }

    /// Puts a row in the place of that of its key, if any. It takes what `RowMap::put` takes, and
    /// the logarithm of the number of rows for each index.
    pub(crate) fn put(&mut self, key: &Value, row: Row) -> Result<(), NoMemory>
        requires { key_of_def row ≡ key.now }
        ensures ok { OnOk result ((q : ValueSeen)
            → keyed_of self.new q ≡ (if is_eq (value_cmp key.now q) then Some row else keyed_of
            self.old q)) }
        ensures err { OnErr result (self.new ≡ self.old) }
        ensures rising { KeysRise self.new }
    {
        let indexes = std::mem::replace(&mut self.indexes, Vec::new(self.alloc));
        let indexes = changed(indexes, &self.rows, key, Some(&row))?;
        self.rows.put(key, row)?;
        self.indexes = indexes;
        Ok(())
    }

    /// Takes the row of a key away, if there is one. It costs what `put` does.
    pub(crate) fn take_away(&mut self, key: &Value) -> Result<(), NoMemory>
        ensures ok { OnOk result ((q : ValueSeen)
            → keyed_of self.new q ≡ (if is_eq (value_cmp key.now q) then None else keyed_of
            self.old q)) }
        ensures err { OnErr result (self.new ≡ self.old) }
        ensures rising { KeysRise self.new }
    {
        let indexes = std::mem::replace(&mut self.indexes, Vec::new(self.alloc));
        let indexes = changed(indexes, &self.rows, key, None)?;
        self.rows.take_away(key)?;
        self.indexes = indexes;
        Ok(())
    }

    /// The index of a column, if it has one. Linear in the indexes, which are at most eight.
    fn index(&self, column: usize) -> Option<&ColumnIndex>
        ensures { (index : IndexSeen) → option_copied result ≡ Some index
            → IsIndexOf (keyed_of self.now) index × (index.column ≡ column) }
    {
        for index in &self.indexes {
            if index.column == column {
                return Some(index);
            }
        }
        None
    }

    /// Copies of the rows whose value in a column meets the test, in order of key, unless they are
    /// more than 32.
    pub(crate) fn selected(
        &self,
        column: usize,
        test: Test,
        value: &Value,
    ) -> Result<Option<Vec<Row>>, NoMemory>
        requires { KeysFirst self.now }
        ensures { IfOk result (λ found. option_map (λ rows. rows.items) found
            ≡ at_most_32 (selected_def column test value.now (values_of self.now))) }
    {
        let none = BTreeMap::new(self.alloc);
        match self.selected_but(column, test, value, &none)? {
            None => Ok(None),
            Some(found) => Ok(Some(rows_of(self.alloc, found)?)),
        }
    }

    /// Copies of the rows whose value in a column meets the test and whose keys are none of these,
    /// by their keys, unless they are more than 32. Where the column is the first, that of the
    /// keys, or is indexed, it takes the logarithm of the rows and 33 of them at most beside those
    /// of these keys, and else it is linear in the rows.
    pub(crate) fn selected_but(
        &self,
        column: usize,
        test: Test,
        value: &Value,
        but: &BTreeMap<Value, usize>,
    ) -> Result<Option<BTreeMap<Value, Row>>, NoMemory>
        requires { KeysFirst self.now }
        ensures { IfOk result (λ found. option_map (λ rows. rows.entries) found
            ≡ at_most_32 (apart_from but.now (meeting column test value.now self.now))) }
    {
        match self.index(column) {
            None => found_in(self.alloc, &self.rows, column, test, value, but),
            Some(index) => found_by(self.alloc, index, &self.rows, test, value, but),
        }
    }
}
