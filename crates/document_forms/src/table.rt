//! Readers of tables: columns, rows that fit them, and the columns by which the rows are indexed.
ghost use Rattle.std.specs.Prelude.{◌≡◌, ◌<◌, [], length, IfOk, IfErr, IfSome, string_bytes};
ghost use Rattle.serde_json.specs.View.{view, items_view};
ghost use Rattle.json_form.specs.Faults.{Gives, GivesBy};
ghost use Rattle.json_form.specs.meaning.Arrays.{is_key, each_after};
ghost use Rattle.json_form.specs.meaning.Texts.{word_of};
ghost use Rattle.json_form.specs.Streams.{Begins};
ghost use Rattle.document_forms.specs.meaning.Tables.{column_of, columns_of, kind_words, field_of, fitting, row_of, rows_of, known_column as known_column_def, indexed_of, index_of, table_of, tables_of};
ghost use Rattle.svc_values.specs.meaning.Schemas.{key_of as key_of_row};
ghost use Rattle.json_form.specs.declared.fault.DocFault.TheVariants.{NoMemory};

use crate::row_ahead::row_ahead;
use crate::table_ahead::table_ahead;
use call_forms::{NewNameReader, ValueReader, copied};
use document_limits::Count;
use json_form::{
    Digits, DocCode, DocFault, KeyedReader, Reader, Taken, distinct_ahead, distinct_from,
    distinct_list, exact_from, fixed, object_with, text_from, within, within_item, word_from,
};
use outage_schedule::{DocRows, DocTable, DocTables, IndexColumns};
use serde_json::Value as Json;
use std::alloc::Global;
use svc_values::{
    Column, Columns, Kind, Limited, Listed, Name, Row, Value, has_column, values_fit,
};

/// Reads the word for a kind.
struct KindReader;

impl Reader<Kind> for KindReader {
    ghost reads = { λ s. word_of kind_words };

    fn read(&self, alloc: Global, value: Json) -> Result<Kind, DocFault> {
        word_from(
            alloc,
            value,
            &[
                ("int", Kind::Int),
                ("text", Kind::Text),
                ("bytes", Kind::Bytes),
            ],
        )
    }
}

/// Reads a column whose name does not stand before.
struct ColumnReader;

impl KeyedReader<Column> for ColumnReader {
    type Key = Name;

    ghost reads = { λ s. column_of };

    ghost key_of = { λ column. column.name };

    fn key(&self, alloc: Global, item: &Column) -> Result<Name, DocFault> {
        copied(alloc, &item.name)
    }

    #[tactic(auto, unfolding(crate::specs::meaning::Tables::column_of), using(json_form::proofs::Offered::others_stay))]
    fn read(&self, alloc: Global, taken: &Taken<Name>, value: Json) -> Result<Column, DocFault> {
        let mut parts = fixed(alloc, value, 2)?;
        let name = parts.read(alloc, 0, &NewNameReader { taken })?;
        let kind = parts.read(alloc, 1, &KindReader)?;
        Ok(Column { name, kind })
    }
}

pub(crate) fn columns_from(alloc: Global, value: Json) -> Result<Columns, DocFault>
    ensures { Gives result (columns_of (view value)) }
{
    let limit = Count::Columns.limit();
    let columns = distinct_from(alloc, value, limit.least, limit.most, &ColumnReader)?;
    Ok(Limited::from_vec(columns))
}

/// One value of a row: the first is the key, which does not stand before.
fn field_from(
    alloc: Global,
    taken: &Taken<Value>,
    before: &[Value],
    value: Json,
) -> Result<Value, DocFault>
    ensures { Gives result
        (field_of (is_key ⟦<Value as PartialEq>⟧.eq taken.now) before.now (view value)) }
{
    let digits = Digits::Any;
    let field = ValueReader { digits }.read(alloc, value)?;
    if before.is_empty() {
        taken.fresh(alloc, &field)?;
    }
    Ok(field)
}

/// The values of a row.
fn fields_from(
    alloc: Global,
    taken: &Taken<Value>,
    values: Vec<Json>,
) -> Result<Vec<Value>, DocFault>
    ensures read { GivesBy (λ v. v.items) result
        (each_after (field_of (is_key ⟦<Value as PartialEq>⟧.eq taken.now)) [] (items_view values.items)) }
    ensures count { IfOk result (λ v. length v.items ≡ length values.items) }
{
    let mut found = Vec::with_capacity(alloc, values.len())?;
    for value in values {
        let field = field_from(alloc, taken, found.as_slice(), value);
        let field = within_item(alloc, found.len(), field)?;
        found.push(field)?;
    }
    Ok(found)
}

/// The row, if it fits the columns.
pub(crate) fn fitting_row(alloc: Global, columns: &[Column], row: Row) -> Result<Row, DocFault>
    ensures { Gives result (fitting columns.now row) }
{
    if !values_fit(columns, row.as_slice()) {
        return Err(DocFault::here(alloc, DocCode::WrongKind));
    }
    Ok(row)
}

/// The key of a row: its first value.
fn key_from(alloc: Global, row: &[Value]) -> Result<Value, DocFault>
    ensures made { IfOk result (λ key. key ≡ key_of_row row.now) }
    ensures refused { IfErr result (λ e. e ≡ NoMemory) }
{
    match row {
        [] => Ok(Value::Int(0)),
        [key, ..] => copied(alloc, key),
    }
}

/// Reads a row of a table, whose key does not stand before. Its values are read in order, the key
/// tested at its turn, before their kinds are looked at.
#[derive(Drop)]
struct RowReader<'a> {
    columns: &'a Columns,
}

impl KeyedReader<Row> for RowReader<'_> {
    type Key = Value;

    ghost reads = { λ s. row_of s.columns.now };

    ghost key_of = { key_of_row };

    fn key(&self, alloc: Global, item: &Row) -> Result<Value, DocFault> {
        key_from(alloc, item.as_slice())
    }

    #[tactic(auto, unfolding(crate::specs::meaning::Tables::row_of))]
    fn read(&self, alloc: Global, taken: &Taken<Value>, value: Json) -> Result<Row, DocFault> {
        let values = exact_from(alloc, value, self.columns.len())?;
        let fields = fields_from(alloc, taken, values)?;
        fitting_row(alloc, self.columns.as_slice(), Limited::from_vec(fields))
    }

    fn ahead(
        &self,
        alloc: Global,
        taken: &Taken<Value>,
        tokens: &mut json::Reader<'_>,
        depth: usize,
    ) -> Option<Row> {
        row_ahead(alloc, taken, tokens, depth, self.columns)
    }
}

/// Reads the rows of a table of these columns.
#[derive(Drop)]
struct RowsReader<'a> {
    columns: &'a Columns,
}

impl Reader<DocRows> for RowsReader<'_> {
    ghost reads = { λ s. rows_of s.columns.now };

    fn read(&self, alloc: Global, value: Json) -> Result<DocRows, DocFault> {
        let columns = self.columns;
        let limit = Count::Rows.limit();
        let rows = distinct_from(
            alloc,
            value,
            limit.least,
            limit.most,
            &RowReader { columns },
        )?;
        Ok(Listed::from_vec(rows))
    }
}

/// The rows that `RowsReader` reads, each read as soon as its tokens are passed.
pub(crate) fn rows_ahead(
    alloc: Global,
    tokens: &mut json::Reader<'_>,
    depth: usize,
    columns: &Columns,
) -> Option<DocRows>
    ensures read { IfSome result (λ rows. Begins (rows_of columns.now) depth tokens.old rows
        tokens.new) }
    ensures shorter { IfSome result (λ _. length tokens.new < length tokens.old) }
{
    let most = Count::Rows.limit().most;
    let rows = distinct_ahead(alloc, tokens, depth, most, &RowReader { columns })?;
    Some(Listed::from_vec(rows))
}

/// The column's name that the text is. A text that is no name is that of no column.
fn known_column(alloc: Global, columns: &[Column], text: String) -> Result<Name, DocFault>
    ensures { Gives result (known_column_def columns.now (string_bytes text)) }
{
    let Ok(name) = Name::from_string(text) else {
        return Err(DocFault::here(alloc, DocCode::Unknown));
    };
    if !has_column(columns, &name) {
        return Err(DocFault::here(alloc, DocCode::Unknown));
    }
    Ok(name)
}

/// Reads the name of a column that does not stand before.
#[derive(Drop)]
struct IndexedReader<'a> {
    columns: &'a Columns,
}

impl KeyedReader<Name> for IndexedReader<'_> {
    type Key = Name;

    ghost reads = { λ s. indexed_of s.columns.now };

    ghost key_of = { λ name. name };

    fn key(&self, alloc: Global, item: &Name) -> Result<Name, DocFault> {
        copied(alloc, item)
    }

    #[tactic(auto, unfolding(crate::specs::meaning::Tables::indexed_of))]
    fn read(&self, alloc: Global, taken: &Taken<Name>, value: Json) -> Result<Name, DocFault> {
        let text = text_from(alloc, value)?;
        let name = known_column(alloc, self.columns.as_slice(), text)?;
        taken.fresh(alloc, &name)?;
        Ok(name)
    }
}

/// Reads the columns by which a table of these columns is indexed.
#[derive(Drop)]
struct IndexReader<'a> {
    columns: &'a Columns,
}

impl Reader<IndexColumns> for IndexReader<'_> {
    ghost reads = { λ s. index_of s.columns.now };

    #[tactic(auto, unfolding(crate::specs::meaning::Tables::index_of))]
    fn read(&self, alloc: Global, value: Json) -> Result<IndexColumns, DocFault> {
        let columns = self.columns;
        let names = distinct_list(alloc, value, &IndexedReader { columns })?;
        Ok(Listed::from_vec(names))
    }
}

pub(crate) fn index_from(
    alloc: Global,
    value: Json,
    columns: &Columns,
) -> Result<IndexColumns, DocFault>
    ensures { Gives result (index_of columns.now (view value)) }
{
    IndexReader { columns }.read(alloc, value)
}

/// Reads a table whose name does not stand before. For n rows the cost is 2 n comparisons of keys
/// where the rows stand in rising order of key, and else n log n.
struct TableReader;

impl KeyedReader<DocTable> for TableReader {
    type Key = Name;

    ghost reads = { λ s. table_of };

    ghost key_of = { λ table. table.name };

    fn key(&self, alloc: Global, item: &DocTable) -> Result<Name, DocFault> {
        copied(alloc, &item.name)
    }

    #[tactic(auto, unfolding(crate::specs::meaning::Tables::table_of), using(json_form::proofs::Offered::others_stay))]
    fn read(&self, alloc: Global, taken: &Taken<Name>, value: Json) -> Result<DocTable, DocFault> {
        let mut members = object_with(alloc, value, &["name", "columns", "rows", "index"])?;
        let name = members.required(alloc, "name")?;
        let columns = members.required(alloc, "columns")?;
        let name = within(alloc, "name", NewNameReader { taken }.read(alloc, name))?;
        let columns = within(alloc, "columns", columns_from(alloc, columns))?;
        let reader = RowsReader { columns: &columns };
        let rows = members.optional(alloc, "rows", &reader, Listed::new(alloc))?;
        let reader = IndexReader { columns: &columns };
        let index = members.optional(alloc, "index", &reader, Listed::new(alloc))?;
        Ok(DocTable {
            name,
            columns,
            rows,
            index,
        })
    }

    fn ahead(
        &self,
        alloc: Global,
        taken: &Taken<Name>,
        tokens: &mut json::Reader<'_>,
        depth: usize,
    ) -> Option<DocTable> {
        table_ahead(alloc, taken, tokens, depth)
    }
}

/// Reads at most 32 tables of different names.
pub struct TablesReader;

impl Reader<DocTables> for TablesReader {
    ghost reads = { λ s. tables_of };

    fn read(&self, alloc: Global, value: Json) -> Result<DocTables, DocFault> {
        let limit = Count::Tables.limit();
        let tables = distinct_from(alloc, value, limit.least, limit.most, &TableReader)?;
        Ok(Listed::from_vec(tables))
    }
}

/// The tables that `TablesReader` reads, each read as soon as its tokens are passed.
pub fn tables_ahead(alloc: Global, tokens: &mut json::Reader<'_>, depth: usize) -> Option<DocTables>
    ensures read { IfSome result (λ tables. Begins tables_of depth tokens.old tables tokens.new) }
    ensures shorter { IfSome result (λ _. length tokens.new < length tokens.old) }
{
    let most = Count::Tables.limit().most;
    let tables = distinct_ahead(alloc, tokens, depth, most, &TableReader)?;
    Some(Listed::from_vec(tables))
}
