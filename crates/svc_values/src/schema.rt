//! Tables as they are declared.
ghost use Rattle.std.specs.Prelude.{◌≡◌, [], IfOk, IsErrOf, ◌↔◌, true, false, option_copied};
ghost use Rattle.svc_values.specs.meaning.Kinds.{row_fits, has_column as has_column_def, have_distinct_names};
ghost use Rattle.svc_values.specs.meaning.Names.{is_name_of};
ghost use Rattle.svc_values.specs.meaning.Schemas.{schema_of as schema_of_def};
ghost use Rattle.svc_values.specs.Schemas.{IsDeclared};

use crate::list::Limited;
use crate::memory::{NoMemory, TryCopy};
use crate::text::Name;
use crate::value::{Kind, Row, Value};
use std::alloc::Global;
use thiserror::Error;

/// A column of a table.
#[derive(PartialEq, Eq, Drop)]
pub struct Column {
    pub name: Name,
    pub kind: Kind,
}

/// The columns of a table: at most eight.
pub type Columns = Limited<Column, 8>;

/// A table's name and columns. `Schema::new` makes none without a column, or with two columns of
/// one name.
#[derive(PartialEq, Eq, Drop)]
pub struct Schema {
    pub name: Name,
    pub columns: Columns,
}

/// The tables of a service: at most 32.
pub type Schemas = Limited<Schema, 32>;

/// The names of a service's sequences: at most 32.
pub type Names = Limited<Name, 32>;

/// What exists in a service, whatever its rows: tables and sequences.
#[derive(PartialEq, Eq, Drop)]
pub struct Shape {
    pub schemas: Schemas,
    pub sequences: Names,
}

/// Why there is no such table.
#[derive(Clone, Copy, Debug, PartialEq, Eq, Error)]
pub enum SchemaFault {
    #[error("no column")]
    Empty,
    #[error("two columns of one name")]
    SameName,
}

/// Whether a column has this name. Linear in the columns.
pub fn has_column(columns: &[Column], name: &Name) -> bool
    ensures { result ≡ has_column_def columns.now name.now }
{
    columns.iter().any(|column| column.name == *name)
}

/// Whether no two columns have one name. Quadratic in the columns, which are at most eight.
fn are_distinct(columns: &[Column]) -> bool
    ensures { result ≡ have_distinct_names columns.now }
{
    match columns {
        [] => true,
        [first, rest @ ..] => !has_column(rest, &first.name) && are_distinct(rest),
    }
}

/// Whether there is one value for each column, of its kind.
pub fn values_fit(columns: &[Column], values: &[Value]) -> bool
    ensures { result ≡ row_fits columns.now values.now }
{
    match columns {
        [] => values.is_empty(),
        [column, columns @ ..] => match values {
            [] => false,
            [value, values @ ..] => { column.kind == value.kind() && values_fit(columns, values) }
        },
    }
}

/// Whether it is one of these names. Linear in the names.
pub fn has_name(names: &[Name], name: &Name) -> bool
    ensures { result ≡ is_name_of names.now name.now }
{
    names.iter().any(|one| *one == *name)
}

/// The declaration of a table. Linear in the tables, which are at most 32.
pub fn schema_of<'a>(schemas: &'a [Schema], table: &Name) -> Option<&'a Schema>
    ensures { option_copied result ≡ schema_of_def schemas.now table.now }
{
    schemas.iter().find(|schema| schema.name == *table)
}

impl Schema {
    /// A table's declaration: `Empty` exactly without a column, `SameName` exactly where two
    /// columns have one name. It takes no memory.
    pub fn new(name: Name, columns: Columns) -> Result<Schema, SchemaFault>
        ensures made { IfOk result (λ schema. schema ≡ record { name = name; columns = columns }) }
        ensures empty { IsErrOf result SchemaFault.Empty ↔ (columns ≡ []) }
        ensures same_name { IsErrOf result SchemaFault.SameName
            ↔ (have_distinct_names columns ≡ false) }
        ensures declared { IfOk result IsDeclared }
    {
        if columns.is_empty() {
            return Err(SchemaFault::Empty);
        }
        if !are_distinct(columns.as_slice()) {
            return Err(SchemaFault::SameName);
        }
        Ok(Schema { name, columns })
    }

    /// Whether the row has one value for each column, of the column's kind.
    pub fn fits(&self, row: &Row) -> bool
        ensures { result ≡ row_fits self.now.columns row.now }
    {
        values_fit(self.columns.as_slice(), row.as_slice())
    }
}

impl TryCopy for Column {
    fn copy(&self, _alloc: Global) -> Result<Column, NoMemory> {
        Ok(Column {
            name: self.name.copied(),
            kind: self.kind,
        })
    }
}

impl TryCopy for Schema {
    fn copy(&self, alloc: Global) -> Result<Schema, NoMemory> {
        Ok(Schema {
            name: self.name.copied(),
            columns: self.columns.copy(alloc)?,
        })
    }
}

impl TryCopy for Shape {
    fn copy(&self, alloc: Global) -> Result<Shape, NoMemory> {
        Ok(Shape {
            schemas: self.schemas.copy(alloc)?,
            sequences: self.sequences.copy(alloc)?,
        })
    }
}
