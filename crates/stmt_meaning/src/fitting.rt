//! Whether rows and writes fit what is declared, and stand in order.
ghost use Rattle.std.specs.Prelude.{◌≡◌, ◌↔◌, IsTrue, Some};
ghost use Rattle.svc_values.specs.meaning.Fitting.{is_row_of as is_row_of_def, write_fits as write_fits_def};
ghost use Rattle.svc_values.specs.meaning.Schemas.{key_of};
ghost use Rattle.svc_values.specs.meaning.Same.{same_value};
ghost use Rattle.svc_values.specs.Tables.{AreTables};

use crate::planning::is_column_kind;
use crate::written::comes_before;
use svc_values::{PlainRow, Row, Schema, Shape, Value, Write, schema_of};

/// Whether the row has this key first. An empty row has 0.
fn has_key(row: &Row, key: &Value) -> bool
    ensures { result ≡ same_value (key_of row.now) key.now }
{
    match row.get(0) {
        None => *key == Value::Int(0),
        Some(first) => *first == *key,
    }
}

/// Whether the row has a value of its kind for each column, and this key first.
fn is_row_of(schema: &Schema, key: &Value, row: &Row) -> bool
    ensures { result ≡ is_row_of_def (Some schema.now) key.now row.now }
{
    schema.fits(row) && has_key(row, key)
}

/// Whether a write names a declared table and a key of its first column's kind, and its row, if it
/// has one, is a row of that table and key.
pub fn write_fits(shape: &Shape, write: &Write) -> bool
    ensures { result ≡ write_fits_def shape.now.schemas write.now }
{
    let Some(schema) = schema_of(shape.schemas.as_slice(), &write.table) else {
        return false;
    };
    match &write.row {
        None => is_column_kind(schema.columns.as_slice(), 0, write.key.kind()),
        Some(row) => is_row_of(schema, &write.key, row),
    }
}

/// Whether rows stand in the order of table and key, none twice. Linear in the rows.
pub fn are_tables(rows: &[PlainRow]) -> bool
    ensures { IsTrue result ↔ AreTables rows.now }
{
    let [first, rest @ ..] = rows else {
        return true;
    };
    let mut before = first;
    for row in rest {
        if !comes_before(before, row) {
            return false;
        }
        before = row;
    }
    true
}
