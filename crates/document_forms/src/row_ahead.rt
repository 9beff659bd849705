//! Reader of a row whose values are read one after the other.
ghost use Rattle.std.specs.Prelude.{◌≡◌, ◌<◌, length, IfSome};
ghost use Rattle.json_form.specs.meaning.Arrays.{is_key};
ghost use Rattle.json_form.specs.Streams.{Begins};
ghost use Rattle.document_forms.specs.meaning.Tables.{field_of, row_of};
ghost use Rattle.document_forms.specs.RowsAhead.{fields_of};

use crate::table::fitting_row;
use call_forms::ValueReader;
use json_form::{Digits, Reader, Taken, array_begins};
use std::alloc::Global;
use svc_values::{Columns, Limited, Row, Value};

/// One value of a row: the first is the key, which does not stand before.
fn field_ahead(
    alloc: Global,
    taken: &Taken<Value>,
    before: &[Value],
    tokens: &mut json::Reader<'_>,
    depth: usize,
) -> Option<Value>
    ensures begins { IfSome result (λ x. Begins
        (field_of (is_key ⟦<Value as PartialEq>⟧.eq taken.now) before.now) depth tokens.old x tokens.new) }
    ensures shorter { IfSome result (λ _. length tokens.new < length tokens.old) }
{
    let digits = Digits::Any;
    let field = ValueReader { digits }.ahead(alloc, tokens, depth)?;
    if !before.is_empty() {
        return Some(field);
    }
    taken.fresh(alloc, &field).ok()?;
    Some(field)
}

/// The values of a row of so many. Beside the list of them memory is taken for the bytes of texts,
/// and for octets with the JSON value that they are read from.
fn fields_ahead(
    alloc: Global,
    taken: &Taken<Value>,
    tokens: &mut json::Reader<'_>,
    depth: usize,
    count: usize,
) -> Option<Vec<Value>>
    ensures read { IfSome result (λ v. Begins
        (fields_of (is_key ⟦<Value as PartialEq>⟧.eq taken.now) count) depth tokens.old v.items tokens.new) }
    ensures count { IfSome result (λ v. length v.items ≡ count) }
    ensures shorter { IfSome result (λ _. length tokens.new < length tokens.old) }
{
    let inside = array_begins(tokens, depth)?;
    let mut found = Vec::with_capacity(alloc, count).ok()?;
    'fields: while !tokens.take_end_array() {
        if found.len() >= count {
            return None;
        }
        let field = field_ahead(alloc, taken, found.as_slice(), tokens, inside)?;
        found.push(field).ok()?;
    }
    if found.len() != count {
        return None;
    }
    Some(found)
}

/// The row of these columns that the tokens begin with, whose key is none of those taken. There is
/// none where there is a fault.
pub(crate) fn row_ahead(
    alloc: Global,
    taken: &Taken<Value>,
    tokens: &mut json::Reader<'_>,
    depth: usize,
    columns: &Columns,
) -> Option<Row>
    ensures begins { IfSome result (λ row. Begins
        (row_of columns.now (is_key ⟦<Value as PartialEq>⟧.eq taken.now)) depth tokens.old row tokens.new) }
    ensures shorter { IfSome result (λ _. length tokens.new < length tokens.old) }
{
    let fields = fields_ahead(alloc, taken, tokens, depth, columns.len())?;
    let row = fitting_row(alloc, columns.as_slice(), Limited::from_vec(fields)).ok()?;
    Some(row)
}
