//! Arrays whose items are read each by itself.
ghost use Rattle.std.specs.Prelude.{◌≡◌, ◌≤◌, ◌<◌, Result, Ok, List, length, Some, IfOk, IfSome};
ghost use Rattle.json.specs.Json.{parse_map};
ghost use Rattle.serde_json.specs.View.{view, items_view};
ghost use Rattle.json_form.specs.meaning.Faults.{Fault, within};
ghost use Rattle.json_form.specs.Faults.{GivesBy};
ghost use Rattle.json_form.specs.meaning.Values.{items_of};
ghost use Rattle.json_form.specs.meaning.Arrays.{each_after, each_of, counted_of, exact_of, array_of, list_of};
ghost use Rattle.json_form.specs.Streams.{Begins, items_ahead};

use crate::fault::{DocCode, DocFault};
use crate::reader::Reader;
use crate::step::within_item;
use crate::stream::array_begins;
use serde_json::Value;
use std::alloc::Global;

pub(crate) fn items_from(alloc: Global, value: Value) -> Result<Vec<Value>, DocFault>
    ensures { GivesBy (λ v. items_view v.items) result (items_of (view value)) }
{
    match value {
        Value::Array(items) => Ok(items),
        Value::Null | Value::Bool(_) | Value::Number(_) | Value::String(_) | Value::Object(_) => {
            Err(DocFault::here(alloc, DocCode::WrongKind))
        }
    }
}

/// The items of an array that has `low` to `high` of them.
pub(crate) fn counted(
    alloc: Global,
    value: Value,
    low: usize,
    high: usize,
) -> Result<Vec<Value>, DocFault>
    ensures read { GivesBy (λ v. items_view v.items) result (counted_of low high (view value)) }
    ensures count { IfOk result (λ v. length v.items ≤ high) }
{
    let items = items_from(alloc, value)?;
    if items.len() < low || high < items.len() {
        return Err(DocFault::here(alloc, DocCode::Limit));
    }
    Ok(items)
}

/// The items of an array that has exactly `count` of them.
pub fn exact_from(alloc: Global, value: Value, count: usize) -> Result<Vec<Value>, DocFault>
    ensures read { GivesBy (λ v. items_view v.items) result (exact_of count (view value)) }
    ensures count { IfOk result (λ v. length v.items ≡ count) }
{
    let items = items_from(alloc, value)?;
    if items.len() != count {
        return Err(DocFault::here(alloc, DocCode::WrongKind));
    }
    Ok(items)
}

fn each<T: Drop, R: Reader<T>>(
    alloc: Global,
    values: Vec<Value>,
    reader: &R,
) -> Result<Vec<T>, DocFault>
    ensures read { GivesBy (λ v. v.items) result
        (each_of (R.Reader.reads reader.now) (items_view values.items)) }
    ensures count { IfOk result (λ v. length v.items ≡ length values.items) }
{
    let mut found = Vec::with_capacity(alloc, values.len())?;
    for value in values {
        let item = within_item(alloc, found.len(), reader.read(alloc, value))?;
        found.push(item)?;
    }
    Ok(found)
}

/// The items of an array of `low` to `high`, in order.
pub fn array_from<T: Drop, R: Reader<T>>(
    alloc: Global,
    value: Value,
    low: usize,
    high: usize,
    reader: &R,
) -> Result<Vec<T>, DocFault>
    ensures read { GivesBy (λ v. v.items) result
        (array_of low high (each_of (R.Reader.reads reader.now)) (view value)) }
    ensures count { IfOk result (λ v. length v.items ≤ high) }
{
    let values = counted(alloc, value, low, high)?;
    each(alloc, values, reader)
}

/// The items of an array of any number, in order.
pub fn list_from<T: Drop, R: Reader<T>>(
    alloc: Global,
    value: Value,
    reader: &R,
) -> Result<Vec<T>, DocFault>
    ensures { GivesBy (λ v. v.items) result
        (list_of (each_of (R.Reader.reads reader.now)) (view value)) }
{
    let values = items_from(alloc, value)?;
    each(alloc, values, reader)
}

/// The reading of a list, seen from the object whose member it is.
pub(crate) fn list_within<T>(
    alloc: Global,
    name: &str,
    read: Result<Vec<T>, DocFault>,
) -> Result<Vec<T>, DocFault>
    ensures read { (r : Result (List T) Fault) → GivesBy (λ v. v.items) read r
        → GivesBy (λ v. v.items) result (within name.now r) }
    ensures same { IfOk result (λ v. read ≡ Ok v) }
{
    match read {
        Ok(items) => Ok(items),
        Err(fault) => Err(fault.under(alloc, name)),
    }
}

/// The items of an array in a member with this name, as `array_from` reads them.
pub fn array_at<T: Drop, R: Reader<T>>(
    alloc: Global,
    name: &str,
    member: Value,
    low: usize,
    high: usize,
    reader: &R,
) -> Result<Vec<T>, DocFault>
    ensures read { GivesBy (λ v. v.items) result (within name.now
        (array_of low high (each_of (R.Reader.reads reader.now)) (view member))) }
    ensures count { IfOk result (λ v. length v.items ≤ high) }
{
    list_within(alloc, name, array_from(alloc, member, low, high, reader))
}

/// The items of an array in a member with this name, as `list_from` reads them.
pub fn list_at<T: Drop, R: Reader<T>>(
    alloc: Global,
    name: &str,
    member: Value,
    reader: &R,
) -> Result<Vec<T>, DocFault>
    ensures { GivesBy (λ v. v.items) result
        (within name.now (list_of (each_of (R.Reader.reads reader.now)) (view member))) }
{
    list_within(alloc, name, list_from(alloc, member, reader))
}

/// The items of an array of at most `high`: those found, and behind them what is left up to the
/// bracket that ends it, each read as soon as its tokens are passed. There are none where the
/// reader gives none of one, and where there are too many.
pub fn rest_ahead<T: Drop, R: Reader<T>>(
    alloc: Global,
    tokens: &mut json::Reader<'_>,
    depth: usize,
    high: usize,
    reader: &R,
    mut found: Vec<T>,
) -> Option<Vec<T>>
    requires { length found.items ≤ high }
    ensures read { IfSome result (λ v. parse_map
        (each_after (λ before. R.Reader.reads reader.now) found.items)
        (items_ahead depth tokens.old) ≡ Some (Ok v.items, tokens.new)) }
    ensures count { IfSome result (λ v. length v.items ≤ high) }
    ensures shorter { IfSome result (λ _. length tokens.new < length tokens.old) }
{
    'items: while !tokens.take_end_array() {
        if found.len() >= high {
            return None;
        }
        let item = reader.ahead(alloc, tokens, depth)?;
        found.push(item).ok()?;
    }
    Some(found)
}

/// The items of an array of at most `high`, in order, each read as soon as its tokens are passed,
/// so that no more than one of them is held as a JSON value. There are none where the reader gives
/// none of one, and where there are too many: `array_from` tells what is at fault.
pub fn array_ahead<T: Drop, R: Reader<T>>(
    alloc: Global,
    tokens: &mut json::Reader<'_>,
    depth: usize,
    high: usize,
    reader: &R,
) -> Option<Vec<T>>
    ensures read { IfSome result (λ v. Begins
        (array_of 0 high (each_of (R.Reader.reads reader.now))) depth tokens.old v.items tokens.new) }
    ensures count { IfSome result (λ v. length v.items ≤ high) }
    ensures shorter { IfSome result (λ _. length tokens.new < length tokens.old) }
{
    let inside = array_begins(tokens, depth)?;
    let found = rest_ahead(alloc, tokens, inside, high, reader, Vec::new(alloc))?;
    Some(found)
}
