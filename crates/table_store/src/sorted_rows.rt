//! Rows in a vector in rising order of key.
ghost use Rattle.std.specs.Prelude.{◌≡◌, ◌≤◌, true, false, None, Some, IfOk, OnOk, OnErr, length, map, slice_get};
ghost use Rattle.std.specs.BTreeMap.{insert_entry};
ghost use Rattle.std.specs.BTreeMap.Range.{entries_between};
ghost use Rattle.std.specs.List.Sorted.{IsPartitionPoint};
ghost use Rattle.std.specs.Option.{option_copied, option_map};
ghost use Rattle.std.specs.Ordering.{is_eq};
ghost use Rattle.std.specs.Range.Bound.{bound_map};
ghost use Rattle.svc_values.specs.meaning.Order.{value_cmp};
ghost use Rattle.svc_values.specs.meaning.Schemas.{key_of as key_of_def};
ghost use Rattle.table_store.specs.Given.{keyed};
ghost use Rattle.table_store.specs.Blocks.{is_below as is_below_def, is_behind as is_behind_def, is_up_to as is_up_to_def, rise_behind, without, StartsAt, EndsAt};
ghost use Rattle.table_store.specs.Rows.{keyed_of, KeysRise};

use std::alloc::Global;
use std::cmp::Ordering;
use std::ops::Bound;
use svc_values::{NoMemory, Row, TryCopy, Value};

/// How a key stands to that of a row, which is its first value.
fn cmp_key(key: &Value, row: &Row) -> Ordering
    ensures { result ≡ value_cmp key.now (key_of_def row.now) }
{
    match row.get(0) {
        None => key.cmp(&Value::Int(0)),
        Some(first) => key.cmp(first),
    }
}

/// Whether the row's key is this one.
pub(crate) fn is_key(row: &Row, key: &Value) -> bool
    ensures { result ≡ is_eq (value_cmp key.now (key_of_def row.now)) }
{
    cmp_key(key, row).is_eq()
}

/// Whether the row's key is below this one.
fn is_below(row: &Row, key: &Value) -> bool
    ensures { result ≡ is_below_def key.now row.now }
{
    !cmp_key(key, row).is_le()
}

/// Whether the row's key is this one or below it.
pub(crate) fn is_up_to(row: &Row, key: &Value) -> bool
    ensures { result ≡ is_up_to_def key.now row.now }
{
    !cmp_key(key, row).is_lt()
}

/// How many rows have keys below this one.
fn count_below(rows: &[Row], key: &Value) -> usize
    requires { KeysRise (map keyed rows.now) }
    ensures point { IsPartitionPoint (λ row. is_below_def key.now row ≡ true)
        (λ row. is_below_def key.now row ≡ false) rows.now result }
    ensures within { result ≤ length rows.now }
{
    rows.partition_point(|row| is_below(row, key))
}

/// How many rows have this key or keys below it.
fn count_up_to(rows: &[Row], key: &Value) -> usize
    requires { KeysRise (map keyed rows.now) }
    ensures point { IsPartitionPoint (λ row. is_up_to_def key.now row ≡ true)
        (λ row. is_up_to_def key.now row ≡ false) rows.now result }
    ensures within { result ≤ length rows.now }
{
    rows.partition_point(|row| is_up_to(row, key))
}

/// How many rows are outside a start.
fn start_of(rows: &[Row], from: Bound<&Value>) -> usize
    requires { KeysRise (map keyed rows.now) }
    ensures point { StartsAt (bound_map (λ x. x.now) from.entry) rows.now result }
    ensures within { result ≤ length rows.now }
{
    match from {
        Bound::Unbounded => 0,
        Bound::Included(key) => count_below(rows, key),
        Bound::Excluded(key) => count_up_to(rows, key),
    }
}

/// How many rows are inside an end.
fn end_of(rows: &[Row], to: Bound<&Value>) -> usize
    requires { KeysRise (map keyed rows.now) }
    ensures point { EndsAt (bound_map (λ x. x.now) to.entry) rows.now result }
    ensures within { result ≤ length rows.now }
{
    match to {
        Bound::Unbounded => rows.len(),
        Bound::Included(key) => count_up_to(rows, key),
        Bound::Excluded(key) => count_below(rows, key),
    }
}

/// The rows whose keys are between two ends. It takes the logarithm of the number of rows.
pub(crate) fn part_between<'a>(rows: &'a [Row], from: Bound<&Value>, to: Bound<&Value>) -> &'a [Row]
    requires { KeysRise (map keyed rows.now) }
    ensures { map keyed result.now ≡ entries_between value_cmp (bound_map (λ x. x.now) from.entry)
        (bound_map (λ x. x.now) to.entry) (map keyed rows.now) }
{
    let start = start_of(rows, from);
    let end = end_of(rows, to);
    if start >= end {
        return &[];
    }
    &rows[start..end]
}

/// The row at a place, `None` exactly past the end.
fn at_place(rows: &[Row], at: usize) -> Option<&Row>
    ensures { option_copied result ≡ slice_get rows.now at }
{
    rows.get(at)
}

/// The row of a key. It takes the logarithm of the number of rows.
pub(crate) fn row_at<'a>(rows: &'a [Row], key: &Value) -> Option<&'a Row>
    requires { KeysRise (map keyed rows.now) }
    ensures { option_copied result ≡ keyed_of (map keyed rows.now) key.now }
{
    let at = count_below(rows, key);
    match at_place(rows, at) {
        None => None,
        Some(row) => { if is_key(row, key) { Some(row) } else { None } }
    }
}

/// Whether the row's key is above that of the row before it, if there is one.
fn is_behind(last: Option<&Row>, row: &Row) -> bool
    ensures { result ≡ is_behind_def (option_map key_of_def (option_copied last.entry)) row.now }
{
    match last {
        None => true,
        Some(last) => match last.get(0) {
            None => cmp_key(&Value::Int(0), row).is_lt(),
            Some(key) => cmp_key(key, row).is_lt(),
        },
    }
}

/// Whether the key of each row is above that of the row before it. Linear.
pub(crate) fn rise(rows: &[Row]) -> bool
    ensures { result ≡ rise_behind None rows.now }
{
    let mut last = None;
    for row in rows {
        if !is_behind(last, row) {
            return false;
        }
        last = Some(row);
    }
    true
}

/// Puts a row in the place of that of its key, or before those with keys above it. It takes the
/// logarithm of the number of rows, and moves those behind it.
pub(crate) fn put_row(rows: &mut Vec<Row>, key: &Value, row: Row) -> Result<(), NoMemory>
    requires rising { KeysRise (map keyed rows.old.items) }
    requires own { key_of_def row ≡ key.now }
    ensures ok { OnOk result (map keyed rows.new.items
        ≡ insert_entry value_cmp (map keyed rows.old.items) key.now row) }
    ensures err { OnErr result (rows.new.items ≡ rows.old.items) }
{
    let at = count_below(rows.as_slice(), key);
    if at >= rows.len() {
        rows.push(row)?;
        return Ok(());
    }
    if is_key(&rows[at], key) {
        rows[at] = row;
        return Ok(());
    }
    rows.insert(at, row)?;
    Ok(())
}

/// Takes the row of a key away, if there is one. It takes the logarithm of the number of rows, and
/// moves those behind it.
pub(crate) fn take_row(rows: &mut Vec<Row>, key: &Value)
    requires { KeysRise (map keyed rows.old.items) }
    ensures { rows.new.items ≡ without key.now rows.old.items }
{
    let at = count_below(rows.as_slice(), key);
    if at >= rows.len() {
        return;
    }
    if !is_key(&rows[at], key) {
        return;
    }
    rows.remove(at);
}

/// The same row without spare room. It takes no memory.
pub(crate) fn exact(row: Row) -> Row
    ensures { result ≡ row }
{
    let mut values = row.into_vec();
    values.shrink_to_fit();
    Row::from_vec(values)
}

/// Copies of rows.
pub(crate) fn copied_rows(alloc: Global, rows: &[Row]) -> Result<Vec<Row>, NoMemory>
    ensures { IfOk result (λ copied. copied.items ≡ rows.now) }
{
    let mut copied = Vec::with_capacity(alloc, rows.len())?;
    for row in rows {
        copied.push(row.copy(alloc)?)?;
    }
    Ok(copied)
}
