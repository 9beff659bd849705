//! Rows that meet a test.
ghost use Rattle.std.specs.Prelude.{◌≡◌, ◌≤◌, ◌++◌, ◌&&◌, not, IfOk, OnOk, length, map, if◌then◌else◌};
ghost use Rattle.std.specs.Map.{values_of};
ghost use Rattle.std.specs.Option.{option_map, option_or};
ghost use Rattle.std.specs.Range.Bound.{bound_map};
ghost use Rattle.svc_values.specs.declared.value.Value.{Value as ValueSeen};
ghost use Rattle.table_store.specs.Given.{keyed};
ghost use Rattle.table_store.specs.Indexes.{IsIndexOf, is_spot_of};
ghost use Rattle.table_store.specs.Rows.{keyed_of, KeysFirst, KeysRise};
ghost use Rattle.table_store.specs.Selection.{TakesAll, apart_from, at_most_32, is_among, meeting};
ghost use Rattle.table_store.specs.Selection.{keys_sought as keys_sought_def};

use crate::column_index::{ColumnIndex, Pair, Spot, ends};
use crate::row_map::{RowMap, key_of};
use std::alloc::Global;
use std::collections::BTreeMap;
use std::ops::Bound;
use svc_values::{NoMemory, Row, Test, TryCopy, Value, value_meets};

/// The most rows that a select answers.
const ROW_LIMIT: usize = 32;

/// Between which keys the rows stand whose value in a column, told by its place from 0, may meet a
/// test. The first column has the keys, and there these are the keys that meet it; in any other
/// column they are all. It takes no memory.
pub fn keys_sought(column: usize, test: Test, value: &Value) -> (Bound<&Value>, Bound<&Value>)
    ensures from { bound_map (λ key. key.now) result.0 ≡ (keys_sought_def column test value.now).0 }
    ensures to { bound_map (λ key. key.now) result.1 ≡ (keys_sought_def column test value.now).1 }
{
    if column != 0 {
        return (Bound::Unbounded, Bound::Unbounded);
    }
    match test {
        Test::Eq => (Bound::Included(value), Bound::Included(value)),
        Test::Lt => (Bound::Unbounded, Bound::Excluded(value)),
        Test::Ge => (Bound::Included(value), Bound::Unbounded),
    }
}

/// Copies of the rows whose value in a column meets the test and whose keys are none of these, by
/// their keys, unless they are more than 32. In the first column, that of the keys, it takes the
/// logarithm of the rows and 33 of them at most beside those of these keys, and else it is linear
/// in the rows.
pub(crate) fn found_in(
    alloc: Global,
    rows: &RowMap,
    column: usize,
    test: Test,
    value: &Value,
    but: &BTreeMap<Value, usize>,
) -> Result<Option<BTreeMap<Value, Row>>, NoMemory>
    requires { KeysFirst rows.now }
    ensures { IfOk result (λ found. option_map (λ rows. rows.entries) found
        ≡ at_most_32 (apart_from but.now (meeting column test value.now rows.now))) }
{
    let mut found = BTreeMap::new(alloc);
    let (from, to) = keys_sought(column, test, value);
    for block in rows.between(from, to) {
        let rows = block.between(from, to);
        if !take_rows(alloc, rows, column, test, value, but, &mut found)? {
            return Ok(None);
        }
    }
    Ok(Some(found))
}

/// Puts copies of those of these rows to those found, up to 32 rows. Whether there are no more.
fn take_rows(
    alloc: Global,
    rows: &[Row],
    column: usize,
    test: Test,
    value: &Value,
    but: &BTreeMap<Value, usize>,
    found: &mut BTreeMap<Value, Row>,
) -> Result<bool, NoMemory>
    requires rising { KeysRise (found.old.entries ++ apart_from but.now
        (meeting column test value.now (map keyed rows.now))) }
    requires fits { length found.old.entries ≤ 32 }
    ensures { IfOk result (TakesAll (found.old.entries ++ apart_from but.now
        (meeting column test value.now (map keyed rows.now))) found.new.entries) }
{
    for row in rows {
        if !value_meets(test, value, row.get(column)) {
            continue;
        }
        let key = key_of(alloc, row)?;
        if but.contains_key(&key) {
            continue;
        }
        if found.len() >= ROW_LIMIT {
            return Ok(false);
        }
        found.insert(key, row.copy(alloc)?)?;
    }
    Ok(true)
}

/// Puts a copy of the row at a pair's key to those found, unless the key is one of these.
fn take_row(
    alloc: Global,
    rows: &RowMap,
    but: &BTreeMap<Value, usize>,
    pair: &Pair,
    found: &mut BTreeMap<Value, Row>,
) -> Result<(), NoMemory>
    ensures { OnOk result ((q : ValueSeen)
        → keyed_of found.new.entries q ≡ (if is_spot_of pair.now.spot q
        && not (is_among but.now q) then
        option_or (keyed_of rows.now q) (keyed_of found.old.entries q) else keyed_of
        found.old.entries q)) }
{
    let Spot::At(key) = &pair.spot else {
        return Ok(());
    };
    if but.contains_key(key) {
        return Ok(());
    }
    let Some(row) = rows.get(key) else {
        return Ok(());
    };
    found.insert(key.copy(alloc)?, row.copy(alloc)?)?;
    Ok(())
}

/// The same rows by the index of the column. It takes the logarithm of the rows and 33 of them at
/// most, beside those of these keys.
pub(crate) fn found_by(
    alloc: Global,
    index: &ColumnIndex,
    rows: &RowMap,
    test: Test,
    value: &Value,
    but: &BTreeMap<Value, usize>,
) -> Result<Option<BTreeMap<Value, Row>>, NoMemory>
    requires { IsIndexOf (keyed_of rows.now) index.now }
    ensures { IfOk result (λ found. option_map (λ rows. rows.entries) found
        ≡ at_most_32 (apart_from but.now (meeting index.now.column test value.now rows.now))) }
{
    let _ = rows.blocks();
    let mut found = BTreeMap::new(alloc);
    for pair in index.pairs.range(ends(alloc, test, value)?) {
        if found.len() > ROW_LIMIT {
            return Ok(None);
        }
        take_row(alloc, rows, but, pair, &mut found)?;
    }
    if found.len() > ROW_LIMIT {
        return Ok(None);
    }
    Ok(Some(found))
}

/// The rows of a map in order of key, which are moved. Linear.
pub fn rows_of(alloc: Global, rows: BTreeMap<Value, Row>) -> Result<Vec<Row>, NoMemory>
    ensures { IfOk result (λ made. made.items ≡ values_of rows.entries) }
{
    Ok(rows.into_values().collect(alloc)?)
}
