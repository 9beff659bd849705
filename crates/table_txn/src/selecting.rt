//! A select over all rows of a table: those that are committed, with the transaction's own over
//! them.
ghost use Rattle.std.specs.Prelude.{◌≡◌, ◌<◌, ◌≤◌, IfOk, IfSome, IsTrue, OnOk, Some, None, length, nat_lt, option_and_then};
ghost use Rattle.std.specs.Option.{option_copied, option_map};
ghost use Rattle.svc_values.specs.declared.value.Value.{Value as Key};
ghost use Rattle.svc_values.specs.declared.tables.Place.TheVariants as place;
ghost use Rattle.stmt_meaning.specs.meaning.Effects.{limited};
ghost use Rattle.stmt_meaning.specs.meaning.Meaning.{seen_at};
ghost use Rattle.svc_values.specs.meaning.Tables.{with_writes};
ghost use Rattle.svc_values.specs.Fitting.{tables_fit};
ghost use Rattle.svc_values.specs.Tables.{AreTables};
ghost use Rattle.svc_values.specs.meaning.Tests.{selected};
ghost use Rattle.table_store.specs.Rows.{keyed_of, KeysRise};
ghost use Rattle.table_txn.specs.Own.{place_in, last_at};
ghost use Rattle.table_txn.specs.Selecting.{select_answer, with_own};

use crate::latest::Keys;
use crate::own::OwnWrites;
use std::alloc::Global;
use std::collections::BTreeMap;
use svc_values::{
    Answer, Name, NoMemory, Row, Rows, StatementFault, Test, TryCopy, Value, Write, value_meets,
};
use table_store::{Tables, keys_sought, rows_of};

/// The most rows that a select answers.
const ROW_LIMIT: usize = 32;

/// What a select asks for: the rows whose value in a column, told by its place from 0, meets a
/// test.
#[derive(Drop)]
pub(crate) struct Sought {
    pub(crate) column: usize,
    pub(crate) test: Test,
    pub(crate) value: Value,
}

/// The answer of a select that found these rows, or more than it may answer.
fn answer_of(alloc: Global, found: Option<Vec<Row>>) -> Result<Answer, NoMemory>
    requires { IfSome found (λ rows. length rows.items ≤ 32) }
    ensures { IfOk result (λ answer. answer
        ≡ select_answer (option_map (λ rows. rows.items) found)) }
{
    Ok(match found {
        None => Answer::Refused(StatementFault::TooManyRows),
        Some(rows) => Answer::Rows(Rows::of(alloc, rows)?),
    })
}

/// The answer where the transaction wrote nothing in the table.
pub(crate) fn select_committed(
    alloc: Global,
    tables: &Tables,
    own: &OwnWrites,
    table: &Name,
    sought: &Sought,
) -> Result<Answer, NoMemory>
    requires { (key : Key) → last_at own.now table.now key ≡ None }
    ensures { IfOk result (λ answer. answer
        ≡ limited (selected sought.now.column sought.now.test sought.now.value
        (seen_at (with_writes tables.now.rows own.now) (Some (place.Table table.now))))) }
{
    let found = tables.select(table, sought.column, sought.test, &sought.value)?;
    answer_of(alloc, found)
}

/// The row of a write, if there is one and it has one.
fn row_of(write: Option<&Write>) -> Option<&Row>
    ensures { option_copied result ≡ option_and_then
        (λ write. write.row) (option_copied write.entry) }
{
    match write {
        None => None,
        Some(write) => write.row.as_ref(),
    }
}

/// Puts the row of a key's last write to those found, if it has one that is sought.
fn put_own(
    alloc: Global,
    found: &mut BTreeMap<Value, Row>,
    key: &Value,
    write: Option<&Write>,
    sought: &Sought,
) -> Result<(), NoMemory>
    ensures { OnOk result ((q : Key) → keyed_of found.new.entries q
        ≡ with_own sought.now.column sought.now.test sought.now.value
        (option_and_then (λ write. write.row) (option_copied write.entry)) key.now
        (keyed_of found.old.entries q) q) }
{
    let Some(row) = row_of(write) else {
        return Ok(());
    };
    if !value_meets(sought.test, &sought.value, row.get(sought.column)) {
        return Ok(());
    }
    found.insert(key.copy(alloc)?, row.copy(alloc)?)?;
    Ok(())
}

/// Whether these are more rows than a select answers.
fn is_over(found: &BTreeMap<Value, Row>) -> bool
    ensures test { result ≡ nat_lt 32 (length found.now.entries) }
    ensures rising { KeysRise found.now.entries }
{
    found.len() > ROW_LIMIT
}

/// The answer where the transaction wrote these keys in the table. Beside the committed rows that
/// are selected it takes the time of these keys; in the first column, that of those that meet the
/// test.
pub(crate) fn select_over(
    alloc: Global,
    tables: &Tables,
    own: &OwnWrites,
    table: &Name,
    keys: &Keys,
    sought: &Sought,
) -> Result<Answer, NoMemory>
    requires ordered { AreTables tables.now.rows }
    requires fits { IsTrue (tables_fit tables.now.schemas (with_writes tables.now.rows own.now)) }
    requires keys { (key : Key) → place_in (Some keys.now) key ≡ last_at own.now table.now key }
    ensures { IfOk result (λ answer. answer
        ≡ limited (selected sought.now.column sought.now.test sought.now.value
        (seen_at (with_writes tables.now.rows own.now) (Some (place.Table table.now))))) }
{
    let found = tables.select_but(table, sought.column, sought.test, &sought.value, keys)?;
    let Some(mut found) = found else {
        return answer_of(alloc, None);
    };
    let writes = own.writes();
    for (key, at) in keys.range(keys_sought(sought.column, sought.test, &sought.value)) {
        if is_over(&found) {
            return answer_of(alloc, None);
        }
        put_own(alloc, &mut found, key, writes.get(*at), sought)?;
    }
    if is_over(&found) {
        return answer_of(alloc, None);
    }
    answer_of(alloc, Some(rows_of(alloc, found)?))
}
