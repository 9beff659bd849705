//! What is asked of all rows of a table: those that are committed, with the transaction's own over
//! them.
ghost use Rattle.std.specs.Prelude.{◌≡◌, IfOk, IsTrue, Some, None, fold, length, pos, option_to_list, option_and_then};
ghost use Rattle.std.specs.Map.{values_of};
ghost use Rattle.std.specs.Option.{option_copied};
ghost use Rattle.std.specs.Range.Bound.{bound_map};
ghost use Rattle.std.specs.BTreeMap.Range.{entries_between};
ghost use Rattle.svc_values.specs.meaning.Order.{value_cmp};
ghost use Rattle.svc_values.specs.declared.value.Value.{Value as Key};
ghost use Rattle.stmt_meaning.specs.InnerScans.{next_scan, last_answer};
ghost use Rattle.svc_values.specs.declared.tables.Place.TheVariants as place;
ghost use Rattle.stmt_meaning.specs.meaning.Effects.{table_answer};
ghost use Rattle.stmt_meaning.specs.meaning.Meaning.{seen_at};
ghost use Rattle.svc_values.specs.meaning.Tables.{with_writes};
ghost use Rattle.svc_values.specs.Fitting.{tables_fit};
ghost use Rattle.svc_values.specs.Tables.{AreTables};
ghost use Rattle.table_txn.specs.Scanning.{AnswersAs};
ghost use Rattle.table_txn.specs.Found.{keyed_or_none};
ghost use Rattle.table_txn.specs.Own.{place_in, last_at};

use crate::latest::Keys;
use crate::own::OwnWrites;
use crate::selecting::{Sought, select_committed, select_over};
use std::alloc::Global;
use std::ops::Bound;
use stmt_meaning::{Scan, TableWork};
use svc_values::{Answer, Name, NoMemory, Row, Value, Write};
use table_store::{RowMap, Tables};

/// Shows a scan rows, up to one that settles it.
fn show_rows(alloc: Global, mut scan: Scan, rows: &[Row]) -> Result<Scan, NoMemory>
    ensures { IfOk result (λ after. AnswersAs after scan rows.now) }
{
    for row in rows {
        if scan.is_settled() {
            return Ok(scan);
        }
        scan = scan.after(alloc, row)?;
    }
    Ok(scan)
}

/// Shows a scan the committed rows between two keys, up to one that settles it. It takes the
/// logarithm of the rows to find the first.
fn show_between(
    alloc: Global,
    mut scan: Scan,
    rows: Option<&RowMap>,
    from: Bound<&Value>,
    to: Bound<&Value>,
) -> Result<Scan, NoMemory>
    ensures { IfOk result (λ after. AnswersAs after scan
        (values_of (entries_between value_cmp (bound_map (λ x. x.now) from.entry)
        (bound_map (λ x. x.now) to.entry) (keyed_or_none (option_copied rows.entry))))) }
{
    let Some(rows) = rows else {
        return Ok(scan);
    };
    for block in rows.between(from, to) {
        if scan.is_settled() {
            return Ok(scan);
        }
        scan = show_rows(alloc, scan, block.between(from, to))?;
    }
    Ok(scan)
}

/// Shows a scan the row of a write, if there is one and it has one.
fn show_written(alloc: Global, scan: Scan, write: Option<&Write>) -> Result<Scan, NoMemory>
    ensures { IfOk result (λ after. after
        ≡ fold next_scan scan (option_to_list
        (option_and_then (λ write. write.row) (option_copied write.entry)))) }
{
    match write {
        None => Ok(scan),
        Some(write) => match &write.row {
            None => Ok(scan),
            Some(row) => scan.after(alloc, row),
        },
    }
}

/// Shows a scan the committed rows of a table and those that were written, in order of key, up to
/// one that settles it.
fn show_over(
    alloc: Global,
    mut scan: Scan,
    tables: &Tables,
    own: &OwnWrites,
    table: &Name,
    keys: &Keys,
) -> Result<Scan, NoMemory>
    requires ordered { AreTables tables.now.rows }
    requires keys { (key : Key) → place_in (Some keys.now) key ≡ last_at own.now table.now key }
    ensures { IfOk result (λ after. last_answer after
        ≡ last_answer (fold next_scan scan
        (seen_at (with_writes tables.now.rows own.now) (Some (place.Table table.now))))) }
{
    let rows = tables.row_map(table);
    let writes = own.writes();
    let mut from = Bound::Unbounded;
    for (key, at) in keys {
        scan = show_between(alloc, scan, rows, from, Bound::Excluded(key))?;
        scan = show_written(alloc, scan, writes.get(*at))?;
        if scan.is_settled() {
            return Ok(scan);
        }
        from = Bound::Excluded(key);
    }
    show_between(alloc, scan, rows, from, Bound::Unbounded)
}

/// Shows a scan the committed rows of a table in which nothing was written.
fn show_committed(
    alloc: Global,
    scan: Scan,
    tables: &Tables,
    own: &OwnWrites,
    table: &Name,
) -> Result<Scan, NoMemory>
    requires { (key : Key) → last_at own.now table.now key ≡ None }
    ensures { IfOk result (λ after. last_answer after
        ≡ last_answer (fold next_scan scan
        (seen_at (with_writes tables.now.rows own.now) (Some (place.Table table.now))))) }
{
    show_between(
        alloc,
        scan,
        tables.row_map(table),
        Bound::Unbounded,
        Bound::Unbounded,
    )
}

/// How many rows are committed in a table.
fn counted(rows: Option<&RowMap>) -> Result<Answer, NoMemory>
    ensures { IfOk result (λ answer. answer
        ≡ Answer.Number (pos (length (keyed_or_none (option_copied rows.entry))))) }
{
    match rows {
        None => Ok(Answer::Number(0)),
        Some(rows) => Ok(Answer::Number(rows.count()? as i64)),
    }
}

/// The answer from all rows of a table in which nothing was written. A count goes over none of
/// them.
fn committed_answer(
    alloc: Global,
    tables: &Tables,
    own: &OwnWrites,
    table: &Name,
    work: TableWork,
) -> Result<Answer, NoMemory>
    requires { (key : Key) → last_at own.now table.now key ≡ None }
    ensures { IfOk result (λ answer. answer
        ≡ table_answer work (seen_at (with_writes tables.now.rows own.now)
        (Some (place.Table table.now)))) }
{
    match work {
        TableWork::Count => counted(tables.row_map(table)),
        TableWork::Select {
            column,
            test,
            value,
        } => {
            let sought = Sought {
                column,
                test,
                value,
            };
            select_committed(alloc, tables, own, table, &sought)
        }
        work => {
            let scan = Scan::new(alloc, work);
            show_committed(alloc, scan, tables, own, table)?.answer(alloc)
        }
    }
}

/// The answer from all rows of a table in which these keys were written.
fn answer_over(
    alloc: Global,
    tables: &Tables,
    own: &OwnWrites,
    table: &Name,
    keys: &Keys,
    work: TableWork,
) -> Result<Answer, NoMemory>
    requires ordered { AreTables tables.now.rows }
    requires fits { IsTrue (tables_fit tables.now.schemas (with_writes tables.now.rows own.now)) }
    requires keys { (key : Key) → place_in (Some keys.now) key ≡ last_at own.now table.now key }
    ensures { IfOk result (λ answer. answer
        ≡ table_answer work (seen_at (with_writes tables.now.rows own.now)
        (Some (place.Table table.now)))) }
{
    match work {
        TableWork::Select {
            column,
            test,
            value,
        } => {
            let sought = Sought {
                column,
                test,
                value,
            };
            select_over(alloc, tables, own, table, keys, &sought)
        }
        work => {
            let scan = Scan::new(alloc, work);
            show_over(alloc, scan, tables, own, table, keys)?.answer(alloc)
        }
    }
}

/// The answer from all rows of a table, as the transaction sees them. Linear in the committed rows,
/// and in the transaction's own of that table by the logarithm of the committed ones, up to a row
/// that settles it; a count where it wrote none takes as long as a lookup, and a select what
/// `select_committed` and `select_over` take.
pub(crate) fn scan_table(
    alloc: Global,
    tables: &Tables,
    own: &OwnWrites,
    table: &Name,
    work: TableWork,
) -> Result<Answer, NoMemory>
    requires ordered { AreTables tables.now.rows }
    requires fits { IsTrue (tables_fit tables.now.schemas (with_writes tables.now.rows own.now)) }
    ensures { IfOk result (λ answer. answer
        ≡ table_answer work (seen_at (with_writes tables.now.rows own.now)
        (Some (place.Table table.now)))) }
{
    match own.keys(table) {
        None => committed_answer(alloc, tables, own, table, work),
        Some(keys) => answer_over(alloc, tables, own, table, keys, work),
    }
}
