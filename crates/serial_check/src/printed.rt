//! Where the tables of a report differ from those that its entries leave.
ghost use Rattle.std.specs.Prelude.{◌≡◌, IfOk, map};
ghost use Rattle.std.specs.Cmp.Lexicographic.{pointwise};
ghost use Rattle.serial_check.specs.meaning.Places.{table_place};
ghost use Rattle.run_clauses.specs.meaning.Serial.{same_report_table};
ghost use Rattle.run_clauses.specs.meaning.Comparing.{same_printed_rows};
ghost use Rattle.serial_check.specs.Printed.{print_given, print_in};

use crate::place;
use json_form::Pointer;
use outage_schedule::ReportTable;
use std::alloc::Global;
use svc_values::{NoMemory, Row};
use table_store::{TableRows, Tables};

/// Whether a table has this name and these rows.
fn is_same(printed: &ReportTable, table: &TableRows) -> bool
    ensures { result ≡ same_report_table printed.now (print_given table.now) }
{
    printed.name == table.table && are_same(printed.rows.as_slice(), table.rows.as_slice())
}

/// Whether these rows are those, in order. Linear.
fn are_same(printed: &[Row], rows: &[Row]) -> bool
    ensures { result ≡ same_printed_rows printed.now rows.now }
{
    *printed == *rows
}

/// The first table that is printed otherwise, or all of them where only their number differs.
fn differing(
    alloc: Global,
    printed: &[ReportTable],
    tables: &[TableRows],
) -> Result<Option<Pointer>, NoMemory>
    ensures { IfOk result (λ place.
        place ≡ table_place 0 printed.now (map print_given tables.now)) }
{
    for (n, one) in printed.iter().enumerate() {
        match tables.get(n) {
            None => return Ok(Some(place::list(alloc, "tables")?)),
            Some(table) => {
                if !is_same(one, table) {
                    return Ok(Some(place::table(alloc, n)?));
                }
            }
        }
    }
    if printed.len() < tables.len() {
        return Ok(Some(place::list(alloc, "tables")?));
    }
    Ok(None)
}

/// The first of a report's tables that is printed otherwise than the table stands. Linear in the
/// rows.
pub(crate) fn printed_otherwise(
    alloc: Global,
    printed: &[ReportTable],
    tables: Tables,
) -> Result<Option<Pointer>, NoMemory>
    ensures { IfOk result (λ place.
        place ≡ table_place 0 printed.now (map (print_in tables.rows) tables.schemas)) }
{
    let tables = tables.into_rows()?;
    differing(alloc, printed, tables.as_slice())
}

/// Whether a report prints each of the tables as it stands, and no other. Linear in the rows.
pub fn are_printed(alloc: Global, printed: &[ReportTable], tables: Tables) -> Result<bool, NoMemory>
    ensures { IfOk result (λ are. are ≡ pointwise same_report_table printed.now
        (map (print_in tables.rows) tables.schemas)) }
{
    let place = printed_otherwise(alloc, printed, tables)?;
    Ok(place.is_none())
}
