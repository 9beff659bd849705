//! What is counted over a report.
ghost use Rattle.std.specs.Prelude.{◌≡◌, IfOk};
ghost use Rattle.stmt_meaning.specs.meaning.Effects.{total as column_total};
ghost use Rattle.load_document.specs.meaning.Loads.{first_rows as first_rows_def};
ghost use Rattle.load_document.specs.meaning.Lines.{line_of as line_def};

use crate::counts::ends_of_all;
use outage_schedule::{Report, ReportTable};
use stmt_meaning::number_at;
use svc_values::{NoMemory, Row};

/// How many shown calls ended with Committed and with Conflict, how many entries and how many
/// events there were, how many requests failed, and what stands on all accounts.
#[derive(Clone, Copy)]
pub struct LoadLine {
    pub committed: u64,
    pub conflict: u64,
    pub entries: u64,
    pub events: u64,
    pub failed: u64,
    pub total: i64,
}

/// The rows of the first table.
fn first_rows(tables: &[ReportTable]) -> &[Row]
    ensures { result.now ≡ first_rows_def tables.now }
{
    match tables {
        [] => &[],
        [table, ..] => table.rows.as_slice(),
    }
}

/// The sum of the second column. A sum past what its type holds is refused as want of memory.
fn balances(rows: &[Row]) -> Result<i64, NoMemory>
    ensures { IfOk result (λ total. total ≡ column_total 1 rows.now) }
{
    match rows {
        [] => Ok(0),
        [row, others @ ..] => {
            let total = balances(others)?;
            number_at(row, 1).checked_add(total).ok_or(NoMemory)
        }
    }
}

/// The counts of a report. One that its type does not hold is refused as want of memory. Linear in
/// the report, and takes no memory.
pub fn line_of(report: &Report) -> Result<LoadLine, NoMemory>
    ensures { IfOk result (λ line. line ≡ line_def report.now) }
{
    let ends = ends_of_all(report.clients.as_slice())?;
    let total = balances(first_rows(report.tables.as_slice()))?;
    Ok(LoadLine {
        committed: ends.committed,
        conflict: ends.conflict,
        entries: report.entries.len() as u64,
        events: report.notes.len() as u64,
        failed: ends.failed,
        total,
    })
}
